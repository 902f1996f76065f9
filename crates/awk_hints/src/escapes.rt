// Escapes in EREs that gawk reads as operators.

/// What of an ERE the next byte goes on with.
#[derive(Clone, Copy, Drop)]
pub enum Part {
    Outside,
    /// Behind a `\` outside bracket expressions.
    Escape,
    /// Directly behind a `[`, where a `]` is itself.
    Begun,
    /// In a bracket expression.
    Bracket,
    /// The same behind a `[^`.
    Negated,
    /// Behind a `\` in a bracket expression.
    BracketEscape,
    /// Behind a `[` in a bracket expression, which a class may begin with.
    ClassBegun,
    Class,
    /// Behind a `:` in a class.
    ClassEnd,
}

fn outside(b: u8) -> Part {
    match b {
        b'\\' => Part::Escape,
        b'[' => Part::Begun,
        _ => Part::Outside,
    }
}

fn in_bracket(b: u8) -> Part {
    match b {
        b']' => Part::Outside,
        b'\\' => Part::BracketEscape,
        b'[' => Part::ClassBegun,
        _ => Part::Bracket,
    }
}

fn begun(b: u8) -> Part {
    match b {
        b'^' => Part::Negated,
        b']' => Part::Bracket,
        _ => in_bracket(b),
    }
}

fn negated(b: u8) -> Part {
    if b == b']' {
        Part::Bracket
    } else {
        in_bracket(b)
    }
}

fn class_begun(b: u8) -> Part {
    if b == b':' {
        Part::Class
    } else {
        in_bracket(b)
    }
}

fn in_class(b: u8) -> Part {
    if b == b':' {
        Part::ClassEnd
    } else {
        Part::Class
    }
}

fn class_end(b: u8) -> Part {
    if b == b']' {
        Part::Bracket
    } else {
        in_class(b)
    }
}

/// What follows behind this byte.
pub fn behind(part: Part, b: u8) -> Part {
    match part {
        Part::Outside => outside(b),
        Part::Escape => Part::Outside,
        Part::Begun => begun(b),
        Part::Negated => negated(b),
        Part::Bracket => in_bracket(b),
        Part::BracketEscape => Part::Bracket,
        Part::ClassBegun => class_begun(b),
        Part::Class => in_class(b),
        Part::ClassEnd => class_end(b),
    }
}

/// Whether gawk reads `\` before this letter as an operator.
pub fn is_operator(letter: u8) -> bool {
    matches!(letter, b's' | b'S' | b'w' | b'W' | b'y' | b'<' | b'>')
}
