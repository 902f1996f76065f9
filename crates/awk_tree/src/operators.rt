// What the signs and words of an expression do.

/// `+`, `-`, `*`, `/` and `%`.
#[derive(Clone, Copy, PartialEq, Eq, Drop)]
pub enum Arithmetic {
    Add,
    Subtract,
    Multiply,
    Divide,
    Remainder,
}

/// `!`, `+` and `-` before an operand.
#[derive(Clone, Copy, PartialEq, Eq, Drop)]
pub enum Sign {
    Not,
    Plus,
    Minus,
}

/// The six comparisons.
#[derive(Clone, Copy, PartialEq, Eq, Drop)]
pub enum Comparison {
    Less,
    LessOrEqual,
    Equal,
    NotEqual,
    Greater,
    GreaterOrEqual,
}

/// Where output goes.
#[derive(Clone, Copy, PartialEq, Eq, Drop)]
pub enum Redirect {
    /// `>`
    Write,
    /// `>>`
    Append,
    /// `|`
    Command,
}
