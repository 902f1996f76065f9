// Constant formats of `printf` and `sprintf`.
ghost use Rattle.std.specs.Prelude.{◌≡◌, true, IfSome};
ghost use Rattle.awk_hints.specs.Causes.{is_of_format};

use crate::around::{Around, ends_argument, is_builtin, is_word, number_of, sign, sign_of};
use crate::hint::HintKind;
use awk_numbers::number::Numbers;
use awk_tokens::Token;

/// How far a format is read.
#[derive(Clone, Copy, Drop)]
enum Reading {
    Text,
    /// Behind a `%`, with a `*` or without one.
    Directive(bool),
    /// Directly behind the conversion of a directive.
    Conversion(bool, u8),
}

/// Whether the byte may stand between `%` and the conversion, in C too.
fn is_inner(b: u8) -> bool {
    matches!(
        b,
        b'-' | b'+' | b' ' | b'#' | b'.' | b'*' | b'0'..=b'9' | b'h' | b'l' | b'L'
    )
}

fn read(reading: Reading, b: u8) -> Reading {
    match reading {
        Reading::Directive(has_star) => {
            if is_inner(b) {
                Reading::Directive(has_star || b == b'*')
            } else {
                Reading::Conversion(has_star, b)
            }
        }
        Reading::Text | Reading::Conversion(_, _) => {
            if b == b'%' {
                Reading::Directive(false)
            } else {
                Reading::Text
            }
        }
    }
}

fn flaw_of(numbers: Numbers, has_star: bool, conversion: u8) -> Option<HintKind>
    ensures { IfSome result (λ kind. is_of_format kind ≡ true) }
{
    if has_star {
        return Some(HintKind::Star);
    }
    match (numbers, conversion) {
        (_, b'a' | b'A') => Some(HintKind::Fraction(conversion)),
        (Numbers::Whole, b'e' | b'f' | b'g' | b'E' | b'F' | b'G') => {
            Some(HintKind::Fraction(conversion))
        }
        _ => None,
    }
}

/// The first directive that these numbers have not.
pub fn flaw_in(numbers: Numbers, format: &[u8]) -> Option<HintKind>
    ensures { IfSome result (λ kind. is_of_format kind ≡ true) }
{
    let mut reading = Reading::Text;
    for b in format {
        reading = read(reading, *b);
        if let Reading::Conversion(has_star, conversion) = reading {
            if let Some(kind) = flaw_of(numbers, has_star, conversion) {
                return Some(kind);
            }
        }
    }
    None
}

/// What stands behind the next `,` outside brackets; nothing where the arguments end before.
fn behind_comma(tokens: &[Token]) -> &[Token] {
    let mut depth = 0usize;
    let mut rest = tokens;
    while let [token, after @ ..] = rest {
        rest = after;
        match sign(token).0 {
            b'(' | b'[' => depth = depth.saturating_add(1),
            b')' | b']' if depth != 0 => depth = depth.saturating_sub(1),
            b',' if depth == 0 => return after,
            b')' | b']' | b';' | b'{' | b'}' => return &[],
            _ => {}
        }
    }
    rest
}

/// Whether the first argument of these is a constant above 255.
fn is_wide(arguments: &[Token]) -> bool {
    match number_of(arguments.first()) {
        Some(value) => value > 255 && ends_argument(arguments.get(1)),
        None => false,
    }
}

/// Whether a `%c` of the format takes a constant above 255, where these tokens stand behind the format.
pub fn has_wide(format: &[u8], after: &[Token]) -> bool {
    let mut reading = Reading::Text;
    let mut arguments = after;
    for b in format {
        reading = read(reading, *b);
        if let Reading::Conversion(_, conversion) = reading {
            if conversion != b'%' {
                arguments = behind_comma(arguments);
                if conversion == b'c' && is_wide(arguments) {
                    return true;
                }
            }
        }
    }
    false
}

/// Whether a string is the format of `printf` or `sprintf`, or begins it.
pub fn is_format(around: Around<'_>) -> bool {
    let before = around.back(1);
    if is_word(before, b"printf") {
        return true;
    }
    let word = around.back(2);
    sign_of(before).0 == b'(' && (is_word(word, b"printf") || is_builtin(word, b"sprintf"))
}
