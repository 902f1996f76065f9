// A token among its neighbours.
ghost use Rattle.std.specs.Prelude.{◌≡◌, is_some};
ghost use Rattle.std.specs.Option.{option_copied};
ghost use Rattle.awk_hints.specs.Causes as spec;

use awk_numbers::number::Number;
use awk_numbers::numeral::number;
use awk_text::arithmetic::clamped;
use awk_tokens::{Token, TokenKind};

/// A token, and what stands before and behind it.
#[derive(Clone, Copy, Drop)]
pub struct Around<'a> {
    pub before: &'a [Token],
    pub token: &'a Token,
    pub after: &'a [Token],
}

impl<'a> Around<'a> {
    /// The token that stands this many before it.
    pub fn back(&self, count: usize) -> Option<&'a Token> {
        match self.before.len().checked_sub(count) {
            Some(at) => self.before.get(at),
            None => None,
        }
    }

    /// The token that stands this many behind it.
    pub fn next(&self, count: usize) -> Option<&'a Token> {
        match count.checked_sub(1) {
            Some(at) => self.after.get(at),
            None => None,
        }
    }
}

/// The bytes of a sign: the second is 0 of one that has one, and both are of what is none.
pub fn sign(token: &Token) -> (u8, u8) {
    match token.kind {
        TokenKind::Sign => match token.text.bytes() {
            [a] => (*a, 0),
            [a, b] => (*a, *b),
            _ => (0, 0),
        },
        _ => (0, 0),
    }
}

/// The same, where there may be no token.
pub fn sign_of(token: Option<&Token>) -> (u8, u8) {
    match token {
        Some(token) => sign(token),
        None => (0, 0),
    }
}

/// Whether it is the word of the grammar that is spelled so.
pub fn is_word(token: Option<&Token>, word: &[u8]) -> bool {
    match token {
        Some(token) => match token.kind {
            TokenKind::Keyword => token.text.bytes() == word,
            _ => false,
        },
        None => false,
    }
}

/// Whether it is the word of this built-in function.
pub fn is_builtin(token: Option<&Token>, word: &[u8]) -> bool {
    match token {
        Some(token) => match token.kind {
            TokenKind::Builtin => token.text.bytes() == word,
            _ => false,
        },
        None => false,
    }
}

/// The value of a number, where it is one; at most `u64::MAX`. Of one with a fraction it is what stands before the
/// point, and 1 where that is 0.
pub fn number_of(token: Option<&Token>) -> Option<u64>
    ensures { is_some result ≡ spec.is_number (option_copied token.entry) }
{
    match token {
        Some(token) => match token.kind {
            TokenKind::Number => Some(value_of(token.text.bytes())),
            _ => None,
        },
        None => None,
    }
}

fn value_of(text: &[u8]) -> u64 {
    if text.iter().all(|b| b.is_ascii_digit()) {
        return value_of_digits(text);
    }
    match number(text) {
        Ok(Number::Whole(n)) => n.unsigned_abs(),
        // none between 0 and 1 is 0
        Ok(fraction) => clamped(fraction).unsigned_abs().max(1),
        Err(_) => u64::MAX,
    }
}

fn value_of_digits(digits: &[u8]) -> u64 {
    let mut value = 0u64;
    for b in digits {
        value = value
            .saturating_mul(10)
            .saturating_add(b.saturating_sub(b'0') as u64);
    }
    value
}

/// Whether an argument ends before this token.
pub fn ends_argument(token: Option<&Token>) -> bool {
    match token {
        Some(token) => matches!(sign(token).0, b',' | b')' | b';' | b'}' | b'\n'),
        None => true,
    }
}
