// Divisions, whose fraction is dropped.
ghost use Rattle.std.specs.Prelude.{◌≡◌, true, false, codes, IsTrue};
ghost use Rattle.std.specs.Str.{bytes_eq};
ghost use Rattle.awk_hints.specs.Causes as spec;

use crate::around::{Around, is_builtin, number_of, sign, sign_of};
use awk_tokens::{Token, TokenKind};

/// How far tokens are read that may be a quotient.
#[derive(Clone, Copy, Drop)]
struct Reading {
    depth: usize,
    /// Whether a `/` was met outside brackets.
    divides: bool,
    /// Whether an operand ended directly before.
    has_operand: bool,
}

/// What a sign outside brackets makes of it; `None` where it is no quotient then.
fn read_sign(at: Reading, first: u8, second: u8) -> Option<Reading> {
    let mut next = at;
    match (first, second) {
        (b'(' | b'[', 0) => {
            next.depth = 1;
            next.has_operand = false;
        }
        (b'/', 0) => {
            next.divides = true;
            next.has_operand = false;
        }
        (b'*' | b'%', 0) if at.divides => return None,
        (b'+' | b'-', 0) if at.has_operand => return None,
        (b'*' | b'%' | b'^' | b'+' | b'-' | b'$', 0) => next.has_operand = false,
        (b'+', b'+') | (b'-', b'-') => {}
        _ => return None,
    }
    Some(next)
}

/// What another token within brackets makes of it.
fn read_within(at: Reading, first: u8) -> Reading {
    let mut next = at;
    match first {
        b'(' | b'[' => next.depth = at.depth.saturating_add(1),
        b')' | b']' => next.depth = at.depth.saturating_sub(1),
        _ => {}
    }
    next.has_operand = true;
    next
}

fn read(at: Reading, token: &Token) -> Option<Reading> {
    let (first, second) = sign(token);
    if at.depth != 0 {
        return Some(read_within(at, first));
    }
    match token.kind {
        TokenKind::Sign => read_sign(at, first, second),
        TokenKind::Keyword => None,
        _ => Some(Reading {
            has_operand: true,
            ..at
        }),
    }
}

/// Whether the tokens up to the `)` that is open before them are one division, or several that follow each other, of
/// which nothing but the quotient is left: then a fraction that is dropped within is dropped behind it too.
pub fn is_quotient(tokens: &[Token]) -> bool {
    let mut at = Reading {
        depth: 0,
        divides: false,
        has_operand: false,
    };
    for token in tokens {
        if at.depth == 0 && sign(token).0 == b')' {
            return at.divides;
        }
        match read(at, token) {
            Some(next) => at = next,
            None => return false,
        }
    }
    false
}

/// Whether the built-in function `int` stands among these.
pub fn names_int(tokens: &[Token]) -> bool
    ensures { result ≡ spec.names_int tokens.now }
{
    for token in tokens {
        if is_int(token) {
            return true;
        }
    }
    false
}

fn is_int(token: &Token) -> bool
    ensures { result ≡ spec.is_int_word token.now.kind token.now.text }
{
    match token.kind {
        TokenKind::Builtin => token.text.bytes() == b"int".as_slice(),
        _ => false,
    }
}

/// Whether what stands before a number binds it more tightly than a division, or divides by it.
fn takes(token: Option<&Token>) -> bool {
    match sign_of(token) {
        (b'^' | b'%' | b'/' | b'$' | b'!', 0) => true,
        (b'+', b'+') | (b'-', b'-') => true,
        _ => false,
    }
}

/// Whether a constant is divided by one that divides it.
fn is_exact(around: Around<'_>) -> bool
    ensures { IsTrue result → spec.is_between_numbers around.entry.before.now around.entry.after.now ≡ true }
{
    match (
        number_of(around.before.last()),
        number_of(around.after.first()),
    ) {
        (Some(dividend), Some(divisor)) => {
            divisor != 0
                && dividend % divisor == 0
                && !takes(around.back(2))
                && sign_of(around.next(2)).0 != b'^'
        }
        _ => false,
    }
}

/// Whether the sign divides, and a fraction may be lost; `excused` says that it would be dropped behind it too.
pub fn divides(around: Around<'_>, excused: bool) -> bool
    ensures division { IsTrue result → spec.is_division around.entry.token.now.text ≡ true }
    ensures sets { bytes_eq around.entry.token.now.text (codes "/=") ≡ true → result ≡ true }
    ensures divides { bytes_eq around.entry.token.now.text (codes "/") ≡ true → excused ≡ false →
        spec.is_between_numbers around.entry.before.now around.entry.after.now ≡ false → result ≡ true }
{
    let text = around.token.text.bytes();
    if text == b"/=".as_slice() {
        return true;
    }
    text == b"/".as_slice() && !excused && !is_exact(around)
}
