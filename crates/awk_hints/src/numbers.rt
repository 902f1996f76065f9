// Numbers that are not what they seem.
use crate::around::{Around, ends_argument, number_of, sign, sign_of};
use crate::levels::{Level, Opening};
use awk_tokens::{Token, TokenKind};

/// Whether the token begins the second argument of `substr`.
fn is_start(around: Around<'_>, inner: Option<Level>) -> bool {
    match inner {
        Some(
            Level {
                opening: Opening::Substr,
                part: 1,
            },
        ) => sign_of(around.back(1)).0 == b',',
        _ => false,
    }
}

/// Whether the token begins a constant below 1 that is the start of `substr`.
pub fn starts_early(around: Around<'_>, inner: Option<Level>) -> bool {
    if !is_start(around, inner) {
        return false;
    }
    if sign(around.token).0 == b'-' {
        return number_of(around.next(1)).is_some() && ends_argument(around.next(2));
    }
    number_of(Some(around.token)) == Some(0) && ends_argument(around.next(1))
}

/// Whether the bytes are those of a hexadecimal number, all of them digits.
fn are_hex(digits: &[u8]) -> bool {
    for b in digits {
        if !b.is_ascii_hexdigit() {
            return false;
        }
    }
    !digits.is_empty()
}

fn is_hex(name: &[u8]) -> bool {
    match name {
        [b'x' | b'X', digits @ ..] => are_hex(digits),
        _ => false,
    }
}

/// Whether the second token is a name, and stands directly behind the first.
pub fn is_joined(first: &Token, second: &Token) -> bool {
    match second.kind {
        TokenKind::Name => first.start.checked_add(first.text.bytes().len()) == Some(second.start),
        _ => false,
    }
}

/// Whether the token is the 0 of what is a hexadecimal number to others.
pub fn begins_hex(around: Around<'_>) -> bool {
    match around.next(1) {
        Some(name) => {
            is_joined(around.token, name)
                && is_hex(name.text.bytes())
                && around.token.text.bytes() == b"0".as_slice()
        }
        None => false,
    }
}
