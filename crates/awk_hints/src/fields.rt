// Fields compared with 0.
use crate::around::{Around, number_of, sign, sign_of};
use awk_tokens::{Token, TokenKind};

/// Whether the sign can stand on both sides of a comparison.
fn is_loose(sign: (u8, u8)) -> bool {
    match sign {
        (b'\n' | b';' | b'{' | b'}' | b',' | b'?' | b':', 0) => true,
        (b'&', b'&') | (b'|', b'|') => true,
        _ => false,
    }
}

/// Whether a comparison may begin directly behind this token.
fn begins_behind(token: Option<&Token>) -> bool {
    match token {
        Some(token) => match token.kind {
            TokenKind::Sign => {
                let sign = sign(token);
                is_loose(sign) || matches!(sign, (b'(' | b'[' | b'=', 0))
            }
            // the words behind which an operand may stand: `print`, `return` and their like; getline alone makes
            // an expression of what follows
            TokenKind::Keyword => token.text.bytes() != b"getline".as_slice(),
            _ => false,
        },
        None => true,
    }
}

/// Whether a comparison may end directly before this token.
fn ends_before(token: Option<&Token>) -> bool {
    match token {
        Some(token) => {
            let sign = sign(token);
            is_loose(sign) || matches!(sign, (b')' | b']', 0))
        }
        None => true,
    }
}

/// Whether `$` before this token may name a field that is not there: not `$0`, and not `$NF`.
fn may_be_unset(token: Option<&Token>) -> bool {
    match token {
        Some(token) => match token.kind {
            TokenKind::Name => token.text.bytes() != b"NF".as_slice(),
            TokenKind::Number => !is_zero(Some(token)),
            _ => false,
        },
        None => false,
    }
}

fn is_zero(token: Option<&Token>) -> bool {
    number_of(token) == Some(0)
}

/// Whether a field stands on the left of this sign, and 0 on its right.
fn is_field_first(around: Around<'_>) -> bool {
    is_zero(around.next(1))
        && may_be_unset(around.back(1))
        && sign_of(around.back(2)).0 == b'$'
        && begins_behind(around.back(3))
        && ends_before(around.next(2))
}

/// Whether 0 stands on the left of this sign, and a field on its right.
fn is_field_last(around: Around<'_>) -> bool {
    is_zero(around.back(1))
        && sign_of(around.next(1)).0 == b'$'
        && may_be_unset(around.next(2))
        && begins_behind(around.back(2))
        && ends_before(around.next(3))
}

/// Whether the token compares a field with 0 so that one that is not there gives another answer than elsewhere, where
/// it is compared as an empty text.
pub fn compares_unset(around: Around<'_>) -> bool {
    match sign(around.token) {
        (b'=', b'=') | (b'!', b'=') => is_field_first(around) || is_field_last(around),
        (b'<', 0) | (b'>', b'=') => is_field_first(around),
        (b'>', 0) | (b'<', b'=') => is_field_last(around),
        _ => false,
    }
}
