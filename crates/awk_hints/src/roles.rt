// What a name is used as where it stands.
use crate::around::{Around, is_word, sign_of};
use crate::levels::{Level, Opening};
use awk_tokens::{Token, TokenKind};

/// What one appearance of a name does.
#[derive(Clone, Copy, Drop)]
pub enum Role {
    /// It names the function that is defined.
    Defined,
    /// It is set to a value.
    Set,
    /// It may change, and what it was may count too: a step, an element, what a statement or a function fills, a call.
    Changed,
    Read,
}

/// Whether the token is the word `function`.
pub fn is_function(token: Option<&Token>) -> bool {
    is_word(token, b"function") || is_word(token, b"func")
}

fn is_step(sign: (u8, u8)) -> bool {
    matches!(sign, (b'+', b'+') | (b'-', b'-'))
}

/// Whether a name before this sign changes.
fn changes(sign: (u8, u8)) -> bool {
    match sign {
        (b'[', 0) => true,
        (b'+' | b'-' | b'*' | b'/' | b'%' | b'^', b'=') => true,
        _ => is_step(sign),
    }
}

/// Whether the name stands by itself between the commas and brackets of a list.
fn is_whole(around: Around<'_>) -> bool {
    matches!(sign_of(around.back(1)).0, b'(' | b',')
        && matches!(sign_of(around.next(1)).0, b')' | b',')
}

/// Whether a function or a loop fills what stands here.
fn is_filled(around: Around<'_>, level: Level) -> bool {
    match (level.opening, level.part) {
        (Opening::Header, _) => is_word(around.next(1), b"in"),
        (Opening::Call, _) | (Opening::Split, 1) | (Opening::Replaced, 2) => is_whole(around),
        _ => false,
    }
}

/// What the variable at this token does.
fn role_of_variable(around: Around<'_>, inner: Option<Level>) -> Role {
    let before = around.back(1);
    let behind = sign_of(around.next(1));
    if changes(behind) || is_step(sign_of(before)) || is_word(before, b"getline") {
        return Role::Changed;
    }
    if matches!(behind, (b'=', 0)) {
        return Role::Set;
    }
    match inner {
        Some(level) if is_filled(around, level) => Role::Changed,
        _ => Role::Read,
    }
}

/// What the name at this token does.
pub fn role_of(around: Around<'_>, inner: Option<Level>) -> Role {
    if is_function(around.back(1)) {
        return Role::Defined;
    }
    match around.token.kind {
        TokenKind::CallName => Role::Changed,
        _ => role_of_variable(around, inner),
    }
}
