// Where bytes stand in texts.
use crate::cuts::cut;

/// The place of the first byte of this value.
pub(crate) fn first_place(text: &[u8], byte: u8) -> Option<usize> {
    text.iter().position(|b| *b == byte)
}

/// The place of the last byte of this value.
pub(crate) fn last_place(text: &[u8], byte: u8) -> Option<usize> {
    text.iter().rposition(|b| *b == byte)
}

/// What stands before the first byte of this value: all, where there is none.
pub(crate) fn before_first(text: &[u8], byte: u8) -> &[u8] {
    match cut(text, byte) {
        Some(halves) => halves.front,
        None => text,
    }
}

/// The place behind the last byte of this value: the start, where there is none.
pub(crate) fn behind_last(text: &[u8], byte: u8) -> usize {
    match last_place(text, byte) {
        Some(at) => at.saturating_add(1),
        None => 0,
    }
}

pub(crate) fn is_newline(byte: &u8) -> bool {
    *byte == b'\n'
}
