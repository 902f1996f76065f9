// A token.

use crate::kinds::TokenKind;
use awk_text::octets::Octets;
use awk_text::place::Place;

/// A token of a script.
#[derive(Drop)]
pub struct Token {
    pub kind: TokenKind,
    /// The bytes of the token. Those of a string stand without its quotes and with their escapes as
    /// written; those of a pattern stand without its slashes, and `/` where `\/` was written.
    pub text: Octets,
    /// How many bytes of the script stand before the token.
    pub start: usize,
    /// The place of its first byte.
    pub place: Place,
    /// The place directly after its last byte.
    pub end: Place,
}
