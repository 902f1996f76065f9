// Words and names, by the bytes that they are spelled of.

ghost use Rattle.std.specs.Prelude.{◌≡◌};
ghost use Rattle.std.specs.List.{list_all};
ghost use Rattle.awk_tokens.specs.Bytes as bytes;
ghost use Rattle.awk_tokens.specs.Words as spec;

use crate::kinds::TokenKind;
use crate::words::{kind_of, reserved};
use awk_numbers::number::Numbers;

/// Whether a byte begins a word or name: an ASCII letter or `_`.
pub fn begins_name(b: u8) -> bool
    ensures { result ≡ bytes.begins_name b }
{
    b.is_ascii_alphabetic() || b == b'_'
}

/// Whether a byte goes on in a word or name: an ASCII letter, a digit or `_`.
pub fn continues_name(b: u8) -> bool
    ensures { result ≡ bytes.continues_name b }
{
    b.is_ascii_alphanumeric() || b == b'_'
}

fn continues(text: &[u8]) -> bool
    ensures { result ≡ list_all bytes.continues_name text.now }
{
    text.iter().all(|b| continues_name(*b))
}

/// Whether a text is spelled as a name: a letter or `_`, then letters, digits and `_`. Words of the
/// language are spelled so too, and [`reserved`] tells them apart.
pub fn is_name(text: &[u8]) -> bool
    ensures { result ≡ spec.is_name text.now }
{
    match text {
        [first, rest @ ..] => begins_name(*first) && continues(rest),
        [] => false,
    }
}

/// The kind of a word or name, before this rest of the script.
pub fn word_kind(numbers: Numbers, word: &[u8], rest: &[u8]) -> TokenKind
    ensures { result ≡ spec.word_kind numbers word.now rest.now }
{
    match reserved(word) {
        Some(found) => kind_of(numbers, found),
        None if rest.first() == Some(&b'(') => TokenKind::CallName,
        None => TokenKind::Name,
    }
}
