// Texts as the log quotes them, read again.
ghost use Rattle.std.specs.Prelude.{◌≡◌, ◌∷◌, ◌++◌, ◌<◌, ◌/◌, ◌%◌, ℕ, List, length, All};
ghost use Rattle.std.specs.Prelude.{IfOk, IfSome, MatchOption};
ghost use Rattle.std.specs.Str.{bytes_eq};
ghost use Rattle.awk_text.specs.Quoted.{hex_digit, quoted, quoted_byte};

use awk_text::Memory;
use awk_text::octets::Octets;
use awk_text::quote::quote_log;
use std::alloc::{AllocError, Global};

fn digit_value(digit: u8) -> Option<u8>
    ensures { (n : ℕ) → n < 16 → digit ≡ hex_digit n → MatchOption result ⊥ (λ v. v ≡ n) }
{
    match digit {
        b'0'..=b'9' => Some(digit - b'0'),
        b'a'..=b'f' => Some(digit - b'a' + 10),
        _ => None,
    }
}

// The byte that two hexadecimal digits name.
fn byte_named(high: u8, low: u8) -> Option<u8>
    ensures { (n : ℕ) → n < 256 → high ≡ hex_digit (n / 16) → low ≡ hex_digit (n % 16) →
        MatchOption result ⊥ (λ byte. byte ≡ n) }
{
    let high = digit_value(high)?;
    let low = digit_value(low)?;
    Some(high.wrapping_mul(16).wrapping_add(low))
}

/// A byte, and what stands behind what quotes it.
#[derive(Clone, Copy, Drop)]
struct NextByte<'a> {
    byte: u8,
    rest: &'a [u8],
}

// The byte whose digits stand behind a backslash.
fn escaped_byte(line: &[u8]) -> Option<NextByte<'_>>
    ensures shorter { IfSome result (λ one. length one.rest.now < length line.now) }
    ensures found { (byte : ℕ) (more : List ℕ) → byte < 256 →
        line.now ≡ 120 ∷ hex_digit (byte / 16) ∷ hex_digit (byte % 16) ∷ more →
        MatchOption result ⊥ (λ one. (one.byte ≡ byte) × (one.rest.now ≡ more)) }
{
    match line {
        [b'x', high, low, rest @ ..] => {
            let byte = byte_named(*high, *low)?;
            Some(NextByte { byte, rest })
        }
        _ => None,
    }
}

// The first byte of the text that is quoted so.
fn first_byte(line: &[u8]) -> Option<NextByte<'_>>
    ensures shorter { IfSome result (λ one. length one.rest.now < length line.now) }
    ensures found { (byte : ℕ) (more : List ℕ) → byte < 256 → line.now ≡ quoted_byte byte ++ more →
        MatchOption result ⊥ (λ one. (one.byte ≡ byte) × (one.rest.now ≡ more)) }
{
    match line {
        [byte, rest @ ..] => {
            if *byte == b'\\' {
                return escaped_byte(rest);
            }
            Some(NextByte { byte: *byte, rest })
        }
        [] => None,
    }
}

// The bytes that may be quoted so. Quoted again they show whether they are.
fn unescaped(alloc: Global, line: &[u8]) -> Result<Vec<u8>, Memory>
    ensures { (text : List ℕ) → All (λ byte. byte < 256) text → quoted text ≡ line.now →
        IfOk result (λ bytes. bytes.items ≡ text) }
{
    let mut text = Vec::with_capacity(alloc, line.len())?;
    let mut rest = line;
    while let Some(next) = first_byte(rest) {
        text.push(next.byte)?;
        rest = next.rest;
    }
    Ok(text)
}

// Whether a log quotes the text so.
fn quotes(alloc: Global, text: &[u8], line: &[u8]) -> Result<bool, Memory>
    ensures same { IfOk result (λ same. same ≡ bytes_eq (quoted text.now) line.now) }
    ensures bytes { IfOk result (λ _. All (λ byte. byte < 256) text.now) }
{
    match quote_log(alloc, text) {
        Ok(quoted) => Ok(quoted.as_slice() == line),
        Err(_) => Err(AllocError),
    }
}

/// The text that a log quotes so, where it quotes one so.
pub(crate) fn unquoted(alloc: Global, line: &[u8]) -> Result<Option<Octets>, Memory>
    ensures read { IfOk result (λ found. IfSome found (λ text. quoted text ≡ line.now)) }
    ensures bytes { IfOk result (λ found. IfSome found (λ text. All (λ byte. byte < 256) text)) }
    ensures found { (text : List ℕ) → All (λ byte. byte < 256) text → quoted text ≡ line.now →
        IfOk result (λ found. MatchOption found ⊥ (λ one. one ≡ text)) }
{
    let text = unescaped(alloc, line)?;
    let same = quotes(alloc, text.as_slice(), line)?;
    if same {
        Ok(Some(Octets::new(text)))
    } else {
        Ok(None)
    }
}
