// The built-in functions on texts that search for no pattern.
ghost use Rattle.std.specs.Prelude.{◌≡◌, ◌<◌, ◌^◌, min, pos, ◌+ℤ◌, IfOk, IsOkUnless};
ghost use Rattle.awk_lib.specs.Texts as spec;

use awk_text::fault::Fault;
use memchr::memmem;
use std::alloc::Global;

/// The first place of the part in the text, counted from 1; 0 where it has none, or is empty. Takes no
/// memory.
pub fn index(text: &[u8], part: &[u8]) -> i64
    ensures { result ≡ pos (spec.index text.now part.now) }
{
    if part.is_empty() {
        return 0;
    }
    match memmem::find(text, part) {
        Some(at) => at as i64 + 1,
        None => 0,
    }
}

/// How many of so many places are below this one.
fn below(place: i64, len: usize) -> usize
    ensures { result ≡ min (spec.below place) len }
{
    if place <= 1 {
        0
    } else {
        len.min((place - 1) as usize)
    }
}

/// How many of so many places are below `from + count`, computed without overflow.
fn below_sum(from: i64, count: i64, len: usize) -> usize
    requires { len < 2 ^ 63 }
    ensures { result ≡ min (spec.below (from +ℤ count)) len }
{
    match from.checked_add(count) {
        Some(place) => below(place, len),
        None if count < 0 => 0,
        None => len,
    }
}

/// The bytes at the places from `from` on, and where there is a `count` below `from + count`. Places
/// count from 1; one that is not in the text has no byte. Takes no memory.
pub fn substr(text: &[u8], from: i64, count: Option<i64>) -> &[u8]
    ensures { result.now ≡ spec.substr text.now from count }
{
    let end = match count {
        None => text.len(),
        Some(count) => below_sum(from, count, text.len()),
    };
    &text[below(from, end)..end]
}

/// The text with each letter of ASCII in upper case, or in lower case.
///
/// Fails with `Fault::Memory` alone, where memory is refused.
pub fn to_case(alloc: Global, text: &[u8], upper: bool) -> Result<Vec<u8>, Fault>
    ensures ok { IfOk result (λ v. v.items ≡ spec.to_case upper text.now) }
    ensures err { IsOkUnless result Fault.Memory }
{
    let mut new = Vec::from_slice(alloc, text)?;
    if upper {
        new.as_mut_slice().make_ascii_uppercase();
    } else {
        new.as_mut_slice().make_ascii_lowercase();
    }
    Ok(new)
}
