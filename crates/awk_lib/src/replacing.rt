// Matches replaced in a text, as sub and gsub do it.
ghost use Rattle.std.specs.Prelude.{◌≡◌, ◌+◌, ◌-◌, ◌≤◌, ◌<◌, ◌++◌, ◌∷◌, ◌⊎◌, ◌^◌, ℕ, List, [], true, false, length};
ghost use Rattle.std.specs.Prelude.{take, drop, MatchOption, IfSome, OnOk, IfOk, IfErr};
ghost use Rattle.std.specs.List.{slice_range};
ghost use Rattle.awk_lib.specs.Replacing as spec;
ghost use Rattle.awk_lib.specs.Replacing.{filled, Found, IsReplaced, IsTooLong};
ghost use Rattle.awk_lib.specs.Seeking.{IsNextMatch};
ghost use Rattle.awk_lib.specs.Written.{written};
ghost use Rattle.awk_text.specs.Limits.{most_bytes};

use crate::new_text::NewText;
use awk_ere::{Ere, Searches};
use awk_text::Memory;
use awk_text::fault::Fault;
use awk_text::octets::Octets;
use awk_text::texts::MOST_BYTES;
use memchr::memchr2;
use std::alloc::Global;

/// The place of the first `&` or `\`; the bytes before it stand for themselves.
fn sign_place(with: &[u8]) -> Option<usize>
    ensures { MatchOption result ((matched : List ℕ) → filled matched false with.now ≡ with.now)
        (λ at. (at < length with.now)
        × ((matched : List ℕ) → filled matched false with.now ≡ take at with.now
        ++ filled matched false (drop at with.now))) }
{
    memchr2(b'&', b'\\', with)
}

/// Whether all of it stands for itself, whatever was matched.
fn is_plain(with: &[u8]) -> bool
    ensures { result ≡ true → (matched : List ℕ) → filled matched false with.now ≡ with.now }
{
    match sign_place(with) {
        Some(_) => false,
        None => true,
    }
}

/// What stands for a match by the first sign of `with`, and the rest of `with`.
fn sign<'a>(with: &'a [u8], matched: &'a [u8]) -> (&'a [u8], &'a [u8])
    ensures filled { filled matched.now false with.now ≡ result.0.now ++ filled matched.now false result.1.now }
    ensures shorter { length result.1.now ≤ length with.now - 1 }
{
    match with {
        [b'&', rest @ ..] => (matched, rest),
        [b'\\', b'&' | b'\\', rest @ ..] => (&with[1..2], rest),
        [b'\\', _, rest @ ..] => (&with[..2], rest),
        [_, rest @ ..] => (&with[..1], rest),
        [] => (with, with),
    }
}

/// Adds what stands for a match.
fn push_filled(out: &mut NewText, with: &[u8], matched: &[u8]) -> Result<(), Memory>
    ensures { OnOk result (out.new ≡ written out.old (filled matched.now false with.now)) }
{
    let mut rest = with;
    while let Some(at) = sign_place(rest) {
        let (plain, signs) = rest.split_at(at);
        out.push(plain)?;
        let (piece, after) = sign(signs, matched);
        out.push(piece)?;
        rest = after;
    }
    out.push(rest)
}

/// What stands for each match.
#[derive(Clone, Copy, Drop)]
struct Replacement<'a> {
    text: &'a [u8],
    /// Whether all of it stands for itself, whatever was matched.
    is_plain: bool,
}

impl<'a> Replacement<'a> {
    fn of(with: &'a [u8]) -> Replacement<'a>
        ensures text { result.text.now ≡ with.now }
        ensures plain { result.is_plain ≡ true → (matched : List ℕ) → filled matched false with.now ≡ with.now }
    {
        Replacement {
            text: with,
            is_plain: is_plain(with),
        }
    }
}

/// Adds the text from one place up to a match, and what stands for the match.
fn push_match(
    out: &mut NewText,
    with: Replacement<'_>,
    text: &[u8],
    from: usize,
    found: (usize, usize),
) -> Result<(), Memory>
    requires after { from ≤ found.0 }
    requires ordered { found.0 ≤ found.1 }
    requires inside { found.1 ≤ length text.now }
    requires plain { with.is_plain ≡ true → (matched : List ℕ) → filled matched false with.text.now ≡ with.text.now }
    ensures { OnOk result (out.new ≡ written out.old
        (slice_range text.now from found.0
        ++ filled (slice_range text.now found.0 found.1) false with.entry.text.now)) }
{
    let (start, end) = found;
    out.push(&text[from..start])?;
    if with.is_plain {
        return out.push(with.text);
    }
    push_filled(out, with.text, &text[start..end])
}

/// Whether an empty match at the end of the match before is none.
fn is_passed(last: Option<usize>, start: usize, end: usize) -> bool
    ensures { result ≡ spec.is_passed last (start, end) }
{
    match last {
        Some(last) => start == end && start == last,
        None => false,
    }
}

/// Where the search goes on behind a match.
fn next_from(start: usize, end: usize) -> usize
    requires { end < 2 ^ 63 }
    ensures { result ≡ spec.next_from (start, end) }
{
    if start == end { end + 1 } else { end }
}

/// The match from a place on that is replaced next, of which the one before ended at `last`.
fn next_match(
    searches: &mut Searches,
    text: &[u8],
    from: usize,
    last: Option<usize>,
) -> Result<Option<(usize, usize)>, Memory>
    requires { searches.old.1 ≡ text.now }
    ensures next { IfOk result (λ found. IsNextMatch searches.old.0 text.now from last found) }
    ensures same { searches.new ≡ searches.old }
{
    let mut at = from;
    while at <= text.len() {
        let Some((start, end)) = searches.find(at)? else {
            return Ok(None);
        };
        if is_passed(last, start, end) {
            at = next_from(start, end);
        } else {
            return Ok(Some((start, end)));
        }
    }
    Ok(None)
}

/// The text with its first match replaced, or `None` where there is none.
fn replace_first(
    alloc: Global,
    ere: &Ere,
    with: &[u8],
    text: &[u8],
) -> Result<Option<(Octets, i64)>, Fault>
    ensures ok { IfOk result (λ r. MatchOption r (Found ere.now text.now false [])
        (λ n. (m : ℕ × ℕ) × (ms : List (ℕ × ℕ)) × IsReplaced ere.now with.now text.now false (m ∷ ms) n.0 n.1)) }
    ensures fits { IfOk result (λ r. IfSome r (λ n. length n.0 ≤ most_bytes)) }
    ensures fault { IfErr result (λ e. (e ≡ Fault.Memory)
        ⊎ ((e ≡ Fault.TextTooLong)
        × ((m : ℕ × ℕ) × (ms : List (ℕ × ℕ)) × IsTooLong ere.now with.now text.now false (m ∷ ms)))) }
{
    let Some((start, end)) = ere.find(text, 0)? else {
        return Ok(None);
    };
    let mut out = NewText::with_room(alloc, text.len())?;
    push_match(&mut out, Replacement::of(with), text, 0, (start, end))?;
    let new = out.finish(&text[end..])?;
    Ok(Some((new, 1)))
}

/// The text with all its matches replaced, and their count, or `None` where there is none.
fn replace_all(
    alloc: Global,
    ere: &Ere,
    with: &[u8],
    text: &[u8],
) -> Result<Option<(Octets, i64)>, Fault>
    ensures ok { IfOk result (λ r. MatchOption r (Found ere.now text.now true [])
        (λ n. (m : ℕ × ℕ) × (ms : List (ℕ × ℕ)) × IsReplaced ere.now with.now text.now true (m ∷ ms) n.0 n.1)) }
    ensures fits { IfOk result (λ r. IfSome r (λ n. length n.0 ≤ most_bytes)) }
    ensures fault { IfErr result (λ e. (e ≡ Fault.Memory)
        ⊎ ((e ≡ Fault.TextTooLong)
        × ((m : ℕ × ℕ) × (ms : List (ℕ × ℕ)) × IsTooLong ere.now with.now text.now true (m ∷ ms)))) }
{
    let mut searches = Searches::new(ere, text);
    let mut next = next_match(&mut searches, text, 0, None)?;
    if next.is_none() {
        return Ok(None);
    }
    let mut out = NewText::with_room(alloc, text.len())?;
    let replacement = Replacement::of(with);
    let mut done = 0;
    let mut count: usize = 0;
    while let Some((start, end)) = next {
        push_match(&mut out, replacement, text, done, (start, end))?;
        done = end;
        count += 1;
        next = next_match(&mut searches, text, next_from(start, end), Some(end))?;
    }
    let new = out.finish(&text[done..])?;
    // No memory holds a text of so many places.
    if count > i64::MAX as usize {
        return Err(Fault::Memory);
    }
    Ok(Some((new, count as i64)))
}

/// What `replace` answers, or `None` where nothing matches; then nothing is copied.
///
/// Fails as `replace` does, but never where nothing matches.
pub fn replace_any(
    alloc: Global,
    ere: &Ere,
    with: &[u8],
    text: &[u8],
    all: bool,
) -> Result<Option<(Octets, i64)>, Fault>
    ensures ok { IfOk result (λ r. MatchOption r (Found ere.now text.now all [])
        (λ n. (m : ℕ × ℕ) × (ms : List (ℕ × ℕ)) × IsReplaced ere.now with.now text.now all (m ∷ ms) n.0 n.1)) }
    ensures fits { IfOk result (λ r. IfSome r (λ n. length n.0 ≤ most_bytes)) }
    ensures fault { IfErr result (λ e. (e ≡ Fault.Memory)
        ⊎ ((e ≡ Fault.TextTooLong)
        × ((m : ℕ × ℕ) × (ms : List (ℕ × ℕ)) × IsTooLong ere.now with.now text.now all (m ∷ ms)))) }
{
    if all {
        replace_all(alloc, ere, with, text)
    } else {
        replace_first(alloc, ere, with, text)
    }
}

/// The text with its first match replaced, as sub does it, or with `all` each match, as gsub does it; and
/// how many were. Of `with`, `&` is the matched text, `\&` is `&`, `\\` is one `\`, and any other `\` is
/// itself. POSIX.1-2017, XCU awk, "String Functions".
///
/// Fails with `Fault::TextTooLong` exactly where the new text has more than `MOST_BYTES` bytes, before it
/// is made, and with `Fault::Memory` where memory is refused.
pub fn replace(
    alloc: Global,
    ere: &Ere,
    with: &[u8],
    text: &[u8],
    all: bool,
) -> Result<(Octets, i64), Fault>
    ensures ok { IfOk result (λ r. (ms : List (ℕ × ℕ)) × IsReplaced ere.now with.now text.now all ms r.0 r.1) }
    ensures fits { IfOk result (λ r. length r.0 ≤ most_bytes) }
    ensures fault { IfErr result (λ e. (e ≡ Fault.Memory)
        ⊎ ((e ≡ Fault.TextTooLong) × ((ms : List (ℕ × ℕ)) × IsTooLong ere.now with.now text.now all ms))) }
{
    if let Some(replaced) = replace_any(alloc, ere, with, text, all)? {
        return Ok(replaced);
    }
    if MOST_BYTES < text.len() {
        return Err(Fault::TextTooLong);
    }
    Ok((Octets::of(alloc, text)?, 0))
}
