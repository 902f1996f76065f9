// Fields as parts of a text.
ghost use Rattle.std.specs.Prelude.{◌≡◌, ◌+◌, ◌≤◌, List, ℕ, [], true, length, map, min, All, IfOk, IfSome, vec_len};
ghost use Rattle.std.specs.Prelude.{vec_capacity};
ghost use Rattle.awk_ere.specs.Best.{Best};
ghost use Rattle.awk_ere.specs.Pattern.{Pattern};
ghost use Rattle.awk_ere.specs.Spelled.{Finds};
ghost use Rattle.awk_fields.specs.Edges.{PartsTo};
ghost use Rattle.awk_fields.specs.Fields.{separates, separating, Parts};
ghost use Rattle.awk_fields.specs.Marks.{is_mark};
ghost use Rattle.awk_fields.specs.Separators.{nothing, byte, ere};
ghost use Rattle.awk_fields.specs.Spans.{AreSpans, IsWithin, part};
ghost use Rattle.awk_fields.specs.Seeking.{IsAhead, IsNextSeparator};
ghost use Rattle.memchr.specs.Find.{IsFirst, Passes, is_byte};

use crate::marks::{BLOCK, Marks, without_lowest};
use awk_ere::{Ere, Searches};
use awk_text::Memory;
use awk_text::octets::Octets;
use memchr::memchr;
use std::alloc::Global;

/// A part of a text, from its start to before its end.
#[derive(Clone, Copy, Drop)]
pub struct Span {
    pub start: usize,
    pub end: usize,
}

/// The texts of these spans.
pub fn texts(alloc: Global, text: &[u8], spans: &[Span]) -> Result<Vec<Octets>, Memory>
    requires { All (IsWithin text.now) spans.now }
    ensures { IfOk result (λ found. found.items ≡ map (part text.now) spans.now) }
{
    let mut found = Vec::with_capacity(alloc, spans.len())?;
    for span in spans {
        found.push(Octets::of(alloc, &text[span.start..span.end])?)?;
    }
    Ok(found)
}

/// Each byte of the text.
pub fn single_spans(text: &[u8], mut spans: Vec<Span>) -> Result<Vec<Span>, Memory>
    requires { spans.items ≡ [] }
    ensures { IfOk result
        (λ found. (fields : List (List ℕ)) × Parts nothing text.now fields × AreSpans text.now found.items fields) }
{
    for start in 0..text.len() {
        spans.push(Span {
            start,
            end: start + 1,
        })?;
    }
    Ok(spans)
}

/// The byte that separates, and where the flag is set the newline.
#[inline(always)]
fn separators(mark: u8, newline: bool) -> Marks
    ensures { (b : ℕ) → is_mark result b ≡ separates mark newline b }
{
    let first = if newline { b'\n' } else { mark };
    Marks {
        first,
        second: mark,
        third: mark,
    }
}

/// The parts that a mark in the block from a place on ends. Returns where the next part begins.
#[inline(always)]
fn block_parts(
    text: &[u8],
    from: usize,
    marks: Marks,
    mut start: usize,
    spans: &mut Vec<Span>,
) -> usize
    requires parts { PartsTo marks text.now from start spans.old.items }
    requires room { vec_len spans.old + 64 ≤ vec_capacity spans.old }
    ensures { PartsTo marks text.now (min (from + 64) (length text.now)) result spans.new.items }
{
    let mut found = marks.in_block(text, from);
    while found != 0 {
        let end = from + found.trailing_zeros() as usize;
        spans.push_reserved(Span { start, end });
        start = end + 1;
        found = without_lowest(found);
    }
    start
}

/// What stands round each byte that separates.
pub fn byte_spans(
    text: &[u8],
    mark: u8,
    newline: bool,
    mut spans: Vec<Span>,
) -> Result<Vec<Span>, Memory>
    requires { spans.items ≡ [] }
    ensures { IfOk result
        (λ found. (fields : List (List ℕ)) × Parts (byte mark newline) text.now fields
        × AreSpans text.now found.items fields) }
{
    let marks = separators(mark, newline);
    let mut start = 0;
    let mut at = 0;
    while at < text.len() {
        spans.reserve(BLOCK)?;
        start = block_parts(text, at, marks, start, &mut spans);
        at += (text.len() - at).min(BLOCK);
    }
    let end = text.len();
    spans.push(Span { start, end })?;
    Ok(spans)
}

/// The first newline from one place up to another.
fn newline_place(text: &[u8], from: usize, end: usize) -> Option<usize>
    requires ordered { from ≤ end }
    requires inside { end ≤ length text.now }
    ensures { IsFirst (Passes (is_byte 10) text.now) from end result }
{
    Some(from + memchr(b'\n', &text[from..end])?)
}

/// The best match of the ERE or a newline from a place on, of which `found` is the ERE's own.
fn or_newline(text: &[u8], from: usize, found: Option<(usize, usize)>) -> Option<(usize, usize)>
    requires inside { from ≤ length text.now }
    requires best { (p : Pattern) × Best text.now p from found }
    ensures { (p : Pattern) → Best text.now p from found → Best text.now (separating true p) from result }
{
    let Some((start, end)) = found else {
        let at = newline_place(text, from, text.len())?;
        return Some((at, at + 1));
    };
    match newline_place(text, from, text.len().min(start + 1)) {
        None => Some((start, end)),
        Some(at) if at < start => Some((at, at + 1)),
        Some(at) => Some((at, end.max(at + 1))),
    }
}

/// The best match of what separates from a place on, of which `found` is the ERE's own.
fn best_separator(
    text: &[u8],
    newline: bool,
    from: usize,
    found: Option<(usize, usize)>,
) -> Option<(usize, usize)>
    requires inside { from ≤ length text.now }
    requires best { (p : Pattern) × Best text.now p from found }
    ensures { (p : Pattern) → Best text.now p from found → Best text.now (separating newline p) from result }
{
    if newline {
        or_newline(text, from, found)
    } else {
        found
    }
}

/// The best match of the ERE from a place on, of which `ahead` is one from an earlier place on.
fn find_ahead(
    searches: &mut Searches,
    from: usize,
    ahead: Option<(usize, usize)>,
) -> Result<Option<(usize, usize)>, Memory>
    requires inside { from ≤ length searches.old.1 }
    requires ahead { IsAhead searches.old.0 searches.old.1 from ahead }
    ensures found { IfOk result (λ found. Finds searches.old.0 searches.old.1 from found) }
    ensures same { searches.new ≡ searches.old }
{
    match ahead {
        Some((start, _)) if start < from => searches.find(from),
        _ => Ok(ahead),
    }
}

/// What separates next from a place on, and the ERE's best match as far as it is known then.
fn next_separator(
    searches: &mut Searches,
    text: &[u8],
    newline: bool,
    from: usize,
    mut ahead: Option<(usize, usize)>,
) -> Result<(Option<(usize, usize)>, Option<(usize, usize)>), Memory>
    requires text { searches.old.1 ≡ text.now }
    requires ahead { IsAhead searches.old.0 text.now from ahead }
    ensures next { IfOk result (λ r. IsNextSeparator searches.old.0 newline text.now from r.0) }
    ensures ahead { IfOk result (λ r. IfSome r.0 (λ m. IsAhead searches.old.0 text.now m.1 r.1)) }
    ensures same { searches.new ≡ searches.old }
{
    let mut at = from;
    while at <= text.len() {
        ahead = find_ahead(searches, at, ahead)?;
        let Some((start, end)) = best_separator(text, newline, at, ahead) else {
            return Ok((None, ahead));
        };
        if start < end {
            return Ok((Some((start, end)), ahead));
        }
        at = start + 1;
    }
    Ok((None, ahead))
}

/// What stands round the matches that separate.
pub fn ere_spans(
    text: &[u8],
    pattern: &Ere,
    newline: bool,
    mut spans: Vec<Span>,
) -> Result<Vec<Span>, Memory>
    requires { spans.items ≡ [] }
    ensures { IfOk result
        (λ found. (fields : List (List ℕ)) × Parts (ere pattern.now newline) text.now fields
        × AreSpans text.now found.items fields) }
{
    let mut searches = Searches::new(pattern, text);
    let known = searches.find(0)?;
    let (mut next, mut ahead) = next_separator(&mut searches, text, newline, 0, known)?;
    let mut start = 0;
    while let Some((at, end)) = next {
        spans.push(Span { start, end: at })?;
        start = end;
        (next, ahead) = next_separator(&mut searches, text, newline, end, ahead)?;
    }
    let end = text.len();
    spans.push(Span { start, end })?;
    Ok(spans)
}
