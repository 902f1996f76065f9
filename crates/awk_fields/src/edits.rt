// The fields of a record of which some are set. The whole text is joined of them when it is asked
// for.
ghost use Rattle.std.specs.Prelude.{◌≡◌, ◌++◌, ◌+◌, ◌-◌, ◌<◌, ◌≤◌, ◌^◌, ◌⊎◌, All, length, map, replicate, IfOk, OnOk};
ghost use Rattle.std.specs.Prelude.{OnErr, IfErr, IfSome, slice_index_or};
ghost use Rattle.std.specs.List.{sum_by};
ghost use Rattle.awk_fields.specs.Edits.{AreSet, IsPartOf, IsSame, IsSoundEdited, edited_fields, edited_whole};
ghost use Rattle.awk_fields.specs.Edits.{field_of, part_bytes};
ghost use Rattle.awk_fields.specs.Rows.{rebuilt, with_count, with_field};
ghost use Rattle.awk_fields.specs.Spans.{IsWithin};
ghost use Rattle.awk_text.specs.Limits.{most_bytes};

use crate::joining::{fit, join};
use crate::part::{Part, part_len};
use crate::spans::Span;
use awk_text::Memory;
use awk_text::fault::Fault;
use awk_text::value::Value;
use std::alloc::{AllocError, Global};

/// Where the whole text is.
#[derive(Drop)]
pub enum Whole {
    /// It is the text that was split.
    Split,
    /// It is joined already.
    Built,
    /// It is to be joined of the fields.
    Stale,
}

#[derive(Drop)]
pub struct Edited {
    pub parts: Vec<Part>,
    /// How many bytes they have together in the whole text. So wide that no sum of lengths is too great.
    pub bytes: u128,
    /// What stands between them where the whole text is joined.
    pub ofs: Vec<u8>,
    pub whole: Whole,
    pub built: Vec<u8>,
}

impl Edited {
    pub fn new(alloc: Global) -> Edited {
        Edited {
            parts: Vec::new(alloc),
            bytes: 0,
            ofs: Vec::new(alloc),
            whole: Whole::Split,
            built: Vec::new(alloc),
        }
    }
}

/// Puts the spans in place of what `parts` holds, and answers how many bytes they have together.
pub fn cut(parts: &mut Vec<Part>, spans: &[Span], text: &[u8]) -> Result<u128, Memory>
    requires { All (IsWithin text.now) spans.now }
    ensures parts { OnOk result (parts.new.items ≡ map Part.Cut spans.now) }
    ensures bytes { IfOk result (λ bytes. bytes ≡ sum_by (part_bytes text.now) parts.new.items) }
    ensures small { IfOk result (λ bytes. bytes + 2 ^ 64 ≤ 2 ^ 128) }
{
    parts.clear();
    parts.reserve(spans.len())?;
    let mut bytes = 0u128;
    for span in spans {
        let Span { start, end } = *span;
        bytes += (end - start) as u128;
        parts.push_reserved(Part::Cut(Span { start, end }));
    }
    Ok(bytes)
}

/// Puts unset parts behind the others, up to this count.
fn pad(parts: &mut Vec<Part>, count: usize) -> Result<(), Memory>
    ensures ok { OnOk result
        (parts.new.items ≡ parts.old.items ++ replicate (count - length parts.old.items) (Part.Own Value.Unset)) }
    ensures err { OnErr result (parts.new.items ≡ parts.old.items) }
{
    let len = parts.len();
    for place in len..count {
        if parts.push(Part::Own(Value::Unset)).is_err() {
            parts.truncate(len);
            return Err(AllocError);
        }
    }
    Ok(())
}

/// Keeps what stands between fields. It is copied only where it is another than before.
fn keep(kept: &mut Vec<u8>, ofs: &[u8]) -> Result<(), Memory>
    ensures ok { OnOk result (kept.new.items ≡ ofs.now) }
    ensures err { OnErr result (kept.new.items ≡ kept.old.items) }
{
    if kept.as_slice() != ofs {
        let alloc = *kept.allocator();
        *kept = Vec::from_slice(alloc, ofs)?;
    }
    Ok(())
}

/// Does both, or neither.
fn prepare(
    parts: &mut Vec<Part>,
    count: usize,
    kept: &mut Vec<u8>,
    ofs: &[u8],
) -> Result<(), Memory>
    ensures parts { OnOk result
        (parts.new.items ≡ parts.old.items ++ replicate (count - length parts.old.items) (Part.Own Value.Unset)) }
    ensures ofs { OnOk result (kept.new.items ≡ ofs.now) }
    ensures same_parts { OnErr result (parts.new.items ≡ parts.old.items) }
    ensures same_ofs { OnErr result (kept.new.items ≡ kept.old.items) }
{
    let len = parts.len();
    pad(parts, count)?;
    if keep(kept, ofs).is_err() {
        parts.truncate(len);
        return Err(AllocError);
    }
    Ok(())
}

/// How many bytes the part at a place has in the whole text, 0 where there is none.
fn len_at(parts: &[Part], text: &[u8], at: usize) -> usize
    requires { All (IsPartOf text.now) parts.now }
    ensures { result ≡ part_bytes text.now (slice_index_or parts.now at (Part.Own Value.Unset)) }
{
    match parts.get(at) {
        Some(part) => part_len(part, text),
        None => 0,
    }
}

/// How many bytes the parts have together in the whole text.
fn total_len(parts: &[Part], text: &[u8]) -> u128
    requires within { All (IsPartOf text.now) parts.now }
    requires small { sum_by (part_bytes text.now) parts.now < 2 ^ 128 }
    ensures { result ≡ sum_by (part_bytes text.now) parts.now }
{
    let mut bytes = 0u128;
    for part in parts {
        bytes += part_len(part, text) as u128;
    }
    bytes
}

/// Sets the part at a place.
pub fn put(edited: &mut Edited, text: &[u8], at: usize, part: Part, ofs: &[u8]) -> Result<(), Fault>
    requires small { at < 65535 }
    requires within { IsPartOf text.now part }
    requires sound { IsSoundEdited text.now edited.old }
    ensures ok { OnOk result
        (AreSet text.now ofs.now (with_field (edited_fields text.now edited.old) at (field_of text.now part))
        edited.new) }
    ensures err { OnErr result (IsSame text.now edited.old edited.new) }
    ensures sound { IsSoundEdited text.now edited.new }
    ensures fault { IfErr result (λ e. (e ≡ Fault.Memory)
        ⊎ ((e ≡ Fault.TextTooLong)
        × (most_bytes < length (rebuilt ofs.now
        (with_field (edited_fields text.now edited.old) at (field_of text.now part)))))) }
{
    let count = edited.parts.len().max(at + 1);
    let others = edited.bytes - len_at(edited.parts.as_slice(), text, at) as u128;
    let bytes = others + part_len(&part, text) as u128;
    fit(bytes, count, ofs.len())?;
    prepare(&mut edited.parts, at + 1, &mut edited.ofs, ofs)?;
    edited.parts[at] = part;
    edited.bytes = bytes;
    edited.whole = Whole::Stale;
    Ok(())
}

/// Sets how many parts there are.
pub fn set_len(edited: &mut Edited, text: &[u8], count: usize, ofs: &[u8]) -> Result<(), Fault>
    requires sound { IsSoundEdited text.now edited.old }
    ensures ok { OnOk result
        (AreSet text.now ofs.now (with_count (edited_fields text.now edited.old) count) edited.new) }
    ensures err { OnErr result (IsSame text.now edited.old edited.new) }
    ensures sound { IsSoundEdited text.now edited.new }
    ensures fault { IfErr result (λ e. (e ≡ Fault.Memory)
        ⊎ ((e ≡ Fault.TextTooLong)
        × (most_bytes < length (rebuilt ofs.now (with_count (edited_fields text.now edited.old) count))))) }
{
    let stay = count.min(edited.parts.len());
    let bytes = edited.bytes - total_len(&edited.parts[stay..], text);
    fit(bytes, count, ofs.len())?;
    prepare(&mut edited.parts, count, &mut edited.ofs, ofs)?;
    edited.parts.truncate(count);
    edited.bytes = bytes;
    edited.whole = Whole::Stale;
    Ok(())
}

/// Joins the whole text, unless it is there.
pub fn rebuild_edited(edited: &mut Edited, text: &[u8]) -> Result<(), Memory>
    requires { IsSoundEdited text.now edited.old }
    ensures same { IsSame text.now edited.old edited.new }
    ensures sound { IsSoundEdited text.now edited.new }
{
    let Whole::Stale = &edited.whole else {
        return Ok(());
    };
    join(
        &mut edited.built,
        edited.parts.as_slice(),
        text,
        edited.ofs.as_slice(),
    )?;
    edited.whole = Whole::Built;
    Ok(())
}

/// The whole text, where it is there.
pub fn edited_whole<'a>(edited: &'a Edited, text: &'a [u8]) -> Option<&'a [u8]>
    ensures { IfSome result (λ whole. whole.now ≡ edited_whole text.now edited.now) }
{
    match &edited.whole {
        Whole::Split => Some(text),
        Whole::Built => Some(edited.built.as_slice()),
        Whole::Stale => None,
    }
}
