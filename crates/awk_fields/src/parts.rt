// The fields of a record, which are split when they are first asked for.
ghost use Rattle.std.specs.Prelude.{◌≡◌, List, ℕ, true, length, IfOk, OnOk, OnErr, IfErr, IfSome};
ghost use Rattle.std.specs.List.{slice_index_or};
ghost use Rattle.awk_fields.specs.Parts.{ArePartsKept, IsSound, IsSplitBy, fields_of, row_of, whole_of};
ghost use Rattle.awk_fields.specs.Rows.{blank};
ghost use Rattle.awk_text.specs.Lents.{lent_value};

use crate::edits::{Edited, Whole, cut, edited_whole, rebuild_edited};
use crate::part::{lent_part, part_value, span_value};
use crate::spans::Span;
use crate::splitter::Splitter;
use awk_text::Memory;
use awk_text::fault::Fault;
use awk_text::lent::Lent;
use awk_text::value::Value;
use std::alloc::Global;
use std::mem;

#[derive(Drop)]
pub enum State {
    Unsplit(Splitter),
    /// The spans of the text are the fields.
    Spans,
    /// The fields are edited.
    Edits,
}

#[derive(Drop)]
pub struct Parts {
    pub state: State,
    pub spans: Vec<Span>,
    pub edited: Edited,
}

/// Splits the text, unless that is done. Where memory is refused it stays unsplit.
pub fn split_parts(parts: &mut Parts, text: &[u8]) -> Result<(), Memory>
    requires { IsSound text.now parts.old }
    ensures kept { ArePartsKept text.now parts.old parts.new }
    ensures err { OnErr result (row_of text.now parts.new ≡ row_of text.now parts.old) }
    ensures sound { IsSound text.now parts.new }
    ensures split { OnOk result (IsSplitBy parts.new.state) }
{
    let State::Unsplit(splitter) = &parts.state else {
        return Ok(());
    };
    let alloc = *parts.spans.allocator();
    let room = mem::replace(&mut parts.spans, Vec::new(alloc));
    parts.spans = splitter.spans(text, room)?;
    parts.state = State::Spans;
    Ok(())
}

/// The same, without a call where it is done.
#[inline(always)]
fn split_unsplit(parts: &mut Parts, text: &[u8]) -> Result<(), Memory>
    requires { IsSound text.now parts.old }
    ensures kept { ArePartsKept text.now parts.old parts.new }
    ensures err { OnErr result (row_of text.now parts.new ≡ row_of text.now parts.old) }
    ensures sound { IsSound text.now parts.new }
    ensures split { OnOk result (IsSplitBy parts.new.state) }
{
    match &parts.state {
        State::Unsplit(_) => split_parts(parts, text),
        State::Spans => Ok(()),
        State::Edits => Ok(()),
    }
}

/// Makes parts of the spans, unless that is done: then fields can be set.
pub fn edit_parts(parts: &mut Parts, text: &[u8]) -> Result<(), Memory>
    requires { IsSound text.now parts.old }
    ensures kept { ArePartsKept text.now parts.old parts.new }
    ensures sound { IsSound text.now parts.new }
    ensures edits { OnOk result (parts.new.state ≡ State.Edits) }
{
    split_unsplit(parts, text)?;
    let State::Spans = &parts.state else {
        return Ok(());
    };
    parts.edited.bytes = cut(&mut parts.edited.parts, parts.spans.as_slice(), text)?;
    parts.edited.whole = Whole::Split;
    parts.state = State::Edits;
    Ok(())
}

/// Joins the whole text, unless it is there.
pub fn rebuild_parts(parts: &mut Parts, text: &[u8]) -> Result<(), Memory>
    requires { IsSound text.now parts.old }
    ensures same { row_of text.now parts.new ≡ row_of text.now parts.old }
    ensures sound { IsSound text.now parts.new }
{
    let State::Edits = &parts.state else {
        return Ok(());
    };
    rebuild_edited(&mut parts.edited, text)
}

/// Whether the text is the whole one: no field was set.
pub fn is_text(parts: &Parts) -> bool
    ensures { result ≡ true → (text : List ℕ) → whole_of text parts.now ≡ text }
{
    match &parts.state {
        State::Unsplit(_) | State::Spans => true,
        State::Edits => false,
    }
}

/// The whole text, where it is there.
pub fn known_whole<'a>(parts: &'a Parts, text: &'a [u8]) -> Option<&'a [u8]>
    ensures { IfSome result (λ whole. whole.now ≡ whole_of text.now parts.now) }
{
    match &parts.state {
        State::Unsplit(_) => Some(text),
        State::Spans => Some(text),
        State::Edits => edited_whole(&parts.edited, text),
    }
}

/// How many fields there are, once they are split.
pub fn field_count(parts: &Parts) -> usize
    ensures { (text : List ℕ) → result ≡ length (fields_of text parts.now) }
{
    match &parts.state {
        State::Unsplit(_) => 0,
        State::Spans => parts.spans.len(),
        State::Edits => parts.edited.parts.len(),
    }
}

/// The value of the field at a place, once they are split. Behind the last one it is unset.
pub fn field_at(parts: &Parts, text: &[u8], at: usize) -> Result<Value, Fault>
    requires { IsSound text.now parts.now }
    ensures ok { IfOk result (λ v. v ≡ (slice_index_or (fields_of text.now parts.now) at blank).value) }
    ensures err { IfErr result (λ e. e ≡ Fault.Memory) }
{
    let alloc = *parts.spans.allocator();
    match &parts.state {
        State::Unsplit(_) => Ok(Value::Unset),
        State::Spans => match parts.spans.get(at) {
            Some(span) => Ok(span_value(alloc, text, *span)?),
            None => Ok(Value::Unset),
        },
        State::Edits => match parts.edited.parts.get(at) {
            Some(part) => part_value(alloc, part, text),
            None => Ok(Value::Unset),
        },
    }
}

/// The value of the field at a place, lent, where they are split. Behind the last one it is unset.
pub fn lent_at<'a>(parts: &'a Parts, text: &'a [u8], at: usize) -> Option<Lent<'a>>
    requires { IsSound text.now parts.now }
    ensures split { IfSome result (λ v. IsSplitBy parts.now.state) }
    ensures value { IfSome result (λ v. lent_value v ≡ (slice_index_or (fields_of text.now parts.now) at blank).value) }
{
    match &parts.state {
        State::Unsplit(_) => None,
        State::Spans => match parts.spans.get(at) {
            Some(span) => Some(Lent::Input(&text[span.start..span.end])),
            None => Some(Lent::Unset),
        },
        State::Edits => match parts.edited.parts.get(at) {
            Some(part) => Some(lent_part(part, text)),
            None => Some(Lent::Unset),
        },
    }
}

/// How many fields there are, where they are split.
pub fn known_count(parts: &Parts) -> Option<usize>
    ensures split { IfSome result (λ n. IsSplitBy parts.now.state) }
    ensures count { IfSome result (λ n. (text : List ℕ) → n ≡ length (fields_of text parts.now)) }
{
    match &parts.state {
        State::Unsplit(_) => None,
        State::Spans => Some(parts.spans.len()),
        State::Edits => Some(parts.edited.parts.len()),
    }
}
