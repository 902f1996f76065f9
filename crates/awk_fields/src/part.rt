// One field of a record of which fields are set: a part of the record's text, or a value of its own.
ghost use Rattle.std.specs.Prelude.{◌≡◌, length, IfOk, IfErr};
ghost use Rattle.awk_text.specs.Values.{text_of};
ghost use Rattle.awk_text.specs.Lents.{lent_value};
ghost use Rattle.awk_fields.specs.Edits.{IsPartOf, field_of, part_bytes};
ghost use Rattle.awk_fields.specs.Spans.{IsWithin, part};

use crate::spans::Span;
use awk_text::Memory;
use awk_text::buffer::Buffer;
use awk_text::fault::Fault;
use awk_text::lent::Lent;
use awk_text::octets::Octets;
use awk_text::value::{Value, text_in};
use std::alloc::Global;

#[derive(Drop)]
pub enum Part {
    /// What the text has there.
    Cut(Span),
    /// What was set.
    Own(Value),
    /// A number that was set, and the text that stands for it in the whole text.
    Shown(f64, Octets),
}

/// The text of a span, as a value.
pub fn span_value(alloc: Global, text: &[u8], span: Span) -> Result<Value, Memory>
    requires { IsWithin text.now span }
    ensures { IfOk result (λ v. v ≡ Value.Input (part text.now span)) }
{
    Ok(Value::Input(Octets::of(alloc, &text[span.start..span.end])?))
}

/// The value of a part.
pub fn part_value(alloc: Global, part: &Part, text: &[u8]) -> Result<Value, Fault>
    requires { IsPartOf text.now part.now }
    ensures ok { IfOk result (λ v. v ≡ (field_of text.now part.now).value) }
    ensures err { IfErr result (λ e. e ≡ Fault.Memory) }
{
    match part {
        Part::Cut(span) => Ok(span_value(alloc, text, *span)?),
        Part::Own(value) => value.copy(alloc),
        Part::Shown(number, _) => Ok(Value::Real(*number)),
    }
}

/// The value of a part, lent.
pub fn lent_part<'a>(part: &'a Part, text: &'a [u8]) -> Lent<'a>
    requires { IsPartOf text.now part.now }
    ensures { lent_value result ≡ (field_of text.now part.now).value }
{
    match part {
        Part::Cut(span) => Lent::Input(&text[span.start..span.end]),
        Part::Own(value) => Lent::of(value),
        Part::Shown(number, _) => Lent::Real(*number),
    }
}

/// The text of a part in the whole text. A number's is written into the buffer.
pub fn part_text<'a>(part: &'a Part, text: &'a [u8], buffer: &'a mut Buffer) -> &'a [u8]
    requires { IsPartOf text.now part.now }
    ensures { result.now ≡ text_of (field_of text.now part.now).shown }
{
    match part {
        Part::Cut(span) => &text[span.start..span.end],
        Part::Own(value) => text_in(value, buffer),
        Part::Shown(_, own_text) => own_text.bytes(),
    }
}

/// How many bytes the text of a value has.
fn value_len(value: &Value) -> usize
    ensures { result ≡ length (text_of value.now) }
{
    let mut buffer = Buffer::new();
    text_in(value, &mut buffer).len()
}

/// How many bytes a part has in the whole text.
pub fn part_len(part: &Part, text: &[u8]) -> usize
    requires { IsPartOf text.now part.now }
    ensures { result ≡ part_bytes text.now part.now }
{
    match part {
        Part::Cut(span) => span.end - span.start,
        Part::Own(value) => value_len(value),
        Part::Shown(_, own_text) => own_text.bytes().len(),
    }
}
