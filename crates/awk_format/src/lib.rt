// Text made by a format, as printf and sprintf make it.
#![tactic(auto)]

ghost use Rattle.std.specs.Prelude.{◌≡◌, ◌==◌, ◌∷◌, ◌<◌, ◌≤◌, ◌⊎◌, IsTrue, length, slice_index, Err, IfOk, IfErr};
ghost use Rattle.std.specs.List.{position_or_len};
ghost use Rattle.awk_format.specs.Formatted.{completed, formatted, made_of};

mod convert;
mod digits;
mod directive;
pub mod number_texts;
mod output;
mod reals;

use crate::convert::convert;
use crate::directive::read_directive;
use crate::output::Output;
use awk_numbers::number::Numbers;
use awk_text::fault::Fault;
use awk_text::value::Value;
use std::alloc::Global;

/// The room that a value is given at once, beside that of its conversion specification: most take no more, and then
/// the whole text takes memory once.
const ROOM_OF_A_VALUE: usize = 16;

/// How many bytes stand before the first `%`.
fn plain_length(text: &[u8]) -> usize
    ensures length { result ≡ position_or_len (λ b. b == 0x25) text.now }
    ensures within { result ≤ length text.now }
{
    for (i, b) in text.iter().enumerate() {
        if *b == b'%' {
            return i;
        }
    }
    text.len()
}

fn begins_with_percent(text: &[u8]) -> bool
    ensures first { result ≡ (slice_index text.now 0 == 0x25) }
    ensures some { IsTrue result → 0 < length text.now }
{
    matches!(text, [b'%', ..])
}

/// Adds what the piece makes whose `%` stands before this text, and gives what is left of the text
/// and of the values.
fn show_piece<'a>(
    alloc: Global,
    out: &mut Output,
    numbers: Numbers,
    text: &'a [u8],
    values: &'a [Value],
) -> Result<(&'a [u8], &'a [Value]), Fault>
    ensures ok { IfOk result (λ r. completed out.new (made_of numbers r.0.now r.1.now)
        ≡ completed out.old (made_of numbers (0x25 ∷ text.now) values.now)) }
    ensures shorter { IfOk result (λ r. length r.0.now ≤ length text.now) }
    ensures err { IfErr result (λ e. (e ≡ Fault.Memory)
        ⊎ (made_of numbers (0x25 ∷ text.now) values.now ≡ Err e)) }
{
    if begins_with_percent(text) {
        out.push(b"%")?;
        return Ok((&text[1..], values));
    }
    let (directive, rest) = read_directive(numbers, text)?;
    let [value, others @ ..] = values else {
        return Err(Fault::Format);
    };
    convert(alloc, out, numbers, &directive, value)?;
    Ok((rest, others))
}

/// The text that the format makes of the values: bytes stand for themselves, `%%` is a `%`, and
/// each conversion specification shows the next value. Values that are left over are ignored.
/// POSIX.1-2017, XCU awk, "Formatted Output", and XBD 5, "File Format Notation".
///
/// Fails, by the leftmost fault, with `Fault::Format` at what is no conversion specification, at a
/// width or precision over 65,535 and where no value is left, and with `Fault::OutOfRange` at a
/// value whose number is wanted and out of range. Where there is none of these it fails with
/// `Fault::TextTooLong` where the text has more than `MOST_BYTES` bytes. `Fault::Memory` comes
/// where memory is refused.
pub fn format(
    alloc: Global,
    numbers: Numbers,
    format: &[u8],
    values: &[Value],
) -> Result<Vec<u8>, Fault>
    ensures ok { IfOk result (λ text. formatted numbers format.now values.now ≡ Ok text.items) }
    ensures err { IfErr result (λ e. (e ≡ Fault.Memory) ⊎ (formatted numbers format.now values.now ≡ Err e)) }
{
    let room = format
        .len()
        .saturating_add(values.len().saturating_mul(ROOM_OF_A_VALUE));
    let mut out = Output::with_room(alloc, room)?;
    let mut rest = format;
    let mut values = values;
    while !rest.is_empty() {
        let (plain, after) = rest.split_at(plain_length(rest));
        out.push(plain)?;
        rest = after;
        if let [_, text @ ..] = after {
            let (text, others) = show_piece(alloc, &mut out, numbers, text, values)?;
            rest = text;
            values = others;
        }
    }
    out.finish()
}
