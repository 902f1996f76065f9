// The texts as one.
ghost use Rattle.std.specs.Prelude.{◌≡◌, ◌≢◌, ◌<◌, ◌+◌, ◌==◌, length, All, IfErr, IfOk, OnOk, count_by};
ghost use Rattle.awk_tokens.specs.Places.{capped};
ghost use Rattle.awk_sources.specs.Joined as spec;
ghost use Rattle.awk_sources.specs.Lines.{lines_of};
ghost use Rattle.awk_sources.specs.Parts.{IsRead, IsReadByText, RefusesText};

use crate::source::Source;
use awk_numbers::number::Numbers;
use awk_text::Memory;
use awk_text::place::Place;
use awk_tokens::{SyntaxError, tokens};
use std::alloc::Global;

/// So many lines, and those of this text.
fn with_lines(lines: u32, text: &[u8]) -> u32
    ensures { result ≡ capped (lines + lines_of text.now) }
{
    let mut total = lines.saturating_add(1);
    for b in text {
        if *b == b'\n' {
            total = total.saturating_add(1);
        }
    }
    total
}

/// Reads each text by itself. Where one is refused, so is the whole, at the place where that one stands in it.
fn read_each(alloc: Global, numbers: Numbers, sources: &[Source]) -> Result<(), SyntaxError>
    ensures read { OnOk result (All (IsRead numbers) (spec.texts_of sources.now)) }
    ensures refused { IfErr result (λ e. e.code ≢ 9 → RefusesText numbers (spec.texts_of sources.now) e.code e.place) }
{
    let mut lines = 0u32;
    for source in sources {
        let text = source.text.as_slice();
        if let Err(SyntaxError { code, place }) = tokens(alloc, numbers, text) {
            let Place { line, column } = place;
            let line = lines.saturating_add(line);
            return Err(SyntaxError {
                code,
                place: Place { line, column },
            });
        }
        lines = with_lines(lines, text);
    }
    Ok(())
}

fn copied(alloc: Global, sources: &[Source]) -> Result<Vec<u8>, Memory>
    ensures { IfOk result (λ whole. whole.items ≡ spec.joined (spec.texts_of sources.now)) }
{
    let mut whole = Vec::new(alloc);
    let [first, others @ ..] = sources else {
        return Ok(whole);
    };
    whole.extend_from_slice(first.text.as_slice())?;
    for other in others {
        whole.push(b'\n')?;
        whole.extend_from_slice(other.text.as_slice())?;
    }
    Ok(whole)
}

/// The texts as one script: in order, a newline between one and the next.
///
/// Of several texts each is read by itself, by this profile: where one ends within a string, a pattern or a line that
/// goes on, or is refused by S1, S2 or S3 elsewhere, that is the refusal of the whole, at its place there; by S9 where
/// memory is refused. One text alone is the script as it is: it is not looked at, and not copied.
pub fn joined(alloc: Global, numbers: Numbers, sources: Vec<Source>) -> Result<Vec<u8>, SyntaxError>
    ensures whole { IfOk result (λ whole. whole.items ≡ spec.joined (spec.texts_of sources.items)) }
    ensures read { IfOk result
        (λ whole. 1 < length sources.items → IsReadByText numbers (spec.texts_of sources.items) whole.items) }
    ensures refused { IfErr result (λ e. e.code ≢ 9 →
        (1 < length sources.items) × RefusesText numbers (spec.texts_of sources.items) e.code e.place) }
{
    let mut sources = sources;
    if sources.len() == 1 {
        if let Some(Source { text, .. }) = sources.pop() {
            return Ok(text);
        }
    }
    read_each(alloc, numbers, sources.as_slice())?;
    match copied(alloc, sources.as_slice()) {
        Ok(whole) => Ok(whole),
        Err(_) => Err(SyntaxError {
            code: SyntaxError::MEMORY,
            place: Place { line: 0, column: 0 },
        }),
    }
}
