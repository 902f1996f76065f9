// Fields of texts, and records of inputs.
ghost use Rattle.std.specs.Prelude.{◌<◌};

use crate::args::{name, octets, text};
use crate::problem::Problem;
use crate::row::Arg;
use crate::shown::{Shown, bracketed};
use awk_fields::{Record, Splitter, records, split};
use awk_text::fault::Fault;
use awk_text::octets::Octets;
use std::alloc::Global;

fn splitter(alloc: Global, call: &str, separator: &[u8]) -> Result<Splitter, Problem> {
    match call {
        "split" => Ok(Splitter::new(alloc, separator, false)?),
        "split_in_paragraph" => Ok(Splitter::new(alloc, separator, true)?),
        "split_by_pattern" => Ok(Splitter::ere(alloc, separator)?),
        _ => Err(Problem::NoCall),
    }
}

fn fields(alloc: Global, splitter: &Splitter, text: &[u8]) -> Shown {
    bracketed(alloc, &split(alloc, text, splitter)?)
}

/// The fields by the splitter, and by one that shares its pattern.
fn fields_twice(alloc: Global, splitter: &Splitter, text: &[u8]) -> Shown {
    let shared = splitter.share()?;
    let (first, second) = (
        fields(alloc, splitter, text)?,
        fields(alloc, &shared, text)?,
    );
    if first.as_slice() != second.as_slice() {
        return Err(Problem::TwoAnswers);
    }
    Ok(first)
}

/// The input in pieces of this length.
fn pieces(alloc: Global, input: &[u8], len: usize) -> Result<Vec<Octets>, Problem>
    requires { 0 < len }
{
    let mut pieces = Vec::new(alloc);
    for piece in input.chunks(len) {
        pieces.push(octets(alloc, piece)?)?;
    }
    Ok(pieces)
}

fn records_of(alloc: Global, rs: &[u8], input: &[u8], len: usize) -> Shown
    requires { 0 < len }
{
    let pieces = pieces(alloc, input, len)?;
    bracketed(alloc, &records(alloc, &pieces, rs)?)
}

/// The records of the input, in whatever pieces it comes.
fn records_cut(alloc: Global, rs: &[u8], input: &[u8]) -> Shown {
    let whole = records_of(alloc, rs, input, 8192)?;
    for len in [1usize, 2, 3] {
        let cut = records_of(alloc, rs, input, len)?;
        if cut.as_slice() != whole.as_slice() {
            return Err(Problem::TwoAnswers);
        }
    }
    Ok(whole)
}

fn count(alloc: Global, text: &[u8], splitter: Splitter) -> Result<i64, Fault> {
    let mut record = Record::new(alloc);
    record.set_whole(octets(alloc, text)?, splitter)?;
    record.count()
}

/// NF of each record of the input, which comes in one piece.
fn counts(alloc: Global, fs: &[u8], rs: &[u8], input: &[u8]) -> Shown {
    let input = octets(alloc, input)?;
    let mut shown = Vec::new(alloc);
    for text in records(alloc, &[input], rs)? {
        let splitter = Splitter::new(alloc, fs, rs.is_empty())?;
        let count = format!(in alloc; "[{}]", count(alloc, text.bytes(), splitter)?)?;
        shown.extend_from_slice(count.as_bytes())?;
    }
    Ok(shown)
}

/// The answer of the call.
pub fn call(alloc: Global, args: &[Arg<'_>]) -> Shown {
    match name(args, 0) {
        "records" => records_cut(alloc, text(args, 1), text(args, 2)),
        "records_in_one_piece" => records_of(alloc, text(args, 1), text(args, 2), usize::MAX),
        "counts" => counts(alloc, text(args, 1), text(args, 2), text(args, 3)),
        call => {
            let splitter = splitter(alloc, call, text(args, 1))?;
            fields_twice(alloc, &splitter, text(args, 2))
        }
    }
}
