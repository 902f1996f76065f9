// A record whose fields are set, a step after the other.
use crate::args::{name, number, octets, text, values};
use crate::problem::Problem;
use crate::readers;
use crate::row::{Arg, Row};
use crate::shown::{Shown, bytes, show, show_value, told};
use awk_fields::{Record, Splitter};
use awk_numbers::number::Numbers;
use awk_text::fault::Fault;
use awk_text::octets::Octets;
use awk_text::value::text_of;
use std::alloc::Global;

fn set_whole(alloc: Global, record: &mut Record, fs: &[u8], text: &[u8]) -> Shown {
    let splitter = Splitter::new(alloc, fs, false)?;
    record.set_whole(octets(alloc, text)?, splitter)?;
    bytes(alloc, b"done")
}

fn set_field(alloc: Global, record: &mut Record, args: &[Arg<'_>]) -> Shown {
    let at = number(args, 1)?;
    let mut values = values(alloc, Numbers::Whole, args, 2)?;
    values.truncate(1);
    match values.pop() {
        Some(value) => {
            record.set_field(at, value, text(args, 3))?;
            bytes(alloc, b"done")
        }
        None => Err(Problem::NoArgument),
    }
}

fn set_count(alloc: Global, record: &mut Record, count: i64, ofs: &[u8]) -> Shown {
    record.set_count(count, ofs)?;
    bytes(alloc, b"done")
}

fn whole(alloc: Global, record: &mut Record) -> Shown {
    record.rebuild()?;
    match record.known_whole() {
        Some(whole) => bytes(alloc, whole),
        None => Err(Problem::Fault(Fault::Memory)),
    }
}

fn step(alloc: Global, record: &mut Record, args: &[Arg<'_>]) -> Shown {
    match name(args, 0) {
        "line" => set_whole(alloc, record, text(args, 1), text(args, 2)),
        "set" => set_field(alloc, record, args),
        "set_nf" => set_count(alloc, record, number(args, 1)?, text(args, 2)),
        "nf" => show(alloc, record.count()?),
        "get" => show_value(alloc, &record.get(number(args, 1)?)?),
        "text" => Ok(text_of(alloc, &record.get(number(args, 1)?)?)?),
        "whole" => whole(alloc, record),
        _ => Err(Problem::NoCall),
    }
}

/// The answers of the steps, on a record that begins empty.
fn record_block(alloc: Global, steps: &[Row<'_>]) -> Result<Vec<Octets>, Problem> {
    let mut record = Record::new(alloc);
    let mut answers = Vec::new(alloc);
    for row in steps {
        answers.push(told(alloc, step(alloc, &mut record, &row.args))?)?;
    }
    Ok(answers)
}

/// The answers of the steps, on a record or on a reader.
pub fn block(alloc: Global, args: &[Arg<'_>], steps: &[Row<'_>]) -> Result<Vec<Octets>, Problem> {
    match name(args, 0) {
        "record" => record_block(alloc, steps),
        "reader" => readers::block(alloc, steps),
        _ => Err(Problem::NoCall),
    }
}
