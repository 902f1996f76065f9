// A reader whose input comes a piece at a time, a step after the other. No step ends it.
ghost use Rattle.std.specs.Prelude.{false, ◌≡◌};

use crate::args::{name, text};
use crate::problem::Problem;
use crate::row::{Arg, Row};
use crate::shown::{Shown, bracketed, bytes, show, told};
use awk_fields::reader::{Reader, Taken};
use awk_text::octets::Octets;
use std::alloc::Global;

fn push(alloc: Global, reader: &mut Reader, piece: &[u8]) -> Shown
    requires { reader.old.input.ended ≡ false }
    ensures { reader.new.input.ended ≡ false }
{
    reader.push(piece)?;
    bytes(alloc, b"done")
}

fn show_taken(alloc: Global, taken: Taken) -> Shown {
    match taken {
        Taken::Record(text) => bracketed(alloc, &[text]),
        Taken::NeedMore => bytes(alloc, b"more"),
        Taken::Done => bytes(alloc, b"done"),
    }
}

fn take(alloc: Global, reader: &mut Reader, rs: &[u8]) -> Shown
    ensures { reader.new.input.ended ≡ reader.old.input.ended }
{
    let mut room = Vec::new(alloc);
    show_taken(alloc, reader.take(rs, &mut room)?)
}

fn step(alloc: Global, reader: &mut Reader, args: &[Arg<'_>]) -> Shown
    requires { reader.old.input.ended ≡ false }
    ensures { reader.new.input.ended ≡ false }
{
    match name(args, 0) {
        "push" => push(alloc, reader, text(args, 1)),
        "take" => take(alloc, reader, text(args, 1)),
        "held" => show(alloc, reader.held()),
        _ => Err(Problem::NoCall),
    }
}

/// The answers of the steps, on a reader of which nothing was pushed.
pub fn block(alloc: Global, steps: &[Row<'_>]) -> Result<Vec<Octets>, Problem> {
    let mut reader = Reader::new(alloc);
    let mut answers = Vec::new(alloc);
    for row in steps {
        answers.push(told(alloc, step(alloc, &mut reader, &row.args))?)?;
    }
    Ok(answers)
}
