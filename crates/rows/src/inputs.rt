// Inputs that are read whole, up to a limit.

use awkbox::{Fault, ReadError, read_limited};
use library_calls::args::{name, number};
use library_calls::problem::Problem;
use library_calls::row::Arg;
use library_calls::shown::{Shown, bytes};
use std::alloc::Global;
use std::io::{self, ErrorKind, Read};

/// A reader that is told by arguments, one for each reading: the bytes that it gives, or how it fails.
#[derive(Drop)]
struct Readings<'a, 'b> {
    readings: &'a [Arg<'b>],
    /// Which reading is the next one.
    next: usize,
}

impl Read for Readings<'_, '_> {
    fn read(&mut self, buf: &mut [u8]) -> io::Result<usize> {
        let Some(reading) = self.readings.get(self.next) else {
            return Ok(0);
        };
        self.next += 1;
        match reading.word {
            b"failed" => Err(io::Error::from(ErrorKind::Other)),
            b"interrupted" => Err(io::Error::from(ErrorKind::Interrupted)),
            _ => reading.text.as_slice().read(buf),
        }
    }
}

fn read(alloc: Global, limit: i64, readings: &[Arg<'_>]) -> Shown {
    let Ok(limit) = usize::try_from(limit) else {
        return Err(Problem::NoArgument);
    };
    let mut told = Readings { readings, next: 0 };
    match read_limited(alloc, &mut told, limit) {
        Ok(all) => Ok(all),
        Err(ReadError::Failed) => bytes(alloc, b"failed"),
        Err(ReadError::TooLong) => bytes(alloc, b"too long"),
        Err(ReadError::Memory) => Err(Problem::Fault(Fault::Memory)),
    }
}

/// The answer of the call.
pub fn call(alloc: Global, args: &[Arg<'_>]) -> Shown {
    match name(args, 0) {
        "read_limited" => read(alloc, number(args, 1)?, args.get(2..).unwrap_or(&[])),
        _ => Err(Problem::NoCall),
    }
}
