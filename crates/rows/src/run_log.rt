// The log of a run, which fails where a row says so.

use std::alloc::Global;
use std::io::{self, ErrorKind, Write};

/// A log that fails from the write of this number on, and from the flush of this number on. They
/// are counted from 1; 0 is none.
#[derive(Drop)]
pub struct RunLog {
    pub text: Vec<u8>,
    pub bad_write: u32,
    pub bad_flush: u32,
    /// Memory for a write was refused.
    pub is_refused: bool,
    writes: u32,
    flushes: u32,
}

impl RunLog {
    /// A log that never fails.
    pub fn new(alloc: Global) -> RunLog {
        RunLog {
            text: Vec::new(alloc),
            bad_write: 0,
            bad_flush: 0,
            is_refused: false,
            writes: 0,
            flushes: 0,
        }
    }
}

impl Write for RunLog {
    fn write(&mut self, buf: &[u8]) -> io::Result<usize> {
        self.writes = self.writes.saturating_add(1);
        if self.bad_write != 0 && self.writes >= self.bad_write {
            return Err(io::Error::from(ErrorKind::BrokenPipe));
        }
        if self.text.extend_from_slice(buf).is_err() {
            self.is_refused = true;
            return Err(io::Error::from(ErrorKind::OutOfMemory));
        }
        Ok(buf.len())
    }

    fn flush(&mut self) -> io::Result<()> {
        self.flushes = self.flushes.saturating_add(1);
        if self.bad_flush != 0 && self.flushes >= self.bad_flush {
            return Err(io::Error::from(ErrorKind::BrokenPipe));
        }
        Ok(())
    }
}
