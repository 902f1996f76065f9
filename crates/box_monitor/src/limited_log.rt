// A log that has a limit.
ghost use Rattle.std.specs.Prelude.{◌≡◌, ◌+◌, ◌≤◌, ◌<◌, ⊤, ℕ, List, length, Result, IfOk, IfErr, OnErr, IsErr};
ghost use Rattle.std.specs.Io.{WritesAtMost};
ghost use Rattle.std.specs.Io.KnownBytes.{WriteAppends, Keeps};
ghost use Rattle.std.specs.IoError.{error_kind};
ghost use Rattle.std.specs.declared.io.Error.{Error};

use std::fs::File;
use std::io::{self, ErrorKind, Write};
use std::marker::Model;

/// A writer whose calls contracts can name, where those of [`Write`] speak of its bytes alone. `put` is its `write`,
/// and `settle` its `flush`.
pub trait Sink: Write {
    /// The one writer, asked to write these bytes, may answer so and be the other then.
    ghost puts: { Self → List ℕ → Result ℕ Error → Self → Type 0 };

    /// The one writer, asked to flush, may answer so and be the other then.
    ghost settles: { Self → Result ⊤ Error → Self → Type 0 };

    fn put(&mut self, bytes: &[u8]) -> io::Result<usize>
        ensures bound { WritesAtMost result bytes.now }
        ensures bytes { WriteAppends (Self.contents self.old) (Self.contents self.new) result bytes.now }
        ensures puts { puts self.old bytes.now result self.new };

    fn settle(&mut self) -> io::Result<()>
        ensures bytes { Keeps (Self.contents self.old) (Self.contents self.new) }
        ensures settles { settles self.old result self.new };
}

// What a file does is the system's, and no contract speaks of it.
impl Sink for File {
    ghost puts = { λ _ _ _ _. Unit {0} };

    ghost settles = { λ _ _ _. Unit {0} };

    fn put(&mut self, bytes: &[u8]) -> io::Result<usize> {
        self.write(bytes)
    }

    fn settle(&mut self) -> io::Result<()> {
        self.flush()
    }
}

/// A writer that passes on to the one behind it what stays within a limit of bytes.
///
/// A write that would pass the limit is refused whole, with `ErrorKind::FileTooLarge`: the writer behind is not called,
/// and a shorter write may still be taken. So no line that comes in one write is cut by the limit. Any other write, and
/// each flush, is the writer's behind, with its answer.
#[derive(Drop)]
pub struct LimitedLog<W: Sink> {
    inner: W,
    limit: u64,
    passed: u64,
}

impl<W: Sink> Model for LimitedLog<W> {
    ghost use Rattle.std.specs.Prelude.{◌≤◌};
    ghost use Rattle.box_monitor.specs.Limited.{Limited};

    ghost Value = { Limited W };

    ghost view = { λ log. record { inner = log.inner; limit = log.limit; passed = log.passed } };

    ghost invariant = { λ log. log.passed ≤ log.limit };
}

impl<W: Sink> LimitedLog<W> {
    /// A log that adds at most this many bytes to what the writer behind has.
    pub fn new(inner: W, limit: u64) -> LimitedLog<W>
        ensures { result ≡ record { inner = inner; limit = limit; passed = 0 } }
    {
        LimitedLog {
            inner,
            limit,
            passed: 0,
        }
    }

    /// How many bytes the writer behind took.
    pub fn passed(&self) -> u64
        ensures count { result ≡ self.now.passed }
        ensures limit { result ≤ self.now.limit }
    {
        self.passed
    }

    /// The writer behind.
    pub fn into_inner(self) -> W
        ensures { result ≡ self.inner }
    {
        self.inner
    }
}

impl<W: Sink> Write for LimitedLog<W> {
    ghost contents = { λ log. W.contents log.inner };

    fn write(&mut self, buf: &[u8]) -> io::Result<usize>
        // What a writer owes.
        ensures bound { WritesAtMost result buf.now }
        ensures bytes { WriteAppends (W.contents self.old.inner) (W.contents self.new.inner) result buf.now }

        // What stays within the limit is the writer's behind, with its answer, and what that takes is counted.
        ensures limit { self.new.limit ≡ self.old.limit }
        ensures within { self.old.passed + length buf.now ≤ self.old.limit →
            W.puts self.old.inner buf.now result self.new.inner }
        ensures taken { IfOk result (λ count. self.new.passed ≡ self.old.passed + count) }
        ensures failed { OnErr result (self.new.passed ≡ self.old.passed) }

        // What would pass it does not reach that writer.
        ensures refused { self.old.limit < self.old.passed + length buf.now →
            IsErr result × (self.new ≡ self.old) }
        ensures kind { self.old.limit < self.old.passed + length buf.now →
            IfErr result (λ error. error_kind error ≡ ErrorKind.FileTooLarge) }
    {
        let length = buf.len() as u64;
        if length > self.limit - self.passed {
            return Err(io::Error::from(ErrorKind::FileTooLarge));
        }
        match self.inner.put(buf) {
            Ok(count) => {
                self.passed += count as u64;
                Ok(count)
            }
            Err(error) => Err(error),
        }
    }

    fn flush(&mut self) -> io::Result<()>
        ensures bytes { Keeps (W.contents self.old.inner) (W.contents self.new.inner) }
        ensures same { (self.new.limit ≡ self.old.limit) × (self.new.passed ≡ self.old.passed) }
        ensures settles { W.settles self.old.inner result self.new.inner }
    {
        self.inner.settle()
    }
}
