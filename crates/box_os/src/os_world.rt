// The world of real files and commands.
ghost use Rattle.std.specs.Prelude.{◌≡◌, ℕ, ◌<◌, ◌⊎◌, List, [], false, refl, IfOk, IfErr, OnErr};
ghost use Rattle.box_world.specs.Calls.{IsFitting, IsDoing, IsOpening, IsReading, IsRunning, IsShutting, IsValuing};
ghost use Rattle.box_world.specs.Calls.{numbers_after, without};
ghost use Rattle.box_world.specs.declared.ask.Reply.TheVariants.{Done, Failed};
ghost use Rattle.box_world.specs.declared.ask.Request.TheVariants.{Open};
ghost use Rattle.box_world.specs.declared.ask.Stop.TheVariants.{Memory};
ghost use Rattle.box_os.specs.OsFollows.{Follows, Follows-append};
ghost use Rattle.box_os.specs.OsOwn.{IsOwn};
ghost use Rattle.box_os.specs.OsReading.{IsWithin};

use crate::commands::run_command;
use crate::environment::value_of;
use crate::refusals::refused;
use crate::streams::open_stream;
use crate::table::{OpenStream, next_of, put_to, take_stream};
use crate::transfers::{PIECE, read_from, write_out};
use box_world::ask::{Ask, Mode, Reply, Request, Stop};
use box_world::world::World;
use std::alloc::Global;
use std::marker::Model;

/// A world over the files and the environment of the system and over commands that `sh -c` runs. Names of
/// files are opened as they are written, so a relative one is read from the folder of the process.
/// A command has the standard streams of this process but for the pipe that it is read or written by.
///
/// A name or a command that is not UTF-8, or holds NUL, is `Failed`. A stream is read in pieces of at
/// most 8,192 bytes, and no further than what was asked; what is put to it is written at once. It
/// never answers `Stop::Log`.
///
/// Contracts see the numbers that are open, in order of opening. What a file or a command gives
/// and takes is the system's, and no contract speaks of it.
#[derive(Drop)]
pub struct OsWorld {
    rt: HostRuntime,
    alloc: Global,
    streams: Vec<OpenStream>,
    // 2^32 where every number has been given
    next: u64,
    // What is read goes through it, so that a small piece clears no room of its own.
    buffer: [u8; PIECE],
}

impl Model for OsWorld {
    ghost use Rattle.std.specs.Prelude.{ℕ, List};
    ghost use Rattle.box_os.specs.OsNumbers.{Rises, numbers_of};

    ghost Value = { List ℕ };

    ghost view = { λ w. numbers_of w.streams.items };

    ghost invariant = { λ w. Rises 3 w.next (numbers_of w.streams.items) };
}

impl OsWorld {
    /// The world of this process, with nothing open. Takes no memory.
    pub fn new(rt: HostRuntime) -> OsWorld
        ensures { result ≡ [] }
    {
        let alloc = rt.alloc();
        OsWorld {
            rt,
            alloc,
            streams: Vec::new(alloc),
            next: 3,
            buffer: [0; PIECE],
        }
    }

    // Room for the new stream is made before a file is emptied or a command is started.
    fn open(&mut self, mode: Mode, text: &[u8]) -> Result<Reply, Stop>
        ensures ok { IfOk result (λ reply. self.new ≡ numbers_after (Open mode text.now) reply self.old) }
        ensures fits { IfOk result (λ reply. IsOpening self.old reply) }
        ensures err { OnErr result (self.new ≡ self.old) }
        ensures memory { IfErr result (λ e. e ≡ Memory) }
    {
        let Ok(text) = std::str::from_utf8(text) else {
            return Ok(Reply::Failed);
        };
        let Ok(number) = u32::try_from(self.next) else {
            return Ok(Reply::Failed);
        };
        self.streams.reserve(1)?;
        match open_stream(&self.rt, self.alloc, mode, text) {
            Ok(stream) => {
                self.next += 1;
                self.streams.push(OpenStream { number, stream }).unwrap();
                Ok(Reply::Opened(number))
            }
            Err(error) => refused(error),
        }
    }

    fn next(&mut self, number: u32) -> Result<Reply, Stop>
        ensures same { self.new ≡ self.old }
        ensures fits { IfOk result (λ reply. IsReading reply) }
        ensures size { IfOk result (λ reply. IsWithin 8192 reply) }
        ensures outputs { (number ≡ 1) ⊎ (number ≡ 2) → IfOk result (λ reply. reply ≡ Failed) }
        ensures memory { IfErr result (λ e. e ≡ Memory) }
    {
        match number {
            0 => read_from(self.alloc, &mut self.buffer, &mut self.rt.stdin()),
            _ => next_of(&mut self.streams, self.alloc, &mut self.buffer, number),
        }
    }

    fn put(&mut self, number: u32, bytes: &[u8]) -> Reply
        ensures same { self.new ≡ self.old }
        ensures fits { IsDoing result }
        ensures input { number ≡ 0 → result ≡ Failed }
    {
        match number {
            1 => write_out(&mut self.rt.stdout(), bytes),
            2 => write_out(&mut self.rt.stderr(), bytes),
            _ => put_to(&mut self.streams, number, bytes),
        }
    }

    fn shut(&mut self, number: u32) -> Reply
        ensures shut { self.new ≡ without number self.old }
        ensures fits { IsShutting result }
        ensures standard { number < 3 → result ≡ Done }
    {
        match take_stream(&mut self.streams, number) {
            Some(stream) => stream.shut(),
            None => Reply::Done,
        }
    }
}

impl World for OsWorld {
    ghost follows = { Follows };

    ghost open_numbers = { λ w. w };

    ghost has_stopped = { λ _. false };

    ghost stops = { λ _ _ _ _. ⊥ };

    ghost lacks = { λ v _ w. w ≡ v };

    /// Answers the ask, or answers `Stop::Memory` with nothing done.
    fn ask(&mut self, ask: &Ask) -> Result<Reply, Stop>
        // What a world owes.
        ensures ok { IfOk result (λ reply. self.new ≡ numbers_after ask.now.request reply self.old) }
        ensures fits { IfOk result (λ reply. IsFitting self.old ask.now.request reply) }

        // What it says by itself, whatever the system does.
        ensures own { IfOk result (λ reply. IsOwn ask.now.request reply) }

        // It fails by want of memory alone.
        ensures err { OnErr result (self.new ≡ self.old) }
        ensures memory { IfErr result (λ e. e ≡ Memory) }
    {
        match &ask.request {
            Request::Open(mode, text) => self.open(*mode, text.bytes()),
            Request::Next(number) => self.next(*number),
            Request::Put(number, bytes) => Ok(self.put(*number, bytes.bytes())),
            Request::Shut(number) => Ok(self.shut(*number)),
            Request::System(command) => run_command(&self.rt, self.alloc, command.bytes()),
            Request::Env(name) => value_of(&self.rt, self.alloc, name.bytes()),
            Request::Assign(_, _) => Ok(Reply::Done),
        }
    }

    ghost follows_none = { λ _. refl };

    ghost follows_append = { Follows-append };

    ghost follows_open = { λ _ _ _ p. p };

    ghost stops_later = { λ _ _ _ _ _ _ _ _ p. p };
}
