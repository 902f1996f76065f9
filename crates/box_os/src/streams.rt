// Files and commands that are open.
ghost use Rattle.std.specs.Prelude.{◌≡◌, true, false, Ok, IfOk, IfErr};
ghost use Rattle.box_world.specs.Calls.{IsDoing, IsReading, IsRunning, IsShutting};
ghost use Rattle.box_world.specs.declared.ask.Reply.TheVariants.{Done, Failed};
ghost use Rattle.box_world.specs.declared.ask.Stop.TheVariants.{Memory};
ghost use Rattle.box_os.specs.OsReading.{IsWithin};
ghost use Rattle.box_os.specs.OsStreams.{is_command, is_input, opens_command, opens_input};

use crate::commands::{listen_to, speak_to, wait_for};
use crate::transfers::{PIECE, read_from, write_out};
use box_world::ask::{Mode, Reply, Stop};
use std::alloc::Global;
use std::fs::{File, OpenOptions};
use std::io;
use std::io::PipeWriter;
use std::process::Child;

/// What a number stands for. The system closes each for the programs that are started, so that no
/// command holds another one's pipe.
#[derive(Drop)]
pub enum Stream {
    /// A file that is read.
    InputFile(File),
    /// A file that is written to.
    OutputFile(File),
    /// A command whose output is read.
    InputCommand(Child),
    /// A command that is written to, and the pipe to it.
    OutputCommand(Child, PipeWriter),
}

/// Opens the file of the name, or starts the command.
pub fn open_stream(rt: &HostRuntime, alloc: Global, mode: Mode, text: &str) -> io::Result<Stream>
    ensures way { IfOk result (λ stream. is_input stream ≡ opens_input mode) }
    ensures command { IfOk result (λ stream. is_command stream ≡ opens_command mode) }
{
    match mode {
        Mode::Read => Ok(Stream::InputFile(File::open(rt, text)?)),
        Mode::Write => Ok(Stream::OutputFile(File::create(rt, text)?)),
        Mode::Append => {
            let file = OpenOptions::new().append(true).create(true).open(rt, text)?;
            Ok(Stream::OutputFile(file))
        }
        Mode::RunIn => Ok(Stream::InputCommand(listen_to(rt, alloc, text)?)),
        Mode::RunOut => {
            let (child, pipe) = speak_to(rt, alloc, text)?;
            Ok(Stream::OutputCommand(child, pipe))
        }
    }
}

impl Stream {
    /// What it gives next. `Failed` where it is written to.
    pub fn next(&mut self, alloc: Global, buffer: &mut [u8; PIECE]) -> Result<Reply, Stop>
        ensures fits { IfOk result (λ reply. IsReading reply) }
        ensures size { IfOk result (λ reply. IsWithin 8192 reply) }
        ensures output { is_input self.old ≡ false → result ≡ Ok Failed }
        ensures memory { IfErr result (λ e. e ≡ Memory) }
    {
        match self {
            Stream::InputFile(file) => read_from(alloc, buffer, file),
            Stream::InputCommand(child) => match &mut child.stdout {
                Some(pipe) => read_from(alloc, buffer, pipe),
                None => Ok(Reply::Failed),
            },
            Stream::OutputFile(_) | Stream::OutputCommand(_, _) => Ok(Reply::Failed),
        }
    }

    /// Writes the bytes to it. `Failed` where it is read.
    pub fn put(&mut self, bytes: &[u8]) -> Reply
        ensures fits { IsDoing result }
        ensures input { is_input self.old ≡ true → result ≡ Failed }
    {
        match self {
            Stream::OutputFile(file) => write_out(file, bytes),
            Stream::OutputCommand(_, pipe) => write_out(pipe, bytes),
            Stream::InputFile(_) | Stream::InputCommand(_) => Reply::Failed,
        }
    }

    /// Closes it. A command is waited for, and the answer is its status.
    pub fn shut(self) -> Reply
        ensures fits { IsShutting result }
        ensures file { is_command self ≡ false → result ≡ Done }
        ensures command { is_command self ≡ true → IsRunning result }
    {
        match self {
            Stream::InputFile(_) | Stream::OutputFile(_) => Reply::Done,
            Stream::InputCommand(child) => wait_for(child),
            Stream::OutputCommand(child, pipe) => {
                drop(pipe);
                wait_for(child)
            }
        }
    }
}
