// Requests and replies.
ghost use Rattle.std.specs.Prelude.{◌≡◌, IfOk};

use awk_text::Memory;
use awk_text::octets::Octets;
use awk_text::place::Place;
use std::alloc::{AllocError, Global};
use thiserror::Error;

/// How a stream is opened. `RunIn` is a command whose output is read, `RunOut` one that is
/// written to.
#[derive(Clone, Copy, Debug, PartialEq, Eq, Drop)]
pub enum Mode {
    Read,
    Write,
    Append,
    RunIn,
    RunOut,
}

/// What a script may want of the world. Streams go by number: 0, 1 and 2 are the standard ones,
/// the others are those that an `Open` was answered with.
#[derive(Drop)]
pub enum Request {
    /// Open a file, or start a command.
    Open(Mode, Octets),
    /// Read on from a stream.
    Next(u32),
    /// Write to a stream.
    Put(u32, Octets),
    /// Close a stream. Its number is no longer open, whatever the reply.
    Shut(u32),
    /// Run a command to its end.
    System(Octets),
    /// The value of a name of the environment.
    Env(Octets),
    /// Whether an operand may set the variable to the text.
    Assign(Octets, Octets),
}

/// What the world answers.
#[derive(Drop)]
pub enum Reply {
    /// The number of the stream, from 3 on and not open before.
    Opened(u32),
    /// What was read: at least one byte.
    Bytes(Octets),
    /// Nothing is left to read.
    End,
    Done,
    /// The exit status of a command, from 0 to 255, or 256 where it had none.
    Status(i64),
    /// The value of a name of the environment.
    Value(Octets),
    Failed,
}

/// One request, with its place in the script. `given` says that it opens or assigns an operand
/// word that the run was started with.
#[derive(Drop)]
pub struct Ask {
    pub place: Place,
    pub given: bool,
    pub request: Request,
}

/// Why a world did not answer: memory was refused, or the log of denials could not be written.
#[derive(Clone, Copy, Debug, PartialEq, Eq, Drop, Error)]
pub enum Stop {
    #[error("out of memory")]
    Memory,
    #[error("cannot write the denial log")]
    Log,
}

impl From<AllocError> for Stop {
    ghost use Rattle.std.specs.Prelude.{◌≡◌};
    ghost use Rattle.box_world.specs.declared.ask.Stop.TheVariants.{Memory};

    ghost from_gives = { λ _ e. e ≡ Memory };

    fn from(_error: AllocError) -> Stop {
        Stop::Memory
    }
}

impl Request {
    /// The same request once more, or `Memory` where memory is refused.
    pub fn copy(&self, alloc: Global) -> Result<Request, Memory>
        ensures { IfOk result (λ r. r ≡ self.now) }
    {
        match self {
            Request::Open(mode, text) => Ok(Request::Open(*mode, text.copy(alloc)?)),
            Request::Next(number) => Ok(Request::Next(*number)),
            Request::Put(number, bytes) => Ok(Request::Put(*number, bytes.copy(alloc)?)),
            Request::Shut(number) => Ok(Request::Shut(*number)),
            Request::System(text) => Ok(Request::System(text.copy(alloc)?)),
            Request::Env(name) => Ok(Request::Env(name.copy(alloc)?)),
            Request::Assign(name, text) => {
                Ok(Request::Assign(name.copy(alloc)?, text.copy(alloc)?))
            }
        }
    }
}

impl Reply {
    /// The same reply once more, or `Memory` where memory is refused.
    pub fn copy(&self, alloc: Global) -> Result<Reply, Memory>
        ensures { IfOk result (λ r. r ≡ self.now) }
    {
        match self {
            Reply::Opened(number) => Ok(Reply::Opened(*number)),
            Reply::Bytes(bytes) => Ok(Reply::Bytes(bytes.copy(alloc)?)),
            Reply::End => Ok(Reply::End),
            Reply::Done => Ok(Reply::Done),
            Reply::Status(status) => Ok(Reply::Status(*status)),
            Reply::Value(text) => Ok(Reply::Value(text.copy(alloc)?)),
            Reply::Failed => Ok(Reply::Failed),
        }
    }
}

impl Ask {
    /// The same ask once more, or `Memory` where memory is refused.
    pub fn copy(&self, alloc: Global) -> Result<Ask, Memory>
        ensures { IfOk result (λ a. a ≡ self.now) }
    {
        Ok(Ask {
            place: self.place,
            given: self.given,
            request: self.request.copy(alloc)?,
        })
    }
}
