// The words read, and the user told where they ask for nothing that is to be done.
use crate::command_line::{Asked, fault};
use crate::words::Words;
use crate::{command_line, words};
use awk_text::octets::Octets;
use clap::Error;
use clap::error::ErrorKind;

/// The exit status where the words are at fault.
const WORDS_REFUSED: u8 = 3;

/// Why nothing is asked for.
#[derive(Clone, Copy, Drop)]
pub enum NotAsked {
    /// The user was told: the help or the version that the words ask for, with status 0, or on standard error what is
    /// wrong with the words, with status 3. The program ends with this status.
    Told(u8),
    /// Memory was refused, of which nothing was told.
    OutOfMemory,
}

// Prints what `clap` has to say. That it cannot be written is passed over.
fn told(rt: &HostRuntime, error: &Error) -> NotAsked {
    if error.kind() == ErrorKind::OutOfMemory {
        return NotAsked::OutOfMemory;
    }
    let _ = error.print(rt);
    match error.use_stderr() {
        true => NotAsked::Told(WORDS_REFUSED),
        false => NotAsked::Told(0),
    }
}

/// Reads the words that the program was started with.
///
/// A word before the operands that is not text is told, as a fault with the usage. The other error is refused memory.
pub fn read_words(rt: &HostRuntime) -> Result<Words, NotAsked> {
    match words::read(rt) {
        Ok(words) => Ok(words),
        Err(error) => Err(told(rt, &error)),
    }
}

/// Reads what the words before the operands ask for; the first of them is the program's name.
///
/// Words that no command has, that are missing or that have no right value are told, as a fault with the usage, and so
/// are operands beside another command than `run`; the help and the version are printed where the words ask for them.
/// The other error is refused memory.
pub fn read_asked<'a>(
    rt: &HostRuntime,
    options: &'a [String],
    operands: &[Octets],
) -> Result<Asked<'a>, NotAsked> {
    match command_line::read(rt.alloc(), options) {
        Ok(asked) if operands.is_empty() || matches!(asked, Asked::Run(_)) => Ok(asked),
        Ok(_) => Err(told(rt, &fault(rt.alloc(), "a word too many"))),
        Err(error) => Err(told(rt, &error)),
    }
}
