// Why a text is refused as a pattern, and the limits.
ghost use Rattle.std.specs.Prelude.{◌≡◌, Some};
ghost use Rattle.awk_ere.specs.Refusals.{refusal_text};
ghost use Rattle.awk_ere.specs.Spelled.{code_of};

use std::alloc::{AllocError, AllocFailed};
use std::error::Error;
use std::fmt;

/// The most bytes that a pattern's text may have.
pub const MAX_BYTES: usize = 4096;

/// The greatest size of a pattern: a byte, `.`, a bracket expression, an escape or an anchor counts 1,
/// and a repetition by an interval multiplies.
pub const MAX_SIZE: usize = 20000;

/// Why a text is no pattern, or why none was made of it.
#[derive(Clone, Copy, Debug, PartialEq, Eq)]
pub enum EreFault {
    /// An unmatched `(` or `[`, a bracket expression that is none, or a lone `\` at the end.
    Syntax,
    /// An interval with a bound over 255 or with its bounds in the wrong order.
    Interval,
    /// More than `MAX_BYTES` bytes, or a size over `MAX_SIZE`.
    Size,
    /// Memory was refused.
    Memory,
}

/// A refusal. Codes: 1 syntax, 2 interval, 3 too long or too large, 4 memory. It is shown as `E1` to `E4`.
#[derive(Clone, Copy, Debug, PartialEq, Eq, Drop)]
pub struct EreError {
    pub code: u8,
}

impl fmt::Display for EreError {
    ghost output = { λ e. Some (refusal_text e) };

    fn fmt<W: fmt::Write>(&self, f: &mut fmt::Formatter<W>) -> fmt::Result {
        write!(f, "E{}", self.code)
    }
}

impl Error for EreError {}

impl EreFault {
    /// The number of the refusal.
    pub fn code(self) -> u8
        ensures { result ≡ code_of self }
    {
        match self {
            EreFault::Syntax => 1,
            EreFault::Interval => 2,
            EreFault::Size => 3,
            EreFault::Memory => 4,
        }
    }
}

impl From<AllocError> for EreFault {
    ghost use Rattle.awk_ere.specs.declared.error.EreFault.TheVariants.{Memory};

    ghost from_gives = { λ _ e. e ≡ Memory };

    fn from(_error: AllocError) -> EreFault {
        EreFault::Memory
    }
}

impl<T: Drop> From<AllocFailed<T>> for EreFault {
    ghost use Rattle.awk_ere.specs.declared.error.EreFault.TheVariants.{Memory};

    ghost from_gives = { λ _ e. e ≡ Memory };

    fn from(_error: AllocFailed<T>) -> EreFault {
        EreFault::Memory
    }
}
