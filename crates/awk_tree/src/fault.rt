// Why tokens are not read.

ghost use Rattle.std.specs.Prelude.{◌≡◌};

use std::alloc::{AllocError, AllocFailed};

/// Why nothing is read. A place is told by the count of tokens that were left.
#[derive(Clone, Copy, Drop)]
pub enum ParseError {
    /// S9: memory was refused.
    Memory,
    /// S4: the first of these tokens cannot stand there.
    Unexpected(usize),
    /// S5: the first of these tokens opens a level too much.
    TooDeep(usize),
}

impl From<AllocError> for ParseError {
    ghost use Rattle.awk_tree.specs.declared.fault.ParseError.TheVariants.{Memory};

    ghost from_gives = { λ _ e. e ≡ Memory };

    fn from(_: AllocError) -> ParseError {
        ParseError::Memory
    }
}

impl<T: Drop> From<AllocFailed<T>> for ParseError {
    ghost use Rattle.awk_tree.specs.declared.fault.ParseError.TheVariants.{Memory};

    ghost from_gives = { λ _ e. e ≡ Memory };

    fn from(_: AllocFailed<T>) -> ParseError {
        ParseError::Memory
    }
}
