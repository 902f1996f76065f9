// The faults that end a script's run.
ghost use Rattle.std.specs.Prelude.{◌≡◌, Some};
ghost use Rattle.awk_text.specs.Faults.{code_of, fault_text};

use awk_numbers::number::NumberFault;
use std::alloc::{AllocError, AllocFailed};
use std::error::Error;
use std::fmt;

/// Why a run of a script ends before its own end. POSIX.1-2017 leaves most of these undefined, or
/// to an unspecified diagnostic; here each has a code, `F1` to `F13`, and a text.
#[derive(Clone, Copy, Debug, PartialEq, Eq, Drop)]
pub enum Fault {
    OutOfRange,
    ZeroDivisor,
    Pattern,
    Format,
    CallDepth,
    TextTooLong,
    Output,
    NextOutside,
    FieldNumber,
    TooManyElements,
    StepBound,
    Log,
    Memory,
}

impl Fault {
    /// The number in the fault's code: 1 for `F1`, and so on to 13. Takes no memory.
    pub fn code(&self) -> u8
        ensures { result ≡ code_of self.now }
    {
        match self {
            Fault::OutOfRange => 1,
            Fault::ZeroDivisor => 2,
            Fault::Pattern => 3,
            Fault::Format => 4,
            Fault::CallDepth => 5,
            Fault::TextTooLong => 6,
            Fault::Output => 7,
            Fault::NextOutside => 8,
            Fault::FieldNumber => 9,
            Fault::TooManyElements => 10,
            Fault::StepBound => 11,
            Fault::Log => 12,
            Fault::Memory => 13,
        }
    }

    /// The fault's text, as messages have it. Takes no memory.
    pub fn text(&self) -> &'static str
        ensures { result.now ≡ fault_text self.now }
    {
        match self {
            Fault::OutOfRange => "number out of range",
            Fault::ZeroDivisor => "division by zero",
            Fault::Pattern => "bad pattern",
            Fault::Format => "bad format",
            Fault::CallDepth => "calls too deep",
            Fault::TextTooLong => "text too long",
            Fault::Output => "cannot open or write output",
            Fault::NextOutside => "next outside the main rules",
            Fault::FieldNumber => "bad field number",
            Fault::TooManyElements => "array too large",
            Fault::StepBound => "step bound reached",
            Fault::Log => "cannot write the denial log",
            Fault::Memory => "out of memory",
        }
    }
}

impl fmt::Display for Fault {
    ghost output = { λ fault. Some (fault_text fault) };

    fn fmt<W: fmt::Write>(&self, f: &mut fmt::Formatter<W>) -> fmt::Result {
        f.write_str(self.text())
    }
}

impl Error for Fault {}

impl From<NumberFault> for Fault {
    ghost use Rattle.std.specs.Prelude.{◌≡◌};
    ghost use Rattle.awk_text.specs.Faults.{fault_of};

    ghost from_gives = { λ n e. e ≡ fault_of n };

    fn from(error: NumberFault) -> Fault {
        match error {
            NumberFault::OutOfRange => Fault::OutOfRange,
            NumberFault::ZeroDivisor => Fault::ZeroDivisor,
        }
    }
}

impl From<AllocError> for Fault {
    ghost use Rattle.std.specs.Prelude.{◌≡◌};
    ghost use Rattle.awk_text.specs.declared.fault.Fault.TheVariants.{Memory};

    ghost from_gives = { λ _ e. e ≡ Memory };

    fn from(_error: AllocError) -> Fault {
        Fault::Memory
    }
}

impl<T: Drop> From<AllocFailed<T>> for Fault {
    ghost use Rattle.std.specs.Prelude.{◌≡◌};
    ghost use Rattle.awk_text.specs.declared.fault.Fault.TheVariants.{Memory};

    ghost from_gives = { λ _ e. e ≡ Memory };

    fn from(_error: AllocFailed<T>) -> Fault {
        Fault::Memory
    }
}
