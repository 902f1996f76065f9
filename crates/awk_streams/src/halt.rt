// Why a part of a run is not done.
ghost use Rattle.std.specs.Prelude.{◌≡◌};
ghost use Rattle.awk_streams.specs.Chains.{halt_at, halt_by, result_at};

use awk_text::fault::Fault;
use awk_text::place::Place;
use box_world::ask::Stop;
use std::alloc::{AllocError, AllocFailed};

/// Why a part of a run ends before it is done.
#[derive(Clone, Copy, PartialEq, Eq, Drop)]
pub enum Halt {
    /// The script has a fault at the place: the run shuts its streams.
    Fault(Fault, Place),
    /// No step is left: the run shuts its streams.
    Cut,
    /// `next`: the record is done with.
    Next,
    /// `exit`: what is left are the actions of END.
    Exit,
    /// Memory was refused, and the run ends as it stands.
    Memory,
    /// The denial of a request at the place could not be logged, and the run ends as it stands.
    Log(Place),
}

impl Halt {
    /// How a loop ends that has more turns than any run: none comes to it.
    pub const NEVER: Halt = Halt::Memory;

    /// How a part ends whose request at the place was not answered. Takes no memory.
    pub fn by(place: Place, stop: Stop) -> Halt
        ensures { result ≡ halt_by place stop }
    {
        match stop {
            Stop::Memory => Halt::Memory,
            Stop::Log => Halt::Log(place),
        }
    }

    /// How a part ends that met a fault at the place. Takes no memory.
    pub fn at(place: Place, fault: Fault) -> Halt
        ensures { result ≡ halt_at place fault }
    {
        match fault {
            Fault::Memory => Halt::Memory,
            _ => Halt::Fault(fault, place),
        }
    }
}

/// What was made at a place, or how the part ends. Takes no memory.
pub fn at<T>(place: Place, made: Result<T, Fault>) -> Result<T, Halt>
    ensures { result ≡ result_at place made }
{
    match made {
        Ok(value) => Ok(value),
        Err(fault) => Err(Halt::at(place, fault)),
    }
}

impl From<AllocError> for Halt {
    ghost use Rattle.std.specs.Prelude.{◌≡◌};
    ghost use Rattle.awk_streams.specs.declared.halt.Halt.TheVariants.{Memory};

    ghost from_gives = { λ _ e. e ≡ Memory };

    fn from(_error: AllocError) -> Halt {
        Halt::Memory
    }
}

impl<T: Drop> From<AllocFailed<T>> for Halt {
    ghost use Rattle.std.specs.Prelude.{◌≡◌};
    ghost use Rattle.awk_streams.specs.declared.halt.Halt.TheVariants.{Memory};

    ghost from_gives = { λ _ e. e ≡ Memory };

    fn from(_error: AllocFailed<T>) -> Halt {
        Halt::Memory
    }
}
