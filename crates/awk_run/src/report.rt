// How a run ended.
ghost use Rattle.awk_run.specs.Outcomes.{status_of};
ghost use Rattle.std.specs.Prelude.{◌≡◌};

use awk_text::fault::Fault;
use awk_text::place::Place;

/// How a run of a script ended.
#[derive(Clone, Copy, Debug, PartialEq, Eq, Drop)]
pub enum Outcome {
    /// By its own end, with this exit status.
    Status(u8),
    /// By a fault, at this place.
    Fault(Fault, Place),
    /// By its step bound.
    Cut,
}

/// How a run ended, and how many steps it took.
#[derive(Clone, Copy, Debug, PartialEq, Eq, Drop)]
pub struct Report {
    pub outcome: Outcome,
    pub used: u64,
}

impl Report {
    /// The exit status of the run: the script's own, 2 for a fault, 4 where the step bound ended
    /// it. Takes no memory.
    pub fn status(&self) -> u8
        ensures { result ≡ status_of self.now.outcome }
    {
        match self.outcome {
            Outcome::Status(status) => status,
            Outcome::Fault(_, _) => 2,
            Outcome::Cut => 4,
        }
    }
}
