//! Laws of runs. The functions do nothing: each has a law as its contract.

ghost use Rattle.awk_machine.specs.Laws.{AllShut, FirstPart, InTurn, OneRun, WithinBound};

/// Two whole runs of one program, setup and bound whose replies are equal at each position that both have are one run:
/// their events, outcomes and steps are equal. Where just one is whole, the other's events are its first ones. A run is
/// whole unless want of memory or of the log ended it.
pub fn one_run()
    ensures equal { OneRun }
    ensures part { FirstPart }
{}

/// Every stream is opened and shut in turn, and in a whole run it is shut as often as it was opened: so each one that
/// was opened is shut exactly once.
pub fn streams_shut()
    ensures turns { InTurn }
    ensures shut { AllShut }
{}

/// The steps that a run takes never pass the bound.
pub fn steps_bounded()
    ensures { WithinBound }
{}
