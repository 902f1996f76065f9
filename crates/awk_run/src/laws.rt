//! Laws of runs. The functions do nothing: each has a law as its contract.

ghost use Rattle.awk_machine.specs.Laws.{FirstPart, OneRun};

/// Two whole runs of one script, setup and bound whose replies are equal at each position that both have are one run:
/// their events, outcomes and steps are equal. Where just one is whole, the other's events are its first ones. A run is
/// whole unless want of memory or of the log ended it.
pub fn one_run()
    ensures equal { OneRun }
    ensures part { FirstPart }
{
    awk_machine::laws::one_run();
}
