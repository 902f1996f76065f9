// The parts of a run.

/// Which part of the program runs.
#[derive(Clone, Copy, PartialEq, Eq, Drop)]
pub enum Phase {
    /// The actions of BEGIN
    Beginning,
    /// The rules for each record
    Ruling,
    /// The actions of END
    Ending,
}
