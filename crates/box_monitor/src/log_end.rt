// How a log stands.

/// How the log of a `Monitor` stands.
#[derive(Clone, Copy, Debug, PartialEq, Eq, Drop)]
pub enum LogEnd {
    /// It has a line for each denial.
    Whole,
    /// A write failed or took no byte: it has a line for each denial before, and then a part of
    /// one more line, which may be empty.
    Part,
    /// A flush failed: the writer took the line of the last denial too, but how much of the log has
    /// reached its place is not known.
    Unsure,
}
