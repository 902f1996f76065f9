// What is one alone. The functions do nothing: each has a law as its contract.
ghost use Rattle.awk_ere.specs.Laws.{OneReading, OnePattern, OneMatch, OneFinding, OneTest};

/// A text spells at most one pattern, which has one size.
pub fn one_pattern()
    ensures reading { OneReading }
    ensures pattern { OnePattern }
{}

/// From a place on, a text has one best match of a pattern or none; so `find` and `is_match` have one
/// answer each, memory aside.
pub fn one_match()
    ensures best { OneMatch }
    ensures found { OneFinding }
    ensures tested { OneTest }
{}
