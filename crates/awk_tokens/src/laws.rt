//! The law of the two profiles. The function does nothing: it has the law as its contract.

ghost use Rattle.awk_tokens.specs.Laws.{Restricts};

/// A script that profile whole reads without a word of doubles alone is read as the same tokens in profile double.
pub fn restriction()
    ensures { Restricts }
{}
