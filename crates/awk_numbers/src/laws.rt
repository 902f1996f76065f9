//! Laws of the two profiles. The functions do nothing: each has a law as its contract.

ghost use Rattle.awk_numbers.specs.Laws.{Closed, Directions, DivRestricts, IsFraction, NegClosed, NegRestricts};
ghost use Rattle.awk_numbers.specs.Laws.{OneValue, PowRestricts, Restricts, Waves};
ghost use Rattle.awk_numbers.specs.Operators.{add, div, mul, rem, sub};
ghost use Rattle.awk_numbers.specs.Powers.{pow};
ghost use Rattle.awk_numbers.specs.Random.{drawn};
ghost use Rattle.awk_numbers.specs.declared.number.Numbers.TheVariants as profile;
ghost use Rattle.awk_numbers.specs.declared.random.Random.{Random};

/// For whole operands of a size up to 2^53, both profiles give the same wherever the whole one's result is of such a
/// size too; of a quotient only where nothing remains, and of a power where the second operand is not below 0.
pub fn restriction()
    ensures sum { Restricts add }
    ensures difference { Restricts sub }
    ensures product { Restricts mul }
    ensures quotient { DivRestricts }
    ensures remainder { Restricts rem }
    ensures power { PowRestricts }
    ensures negative { NegRestricts }
{}

/// What the operators give of numbers of a profile are numbers of the profile.
pub fn closed()
    ensures sum { Closed add }
    ensures difference { Closed sub }
    ensures product { Closed mul }
    ensures quotient { Closed div }
    ensures remainder { Closed rem }
    ensures power { Closed pow }
    ensures negative { NegClosed }
{}

/// Equal numbers of a profile are one value.
pub fn one_value()
    ensures whole { OneValue profile.Whole }
    ensures double { OneValue profile.Double }
{}

/// What a sequence of random numbers gives is a number of profile double, from 0 to below 1.
pub fn fractions()
    ensures { (r : Random) → IsFraction (drawn r) }
{}

/// Each number of profile double has a sine and a cosine, and each two of them are a point that has an angle: the
/// result is a number of the profile.
pub fn angles()
    ensures wave { Waves }
    ensures direction { Directions }
{}
