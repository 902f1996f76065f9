// Numbers, and which double each of them is.
ghost use Rattle.std.specs.Prelude.{◌≡◌, ◌≤◌, ◌^◌, ◌↔◌, pos, IsTrue, Ok, T, unsigned_abs};
ghost use Rattle.std.specs.Float.{binary64};
ghost use lib.Ieee.{of_int};
ghost use Rattle.awk_numbers.specs.Numbers.{double_of, is_small, settled};

use std::num::{nearest_i64_to_f64, nearest_u64_to_f64, truncating_f64_to_i64};

/// Which numbers a script has: whole ones of 64 bits, or IEEE doubles.
#[derive(Clone, Copy, Drop)]
pub enum Numbers {
    Whole,
    Double,
}

/// A number of a script. Of doubles, those are `Whole` that are whole and of a size up to 2^53, so that equal numbers
/// are one value.
#[derive(Clone, Copy, Drop)]
pub enum Number {
    Whole(i64),
    Real(f64),
}

/// Why there is no number: `F1`, the result is none of the profile's, and `F2`, the divisor is zero.
#[derive(Clone, Copy, Debug, Drop)]
pub enum NumberFault {
    OutOfRange,
    ZeroDivisor,
}

/// Up to this size each whole number is a double: 2^53.
const MOST: u64 = 0x20_0000_0000_0000;

const LOWEST: f64 = -9007199254740992.0;

const HIGHEST: f64 = 9007199254740992.0;

/// Whether a whole number is of a size up to 2^53. Takes no memory.
#[inline(always)]
pub fn is_exact(n: i64) -> bool
    ensures { IsTrue result ↔ (unsigned_abs n ≤ 2 ^ 53) }
{
    n.unsigned_abs() <= MOST
}

impl Number {
    /// The double nearest to the number. Takes no memory.
    #[inline(always)]
    pub fn to_double(self) -> f64
        ensures { result ≡ double_of self }
    {
        match self {
            Number::Whole(n) if is_exact(n) => n as f64,
            Number::Whole(n) => nearest_i64_to_f64(n),
            Number::Real(x) => x,
        }
    }
}

#[tactic(auto, using(crate::proofs::Literals::lowest_is, crate::proofs::Literals::highest_is))]
/// Whether a double is of a size up to 2^53.
#[inline(always)]
fn is_small(x: f64) -> bool
    ensures { result ≡ is_small x }
{
    if LOWEST <= x { x <= HIGHEST } else { false }
}

/// The number that a double of a size up to 2^53 is.
#[inline(always)]
fn settle_small(x: f64) -> Number
    requires { T (is_small x) }
    ensures { Ok result ≡ settled x }
{
    let n = truncating_f64_to_i64(x);
    if n as f64 == x {
        Number::Whole(n)
    } else {
        Number::Real(x)
    }
}

/// The number that a double is. Takes no memory.
///
/// Fails with `NumberFault::OutOfRange` where it is not finite.
#[inline(always)]
pub fn settle(x: f64) -> Result<Number, NumberFault>
    ensures { result ≡ settled x }
{
    if is_small(x) {
        Ok(settle_small(x))
    } else if x.is_finite() {
        Ok(Number::Real(x))
    } else {
        Err(NumberFault::OutOfRange)
    }
}

#[tactic(auto, using(crate::proofs::Drawing::nearest_is))]
/// The number nearest to a count, a tie to the even one. Takes no memory.
pub fn whole(n: u64) -> Number
    ensures { Ok result ≡ settled (of_int binary64 (pos n)) }
{
    settle(nearest_u64_to_f64(n)).unwrap_or(Number::Whole(0))
}
