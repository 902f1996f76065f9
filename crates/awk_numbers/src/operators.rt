// The operators by profile.
ghost use Rattle.std.specs.Prelude.{◌≡◌};
ghost use Rattle.awk_numbers.specs.Operators.{add, sub, mul, div, rem, whole_rem, neg, truth, order};
ghost use Rattle.awk_numbers.specs.Operators.{is_bounded, truncated, whole_of};
ghost use Rattle.awk_numbers.specs.Powers.{pow};

use crate::doubles;
use crate::number::{Number, NumberFault, Numbers, settle};
use crate::powers::{self, whole_pow};
use std::cmp::Ordering;
use std::num::truncating_f64_to_i64;

const LEAST: f64 = -9223372036854775808.0;

const PAST: f64 = 9223372036854775808.0;

/// The sum by the profile. Takes no memory.
///
/// Fails with `NumberFault::OutOfRange` where it is no number of the profile.
#[inline(always)]
pub fn add(numbers: Numbers, x: Number, y: Number) -> Result<Number, NumberFault>
    ensures { result ≡ add numbers x y }
{
    match (numbers, x, y) {
        (Numbers::Whole, Number::Whole(m), Number::Whole(n)) => {
            Ok(Number::Whole(m.checked_add(n).ok_or(NumberFault::OutOfRange)?))
        }
        _ => doubles::add(x, y),
    }
}

/// The difference by the profile. Takes no memory.
///
/// Fails with `NumberFault::OutOfRange` where it is no number of the profile.
#[inline(always)]
pub fn sub(numbers: Numbers, x: Number, y: Number) -> Result<Number, NumberFault>
    ensures { result ≡ sub numbers x y }
{
    match (numbers, x, y) {
        (Numbers::Whole, Number::Whole(m), Number::Whole(n)) => {
            Ok(Number::Whole(m.checked_sub(n).ok_or(NumberFault::OutOfRange)?))
        }
        _ => doubles::sub(x, y),
    }
}

/// The product by the profile. Takes no memory.
///
/// Fails with `NumberFault::OutOfRange` where it is no number of the profile.
#[inline(always)]
pub fn mul(numbers: Numbers, x: Number, y: Number) -> Result<Number, NumberFault>
    ensures { result ≡ mul numbers x y }
{
    match (numbers, x, y) {
        (Numbers::Whole, Number::Whole(m), Number::Whole(n)) => {
            Ok(Number::Whole(m.checked_mul(n).ok_or(NumberFault::OutOfRange)?))
        }
        _ => doubles::mul(x, y),
    }
}

/// The quotient by the profile: truncated, or rounded once. Takes no memory.
///
/// Fails with `NumberFault::ZeroDivisor` where `y` is zero, and with `NumberFault::OutOfRange` where the quotient is no
/// number of the profile.
pub fn div(numbers: Numbers, x: Number, y: Number) -> Result<Number, NumberFault>
    ensures { result ≡ div numbers x y }
{
    match (numbers, x, y) {
        (Numbers::Whole, Number::Whole(_), Number::Whole(0)) => Err(NumberFault::ZeroDivisor),
        (Numbers::Whole, Number::Whole(m), Number::Whole(n)) => {
            Ok(Number::Whole(m.checked_div(n).ok_or(NumberFault::OutOfRange)?))
        }
        _ => doubles::div(x, y),
    }
}

/// What the truncated quotient leaves, exact, with the sign of `x`, by the profile. Takes no memory.
///
/// Fails with `NumberFault::ZeroDivisor` where `y` is zero, and with `NumberFault::OutOfRange` where `x` or `y` is no
/// number of profile double.
pub fn rem(numbers: Numbers, x: Number, y: Number) -> Result<Number, NumberFault>
    ensures { result ≡ rem numbers x y }
{
    match (numbers, x, y) {
        (Numbers::Whole, Number::Whole(m), Number::Whole(n)) => Ok(Number::Whole(whole_rem(m, n)?)),
        _ => doubles::rem(x, y),
    }
}

/// What the truncated quotient of two whole numbers leaves, with the sign of `m`. In profile double too it is what the
/// remainder is where both are of a size up to 2^53. Takes no memory.
///
/// Fails with `NumberFault::ZeroDivisor` where `n` is zero.
pub fn whole_rem(m: i64, n: i64) -> Result<i64, NumberFault>
    ensures { result ≡ whole_rem m n }
{
    if n == 0 {
        return Err(NumberFault::ZeroDivisor);
    }
    Ok(m.checked_rem(n).unwrap_or(0))
}

/// `x` to the power `y`, by the profile. In profile whole it is exact, and one over a power is truncated; in profile
/// double it is `powers::pow`. The power 0 of any number is 1. Takes no memory.
///
/// Fails with `NumberFault::ZeroDivisor` where `x` is zero and `y` negative, and with `NumberFault::OutOfRange` where
/// the power is no number of the profile, or `x` is negative and `y` has a fraction.
pub fn pow(numbers: Numbers, x: Number, y: Number) -> Result<Number, NumberFault>
    ensures { result ≡ pow numbers x y }
{
    match (numbers, x, y) {
        (Numbers::Whole, Number::Whole(m), Number::Whole(n)) => whole_pow(m, n),
        _ => powers::pow(x, y),
    }
}

/// The number with the other sign, by the profile. Takes no memory.
///
/// Fails with `NumberFault::OutOfRange` where that is no number of the profile.
pub fn neg(numbers: Numbers, x: Number) -> Result<Number, NumberFault>
    ensures { result ≡ neg numbers x }
{
    match (numbers, x) {
        (Numbers::Whole, Number::Whole(n)) => Ok(Number::Whole(
            n.checked_neg().ok_or(NumberFault::OutOfRange)?,
        )),
        _ => doubles::neg(x),
    }
}

/// Whether the number is true: not 0. Takes no memory.
#[inline(always)]
pub fn truth(x: Number) -> bool
    ensures { result ≡ truth x }
{
    !doubles::is_zero(x)
}

/// The order of two numbers. Takes no memory.
#[inline(always)]
pub fn order(x: Number, y: Number) -> Ordering
    ensures { result ≡ order x y }
{
    if let (Number::Whole(m), Number::Whole(n)) = (x, y) {
        return m.cmp(&n);
    }
    let (a, b) = (x.to_double(), y.to_double());
    if a < b {
        Ordering::Less
    } else if a == b {
        Ordering::Equal
    } else {
        Ordering::Greater
    }
}

/// The number without its fraction. Takes no memory.
///
/// Fails with `NumberFault::OutOfRange` where `x` is no number.
pub fn truncated(x: Number) -> Result<Number, NumberFault>
    ensures { result ≡ truncated x }
{
    match x {
        Number::Whole(n) => Ok(Number::Whole(n)),
        Number::Real(y) => settle(y.trunc()),
    }
}

#[tactic(auto, using(crate::proofs::Literals::least_is, crate::proofs::Literals::past_is))]
/// Whether a double is from -2^63 to below 2^63.
fn is_bounded(x: f64) -> bool
    ensures { result ≡ is_bounded x }
{
    if LEAST <= x { x < PAST } else { false }
}

/// The number without its fraction, as 64 bits hold it. Takes no memory.
///
/// Fails with `NumberFault::OutOfRange` where they can't.
pub fn whole_of(x: Number) -> Result<i64, NumberFault>
    ensures { result ≡ whole_of x }
{
    match x {
        Number::Whole(n) => Ok(n),
        Number::Real(y) if is_bounded(y) => Ok(truncating_f64_to_i64(y)),
        Number::Real(_) => Err(NumberFault::OutOfRange),
    }
}
