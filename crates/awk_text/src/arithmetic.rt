// Arithmetic by profile, with the faults of a run.
ghost use Rattle.std.specs.Prelude.{◌≡◌};
ghost use Rattle.awk_text.specs.Arithmetic.{add, clamped, div, mul, neg, pow, rem, sub, truncated, whole_of};

use crate::fault::Fault;
use awk_numbers::number::{Number, Numbers};
use awk_numbers::operators;
use std::num::saturating_f64_to_i64;

/// The sum. Takes no memory.
///
/// Fails with `Fault::OutOfRange` where it is out of range.
#[inline(always)]
pub fn add(numbers: Numbers, a: Number, b: Number) -> Result<Number, Fault>
    ensures { result ≡ add numbers a b }
{
    Ok(operators::add(numbers, a, b)?)
}

/// The difference. Takes no memory.
///
/// Fails with `Fault::OutOfRange` where it is out of range.
#[inline(always)]
pub fn sub(numbers: Numbers, a: Number, b: Number) -> Result<Number, Fault>
    ensures { result ≡ sub numbers a b }
{
    Ok(operators::sub(numbers, a, b)?)
}

/// The product. Takes no memory.
///
/// Fails with `Fault::OutOfRange` where it is out of range.
#[inline(always)]
pub fn mul(numbers: Numbers, a: Number, b: Number) -> Result<Number, Fault>
    ensures { result ≡ mul numbers a b }
{
    Ok(operators::mul(numbers, a, b)?)
}

/// The quotient: in profile whole truncated toward zero. Takes no memory.
///
/// Fails with `Fault::ZeroDivisor` where `b` is zero, and with `Fault::OutOfRange` where the quotient is out of range.
pub fn div(numbers: Numbers, a: Number, b: Number) -> Result<Number, Fault>
    ensures { result ≡ div numbers a b }
{
    Ok(operators::div(numbers, a, b)?)
}

/// What the truncated quotient leaves, with the sign of `a`. Takes no memory.
///
/// Fails with `Fault::ZeroDivisor` where `b` is zero.
pub fn rem(numbers: Numbers, a: Number, b: Number) -> Result<Number, Fault>
    ensures { result ≡ rem numbers a b }
{
    Ok(operators::rem(numbers, a, b)?)
}

/// `a` to the power `b`. Takes no memory.
///
/// Fails with `Fault::ZeroDivisor` where `a` is zero and `b` negative, and with `Fault::OutOfRange` where the power is
/// out of range or none.
pub fn pow(numbers: Numbers, a: Number, b: Number) -> Result<Number, Fault>
    ensures { result ≡ pow numbers a b }
{
    Ok(operators::pow(numbers, a, b)?)
}

/// The number with the other sign. Takes no memory.
///
/// Fails with `Fault::OutOfRange` where it is out of range.
pub fn neg(numbers: Numbers, a: Number) -> Result<Number, Fault>
    ensures { result ≡ neg numbers a }
{
    Ok(operators::neg(numbers, a)?)
}

/// The number without its fraction. Takes no memory.
///
/// Fails with `Fault::OutOfRange` where `a` is no number.
pub fn truncated(a: Number) -> Result<Number, Fault>
    ensures { result ≡ truncated a }
{
    Ok(operators::truncated(a)?)
}

/// The number without its fraction; what 64 bits can't hold is the first or the last that they can. Takes no memory.
#[inline(always)]
pub fn clamped(a: Number) -> i64
    ensures { result ≡ clamped a }
{
    match a {
        Number::Whole(n) => n,
        Number::Real(x) => saturating_f64_to_i64(x),
    }
}

/// The number without its fraction, as 64 bits hold it. Takes no memory.
///
/// Fails with `Fault::OutOfRange` where they can't.
#[inline(always)]
pub fn whole_of(a: Number) -> Result<i64, Fault>
    ensures { result ≡ whole_of a }
{
    Ok(operators::whole_of(a)?)
}
