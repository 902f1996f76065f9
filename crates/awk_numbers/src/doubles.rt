// The operators of profile double: IEEE's, with a short way where all is whole and small.
ghost use Rattle.std.specs.Prelude.{◌≡◌, ◌≤◌, ◌^◌, IfSome, unsigned_abs};
ghost use Rattle.awk_numbers.specs.Operators.{add, sub, mul, div, rem, neg, is_zero};
ghost use Rattle.awk_numbers.specs.declared.number.Numbers.TheVariants.{Double};
ghost use Rattle.awk_numbers.specs.declared.number.Number.TheVariants.{Whole};

use crate::number::{Number, NumberFault, is_exact, settle};
use crate::operators::whole_rem;
use crate::remainder::remainder;

/// Both numbers, where each is whole and of a size up to 2^53.
#[inline(always)]
fn both_exact(x: Number, y: Number) -> Option<(i64, i64)>
    ensures first { IfSome result (λ pair. (x ≡ Whole pair.0) × (unsigned_abs pair.0 ≤ 2 ^ 53)) }
    ensures second { IfSome result (λ pair. (y ≡ Whole pair.1) × (unsigned_abs pair.1 ≤ 2 ^ 53)) }
{
    match (x, y) {
        (Number::Whole(m), Number::Whole(n)) if is_exact(m) && is_exact(n) => Some((m, n)),
        _ => None,
    }
}

/// Whether the number is 0. Takes no memory.
#[inline(always)]
pub fn is_zero(x: Number) -> bool
    ensures { result ≡ is_zero x }
{
    match x {
        Number::Whole(n) => n == 0,
        Number::Real(y) => y == 0.0,
    }
}

/// The sum, rounded once. Takes no memory.
///
/// Fails with `NumberFault::OutOfRange` where it is no number.
#[inline(always)]
pub fn add(x: Number, y: Number) -> Result<Number, NumberFault>
    ensures { result ≡ add Double x y }
{
    if let Some((m, n)) = both_exact(x, y) {
        match m.checked_add(n) {
            Some(sum) if is_exact(sum) => return Ok(Number::Whole(sum)),
            _ => {}
        }
    }
    settle(x.to_double() + y.to_double())
}

/// The difference, rounded once. Takes no memory.
///
/// Fails with `NumberFault::OutOfRange` where it is no number.
#[inline(always)]
pub fn sub(x: Number, y: Number) -> Result<Number, NumberFault>
    ensures { result ≡ sub Double x y }
{
    if let Some((m, n)) = both_exact(x, y) {
        match m.checked_sub(n) {
            Some(difference) if is_exact(difference) => return Ok(Number::Whole(difference)),
            _ => {}
        }
    }
    settle(x.to_double() - y.to_double())
}

/// The product, rounded once. Takes no memory.
///
/// Fails with `NumberFault::OutOfRange` where it is no number.
#[inline(always)]
pub fn mul(x: Number, y: Number) -> Result<Number, NumberFault>
    ensures { result ≡ mul Double x y }
{
    if let Some((m, n)) = both_exact(x, y) {
        match m.checked_mul(n) {
            Some(product) if is_exact(product) => return Ok(Number::Whole(product)),
            _ => {}
        }
    }
    settle(x.to_double() * y.to_double())
}

/// The quotient, rounded once. Takes no memory.
///
/// Fails with `NumberFault::ZeroDivisor` where `y` is zero, and with `NumberFault::OutOfRange` where the quotient is no
/// number.
pub fn div(x: Number, y: Number) -> Result<Number, NumberFault>
    ensures { result ≡ div Double x y }
{
    if is_zero(y) {
        return Err(NumberFault::ZeroDivisor);
    }
    settle(x.to_double() / y.to_double())
}

/// What the truncated quotient leaves, exact, with the sign of `x`. Takes no memory.
///
/// Fails with `NumberFault::ZeroDivisor` where `y` is zero, and with `NumberFault::OutOfRange` where `x` or `y` is no
/// number.
pub fn rem(x: Number, y: Number) -> Result<Number, NumberFault>
    ensures { result ≡ rem Double x y }
{
    if let Some((m, n)) = both_exact(x, y) {
        return Ok(Number::Whole(whole_rem(m, n)?));
    }
    if is_zero(y) {
        return Err(NumberFault::ZeroDivisor);
    }
    settle(remainder(x.to_double(), y.to_double()))
}

/// The number with the other sign. Takes no memory.
///
/// Fails with `NumberFault::OutOfRange` where `x` is no number.
pub fn neg(x: Number) -> Result<Number, NumberFault>
    ensures { result ≡ neg Double x }
{
    match x {
        Number::Whole(n) if is_exact(n) => Ok(Number::Whole(-n)),
        _ => settle(-x.to_double()),
    }
}
