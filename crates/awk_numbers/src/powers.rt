// Powers by profile.
ghost use Rattle.std.specs.Prelude.{◌≡◌};
ghost use Rattle.awk_numbers.specs.Powers.{by_formula, double_pow, exact_power, is_below_zero, is_odd, is_whole};
ghost use Rattle.awk_numbers.specs.Powers.{one_over_raised, raised, some_power, whole_pow};

use crate::doubles;
use crate::formula::power;
use crate::number::{Number, NumberFault, is_exact, settle};

/// `a` to the power `b`. The power 0 of any number is 1; where `b` is negative, the exact value is
/// truncated toward zero. Takes no memory.
///
/// Fails with `NumberFault::ZeroDivisor` where `a` is zero and `b` negative, and with
/// `NumberFault::OutOfRange` where the power is out of range.
pub fn whole_pow(a: i64, b: i64) -> Result<Number, NumberFault>
    ensures { result ≡ whole_pow a b }
{
    match a {
        _ if b == 0 => Ok(Number::Whole(1)),
        0 if b < 0 => Err(NumberFault::ZeroDivisor),
        0 => Ok(Number::Whole(0)),
        1 => Ok(Number::Whole(1)),
        -1 => Ok(Number::Whole(if b.unsigned_abs() % 2 == 0 { 1 } else { -1 })),
        _ if b < 0 => Ok(Number::Whole(0)),
        _ if 64 <= b => Err(NumberFault::OutOfRange),
        _ => match a.checked_pow(b as u32) {
            Some(power) => Ok(Number::Whole(power)),
            None => Err(NumberFault::OutOfRange),
        },
    }
}

/// The power, where it is of a size up to 2^53.
fn exact_power(m: i64, n: i64) -> Option<i64>
    ensures { result ≡ exact_power m n }
{
    if n < 0 {
        return None;
    }
    match whole_pow(m, n) {
        Ok(Number::Whole(power)) if is_exact(power) => Some(power),
        _ => None,
    }
}

fn is_odd(x: Number) -> bool
    ensures { result ≡ is_odd x }
{
    match x {
        Number::Whole(n) => n.unsigned_abs() % 2 == 1,
        Number::Real(_) => false,
    }
}

fn is_below_zero(x: Number) -> bool
    ensures { result ≡ is_below_zero x }
{
    x.to_double() < 0.0
}

fn is_whole(x: Number) -> bool
    ensures { result ≡ is_whole x }
{
    match x {
        Number::Whole(_) => true,
        Number::Real(y) => y.trunc() == y,
    }
}

/// A power of the size, with a sign where `x` is below 0 and `y` odd.
fn by_formula(x: Number, y: Number) -> f64
    ensures { result ≡ by_formula x y }
{
    let size = power(x.to_double().abs(), y.to_double());
    if is_below_zero(x) && is_odd(y) {
        -size
    } else {
        size
    }
}

#[tactic(auto, unfolding(crate::specs::Powers::raised))]
fn raised(x: Number, y: Number) -> Result<Number, NumberFault>
    ensures { result ≡ raised x y }
{
    if let (Number::Whole(m), Number::Whole(n)) = (x, y) {
        if let Some(power) = exact_power(m, n) {
            return Ok(Number::Whole(power));
        }
    }
    settle(by_formula(x, y))
}

fn one_over_raised(x: Number, y: Result<Number, NumberFault>) -> Result<Number, NumberFault>
    ensures { result ≡ one_over_raised x y }
{
    match raised(x, y?) {
        Ok(power) => settle(1.0 / power.to_double()),
        Err(_) => Ok(Number::Whole(0)),
    }
}

#[tactic(auto, unfolding(crate::specs::Powers::some_power))]
fn some_power(x: Number, y: Number) -> Result<Number, NumberFault>
    ensures { result ≡ some_power x y }
{
    if is_whole(y) {
        if is_below_zero(y) {
            one_over_raised(x, doubles::neg(y))
        } else {
            raised(x, y)
        }
    } else if is_below_zero(x) {
        Err(NumberFault::OutOfRange)
    } else {
        settle(by_formula(x, y))
    }
}

#[tactic(auto, unfolding(crate::specs::Powers::double_pow))]
/// `x` to the power `y`, in profile double: exact where both are whole and the power is of a size up to 2^53, else in
/// tests within one unit in the last place, and one over such a power where `y` is whole and negative. Takes no memory.
///
/// Fails with `NumberFault::ZeroDivisor` where `x` is zero and `y` negative, and with `NumberFault::OutOfRange` where
/// `x` is negative and `y` has a fraction, or the power is no number.
pub fn pow(x: Number, y: Number) -> Result<Number, NumberFault>
    ensures { result ≡ double_pow x y }
{
    if doubles::is_zero(y) {
        Ok(Number::Whole(1))
    } else if !doubles::is_zero(x) {
        some_power(x, y)
    } else if is_below_zero(y) {
        Err(NumberFault::ZeroDivisor)
    } else {
        Ok(Number::Whole(0))
    }
}
