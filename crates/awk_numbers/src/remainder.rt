// The remainder of doubles, exact: a long division over the bits of both.
ghost use Rattle.std.specs.Prelude.{◌≡◌, ◌*◌, ◌%◌, ◌^◌, ◌<◌, ◌≤◌, false, T};
ghost use Rattle.std.specs.Float.{binary64, float_is_finite};
ghost use lib.Ieee.{rem, round};
ghost use lib.Ieee.Exact.{HasValue};

use crate::fixed::split;

/// So many bits a step of the division takes: a number below 2^53 times 2^11 is one of 64 bits.
const STEP: u32 = 11;

/// What the division of a number times a power of two leaves.
fn shifted_rem(n: u64, shift: u32, divisor: u64) -> u64
    requires positive { 0 < divisor }
    requires small { divisor < 2 ^ 53 }
    ensures { result ≡ n * 2 ^ shift % divisor }
{
    let mut left = n % divisor;
    'steps: for _turn in 0..shift / STEP {
        left = left * 2048 % divisor;
    }
    (left << (shift % STEP)) % divisor
}

/// A power of two, which is counted from -1074.
fn unit(power: u32) -> f64
    requires { power ≤ 2045 }
    ensures { HasValue result false (2 ^ power) (2 ^ 1074) }
{
    if power < 52 {
        f64::from_bits(1 << power)
    } else {
        f64::from_bits(u64::from(power - 51) * 0x10_0000_0000_0000)
    }
}

/// The double of a size that is a number times a power of two, which is counted from -1074.
fn from_units(n: u64, power: u32, is_negative: bool) -> f64
    requires small { n ≤ 2 ^ 53 }
    requires power { power ≤ 2045 }
    ensures { result ≡ round binary64 is_negative (n * 2 ^ power) (2 ^ 1074) }
{
    let unit = unit(power);
    if is_negative {
        n as f64 * -unit
    } else {
        n as f64 * unit
    }
}

fn of_finite(x: f64, y: f64) -> f64
    requires dividend { T (float_is_finite x) }
    requires divisor { T (float_is_finite y) }
    ensures { result ≡ rem binary64 x y }
{
    let (n, power) = split(x);
    let (divisor, least) = split(y);
    if divisor == 0 {
        return 0.0 / 0.0;
    }
    let is_negative = x.is_sign_negative();
    if power < least {
        from_units(n, power, is_negative)
    } else {
        from_units(shifted_rem(n, power - least, divisor), least, is_negative)
    }
}

/// What the truncated quotient leaves, with the sign of `x`. Takes no memory.
pub fn remainder(x: f64, y: f64) -> f64
    ensures { result ≡ rem binary64 x y }
{
    if !x.is_finite() {
        0.0 / 0.0
    } else if y.is_nan() {
        0.0 / 0.0
    } else if !y.is_finite() {
        x
    } else {
        of_finite(x, y)
    }
}
