// The functions of profile double.
ghost use Rattle.std.specs.Prelude.{◌≡◌};
ghost use Rattle.awk_numbers.specs.Functions.{arc_tangent, cosine, exponential, logarithm, sine, square_root};

use crate::angles;
use crate::arcs::angle_of;
use crate::formula::{natural_logarithm, natural_power};
use crate::number::{Number, NumberFault, settle};

/// The square root, rounded once. Takes no memory.
///
/// Fails with `NumberFault::OutOfRange` where `x` is less than 0.
pub fn square_root(x: Number) -> Result<Number, NumberFault>
    ensures { result ≡ square_root x }
{
    settle(x.to_double().sqrt())
}

/// e to the power `x`, in tests within one unit in the last place. Takes no memory.
///
/// Fails with `NumberFault::OutOfRange` where it is beyond the largest double.
pub fn exponential(x: Number) -> Result<Number, NumberFault>
    ensures { result ≡ exponential x }
{
    settle(natural_power(x.to_double()))
}

/// The logarithm of `x` to the base e, in tests within one unit in the last place. Takes no memory.
///
/// Fails with `NumberFault::OutOfRange` where `x` is 0 or less.
pub fn logarithm(x: Number) -> Result<Number, NumberFault>
    ensures { result ≡ logarithm x }
{
    let y = x.to_double();
    if 0.0 < y {
        settle(natural_logarithm(y))
    } else {
        Err(NumberFault::OutOfRange)
    }
}

/// The sine of an angle in radians, in tests within one unit in the last place. Takes no memory.
///
/// Fails with `NumberFault::OutOfRange` where `x` is no number.
pub fn sine(x: Number) -> Result<Number, NumberFault>
    ensures { result ≡ sine x }
{
    settle(angles::sine(x.to_double()))
}

/// The cosine of an angle in radians, in tests within one unit in the last place. Takes no memory.
///
/// Fails with `NumberFault::OutOfRange` where `x` is no number.
pub fn cosine(x: Number) -> Result<Number, NumberFault>
    ensures { result ≡ cosine x }
{
    settle(angles::cosine(x.to_double()))
}

/// The angle of the point (x, y) from -pi to pi, in radians, in tests within one unit in the last place: 0 for (0, 0).
/// Takes no memory.
///
/// Fails with `NumberFault::OutOfRange` where `x` or `y` is no number.
pub fn arc_tangent(y: Number, x: Number) -> Result<Number, NumberFault>
    ensures { result ≡ arc_tangent y x }
{
    settle(angle_of(y.to_double(), x.to_double()))
}
