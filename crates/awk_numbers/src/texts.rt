// The text of a double, made without memory.
ghost use Rattle.std.specs.Prelude.{◌≡◌, ℕ, ◌+◌, ◌≤◌, ◌++◌, T, length, map, reverse};
ghost use Rattle.std.specs.Float.{float_is_finite};
ghost use Rattle.awk_numbers.specs.Decimal.{fixed, fixed_text};
ghost use Rattle.awk_numbers.specs.Digits.{rounded};
ghost use Rattle.awk_numbers.specs.Figures.{AllFigures, AreFigures};
ghost use Rattle.awk_numbers.specs.Texts.{is_integral, real_text};

use crate::decimal::{Digits, exact, without_last};
use crate::fixed::is_negative;
use crate::short::write_short;
use arrayvec::ArrayVec;

/// Whether a double has no fraction. Takes no memory.
pub fn is_integral(x: f64) -> bool
    ensures { result ≡ is_integral x }
{
    x.trunc() == x
}

/// The digits of the size of a finite double, to the nearest whole number.
fn whole_digits(x: f64) -> Digits
    requires { T (float_is_finite x) }
    ensures figures { AreFigures result.items (rounded x 0) }
    ensures few { length result.items ≤ 310 }
{
    let (digits, places) = exact(x);
    if 0 < places {
        without_last(&digits, places as usize)
    } else {
        digits
    }
}

/// Adds the digits, the first one first.
fn push_digits(out: &mut ArrayVec<u8, 320>, digits: &[u8])
    requires figures { AllFigures digits.now }
    requires room { length out.old.items + length digits.now ≤ 320 }
    ensures { out.new.items ≡ out.old.items ++ map (λ d. 48 + d) (reverse digits.now) }
{
    let mut left = digits.len();
    while left > 0 {
        left -= 1;
        out.push(b'0' + digits[left]);
    }
}

/// Makes `out` the text of the size of a finite double, to the nearest whole number.
fn write_size(x: f64, out: &mut ArrayVec<u8, 320>)
    requires { T (float_is_finite x) }
    ensures value { out.new.items ≡ fixed x 0 }
    ensures length { length out.new.items ≤ 310 }
{
    out.clear();
    let digits = whole_digits(x);
    if digits.is_empty() {
        out.push(b'0');
    } else {
        push_digits(out, digits.as_slice());
    }
}

/// Makes `out` the text of a double by `%.0f`.
fn write_whole(x: f64, out: &mut ArrayVec<u8, 320>)
    ensures value { out.new.items ≡ fixed_text x 0 }
    ensures length { length out.new.items ≤ 311 }
{
    if x.is_finite() {
        write_size(x, out);
    } else {
        write_size(0.0, out);
    }
    if is_negative(x) {
        out.insert(0, b'-');
    }
}

/// Makes `out` the text of a double: of one without a fraction its digits, of another one as `%.6g` has it, at most 311
/// bytes. What is no number has the text of 0. Takes no memory.
pub fn write_real(x: f64, out: &mut ArrayVec<u8, 320>)
    ensures value { out.new.items ≡ real_text x }
    ensures length { length out.new.items ≤ 311 }
{
    if is_integral(x) {
        return write_whole(x, out);
    }
    let mut made = ArrayVec::new();
    write_short(x, &mut made);
    out.clear();
    let _ = out.try_extend_from_slice(made.as_slice());
}
