// What conversion specifications show of a number, beside its sign.
ghost use Rattle.std.specs.Prelude.{◌≡◌, ◌+◌, ◌<◌, Err, IfOk, IfSome, T, int_lt, map, pos, unsigned_abs};
ghost use Rattle.std.specs.Float.{float_is_finite, is_sign_negative};
ghost use Rattle.std.specs.Int.Digits.{digits_of};
ghost use Rattle.awk_numbers.specs.Exponents.{place};
ghost use Rattle.awk_numbers.specs.Numbers.{double_of};
ghost use Rattle.awk_numbers.specs.Shown.{bits_of, exponential_size, fixed_size, full, general_size, integral_of};
ghost use Rattle.awk_numbers.specs.Shown.{is_wide, or_wide};

use crate::decimal::{before_last, exact, text_of};
use crate::exponents::{self, scientific};
use crate::fixed;
use crate::general::{self, at_least_one, is_plain};
use crate::number::{Number, NumberFault};
use crate::operators::whole_of;
use std::alloc::{AllocError, Global};
use std::num::truncating_f64_to_u64;

/// 2^63.
const LEAST_WIDE: f64 = 9223372036854775808.0;

/// 2^64.
const PAST_WIDE: f64 = 18446744073709551616.0;

/// Whether a number has a minus sign, which one that is shown as 0 may have. Takes no memory.
pub fn is_negative(x: Number) -> bool
    ensures { result ≡ is_sign_negative (double_of x) }
{
    fixed::is_negative(x.to_double())
}

fn sharp_fixed(alloc: Global, x: f64, places: u32, sharp: bool) -> Result<Vec<u8>, AllocError>
    ensures { IfOk result (λ text. text.items ≡ fixed_size sharp x places) }
{
    let mut text = fixed::size_text(alloc, x, places)?;
    if sharp && places == 0 {
        text.push(b'.')?;
    }
    Ok(text)
}

fn sharp_exponential(
    alloc: Global,
    x: f64,
    places: u32,
    letter: u8,
    sharp: bool,
) -> Result<Vec<u8>, AllocError>
    ensures { IfOk result (λ text. text.items ≡ exponential_size sharp letter x places) }
{
    let mut text = exponents::size_text(alloc, x, places, letter)?;
    if sharp && places == 0 {
        text.insert(1, b'.')?;
    }
    Ok(text)
}

/// The size of the number by `%f`, with so many places, rounded once. `sharp` keeps the point where there are none.
pub fn fixed_size(alloc: Global, x: Number, places: u32, sharp: bool) -> Result<Vec<u8>, AllocError>
    ensures { IfOk result (λ text. text.items ≡ fixed_size sharp (double_of x) places) }
{
    sharp_fixed(alloc, x.to_double(), places, sharp)
}

/// The size of the number by `%e`, with so many places, rounded once; the letter stands before the exponent. `sharp`
/// keeps the point where there are none.
pub fn exponential_size(
    alloc: Global,
    x: Number,
    places: u32,
    letter: u8,
    sharp: bool,
) -> Result<Vec<u8>, AllocError>
    ensures { IfOk result (λ text. text.items ≡ exponential_size sharp letter (double_of x) places) }
{
    sharp_exponential(alloc, x.to_double(), places, letter, sharp)
}

/// Where the first of so many digits of a finite double stands, counted from the place of 10^-1074.
fn finite_place(alloc: Global, x: f64, count: usize) -> Result<usize, AllocError>
    requires finite { T (float_is_finite x) }
    requires some { 0 < count }
    ensures { IfOk result (λ made. made ≡ place x count) }
{
    let (_, place) = scientific(alloc, x, count)?;
    Ok(place)
}

/// Where the first of so many digits stands: that of 0 where there is no number.
fn place_of(alloc: Global, x: f64, count: usize) -> Result<usize, AllocError>
    requires { 0 < count }
    ensures { IfOk result (λ made. made ≡ place x count) }
{
    if x.is_finite() {
        finite_place(alloc, x, count)
    } else {
        finite_place(alloc, 0.0, count)
    }
}

/// The text of so many digits, with the zeros at the end.
fn full(alloc: Global, x: f64, count: u16, letter: u8) -> Result<Vec<u8>, AllocError>
    requires { 0 < count }
    ensures { IfOk result (λ text. text.items ≡ full letter x count) }
{
    let place = place_of(alloc, x, usize::from(count))?;
    if is_plain(count, place) {
        sharp_fixed(alloc, x, (count as usize + 1073 - place) as u32, true)
    } else {
        sharp_exponential(alloc, x, u32::from(count - 1), letter, true)
    }
}

/// The size of the number by `%g`, with this precision, rounded once; the letter stands before an exponent. `sharp`
/// keeps the point and the zeros at the end.
pub fn general_size(
    alloc: Global,
    x: Number,
    precision: u16,
    letter: u8,
    sharp: bool,
) -> Result<Vec<u8>, AllocError>
    ensures { IfOk result (λ text. text.items ≡ general_size sharp letter (double_of x) precision) }
{
    let count = at_least_one(precision);
    if sharp {
        full(alloc, x.to_double(), count, letter)
    } else {
        general::size_text(alloc, x.to_double(), count, letter)
    }
}

/// A double without its fraction, where 64 bits hold it. Takes no memory.
pub fn near_integral(x: f64) -> Option<i64>
    ensures { IfSome result (λ n. integral_of x ≡ n) }
{
    whole_of(Number::Real(x)).ok()
}

/// The digits of the size of a double without its fraction: none for 0, and where there is no number.
fn size_digits(alloc: Global, x: f64) -> Result<Vec<u8>, AllocError>
    ensures { IfOk result (λ text. text.items ≡ map (λ d. 48 + d) (digits_of 10 (unsigned_abs (integral_of x)))) }
{
    if !x.is_finite() {
        return Ok(Vec::new(alloc));
    }
    let (digits, places) = exact(x);
    text_of(alloc, before_last(digits.as_slice(), places as usize))
}

/// Whether a double without its fraction is below 0, by the digits of its size.
fn has_minus(x: f64, digits: &[u8]) -> bool
    requires { digits.now ≡ map (λ d. 48 + d) (digits_of 10 (unsigned_abs (integral_of x))) }
    ensures { result ≡ int_lt (integral_of x) (pos 0) }
{
    if digits.is_empty() {
        false
    } else {
        fixed::is_negative(x)
    }
}

/// Whether a double without its fraction is below 0, and the digits of its size, which may be any: none for 0, and
/// where there is no number.
pub fn integral_digits(alloc: Global, x: f64) -> Result<(bool, Vec<u8>), AllocError>
    ensures minus { IfOk result (λ made. made.0 ≡ int_lt (integral_of x) (pos 0)) }
    ensures digits { IfOk result (λ made. made.1.items
        ≡ map (λ d. 48 + d) (digits_of 10 (unsigned_abs (integral_of x)))) }
{
    let digits = size_digits(alloc, x)?;
    Ok((has_minus(x, &digits), digits))
}

#[tactic(auto, using(crate::proofs::Literals::past_is, crate::proofs::Integral::past_wide_is))]
/// Whether a double is from 2^63 to below 2^64.
fn is_wide(x: f64) -> bool
    ensures { result ≡ is_wide x }
{
    if LEAST_WIDE <= x {
        x < PAST_WIDE
    } else {
        false
    }
}

fn wide_bits(x: f64, fault: NumberFault) -> Result<u64, NumberFault>
    ensures { result ≡ or_wide x (Err fault) }
{
    if is_wide(x) {
        Ok(truncating_f64_to_u64(x))
    } else {
        Err(fault)
    }
}

/// The number without its fraction as 64 bits, which have a sign where it is below 2^63. Takes no memory.
///
/// Fails with `NumberFault::OutOfRange` where it is outside of -2^63 to 2^64 - 1.
pub fn bits_of(x: Number) -> Result<u64, NumberFault>
    ensures { result ≡ bits_of x }
{
    match whole_of(x) {
        Ok(number) => Ok(number.cast_unsigned()),
        Err(fault) => wide_bits(x.to_double(), fault),
    }
}
