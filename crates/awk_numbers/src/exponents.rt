// The significant digits of a double, and its text by `%.Ne`.
ghost use Rattle.std.specs.Prelude.{◌≡◌, ◌+◌, ◌<◌, ◌∷◌, IfOk, T, map};
ghost use Rattle.std.specs.Float.{float_is_finite};
ghost use Rattle.std.specs.Int.Digits.{digits_of};
ghost use Rattle.awk_numbers.specs.Decimal.{padded};
ghost use Rattle.awk_numbers.specs.Exponents.{exponent_text, exponential, exponential_text, mantissa, place};
ghost use Rattle.awk_numbers.specs.Numbers.{double_of};

use crate::decimal::{exact, significant_text};
use crate::fixed::{self, is_negative, near_digits, pointed};
use crate::number::Number;
use std::alloc::{AllocError, Global};

/// The place of 10^0, where the place of 10^-1074 is 0.
const UNIT: usize = 1074;

/// So many digits of the size of a finite double, none for 0, and where the first one stands, counted from the place of
/// 10^-1074.
pub(crate) fn scientific(
    alloc: Global,
    x: f64,
    count: usize,
) -> Result<(Vec<u8>, usize), AllocError>
    requires finite { T (float_is_finite x) }
    requires some { 0 < count }
    ensures digits { IfOk result (λ made. made.0.items ≡ map (λ d. 48 + d) (digits_of 10 (mantissa x count))) }
    ensures place { IfOk result (λ made. made.1 ≡ place x count) }
{
    let (digits, places) = exact(x);
    if digits.is_empty() {
        return Ok((Vec::new(alloc), UNIT));
    }
    let figures = digits.len() + (UNIT - places as usize);
    let mut text = significant_text(alloc, &digits, count)?;
    let length = text.len();
    if count < length {
        text.truncate(count);
        return Ok((text, figures));
    }
    Ok((text, figures.saturating_sub(1)))
}

/// A letter, a sign and at least two digits.
fn signed(alloc: Global, letter: u8, sign: u8, size: usize) -> Result<Vec<u8>, AllocError>
    ensures { IfOk result (λ made. made.items ≡ letter ∷ (sign ∷ padded 2 size)) }
{
    let own = near_digits(alloc, size as u128)?;
    let shown = fixed::padded(alloc, &own, 2)?;
    let mut made = Vec::new(alloc);
    made.push(letter)?;
    made.push(sign)?;
    made.extend_from_slice(&shown)?;
    Ok(made)
}

/// The exponent where the first digit stands there.
pub(crate) fn exponent(alloc: Global, letter: u8, place: usize) -> Result<Vec<u8>, AllocError>
    ensures { IfOk result (λ made. made.items ≡ exponent_text letter place) }
{
    if place < UNIT {
        signed(alloc, letter, b'-', UNIT - place)
    } else {
        signed(alloc, letter, b'+', place - UNIT)
    }
}

/// The text of the size of a finite double by its significant digits, so many of them behind the point.
fn unsigned(alloc: Global, x: f64, places: u32, letter: u8) -> Result<Vec<u8>, AllocError>
    requires { T (float_is_finite x) }
    ensures { IfOk result (λ text. text.items ≡ exponential letter x places) }
{
    let (own, place) = scientific(alloc, x, places as usize + 1)?;
    let all = fixed::padded(alloc, &own, places as usize + 1)?;
    let mut text = pointed(alloc, &all, places as usize)?;
    let tail = exponent(alloc, letter, place)?;
    text.extend_from_slice(&tail)?;
    Ok(text)
}

/// The text of the size of a double: that of 0 where it is no number.
pub(crate) fn size_text(
    alloc: Global,
    x: f64,
    places: u32,
    letter: u8,
) -> Result<Vec<u8>, AllocError>
    ensures { IfOk result (λ text. text.items ≡ exponential letter x places) }
{
    if x.is_finite() {
        unsigned(alloc, x, places, letter)
    } else {
        unsigned(alloc, 0.0, places, letter)
    }
}

/// The text of a number by `%.Ne`: one digit before the point and so many behind it, rounded once, with its sign; the
/// letter stands before the exponent.
pub fn exponential(alloc: Global, x: Number, places: u32, letter: u8) -> Result<Vec<u8>, AllocError>
    ensures { IfOk result (λ text. text.items ≡ exponential_text letter (double_of x) places) }
{
    let y = x.to_double();
    let mut text = size_text(alloc, y, places, letter)?;
    if is_negative(y) {
        text.insert(0, b'-')?;
    }
    Ok(text)
}
