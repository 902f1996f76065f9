// The digits of a double with a number of places behind the point, rounded to the nearest, a tie to the even one.
ghost use Rattle.std.specs.Prelude.{◌≡◌, ◌+◌, ◌*◌, ◌^◌, ◌<◌, ◌≤◌, ◌++◌, ◌-◌, length, map, replicate};
ghost use Rattle.std.specs.Prelude.{IfNone, IfOk, IfSome, T};
ghost use Rattle.std.specs.Float.{float_is_finite, is_sign_negative};
ghost use Rattle.std.specs.Int.Digits.{digits_of};
ghost use lib.Ieee.Nearest.{closest};
ghost use Rattle.awk_numbers.specs.Numbers.{double_of};
ghost use Rattle.awk_numbers.specs.Decimal.{fixed, fixed_text, pointed};
ghost use Rattle.awk_numbers.specs.Digits.{IsLarge, rounded, Splits};

use crate::decimal::{cut_text, exact, raised_text};
use crate::number::Number;
use itoa::Buffer;
use std::alloc::{AllocError, Global};

/// As many places behind the point fit into 128 bits.
const MOST_PLACES: u32 = 19;

const HIDDEN: u64 = 0x10_0000_0000_0000;

/// The size of a finite double, as a number of 53 bits times a power of two: the power is counted from -1074.
pub fn split(x: f64) -> (u64, u32)
    requires { T (float_is_finite x) }
    ensures value { Splits x (result.0 * 2 ^ result.1) }
    ensures digits { result.0 < 2 ^ 53 }
    ensures leading { 0 < result.1 → 2 ^ 52 ≤ result.0 }
    ensures power { result.1 ≤ 2045 }
{
    let bits = x.to_bits() % 0x8000_0000_0000_0000;
    if bits < HIDDEN {
        (bits, 0)
    } else {
        (bits % HIDDEN + HIDDEN, (bits / HIDDEN) as u32 - 1)
    }
}

/// A number over a power of two, to the nearest whole one.
pub fn closest_over(n: u128, shift: u32) -> u128
    requires { n < 2 ^ 117 }
    ensures value { result ≡ closest n (2 ^ shift) }
{
    if shift > 118 {
        return 0;
    }
    let unit = 1u128 << shift;
    let whole = n >> shift;
    let twice = (n % unit) * 2;
    if twice < unit {
        whole
    } else if unit < twice {
        whole + 1
    } else {
        whole + whole % 2
    }
}

pub(crate) fn ten_to(places: u32) -> u64
    requires { places ≤ 19 }
    ensures { result ≡ 10 ^ places }
{
    let mut power = 1;
    'places: for _turn in 0..places {
        power *= 10;
    }
    power
}

/// The size of a double times a power of ten, to the nearest whole number, where 128 bits are enough.
pub fn rounded(x: f64, places: u32) -> Option<u128>
    requires finite { T (float_is_finite x) }
    requires few { places ≤ 19 }
    ensures some { IfSome result (λ q. q ≡ rounded x places) }
    ensures none { IfNone result (IsLarge x) }
{
    let (digits, power) = split(x);
    let number = u128::from(digits) * u128::from(ten_to(places));
    if power <= 1074 {
        Some(closest_over(number, 1074 - power))
    } else if power <= 1084 {
        Some(number << (power - 1074))
    } else {
        None
    }
}

/// The digits with a point before the last ones.
pub(crate) fn pointed(alloc: Global, digits: &[u8], places: usize) -> Result<Vec<u8>, AllocError>
    requires { places ≤ length digits.now }
    ensures { IfOk result (λ text. text.items ≡ pointed places digits.now) }
{
    if places == 0 {
        return Vec::from_slice(alloc, digits);
    }
    let (whole, fraction) = digits.split_at(digits.len() - places);
    let mut text = Vec::from_slice(alloc, whole)?;
    text.push(b'.')?;
    text.extend_from_slice(fraction)?;
    Ok(text)
}

/// The digits of a number, none for 0. They lie in the buffer.
pub(crate) fn own_digits(buffer: &mut Buffer, number: u128) -> &[u8]
    ensures { result.now ≡ map (λ d. 48 + d) (digits_of 10 number) }
{
    if number == 0 {
        &[]
    } else {
        buffer.format(number).as_bytes()
    }
}

/// A copy of the digits of a number, none for 0.
pub(crate) fn near_digits(alloc: Global, number: u128) -> Result<Vec<u8>, AllocError>
    ensures { IfOk result (λ text. text.items ≡ map (λ d. 48 + d) (digits_of 10 number)) }
{
    let mut buffer = Buffer::new();
    let text = Vec::from_slice(alloc, own_digits(&mut buffer, number))?;
    Ok(text)
}

/// The digits of the size of a double times a power of ten, to the nearest whole number: none for 0.
fn far_digits(alloc: Global, x: f64, places: u32) -> Result<Vec<u8>, AllocError>
    requires { T (float_is_finite x) }
    ensures { IfOk result (λ text. text.items ≡ map (λ d. 48 + d) (digits_of 10 (rounded x places))) }
{
    let (digits, all_places) = exact(x);
    if places < all_places {
        return cut_text(alloc, &digits, (all_places - places) as usize);
    }
    raised_text(alloc, digits.as_slice(), (places - all_places) as usize)
}

/// The same, in 128 bits where they are enough.
fn digits_at(alloc: Global, x: f64, places: u32) -> Result<Vec<u8>, AllocError>
    requires { T (float_is_finite x) }
    ensures { IfOk result (λ text. text.items ≡ map (λ d. 48 + d) (digits_of 10 (rounded x places))) }
{
    if MOST_PLACES < places {
        return far_digits(alloc, x, places);
    }
    match rounded(x, places) {
        Some(number) => near_digits(alloc, number),
        None => far_digits(alloc, x, places),
    }
}

/// The digits with zeros before them where they are fewer.
pub(crate) fn padded(alloc: Global, own: &[u8], least: usize) -> Result<Vec<u8>, AllocError>
    ensures { IfOk result (λ all. all.items ≡ replicate (least - length own.now) 48 ++ own.now) }
{
    let mut all = Vec::new(alloc);
    all.resize(least.saturating_sub(own.len()), b'0')?;
    all.extend_from_slice(own)?;
    Ok(all)
}

/// The text of the size of a finite double with so many digits behind the point.
pub(crate) fn unsigned(alloc: Global, x: f64, places: u32) -> Result<Vec<u8>, AllocError>
    requires { T (float_is_finite x) }
    ensures { IfOk result (λ text. text.items ≡ fixed x places) }
{
    let own = digits_at(alloc, x, places)?;
    let all = padded(alloc, &own, places as usize + 1)?;
    pointed(alloc, &all, places as usize)
}

/// The text of the size of a double: that of 0 where it is no number.
pub(crate) fn size_text(alloc: Global, x: f64, places: u32) -> Result<Vec<u8>, AllocError>
    ensures { IfOk result (λ text. text.items ≡ fixed x places) }
{
    if x.is_finite() {
        unsigned(alloc, x, places)
    } else {
        unsigned(alloc, 0.0, places)
    }
}

pub(crate) fn is_negative(x: f64) -> bool
    ensures { result ≡ is_sign_negative x }
{
    if x.is_nan() {
        false
    } else {
        x.is_sign_negative()
    }
}

/// The text of a number by `%.Nf`: with so many digits behind the point, rounded once, and with its sign.
pub fn fixed(alloc: Global, x: Number, places: u32) -> Result<Vec<u8>, AllocError>
    ensures { IfOk result (λ text. text.items ≡ fixed_text (double_of x) places) }
{
    let y = x.to_double();
    let mut text = size_text(alloc, y, places)?;
    if is_negative(y) {
        text.insert(0, b'-')?;
    }
    Ok(text)
}
