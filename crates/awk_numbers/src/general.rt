// The text of a double by `%.Ng`.
ghost use Rattle.std.specs.Prelude.{◌≡◌, ◌-◌, ◌<◌, ◌≤◌, ◌++◌, IfOk, T, length, replicate, take};
ghost use Rattle.std.specs.Float.{float_is_finite};
ghost use Rattle.awk_numbers.specs.Decimal.{pointed};
ghost use Rattle.awk_numbers.specs.Exponents.{exponent_text};
ghost use Rattle.awk_numbers.specs.General.{at_least_one, general, general_text, is_plain, plain, shortened, stripped};
ghost use Rattle.awk_numbers.specs.Numbers.{double_of};

use crate::exponents::{exponent, scientific};
use crate::fixed::{self, is_negative, padded, pointed};
use crate::number::Number;
use std::alloc::{AllocError, Global};

/// The length of the text without such bytes at its end.
fn stripped_length(text: &[u8], last: u8) -> usize
    ensures value { take result text.now ≡ stripped last text.now }
    ensures fits { result ≤ length text.now }
{
    let mut length = text.len();
    'bytes: while length > 0 {
        let byte = text[length - 1];
        if byte != last {
            return length;
        }
        length -= 1;
    }
    0
}

/// The length of the text without the zeros at the end of what stands behind the point, and without the point where
/// nothing does.
pub(crate) fn shortened_length(text: &[u8], places: usize) -> usize
    ensures { take result text.now ≡ shortened places text.now }
{
    if places == 0 {
        return text.len();
    }
    let length = stripped_length(text, b'0');
    stripped_length(&text[..length], b'.')
}

/// Takes off the zeros at the end of what stands behind the point, and the point where nothing does.
fn shorten(text: &mut Vec<u8>, places: usize)
    ensures { text.new.items ≡ shortened places text.old.items }
{
    let length = shortened_length(text, places);
    text.truncate(length);
}

/// Whether so many digits are written without an exponent, which is counted from -1074.
pub(crate) fn is_plain(count: u16, exponent: usize) -> bool
    ensures { result ≡ is_plain count exponent }
{
    1070 <= exponent && exponent < count as usize + 1074
}

fn plain(alloc: Global, x: f64, places: u32) -> Result<Vec<u8>, AllocError>
    requires { T (float_is_finite x) }
    ensures { IfOk result (λ text. text.items ≡ plain x places) }
{
    let mut text = fixed::unsigned(alloc, x, places)?;
    shorten(&mut text, places as usize);
    Ok(text)
}

/// The digits with a point behind the first one, and the exponent.
fn with_exponent(
    alloc: Global,
    own: &[u8],
    place: usize,
    count: usize,
    letter: u8,
) -> Result<Vec<u8>, AllocError>
    requires { 0 < count }
    ensures { IfOk result (λ text. text.items ≡ shortened (count - 1)
        (pointed (count - 1) (replicate (count - length own.now) 48 ++ own.now)) ++ exponent_text letter place) }
{
    let all = padded(alloc, own, count)?;
    let mut text = pointed(alloc, &all, count - 1)?;
    shorten(&mut text, count - 1);
    let tail = exponent(alloc, letter, place)?;
    text.extend_from_slice(&tail)?;
    Ok(text)
}

/// The text of the size of a finite double by so many significant digits.
fn unsigned(alloc: Global, x: f64, count: u16, letter: u8) -> Result<Vec<u8>, AllocError>
    requires finite { T (float_is_finite x) }
    requires some { 0 < count }
    ensures { IfOk result (λ text. text.items ≡ general letter x count) }
{
    let (own, place) = scientific(alloc, x, count as usize)?;
    if is_plain(count, place) {
        plain(alloc, x, (count as usize + 1073 - place) as u32)
    } else {
        with_exponent(alloc, &own, place, count as usize, letter)
    }
}

/// The text of the size of a double: that of 0 where it is no number.
pub(crate) fn size_text(
    alloc: Global,
    x: f64,
    count: u16,
    letter: u8,
) -> Result<Vec<u8>, AllocError>
    requires { 0 < count }
    ensures { IfOk result (λ text. text.items ≡ general letter x count) }
{
    if x.is_finite() {
        unsigned(alloc, x, count, letter)
    } else {
        unsigned(alloc, 0.0, count, letter)
    }
}

pub(crate) fn at_least_one(n: u16) -> u16
    ensures value { result ≡ at_least_one n }
    ensures some { 0 < result }
{
    if n == 0 { 1 } else { n }
}

/// The text of a number by `%.Ng`: so many significant digits, rounded once, with its sign; the letter stands before an
/// exponent.
pub fn general(alloc: Global, x: Number, precision: u16, letter: u8) -> Result<Vec<u8>, AllocError>
    ensures { IfOk result (λ text. text.items ≡ general_text letter (double_of x) precision) }
{
    let y = x.to_double();
    let count = at_least_one(precision);
    let mut text = size_text(alloc, y, count, letter)?;
    if is_negative(y) {
        text.insert(0, b'-')?;
    }
    Ok(text)
}
