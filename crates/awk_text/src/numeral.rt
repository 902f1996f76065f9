// Numbers that texts begin with.
ghost use Rattle.std.specs.Prelude.{◌≡◌, ◌∷◌, ◌-◌, ◌^◌, ◌<◌, ◌≤◌, min, ℤ, length, IfNone, IfSome};
ghost use Rattle.std.specs.Char.{is_ascii_digit};
ghost use Rattle.std.specs.List.{list_all, prefix_len, take_while};
ghost use Rattle.std.specs.Str.Parse.{digits_value};
ghost use Rattle.awk_text.specs.Arithmetic.{ranged};
ghost use Rattle.awk_text.specs.Readings as reading;
ghost use Rattle.awk_text.specs.Numerals.{after_sign, drop_while, has_minus, is_blank, looks_in, looks_numeric, number};
ghost use Rattle.awk_text.specs.Numerals.{number_in, signed};

use crate::fault::Fault;
use awk_numbers::number::{Number, Numbers};
use awk_numbers::numeral as double;

fn is_blank(b: u8) -> bool
    ensures { result ≡ is_blank b }
{
    b == b' ' || (b'\t' <= b && b <= b'\r')
}

fn skip_blanks(text: &[u8]) -> &[u8]
    ensures { result.now ≡ drop_while is_blank text.now }
{
    for (i, b) in text.iter().enumerate() {
        if !is_blank(*b) {
            return &text[i..];
        }
    }
    &[]
}

fn is_all_blank(text: &[u8]) -> bool
    ensures { result ≡ list_all is_blank text.now }
{
    text.iter().all(|b| is_blank(*b))
}

/// Whether the text begins with `-`, and the text without a sign.
fn split_sign(text: &[u8]) -> (bool, &[u8])
    ensures minus { result.0 ≡ has_minus text.now }
    ensures rest { result.1.now ≡ after_sign text.now }
{
    match text {
        [b'-', rest @ ..] => (true, rest),
        [b'+', rest @ ..] => (false, rest),
        _ => (false, text),
    }
}

/// How many digits the text begins with, and their value, which stays at 2^64 - 1 from there on.
/// Takes no memory.
pub fn leading_digits(text: &[u8]) -> (usize, u64)
    ensures count { result.0 ≡ prefix_len is_ascii_digit text.now }
    ensures value { result.1 ≡ min (digits_value 10 (take_while is_ascii_digit text.now)) (2 ^ 64 - 1) }
{
    let mut value: u64 = 0;
    for (i, b) in text.iter().enumerate() {
        if !b.is_ascii_digit() {
            return (i, value);
        }
        value = value
            .saturating_mul(10)
            .saturating_add(u64::from(*b - b'0'));
    }
    (text.len(), value)
}

/// The number with this sign.
fn with_sign(minus: bool, size: u64) -> Result<i64, Fault>
    ensures { result ≡ ranged (signed minus size) }
{
    let number = if minus {
        0i64.checked_sub_unsigned(size)
    } else {
        0i64.checked_add_unsigned(size)
    };
    number.ok_or(Fault::OutOfRange)
}

/// The number that the text begins with: that of the longest prefix that is blanks, an optional
/// sign and digits, and 0 where that has no digit. Takes no memory.
///
/// Fails with `Fault::OutOfRange` where it is out of range.
pub fn number(text: &[u8]) -> Result<i64, Fault>
    ensures value { result ≡ ranged (number text.now) }
    ensures reading { reading.Number text.now (number text.now) }
{
    let (minus, body) = split_sign(skip_blanks(text));
    let (_, size) = leading_digits(body);
    with_sign(minus, size)
}

/// The number of a text that looks numeric, the whole of it being blanks, an optional sign, one or
/// more digits, and blanks, and in range. Takes no memory.
pub fn looks_numeric(text: &[u8]) -> Option<i64>
    ensures value { result ≡ looks_numeric text.now }
    ensures reading { IfSome result (reading.Looks text.now) }
    ensures only { IfNone result ((z : ℤ) → ¬ reading.Looks text.now z) }
{
    let (minus, body) = split_sign(skip_blanks(text));
    let (count, size) = leading_digits(body);
    if count == 0 || !is_all_blank(&body[count..]) {
        return None;
    }
    with_sign(minus, size).ok()
}

/// The number that the text begins with, by the profile. Takes no memory.
///
/// Fails with `Fault::OutOfRange` where it is out of range.
pub fn number_in(numbers: Numbers, text: &[u8]) -> Result<Number, Fault>
    ensures { result ≡ number_in numbers text.now }
{
    match numbers {
        Numbers::Whole => Ok(Number::Whole(number(text)?)),
        Numbers::Double => Ok(double::number(text)?),
    }
}

/// The number of a text that looks numeric, by the profile. Takes no memory.
pub fn looks_in(numbers: Numbers, text: &[u8]) -> Option<Number>
    ensures { result ≡ looks_in numbers text.now }
{
    match numbers {
        Numbers::Whole => Some(Number::Whole(looks_numeric(text)?)),
        Numbers::Double => double::looks_numeric(text),
    }
}
