// Numerals of profile double, and the numbers that texts begin with.
ghost use Rattle.std.specs.Prelude.{◌≡◌};
ghost use Rattle.std.specs.List.{list_all};
ghost use Rattle.awk_numbers.specs.Numerals.{constant, has_minus, is_blank, looks_numeric, number, value_of};
ghost use Rattle.awk_numbers.specs.Numerals.{without_blanks, without_sign};

use crate::number::{Number, NumberFault, settle};
use fast_float::Numeral;

fn is_blank(b: u8) -> bool
    ensures { result ≡ is_blank b }
{
    b == b' ' || (b'\t' <= b && b <= b'\r')
}

fn without_blanks(text: &[u8]) -> &[u8]
    ensures { result.now ≡ without_blanks text.now }
{
    for (i, b) in text.iter().enumerate() {
        if !is_blank(*b) {
            return &text[i..];
        }
    }
    &[]
}

fn is_all_blank(text: &[u8]) -> bool
    ensures { result ≡ list_all is_blank text.now }
{
    text.iter().all(|b| is_blank(*b))
}

/// Whether the text begins with `-`, and the text without a sign.
fn split_sign(text: &[u8]) -> (bool, &[u8])
    ensures minus { result.0 ≡ has_minus text.now }
    ensures rest { result.1.now ≡ without_sign text.now }
{
    match text {
        [b'-', rest @ ..] => (true, rest),
        [b'+', rest @ ..] => (false, rest),
        _ => (false, text),
    }
}

/// What the numeral stands for, with this sign.
#[inline(always)]
fn value_of(numeral: &Numeral, minus: bool) -> Result<Number, NumberFault>
    ensures { result ≡ value_of minus numeral.now }
{
    settle(numeral.to_float(minus))
}

/// The number that the text begins with: of the longest prefix that is blanks, an optional sign and a numeral, and 0
/// where there is none. Takes no memory.
///
/// Fails with `NumberFault::OutOfRange` where it is beyond the largest double.
pub fn number(text: &[u8]) -> Result<Number, NumberFault>
    ensures { result ≡ number text.now }
{
    let (minus, body) = split_sign(without_blanks(text));
    let numeral = Numeral::scan(body);
    if numeral.has_digits() {
        value_of(&numeral, minus)
    } else {
        Ok(Number::Whole(0))
    }
}

/// The number of a text that looks numeric, the whole of it being blanks, an optional sign, a numeral that a double
/// is near to, and blanks. Takes no memory.
pub fn looks_numeric(text: &[u8]) -> Option<Number>
    ensures { result ≡ looks_numeric text.now }
{
    let (minus, body) = split_sign(without_blanks(text));
    let numeral = Numeral::scan(body);
    if numeral.has_digits() && is_all_blank(&body[numeral.len()..]) {
        value_of(&numeral, minus).ok()
    } else {
        None
    }
}

/// How many bytes the numeral has that the text begins with, and what it stands for: a constant of a script. Takes no
/// memory.
pub fn constant(text: &[u8]) -> Option<(usize, Result<Number, NumberFault>)>
    ensures { result ≡ constant text.now }
{
    let numeral = Numeral::scan(text);
    if numeral.has_digits() {
        Some((numeral.len(), value_of(&numeral, false)))
    } else {
        None
    }
}
