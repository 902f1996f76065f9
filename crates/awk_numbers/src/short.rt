// The text of a double by `%.6g`, made without memory.
ghost use Rattle.std.specs.Prelude.{◌≡◌, ℕ, ◌+◌, ◌-◌, ◌*◌, ◌^◌, ◌<◌, ◌≤◌, ◌++◌, IfSome, T, length};
ghost use Rattle.std.specs.Float.{float_is_finite};
ghost use lib.Ieee.Nearest.{closest};
ghost use Rattle.awk_numbers.specs.Decimal.{padded, pointed};
ghost use Rattle.awk_numbers.specs.Exponents.{exponent_text};
ghost use Rattle.awk_numbers.specs.Figures.{below, AllFigures, AreFigures};
ghost use Rattle.awk_numbers.specs.General.{AreSix, general, general_text, shortened};

use crate::decimal::{Digits, before_last, exact, rounding};
use crate::fixed::{closest_over, is_negative, own_digits, split, ten_to};
use crate::general::{is_plain, shortened_length};
use arrayvec::ArrayVec;
use itoa::Buffer;

/// The place of 10^0, where the place of 10^-1074 is 0.
const UNIT: usize = 1074;

/// The number of these digits.
fn number_of(digits: &[u8]) -> u64
    requires figures { AllFigures digits.now }
    requires few { length digits.now ≤ 6 }
    ensures value { result ≡ below digits.now (length digits.now) }
    ensures six { result < 10 ^ 6 }
{
    let mut sum = 0;
    let mut unit = 1;
    for i in 0..digits.len() {
        sum += u64::from(digits[i]) * unit;
        unit *= 10;
    }
    sum
}

/// The first six digits of the number, to the nearest, a tie to the even one.
fn first_six(digits: &[u8]) -> u64
    requires figures { AllFigures digits.now }
    ensures { (n : ℕ) → AreFigures digits.now n → result ≡ closest (n * 10 ^ 6) (10 ^ length digits.now) }
{
    let length = digits.len();
    if 6 < length {
        number_of(before_last(digits, length - 6)) + rounding(digits, length - 6)
    } else {
        number_of(digits) * ten_to((6 - length) as u32)
    }
}

/// The digits and where the first one stands, of what is rounded to six: one more where they are rounded up to 10^6.
fn carried(number: u64, figures: usize) -> (u64, usize)
    requires { 0 < figures }
    ensures raised { number ≡ 10 ^ 6 → (result.0 ≡ 10 ^ 5) × (result.1 ≡ figures) }
    ensures kept { (number ≡ 10 ^ 6 → ⊥) → (result.0 ≡ number) × (result.1 ≡ figures - 1) }
{
    if number == 1_000_000 {
        (100_000, figures)
    } else {
        (number, figures - 1)
    }
}

/// By how many zeros a number is one of 15 digits, where it has 6 to 15.
fn zeros_to_fifteen(number: u64) -> Option<u32>
    ensures least { IfSome result (λ places. 10 ^ 14 ≤ number * 10 ^ places) }
    ensures most { IfSome result (λ places. number * 10 ^ places < 10 ^ 15) }
    ensures few { IfSome result (λ places. places ≤ 9) }
{
    if number < 100_000 || 1_000_000_000_000_000 <= number {
        return None;
    }
    let mut raised = number;
    let mut places = 0;
    while raised < 100_000_000_000_000 {
        raised *= 10;
        places += 1;
    }
    Some(places)
}

/// The six significant digits of the size of a finite double, and where the first one stands, where the size is from
/// 10^-4 to below 10^6: in 128 bits.
fn near_six(x: f64) -> Option<(u64, usize)>
    requires { T (float_is_finite x) }
    ensures { IfSome result (λ made. AreSix x made.0 made.1) }
{
    let (number, power) = split(x);
    if power < 957 || 1041 < power {
        return None;
    }
    let shift = 1074 - power;
    let whole = (u128::from(number) * 1_000_000_000) >> shift;
    let places = zeros_to_fifteen(whole as u64)?;
    let raised = u128::from(number) * u128::from(ten_to(places));
    let rounded = closest_over(raised, shift) as u64;
    Some(carried(rounded, 1080 - places as usize))
}

/// The same of any size, by its exact digits.
fn far_six(x: f64) -> (u64, usize)
    requires { T (float_is_finite x) }
    ensures { AreSix x result.0 result.1 }
{
    let (digits, places) = exact(x);
    if digits.is_empty() {
        return (0, UNIT);
    }
    let figures = digits.len() + (UNIT - places as usize);
    carried(first_six(digits.as_slice()), figures)
}

/// The six significant digits of the size of a finite double, and where the first one stands, counted from the place
/// of 10^-1074.
fn six_figures(x: f64) -> (u64, usize)
    requires { T (float_is_finite x) }
    ensures { AreSix x result.0 result.1 }
{
    match near_six(x) {
        Some(made) => made,
        None => far_six(x),
    }
}

/// Adds the digits of a number, with zeros before them where they are fewer.
fn push_padded(out: &mut ArrayVec<u8, 16>, number: u64, least: usize)
    requires number { number < 10 ^ 6 }
    requires room { length out.old.items ≤ 10 }
    requires least { length out.old.items + least ≤ 16 }
    ensures value { out.new.items ≡ out.old.items ++ padded least number }
    ensures least { length out.old.items + least ≤ length out.new.items }
    ensures most { (k : ℕ) → number < 10 ^ k → least ≤ k → length out.new.items ≤ length out.old.items + k }
{
    let mut buffer = Buffer::new();
    let own = own_digits(&mut buffer, u128::from(number));
    'zeros: for _turn in 0..least.saturating_sub(own.len()) {
        out.push(b'0');
    }
    let _ = out.try_extend_from_slice(own);
}

/// Puts a point before the last digits.
fn put_point(out: &mut ArrayVec<u8, 16>, places: usize)
    requires places { places ≤ length out.old.items }
    requires room { length out.old.items < 16 }
    ensures value { out.new.items ≡ pointed places out.old.items }
    ensures length { length out.new.items ≤ length out.old.items + 1 }
{
    if 0 < places {
        let place = out.len() - places;
        out.insert(place, b'.');
    }
}

/// Takes off the zeros at the end of what stands behind the point, and the point where nothing does.
fn shorten(out: &mut ArrayVec<u8, 16>, places: usize)
    ensures value { out.new.items ≡ shortened places out.old.items }
    ensures length { length out.new.items ≤ length out.old.items }
{
    let length = shortened_length(out.as_slice(), places);
    out.truncate(length);
}

/// Makes `out` the digits of a number with so many of them behind the point, without zeros at its end.
fn write_digits(out: &mut ArrayVec<u8, 16>, number: u64, places: usize)
    requires number { number < 10 ^ 6 }
    requires places { places ≤ 9 }
    ensures value { out.new.items ≡ shortened places (pointed places (padded (places + 1) number)) }
    ensures length { length out.new.items ≤ 11 }
    ensures short { places ≡ 5 → length out.new.items ≤ 7 }
{
    out.clear();
    push_padded(out, number, places + 1);
    put_point(out, places);
    shorten(out, places);
}

/// Adds the exponent where the first digit stands there.
fn push_exponent(out: &mut ArrayVec<u8, 16>, place: usize)
    requires place { place ≤ 2000 }
    requires room { length out.old.items ≤ 7 }
    ensures value { out.new.items ≡ out.old.items ++ exponent_text 101 place }
    ensures length { length out.new.items ≤ 13 }
{
    out.push(b'e');
    if place < UNIT {
        out.push(b'-');
        push_padded(out, (UNIT - place) as u64, 2);
    } else {
        out.push(b'+');
        push_padded(out, (place - UNIT) as u64, 2);
    }
}

/// Makes `out` the text of the size of a finite double.
fn write_size(x: f64, out: &mut ArrayVec<u8, 16>)
    requires { T (float_is_finite x) }
    ensures value { out.new.items ≡ general 101 x 6 }
    ensures length { length out.new.items ≤ 13 }
{
    let (number, place) = six_figures(x);
    if is_plain(6, place) {
        write_digits(out, number, 1079 - place);
    } else {
        write_digits(out, number, 5);
        push_exponent(out, place);
    }
}

/// Makes `out` the text of a double by `%.6g`: at most 14 bytes. What is no number has the text of 0. Takes no memory.
pub fn write_short(x: f64, out: &mut ArrayVec<u8, 16>)
    ensures value { out.new.items ≡ general_text 101 x 6 }
    ensures length { length out.new.items ≤ 14 }
{
    if x.is_finite() {
        write_size(x, out);
    } else {
        write_size(0.0, out);
    }
    if is_negative(x) {
        out.insert(0, b'-');
    }
}
