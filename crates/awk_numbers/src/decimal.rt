// Whole numbers of any size by their decimal digits, the last one first.
ghost use Rattle.std.specs.Prelude.{◌≡◌, ℕ, suc, ◌+◌, ◌*◌, ◌^◌, ◌<◌, ◌≤◌, ◌⊎◌, ◌/◌, length, slice_index, IfOk};
ghost use Rattle.std.specs.Prelude.{IsFalse, IsTrue, OnOk, T, ◌++◌, drop, map, replicate, reverse};
ghost use Rattle.std.specs.Float.{float_is_finite};
ghost use Rattle.std.specs.Int.Digits.{digits_of};
ghost use lib.Ieee.Nearest.{closest};
ghost use Rattle.awk_numbers.specs.Figures.{below, AllFigures, AreFigures, IsSize};

use crate::fixed::split;
use arrayvec::ArrayVec;
use std::alloc::{AllocError, Global};

/// The digits of a number, the last one first: there is room for those of each finite double.
pub(crate) type Digits = ArrayVec<u8, 768>;

/// Multiplies the number by a factor and adds, within the digits that it has: what is left is carried beyond them.
fn scale_digits(digits: &mut [u8], factor: u64, add: u64) -> u64
    requires figures { AllFigures digits.old }
    requires factor { factor ≤ 2 ^ 56 }
    requires add { add ≤ 2 ^ 57 }
    ensures value { below digits.new (length digits.old) + result * 10 ^ length digits.old
        ≡ below digits.old (length digits.old) * factor + add }
    ensures figures { AllFigures digits.new }
    ensures carry { result ≤ 2 ^ 57 }
{
    let mut carry = add;
    for i in 0..digits.len() {
        let product = u64::from(digits[i]) * factor + carry;
        digits[i] = (product % 10) as u8;
        carry = product / 10;
    }
    carry
}

/// Puts the digits of what is carried before the number.
fn push_carry(digits: &mut Digits, carry: u64)
    requires figures { AllFigures digits.old.items }
    requires room { below digits.old.items (length digits.old.items) + carry * 10 ^ length digits.old.items < 10 ^ 768 }
    ensures value { below digits.new.items (length digits.new.items)
        ≡ below digits.old.items (length digits.old.items) + carry * 10 ^ length digits.old.items }
    ensures figures { AllFigures digits.new.items }
    ensures front { (k : ℕ) → length digits.new.items ≡ suc k
        → (length digits.old.items ≡ suc k)
        ⊎ (10 ^ k ≤ below digits.old.items (length digits.old.items) + carry * 10 ^ length digits.old.items) }
{
    let mut rest = carry;
    while rest > 0 {
        digits.push((rest % 10) as u8);
        rest /= 10;
    }
}

/// Multiplies the number by a factor and adds.
fn scale(digits: &mut Digits, factor: u64, add: u64)
    requires figures { AllFigures digits.old.items }
    requires positive { 0 < factor }
    requires factor { factor ≤ 2 ^ 56 }
    requires add { add ≤ 2 ^ 57 }
    requires room { below digits.old.items (length digits.old.items) * factor + add < 10 ^ 768 }
    ensures figures { AllFigures digits.new.items }
    ensures size { below digits.new.items (length digits.new.items)
        ≡ below digits.old.items (length digits.old.items) * factor + add }
    ensures value { (n : ℕ) → AreFigures digits.old.items n → AreFigures digits.new.items (n * factor + add) }
{
    let carry = scale_digits(digits.as_mut_slice(), factor, add);
    push_carry(digits, carry);
}

/// Multiplies the number by a factor so many times.
fn scale_by(digits: &mut Digits, factor: u64, times: u32)
    requires figures { AllFigures digits.old.items }
    requires positive { 0 < factor }
    requires factor { factor ≤ 2 ^ 56 }
    requires room { below digits.old.items (length digits.old.items) * factor ^ times < 10 ^ 768 }
    ensures figures { AllFigures digits.new.items }
    ensures size { below digits.new.items (length digits.new.items)
        ≡ below digits.old.items (length digits.old.items) * factor ^ times }
    ensures value { (n : ℕ) → AreFigures digits.old.items n → AreFigures digits.new.items (n * factor ^ times) }
{
    'times: for _turn in 0..times {
        scale(digits, factor, 0);
    }
}

/// The digit at a place, 0 before the number.
fn digit_at(digits: &[u8], place: usize) -> u8
    ensures { result ≡ slice_index digits.now place }
{
    if place < digits.len() {
        digits[place]
    } else {
        0
    }
}

/// Whether the last digits are all zeros.
fn ends_in_zeros(digits: &[u8], count: usize) -> bool
    ensures yes { IsTrue result → below digits.now count ≡ 0 }
    ensures no { IsFalse result → 0 < below digits.now count }
{
    for place in 0..count {
        let digit = digit_at(digits, place);
        if digit > 0 {
            return false;
        }
    }
    true
}

/// What is added to the number where its last digits go: 1 where they are more than half a unit, or half of one and the
/// digit before them is odd.
pub(crate) fn rounding(digits: &[u8], count: usize) -> u64
    requires figures { AllFigures digits.now }
    requires some { 0 < count }
    ensures value { (n : ℕ) → AreFigures digits.now n → closest n (10 ^ count) ≡ n / 10 ^ count + result }
    ensures small { result ≤ 1 }
{
    let first = digit_at(digits, count - 1);
    if first < 5 {
        0
    } else if first > 5 {
        1
    } else if ends_in_zeros(digits, count - 1) {
        let last = digit_at(digits, count);
        u64::from(last % 2)
    } else {
        1
    }
}

/// The digits before the last ones.
pub(crate) fn before_last(digits: &[u8], count: usize) -> &[u8]
    ensures { result.now ≡ drop count digits.now }
{
    if count < digits.len() {
        &digits[count..]
    } else {
        &[]
    }
}

/// The number in units of its last digits, to the nearest, a tie to the even one.
pub(crate) fn without_last(digits: &Digits, count: usize) -> Digits
    requires figures { AllFigures digits.now.items }
    requires some { 0 < count }
    ensures figures { AllFigures result.items }
    ensures value { (n : ℕ) → AreFigures digits.now.items n → AreFigures result.items (closest n (10 ^ count)) }
{
    let mut kept = Digits::new();
    let _ = kept.try_extend_from_slice(before_last(digits.as_slice(), count));
    scale(&mut kept, 1, rounding(digits.as_slice(), count));
    kept
}

/// The digits of the size of a finite double, exact, and how many of them stand behind the point.
pub(crate) fn exact(x: f64) -> (Digits, u32)
    requires { T (float_is_finite x) }
    ensures figures { AllFigures result.0.items }
    ensures value { (n : ℕ) × AreFigures result.0.items n × IsSize x n result.1 }
    ensures few { result.1 ≤ 1074 }
    ensures most { (n : ℕ) → AreFigures result.0.items n → n < 10 ^ (309 + result.1) }
{
    let (n, power) = split(x);
    let mut digits = Digits::new();
    scale(&mut digits, 1, n);
    if power < 1074 {
        let places = 1074 - power;
        scale_by(&mut digits, 152_587_890_625, places / 16);
        scale_by(&mut digits, 5, places % 16);
        (digits, places)
    } else {
        scale_by(&mut digits, 65_536, (power - 1074) / 16);
        scale_by(&mut digits, 2, (power - 1074) % 16);
        (digits, 0)
    }
}

/// The text of the number, the first digit first: none for 0.
pub(crate) fn text_of(alloc: Global, digits: &[u8]) -> Result<Vec<u8>, AllocError>
    requires { AllFigures digits.now }
    ensures { IfOk result (λ text. text.items ≡ map (λ d. 48 + d) (reverse digits.now)) }
{
    let mut text = Vec::new(alloc);
    let mut left = digits.len();
    while left > 0 {
        left -= 1;
        text.push(b'0' + digits[left])?;
    }
    Ok(text)
}

/// The text of the number in units of its last digits, to the nearest, a tie to the even one.
pub(crate) fn cut_text(alloc: Global, digits: &Digits, count: usize) -> Result<Vec<u8>, AllocError>
    requires figures { AllFigures digits.now.items }
    requires some { 0 < count }
    ensures { IfOk result (λ text. (n : ℕ) → AreFigures digits.now.items n
        → text.items ≡ map (λ d. 48 + d) (digits_of 10 (closest n (10 ^ count)))) }
{
    let kept = without_last(digits, count);
    text_of(alloc, kept.as_slice())
}

/// Adds zeros.
fn push_zeros(text: &mut Vec<u8>, count: usize) -> Result<(), AllocError>
    ensures { OnOk result (text.new.items ≡ text.old.items ++ replicate count 48) }
{
    'zeros: for _turn in 0..count {
        text.push(b'0')?;
    }
    Ok(())
}

/// The text of the number times a power of ten.
pub(crate) fn raised_text(alloc: Global, digits: &[u8], power: usize) -> Result<Vec<u8>, AllocError>
    requires { AllFigures digits.now }
    ensures { IfOk result (λ text. (n : ℕ) → AreFigures digits.now n
        → text.items ≡ map (λ d. 48 + d) (digits_of 10 (n * 10 ^ power))) }
{
    let mut text = text_of(alloc, digits)?;
    if text.is_empty() {
        return Ok(text);
    }
    push_zeros(&mut text, power)?;
    Ok(text)
}

/// The text of so many digits of the number, to the nearest, a tie to the even digit: one more where it is rounded up
/// to a power of ten.
pub(crate) fn significant_text(
    alloc: Global,
    digits: &Digits,
    count: usize,
) -> Result<Vec<u8>, AllocError>
    requires { AllFigures digits.now.items }
    ensures { IfOk result (λ text. (n : ℕ) → AreFigures digits.now.items n
        → text.items ≡ map (λ d. 48 + d) (digits_of 10 (closest (n * 10 ^ count) (10 ^ length digits.now.items)))) }
{
    let length = digits.len();
    if count < length {
        return cut_text(alloc, digits, length - count);
    }
    raised_text(alloc, digits.as_slice(), count - length)
}
