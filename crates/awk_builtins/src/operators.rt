// What the operators give.
ghost use Rattle.awk_machine.specs.Operators as spec;
ghost use Rattle.awk_machine.specs.Operators.{of_truth};
ghost use Rattle.awk_store.specs.Numbers.{valued};
ghost use Rattle.awk_text.specs.Lents.{lent_value};
ghost use Rattle.std.specs.Ordering.{int_cmp};
ghost use Rattle.std.specs.Prelude.{◌≡◌};

use awk_numbers::number::{Number, Numbers};
use awk_program::{Comparison, Operator, Sign, Step};
use awk_text::arithmetic;
use awk_text::fault::Fault;
use awk_text::lent::Lent;
use awk_text::value::{Value, compare, number_of};
use std::cmp::Ordering;

/// What the operator gives at two numbers, by the profile. Takes no memory.
///
/// Fails with `Fault::ZeroDivisor` and `Fault::OutOfRange` as the functions of `arithmetic` do.
#[inline(always)]
pub fn operation(
    numbers: Numbers,
    how: Operator,
    left: Number,
    right: Number,
) -> Result<Number, Fault>
    ensures { result ≡ spec.operation numbers how left right }
{
    match how {
        Operator::Add => arithmetic::add(numbers, left, right),
        Operator::Subtract => arithmetic::sub(numbers, left, right),
        Operator::Multiply => arithmetic::mul(numbers, left, right),
        Operator::Divide => arithmetic::div(numbers, left, right),
        Operator::Remainder => arithmetic::rem(numbers, left, right),
        Operator::Power => arithmetic::pow(numbers, left, right),
    }
}

/// What the operator gives at the numbers of two values, by the profile. Takes no memory.
///
/// Fails with `Fault::OutOfRange` where a number is out of range, the left one first, and as `operation` does.
pub fn computed(
    numbers: Numbers,
    how: Operator,
    left: &Value,
    right: &Value,
) -> Result<Number, Fault>
    ensures { valued result ≡ spec.computed numbers how left.now right.now }
{
    let first = number_of(numbers, left)?;
    let second = number_of(numbers, right)?;
    operation(numbers, how, first, second)
}

/// What the sign gives at the number of a value, by the profile. Takes no memory.
///
/// Fails with `Fault::OutOfRange` where the number, or the one with the other sign, is out of range.
pub fn signed(numbers: Numbers, how: Sign, value: &Value) -> Result<Number, Fault>
    ensures { valued result ≡ spec.signed numbers how value.now }
{
    let number = number_of(numbers, value)?;
    match how {
        Sign::Plus => Ok(number),
        Sign::Minus => arithmetic::neg(numbers, number),
    }
}

/// The number and 1 more, or 1 less, by the profile. Takes no memory.
///
/// Fails with `Fault::OutOfRange` where that is out of range.
#[inline(always)]
pub fn stepped(numbers: Numbers, how: Step, number: Number) -> Result<Number, Fault>
    ensures { result ≡ spec.stepped numbers how number }
{
    match how {
        Step::Increment => arithmetic::add(numbers, number, Number::Whole(1)),
        Step::Decrement => arithmetic::sub(numbers, number, Number::Whole(1)),
    }
}

/// Whether the comparison holds of two values in this order. Takes no memory.
#[inline(always)]
fn holds(how: Comparison, order: Ordering) -> bool
    ensures { result ≡ spec.holds how order }
{
    let less = matches!(order, Ordering::Less);
    let equal = matches!(order, Ordering::Equal);
    match how {
        Comparison::Less => less,
        Comparison::LessOrEqual => less || equal,
        Comparison::Equal => equal,
        Comparison::NotEqual => !equal,
        Comparison::Greater => !(less || equal),
        Comparison::GreaterOrEqual => !less,
    }
}

/// Whether the comparison holds of two whole numbers, by either profile. Takes no memory.
#[inline(always)]
pub fn compared_numbers(how: Comparison, left: i64, right: i64) -> bool
    ensures { result ≡ spec.holds how (int_cmp left right) }
{
    holds(how, left.cmp(&right))
}

/// Whether the comparison holds of two values as they are, by the profile. Takes no memory.
pub fn compared_values(numbers: Numbers, how: Comparison, left: &Value, right: &Value) -> bool
    ensures { of_truth result ≡ spec.compared numbers how left.now right.now }
{
    if let (Value::Num(first), Value::Num(second)) = (left, right) {
        return compared_numbers(how, *first, *second);
    }
    holds(how, compare(numbers, left, right))
}

/// Whether the comparison holds of two values that are lent, as they are, by the profile. Takes no memory.
#[inline(always)]
pub fn compared_lent<'a>(numbers: Numbers, how: Comparison, left: Lent<'a>, right: Lent<'a>) -> bool
    ensures { of_truth result ≡ spec.compared numbers how (lent_value left.entry) (lent_value right.entry) }
{
    if let (Lent::Num(first), Lent::Num(second)) = (left, right) {
        return compared_numbers(how, first, second);
    }
    holds(how, left.compare(numbers, right))
}

/// The value of a truth: 1 or 0. Takes no memory.
pub fn truth_value(holds: bool) -> Value
    ensures { result ≡ of_truth holds }
{
    Value::Num(if holds { 1 } else { 0 })
}
