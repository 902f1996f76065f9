// The values of scripts.
ghost use Rattle.std.specs.Prelude.{◌≡◌, IfOk, IsOkUnless};
ghost use Rattle.awk_text.specs.Values.{number_of, numeric, of_number, order, text_of, truth};

use crate::buffer::Buffer;
use crate::fault::Fault;
use crate::numeral;
use crate::octets::Octets;
use awk_numbers::number::{Number, Numbers};
use awk_numbers::operators;
use std::alloc::Global;
use std::cmp::Ordering;

/// A value of a script. POSIX.1-2017, XCU awk, "Expressions in awk".
#[derive(Drop)]
pub enum Value {
    /// No value yet: 0, and the empty text.
    Unset,
    Num(i64),
    /// In profile double, a number with a fraction, or beyond 2^53.
    Real(f64),
    Text(Octets),
    /// A text from outside, which may look numeric.
    Input(Octets),
}

impl Value {
    /// The value that a number is. Takes no memory.
    #[inline(always)]
    pub fn of(number: Number) -> Value
        ensures { result ≡ of_number number }
    {
        match number {
            Number::Whole(n) => Value::Num(n),
            Number::Real(x) => Value::Real(x),
        }
    }

    /// The same value once more.
    ///
    /// Fails with `Fault::Memory` alone, where memory is refused.
    pub fn copy(&self, alloc: Global) -> Result<Value, Fault>
        ensures ok { IfOk result (λ value. value ≡ self.now) }
        ensures err { IsOkUnless result Fault.Memory }
    {
        match self {
            Value::Unset => Ok(Value::Unset),
            Value::Num(number) => Ok(Value::Num(*number)),
            Value::Real(number) => Ok(Value::Real(*number)),
            Value::Text(text) => Ok(Value::Text(text.copy(alloc)?)),
            Value::Input(text) => Ok(Value::Input(text.copy(alloc)?)),
        }
    }

    /// The same value once more, which shares the bytes of a long text.
    ///
    /// Fails with `Fault::Memory` alone, where memory is refused.
    pub fn share(&mut self, alloc: Global) -> Result<Value, Fault>
        ensures stays { self.new ≡ self.old }
        ensures ok { IfOk result (λ value. value ≡ self.old) }
        ensures err { IsOkUnless result Fault.Memory }
    {
        match self {
            Value::Unset => Ok(Value::Unset),
            Value::Num(number) => Ok(Value::Num(*number)),
            Value::Real(number) => Ok(Value::Real(*number)),
            Value::Text(text) => Ok(Value::Text(text.share(alloc)?)),
            Value::Input(text) => Ok(Value::Input(text.share(alloc)?)),
        }
    }
}

/// The number of a value by the profile: of a text the number that it begins with. Takes no memory.
///
/// Fails with `Fault::OutOfRange` where that is out of range.
pub fn number_of(numbers: Numbers, value: &Value) -> Result<Number, Fault>
    ensures { result ≡ number_of numbers value.now }
{
    match value {
        Value::Unset => Ok(Number::Whole(0)),
        Value::Num(number) => Ok(Number::Whole(*number)),
        Value::Real(number) => Ok(Number::Real(*number)),
        Value::Text(text) | Value::Input(text) => numeral::number_in(numbers, text.bytes()),
    }
}

/// The number of a value that is compared and tested as a number. Takes no memory.
pub fn numeric(numbers: Numbers, value: &Value) -> Option<Number>
    ensures { result ≡ numeric numbers value.now }
{
    match value {
        Value::Unset => Some(Number::Whole(0)),
        Value::Num(number) => Some(Number::Whole(*number)),
        Value::Real(number) => Some(Number::Real(*number)),
        Value::Text(_) => None,
        Value::Input(text) => numeral::looks_in(numbers, text.bytes()),
    }
}

/// The text of a value, lent: a number's is written into the buffer. Takes no memory.
pub fn text_in<'a>(value: &'a Value, buffer: &'a mut Buffer) -> &'a [u8]
    ensures { result.now ≡ text_of value.now }
{
    match value {
        Value::Unset => &[],
        Value::Num(number) => buffer.text(Number::Whole(*number)),
        Value::Real(number) => buffer.text(Number::Real(*number)),
        Value::Text(text) | Value::Input(text) => text.bytes(),
    }
}

/// The text of a value: of a whole number its decimal digits, with `-` where it is negative, of another number as
/// `%.6g` has it.
///
/// Fails with `Fault::Memory` alone, where memory is refused.
pub fn text_of(alloc: Global, value: &Value) -> Result<Vec<u8>, Fault>
    ensures ok { IfOk result (λ text. text.items ≡ text_of value.now) }
    ensures err { IsOkUnless result Fault.Memory }
{
    let mut buffer = Buffer::new();
    Ok(Vec::from_slice(alloc, text_in(value, &mut buffer))?)
}

/// Whether a value is true by the profile: a number that is not 0, or a text that is not empty. A text from outside
/// that looks numeric is a number here. Takes no memory.
pub fn truth(numbers: Numbers, value: &Value) -> bool
    ensures { result ≡ truth numbers value.now }
{
    match numeric(numbers, value) {
        Some(number) => operators::truth(number),
        None => match value {
            Value::Text(text) | Value::Input(text) => !text.bytes().is_empty(),
            Value::Unset | Value::Num(_) | Value::Real(_) => false,
        },
    }
}

/// The order of two values by the profile: of their numbers where each is a number, unset, or a text from outside that
/// looks numeric, and else of their texts, byte by byte. Takes no memory.
pub fn compare(numbers: Numbers, left: &Value, right: &Value) -> Ordering
    ensures { result ≡ order numbers left.now right.now }
{
    if let (Some(a), Some(b)) = (numeric(numbers, left), numeric(numbers, right)) {
        return operators::order(a, b);
    }
    let (mut first, mut second) = (Buffer::new(), Buffer::new());
    text_in(left, &mut first).cmp(text_in(right, &mut second))
}
