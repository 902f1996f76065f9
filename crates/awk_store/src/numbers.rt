// Numbers of fields, and the status of an exit.
ghost use Rattle.awk_machine.specs.Targets as spec;
ghost use Rattle.awk_store.specs.Numbers.{as_value, exit_status, whole_number};
ghost use Rattle.std.specs.Prelude.{pos, ◌≡◌};

use awk_fields::row::MOST_FIELDS;
use awk_numbers::number::Numbers;
use awk_text::arithmetic::whole_of;
use awk_text::fault::Fault;
use awk_text::value::{Value, number_of};

/// The number of a value by the profile, without its fraction.
///
/// Fails with `Fault::OutOfRange` where 64 bits can't hold it.
pub(crate) fn whole_number(numbers: Numbers, value: &Value) -> Result<i64, Fault>
    ensures { result ≡ whole_number numbers value.now }
{
    whole_of(number_of(numbers, value)?)
}

/// The number of a field that a value names, without its fraction. Takes no memory.
///
/// Fails with `Fault::OutOfRange` where the value's number is out of range, and with `Fault::FieldNumber` where
/// it is not 0 to 65,535.
pub fn field_of(numbers: Numbers, value: &Value) -> Result<i64, Fault>
    ensures { as_value result ≡ spec.field_of numbers value.now }
{
    let number = whole_number(numbers, value)?;
    if number < 0 || number > MOST_FIELDS {
        return Err(Fault::FieldNumber);
    }
    Ok(number)
}

/// The number of a field that was made by `field_of`, of its value. Takes no memory.
pub fn field_number(value: &Value) -> i64
    ensures { result ≡ pos (spec.field_number value.now) }
{
    match value {
        Value::Num(number) if *number >= 0 => *number,
        _ => 0,
    }
}

/// The status that `exit` gives: the number of the value without its fraction, modulo 256. Takes no memory.
///
/// Fails with `Fault::OutOfRange` where that number is out of range.
pub fn exit_status(numbers: Numbers, value: &Value) -> Result<u8, Fault>
    ensures { result ≡ exit_status numbers value.now }
{
    let number = whole_number(numbers, value)?;
    Ok(number.rem_euclid(256) as u8)
}
