// The texts of values.
ghost use Rattle.awk_text.specs.Values.{number_text, text_of};
ghost use Rattle.std.specs.Prelude.{IfOk, ◌≡◌};

use awk_numbers::number::Number;
use awk_text::buffer::Buffer;
use awk_text::fault::Fault;
use awk_text::octets::Octets;
use awk_text::value::{Value, text_of};
use std::alloc::Global;

/// The text of a number.
///
/// Fails with `Fault::Memory` alone, where memory is refused.
fn number_text(alloc: Global, number: Number) -> Result<Octets, Fault>
    ensures { IfOk result (λ x. x ≡ number_text number) }
{
    let mut buffer = Buffer::new();
    Ok(Octets::of(alloc, buffer.text(number))?)
}

/// The text of a value, which is moved where it is one.
pub fn into_text(alloc: Global, value: Value) -> Result<Octets, Fault>
    ensures { IfOk result (λ x. x ≡ text_of value) }
{
    match value {
        Value::Text(text) => Ok(text),
        Value::Input(text) => Ok(text),
        Value::Unset => Ok(Octets::new(Vec::new(alloc))),
        Value::Num(number) => number_text(alloc, Number::Whole(number)),
        Value::Real(number) => number_text(alloc, Number::Real(number)),
    }
}
