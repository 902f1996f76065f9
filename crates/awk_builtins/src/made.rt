// What was made of values, as a value.
ghost use Rattle.awk_builtins.specs.Made.{as_text, both_numbers, stepping, storing};
ghost use Rattle.awk_machine.specs.Pieces.{At, Value_of};
ghost use Rattle.awk_machine.specs.State.{Given};
ghost use Rattle.awk_program.specs.Program as p;
ghost use Rattle.awk_program.specs.Program.{Expression, Reference};
ghost use Rattle.awk_program.specs.declared.operators.StepValue.{StepValue};
ghost use Rattle.awk_store.specs.Acts.{Acts};
ghost use Rattle.awk_store.specs.Numbers.{valued};
ghost use Rattle.awk_store.specs.Wholes.{Whole};
ghost use Rattle.awk_streams.specs.Chains.{result_at};
ghost use Rattle.std.specs.Prelude.{IfErr, IfOk, OnOk, [], ◌++◌, ◌∷◌, ◌≡◌};

use crate::operators::{computed, stepped};
use awk_numbers::number::{Number, Numbers};
use awk_program::{Operator, Step};
use awk_streams::halt::{Halt, at};
use awk_text::fault::Fault;
use awk_text::octets::Octets;
use awk_text::place::Place;
use awk_text::value::{Value, number_of};
use std::alloc::Global;

/// A number that was made at a place, as a value, or how the part ends. Takes no memory.
pub fn number_at(place: Place, made: Result<Number, Fault>) -> Result<Value, Halt>
    ensures { result ≡ result_at place (valued made) }
{
    match made {
        Ok(number) => Ok(Value::of(number)),
        Err(fault) => Err(Halt::at(place, fault)),
    }
}

/// A text that was made at a place, as a value, or how the part ends. Takes no memory.
pub fn text_at(place: Place, made: Result<Octets, Fault>) -> Result<Value, Halt>
    ensures { result ≡ result_at place (as_text made) }
{
    match made {
        Ok(text) => Ok(Value::Text(text)),
        Err(fault) => Err(Halt::at(place, fault)),
    }
}

/// A text of its own, as a value.
#[inline(always)]
pub fn owned(alloc: Global, text: &[u8]) -> Result<Value, Halt>
    ensures ok { IfOk result (λ new. new ≡ Value.Text text.now) }
    ensures err { IfErr result (λ h. h ≡ Halt.Memory) }
{
    Ok(Value::Text(Octets::of(alloc, text)?))
}

/// The number of a value, and the one behind it or before it.
fn steps_of(numbers: Numbers, how: Step, value: &Value) -> Result<(Number, Number), Fault>
    ensures { result ≡ both_numbers numbers how value.now }
{
    let old = number_of(numbers, value)?;
    let new = stepped(numbers, how, old)?;
    Ok((old, new))
}

/// The old number and the new one of `target ++` and `target --`, by the store's profile, once the target was read.
/// Takes no memory.
pub fn stepped_at(
    numbers: Numbers,
    place: Place,
    how: Step,
    value: &Value,
) -> Result<(Number, Number), Halt>
    ensures { (g : Given) (w : Whole) (taken : StepValue) (r : Reference) (at : Value) → numbers ≡ w.0.numbers
        → Acts g (At (Value_of (p.step place how taken r)) (value.now ∷ at ∷ [])) (stepping place taken r at) w result
        w }
{
    at(place, steps_of(numbers, how, value))
}

/// The new number of `target += value`, and with the other operators, by the store's profile, once the target was read.
/// Takes no memory.
pub fn computed_at(
    numbers: Numbers,
    place: Place,
    how: Operator,
    old: &Value,
    operand: &Value,
) -> Result<Number, Halt>
    ensures { (g : Given) (w : Whole) (r : Reference) (x : Expression) (at : Value) → numbers ≡ w.0.numbers
        → Acts g (At (Value_of (p.change place how r x)) (old.now ∷ operand.now ∷ at ∷ [])) (storing numbers place r at)
        w result w }
{
    at(place, computed(numbers, how, old, operand))
}

/// Adds a value behind the others.
#[inline(always)]
pub fn append(values: &mut Vec<Value>, value: Value) -> Result<(), Halt>
    ensures ok { OnOk result (values.new.items ≡ values.old.items ++ value ∷ []) }
    ensures err { IfErr result (λ h. h ≡ Halt.Memory) }
{
    values.push(value)?;
    Ok(())
}
