// Chains of operators: one operand more, and texts one behind the other.
ghost use Rattle.awk_builtins.specs.Made.{of_both};
ghost use Rattle.awk_machine.specs.Operators.{limited};
ghost use Rattle.awk_machine.specs.Pieces.{At, Members_of, Terms_of, Texts_of, give};
ghost use Rattle.awk_machine.specs.State.{Given};
ghost use Rattle.awk_program.specs.Program as p;
ghost use Rattle.awk_program.specs.Program.{Expression, Joins, Terms};
ghost use Rattle.awk_program.specs.View.{variable_of};
ghost use Rattle.awk_store.specs.Acts.{Acts};
ghost use Rattle.awk_store.specs.Wholes.{Whole, names_in};
ghost use Rattle.awk_streams.specs.Tables.{Table};
ghost use Rattle.awk_text.specs.Values.{number_of, number_text, text_of};
ghost use Rattle.awk_text.specs.declared.value.Value.{Value as Val};
ghost use Rattle.std.specs.Prelude.{Err, IfErr, IfOk, List, Ok, [], map, ◌++◌, ◌∷◌, ◌≡◌, ◌⊎◌};

use crate::made::{number_at, text_at};
use crate::operators::{operation, truth_value};
use awk_numbers::number::{Number, Numbers};
use awk_program::{Operator, Variable};
use awk_store::Store;
use awk_streams::halt::Halt;
use awk_text::buffer::Buffer;
use awk_text::fault::Fault;
use awk_text::octets::Octets;
use awk_text::place::Place;
use awk_text::texts::MOST_BYTES;
use awk_text::value::{Value, number_of, text_in};
use std::alloc::Global;

/// The bytes of the text of a number.
fn digits(alloc: Global, number: Number) -> Result<Vec<u8>, Fault>
    ensures ok { IfOk result (λ bytes. bytes.items ≡ number_text number) }
    ensures err { IfErr result (λ e. e ≡ Fault.Memory) }
{
    let mut buffer = Buffer::new();
    Ok(Vec::from_slice(alloc, buffer.text(number))?)
}

/// The bytes of the text of a value, which is used up: a text gives its own.
fn into_bytes(alloc: Global, value: Value) -> Result<Vec<u8>, Fault>
    ensures ok { IfOk result (λ bytes. bytes.items ≡ text_of value) }
    ensures err { IfErr result (λ e. e ≡ Fault.Memory) }
{
    match value {
        Value::Unset => Ok(Vec::new(alloc)),
        Value::Num(number) => digits(alloc, Number::Whole(number)),
        Value::Real(number) => digits(alloc, Number::Real(number)),
        Value::Text(text) | Value::Input(text) => Ok(text.into_bytes(alloc)?),
    }
}

/// The texts of two values, one after the other. The first one is used up: where it is a text, it grows in its
/// place, so that many parts take time as their whole.
///
/// Fails with `Fault::TextTooLong` exactly where the two have more than `MOST_BYTES` bytes, and with
/// `Fault::Memory` where memory is refused.
pub fn concatenated(alloc: Global, first: Value, second: &Value) -> Result<Octets, Fault>
    ensures ok { IfOk result (λ text. limited (text_of first ++ text_of second.now) ≡ Ok text) }
    ensures err { IfErr result (λ e. (e ≡ Fault.Memory) ⊎ (limited (text_of first ++ text_of second.now) ≡ Err e)) }
{
    let mut bytes = into_bytes(alloc, first)?;
    let mut buffer = Buffer::new();
    let more = text_in(second, &mut buffer);
    if MOST_BYTES < bytes.len() + more.len() {
        return Err(Fault::TextTooLong);
    }
    bytes.extend_from_slice(more)?;
    Ok(Octets::new(bytes))
}

/// What the operator gives at two numbers, the left one of which is looked at first.
fn both(
    numbers: Numbers,
    how: Operator,
    left: Result<Number, Fault>,
    right: Result<Number, Fault>,
) -> Result<Number, Fault>
    ensures { result ≡ of_both numbers how left right }
{
    let first = left?;
    let second = right?;
    operation(numbers, how, first, second)
}

/// One operand more, whose number is known, of a chain of `+` and `-`, or of `*`, `/` and `%`; or the one of `^`. It
/// goes by the store's profile.
pub fn operated(
    numbers: Numbers,
    place: Place,
    how: Operator,
    left: &Value,
    right: Result<Number, Fault>,
) -> Result<Value, Halt>
    ensures { (g : Given) (w : Whole) (x : Expression) (xs : Terms) (r : Val) → numbers ≡ w.0.numbers
        → right ≡ number_of numbers r →
        Acts g (At (Terms_of (p.term how place x xs)) (r ∷ left.now ∷ [])) (λ v k. At (Terms_of xs) (v ∷ []) ∷ k) w
        result w }
{
    number_at(place, both(numbers, how, number_of(numbers, left), right))
}

/// One operand more of a concatenation.
pub fn join(alloc: Global, place: Place, left: Value, right: &Value) -> Result<Value, Halt>
    ensures { (g : Given) (w : Whole) (x : Expression) (xs : Joins) →
        Acts g (At (Texts_of (p.join place x xs)) (right.now ∷ left ∷ [])) (λ v k. At (Texts_of xs) (v ∷ []) ∷ k) w
        result w }
{
    text_at(place, concatenated(alloc, left, right))
}

/// One array more of `key in array in array ..`: whether it has the key.
fn member(store: &Store, array: Variable, key: &Value) -> Value
    ensures { (g : Given) (t : Table) (rest : List p.Variable) →
        Acts g (At (Members_of (variable_of (names_in g) array ∷ rest)) (key.now ∷ []))
        (λ v k. At (Members_of rest) (v ∷ []) ∷ k) (store.now, t) (Ok result) (store.now, t) }
{
    let mut buffer = Buffer::new();
    truth_value(store.contains(array, text_in(key, &mut buffer)))
}

/// Whether the last array of `key in array in array ..` has the key that the ones before it make. Takes no memory.
pub fn members(store: &Store, arrays: &[Variable], key: Value) -> Value
    ensures { (g : Given) (t : Table) →
        Acts g (At (Members_of (map (variable_of (names_in g)) arrays.now)) (key ∷ [])) give (store.now, t) (Ok result)
        (store.now, t) }
{
    let mut found = key;
    for array in arrays {
        found = member(store, *array, &found);
    }
    found
}
