// What is read or set, of whichever sort it is.
ghost use Rattle.awk_machine.specs.Pieces.{Do, Get, Set, give};
ghost use Rattle.awk_machine.specs.State.{Given};
ghost use Rattle.awk_machine.specs.Targets as machine;
ghost use Rattle.awk_store.specs.Acts.{Acts, Passes};
ghost use Rattle.awk_store.specs.Kept.{by_convfmt};
ghost use Rattle.awk_store.specs.Numbers.{whole_number};
ghost use Rattle.awk_store.specs.Spots as spec;
ghost use Rattle.awk_store.specs.Spots.{meant};
ghost use Rattle.awk_store.specs.Wholes.{names_in};
ghost use Rattle.awk_streams.specs.Tables.{Table};
ghost use Rattle.awk_streams.specs.Tasks.{goes_on};
ghost use Rattle.awk_text.specs.Values as values;
ghost use Rattle.std.specs.Prelude.{IfOk, IfSome, Ok, ◌≡◌};

use crate::elements::{read_element, set_element};
use crate::fields::{read_field, set_field};
use crate::numbers::whole_number;
use crate::shown::usual_text;
use crate::spot::Spot;
use crate::variables::{read_variable, replace_variable, set_variable};
use crate::{Store, is_nf};
use awk_numbers::number::Numbers;
use awk_streams::halt::Halt;
use awk_text::buffer::Buffer;
use awk_text::fault::Fault;
use awk_text::octets::Octets;
use awk_text::place::Place;
use awk_text::value::{Value, text_of};
use std::alloc::Global;

/// Reads it.
pub fn read(store: &mut Store, target: &Spot) -> Result<Value, Halt>
    ensures { (g : Given) (t : Table) →
        Acts g (Do (Get (meant (names_in g) target.now))) give (store.old, t) result (store.new, t) }
{
    match target {
        Spot::Variable(variable) => read_variable(store, *variable),
        Spot::Element(place, array, key) => {
            let mut buffer = Buffer::new();
            read_element(store, *place, *array, key.text(&mut buffer))
        }
        Spot::Field(number) => read_field(store, *number),
    }
}

/// The text that it holds, lent, where that is there, reading it changes nothing, and CONVFMT has no say: of `$0`
/// unless it is to be rebuilt, of an element, and of a variable that is not NF. Takes no memory.
pub fn lent<'a>(store: &'a Store, target: &Spot, buffer: &'a mut Buffer) -> Option<&'a [u8]>
    ensures { IfSome result
        (λ text. (g : Given) (t : Table) → (x : Value) × (by_convfmt store.now x ≡ Ok x)
        × (values.text_of x ≡ text.now)
        × Passes g (Do (Get (meant (names_in g) target.now))) (store.now, t) (give x) (store.now, t)) }
{
    match target {
        Spot::Variable(variable) => {
            if is_nf(*variable) {
                return None;
            }
            usual_text(store, store.value(*variable)?, buffer)
        }
        Spot::Element(_, array, key) => {
            let mut digits = Buffer::new();
            usual_text(store, store.element(*array, key.text(&mut digits))?, buffer)
        }
        Spot::Field(number) => {
            if *number == 0 {
                return store.known_whole();
            }
            None
        }
    }
}

/// Sets it.
pub fn set(
    alloc: Global,
    store: &mut Store,
    target: Spot,
    place: Place,
    value: Value,
) -> Result<(), Halt>
    ensures { (g : Given) (t : Table) →
        Acts g (Do (Set (meant (names_in g) target) place value)) goes_on (store.old, t) result (store.new, t) }
{
    match target {
        Spot::Variable(variable) => set_variable(store, variable, place, value),
        Spot::Element(at_name, array, key) => {
            let mut buffer = Buffer::new();
            set_element(store, at_name, array, key.text(&mut buffer), value)
        }
        Spot::Field(number) => set_field(alloc, store, number, place, value),
    }
}

/// Sets it, and answers what a text before lay in, if one is left: the next text may be written there.
#[inline(always)]
pub fn replace(
    alloc: Global,
    store: &mut Store,
    target: Spot,
    place: Place,
    value: Value,
) -> Result<Vec<u8>, Halt>
    ensures { (g : Given) (t : Table) →
        Acts g (Do (Set (meant (names_in g) target) place value)) goes_on (store.old, t) result (store.new, t) }
{
    if let Spot::Variable(variable) = target {
        return replace_variable(alloc, store, variable, place, value);
    }
    set(alloc, store, target, place, value)?;
    Ok(store.take_room())
}

/// The number of a value without its fraction, as a value; an unset one where 64 bits can't hold it.
fn as_number(numbers: Numbers, value: &Value) -> Value
    ensures { result ≡ machine.as_number (whole_number numbers value.now) }
{
    match whole_number(numbers, value) {
        Ok(number) => Value::Num(number),
        Err(_) => Value::Unset,
    }
}

/// The value of an assignment to the whole record.
fn as_record(alloc: Global, value: &Value) -> Result<Value, Fault>
    ensures { IfOk result (λ x. x ≡ machine.as_record value.now) }
{
    match value {
        Value::Real(number) => Ok(Value::Real(*number)),
        Value::Unset | Value::Num(_) | Value::Text(_) | Value::Input(_) => {
            Ok(Value::Input(Octets::new(text_of(alloc, value)?)))
        }
    }
}

/// What an assignment of the value to the target gives: for NF it is always a whole number, and for `$0` input unless
/// it is a number with a fraction. A long text is shared.
///
/// Fails where memory is refused.
pub fn stored(
    alloc: Global,
    numbers: Numbers,
    target: &Spot,
    value: &mut Value,
) -> Result<Value, Fault>
    ensures ok { IfOk result (λ x. x ≡ spec.stored numbers target.now value.old) }
    ensures same { value.new ≡ value.old }
{
    match target {
        Spot::Variable(variable) => {
            if is_nf(*variable) {
                Ok(as_number(numbers, value))
            } else {
                value.share(alloc)
            }
        }
        Spot::Element(_, _, _) => value.share(alloc),
        Spot::Field(number) => {
            if *number == 0 {
                as_record(alloc, value)
            } else {
                value.share(alloc)
            }
        }
    }
}
