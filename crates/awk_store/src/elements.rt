// Elements of arrays.
ghost use Rattle.awk_machine.specs.Pieces as machine;
ghost use Rattle.awk_machine.specs.Pieces.{Do, Get, Set, give};
ghost use Rattle.awk_machine.specs.State.{Given};
ghost use Rattle.awk_program.specs.View.{variable_of};
ghost use Rattle.awk_store.specs.Acts.{Acts};
ghost use Rattle.awk_store.specs.Wholes.{names_in};
ghost use Rattle.awk_streams.specs.Tables.{Table};
ghost use Rattle.awk_streams.specs.Tasks.{goes_on};

use crate::Store;
use awk_program::Variable;
use awk_streams::halt::{Halt, at};
use awk_text::place::Place;
use awk_text::value::Value;

/// Reads an element by its key, and makes it where it is not there. A fault is at the place of the array's name.
pub fn read_element(
    store: &mut Store,
    place: Place,
    array: Variable,
    key: &[u8],
) -> Result<Value, Halt>
    ensures { (g : Given) (t : Table) →
        Acts g (Do (Get (machine.Element (variable_of (names_in g) array) key.now place))) give (store.old, t) result
        (store.new, t) }
{
    let Ok(found) = store.share_element(array, key) else {
        return Err(Halt::Memory);
    };
    if let Some(value) = found {
        return Ok(value);
    }
    at(place, store.put(array, key, Value::Unset))?;
    Ok(Value::Unset)
}

/// Sets an element by its key. A fault is at the place of the array's name.
pub fn set_element(
    store: &mut Store,
    at_name: Place,
    array: Variable,
    key: &[u8],
    value: Value,
) -> Result<(), Halt>
    ensures { (g : Given) (t : Table) (place : Place) →
        Acts g (Do (Set (machine.Element (variable_of (names_in g) array) key.now at_name) place value)) goes_on
        (store.old, t) result (store.new, t) }
{
    at(at_name, store.put(array, key, value))
}
