// The record and its fields.
ghost use Rattle.awk_machine.specs.Pieces as machine;
ghost use Rattle.awk_machine.specs.Pieces.{Do, Get, Set, give};
ghost use Rattle.awk_machine.specs.State.{Given};
ghost use Rattle.awk_store.specs.Acts.{Acts};
ghost use Rattle.awk_store.specs.Kept.{by_convfmt};
ghost use Rattle.awk_streams.specs.Tables.{Table};
ghost use Rattle.awk_streams.specs.Tasks.{goes_on};
ghost use Rattle.awk_text.specs.Values.{text_of};
ghost use Rattle.awk_text.specs.declared.value.Value.TheVariants as v;
ghost use Rattle.std.specs.Prelude.{Ok, ◌≡◌};

use crate::Store;
use crate::shown::{as_text, shown_number};
use crate::values::into_text;
use awk_streams::halt::{Halt, at};
use awk_text::octets::Octets;
use awk_text::place::Place;
use awk_text::value::Value;
use std::alloc::Global;

/// Reads a field by its number: 0 is the whole record. The record is split where it was not.
pub fn read_field(store: &mut Store, number: u16) -> Result<Value, Halt>
    ensures { (g : Given) (t : Table) →
        Acts g (Do (Get (machine.Field number))) give (store.old, t) result (store.new, t) }
{
    let Ok(value) = store.field(i64::from(number)) else {
        return Err(Halt::Memory);
    };
    Ok(value)
}

/// Sets the whole record to the text of a value, which CONVFMT made if it is a number with a fraction; its fields go by
/// FS and RS as they are now.
#[inline(always)]
pub fn set_record(store: &mut Store, place: Place, text: Octets) -> Result<(), Halt>
    ensures { (g : Given) (t : Table) (x shown : Value) → by_convfmt store.old x ≡ Ok shown → text_of shown ≡ text →
        Acts g (Do (Set (machine.Field 0) place x)) goes_on (store.old, t) result (store.new, t) }
{
    at(place, store.set_whole(text))
}

/// Sets the whole record to a value.
fn set_whole(alloc: Global, store: &mut Store, place: Place, value: Value) -> Result<(), Halt>
    ensures { (g : Given) (t : Table) →
        Acts g (Do (Set (machine.Field 0) place value)) goes_on (store.old, t) result (store.new, t) }
{
    let shown = at(place, as_text(alloc, store, value))?;
    let Ok(text) = into_text(alloc, shown) else {
        return Err(Halt::Memory);
    };
    set_record(store, place, text)
}

/// Sets a field that is not the whole record to a number with a fraction, of which CONVFMT makes the record's part.
fn set_number(
    alloc: Global,
    store: &mut Store,
    number: u16,
    place: Place,
    value: f64,
) -> Result<(), Halt>
    requires { number ≡ 0 → ⊥ }
    ensures { (g : Given) (t : Table) →
        Acts g (Do (Set (machine.Field number) place (v.Real value))) goes_on (store.old, t) result (store.new, t) }
{
    match at(place, shown_number(alloc, store, value))? {
        Some(text) => at(place, store.set_shown(i64::from(number), value, text)),
        None => at(
            place,
            store.set_field(i64::from(number), Value::Real(value)),
        ),
    }
}

/// Sets a field by its number: 0 is the whole record.
pub fn set_field(
    alloc: Global,
    store: &mut Store,
    number: u16,
    place: Place,
    value: Value,
) -> Result<(), Halt>
    ensures { (g : Given) (t : Table) →
        Acts g (Do (Set (machine.Field number) place value)) goes_on (store.old, t) result (store.new, t) }
{
    if number == 0 {
        return set_whole(alloc, store, place, value);
    }
    // A value is moved no more often than it has to be.
    if let Value::Real(real) = &value {
        return set_number(alloc, store, number, place, *real);
    }
    at(place, store.set_field(i64::from(number), value))
}
