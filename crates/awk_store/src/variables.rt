// Variables.
ghost use Rattle.awk_machine.specs.Pieces as machine;
ghost use Rattle.awk_machine.specs.Pieces.{Do, Get, Set, give};
ghost use Rattle.awk_machine.specs.State.{Given};
ghost use Rattle.awk_numbers.specs.declared.number.Number.{Number as Num};
ghost use Rattle.awk_numbers.specs.declared.number.Number.TheVariants.{Whole};
ghost use Rattle.awk_program.specs.Slots.{slot_of};
ghost use Rattle.awk_program.specs.View.{variable_of};
ghost use Rattle.awk_store.specs.Acts.{Acts};
ghost use Rattle.awk_store.specs.Changes.{change_at, counted, given_value, with_own, with_value};
ghost use Rattle.awk_store.specs.Kept as kept;
ghost use Rattle.awk_store.specs.Kept.{bound_scalar, is_nf, own_text, own_value, scalar, value, value_at};
ghost use Rattle.awk_store.specs.Wholes.{names_in};
ghost use Rattle.awk_streams.specs.Tables.{Table};
ghost use Rattle.awk_streams.specs.Tasks.{goes_on};
ghost use Rattle.awk_text.specs.Arithmetic.{add as sum};
ghost use Rattle.awk_text.specs.Values.{of_number, text_of};
ghost use Rattle.std.specs.Option.{option_copied};
ghost use Rattle.std.specs.Prelude.{Err, IfErr, IfOk, IfSome, Ok, OnOk, false, pos, slice_get, slice_set, true};
ghost use Rattle.std.specs.Prelude.{unwrap_or, ℤ, ◌≡◌};

use crate::cell::Cell;
use crate::frame::Bound;
use crate::numbers::whole_number;
use crate::store::Store;
use awk_numbers::number::{Number, Numbers};
use awk_program::{Own, Variable};
use awk_streams::halt::{Halt, at};
use awk_text::arithmetic::add;
use awk_text::buffer::Buffer;
use awk_text::fault::Fault;
use awk_text::place::Place;
use awk_text::value::{Value, number_of, text_in};
use std::alloc::Global;
use std::mem;

/// The value at a slot. There is none in an array, nor where the slot is none.
#[inline(always)]
fn value_at(cells: &[Cell], slot: usize) -> Option<&Value>
    ensures { option_copied result ≡ scalar (slice_get cells.now slot) }
{
    cells.get(slot)?.value()
}

/// The value of a parameter. There is none in an array, nor where the place is none.
#[inline(always)]
fn bound_value(frame: &[Bound], place: usize) -> Option<&Value>
    ensures { option_copied result ≡ bound_scalar (slice_get frame.now place) }
{
    match frame.get(place) {
        Some(Bound::Scalar(value)) => Some(value),
        Some(Bound::Handed(_)) | None => None,
    }
}

/// The value at a slot once more: a long text is shared.
#[inline(always)]
fn share_at(alloc: Global, cells: &mut Vec<Cell>, slot: usize) -> Result<Value, Fault>
    ensures ok { IfOk result (λ x. x ≡ value_at cells.old.items slot) }
    ensures same { cells.new.items ≡ cells.old.items }
{
    match cells.get_mut(slot) {
        Some(cell) => cell.share(alloc),
        None => Ok(Value::Unset),
    }
}

/// The value of a parameter once more: a long text is shared.
#[inline(always)]
fn share_bound(alloc: Global, frame: &mut Vec<Bound>, place: usize) -> Result<Value, Fault>
    ensures ok { IfOk result (λ x. x ≡ unwrap_or (bound_scalar (slice_get frame.old.items place)) Value.Unset) }
    ensures same { frame.new.items ≡ frame.old.items }
{
    match frame.get_mut(place) {
        Some(bound) => bound.share(alloc),
        None => Ok(Value::Unset),
    }
}

/// The text of one of awk's own variables.
pub(crate) fn own_text<'a>(cells: &'a [Cell], name: Own, buffer: &'a mut Buffer) -> &'a [u8]
    ensures { result.now ≡ text_of (value_at cells.now (slot_of name)) }
{
    match value_at(cells, name.slot() as usize) {
        Some(value) => text_in(value, buffer),
        None => &[],
    }
}

/// The text of one of awk's own variables, where it holds a text.
#[inline(always)]
pub(crate) fn own_bytes(cells: &[Cell], name: Own) -> Option<&[u8]>
    ensures { IfSome result (λ text. text.now ≡ text_of (value_at cells.now (slot_of name))) }
{
    match value_at(cells, name.slot() as usize)? {
        Value::Text(text) | Value::Input(text) => Some(text.bytes()),
        Value::Unset | Value::Num(_) | Value::Real(_) => None,
    }
}

/// Adds 1 to the whole number at a slot, where one is there and the sum is whole, and answers whether it did.
#[inline(always)]
fn add_one(numbers: Numbers, cells: &mut Vec<Cell>, slot: usize) -> bool
    ensures done { result ≡ true → (n : ℤ) × (m : ℤ) × (value_at cells.old.items slot ≡ Value.Num n)
        × (sum numbers (Whole n) (Whole (pos 1)) ≡ Ok (Whole m))
        × (cells.new.items ≡ change_at (given_value (Value.Num m)) cells.old.items slot) }
    ensures not_done { result ≡ false → cells.new.items ≡ cells.old.items }
{
    match cells.get_mut(slot) {
        Some(cell) => cell.add_one(numbers),
        None => false,
    }
}

/// Sets the value at a slot. An array stays as it is.
#[inline(always)]
fn set_value(cells: &mut Vec<Cell>, slot: usize, value: Value)
    ensures { cells.new.items ≡ change_at (given_value value) cells.old.items slot }
{
    match cells.get_mut(slot) {
        Some(cell) => cell.set_value(value),
        None => (),
    }
}

/// Sets a parameter to a value.
#[inline(always)]
fn set_bound(frame: &mut Vec<Bound>, place: usize, value: Value)
    ensures { frame.new.items ≡ slice_set frame.old.items place (Bound.Scalar value) }
{
    if place < frame.len() {
        frame[place] = Bound::Scalar(value);
    }
}

/// Sets the value at a slot, and answers the one before. An array stays as it is.
#[inline(always)]
fn replace_value(cells: &mut Vec<Cell>, slot: usize, value: Value) -> Value
    ensures value { result ≡ value_at cells.old.items slot }
    ensures after { cells.new.items ≡ change_at (given_value value) cells.old.items slot }
{
    match cells.get_mut(slot) {
        Some(cell) => cell.replace_value(value),
        None => Value::Unset,
    }
}

/// Sets a parameter to a value, and answers the one before.
fn replace_bound(frame: &mut Vec<Bound>, place: usize, value: Value) -> Value
    ensures value { result ≡ unwrap_or (bound_scalar (slice_get frame.old.items place)) Value.Unset }
    ensures after { frame.new.items ≡ slice_set frame.old.items place (Bound.Scalar value) }
{
    if place < frame.len() {
        return mem::replace(&mut frame[place], Bound::Scalar(value)).into_value();
    }
    Value::Unset
}

/// Whether a variable is NF, which is no variable but a property of the record.
#[inline(always)]
pub fn is_nf(variable: Variable) -> bool
    ensures { result ≡ is_nf variable }
{
    match variable {
        Variable::Global(slot) => slot == Own::Nf.slot(),
        Variable::Parameter(_) => false,
    }
}

impl Store {
    /// The value of a variable: none stands for one that is unset. Takes no memory.
    #[inline(always)]
    pub fn value(&self, variable: Variable) -> Option<&Value>
        ensures { unwrap_or (option_copied result) Value.Unset ≡ value self.now variable }
    {
        match variable {
            Variable::Global(slot) => value_at(self.cells.as_slice(), slot as usize),
            Variable::Parameter(place) => bound_value(self.frame.as_slice(), place as usize),
        }
    }

    /// The value of a variable once more, as `value` lends it: a long text is not copied but shared.
    ///
    /// Fails where memory is refused.
    #[inline(always)]
    pub fn share(&mut self, variable: Variable) -> Result<Value, Fault>
        ensures ok { IfOk result (λ x. x ≡ value self.old variable) }
        ensures same { self.new ≡ self.old }
    {
        match variable {
            Variable::Global(slot) => share_at(self.alloc, &mut self.cells, slot as usize),
            Variable::Parameter(place) => {
                share_bound(self.alloc, &mut self.frame, place as usize)
            }
        }
    }

    /// Sets a variable to a value. A variable that is an array, or none, stays as it is, but a parameter holds the
    /// value from now on. Takes no memory.
    #[inline(always)]
    pub fn set(&mut self, variable: Variable, value: Value)
        ensures { self.new ≡ with_value variable value self.old }
    {
        match variable {
            Variable::Global(slot) => set_value(&mut self.cells, slot as usize, value),
            Variable::Parameter(place) => set_bound(&mut self.frame, place as usize, value),
        }
    }

    /// Sets a variable to a value, as `set` does, and answers the value before. Takes no memory.
    ///
    /// So the room of a text that goes can be used again, and a value can be changed outside the store: taken out with
    /// an unset one in its place, and set again.
    #[inline(always)]
    pub fn replace_value(&mut self, variable: Variable, new: Value) -> Value
        ensures value { result ≡ value self.old variable }
        ensures after { self.new ≡ with_value variable new self.old }
    {
        match variable {
            Variable::Global(slot) => replace_value(&mut self.cells, slot as usize, new),
            Variable::Parameter(place) => replace_bound(&mut self.frame, place as usize, new),
        }
    }

    /// The value of one of awk's own variables: none stands for one that is unset. Takes no memory.
    #[inline(always)]
    pub fn own(&self, name: Own) -> Option<&Value>
        ensures { unwrap_or (option_copied result) Value.Unset ≡ own_value self.now name }
    {
        value_at(self.cells.as_slice(), name.slot() as usize)
    }

    /// The text of one of awk's own variables, where it holds a text. Takes no memory.
    #[inline(always)]
    pub fn own_bytes(&self, name: Own) -> Option<&[u8]>
        ensures { IfSome result (λ text. text.now ≡ own_text self.now name) }
    {
        own_bytes(self.cells.as_slice(), name)
    }

    /// The text of one of awk's own variables: a number's is written into the buffer. Takes no memory.
    pub fn own_text<'a>(&'a self, name: Own, buffer: &'a mut Buffer) -> &'a [u8]
        ensures { result.now ≡ own_text self.now name }
    {
        own_text(self.cells.as_slice(), name, buffer)
    }

    /// Sets one of awk's own variables. Takes no memory.
    #[inline(always)]
    pub fn set_own(&mut self, name: Own, value: Value)
        ensures { self.new ≡ with_own name value self.old }
    {
        set_value(&mut self.cells, name.slot() as usize, value);
    }

    /// Adds 1 to the number of a counter, as NR. Takes no memory.
    ///
    /// Fails with `Fault::OutOfRange` exactly where the number or the sum is out of range; then nothing has changed.
    #[inline(always)]
    pub fn count(&mut self, name: Own) -> Result<(), Fault>
        ensures ok { OnOk result
            ((n : Num) × (counted self.old.numbers (own_value self.old name) ≡ Ok n)
            × (self.new ≡ with_own name (of_number n) self.old)) }
        ensures err { IfErr result
            (λ e. (counted self.old.numbers (own_value self.old name) ≡ Err e) × (self.new ≡ self.old)) }
    {
        if add_one(self.numbers, &mut self.cells, name.slot() as usize) {
            return Ok(());
        }
        self.count_any(name)
    }

    /// As `count`. It stands out of line, since a counter mostly holds a number.
    #[inline(never)]
    fn count_any(&mut self, name: Own) -> Result<(), Fault>
        ensures ok { OnOk result
            ((n : Num) × (counted self.old.numbers (own_value self.old name) ≡ Ok n)
            × (self.new ≡ with_own name (of_number n) self.old)) }
        ensures err { IfErr result
            (λ e. (counted self.old.numbers (own_value self.old name) ≡ Err e) × (self.new ≡ self.old)) }
    {
        let number = match self.own(name) {
            Some(value) => number_of(self.numbers, value)?,
            None => Number::Whole(0),
        };
        let sum = add(self.numbers, number, Number::Whole(1))?;
        self.set_own(name, Value::of(sum));
        Ok(())
    }
}

/// NF, as a value.
fn count_fields(store: &mut Store) -> Result<Value, Halt>
    ensures { (g : Given) (t : Table) (x : Variable) → kept.is_nf x ≡ true →
        Acts g (Do (Get (machine.Variable (variable_of (names_in g) x)))) give (store.old, t) result (store.new, t) }
{
    let Ok(count) = store.field_count() else {
        return Err(Halt::Memory);
    };
    Ok(Value::Num(count))
}

/// Reads a variable. Of NF the fields are counted, so the record is split where it was not.
pub fn read_variable(store: &mut Store, variable: Variable) -> Result<Value, Halt>
    ensures { (g : Given) (t : Table) →
        Acts g (Do (Get (machine.Variable (variable_of (names_in g) variable)))) give (store.old, t) result
        (store.new, t) }
{
    if is_nf(variable) {
        return count_fields(store);
    }
    let Ok(value) = store.share(variable) else {
        return Err(Halt::Memory);
    };
    Ok(value)
}

/// Sets NF to the number of a value, without its fraction.
fn set_count(store: &mut Store, place: Place, value: &Value) -> Result<(), Halt>
    ensures { (g : Given) (t : Table) (x : Variable) → kept.is_nf x ≡ true →
        Acts g (Do (Set (machine.Variable (variable_of (names_in g) x)) place value.now)) goes_on (store.old, t) result
        (store.new, t) }
{
    let count = at(place, whole_number(store.numbers(), value))?;
    at(place, store.set_field_count(count))
}

/// What the text of a value lay in: none where it was a number or unset.
fn into_room(alloc: Global, value: Value) -> Vec<u8> {
    match value {
        Value::Text(text) | Value::Input(text) => text.into_room(alloc),
        Value::Unset | Value::Num(_) | Value::Real(_) => Vec::new(alloc),
    }
}

/// Sets a variable, and answers what the text that it held lay in.
#[inline(always)]
pub fn replace_variable(
    alloc: Global,
    store: &mut Store,
    variable: Variable,
    place: Place,
    value: Value,
) -> Result<Vec<u8>, Halt>
    ensures { (g : Given) (t : Table) →
        Acts g (Do (Set (machine.Variable (variable_of (names_in g) variable)) place value)) goes_on (store.old, t)
        result (store.new, t) }
{
    if is_nf(variable) {
        set_count(store, place, &value)?;
        return Ok(Vec::new(alloc));
    }
    let before = store.replace_value(variable, value);
    Ok(into_room(alloc, before))
}

/// Sets a variable.
#[inline(always)]
pub fn set_variable(
    store: &mut Store,
    variable: Variable,
    place: Place,
    value: Value,
) -> Result<(), Halt>
    ensures { (g : Given) (t : Table) →
        Acts g (Do (Set (machine.Variable (variable_of (names_in g) variable)) place value)) goes_on (store.old, t)
        result (store.new, t) }
{
    if is_nf(variable) {
        return set_count(store, place, &value);
    }
    store.set(variable, value);
    Ok(())
}
