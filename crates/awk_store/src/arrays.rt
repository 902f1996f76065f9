// Arrays.
ghost use Rattle.std.specs.Prelude.{[], ◌≡◌, ◌⊎◌, ◌≤◌, true, false, Ok, Some, pos, slice_get, slice_set, unwrap_or};
ghost use Rattle.std.specs.Prelude.{length, IfOk, IfErr, OnOk, IsOkUnless};
ghost use Rattle.std.specs.Fmt.{decimal};
ghost use Rattle.std.specs.Option.{option_copied};
ghost use Rattle.awk_fields.specs.Rows.{IsValueAt};
ghost use Rattle.awk_text.specs.Limits.{most_bytes};
ghost use Rattle.awk_text.specs.Values.{text_of};
ghost use Rattle.awk_lib.specs.Arrays.{element, has, keys, put, without};
ghost use Rattle.awk_machine.specs.State as state;
ghost use Rattle.awk_store.specs.Kept.{array, array_at, array_found, bound_reference, listed, reference};
ghost use Rattle.awk_store.specs.Filled.{Fills};
ghost use Rattle.awk_store.specs.Changes.{change_at, given_array, with_array, Adds, Puts, PutsNot};

use crate::cell::{Cell, add_in, add_in_number, share_in};
use crate::filling::{counted, fill_with};
use crate::frame::{Bound, Reference};
use crate::store::Store;
use awk_hash::Seed;
use awk_lib::array::Array;
use awk_lib::key::Key;
use awk_numbers::number::Numbers;
use awk_program::Variable;
use awk_text::buffer::Buffer;
use awk_text::fault::Fault;
use awk_text::octets::Octets;
use awk_text::texts::MOST_BYTES;
use awk_text::value::Value;
use std::alloc::Global;
use std::mem;

fn handed(frame: &[Bound], place: usize) -> Reference
    ensures { result ≡ bound_reference (slice_get frame.now place) }
{
    match frame.get(place) {
        Some(Bound::Handed(reference)) => *reference,
        Some(Bound::Scalar(_)) | None => Reference::Nothing,
    }
}

fn found(cells: &[Cell], slot: usize) -> Option<&Array<Value>>
    ensures { option_copied result ≡ listed (slice_get cells.now slot) }
{
    match cells.get(slot) {
        Some(Cell::Array(array)) => Some(array),
        Some(Cell::Value(_)) | None => None,
    }
}

/// Puts an array in place of the one at a slot, and answers that, or an empty one where there is no array.
fn replace_in_cells(
    alloc: Global,
    seed: Seed,
    cells: &mut Vec<Cell>,
    slot: usize,
    array: Array<Value>,
) -> Array<Value>
    ensures value { result ≡ unwrap_or (listed (slice_get cells.old.items slot)) [] }
    ensures after { cells.new.items ≡ change_at (given_array array) cells.old.items slot }
{
    match cells.get_mut(slot) {
        Some(cell) => cell.replace_array(alloc, seed, array),
        None => Array::with_seed(alloc, seed),
    }
}

/// The same among the arrays that calls have made.
fn replace_made(
    alloc: Global,
    seed: Seed,
    made: &mut Vec<Array<Value>>,
    place: usize,
    array: Array<Value>,
) -> Array<Value>
    ensures value { result ≡ unwrap_or (slice_get made.old.items place) [] }
    ensures after { made.new.items ≡ slice_set made.old.items place array }
{
    if place < made.len() {
        return mem::replace(&mut made[place], array);
    }
    Array::with_seed(alloc, seed)
}

/// Fills the array at a slot with the parts. Where there is no array nothing changes.
fn fill_in_cells(cells: &mut Vec<Cell>, slot: usize, parts: Vec<Octets>) -> Result<i64, Fault>
    ensures count { IfOk result (λ n. n ≡ pos (length parts.items)) }
    ensures filled { Fills (listed (slice_get cells.old.items slot)) parts.items result
        (λ new. cells.new.items ≡ change_at (given_array new) cells.old.items slot) }
{
    match cells.get_mut(slot) {
        Some(cell) => cell.fill(parts),
        None => counted(parts.as_slice()),
    }
}

/// The same among the arrays that calls have made.
fn fill_made(made: &mut Vec<Array<Value>>, place: usize, parts: Vec<Octets>) -> Result<i64, Fault>
    ensures count { IfOk result (λ n. n ≡ pos (length parts.items)) }
    ensures filled { Fills (slice_get made.old.items place) parts.items result
        (λ new. made.new.items ≡ slice_set made.old.items place new) }
{
    match made.get_mut(place) {
        Some(array) => fill_with(array, parts),
        None => counted(parts.as_slice()),
    }
}

/// The value of an element of the array at a slot once more, where it is there: a long text is shared.
fn share_in_cells(
    alloc: Global,
    cells: &mut Vec<Cell>,
    slot: usize,
    key: &[u8],
) -> Result<Option<Value>, Fault>
    ensures ok { IfOk result (λ x. x ≡ element (unwrap_or (listed (slice_get cells.old.items slot)) []) key.now) }
    ensures same { cells.new.items ≡ cells.old.items }
{
    match cells.get_mut(slot) {
        Some(cell) => cell.share_element(alloc, key),
        None => Ok(None),
    }
}

/// The same among the arrays that calls have made.
fn share_made(
    alloc: Global,
    made: &mut Vec<Array<Value>>,
    place: usize,
    key: &[u8],
) -> Result<Option<Value>, Fault>
    ensures ok { IfOk result (λ x. x ≡ element (unwrap_or (slice_get made.old.items place) []) key.now) }
    ensures same { made.new.items ≡ made.old.items }
{
    match made.get_mut(place) {
        Some(elements) => share_in(alloc, elements, key),
        None => Ok(None),
    }
}

/// Gives an element of the array at a slot a value. Where there is no array nothing changes.
fn put_in_cells(cells: &mut Vec<Cell>, slot: usize, key: &[u8], value: Value) -> Result<(), Fault>
    ensures ok { OnOk result
        (Puts (listed (slice_get cells.old.items slot)) key.now value
        (λ new. cells.new.items ≡ change_at (given_array new) cells.old.items slot)) }
    ensures err { IfErr result
        (λ e. (cells.new.items ≡ cells.old.items) × PutsNot (listed (slice_get cells.old.items slot)) key.now value e) }
{
    match cells.get_mut(slot) {
        Some(cell) => cell.put(key, value),
        None => Ok(()),
    }
}

/// Removes an element of the array at a slot, if it is there. Where there is no array nothing changes.
fn remove_in_cells(cells: &mut Vec<Cell>, slot: usize, key: &[u8])
    ensures { cells.new.items
        ≡ change_at (given_array (without (unwrap_or (listed (slice_get cells.old.items slot)) []) key.now))
        cells.old.items slot }
{
    match cells.get_mut(slot) {
        Some(cell) => cell.remove(key),
        None => (),
    }
}

/// The same among the arrays that calls have made.
fn remove_made(made: &mut Vec<Array<Value>>, place: usize, key: &[u8])
    ensures { made.new.items
        ≡ slice_set made.old.items place (without (unwrap_or (slice_get made.old.items place) []) key.now) }
{
    match made.get_mut(place) {
        Some(elements) => elements.remove(key),
        None => (),
    }
}

/// Adds to the number that an element of the array at a slot holds, where it holds one, and answers whether it did.
fn add_in_cells(numbers: Numbers, cells: &mut Vec<Cell>, slot: usize, key: &[u8], by: i64) -> bool
    ensures done { result ≡ true →
        Adds numbers (listed (slice_get cells.old.items slot)) key.now by
        (λ new. cells.new.items ≡ change_at (given_array new) cells.old.items slot) }
    ensures not_done { result ≡ false → cells.new.items ≡ cells.old.items }
{
    match cells.get_mut(slot) {
        Some(cell) => cell.add_to(numbers, key, by),
        None => false,
    }
}

/// The same among the arrays that calls have made.
fn add_in_made(
    numbers: Numbers,
    made: &mut Vec<Array<Value>>,
    place: usize,
    key: &[u8],
    by: i64,
) -> bool
    ensures done { result ≡ true →
        Adds numbers (slice_get made.old.items place) key.now by
        (λ new. made.new.items ≡ slice_set made.old.items place new) }
    ensures not_done { result ≡ false → made.new.items ≡ made.old.items }
{
    match made.get_mut(place) {
        Some(elements) => add_in(numbers, elements, key, by),
        None => false,
    }
}

/// The same among the arrays that calls have made.
fn put_made(
    made: &mut Vec<Array<Value>>,
    place: usize,
    key: &[u8],
    value: Value,
) -> Result<(), Fault>
    ensures ok { OnOk result
        (Puts (slice_get made.old.items place) key.now value
        (λ new. made.new.items ≡ slice_set made.old.items place new)) }
    ensures err { IfErr result
        (λ e. (made.new.items ≡ made.old.items) × PutsNot (slice_get made.old.items place) key.now value e) }
{
    match made.get_mut(place) {
        Some(array) => array.set(key, value),
        None => Ok(()),
    }
}

/// `put_in_cells`, of the element whose key is the digits of a number.
fn put_number_in_cells(
    cells: &mut Vec<Cell>,
    slot: usize,
    number: usize,
    value: Value,
) -> Result<(), Fault>
    ensures ok { OnOk result
        (Puts (listed (slice_get cells.old.items slot)) (decimal number) value
        (λ new. cells.new.items ≡ change_at (given_array new) cells.old.items slot)) }
    ensures err { IfErr result
        (λ e. (cells.new.items ≡ cells.old.items)
        × PutsNot (listed (slice_get cells.old.items slot)) (decimal number) value e) }
{
    match cells.get_mut(slot) {
        Some(cell) => cell.put_number(number, value),
        None => Ok(()),
    }
}

/// `put_made`, of the element whose key is the digits of a number.
fn put_number_made(
    made: &mut Vec<Array<Value>>,
    place: usize,
    number: usize,
    value: Value,
) -> Result<(), Fault>
    ensures ok { OnOk result
        (Puts (slice_get made.old.items place) (decimal number) value
        (λ new. made.new.items ≡ slice_set made.old.items place new)) }
    ensures err { IfErr result
        (λ e. (made.new.items ≡ made.old.items) × PutsNot (slice_get made.old.items place) (decimal number) value e) }
{
    match made.get_mut(place) {
        Some(array) => array.set_number(number, value),
        None => Ok(()),
    }
}

/// `add_in_cells`, of the element whose key is the digits of a number.
fn add_number_in_cells(
    numbers: Numbers,
    cells: &mut Vec<Cell>,
    slot: usize,
    number: usize,
    by: i64,
) -> bool
    ensures done { result ≡ true →
        Adds numbers (listed (slice_get cells.old.items slot)) (decimal number) by
        (λ new. cells.new.items ≡ change_at (given_array new) cells.old.items slot) }
    ensures not_done { result ≡ false → cells.new.items ≡ cells.old.items }
{
    match cells.get_mut(slot) {
        Some(cell) => cell.add_to_number(numbers, number, by),
        None => false,
    }
}

/// `add_in_made`, of the element whose key is the digits of a number.
fn add_number_in_made(
    numbers: Numbers,
    made: &mut Vec<Array<Value>>,
    place: usize,
    number: usize,
    by: i64,
) -> bool
    ensures done { result ≡ true →
        Adds numbers (slice_get made.old.items place) (decimal number) by
        (λ new. made.new.items ≡ slice_set made.old.items place new) }
    ensures not_done { result ≡ false → made.new.items ≡ made.old.items }
{
    match made.get_mut(place) {
        Some(elements) => add_in_number(numbers, elements, number, by),
        None => false,
    }
}

impl Store {
    /// Which array a variable is.
    pub fn reference(&self, variable: Variable) -> Reference
        ensures { result ≡ reference self.now variable }
    {
        match variable {
            Variable::Global(slot) => Reference::Shared(slot),
            Variable::Parameter(place) => handed(self.frame.as_slice(), place as usize),
        }
    }

    /// The array, where there is one. Takes no memory.
    pub fn array_at(&self, at: Reference) -> Option<&Array<Value>>
        ensures { option_copied result ≡ array_found self.now at }
    {
        match at {
            Reference::Shared(slot) => found(self.cells.as_slice(), slot as usize),
            Reference::Made(place) => self.made.get(place as usize),
            Reference::Nothing => None,
        }
    }

    /// Puts an array in place of another, and answers that. Where there is no array nothing changes, and the answer is
    /// empty. Takes no memory.
    ///
    /// So an array can be changed outside the store: taken out with an empty one in its place, and put back.
    pub fn replace(&mut self, at: Reference, array: Array<Value>) -> Array<Value>
        ensures value { result ≡ array_at self.old at }
        ensures after { self.new ≡ with_array at array self.old }
    {
        let (alloc, seed) = (self.alloc, self.seed);
        match at {
            Reference::Shared(slot) => replace_in_cells(
                alloc,
                seed,
                &mut self.cells,
                slot as usize,
                array,
            ),
            Reference::Made(place) => replace_made(
                alloc,
                seed,
                &mut self.made,
                place as usize,
                array,
            ),
            Reference::Nothing => Array::with_seed(alloc, seed),
        }
    }

    /// The value of an element, where it is there. Takes no memory.
    #[inline(always)]
    pub fn element(&self, name: Variable, key: &[u8]) -> Option<&Value>
        ensures { option_copied result ≡ element (array self.now name) key.now }
    {
        self.array_at(self.reference(name))?.get(key)
    }

    /// The value of the element whose key is the digits of a number, where it is there. Takes no memory.
    #[inline(always)]
    pub fn element_of_number(&self, name: Variable, number: usize) -> Option<&Value>
        ensures { option_copied result ≡ element (array self.now name) (decimal number) }
    {
        self.array_at(self.reference(name))?.get_number(number)
    }

    /// The value of an element once more, as `element` lends it: a long text is not copied but shared.
    ///
    /// Fails where memory is refused.
    pub fn share_element(&mut self, name: Variable, key: &[u8]) -> Result<Option<Value>, Fault>
        ensures ok { IfOk result (λ x. x ≡ element (array self.old name) key.now) }
        ensures same { self.new ≡ self.old }
    {
        match self.reference(name) {
            Reference::Shared(slot) => {
                share_in_cells(self.alloc, &mut self.cells, slot as usize, key)
            }
            Reference::Made(place) => {
                share_made(self.alloc, &mut self.made, place as usize, key)
            }
            Reference::Nothing => Ok(None),
        }
    }

    /// Whether the key is there. Takes no memory.
    pub fn contains(&self, name: Variable, key: &[u8]) -> bool
        ensures { result ≡ has (array self.now name) key.now }
    {
        match self.array_at(self.reference(name)) {
            Some(elements) => elements.contains(key),
            None => false,
        }
    }

    /// How many elements there are. Takes no memory.
    pub fn element_count(&self, name: Variable) -> usize
        ensures { result ≡ length (array self.now name) }
    {
        match self.array_at(self.reference(name)) {
            Some(elements) => elements.count(),
            None => 0,
        }
    }

    /// Gives an element a value: in its place where it is there, and else last. Where the variable is no array nothing
    /// changes, and the answer is `Ok`.
    ///
    /// Fails with `Fault::TooManyElements` exactly where the key is one too many, and with `Fault::Memory` where memory
    /// is refused; then nothing has changed.
    #[inline(always)]
    pub fn put(&mut self, name: Variable, key: &[u8], value: Value) -> Result<(), Fault>
        ensures ok { OnOk result
            ((new : state.Array) × (put (array self.old name) key.now value ≡ Ok new)
            × (self.new ≡ with_array (reference self.old name) new self.old)) }
        ensures err { IfErr result
            (λ e. (self.new ≡ self.old) × ((e ≡ Fault.Memory) ⊎ (put (array self.old name) key.now value ≡ Err e))) }
    {
        match self.reference(name) {
            Reference::Shared(slot) => put_in_cells(&mut self.cells, slot as usize, key, value),
            Reference::Made(place) => put_made(&mut self.made, place as usize, key, value),
            Reference::Nothing => Ok(()),
        }
    }

    /// Adds to the number that an element holds, and answers whether it did. Where the element is not there or holds no
    /// number, or the sum is out of range, nothing changes. Takes no memory.
    pub fn add_to(&mut self, name: Variable, key: &[u8], by: i64) -> bool
        ensures done { result ≡ true →
            Adds self.old.numbers (Some (array self.old name)) key.now by
            (λ new. self.new ≡ with_array (reference self.old name) new self.old) }
        ensures not_done { result ≡ false → self.new ≡ self.old }
    {
        let numbers = self.numbers;
        match self.reference(name) {
            Reference::Shared(slot) => add_in_cells(
                numbers,
                &mut self.cells,
                slot as usize,
                key,
                by,
            ),
            Reference::Made(place) => add_in_made(numbers, &mut self.made, place as usize, key, by),
            Reference::Nothing => false,
        }
    }

    /// As `put`, where the key is the digits of a number: they are made only where the element does not lie by its
    /// number.
    #[inline(always)]
    pub fn put_number(&mut self, name: Variable, number: usize, value: Value) -> Result<(), Fault>
        ensures ok { OnOk result
            ((new : state.Array) × (put (array self.old name) (decimal number) value ≡ Ok new)
            × (self.new ≡ with_array (reference self.old name) new self.old)) }
        ensures err { IfErr result
            (λ e. (self.new ≡ self.old)
            × ((e ≡ Fault.Memory) ⊎ (put (array self.old name) (decimal number) value ≡ Err e))) }
    {
        match self.reference(name) {
            Reference::Shared(slot) => {
                put_number_in_cells(&mut self.cells, slot as usize, number, value)
            }
            Reference::Made(place) => {
                put_number_made(&mut self.made, place as usize, number, value)
            }
            Reference::Nothing => Ok(()),
        }
    }

    /// As `add_to`, where the key is the digits of a number.
    pub fn add_to_number(&mut self, name: Variable, number: usize, by: i64) -> bool
        ensures done { result ≡ true →
            Adds self.old.numbers (Some (array self.old name)) (decimal number) by
            (λ new. self.new ≡ with_array (reference self.old name) new self.old) }
        ensures not_done { result ≡ false → self.new ≡ self.old }
    {
        let numbers = self.numbers;
        match self.reference(name) {
            Reference::Shared(slot) => {
                add_number_in_cells(numbers, &mut self.cells, slot as usize, number, by)
            }
            Reference::Made(place) => {
                add_number_in_made(numbers, &mut self.made, place as usize, number, by)
            }
            Reference::Nothing => false,
        }
    }

    /// `add_to`, where the key is the text of a field by its number, and the field is there without a change; see
    /// `lent_field`.
    pub fn add_at_field(&mut self, name: Variable, n: u16, by: i64) -> bool
        ensures done { result ≡ true → (key : Value) × IsValueAt self.old.row n key
            × (length (text_of key) ≤ most_bytes)
            × Adds self.old.numbers (Some (array self.old name)) (text_of key) by
            (λ new. self.new ≡ with_array (reference self.old name) new self.old) }
        ensures not_done { result ≡ false → self.new ≡ self.old }
    {
        let (numbers, at) = (self.numbers, self.reference(name));
        let Some(field) = self.row.lent(n) else {
            return false;
        };
        let mut digits = Buffer::new();
        let key = field.text(&mut digits);
        if MOST_BYTES < key.len() {
            return false;
        }
        match at {
            Reference::Shared(slot) => add_in_cells(
                numbers,
                &mut self.cells,
                slot as usize,
                key,
                by,
            ),
            Reference::Made(place) => add_in_made(numbers, &mut self.made, place as usize, key, by),
            Reference::Nothing => false,
        }
    }

    /// Fills the array with the parts, in place of what it holds, under the keys 1, 2 and so on; and answers how many
    /// there are. Where the variable is no array nothing changes.
    ///
    /// Fails with `Fault::TooManyElements` exactly where there are more than `MOST_ELEMENTS`, and then the array is as
    /// it was, and with `Fault::Memory` where memory is refused.
    pub fn fill(&mut self, name: Variable, parts: Vec<Octets>) -> Result<i64, Fault>
        ensures count { IfOk result (λ n. n ≡ pos (length parts.items)) }
        ensures filled { Fills (Some (array self.old name)) parts.items result
            (λ new. self.new ≡ with_array (reference self.old name) new self.old) }
    {
        match self.reference(name) {
            Reference::Shared(slot) => fill_in_cells(&mut self.cells, slot as usize, parts),
            Reference::Made(place) => fill_made(&mut self.made, place as usize, parts),
            Reference::Nothing => counted(parts.as_slice()),
        }
    }

    /// Removes an element, if it is there. Takes no memory.
    pub fn remove(&mut self, name: Variable, key: &[u8])
        ensures { self.new ≡ with_array (reference self.old name) (without (array self.old name) key.now) self.old }
    {
        match self.reference(name) {
            Reference::Shared(slot) => remove_in_cells(&mut self.cells, slot as usize, key),
            Reference::Made(place) => remove_made(&mut self.made, place as usize, key),
            Reference::Nothing => (),
        }
    }

    /// Removes all elements. An empty array takes the place of the old one, so that this takes no longer than to let go
    /// of what it holds. Takes no memory.
    pub fn clear(&mut self, name: Variable)
        ensures { self.new ≡ with_array (reference self.old name) [] self.old }
    {
        let at = self.reference(name);
        self.replace(at, Array::with_seed(self.alloc, self.seed));
    }

    /// The keys, in the order in which they were added.
    ///
    /// Fails with `Fault::Memory` alone, where memory is refused.
    pub fn keys(&mut self, name: Variable) -> Result<Vec<Key>, Fault>
        ensures ok { IfOk result (λ texts. texts.items ≡ keys (array self.old name)) }
        ensures err { IsOkUnless result Fault.Memory }
        ensures same { self.new ≡ self.old }
    {
        let at = self.reference(name);
        let mut elements = self.replace(at, Array::with_seed(self.alloc, self.seed));
        let result = elements.key_list();
        self.replace(at, elements);
        result
    }
}
