// Variables of the whole script.
ghost use Rattle.std.specs.Prelude.{[], ◌≡◌, ℤ, pos, Some, Ok, true, false, length, unwrap_or};
ghost use Rattle.std.specs.Prelude.{IfOk, IfErr, OnOk, IsOkUnless};
ghost use Rattle.std.specs.Fmt.{decimal};
ghost use Rattle.std.specs.Option.{option_copied};
ghost use Rattle.awk_numbers.specs.declared.number.Number.TheVariants.{Whole};
ghost use Rattle.awk_text.specs.Arithmetic.{add};
ghost use Rattle.awk_lib.specs.Arrays.{element, without};
ghost use Rattle.awk_machine.specs.Begins.{first_value};
ghost use Rattle.awk_store.specs.Changes.{Adds};
ghost use Rattle.awk_store.specs.Filled.{Fills};

use crate::filling::{counted, fill_with};
use awk_hash::Seed;
use awk_lib::array::Array;
use awk_numbers::number::{Number, Numbers};
use awk_program::GlobalName;
use awk_text::arithmetic::add;
use awk_text::fault::Fault;
use awk_text::octets::Octets;
use awk_text::value::Value;
use std::alloc::Global;
use std::mem;

/// What a variable of the whole script holds.
#[derive(Drop)]
pub enum Cell {
    Value(Value),
    Array(Array<Value>),
}

impl Cell {
    ghost use Rattle.awk_store.specs.Kept.{scalar, listed};
    ghost use Rattle.awk_store.specs.Changes.{first_cell, given_value, given_array, Adds, Puts, PutsNot};

    /// A variable as it is when a run begins.
    ///
    /// Fails with `Fault::Memory` alone, where memory is refused.
    pub(crate) fn first(alloc: Global, seed: Seed, name: &GlobalName) -> Result<Cell, Fault>
        ensures ok { IfOk result (λ cell. cell ≡ first_cell name.now) }
        ensures err { IsOkUnless result Fault.Memory }
    {
        if name.is_array {
            return Ok(Cell::Array(Array::with_seed(alloc, seed)));
        }
        Ok(Cell::Value(first_value(alloc, name.text.bytes())?))
    }

    /// The value, where it holds one.
    #[inline(always)]
    pub(crate) fn value(&self) -> Option<&Value>
        ensures { option_copied result ≡ scalar (Some self.now) }
    {
        match self {
            Cell::Value(value) => Some(value),
            Cell::Array(_) => None,
        }
    }

    /// The value once more, where it holds one: a long text is shared.
    ///
    /// Fails where memory is refused.
    #[inline(always)]
    pub(crate) fn share(&mut self, alloc: Global) -> Result<Value, Fault>
        ensures ok { IfOk result (λ x. x ≡ unwrap_or (scalar (Some self.old)) Value.Unset) }
        ensures same { self.new ≡ self.old }
    {
        match self {
            Cell::Value(value) => value.share(alloc),
            Cell::Array(_) => Ok(Value::Unset),
        }
    }

    /// The value of an element once more, where it is there.
    ///
    /// Fails where memory is refused.
    pub(crate) fn share_element(
        &mut self,
        alloc: Global,
        key: &[u8],
    ) -> Result<Option<Value>, Fault>
        ensures ok { IfOk result (λ x. x ≡ element (unwrap_or (listed (Some self.old)) []) key.now) }
        ensures same { self.new ≡ self.old }
    {
        match self {
            Cell::Value(_) => Ok(None),
            Cell::Array(array) => share_in(alloc, array, key),
        }
    }

    /// The array, where it holds one.
    pub(crate) fn array(&self) -> Option<&Array<Value>>
        ensures { option_copied result ≡ listed (Some self.now) }
    {
        match self {
            Cell::Value(_) => None,
            Cell::Array(array) => Some(array),
        }
    }

    /// Sets the value. An array stays as it is.
    #[inline(always)]
    pub(crate) fn set_value(&mut self, value: Value)
        ensures { self.new ≡ given_value value self.old }
    {
        if let Cell::Value(old) = self {
            *old = value;
        }
    }

    /// Adds 1 to the whole number that it holds, where it holds one and the sum is whole, and answers whether it did.
    #[inline(always)]
    pub(crate) fn add_one(&mut self, numbers: Numbers) -> bool
        ensures done { result ≡ true → (n : ℤ) × (m : ℤ) × (scalar (Some self.old) ≡ Some (Value.Num n))
            × (add numbers (Whole n) (Whole (pos 1)) ≡ Ok (Whole m))
            × (self.new ≡ given_value (Value.Num m) self.old) }
        ensures not_done { result ≡ false → self.new ≡ self.old }
    {
        match self {
            Cell::Value(value) => add_value(numbers, value, 1),
            Cell::Array(_) => false,
        }
    }

    /// Sets the value, and answers the one before. An array stays as it is, and has none.
    #[inline(always)]
    pub(crate) fn replace_value(&mut self, value: Value) -> Value
        ensures value { result ≡ unwrap_or (scalar (Some self.old)) Value.Unset }
        ensures after { self.new ≡ given_value value self.old }
    {
        match self {
            Cell::Value(old) => mem::replace(old, value),
            Cell::Array(_) => Value::Unset,
        }
    }

    /// Gives an element of the array a value. A value stays as it is.
    ///
    /// Fails as `Array::set` does; then nothing has changed.
    pub(crate) fn put(&mut self, key: &[u8], value: Value) -> Result<(), Fault>
        ensures ok { OnOk result
            (Puts (listed (Some self.old)) key.now value (λ new. self.new ≡ given_array new self.old)) }
        ensures err { IfErr result (λ e. (self.new ≡ self.old) × PutsNot (listed (Some self.old)) key.now value e) }
    {
        match self {
            Cell::Value(_) => Ok(()),
            Cell::Array(array) => array.set(key, value),
        }
    }

    /// Removes an element of an array, if it is there. A value stays as it is.
    pub(crate) fn remove(&mut self, key: &[u8])
        ensures { self.new ≡ given_array (without (unwrap_or (listed (Some self.old)) []) key.now) self.old }
    {
        match self {
            Cell::Value(_) => (),
            Cell::Array(elements) => elements.remove(key),
        }
    }

    /// Adds to the number that an element of the array holds, and answers whether it did.
    pub(crate) fn add_to(&mut self, numbers: Numbers, key: &[u8], by: i64) -> bool
        ensures done { result ≡ true →
            Adds numbers (listed (Some self.old)) key.now by (λ new. self.new ≡ given_array new self.old) }
        ensures not_done { result ≡ false → self.new ≡ self.old }
    {
        match self {
            Cell::Value(_) => false,
            Cell::Array(array) => add_in(numbers, array, key, by),
        }
    }

    /// The same of the element whose key is the digits of a number.
    pub(crate) fn put_number(&mut self, number: usize, value: Value) -> Result<(), Fault>
        ensures ok { OnOk result
            (Puts (listed (Some self.old)) (decimal number) value (λ new. self.new ≡ given_array new self.old)) }
        ensures err { IfErr result
            (λ e. (self.new ≡ self.old) × PutsNot (listed (Some self.old)) (decimal number) value e) }
    {
        match self {
            Cell::Value(_) => Ok(()),
            Cell::Array(array) => array.set_number(number, value),
        }
    }

    /// Adds to the number that the element holds whose key is the digits of a number, and answers whether it did.
    pub(crate) fn add_to_number(&mut self, numbers: Numbers, number: usize, by: i64) -> bool
        ensures done { result ≡ true →
            Adds numbers (listed (Some self.old)) (decimal number) by (λ new. self.new ≡ given_array new self.old) }
        ensures not_done { result ≡ false → self.new ≡ self.old }
    {
        match self {
            Cell::Value(_) => false,
            Cell::Array(array) => add_in_number(numbers, array, number, by),
        }
    }

    /// Fills the array that it holds with the parts, as `Store::fill` does. A value stays as it is.
    pub(crate) fn fill(&mut self, parts: Vec<Octets>) -> Result<i64, Fault>
        ensures count { IfOk result (λ n. n ≡ pos (length parts.items)) }
        ensures filled { Fills (listed (Some self.old)) parts.items result
            (λ new. self.new ≡ given_array new self.old) }
    {
        match self {
            Cell::Value(_) => counted(parts.as_slice()),
            Cell::Array(array) => fill_with(array, parts),
        }
    }

    /// Puts an array in place of the one that it holds, and answers that. A value stays as it is, and the answer is
    /// empty.
    pub(crate) fn replace_array(
        &mut self,
        alloc: Global,
        seed: Seed,
        array: Array<Value>,
    ) -> Array<Value>
        ensures value { result ≡ unwrap_or (listed (Some self.old)) [] }
        ensures after { self.new ≡ given_array array self.old }
    {
        match self {
            Cell::Value(_) => Array::with_seed(alloc, seed),
            Cell::Array(old) => mem::replace(old, array),
        }
    }
}

/// The value of an element once more, where it is there: a long text is shared.
///
/// Fails where memory is refused.
pub(crate) fn share_in(
    alloc: Global,
    elements: &mut Array<Value>,
    key: &[u8],
) -> Result<Option<Value>, Fault>
    ensures ok { IfOk result (λ x. x ≡ element elements.old key.now) }
    ensures same { elements.new ≡ elements.old }
{
    match elements.get_mut(key) {
        Some(value) => Ok(Some(value.share(alloc)?)),
        None => Ok(None),
    }
}

/// Adds to the number that an element holds, where it holds one, and answers whether it did.
pub(crate) fn add_in(numbers: Numbers, elements: &mut Array<Value>, key: &[u8], by: i64) -> bool
    ensures done { result ≡ true → Adds numbers (Some elements.old) key.now by (λ new. elements.new ≡ new) }
    ensures not_done { result ≡ false → elements.new ≡ elements.old }
{
    match elements.get_mut(key) {
        Some(value) => add_value(numbers, value, by),
        None => false,
    }
}

/// The same of the element whose key is the digits of a number.
pub(crate) fn add_in_number(
    numbers: Numbers,
    elements: &mut Array<Value>,
    number: usize,
    by: i64,
) -> bool
    ensures done { result ≡ true → Adds numbers (Some elements.old) (decimal number) by (λ new. elements.new ≡ new) }
    ensures not_done { result ≡ false → elements.new ≡ elements.old }
{
    match elements.get_number_mut(number) {
        Some(value) => add_value(numbers, value, by),
        None => false,
    }
}

/// Adds to the whole number that a value is, where it is one and the sum is whole, and answers whether it did.
#[inline(always)]
fn add_value(numbers: Numbers, value: &mut Value, by: i64) -> bool
    ensures done { result ≡ true → (n : ℤ) × (m : ℤ) × (value.old ≡ Value.Num n)
        × (add numbers (Whole n) (Whole by) ≡ Ok (Whole m)) × (value.new ≡ Value.Num m) }
    ensures not_done { result ≡ false → value.new ≡ value.old }
{
    let Value::Num(number) = value else {
        return false;
    };
    let Ok(Number::Whole(sum)) = add(numbers, Number::Whole(*number), Number::Whole(by)) else {
        return false;
    };
    *number = sum;
    true
}

/// A text as a value.
fn text(alloc: Global, text: &[u8]) -> Result<Value, Fault>
    ensures ok { IfOk result (λ value. value ≡ Value.Text text.now) }
    ensures err { IsOkUnless result Fault.Memory }
{
    Ok(Value::Text(Octets::of(alloc, text)?))
}

/// The value that a variable of this name has when a run begins.
fn first_value(alloc: Global, name: &[u8]) -> Result<Value, Fault>
    ensures ok { IfOk result (λ value. value ≡ first_value name.now) }
    ensures err { IsOkUnless result Fault.Memory }
{
    if name == b"CONVFMT".as_slice() {
        text(alloc, b"%.6g".as_slice())
    } else if name == b"FILENAME".as_slice() {
        Ok(Value::Input(Octets::new(Vec::new(alloc))))
    } else if name == b"FNR".as_slice() {
        Ok(Value::Num(0))
    } else if name == b"FS".as_slice() {
        text(alloc, b" ".as_slice())
    } else if name == b"NR".as_slice() {
        Ok(Value::Num(0))
    } else if name == b"OFMT".as_slice() {
        text(alloc, b"%.6g".as_slice())
    } else if name == b"OFS".as_slice() {
        text(alloc, b" ".as_slice())
    } else if name == b"ORS".as_slice() {
        text(alloc, b"\n".as_slice())
    } else if name == b"RLENGTH".as_slice() {
        Ok(Value::Num(-1))
    } else if name == b"RS".as_slice() {
        text(alloc, b"\n".as_slice())
    } else if name == b"RSTART".as_slice() {
        Ok(Value::Num(0))
    } else if name == b"SUBSEP".as_slice() {
        text(alloc, b"\x1c".as_slice())
    } else {
        Ok(Value::Unset)
    }
}
