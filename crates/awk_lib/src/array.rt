// Arrays.
ghost use Rattle.std.specs.Prelude.{◌≡◌, ◌⊎◌, [], length, None, Some, Ok, Err, IfOk, IfErr, OnOk, IsOkUnless};
ghost use Rattle.std.specs.Option.{option_copied, option_copied_mut};
ghost use Rattle.std.specs.Fmt.{decimal};
ghost use Rattle.awk_lib.specs.Arrays.{element, has, put, with_element, without, keys};

use crate::elements::Elements;
use crate::filling::elements_of;
use crate::key::{Key, texts_of};
use awk_hash::Seed;
use awk_text::fault::Fault;
use awk_text::octets::Octets;
use awk_text::value::Value;
use std::alloc::Global;
use std::marker::Model;
use std::mem;

/// How many elements an array may have.
pub const MOST_ELEMENTS: usize = 1_000_000;

/// An array of a script: a value under each of its keys, in the order in which the keys were added.
/// Contracts see it as this list of pairs.
///
/// Each call takes about the same time however many elements there are, `keys` aside.
#[derive(Drop)]
pub struct Array<V> {
    elements: Elements<V>,
    next: u64,
    /// Whether the elements lie in the order of their numbers.
    settled: bool,
}

impl<V> Model for Array<V> {
    ghost use Rattle.awk_lib.specs.Arrays as arrays;
    ghost use Rattle.awk_lib.specs.Numbering.{shown};
    ghost use Rattle.awk_lib.specs.Kept.{rows_of, AreKept};

    ghost Value = { arrays.Array V };

    ghost view = { λ a. shown (rows_of a.elements) };

    ghost invariant = { λ a. AreKept a.settled a.next a.elements };
}

impl<V> Array<V> {
    ghost use Rattle.std.specs.Borrow.{sem};
    ghost use Rattle.awk_lib.specs.Lends.{lends_element};

    /// An empty array, which hashes keys by a fixed seed. Takes no memory.
    pub fn new(alloc: Global) -> Array<V>
        ensures { result ≡ [] }
    {
        Array::with_seed(alloc, Seed::of(0))
    }

    /// An empty array, which hashes keys by this seed: whoever doesn't know it can't pick keys that collide. Takes no
    /// memory.
    pub fn with_seed(alloc: Global, seed: Seed) -> Array<V>
        ensures { result ≡ [] }
    {
        Array {
            elements: Elements::new(alloc, seed),
            next: 0,
            settled: true,
        }
    }

    /// How many elements there are. Takes no memory.
    pub fn count(&self) -> usize
        ensures { result ≡ length self.now }
    {
        self.elements.count
    }

    /// Whether the key is there. Takes no memory.
    pub fn contains(&self, key: &[u8]) -> bool
        ensures { result ≡ has self.now key.now }
    {
        self.elements.find(key).is_some()
    }

    /// The value of the key. Takes no memory.
    pub fn get(&self, key: &[u8]) -> Option<&V>
        ensures { option_copied result ≡ element self.now key.now }
    {
        let place = self.elements.find(key)?;
        Some(self.elements.value(place))
    }

    /// The value of the key, to write. Where the value that is there is written again, the array
    /// stays as it is. Takes no memory.
    pub fn get_mut(&mut self, key: &[u8]) -> Option<&mut V>
        ensures* writes_back { sem 𝓛 (lends_element V.row self.entry key.now result) }
        ensures value { option_copied_mut result ≡ element self.old key.now }
        ensures same { (v : V) → element self.old key.now ≡ Some v → with_element self.old key.now v ≡ self.old }
    {
        let place = self.elements.find(key)?;
        Some(self.elements.value_mut(place))
    }

    /// The value of the key that is the digits of a number, as `get`. Takes no memory.
    pub fn get_number(&self, number: usize) -> Option<&V>
        ensures { option_copied result ≡ element self.now (decimal number) }
    {
        let place = self.elements.find_number(number)?;
        Some(self.elements.value(place))
    }

    /// The value of the key that is the digits of a number, to write, as `get_mut`. Takes no memory.
    pub fn get_number_mut(&mut self, number: usize) -> Option<&mut V>
        ensures* writes_back { sem 𝓛 (lends_element V.row self.entry (decimal number) result) }
        ensures value { option_copied_mut result ≡ element self.old (decimal number) }
        ensures same { (v : V) → element self.old (decimal number) ≡ Some v →
            with_element self.old (decimal number) v ≡ self.old }
    {
        let place = self.elements.find_number(number)?;
        Some(self.elements.value_mut(place))
    }
}

impl<V: Drop> Array<V> {
    /// Gives the key the value: in its place where the key is there, and else last.
    ///
    /// Fails with `Fault::TooManyElements` exactly where the key is new and there are `MOST_ELEMENTS`
    /// already, and with `Fault::Memory` where memory is refused; then nothing has changed.
    pub fn put(&mut self, key: Vec<u8>, value: V) -> Result<(), Fault>
        ensures ok { OnOk result (put self.old key.items value ≡ Ok self.new) }
        ensures err { IfErr result
            (λ e. (self.new ≡ self.old) × ((e ≡ Fault.Memory) ⊎ (put self.old key.items value ≡ Err e))) }
    {
        self.set(key.as_slice(), value)
    }

    /// Gives the key the value, as `put` does. The key is lent: it is copied where it is new.
    ///
    /// Fails as `put` does. Takes no memory where the key is there.
    pub fn set(&mut self, key: &[u8], value: V) -> Result<(), Fault>
        ensures ok { OnOk result (put self.old key.now value ≡ Ok self.new) }
        ensures err { IfErr result
            (λ e. (self.new ≡ self.old) × ((e ≡ Fault.Memory) ⊎ (put self.old key.now value ≡ Err e))) }
    {
        if let Some(old) = self.get_mut(key) {
            *old = value;
            return Ok(());
        }
        self.insert(key, value)
    }

    /// Gives the key that is the digits of a number the value, as `put` does.
    ///
    /// Fails as `put` does. Takes no memory where the key is there.
    pub fn set_number(&mut self, number: usize, value: V) -> Result<(), Fault>
        ensures ok { OnOk result (put self.old (decimal number) value ≡ Ok self.new) }
        ensures err { IfErr result
            (λ e. (self.new ≡ self.old) × ((e ≡ Fault.Memory) ⊎ (put self.old (decimal number) value ≡ Err e))) }
    {
        if let Some(old) = self.get_number_mut(number) {
            *old = value;
            return Ok(());
        }
        self.insert_number(number, value)
    }

    /// Adds a key that is not there. Fails as `put` does.
    fn insert(&mut self, key: &[u8], value: V) -> Result<(), Fault>
        requires { element self.old key.now ≡ None }
        ensures ok { OnOk result (put self.old key.now value ≡ Ok self.new) }
        ensures err { IfErr result
            (λ e. (self.new ≡ self.old) × ((e ≡ Fault.Memory) ⊎ (put self.old key.now value ≡ Err e))) }
    {
        if self.elements.count >= MOST_ELEMENTS {
            return Err(Fault::TooManyElements);
        }
        let Some(next) = self.next.checked_add(1) else {
            return Err(Fault::Memory);
        };
        let added = self.elements.add(key, self.next, value)?;
        self.next = next;
        self.settled &= added.is_last;
        Ok(())
    }

    /// Adds a key that is the digits of a number and is not there. Fails as `put` does.
    fn insert_number(&mut self, number: usize, value: V) -> Result<(), Fault>
        requires { element self.old (decimal number) ≡ None }
        ensures ok { OnOk result (put self.old (decimal number) value ≡ Ok self.new) }
        ensures err { IfErr result
            (λ e. (self.new ≡ self.old) × ((e ≡ Fault.Memory) ⊎ (put self.old (decimal number) value ≡ Err e))) }
    {
        if self.elements.count >= MOST_ELEMENTS {
            return Err(Fault::TooManyElements);
        }
        let Some(next) = self.next.checked_add(1) else {
            return Err(Fault::Memory);
        };
        let added = self.elements.add_number(number, self.next, value)?;
        self.next = next;
        self.settled &= added.is_last;
        Ok(())
    }

    /// Removes the key, if it is there. Takes no memory.
    pub fn remove(&mut self, key: &[u8])
        ensures { self.new ≡ without self.old key.now }
    {
        let Some(place) = self.elements.find(key) else {
            return;
        };
        self.elements.remove(place);
        if self.elements.count == 0 {
            self.clear();
        }
    }

    /// Removes all elements. Takes no memory.
    pub fn clear(&mut self)
        ensures { self.new ≡ [] }
    {
        self.elements.clear();
        self.next = 0;
        self.settled = true;
    }

    /// The texts of the keys, in the order in which they were added.
    ///
    /// Fails with `Fault::Memory` alone, where memory is refused.
    pub fn keys(&mut self) -> Result<Vec<Octets>, Fault>
        ensures ok { IfOk result (λ texts. texts.items ≡ keys self.old) }
        ensures err { IsOkUnless result Fault.Memory }
        ensures same { self.new ≡ self.old }
    {
        texts_of(self.key_list()?)
    }

    /// The keys, in the order in which they were added. Short ones lie in the list itself, so it takes
    /// memory once for all of them.
    ///
    /// Fails with `Fault::Memory` alone, where memory is refused.
    pub fn key_list(&mut self) -> Result<Vec<Key>, Fault>
        ensures ok { IfOk result (λ texts. texts.items ≡ keys self.old) }
        ensures err { IsOkUnless result Fault.Memory }
        ensures same { self.new ≡ self.old }
    {
        if self.settled {
            return self.elements.keys();
        }
        if self.elements.dense.len() > 0 {
            return self.elements.sorted_keys();
        }
        self.elements.settle()?;
        self.settled = true;
        self.elements.keys()
    }
}

impl Array<Value> {
    ghost use Rattle.std.specs.Prelude.{◌<◌, ◌≤◌};
    ghost use Rattle.awk_lib.specs.Arrays.{most_elements};
    ghost use Rattle.awk_lib.specs.Parts.{texts_from};

    /// Puts the texts, as values from outside, in place of all elements, under the keys 1, 2 and so on.
    ///
    /// Fails with `Fault::TooManyElements` exactly where there are more than `MOST_ELEMENTS`, and then nothing has
    /// changed, and with `Fault::Memory` where memory is refused.
    pub fn fill(&mut self, parts: Vec<Octets>) -> Result<(), Fault>
        ensures ok { OnOk result (self.new ≡ texts_from 1 parts.items) }
        ensures fits { OnOk result (length parts.items ≤ most_elements) }
        ensures err { IfErr result (λ e. (e ≡ Fault.Memory)
            ⊎ ((e ≡ Fault.TooManyElements) × (most_elements < length parts.items) × (self.new ≡ self.old))) }
    {
        if MOST_ELEMENTS < parts.len() {
            return Err(Fault::TooManyElements);
        }
        let alloc = *parts.allocator();
        let count = parts.len() as u64;
        let seed = self.elements.seed();
        let old = mem::replace(self, Array::with_seed(alloc, seed));
        let elements = elements_of(alloc, seed, old.elements.into_room(), parts)?;
        *self = Array {
            elements,
            next: count,
            settled: true,
        };
        Ok(())
    }
}
