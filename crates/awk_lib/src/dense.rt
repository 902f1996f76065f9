// The part of an array whose keys are small whole numbers.
ghost use Rattle.std.specs.Prelude.{◌≡◌, ℕ, ◌+◌, ◌<◌, ◌≤◌, [], ◌∷◌, ◌++◌, length, is_some, slice_get, slice_set};
ghost use Rattle.std.specs.Prelude.{vec_len, Some, None, IfSome, OnOk, OnErr, IsOkUnless};
ghost use Rattle.std.specs.Fmt.{decimal};
ghost use Rattle.awk_lib.specs.Dense.{most_places, dense_rows, IsOutside};
ghost use Rattle.awk_lib.specs.Numbering.{keyed, listed, texts};

use crate::key::Key;
use crate::slot::slot_of;
use awk_text::fault::Fault;
use itoa::Buffer;
use std::alloc::Global;

/// A value with the number of its element. Elements are numbered as they are added.
#[derive(Drop)]
pub(crate) struct Numbered<V> {
    pub(crate) number: u64,
    pub(crate) value: V,
}

/// The value of the key that is the digits of a number lies at the place of that number, so that
/// nothing is hashed and no key is kept. A place may be empty.
#[derive(Drop)]
pub(crate) struct Dense<V> {
    pub(crate) places: Vec<Option<Numbered<V>>>,
}

impl<V> Dense<V> {
    ghost use Rattle.std.specs.Borrow.{sem};
    ghost use Rattle.awk_lib.specs.Places.{lends_place};

    /// No places. Takes no memory.
    pub(crate) fn new(alloc: Global) -> Dense<V>
        ensures { result.places.items ≡ [] }
    {
        Dense {
            places: Vec::new(alloc),
        }
    }

    /// How many places there are.
    pub(crate) fn len(&self) -> usize
        ensures { result ≡ vec_len self.now.places }
    {
        self.places.len()
    }

    /// The place of a key, if there is one for it. Takes no memory.
    pub(crate) fn slot(&self, key: &[u8]) -> Option<usize>
        requires { vec_len self.now.places ≤ most_places }
        ensures some { IfSome result (λ k. (key.now ≡ decimal k) × (k < vec_len self.now.places)) }
        ensures none { result ≡ None → IsOutside (length self.now.places.items) key.now }
    {
        let k = slot_of(key)?;
        if k < self.places.len() { Some(k) } else { None }
    }

    /// Whether a value lies at the place.
    pub(crate) fn is_filled(&self, k: usize) -> bool
        requires { k < vec_len self.now.places }
        ensures { (p : _) × (slice_get self.now.places.items k ≡ Some p) × (result ≡ is_some p) }
    {
        self.places[k].is_some()
    }

    /// The value at the place.
    pub(crate) fn value(&self, k: usize) -> &V
        requires { (x : _) × (slice_get self.now.places.items k ≡ Some (Some x)) }
        ensures { (x : _) → slice_get self.now.places.items k ≡ Some (Some x) → result.now ≡ x.value }
    {
        match &self.places[k] {
            Some(element) => &element.value,
            None => unreachable!(),
        }
    }

    /// The value at the place, to write. Takes no memory.
    pub(crate) fn value_mut(&mut self, k: usize) -> &mut V
        requires { (x : _) × (slice_get self.old.places.items k ≡ Some (Some x)) }
        ensures* writes_back { sem 𝓛 (lends_place V.row self.entry k result) }
        ensures value { (x : _) → slice_get self.old.places.items k ≡ Some (Some x) → result.now ≡ x.value }
    {
        let place = &mut self.places[k];
        match place.as_mut() {
            Some(element) => &mut element.value,
            None => unreachable!(),
        }
    }

    /// Makes empty places, until there are so many.
    ///
    /// Fails with `Fault::Memory` alone, where memory is refused; some may then have been made.
    pub(crate) fn pad(&mut self, len: usize) -> Result<(), Fault>
    where
        V: Drop,
        requires { vec_len self.old.places ≤ len }
        ensures rows { (j : ℕ) → dense_rows j self.new.places.items ≡ dense_rows j self.old.places.items }
        ensures ok { OnOk result (vec_len self.new.places ≡ len) }
        ensures at_least { vec_len self.old.places ≤ vec_len self.new.places }
        ensures at_most { vec_len self.new.places ≤ len }
        ensures err { IsOkUnless result Fault.Memory }
    {
        while self.places.len() < len {
            self.places.push(None)?;
        }
        Ok(())
    }

    /// Puts a value at one more place.
    ///
    /// Fails with `Fault::Memory` alone, where memory is refused; then nothing has changed.
    pub(crate) fn push(&mut self, number: u64, value: V) -> Result<(), Fault>
    where
        V: Drop,
        ensures ok { OnOk result
            (self.new.places.items ≡ self.old.places.items ++ Some (record { number = number; value = value }) ∷ []) }
        ensures err { OnErr result (self.new.places.items ≡ self.old.places.items) }
        ensures memory { IsOkUnless result Fault.Memory }
    {
        self.places.push(Some(Numbered { number, value }))?;
        Ok(())
    }

    /// Adds the keys as they lie.
    ///
    /// Fails with `Fault::Memory` alone, where memory is refused.
    pub(crate) fn push_texts(&self, alloc: Global, keys: &mut Vec<Key>) -> Result<(), Fault>
        ensures ok { OnOk result (keys.new.items ≡ keys.old.items ++ texts (dense_rows 0 self.now.places.items)) }
        ensures err { IsOkUnless result Fault.Memory }
    {
        let mut buffer = Buffer::new();
        for (k, place) in self.places.iter().enumerate() {
            let Some(_) = place else {
                continue;
            };
            let digits = buffer.format(k).as_bytes();
            keys.push(Key::of(alloc, digits)?)?;
        }
        Ok(())
    }

    /// Adds the keys, with the numbers of their elements, as they lie.
    ///
    /// Fails with `Fault::Memory` alone, where memory is refused.
    pub(crate) fn push_keys(
        &self,
        alloc: Global,
        keys: &mut Vec<Numbered<Key>>,
    ) -> Result<(), Fault>
        ensures ok { OnOk result
            (listed keys.new.items ≡ listed keys.old.items ++ keyed (dense_rows 0 self.now.places.items)) }
        ensures err { IsOkUnless result Fault.Memory }
    {
        let mut buffer = Buffer::new();
        for (k, place) in self.places.iter().enumerate() {
            let Some(element) = place else {
                continue;
            };
            let digits = buffer.format(k).as_bytes();
            keys.push(Numbered {
                number: element.number,
                value: Key::of(alloc, digits)?,
            })?;
        }
        Ok(())
    }
}

impl<V: Drop> Dense<V> {
    /// Puts a value at a place. Takes no memory.
    pub(crate) fn fill(&mut self, k: usize, number: u64, value: V)
        requires { k < vec_len self.old.places }
        ensures { self.new.places.items
            ≡ slice_set self.old.places.items k (Some (record { number = number; value = value })) }
    {
        self.places[k] = Some(Numbered { number, value });
    }

    /// Empties a place. Takes no memory.
    pub(crate) fn remove(&mut self, k: usize)
        requires { k < vec_len self.old.places }
        ensures { self.new.places.items ≡ slice_set self.old.places.items k None }
    {
        self.places[k] = None;
    }

    /// Removes all places. Takes no memory.
    pub(crate) fn clear(&mut self)
        ensures { self.new.places.items ≡ [] }
    {
        self.places.clear();
    }
}
