// The elements of an array.
ghost use Rattle.std.specs.Prelude.{◌≡◌, ℕ, ◌+◌, ◌<◌, ◌≤◌, ◌⊎◌, true, List, [], ◌∷◌, ◌++◌, map, length, is_ok, is_some};
ghost use Rattle.std.specs.Prelude.{if◌then◌else◌, None, Some, IfSome, IfOk, OnOk, OnErr, IsOkUnless, IsPermutation};
ghost use Rattle.std.specs.Prelude.{nat_eq, slice_get};
ghost use Rattle.std.specs.Fmt.{decimal};
ghost use Rattle.std.specs.List.{AllByRecursion, IsDistinct};
ghost use Rattle.std.specs.Map.{keys_of, lookup};
ghost use Rattle.std.specs.Option.{option_map_or};
ghost use Rattle.std.specs.Str.{bytes_eq};
ghost use Rattle.indexmap.specs.IndexMap.{set_value_at};
ghost use Rattle.awk_lib.specs.Arrays.{most_elements, keys};
ghost use Rattle.awk_lib.specs.Dense.{most_places, IsOutside};
ghost use Rattle.awk_lib.specs.Numbering.{keyed, listed, numbers, rows, shown, texts, AreRising};

use crate::dense::{Dense, Numbered};
use crate::key::{Key, Sought};
use crate::same::is_same;
use crate::slot::slot_of;
use crate::steps::Steps;
use awk_hash::Seed;
use awk_text::Memory;
use awk_text::fault::Fault;
use indexmap::IndexMap;
use itoa::Buffer;
use std::alloc::Global;
use std::cell::Cell;

/// How far past the places of the dense part a new key may lie, so that places are made up to it.
const MOST_APART: usize = 8;

/// How many places the dense part has at most: the numbers of at most seven digits.
const MOST_PLACES: usize = 10_000_000;

/// Where an element lies.
#[derive(Clone, Copy)]
pub(crate) enum Slot {
    Dense(usize),
    Mapped(usize),
}

/// Where a new element lies, and whether it lies behind all others.
#[derive(Drop)]
pub(crate) struct Added {
    pub(crate) place: Slot,
    pub(crate) is_last: bool,
}

/// The elements: those of small whole numbers in the dense part, and the others in the map. A removed
/// one leaves its place empty: in the map its key stays, until the map is compacted.
///
/// No element of the map has a place in the dense part.
#[derive(Drop)]
pub(crate) struct Elements<V> {
    pub(crate) dense: Dense<V>,
    pub(crate) map: IndexMap<Key, Option<Numbered<V>>, Seed>,
    pub(crate) count: usize,
    /// The look-ups in the map so far.
    steps: Cell<Steps>,
}

impl<V> Elements<V> {
    ghost use Rattle.std.specs.Borrow.{sem};
    ghost use Rattle.awk_lib.specs.Kept.{rows_of, mapped_rows, AreApart, Lies};
    ghost use Rattle.awk_lib.specs.Lends.{lends_value};

    /// No elements. Takes no memory.
    pub(crate) fn new(alloc: Global, seed: Seed) -> Elements<V>
        ensures rows { rows_of result ≡ [] }
        ensures count { result.count ≡ 0 }
        ensures apart { AreApart result }
    {
        Elements {
            dense: Dense::new(alloc),
            map: IndexMap::with_hasher(alloc, seed),
            count: 0,
            steps: Cell::new(Steps::new()),
        }
    }

    /// The elements that lie at these places of the dense part, and no others. Takes no memory.
    pub(crate) fn of_places(
        alloc: Global,
        seed: Seed,
        places: Vec<Option<Numbered<V>>>,
        count: usize,
    ) -> Elements<V>
        ensures places { result.dense.places.items ≡ places.items }
        ensures map { result.map.entries ≡ [] }
        ensures count { result.count ≡ count }
    {
        Elements {
            dense: Dense { places },
            map: IndexMap::with_hasher(alloc, seed),
            count,
            steps: Cell::new(Steps::new()),
        }
    }

    /// What the keys are hashed by.
    pub(crate) fn seed(&self) -> Seed {
        *self.map.hasher()
    }

    /// What the places of the dense part lay in, for others. Takes no memory.
    pub(crate) fn into_room(self) -> Vec<Option<Numbered<V>>>
    where
        V: Drop,
    {
        self.dense.places
    }

    /// Whether the key has the place in the map, which may be empty. Takes no memory.
    fn is_at(&self, i: usize, key: &[u8]) -> bool
        ensures { result ≡ true → (k : _) × (p : _) × (slice_get self.now.map.entries i ≡ Some (k, p))
            × (bytes_eq key.now k ≡ true) }
    {
        match self.map.get_index(i) {
            Some((there, _)) => is_same(key, there.bytes()),
            None => false,
        }
    }

    /// The place of the key in the map, which may be empty. Takes no memory.
    fn find_mapped(&self, key: &[u8]) -> Option<usize>
        ensures some { IfSome result
            (λ i. (k : _) × (p : _) × (slice_get self.now.map.entries i ≡ Some (k, p)) × (bytes_eq key.now k ≡ true)) }
        ensures none { result ≡ None → lookup (bytes_eq key.now) self.now.map.entries ≡ None }
        ensures unique { IsDistinct bytes_eq (keys_of self.now.map.entries) }
    {
        let len = self.map.len();
        // So a key is not hashed for nothing.
        if len == 0 {
            return None;
        }
        let steps = self.steps.get();
        if let Some(guess) = steps.guess(len) {
            if self.is_at(guess, key) {
                self.steps.set(steps.to(guess, len));
                return Some(guess);
            }
        }
        let i = self.map.get_index_of(Sought { text: key })?;
        self.steps.set(steps.to(i, len));
        Some(i)
    }

    /// Where the key lies. Takes no memory.
    pub(crate) fn find(&self, key: &[u8]) -> Option<Slot>
        requires { AreApart self.now }
        ensures some { IfSome result
            (λ p. (r : ℕ × (List ℕ × V)) × Lies self.now p r × (bytes_eq key.now r.1.0 ≡ true)) }
        ensures none { result ≡ None → lookup (bytes_eq key.now) (map (λ r. r.1) (rows_of self.now)) ≡ None }
    {
        match self.dense.slot(key) {
            Some(k) => if self.dense.is_filled(k) {
                Some(Slot::Dense(k))
            } else {
                None
            },
            None => {
                let i = self.find_mapped(key)?;
                if self.map[i].is_some() {
                    Some(Slot::Mapped(i))
                } else {
                    None
                }
            }
        }
    }

    /// Where the key lies that is the digits of a number with no place in the dense part. Takes no memory.
    #[inline(never)]
    fn find_beyond(&self, number: usize) -> Option<Slot>
        requires apart { AreApart self.now }
        requires beyond { length self.now.dense.places.items ≤ number }
        ensures some { IfSome result
            (λ p. (r : ℕ × (List ℕ × V)) × Lies self.now p r × (bytes_eq (decimal number) r.1.0 ≡ true)) }
        ensures none { result ≡ None → lookup (bytes_eq (decimal number)) (map (λ r. r.1) (rows_of self.now)) ≡ None }
    {
        if self.map.is_empty() {
            return None;
        }
        let mut buffer = Buffer::new();
        self.find(buffer.format(number).as_bytes())
    }

    /// Where the key lies that is the digits of a number: no digits are made where the dense part has a place for it.
    /// Takes no memory.
    #[inline(always)]
    pub(crate) fn find_number(&self, number: usize) -> Option<Slot>
        requires { AreApart self.now }
        ensures some { IfSome result
            (λ p. (r : ℕ × (List ℕ × V)) × Lies self.now p r × (bytes_eq (decimal number) r.1.0 ≡ true)) }
        ensures none { result ≡ None → lookup (bytes_eq (decimal number)) (map (λ r. r.1) (rows_of self.now)) ≡ None }
    {
        if self.dense.len() <= number {
            return self.find_beyond(number);
        }
        if self.dense.is_filled(number) {
            Some(Slot::Dense(number))
        } else {
            None
        }
    }

    /// The value at a place.
    pub(crate) fn value(&self, place: Slot) -> &V
        requires { (r : ℕ × (List ℕ × V)) × Lies self.now place r }
        ensures { (r : ℕ × (List ℕ × V)) → Lies self.now place r → result.now ≡ r.1.1 }
    {
        match place {
            Slot::Dense(k) => self.dense.value(k),
            Slot::Mapped(i) => match &self.map[i] {
                Some(element) => &element.value,
                None => unreachable!(),
            },
        }
    }

    /// The value at a place, to write. Takes no memory.
    pub(crate) fn value_mut(&mut self, place: Slot) -> &mut V
        requires { (r : ℕ × (List ℕ × V)) × Lies self.old place r }
        ensures* writes_back { sem 𝓛 (lends_value V.row self.entry place result) }
        ensures value { (r : ℕ × (List ℕ × V)) → Lies self.old place r → result.now ≡ r.1.1 }
    {
        match place {
            Slot::Dense(k) => self.dense.value_mut(k),
            Slot::Mapped(i) => {
                let place = &mut self.map[i];
                match place.as_mut() {
                    Some(element) => &mut element.value,
                    None => unreachable!(),
                }
            }
        }
    }

    /// The place in the dense part that a new key takes, if it takes one there.
    fn spot(&self, key: &[u8]) -> Option<usize>
        requires { AreApart self.now }
        ensures some { IfSome result
            (λ k. (key.now ≡ decimal k) × (k < most_places)
            × (length self.now.dense.places.items ≤ k → (length self.now.map.entries ≡ 0)
            ⊎ (k ≡ length self.now.dense.places.items))) }
        ensures none { result ≡ None → IsOutside (length self.now.dense.places.items) key.now }
    {
        let k = slot_of(key)?;
        let len = self.dense.len();
        if k < len {
            return Some(k);
        }
        // Where most places are empty, no more are made.
        if len / 8 > self.count {
            return None;
        }
        if k == len {
            return Some(k);
        }
        if !self.map.is_empty() {
            return None;
        }
        if k - len > MOST_APART { None } else { Some(k) }
    }

    /// Whether a new key that is the digits of this number takes a place that is there in the dense part, or the next
    /// one. Takes no memory.
    fn has_spot(&self, key: usize) -> bool
        requires { AreApart self.now }
        ensures { result ≡ true → (key < most_places)
            × (length self.now.dense.places.items ≤ key → key ≡ length self.now.dense.places.items) }
    {
        let len = self.dense.len();
        key < len || (key == len && key < MOST_PLACES && len / 8 <= self.count)
    }

    /// Adds the keys of the map as they lie.
    fn push_mapped_texts(&self, keys: &mut Vec<Key>) -> Result<(), Fault>
        ensures ok { OnOk result (keys.new.items ≡ keys.old.items ++ texts (mapped_rows self.now)) }
        ensures err { IsOkUnless result Fault.Memory }
    {
        let alloc = *self.map.allocator();
        for (key, place) in self.map.iter() {
            let Some(_) = place else {
                continue;
            };
            keys.push(Key::of(alloc, key.bytes())?)?;
        }
        Ok(())
    }

    /// The keys as they lie.
    ///
    /// Fails with `Fault::Memory` alone, where memory is refused.
    pub(crate) fn keys(&self) -> Result<Vec<Key>, Fault>
        ensures ok { IfOk result (λ keys. keys.items ≡ texts (rows_of self.now)) }
        ensures err { IsOkUnless result Fault.Memory }
    {
        let alloc = *self.map.allocator();
        let mut keys = Vec::with_capacity(alloc, self.count)?;
        self.dense.push_texts(alloc, &mut keys)?;
        self.push_mapped_texts(&mut keys)?;
        Ok(keys)
    }

    /// Adds the keys of the map, with the numbers of their elements, as they lie.
    fn push_mapped_keys(&self, keys: &mut Vec<Numbered<Key>>) -> Result<(), Fault>
        ensures ok { OnOk result (listed keys.new.items ≡ listed keys.old.items ++ keyed (mapped_rows self.now)) }
        ensures err { IsOkUnless result Fault.Memory }
    {
        let alloc = *self.map.allocator();
        for (key, place) in self.map.iter() {
            let Some(element) = place else {
                continue;
            };
            keys.push(Numbered {
                number: element.number,
                value: Key::of(alloc, key.bytes())?,
            })?;
        }
        Ok(())
    }

    /// The keys, with the numbers of their elements, as they lie.
    fn numbered_keys(&self) -> Result<Vec<Numbered<Key>>, Fault>
        ensures ok { IfOk result (λ ks. listed ks.items ≡ keyed (rows_of self.now)) }
        ensures err { IsOkUnless result Fault.Memory }
    {
        let alloc = *self.map.allocator();
        let mut keys = Vec::with_capacity(alloc, self.count)?;
        self.dense.push_keys(alloc, &mut keys)?;
        self.push_mapped_keys(&mut keys)?;
        Ok(keys)
    }

    /// The keys in the order of the numbers of their elements.
    ///
    /// Fails with `Fault::Memory` alone, where memory is refused.
    pub(crate) fn sorted_keys(&self) -> Result<Vec<Key>, Fault>
        requires { IsDistinct nat_eq (numbers (rows_of self.now)) }
        ensures ok { IfOk result (λ found. found.items ≡ keys (shown (rows_of self.now))) }
        ensures err { IsOkUnless result Fault.Memory }
    {
        let mut found = self.numbered_keys()?;
        found.sort_unstable_by_key(
            |key: &Numbered<Key>| -> u64
                ensures { result ≡ key.now.number }
            { key.number },
        );
        without_numbers(found)
    }
}

impl<V: Drop> Elements<V> {
    ghost use Rattle.awk_lib.specs.Kept.{rows_of, mapped_rows, AreApart, Lies};

    /// Removes the keys of the map that have no element. Takes no memory.
    fn compact(&mut self)
        ensures rows { mapped_rows self.new ≡ mapped_rows self.old }
        ensures filled { AllByRecursion (λ e. is_some e.1 ≡ true) self.new.map.entries }
        ensures others { (self.new.dense ≡ self.old.dense) × (self.new.count ≡ self.old.count) }
    {
        self.map.retain(
            |_key: &Key, place: &mut Option<Numbered<V>>| -> bool
                ensures { (result ≡ is_some place.old) × (place.new ≡ place.old) }
            { place.is_some() },
        );
    }

    /// Removes the keys of the map behind its last element. Takes no memory.
    fn trim(&mut self)
        ensures rows { mapped_rows self.new ≡ mapped_rows self.old }
        ensures others { (self.new.dense ≡ self.old.dense) × (self.new.count ≡ self.old.count) }
    {
        while let Some((_, None)) = self.map.last() {
            self.map.pop();
        }
    }

    /// Brings the elements of the map into the order of their numbers, or answers `Memory`.
    pub(crate) fn settle(&mut self) -> Result<(), Memory>
        ensures same { IsPermutation (mapped_rows self.old) (mapped_rows self.new) }
        ensures ok { OnOk result
            (IsDistinct nat_eq (numbers (mapped_rows self.old)) → AreRising (mapped_rows self.new)) }
        ensures others { (self.new.dense ≡ self.old.dense) × (self.new.count ≡ self.old.count) }
    {
        self.compact();
        self.map.sort_unstable_by_key(
            |_key: &Key, place: &Option<Numbered<V>>| -> u64
                ensures { result ≡ option_map_or (λ x. x.number) place.now 0 }
            {
                match place {
                    Some(element) => element.number,
                    None => 0,
                }
            },
        )
    }

    /// Adds a key that is not there, and answers where its element lies. It lies behind all others,
    /// or between them in the dense part.
    ///
    /// Fails with `Fault::Memory` alone, where memory is refused; then there are the same elements.
    pub(crate) fn add(&mut self, key: &[u8], number: u64, value: V) -> Result<Added, Fault>
        requires apart { AreApart self.old }
        requires absent { lookup (bytes_eq key.now) (map (λ r. r.1) (rows_of self.old)) ≡ None }
        requires room { self.old.count < most_elements }
        ensures place { IfOk result (λ a. Lies self.new a.place (number, (key.now, value))) }
        ensures added { OnOk result
            (IsPermutation (rows_of self.old ++ (number, (key.now, value)) ∷ []) (rows_of self.new)) }
        ensures last { IfOk result
            (λ a. a.is_last ≡ true → rows_of self.new ≡ rows_of self.old ++ (number, (key.now, value)) ∷ []) }
        ensures count { self.new.count ≡ (if is_ok result then self.old.count + 1 else self.old.count) }
        ensures apart { AreApart self.new }
        ensures err { OnErr result (rows_of self.new ≡ rows_of self.old) }
        ensures memory { IsOkUnless result Fault.Memory }
    {
        match self.spot(key) {
            Some(k) => self.add_dense(k, number, value),
            None => self.add_mapped(key, number, value),
        }
    }

    /// Adds the key that is the digits of a number, as `add` does. No digits are made where the dense part takes it.
    pub(crate) fn add_number(&mut self, key: usize, number: u64, value: V) -> Result<Added, Fault>
        requires apart { AreApart self.old }
        requires absent { lookup (bytes_eq (decimal key)) (map (λ r. r.1) (rows_of self.old)) ≡ None }
        requires room { self.old.count < most_elements }
        ensures place { IfOk result (λ a. Lies self.new a.place (number, (decimal key, value))) }
        ensures added { OnOk result
            (IsPermutation (rows_of self.old ++ (number, (decimal key, value)) ∷ []) (rows_of self.new)) }
        ensures last { IfOk result
            (λ a. a.is_last ≡ true → rows_of self.new ≡ rows_of self.old ++ (number, (decimal key, value)) ∷ []) }
        ensures count { self.new.count ≡ (if is_ok result then self.old.count + 1 else self.old.count) }
        ensures apart { AreApart self.new }
        ensures err { OnErr result (rows_of self.new ≡ rows_of self.old) }
        ensures memory { IsOkUnless result Fault.Memory }
    {
        if self.has_spot(key) {
            return self.add_dense(key, number, value);
        }
        let mut buffer = Buffer::new();
        self.add(buffer.format(key).as_bytes(), number, value)
    }

    /// Adds an element to the dense part, at a place that is empty or behind all places.
    fn add_dense(&mut self, k: usize, number: u64, value: V) -> Result<Added, Fault>
        requires apart { AreApart self.old }
        requires absent { lookup (bytes_eq (decimal k)) (map (λ r. r.1) (rows_of self.old)) ≡ None }
        requires room { self.old.count < most_elements }
        requires small { k < most_places }
        requires near { length self.old.dense.places.items ≤ k → (length self.old.map.entries ≡ 0)
            ⊎ (k ≡ length self.old.dense.places.items) }
        ensures place { IfOk result (λ a. Lies self.new a.place (number, (decimal k, value))) }
        ensures added { OnOk result
            (IsPermutation (rows_of self.old ++ (number, (decimal k, value)) ∷ []) (rows_of self.new)) }
        ensures last { IfOk result
            (λ a. a.is_last ≡ true → rows_of self.new ≡ rows_of self.old ++ (number, (decimal k, value)) ∷ []) }
        ensures count { self.new.count ≡ (if is_ok result then self.old.count + 1 else self.old.count) }
        ensures apart { AreApart self.new }
        ensures err { OnErr result (rows_of self.new ≡ rows_of self.old) }
        ensures memory { IsOkUnless result Fault.Memory }
    {
        if k < self.dense.len() {
            self.dense.fill(k, number, value);
            self.count += 1;
            return Ok(Added {
                place: Slot::Dense(k),
                is_last: false,
            });
        }
        self.dense.pad(k)?;
        self.dense.push(number, value)?;
        self.count += 1;
        Ok(Added {
            place: Slot::Dense(k),
            is_last: self.map.is_empty(),
        })
    }

    /// Adds an element to the map: at the place that its key has there, which is empty, or behind all
    /// places.
    fn add_mapped(&mut self, key: &[u8], number: u64, value: V) -> Result<Added, Fault>
        requires apart { AreApart self.old }
        requires absent { lookup (bytes_eq key.now) (map (λ r. r.1) (rows_of self.old)) ≡ None }
        requires room { self.old.count < most_elements }
        requires outside { IsOutside (length self.old.dense.places.items) key.now }
        ensures place { IfOk result (λ a. Lies self.new a.place (number, (key.now, value))) }
        ensures added { OnOk result
            (IsPermutation (rows_of self.old ++ (number, (key.now, value)) ∷ []) (rows_of self.new)) }
        ensures last { IfOk result
            (λ a. a.is_last ≡ true → rows_of self.new ≡ rows_of self.old ++ (number, (key.now, value)) ∷ []) }
        ensures count { self.new.count ≡ (if is_ok result then self.old.count + 1 else self.old.count) }
        ensures apart { AreApart self.new }
        ensures err { OnErr result (rows_of self.new ≡ rows_of self.old) }
        ensures memory { IsOkUnless result Fault.Memory }
    {
        let key = Key::of(*self.map.allocator(), key)?;
        let (i, _) = self.map.insert_full(key, Some(Numbered { number, value }))?;
        let len = self.map.len();
        self.count += 1;
        Ok(Added {
            place: Slot::Mapped(i),
            is_last: i + 1 == len,
        })
    }

    /// Removes the element at a place of the map. Where the last places are empty they go, and where
    /// there are fewer elements than half of the places the map is compacted.
    fn remove_mapped(&mut self, i: usize)
        requires { (k : _) × (p : _) × (slice_get self.old.map.entries i ≡ Some (k, p)) }
        ensures rows { mapped_rows self.new ≡ rows (set_value_at self.old.map.entries i None) }
        ensures others { (self.new.dense ≡ self.old.dense) × (self.new.count ≡ self.old.count) }
    {
        self.map[i] = None;
        self.trim();
        if self.count < self.map.len() / 2 {
            self.compact();
        }
    }

    /// Removes the element at a place. The others keep their order. Takes no memory.
    pub(crate) fn remove(&mut self, place: Slot)
        requires apart { AreApart self.old }
        requires there { (r : ℕ × (List ℕ × V)) × Lies self.old place r }
        requires some { 0 < self.old.count }
        ensures gone { (r : ℕ × (List ℕ × V)) → Lies self.old place r →
            IsPermutation (rows_of self.old) (r ∷ rows_of self.new) }
        ensures rising { AreRising (rows_of self.old) → AreRising (rows_of self.new) }
        ensures count { self.new.count + 1 ≡ self.old.count }
        ensures apart { AreApart self.new }
    {
        self.count -= 1;
        match place {
            Slot::Dense(k) => self.dense.remove(k),
            Slot::Mapped(i) => self.remove_mapped(i),
        }
    }

    /// Removes all elements. Takes no memory.
    pub(crate) fn clear(&mut self)
        ensures rows { rows_of self.new ≡ [] }
        ensures count { self.new.count ≡ 0 }
        ensures apart { AreApart self.new }
    {
        self.dense.clear();
        self.map.clear();
        self.count = 0;
    }
}

/// The keys without their numbers.
fn without_numbers(keys: Vec<Numbered<Key>>) -> Result<Vec<Key>, Fault>
    ensures ok { IfOk result (λ texts. texts.items ≡ map (λ k. k.value) keys.items) }
    ensures err { IsOkUnless result Fault.Memory }
{
    let mut texts = Vec::with_capacity(*keys.allocator(), keys.len())?;
    for key in keys {
        texts.push(key.value)?;
    }
    Ok(texts)
}
