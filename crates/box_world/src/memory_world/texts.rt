// What stands under texts.
ghost use Rattle.std.specs.Prelude.{◌≡◌, ◌<◌, [], OnOk, OnErr, IsOk};
ghost use Rattle.std.specs.Map.{lookup};
ghost use Rattle.std.specs.Option.{option_copied};
ghost use Rattle.std.specs.Str.{bytes_eq};
ghost use Rattle.box_world.specs.MemoryTexts.{with_text, with_more, with_new};

use awk_text::Memory;
use indexmap::IndexMap;
use std::alloc::Global;
use std::marker::Model;

/// One value under each text, in the order in which the texts were first put.
#[derive(Drop)]
pub struct Texts<V> {
    table: IndexMap<Vec<u8>, V>,
}

impl<V> Model for Texts<V> {
    ghost use Rattle.std.specs.Prelude.{map};
    ghost use Rattle.indexmap.specs.IndexMap.{spare};
    ghost use Rattle.box_world.specs.MemoryTexts.{Table};

    ghost Value = { Table V };

    ghost view = { λ t. record { pairs = map (λ e. (e.0.items, e.1)) t.table.entries; room = spare t.table } };
}

impl<V> Texts<V> {
    pub fn new(alloc: Global) -> Texts<V>
        ensures { result.pairs ≡ [] }
    {
        Texts {
            table: IndexMap::new(alloc),
        }
    }

    pub fn get(&self, text: &[u8]) -> Option<&V>
        ensures { option_copied result ≡ lookup (bytes_eq text.now) self.now.pairs }
    {
        self.table.get(text)
    }

    /// Makes room for one more text, or answers `Memory`.
    pub fn make_room(&mut self) -> Result<(), Memory>
        ensures same { self.new.pairs ≡ self.old.pairs }
        ensures ok { OnOk result (0 < self.new.room) }
    {
        self.table.reserve(1)
    }
}

impl<V: Drop> Texts<V> {
    /// Puts the value under the text, in the place of what was there. Where there is room this
    /// takes no memory; else it may answer `Memory`, with nothing changed.
    pub fn put(&mut self, text: Vec<u8>, value: V) -> Result<(), Memory>
        ensures ok { OnOk result (self.new.pairs ≡ with_text text.items value self.old.pairs) }
        ensures err { OnErr result (self.new.pairs ≡ self.old.pairs) }
        ensures succeeds { 0 < self.old.room → IsOk result }
    {
        self.table.insert(text, value)?;
        Ok(())
    }
}

/// Bytes that more are added to.
#[derive(Drop)]
pub struct Growing {
    bytes: Vec<u8>,
}

impl Model for Growing {
    ghost use Rattle.std.specs.Prelude.{ℕ, List};

    ghost Value = { List ℕ };

    ghost view = { λ g. g.bytes.items };
}

impl Growing {
    ghost use Rattle.std.specs.Prelude.{◌++◌};

    pub fn of(bytes: Vec<u8>) -> Growing
        ensures { result ≡ bytes.items }
    {
        Growing { bytes }
    }

    pub fn new(alloc: Global) -> Growing
        ensures { result ≡ [] }
    {
        Growing {
            bytes: Vec::new(alloc),
        }
    }

    pub fn bytes(&self) -> &[u8]
        ensures { result.now ≡ self.now }
    {
        self.bytes.as_slice()
    }

    pub fn add(&mut self, more: &[u8]) -> Result<(), Memory>
        ensures ok { OnOk result (self.new ≡ self.old ++ more.now) }
        ensures err { OnErr result (self.new ≡ self.old) }
    {
        self.bytes.extend_from_slice(more)
    }
}

impl Texts<Growing> {
    /// Puts no bytes under the text, where nothing stands there yet. There is room for it.
    pub fn put_new(&mut self, alloc: Global, text: Vec<u8>)
        requires { 0 < self.old.room }
        ensures { self.new.pairs ≡ with_new text.items self.old.pairs }
    {
        if self.get(text.as_slice()).is_none() {
            self.put(text, Growing::new(alloc)).unwrap();
        }
    }

    /// Adds the bytes to what stands under the text, if anything does. `Memory` changes nothing.
    pub fn add(&mut self, text: &[u8], bytes: &[u8]) -> Result<(), Memory>
        ensures ok { OnOk result (self.new.pairs ≡ with_more text.now bytes.now self.old.pairs) }
        ensures err { OnErr result (self.new.pairs ≡ self.old.pairs) }
    {
        match self.table.get_mut(text) {
            Some(growing) => growing.add(bytes),
            None => Ok(()),
        }
    }
}
