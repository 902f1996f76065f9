// What stands under texts, and where texts stand in a list. A look-up takes no more time where there are many.

ghost use Rattle.std.specs.Prelude.{◌≡◌, ◌↔◌, true, [], ◌∷◌, ◌++◌, length, map, position, IfOk, OnOk, OnErr};
ghost use Rattle.std.specs.Map.{lookup};
ghost use Rattle.std.specs.Option.{option_copied};
ghost use Rattle.std.specs.Str.{bytes_eq};
ghost use Rattle.awk_resolve.specs.Kinds.{texts};
ghost use Rattle.awk_resolve.specs.Rolls.{added};
ghost use Rattle.awk_resolve.specs.TextTables.{with_text};

use awk_text::Memory;
use awk_text::octets::Octets;
use awk_tree::Name;
use indexmap::{IndexMap, IndexSet};
use std::alloc::{AllocError, Global};
use std::marker::Model;

/// How many texts are looked at one by one: a table of so few takes longer to make than it saves.
const FEW: usize = 8;

/// One value under each text. A look-up takes no more time where there are many.
#[derive(Drop)]
pub struct TextTable<V> {
    entries: IndexMap<Vec<u8>, V>,
}

impl<V> Model for TextTable<V> {
    ghost use Rattle.std.specs.Prelude.{ℕ, List, map};
    ghost use Rattle.std.specs.Coded.{coded_list};

    ghost Value = { List (List ℕ × V) };

    ghost view = { λ t. map (λ e. (e.0.items, e.1)) t.entries.entries };
}

impl<V> TextTable<V> {
    pub fn new(alloc: Global) -> TextTable<V>
        ensures { result ≡ [] }
    {
        TextTable {
            entries: IndexMap::new(alloc),
        }
    }

    /// Whether nothing stands under any text.
    pub fn is_empty(&self) -> bool
        ensures { (result ≡ true) ↔ (self.now ≡ []) }
    {
        self.entries.is_empty()
    }

    pub fn get(&self, text: &[u8]) -> Option<&V>
        ensures { option_copied result ≡ lookup (bytes_eq text.now) self.now }
    {
        self.entries.get(text)
    }
}

impl<V: Drop> TextTable<V> {
    /// Puts the value under the text, in the place of what was there, or answers `Memory`, with
    /// nothing changed.
    pub fn put(&mut self, text: Octets, value: V) -> Result<(), Memory>
        ensures ok { OnOk result (self.new ≡ with_text text value self.old) }
        ensures err { OnErr result (self.new ≡ self.old) }
    {
        let bytes = text.into_bytes(*self.entries.allocator())?;
        self.entries.insert(bytes, value)?;
        Ok(())
    }
}

/// One value under each text: the first few in a list, and the others in a table. A look-up takes no more time where
/// there are many.
#[derive(Drop)]
pub struct ShortTable<V> {
    few: Vec<(Octets, V)>,
    more: TextTable<V>,
}

impl<V> Model for ShortTable<V> {
    ghost use Rattle.std.specs.Prelude.{ℕ, List, ◌++◌};

    ghost Value = { List (List ℕ × V) };

    ghost view = { λ t. t.few.items ++ t.more };
}

fn found<'a, V>(few: &'a [(Octets, V)], text: &[u8]) -> Option<&'a V>
    ensures { option_copied result ≡ lookup (bytes_eq text.now) few.now }
{
    for entry in few {
        if text == entry.0.bytes() {
            return Some(&entry.1);
        }
    }
    None
}

impl<V> ShortTable<V> {
    /// An empty one, with room for so many if they are few.
    pub fn new(alloc: Global, count: usize) -> Result<ShortTable<V>, Memory>
        ensures { IfOk result (λ t. t ≡ []) }
    {
        Ok(ShortTable {
            few: Vec::with_capacity(alloc, count.min(FEW))?,
            more: TextTable::new(alloc),
        })
    }

    pub fn get(&self, text: &[u8]) -> Option<&V>
        ensures { option_copied result ≡ lookup (bytes_eq text.now) self.now }
    {
        match found(self.few.as_slice(), text) {
            Some(value) => Some(value),
            None => self.more.get(text),
        }
    }
}

impl<V: Drop> ShortTable<V> {
    /// Puts the value behind the others, where no text is there already.
    fn append(&mut self, text: Octets, value: V) -> Result<(), Memory>
        requires { lookup (bytes_eq text) self.old ≡ None }
        ensures { OnOk result (self.new ≡ with_text text value self.old) }
    {
        if self.few.len() < FEW && self.more.is_empty() {
            self.few.push((text, value))?;
            return Ok(());
        }
        self.more.put(text, value)
    }

    /// Puts the value under the text, or answers `Memory` where there is one already or memory is refused.
    pub fn put(&mut self, text: Octets, value: V) -> Result<(), Memory>
        ensures { OnOk result (self.new ≡ with_text text value self.old) }
    {
        match self.get(text.bytes()) {
            Some(_) => Err(AllocError),
            None => self.append(text, value),
        }
    }
}

/// Texts, each once, in the order in which they came. A look-up takes no more time where there are many.
#[derive(Drop)]
pub struct Roll {
    texts: IndexSet<Vec<u8>>,
}

impl Model for Roll {
    ghost use Rattle.std.specs.Prelude.{ℕ, List, map};

    ghost Value = { List (List ℕ) };

    ghost view = { λ r. map (λ t. t.items) r.texts.keys };
}

impl Roll {
    pub fn new(alloc: Global) -> Roll
        ensures { result ≡ [] }
    {
        Roll {
            texts: IndexSet::new(alloc),
        }
    }

    /// The texts of these names, in order, or `Memory` where one stands twice or memory is refused.
    pub fn of_names(alloc: Global, names: &[Name]) -> Result<Roll, Memory>
        ensures { IfOk result (λ roll. roll ≡ texts names.now) }
    {
        let mut roll = Roll::new(alloc);
        roll.push_names(alloc, names)?;
        Ok(roll)
    }

    fn push_names(&mut self, alloc: Global, names: &[Name]) -> Result<(), Memory>
        ensures { OnOk result (self.new ≡ self.old ++ texts names.now) }
    {
        for name in names {
            self.push(name.text.copy(alloc)?)?;
        }
        Ok(())
    }

    /// The texts, in order. Takes no memory.
    pub fn texts(&self) -> &[Vec<u8>]
        ensures { map (λ t. t.items) result.now ≡ self.now }
    {
        self.texts.as_slice()
    }

    /// Where a text stands. Takes no memory.
    pub fn position(&self, text: &[u8]) -> Option<usize>
        ensures { result ≡ position (bytes_eq text.now) self.now }
    {
        self.texts.get_index_of(text)
    }

    /// How many texts there are. Takes no memory.
    pub fn len(&self) -> usize
        ensures { result ≡ length self.now }
    {
        self.texts.len()
    }

    fn append(&mut self, text: Octets) -> Result<(), Memory>
        ensures ok { OnOk result (self.new ≡ added text self.old) }
        ensures err { OnErr result (self.new ≡ self.old) }
    {
        let bytes = text.into_bytes(*self.texts.allocator())?;
        self.texts.insert(bytes)?;
        Ok(())
    }

    /// Puts a text last, unless it is there, or answers `Memory`, with nothing changed. Where it is
    /// there, as most that are added are, no memory is asked for.
    pub fn add(&mut self, text: Octets) -> Result<(), Memory>
        ensures ok { OnOk result (self.new ≡ added text self.old) }
        ensures err { OnErr result (self.new ≡ self.old) }
    {
        match self.position(text.bytes()) {
            Some(_) => Ok(()),
            None => self.append(text),
        }
    }

    /// Puts a text last, or answers `Memory`, with nothing changed, where it is there already or
    /// memory is refused.
    pub fn push(&mut self, text: Octets) -> Result<(), Memory>
        ensures ok { OnOk result (self.new ≡ self.old ++ text ∷ []) }
        ensures err { OnErr result (self.new ≡ self.old) }
    {
        match self.position(text.bytes()) {
            Some(_) => Err(AllocError),
            None => self.append(text),
        }
    }
}

/// The parameters of a function, where they stand in the script. Where they are many, a look-up takes no more time.
#[derive(Drop)]
pub struct OwnNames<'a> {
    names: &'a [Name],
    /// Their texts, where they are not few.
    many: Option<Roll>,
}

impl<'a> Model for OwnNames<'a> {
    ghost use Rattle.std.specs.Prelude.{List, ℕ};
    ghost use Rattle.awk_resolve.specs.OwnNames.{texts_of, IsOwn};

    ghost Value = { List (List ℕ) };

    ghost view = { texts_of };

    ghost invariant = { IsOwn };
}

/// Where the first name of this text stands.
fn among(names: &[Name], text: &[u8]) -> Option<usize>
    ensures { result ≡ position (λ name. bytes_eq text.now name.text) names.now }
{
    names.iter().position(|name| text == name.text.bytes())
}

impl<'a> OwnNames<'a> {
    /// No names.
    pub fn none() -> OwnNames<'a>
        ensures { result ≡ [] }
    {
        OwnNames {
            names: &[],
            many: None,
        }
    }

    /// These names, or `Memory` where memory is refused, or many stand there and one of them twice.
    pub fn of(alloc: Global, names: &'a [Name]) -> Result<OwnNames<'a>, Memory>
        ensures { IfOk result (λ own. own ≡ texts names.now) }
    {
        if names.len() <= FEW {
            Ok(OwnNames { names, many: None })
        } else {
            let many = Some(Roll::of_names(alloc, names)?);
            Ok(OwnNames { names, many })
        }
    }

    /// Where a text stands. Takes no memory.
    pub fn position(&self, text: &[u8]) -> Option<usize>
        ensures { result ≡ position (bytes_eq text.now) self.now }
    {
        match &self.many {
            None => among(self.names, text),
            Some(roll) => roll.position(text),
        }
    }
}
