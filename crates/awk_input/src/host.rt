// What the host of a run gave.
ghost use Rattle.std.specs.Prelude.{◌≡◌, [], OnOk, OnErr};
ghost use Rattle.awk_input.specs.Hosts as spec;
ghost use Rattle.awk_input.specs.Hosts.{with_name, with_word};

use awk_numbers::number::{Number, Numbers};
use awk_text::Memory;
use awk_text::octets::Octets;
use awk_tokens::{is_name, reserved};
use indexmap::{IndexMap, IndexSet};
use std::alloc::Global;
use std::marker::Model;

/// What a name is to the host of a run: a variable of the script that it may set, by its slot, or a
/// name that it may not set.
#[derive(Clone, Copy, PartialEq, Eq, Drop)]
pub enum HostUse {
    Variable(u32),
    Barred,
}

/// What the host of a run gave: the most steps, which numbers the script has, what `srand ( )` seeds by, the words that
/// the run was started with, and what names are to it. A look-up takes no more time where there are many.
#[derive(Drop)]
pub struct Host {
    bound: u64,
    numbers: Numbers,
    seed: Number,
    words: IndexSet<Vec<u8>>,
    names: IndexMap<Vec<u8>, HostUse>,
}

impl Model for Host {
    ghost use Rattle.std.specs.Prelude.{map};
    ghost use Rattle.awk_input.specs.Hosts.{Hosted};

    ghost Value = { Hosted };

    ghost view = { λ h. record {
      bound = h.bound;
      numbers = h.numbers;
      seed = h.seed;
      words = map (λ t. t.items) h.words.keys;
      names =
          map (λ e. (e.0.items, e.1)) h.names.entries;
    } };
}

impl Host {
    /// No word is given, and no name is known. Takes no memory.
    pub fn new(alloc: Global, bound: u64, numbers: Numbers, seed: Number) -> Host
        ensures { result ≡ record { bound = bound; numbers = numbers; seed = seed; words = []; names = [] } }
    {
        Host {
            bound,
            numbers,
            seed,
            words: IndexSet::new(alloc),
            names: IndexMap::new(alloc),
        }
    }

    /// The most steps.
    pub fn bound(&self) -> u64
        ensures { result ≡ self.now.bound }
    {
        self.bound
    }

    /// Which numbers the script has.
    pub fn numbers(&self) -> Numbers
        ensures { result ≡ self.now.numbers }
    {
        self.numbers
    }

    /// What `srand ( )` seeds by.
    pub fn seed(&self) -> Number
        ensures { result ≡ self.now.seed }
    {
        self.seed
    }

    /// Adds a word that the run was started with, or answers `Memory`, with nothing changed.
    pub fn add_word(&mut self, word: Octets) -> Result<(), Memory>
        ensures ok { OnOk result (self.new ≡ with_word word self.old) }
        ensures err { OnErr result (self.new ≡ self.old) }
    {
        let bytes = word.into_bytes(*self.words.allocator())?;
        self.words.insert(bytes)?;
        Ok(())
    }

    /// Says what a name is, in the place of what was said before, or answers `Memory`, with nothing
    /// changed.
    pub fn add_name(&mut self, name: Octets, what: HostUse) -> Result<(), Memory>
        ensures ok { OnOk result (self.new ≡ with_name name what self.old) }
        ensures err { OnErr result (self.new ≡ self.old) }
    {
        let bytes = name.into_bytes(*self.names.allocator())?;
        self.names.insert(bytes, what)?;
        Ok(())
    }

    /// Whether the run was started with this word. Takes no memory.
    pub fn is_given(&self, text: &[u8]) -> bool
        ensures { result ≡ spec.is_given self.now text.now }
    {
        self.words.contains(text)
    }

    fn use_of(&self, name: &[u8]) -> Option<HostUse>
        ensures { result ≡ spec.use_of self.now name.now }
    {
        match self.names.get(name) {
            Some(what) => Some(*what),
            None => None,
        }
    }

    /// Whether the host may set a variable of this name: it is spelled as a name, is no word of the
    /// language, and is not barred. Takes no memory.
    pub fn can_assign(&self, name: &[u8]) -> bool
        ensures { result ≡ spec.can_set self.now name.now }
    {
        is_name(name) && reserved(name).is_none() && is_free(self.use_of(name))
    }

    /// The slot of a name, where it is a variable of the script that the host may set. Takes no
    /// memory.
    pub fn slot_of(&self, name: &[u8]) -> Option<u32>
        ensures { result ≡ spec.slot_of self.now name.now }
    {
        slot_in(self.use_of(name))
    }
}

fn is_free(what: Option<HostUse>) -> bool
    ensures { result ≡ spec.is_free what }
{
    match what {
        Some(HostUse::Barred) => false,
        _ => true,
    }
}

fn slot_in(what: Option<HostUse>) -> Option<u32>
    ensures { result ≡ spec.slot_in what }
{
    match what {
        Some(HostUse::Variable(slot)) => Some(slot),
        _ => None,
    }
}
