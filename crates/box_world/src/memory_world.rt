// A world in memory, for tests and for hosts that give a script no real files.
ghost use Rattle.std.specs.Prelude.{◌≡◌, ◌<◌, ◌∷◌, [], false, None, Some, Ok, IfErr, IfOk, OnErr, OnOk};
ghost use Rattle.std.specs.Map.{lookup};
ghost use Rattle.std.specs.Option.{option_copied};
ghost use Rattle.std.specs.Str.{bytes_eq};
ghost use Rattle.box_world.specs.Calls.{IsFitting, IsStatus};
ghost use Rattle.box_world.specs.MemoryLaw.{Follows, Follows-append, Follows-none, Follows-open, numbers_of};
ghost use Rattle.box_world.specs.MemoryNumbers.{GivesNext};
ghost use Rattle.box_world.specs.MemoryChanges.{answered};
ghost use Rattle.box_world.specs.MemoryReplies.{fails_at, reply_of};
ghost use Rattle.box_world.specs.MemoryState.{nothing};
ghost use Rattle.box_world.specs.MemoryTexts.{with_text};
ghost use Rattle.box_world.specs.declared.ask.Stop.TheVariants.{Memory as OutOfMemory};

mod store;
mod texts;

use crate::ask::{Ask, Reply, Request, Stop};
use crate::world::World;
use awk_text::Memory;
use awk_text::octets::Octets;
use std::alloc::Global;
use std::marker::Model;
use store::MemoryStore;

/// A world whose files and commands are in memory. It keeps all that it is asked, with its replies.
///
/// A file, a command or a name is what was put under exactly this text; a file that is written
/// is kept. The standard input is what was put as it. It never answers `Stop::Log`.
#[derive(Drop)]
pub struct MemoryWorld {
    alloc: Global,
    asked: Vec<(Ask, Reply)>,
    fail_at: usize,
    fail_from: Option<usize>,
    store: MemoryStore,
}

impl Model for MemoryWorld {
    ghost use Rattle.box_world.specs.MemoryState.{MemoryState};

    ghost Value = { MemoryState };

    ghost view = { λ w. record {
      asked = w.asked.items;
      fail_at = w.fail_at;
      fail_from = w.fail_from;
      store = w.store;
    } };
}

impl MemoryWorld {
    /// A world without files and commands, which was asked nothing. Takes no memory.
    pub fn new(alloc: Global) -> MemoryWorld
        ensures { result ≡ record {
          asked = [];
          fail_at = 0;
          fail_from = None;
          store = nothing;
        } }
    {
        MemoryWorld {
            alloc,
            asked: Vec::new(alloc),
            fail_at: 0,
            fail_from: None,
            store: MemoryStore::new(alloc),
        }
    }

    /// From now on the command of this text prints the output and has the status, from 0 to 256.
    /// A second put of one text replaces the first. `Memory` changes nothing.
    pub fn put_command(&mut self, text: Octets, output: Octets, status: i64) -> Result<(), Memory>
        requires { IsStatus status }
        ensures ok { OnOk result (self.new ≡ record self.old {
          store = record self.old.store {
            commands = with_text text (record { output = output; status = status }) self.old.store.commands;
          };
        }) }
        ensures err { OnErr result (self.new ≡ self.old) }
    {
        self.store.put_command(text, output, status)
    }

    /// From now on the file of this text has these bytes, in the place of those that it had.
    /// `Memory` changes nothing.
    pub fn put_file(&mut self, text: Octets, bytes: Octets) -> Result<(), Memory>
        ensures ok { OnOk result (self.new ≡ record self.old {
          store = record self.old.store { files = with_text text bytes self.old.store.files };
        }) }
        ensures err { OnErr result (self.new ≡ self.old) }
    {
        self.store.put_file(text, bytes)
    }

    /// From now on the name of the environment has this value. A second put of one name replaces
    /// the first. `Memory` changes nothing.
    pub fn put_env(&mut self, name: Octets, value: Octets) -> Result<(), Memory>
        ensures ok { OnOk result (self.new ≡ record self.old {
          store = record self.old.store { environment = with_text name value self.old.store.environment };
        }) }
        ensures err { OnErr result (self.new ≡ self.old) }
    {
        self.store.put_env(name, value)
    }

    /// From now on these bytes, none of which was read, are the standard input, in the place of
    /// what it was. It is always `Ok` today; a world that keeps a copy would answer `Memory`.
    pub fn put_input(&mut self, bytes: Octets) -> Result<(), Memory>
        ensures done { result ≡ Ok tt }
        ensures input { self.new ≡ record self.old { store = record self.old.store { input = bytes; read = 0 } } }
    {
        self.store.put_input(bytes);
        Ok(())
    }

    /// From now on one reading gives at most so many bytes: 8,192 until then. Takes no memory.
    pub fn chunk(&mut self, n: usize)
        requires { 0 < n }
        ensures { self.new ≡ record self.old { store = record self.old.store { chunk = n } } }
    {
        self.store.set_chunk(n);
    }

    /// Makes the ask of this number fail, and no other than it and those of `fail_from`. Answered
    /// asks are counted from 1, those of the past too; 0 is none of them. Takes no memory.
    pub fn fail_at(&mut self, n: usize)
        ensures { self.new ≡ record self.old { fail_at = n } }
    {
        self.fail_at = n;
    }

    /// Makes the ask of this number fail, and every later one, beside that of `fail_at`. They are
    /// counted as there, so 0 means all. A second call replaces the first. Takes no memory.
    pub fn fail_from(&mut self, n: usize)
        ensures { self.new ≡ record self.old { fail_from = Some n } }
    {
        self.fail_from = Some(n);
    }

    /// The bytes of the file of this text, or `None` where there is none. Takes no memory.
    pub fn file(&self, text: &[u8]) -> Option<&[u8]>
        ensures { option_copied result ≡ lookup (bytes_eq text.now) self.now.store.files }
    {
        self.store.file(text)
    }

    /// What was put to the command of this text, over all its openings to be written to, or `None`
    /// where it was never opened so. Takes no memory.
    pub fn fed(&self, text: &[u8]) -> Option<&[u8]>
        ensures { option_copied result ≡ lookup (bytes_eq text.now) self.now.store.fed }
    {
        self.store.fed(text)
    }

    /// What was put to the standard output, and what commands printed. Takes no memory.
    pub fn output(&self) -> &[u8]
        ensures { result.now ≡ self.now.store.output }
    {
        self.store.output()
    }

    /// What was put to the standard error. Takes no memory.
    pub fn errors(&self) -> &[u8]
        ensures { result.now ≡ self.now.store.errors }
    {
        self.store.errors()
    }

    /// All answered asks with their replies, in order. Takes no memory.
    pub fn asked(&self) -> &[(Ask, Reply)]
        ensures { result.now ≡ self.now.asked }
    {
        self.asked.as_slice()
    }

    fn fails_at(&self, number: usize) -> bool
        ensures { result ≡ fails_at number self.now }
    {
        number == self.fail_at || self.fail_from.is_some_and(|first| first <= number)
    }

    fn reply_to(&self, request: &Request) -> Result<Reply, Memory>
        ensures reply { IfOk result (λ r. r ≡ reply_of self.now request.now) }
        ensures fits { IfOk result (IsFitting (numbers_of self.now) request.now) }
        ensures next { IfOk result (GivesNext self.now.store.next) }
    {
        if self.fails_at(self.asked.len() + 1) {
            return Ok(Reply::Failed);
        }
        self.store.reply_to(request)
    }
}

impl World for MemoryWorld {
    ghost follows = { Follows };

    ghost open_numbers = { numbers_of };

    ghost has_stopped = { λ _. false };

    ghost stops = { λ _ _ _ _. ⊥ };

    ghost lacks = { λ v _ w. w ≡ v };

    /// Answers the ask and keeps both, or answers `Stop::Memory` with nothing changed. An ask that
    /// was made to fail is answered `Failed` and does nothing else, but a `Shut` ends its number.
    fn ask(&mut self, ask: &Ask) -> Result<Reply, Stop>
        // What a world owes.
        ensures ok { IfOk result (λ reply. Follows self.old ((ask.now, reply) ∷ []) self.new) }
        ensures fits { IfOk result (λ reply. IsFitting (numbers_of self.old) ask.now.request reply) }

        // The reply, and all that it leaves.
        ensures reply { IfOk result (λ reply. reply ≡ reply_of self.old ask.now.request) }
        ensures left { IfOk result (λ reply. self.new ≡ answered ask.now reply self.old) }

        // It fails by want of memory alone.
        ensures err { OnErr result (self.new ≡ self.old) }
        ensures memory { IfErr result (λ e. e ≡ OutOfMemory) }
    {
        let reply = self.reply_to(&ask.request)?;
        let told = reply.copy(self.alloc)?;
        let kept = ask.copy(self.alloc)?;
        self.asked.reserve(1)?;
        self.store.leave(&ask.request, &reply)?;
        self.asked.push((kept, reply)).unwrap();
        Ok(told)
    }

    ghost follows_none = { Follows-none };

    ghost follows_append = { Follows-append };

    ghost follows_open = { Follows-open };

    ghost stops_later = { λ _ _ _ _ _ _ _ _ p. p };
}
