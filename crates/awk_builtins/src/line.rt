// Texts that are made of several values, in a buffer that is kept.
ghost use Rattle.awk_builtins.specs.Lines.{held};
ghost use Rattle.awk_fields.specs.Rows.{joined};
ghost use Rattle.awk_format.specs.Formatted.{within};
ghost use Rattle.awk_lib.specs.Written.{written};
ghost use Rattle.awk_text.specs.Values.{text_of};
ghost use Rattle.std.specs.List.{flat_map};
ghost use Rattle.std.specs.Prelude.{Err, IfErr, IfOk, List, Ok, OnOk, Some, [], ℕ, ◌++◌, ◌≡◌, ◌⊎◌};

use awk_text::Memory;
use awk_text::buffer::Buffer;
use awk_text::fault::Fault;
use awk_text::octets::Octets;
use awk_text::texts::MOST_BYTES;
use awk_text::value::{Value, text_in};
use std::alloc::Global;
use std::marker::Model;
use std::mem;

/// The most bytes of a text that are copied out of a line, so that its room stays.
const MOST_COPIED: usize = 255;

/// A text that is made piece by piece, or that it has gone over `MOST_BYTES`: then no more is kept of it. The
/// room of one text serves the next one.
#[derive(Drop)]
pub struct Line {
    bytes: Vec<u8>,
    is_too_long: bool,
}

impl Model for Line {
    ghost use Rattle.std.specs.Prelude.{List, Option, Some, None, ℕ, ◌≤◌, vec_len, if◌then◌else◌};
    ghost use Rattle.awk_text.specs.Limits.{most_bytes};

    ghost Value = { Option (List ℕ) };

    ghost view = { λ t. if t.is_too_long then None else Some t.bytes.items };

    ghost invariant = { λ t. vec_len t.bytes ≤ most_bytes };
}

impl Line {
    /// The empty text. Takes no memory.
    pub fn new(alloc: Global) -> Line
        ensures { result ≡ Some [] }
    {
        Line {
            bytes: Vec::new(alloc),
            is_too_long: false,
        }
    }

    /// Begins a new text, which is empty. Takes no memory.
    pub fn clear(&mut self)
        ensures { self.new ≡ Some [] }
    {
        self.bytes.clear();
        self.is_too_long = false;
    }

    /// Adds the bytes.
    pub fn push(&mut self, piece: &[u8]) -> Result<(), Memory>
        ensures { OnOk result (self.new ≡ written self.old piece.now) }
    {
        if MOST_BYTES - self.bytes.len() < piece.len() {
            self.is_too_long = true;
        }
        if !self.is_too_long {
            self.bytes.extend_from_slice(piece)?;
        }
        Ok(())
    }

    /// Adds the text of a value.
    pub fn add(&mut self, value: &Value) -> Result<(), Memory>
        ensures { OnOk result (self.new ≡ written self.old (text_of value.now)) }
    {
        let mut buffer = Buffer::new();
        self.push(text_in(value, &mut buffer))
    }

    /// Adds the texts of the values, each behind the separator.
    fn add_behind(&mut self, values: &[Value], separator: &[u8]) -> Result<(), Memory>
        ensures { OnOk result ((more : List ℕ) → written self.new more
            ≡ written self.old (flat_map (λ v. separator.now ++ text_of v) values.now ++ more)) }
    {
        for value in values {
            self.push(separator)?;
            self.add(value)?;
        }
        Ok(())
    }

    /// Makes it the texts of the values, with the separator between, and what ends them.
    pub fn join(&mut self, values: &[Value], separator: &[u8], end: &[u8]) -> Result<(), Memory>
        ensures { OnOk result (self.new ≡ held (joined separator.now values.now ++ end.now)) }
    {
        self.clear();
        let [first, others @ ..] = values else {
            return self.push(end);
        };
        self.add(first)?;
        self.add_behind(others, separator)?;
        self.push(end)?;
        Ok(())
    }

    /// Takes the text out, with its room, and leaves the empty text. Takes no memory.
    ///
    /// Fails with `Fault::TextTooLong` exactly where it has gone over `MOST_BYTES`; then nothing has changed.
    pub fn take(&mut self) -> Result<Octets, Fault>
        ensures ok { IfOk result (λ text. within self.old ≡ Ok text) }
        ensures left { OnOk result (self.new ≡ Some []) }
        ensures err { IfErr result (λ e. (within self.old ≡ Err e) × (self.new ≡ self.old)) }
    {
        if self.is_too_long {
            return Err(Fault::TextTooLong);
        }
        if let Some(text) = Octets::short(self.bytes.as_slice()) {
            self.bytes.clear();
            return Ok(text);
        }
        let none = Vec::new(*self.bytes.allocator());
        Ok(Octets::new(mem::replace(&mut self.bytes, none)))
    }

    /// The text as one of its own: a copy of it, or what it lies in where it has more than 255 bytes.
    ///
    /// Fails as `take` does, and with `Fault::Memory` where memory is refused.
    pub fn own_text(&mut self, alloc: Global) -> Result<Octets, Fault>
        ensures ok { IfOk result (λ text. within self.old ≡ Ok text) }
        ensures err { IfErr result (λ e. (e ≡ Fault.Memory) ⊎ (within self.old ≡ Err e)) }
    {
        if MOST_COPIED < self.bytes.len() {
            return self.take();
        }
        let text = self.text()?;
        Ok(Octets::of(alloc, text)?)
    }

    /// Begins a new text in the room of one that was taken out. Takes no memory.
    pub fn reuse(&mut self, text: Octets)
        ensures { self.new ≡ Some [] }
    {
        let room = text.into_room(*self.bytes.allocator());
        if self.bytes.capacity() < room.capacity() {
            self.bytes = room;
        }
        self.bytes.clear();
        self.is_too_long = false;
    }

    /// The text. Takes no memory.
    ///
    /// Fails with `Fault::TextTooLong` exactly where it has gone over `MOST_BYTES`.
    pub fn text(&self) -> Result<&[u8], Fault>
        ensures ok { IfOk result (λ text. within self.now ≡ Ok text.now) }
        ensures err { IfErr result (λ e. within self.now ≡ Err e) }
    {
        if self.is_too_long {
            return Err(Fault::TextTooLong);
        }
        Ok(self.bytes.as_slice())
    }
}
