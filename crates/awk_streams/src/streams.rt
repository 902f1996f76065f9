// The streams that a run has open.
ghost use Rattle.std.specs.Prelude.{◌≡◌, ◌<◌, [], ◌∷◌, ◌++◌, ◌&&◌, nat_eq, true, false, None, Some, OnOk, OnErr, IfOk};
ghost use Rattle.std.specs.Prelude.{IfErr, IfSome, IsOkUnless, ◌⊎◌, drop, slice_get, option_map};
ghost use Rattle.awk_fields.specs.Heads.{head, too_long};
ghost use Rattle.awk_fields.specs.Takes.{Input, Takes};
ghost use Rattle.awk_fields.specs.declared.reader.Taken.TheVariants as taken;
ghost use Rattle.awk_machine.specs.Closing as spec;
ghost use Rattle.awk_machine.specs.Flushing.{has_output};
ghost use Rattle.box_world.specs.Events.{class_number, find_stream};
ghost use Rattle.std.proofs.Common.{ap};
ghost use Rattle.std.specs.Cmp as Cmp;
ghost use Rattle.std.specs.Cmp.{on_equiv, on_per};
ghost use Rattle.std.specs.Cmp.Lexicographic.{bytes_decides, nat_list_eq_equiv};
ghost use Rattle.std.specs.Map.{lookup};
ghost use Rattle.std.specs.Str.{bytes_eq};
ghost use Rattle.awk_streams.specs.Closings.{first_of};
ghost use Rattle.awk_streams.specs.declared.streams.KeptName.{KeptName};
ghost use Rattle.awk_streams.specs.declared.streams.Open.{Open};
ghost use Rattle.awk_streams.specs.Tables.{kind, has_name, open_of, entries_without, find_input, with_input, TakesLine};
ghost use Rattle.awk_streams.specs.Tables.{TakesOf};

use awk_fields::reader::{Reader, Taken};
use awk_lib::is_same;
use awk_text::Memory;
use awk_text::fault::Fault;
use indexmap::{Equivalent, IndexMap};
use std::alloc::Global;
use std::cell::Cell;
use std::hash::{Hash, Hasher};
use std::marker::Model;
use std::mem::replace;

/// What sort of stream a text names. Streams of two classes are two, whatever their texts.
#[derive(Clone, Copy, PartialEq, Eq, Drop)]
pub enum Class {
    OperandFile,
    InputFile,
    InputCommand,
    OutputFile,
    OutputCommand,
}

/// The name of a stream that the script opens, lent.
#[derive(Clone, Copy, Drop)]
pub struct StreamName<'a> {
    pub class: Class,
    pub text: &'a [u8],
}

/// The name of an open stream. It is looked up for each record that is read and each text that is put, so it is hashed
/// at once and compared by words, as a derived `Hash` and `PartialEq` would not do.
#[derive(Drop)]
pub(crate) struct KeptName {
    class: Class,
    text: Vec<u8>,
}

impl StreamName<'_> {
    /// The name with a text of its own, or `Memory` where memory is refused.
    pub(crate) fn kept(&self, alloc: Global) -> Result<KeptName, Memory>
        ensures class { IfOk result (λ x. x.class ≡ self.now.class) }
        ensures text { IfOk result (λ x. x.text.items ≡ self.now.text.now) }
    {
        Ok(KeptName {
            class: self.class,
            text: Vec::from_slice(alloc, self.text)?,
        })
    }
}

impl PartialEq for KeptName {
    ghost eq = { λ x y. nat_eq (class_number (kind x.class)) (class_number (kind y.class))
        && bytes_eq x.text.items y.text.items };

    ghost laws = { on_per (λ n. class_number (kind n.class) ∷ n.text.items)
        (Cmp.partial_equiv_from_equiv nat_list_eq_equiv) };

    fn eq(&self, other: &Self) -> bool {
        self.class == other.class && is_same(self.text.as_slice(), other.text.as_slice())
    }
}

impl Eq for KeptName {
    ghost laws = { on_equiv (λ n. class_number (kind n.class) ∷ n.text.items) nat_list_eq_equiv };
}

impl Hash for KeptName {
    ghost hash_input = { λ n. n.text.items ∷ [] };

    ghost respects_eq = { λ x y h.
        ap (λ l. drop 1 l ∷ [])
        ((bytes_decides (class_number (kind x.class) ∷ x.text.items) (class_number (kind y.class) ∷ y.text.items)).0
        h) };

    fn hash<H: Hasher>(&self, state: &mut H) {
        state.write(self.text.as_slice());
    }
}

impl PartialEq for StreamName<'_> {
    ghost eq = { λ x y. nat_eq (class_number (kind x.class)) (class_number
        (kind y.class)) && bytes_eq x.text.now y.text.now };

    ghost laws = { on_per (λ n. class_number (kind n.class) ∷ n.text.now)
        (Cmp.partial_equiv_from_equiv nat_list_eq_equiv) };

    fn eq(&self, other: &Self) -> bool {
        self.class == other.class && is_same(self.text, other.text)
    }
}

impl Eq for StreamName<'_> {
    ghost laws = { on_equiv (λ n. class_number (kind n.class) ∷ n.text.now) nat_list_eq_equiv };
}

impl Hash for StreamName<'_> {
    ghost hash_input = { λ n. n.text.now ∷ [] };

    ghost respects_eq = { λ x y h.
        ap (λ l. drop 1 l ∷ [])
        ((bytes_decides (class_number (kind x.class) ∷ x.text.now) (class_number (kind y.class) ∷ y.text.now)).0 h) };

    fn hash<H: Hasher>(&self, state: &mut H) {
        state.write(self.text);
    }
}

impl Equivalent<KeptName> for StreamName<'_> {
    ghost equivalent = { λ q n. nat_eq (class_number (kind q.class)) (class_number (kind n.class))
        && bytes_eq q.text.now n.text.items };

    ghost respects_hash = { λ q n h. ap (λ l. drop 1 l ∷ [])
        ((bytes_decides (class_number (kind q.class) ∷ q.text.now) (class_number (kind n.class) ∷ n.text.items)).0 h) };

    ghost respects_eq = { λ q x y.
        nat_list_eq_equiv.congr (class_number (kind q.class) ∷ q.text.now) (class_number (kind x.class) ∷ x.text.items)
        (class_number (kind y.class) ∷ y.text.items) };

    #[inline(always)]
    fn equivalent(&self, name: &KeptName) -> bool {
        self.class == name.class && is_same(self.text, name.text.as_slice())
    }
}

/// An open stream: its number in the world, and what was read of it.
#[derive(Drop)]
struct Open {
    number: u32,
    reader: Reader,
}

/// The open streams by their names, in order of opening, and what was read of the standard input.
#[derive(Drop)]
pub struct Streams {
    table: IndexMap<KeptName, Open>,
    input: Reader,
    /// What the next record that is read is written into
    text_room: Vec<u8>,
    /// Where the stream lies that a line was looked for in last
    last: usize,
    /// Where the stream lies whose number was asked for last. No clause tells of it
    asked: Cell<usize>,
}

impl Model for Streams {
    ghost use Rattle.std.specs.Prelude.{map};
    ghost use Rattle.indexmap.specs.IndexMap.{spare};
    ghost use Rattle.awk_streams.specs.Tables.{Table, entry_of};

    ghost Value = { Table };

    ghost view = { λ s. record { entries = map entry_of s.table.entries; input = s.input.input; room = spare s.table } };
}

/// Whether `close` shuts the streams of this sort.
fn is_closed(class: Class) -> bool
    ensures { result ≡ spec.is_closed (kind class) }
{
    class != Class::OperandFile
}

/// Where the stream of this name lies, if it is open. Most often it is the one that was looked for last, so that one is
/// tried before the name is hashed.
#[inline(always)]
fn place_of(table: &IndexMap<KeptName, Open>, last: usize, name: &StreamName<'_>) -> Option<usize>
    ensures some { IfSome result
        (λ i. (k : KeptName) × (o : Open) × (slice_get table.now.entries i ≡ Some (k, o))
        × (has_name (kind name.now.class) name.now.text.now k ≡ true)) }
    ensures none { result ≡ None → lookup (has_name (kind name.now.class) name.now.text.now) table.now.entries ≡ None }
{
    if let Some((held, _)) = table.get_index(last) {
        if name.equivalent(held) {
            return Some(last);
        }
    }
    table.get_index_of(*name)
}

impl Streams {
    /// No stream is open, and nothing is read. Takes no memory.
    pub fn new(alloc: Global) -> Streams
        ensures none { result.entries ≡ [] }
        ensures input { result.input ≡ record { unread = []; ended = false } }
    {
        Streams {
            table: IndexMap::new(alloc),
            input: Reader::new(alloc),
            text_room: Vec::new(alloc),
            last: 0,
            asked: Cell::new(0),
        }
    }

    /// The number of the stream of this name, if it is open. Takes no memory.
    pub fn number(&self, name: &StreamName<'_>) -> Option<u32>
        ensures { result ≡ find_stream (kind name.now.class) name.now.text.now (open_of self.now) }
    {
        let place = place_of(&self.table, self.asked.get(), name)?;
        self.asked.set(place);
        match self.table.get_index(place) {
            Some((_, open)) => Some(open.number),
            None => None,
        }
    }

    /// Makes room for one more stream, or answers `Memory`.
    pub fn make_room(&mut self) -> Result<(), Memory>
        ensures entries { self.new.entries ≡ self.old.entries }
        ensures input { self.new.input ≡ self.old.input }
        ensures ok { OnOk result (0 < self.new.room) }
    {
        self.table.reserve(1)
    }

    /// The next record that is read is written into this room, so that it needs no memory where it fits in. No stream
    /// changes.
    #[inline(always)]
    pub fn keep_room(&mut self, room: Vec<u8>)
        ensures { self.new ≡ self.old }
    {
        self.text_room = room;
    }

    /// The room that was kept. No stream changes.
    #[inline(always)]
    pub fn take_room(&mut self) -> Vec<u8>
        ensures { self.new ≡ self.old }
    {
        let alloc = *self.table.allocator();
        replace(&mut self.text_room, Vec::new(alloc))
    }

    /// Adds a stream of which nothing is read yet, last. There is room for it.
    pub(crate) fn add(&mut self, name: KeptName, number: u32)
        requires room { 0 < self.old.room }
        requires new { find_stream (kind name.class) name.text.items (open_of self.old) ≡ None }
        ensures entries { self.new.entries ≡ self.old.entries ++ record {
          stream = record { class = kind name.class; text = name.text.items; number = number };
          input = record { unread = []; ended = false };
        } ∷ [] }
        ensures input { self.new.input ≡ self.old.input }
    {
        let reader = Reader::new(*self.table.allocator());
        self.table.insert(name, Open { number, reader }).unwrap();
    }

    /// Takes a stream away, if it is open. Takes no memory.
    pub fn remove(&mut self, name: &StreamName<'_>)
        ensures entries { self.new.entries ≡ entries_without (kind name.now.class) name.now.text.now self.old.entries }
        ensures input { self.new.input ≡ self.old.input }
    {
        let _removed = self.table.shift_remove(*name);
    }

    /// The number of the stream that was opened first. Takes no memory.
    pub fn first_number(&self) -> Option<u32>
        ensures { result ≡ option_map (λ e. e.stream.number) (slice_get self.now.entries 0) }
    {
        match self.table.first() {
            Some((_, open)) => Some(open.number),
            None => None,
        }
    }

    /// The class and the number of the stream of this text that was opened first, an operand's aside.
    /// Takes no memory.
    pub fn first_of(&self, text: &[u8]) -> Option<(Class, u32)>
        ensures { option_map (λ x. (kind x.0, x.1)) result ≡ first_of text.now self.now.entries }
    {
        for i in 0..self.table.len() {
            if let Some((name, open)) = self.table.get_index(i) {
                if is_closed(name.class) && text == name.text.as_slice() {
                    return Some((name.class, open.number));
                }
            }
        }
        None
    }

    /// Whether an output file or an output command of this text is open. Takes no memory.
    pub fn has_output(&self, text: &[u8]) -> bool
        ensures { result ≡ has_output text.now (open_of self.now) }
    {
        let file = StreamName {
            class: Class::OutputFile,
            text,
        };
        let command = StreamName {
            class: Class::OutputCommand,
            text,
        };
        self.number(&file).is_some() || self.number(&command).is_some()
    }

    /// Takes the stream away that was opened first. Takes no memory.
    pub fn remove_first(&mut self)
        ensures entries { self.new.entries ≡ drop 1 self.old.entries }
        ensures input { self.new.input ≡ self.old.input }
    {
        let _removed = self.table.shift_remove_index(0);
    }

    /// Adds the next bytes of an input that has not ended, if it is open. `Memory` changes nothing.
    pub fn push(&mut self, name: &StreamName<'_>, bytes: &[u8]) -> Result<(), Fault>
        requires { (i : Input) → find_input (kind name.now.class) name.now.text.now self.old.entries ≡ Some i → i.ended
            ≡ false }
        ensures ok { OnOk result
            (self.new.entries ≡ with_input (kind name.now.class) name.now.text.now
            (λ i. record { unread = i.unread ++ bytes.now; ended = false }) self.old.entries) }
        ensures err { OnErr result (self.new.entries ≡ self.old.entries) }
        ensures memory { IsOkUnless result Fault.Memory }
        ensures input { self.new.input ≡ self.old.input }
    {
        let Some(place) = place_of(&self.table, self.last, name) else {
            return Ok(());
        };
        match self.table.get_index_mut(place) {
            Some(open) => open.reader.push(bytes),
            None => Ok(()),
        }
    }

    /// The first record of what is held unread of an input, which is taken; see `Reader::take`. A
    /// stream that is not open has none. Where it fails, nothing was taken.
    pub fn take(&mut self, name: &StreamName<'_>, rs: &[u8]) -> Result<Taken, Fault>
        ensures ok { IfOk result
            (λ taken. TakesOf (kind name.now.class) name.now.text.now rs.now self.old.entries taken self.new.entries) }
        ensures err { OnErr result (self.new.entries ≡ self.old.entries) }
        ensures fault { IfErr result
            (λ e. (i : Input) → find_input (kind name.now.class) name.now.text.now self.old.entries ≡ Some i
            → (e ≡ Fault.Memory) ⊎ ((e ≡ Fault.TextTooLong) × (head rs.now i.unread i.ended ≡ too_long))) }
        ensures input { self.new.input ≡ self.old.input }
    {
        let Some(place) = place_of(&self.table, self.last, name) else {
            return Ok(Taken::Done);
        };
        self.last = place;
        match self.table.get_index_mut(place) {
            Some(open) => open.reader.take(rs, &mut self.text_room),
            None => Ok(Taken::Done),
        }
    }

    /// Takes the first record of what is held unread of an input, if it is open, and writes it into the room; see
    /// `Reader::take_line`.
    #[inline(always)]
    pub fn take_line(&mut self, name: &StreamName<'_>, rs: &[u8], room: &mut Vec<u8>) -> bool
        ensures taken { result ≡ true →
            TakesLine (kind name.now.class) name.now.text.now rs.now self.old.entries room.new.items self.new.entries }
        ensures not_taken { result ≡ false → self.new ≡ self.old }
        ensures input { self.new.input ≡ self.old.input }
    {
        let Some(place) = place_of(&self.table, self.last, name) else {
            return false;
        };
        self.last = place;
        match self.table.get_index_mut(place) {
            Some(open) => open.reader.take_line(rs, room),
            None => false,
        }
    }

    /// Says that an input has ended, if it is open. Takes no memory.
    pub fn finish(&mut self, name: &StreamName<'_>)
        ensures entries { self.new.entries
            ≡ with_input (kind name.now.class) name.now.text.now (λ i. record { unread = i.unread; ended = true })
            self.old.entries }
        ensures input { self.new.input ≡ self.old.input }
    {
        if let Some(open) = self.table.get_mut(*name) {
            open.reader.finish();
        }
    }

    /// Adds the next bytes of the standard input, which has not ended. `Memory` changes nothing.
    pub fn push_standard(&mut self, bytes: &[u8]) -> Result<(), Fault>
        requires { self.old.input.ended ≡ false }
        ensures ok { OnOk result
            (self.new.input ≡ record { unread = self.old.input.unread ++ bytes.now; ended = false }) }
        ensures err { OnErr result (self.new.input ≡ self.old.input) }
        ensures memory { IsOkUnless result Fault.Memory }
        ensures entries { self.new.entries ≡ self.old.entries }
    {
        self.input.push(bytes)
    }

    /// Takes the first record of what is held unread of the standard input, and writes it into the room; see
    /// `Reader::take_line`.
    #[inline(always)]
    pub fn take_standard_line(&mut self, rs: &[u8], room: &mut Vec<u8>) -> bool
        ensures taken { result ≡ true →
            Takes (head rs.now self.old.input.unread self.old.input.ended) (taken.Record room.new.items) self.old.input
            self.new.input }
        ensures not_taken { result ≡ false → self.new ≡ self.old }
        ensures entries { self.new.entries ≡ self.old.entries }
    {
        self.input.take_line(rs, room)
    }

    /// The first record of what is held unread of the standard input, which is taken; see
    /// `Reader::take`. Where it fails, nothing was taken.
    pub fn take_standard(&mut self, rs: &[u8]) -> Result<Taken, Fault>
        ensures ok { IfOk result
            (λ taken. Takes (head rs.now self.old.input.unread self.old.input.ended) taken self.old.input
            self.new.input) }
        ensures err { OnErr result (self.new.input ≡ self.old.input) }
        ensures fault { IfErr result (λ e. (e ≡ Fault.Memory)
            ⊎ ((e ≡ Fault.TextTooLong) × (head rs.now self.old.input.unread self.old.input.ended ≡ too_long))) }
        ensures entries { self.new.entries ≡ self.old.entries }
    {
        self.input.take(rs, &mut self.text_room)
    }

    /// Says that the standard input has ended. Takes no memory.
    pub fn finish_standard(&mut self)
        ensures input { self.new.input ≡ record { unread = self.old.input.unread; ended = true } }
        ensures entries { self.new.entries ≡ self.old.entries }
    {
        self.input.finish();
    }

    /// Drops what is held unread of the standard input, whose end has not come. Takes no memory.
    pub fn forget_standard(&mut self)
        ensures input { self.new.input ≡ record { unread = []; ended = false } }
        ensures entries { self.new.entries ≡ self.old.entries }
    {
        self.input = Reader::new(*self.table.allocator());
    }
}
