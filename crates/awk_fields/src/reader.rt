// An input that comes in pieces, and its records.
ghost use Rattle.std.specs.Prelude.{◌≡◌, ◌++◌, ◌+◌, ◌-◌, ◌*◌, ◌≤◌, ◌⊎◌, length, [], true, false, drop, IfOk, OnOk};
ghost use Rattle.std.specs.Prelude.{OnErr, IfErr, IsOkUnless};
ghost use Rattle.awk_fields.specs.Heads.{head, too_long};
ghost use Rattle.awk_fields.specs.Takes.{Takes, kept};
ghost use Rattle.awk_fields.specs.declared.reader.Taken.TheVariants as taken;

use crate::front::{Front, Searched, first_record};
use crate::lines::line_len;
use awk_text::fault::Fault;
use awk_text::octets::Octets;
use std::alloc::Global;
use std::marker::Model;
use std::mem;

/// What `Reader::take` answers.
#[derive(Drop)]
pub enum Taken {
    /// The record's text, without what ended it.
    Record(Octets),
    /// The record's end can't be seen yet: push more, or finish.
    NeedMore,
    /// The input has ended, and no record is left.
    Done,
}

/// The bytes of an input that are not taken yet, and whether it has ended. They lie in one window, with taken ones in
/// front until a `push` finds these to be at least as many as the others, and drops them. So what moves is paid for by
/// what was taken, and after each `push` the window holds at most twice what is unread.
#[derive(Drop)]
pub struct Reader {
    bytes: Vec<u8>,
    start: usize,
    searched: Searched,
    ended: bool,
}

impl Model for Reader {
    ghost use Rattle.std.specs.Prelude.{◌≤◌, drop, length};
    ghost use Rattle.awk_fields.specs.Takes.{Window};
    ghost use Rattle.awk_fields.specs.Unread.{IsSearched};

    ghost Value = { Window };

    ghost view = { λ r. record {
      input = record { unread = drop r.start r.bytes.items; ended = r.ended };
      held = length r.bytes.items;
    } };

    ghost invariant = { λ r. (r.start ≤ length r.bytes.items) × IsSearched (drop r.start r.bytes.items) r.searched };
}

/// Drops the bytes in front of `start` once they are at least as many as the others, and answers
/// where the others begin then.
fn compact(bytes: &mut Vec<u8>, start: usize) -> usize
    requires { start ≤ length bytes.old.items }
    ensures unread { drop result bytes.new.items ≡ drop start bytes.old.items }
    ensures inside { result ≤ length bytes.new.items }
    ensures held { length bytes.new.items ≡ kept (length bytes.old.items - start) (length bytes.old.items) }
{
    let left = bytes.len() - start;
    if start < left {
        return start;
    }
    bytes.copy_within(start.., 0);
    bytes.truncate(left);
    0
}

impl Reader {
    /// A reader of an input of which nothing has come. Takes no memory.
    pub fn new(alloc: Global) -> Reader
        ensures { result ≡ record { input = record { unread = []; ended = false }; held = 0 } }
    {
        Reader {
            bytes: Vec::new(alloc),
            start: 0,
            searched: Searched::Byte(0, 0),
            ended: false,
        }
    }

    /// Adds the next bytes of the input, in a piece of any length.
    ///
    /// Fails with `Fault::Memory` alone, where memory is refused; then nothing was added, and no more is held
    /// than before.
    pub fn push(&mut self, bytes: &[u8]) -> Result<(), Fault>
        requires { self.old.input.ended ≡ false }
        ensures ok { OnOk result
            (self.new.input ≡ record { unread = self.old.input.unread ++ bytes.now; ended = false }) }
        ensures err { OnErr result (self.new.input ≡ self.old.input) }
        ensures memory { IsOkUnless result Fault.Memory }
        ensures dropped { OnOk result
            (self.new.held ≡ kept (length self.old.input.unread) self.old.held + length bytes.now) }
        ensures within { OnOk result (self.new.held ≤ 2 * length self.new.input.unread) }
        ensures not_more { OnErr result (self.new.held ≤ self.old.held) }
    {
        self.start = compact(&mut self.bytes, self.start);
        self.bytes.extend_from_slice(bytes)?;
        Ok(())
    }

    /// Says that the input has ended. Takes no memory.
    pub fn finish(&mut self)
        ensures input { self.new.input ≡ record { unread = self.old.input.unread; ended = true } }
        ensures held { self.new.held ≡ self.old.held }
    {
        self.ended = true;
    }

    /// How many bytes lie in the window: the unread ones, and the taken ones that no `push` has dropped yet.
    /// Takes no memory.
    pub fn held(&self) -> usize
        ensures bytes { result ≡ self.now.held }
        ensures unread { length self.now.input.unread ≤ result }
    {
        self.bytes.len()
    }

    /// Takes the first record, where RS is one byte that is held and the record needs no other look. Its text is
    /// written in place of what lies in the room. Answers whether it did; where it did not, which may be for want of
    /// memory, nothing was taken, and `take` says what there is.
    #[inline(always)]
    pub fn take_line(&mut self, rs: &[u8], room: &mut Vec<u8>) -> bool
        ensures taken { result ≡ true →
            Takes (head rs.now self.old.input.unread self.old.input.ended) (taken.Record room.new.items) self.old.input
            self.new.input }
        ensures not_taken { result ≡ false → self.new ≡ self.old }
        ensures held { self.new.held ≡ self.old.held }
    {
        let unread = &self.bytes[self.start..];
        let Some(len) = line_len(unread, rs, self.searched) else {
            return false;
        };
        room.clear();
        if room.extend_from_slice(&unread[..len]).is_err() {
            return false;
        }
        self.start += len + 1;
        true
    }

    /// The first record of what is unread, which is taken. RS is its first byte, or, where it is
    /// empty, two newlines in a row. `NeedMore` and `Done` take nothing. The text is written into the
    /// room that is given, whatever lies there.
    ///
    /// Fails with `Fault::TextTooLong` exactly where more than `MOST_BYTES` bytes of the record lie
    /// before its end, or are held and no end was seen, and with `Fault::Memory` where memory is
    /// refused; then nothing was taken.
    #[inline(always)]
    pub fn take(&mut self, rs: &[u8], room: &mut Vec<u8>) -> Result<Taken, Fault>
        ensures ok { IfOk result
            (λ taken. Takes (head rs.now self.old.input.unread self.old.input.ended) taken self.old.input
            self.new.input) }
        ensures err { OnErr result (self.new ≡ self.old) }
        ensures held { self.new.held ≡ self.old.held }
        ensures ended { self.new.input.ended ≡ self.old.input.ended }
        ensures fault { IfErr result (λ e. (e ≡ Fault.Memory)
            ⊎ ((e ≡ Fault.TextTooLong) × (head rs.now self.old.input.unread self.old.input.ended ≡ too_long))) }
    {
        if self.take_line(rs, room) {
            let alloc = *room.allocator();
            return Ok(Taken::Record(Octets::new(mem::replace(room, Vec::new(alloc)))));
        }
        self.take_any(rs, room)
    }

    /// As `take`. It stands out of line, since few records need it.
    #[inline(never)]
    fn take_any(&mut self, rs: &[u8], room: &mut Vec<u8>) -> Result<Taken, Fault>
        ensures ok { IfOk result
            (λ taken. Takes (head rs.now self.old.input.unread self.old.input.ended) taken self.old.input
            self.new.input) }
        ensures err { OnErr result (self.new ≡ self.old) }
        ensures held { self.new.held ≡ self.old.held }
        ensures ended { self.new.input.ended ≡ self.old.input.ended }
        ensures fault { IfErr result (λ e. (e ≡ Fault.Memory)
            ⊎ ((e ≡ Fault.TextTooLong) × (head rs.now self.old.input.unread self.old.input.ended ≡ too_long))) }
    {
        let alloc = *self.bytes.allocator();
        let unread = &self.bytes[self.start..];
        match first_record(unread, rs, self.searched, self.ended) {
            Front::TooLong => Err(Fault::TextTooLong),
            Front::Done => Ok(Taken::Done),
            Front::NeedMore(searched) => {
                self.searched = searched;
                Ok(Taken::NeedMore)
            }
            Front::Record(start, end, next) => {
                let mut text = mem::replace(room, Vec::new(alloc));
                text.clear();
                text.extend_from_slice(&unread[start..end])?;
                self.start += next;
                self.searched = Searched::Byte(0, 0);
                Ok(Taken::Record(Octets::new(text)))
            }
        }
    }
}
