// The text that is made, as far as it is within the limit.
ghost use Rattle.std.specs.Prelude.{◌≡◌, List, ℕ, [], Some, None, replicate, OnOk, IfOk, IfErr};
ghost use Rattle.awk_format.specs.Written.{written};

use awk_text::Memory;
use awk_text::fault::Fault;
use awk_text::texts::MOST_BYTES;
use std::alloc::Global;
use std::marker::Model;

/// The text so far, or that it has gone over `MOST_BYTES`: then a fault further on in the format
/// still comes first.
#[derive(Drop)]
pub struct Output {
    bytes: Vec<u8>,
    too_long: bool,
}

impl Model for Output {
    ghost use Rattle.std.specs.Prelude.{List, Option, Some, None, ℕ, ◌≤◌, vec_len, if◌then◌else◌};
    ghost use Rattle.awk_text.specs.Limits.{most_bytes};

    ghost Value = { Option (List ℕ) };

    ghost view = { λ o. if o.too_long then None else Some o.bytes.items };

    ghost invariant = { λ o. vec_len o.bytes ≤ most_bytes };
}

impl Output {
    /// The empty text, with room for about so many bytes.
    pub fn with_room(alloc: Global, room: usize) -> Result<Output, Memory>
        ensures { IfOk result (λ o. o ≡ Some []) }
    {
        Ok(Output {
            bytes: Vec::with_capacity(alloc, room.min(MOST_BYTES))?,
            too_long: false,
        })
    }

    /// Adds the piece. Most leads and many plain texts are empty, and are not worth a call.
    #[inline(always)]
    pub fn push(&mut self, piece: &[u8]) -> Result<(), Memory>
        ensures { OnOk result (self.new ≡ written self.old piece.now) }
    {
        // That the text is within the limit is known where a field is read.
        let _ = &self.bytes;
        if piece.is_empty() {
            return Ok(());
        }
        self.push_some(piece)
    }

    fn push_some(&mut self, piece: &[u8]) -> Result<(), Memory>
        ensures { OnOk result (self.new ≡ written self.old piece.now) }
    {
        if MOST_BYTES - self.bytes.len() < piece.len() {
            self.too_long = true;
        }
        if !self.too_long {
            self.bytes.extend_from_slice(piece)?;
        }
        Ok(())
    }

    /// Adds the byte so many times, which is mostly not at all.
    #[inline(always)]
    pub fn fill(&mut self, byte: u8, count: usize) -> Result<(), Memory>
        ensures { OnOk result (self.new ≡ written self.old (replicate count byte)) }
    {
        let _ = &self.bytes;
        if count == 0 {
            return Ok(());
        }
        self.fill_some(byte, count)
    }

    fn fill_some(&mut self, byte: u8, count: usize) -> Result<(), Memory>
        ensures { OnOk result (self.new ≡ written self.old (replicate count byte)) }
    {
        if MOST_BYTES - self.bytes.len() < count {
            self.too_long = true;
        }
        if !self.too_long {
            self.bytes.resize(self.bytes.len() + count, byte)?;
        }
        Ok(())
    }

    /// The text.
    ///
    /// Fails with `Fault::TextTooLong` where it has gone over `MOST_BYTES`.
    pub fn finish(self) -> Result<Vec<u8>, Fault>
        ensures ok { IfOk result (λ text. written self [] ≡ Some text.items) }
        ensures err { IfErr result (λ e. (e ≡ Fault.TextTooLong) × (written self [] ≡ None)) }
    {
        if self.too_long {
            return Err(Fault::TextTooLong);
        }
        Ok(self.bytes)
    }
}
