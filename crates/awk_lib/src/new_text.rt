// A text that is made piece by piece, as far as it is within the limit.
ghost use Rattle.std.specs.Prelude.{◌≡◌, ◌≤◌, ◌⊎◌, [], Some, None, length, OnOk, IfOk, IfErr};
ghost use Rattle.awk_lib.specs.Written.{written};
ghost use Rattle.awk_text.specs.Limits.{most_bytes};

use awk_text::Memory;
use awk_text::fault::Fault;
use awk_text::octets::Octets;
use awk_text::texts::MOST_BYTES;
use std::alloc::Global;
use std::marker::Model;

/// The text so far, or that it has gone over `MOST_BYTES`: then no more is kept of it.
#[derive(Drop)]
pub struct NewText {
    bytes: Vec<u8>,
    is_too_long: bool,
}

impl Model for NewText {
    ghost use Rattle.std.specs.Prelude.{List, Option, Some, None, ℕ, ◌≤◌, vec_len, if◌then◌else◌};
    ghost use Rattle.awk_text.specs.Limits.{most_bytes};

    ghost Value = { Option (List ℕ) };

    ghost view = { λ t. if t.is_too_long then None else Some t.bytes.items };

    ghost invariant = { λ t. vec_len t.bytes ≤ most_bytes };
}

impl NewText {
    /// The empty text, with room for about so many bytes.
    pub fn with_room(alloc: Global, room: usize) -> Result<NewText, Memory>
        ensures { IfOk result (λ t. t ≡ Some []) }
    {
        Ok(NewText {
            bytes: Vec::with_capacity(alloc, room.min(MOST_BYTES))?,
            is_too_long: false,
        })
    }

    /// Adds the piece.
    pub fn push(&mut self, piece: &[u8]) -> Result<(), Memory>
        ensures { OnOk result (self.new ≡ written self.old piece.now) }
    {
        if MOST_BYTES - self.bytes.len() < piece.len() {
            self.is_too_long = true;
        }
        if !self.is_too_long {
            self.bytes.extend_from_slice(piece)?;
        }
        Ok(())
    }

    /// The text with its last piece.
    ///
    /// Fails with `Fault::TextTooLong` where it is over `MOST_BYTES`, and with `Fault::Memory` where memory
    /// is refused.
    pub fn finish(mut self, piece: &[u8]) -> Result<Octets, Fault>
        ensures ok { IfOk result (λ text. written self piece.now ≡ Some text) }
        ensures fits { IfOk result (λ text. length text ≤ most_bytes) }
        ensures err { IfErr result
            (λ e. (e ≡ Fault.Memory) ⊎ ((e ≡ Fault.TextTooLong) × (written self piece.now ≡ None))) }
    {
        self.push(piece)?;
        if self.is_too_long {
            return Err(Fault::TextTooLong);
        }
        Ok(Octets::new(self.bytes))
    }
}
