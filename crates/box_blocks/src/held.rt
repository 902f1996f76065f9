// What is held of one stream.
ghost use Rattle.std.specs.Prelude.{◌≡◌, ◌≤◌, ◌++◌, Some, false, length, option_map, IfSome, OnSome, IsTrue};
ghost use Rattle.box_blocks.specs.HeldBytes.{bytes_of, writing_of};
ghost use Rattle.box_blocks.specs.Parts.{Writing, put_of};

use awk_text::octets::Octets;
use awk_text::place::Place;
use box_world::ask::{Ask, Request};
use std::alloc::Global;

/// The most bytes that are held.
const MOST_HELD: usize = 65_536;

/// The bytes that are held. No more are joined to those that a world had no memory to write.
#[derive(Drop)]
pub enum Kept {
    Growing(Vec<u8>),
    Whole(Octets),
}

impl Kept {
    fn into_octets(self) -> Octets
        ensures { result ≡ bytes_of self }
    {
        match self {
            Kept::Growing(bytes) => Octets::new(bytes),
            Kept::Whole(bytes) => bytes,
        }
    }
}

/// A request to write, to which others are joined.
#[derive(Drop)]
pub struct Held {
    pub place: Place,
    pub given: bool,
    pub number: u32,
    pub bytes: Kept,
}

impl Held {
    /// Holds the bytes, or does not where they are too many or memory is refused.
    pub fn begin(
        alloc: Global,
        place: Place,
        given: bool,
        number: u32,
        bytes: &[u8],
    ) -> Option<Held>
        ensures begun { IfSome result (λ held. writing_of held
            ≡ record { place = place; given = given; number = number; bytes = bytes.now }) }
        ensures within { OnSome result (length bytes.now ≤ 65536) }
    {
        if MOST_HELD < bytes.len() {
            return None;
        }
        let mut kept = Vec::with_capacity(alloc, MOST_HELD).ok()?;
        kept.extend_from_slice(bytes).ok()?;
        Some(Held {
            place,
            given,
            number,
            bytes: Kept::Growing(kept),
        })
    }

    /// Joins more bytes to the same stream where there is room, and else leaves all as it was.
    pub fn join(&mut self, number: u32, more: &[u8]) -> bool
        ensures number { IsTrue result → number ≡ self.old.number }
        ensures joined { IsTrue result → writing_of self.new
            ≡ record (writing_of self.old) { bytes = bytes_of self.old.bytes ++ more.now } }
        ensures within { IsTrue result → length (bytes_of self.new.bytes) ≤ 65536 }
        ensures refused { result ≡ false → writing_of self.new ≡ writing_of self.old }
    {
        if number != self.number {
            return false;
        }
        match &mut self.bytes {
            Kept::Growing(bytes) => {
                bytes.len() + more.len() <= MOST_HELD && bytes.extend_from_slice(more).is_ok()
            }
            Kept::Whole(_) => false,
        }
    }

    /// The request, to be asked. Takes no memory.
    pub fn into_ask(self) -> Ask
        ensures { result ≡ put_of (writing_of self) }
    {
        let Held {
            place,
            given,
            number,
            bytes,
        } = self;
        Ask {
            place,
            given,
            request: Request::Put(number, bytes.into_octets()),
        }
    }

    /// Holds again what was to be asked. Takes no memory.
    pub fn again(ask: Ask) -> Option<Held>
        ensures { (w : Writing) → ask ≡ put_of w → option_map writing_of result ≡ Some w }
    {
        let Ask {
            place,
            given,
            request,
        } = ask;
        match request {
            Request::Put(number, bytes) => Some(Held {
                place,
                given,
                number,
                bytes: Kept::Whole(bytes),
            }),
            _ => None,
        }
    }
}
