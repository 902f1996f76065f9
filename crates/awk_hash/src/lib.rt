//! Hashes by a seed, so that whoever picks the keys of a table can't foresee which of them collide.
#![tactic(auto)]

ghost use Rattle.std.specs.Prelude.{◌≡◌, length};
ghost use Rattle.std.specs.List.{fold};
ghost use Rattle.awk_hash.specs.Pieces.{pieces};

use std::hash::{BuildHasher, FoldHasher, Hasher, RandomState};
use std::io;
use std::random::RandomSource;

/// What a table hashes by: a hasher to which a number was written that nobody knows.
#[derive(Clone, Copy, Drop)]
pub struct Seed {
    start: FoldHasher,
}

impl Seed {
    /// The seed of this number, which hides nothing where the number is known.
    pub fn of(number: u64) -> Seed {
        let mut start = FoldHasher::default();
        start.write_u64(number);
        Seed { start }
    }

    /// A seed of the system's random bytes, or why there are none.
    pub fn random(source: &impl RandomSource) -> io::Result<Seed> {
        let keys = RandomState::new(source)?;
        Ok(Seed::of(keys.hash_one(&0u8)))
    }
}

impl BuildHasher for Seed {
    type Hasher = FoldHasher;

    ghost build_hasher = { λ s. s.start };

    #[inline(always)]
    fn build_hasher(&self) -> FoldHasher {
        self.start
    }
}

/// Writes a text in pieces of at most 8 bytes. `FoldHasher` takes 16 bytes of a longer one at once, and multiplies by
/// the last 8 of them: whoever makes that factor 0, which takes no seed, makes all such texts collide.
#[inline(always)]
#[tactic(auto, using(crate::proofs::Cutting::cut, crate::proofs::Cutting::uncut))]
pub fn write_text<H: Hasher>(state: &mut H, text: &[u8])
    ensures { state.new ≡ fold H.write state.old (pieces text.now) }
{
    let mut rest = text;
    while rest.len() > 8 {
        let (piece, others) = rest.split_at(8);
        state.write(piece);
        rest = others;
    }
    state.write(rest);
}
