// Random numbers by SplitMix64.
ghost use Rattle.std.specs.Prelude.{◌≡◌};
ghost use Rattle.awk_numbers.specs.Random.{advanced, drawn, first_random, fraction, next_state, reseeded, seed_of};
ghost use Rattle.awk_numbers.specs.Random.{seeded, state_of, word};

use crate::number::{Number, settle};

/// 2^-53.
const UNIT: f64 = 1.1102230246251565e-16;

/// The state behind this one. Takes no memory.
pub fn next_state(state: u64) -> u64
    ensures { result ≡ next_state state }
{
    state.wrapping_add(0x9e37_79b9_7f4a_7c15)
}

/// The 64 bits that the state gives.
fn word(state: u64) -> u64
    ensures { result ≡ word state }
{
    let behind = next_state(state);
    let first = (behind ^ (behind >> 30)).wrapping_mul(0xbf58_476d_1ce4_e5b9);
    let second = (first ^ (first >> 27)).wrapping_mul(0x94d0_49bb_1331_11eb);
    second ^ (second >> 31)
}

/// The number from 0 to below 1 that the state gives: 53 of its bits. Takes no memory.
pub fn fraction(state: u64) -> f64
    ensures { result ≡ fraction (word state) }
{
    (word(state) >> 11) as f64 * UNIT
}

/// A sequence of random numbers: what it was seeded by, how far it is, and what seeds it where no number is given.
#[derive(Clone, Copy, Drop)]
pub struct Random {
    seed: Number,
    state: u64,
    setup: Number,
}

/// The state that a number seeds: a whole one modulo 2^64, of another its 64 bits.
fn state_of(seed: Number) -> u64
    ensures { result ≡ state_of seed }
{
    match seed {
        Number::Whole(n) => n.cast_unsigned(),
        Number::Real(x) if x.is_nan() => 0,
        Number::Real(x) => x.to_bits(),
    }
}

fn seeded(seed: Number, setup: Number) -> Random
    ensures { result ≡ seeded seed setup }
{
    Random {
        seed,
        state: state_of(seed),
        setup,
    }
}

impl Random {
    /// A sequence that is seeded by 0; `setup` seeds it later where no number is given. Takes no memory.
    pub fn new(setup: Number) -> Random
        ensures { result ≡ first_random setup }
    {
        seeded(Number::Whole(0), setup)
    }

    /// The next number, from 0 to below 1. Takes no memory.
    pub fn draw(&mut self) -> Number
        ensures value { result ≡ drawn self.old }
        ensures behind { self.new ≡ advanced self.old }
    {
        let drawn = fraction(self.state);
        self.state = next_state(self.state);
        settle(drawn).unwrap_or(Number::Whole(0))
    }

    /// Begins anew, seeded by the number, or by the setup's where there is none, and gives the seed before. Takes no
    /// memory.
    pub fn reseed(&mut self, seed: Option<Number>) -> Number
        ensures value { result ≡ seed_of self.old }
        ensures behind { self.new ≡ reseeded seed self.old }
    {
        let before = self.seed;
        *self = seeded(seed.unwrap_or(self.setup), self.setup);
        before
    }
}
