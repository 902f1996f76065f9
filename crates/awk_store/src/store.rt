// What a run holds.
ghost use Rattle.std.specs.Prelude.{◌≡◌, nat_lt, get_or, false, map, if◌then◌else◌, IfOk, OnOk, OnErr, IsOkUnless};
ghost use Rattle.awk_store.specs.Changes.{first_cell, first_kept, stepped, with_flag, with_main, with_on, with_phase};
ghost use Rattle.awk_store.specs.Changes.{with_random, with_status};
ghost use Rattle.awk_numbers.specs.Random.{advanced, drawn, reseeded, seed_of};
ghost use Rattle.awk_store.specs.Inputs.{main_of};

use crate::cell::Cell;
use crate::frame::Bound;
use crate::main_input::MainInput;
use crate::phase::Phase;
use crate::separators::Separators;
use awk_fields::Record;
use awk_hash::Seed;
use awk_lib::array::Array;
use awk_numbers::number::{Number, Numbers};
use awk_numbers::random::Random;
use awk_program::GlobalName;
use awk_text::Memory;
use awk_text::fault::Fault;
use awk_text::value::Value;
use std::alloc::{AllocError, Global};
use std::marker::Model;
use std::mem;

/// What a run of a script holds, apart from the script and the world.
#[derive(Drop)]
pub struct Store {
    pub(crate) alloc: Global,
    /// What the arrays hash by
    pub(crate) seed: Seed,
    /// Which numbers the script has
    pub(crate) numbers: Numbers,
    /// What `rand` draws from
    random: Random,
    /// The variables of the whole script, by their slots
    pub(crate) cells: Vec<Cell>,
    /// The parameters of the present call
    pub(crate) frame: Vec<Bound>,
    pub(crate) depth: u32,
    /// The arrays that calls have made
    pub(crate) made: Vec<Array<Value>>,
    /// What calls that have ended kept their parameters in, for the next ones
    pub(crate) spare: Vec<Vec<Bound>>,
    pub(crate) row: Record,
    pub(crate) separators: Separators,
    phase: Phase,
    on: Vec<bool>,
    main: MainInput,
    status: Option<u8>,
    used: u64,
}

impl Model for Store {
    ghost use Rattle.awk_store.specs.Kept.{Kept};

    ghost Value = { Kept };

    ghost use Rattle.awk_store.specs.Inputs.{main_of};

    ghost view = { λ s. record {
      numbers = s.numbers;
      random = s.random;
      cells = s.cells.items;
      frame = s.frame.items;
      depth = s.depth;
      made = s.made.items;
      row = s.row;
      phase =
          s.phase;
      on = s.on.items;
      main = main_of s.main;
      status = s.status;
      used = s.used;
    } };
}

impl Store {
    /// What a run begins with, for a script with these variables and numbers of this profile. Its arrays hash by this
    /// seed, and `srand ( )` seeds by what the setup gives.
    ///
    /// Fails with `Fault::Memory` alone, where memory is refused.
    pub fn new(
        alloc: Global,
        seed: Seed,
        numbers: Numbers,
        setup: Number,
        names: &[GlobalName],
    ) -> Result<Store, Fault>
        ensures ok { IfOk result (λ store. store ≡ first_kept numbers setup names.now) }
        ensures err { IsOkUnless result Fault.Memory }
    {
        Ok(Store {
            alloc,
            seed,
            numbers,
            random: Random::new(setup),
            cells: first_cells(alloc, seed, names)?,
            frame: Vec::new(alloc),
            depth: 0,
            made: Vec::new(alloc),
            spare: Vec::new(alloc),
            row: Record::new(alloc),
            separators: Separators::new(),
            phase: Phase::Beginning,
            on: Vec::new(alloc),
            main: MainInput::new(),
            status: None,
            used: 0,
        })
    }

    /// Which numbers the script has.
    #[inline(always)]
    pub fn numbers(&self) -> Numbers
        ensures { result ≡ self.now.numbers }
    {
        self.numbers
    }

    /// The next random number.
    pub fn draw(&mut self) -> Number
        ensures value { result ≡ drawn self.old.random }
        ensures after { self.new ≡ with_random (advanced self.old.random) self.old }
    {
        self.random.draw()
    }

    /// Seeds the random numbers by a number, or where none is given by what the setup gives, and answers the seed
    /// before.
    pub fn reseed(&mut self, seed: Option<Number>) -> Number
        ensures value { result ≡ seed_of self.old.random }
        ensures after { self.new ≡ with_random (reseeded seed self.old.random) self.old }
    {
        self.random.reseed(seed)
    }

    /// The part of the program that runs.
    pub fn phase(&self) -> Phase
        ensures { result ≡ self.now.phase }
    {
        self.phase
    }

    pub fn set_phase(&mut self, phase: Phase)
        ensures { self.new ≡ with_phase phase self.old }
    {
        self.phase = phase;
    }

    /// Whether the range of the rule at this place is on.
    pub fn is_on(&self, rule: usize) -> bool
        ensures { result ≡ get_or self.now.on rule false }
    {
        match self.on.get(rule) {
            Some(on) => *on,
            None => false,
        }
    }

    /// Turns the range of the rule at this place on or off.
    ///
    /// Fails with `Memory` where memory is refused; then nothing has changed.
    pub fn set_on(&mut self, rule: usize, on: bool) -> Result<(), Memory>
        ensures ok { OnOk result (self.new ≡ with_on rule on self.old) }
        ensures err { OnErr result (self.new ≡ self.old) }
    {
        set_flag(&mut self.on, rule, on)
    }

    /// How far the main input is read.
    pub fn main(&self) -> &MainInput
        ensures { main_of result.now ≡ self.now.main }
    {
        &self.main
    }

    /// Puts this in place of how far the main input is read, and answers that: so a part of it is changed outside the
    /// store.
    pub fn replace_main(&mut self, main: MainInput) -> MainInput
        ensures value { main_of result ≡ self.old.main }
        ensures after { self.new ≡ with_main (main_of main) self.old }
    {
        mem::replace(&mut self.main, main)
    }

    /// The status that an `exit` gave.
    pub fn status(&self) -> Option<u8>
        ensures { result ≡ self.now.status }
    {
        self.status
    }

    pub fn set_status(&mut self, status: u8)
        ensures { self.new ≡ with_status status self.old }
    {
        self.status = Some(status);
    }

    /// The steps that were taken.
    pub fn used(&self) -> u64
        ensures { result ≡ self.now.used }
    {
        self.used
    }

    /// Takes a step, and answers whether one was left.
    pub fn step(&mut self, bound: u64) -> bool
        ensures left { result ≡ nat_lt self.old.used bound }
        ensures after { self.new ≡ (if nat_lt self.old.used bound then stepped self.old else self.old) }
    {
        if self.used >= bound {
            return false;
        }
        self.used += 1;
        true
    }
}

/// Sets the flag at this place, after as many unset ones as there must be.
fn set_flag(flags: &mut Vec<bool>, at: usize, on: bool) -> Result<(), Memory>
    ensures ok { OnOk result (flags.new.items ≡ with_flag flags.old.items at on) }
    ensures err { OnErr result (flags.new.items ≡ flags.old.items) }
{
    if at >= flags.len() {
        let Some(count) = at.checked_add(1) else {
            return Err(AllocError);
        };
        flags.resize(count, false)?;
    }
    flags[at] = on;
    Ok(())
}

/// The variables as they are when a run begins.
fn first_cells(alloc: Global, seed: Seed, names: &[GlobalName]) -> Result<Vec<Cell>, Fault>
    ensures ok { IfOk result (λ cells. cells.items ≡ map first_cell names.now) }
    ensures err { IsOkUnless result Fault.Memory }
{
    let mut cells = Vec::with_capacity(alloc, names.len())?;
    for name in names {
        cells.push(Cell::first(alloc, seed, name)?)?;
    }
    Ok(cells)
}
