// The states of a table: sets of steps, with their cells.
ghost use Rattle.std.specs.Prelude.{◌≡◌, ◌⊎◌, ◌+◌, ◌++◌, ◌<◌, ◌≤◌, ◌∷◌, [], ℕ, true, length, slice_index, Contains};
ghost use Rattle.std.specs.Prelude.{IfOk, OnOk, IfSome, if◌then◌else◌};
ghost use Rattle.awk_ere.specs.Closure.{IsRoom};
ghost use Rattle.awk_ere.specs.Making.{AreClosed, AreMade, IsMadeBy, IsMaker};
ghost use Rattle.awk_ere.specs.Program.{IsSound};
ghost use Rattle.awk_ere.specs.Table.{steps_of, Later, IsNumber, IsKnown, AreRows, AreFlags, EndsAtLast, IsFirst};
ghost use Rattle.awk_ere.specs.Table.{IsBegin, IsDead, IsBuilt, AreHeads, AreSpread};

use crate::bracket::Set;
use crate::closure::{INSIDE, Room, find_eating, find_led, find_targets, has_done, state_ends};
use crate::edges::{alike, edges, list_edges};
use crate::heads::{Heads, any_heads, make_heads};
use crate::pieces::StepLists;
use crate::program::Instruction;
use crate::search::TextEnds;
use std::alloc::{AllocError, Global};

/// The number of no state: the table does not say where the search goes on.
pub const UNKNOWN: u8 = 255;

/// The state that has no step.
pub const DEAD: u8 = 0;

/// The longest program that gets a table.
const MAX_STEPS: usize = 2000;

/// How much work may be done for a table: about how many steps are looked at.
const MAX_WORK: usize = 1_000_000;

/// How many hashes kernels have.
const SLOTS: usize = 1024;

/// An odd number without a pattern in its bits, by which a hash is multiplied.
const MIXER: usize = 0x9E37_79B9_7F4A_7C15;

/// The edges of a step cost as much as looking at so many steps, since it may take a set of bytes.
const EDGE_WORK: usize = 8;

/// The states of a table so far, each by its steps, and how much work may still be done for more of them.
#[derive(Drop)]
struct States {
    lists: StepLists,
    /// The lists of steps that bytes lead to, before what those lead to without reading is added, and the number of the
    /// state that each of them makes: most cells have one that another cell had.
    kernels: StepLists,
    numbers: Vec<u8>,
    /// For each hash the place of the last kernel that has it.
    slots: Vec<u16>,
    /// The steps that take bytes of the state whose row is being made, the kernel of the cell that is, and the steps of
    /// a state that may be new.
    eats: Vec<usize>,
    found: Vec<usize>,
    steps: Vec<usize>,
    room: Room,
    work: usize,
}

/// Whether the list stands at the place.
fn is_at(lists: &StepLists, at: usize, list: &[usize]) -> bool
    ensures { result ≡ true → (at < length lists.now) × (steps_of lists.now at ≡ list.now) }
{
    at < lists.len() && lists.list(at) == list
}

/// Where the list stands.
fn place_of(lists: &StepLists, list: &[usize]) -> Option<usize>
    ensures { IfSome result (λ at. (at < length lists.now) × (steps_of lists.now at ≡ list.now)) }
{
    for at in 0..lists.len() {
        if is_at(lists, at, list) {
            return Some(at);
        }
    }
    None
}

/// The number of the state with these steps, which is added where it is new and there is room.
fn number(lists: &mut StepLists, list: &[usize]) -> Result<u8, AllocError>
    ensures grown { OnOk result ((lists.new ≡ lists.old) ⊎ (lists.new ≡ lists.old ++ list.now ∷ [])) }
    ensures number { IfOk result (λ n. IsNumber list.now lists.new n) }
{
    match place_of(lists, list) {
        Some(at) => {
            if at < UNKNOWN as usize {
                Ok(at as u8)
            } else {
                Ok(UNKNOWN)
            }
        }
        None => {
            let at = lists.len();
            if at < UNKNOWN as usize {
                lists.push(list)?;
                Ok(at as u8)
            } else {
                Ok(UNKNOWN)
            }
        }
    }
}

/// A hash of the kernel.
fn slot_of(kernel: &[usize]) -> usize
    ensures { result < SLOTS }
{
    let mut hash = 0usize;
    for at in kernel {
        hash = hash.wrapping_add(*at).wrapping_add(1).wrapping_mul(MIXER);
    }
    (hash >> 32) % SLOTS
}

/// Fills the row with the state, from the byte on.
fn fill_from(row: &mut [u8; 256], byte: usize, state: u8)
    requires { byte < 256 }
    ensures kept { (b : ℕ) → b < byte → slice_index row.new b ≡ slice_index row.old b }
    ensures rest { (b : ℕ) → byte ≤ b → b < 256 → slice_index row.new b ≡ state }
{
    for at in byte..256usize {
        row[at] = state;
    }
}

/// What the rows of a table are made by: a program, and for each byte the last of those from it on that no step of the
/// program tells from it.
#[derive(Clone, Copy)]
struct Maker<'a> {
    sets: &'a [Set],
    program: &'a [Instruction],
    alike: &'a [u8; 256],
}

impl<'a> Maker<'a> {
    /// Makes the state of the kernel that was found, and keeps both.
    #[inline(never)]
    fn add_kernel(&self, states: &mut States) -> Result<u8, AllocError>
        requires sound { IsSound self.now.program.now }
        requires made { AreMade self.now.program.now states.old }
        ensures made { OnOk result (AreMade self.now.program.now states.new) }
        ensures later { OnOk result (Later states.old.lists states.new.lists) }
        ensures eats { OnOk result (states.new.eats.items ≡ states.old.eats.items) }
        ensures state { IfOk result
            (λ n. IsMadeBy self.now.program.now states.new.lists states.old.found.items n) }
    {
        let program = self.program;
        find_led(
            program,
            INSIDE,
            &states.found,
            &mut states.room,
            &mut states.steps,
        )?;
        let looked = program.len().saturating_add(states.lists.len());
        states.work = states.work.saturating_sub(looked);
        let state = number(&mut states.lists, &states.steps)?;
        states.kernels.push(&states.found)?;
        states.numbers.push(state)?;
        Ok(state)
    }

    /// The state after the byte, from the steps that take bytes. Most cells have a kernel that another one had.
    fn cell(&self, byte: u8, states: &mut States) -> Result<u8, AllocError>
        requires sound { IsSound self.now.program.now }
        requires made { AreMade self.now.program.now states.old }
        ensures made { OnOk result (AreMade self.now.program.now states.new) }
        ensures later { OnOk result (Later states.old.lists states.new.lists) }
        ensures eats { OnOk result (states.new.eats.items ≡ states.old.eats.items) }
        ensures known { IfOk result (λ n. IsKnown self.now.sets.now self.now.program.now byte states.old.eats.items
            states.new.lists n) }
    {
        find_targets(
            self.sets,
            self.program,
            &states.eats,
            byte,
            &mut states.found,
        )?;
        states.work = states.work.saturating_sub(states.eats.len());
        let slot = slot_of(&states.found);
        let kernel = states.slots[slot] as usize;
        if is_at(&states.kernels, kernel, &states.found) {
            return Ok(states.numbers[kernel]);
        }
        states.slots[slot] = states.kernels.len().min(u16::MAX as usize) as u16;
        let state = self.add_kernel(states)?;
        Ok(state)
    }

    /// The states after each byte. A cell is made where some step of the state goes on otherwise than over the byte
    /// before.
    fn row(&self, at: usize, states: &mut States) -> Result<[u8; 256], AllocError>
        requires maker { IsMaker self.now }
        requires made { AreMade self.now.program.now states.old }
        requires inside { at < length states.old.lists }
        ensures made { OnOk result (AreMade self.now.program.now states.new) }
        ensures later { OnOk result (Later states.old.lists states.new.lists) }
        ensures known { IfOk result
            (λ row. (b : ℕ) → b < 256 → IsKnown self.now.sets.now self.now.program.now b
            (steps_of states.old.lists at) states.new.lists (slice_index row b)) }
    {
        find_eating(self.program, states.lists.list(at), &mut states.eats)?;
        let edges = list_edges(self.sets, self.program, &states.eats);
        let work = states.eats.len().saturating_mul(EDGE_WORK);
        states.work = states.work.saturating_sub(work);
        let mut row = [UNKNOWN; 256];
        let mut byte = 0usize;
        while byte < 256 {
            if edges[byte] {
                let state = self.cell(byte as u8, states)?;
                fill_from(&mut row, byte, state);
            }
            byte = self.alike[byte] as usize + 1;
        }
        Ok(row)
    }

    /// Adds the row of the first state that has none.
    fn add_row(&self, states: &mut States, cells: &mut Vec<[u8; 256]>) -> Result<(), AllocError>
        requires maker { IsMaker self.now }
        requires made { AreMade self.now.program.now states.old }
        requires inside { length cells.old.items < length states.old.lists }
        requires rows { AreRows self.now.sets.now self.now.program.now states.old.lists cells.old.items }
        ensures made { OnOk result (AreMade self.now.program.now states.new) }
        ensures later { OnOk result (Later states.old.lists states.new.lists) }
        ensures inside { OnOk result (length cells.new.items ≤ length states.new.lists) }
        ensures len { OnOk result (length cells.new.items ≡ length cells.old.items + 1) }
        ensures rows { OnOk result
            (AreRows self.now.sets.now self.now.program.now states.new.lists cells.new.items) }
    {
        let row = self.row(cells.len(), states)?;
        cells.push(row)?;
        Ok(())
    }

    /// Adds the rows of the states that have none, and of those that are met by them, while there is room and work is
    /// left.
    fn add_rows(&self, states: &mut States, cells: &mut Vec<[u8; 256]>) -> Result<(), AllocError>
        requires maker { IsMaker self.now }
        requires made { AreMade self.now.program.now states.old }
        requires inside { length cells.old.items ≤ length states.old.lists }
        requires few { length cells.old.items ≤ UNKNOWN }
        requires rows { AreRows self.now.sets.now self.now.program.now states.old.lists cells.old.items }
        ensures made { OnOk result (AreMade self.now.program.now states.new) }
        ensures later { OnOk result (Later states.old.lists states.new.lists) }
        ensures inside { OnOk result (length cells.new.items ≤ length states.new.lists) }
        ensures few { OnOk result (length cells.new.items ≤ UNKNOWN) }
        ensures rows { OnOk result
            (AreRows self.now.sets.now self.now.program.now states.new.lists cells.new.items) }
    {
        while cells.len() < states.lists.len()
            && cells.len() < UNKNOWN as usize
            && states.work > 0
        {
            self.add_row(states, cells)?;
        }
        Ok(())
    }

    /// The state in which a search begins at the step.
    fn first_state(&self, first: bool, step: usize, states: &mut States) -> Result<u8, AllocError>
        requires sound { IsSound self.now.program.now }
        requires made { AreMade self.now.program.now states.old }
        ensures made { OnOk result (AreMade self.now.program.now states.new) }
        ensures later { OnOk result (Later states.old.lists states.new.lists) }
        ensures first { IfOk result (λ n. IsFirst self.now.program.now first step states.new.lists n) }
    {
        let ends = TextEnds { first, last: false };
        find_led(
            self.program,
            ends,
            &[step],
            &mut states.room,
            &mut states.steps,
        )?;
        let at = number(&mut states.lists, &states.steps)?;
        Ok(at)
    }

    /// The states in which a search begins at the step.
    fn begins(&self, step: usize, states: &mut States) -> Result<Begin, AllocError>
        requires sound { IsSound self.now.program.now }
        requires made { AreMade self.now.program.now states.old }
        ensures made { OnOk result (AreMade self.now.program.now states.new) }
        ensures later { OnOk result (Later states.old.lists states.new.lists) }
        ensures begin { IfOk result (λ r. IsBegin self.now.program.now step states.new.lists r) }
    {
        let first = self.first_state(true, step, states)?;
        let later = self.first_state(false, step, states)?;
        Ok(Begin { first, later })
    }

    /// The states in which a search begins at the step; they and the states that are met from them get rows, where a
    /// table of them is wanted.
    fn begin(
        &self,
        is_wanted: bool,
        step: usize,
        states: &mut States,
        cells: &mut Vec<[u8; 256]>,
    ) -> Result<Begin, AllocError>
        requires maker { IsMaker self.now }
        requires made { AreMade self.now.program.now states.old }
        requires inside { length cells.old.items ≤ length states.old.lists }
        requires few { length cells.old.items ≤ UNKNOWN }
        requires rows { AreRows self.now.sets.now self.now.program.now states.old.lists cells.old.items }
        ensures made { OnOk result (AreMade self.now.program.now states.new) }
        ensures later { OnOk result (Later states.old.lists states.new.lists) }
        ensures inside { OnOk result (length cells.new.items ≤ length states.new.lists) }
        ensures few { OnOk result (length cells.new.items ≤ UNKNOWN) }
        ensures rows { OnOk result
            (AreRows self.now.sets.now self.now.program.now states.new.lists cells.new.items) }
        ensures begin { IfOk result (λ r. IsBegin self.now.program.now step states.new.lists r) }
    {
        if !is_wanted {
            return Ok(NOWHERE);
        }
        let begin = self.begins(step, states)?;
        self.add_rows(states, cells)?;
        Ok(begin)
    }
}

/// The best end so far, where it is told whether a match ends at the place.
pub fn noted(accept: bool, place: usize, best: Option<usize>) -> Option<usize>
    ensures { result ≡ (if accept then Some place else best) }
{
    if accept { Some(place) } else { best }
}

/// In which of the first states a match ends.
fn accepting(alloc: Global, lists: &StepLists, count: usize) -> Result<Vec<bool>, AllocError>
    requires { count ≤ length lists.now }
    ensures { IfOk result
        (λ flags. AreFlags (λ q. Contains (steps_of lists.now q) 0) count flags.items) }
{
    let mut flags = Vec::with_capacity(alloc, count)?;
    for at in 0..count {
        flags.push(has_done(lists.list(at)))?;
    }
    Ok(flags)
}

/// In which of the first states a match ends where the text ends.
fn ending(
    alloc: Global,
    program: &[Instruction],
    lists: &StepLists,
    count: usize,
    room: &mut Room,
) -> Result<Vec<bool>, AllocError>
    requires sound { IsSound program.now }
    requires some { 0 < length program.now }
    requires inside { count ≤ length lists.now }
    requires closed { AreClosed program.now lists.now }
    requires room { IsRoom program.now room.old }
    ensures { IfOk result
        (λ flags. AreFlags (λ q. EndsAtLast program.now (steps_of lists.now q)) count flags.items) }
{
    let mut flags = Vec::with_capacity(alloc, count)?;
    for at in 0..count {
        let flag = state_ends(program, lists.list(at), room)?;
        flags.push(flag)?;
    }
    Ok(flags)
}

/// The states in which a search begins, at the text's start and later.
#[derive(Clone, Copy)]
pub struct Begin {
    pub first: u8,
    pub later: u8,
}

/// No states.
const NOWHERE: Begin = Begin {
    first: UNKNOWN,
    later: UNKNOWN,
};

/// A table for searches that begin at the program's entry, and for those that begin at the step `scan`.
#[derive(Drop)]
pub struct StateTable {
    pub cells: Vec<[u8; 256]>,
    pub accepts: Vec<bool>,
    pub ends: Vec<bool>,
    pub entry: Begin,
    pub scan: Begin,
    /// What a match that starts later begins with.
    pub heads: Heads,
}

/// A table that says nothing.
fn blank(
    alloc: Global,
    sets: &[Set],
    program: &[Instruction],
    entry: usize,
    scan: usize,
) -> StateTable
    ensures { IsBuilt sets.now program.now entry scan result }
{
    StateTable {
        cells: Vec::new(alloc),
        accepts: Vec::new(alloc),
        ends: Vec::new(alloc),
        entry: NOWHERE,
        scan: NOWHERE,
        heads: any_heads(),
    }
}

/// About how many states a table has: most have one for each step of the program.
fn likely_count(program: &[Instruction]) -> usize {
    program.len().min(UNKNOWN as usize)
}

/// The states of a table before any is met: the one that has no step. A byte that leads nowhere leads to it.
fn no_states(alloc: Global, program: &[Instruction]) -> Result<States, AllocError>
    ensures dead { IfOk result (λ states. IsDead states.lists) }
    ensures made { IfOk result (λ states. AreMade program.now states) }
{
    let count = likely_count(program);
    let mut lists = StepLists::with_capacity(alloc, count)?;
    lists.push(&[])?;
    let mut kernels = StepLists::with_capacity(alloc, count)?;
    kernels.push(&[])?;
    let mut numbers = Vec::with_capacity(alloc, count)?;
    numbers.push(DEAD)?;
    let slots = vec![in alloc; 0u16; SLOTS]?;
    let room = Room::new(alloc, program.len())?;
    Ok(States {
        lists,
        kernels,
        numbers,
        slots,
        eats: Vec::new(alloc),
        found: Vec::new(alloc),
        steps: Vec::new(alloc),
        room,
        work: MAX_WORK,
    })
}

/// Whether each match starts at the text's start.
fn is_anchored(program: &[Instruction], entry: usize) -> bool {
    match program.get(entry) {
        Some(Instruction::AtStart(_)) => true,
        _ => false,
    }
}

/// What a match that starts later begins with, where that is wanted.
fn heads_of(is_wanted: bool, cells: &[[u8; 256]], accepts: &[bool], later: u8) -> Heads
    ensures heads { AreHeads cells.now accepts.now later result }
    ensures spread { AreSpread result }
{
    if is_wanted {
        make_heads(cells, accepts, later)
    } else {
        any_heads()
    }
}

/// The table of the program.
#[inline(never)]
fn full_table(
    alloc: Global,
    sets: &[Set],
    program: &[Instruction],
    entry: usize,
    scan: usize,
) -> Result<StateTable, AllocError>
    requires sound { IsSound program.now }
    requires some { 0 < length program.now }
    ensures { IfOk result (λ t. IsBuilt sets.now program.now entry scan t) }
{
    let alike = alike(&edges(sets, program));
    let maker = Maker {
        sets,
        program,
        alike: &alike,
    };
    // Where each match starts at the text's start, no later start is looked for.
    let is_scanned = !is_anchored(program, entry);
    let mut states = no_states(alloc, program)?;
    let mut cells = Vec::with_capacity(alloc, likely_count(program))?;
    // The states of searches from one start come first: they find the matches, and most are small.
    let entry = maker.begin(true, entry, &mut states, &mut cells)?;
    let scan = maker.begin(is_scanned, scan, &mut states, &mut cells)?;
    let accepts = accepting(alloc, &states.lists, cells.len())?;
    let ends = ending(alloc, program, &states.lists, cells.len(), &mut states.room)?;
    let heads = heads_of(is_scanned, &cells, &accepts, entry.later);
    Ok(StateTable {
        cells,
        accepts,
        ends,
        entry,
        scan,
        heads,
    })
}

/// The table of the program: one that says nothing where none is wanted, or where the program is large.
pub fn make_table(
    alloc: Global,
    sets: &[Set],
    program: &[Instruction],
    entry: usize,
    scan: usize,
    is_wanted: bool,
) -> Result<StateTable, AllocError>
    requires sound { IsSound program.now }
    requires some { 0 < length program.now }
    ensures { IfOk result (λ t. IsBuilt sets.now program.now entry scan t) }
{
    if is_wanted && program.len() <= MAX_STEPS {
        full_table(alloc, sets, program, entry, scan)
    } else {
        Ok(blank(alloc, sets, program, entry, scan))
    }
}
