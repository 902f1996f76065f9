// The search by a table.
ghost use Rattle.std.specs.Prelude.{◌≡◌, ◌≢◌, ◌==◌, ◌↔◌, ◌<◌, ◌≤◌, length, IfOk, IfSome, IsTrue, slice_index};
ghost use Rattle.std.specs.Prelude.{if◌then◌else◌};
ghost use Rattle.awk_ere.specs.Ends.{AreFarthest};
ghost use Rattle.awk_ere.specs.Matcher.{BeginsIn, EndsFrom, Finds, IsAnchored, IsLater, IsLongest, IsSought, NoneTo};
ghost use Rattle.awk_ere.specs.Matcher.{StandsFor, StartsAt, StartsFrom};
ghost use Rattle.awk_ere.specs.Pattern.{Pattern};
ghost use Rattle.awk_ere.specs.Spelled.{IsPattern};
ghost use Rattle.awk_ere.specs.Table.{AllLead};
ghost use Rattle.awk_ere.specs.View.{pattern};

use crate::bracket::Set;
use crate::compile::{compile, compile_scan};
use crate::ends::farthest;
use crate::heads::{LANES, is_open, next_head};
use crate::lazy::Lazy;
use crate::node::Node;
use crate::program::Instruction;
use crate::search::search;
use crate::states::{Begin, DEAD, StateTable, make_table, noted};
use awk_text::Memory;
use std::alloc::Global;
use std::marker::Model;

/// How many bytes may be looked at for each byte of the text, before it is read backwards.
const BUDGET: usize = 4;

/// A byte more for so many steps: to read the text backwards takes a look at each step for each byte.
const STEPS_A_BYTE: usize = 8;

/// How many bytes may be looked at so before it is asked whether there is any match.
const FIRST_BUDGET: usize = 64;

/// How many starts are tried before it is asked whether there is any match, where they are told by their bytes.
const TRIES: usize = 4;

/// A range of fewer bytes tells where a match may start.
const FEW_HEADS: u8 = 64;

/// What a search by the table gives.
#[derive(Clone, Copy)]
pub enum Sought {
    /// The best match, from its start to its end.
    Match(usize, usize),
    NoMatch,
    /// No match starts before this place; the table says no more.
    Left(usize),
}

/// The first place, from this one on, whose byte leads to another state than this; the text's end where there is none.
fn stays_one_by_one(row: &[u8; 256], state: u8, text: &[u8], from: usize) -> usize
    requires { from ≤ length text.now }
    ensures inside { (from ≤ result) × (result ≤ length text.now) }
    ensures all { AllLead row.now text.now state from result }
    ensures next { result < length text.now → slice_index row.now (slice_index text.now result) ≢ state }
{
    for place in from..text.len() {
        if row[text[place] as usize] != state {
            return place;
        }
    }
    text.len()
}

/// The same, with four bytes in each turn: most searches read nearly all of a text so, and the turns would cost as much
/// as the looks at the row.
fn stays_to(row: &[u8; 256], state: u8, text: &[u8], from: usize) -> usize
    requires { from ≤ length text.now }
    ensures inside { (from ≤ result) × (result ≤ length text.now) }
    ensures all { AllLead row.now text.now state from result }
    ensures next { result < length text.now → slice_index row.now (slice_index text.now result) ≢ state }
{
    if text.len() < 4 {
        return stays_one_by_one(row, state, text, from);
    }
    let last = text.len() - 4;
    let mut place = from;
    while place <= last {
        if row[text[place] as usize] != state {
            return place;
        }
        if row[text[place + 1] as usize] != state {
            return place + 1;
        }
        if row[text[place + 2] as usize] != state {
            return place + 2;
        }
        if row[text[place + 3] as usize] != state {
            return place + 3;
        }
        place += 4;
    }
    stays_one_by_one(row, state, text, place)
}

/// The state in which a search begins at the place.
fn state_at(begin: Begin, place: usize) -> usize
    ensures { result ≡ (if place == 0 then begin.first else begin.later) }
{
    if place == 0 {
        begin.first as usize
    } else {
        begin.later as usize
    }
}

/// What finds the matches of a pattern: its program, and the table of states that is made of it. That they belong
/// together is its invariant, so that no search has to ask for it.
#[derive(Drop)]
pub struct Matcher {
    sets: Vec<Set>,
    program: Vec<Instruction>,
    table: StateTable,
    /// Where the pattern begins in the program, and where it begins after any bytes.
    entry: usize,
    scan: usize,
}

impl Model for Matcher {
    ghost use Rattle.awk_ere.specs.Pattern.{Pattern};
    ghost use Rattle.awk_ere.specs.Table.{Matcher, IsMatcher};

    ghost Value = { Matcher };

    ghost use Rattle.awk_ere.specs.Matcher.{matcher_of};

    ghost view = { matcher_of };

    ghost invariant = { λ m. (p : Pattern) × IsMatcher (matcher_of m) p };
}

impl Matcher {
    /// A matcher of the pattern that the node stands for, with a table where one is wanted.
    ///
    /// Errors: `Memory` where memory is refused.
    pub fn new(
        alloc: Global,
        node: &Node,
        sets: Vec<Set>,
        has_table: bool,
    ) -> Result<Matcher, Memory>
        ensures { IfOk result (λ m. StandsFor m (pattern sets.items node.now)) }
    {
        let mut program = Vec::new(alloc);
        program.push(Instruction::Done)?;
        let entry = compile(node, 0, &mut program)?;
        let scan = compile_scan(entry, &mut program)?;
        let table = make_table(alloc, &sets, &program, entry, scan, has_table)?;
        Ok(Matcher {
            sets,
            program,
            table,
            entry,
            scan,
        })
    }

    /// The states of its searches that are made as they are met; none is made yet. The source spells the pattern.
    ///
    /// Errors: `Memory` where memory is refused.
    pub fn lazy(&self, source: &[u8]) -> Result<Lazy, Memory>
        requires { (p : Pattern) × IsPattern source.now p × StandsFor self.now p }
        ensures { IfOk result (λ l. l ≡ source.now) }
    {
        let alloc = *self.program.allocator();
        let source = Vec::from_slice(alloc, source)?;
        let sets = Vec::from_slice(alloc, &self.sets)?;
        let program = Vec::from_slice(alloc, &self.program)?;
        Ok(Lazy::new(source, sets, program, self.entry, self.scan))
    }

    /// How many bytes the searches of a text may look at.
    pub fn whole_budget(&self, text: &[u8]) -> usize {
        let each = BUDGET.max(self.program.len() / STEPS_A_BYTE);
        text.len().saturating_mul(each).saturating_add(FIRST_BUDGET)
    }

    /// The state in which a search begins at the place, where the table has it.
    fn entry_state(&self, place: usize) -> Option<usize>
        ensures { IfSome result (BeginsIn self.now self.now.entry place) }
    {
        let state = state_at(self.table.entry, place);
        if state < self.table.cells.len() {
            Some(state)
        } else {
            None
        }
    }

    /// The state in which a search from the place on begins, where the table has it.
    fn scan_state(&self, place: usize) -> Option<usize>
        ensures { IfSome result (BeginsIn self.now self.now.scan place) }
    {
        let state = state_at(self.table.scan, place);
        if state < self.table.cells.len() {
            Some(state)
        } else {
            None
        }
    }

    /// The end of the longest match from the place, if there is one; `None` where the table does not say. What is read
    /// costs of the budget, also where it is read to the text's end.
    fn longest(&self, text: &[u8], from: usize, budget: &mut usize) -> Option<Option<usize>>
        requires { from < length text.now }
        ensures { IfSome result (λ found. IsLongest self.now text.now from found) }
    {
        let mut state = self.entry_state(from)?;
        let (cells, accepts) = (self.table.cells.as_slice(), self.table.accepts.as_slice());
        let ends = self.table.ends.as_slice();
        let mut best = None;
        for place in from..text.len() {
            best = noted(accepts[state], place, best);
            let next = cells[state][text[place] as usize];
            if next == DEAD {
                *budget = budget.saturating_sub(place - from);
                return Some(best);
            }
            state = next as usize;
            if state >= cells.len() {
                *budget = budget.saturating_sub(place - from);
                return None;
            }
        }
        *budget = budget.saturating_sub(text.len() - from);
        Some(noted(ends[state], text.len(), best))
    }

    /// Whether a match from the place ends anywhere, where it begins at this step and in this state; `None` where the
    /// table does not say. Most bytes leave a search where it is, and then the next look at the table need not wait for
    /// this one.
    fn ends_somewhere(&self, step: usize, first: usize, text: &[u8], from: usize) -> Option<bool>
        requires from { from < length text.now }
        requires begin { BeginsIn self.now step from first }
        ensures { IfSome result (λ b. IsTrue b ↔ EndsFrom self.now text.now step from) }
    {
        let (cells, accepts) = (self.table.cells.as_slice(), self.table.accepts.as_slice());
        let ends = self.table.ends.as_slice();
        if accepts[first] {
            return Some(true);
        }
        let (mut state, mut place) = (first, from);
        while place < text.len() {
            let row = &cells[state];
            let cell = row[text[place] as usize];
            let next = cell as usize;
            if next == state {
                place = stays_to(row, cell, text, place + 1);
            } else {
                if cell == DEAD {
                    return Some(false);
                }
                if next >= cells.len() {
                    return None;
                }
                if accepts[next] && place + 1 < text.len() {
                    return Some(true);
                }
                (state, place) = (next, place + 1);
            }
        }
        Some(ends[state])
    }

    /// Whether a match starts at the place or later; `None` where the table does not say.
    fn has_start(&self, text: &[u8], from: usize) -> Option<bool>
        requires { from ≤ length text.now }
        ensures { IfSome result (λ b. IsTrue b ↔ StartsFrom self.now text.now from) }
    {
        if from >= text.len() {
            return None;
        }
        let first = self.scan_state(from)?;
        self.ends_somewhere(self.scan, first, text, from)
    }

    /// Whether a match starts at the place; `None` where the table does not say.
    fn is_start(&self, text: &[u8], from: usize) -> Option<bool>
        requires { from < length text.now }
        ensures { IfSome result (λ b. IsTrue b ↔ StartsAt self.now text.now from) }
    {
        let first = self.entry_state(from)?;
        self.ends_somewhere(self.entry, first, text, from)
    }

    /// Whether each match starts at the text's start.
    fn is_anchored(&self) -> bool
        ensures { IsTrue result → IsAnchored self.now }
    {
        match self.program[self.entry] {
            Instruction::AtStart(_) => true,
            Instruction::Eat(_, _)
            | Instruction::Fork(_, _)
            | Instruction::AtEnd(_)
            | Instruction::Done
            | Instruction::Hole => false,
        }
    }

    /// Whether what the table says of later starts holds at the place.
    fn is_later(&self, place: usize) -> bool
        ensures { IsTrue result → IsLater self.now place }
    {
        place > 0 || self.table.entry.first == self.table.entry.later
    }

    /// The first place, from this one on, where a match may start, by the byte there.
    fn next_by_row(&self, text: &[u8], from: usize) -> usize
        requires later { IsLater self.now from }
        requires from { from ≤ length text.now }
        ensures { NoneTo self.now text.now from result }
    {
        let (cells, accepts) = (self.table.cells.as_slice(), self.table.accepts.as_slice());
        let first = self.table.entry.later as usize;
        if !is_open(cells, accepts, first) {
            return from;
        }
        stays_to(&cells[first], DEAD, text, from)
    }

    /// The first place, from this one on, where a match may start, by the byte there and the one behind it.
    fn next_by_heads(&self, text: &[u8], from: usize) -> usize
        requires later { IsLater self.now from }
        requires from { from ≤ length text.now }
        ensures { NoneTo self.now text.now from result }
    {
        let place = next_head(&self.table.heads, text, from);
        if place + LANES < text.len() {
            place
        } else {
            self.next_by_row(text, place)
        }
    }

    /// The first place, from this one on, where a match may start.
    fn next_start(&self, text: &[u8], from: usize) -> usize
        requires later { IsLater self.now from }
        requires from { from ≤ length text.now }
        ensures { NoneTo self.now text.now from result }
    {
        if self.table.heads.is_exact {
            self.next_by_heads(text, from)
        } else {
            self.next_by_row(text, from)
        }
    }

    /// The first place, from this one on, that is to be tried as a start.
    pub fn first_start(&self, text: &[u8], from: usize) -> usize
        requires { from ≤ length text.now }
        ensures { NoneTo self.now text.now from result }
    {
        if self.is_later(from) {
            self.next_start(text, from)
        } else {
            from
        }
    }

    /// The best match from the text's end on.
    #[inline(never)]
    fn find_at_end(&self, text: &[u8]) -> Sought
        ensures { IsSought self.now text.now (length text.now) result }
    {
        let (end, state) = (text.len(), self.table.entry.later as usize);
        if end == 0 {
            return Sought::Left(0);
        }
        let ends = self.table.ends.as_slice();
        if state >= ends.len() {
            return Sought::Left(end);
        }
        if ends[state] {
            Sought::Match(end, end)
        } else {
            Sought::NoMatch
        }
    }

    /// The best match from the place on: each start in turn, until so much of the budget is left.
    fn leftmost(&self, text: &[u8], from: usize, budget: &mut usize, left: usize) -> Sought
        requires { from ≤ length text.now }
        ensures { IsSought self.now text.now from result }
    {
        let mut at = from;
        while at < text.len() {
            let start = self.first_start(text, at);
            if start == text.len() {
                return self.find_at_end(text);
            }
            if *budget <= left {
                return Sought::Left(start);
            }
            match self.longest(text, start, budget) {
                None => return Sought::Left(start),
                Some(Some(end)) => return Sought::Match(start, end),
                Some(None) => {}
            }
            at = start + 1;
        }
        self.find_at_end(text)
    }

    /// The best match where each one starts at the text's start.
    #[inline(never)]
    fn find_anchored(&self, text: &[u8], from: usize) -> Sought
        requires anchored { IsAnchored self.now }
        requires from { from ≤ length text.now }
        ensures { IsSought self.now text.now from result }
    {
        if from > 0 {
            return Sought::NoMatch;
        }
        if text.is_empty() {
            return Sought::Left(0);
        }
        let mut budget = 0;
        match self.longest(text, 0, &mut budget) {
            None => Sought::Left(0),
            Some(Some(end)) => Sought::Match(0, end),
            Some(None) => Sought::NoMatch,
        }
    }

    /// The best match from the place on, where it is asked first whether there is any. That reads no further than the
    /// match.
    #[inline(never)]
    fn find_on(&self, text: &[u8], from: usize, budget: &mut usize) -> Sought
        requires { from ≤ length text.now }
        ensures { IsSought self.now text.now from result }
    {
        match self.has_start(text, from) {
            Some(false) => Sought::NoMatch,
            Some(true) | None => self.leftmost(text, from, budget, 0),
        }
    }

    /// The best match from the place on, where a start before it has failed.
    #[inline(never)]
    fn find_later(&self, text: &[u8], from: usize, budget: &mut usize) -> Sought
        requires { from ≤ length text.now }
        ensures { IsSought self.now text.now from result }
    {
        let left = budget.saturating_sub(FIRST_BUDGET);
        match self.leftmost(text, from, budget, left) {
            Sought::Left(start) => self.find_on(text, start, budget),
            sought => sought,
        }
    }

    /// The best match from the place on, as far as the budget lasts, of which what is read costs. The first start
    /// mostly is a match, and then nothing else is needed.
    pub fn find(&self, text: &[u8], from: usize, budget: &mut usize) -> Sought
        requires { from ≤ length text.now }
        ensures { IsSought self.now text.now from result }
    {
        if self.is_anchored() {
            return self.find_anchored(text, from);
        }
        let start = self.first_start(text, from);
        if start == text.len() {
            return self.find_at_end(text);
        }
        if *budget == 0 {
            return Sought::Left(start);
        }
        match self.longest(text, start, budget) {
            None => Sought::Left(start),
            Some(Some(end)) => Sought::Match(start, end),
            Some(None) => self.find_later(text, start + 1, budget),
        }
    }

    /// For each place one more than the end of the longest match from there, or 0; `None` where the text is too long
    /// for that. A look at each step of the program is taken for each byte.
    ///
    /// Errors: `Memory` where memory is refused.
    pub fn farthest(&self, text: &[u8]) -> Result<Option<Vec<u32>>, Memory>
        ensures { IfOk result (λ r. IfSome r (λ ends. AreFarthest self.now.sets self.now.program text.now self.now.entry
            ends.items)) }
    {
        let alloc = *self.program.allocator();
        farthest(alloc, &self.sets, &self.program, text, self.entry)
    }

    /// The best match from the place on, by the program alone.
    ///
    /// Errors: `Memory` where memory is refused.
    pub fn search(&self, text: &[u8], from: usize) -> Result<Option<(usize, usize)>, Memory>
        requires { from ≤ length text.now }
        ensures { IfOk result (λ found. Finds self.now text.now from found) }
    {
        let alloc = *self.program.allocator();
        search(alloc, &self.sets, &self.program, text, self.entry, from)
    }

    /// Whether there is a match where each one starts at the text's start; `None` where the table does not say.
    fn has_anchored(&self, text: &[u8]) -> Option<bool>
        requires { IsAnchored self.now }
        ensures { IfSome result (λ b. IsTrue b ↔ StartsFrom self.now text.now 0) }
    {
        if text.is_empty() {
            return None;
        }
        self.is_start(text, 0)
    }

    /// Whether a match starts at the text's end; `None` where the table does not say.
    fn has_at_end(&self, text: &[u8]) -> Option<bool>
        ensures { IfSome result (λ b. IsTrue b ↔ StartsFrom self.now text.now (length text.now)) }
    {
        match self.find_at_end(text) {
            Sought::Match(_, _) => Some(true),
            Sought::NoMatch => Some(false),
            Sought::Left(_) => None,
        }
    }

    /// How many starts are tried first: none where many bytes may be one, since each may read the text to its end.
    fn tries(&self) -> usize {
        let (first, last) = self.table.heads.first;
        if self.table.heads.is_exact && last.saturating_sub(first) < FEW_HEADS {
            TRIES
        } else {
            0
        }
    }

    /// Whether there is a match anywhere; `None` where the table does not say.
    pub fn has_match(&self, text: &[u8]) -> Option<bool>
        ensures { IfSome result (λ b. IsTrue b ↔ StartsFrom self.now text.now 0) }
    {
        if self.is_anchored() {
            return self.has_anchored(text);
        }
        let mut at = 0;
        for tried in 0..self.tries() {
            let start = self.first_start(text, at);
            if start == text.len() {
                return self.has_at_end(text);
            }
            match self.is_start(text, start) {
                None => return None,
                Some(true) => return Some(true),
                Some(false) => {}
            }
            at = start + 1;
        }
        self.has_start(text, at)
    }
}
