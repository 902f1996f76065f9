// States that are made as a search meets them, for patterns of which a table of all is too large.
ghost use Rattle.std.specs.Prelude.{◌≡◌, ◌≢◌, ◌↔◌, ◌⊎◌, ◌∷◌, ◌++◌, [], ◌+◌, ◌<◌, ℕ, Bool, List, true, false, length};
ghost use Rattle.std.specs.Prelude.{replicate, Contains, IfOk, IfSome, IsTrue, OnOk};
ghost use Rattle.awk_ere.specs.Lazy.{AreMet, HasMatchFrom, IsAhead, LongestFrom};
ghost use Rattle.awk_ere.specs.Pattern.{Pattern};
ghost use Rattle.awk_ere.specs.Program.{IsSound};
ghost use Rattle.awk_ere.specs.Spelled.{IsPattern};
ghost use Rattle.awk_ere.specs.Search.{IsMachine};
ghost use Rattle.awk_ere.specs.Table.{EndsAtLast, EndsSomewhere, IsCell, IsLed, IsLongest, Later, cell, steps_of};
ghost use Rattle.awk_ere.specs.declared.program.Instruction.{Instruction};

use crate::bracket::Set;
use crate::closure::{ends_at_last, has_done, led, steps_after};
use crate::program::Instruction;
use crate::search::TextEnds;
use crate::states::noted;
use awk_text::Memory;
use indexmap::IndexSet;
use std::alloc::{AllocError, Global};
use std::marker::Model;
use std::mem;

/// The number of no state: where the byte leads was not found out yet.
pub const UNKNOWN: u16 = u16::MAX;

/// How much work may be done for states before a byte is read: about how many steps are looked at.
const FIRST_WORK: usize = 4_000_000;

/// How much more for each byte that is to be read.
const WORK_A_BYTE: usize = 2;

/// The most work that is saved up.
const MOST_WORK: usize = 1 << 40;

/// How much is kept of states, by the numbers that they have: beyond it no more are made, and the next search drops
/// them.
const MOST_KEPT: usize = 1_000_000;

/// What a state takes beside its steps.
const ROW: usize = 64;

/// Lists of steps, each once, in the order in which they came.
#[derive(Drop)]
struct Lists {
    lists: IndexSet<Vec<usize>>,
}

impl Model for Lists {
    ghost use Rattle.std.specs.Prelude.{ℕ, List, map};

    ghost Value = { List (List ℕ) };

    ghost view = { λ l. map (λ v. v.items) l.lists.keys };
}

impl Lists {
    fn new(alloc: Global) -> Lists
        ensures { result ≡ [] }
    {
        Lists {
            lists: IndexSet::new(alloc),
        }
    }

    /// The list that stands there.
    fn list(&self, at: usize) -> &[usize]
        requires { at < length self.now }
        ensures { result.now ≡ steps_of self.now at }
    {
        self.lists.as_slice()[at].as_slice()
    }

    /// Where the list stands, which is put last where it is new, and whether it is.
    fn number(&mut self, list: Vec<usize>) -> Result<(usize, bool), AllocError>
        ensures number { IfOk result (λ r. (r.0 < length self.new) × (steps_of self.new r.0 ≡ list.items)) }
        ensures new { IfOk result (λ r. r.1 ≡ true → self.new ≡ self.old ++ list.items ∷ []) }
        ensures old { IfOk result (λ r. r.1 ≡ false → self.new ≡ self.old) }
    {
        let placed = self.lists.insert_full(list)?;
        Ok(placed)
    }
}

/// For each state where each byte leads from there, and whether a match ends there, and would at the end of the text.
#[derive(Drop)]
struct Rows {
    cells: Vec<[u16; 256]>,
    accepts: Vec<bool>,
    ends: Vec<bool>,
}

/// The states that were met, by their steps.
#[derive(Drop)]
struct Met {
    lists: Lists,
    rows: Rows,
    /// In which of them a search begins, at the text's start and later.
    first: Option<usize>,
    later: Option<usize>,
    /// How much is kept, and how much work may still be done for more.
    kept: usize,
    work: usize,
}

/// No states.
fn none_met(alloc: Global) -> Met
    ensures { (sets : List (List Bool)) (program : List Instruction) (step : ℕ) → AreMet sets program step result }
{
    Met {
        lists: Lists::new(alloc),
        rows: Rows {
            cells: Vec::new(alloc),
            accepts: Vec::new(alloc),
            ends: Vec::new(alloc),
        },
        first: None,
        later: None,
        kept: 0,
        work: FIRST_WORK,
    }
}

/// A program, and the step at which searches begin.
#[derive(Clone, Copy)]
struct Machine<'a> {
    alloc: Global,
    sets: &'a [Set],
    program: &'a [Instruction],
    step: usize,
}

impl<'a> Machine<'a> {
    /// Adds the row of a state with these steps, of which no cell is known.
    fn add_row(&self, steps: &[usize], rows: &mut Rows) -> Result<(), AllocError>
        requires sound { IsSound self.now.program.now }
        requires some { 0 < length self.now.program.now }
        ensures cells { OnOk result (rows.new.cells.items ≡ rows.old.cells.items ++ replicate 256 UNKNOWN ∷ []) }
        ensures accepts { OnOk result ((b : Bool) × (rows.new.accepts.items ≡ rows.old.accepts.items ++ b ∷ [])
            × ((b ≡ true) ↔ Contains steps.now 0)) }
        ensures ends { OnOk result ((b : Bool) × (rows.new.ends.items ≡ rows.old.ends.items ++ b ∷ [])
            × ((b ≡ true) ↔ EndsAtLast self.now.program.now steps.now)) }
    {
        let ends = ends_at_last(self.alloc, self.program, steps)?;
        rows.cells.push([UNKNOWN; 256])?;
        rows.accepts.push(has_done(steps))?;
        rows.ends.push(ends)?;
        Ok(())
    }

    /// The number of the state with these steps, which is added where it is new.
    fn state_of(&self, met: &mut Met, steps: Vec<usize>) -> Result<usize, AllocError>
        requires sound { IsSound self.now.program.now }
        requires some { 0 < length self.now.program.now }
        requires met { AreMet self.now.sets.now self.now.program.now self.now.step met.old }
        ensures met { OnOk result (AreMet self.now.sets.now self.now.program.now self.now.step met.new) }
        ensures later { OnOk result (Later met.old.lists met.new.lists) }
        ensures state { IfOk result (λ n. (n < length met.new.lists) × (steps_of met.new.lists n ≡ steps.items)) }
    {
        let size = steps.len().saturating_add(ROW);
        let (at, is_new) = met.lists.number(steps)?;
        if is_new {
            met.kept = met.kept.saturating_add(size);
            self.add_row(met.lists.list(at), &mut met.rows)?;
        }
        Ok(at)
    }

    /// Finds out the state in which a search begins.
    #[inline(never)]
    fn make_begin(&self, met: &mut Met, first: bool) -> Result<usize, AllocError>
        requires sound { IsSound self.now.program.now }
        requires some { 0 < length self.now.program.now }
        requires met { AreMet self.now.sets.now self.now.program.now self.now.step met.old }
        ensures met { OnOk result (AreMet self.now.sets.now self.now.program.now self.now.step met.new) }
        ensures state { IfOk result (λ n. (n < length met.new.lists)
            × IsLed self.now.program.now first false (self.now.step ∷ []) (steps_of met.new.lists n)) }
    {
        let ends = TextEnds { first, last: false };
        let steps = led(self.alloc, self.program, ends, &[self.step])?;
        let state = self.state_of(met, steps)?;
        if first {
            met.first = Some(state);
        } else {
            met.later = Some(state);
        }
        Ok(state)
    }

    /// The state in which a search begins.
    fn begin(&self, met: &mut Met, first: bool) -> Result<usize, AllocError>
        requires sound { IsSound self.now.program.now }
        requires some { 0 < length self.now.program.now }
        requires met { AreMet self.now.sets.now self.now.program.now self.now.step met.old }
        ensures met { OnOk result (AreMet self.now.sets.now self.now.program.now self.now.step met.new) }
        ensures state { IfOk result (λ n. (n < length met.new.lists)
            × IsLed self.now.program.now first false (self.now.step ∷ []) (steps_of met.new.lists n)) }
    {
        let known = if first { met.first } else { met.later };
        match known {
            Some(state) => Ok(state),
            None => self.make_begin(met, first),
        }
    }

    /// Finds out the state that a byte leads to; `None` where that is too much work.
    #[inline(never)]
    fn make_next(&self, met: &mut Met, state: usize, byte: u8) -> Result<Option<usize>, AllocError>
        requires sound { IsSound self.now.program.now }
        requires some { 0 < length self.now.program.now }
        requires state { state < length met.old.lists }
        requires met { AreMet self.now.sets.now self.now.program.now self.now.step met.old }
        ensures met { OnOk result (AreMet self.now.sets.now self.now.program.now self.now.step met.new) }
        ensures later { OnOk result (Later met.old.lists met.new.lists) }
        ensures next { IfOk result (λ r. IfSome r (λ n. (n < length met.new.lists)
            × IsCell self.now.sets.now self.now.program.now byte (steps_of met.new.lists state)
            (steps_of met.new.lists n))) }
    {
        let work = self.program.len().saturating_add(ROW);
        if met.work < work || MOST_KEPT <= met.kept {
            return Ok(None);
        }
        met.work -= work;
        let from = met.lists.list(state);
        let steps = steps_after(self.alloc, self.sets, self.program, from, byte)?;
        let next = self.state_of(met, steps)?;
        set_cell(&mut met.rows.cells, state, byte, next);
        Ok(Some(next))
    }

    /// The state that a byte leads to; `None` where to find it out is too much work.
    #[inline(always)]
    fn next(&self, met: &mut Met, state: usize, byte: u8) -> Result<Option<usize>, AllocError>
        requires sound { IsSound self.now.program.now }
        requires some { 0 < length self.now.program.now }
        requires state { state < length met.old.lists }
        requires met { AreMet self.now.sets.now self.now.program.now self.now.step met.old }
        ensures met { OnOk result (AreMet self.now.sets.now self.now.program.now self.now.step met.new) }
        ensures later { OnOk result (Later met.old.lists met.new.lists) }
        ensures next { IfOk result (λ r. IfSome r (λ n. (n < length met.new.lists)
            × IsCell self.now.sets.now self.now.program.now byte (steps_of met.new.lists state)
            (steps_of met.new.lists n))) }
    {
        let next = met.rows.cells[state][byte as usize];
        if next < UNKNOWN {
            Ok(Some(next as usize))
        } else {
            self.make_next(met, state, byte)
        }
    }

    /// Whether what begins at the step and the place ends anywhere; `None` where that is too much work. Tells how many
    /// bytes were read.
    fn ends_somewhere(
        &self,
        met: &mut Met,
        text: &[u8],
        from: usize,
        read: &mut usize,
    ) -> Result<Option<bool>, AllocError>
        requires sound { IsSound self.now.program.now }
        requires step { self.now.step < length self.now.program.now }
        requires from { from < length text.now }
        requires met { AreMet self.now.sets.now self.now.program.now self.now.step met.old }
        ensures met { OnOk result (AreMet self.now.sets.now self.now.program.now self.now.step met.new) }
        ensures ends { IfOk result (λ r. IfSome r (λ b. IsTrue b ↔
            EndsSomewhere self.now.sets.now self.now.program.now text.now self.now.step from)) }
    {
        let mut state = self.begin(met, from == 0)?;
        for place in from..text.len() {
            if met.rows.accepts[state] {
                *read = place - from;
                return Ok(Some(true));
            }
            match self.next(met, state, text[place])? {
                None => return Ok(None),
                Some(next) => state = next,
            }
        }
        *read = text.len() - from;
        Ok(Some(met.rows.ends[state]))
    }

    /// The end of the longest match from the place, if there is one; `None` where that is too much work. Tells how many
    /// bytes were read.
    fn longest(
        &self,
        met: &mut Met,
        text: &[u8],
        from: usize,
        read: &mut usize,
    ) -> Result<Option<Option<usize>>, AllocError>
        requires sound { IsSound self.now.program.now }
        requires step { self.now.step < length self.now.program.now }
        requires from { from < length text.now }
        requires met { AreMet self.now.sets.now self.now.program.now self.now.step met.old }
        ensures met { OnOk result (AreMet self.now.sets.now self.now.program.now self.now.step met.new) }
        ensures longest { IfOk result (λ r. IfSome r (λ found. IsLongest self.now.sets.now self.now.program.now text.now
            self.now.step from (length text.now + 1) found)) }
    {
        let mut state = self.begin(met, from == 0)?;
        let mut best = None;
        for place in from..text.len() {
            best = noted(met.rows.accepts[state], place, best);
            match self.next(met, state, text[place])? {
                None => return Ok(None),
                Some(next) => state = next,
            }
            if met.lists.list(state).is_empty() {
                *read = place - from;
                return Ok(Some(best));
            }
        }
        *read = text.len() - from;
        Ok(Some(noted(met.rows.ends[state], text.len(), best)))
    }
}

/// The states that were met, or none where they are many, with work for so many bytes more.
fn with_work(alloc: Global, met: Met, bytes: usize) -> Met
    ensures { (sets : List (List Bool)) (program : List Instruction) (step : ℕ) → AreMet sets program step met
        → AreMet sets program step result }
{
    let more = bytes.saturating_mul(WORK_A_BYTE);
    let work = met.work.saturating_add(more).min(MOST_WORK);
    let kept = if met.kept < MOST_KEPT {
        met
    } else {
        none_met(alloc)
    };
    Met { work, ..kept }
}

/// Notes that the byte leads to this state, where its number can be kept.
fn set_cell(cells: &mut Vec<[u16; 256]>, state: usize, byte: u8, next: usize)
    requires { state < length cells.old.items }
    ensures len { length cells.new.items ≡ length cells.old.items }
    ensures here { (cell cells.new.items state byte ≡ next)
        ⊎ (cell cells.new.items state byte ≡ cell cells.old.items state byte) }
    ensures other { (q b : ℕ) → (q ≢ state) ⊎ (b ≢ byte) → cell cells.new.items q b ≡ cell cells.old.items q b }
{
    if next < UNKNOWN as usize {
        cells[state][byte as usize] = next as u16;
    }
}

/// The states of a pattern's searches that were met. Contracts see the pattern's text.
#[derive(Drop)]
pub struct Lazy {
    source: Vec<u8>,
    sets: Vec<Set>,
    program: Vec<Instruction>,
    /// Where a match begins, and where one begins after any bytes.
    entry: usize,
    scan: usize,
    /// The states of searches for a match that starts at a place, and for one that starts there or later.
    here: Met,
    ahead: Met,
}

impl Model for Lazy {
    ghost use Rattle.std.specs.Prelude.{List, ℕ};
    ghost use Rattle.awk_ere.specs.Lazy.{AreMet, IsAhead};
    ghost use Rattle.awk_ere.specs.Pattern.{Pattern};
    ghost use Rattle.awk_ere.specs.Search.{IsMachine};
    ghost use Rattle.awk_ere.specs.Spelled.{IsPattern};

    ghost Value = { List ℕ };

    ghost view = { λ l. l.source.items };

    ghost invariant = { λ l. (p : Pattern) × IsPattern l.source.items p
        × IsMachine l.sets.items l.program.items l.entry p × IsAhead l.sets.items l.program.items l.scan p
        × AreMet l.sets.items l.program.items l.entry l.here × AreMet l.sets.items l.program.items l.scan l.ahead };
}

impl Lazy {
    /// No states yet, for searches of the pattern that the source spells.
    pub fn new(
        source: Vec<u8>,
        sets: Vec<Set>,
        program: Vec<Instruction>,
        entry: usize,
        scan: usize,
    ) -> Lazy
        requires { (p : Pattern) × IsPattern source.items p × IsMachine sets.items program.items entry p
            × IsAhead sets.items program.items scan p }
        ensures { result ≡ source.items }
    {
        let alloc = *source.allocator();
        Lazy {
            source,
            sets,
            program,
            entry,
            scan,
            here: none_met(alloc),
            ahead: none_met(alloc),
        }
    }

    /// Whether these are states of this pattern.
    pub fn is_of(&self, source: &[u8]) -> bool
        ensures { result ≡ true → self.now ≡ source.now }
    {
        self.source.as_slice() == source
    }

    /// The end of the longest match from the place, if there is one; `None` where that is too much work. Else `read` is
    /// how many bytes were read.
    ///
    /// Errors: `Memory` where memory is refused; the states are dropped then.
    pub fn longest(
        &mut self,
        text: &[u8],
        from: usize,
        read: &mut usize,
    ) -> Result<Option<Option<usize>>, Memory>
        requires { from < length text.now }
        ensures longest { IfOk result (λ r. IfSome r (λ found. LongestFrom self.old text.now from found)) }
        ensures same { self.new ≡ self.old }
    {
        let alloc = *self.source.allocator();
        let met = mem::replace(&mut self.here, none_met(alloc));
        let mut met = with_work(alloc, met, text.len() - from);
        let machine = Machine {
            alloc,
            sets: &self.sets,
            program: &self.program,
            step: self.entry,
        };
        let found = machine.longest(&mut met, text, from, read)?;
        self.here = met;
        Ok(found)
    }

    /// Whether a match starts at the place or later; `None` where that is too much work. Else `read` is how many bytes
    /// were read.
    ///
    /// Errors: `Memory` where memory is refused; the states are dropped then.
    pub fn has_match(
        &mut self,
        text: &[u8],
        from: usize,
        read: &mut usize,
    ) -> Result<Option<bool>, Memory>
        requires { from < length text.now }
        ensures found { IfOk result (λ r. IfSome r (λ b. HasMatchFrom self.old text.now from b)) }
        ensures same { self.new ≡ self.old }
    {
        let alloc = *self.source.allocator();
        let met = mem::replace(&mut self.ahead, none_met(alloc));
        let mut met = with_work(alloc, met, text.len() - from);
        let machine = Machine {
            alloc,
            sets: &self.sets,
            program: &self.program,
            step: self.scan,
        };
        let found = machine.ends_somewhere(&mut met, text, from, read)?;
        self.ahead = met;
        Ok(found)
    }
}
