// The search for the best match.
ghost use Rattle.std.specs.Prelude.{◌≡◌, ◌==◌, ◌++◌, ◌+◌, ◌<◌, ◌≤◌, true, length};
ghost use Rattle.std.specs.Prelude.{IfOk, OnOk, slice_index, slice_set};
ghost use Rattle.awk_ere.specs.Program.{IsSound};
ghost use Rattle.awk_ere.specs.Runs.{AreMarks, IsBest};
ghost use Rattle.awk_ere.specs.Search.{mark, targets, target_of, IsBlank, IsClosed, Reaches, Advances, Finds};
ghost use Rattle.awk_ere.specs.Search.{limit_of, cap_of};

use crate::bracket::Set;
use crate::program::Instruction;
use crate::token::takes;
use std::alloc::{AllocError, Global};
use std::marker::Model;
use std::mem;

pub const NONE: usize = usize::MAX;

/// Whether a place is the text's start, and its end.
#[derive(Clone, Copy)]
pub struct TextEnds {
    pub first: bool,
    pub last: bool,
}

/// For each step of a program the least start from which a place is reached there, or `NONE`. Contracts see these
/// starts alone.
#[derive(Drop)]
pub struct Starts {
    starts: Vec<usize>,
    /// The steps that are marked with one.
    active: Vec<usize>,
}

impl Model for Starts {
    ghost use Rattle.std.specs.Prelude.{List, ℕ};
    ghost use Rattle.awk_ere.specs.Search.{IsListed};

    ghost Value = { List ℕ };

    ghost view = { λ s. s.starts.items };

    ghost invariant = { λ s. IsListed s.starts.items s.active.items };
}

impl Starts {
    /// For so many steps, none of which is marked.
    pub fn new(alloc: Global, len: usize) -> Result<Starts, AllocError>
        ensures len { IfOk result (λ starts. length starts ≡ len) }
        ensures blank { IfOk result (λ starts. IsBlank starts) }
    {
        let starts = vec![in alloc; NONE; len]?;
        Ok(Starts {
            starts,
            active: Vec::new(alloc),
        })
    }

    /// How many steps there are.
    pub fn len(&self) -> usize
        ensures { result ≡ length self.now }
    {
        self.starts.len()
    }

    /// How many steps are marked with one.
    pub fn count(&self) -> usize {
        self.active.len()
    }

    /// The start that the step is marked with, or `NONE`.
    pub fn least(&self, at: usize) -> usize
        requires { at < length self.now }
        ensures { result ≡ mark self.now at }
    {
        self.starts[at]
    }

    /// Whether no step is marked.
    fn is_blank(&self) -> bool
        ensures { result ≡ true → IsBlank self.now }
    {
        self.active.is_empty()
    }

    /// Marks the step with the start, whatever it was marked with.
    fn mark(&mut self, at: usize, start: usize) -> Result<(), AllocError>
        requires { at < length self.old }
        ensures { OnOk result (self.new ≡ slice_set self.old at start) }
    {
        if self.starts[at] == NONE {
            self.active.push(at)?;
        }
        self.starts[at] = start;
        Ok(())
    }

    /// Takes each mark away.
    pub fn clear(&mut self)
        ensures len { length self.new ≡ length self.old }
        ensures blank { IsBlank self.new }
    {
        for at in self.active.iter() {
            self.starts[*at] = NONE;
        }
        self.active.clear();
    }
}

/// Adds the steps that follow without reading, the preferred one last.
fn push_next(step: Instruction, ends: TextEnds, stack: &mut Vec<usize>) -> Result<(), AllocError>
    ensures { OnOk result (stack.new.items ≡ stack.old.items ++ targets ends.first ends.last step) }
{
    match step {
        Instruction::Fork(a, b) => {
            stack.push(b)?;
            stack.push(a)?;
        }
        Instruction::AtStart(next) => {
            if ends.first {
                stack.push(next)?;
            }
        }
        Instruction::AtEnd(next) => {
            if ends.last {
                stack.push(next)?;
            }
        }
        Instruction::Eat(_, _) | Instruction::Done | Instruction::Hole => {}
    }
    Ok(())
}

/// Marks the steps that `from` leads to without reading with the start, where it is less.
pub fn reach(
    program: &[Instruction],
    ends: TextEnds,
    from: usize,
    start: usize,
    starts: &mut Starts,
    stack: &mut Vec<usize>,
) -> Result<(), AllocError>
    requires sound { IsSound program.now }
    requires inside { from < length program.now }
    requires len { length starts.old ≡ length program.now }
    requires closed { IsClosed program.now ends.first ends.last starts.old }
    ensures len { OnOk result (length starts.new ≡ length program.now) }
    ensures reaches { OnOk result (Reaches program.now ends.first ends.last from start starts.old starts.new) }
{
    stack.clear();
    stack.push(from)?;
    while let Some(at) = stack.pop() {
        if start < starts.least(at) {
            starts.mark(at, start)?;
            push_next(program[at], ends, stack)?;
        }
    }
    Ok(())
}

/// Where a step goes over the byte.
#[tactic(auto, unfolding(crate::specs::Search::target_of))]
pub fn target(sets: &[Set], step: Instruction, byte: u8) -> Option<usize>
    ensures { result ≡ target_of sets.now byte step }
{
    match step {
        Instruction::Eat(class, to) => {
            if takes(sets, class, byte) {
                Some(to)
            } else {
                None
            }
        }
        Instruction::Fork(_, _)
        | Instruction::AtStart(_)
        | Instruction::AtEnd(_)
        | Instruction::Done
        | Instruction::Hole => None,
    }
}

fn cap_at(place: usize, best: Option<(usize, usize)>) -> usize
    ensures { result ≡ cap_of place best }
{
    match best {
        Some((start, _)) => start,
        None => place,
    }
}

/// The runs of a program on a text that begin at the step `entry`, and at the place `from` or later.
#[derive(Clone, Copy)]
struct Runs<'a> {
    sets: &'a [Set],
    program: &'a [Instruction],
    text: &'a [u8],
    entry: usize,
    from: usize,
}

impl<'a> Runs<'a> {
    /// Which of the text's ends the place is.
    fn ends_at(&self, place: usize) -> TextEnds
        ensures first { result.first ≡ (place == 0) }
        ensures last { result.last ≡ (place == length self.now.text.now) }
    {
        TextEnds {
            first: place == 0,
            last: place == self.text.len(),
        }
    }

    /// Marks in `ahead` what the marked steps of starts up to `cap` reach over the byte at the place.
    fn advance(
        &self,
        place: usize,
        cap: usize,
        here: &Starts,
        ahead: &mut Starts,
        stack: &mut Vec<usize>,
    ) -> Result<(), AllocError>
        requires sound { IsSound self.now.program.now }
        requires place { place < length self.now.text.now }
        requires cap { cap < NONE }
        requires here_len { length here.now ≡ length self.now.program.now }
        requires ahead_len { length ahead.old ≡ length self.now.program.now }
        requires blank { IsBlank ahead.old }
        ensures len { OnOk result (length ahead.new ≡ length self.now.program.now) }
        ensures advances { OnOk result
            (Advances self.now.sets.now self.now.program.now (slice_index self.now.text.now place) (place + 1 == 0)
            (place + 1 == length self.now.text.now) cap here.now ahead.new) }
    {
        let byte = self.text[place];
        let ends = self.ends_at(place + 1);
        for at in here.active.iter() {
            let start = here.least(*at);
            if start <= cap {
                if let Some(to) = target(self.sets, self.program[*at], byte) {
                    reach(self.program, ends, to, start, ahead, stack)?;
                }
            }
        }
        Ok(())
    }

    /// Lets a match start at the place, where none was found yet, and looks whether one ends there.
    fn arrive(
        &self,
        place: usize,
        best: Option<(usize, usize)>,
        here: &mut Starts,
        stack: &mut Vec<usize>,
    ) -> Result<Option<(usize, usize)>, AllocError>
        requires sound { IsSound self.now.program.now }
        requires entry { self.now.entry < length self.now.program.now }
        requires place { self.now.from ≤ place × place ≤ length self.now.text.now }
        requires small { place < NONE }
        requires len { length here.old ≡ length self.now.program.now }
        requires marks { AreMarks self.now (limit_of place best) place here.old }
        requires best { IsBest self.now place best }
        ensures len { OnOk result (length here.new ≡ length self.now.program.now) }
        ensures marks { IfOk result (λ found. AreMarks self.now (limit_of (place + 1) found) place here.new) }
        ensures best { IfOk result (λ found. IsBest self.now (place + 1) found) }
    {
        match best {
            None => {
                reach(
                    self.program,
                    self.ends_at(place),
                    self.entry,
                    place,
                    here,
                    stack,
                )?;
                let start = here.least(0);
                if start < NONE {
                    Ok(Some((start, place)))
                } else {
                    Ok(None)
                }
            }
            Some((had, end)) => {
                let start = here.least(0);
                if had < start {
                    Ok(Some((had, end)))
                } else {
                    Ok(Some((start, place)))
                }
            }
        }
    }

    /// One place: `here` is looked at and cleared, and `ahead` is marked for the next place.
    fn turn(
        &self,
        place: usize,
        best: Option<(usize, usize)>,
        here: &mut Starts,
        ahead: &mut Starts,
        stack: &mut Vec<usize>,
    ) -> Result<Option<(usize, usize)>, AllocError>
        requires sound { IsSound self.now.program.now }
        requires entry { self.now.entry < length self.now.program.now }
        requires place { self.now.from ≤ place × place < length self.now.text.now }
        requires small { place < NONE }
        requires here_len { length here.old ≡ length self.now.program.now }
        requires ahead_len { length ahead.old ≡ length self.now.program.now }
        requires blank { IsBlank ahead.old }
        requires marks { AreMarks self.now (limit_of place best) place here.old }
        requires best { IsBest self.now place best }
        ensures here_len { OnOk result (length here.new ≡ length self.now.program.now) }
        ensures ahead_len { OnOk result (length ahead.new ≡ length self.now.program.now) }
        ensures blank { OnOk result (IsBlank here.new) }
        ensures marks { IfOk result (λ found. AreMarks self.now (limit_of (place + 1) found) (place + 1) ahead.new) }
        ensures best { IfOk result (λ found. IsBest self.now (place + 1) found) }
    {
        let found = self.arrive(place, best, here, stack)?;
        let cap = cap_at(place, found);
        self.advance(place, cap, here, ahead, stack)?;
        here.clear();
        Ok(found)
    }
}

/// The best run of the program that starts at `from` or later. Seldom needed, so it stands out of line.
#[inline(never)]
pub fn search(
    alloc: Global,
    sets: &[Set],
    program: &[Instruction],
    text: &[u8],
    entry: usize,
    from: usize,
) -> Result<Option<(usize, usize)>, AllocError>
    requires sound { IsSound program.now }
    requires entry { entry < length program.now }
    requires from { from ≤ length text.now }
    ensures { IfOk result (λ found. Finds sets.now program.now text.now entry from found) }
{
    let runs = Runs {
        sets,
        program,
        text,
        entry,
        from,
    };
    let mut here = Starts::new(alloc, program.len())?;
    let mut ahead = Starts::new(alloc, program.len())?;
    let mut stack = Vec::new(alloc);
    let mut best = None;
    for place in from..text.len() {
        best = runs.turn(place, best, &mut here, &mut ahead, &mut stack)?;
        mem::swap(&mut here, &mut ahead);
        if best.is_some() && here.is_blank() {
            return Ok(best);
        }
    }
    let found = runs.arrive(text.len(), best, &mut here, &mut stack)?;
    Ok(found)
}
