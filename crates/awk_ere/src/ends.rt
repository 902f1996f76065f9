// The end of the longest match from each place. A text is read backwards for them once, so that all searches of it take
// no longer together than this reading.
ghost use Rattle.std.specs.Prelude.{◌≡◌, ◌==◌, ◌+◌, ◌<◌, ◌≤◌, ◌^◌, ◌-◌, [], ℕ, Bool, List, Some, true, false};
ghost use Rattle.std.specs.Prelude.{length, IfOk, IfSome, Contains, replicate, slice_get, slice_index};
ghost use Rattle.awk_ere.specs.Ends.{over, AreEnds, AreFarthest, AreFarthestTo, AreOver, IsAbove, IsBegun, IsBehind};
ghost use Rattle.awk_ere.specs.Ends.{IsRow, IsSettled, IsSettledAt};
ghost use Rattle.awk_ere.specs.Program.{Skips};
ghost use Rattle.awk_ere.specs.Search.{targets, Finds};
ghost use Rattle.awk_ere.specs.declared.program.Instruction.{Instruction};
ghost use Rattle.awk_ere.specs.declared.program.Instruction.TheVariants.{Done};

use crate::bracket::Set;
use crate::program::Instruction;
use crate::search::{TextEnds, target};
use std::alloc::{AllocError, Global};
use std::mem;

/// Where a walk over the steps is: it comes to a step, or has been at all that this one goes on to.
#[derive(Clone, Copy)]
enum Visit {
    Enter(usize),
    Leave(usize),
}

/// Whether the step goes on without reading.
fn turns(step: Instruction) -> bool
    ensures { result ≡ false → (first last : Bool) → targets first last step ≡ [] }
{
    match step {
        Instruction::Fork(_, _) | Instruction::AtStart(_) | Instruction::AtEnd(_) => true,
        Instruction::Eat(_, _) | Instruction::Done | Instruction::Hole => false,
    }
}

/// The steps that go on without reading.
fn turning(alloc: Global, program: &[Instruction]) -> Result<Vec<usize>, AllocError>
    ensures { IfOk result (λ steps. (first last : Bool) (q r : ℕ) → Skips program.now first last q r →
        Contains steps.items q) }
{
    let mut steps = Vec::new(alloc);
    for at in 0..program.len() {
        if turns(program[at]) {
            steps.push(at)?;
        }
    }
    Ok(steps)
}

/// Adds the steps that this one goes on to without reading.
fn push_visits(step: Instruction, stack: &mut Vec<Visit>) -> Result<(), AllocError> {
    match step {
        Instruction::Fork(a, b) => {
            stack.push(Visit::Enter(b))?;
            stack.push(Visit::Enter(a))?;
        }
        Instruction::AtStart(next) | Instruction::AtEnd(next) => stack.push(Visit::Enter(next))?,
        Instruction::Eat(_, _) | Instruction::Done | Instruction::Hole => {}
    }
    Ok(())
}

/// Enters a step, where it was not entered before and goes on without reading.
fn enter(
    program: &[Instruction],
    at: usize,
    seen: &mut [bool],
    stack: &mut Vec<Visit>,
) -> Result<(), AllocError> {
    if at < program.len() && at < seen.len() && !seen[at] && turns(program[at]) {
        seen[at] = true;
        stack.push(Visit::Leave(at))?;
        push_visits(program[at], stack)?;
    }
    Ok(())
}

/// The steps in an order in which, but for loops, each comes behind those that it goes on to. That a row comes to rest
/// soon hangs on it, and nothing else.
fn ordered(
    alloc: Global,
    program: &[Instruction],
    steps: &[usize],
) -> Result<Vec<usize>, AllocError> {
    let mut seen = vec![in alloc; false; program.len()]?;
    let mut stack = Vec::new(alloc);
    for at in steps {
        stack.push(Visit::Enter(*at))?;
    }
    let mut order = Vec::new(alloc);
    // Each step is left once, and entered by itself and by at most two for each.
    for _ in 0..program.len().saturating_mul(4) {
        match stack.pop() {
            None => return Ok(order),
            Some(Visit::Leave(at)) => order.push(at)?,
            Some(Visit::Enter(at)) => enter(program, at, &mut seen, &mut stack)?,
        }
    }
    Ok(order)
}

fn row_at(row: &[u32], at: usize) -> u32
    ensures { result ≡ slice_index row.now at }
{
    if at < row.len() { row[at] } else { 0 }
}

/// What a step leads to over the byte, where `behind` tells of the place behind it.
fn over(sets: &[Set], step: Instruction, byte: u8, behind: &[u32]) -> u32
    ensures { result ≡ over sets.now byte behind.now step }
{
    match target(sets, step, byte) {
        Some(to) => row_at(behind, to),
        None => 0,
    }
}

/// The most that a step is told by those that it goes on to without reading.
fn greatest(step: Instruction, ends: TextEnds, row: &[u32]) -> u32
    ensures most { (r : ℕ) → Contains (targets ends.first ends.last step) r → slice_index row.now r ≤ result }
    ensures one { 0 < result → (r : ℕ) × Contains (targets ends.first ends.last step) r
        × (slice_index row.now r ≡ result) }
{
    match step {
        Instruction::Fork(a, b) => {
            let (left, right) = (row_at(row, a), row_at(row, b));
            if left < right { right } else { left }
        }
        Instruction::AtStart(next) => if ends.first { row_at(row, next) } else { 0 },
        Instruction::AtEnd(next) => if ends.last { row_at(row, next) } else { 0 },
        Instruction::Eat(_, _) | Instruction::Done | Instruction::Hole => 0,
    }
}

/// A program on a text, with its steps that go on without reading, and the same in order.
#[derive(Clone, Copy)]
struct Backwards<'a> {
    sets: &'a [Set],
    program: &'a [Instruction],
    text: &'a [u8],
    steps: &'a [usize],
    order: &'a [usize],
}

impl<'a> Backwards<'a> {
    /// What each step leads to over the byte.
    fn read_byte(&self, byte: u8, behind: &[u32], row: &mut [u32])
        requires { length row.old ≡ length self.now.program.now }
        ensures len { length row.new ≡ length self.now.program.now }
        ensures over { AreOver self.now.sets.now self.now.program.now byte behind.now (length self.now.program.now)
            row.new }
    {
        for at in 0..self.program.len() {
            row[at] = over(self.sets, self.program[at], byte, behind);
        }
    }

    /// Begins the row of a place by what each step leads to over the byte, and by the match that ends `here`.
    fn begin_row(&self, byte: u8, here: u32, behind: &[u32], row: &mut [u32])
        requires len { length row.old ≡ length self.now.program.now }
        requires some { 0 < length self.now.program.now }
        ensures len { length row.new ≡ length self.now.program.now }
        ensures begun { IsBegun self.now.sets.now self.now.program.now byte here behind.now row.new }
    {
        self.read_byte(byte, behind, row);
        row[0] = here;
    }

    /// Which of the text's ends the place is.
    fn ends_at(&self, place: usize) -> TextEnds
        ensures first { result.first ≡ (place == 0) }
        ensures last { result.last ≡ (place == length self.now.text.now) }
    {
        TextEnds {
            first: place == 0,
            last: place == self.text.len(),
        }
    }

    /// Raises what a step leads to, where one leads further that it goes on to without reading. Answers whether it did.
    fn raise(&self, place: usize, at: usize, row: &mut [u32]) -> bool
        requires { length row.old ≡ length self.now.program.now }
        ensures len { length row.new ≡ length self.now.program.now }
        ensures above { IsAbove row.old row.new }
        ensures ends { AreEnds self.now.sets.now self.now.program.now self.now.text.now place row.old →
            AreEnds self.now.sets.now self.now.program.now self.now.text.now place row.new }
        ensures same { result ≡ false → row.new ≡ row.old }
        ensures settled { result ≡ false →
            IsSettledAt self.now.program.now (place == 0) (place == length self.now.text.now) row.old at }
    {
        if at >= self.program.len() {
            return false;
        }
        let most = greatest(self.program[at], self.ends_at(place), row);
        if most <= row[at] {
            return false;
        }
        row[at] = most;
        true
    }

    /// Raises what each of these steps leads to, in order. Answers whether any was raised.
    fn raise_each(&self, place: usize, steps: &[usize], row: &mut [u32]) -> bool
        requires { length row.old ≡ length self.now.program.now }
        ensures len { length row.new ≡ length self.now.program.now }
        ensures above { IsAbove row.old row.new }
        ensures ends { AreEnds self.now.sets.now self.now.program.now self.now.text.now place row.old →
            AreEnds self.now.sets.now self.now.program.now self.now.text.now place row.new }
        ensures settled { result ≡ false → (q : ℕ) → Contains steps.now q →
            IsSettledAt self.now.program.now (place == 0) (place == length self.now.text.now) row.new q }
    {
        let mut any = false;
        for k in 0..steps.len() {
            if self.raise(place, steps[k], row) {
                any = true;
            }
        }
        any
    }

    /// Raises the row until no step leads less far than one that it goes on to without reading. Answers whether that is
    /// so.
    fn settle(&self, place: usize, row: &mut [u32]) -> bool
        requires len { length row.old ≡ length self.now.program.now }
        requires all { (first last : Bool) (q r : ℕ) → Skips self.now.program.now first last q r →
            Contains self.now.steps.now q }
        ensures len { length row.new ≡ length self.now.program.now }
        ensures above { IsAbove row.old row.new }
        ensures ends { AreEnds self.now.sets.now self.now.program.now self.now.text.now place row.old →
            AreEnds self.now.sets.now self.now.program.now self.now.text.now place row.new }
        ensures settled { result ≡ true →
            IsSettled self.now.program.now (place == 0) (place == length self.now.text.now) row.new }
    {
        self.raise_each(place, self.order, row);
        for _ in 0..self.program.len() + 1 {
            if !self.raise_each(place, self.steps, row) {
                return true;
            }
        }
        false
    }

    fn byte_at(&self, place: usize) -> u8
        ensures { place < length self.now.text.now → result ≡ slice_index self.now.text.now place }
    {
        if place < self.text.len() {
            self.text[place]
        } else {
            0
        }
    }

    /// The row of a place, by the row of the place behind it. Answers whether it came to rest, as it does.
    fn find_row(&self, place: usize, here: u32, behind: &[u32], row: &mut [u32]) -> bool
        requires here { here ≡ place + 1 }
        requires len { length row.old ≡ length self.now.program.now }
        requires done { slice_get self.now.program.now 0 ≡ Some Done }
        requires all { (first last : Bool) (q r : ℕ) → Skips self.now.program.now first last q r →
            Contains self.now.steps.now q }
        requires behind { IsBehind self.now.sets.now self.now.program.now self.now.text.now place behind.now }
        ensures len { length row.new ≡ length self.now.program.now }
        ensures row { result ≡ true → IsRow self.now.sets.now self.now.program.now self.now.text.now place row.new }
    {
        self.begin_row(self.byte_at(place), here, behind, row);
        self.settle(place, row)
    }
}

impl<'a> Backwards<'a> {
    /// Adds the end of the longest match from the place where so many bytes are left. Answers whether its row came to
    /// rest.
    fn add_end(
        &self,
        entry: usize,
        left: usize,
        behind: &[u32],
        row: &mut [u32],
        ends: &mut Vec<u32>,
    ) -> Result<bool, AllocError>
        requires short { length self.now.text.now + 1 < 2 ^ 32 }
        requires left { left ≤ length self.now.text.now }
        requires len { length row.old ≡ length self.now.program.now }
        requires done { slice_get self.now.program.now 0 ≡ Some Done }
        requires all { (first last : Bool) (q r : ℕ) → Skips self.now.program.now first last q r →
            Contains self.now.steps.now q }
        requires behind { IsBehind self.now.sets.now self.now.program.now self.now.text.now
            (length self.now.text.now - left) behind.now }
        requires count { length ends.old.items ≡ left }
        requires ends { AreFarthestTo self.now.sets.now self.now.program.now self.now.text.now entry left
            ends.old.items }
        ensures len { length row.new ≡ length self.now.program.now }
        ensures row { IfOk result (λ b. b ≡ true → IsRow self.now.sets.now self.now.program.now self.now.text.now
            (length self.now.text.now - left) row.new) }
        ensures count { IfOk result (λ b. b ≡ true → length ends.new.items ≡ left + 1) }
        ensures ends { IfOk result (λ b. b ≡ true → AreFarthestTo self.now.sets.now self.now.program.now
            self.now.text.now entry (left + 1) ends.new.items) }
    {
        let place = self.text.len() - left;
        if !self.find_row(place, place as u32 + 1, behind, row) {
            return Ok(false);
        }
        ends.push(row_at(row, entry))?;
        Ok(true)
    }

    /// The ends of the longest matches from each place, from the text's end back.
    fn all_ends(&self, alloc: Global, entry: usize) -> Result<Option<Vec<u32>>, AllocError>
        requires short { length self.now.text.now + 1 < 2 ^ 32 }
        requires done { slice_get self.now.program.now 0 ≡ Some Done }
        requires all { (first last : Bool) (q r : ℕ) → Skips self.now.program.now first last q r →
            Contains self.now.steps.now q }
        ensures { IfOk result (λ r. IfSome r (λ ends. AreFarthest self.now.sets.now self.now.program.now
            self.now.text.now entry ends.items)) }
    {
        let mut behind = nothing(alloc, self.program.len())?;
        let mut row = nothing(alloc, self.program.len())?;
        let mut ends = Vec::with_capacity(alloc, self.text.len() + 1)?;
        for left in 0..self.text.len() + 1 {
            if !self.add_end(entry, left, &behind, &mut row, &mut ends)? {
                return Ok(None);
            }
            mem::swap(&mut row, &mut behind);
        }
        Ok(Some(ends))
    }
}

/// A row that tells nothing.
fn nothing(alloc: Global, len: usize) -> Result<Vec<u32>, AllocError>
    ensures { IfOk result (λ row. row.items ≡ replicate len 0) }
{
    let row = vec![in alloc; 0u32; len]?;
    Ok(row)
}

/// For each place, from the text's end back, one more than the end of the longest match from there, or 0 where none
/// starts there; `None` where the text is too long for such numbers.
///
/// Errors: memory was refused.
#[inline(never)]
pub fn farthest(
    alloc: Global,
    sets: &[Set],
    program: &[Instruction],
    text: &[u8],
    entry: usize,
) -> Result<Option<Vec<u32>>, AllocError>
    requires { slice_get program.now 0 ≡ Some Done }
    ensures { IfOk result (λ r. IfSome r (λ ends. AreFarthest sets.now program.now text.now entry ends.items)) }
{
    if text.len() >= u32::MAX as usize {
        return Ok(None);
    }
    let steps = turning(alloc, program)?;
    let order = ordered(alloc, program, &steps)?;
    let backwards = Backwards {
        sets,
        program,
        text,
        steps: &steps,
        order: &order,
    };
    let ends = backwards.all_ends(alloc, entry)?;
    Ok(ends)
}

/// The best match from the place on, by the ends of the longest ones from each place.
pub fn best_by(ends: &[u32], text: &[u8], from: usize) -> Option<(usize, usize)>
    requires { from ≤ length text.now }
    ensures { (sets : List (List Bool)) (program : List Instruction) (e : ℕ) →
        AreFarthest sets program text.now e ends.now → Finds sets program text.now e from result }
{
    for place in from..text.len() + 1 {
        let end = row_at(ends, text.len() - place);
        if end > 0 {
            return Some((place, end as usize - 1));
        }
    }
    None
}
