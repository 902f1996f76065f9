// Lists of steps, one behind the other.
ghost use Rattle.std.specs.Prelude.{◌≡◌, ◌<◌, ◌≤◌, ◌∷◌, ◌++◌, [], length, slice_index, IfOk, OnOk};
ghost use Rattle.awk_ere.specs.Table.{steps_of};

use std::alloc::{AllocError, Global};
use std::marker::Model;

/// Lists of steps, kept one behind the other, so that many of them take few allocations. Contracts see the lists.
#[derive(Drop)]
pub struct StepLists {
    steps: Vec<usize>,
    /// Where each list ends among the steps.
    ends: Vec<usize>,
}

impl Model for StepLists {
    ghost use Rattle.std.specs.Prelude.{List, ℕ, length};
    ghost use Rattle.awk_ere.specs.Cuts.{pieces, AreEnds};

    ghost Value = { List (List ℕ) };

    ghost view = { λ l. pieces 0 l.steps.items l.ends.items };

    ghost invariant = { λ l. AreEnds 0 (length l.steps.items) l.ends.items };
}

/// Where a list begins: where the one before it ends.
fn start_of(ends: &[usize], at: usize) -> usize
    requires { at ≤ length ends.now }
    ensures { result ≡ slice_index (0 ∷ ends.now) at }
{
    if at == 0 { 0 } else { ends[at - 1] }
}

impl StepLists {
    /// No lists, with room for so many that have one step each.
    pub fn with_capacity(alloc: Global, count: usize) -> Result<StepLists, AllocError>
        ensures { IfOk result (λ lists. lists ≡ []) }
    {
        let steps = Vec::with_capacity(alloc, count)?;
        let ends = Vec::with_capacity(alloc, count)?;
        Ok(StepLists { steps, ends })
    }

    /// How many lists there are.
    pub fn len(&self) -> usize
        ensures { result ≡ length self.now }
    {
        self.ends.len()
    }

    /// The list with this number.
    pub fn list(&self, at: usize) -> &[usize]
        requires { at < length self.now }
        ensures { result.now ≡ steps_of self.now at }
    {
        let start = start_of(&self.ends, at);
        let end = self.ends[at];
        &self.steps[start..end]
    }

    /// Puts the list last.
    pub fn push(&mut self, list: &[usize]) -> Result<(), AllocError>
        ensures { OnOk result (self.new ≡ self.old ++ list.now ∷ []) }
    {
        // Memory may have been refused for a list's end after its steps were there.
        let start = start_of(&self.ends, self.ends.len());
        self.steps.truncate(start);
        self.steps.extend_from_slice(list)?;
        self.ends.push(self.steps.len())?;
        Ok(())
    }
}
