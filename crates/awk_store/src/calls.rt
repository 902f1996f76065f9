// Calls of the script's functions.
ghost use Rattle.std.specs.Prelude.{◌≡◌, ◌⊎◌, ◌<◌, ◌≤◌, ◌++◌, ◌∷◌, [], length, take, IfOk, IfErr, OnOk, OnErr};
ghost use Rattle.awk_machine.specs.Calls.{most_depth};
ghost use Rattle.awk_store.specs.Changes.{entered, left, missing, new_arrays, unwound};

use crate::frame::{Bound, Caller, Passed, Reference};
use crate::store::Store;
use awk_hash::Seed;
use awk_lib::array::Array;
use awk_text::Memory;
use awk_text::fault::Fault;
use awk_text::value::Value;
use std::alloc::{AllocError, Global};
use std::mem;

/// How deep calls may be.
pub const MOST_DEPTH: u32 = 200;

/// Adds a parameter without an argument, and the array that it is.
fn add_missing(
    alloc: Global,
    seed: Seed,
    frame: &mut Vec<Bound>,
    made: &mut Vec<Array<Value>>,
    is_array: bool,
) -> Result<(), Memory>
    ensures frame { OnOk result (frame.new.items ≡ frame.old.items ++ missing (length made.old.items) (is_array ∷ [])) }
    ensures made { OnOk result (made.new.items ≡ made.old.items ++ new_arrays (is_array ∷ [])) }
    ensures err { OnErr result (made.new.items ≡ made.old.items) }
{
    if !is_array {
        return Ok(frame.push(Bound::Scalar(Value::Unset))?);
    }
    let Ok(number) = u32::try_from(made.len()) else {
        return Err(AllocError);
    };
    frame.push(Bound::Handed(Reference::Made(number)))?;
    made.push(Array::with_seed(alloc, seed))?;
    Ok(())
}

/// Adds the parameters without an argument. Where memory is refused, the arrays are more than there were, or as many.
fn add_all_missing(
    alloc: Global,
    seed: Seed,
    frame: &mut Vec<Bound>,
    made: &mut Vec<Array<Value>>,
    others: &[bool],
) -> Result<(), Memory>
    ensures frame { OnOk result (frame.new.items ≡ frame.old.items ++ missing (length made.old.items) others.now) }
    ensures made { OnOk result (made.new.items ≡ made.old.items ++ new_arrays others.now) }
    ensures err { OnErr result (take (length made.old.items) made.new.items ≡ made.old.items) }
{
    for is_array in others {
        add_missing(alloc, seed, frame, made, *is_array)?;
    }
    Ok(())
}

/// An empty list: this one, where there is one. Takes no memory.
fn emptied(alloc: Global, list: Option<Vec<Bound>>) -> Vec<Bound>
    ensures { result.items ≡ [] }
{
    match list {
        Some(mut list) => {
            list.clear();
            list
        }
        None => Vec::new(alloc),
    }
}

impl Store {
    /// No values yet of a call's arguments, in what an ended call kept its parameters in where there is some. Takes no
    /// memory.
    pub fn spare_values(&mut self) -> Passed
        ensures empty { result ≡ [] }
        ensures same { self.new ≡ self.old }
    {
        Passed::of(emptied(self.alloc, self.spare.pop()))
    }

    /// Begins a call: these are what its first parameters hold, and the kinds of those behind them, that have no
    /// argument. Answers what the caller waits with.
    ///
    /// Fails with `Fault::CallDepth` exactly where calls are as deep as they may be, and with `Fault::Memory` where
    /// memory is refused; then nothing has changed.
    pub fn enter(&mut self, given: Vec<Bound>, others: &[bool]) -> Result<Caller, Fault>
        ensures depth { OnOk result (self.old.depth < most_depth) }
        ensures caller { IfOk result
            (λ caller. (caller.frame.items ≡ self.old.frame) × (caller.made ≡ length self.old.made)) }
        ensures ok { OnOk result (self.new ≡ entered given.items others.now self.old) }
        ensures err { OnErr result (self.new ≡ self.old) }
        ensures fault { IfErr result
            (λ e. (e ≡ Fault.Memory) ⊎ ((e ≡ Fault.CallDepth) × (most_depth ≤ self.old.depth))) }
    {
        if self.depth >= MOST_DEPTH {
            return Err(Fault::CallDepth);
        }
        let made = self.made.len();
        let mut frame = given;
        if add_all_missing(self.alloc, self.seed, &mut frame, &mut self.made, others).is_err() {
            self.made.truncate(made);
            return Err(Fault::Memory);
        }
        self.depth += 1;
        let frame = mem::replace(&mut self.frame, frame);
        Ok(Caller { frame, made })
    }

    /// Ends a call, with what its caller waited with.
    pub fn leave(&mut self, caller: Caller)
        ensures { self.new ≡ left caller.frame.items caller.made self.old }
    {
        let mut frame = mem::replace(&mut self.frame, caller.frame);
        frame.clear();
        // Where memory is refused, the next call makes a list anew.
        let _ = self.spare.push(frame);
        self.made.truncate(caller.made);
        self.depth = self.depth.saturating_sub(1);
    }

    /// Ends all calls. Takes no memory.
    pub fn unwind(&mut self)
        ensures { self.new ≡ unwound self.old }
    {
        self.frame.clear();
        self.made.clear();
        self.depth = 0;
    }
}
