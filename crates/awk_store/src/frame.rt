// Parameters of a call.
ghost use Rattle.std.specs.Prelude.{◌≡◌, ◌∷◌, ◌++◌, [], Some, map, length, unwrap_or, IfOk, OnOk, OnErr};
ghost use Rattle.awk_store.specs.Kept.{bound_scalar, as_scalar};

use awk_text::Memory;
use awk_text::fault::Fault;
use awk_text::value::Value;
use std::alloc::Global;
use std::marker::Model;

/// Which array is meant: that of a variable of the whole script, by its slot, or one that a call made; or none, where a
/// parameter holds a value.
#[derive(Clone, Copy, PartialEq, Eq, Drop)]
pub enum Reference {
    Shared(u32),
    Made(u32),
    Nothing,
}

/// What a parameter holds: a value of its own, or the array that it was handed.
#[derive(Drop)]
pub enum Bound {
    Scalar(Value),
    Handed(Reference),
}

impl Bound {
    /// The value that it holds once more: a long text is shared. An array has none.
    ///
    /// Fails where memory is refused.
    #[inline(always)]
    pub(crate) fn share(&mut self, alloc: Global) -> Result<Value, Fault>
        ensures ok { IfOk result (λ x. x ≡ unwrap_or (bound_scalar (Some self.old)) Value.Unset) }
        ensures same { self.new ≡ self.old }
    {
        match self {
            Bound::Scalar(value) => value.share(alloc),
            Bound::Handed(_) => Ok(Value::Unset),
        }
    }

    /// The value that it holds. An array has none.
    pub(crate) fn into_value(self) -> Value
        ensures { result ≡ unwrap_or (bound_scalar (Some self)) Value.Unset }
    {
        match self {
            Bound::Scalar(value) => value,
            Bound::Handed(_) => Value::Unset,
        }
    }
}

/// What a caller waits with while a function runs: its own parameters, and how many arrays calls had made.
#[derive(Drop)]
pub struct Caller {
    pub frame: Vec<Bound>,
    pub made: usize,
}

/// The values of a call's arguments. They lie where the parameters will.
#[derive(Drop)]
pub struct Passed {
    bounds: Vec<Bound>,
}

impl Model for Passed {
    ghost use Rattle.std.specs.Prelude.{◌≡◌, List, map};
    ghost use Rattle.awk_text.specs.declared.value.Value.{Value as Val};
    ghost use Rattle.awk_store.specs.Kept.{as_scalar, held_by};

    ghost Value = { List Val };

    ghost view = { λ p. map held_by p.bounds.items };

    ghost invariant = { λ p. p.bounds.items ≡ map as_scalar (map held_by p.bounds.items) };
}

impl Passed {
    /// No values, with room where the list has some.
    pub(crate) fn of(bounds: Vec<Bound>) -> Passed
        requires { bounds.items ≡ [] }
        ensures { result ≡ [] }
    {
        Passed { bounds }
    }

    /// How many there are.
    pub fn len(&self) -> usize
        ensures { result ≡ length self.now }
    {
        self.bounds.len()
    }

    /// Adds a value behind the others.
    ///
    /// Fails where memory is refused; then nothing was added.
    #[inline(always)]
    pub fn push(&mut self, value: Value) -> Result<(), Memory>
        ensures ok { OnOk result (self.new ≡ self.old ++ value ∷ []) }
        ensures err { OnErr result (self.new ≡ self.old) }
    {
        self.bounds.push(Bound::Scalar(value))?;
        Ok(())
    }

    /// The values, as parameters hold them.
    pub fn into_bounds(self) -> Vec<Bound>
        ensures { result.items ≡ map as_scalar self }
    {
        self.bounds
    }
}
