// Forms of one operand and of two.
ghost use Rattle.awk_builtins.specs.Operands.{binary_of, unary_of};
ghost use Rattle.awk_machine.specs.Pieces.{At, Value_of, give};
ghost use Rattle.awk_machine.specs.State.{Given};
ghost use Rattle.awk_program.specs.Program.{Expression};
ghost use Rattle.awk_store.specs.Wholes.{Agreeing, base, used};
ghost use Rattle.awk_streams.specs.Chains.{Meets};
ghost use Rattle.awk_streams.specs.Tasks.{Owns};
ghost use Rattle.std.specs.Prelude.{[], ◌∷◌};

use crate::comparisons::compared;
use crate::functions::called;
use crate::made::number_at;
use crate::operators::{signed, truth_value};
use awk_program::{Builtin, Comparison, Sign};
use awk_store::Store;
use awk_store::shown::as_text;
use awk_streams::halt::{Halt, at};
use awk_streams::streams::Streams;
use awk_text::place::Place;
use awk_text::value::{Value, truth};
use box_world::world::World;
use std::alloc::Global;

/// A form of one operand.
#[derive(Clone, Copy, PartialEq, Eq, Drop)]
pub enum Unary {
    /// `! operand`
    Not,
    /// `- operand`
    Signed(Place, Sign),
    /// An operand of which a text is wanted
    AsText(Place),
    /// A built-in function of one argument
    Builtin(Place, Builtin),
}

/// A form of two operands.
#[derive(Clone, Copy, PartialEq, Eq, Drop)]
pub enum Binary {
    /// `left < right`, and the other comparisons
    Compare(Place, Comparison),
    /// A built-in function of two arguments
    Builtin(Place, Builtin),
}

impl Unary {
    /// What the form gives for this value, by the store's profile; of the store, only the random numbers may go on.
    pub fn give<W: World>(
        self,
        alloc: Global,
        store: &mut Store,
        value: Value,
        streams: &mut Streams,
        world: &mut W,
    ) -> Result<Value, Halt>
        requires { Owns (W.open_numbers world.old) streams.old }
        ensures task { (g : Given) (x : Expression)
            → Meets W.World (base g) (Agreeing g) used g (At (Value_of (unary_of self x)) (value ∷ [])) give
            (store.old, streams.old) world.old result (store.new, streams.new) world.new }
        ensures owns { Owns (W.open_numbers world.new) streams.new }
    {
        match self {
            Unary::Not => Ok(truth_value(!truth(store.numbers(), &value))),
            Unary::Signed(place, how) => number_at(place, signed(store.numbers(), how, &value)),
            Unary::AsText(place) => at(place, as_text(alloc, store, value)),
            Unary::Builtin(place, which) => {
                called(alloc, store, place, which, &[value], streams, world)
            }
        }
    }
}

impl Binary {
    /// What the form gives for these values, by the store's profile; of the store, only the random numbers may go on.
    pub fn give<W: World>(
        self,
        alloc: Global,
        store: &mut Store,
        left: Value,
        right: Value,
        streams: &mut Streams,
        world: &mut W,
    ) -> Result<Value, Halt>
        requires { Owns (W.open_numbers world.old) streams.old }
        ensures task { (g : Given) (x y : Expression)
            → Meets W.World (base g) (Agreeing g) used g (At (Value_of (binary_of self x y)) (right ∷ left ∷ [])) give
            (store.old, streams.old) world.old result (store.new, streams.new) world.new }
        ensures owns { Owns (W.open_numbers world.new) streams.new }
    {
        match self {
            Binary::Compare(place, how) => {
                let holds = at(place, compared(alloc, store, how, left, right))?;
                Ok(truth_value(holds))
            }
            Binary::Builtin(place, which) => {
                called(alloc, store, place, which, &[left, right], streams, world)
            }
        }
    }
}
