// What assignments do once their target and their value are there. No world is at hand here, and no evaluator: a value
// that waits for what may fail costs its proof the less.
ghost use Rattle.awk_machine.specs.Expressions.{either};
ghost use Rattle.awk_machine.specs.Pieces.{At, Value_of, give};
ghost use Rattle.awk_machine.specs.State.{Given};
ghost use Rattle.awk_program.specs.Program as p;
ghost use Rattle.awk_program.specs.Program.{Expression, Reference};
ghost use Rattle.awk_program.specs.declared.operators.StepValue.{StepValue};
ghost use Rattle.awk_store.specs.Acts.{Acts};
ghost use Rattle.awk_store.specs.Spots.{IsSpotOf, value_of};
ghost use Rattle.awk_store.specs.Wholes.{names_in};
ghost use Rattle.awk_streams.specs.Tables.{Table};
ghost use Rattle.std.specs.Prelude.{[], ◌∷◌};

use crate::made::{computed_at, stepped_at};
use awk_numbers::number::Number;
use awk_program::{Operator, Step};
use awk_store::targets::{read, set, stored};
use awk_store::{Spot, Store};
use awk_streams::halt::Halt;
use awk_text::place::Place;
use awk_text::value::Value;
use std::alloc::Global;

/// `target = value`: what is stored.
pub fn assign(
    alloc: Global,
    store: &mut Store,
    place: Place,
    to: Spot,
    value: Value,
) -> Result<Value, Halt>
    ensures { (g : Given) (t : Table) (r : Reference) (x : Expression) → IsSpotOf (names_in g) r to →
        Acts g (At (Value_of (p.assign place r x)) (value ∷ value_of to ∷ [])) give (store.old, t) result
        (store.new, t) }
{
    let mut value = value;
    let Ok(kept) = stored(alloc, store.numbers(), &to, &mut value) else {
        return Err(Halt::Memory);
    };
    set(alloc, store, to, place, value)?;
    Ok(kept)
}

/// `target += value`, and with the other operators: what is stored.
pub fn change(
    alloc: Global,
    store: &mut Store,
    place: Place,
    how: Operator,
    to: Spot,
    operand: &Value,
) -> Result<Value, Halt>
    ensures { (g : Given) (t : Table) (r : Reference) (x : Expression) → IsSpotOf (names_in g) r to →
        Acts g (At (Value_of (p.change place how r x)) (operand.now ∷ value_of to ∷ [])) give (store.old, t) result
        (store.new, t) }
{
    let old = read(store, &to)?;
    let numbers = store.numbers();
    let number = computed_at(numbers, place, how, &old, operand)?;
    let Ok(kept) = stored(alloc, numbers, &to, &mut Value::of(number)) else {
        return Err(Halt::Memory);
    };
    set(alloc, store, to, place, Value::of(number))?;
    Ok(kept)
}

/// `target ++` and `target --`: the old number and the new one.
pub fn step(
    alloc: Global,
    store: &mut Store,
    place: Place,
    how: Step,
    to: Spot,
) -> Result<(Number, Number), Halt>
    ensures { (g : Given) (t : Table) (r : Reference) (taken : StepValue) → IsSpotOf (names_in g) r to →
        Acts g (At (Value_of (p.step place how taken r)) (value_of to ∷ [])) (λ n. give (either taken n.0 n.1))
        (store.old, t) result (store.new, t) }
{
    let old = read(store, &to)?;
    let (before, behind) = stepped_at(store.numbers(), place, how, &old)?;
    set(alloc, store, to, place, Value::of(behind))?;
    Ok((before, behind))
}
