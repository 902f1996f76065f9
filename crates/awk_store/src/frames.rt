// What a call begins with, and what it leaves.
ghost use Rattle.awk_machine.specs.Builtins.{first};
ghost use Rattle.awk_machine.specs.Calls as machine;
ghost use Rattle.awk_machine.specs.Calls.{all_handed, arguments, function};
ghost use Rattle.awk_machine.specs.Pieces.{At, Call, Do, Leave, give};
ghost use Rattle.awk_machine.specs.State.{Given};
ghost use Rattle.awk_program.specs.Program.{Arguments};
ghost use Rattle.awk_program.specs.View.{names_of, view_arguments, view_program, view_statement};
ghost use Rattle.awk_store.specs.Acts.{Acts};
ghost use Rattle.awk_store.specs.Calling.{begun};
ghost use Rattle.awk_store.specs.Calls as calls;
ghost use Rattle.awk_store.specs.Kept.{as_scalar, reference};
ghost use Rattle.awk_store.specs.States.{Hidden, bound_of};
ghost use Rattle.awk_store.specs.Wholes.{base, names_in};
ghost use Rattle.awk_store.specs.declared.frame.Bound.TheVariants as bound;
ghost use Rattle.awk_streams.specs.Tables.{Table};
ghost use Rattle.awk_text.specs.declared.value.Value.{Value, Value as Val};
ghost use Rattle.std.specs.Prelude.{IfErr, IfSome, List, None, Ok, OnOk, [], drop, length, map, slice_set, ℕ, ◌++◌};
ghost use Rattle.std.specs.Prelude.{◌∷◌, ◌≡◌};

use crate::{Bound, Caller, Passed, Reference, Store};
use awk_program::{Argument, Expr, Program, Statement};
use awk_streams::flow::Flow;
use awk_streams::halt::{Halt, at};
use awk_text::place::Place;
use awk_text::value::Value;

/// Begins a call: these are what its first parameters hold, and the kinds of those that have no argument. Answers what
/// the caller waits with.
pub fn enter(
    store: &mut Store,
    place: Place,
    given: Vec<Bound>,
    others: &[bool],
) -> Result<Caller, Halt>
    ensures { (g : Given) (t : Table) (n : ℕ) (xs : Arguments) (vs : List Value) → others.now
        ≡ drop (length vs) (function g.program n).parameters
        → ((hid : Hidden) → all_handed (base g (store.old, t) hid) (arguments xs) vs
        ≡ map (bound_of (names_in g)) given.items)
        → Acts g (Do (Call place n xs vs)) (begun g n) (store.old, t) result (store.new, t) }
{
    at(place, store.enter(given, others))
}

/// Ends a call, with what its caller waited with.
pub fn leave(store: &mut Store, caller: Caller)
    ensures { (g : Given) (t : Table) (vs : List Value) →
        Acts g (At (Leave (map (bound_of (names_in g)) caller.frame.items) caller.made) vs)
        (λ (u : Unit {0}). give (first vs)) (store.old, t) (Ok (tt {0})) (store.new, t) }
{
    store.leave(caller);
}

/// Puts an array in place of what the parameter at this place holds.
fn hand(bounds: &mut Vec<Bound>, at: usize, array: Reference)
    ensures { bounds.new.items ≡ slice_set bounds.old.items at (bound.Handed array) }
{
    if at < bounds.len() {
        bounds[at] = Bound::Handed(array);
    }
}

/// Hands the argument at this place, if it is an array, in place of what lies there.
fn hand_one(store: &Store, x: &Argument<Expr>, bounds: &mut Vec<Bound>, at: usize)
    ensures array { IfSome (calls.array_of x.now)
        (λ a. bounds.new.items ≡ slice_set bounds.old.items at (bound.Handed (reference store.now a))) }
    ensures others { calls.array_of x.now ≡ None → bounds.new.items ≡ bounds.old.items }
{
    match x {
        Argument::Array(array) => hand(bounds, at, store.reference(*array)),
        Argument::Value(_) | Argument::Nothing => (),
    }
}

/// Hands the arrays among the arguments, in place of what lies there; what lies behind the last argument goes.
fn hand_arrays(store: &Store, xs: &[Argument<Expr>], bounds: &mut Vec<Bound>)
    ensures { (g : Given) (t : Table) (hid : Hidden) (vs : List Val) → bounds.old.items ≡ map as_scalar vs
        → machine.all_handed (base g (store.now, t) hid) (machine.arguments (view_arguments (names_in g) xs.now)) vs
        ≡ map (bound_of (names_in g)) bounds.new.items }
{
    bounds.truncate(xs.len());
    let mut at = 0;
    for x in xs {
        hand_one(store, x, bounds, at);
        at += 1;
    }
}

/// Adds the value of an argument behind the others.
#[inline(always)]
pub fn pass(values: &mut Passed, value: Value) -> Result<(), Halt>
    ensures ok { OnOk result (values.new ≡ values.old ++ value ∷ []) }
    ensures err { IfErr result (λ h. h ≡ Halt.Memory) }
{
    values.push(value)?;
    Ok(())
}

/// The statements of the function with this number.
pub fn body_of(program: &Program, f: u32) -> &[Statement]
    ensures { map (view_statement (names_of program.now)) result.now
        ≡ (machine.function (view_program program.now) f).body }
{
    match program.functions.get(f as usize) {
        Some(function) => function.body.as_slice(),
        None => &[],
    }
}

/// Of each parameter of the function with this number whether it is an array.
fn parameters_of(program: &Program, f: u32) -> &[bool]
    ensures { result.now ≡ (machine.function (view_program program.now) f).parameters }
{
    match program.functions.get(f as usize) {
        Some(function) => function.parameters.as_slice(),
        None => &[],
    }
}

/// Begins a call with these values, one for each argument, and answers what the caller waits with.
pub fn begin(
    program: &Program,
    place: Place,
    f: u32,
    xs: &[Argument<Expr>],
    values: Passed,
    store: &mut Store,
) -> Result<Caller, Halt>
    ensures { (g : Given) (t : Table) → g.program ≡ view_program program.now →
        Acts g (Do (Call place f (view_arguments (names_in g) xs.now) values)) (begun g f) (store.old, t) result
        (store.new, t) }
{
    let count = values.len();
    let mut given = values.into_bounds();
    hand_arrays(store, xs, &mut given);
    enter(
        store,
        place,
        given,
        others(parameters_of(program, f), count),
    )
}

/// Those behind the first ones.
fn others(parameters: &[bool], given: usize) -> &[bool]
    ensures { result.now ≡ drop given parameters.now }
{
    if given <= parameters.len() {
        &parameters[given..]
    } else {
        &[]
    }
}

/// The value of a call whose body ended so: the one that it returned, or none. Takes no memory.
pub fn returned(flow: Flow) -> Value
    ensures { result ≡ calls.returned flow }
{
    match flow {
        Flow::ReturnNumber(number) => Value::Num(number),
        Flow::ReturnValue(value) => Box::into_inner(value),
        Flow::On | Flow::Break | Flow::Continue | Flow::Return => Value::Unset,
    }
}
