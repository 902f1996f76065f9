// Loops. A turn takes at least one step, and so does the loop before its first one: no loop has more tests than the run
// has steps.
ghost use Rattle.std.specs.Prelude.{[], option_map, option_copied};
ghost use Rattle.awk_streams.specs.Tasks.{Owns};
ghost use Rattle.awk_machine.specs.Pieces.{At, Do, Doing, Keys, Test, Turn};
ghost use Rattle.awk_program.specs.Program as p;
ghost use Rattle.awk_program.specs.View.{view, view_statement, variable_of};
ghost use Rattle.awk_store.specs.Wholes.{names_in};
ghost use Rattle.awk_streams.specs.Flows.{flows};
ghost use Rattle.awk_eval.specs.Loops.{loop_of, tested, to_test};
ghost use Rattle.awk_forms.specs.Runs.{Does, whole_of};

use crate::effects::effect;
use awk_forms::context::{Context, Run};
use awk_forms::evaluates::Evaluates;
use awk_forms::tests::truth_of;
use awk_lib::key::Key;
use awk_program::{Expr, Statement, Variable};
use awk_store::variables::set_variable;
use awk_streams::flow::{Flow, end_of};
use awk_streams::halt::Halt;
use awk_text::place::Place;
use awk_text::value::Value;
use box_world::world::World;

/// Whether the test holds; a missing one does.
fn holds<W: World, E: Evaluates<W>>(
    cx: &Context<'_>,
    test: Option<&Expr>,
    inner: &Statement,
    after: Option<&Expr>,
    on: E,
    run: &mut Run,
    world: &mut W,
) -> Result<bool, Halt>
    requires can { E.can on }
    requires owns { Owns (W.open_numbers world.old) run.old.streams }
    ensures { Does W.World cx.now
        (λ g. At (Test (loop_of (names_in g) (option_copied test.entry) inner.now (option_copied after.entry))) [])
        (λ g. tested (loop_of (names_in g) (option_copied test.entry) inner.now (option_copied after.entry)))
        (whole_of run.old) world.old result (whole_of run.new) world.new }
{
    match test {
        None => Ok(true),
        Some(test) => truth_of(cx, test, on, run, world),
    }
}

/// What is evaluated behind a turn.
fn behind<W: World, E: Evaluates<W>>(
    cx: &Context<'_>,
    test: Option<&Expr>,
    inner: &Statement,
    after: Option<&Expr>,
    on: E,
    run: &mut Run,
    world: &mut W,
) -> Result<(), Halt>
    requires can { E.can on }
    requires owns { Owns (W.open_numbers world.old) run.old.streams }
    ensures { Does W.World cx.now
        (λ g. At (Turn (loop_of (names_in g) (option_copied test.entry) inner.now (option_copied after.entry))) [])
        (λ g. λ u. to_test (loop_of (names_in g) (option_copied test.entry) inner.now (option_copied after.entry)))
        (whole_of run.old) world.old result (whole_of run.new) world.new }
{
    let Some(after) = after else {
        return Ok(());
    };
    effect(cx, after, on, run, world)
}

/// The turns of a loop.
fn turns<W: World, E: Evaluates<W>>(
    cx: &Context<'_>,
    test: Option<&Expr>,
    inner: &Statement,
    after: Option<&Expr>,
    on: E,
    run: &mut Run,
    world: &mut W,
) -> Result<Flow, Halt>
    requires can { E.can on }
    requires owns { Owns (W.open_numbers world.old) run.old.streams }
    ensures { Does W.World cx.now
        (λ g. At (Test (loop_of (names_in g) (option_copied test.entry) inner.now (option_copied after.entry))) [])
        (λ g. flows)
        (whole_of run.old) world.old result (whole_of run.new) world.new }
{
    for _turn in 0..cx.host.bound() {
        let goes_on = holds(cx, test, inner, after, on, run, world)?;
        if !goes_on {
            return Ok(Flow::On);
        }
        let flow = on.statement(cx, inner, run, world)?;
        if let Some(end) = end_of(flow) {
            return Ok(end);
        }
        behind(cx, test, inner, after, on, run, world)?;
    }
    Err(Halt::NEVER)
}

/// `do body while ( test )`
pub fn turn_first<W: World, E: Evaluates<W>>(
    cx: &Context<'_>,
    inner: &Statement,
    test: &Expr,
    on: E,
    run: &mut Run,
    world: &mut W,
) -> Result<Flow, Halt>
    requires can { E.can on }
    requires owns { Owns (W.open_numbers world.old) run.old.streams }
    ensures { Does W.World cx.now
        (λ g. At (Doing (p.do_while (view_statement (names_in g) inner.now) (view (names_in g) test.now))) [])
        (λ g. flows)
        (whole_of run.old) world.old result (whole_of run.new) world.new }
{
    let flow = on.statement(cx, inner, run, world)?;
    if let Some(end) = end_of(flow) {
        return Ok(end);
    }
    behind(cx, Some(test), inner, None, on, run, world)?;
    turns(cx, Some(test), inner, None, on, run, world)
}

/// `while ( test ) body`
pub fn while_loop<W: World, E: Evaluates<W>>(
    cx: &Context<'_>,
    test: &Expr,
    inner: &Statement,
    on: E,
    run: &mut Run,
    world: &mut W,
) -> Result<Flow, Halt>
    requires can { E.can on }
    requires owns { Owns (W.open_numbers world.old) run.old.streams }
    ensures { Does W.World cx.now
        (λ g. At (Doing (p.while_do (view (names_in g) test.now) (view_statement (names_in g) inner.now))) [])
        (λ g. flows)
        (whole_of run.old) world.old result (whole_of run.new) world.new }
{
    turns(cx, Some(test), inner, None, on, run, world)
}

/// `for ( first ; test ; after ) body`
pub fn first_then<W: World, E: Evaluates<W>>(
    cx: &Context<'_>,
    first: &Option<Expr>,
    test: &Option<Expr>,
    inner: &Statement,
    after: &Option<Expr>,
    on: E,
    run: &mut Run,
    world: &mut W,
) -> Result<Flow, Halt>
    requires can { E.can on }
    requires owns { Owns (W.open_numbers world.old) run.old.streams }
    ensures { Does W.World cx.now
        (λ g. At (Doing (p.for_loop (option_map (view (names_in g)) first.now) (option_map (view (names_in g)) test.now)
        (option_map (view (names_in g)) after.now) (view_statement (names_in g) inner.now))) []) (λ g. flows)
        (whole_of run.old) world.old result (whole_of run.new) world.new }
{
    let test = test.as_ref();
    let after = after.as_ref();
    let Some(first) = first else {
        return turns(cx, test, inner, after, on, run, world);
    };
    effect(cx, first, on, run, world)?;
    turns(cx, test, inner, after, on, run, world)
}

/// The turns of a loop over these keys.
fn over<W: World, E: Evaluates<W>>(
    cx: &Context<'_>,
    place: Place,
    variable: Variable,
    keys: &[Key],
    inner: &Statement,
    on: E,
    run: &mut Run,
    world: &mut W,
) -> Result<Flow, Halt>
    requires can { E.can on }
    requires owns { Owns (W.open_numbers world.old) run.old.streams }
    ensures { Does W.World cx.now
        (λ g. Do (Keys place (variable_of (names_in g) variable) (view_statement (names_in g) inner.now) keys.now))
        (λ g. flows)
        (whole_of run.old) world.old result (whole_of run.new) world.new }
{
    for key in keys {
        let Ok(text) = key.copy(cx.alloc) else {
            return Err(Halt::Memory);
        };
        set_variable(&mut run.store, variable, place, Value::Text(text))?;
        let flow = on.statement(cx, inner, run, world)?;
        if let Some(end) = end_of(flow) {
            return Ok(end);
        }
    }
    Ok(Flow::On)
}

/// `for ( key in array ) body`
pub fn over_keys<W: World, E: Evaluates<W>>(
    cx: &Context<'_>,
    place: Place,
    variable: Variable,
    array: Variable,
    inner: &Statement,
    on: E,
    run: &mut Run,
    world: &mut W,
) -> Result<Flow, Halt>
    requires can { E.can on }
    requires owns { Owns (W.open_numbers world.old) run.old.streams }
    ensures { Does W.World cx.now
        (λ g. At (Doing (p.for_each place (variable_of (names_in g) variable) (variable_of (names_in g) array)
        (view_statement (names_in g) inner.now))) []) (λ g. flows)
        (whole_of run.old) world.old result (whole_of run.new) world.new }
{
    let Ok(keys) = run.store.keys(array) else {
        return Err(Halt::Memory);
    };
    over(cx, place, variable, keys.as_slice(), inner, on, run, world)
}
