// Statements.
ghost use Rattle.std.specs.Prelude.{[], map, option_map};
ghost use Rattle.awk_streams.specs.Tasks.{Owns};
ghost use Rattle.awk_input.specs.Performs.{MeetsWhole};
ghost use Rattle.awk_machine.specs.Pieces.{At, Do, Doing, Each, Start};
ghost use Rattle.awk_machine.specs.State.{Given};
ghost use Rattle.awk_program.specs.Program as p;
ghost use Rattle.awk_program.specs.View.{view, view_statement, variable_of};
ghost use Rattle.awk_store.specs.Wholes.{names_in};
ghost use Rattle.awk_streams.specs.Flows.{flows};
ghost use Rattle.awk_forms.specs.Runs.{Does, whole_of};

use crate::effects::effect;
use crate::loops::{first_then, over_keys, turn_first, while_loop};
use crate::output::{print, printf};
use awk_builtins::arrays::remove_all;
use awk_builtins::at_hand::elements::removed_at_hand;
use awk_builtins::at_hand::texts::split_for_items;
use awk_builtins::keys::remove;
use awk_forms::context::{Context, Run};
use awk_forms::evaluates::Evaluates;
use awk_forms::lists::fill;
use awk_forms::tests::truth_of;
use awk_forms::units::units_of_statement;
use awk_input::skipping::next_file;
use awk_program::{Expr, Jump, Statement, Variable};
use awk_store::jumps::{exit, exit_with, next};
use awk_store::steps::step;
use awk_streams::flow::{Flow, is_on};
use awk_streams::halt::Halt;
use awk_text::place::Place;
use box_world::world::World;

/// A `return`, with the step before it. It stands out of line, so that a list has a small frame.
#[inline(never)]
fn stepped_return<W: World, E: Evaluates<W>>(
    cx: &Context<'_>,
    x: &Statement,
    on: E,
    run: &mut Run,
    world: &mut W,
) -> Result<Flow, Halt>
    requires can { E.can on }
    requires owns { Owns (W.open_numbers world.old) run.old.streams }
    ensures { Does W.World cx.now (λ g. Do (Start (view_statement (names_in g) x.now))) (λ g. flows)
        (whole_of run.old) world.old result (whole_of run.new) world.new }
{
    let Statement::Return(answer) = x else {
        return on.statement(cx, x, run, world);
    };
    let Some(below) = on.below(units_of_statement(x)) else {
        return Err(Halt::Memory);
    };
    step(cx.host.bound(), &mut run.store)?;
    give_back(cx, answer, below, run, world)
}

/// One statement of a list. A `return` is met here, since most calls end by one: there is less on the way to its value
/// so.
#[inline(always)]
fn one<W: World, E: Evaluates<W>>(
    cx: &Context<'_>,
    x: &Statement,
    on: E,
    run: &mut Run,
    world: &mut W,
) -> Result<Flow, Halt>
    requires can { E.can on }
    requires owns { Owns (W.open_numbers world.old) run.old.streams }
    ensures { Does W.World cx.now (λ g. Do (Start (view_statement (names_in g) x.now))) (λ g. flows)
        (whole_of run.old) world.old result (whole_of run.new) world.new }
{
    match x {
        Statement::Return(_) => stepped_return(cx, x, on, run, world),
        _ => on.statement(cx, x, run, world),
    }
}

/// Statements, one after the other. It is always inlined, as it was before `one` stood in it.
#[inline(always)]
pub fn body<W: World, E: Evaluates<W>>(
    cx: &Context<'_>,
    xs: &[Statement],
    on: E,
    run: &mut Run,
    world: &mut W,
) -> Result<Flow, Halt>
    requires can { E.can on }
    requires owns { Owns (W.open_numbers world.old) run.old.streams }
    ensures { Does W.World cx.now (λ g. Do (Each (map (view_statement (names_in g)) xs.now))) (λ g. flows)
        (whole_of run.old) world.old result (whole_of run.new) world.new }
{
    for x in xs {
        let flow = one(cx, x, on, run, world)?;
        if !is_on(&flow) {
            return Ok(flow);
        }
    }
    Ok(Flow::On)
}

/// What a block does. It stands by itself, and so does what a test chooses: they nest most, and take the least of the
/// stack so.
#[inline(never)]
pub fn block<W: World, E: Evaluates<W>>(
    cx: &Context<'_>,
    x: &Statement,
    on: E,
    run: &mut Run,
    world: &mut W,
) -> Result<Flow, Halt>
    requires can { E.can on }
    requires owns { Owns (W.open_numbers world.old) run.old.streams }
    ensures { Does W.World cx.now (λ g. At (Doing (view_statement (names_in g) x.now)) []) (λ g. flows)
        (whole_of run.old) world.old result (whole_of run.new) world.new }
{
    match x {
        Statement::Block(xs) => body(cx, xs.as_slice(), on, run, world),
        _ => perform(cx, x, on, run, world),
    }
}

/// What a statement does.
#[inline(never)]
pub fn perform<W: World, E: Evaluates<W>>(
    cx: &Context<'_>,
    x: &Statement,
    on: E,
    run: &mut Run,
    world: &mut W,
) -> Result<Flow, Halt>
    requires can { E.can on }
    requires owns { Owns (W.open_numbers world.old) run.old.streams }
    ensures { Does W.World cx.now (λ g. At (Doing (view_statement (names_in g) x.now)) []) (λ g. flows)
        (whole_of run.old) world.old result (whole_of run.new) world.new }
{
    match x {
        Statement::Expr(e) => plain(cx, e, on, run, world),
        Statement::Print(place, items, to) => {
            print(cx, *place, items.as_slice(), to, on, run, world)
        }
        Statement::Printf(place, format, items, to) => {
            printf(cx, *place, format, items.as_slice(), to, on, run, world)
        }
        Statement::Delete(place, array, keys) => {
            delete(cx, *place, *array, keys.as_slice(), on, run, world)
        }
        Statement::DeleteAll(array) => {
            remove_all(&mut run.store, *array);
            Ok(Flow::On)
        }
        Statement::Jump(which) => jump(*which, run, world),
        Statement::Exit(place, status) => leave_by(cx, *place, status, on, run, world),
        Statement::Return(x) => give_back(cx, x, on, run, world),
        Statement::Block(xs) => body(cx, xs.as_slice(), on, run, world),
        Statement::If(test, then) => when(cx, test, then.get(), on, run, world),
        Statement::IfElse(test, then, other) => {
            either(cx, test, then.get(), other.get(), on, run, world)
        }
        Statement::While(test, inner) => { while_loop(cx, test, inner.get(), on, run, world) }
        Statement::Do(inner, test) => turn_first(cx, inner.get(), test, on, run, world),
        Statement::For(first, test, after, inner) => {
            first_then(cx, first, test, inner.get(), after, on, run, world)
        }
        Statement::ForIn(place, key, array, inner) => {
            over_keys(cx, *place, *key, *array, inner.get(), on, run, world)
        }
    }
}

/// An expression whose value nothing wants. It stands out of line, so that a statement has a small frame.
#[inline(never)]
pub fn plain<W: World, E: Evaluates<W>>(
    cx: &Context<'_>,
    e: &Expr,
    on: E,
    run: &mut Run,
    world: &mut W,
) -> Result<Flow, Halt>
    requires can { E.can on }
    requires owns { Owns (W.open_numbers world.old) run.old.streams }
    ensures { Does W.World cx.now (λ g. At (Doing (p.plain (view (names_in g) e.now))) []) (λ g. flows)
        (whole_of run.old) world.old result (whole_of run.new) world.new }
{
    effect(cx, e, on, run, world)?;
    Ok(Flow::On)
}

/// `delete array [ list ]`: where the key is at hand, it is not copied.
fn delete<W: World, E: Evaluates<W>>(
    cx: &Context<'_>,
    place: Place,
    array: Variable,
    keys: &[Expr],
    on: E,
    run: &mut Run,
    world: &mut W,
) -> Result<Flow, Halt>
    requires can { E.can on }
    requires owns { Owns (W.open_numbers world.old) run.old.streams }
    ensures { Does W.World cx.now
        (λ g. At (Doing (p.delete place (variable_of (names_in g) array) (map (view (names_in g)) keys.now))) [])
        (λ g. flows)
        (whole_of run.old) world.old result (whole_of run.new) world.new }
{
    split_for_items(&mut run.store, keys)?;
    let is_removed = removed_at_hand(&mut run.store, &mut run.line, array, keys);
    if is_removed {
        return Ok(Flow::On);
    }
    general_delete(cx, place, array, keys, on, run, world)
}

/// The same, of whatever subscripts.
fn general_delete<W: World, E: Evaluates<W>>(
    cx: &Context<'_>,
    place: Place,
    array: Variable,
    keys: &[Expr],
    on: E,
    run: &mut Run,
    world: &mut W,
) -> Result<Flow, Halt>
    requires can { E.can on }
    requires owns { Owns (W.open_numbers world.old) run.old.streams }
    ensures { Does W.World cx.now
        (λ g. At (Doing (p.delete place (variable_of (names_in g) array) (map (view (names_in g)) keys.now))) [])
        (λ g. flows)
        (whole_of run.old) world.old result (whole_of run.new) world.new }
{
    let mut values = Vec::new(cx.alloc);
    fill(cx, keys, &mut values, on, run, world)?;
    remove(
        cx.alloc,
        &mut run.line,
        &mut run.store,
        place,
        array,
        values.as_slice(),
    )?;
    Ok(Flow::On)
}

/// A word alone.
#[inline(always)]
fn jump<W: World>(which: Jump, run: &mut Run, world: &mut W) -> Result<Flow, Halt>
    requires { Owns (W.open_numbers world.old) run.old.streams }
    ensures task { (g : Given)
        → MeetsWhole W.World g (At (Doing (p.jump which)) []) flows (whole_of run.old) world.old result (whole_of run.new)
        world.new }
    ensures owns { Owns (W.open_numbers world.new) run.new.streams }
{
    match which {
        Jump::Break => Ok(Flow::Break),
        Jump::Continue => Ok(Flow::Continue),
        Jump::Next(place) => Err(next(&mut run.store, place)),
        Jump::NextFile(place) => Err(next_file(place, &mut run.store, &mut run.streams, world)),
    }
}

/// `exit`
fn leave_by<W: World, E: Evaluates<W>>(
    cx: &Context<'_>,
    place: Place,
    x: &Option<Expr>,
    on: E,
    run: &mut Run,
    world: &mut W,
) -> Result<Flow, Halt>
    requires can { E.can on }
    requires owns { Owns (W.open_numbers world.old) run.old.streams }
    ensures { Does W.World cx.now (λ g. At (Doing (p.exit place (option_map (view (names_in g)) x.now))) [])
        (λ g. flows)
        (whole_of run.old) world.old result (whole_of run.new) world.new }
{
    match x {
        None => Err(exit(&mut run.store)),
        Some(x) => {
            let status = on.value(cx, x, run, world)?;
            Err(exit_with(&mut run.store, place, &status))
        }
    }
}

/// `return`
fn give_back<W: World, E: Evaluates<W>>(
    cx: &Context<'_>,
    x: &Option<Expr>,
    on: E,
    run: &mut Run,
    world: &mut W,
) -> Result<Flow, Halt>
    requires can { E.can on }
    requires owns { Owns (W.open_numbers world.old) run.old.streams }
    ensures { Does W.World cx.now (λ g. At (Doing (p.return (option_map (view (names_in g)) x.now))) []) (λ g. flows)
        (whole_of run.old) world.old result (whole_of run.new) world.new }
{
    match x {
        None => Ok(Flow::Return),
        Some(x) => {
            let answer = on.value(cx, x, run, world)?;
            let Ok(flow) = Flow::returning(cx.alloc, answer) else {
                return Err(Halt::Memory);
            };
            Ok(flow)
        }
    }
}

/// `if ( test ) then`
#[inline(never)]
pub fn when<W: World, E: Evaluates<W>>(
    cx: &Context<'_>,
    test: &Expr,
    then: &Statement,
    on: E,
    run: &mut Run,
    world: &mut W,
) -> Result<Flow, Halt>
    requires can { E.can on }
    requires owns { Owns (W.open_numbers world.old) run.old.streams }
    ensures { Does W.World cx.now
        (λ g. At (Doing (p.if_then (view (names_in g) test.now) (view_statement (names_in g) then.now))) [])
        (λ g. flows)
        (whole_of run.old) world.old result (whole_of run.new) world.new }
{
    let holds = truth_of(cx, test, on, run, world)?;
    if holds {
        on.statement(cx, then, run, world)
    } else {
        Ok(Flow::On)
    }
}

/// `if ( test ) then else other`
#[inline(never)]
pub fn either<W: World, E: Evaluates<W>>(
    cx: &Context<'_>,
    test: &Expr,
    then: &Statement,
    other: &Statement,
    on: E,
    run: &mut Run,
    world: &mut W,
) -> Result<Flow, Halt>
    requires can { E.can on }
    requires owns { Owns (W.open_numbers world.old) run.old.streams }
    ensures { Does W.World cx.now
        (λ g. At (Doing (p.if_else (view (names_in g) test.now) (view_statement (names_in g) then.now)
        (view_statement (names_in g) other.now))) []) (λ g. flows)
        (whole_of run.old) world.old result (whole_of run.new) world.new }
{
    let holds = truth_of(cx, test, on, run, world)?;
    if holds {
        on.statement(cx, then, run, world)
    } else {
        on.statement(cx, other, run, world)
    }
}
