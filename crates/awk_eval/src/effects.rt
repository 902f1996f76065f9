// What an expression does that is a statement by itself, or a part of a `for`: nothing wants its value.
ghost use Rattle.awk_forms.specs.Runs.{Yields, IsUnwanted, whole_of};
ghost use Rattle.awk_machine.specs.Forms.{value};
ghost use Rattle.awk_program.specs.Program as p;
ghost use Rattle.awk_program.specs.View.{Names, variable_of, view};
ghost use Rattle.awk_store.specs.Wholes.{names_in};
ghost use Rattle.awk_streams.specs.Tasks.{Owns};
ghost use Rattle.std.specs.Prelude.{◌≡◌, IfSome};

use awk_builtins::at_hand::assignments::{done_at_once, split_for_assignment};
use awk_forms::context::{Context, Run};
use awk_forms::evaluates::Evaluates;
use awk_forms::targets::{alter, put, put_variable, step_target};
use awk_forms::units::units_of;
use awk_program::{Expr, Target, Variable};
use awk_streams::halt::Halt;
use awk_text::place::Place;
use box_world::world::World;

/// A variable that is set to what a function returns.
#[derive(Clone, Copy)]
struct SetByCall<'a> {
    place: Place,
    variable: Variable,
    call: &'a Expr,
}

/// The variable that an expression sets to what a function returns, if it does that.
#[inline(always)]
fn set_by_call<'a>(e: &'a Expr) -> Option<SetByCall<'a>>
    ensures { IfSome result
        (λ s. (names : Names) → view names e.now
        ≡ p.assign s.place (p.variable (variable_of names s.variable)) (view names s.call.now)) }
{
    let Expr::Assign(place, target, x) = e else {
        return None;
    };
    let Target::Variable(variable) = target else {
        return None;
    };
    match x.get() {
        Expr::Call(_, _, _) => Some(SetByCall {
            place: *place,
            variable: *variable,
            call: x.get(),
        }),
        _ => None,
    }
}

/// Does what an expression does, where no split of the record would bring more to hand. What is done at once is all that
/// stands in line.
#[inline(always)]
fn ready_effect<W: World, E: Evaluates<W>>(
    cx: &Context<'_>,
    e: &Expr,
    on: E,
    run: &mut Run,
    world: &mut W,
) -> Result<(), Halt>
    requires can { E.can on }
    requires owns { Owns (W.open_numbers world.old) run.old.streams }
    ensures { Yields W.World cx.now (λ g. value (view (names_in g) e.now)) IsUnwanted
        (whole_of run.old) world.old result (whole_of run.new) world.new }
{
    let is_done = done_at_once(cx.alloc, &mut run.store, &mut run.line, e);
    if is_done {
        return Ok(());
    }
    later_effect(cx, e, on, run, world)
}

/// Does what an expression does, whose value nothing wants. The record is split first where that brings more to hand.
#[inline(always)]
pub fn effect<W: World, E: Evaluates<W>>(
    cx: &Context<'_>,
    e: &Expr,
    on: E,
    run: &mut Run,
    world: &mut W,
) -> Result<(), Halt>
    requires can { E.can on }
    requires owns { Owns (W.open_numbers world.old) run.old.streams }
    ensures { Yields W.World cx.now (λ g. value (view (names_in g) e.now)) IsUnwanted
        (whole_of run.old) world.old result (whole_of run.new) world.new }
{
    split_for_assignment(&mut run.store, e)?;
    ready_effect(cx, e, on, run, world)
}

/// The same, of what is not done at once. A variable that is set to what a function returns is met here: there is less
/// on the way so.
#[inline(never)]
fn later_effect<W: World, E: Evaluates<W>>(
    cx: &Context<'_>,
    e: &Expr,
    on: E,
    run: &mut Run,
    world: &mut W,
) -> Result<(), Halt>
    requires can { E.can on }
    requires owns { Owns (W.open_numbers world.old) run.old.streams }
    ensures { Yields W.World cx.now (λ g. value (view (names_in g) e.now)) IsUnwanted
        (whole_of run.old) world.old result (whole_of run.new) world.new }
{
    if let Some(set) = set_by_call(e) {
        let Some(below) = on.below(units_of(e)) else {
            return Err(Halt::Memory);
        };
        return put_variable(cx, set.place, set.variable, set.call, below, run, world);
    }
    general_effect(cx, e, on, run, world)
}

/// The same, of what sets no variable to what a function returns.
#[inline(never)]
fn general_effect<W: World, E: Evaluates<W>>(
    cx: &Context<'_>,
    e: &Expr,
    on: E,
    run: &mut Run,
    world: &mut W,
) -> Result<(), Halt>
    requires can { E.can on }
    requires owns { Owns (W.open_numbers world.old) run.old.streams }
    ensures { Yields W.World cx.now (λ g. value (view (names_in g) e.now)) IsUnwanted
        (whole_of run.old) world.old result (whole_of run.new) world.new }
{
    let Some(below) = on.below(units_of(e)) else {
        return Err(Halt::Memory);
    };
    match e {
        Expr::Assign(place, target, x) => put(cx, *place, target, x.get(), below, run, world),
        Expr::Change(place, how, target, x) => {
            alter(cx, *place, *how, target, x.get(), on, run, world)
        }
        Expr::Step(place, how, _, target) => {
            step_target(cx, *place, *how, target, on, run, world)?;
            Ok(())
        }
        _ => {
            on.value(cx, e, run, world)?;
            Ok(())
        }
    }
}
