// Calls of the script's functions.
ghost use Rattle.std.specs.Prelude.{◌≡◌, length, IfOk, IfSome};
ghost use Rattle.awk_streams.specs.Tasks.{Owns};
ghost use Rattle.awk_machine.specs.Forms.{value};
ghost use Rattle.awk_machine.specs.Pieces.{give};
ghost use Rattle.awk_program.specs.Program as p;
ghost use Rattle.awk_program.specs.View.{view_arguments};
ghost use Rattle.awk_store.specs.Wholes.{names_in};
ghost use Rattle.awk_store.specs.Calls.{argument_of};
ghost use Rattle.awk_eval.specs.Calls.{Argued, Argues, IsPassed};
ghost use Rattle.awk_text.specs.declared.value.Value.TheVariants as v;
ghost use Rattle.awk_forms.specs.Runs.{Does, whole_of};

use crate::statements::body;
use awk_builtins::at_hand::values::number_there;
use awk_forms::context::{Context, Run};
use awk_forms::evaluates::Evaluates;
use awk_program::{Argument, Expr};
use awk_store::frames::{begin, body_of, leave, pass, returned};
use awk_store::steps::step;
use awk_store::{Passed, Store};
use awk_streams::halt::Halt;
use awk_text::place::Place;
use awk_text::value::Value;
use box_world::world::World;

/// The number that an argument is, where it is at hand: so a number is not copied on its way.
#[inline(always)]
fn number_passed(store: &Store, x: &Argument<Expr>) -> Option<i64>
    ensures { IfSome result (λ n. IsPassed x.now store.now (v.Num n)) }
{
    match x {
        Argument::Value(x) => number_there(store, x),
        Argument::Array(_) | Argument::Nothing => None,
    }
}

/// The value of an argument; what is handed otherwise is unset.
fn argument<W: World, E: Evaluates<W>>(
    cx: &Context<'_>,
    x: &Argument<Expr>,
    on: E,
    run: &mut Run,
    world: &mut W,
) -> Result<Value, Halt>
    requires can { E.can on }
    requires owns { Owns (W.open_numbers world.old) run.old.streams }
    ensures { Argued W.World cx.now (λ g. argument_of (names_in g) x.now)
        (whole_of run.old) world.old result (whole_of run.new) world.new }
{
    match x {
        Argument::Value(x) => on.value(cx, x, run, world),
        Argument::Array(_) => Ok(Value::Unset),
        Argument::Nothing => Ok(Value::Unset),
    }
}

/// The values of the arguments, from left to right.
fn arguments<W: World, E: Evaluates<W>>(
    cx: &Context<'_>,
    xs: &[Argument<Expr>],
    on: E,
    run: &mut Run,
    world: &mut W,
) -> Result<Passed, Halt>
    requires can { E.can on }
    requires owns { Owns (W.open_numbers world.old) run.old.streams }
    ensures plays { Argues W.World cx.now (λ g. view_arguments (names_in g) xs.now)
        (whole_of run.old) world.old result (whole_of run.new) world.new }
    ensures count { IfOk result (λ vs. length vs ≡ length xs.now) }
{
    let mut values = run.store.spare_values();
    for x in xs {
        let known = number_passed(&run.store, x);
        if let Some(number) = known {
            pass(&mut values, Value::Num(number))?;
        } else {
            let next = argument(cx, x, on, run, world)?;
            pass(&mut values, next)?;
        }
    }
    Ok(values)
}

/// `function ( list )`. It stands out of line, so that the frame of `value` is small.
#[inline(never)]
pub fn call<W: World, E: Evaluates<W>>(
    cx: &Context<'_>,
    place: Place,
    f: u32,
    xs: &[Argument<Expr>],
    on: E,
    run: &mut Run,
    world: &mut W,
) -> Result<Value, Halt>
    requires can { E.can on }
    requires owns { Owns (W.open_numbers world.old) run.old.streams }
    ensures { Does W.World cx.now (λ g. value (p.call place f (view_arguments (names_in g) xs.now))) (λ g. give)
        (whole_of run.old) world.old result (whole_of run.new) world.new }
{
    let values = arguments(cx, xs, on, run, world)?;
    step(cx.host.bound(), &mut run.store)?;
    let caller = begin(cx.program, place, f, xs, values, &mut run.store)?;
    let flow = body(cx, body_of(cx.program, f), on, run, world)?;
    leave(&mut run.store, caller);
    Ok(returned(flow))
}
