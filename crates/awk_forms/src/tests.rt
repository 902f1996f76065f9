// What an expression is wanted for, where that is less than its value: its number, or its truth.
ghost use Rattle.awk_forms.specs.Runs.{Does, Yields, IsNumberOf, IsTruthOf, whole_of};
ghost use Rattle.awk_machine.specs.Forms.{value};
ghost use Rattle.awk_machine.specs.Operators.{of_truth};
ghost use Rattle.awk_machine.specs.Pieces.{give};
ghost use Rattle.awk_program.specs.Program as p;
ghost use Rattle.awk_program.specs.View.{view};
ghost use Rattle.awk_store.specs.Wholes.{names_in};
ghost use Rattle.awk_streams.specs.Tasks.{Owns};

use crate::context::{Context, Run};
use crate::evaluates::Evaluates;
use crate::sources::matches;
use crate::targets::increment;
use crate::units::units_of;
use awk_builtins::at_hand::tests::{compared_behind, split_for_test, truth_at_hand};
use awk_builtins::at_hand::values::{MOST_LEVELS, number_at_hand};
use awk_builtins::comparisons::compared;
use awk_builtins::patterns::matches_record;
use awk_numbers::number::Number;
use awk_program::{Comparison, Expr};
use awk_streams::halt::{Halt, at};
use awk_text::fault::Fault;
use awk_text::place::Place;
use awk_text::value::{Value, number_of, truth};
use box_world::world::World;

/// The number of an expression's value, or that it is out of range, which is a fault only where the number is used.
pub fn number<W: World, E: Evaluates<W>>(
    cx: &Context<'_>,
    e: &Expr,
    on: E,
    run: &mut Run,
    world: &mut W,
) -> Result<Result<Number, Fault>, Halt>
    requires can { E.can on }
    requires owns { Owns (W.open_numbers world.old) run.old.streams }
    ensures { Yields W.World cx.now (λ g. value (view (names_in g) e.now)) IsNumberOf
        (whole_of run.old) world.old result (whole_of run.new) world.new }
{
    if let Some(known) = number_at_hand(&run.store, e, MOST_LEVELS) {
        return Ok(Ok(Number::Whole(known)));
    }
    let found = on.value(cx, e, run, world)?;
    Ok(number_of(run.store.numbers(), &found))
}

/// Whether the value of an expression is true, where no split of the record would bring more to hand. What is at hand
/// is all that stands in line.
#[inline(always)]
fn ready_truth<W: World, E: Evaluates<W>>(
    cx: &Context<'_>,
    e: &Expr,
    on: E,
    run: &mut Run,
    world: &mut W,
) -> Result<bool, Halt>
    requires can { E.can on }
    requires owns { Owns (W.open_numbers world.old) run.old.streams }
    ensures { Yields W.World cx.now (λ g. value (view (names_in g) e.now)) IsTruthOf
        (whole_of run.old) world.old result (whole_of run.new) world.new }
{
    if let Some(known) = truth_at_hand(&run.store, e) {
        return Ok(known);
    }
    later_truth(cx, e, on, run, world)
}

/// Whether the value of an expression is true. The record is split first where that brings more to hand.
#[inline(always)]
pub fn truth_of<W: World, E: Evaluates<W>>(
    cx: &Context<'_>,
    e: &Expr,
    on: E,
    run: &mut Run,
    world: &mut W,
) -> Result<bool, Halt>
    requires can { E.can on }
    requires owns { Owns (W.open_numbers world.old) run.old.streams }
    ensures { Yields W.World cx.now (λ g. value (view (names_in g) e.now)) IsTruthOf
        (whole_of run.old) world.old result (whole_of run.new) world.new }
{
    split_for_test(&mut run.store, e)?;
    ready_truth(cx, e, on, run, world)
}

/// The same, of what is not at hand.
#[inline(never)]
fn later_truth<W: World, E: Evaluates<W>>(
    cx: &Context<'_>,
    e: &Expr,
    on: E,
    run: &mut Run,
    world: &mut W,
) -> Result<bool, Halt>
    requires can { E.can on }
    requires owns { Owns (W.open_numbers world.old) run.old.streams }
    ensures { Yields W.World cx.now (λ g. value (view (names_in g) e.now)) IsTruthOf
        (whole_of run.old) world.old result (whole_of run.new) world.new }
{
    if let Expr::Pattern(place, text) = e {
        return matches_record(
            cx.alloc,
            &mut run.patterns,
            &mut run.store,
            *place,
            text.bytes(),
        );
    }
    general_truth(cx, e, on, run, world)
}

/// The same, of what is no ERE by itself.
#[inline(never)]
fn general_truth<W: World, E: Evaluates<W>>(
    cx: &Context<'_>,
    e: &Expr,
    on: E,
    run: &mut Run,
    world: &mut W,
) -> Result<bool, Halt>
    requires can { E.can on }
    requires owns { Owns (W.open_numbers world.old) run.old.streams }
    ensures { Yields W.World cx.now (λ g. value (view (names_in g) e.now)) IsTruthOf
        (whole_of run.old) world.old result (whole_of run.new) world.new }
{
    let Some(below) = on.below(units_of(e)) else {
        return Err(Halt::Memory);
    };
    match e {
        Expr::Compare(place, how, x, y) => {
            compare(cx, *place, *how, x.get(), y.get(), below, run, world)
        }
        Expr::Match(place, x, pattern) => { matches(cx, *place, x.get(), pattern, on, run, world) }
        Expr::Not(x) => is_untrue(cx, x.get(), below, run, world),
        _ => {
            let found = on.value(cx, e, run, world)?;
            Ok(truth(run.store.numbers(), &found))
        }
    }
}

/// The value of an operand of a test. A step is met here: `!a[key]++` is how scripts ask whether a key is new, and
/// `i++ < n` how they count.
fn operand<W: World, E: Evaluates<W>>(
    cx: &Context<'_>,
    x: &Expr,
    on: E,
    run: &mut Run,
    world: &mut W,
) -> Result<Value, Halt>
    requires can { E.can on }
    requires owns { Owns (W.open_numbers world.old) run.old.streams }
    ensures { Does W.World cx.now (λ g. value (view (names_in g) x.now)) (λ g. give)
        (whole_of run.old) world.old result (whole_of run.new) world.new }
{
    match x {
        Expr::Step(place, how, taken, target) => {
            increment(cx, *place, *how, *taken, target, on, run, world)
        }
        _ => on.value(cx, x, run, world),
    }
}

/// Whether `! operand` is true.
fn is_untrue<W: World, E: Evaluates<W>>(
    cx: &Context<'_>,
    x: &Expr,
    on: E,
    run: &mut Run,
    world: &mut W,
) -> Result<bool, Halt>
    requires can { E.can on }
    requires owns { Owns (W.open_numbers world.old) run.old.streams }
    ensures { Does W.World cx.now (λ g. value (p.not (view (names_in g) x.now))) (λ g b. give (of_truth b))
        (whole_of run.old) world.old result (whole_of run.new) world.new }
{
    let found = operand(cx, x, on, run, world)?;
    Ok(!truth(run.store.numbers(), &found))
}

/// Whether a comparison holds.
fn compare<W: World, E: Evaluates<W>>(
    cx: &Context<'_>,
    place: Place,
    how: Comparison,
    x: &Expr,
    y: &Expr,
    on: E,
    run: &mut Run,
    world: &mut W,
) -> Result<bool, Halt>
    requires can { E.can on }
    requires owns { Owns (W.open_numbers world.old) run.old.streams }
    ensures { Does W.World cx.now
        (λ g. value (p.compare place how (view (names_in g) x.now) (view (names_in g) y.now)))
        (λ g b. give (of_truth b))
        (whole_of run.old) world.old result (whole_of run.new) world.new }
{
    let one = operand(cx, x, on, run, world)?;
    if let Some(holds) = compared_behind(&run.store, how, &one, y) {
        return Ok(holds);
    }
    let other = on.value(cx, y, run, world)?;
    at(place, compared(cx.alloc, &run.store, how, one, other))
}
