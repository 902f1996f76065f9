// What is read or set.
ghost use Rattle.std.specs.Prelude.{List, None, ℕ, IfOk, IfSome, ◌≡◌};
ghost use Rattle.awk_streams.specs.Tasks.{Owns};
ghost use Rattle.awk_machine.specs.Forms.{value, spot};
ghost use Rattle.awk_machine.specs.Pieces.{give};
ghost use Rattle.awk_program.specs.Program as p;
ghost use Rattle.awk_program.specs.View.{variable_of, view, view_target};
ghost use Rattle.awk_machine.specs.State.{Given};
ghost use Rattle.awk_store.specs.Acts.{Passes};
ghost use Rattle.awk_store.specs.Spots.{IsSpotOf, value_of};
ghost use Rattle.awk_store.specs.Wholes.{names_in};
ghost use Rattle.awk_forms.specs.Runs.{Does, Yields, IsUnwanted, whole_of};
ghost use Rattle.awk_machine.specs.Expressions.{either};
ghost use Rattle.awk_program.specs.declared.operators.StepValue.{StepValue as Which};
ghost use Rattle.awk_streams.specs.Tables.{Table};

use crate::context::{Context, Run};
use crate::evaluates::Evaluates;
use crate::growing::put_longer;
use crate::lists::element;
use awk_builtins::at_hand::assignments::stepped_variable;
use awk_builtins::at_hand::elements::{element_at_hand, read_at_key, step_at_key};
use awk_builtins::at_hand::growth::assigned;
use awk_builtins::keys::field_number;
use awk_builtins::made::computed_at;
use awk_builtins::settings;
use awk_numbers::number::Number;
use awk_program::{Expr, Operator, Step, StepValue, Target, Variable};
use awk_store::targets::{read, set};
use awk_store::variables::{read_variable, set_variable};
use awk_store::{Spot, Store};
use awk_streams::halt::Halt;
use awk_text::place::Place;
use awk_text::value::Value;
use box_world::world::World;

/// `$ operand`
fn field<W: World, E: Evaluates<W>>(
    cx: &Context<'_>,
    place: Place,
    x: &Expr,
    on: E,
    run: &mut Run,
    world: &mut W,
) -> Result<Spot, Halt>
    requires can { E.can on }
    requires owns { Owns (W.open_numbers world.old) run.old.streams }
    ensures plays { Does W.World cx.now (λ g. spot (p.field place (view (names_in g) x.now))) (λ g s. give (value_of s))
        (whole_of run.old) world.old result (whole_of run.new) world.new }
    ensures spot { IfOk result (λ s. (names : List (List ℕ)) → IsSpotOf names (p.field place (view names x.now)) s) }
{
    let operand = on.value(cx, x, run, world)?;
    Ok(Spot::Field(field_number(run.store.numbers(), place, &operand)?))
}

/// What is read or set: its subscripts or its number come first.
pub fn target_of<W: World, E: Evaluates<W>>(
    cx: &Context<'_>,
    target: &Target<Expr>,
    on: E,
    run: &mut Run,
    world: &mut W,
) -> Result<Spot, Halt>
    requires can { E.can on }
    requires owns { Owns (W.open_numbers world.old) run.old.streams }
    ensures plays { Does W.World cx.now (λ g. spot (view_target (names_in g) target.now)) (λ g s. give (value_of s))
        (whole_of run.old) world.old result (whole_of run.new) world.new }
    ensures spot { IfOk result (λ s. (names : List (List ℕ)) → IsSpotOf names (view_target names target.now) s) }
{
    match target {
        Target::Variable(variable) => Ok(Spot::Variable(*variable)),
        Target::Element(place, array, keys) => {
            element(cx, *place, *array, keys.as_slice(), on, run, world)
        }
        Target::Field(place, x) => field(cx, *place, x.get(), on, run, world),
    }
}

/// The value of what is read, whose subscripts or number are evaluated first.
fn general_read<W: World, E: Evaluates<W>>(
    cx: &Context<'_>,
    target: &Target<Expr>,
    on: E,
    run: &mut Run,
    world: &mut W,
) -> Result<Value, Halt>
    requires can { E.can on }
    requires owns { Owns (W.open_numbers world.old) run.old.streams }
    ensures { Does W.World cx.now (λ g. value (p.read (view_target (names_in g) target.now))) (λ g. give)
        (whole_of run.old) world.old result (whole_of run.new) world.new }
{
    let from = target_of(cx, target, on, run, world)?;
    read(&mut run.store, &from)
}

/// The value of an element, by its key where that is at hand. It stands out of line, so that to read a variable takes a
/// small frame.
#[inline(never)]
fn read_element_target<W: World, E: Evaluates<W>>(
    cx: &Context<'_>,
    target: &Target<Expr>,
    on: E,
    run: &mut Run,
    world: &mut W,
) -> Result<Value, Halt>
    requires can { E.can on }
    requires owns { Owns (W.open_numbers world.old) run.old.streams }
    ensures { Does W.World cx.now (λ g. value (p.read (view_target (names_in g) target.now))) (λ g. give)
        (whole_of run.old) world.old result (whole_of run.new) world.new }
{
    if let Some(element) = element_at_hand(&run.store, &mut run.line, target) {
        return read_at_key(cx.alloc, &mut run.store, element);
    }
    general_read(cx, target, on, run, world)
}

/// The value of a variable: a long text is shared.
#[inline(always)]
pub fn value_of_variable<W: World>(
    cx: &Context<'_>,
    variable: Variable,
    run: &mut Run,
    world: &mut W,
) -> Result<Value, Halt>
    requires owns { Owns (W.open_numbers world.old) run.old.streams }
    ensures { Does W.World cx.now (λ g. value (p.read (p.variable (variable_of (names_in g) variable)))) (λ g. give)
        (whole_of run.old) world.old result (whole_of run.new) world.new }
{
    read_variable(&mut run.store, variable)
}

/// The value of a variable, of an element or of a field.
pub fn read_target<W: World, E: Evaluates<W>>(
    cx: &Context<'_>,
    target: &Target<Expr>,
    on: E,
    run: &mut Run,
    world: &mut W,
) -> Result<Value, Halt>
    requires can { E.can on }
    requires owns { Owns (W.open_numbers world.old) run.old.streams }
    ensures { Does W.World cx.now (λ g. value (p.read (view_target (names_in g) target.now))) (λ g. give)
        (whole_of run.old) world.old result (whole_of run.new) world.new }
{
    if let Target::Variable(variable) = target {
        return value_of_variable(cx, *variable, run, world);
    }
    if let Target::Element(_, _, _) = target {
        return read_element_target(cx, target, on, run, world);
    }
    general_read(cx, target, on, run, world)
}

/// `variable = value`, whose value nothing wants.
#[inline(always)]
pub fn put_variable<W: World, E: Evaluates<W>>(
    cx: &Context<'_>,
    place: Place,
    variable: Variable,
    x: &Expr,
    on: E,
    run: &mut Run,
    world: &mut W,
) -> Result<(), Halt>
    requires can { E.can on }
    requires owns { Owns (W.open_numbers world.old) run.old.streams }
    ensures { Yields W.World cx.now
        (λ g. value (p.assign place (p.variable (variable_of (names_in g) variable)) (view (names_in g) x.now)))
        IsUnwanted
        (whole_of run.old) world.old result (whole_of run.new) world.new }
{
    let new = on.value(cx, x, run, world)?;
    set_variable(&mut run.store, variable, place, new)
}

/// `target = value`, whose value nothing wants: so nothing is copied, and a text grows in its place.
pub fn put<W: World, E: Evaluates<W>>(
    cx: &Context<'_>,
    place: Place,
    target: &Target<Expr>,
    x: &Expr,
    on: E,
    run: &mut Run,
    world: &mut W,
) -> Result<(), Halt>
    requires can { E.can on }
    requires owns { Owns (W.open_numbers world.old) run.old.streams }
    ensures { Yields W.World cx.now
        (λ g. value (p.assign place (view_target (names_in g) target.now) (view (names_in g) x.now))) IsUnwanted
        (whole_of run.old) world.old result (whole_of run.new) world.new }
{
    let is_done = assigned(cx.alloc, &mut run.store, &mut run.texts, target, x)?;
    if is_done {
        return Ok(());
    }
    if let Target::Variable(variable) = target {
        return put_longer(cx, place, *variable, x, on, run, world);
    }
    let to = target_of(cx, target, on, run, world)?;
    let new = on.value(cx, x, run, world)?;
    set(cx.alloc, &mut run.store, to, place, new)
}

/// `variable += value`, and with the other operators, whose value nothing wants.
#[inline(always)]
fn alter_variable<W: World, E: Evaluates<W>>(
    cx: &Context<'_>,
    place: Place,
    how: Operator,
    variable: Variable,
    x: &Expr,
    on: E,
    run: &mut Run,
    world: &mut W,
) -> Result<(), Halt>
    requires can { E.can on }
    requires owns { Owns (W.open_numbers world.old) run.old.streams }
    ensures { Yields W.World cx.now
        (λ g. value (p.change place how (p.variable (variable_of (names_in g) variable)) (view (names_in g) x.now)))
        IsUnwanted
        (whole_of run.old) world.old result (whole_of run.new) world.new }
{
    let operand = on.value(cx, x, run, world)?;
    let old = read_variable(&mut run.store, variable)?;
    let number = computed_at(run.store.numbers(), place, how, &old, &operand)?;
    set_variable(&mut run.store, variable, place, Value::of(number))
}

/// `target += value`, and with the other operators, whose value nothing wants.
pub fn alter<W: World, E: Evaluates<W>>(
    cx: &Context<'_>,
    place: Place,
    how: Operator,
    target: &Target<Expr>,
    x: &Expr,
    on: E,
    run: &mut Run,
    world: &mut W,
) -> Result<(), Halt>
    requires can { E.can on }
    requires owns { Owns (W.open_numbers world.old) run.old.streams }
    ensures { Yields W.World cx.now
        (λ g. value (p.change place how (view_target (names_in g) target.now) (view (names_in g) x.now))) IsUnwanted
        (whole_of run.old) world.old result (whole_of run.new) world.new }
{
    if let Target::Variable(variable) = target {
        return alter_variable(cx, place, how, *variable, x, on, run, world);
    }
    change(cx, place, how, target, x, on, run, world)?;
    Ok(())
}

/// Steps what is read and set, whose subscripts or number are evaluated first.
fn general_step<W: World, E: Evaluates<W>>(
    cx: &Context<'_>,
    place: Place,
    how: Step,
    target: &Target<Expr>,
    on: E,
    run: &mut Run,
    world: &mut W,
) -> Result<(Number, Number), Halt>
    requires can { E.can on }
    requires owns { Owns (W.open_numbers world.old) run.old.streams }
    ensures { (taken : Which) →
        Does W.World cx.now (λ g. value (p.step place how taken (view_target (names_in g) target.now)))
        (λ g n. give (either taken n.0 n.1))
        (whole_of run.old) world.old result (whole_of run.new) world.new }
{
    let to = target_of(cx, target, on, run, world)?;
    settings::step(cx.alloc, &mut run.store, place, how, to)
}

/// The same of an element, by its key where that is at hand. It stands out of line, as what reads one does.
#[inline(never)]
fn step_element_target<W: World, E: Evaluates<W>>(
    cx: &Context<'_>,
    place: Place,
    how: Step,
    target: &Target<Expr>,
    on: E,
    run: &mut Run,
    world: &mut W,
) -> Result<(Number, Number), Halt>
    requires can { E.can on }
    requires owns { Owns (W.open_numbers world.old) run.old.streams }
    ensures { (taken : Which) →
        Does W.World cx.now (λ g. value (p.step place how taken (view_target (names_in g) target.now)))
        (λ g n. give (either taken n.0 n.1))
        (whole_of run.old) world.old result (whole_of run.new) world.new }
{
    if let Some(element) = element_at_hand(&run.store, &mut run.line, target) {
        return step_at_key(cx.alloc, &mut run.store, place, how, element);
    }
    general_step(cx, place, how, target, on, run, world)
}

/// What `stepped_variable` does, where the target is a variable.
#[inline(always)]
fn stepped_at_once(store: &mut Store, how: Step, target: &Target<Expr>) -> Option<(Number, Number)>
    ensures done { IfSome result
        (λ n. (g : Given) (t : Table) (place : Place) (taken : Which) →
        Passes g (value (p.step place how taken (view_target (names_in g) target.now))) (store.old, t)
        (give (either taken n.0 n.1)) (store.new, t)) }
    ensures not_done { result ≡ None → store.new ≡ store.old }
{
    match target {
        Target::Variable(variable) => stepped_variable(store, how, *variable),
        Target::Element(_, _, _) | Target::Field(_, _) => None,
    }
}

/// Sets a target to the next number, or to the one before, and answers the old number and the new one.
pub fn step_target<W: World, E: Evaluates<W>>(
    cx: &Context<'_>,
    place: Place,
    how: Step,
    target: &Target<Expr>,
    on: E,
    run: &mut Run,
    world: &mut W,
) -> Result<(Number, Number), Halt>
    requires can { E.can on }
    requires owns { Owns (W.open_numbers world.old) run.old.streams }
    ensures { (taken : Which) →
        Does W.World cx.now (λ g. value (p.step place how taken (view_target (names_in g) target.now)))
        (λ g n. give (either taken n.0 n.1))
        (whole_of run.old) world.old result (whole_of run.new) world.new }
{
    if let Some(steps) = stepped_at_once(&mut run.store, how, target) {
        return Ok(steps);
    }
    if let Target::Element(_, _, _) = target {
        return step_element_target(cx, place, how, target, on, run, world);
    }
    general_step(cx, place, how, target, on, run, world)
}

/// `target = value`
pub fn assign<W: World, E: Evaluates<W>>(
    cx: &Context<'_>,
    place: Place,
    target: &Target<Expr>,
    x: &Expr,
    on: E,
    run: &mut Run,
    world: &mut W,
) -> Result<Value, Halt>
    requires can { E.can on }
    requires owns { Owns (W.open_numbers world.old) run.old.streams }
    ensures { Does W.World cx.now
        (λ g. value (p.assign place (view_target (names_in g) target.now) (view (names_in g) x.now))) (λ g. give)
        (whole_of run.old) world.old result (whole_of run.new) world.new }
{
    let to = target_of(cx, target, on, run, world)?;
    let new = on.value(cx, x, run, world)?;
    settings::assign(cx.alloc, &mut run.store, place, to, new)
}

/// `target += value`, and with the other operators.
pub fn change<W: World, E: Evaluates<W>>(
    cx: &Context<'_>,
    place: Place,
    how: Operator,
    target: &Target<Expr>,
    x: &Expr,
    on: E,
    run: &mut Run,
    world: &mut W,
) -> Result<Value, Halt>
    requires can { E.can on }
    requires owns { Owns (W.open_numbers world.old) run.old.streams }
    ensures { Does W.World cx.now
        (λ g. value (p.change place how (view_target (names_in g) target.now) (view (names_in g) x.now))) (λ g. give)
        (whole_of run.old) world.old result (whole_of run.new) world.new }
{
    let to = target_of(cx, target, on, run, world)?;
    let operand = on.value(cx, x, run, world)?;
    settings::change(cx.alloc, &mut run.store, place, how, to, &operand)
}

/// `target ++` and `target --`, before and behind.
pub fn increment<W: World, E: Evaluates<W>>(
    cx: &Context<'_>,
    place: Place,
    how: Step,
    taken: StepValue,
    target: &Target<Expr>,
    on: E,
    run: &mut Run,
    world: &mut W,
) -> Result<Value, Halt>
    requires can { E.can on }
    requires owns { Owns (W.open_numbers world.old) run.old.streams }
    ensures { Does W.World cx.now (λ g. value (p.step place how taken (view_target (names_in g) target.now)))
        (λ g. give)
        (whole_of run.old) world.old result (whole_of run.new) world.new }
{
    let (before, behind) = step_target(cx, place, how, target, on, run, world)?;
    match taken {
        StepValue::Before => Ok(Value::of(before)),
        StepValue::Behind => Ok(Value::of(behind)),
    }
}
