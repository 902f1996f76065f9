// Assignments that are done at once: what they need is at hand, and their value is not wanted.
ghost use Rattle.awk_builtins.specs.AtHand.{ChangesAt, IsDone};
ghost use Rattle.awk_machine.specs.Expressions.{either};
ghost use Rattle.awk_machine.specs.Forms.{value};
ghost use Rattle.awk_machine.specs.Operators as machine;
ghost use Rattle.awk_machine.specs.Pieces.{Piece, give};
ghost use Rattle.awk_machine.specs.State.{Given};
ghost use Rattle.awk_program.specs.Program as p;
ghost use Rattle.awk_program.specs.Program.{expressions_of};
ghost use Rattle.awk_program.specs.View.{variable_of, view, view_target};
ghost use Rattle.awk_program.specs.declared.operators.StepValue.{StepValue as Which};
ghost use Rattle.awk_store.specs.Acts.{Acts, Passes};
ghost use Rattle.awk_store.specs.Kept as kept;
ghost use Rattle.awk_store.specs.Wholes.{names_in};
ghost use Rattle.awk_streams.specs.Tables.{Table};
ghost use Rattle.awk_numbers.specs.declared.number.Number.TheVariants as number;
ghost use Rattle.awk_numbers.specs.declared.number.Numbers.{Numbers as Profile};
ghost use Rattle.awk_text.specs.Arithmetic.{add};
ghost use Rattle.awk_text.specs.Values.{of_number};
ghost use Rattle.std.specs.Prelude.{ℤ, IfSome, None, false, map, true, ◌∷◌, ◌≡◌};

use crate::at_hand::elements::{added_at, key_at_hand, number_of_key, put_at_number};
use crate::at_hand::records::{is_keyed_by_field, is_unsplit, split_record, wants_split};
use crate::at_hand::tests::chosen;
use crate::at_hand::values::{MOST_LEVELS, at_hand, number_at_hand, number_kept, value_at_hand};
use crate::line::Line;
use crate::operators::{operation, stepped};
use awk_numbers::number::{Number, Numbers};
use awk_program::{Expr, Operator, Step, Target, Variable};
use awk_store::{Store, is_nf};
use awk_streams::halt::Halt;
use awk_text::place::Place;
use awk_text::value::Value;
use std::alloc::Global;

/// `variable = value`
#[inline(always)]
fn assigned_variable(alloc: Global, store: &mut Store, variable: Variable, x: &Expr) -> bool
    ensures done { result ≡ true → (place : Place) →
        IsDone (λ names. p.assign place (p.variable (variable_of names variable)) (view names x.now)) store.old
        store.new }
    ensures not_done { result ≡ false → store.new ≡ store.old }
{
    if is_nf(variable) {
        return false;
    }
    let Some(value) = value_at_hand(alloc, store, chosen(store, x)) else {
        return false;
    };
    store.set(variable, value);
    true
}

/// `array [ key ] = value`
#[inline(never)]
fn assigned_element(
    alloc: Global,
    store: &mut Store,
    line: &mut Line,
    array: Variable,
    keys: &[Expr],
    x: &Expr,
) -> bool
    ensures done { result ≡ true → (place at_name : Place) →
        IsDone (λ names. p.assign place
        (p.element at_name (variable_of names array) (expressions_of (map (view names) keys.now))) (view names x.now))
        store.old store.new }
    ensures not_done { result ≡ false → store.new ≡ store.old }
{
    let Some(value) = value_at_hand(alloc, store, chosen(store, x)) else {
        return false;
    };
    if let Some(number) = number_of_key(store, keys) {
        return put_at_number(store, array, number, value);
    }
    let Some(key) = key_at_hand(store, line, keys) else {
        return false;
    };
    match store.put(array, key, value) {
        Ok(()) => true,
        Err(_) => false,
    }
}

/// `target = value`. It stands out of line, as the others do that are told apart first: so a step has a small frame.
#[inline(never)]
fn assigned(
    alloc: Global,
    store: &mut Store,
    line: &mut Line,
    target: &Target<Expr>,
    x: &Expr,
) -> bool
    ensures done { result ≡ true → (place : Place) →
        IsDone (λ names. p.assign place (view_target names target.now) (view names x.now)) store.old store.new }
    ensures not_done { result ≡ false → store.new ≡ store.old }
{
    if let Target::Variable(variable) = target {
        return assigned_variable(alloc, store, *variable, x);
    }
    let Target::Element(_, array, keys) = target else {
        return false;
    };
    assigned_element(alloc, store, line, *array, keys.as_slice(), x)
}

/// The number, which may have a fraction, that a value is, if it is one.
fn as_number(value: &Value) -> Option<Number>
    ensures { IfSome result (λ n. value.now ≡ of_number n) }
{
    match value {
        Value::Num(number) => Some(Number::Whole(*number)),
        Value::Real(number) => Some(Number::Real(*number)),
        Value::Unset | Value::Text(_) | Value::Input(_) => None,
    }
}

/// The number, which may have a fraction, that a variable holds that is not NF, if it holds one.
fn any_number_kept(store: &Store, variable: Variable) -> Option<Number>
    ensures nf { IfSome result (λ n. kept.is_nf variable ≡ false) }
    ensures number { IfSome result (λ n. kept.value store.now variable ≡ of_number n) }
{
    if is_nf(variable) {
        return None;
    }
    as_number(store.value(variable)?)
}

/// `variable += number`, and with the other operators, where numbers may have fractions. It stands out of line, so that
/// whole numbers alone take a small frame.
#[inline(never)]
fn changed_by_any(store: &mut Store, how: Operator, variable: Variable, x: &Expr) -> bool
    ensures done { result ≡ true → (place : Place) →
        IsDone (λ names. p.change place how (p.variable (variable_of names variable)) (view names x.now)) store.old
        store.new }
    ensures not_done { result ≡ false → store.new ≡ store.old }
{
    let numbers = store.numbers();
    let Some(value) = at_hand(store, x, MOST_LEVELS) else {
        return false;
    };
    let Ok(operand) = value.number(numbers) else {
        return false;
    };
    let Some(old) = any_number_kept(store, variable) else {
        return false;
    };
    let Ok(new) = operation(numbers, how, old, operand) else {
        return false;
    };
    store.set(variable, Value::of(new));
    true
}

/// `variable += number`, and with the other operators.
#[inline(always)]
fn changed_variable(store: &mut Store, how: Operator, variable: Variable, x: &Expr) -> bool
    ensures done { result ≡ true → (place : Place) →
        IsDone (λ names. p.change place how (p.variable (variable_of names variable)) (view names x.now)) store.old
        store.new }
    ensures not_done { result ≡ false → store.new ≡ store.old }
{
    if let Numbers::Double = store.numbers() {
        return changed_by_any(store, how, variable, x);
    }
    let Some(operand) = number_at_hand(store, x, MOST_LEVELS) else {
        return false;
    };
    let Some(old) = number_kept(store, variable) else {
        return false;
    };
    let numbers = store.numbers();
    let Ok(new) = operation(numbers, how, Number::Whole(old), Number::Whole(operand)) else {
        return false;
    };
    store.set(variable, Value::of(new));
    true
}

/// `array [ key ] += number`
#[inline(always)]
fn added_to_element(
    store: &mut Store,
    line: &mut Line,
    array: Variable,
    keys: &[Expr],
    x: &Expr,
) -> bool
    ensures done { result ≡ true → (place at_name : Place) →
        IsDone (λ names. p.change place Operator.Add
        (p.element at_name (variable_of names array) (expressions_of (map (view names) keys.now))) (view names x.now))
        store.old store.new }
    ensures not_done { result ≡ false → store.new ≡ store.old }
{
    let Some(operand) = number_at_hand(store, x, MOST_LEVELS) else {
        return false;
    };
    added_at(store, line, array, keys, operand)
}

/// `array [ key ] += number`, and with the other operators, where the element holds a number, which may have a fraction
/// as the other one may.
fn changed_at(
    store: &mut Store,
    line: &mut Line,
    how: Operator,
    array: Variable,
    keys: &[Expr],
    operand: Number,
) -> bool
    ensures done { result ≡ true → ChangesAt how array keys.now operand store.old store.new }
    ensures not_done { result ≡ false → store.new ≡ store.old }
{
    let Some(key) = key_at_hand(store, line, keys) else {
        return false;
    };
    let Some(held) = store.element(array, key) else {
        return false;
    };
    let Some(old) = as_number(held) else {
        return false;
    };
    let Ok(new) = operation(store.numbers(), how, old, operand) else {
        return false;
    };
    match store.put(array, key, Value::of(new)) {
        Ok(()) => true,
        Err(_) => false,
    }
}

/// `changed_at`, where a whole number is added to one: in its place.
fn added_whole(
    store: &mut Store,
    line: &mut Line,
    how: Operator,
    array: Variable,
    keys: &[Expr],
    operand: Number,
) -> bool
    ensures done { result ≡ true → ChangesAt how array keys.now operand store.old store.new }
    ensures not_done { result ≡ false → store.new ≡ store.old }
{
    let Operator::Add = how else {
        return false;
    };
    let Number::Whole(by) = operand else {
        return false;
    };
    added_at(store, line, array, keys, by)
}

/// `array [ key ] += number`, and with the other operators, where numbers may have fractions.
#[inline(never)]
fn element_changed_by_any(
    store: &mut Store,
    line: &mut Line,
    how: Operator,
    array: Variable,
    keys: &[Expr],
    x: &Expr,
) -> bool
    ensures done { result ≡ true → (place at_name : Place) →
        IsDone (λ names. p.change place how
        (p.element at_name (variable_of names array) (expressions_of (map (view names) keys.now))) (view names x.now))
        store.old store.new }
    ensures not_done { result ≡ false → store.new ≡ store.old }
{
    let numbers = store.numbers();
    let Some(value) = at_hand(store, x, MOST_LEVELS) else {
        return false;
    };
    let Ok(operand) = value.number(numbers) else {
        return false;
    };
    if added_whole(store, line, how, array, keys, operand) {
        return true;
    }
    changed_at(store, line, how, array, keys, operand)
}

/// `array [ key ] += number`; with the other operators nothing is done of whole numbers alone.
fn added_by(
    store: &mut Store,
    line: &mut Line,
    how: Operator,
    array: Variable,
    keys: &[Expr],
    x: &Expr,
) -> bool
    ensures done { result ≡ true → (place at_name : Place) →
        IsDone (λ names. p.change place how
        (p.element at_name (variable_of names array) (expressions_of (map (view names) keys.now))) (view names x.now))
        store.old store.new }
    ensures not_done { result ≡ false → store.new ≡ store.old }
{
    if let Numbers::Double = store.numbers() {
        return element_changed_by_any(store, line, how, array, keys, x);
    }
    match how {
        Operator::Add => added_to_element(store, line, array, keys, x),
        _ => false,
    }
}

/// `target += number`, and of a variable with the other operators.
#[inline(never)]
fn changed(
    store: &mut Store,
    line: &mut Line,
    how: Operator,
    target: &Target<Expr>,
    x: &Expr,
) -> bool
    ensures done { result ≡ true → (place : Place) →
        IsDone (λ names. p.change place how (view_target names target.now) (view names x.now)) store.old store.new }
    ensures not_done { result ≡ false → store.new ≡ store.old }
{
    if let Target::Variable(variable) = target {
        return changed_variable(store, how, *variable, x);
    }
    let Target::Element(_, array, keys) = target else {
        return false;
    };
    added_by(store, line, how, *array, keys.as_slice(), x)
}

/// `variable ++` and `variable --`, by the store's profile, where the variable holds a whole number and there is no
/// fault: the old number and the new one.
#[inline(always)]
pub fn stepped_variable(
    store: &mut Store,
    how: Step,
    variable: Variable,
) -> Option<(Number, Number)>
    ensures done { IfSome result
        (λ n. (g : Given) (t : Table) (place : Place) (taken : Which) →
        Passes g (value (p.step place how taken (p.variable (variable_of (names_in g) variable)))) (store.old, t)
        (give (either taken n.0 n.1)) (store.new, t)) }
    ensures not_done { result ≡ None → store.new ≡ store.old }
{
    let old = number_kept(store, variable)?;
    let Ok(new) = stepped(store.numbers(), how, Number::Whole(old)) else {
        return None;
    };
    store.set(variable, Value::of(new));
    Some((Number::Whole(old), new))
}

/// What `++` and `--` add, by either profile.
fn step_by(how: Step) -> i64
    ensures { (numbers : Profile) (n : ℤ) → add numbers (number.Whole n) (number.Whole result)
        ≡ machine.stepped numbers how (number.Whole n) }
{
    match how {
        Step::Increment => 1,
        Step::Decrement => -1,
    }
}

/// `array [ key ] ++` and `array [ key ] --`
#[inline(never)]
fn stepped_element(
    store: &mut Store,
    line: &mut Line,
    how: Step,
    array: Variable,
    keys: &[Expr],
) -> bool
    ensures done { result ≡ true → (place at_name : Place) (taken : Which) →
        IsDone (λ names. p.step place how taken
        (p.element at_name (variable_of names array) (expressions_of (map (view names) keys.now)))) store.old
        store.new }
    ensures not_done { result ≡ false → store.new ≡ store.old }
{
    added_at(store, line, array, keys, step_by(how))
}

/// `target ++` and `target --`
#[inline(never)]
fn stepped_target(store: &mut Store, line: &mut Line, how: Step, target: &Target<Expr>) -> bool
    ensures done { result ≡ true → (place : Place) (taken : Which) →
        IsDone (λ names. p.step place how taken (view_target names target.now)) store.old store.new }
    ensures not_done { result ≡ false → store.new ≡ store.old }
{
    if let Target::Variable(variable) = target {
        return stepped_variable(store, how, *variable).is_some();
    }
    let Target::Element(_, array, keys) = target else {
        return false;
    };
    stepped_element(store, line, how, *array, keys.as_slice())
}

/// Does the whole of an assignment whose parts are at hand. Else it does nothing, and answers `false`;
/// so also where there is a fault, which has its place in the general way.
#[inline(always)]
pub fn done_at_once(alloc: Global, store: &mut Store, line: &mut Line, e: &Expr) -> bool
    ensures done { result ≡ true → IsDone (λ names. view names e.now) store.old store.new }
    ensures not_done { result ≡ false → store.new ≡ store.old }
{
    if let Expr::Assign(_, target, x) = e {
        return assigned(alloc, store, line, target, x.get());
    }
    if let Expr::Step(_, how, _, target) = e {
        return stepped_target(store, line, *how, target);
    }
    let Expr::Change(_, how, target, x) = e else {
        return false;
    };
    changed(store, line, *how, target, x.get())
}

/// Whether a part of an assignment is at hand only once the record is split.
#[inline(always)]
fn has_parts_to_split(e: &Expr) -> bool {
    match e {
        Expr::Assign(_, target, x) => is_keyed_by_field(target) || wants_split(x.get()),
        Expr::Change(_, _, target, x) => is_keyed_by_field(target) || wants_split(x.get()),
        Expr::Step(_, _, _, target) => is_keyed_by_field(target),
        _ => false,
    }
}

/// Whether the record is to be split before an assignment: it is not split yet, and that brings a part to hand.
#[inline(always)]
fn awaits_split(store: &Store, e: &Expr) -> bool {
    is_unsplit(store) && has_parts_to_split(e)
}

/// Splits the record before an assignment, where that brings a part to hand: plain awk does not see it.
#[inline(always)]
pub fn split_for_assignment(store: &mut Store, e: &Expr) -> Result<(), Halt>
    ensures { (g : Given) (t : Table) (q : Piece) → Acts g q (λ u k. q ∷ k) (store.old, t) result (store.new, t) }
{
    if !awaits_split(store, e) {
        return Ok(());
    }
    split_record(store)
}
