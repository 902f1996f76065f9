// Tests whose truth is there, where their parts are; and the part that a choice comes to by such a test.
ghost use Rattle.awk_builtins.specs.AtHand.{HasTruth, IsThere};
ghost use Rattle.awk_builtins.specs.Shown.{compared_by};
ghost use Rattle.awk_machine.specs.Operators.{of_truth};
ghost use Rattle.awk_machine.specs.Pieces.{Piece};
ghost use Rattle.awk_machine.specs.State.{Given};
ghost use Rattle.awk_program.specs.Program as p;
ghost use Rattle.awk_program.specs.Program.{expressions_of};
ghost use Rattle.awk_program.specs.View.{Names, variable_of, view, view_ere};
ghost use Rattle.awk_store.specs.Acts.{Acts};
ghost use Rattle.awk_streams.specs.Tables.{Table};
ghost use Rattle.awk_text.specs.Lents.{lent_value};
ghost use Rattle.awk_text.specs.declared.place.Place as spot_of;
ghost use Rattle.awk_text.specs.declared.value.Value.TheVariants as v;
ghost use Rattle.awk_text.specs.declared.value.Value.{Value as Val};
ghost use Rattle.std.specs.Prelude.{IfSome, Ok, map, ◌∷◌, ◌≡◌};

use crate::at_hand::records::{is_keyed_by_field, is_unsplit, split_record, wants_split};
use crate::at_hand::values::{MOST_LEVELS, at_hand, counted_there, plain_number};
use crate::cache::Patterns;
use crate::comparisons::compared_there;
use crate::operators::{compared_lent, compared_numbers};
use crate::patterns::{check, matches};
use awk_program::{Comparison, Expr, Pattern, Variable};
use awk_store::Store;
use awk_streams::halt::Halt;
use awk_text::buffer::Buffer;
use awk_text::lent::Lent;
use awk_text::place::Place;
use awk_text::value::Value;
use std::alloc::Global;

/// Whether a comparison with a number holds, where the other side is there.
#[inline(never)]
fn compared_beside(store: &Store, how: Comparison, left: i64, y: &Expr) -> Option<bool>
    ensures { IfSome result
        (λ b. (q : spot_of.Place) (x : Names → p.Expression) → IsThere x store.now (v.Num left) →
        HasTruth (λ names. p.compare q how (x names) (view names y.now)) store.now b) }
{
    let right = at_hand(store, y, MOST_LEVELS)?;
    Some(compared_lent(store.numbers(), how, Lent::Num(left), right))
}

/// The same. Two numbers are compared without a value between.
#[inline(never)]
fn compared_with(store: &Store, how: Comparison, left: i64, y: &Expr) -> Option<bool>
    ensures { IfSome result
        (λ b. (q : spot_of.Place) (x : Names → p.Expression) → IsThere x store.now (v.Num left) →
        HasTruth (λ names. p.compare q how (x names) (view names y.now)) store.now b) }
{
    if let Some(right) = counted_there(store, y) {
        return Some(compared_numbers(how, left, right));
    }
    compared_beside(store, how, left, y)
}

/// Whether a comparison holds, where both sides are there.
#[inline(never)]
fn compared_values(store: &Store, how: Comparison, x: &Expr, y: &Expr) -> Option<bool>
    ensures { IfSome result (λ b. (q : spot_of.Place) →
        HasTruth (λ names. p.compare q how (view names x.now) (view names y.now)) store.now b) }
{
    let left = at_hand(store, x, MOST_LEVELS)?;
    let right = at_hand(store, y, MOST_LEVELS)?;
    compared_there(store, how, left, right)
}

/// Whether a comparison of a value that was made holds, where the other side is there.
pub fn compared_behind(store: &Store, how: Comparison, left: &Value, y: &Expr) -> Option<bool>
    ensures { IfSome result (λ b. (val : Val) × IsThere (λ names. view names y.now) store.now val
        × (compared_by store.now how left.now val ≡ Ok (of_truth b))) }
{
    let right = at_hand(store, y, MOST_LEVELS)?;
    compared_there(store, how, Lent::of(left), right)
}

/// The same. Two numbers that stand ready are compared in line.
#[inline(always)]
fn compared_at_hand(store: &Store, how: Comparison, x: &Expr, y: &Expr) -> Option<bool>
    ensures { IfSome result (λ b. (q : spot_of.Place) →
        HasTruth (λ names. p.compare q how (view names x.now) (view names y.now)) store.now b) }
{
    let Some(left) = plain_number(store, x) else {
        return compared_values(store, how, x, y);
    };
    match plain_number(store, y) {
        Some(right) => Some(compared_numbers(how, left, right)),
        None => compared_with(store, how, left, y),
    }
}

/// Whether the key is in the array, where the key is there; in several arrays it is not looked for.
fn member_at_hand(store: &Store, x: &Expr, arrays: &[Variable]) -> Option<bool>
    ensures { IfSome result
        (λ b. HasTruth (λ names. p.member (view names x.now) (map (variable_of names) arrays.now)) store.now b) }
{
    let [array] = arrays else {
        return None;
    };
    let key = at_hand(store, x, MOST_LEVELS)?;
    let mut digits = Buffer::new();
    Some(store.contains(*array, key.text(&mut digits)))
}

/// Whether an expression is true that is no chain of tests, where its value is there.
#[inline(never)]
fn part_is_true(store: &Store, e: &Expr) -> Option<bool>
    ensures { IfSome result (λ b. HasTruth (λ names. view names e.now) store.now b) }
{
    match e {
        Expr::Compare(_, how, x, y) => compared_at_hand(store, *how, x.get(), y.get()),
        Expr::In(x, arrays) => member_at_hand(store, x.get(), arrays.as_slice()),
        Expr::Read(_)
        | Expr::Number(_)
        | Expr::Text(_)
        | Expr::Chain(_, _)
        | Expr::Builtin(_, _, _)
        | Expr::Count(_) => {
            let value = at_hand(store, e, MOST_LEVELS)?;
            Some(value.truth(store.numbers()))
        }
        _ => None,
    }
}

/// Whether a chain of `&&` is true, where its parts are there as far as they are wanted.
fn all_are_true(store: &Store, x: &Expr, xs: &[Expr]) -> Option<bool>
    ensures { IfSome result
        (λ b. HasTruth (λ names. p.and (view names x.now) (expressions_of (map (view names) xs.now))) store.now b) }
{
    let mut last = part_is_true(store, x)?;
    for y in xs {
        if !last {
            return Some(false);
        }
        last = part_is_true(store, y)?;
    }
    Some(last)
}

/// Whether a chain of `||` is true, where its parts are there as far as they are wanted.
fn one_is_true(store: &Store, x: &Expr, xs: &[Expr]) -> Option<bool>
    ensures { IfSome result
        (λ b. HasTruth (λ names. p.or (view names x.now) (expressions_of (map (view names) xs.now))) store.now b) }
{
    let mut last = part_is_true(store, x)?;
    for y in xs {
        if last {
            return Some(true);
        }
        last = part_is_true(store, y)?;
    }
    Some(last)
}

/// Whether `! operand` is true, where the operand is there.
fn is_untrue(store: &Store, x: &Expr) -> Option<bool>
    ensures { IfSome result (λ b. HasTruth (λ names. p.not (view names x.now)) store.now b) }
{
    let holds = part_is_true(store, x)?;
    Some(!holds)
}

/// Whether an expression is true whose value is there, or whose parts' values are.
#[inline(never)]
fn truth_there(store: &Store, e: &Expr) -> Option<bool>
    ensures { IfSome result (λ b. HasTruth (λ names. view names e.now) store.now b) }
{
    match e {
        Expr::And(x, xs) => all_are_true(store, x.get(), xs.as_slice()),
        Expr::Or(x, xs) => one_is_true(store, x.get(), xs.as_slice()),
        Expr::Not(x) => is_untrue(store, x.get()),
        _ => part_is_true(store, e),
    }
}

/// The number of a constant, or of a variable that holds one, as a value.
#[inline(always)]
fn plain_value<'a>(store: &Store, e: &Expr) -> Option<Lent<'a>>
    ensures { IfSome result (λ v. IsThere (λ names. view names e.now) store.now (lent_value v)) }
{
    let number = plain_number(store, e)?;
    Some(Lent::Num(number))
}

/// Whether a constant is true, or a variable that holds a number: that is told without the value of a text between.
#[inline(always)]
fn plain_is_true(store: &Store, e: &Expr) -> Option<bool>
    ensures { IfSome result (λ b. HasTruth (λ names. view names e.now) store.now b) }
{
    let value = plain_value(store, e)?;
    Some(value.truth(store.numbers()))
}

/// Whether an expression is true, where its value is there, or it is a comparison of two such. An ERE by itself never
/// is: it is told from the others first.
#[inline(never)]
pub fn truth_at_hand(store: &Store, e: &Expr) -> Option<bool>
    ensures { IfSome result (λ b. HasTruth (λ names. view names e.now) store.now b) }
{
    if let Expr::Pattern(_, _) = e {
        return None;
    }
    if let Expr::Compare(_, how, x, y) = e {
        return compared_at_hand(store, *how, x.get(), y.get());
    }
    if let Some(holds) = plain_is_true(store, e) {
        return Some(holds);
    }
    truth_there(store, e)
}

/// `chosen`, of a choice.
#[inline(never)]
fn part_chosen<'a>(store: &Store, e: &'a Expr) -> &'a Expr
    ensures { (val : Val) → IsThere (λ names. view names result.now) store.now val →
        IsThere (λ names. view names e.now) store.now val }
{
    let Expr::Choice(x, y, z) = e else {
        return e;
    };
    let Some(holds) = truth_at_hand(store, x.get()) else {
        return e;
    };
    if holds { y.get() } else { z.get() }
}

/// The part that a choice comes to, where the truth of its test is at hand; what else there is comes back as it is.
#[inline(always)]
pub fn chosen<'a>(store: &Store, e: &'a Expr) -> &'a Expr
    ensures { (val : Val) → IsThere (λ names. view names result.now) store.now val →
        IsThere (λ names. view names e.now) store.now val }
{
    match e {
        Expr::Choice(_, _, _) => part_chosen(store, e),
        _ => e,
    }
}

/// Whether `text ~ pattern` holds, where the pattern is a constant and the text is at hand. `None` stands for a fault
/// too, which has its place in the general way.
pub fn matched_at_hand(
    alloc: Global,
    patterns: &mut Patterns,
    store: &Store,
    x: &Expr,
    pattern: &Pattern<Expr>,
) -> Option<bool>
    ensures { IfSome result
        (λ b. (place : Place) →
        IsThere (λ names. p.matched place (view names x.now) (view_ere names pattern.now)) store.now (of_truth b)) }
{
    let Pattern::Constant(at, source) = pattern else {
        return None;
    };
    let text = at_hand(store, x, MOST_LEVELS)?;
    let Ok(ere) = check(alloc, patterns, *at, source.bytes()) else {
        return None;
    };
    let mut buffer = Buffer::new();
    let Ok(found) = matches(&ere, text.text(&mut buffer)) else {
        return None;
    };
    Some(found)
}

/// Whether a side of a comparison, the key of a step, or what else is tested is at hand only once the record is split.
fn part_wants_split(e: &Expr) -> bool {
    match e {
        Expr::Compare(_, _, x, y) => wants_split(x.get()) || wants_split(y.get()),
        Expr::Step(_, _, _, target) => is_keyed_by_field(target),
        _ => wants_split(e),
    }
}

/// The same, of a part of a chain of tests, or of what is told to be untrue.
#[inline(never)]
fn chain_wants_split(e: &Expr) -> bool {
    match e {
        Expr::Not(x) => part_wants_split(x.get()),
        Expr::And(x, xs) | Expr::Or(x, xs) => {
            part_wants_split(x.get()) || xs.as_slice().iter().any(|y| part_wants_split(y))
        }
        _ => part_wants_split(e),
    }
}

/// Whether a part of a test is at hand only once the record is split.
#[inline(always)]
fn test_wants_split(e: &Expr) -> bool {
    match e {
        Expr::Compare(_, _, x, y) => wants_split(x.get()) || wants_split(y.get()),
        _ => chain_wants_split(e),
    }
}

/// Whether the record is to be split before a test: it is not split yet, and that brings a part to hand.
#[inline(always)]
fn awaits_split(store: &Store, e: &Expr) -> bool {
    is_unsplit(store) && test_wants_split(e)
}

/// Splits the record before a test, where that brings a part to hand: plain awk does not see it.
#[inline(always)]
pub fn split_for_test(store: &mut Store, e: &Expr) -> Result<(), Halt>
    ensures { (g : Given) (t : Table) (q : Piece) → Acts g q (λ u k. q ∷ k) (store.old, t) result (store.new, t) }
{
    if !awaits_split(store, e) {
        return Ok(());
    }
    split_record(store)
}
