// Elements whose key is at hand, and what else is read or set without a move for its parts: the key is not copied.
ghost use Rattle.awk_builtins.specs.AtHand.{AddsAt, AreThere, IsAtKey, IsKey, MakesKey};
ghost use Rattle.awk_builtins.specs.Lines.{held};
ghost use Rattle.awk_fields.specs.Rows.{IsValueAt, joined};
ghost use Rattle.awk_machine.specs.Expressions.{either};
ghost use Rattle.awk_machine.specs.Forms.{spot, value};
ghost use Rattle.awk_machine.specs.Pieces.{At, Doing, give};
ghost use Rattle.awk_machine.specs.State.{Given};
ghost use Rattle.awk_numbers.specs.declared.number.Number.TheVariants as number;
ghost use Rattle.awk_program.specs.Program as p;
ghost use Rattle.awk_program.specs.View.{Names, variable_of, view, view_target};
ghost use Rattle.awk_program.specs.declared.operators.StepValue.{StepValue as Which};
ghost use Rattle.awk_program.specs.declared.variables.Own.TheVariants as own;
ghost use Rattle.awk_store.specs.Acts.{Acts, Passes};
ghost use Rattle.awk_store.specs.Changes.{Adds, Puts, with_array};
ghost use Rattle.awk_store.specs.Kept as kept;
ghost use Rattle.awk_store.specs.Kept.{own_text};
ghost use Rattle.awk_store.specs.Spots.{IsSpotOf, value_of};
ghost use Rattle.awk_store.specs.Wholes.{Whole, names_in};
ghost use Rattle.awk_streams.specs.Tables.{Table};
ghost use Rattle.awk_text.specs.Limits.{most_bytes};
ghost use Rattle.awk_text.specs.Values.{text_of};
ghost use Rattle.awk_text.specs.declared.value.Value.TheVariants as v;
ghost use Rattle.awk_text.specs.declared.value.Value.{Value as Val};
ghost use Rattle.std.specs.Fmt.{decimal};
ghost use Rattle.std.specs.Prelude.{[], IfSome, List, Some, false, length, map, pos, true, ◌≡◌, ◌≤◌};

use crate::at_hand::texts::{add_item, add_others, join_operands};
use crate::at_hand::values::{MOST_LEVELS, at_hand, number_at_hand, number_there};
use crate::line::Line;
use crate::made::stepped_at;
use crate::shown::operand_of;
use awk_numbers::number::Number;
use awk_program::{Expr, Own, Step, Target, Variable};
use awk_store::elements::{read_element, set_element};
use awk_store::shown::unless_shown;
use awk_store::{Spot, Store};
use awk_streams::halt::Halt;
use awk_text::buffer::Buffer;
use awk_text::place::Place;
use awk_text::texts::MOST_BYTES;
use awk_text::value::Value;
use std::alloc::Global;

/// The number of the field that a constant names, where it names one.
#[inline(always)]
fn field_constant(constant: Number) -> Option<u16>
    ensures { IfSome result (λ n. (constant ≡ number.Whole (pos n)) × (n ≤ 65535)) }
{
    let Number::Whole(whole) = constant else {
        return None;
    };
    match u16::try_from(whole) {
        Ok(place) => Some(place),
        Err(_) => None,
    }
}

/// What is read or set, where it is a variable or a field by a constant: to evaluate it changes nothing and meets no
/// fault.
#[inline(always)]
pub fn spot_at_hand(target: &Target<Expr>) -> Option<Spot>
    ensures plays { IfSome result
        (λ s. (g : Given) (w : Whole) → Passes g (spot (view_target (names_in g) target.now)) w (give (value_of s)) w) }
    ensures spot { IfSome result (λ s. (names : Names) → IsSpotOf names (view_target names target.now) s) }
{
    match target {
        Target::Variable(variable) => Some(Spot::Variable(*variable)),
        Target::Element(_, _, _) => None,
        Target::Field(_, x) => match x.get() {
            Expr::Number(constant) => {
                let place = field_constant(*constant)?;
                Some(Spot::Field(place))
            }
            _ => None,
        },
    }
}

/// Makes the line the texts of subscripts that are at hand with SUBSEP between, and answers whether it did.
fn join_subscripts(line: &mut Line, store: &Store, keys: &[Expr]) -> bool
    ensures { result ≡ true → (vals : List Val) × AreThere store.now keys.now vals
        × (line.new ≡ held (joined (own_text store.now own.Subsep) vals)) }
{
    let [first, others @ ..] = keys else {
        return false;
    };
    let mut buffer = Buffer::new();
    let subsep = store.own_text(Own::Subsep, &mut buffer);
    line.clear();
    if !add_item(line, store, first) {
        return false;
    }
    add_others(line, store, others, subsep)
}

/// The key of several subscripts that are at hand, in the line.
#[inline(never)]
fn several_at_hand<'a>(store: &Store, line: &'a mut Line, keys: &[Expr]) -> Option<&'a [u8]>
    ensures { IfSome result (λ key. MakesKey keys.now store.now key.now) }
{
    if !join_subscripts(line, store, keys) {
        return None;
    }
    line.text().ok()
}

/// The key of subscripts that are at hand, or of one whose operands are, in the line.
pub fn key_at_hand<'a>(store: &Store, line: &'a mut Line, keys: &[Expr]) -> Option<&'a [u8]>
    ensures { IfSome result (λ key. MakesKey keys.now store.now key.now) }
{
    let [one] = keys else {
        return several_at_hand(store, line, keys);
    };
    if let Expr::Concat(first, rest) = one {
        if !join_operands(line, store, first.get(), rest.as_slice()) {
            return None;
        }
        return line.text().ok();
    }
    let subscript = at_hand(store, one, MOST_LEVELS)?;
    let mut digits = Buffer::new();
    line.clear();
    let Ok(()) = line.push(subscript.text(&mut digits)) else {
        return None;
    };
    line.text().ok()
}

/// The number that is the only subscript, where it is at hand: its digits are the key.
#[inline(always)]
pub(crate) fn number_of_key(store: &Store, keys: &[Expr]) -> Option<i64>
    ensures { IfSome result
        (λ n. length (text_of (v.Num n)) ≤ most_bytes → IsKey keys.now store.now (text_of (v.Num n))) }
{
    let [one] = keys else {
        return None;
    };
    number_there(store, operand_of(one))
}

/// The number of the field that is the only subscript, where that number is at hand.
fn field_of_key(store: &Store, keys: &[Expr]) -> Option<u16>
    ensures { IfSome result
        (λ n. (val : Val) → IsValueAt store.now.row n val → length (text_of val) ≤ most_bytes →
        IsKey keys.now store.now (text_of val)) }
{
    let [one] = keys else {
        return None;
    };
    let Expr::Read(target) = operand_of(one) else {
        return None;
    };
    let Target::Field(_, number) = target else {
        return None;
    };
    let number = number_at_hand(store, number.get(), MOST_LEVELS)?;
    let Ok(number) = u16::try_from(number) else {
        return None;
    };
    unless_shown(store, store.lent_field(number)?)?;
    Some(number)
}

/// Gives the element whose key is the digits of a number that is not negative a value, and answers whether it did.
fn put_at_place(store: &mut Store, array: Variable, place: usize, value: Value) -> bool
    ensures done { result ≡ true → (length (decimal place) ≤ most_bytes)
        × Puts (Some (kept.array store.old array)) (decimal place) value
        (λ new. store.new ≡ with_array (kept.reference store.old array) new store.old) }
    ensures not_done { result ≡ false → store.new ≡ store.old }
{
    match store.put_number(array, place, value) {
        Ok(()) => true,
        Err(_) => false,
    }
}

/// Gives the element whose key is a number's digits a value, and answers whether it did. The digits are made only where
/// the element does not lie by its number.
pub(crate) fn put_at_number(store: &mut Store, array: Variable, number: i64, value: Value) -> bool
    ensures done { result ≡ true → (length (text_of (v.Num number)) ≤ most_bytes)
        × Puts (Some (kept.array store.old array)) (text_of (v.Num number)) value
        (λ new. store.new ≡ with_array (kept.reference store.old array) new store.old) }
    ensures not_done { result ≡ false → store.new ≡ store.old }
{
    if let Ok(place) = usize::try_from(number) {
        return put_at_place(store, array, place, value);
    }
    let mut digits = Buffer::new();
    let key = digits.text(Number::Whole(number));
    if MOST_BYTES < key.len() {
        return false;
    }
    match store.put(array, key, value) {
        Ok(()) => true,
        Err(_) => false,
    }
}

/// Adds to the number that the element holds whose key is a number's digits, by the store's profile, and answers
/// whether it did: the sum is a whole number.
fn add_at_number(store: &mut Store, array: Variable, number: i64, by: i64) -> bool
    ensures done { result ≡ true → (length (text_of (v.Num number)) ≤ most_bytes)
        × Adds store.old.numbers (Some (kept.array store.old array)) (text_of (v.Num number)) by
        (λ new. store.new ≡ with_array (kept.reference store.old array) new store.old) }
    ensures not_done { result ≡ false → store.new ≡ store.old }
{
    if let Ok(place) = usize::try_from(number) {
        return store.add_to_number(array, place, by);
    }
    let mut digits = Buffer::new();
    let key = digits.text(Number::Whole(number));
    if MOST_BYTES < key.len() {
        return false;
    }
    store.add_to(array, key, by)
}

/// Adds to the number that the element with one subscript holds, and answers whether it did: the subscript is at hand,
/// there is such a number, and the sum is a whole one. A number or a field as the subscript is not copied.
pub(crate) fn added_at(
    store: &mut Store,
    line: &mut Line,
    array: Variable,
    keys: &[Expr],
    by: i64,
) -> bool
    ensures done { result ≡ true → AddsAt array keys.now by store.old store.new }
    ensures not_done { result ≡ false → store.new ≡ store.old }
{
    if let Some(number) = number_of_key(store, keys) {
        return add_at_number(store, array, number, by);
    }
    if let Some(number) = field_of_key(store, keys) {
        return store.add_at_field(array, number, by);
    }
    let Some(key) = key_at_hand(store, line, keys) else {
        return false;
    };
    store.add_to(array, key, by)
}

/// An element of an array whose key is at hand: it lies in the line, and is lent.
#[derive(Clone, Copy)]
pub struct ElementAtHand<'a> {
    at_name: Place,
    array: Variable,
    key: &'a [u8],
}

/// The element that is read or set, where its key is at hand.
pub fn element_at_hand<'a>(
    store: &Store,
    line: &'a mut Line,
    target: &Target<Expr>,
) -> Option<ElementAtHand<'a>>
    ensures { IfSome result (λ e. IsAtKey target.now store.now e.at_name e.array e.key.now) }
{
    let Target::Element(at_name, array, keys) = target else {
        return None;
    };
    let key = key_at_hand(store, line, keys.as_slice())?;
    Some(ElementAtHand {
        at_name: *at_name,
        array: *array,
        key,
    })
}

/// `array [ key ]`, once the key is known: the value, of an element that is made where it is not there. A fault of the
/// array is at the place of its name.
pub fn read_at_key(
    alloc: Global,
    store: &mut Store,
    element: ElementAtHand<'_>,
) -> Result<Value, Halt>
    ensures { (g : Given) (t : Table) (target : Target Expr) →
        IsAtKey target store.old element.entry.at_name element.entry.array element.entry.key.now →
        Acts g (value (p.read (view_target (names_in g) target))) give (store.old, t) result (store.new, t) }
{
    read_element(store, element.at_name, element.array, element.key)
}

/// `array [ key ] ++` and `array [ key ] --` by the store's profile, once the key is known: the old number and the new
/// one. A fault of the array is at the place of its name.
pub fn step_at_key(
    alloc: Global,
    store: &mut Store,
    place: Place,
    how: Step,
    element: ElementAtHand<'_>,
) -> Result<(Number, Number), Halt>
    ensures { (g : Given) (t : Table) (target : Target Expr) (taken : Which) →
        IsAtKey target store.old element.entry.at_name element.entry.array element.entry.key.now →
        Acts g (value (p.step place how taken (view_target (names_in g) target))) (λ n. give (either taken n.0 n.1))
        (store.old, t) result (store.new, t) }
{
    let ElementAtHand {
        at_name,
        array,
        key,
    } = element;
    let old = read_element(store, at_name, array, key)?;
    let (before, behind) = stepped_at(store.numbers(), place, how, &old)?;
    set_element(store, at_name, array, key, Value::of(behind))?;
    Ok((before, behind))
}

/// `delete array [ list ]`, where the key is at hand, and so it is not copied. Answers whether it did: the element is
/// removed if it is there.
pub fn removed_at_hand(store: &mut Store, line: &mut Line, array: Variable, keys: &[Expr]) -> bool
    ensures done { result ≡ true → (g : Given) (t : Table) (place : Place) →
        Passes g (At (Doing (p.delete place (variable_of (names_in g) array) (map (view (names_in g)) keys.now))) [])
        (store.old, t) (λ k. k) (store.new, t) }
    ensures not_done { result ≡ false → store.new ≡ store.old }
{
    let Some(key) = key_at_hand(store, line, keys) else {
        return false;
    };
    store.remove(array, key);
    true
}
