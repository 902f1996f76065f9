// Values that are there without a move: constants, variables, elements, fields, and what arithmetic and functions make
// of them.
ghost use Rattle.awk_builtins.specs.AtHand.{CountsAs, HasNumber, IsThere, case_of};
ghost use Rattle.awk_lib.specs.Arrays.{element};
ghost use Rattle.awk_program.specs.Program as p;
ghost use Rattle.awk_program.specs.Program.{expressions_of, terms_of};
ghost use Rattle.awk_program.specs.View.{variable_of, view, view_target, view_term};
ghost use Rattle.awk_program.specs.declared.builtins.Builtin.TheVariants as b;
ghost use Rattle.awk_store.specs.Kept as kept;
ghost use Rattle.awk_text.specs.Lents.{lent_value};
ghost use Rattle.awk_text.specs.Limits.{most_bytes};
ghost use Rattle.awk_numbers.specs.declared.number.Number.TheVariants as number;
ghost use Rattle.awk_text.specs.Values.{number_of, of_number, text_of};
ghost use Rattle.awk_text.specs.declared.place.Place as spot_of;
ghost use Rattle.awk_text.specs.declared.value.Value.TheVariants as v;
ghost use Rattle.std.specs.Prelude.{IfSome, Ok, Some, false, length, map, ◌≡◌, ◌≤◌};

use crate::functions::{cased, index_of, part_of, text_length};
use crate::operators::operation;
use crate::shown::operand_of;
use awk_fields::row::LEAST_SHARED;
use awk_numbers::number::{Number, Numbers};
use awk_program::{Builtin, Expr, Target, Term, Variable};
use awk_store::shown::unless_shown;
use awk_store::{Store, is_nf};
use awk_text::buffer::Buffer;
use awk_text::lent::{Lent, few_digits};
use awk_text::octets::Octets;
use awk_text::place::Place;
use awk_text::texts::MOST_BYTES;
use awk_text::value::Value;
use std::alloc::Global;

/// How many levels of arithmetic and of subscripts are looked into. What lies deeper is evaluated, level by level, and
/// each level looks again: so this bounds how often a part is looked at.
pub const MOST_LEVELS: u32 = 3;

/// The value of a variable. NF has one where the record is split.
#[inline(always)]
fn variable_at_hand<'a>(store: &'a Store, variable: Variable) -> Option<Lent<'a>>
    ensures { IfSome result
        (λ v. IsThere (λ names. p.read (p.variable (variable_of names variable))) store.now (lent_value v)) }
{
    if is_nf(variable) {
        let count = store.known_field_count()?;
        return Some(Lent::Num(count));
    }
    match store.value(variable) {
        Some(value) => Some(Lent::of(value)),
        None => Some(Lent::Unset),
    }
}

/// The number that a variable holds that is not NF, if it holds one.
#[inline(always)]
pub fn number_kept(store: &Store, variable: Variable) -> Option<i64>
    ensures nf { IfSome result (λ n. kept.is_nf variable ≡ false) }
    ensures number { IfSome result (λ n. kept.value store.now variable ≡ v.Num n) }
{
    if is_nf(variable) {
        return None;
    }
    let held = store.value(variable)?;
    match held {
        Value::Num(number) => Some(*number),
        Value::Unset | Value::Real(_) | Value::Text(_) | Value::Input(_) => None,
    }
}

/// The number that a variable holds, if it holds one. NF does where the record is split.
#[inline(always)]
fn number_held(store: &Store, variable: Variable) -> Option<i64>
    ensures { IfSome result
        (λ n. IsThere (λ names. p.read (p.variable (variable_of names variable))) store.now (v.Num n)) }
{
    if is_nf(variable) {
        let count = store.known_field_count()?;
        return Some(count);
    }
    number_kept(store, variable)
}

/// The number of what is read, where that is a variable that holds one.
#[inline(always)]
fn number_read(store: &Store, target: &Target<Expr>) -> Option<i64>
    ensures { IfSome result (λ n. IsThere (λ names. p.read (view_target names target.now)) store.now (v.Num n)) }
{
    let Target::Variable(variable) = target else {
        return None;
    };
    number_held(store, *variable)
}

/// The number of what is read, where that is a variable that holds a text from outside of a few digits.
#[inline(always)]
fn digits_held(store: &Store, target: &Target<Expr>) -> Option<i64>
    ensures { IfSome result (λ n. CountsAs (λ names. p.read (view_target names target.now)) store.now n) }
{
    let Target::Variable(variable) = target else {
        return None;
    };
    if is_nf(*variable) {
        return None;
    }
    let held = store.value(*variable)?;
    match held {
        Value::Input(text) => few_digits(store.numbers(), text.bytes()),
        Value::Unset | Value::Num(_) | Value::Real(_) | Value::Text(_) => None,
    }
}

/// The value of the element whose key is the text of a value, where it is there. A number's text is made only where the
/// element does not lie by its number.
#[inline(always)]
fn element_by<'a>(store: &'a Store, array: Variable, subscript: Lent<'_>) -> Option<&'a Value>
    ensures fits { IfSome result (λ x. length (text_of (lent_value subscript.entry)) ≤ most_bytes) }
    ensures there { IfSome result
        (λ x. element (kept.array store.now array) (text_of (lent_value subscript.entry)) ≡ Some x.now) }
{
    if let Lent::Num(number) = subscript {
        if let Ok(place) = usize::try_from(number) {
            return store.element_of_number(array, place);
        }
    }
    let mut digits = Buffer::new();
    let key = subscript.text(&mut digits);
    if MOST_BYTES < key.len() {
        return None;
    }
    store.element(array, key)
}

/// The number of a constant, where that is a whole one.
#[inline(always)]
fn as_whole(constant: Number) -> Option<i64>
    ensures { IfSome result (λ n. constant ≡ number.Whole n) }
{
    match constant {
        Number::Whole(whole) => Some(whole),
        Number::Real(_) => None,
    }
}

/// The value of a constant.
#[inline(always)]
fn lent_number<'a>(constant: Number) -> Lent<'a>
    ensures { lent_value result ≡ of_number constant }
{
    match constant {
        Number::Whole(whole) => Lent::Num(whole),
        Number::Real(real) => Lent::Real(real),
    }
}

/// The number of a value by the profile, where that is a whole one.
#[inline(always)]
fn whole_number(numbers: Numbers, value: Lent<'_>) -> Option<i64>
    ensures { IfSome result (λ n. number_of numbers (lent_value value.entry) ≡ Ok (number.Whole n)) }
{
    match value.number(numbers) {
        Ok(Number::Whole(number)) => Some(number),
        _ => None,
    }
}

/// The value of an element that is there, by one subscript.
#[cycle(hand)]
#[inline(never)]
fn element_at_hand<'a>(
    store: &'a Store,
    place: Place,
    array: Variable,
    keys: &'a [Expr],
    level: u32,
) -> Option<Lent<'a>>
    ensures { IfSome result
        (λ v. IsThere (λ names.
        p.read (p.element place (variable_of names array) (expressions_of (map (view names) keys.now)))) store.now
        (lent_value v)) }
{
    let [one] = keys else {
        return None;
    };
    let subscript = at_hand(store, operand_of(one), level)?;
    let value = element_by(store, array, unless_shown(store, subscript)?)?;
    Some(Lent::of(value))
}

/// The value of a field: of the record as it is, or of one of its parts where it is split.
#[cycle(hand)]
#[inline(never)]
fn field_at_hand<'a>(
    store: &'a Store,
    place: Place,
    number: &'a Expr,
    level: u32,
) -> Option<Lent<'a>>
    ensures { IfSome result
        (λ v. IsThere (λ names. p.read (p.field place (view names number.now))) store.now (lent_value v)) }
{
    let number = number_at_hand(store, number, level)?;
    let Ok(number) = u16::try_from(number) else {
        return None;
    };
    store.lent_field(number)
}

/// The number of elements of an array, where an expression asks for that.
#[inline(never)]
fn count_at_hand(store: &Store, e: &Expr) -> Option<i64>
    ensures { IfSome result (λ n. IsThere (λ names. view names e.now) store.now (v.Num n)) }
{
    let Expr::Count(array) = e else {
        return None;
    };
    match i64::try_from(store.element_count(*array)) {
        Ok(count) => Some(count),
        Err(_) => None,
    }
}

/// The value of what is read, where to read it changes nothing.
#[cycle(hand)]
#[inline(always)]
fn target_at_hand<'a>(store: &'a Store, target: &'a Target<Expr>, level: u32) -> Option<Lent<'a>>
    ensures { IfSome result (λ v. IsThere (λ names. p.read (view_target names target.now)) store.now (lent_value v)) }
{
    match target {
        Target::Variable(variable) => variable_at_hand(store, *variable),
        Target::Element(place, array, keys) => {
            if level == 0 {
                return None;
            }
            element_at_hand(store, *place, *array, keys.as_slice(), level - 1)
        }
        Target::Field(place, number) => {
            if level == 0 {
                return None;
            }
            field_at_hand(store, *place, number.get(), level - 1)
        }
    }
}

/// The number of a chain of `+` and `-`, or of `*`, `/` and `%`, or of one `^`, whose operands are there, where each
/// operator gives a whole number.
#[cycle(hand)]
#[inline(never)]
fn chain_at_hand(store: &Store, x: &Expr, xs: &[Term<Expr>], level: u32) -> Option<i64>
    ensures { IfSome result
        (λ n. IsThere (λ names. p.chain (view names x.now) (terms_of (map (view_term names) xs.now))) store.now
        (v.Num n)) }
{
    if xs.is_empty() {
        return None;
    }
    let numbers = store.numbers();
    let mut so_far = number_at_hand(store, x, level)?;
    for next in xs {
        let operand = number_at_hand(store, &next.operand, level)?;
        let Ok(Number::Whole(made)) = operation(
            numbers,
            next.operator,
            Number::Whole(so_far),
            Number::Whole(operand),
        ) else {
            return None;
        };
        so_far = made;
    }
    Some(so_far)
}

/// The number of what is read, where to read it changes nothing.
#[cycle(hand)]
#[inline(never)]
fn number_of_target(store: &Store, target: &Target<Expr>, level: u32) -> Option<i64>
    ensures { IfSome result (λ n. HasNumber (λ names. p.read (view_target names target.now)) store.now n) }
{
    if let Some(number) = digits_held(store, target) {
        return Some(number);
    }
    let value = target_at_hand(store, target, level)?;
    whole_number(store.numbers(), value)
}

/// The part of a text that substr gives for values that are there, lent as the text is.
#[cycle(hand)]
#[inline(always)]
fn substr_at_hand<'a>(store: &'a Store, args: &'a [Expr], level: u32) -> Option<Lent<'a>>
    ensures { IfSome result
        (λ v. (q : spot_of.Place) →
        IsThere (λ names. p.builtin q b.Substr (expressions_of (map (view names) args.now))) store.now (lent_value v)) }
{
    match args {
        [x, y] => {
            let text = at_hand(store, x, level)?;
            let from = number_at_hand(store, y, level)?;
            part_of(text, from, None)
        }
        [x, y, z] => {
            let text = at_hand(store, x, level)?;
            let from = number_at_hand(store, y, level)?;
            let count = number_at_hand(store, z, level)?;
            part_of(text, from, Some(count))
        }
        _ => None,
    }
}

/// The value that length, index, substr or int gives for values that are there.
#[cycle(hand)]
#[inline(always)]
fn called_at_hand<'a>(
    store: &'a Store,
    which: Builtin,
    args: &'a [Expr],
    level: u32,
) -> Option<Lent<'a>>
    ensures { IfSome result
        (λ v. (q : spot_of.Place) →
        IsThere (λ names. p.builtin q which (expressions_of (map (view names) args.now))) store.now (lent_value v)) }
{
    match which {
        Builtin::Length => {
            let [x] = args else {
                return None;
            };
            let text = at_hand(store, x, level)?;
            Some(Lent::Num(text_length(text)))
        }
        Builtin::Index => {
            let [x, y] = args else {
                return None;
            };
            let text = at_hand(store, x, level)?;
            let part = at_hand(store, y, level)?;
            Some(Lent::Num(index_of(text, part)))
        }
        Builtin::Int => {
            let [x] = args else {
                return None;
            };
            let number = number_at_hand(store, x, level)?;
            Some(Lent::Num(number))
        }
        Builtin::Substr => substr_at_hand(store, args, level),
        _ => None,
    }
}

/// The value of such a function, of an operand of which a text is wanted, or the number of elements of an array.
#[cycle(hand)]
#[inline(never)]
fn made_at_hand<'a>(store: &'a Store, e: &'a Expr, level: u32) -> Option<Lent<'a>>
    ensures { IfSome result (λ v. IsThere (λ names. view names e.now) store.now (lent_value v)) }
{
    match e {
        Expr::Builtin(_, which, args) => called_at_hand(store, *which, args.as_slice(), level),
        Expr::AsText(_, x) => {
            let value = at_hand(store, x.get(), level)?;
            unless_shown(store, value)
        }
        Expr::Count(_) => {
            let count = count_at_hand(store, e)?;
            Some(Lent::Num(count))
        }
        _ => None,
    }
}

/// The number of such a value.
#[cycle(hand)]
#[inline(never)]
fn number_made(store: &Store, e: &Expr, level: u32) -> Option<i64>
    ensures { IfSome result (λ n. HasNumber (λ names. view names e.now) store.now n) }
{
    let value = made_at_hand(store, e, level)?;
    whole_number(store.numbers(), value)
}

/// The number of an expression's value, where the value is there.
#[cycle(hand)]
#[inline(always)]
pub fn number_at_hand(store: &Store, e: &Expr, level: u32) -> Option<i64>
    ensures { IfSome result (λ n. HasNumber (λ names. view names e.now) store.now n) }
{
    if let Expr::Read(target) = e {
        if let Some(number) = number_read(store, target) {
            return Some(number);
        }
        return number_of_target(store, target, level);
    }
    if let Expr::Number(constant) = e {
        return as_whole(*constant);
    }
    if level == 0 {
        return None;
    }
    if let Expr::Chain(x, xs) = e {
        return chain_at_hand(store, x.get(), xs.as_slice(), level - 1);
    }
    match e {
        Expr::Builtin(_, _, _) | Expr::Count(_) => number_made(store, e, level - 1),
        _ => None,
    }
}

/// The value of an expression, where it is there: to evaluate it changes nothing and meets no fault.
#[cycle(hand)]
#[inline(always)]
pub fn at_hand<'a>(store: &'a Store, e: &'a Expr, level: u32) -> Option<Lent<'a>>
    ensures { IfSome result (λ v. IsThere (λ names. view names e.now) store.now (lent_value v)) }
{
    if let Expr::Read(target) = e {
        return target_at_hand(store, target, level);
    }
    if let Expr::Text(text) = e {
        return Some(Lent::Text(text.bytes()));
    }
    if let Expr::Number(constant) = e {
        return Some(lent_number(*constant));
    }
    if level == 0 {
        return None;
    }
    let Expr::Chain(x, xs) = e else {
        return made_at_hand(store, e, level - 1);
    };
    let number = chain_at_hand(store, x.get(), xs.as_slice(), level - 1)?;
    Some(Lent::Num(number))
}

/// The number of a constant, or of a variable that holds one: what loops read most.
#[inline(always)]
pub(crate) fn plain_number(store: &Store, e: &Expr) -> Option<i64>
    ensures { IfSome result (λ n. IsThere (λ names. view names e.now) store.now (v.Num n)) }
{
    if let Expr::Read(target) = e {
        return number_read(store, target);
    }
    if let Expr::Number(constant) = e {
        return as_whole(*constant);
    }
    None
}

/// The number that an expression's value is, where that stands ready, or a chain makes it of what is there.
#[inline(always)]
pub fn number_there(store: &Store, e: &Expr) -> Option<i64>
    ensures { IfSome result (λ n. IsThere (λ names. view names e.now) store.now (v.Num n)) }
{
    if let Expr::Chain(x, xs) = e {
        return chain_at_hand(store, x.get(), xs.as_slice(), MOST_LEVELS);
    }
    plain_number(store, e)
}

/// A value of its own for what is lent.
#[inline(always)]
fn owned<'a>(alloc: Global, value: Lent<'a>) -> Option<Value>
    ensures { IfSome result (λ v. v ≡ lent_value value.entry) }
{
    match value {
        Lent::Unset => Some(Value::Unset),
        Lent::Num(number) => Some(Value::Num(number)),
        Lent::Real(number) => Some(Value::Real(number)),
        Lent::Text(text) => Some(Value::Text(Octets::of(alloc, text).ok()?)),
        Lent::Input(text) => Some(Value::Input(Octets::of(alloc, text).ok()?)),
    }
}

/// Whether a value is a text so long that it is shared where it lies, not copied.
#[inline(always)]
fn is_long(value: Lent<'_>) -> bool {
    match value {
        Lent::Unset | Lent::Num(_) | Lent::Real(_) => false,
        Lent::Text(text) | Lent::Input(text) => LEAST_SHARED <= text.len(),
    }
}

/// The value of what is read, where it is there and no long text, as one of its own. `None` stands for refused memory
/// too.
#[inline(never)]
fn value_there(alloc: Global, store: &Store, e: &Expr) -> Option<Value>
    ensures { IfSome result (λ v. IsThere (λ names. view names e.now) store.now v) }
{
    let value = at_hand(store, e, MOST_LEVELS)?;
    if is_long(value) {
        return None;
    }
    owned(alloc, value)
}

/// The text in upper case, or in lower case, of the one argument, where that is there. `None` stands for refused memory
/// too.
fn cased_there(alloc: Global, store: &Store, args: &[Expr], upper: bool) -> Option<Value>
    ensures { IfSome result
        (λ v. (q : spot_of.Place) →
        IsThere (λ names. p.builtin q (case_of upper) (expressions_of (map (view names) args.now))) store.now v) }
{
    let [x] = args else {
        return None;
    };
    let text = at_hand(store, x, MOST_LEVELS)?;
    cased(alloc, text, upper).ok()
}

/// What a built-in function gives whose arguments are there, as a value of its own. `None` stands for refused memory
/// too.
#[inline(never)]
fn called_there(alloc: Global, store: &Store, which: Builtin, args: &[Expr]) -> Option<Value>
    ensures { IfSome result
        (λ v. (q : spot_of.Place) →
        IsThere (λ names. p.builtin q which (expressions_of (map (view names) args.now))) store.now v) }
{
    match which {
        Builtin::Tolower => cased_there(alloc, store, args, false),
        Builtin::Toupper => cased_there(alloc, store, args, true),
        _ => {
            let value = called_at_hand(store, which, args, MOST_LEVELS)?;
            owned(alloc, value)
        }
    }
}

/// The same. What numbers make is a number, and is not copied on its way.
#[inline(always)]
pub fn value_at_hand(alloc: Global, store: &Store, e: &Expr) -> Option<Value>
    ensures { IfSome result (λ v. IsThere (λ names. view names e.now) store.now v) }
{
    if let Some(number) = number_there(store, e) {
        return Some(Value::Num(number));
    }
    other_at_hand(alloc, store, e)
}

/// The same, of what `number_there` has no number for.
#[inline(always)]
pub fn other_at_hand(alloc: Global, store: &Store, e: &Expr) -> Option<Value>
    ensures { IfSome result (λ v. IsThere (λ names. view names e.now) store.now v) }
{
    match e {
        Expr::Builtin(_, which, args) => called_there(alloc, store, *which, args.as_slice()),
        Expr::Read(_) | Expr::Text(_) | Expr::Count(_) => value_there(alloc, store, e),
        _ => None,
    }
}

/// The number that an expression is compared as, where a chain makes it, or a variable holds the digits.
#[inline(always)]
pub(crate) fn counted_there(store: &Store, e: &Expr) -> Option<i64>
    ensures { IfSome result (λ n. CountsAs (λ names. view names e.now) store.now n) }
{
    if let Expr::Chain(x, xs) = e {
        return chain_at_hand(store, x.get(), xs.as_slice(), MOST_LEVELS);
    }
    let Expr::Read(target) = e else {
        return None;
    };
    digits_held(store, target)
}
