// Subscripts, as one text, and the numbers of fields.
ghost use Rattle.awk_fields.specs.Rows.{joined};
ghost use Rattle.awk_machine.specs.Forms.{listed};
ghost use Rattle.awk_machine.specs.Operators.{limited, of_count};
ghost use Rattle.awk_machine.specs.Pieces.{At, Doing, Members_of, Target_of, Value_of, give};
ghost use Rattle.awk_machine.specs.State.{Given};
ghost use Rattle.awk_program.specs.Program as p;
ghost use Rattle.awk_program.specs.Program.{Expression, Expressions};
ghost use Rattle.awk_program.specs.View.{variable_of};
ghost use Rattle.awk_program.specs.declared.variables.Own.TheVariants as own;
ghost use Rattle.awk_store.specs.Acts.{Acts};
ghost use Rattle.awk_store.specs.Kept.{own_text};
ghost use Rattle.awk_store.specs.Wholes.{Whole, names_in};
ghost use Rattle.awk_streams.specs.Tables.{Table};
ghost use Rattle.awk_streams.specs.Tasks.{goes_on};
ghost use Rattle.awk_text.specs.declared.value.Value.TheVariants as v;
ghost use Rattle.std.specs.Prelude.{Err, IfErr, IfOk, IfSome, List, Ok, [], length, reverse, ℕ, ◌∷◌, ◌≡◌, ◌⊎◌};

use crate::line::Line;
use crate::printing::printed;
use awk_numbers::number::Numbers;
use awk_program::{Expr, Own, Variable};
use awk_store::numbers::field_of;
use awk_store::{ElementKey, Store};
use awk_streams::halt::{Halt, at};
use awk_text::buffer::Buffer;
use awk_text::fault::Fault;
use awk_text::octets::Octets;
use awk_text::place::Place;
use awk_text::texts::MOST_BYTES;
use awk_text::value::{Value, text_in};
use std::alloc::Global;

/// The text of several subscripts: their texts with SUBSEP between. It is lent from the line, and stands there until
/// the next one is made.
///
/// Fails as `printed` does.
pub fn joined_subscripts<'a>(
    line: &'a mut Line,
    subscripts: &[Value],
    subsep: &[u8],
) -> Result<&'a [u8], Fault>
    ensures ok { IfOk result (λ text. limited (joined subsep.now subscripts.now) ≡ Ok text.now) }
    ensures err { IfErr result (λ e. (e ≡ Fault.Memory) ⊎ (limited (joined subsep.now subscripts.now) ≡ Err e)) }
{
    line.join(subscripts, subsep, &[])?;
    line.text()
}

/// The text of one subscript, lent: a number's is written into the buffer. Takes no memory.
///
/// Fails with `Fault::TextTooLong` exactly where it has more than `MOST_BYTES` bytes.
pub fn key_of_one<'a>(subscript: &'a Value, buffer: &'a mut Buffer) -> Result<&'a [u8], Fault>
    ensures ok { IfOk result (λ text. (subsep : List ℕ) → limited (joined subsep (subscript.now ∷ [])) ≡ Ok text.now) }
    ensures err { IfErr result (λ e. (subsep : List ℕ) → limited (joined subsep (subscript.now ∷ [])) ≡ Err e) }
{
    let text = text_in(subscript, buffer);
    if MOST_BYTES < text.len() {
        return Err(Fault::TextTooLong);
    }
    Ok(text)
}

/// The texts of the subscripts with SUBSEP between.
fn joined_key(
    line: &mut Line,
    store: &Store,
    alloc: Global,
    subscripts: &[Value],
) -> Result<Octets, Fault>
    ensures ok { IfOk result (λ text. limited (joined (own_text store.now own.Subsep) subscripts.now) ≡ Ok text) }
    ensures err { IfErr result
        (λ e. (e ≡ Fault.Memory) ⊎ (limited (joined (own_text store.now own.Subsep) subscripts.now) ≡ Err e)) }
{
    let mut buffer = Buffer::new();
    let subsep = store.own_text(Own::Subsep, &mut buffer);
    let text = joined_subscripts(line, subscripts, subsep)?;
    Ok(Octets::of(alloc, text)?)
}

/// The text of one subscript.
fn single_key(alloc: Global, subscript: &Value) -> Result<Octets, Fault>
    ensures ok { IfOk result (λ text. (subsep : List ℕ) → limited (joined subsep (subscript.now ∷ [])) ≡ Ok text) }
    ensures err { IfErr result
        (λ e. (e ≡ Fault.Memory) ⊎ ((subsep : List ℕ) → limited (joined subsep (subscript.now ∷ [])) ≡ Err e)) }
{
    let mut buffer = Buffer::new();
    let text = key_of_one(subscript, &mut buffer)?;
    Ok(Octets::of(alloc, text)?)
}

/// The key that the subscripts are.
///
/// Fails with `Fault::TextTooLong` exactly where it has more than `MOST_BYTES` bytes, and with `Fault::Memory` where
/// memory is refused.
pub fn key(
    alloc: Global,
    line: &mut Line,
    store: &Store,
    subscripts: &[Value],
) -> Result<Octets, Fault>
    ensures ok { IfOk result (λ text. limited (joined (own_text store.now own.Subsep) subscripts.now) ≡ Ok text) }
    ensures err { IfErr result
        (λ e. (e ≡ Fault.Memory) ⊎ (limited (joined (own_text store.now own.Subsep) subscripts.now) ≡ Err e)) }
{
    match subscripts {
        [one] => single_key(alloc, one),
        _ => joined_key(line, store, alloc, subscripts),
    }
}

/// The key of an element that is read or set.
pub fn element_key(
    alloc: Global,
    line: &mut Line,
    store: &Store,
    place: Place,
    subscripts: &[Value],
) -> Result<Octets, Halt>
    ensures { (g : Given) (t : Table) (a : p.Variable) (xs : Expressions) → length (listed xs) ≡ length subscripts.now
        → Acts g (At (Target_of (p.element place a xs)) (reverse subscripts.now)) (λ text. give (v.Text text))
        (store.now, t) result (store.now, t) }
{
    at(place, key(alloc, line, store, subscripts))
}

/// The only one of a list of subscripts, if there is but one.
pub fn only(subscripts: &[Expr]) -> Option<&Expr>
    ensures { IfSome result (λ x. subscripts.now ≡ x.now ∷ []) }
{
    match subscripts {
        [one] => Some(one),
        _ => None,
    }
}

/// The key of an element by one subscript. Takes no memory.
pub fn one_key(place: Place, subscript: Value) -> Result<ElementKey, Halt>
    ensures { (g : Given) (w : Whole) (a : p.Variable) (x : Expression) →
        Acts g (At (Target_of (p.element place a (p.more x p.none))) (subscript ∷ [])) (λ key. give (v.Text key)) w
        result w }
{
    let mut buffer = Buffer::new();
    at(place, key_of_one(&subscript, &mut buffer))?;
    Ok(ElementKey::new(subscript))
}

/// The key of `( list ) in array in array ..`.
pub fn group_key(
    alloc: Global,
    line: &mut Line,
    store: &Store,
    place: Place,
    subscripts: &[Value],
) -> Result<Octets, Halt>
    ensures { (g : Given) (t : Table) (xs : Expressions) (arrays : List p.Variable) → length (listed xs)
        ≡ length subscripts.now
        → Acts g (At (Value_of (p.group place xs arrays)) (reverse subscripts.now))
        (λ text k. At (Members_of arrays) (v.Text text ∷ []) ∷ k) (store.now, t) result (store.now, t) }
{
    at(place, key(alloc, line, store, subscripts))
}

/// The number of a field that is read or set, by the store's profile.
pub fn field_number(numbers: Numbers, place: Place, value: &Value) -> Result<u16, Halt>
    ensures { (g : Given) (w : Whole) (x : Expression) → numbers ≡ w.0.numbers →
        Acts g (At (Target_of (p.field place x)) (value.now ∷ [])) (λ n. give (of_count n)) w result w }
{
    match field_of(numbers, value) {
        Ok(number) => match u16::try_from(number) {
            Ok(number) => Ok(number),
            Err(_) => Err(Halt::Memory),
        },
        Err(fault) => Err(Halt::at(place, fault)),
    }
}

/// `delete array [ list ]`: removes the element with this key, if it is there.
pub fn remove(
    alloc: Global,
    line: &mut Line,
    store: &mut Store,
    place: Place,
    array: Variable,
    subscripts: &[Value],
) -> Result<(), Halt>
    ensures { (g : Given) (t : Table) (xs : List Expression) → length xs ≡ length subscripts.now
        → Acts g (At (Doing (p.delete place (variable_of (names_in g) array) xs)) (reverse subscripts.now)) goes_on
        (store.old, t) result (store.new, t) }
{
    let key = at(place, key(alloc, line, store, subscripts))?;
    store.remove(array, key.bytes());
    Ok(())
}
