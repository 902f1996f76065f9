// split: what it separates by, what it makes, and what it fills.
ghost use Rattle.awk_builtins.specs.Patterns.{IsSourceOf, source_value};
ghost use Rattle.awk_fields.specs.Fields.{Fields};
ghost use Rattle.awk_fields.specs.Separators as separators;
ghost use Rattle.awk_machine.specs.Builtins.{split_by};
ghost use Rattle.awk_machine.specs.Pieces.{At, Do, Fill, Piece, Split, Value_of, give};
ghost use Rattle.awk_machine.specs.State.{Given};
ghost use Rattle.awk_machine.specs.Targets.{check_separator};
ghost use Rattle.awk_program.specs.Program as p;
ghost use Rattle.awk_program.specs.Program.{Expression};
ghost use Rattle.awk_program.specs.View.{variable_of};
ghost use Rattle.awk_store.specs.Acts.{Acts, Passes};
ghost use Rattle.awk_store.specs.Wholes.{Whole, names_in};
ghost use Rattle.awk_streams.specs.Tables.{Table};
ghost use Rattle.awk_text.specs.Values.{text_of};
ghost use Rattle.std.specs.Prelude.{Err, IfErr, IfOk, List, Ok, [], false, ℕ, ◌∷◌, ◌≡◌};

use crate::cache::Patterns;
use crate::patterns::{PatternValue, check};
use awk_ere::Ere;
use awk_fields::Splitter;
use awk_program::Variable;
use awk_store::Store;
use awk_streams::halt::{Halt, at};
use awk_text::buffer::Buffer;
use awk_text::fault::Fault;
use awk_text::octets::Octets;
use awk_text::place::Place;
use awk_text::value::{Value, text_in};
use std::alloc::Global;

/// The parts of the text of a value.
///
/// Fails with `Fault::Memory` alone, where memory is refused.
pub fn split_text(alloc: Global, splitter: &Splitter, value: &Value) -> Result<Vec<Octets>, Fault>
    ensures ok { IfOk result (λ parts. Fields splitter.now (text_of value.now) parts.items) }
    ensures err { IfErr result (λ e. e ≡ Fault.Memory) }
{
    let mut buffer = Buffer::new();
    awk_fields::split(alloc, text_in(value, &mut buffer), splitter)
}

/// Fills an array with the parts, in place of what it holds, and answers how many there are. Too many are a fault at
/// the place of the array's name.
fn fill(store: &mut Store, at_name: Place, array: Variable, parts: Vec<Octets>) -> Result<i64, Halt>
    ensures { (g : Given) (t : Table) →
        Acts g (Do (Fill at_name (variable_of (names_in g) array) parts.items)) (λ n. give (Value.Num n)) (store.old, t)
        result (store.new, t) }
{
    at(at_name, store.fill(array, parts))
}

/// What split is to do: put the parts of the text of a value into the array, whose name stands at this place.
#[derive(Clone, Copy)]
pub struct Splitting<'a> {
    pub at_name: Place,
    pub array: Variable,
    pub text: &'a Value,
}

/// Splits the text of a value into an array, in place of what it holds, and answers how many parts there are. Too many
/// are a fault at the place of the array's name.
pub fn split_into(
    alloc: Global,
    store: &mut Store,
    splitting: Splitting<'_>,
    splitter: &Splitter,
) -> Result<i64, Halt>
    ensures { (g : Given) (t : Table) →
        Acts g (Do (Split splitting.entry.at_name (variable_of (names_in g) splitting.entry.array) splitter.now
        (text_of splitting.entry.text.now)))
        (λ n. give (Value.Num n)) (store.old, t) result (store.new, t) }
{
    let Ok(parts) = split_text(alloc, splitter, splitting.text) else {
        return Err(Halt::Memory);
    };
    fill(store, splitting.at_name, splitting.array, parts)
}

/// What a text that was computed separates by: an ERE where it has two bytes or more.
fn computed_splitter(
    alloc: Global,
    patterns: &mut Patterns,
    place: Place,
    by: &[u8],
) -> Result<Splitter, Halt>
    ensures { (g : Given) (w : Whole) (at : Place) (a : p.Variable) (text : List ℕ) (from : Piece)
        → Passes g from w (λ k.
        check_separator place by.now (Do (Split at a (separators.separator by.now false) text) ∷ k)) w
        → Acts g from (λ s k. Do (Split at a s text) ∷ k) w result w }
{
    if by.len() > 1 {
        let ere = check(alloc, patterns, place, by)?;
        return Ok(Splitter::by_compiled(ere));
    }
    at(place, Splitter::new(alloc, by, false))
}

/// What split separates by: from whatever leads to the check of a separator on to the splitting.
fn splitter(
    alloc: Global,
    patterns: &mut Patterns,
    place: Place,
    by: PatternValue,
) -> Result<Splitter, Halt>
    ensures { (g : Given) (w : Whole) (y : p.Ere) → IsSourceOf y by →
        (at : Place) (a : p.Variable) (text : List ℕ) (from : Piece)
        → Passes g from w (split_by y place at a text (text_of (source_value by))) w →
        Acts g from (λ s k. Do (Split at a s text) ∷ k) w result w }
{
    match by {
        PatternValue::Constant(ere) => Ok(Splitter::by_compiled(ere)),
        PatternValue::Computed(computed) => {
            let mut buffer = Buffer::new();
            computed_splitter(alloc, patterns, place, text_in(&computed, &mut buffer))
        }
    }
}

/// What `split ( text , array , separator )` gives: how many parts there are. The array holds them, in place of what it
/// held.
pub fn split(
    alloc: Global,
    patterns: &mut Patterns,
    store: &mut Store,
    place: Place,
    splitting: Splitting<'_>,
    by: PatternValue,
) -> Result<Value, Halt>
    ensures { (g : Given) (t : Table) (x : Expression) (y : p.Ere) → IsSourceOf y by
        → Acts g (At
        (Value_of (p.split place x splitting.entry.at_name (variable_of (names_in g) splitting.entry.array) y))
        (source_value by ∷ splitting.entry.text.now ∷ [])) give (store.old, t) result (store.new, t) }
{
    let separator = splitter(alloc, patterns, place, by)?;
    let count = split_into(alloc, store, splitting, &separator)?;
    Ok(Value::Num(count))
}
