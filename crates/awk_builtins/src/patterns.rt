// Patterns: whether a text is an ERE, whether one matches, and what stands where one is wanted.
ghost use Rattle.awk_builtins.specs.Checks.{gives_text};
ghost use Rattle.awk_builtins.specs.Patterns.{IsSourceOf, source_value};
ghost use Rattle.awk_fields.specs.Separators.{IsEre};
ghost use Rattle.awk_machine.specs.Forms.{checked, source, value};
ghost use Rattle.awk_machine.specs.Operators.{of_truth};
ghost use Rattle.awk_machine.specs.Pieces.{At, Check, Do, Match, Pattern_of, Piece, Value_of, give};
ghost use Rattle.awk_machine.specs.State.{Given};
ghost use Rattle.awk_program.specs.Program as p;
ghost use Rattle.awk_program.specs.Program.{Expression};
ghost use Rattle.awk_store.specs.Acts.{Acts, Passes};
ghost use Rattle.awk_store.specs.Wholes.{Whole};
ghost use Rattle.awk_streams.specs.Tables.{Table};
ghost use Rattle.awk_streams.specs.Tasks.{goes_on};
ghost use Rattle.awk_text.specs.Values.{text_of};
ghost use Rattle.std.specs.Prelude.{IfOk, List, [], ◌∷◌, ◌≡◌};

use crate::cache::Patterns;
use crate::operators::truth_value;
use awk_ere::Ere;
use awk_store::Store;
use awk_streams::halt::{Halt, at};
use awk_text::buffer::Buffer;
use awk_text::place::Place;
use awk_text::value::{Value, text_in};
use std::alloc::Global;
use std::rc::Rc;

/// The ERE that a text is, or the fault at the place that it is none.
pub fn check(
    alloc: Global,
    patterns: &mut Patterns,
    place: Place,
    source: &[u8],
) -> Result<Rc<Ere>, Halt>
    ensures check { (g : Given) (w : Whole) → Acts g (Do (Check place source.now)) goes_on w result w }
    ensures constant { (g : Given) (w : Whole) →
        Acts g (At (Pattern_of (p.constant place source.now)) []) (gives_text source.now) w result w }
    ensures ere { IfOk result (λ e. (e.value ≡ source.now) × IsEre source.now) }
{
    at(place, patterns.find(alloc, source))
}

/// Whether the ERE matches somewhere in the text.
pub fn matches(ere: &Ere, text: &[u8]) -> Result<bool, Halt>
    ensures { (g : Given) (w : Whole) → Acts g (Do (Match ere.now text.now)) (λ b. give (of_truth b)) w result w }
{
    Ok(ere.is_match(text)?)
}

/// Whether the ERE that a constant by itself is matches somewhere in the record.
pub fn matches_record(
    alloc: Global,
    patterns: &mut Patterns,
    store: &mut Store,
    place: Place,
    source: &[u8],
) -> Result<bool, Halt>
    ensures { (g : Given) (t : Table) →
        Acts g (At (Value_of (p.pattern place source.now)) []) (λ b. give (of_truth b)) (store.old, t) result
        (store.new, t) }
{
    let ere = check(alloc, patterns, place, source)?;
    store.rebuild()?;
    let Some(whole) = store.known_whole() else {
        return Err(Halt::Memory);
    };
    matches(&ere, whole)
}

/// What stands where a pattern is wanted, once it has a value.
#[derive(Drop)]
pub enum PatternValue {
    /// A constant, which was checked where it stands
    Constant(Rc<Ere>),
    /// What was computed: its text is checked where it is used
    Computed(Value),
}

/// What an ERE that stands by itself gives: whether it matches somewhere in the record.
pub fn matched_record(
    alloc: Global,
    patterns: &mut Patterns,
    store: &mut Store,
    place: Place,
    text: &[u8],
) -> Result<Value, Halt>
    ensures { (g : Given) (t : Table) →
        Acts g (value (p.pattern place text.now)) give (store.old, t) result (store.new, t) }
{
    let found = matches_record(alloc, patterns, store, place, text)?;
    Ok(truth_value(found))
}

/// The source of a pattern that is a constant.
pub fn constant(
    alloc: Global,
    patterns: &mut Patterns,
    place: Place,
    text: &[u8],
) -> Result<PatternValue, Halt>
    ensures plays { (g : Given) (w : Whole) →
        Acts g (source (p.constant place text.now)) (λ s. give (source_value s)) w result w }
    ensures kind { IfOk result (λ s. IsSourceOf (p.constant place text.now) s) }
{
    let ere = check(alloc, patterns, place, text)?;
    Ok(PatternValue::Constant(ere))
}

/// The ERE of a pattern where it is used: from whatever leads to its check on to what stands behind it.
pub fn used(
    alloc: Global,
    patterns: &mut Patterns,
    place: Place,
    pattern: PatternValue,
) -> Result<Rc<Ere>, Halt>
    ensures check { (g : Given) (w : Whole) (y : p.Ere) → IsSourceOf y pattern →
        (from : Piece) (to : List Piece → List Piece)
        → Passes g from w (λ k. checked y place (text_of (source_value pattern)) (to k)) w →
        Acts g from (λ e. to) w result w }
    ensures ere { IfOk result (λ e. e.value ≡ text_of (source_value pattern)) }
{
    match pattern {
        PatternValue::Constant(ere) => Ok(ere),
        PatternValue::Computed(computed) => {
            let mut buffer = Buffer::new();
            check(alloc, patterns, place, text_in(&computed, &mut buffer))
        }
    }
}

/// Whether `text ~ pattern` holds.
pub fn matched(
    alloc: Global,
    patterns: &mut Patterns,
    place: Place,
    text: &Value,
    pattern: PatternValue,
) -> Result<bool, Halt>
    ensures { (g : Given) (w : Whole) (x : Expression) (y : p.Ere) → IsSourceOf y pattern
        → Acts g (At (Value_of (p.matched place x y)) (source_value pattern ∷ text.now ∷ [])) (λ b. give (of_truth b)) w
        result w }
{
    let ere = used(alloc, patterns, place, pattern)?;
    let mut buffer = Buffer::new();
    matches(&ere, text_in(text, &mut buffer))
}
