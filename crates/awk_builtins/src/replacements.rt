// sub and gsub.
ghost use Rattle.awk_builtins.specs.Patterns.{IsSourceOf, reading, source_value};
ghost use Rattle.awk_builtins.specs.Searches.{substituted};
ghost use Rattle.awk_builtins.specs.Searching.{then_set};
ghost use Rattle.awk_lib.specs.Replacing.{Found};
ghost use Rattle.awk_machine.specs.Builtins as builtin;
ghost use Rattle.awk_machine.specs.Pieces.{At, Do, Piece, Substitute, Target, Value_of, give};
ghost use Rattle.awk_machine.specs.State.{Given};
ghost use Rattle.awk_program.specs.Program as p;
ghost use Rattle.awk_program.specs.Program.{Expression, Reference};
ghost use Rattle.awk_store.specs.Acts.{Acts, Passes};
ghost use Rattle.awk_store.specs.Spots.{IsSpotOf, meant, value_of};
ghost use Rattle.awk_store.specs.Wholes.{Whole, names_in};
ghost use Rattle.awk_streams.specs.Tables.{Table};
ghost use Rattle.awk_text.specs.Values.{text_of};
ghost use Rattle.std.specs.Prelude.{Err, IfErr, IfOk, List, Ok, [], ℕ, ◌-◌, ◌<◌, ◌∷◌, ◌≡◌, ◌⊎◌};

use crate::cache::Patterns;
use crate::patterns::{PatternValue, used};
use awk_ere::Ere;
use awk_lib::replace_any;
use awk_program::Extent;
use awk_store::shown::as_text;
use awk_store::targets::{lent, read, set};
use awk_store::{Spot, Store};
use awk_streams::halt::{Halt, at};
use awk_text::Memory;
use awk_text::buffer::Buffer;
use awk_text::fault::Fault;
use awk_text::octets::Octets;
use awk_text::place::Place;
use awk_text::value::{Value, text_in};
use std::alloc::Global;

/// The text with its first match, or each one, replaced by the text of a value, and how many were; or `None` where
/// there is no match, and then nothing is copied.
///
/// Fails with `Fault::TextTooLong` exactly where something is replaced and the new text has more than
/// `MOST_BYTES` bytes, and with `Fault::Memory` where memory is refused.
pub fn replaced_text(
    alloc: Global,
    ere: &Ere,
    new: &Value,
    old: &[u8],
    all: bool,
) -> Result<Option<(Octets, i64)>, Fault>
    ensures ok { IfOk result (λ r. (ms : List (ℕ × ℕ)) × Found ere.now old.now all ms
        × (substituted (text_of new.now) old.now ms ≡ Ok r)) }
    ensures err { IfErr result (λ e. (e ≡ Fault.Memory) ⊎ ((ms : List (ℕ × ℕ)) × Found ere.now old.now all ms
        × (substituted (text_of new.now) old.now ms ≡ Err e))) }
{
    let mut buffer = Buffer::new();
    let with = text_in(new, &mut buffer);
    match replace_any(alloc, ere, with, old, all)? {
        Some(replaced) => Ok(Some(replaced)),
        None => Ok(None),
    }
}

/// The old text with its first match, or each one, replaced, and how many were; none where there is no match.
pub fn replaced(
    alloc: Global,
    place: Place,
    ere: &Ere,
    new: &Value,
    old: &[u8],
    all: bool,
) -> Result<Option<(Octets, i64)>, Halt>
    ensures { (g : Given) (w : Whole) (to : Target) →
        Acts g (Do (Substitute place to ere.now (text_of new.now) old.now all)) (then_set place to) w result w }
{
    at(place, replaced_text(alloc, ere, new, old, all))
}

/// Whether each match is replaced, and not the first alone.
fn is_all(extent: Extent) -> bool
    ensures { result ≡ builtin.is_all extent }
{
    match extent {
        Extent::First => false,
        Extent::All => true,
    }
}

/// What sub or gsub is to do: replace the first match, or each one, by the text of a value.
#[derive(Clone, Copy)]
pub struct Substitution<'a> {
    pub place: Place,
    pub extent: Extent,
    pub new: &'a Value,
}

/// What is made of the target's old text, from whatever leads to its reading on. A text that can be lent is not copied.
fn replaced_in(
    alloc: Global,
    store: &mut Store,
    substitution: Substitution<'_>,
    ere: &Ere,
    target: &Spot,
) -> Result<Option<(Octets, i64)>, Halt>
    ensures { (g : Given) (t : Table) (x : p.Ere) (y : Expression) (r : Reference) (pattern : Value) →
        IsSpotOf (names_in g) r target.now → text_of pattern ≡ ere.now
        → (from : Piece) → Passes g from (store.old, t)
        (reading substitution.entry.place substitution.entry.extent x y r (value_of target.now)
        substitution.entry.new.now pattern) (store.old, t)
        → Acts g from (then_set substitution.entry.place (meant (names_in g) target.now)) (store.old, t) result
        (store.new, t) }
{
    let Substitution { place, extent, new } = substitution;
    let mut buffer = Buffer::new();
    if let Some(old) = lent(store, target, &mut buffer) {
        return replaced(alloc, place, ere, new, old, is_all(extent));
    }
    let old = read(store, target)?;
    let shown = at(place, as_text(alloc, store, old))?;
    let mut digits = Buffer::new();
    replaced(
        alloc,
        place,
        ere,
        new,
        text_in(&shown, &mut digits),
        is_all(extent),
    )
}

/// What `sub ( pattern , new , target )` and gsub give: how many matches were replaced. The target is set where there
/// was one.
pub fn substitute(
    alloc: Global,
    patterns: &mut Patterns,
    store: &mut Store,
    substitution: Substitution<'_>,
    pattern: PatternValue,
    target: Spot,
) -> Result<Value, Halt>
    ensures { (g : Given) (t : Table) (x : p.Ere) (y : Expression) (r : Reference) → IsSourceOf x pattern →
        IsSpotOf (names_in g) r target
        → Acts g (At (Value_of (p.substitute substitution.entry.place substitution.entry.extent x y r))
        (value_of target ∷ substitution.entry.new.now ∷ source_value pattern ∷ [])) give (store.old, t) result
        (store.new, t) }
{
    let ere = used(alloc, patterns, substitution.place, pattern)?;
    let made = replaced_in(alloc, store, substitution, &ere, &target)?;
    match made {
        None => Ok(Value::Num(0)),
        Some((text, count)) => {
            set(alloc, store, target, substitution.place, Value::Text(text))?;
            Ok(Value::Num(count))
        }
    }
}
