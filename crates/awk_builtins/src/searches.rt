// Where a pattern is found: match.
ghost use Rattle.awk_builtins.specs.Patterns.{IsSourceOf, source_value};
ghost use Rattle.awk_builtins.specs.Searches.{location};
ghost use Rattle.awk_ere.specs.Spelled.{HasMatch};
ghost use Rattle.awk_lib.specs.Replacing.{Found};
ghost use Rattle.awk_machine.specs.Pieces.{At, Do, Locate, Value_of, give};
ghost use Rattle.awk_machine.specs.State.{Given};
ghost use Rattle.awk_program.specs.Program as p;
ghost use Rattle.awk_program.specs.Program.{Expression};
ghost use Rattle.awk_store.specs.Acts.{Acts};
ghost use Rattle.awk_streams.specs.Tables.{Table};
ghost use Rattle.awk_text.specs.Values.{text_of};
ghost use Rattle.std.specs.Prelude.{Err, IfErr, IfOk, List, Ok, [], false, pos, ℕ, ◌+◌, ◌-◌, ◌<◌, ◌^◌, ◌∷◌, ◌≡◌, ◌≤◌};

use crate::cache::Patterns;
use crate::patterns::{PatternValue, used};
use awk_ere::Ere;
use awk_program::Own;
use awk_store::Store;
use awk_streams::halt::Halt;
use awk_text::Memory;
use awk_text::buffer::Buffer;
use awk_text::fault::Fault;
use awk_text::place::Place;
use awk_text::value::{Value, text_in};
use std::alloc::Global;

/// Whether the pattern matches somewhere in the text of a value.
///
/// Fails where memory is refused.
pub fn is_match(ere: &Ere, value: &Value) -> Result<bool, Memory>
    ensures { IfOk result (λ b. HasMatch ere.now (text_of value.now) b) }
{
    let mut buffer = Buffer::new();
    ere.is_match(text_in(value, &mut buffer))
}

/// The values of RSTART and RLENGTH: where a match begins, counted from 1, and how many bytes it has; 0 and -1
/// where there is none.
#[derive(Clone, Copy, PartialEq, Eq, Drop)]
pub struct Location {
    pub start: i64,
    pub length: i64,
}

/// The place of a match in a text.
fn place(start: usize, end: usize) -> Location
    requires ordered { start ≤ end }
    requires inside { end < 2 ^ 63 - 1 }
    ensures { result ≡ record { start = pos (start + 1); length = pos (end - start) } }
{
    Location {
        start: (start + 1) as i64,
        length: (end - start) as i64,
    }
}

/// Where the first match in a text is.
fn locate_in(ere: &Ere, text: &[u8]) -> Result<Location, Fault>
    ensures ok { IfOk result (λ r. (ms : List (ℕ × ℕ)) × Found ere.now text.now false ms × (r ≡ location ms)) }
    ensures err { IfErr result (λ e. e ≡ Fault.Memory) }
{
    // No memory holds a text of so many bytes.
    if text.len() >= i64::MAX as usize {
        return Err(Fault::Memory);
    }
    match ere.find(text, 0)? {
        Some((start, end)) => Ok(place(start, end)),
        None => Ok(Location {
            start: 0,
            length: -1,
        }),
    }
}

/// Where the first match in the text of a value is.
///
/// Fails with `Fault::Memory` alone, where memory is refused.
pub fn location_in(ere: &Ere, value: &Value) -> Result<Location, Fault>
    ensures ok { IfOk result
        (λ r. (ms : List (ℕ × ℕ)) × Found ere.now (text_of value.now) false ms × (r ≡ location ms)) }
    ensures err { IfErr result (λ e. e ≡ Fault.Memory) }
{
    let mut buffer = Buffer::new();
    locate_in(ere, text_in(value, &mut buffer))
}

/// Where the first match is, which is counted from 1, or 0; sets RSTART and RLENGTH.
pub fn locate(store: &mut Store, ere: &Ere, text: &Value) -> Result<i64, Halt>
    ensures { (g : Given) (t : Table) →
        Acts g (Do (Locate ere.now (text_of text.now))) (λ n. give (Value.Num n)) (store.old, t) result (store.new, t) }
{
    let Ok(found) = location_in(ere, text) else {
        return Err(Halt::Memory);
    };
    store.set_own(Own::Rstart, Value::Num(found.start));
    store.set_own(Own::Rlength, Value::Num(found.length));
    Ok(found.start)
}

/// What `match ( text , pattern )` gives. It sets RSTART and RLENGTH.
pub fn located(
    alloc: Global,
    patterns: &mut Patterns,
    store: &mut Store,
    place: Place,
    text: &Value,
    pattern: PatternValue,
) -> Result<Value, Halt>
    ensures { (g : Given) (t : Table) (x : Expression) (y : p.Ere) → IsSourceOf y pattern
        → Acts g (At (Value_of (p.locate place x y)) (source_value pattern ∷ text.now ∷ [])) give (store.old, t) result
        (store.new, t) }
{
    let ere = used(alloc, patterns, place, pattern)?;
    let start = locate(store, &ere, text)?;
    Ok(Value::Num(start))
}
