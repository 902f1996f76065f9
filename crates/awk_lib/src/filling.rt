// The elements of an array that is filled with texts.
ghost use Rattle.awk_lib.specs.Arrays.{most_elements};
ghost use Rattle.awk_lib.specs.Filled.{AreFilled};
ghost use Rattle.std.specs.Prelude.{IfOk, length, ◌≤◌};

use crate::dense::Numbered;
use crate::elements::Elements;
use awk_hash::Seed;
use awk_text::Memory;
use awk_text::octets::Octets;
use awk_text::value::Value;
use std::alloc::Global;

/// The elements that are these texts, as values from outside, under the keys 1, 2 and so on. They lie in the room.
///
/// Fails where memory is refused.
pub(crate) fn elements_of(
    alloc: Global,
    seed: Seed,
    room: Vec<Option<Numbered<Value>>>,
    parts: Vec<Octets>,
) -> Result<Elements<Value>, Memory>
    requires { length parts.items ≤ most_elements }
    ensures { IfOk result (λ es. AreFilled parts.items es) }
{
    let count = parts.len();
    let mut places = room;
    places.clear();
    places.push(None)?;
    let mut number: u64 = 0;
    for part in parts {
        places.push(Some(Numbered {
            number,
            value: Value::Input(part),
        }))?;
        number += 1;
    }
    Ok(Elements::of_places(alloc, seed, places, count))
}
