// An array that is filled with the parts of a text, as split does it.
ghost use Rattle.awk_lib.specs.Parts.{texts_from};
ghost use Rattle.awk_store.specs.Filled.{filled};
ghost use Rattle.std.specs.Prelude.{Err, IfErr, IfOk, Ok, OnOk, length, pos, ◌≡◌, ◌⊎◌};

use awk_lib::array::{Array, MOST_ELEMENTS};
use awk_text::fault::Fault;
use awk_text::octets::Octets;
use awk_text::value::Value;

/// Fills the array with the parts, in place of what it holds, under the keys 1, 2 and so on; and answers how
/// many there are.
///
/// Fails with `Fault::TooManyElements` exactly where there are more than `MOST_ELEMENTS`, and then the array is
/// as it was, and with `Fault::Memory` where memory is refused.
pub(crate) fn fill_with(array: &mut Array<Value>, parts: Vec<Octets>) -> Result<i64, Fault>
    ensures ok { OnOk result (filled parts.items ≡ Ok array.new) }
    ensures count { IfOk result (λ n. n ≡ pos (length parts.items)) }
    ensures err { IfErr result (λ e. (e ≡ Fault.Memory) ⊎ ((filled parts.items ≡ Err e) × (array.new ≡ array.old))) }
{
    let count = parts.len();
    array.fill(parts)?;
    Ok(count as i64)
}

/// What `fill_with` answers, where there is no array.
pub(crate) fn counted(parts: &[Octets]) -> Result<i64, Fault>
    ensures ok { OnOk result (filled parts.now ≡ Ok (texts_from 1 parts.now)) }
    ensures count { IfOk result (λ n. n ≡ pos (length parts.now)) }
    ensures err { IfErr result (λ e. filled parts.now ≡ Err e) }
{
    let count = parts.len();
    if MOST_ELEMENTS < count {
        return Err(Fault::TooManyElements);
    }
    Ok(count as i64)
}
