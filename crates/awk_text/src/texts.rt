// Texts one after the other.
ghost use Rattle.std.specs.Prelude.{◌≡◌, ◌++◌, ◌+◌, ◌<◌, ◌≤◌, ◌⊎◌, ◌↔◌, length, IfOk, IfErr, IsErrOf};
ghost use Rattle.awk_text.specs.Limits.{most_bytes};

use crate::fault::Fault;
use std::alloc::Global;

/// The most bytes that a text that a script makes may have.
pub const MOST_BYTES: usize = 16_777_216;

/// The first text and then the second.
///
/// Fails with `Fault::TextTooLong` exactly where the two have more than `MOST_BYTES` bytes, and
/// with `Fault::Memory` where memory is refused.
pub fn join(alloc: Global, first: &[u8], second: &[u8]) -> Result<Vec<u8>, Fault>
    ensures ok { IfOk result (λ text. text.items ≡ first.now ++ second.now) }
    ensures too_long { IsErrOf result Fault.TextTooLong ↔ (most_bytes < length first.now + length second.now) }
    ensures err { IfErr result (λ e. (e ≡ Fault.TextTooLong) ⊎ (e ≡ Fault.Memory)) }
{
    let length = first.len() + second.len();
    if MOST_BYTES < length {
        return Err(Fault::TextTooLong);
    }
    let mut text = Vec::with_capacity(alloc, length)?;
    text.extend_from_slice(first)?;
    text.extend_from_slice(second)?;
    Ok(text)
}
