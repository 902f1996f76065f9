// Records that one byte ends, where that byte is held.
ghost use Rattle.std.specs.Prelude.{◌≡◌, ◌+◌, ◌<◌, ℕ, List, Bool, length, IfSome};
ghost use Rattle.awk_fields.specs.Heads.{head};
ghost use Rattle.awk_fields.specs.Unread.{IsSearched, head_of};
ghost use Rattle.awk_fields.specs.declared.front.Front.TheVariants as front;

use crate::front::{Searched, mark_place};
use awk_text::texts::MOST_BYTES;

/// How many bytes the first record has, where RS is one byte that is held, the record is no longer than a text may be,
/// and nothing was searched in vain. Takes no memory.
#[inline(always)]
pub fn line_len(unread: &[u8], rs: &[u8], searched: Searched) -> Option<usize>
    ensures front { IfSome result
        (λ len. (ended : Bool) → head_of unread.now (front.Record 0 len (len + 1)) ≡ head rs.now unread.now ended) }
    ensures inside { IfSome result (λ len. len < length unread.now) }
    ensures searched { IfSome result (λ len. (rest : List ℕ) → IsSearched rest searched) }
{
    let (Searched::Byte(_, 0), [mark, ..]) = (searched, rs) else {
        return None;
    };
    let len = mark_place(unread, *mark, searched);
    if len < unread.len() && len <= MOST_BYTES {
        return Some(len);
    }
    None
}
