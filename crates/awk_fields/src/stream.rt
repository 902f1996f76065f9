// The records of an input that is there as a whole.
ghost use Rattle.std.specs.Prelude.{◌≡◌, ◌++◌, ◌⊎◌, List, ℕ, true, IfOk, IfErr, OnOk};
ghost use Rattle.std.specs.List.{flat_map};
ghost use Rattle.awk_fields.specs.Heads.{FirstRecords, IsStopped, IsTooLong, Records, head};

use crate::reader::{Reader, Taken};
use awk_text::fault::Fault;
use awk_text::octets::Octets;
use std::alloc::Global;

/// Takes what records there are.
fn take_all(reader: &mut Reader, rs: &[u8], found: &mut Vec<Octets>) -> Result<(), Fault>
    ensures taken { OnOk result
        ((texts : List (List ℕ)) × (found.new.items ≡ found.old.items ++ texts)
        × FirstRecords rs.now reader.old.input.ended reader.old.input.unread texts reader.new.input.unread) }
    ensures stopped { OnOk result (IsStopped (head rs.now reader.new.input.unread reader.new.input.ended)) }
    ensures ended { OnOk result (reader.new.input.ended ≡ reader.old.input.ended) }
    ensures fault { IfErr result (λ e. (e ≡ Fault.Memory)
        ⊎ ((e ≡ Fault.TextTooLong) × IsTooLong rs.now reader.old.input.ended reader.old.input.unread)) }
{
    let mut room = Vec::new(*found.allocator());
    while let Taken::Record(text) = reader.take(rs, &mut room)? {
        found.push(text)?;
    }
    Ok(())
}

/// The records of an input that comes in these pieces. They are the records of the whole, whatever
/// the pieces are.
///
/// Fails with `Fault::TextTooLong` exactly where more than `MOST_BYTES` bytes of one record come before
/// its end, and with `Fault::Memory` where memory is refused.
pub fn records(alloc: Global, pieces: &[Octets], rs: &[u8]) -> Result<Vec<Octets>, Fault>
    ensures ok { IfOk result (λ found. Records rs.now (flat_map (λ piece. piece) pieces.now) found.items) }
    ensures fault { IfErr result (λ e. (e ≡ Fault.Memory)
        ⊎ ((e ≡ Fault.TextTooLong) × IsTooLong rs.now true (flat_map (λ piece. piece) pieces.now))) }
{
    let mut reader = Reader::new(alloc);
    let mut found = Vec::new(alloc);
    for piece in pieces {
        reader.push(piece.bytes())?;
        take_all(&mut reader, rs, &mut found)?;
    }
    reader.finish();
    take_all(&mut reader, rs, &mut found)?;
    Ok(found)
}
