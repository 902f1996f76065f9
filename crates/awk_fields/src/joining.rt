// Fields joined to a record's whole text.
ghost use Rattle.std.specs.Prelude.{◌≡◌, ◌+◌, ◌-◌, ◌*◌, ◌<◌, ◌≤◌, All, map, OnOk, IfErr};
ghost use Rattle.awk_fields.specs.Edits.{IsPartOf, field_of};
ghost use Rattle.awk_fields.specs.Rows.{rebuilt};
ghost use Rattle.awk_text.specs.Limits.{most_bytes};

use crate::part::{Part, part_text};
use awk_text::Memory;
use awk_text::buffer::Buffer;
use awk_text::fault::Fault;
use awk_text::texts::MOST_BYTES;

/// Puts the texts of the parts, with `ofs` between, in place of what `made` holds.
pub fn join(made: &mut Vec<u8>, parts: &[Part], text: &[u8], ofs: &[u8]) -> Result<(), Memory>
    requires { All (IsPartOf text.now) parts.now }
    ensures { OnOk result (made.new.items ≡ rebuilt ofs.now (map (field_of text.now) parts.now)) }
{
    made.clear();
    let [first, others @ ..] = parts else {
        return Ok(());
    };
    let mut buffer = Buffer::new();
    made.extend_from_slice(part_text(first, text, &mut buffer))?;
    for part in others {
        made.extend_from_slice(ofs)?;
        made.extend_from_slice(part_text(part, text, &mut buffer))?;
    }
    Ok(())
}

/// Whether a whole text fits: that of so many fields, whose texts have these bytes together, with
/// `gap` bytes between each two.
pub fn fit(bytes: u128, count: usize, gap: usize) -> Result<(), Fault>
    ensures fits { OnOk result (bytes + (count - 1) * gap ≤ most_bytes) }
    ensures fault { IfErr result (λ e. (e ≡ Fault.TextTooLong) × (most_bytes < bytes + (count - 1) * gap)) }
{
    let most = MOST_BYTES as u128;
    let gaps = count.saturating_sub(1) as u128 * gap as u128;
    if most < bytes || most - bytes < gaps {
        return Err(Fault::TextTooLong);
    }
    Ok(())
}
