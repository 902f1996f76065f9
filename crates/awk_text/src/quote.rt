// Texts as the log shows them.
ghost use Rattle.std.specs.Prelude.{◌≡◌, ◌++◌, ◌<◌, IfOk, IsOkUnless, OnOk};
ghost use Rattle.awk_text.specs.Quoted.{hex_digit, quoted, quoted_byte};

use crate::Memory;
use crate::fault::Fault;
use std::alloc::Global;

fn hex_digit(n: u8) -> u8
    requires { n < 16 }
    ensures { result ≡ hex_digit n }
{
    if n < 10 { b'0' + n } else { b'a' - 10 + n }
}

#[tactic(auto, unfolding(crate::specs::Quoted::quoted_byte))]
fn push_quoted(out: &mut Vec<u8>, b: u8) -> Result<(), Memory>
    ensures { OnOk result (out.new.items ≡ out.old.items ++ quoted_byte b) }
{
    if 0x20 <= b && b <= 0x7E && b != b'"' && b != b'\\' {
        out.push(b)?;
    } else {
        out.extend_from_slice(&[b'\\', b'x', hex_digit(b / 16), hex_digit(b % 16)])?;
    }
    Ok(())
}

/// The text as the log of denials and the messages of a run have it between quotes: bytes outside
/// 0x20 to 0x7E, `"` and `\` are written `\xHH`, with lower-case digits.
///
/// Fails with `Fault::Memory` alone, where memory is refused.
pub fn quote_log(alloc: Global, text: &[u8]) -> Result<Vec<u8>, Fault>
    ensures ok { IfOk result (λ v. v.items ≡ quoted text.now) }
    ensures err { IsOkUnless result Fault.Memory }
{
    let mut out = Vec::with_capacity(alloc, text.len())?;
    for b in text {
        push_quoted(&mut out, *b)?;
    }
    Ok(out)
}
