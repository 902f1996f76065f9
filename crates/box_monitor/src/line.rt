// A line of the log.
ghost use Rattle.std.specs.Prelude.{◌≡◌, IfOk, IsOkUnless};
ghost use Rattle.std.specs.String.{string_bytes};
ghost use Rattle.box_monitor.specs.Lines.{kind_word, line_of, line_start};

use crate::denial::Denial;
use awk_text::Memory;
use awk_text::fault::Fault;
use awk_text::quote::quote_log;
use box_policy::policy::Kind;
use std::alloc::Global;

/// The word for a kind, in lines and in policies.
pub fn kind_word(kind: Kind) -> &'static str
    ensures { result.now ≡ kind_word kind }
{
    match kind {
        Kind::Read => "read",
        Kind::Write => "write",
        Kind::Append => "append",
        Kind::Run => "run",
        Kind::Env => "env",
        Kind::Assign => "assign",
    }
}

fn line_start(alloc: Global, denial: &Denial<'_>) -> Result<String, Memory>
    ensures { IfOk result (λ s. string_bytes s ≡ line_start denial.now) }
{
    let place = denial.place;
    let kind = kind_word(denial.kind);
    match denial.rule {
        Some(rule) => format!(in alloc; "{}:{} {kind} {rule} \"", place.line, place.column),
        None => format!(in alloc; "{}:{} {kind} none \"", place.line, place.column),
    }
}

/// The line that the log gains by a denial: `LINE:COLUMN KIND RULE "TEXT"` and a newline.
///
/// Fails with `Fault::Memory` alone, where memory is refused.
pub fn line_of(alloc: Global, denial: &Denial<'_>) -> Result<Vec<u8>, Fault>
    ensures ok { IfOk result (λ v. v.items ≡ line_of denial.now) }
    ensures err { IsOkUnless result Fault.Memory }
{
    let mut line = line_start(alloc, denial)?.into_bytes();
    line.extend_from_slice(quote_log(alloc, denial.text)?.as_slice())?;
    line.extend_from_slice(b"\"\n")?;
    Ok(line)
}
