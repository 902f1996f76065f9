// The lines of a listing and of a verdict.

ghost use Rattle.std.specs.Prelude.{◌≡◌, ◌++◌, IfOk, OnOk};
ghost use Rattle.std.specs.String.{string_bytes};
ghost use Rattle.awk_text.specs.Quoted.{quoted};
ghost use Rattle.box_listing.specs.Lines as spec;

use crate::site::Site;
use crate::verdict::Verdict;
use awk_text::Memory;
use awk_text::octets::Octets;
use awk_text::quote::quote_log;
use box_policy::policy::Kind;
use std::alloc::{AllocError, Global};

pub(crate) fn kind_word(kind: Kind) -> &'static str
    ensures { result.now ≡ spec.kind_word kind }
{
    match kind {
        Kind::Read => "read",
        Kind::Write => "write",
        Kind::Append => "append",
        Kind::Run => "run",
        Kind::Env => "env",
        Kind::Assign => "assign",
    }
}

fn line_start(alloc: Global, site: &Site) -> Result<String, Memory>
    ensures { IfOk result (λ s. string_bytes s ≡ spec.line_start site.now) }
{
    let place = site.place;
    let kind = kind_word(site.kind);
    format!(in alloc; "{}:{} {kind} ", place.line, place.column)
}

fn quoted(alloc: Global, text: &[u8]) -> Result<Vec<u8>, Memory>
    ensures { IfOk result (λ v. v.items ≡ quoted text.now) }
{
    match quote_log(alloc, text) {
        Ok(quoted) => Ok(quoted),
        Err(_memory) => Err(AllocError),
    }
}

fn push_quoted(alloc: Global, text: &[u8], line: &mut Vec<u8>) -> Result<(), Memory>
    ensures { OnOk result (line.new.items ≡ line.old.items ++ spec.shown (Some text.now)) }
{
    let quoted = quoted(alloc, text)?;
    line.extend_from_slice(b"\"")?;
    line.extend_from_slice(quoted.as_slice())?;
    line.extend_from_slice(b"\"")?;
    Ok(())
}

fn push_text(alloc: Global, text: &Option<Octets>, line: &mut Vec<u8>) -> Result<(), Memory>
    ensures { OnOk result (line.new.items ≡ line.old.items ++ spec.shown text.now) }
{
    match text {
        None => {
            line.extend_from_slice(b"*")?;
            Ok(())
        }
        Some(text) => push_quoted(alloc, text.bytes(), line),
    }
}

/// The line of a site: `LINE:COLUMN KIND "TEXT"` and a newline, the text as a log would have it, or `*` in
/// place of `"TEXT"` where it is not known. `Memory` where memory is refused.
pub fn line_of(alloc: Global, site: &Site) -> Result<Vec<u8>, Memory>
    ensures { IfOk result (λ v. v.items ≡ spec.line_of site.now) }
{
    let mut line = line_start(alloc, site)?.into_bytes();
    push_text(alloc, &site.text, &mut line)?;
    line.extend_from_slice(b"\n")?;
    Ok(line)
}

fn push_lines(alloc: Global, sites: &[Site], out: &mut Vec<u8>) -> Result<(), Memory>
    ensures { OnOk result (out.new.items ≡ out.old.items ++ spec.lines_of sites.now) }
{
    for site in sites {
        let line = line_of(alloc, site)?;
        out.extend_from_slice(line.as_slice())?;
    }
    Ok(())
}

/// The lines of sites, in their order. `Memory` where memory is refused.
pub fn lines_of(alloc: Global, sites: &[Site]) -> Result<Vec<u8>, Memory>
    ensures { IfOk result (λ v. v.items ≡ spec.lines_of sites.now) }
{
    let mut out = Vec::new(alloc);
    push_lines(alloc, sites, &mut out)?;
    Ok(out)
}

/// `clean`, `open` or `refused` on a line of its own, and then the lines of the sites that a verdict names. `Memory`
/// where memory is refused.
pub fn verdict_lines(alloc: Global, verdict: &Verdict) -> Result<Vec<u8>, Memory>
    ensures { IfOk result (λ v. v.items ≡ spec.verdict_lines verdict.now) }
{
    let mut out = Vec::new(alloc);
    match verdict {
        Verdict::Clean => out.extend_from_slice(b"clean\n")?,
        Verdict::Open(sites) => push_headed(alloc, b"open\n", sites.list(), &mut out)?,
        Verdict::Refused(sites) => push_headed(alloc, b"refused\n", sites.list(), &mut out)?,
    }
    Ok(out)
}

fn push_headed(alloc: Global, head: &[u8], sites: &[Site], out: &mut Vec<u8>) -> Result<(), Memory>
    ensures { OnOk result (out.new.items ≡ out.old.items ++ head.now ++ spec.lines_of sites.now) }
{
    out.extend_from_slice(head)?;
    push_lines(alloc, sites, out)
}
