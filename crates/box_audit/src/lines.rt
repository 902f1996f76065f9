// The lines of an audit.
ghost use Rattle.std.specs.Prelude.{◌≡◌, Some, None, IfOk, IfSome, IfNone, IsSome, OnErr, if◌then◌else◌};
ghost use Rattle.std.specs.String.{string_bytes};
ghost use Rattle.box_monitor.specs.Subjects.{subject_of};
ghost use Rattle.box_audit.specs.Audited.{is_failed, line_of, line_start, outcome_word};
ghost use Rattle.box_audit.specs.Steps.{AreLines};

use awk_text::Memory;
use awk_text::fault::Fault;
use awk_text::place::Place;
use awk_text::quote::quote_log;
use box_monitor::denial::{Subject, subject_of};
use box_monitor::line::kind_word;
use box_world::ask::{Ask, Reply};
use std::alloc::{AllocError, Global};

/// The line of a request where it is done, and the one where it failed.
#[derive(Drop)]
pub struct Lines {
    ok: Vec<u8>,
    failed: Vec<u8>,
}

fn outcome_word(failed: bool) -> &'static str
    ensures { result.now ≡ outcome_word failed }
{
    if failed { "failed" } else { "ok" }
}

fn line_start(
    alloc: Global,
    place: Place,
    subject: &Subject<'_>,
    failed: bool,
) -> Result<String, Memory>
    ensures { IfOk result (λ s.
        string_bytes s ≡ line_start (record { place = place; subject = subject.now; failed = failed })) }
{
    let kind = kind_word(subject.kind);
    let outcome = outcome_word(failed);
    format!(in alloc; "{}:{} {kind} {outcome} \"", place.line, place.column)
}

// `LINE:COLUMN KIND OUTCOME "TEXT"` and a newline.
fn line_of(
    alloc: Global,
    place: Place,
    subject: &Subject<'_>,
    failed: bool,
) -> Result<Vec<u8>, Fault>
    ensures { IfOk result (λ v.
        v.items ≡ line_of (record { place = place; subject = subject.now; failed = failed })) }
{
    let mut line = line_start(alloc, place, subject, failed)?.into_bytes();
    line.extend_from_slice(quote_log(alloc, subject.text)?.as_slice())?;
    line.extend_from_slice(b"\"\n")?;
    Ok(line)
}

fn lines_at(alloc: Global, ask: &Ask, subject: &Subject<'_>) -> Result<Lines, Fault>
    requires { subject_of ask.now.request ≡ Some subject.now }
    ensures { IfOk result (AreLines ask.now) }
{
    Ok(Lines {
        ok: line_of(alloc, ask.place, subject, false)?,
        failed: line_of(alloc, ask.place, subject, true)?,
    })
}

/// Both lines of an ask, made before it is passed on, so that one that could have no line asks nothing. `None` where a
/// policy does not decide on it, and so it has none.
///
/// Fails where memory is refused.
pub fn lines_of(alloc: Global, ask: &Ask) -> Result<Option<Lines>, Memory>
    ensures lines { IfOk result (λ lines. IfSome lines (AreLines ask.now)) }
    ensures none { IfOk result (λ lines. IfNone lines (subject_of ask.now.request ≡ None)) }
    ensures memory { OnErr result (IsSome (subject_of ask.now.request)) }
{
    let Some(subject) = subject_of(&ask.request) else {
        return Ok(None);
    };
    match lines_at(alloc, ask, &subject) {
        Ok(lines) => Ok(Some(lines)),
        Err(_) => Err(AllocError),
    }
}

impl Lines {
    /// The line of the ask with this reply.
    pub fn line(&self, reply: &Reply) -> &[u8]
        ensures { result.now ≡ (if is_failed reply.now then self.now.failed.items else self.now.ok.items) }
    {
        match reply {
            Reply::Failed => self.failed.as_slice(),
            _ => self.ok.as_slice(),
        }
    }
}
