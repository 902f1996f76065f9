// A policy explained, and what a policy or a script may not mean.
use crate::folders::{absolute, base_bytes, base_name};
use crate::runs::read_source;
use crate::scripts::read_script;
use awk_hints::script_lines;
use awk_sources::Lines;
use awkbox::{Memory, Message, Numbers, sites_of};
use awkbox_options::{Lint, Why};
use box_advice::{Findings, Wanted, explained, lint};

/// The exit status where a policy is refused.
const REFUSED: u8 = 3;

/// Prints which rules of the policy speak of the request, and which one decides, and gives the exit status. That
/// it cannot be written is passed over.
pub fn why_file(rt: &HostRuntime, asked: &Why<'_>) -> Result<u8, Message> {
    let source = read_source(rt, asked.policy)?;
    let bytes = source.bytes.as_slice();
    let base = base_name(rt, asked.base)?;
    let wanted = Wanted {
        kind: asked.kind,
        subject: asked.text.as_bytes(),
        given: asked.given,
    };
    match explained(rt.alloc(), asked.policy, bytes, base_bytes(&base), wanted) {
        Ok(lines) => {
            let _ = rt.stdout().write_all(lines.as_str().as_bytes());
            Ok(0)
        }
        Err(error) => Err(Message::Policy(error)),
    }
}

/// What was told of a file.
#[derive(Clone, Copy, Drop)]
enum Told {
    Nothing,
    Lines,
    Refusal,
}

/// Prints what is wrong with the policy, and what its rules and the script may not mean, and gives the exit status.
/// That it cannot be written is passed over.
pub fn lint_files(
    rt: &HostRuntime,
    asked: &Lint<'_>,
    lines: &mut Option<Lines>,
) -> Result<u8, Message> {
    let policy = match asked.policy {
        Some(policy) => lint_policy(rt, policy, asked.base)?,
        None => Told::Nothing,
    };
    let script = match asked.script.is_empty() {
        false => lint_script(rt, asked, lines)?,
        true => Told::Nothing,
    };
    match (policy, script) {
        (Told::Refusal, _) => Ok(REFUSED),
        (Told::Lines, _) | (_, Told::Lines) if asked.is_strict => Ok(1),
        _ => Ok(0),
    }
}

fn print_lines(rt: &HostRuntime, lines: &str) -> Told {
    let _ = rt.stdout().write_all(lines.as_bytes());
    if lines.is_empty() {
        Told::Nothing
    } else {
        Told::Lines
    }
}

fn lint_policy(rt: &HostRuntime, policy: &str, base: Option<&str>) -> Result<Told, Message> {
    let source = read_source(rt, policy)?;
    let found = found_in(rt, policy, source.bytes.as_slice(), base)?;
    let told = print_lines(rt, found.lines.as_str());
    match found.refusal {
        Some(_) => Ok(Told::Refusal),
        None => Ok(told),
    }
}

fn lint_script(
    rt: &HostRuntime,
    asked: &Lint<'_>,
    lines: &mut Option<Lines>,
) -> Result<Told, Message> {
    let source = read_script(rt, asked.numbers, asked.script.as_slice(), lines)?;
    lint_text(rt, asked.numbers, source.bytes.as_slice())
}

// A script that has no listing is refused.
fn lint_text(rt: &HostRuntime, numbers: Numbers, script: &[u8]) -> Result<Told, Message> {
    sites_of(rt.alloc(), numbers, script)?;
    match script_lines(rt.alloc(), numbers, script) {
        Ok(lines) => Ok(print_lines(rt, lines.as_str())),
        Err(error) => Err(Message::Script(error)),
    }
}

fn found_in(
    rt: &HostRuntime,
    policy: &str,
    text: &[u8],
    base: Option<&str>,
) -> Result<Findings, Memory> {
    let file = absolute(rt, policy)?;
    let base = base_name(rt, base)?;
    lint(rt.alloc(), policy, file.as_str(), text, base_bytes(&base))
}
