// Why a message was said, on a line of its own behind it.
use crate::files::{MOST_BYTES, last_bytes, read};
use crate::folders::{absolute, base_name};
use awk_reasons::{denied, reason, told_of};
use awkbox::{Fault, Memory, Message, Numbers, Place, Policy, PolicyError, SyntaxError};
use awkbox_options::{Asked, STANDARD_INPUT, ScriptPart, read_words};
use std::fs::{File, metadata};
use std::io::{Error, ErrorKind};
use std::path::PathBuf;

/// The files that a message may be about, by names that hold in any folder.
#[derive(Drop)]
pub struct Files {
    /// One for each part of the script; none of a text and of the standard input.
    script: Vec<Option<PathBuf>>,
    log: Option<PathBuf>,
}

impl Files {
    /// Those of the words of the command line.
    pub fn of(rt: &HostRuntime, asked: &Asked<'_>) -> Result<Files, Memory> {
        Ok(Files {
            script: part_names(rt, script_of(asked))?,
            log: absolute_of(rt, log_of(asked))?,
        })
    }
}

fn part_names(rt: &HostRuntime, parts: &[ScriptPart<'_>]) -> Result<Vec<Option<PathBuf>>, Memory> {
    let mut names = Vec::new(rt.alloc());
    for part in parts {
        names.push(match part {
            ScriptPart::File(name) => absolute_of(rt, Some(*name))?,
            ScriptPart::Text(_) => None,
        })?;
    }
    Ok(names)
}

fn script_of<'b, 'a>(asked: &'b Asked<'a>) -> &'b [ScriptPart<'a>] {
    match asked {
        Asked::Run(run) => run.script.as_slice(),
        Asked::List(list) => list.script.as_slice(),
        Asked::Check(check) => check.script.as_slice(),
        Asked::Propose(propose) => propose.script.as_slice(),
        Asked::Lint(lint) => lint.script.as_slice(),
        Asked::Why(_) => &[],
    }
}

// Which numbers the script has, where there is one.
fn numbers_of(asked: &Asked<'_>) -> Numbers {
    match asked {
        Asked::Run(run) => run.numbers,
        Asked::List(list) => list.numbers,
        Asked::Check(check) => check.numbers,
        Asked::Propose(propose) => propose.numbers,
        Asked::Lint(lint) => lint.numbers,
        Asked::Why(_) => Numbers::Whole,
    }
}

fn policy_of<'a>(asked: &Asked<'a>) -> Option<&'a str> {
    match asked {
        Asked::Run(run) => Some(run.policy),
        Asked::Check(check) => Some(check.policy),
        Asked::Why(why) => Some(why.policy),
        Asked::Lint(lint) => lint.policy,
        Asked::Propose(propose) => propose.policy,
        Asked::List(_) => None,
    }
}

fn base_of<'a>(asked: &Asked<'a>) -> Option<&'a str> {
    match asked {
        Asked::Run(run) => run.base,
        Asked::Check(check) => check.base,
        Asked::Why(why) => why.base,
        Asked::Lint(lint) => lint.base,
        Asked::Propose(propose) => propose.base,
        Asked::List(_) => None,
    }
}

fn log_of<'a>(asked: &Asked<'a>) -> Option<&'a str> {
    match asked {
        Asked::Run(run) => Some(run.log),
        Asked::Propose(propose) => propose.log,
        _ => None,
    }
}

// None of the standard input.
fn absolute_of(rt: &HostRuntime, name: Option<&str>) -> Result<Option<PathBuf>, Memory> {
    match name {
        Some(name) if name != STANDARD_INPUT => Ok(Some(absolute(rt, name)?)),
        _ => Ok(None),
    }
}

/// Tells more of the message, where there is more to be told. For want of memory there is not.
pub fn tell_why(rt: &HostRuntime, asked: &Asked<'_>, files: &Files, message: &Message) {
    if let Some(note) = note(rt, asked, files, message) {
        let _ = eprintln!(rt; "awkbox: note: {note}");
    }
}

fn note(rt: &HostRuntime, asked: &Asked<'_>, files: &Files, message: &Message) -> Option<String> {
    match message {
        Message::Script(error) => of_script(rt, asked, files, *error),
        Message::Policy(error) => of_policy(rt, asked, *error),
        Message::Unspelled(pair) | Message::Assignment(pair) => of_assignment(rt, asked, *pair),
        Message::CannotRead(_) => of_unread(rt, asked, files),
        Message::Fault(Fault::Output, place) => of_unwritten(rt, files, *place),
        _ => None,
    }
}

fn of_script(
    rt: &HostRuntime,
    asked: &Asked<'_>,
    files: &Files,
    error: SyntaxError,
) -> Option<String> {
    let bytes = read_again(rt, script_of(asked), files.script.as_slice())?;
    let words = reason(rt.alloc(), numbers_of(asked), bytes.as_slice(), error).ok()?;
    match words.as_str().is_empty() {
        true => None,
        false => Some(words),
    }
}

// The script once more. It cannot be read, where a part of it came from the standard input.
fn read_again(
    rt: &HostRuntime,
    parts: &[ScriptPart<'_>],
    files: &[Option<PathBuf>],
) -> Option<Vec<u8>> {
    let mut bytes = Vec::new(rt.alloc());
    for (part, file) in parts.iter().zip(files) {
        add_part(rt, part, file, &mut bytes)?;
        bytes.push(b'\n').ok()?;
    }
    // a newline stands between parts alone
    bytes.pop();
    Some(bytes)
}

fn add_part(
    rt: &HostRuntime,
    part: &ScriptPart<'_>,
    file: &Option<PathBuf>,
    bytes: &mut Vec<u8>,
) -> Option<()> {
    match (part, file) {
        (ScriptPart::Text(text), _) => bytes.extend_from_slice(text.as_bytes()).ok(),
        (ScriptPart::File(_), Some(name)) => {
            let file = read(rt, name.as_str()).ok()?;
            bytes.extend_from_slice(file.bytes.as_slice()).ok()
        }
        (ScriptPart::File(_), None) => None,
    }
}

// The base that the words give is told of where no policy may have it: the policy's own may be the one that is refused,
// but then this one is the next.
fn of_policy(rt: &HostRuntime, asked: &Asked<'_>, error: PolicyError) -> Option<String> {
    let base = base_name(rt, base_of(asked)).ok()?;
    if let Some(base) = text_of(&base)
        && error.code == PolicyError::BASE
        && !Policy::may_have(base.as_bytes())
    {
        return of_base(rt, base);
    }
    let policy = policy_of(asked)?;
    format!(in rt.alloc(); "`awkbox lint --policy {policy}` tells more").ok()
}

fn of_base(rt: &HostRuntime, base: &str) -> Option<String> {
    format!(in rt.alloc();
        "a base is an absolute path without `*`, `?` and `..`; `--base` gives `{base}`"
    ).ok()
}

// Of the `-v` pair of this number, counted from 1.
fn of_assignment(rt: &HostRuntime, asked: &Asked<'_>, pair: u32) -> Option<String> {
    let Asked::Run(run) = asked else {
        return None;
    };
    let words = run.assigns.as_slice().get(pair.saturating_sub(1) as usize)?;
    format!(in rt.alloc(); "`-v {words}` is not NAME=VALUE with the name of a variable").ok()
}

fn of_unread(rt: &HostRuntime, asked: &Asked<'_>, files: &Files) -> Option<String> {
    let policy = unread_of(rt, policy_of(asked));
    let script = unread_part(rt, files.script.as_slice());
    let log = unread_of(rt, text_of(&files.log));
    String::from_str(rt.alloc(), policy.or(script).or(log)?).ok()
}

fn text_of(name: &Option<PathBuf>) -> Option<&str> {
    match name {
        Some(name) => Some(name.as_str()),
        None => None,
    }
}

// Why the first of these files that can't be read cannot be.
fn unread_part(rt: &HostRuntime, files: &[Option<PathBuf>]) -> Option<&'static str> {
    for file in files {
        if let Some(words) = unread_of(rt, text_of(file)) {
            return Some(words);
        }
    }
    None
}

// Why this file cannot be read, if it can't. Nothing is told of the standard input.
fn unread_of(rt: &HostRuntime, name: Option<&str>) -> Option<&'static str> {
    let name = name?;
    if name == STANDARD_INPUT {
        return None;
    }
    match metadata(rt, name) {
        Ok(metadata) if metadata.is_dir() => Some("it is a folder"),
        Ok(metadata) if metadata.len() > MOST_BYTES as u64 => Some("it has over 16 MiB"),
        Ok(_) => unopened_file(rt, name),
        Err(error) => Some(words_of(&error)),
    }
}

// Why the system does not open this file, if it does not.
fn unopened_file(rt: &HostRuntime, name: &str) -> Option<&'static str> {
    match File::open(rt, name) {
        Ok(_) => None,
        Err(error) => Some(words_of(&error)),
    }
}

/// The exit status of a run that passed an operand over, unless its script sets another one.
const PASSED_OVER: u8 = 2;

/// Tells of each operand that cannot be opened why, where a run of this status may have passed it over. Awk's own
/// message comes while the script runs, and has no room for it. The folder is the one of the run.
pub fn tell_of_operands(rt: &HostRuntime, asked: &Asked<'_>, files: &Files, status: u8) {
    let (Asked::Run(_), PASSED_OVER) = (asked, status) else {
        return;
    };
    let Some(log) = last_lines(rt, files) else {
        return;
    };
    // the words are read once more, since the run has those of before
    let Ok(words) = read_words(rt) else {
        return;
    };
    for operand in words.operands.as_slice() {
        if let Some(note) = of_operand(rt, log.as_slice(), operand.bytes()) {
            let _ = eprintln!(rt; "awkbox: note: {note}");
        }
    }
}

fn last_lines(rt: &HostRuntime, files: &Files) -> Option<Vec<u8>> {
    match &files.log {
        Some(log) => last_bytes(rt, log.as_str()).ok(),
        None => Some(Vec::new(rt.alloc())),
    }
}

// An operand is denied where the log has its line, and cannot be opened where the system says so.
fn of_operand(rt: &HostRuntime, log: &[u8], operand: &[u8]) -> Option<String> {
    if let Some(line) = denied(rt.alloc(), log, operand).ok()? {
        return format!(in rt.alloc(); "the policy denies an operand; the log has: {line}").ok();
    }
    let name = std::str::from_utf8(operand).ok()?;
    told_of(rt.alloc(), operand, unopened(rt, name)?).ok()
}

// Why the operand cannot be opened, if it can't. One that sets a variable, or is the standard input, is no file. What
// is no regular file is not opened, since that may wait.
fn unopened(rt: &HostRuntime, name: &str) -> Option<&'static str> {
    if name == STANDARD_INPUT || name.is_empty() || name.contains('=') {
        return None;
    }
    match metadata(rt, name) {
        Ok(metadata) if metadata.is_dir() => Some("it is a folder"),
        Ok(metadata) if metadata.is_file() => unopened_file(rt, name),
        Ok(_) => None,
        Err(error) => Some(words_of(&error)),
    }
}

fn words_of(error: &Error) -> &'static str {
    match error.kind() {
        ErrorKind::NotFound => "there is no such file",
        ErrorKind::PermissionDenied => "the system does not allow it",
        _ => "the system refuses it",
    }
}

// An output that cannot be written was denied, where the last line of the log has its place.
fn of_unwritten(rt: &HostRuntime, files: &Files, place: Place) -> Option<String> {
    let log = text_of(&files.log)?;
    let bytes = last_bytes(rt, log).ok()?;
    let begins = format!(in rt.alloc(); "{}:{} ", place.line, place.column).ok()?;
    match last_line(bytes.as_slice()) {
        Some(line) if line.starts_with(begins.as_str()) => {
            format!(in rt.alloc(); "the policy denies it; the log has: {line}").ok()
        }
        _ => String::from_str(rt.alloc(), "no rule denies it: the system refuses it").ok(),
    }
}

// The last line of the text, without its end, where it begins within the text.
fn last_line(text: &[u8]) -> Option<&str> {
    let lines = text.strip_suffix(b"\n".as_slice())?;
    let line = match lines.iter().rposition(|b| *b == b'\n') {
        Some(newline) => lines.get(newline.saturating_add(1)..)?,
        None => lines,
    };
    std::str::from_utf8(line).ok()
}
