// The program from its words to its exit status.
use crate::advice::{lint_files, why_file};
use crate::folders::{base_bytes, base_name};
use crate::propose::propose_policy;
use crate::reasons::{Files, tell_of_operands, tell_why};
use crate::runs::{read_source, run_script};
use crate::scripts::{line_of, read_script};
use crate::stack::has_small_stack;
use crate::standard;
use crate::standard::hold_closed;
use awk_sources::Lines;
use awkbox::{Answer, Format, Message, Octets, check, list};
use awkbox_options::{Asked, Check, List, NotAsked, Words, read_asked, read_words};

/// Does what the words ask for, tells on standard error what went wrong, and gives the exit status.
/// A message that cannot be written is passed over.
pub fn run(rt: &HostRuntime) -> u8 {
    // kept up to the end
    let Ok(_held) = hold_closed(rt) else {
        return say(rt, &Message::cannot_read(rt.alloc(), standard::NOTHING));
    };
    if has_small_stack(rt) {
        return say(rt, &Message::SmallStack);
    }
    match read_words(rt) {
        Ok(words) => follow(rt, words),
        Err(end) => end_of(rt, end),
    }
}

fn follow(rt: &HostRuntime, words: Words) -> u8 {
    let Words { options, operands } = words;
    match read_asked(rt, options.as_slice(), operands.as_slice()) {
        Ok(asked) => follow_asked(rt, &asked, operands),
        Err(end) => end_of(rt, end),
    }
}

fn follow_asked(rt: &HostRuntime, asked: &Asked<'_>, operands: Vec<Octets>) -> u8 {
    // told before the program may be in another folder
    let Ok(files) = Files::of(rt, asked) else {
        return say(rt, &Message::OutOfMemory);
    };
    let mut lines = None;
    match done(rt, asked, operands, &mut lines) {
        Ok(status) => {
            tell_of_operands(rt, asked, &files, status);
            status
        }
        Err(message) => {
            let status = say_of(rt, &message, &lines);
            tell_why(rt, asked, &files, &message);
            status
        }
    }
}

// Operands stand beside `run` alone. Whose the lines of the script are is set as soon as it is read.
fn done(
    rt: &HostRuntime,
    asked: &Asked<'_>,
    operands: Vec<Octets>,
    lines: &mut Option<Lines>,
) -> Result<u8, Message> {
    match asked {
        Asked::Run(run) => run_script(rt, run, operands, lines),
        Asked::List(asked) => list_script(rt, asked, lines),
        Asked::Check(asked) => check_files(rt, asked, lines),
        Asked::Why(why) => why_file(rt, why),
        Asked::Lint(asked) => lint_files(rt, asked, lines),
        Asked::Propose(asked) => propose_policy(rt, asked, lines),
    }
}

// The exit status where the words ask for nothing.
fn end_of(rt: &HostRuntime, end: NotAsked) -> u8 {
    match end {
        NotAsked::Told(status) => status,
        NotAsked::OutOfMemory => say(rt, &Message::OutOfMemory),
    }
}

// Tells the message, and gives the status that goes with it.
fn say(rt: &HostRuntime, message: &Message) -> u8 {
    let _ = eprintln!(rt; "{message}");
    message.status()
}

// The same of a message that may be about one of several files.
fn say_of(rt: &HostRuntime, message: &Message, lines: &Option<Lines>) -> u8 {
    match line_of(rt.alloc(), message, lines) {
        Ok(line) => {
            let _ = eprintln!(rt; "{line}");
            message.status()
        }
        Err(_) => say(rt, message),
    }
}

fn list_script(
    rt: &HostRuntime,
    asked: &List<'_>,
    lines: &mut Option<Lines>,
) -> Result<u8, Message> {
    let script = read_script(rt, asked.numbers, asked.script.as_slice(), lines)?;
    if asked.tells_files {
        return tell_files(rt, lines);
    }
    let format = format_of(asked.is_json);
    let answer = list(rt.alloc(), asked.numbers, script.bytes.as_slice(), format)?;
    Ok(told(rt, &answer))
}

// Prints which lines are whose. That it cannot be written is passed over.
fn tell_files(rt: &HostRuntime, lines: &Option<Lines>) -> Result<u8, Message> {
    if let Some(lines) = lines {
        let table = lines.table(rt.alloc())?;
        let _ = rt.stdout().write_all(table.as_str().as_bytes());
    }
    Ok(0)
}

fn check_files(
    rt: &HostRuntime,
    asked: &Check<'_>,
    lines: &mut Option<Lines>,
) -> Result<u8, Message> {
    let policy = read_source(rt, asked.policy)?;
    let script = read_script(rt, asked.numbers, asked.script.as_slice(), lines)?;
    check_texts(rt, asked, policy.bytes.as_slice(), script.bytes.as_slice())
}

fn check_texts(
    rt: &HostRuntime,
    asked: &Check<'_>,
    policy: &[u8],
    script: &[u8],
) -> Result<u8, Message> {
    let base = base_name(rt, asked.base)?;
    let format = format_of(asked.is_json);
    let answer = check(
        rt.alloc(),
        asked.numbers,
        policy,
        base_bytes(&base),
        script,
        format,
    )?;
    let status = told(rt, &answer);
    Ok(if asked.allows_open && answer.is_open {
        0
    } else {
        status
    })
}

fn format_of(is_json: bool) -> Format {
    match is_json {
        true => Format::Json,
        false => Format::Lines,
    }
}

// Prints a listing or a verdict, and gives its status. That it cannot be written is passed over.
fn told(rt: &HostRuntime, answer: &Answer) -> u8 {
    let _ = rt.stdout().write_all(answer.lines.as_slice());
    answer.status
}
