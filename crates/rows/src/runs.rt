// Whole runs: scripts under a policy, over the world in memory.

use crate::asked::asked;
use crate::run_log::RunLog;
use crate::start::{Beginning, is_start};
use awk_text::octets::Octets;
use awkbox::{Driven, Ending, LogEnd, MemoryWorld, Refusal, Report};
use library_calls::args::{name, text};
use library_calls::problem::Problem;
use library_calls::row::{Arg, Row};
use library_calls::shown::{Shown, bytes, show, told};
use row_calls::worlds::left;
use std::alloc::Global;

/// What the program says at its end: nothing, or a message.
fn message(alloc: Global, answer: Result<Report, Refusal>) -> Shown {
    match Ending::of(answer) {
        Ending::Quiet(_) => bytes(alloc, b"none"),
        Ending::Said(message) => Ok(message.to_string(alloc)?.into_bytes()),
    }
}

fn log_end(alloc: Global, end: LogEnd) -> Shown {
    let word: &[u8] = match end {
        LogEnd::Whole => b"whole",
        LogEnd::Part => b"part",
        LogEnd::Unsure => b"unsure",
    };
    bytes(alloc, word)
}

/// How many steps the run took.
fn used(alloc: Global, answer: Result<Report, Refusal>) -> Shown {
    match answer {
        Ok(report) => show(alloc, report.used),
        Err(_) => bytes(alloc, b"none"),
    }
}

/// The code of a refusal.
fn refused(alloc: Global, answer: Result<Report, Refusal>) -> Shown {
    let (letter, code) = match answer {
        Err(Refusal::Policy(error)) => ("P", error.code),
        Err(Refusal::Script(error)) => ("S", error.code),
        Err(Refusal::Assign(_)) => ("U", 3),
        Ok(_) => return bytes(alloc, b"no"),
    };
    Ok(format!(in alloc; "{letter}{code}")?.into_bytes())
}

/// What is told after the run.
pub fn end(alloc: Global, driven: &Driven<MemoryWorld, RunLog>, args: &[Arg<'_>]) -> Shown {
    match name(args, 0) {
        "says" => message(alloc, driven.answer),
        "status" => show(alloc, Ending::of(driven.answer).status()),
        "refused" => refused(alloc, driven.answer),
        "steps" => used(alloc, driven.answer),
        "log" => bytes(alloc, &driven.log.text),
        "log_end" => log_end(alloc, driven.log_end),
        "asked" => asked(alloc, &driven.world, args),
        _ => left(alloc, &driven.world, args),
    }
}

fn is_run(row: &Row<'_>) -> bool {
    matches!(name(&row.args, 0), "run")
}

/// How many rows stand before the next run.
fn run_len(rows: &[Row<'_>]) -> usize {
    for at in 0..rows.len() {
        if is_run(&rows[at]) {
            return at;
        }
    }
    rows.len()
}

/// How many rows say what the run begins with.
fn start_len(rows: &[Row<'_>]) -> usize {
    for at in 0..rows.len() {
        if !is_start(name(&rows[at].args, 0)) {
            return at;
        }
    }
    rows.len()
}

/// The rows that say what the run begins with, and those that tell what came of it.
pub fn parts<'a, 'b>(rows: &'a [Row<'b>]) -> (&'a [Row<'b>], &'a [Row<'b>]) {
    rows.split_at(start_len(rows).min(rows.len()))
}

/// The answers of the rows that say what the run begins with.
fn begin(
    alloc: Global,
    start: &mut Beginning,
    rows: &[Row<'_>],
    answers: &mut Vec<Octets>,
) -> Result<(), Problem> {
    for row in rows {
        answers.push(told(alloc, start.add(alloc, &row.args))?)?;
    }
    Ok(())
}

/// The answers of the rows that tell what came of the run.
fn ends(
    alloc: Global,
    driven: &Driven<MemoryWorld, RunLog>,
    rows: &[Row<'_>],
    answers: &mut Vec<Octets>,
) -> Result<(), Problem> {
    for row in rows {
        answers.push(told(alloc, end(alloc, driven, &row.args))?)?;
    }
    Ok(())
}

/// The answers of the rows that stand behind one run of the script.
fn run(
    alloc: Global,
    policy: &[u8],
    script: &[u8],
    rows: &[Row<'_>],
    answers: &mut Vec<Octets>,
) -> Result<(), Problem> {
    let (before, after) = parts(rows);
    let mut start = Beginning::new(alloc);
    begin(alloc, &mut start, before, answers)?;
    let driven = start.drive(alloc, policy, script)?;
    ends(alloc, &driven, after, answers)
}

/// The answers of the rows behind a policy: runs under it, each with the rows that follow it.
pub fn block(alloc: Global, args: &[Arg<'_>], rows: &[Row<'_>]) -> Result<Vec<Octets>, Problem> {
    let mut answers = Vec::new(alloc);
    for at in 0..rows.len() {
        if is_run(&rows[at]) {
            let rest = &rows[at + 1..];
            let here = &rest[..run_len(rest).min(rest.len())];
            answers.push(told(alloc, bytes(alloc, b"done"))?)?;
            run(
                alloc,
                text(args, 1),
                text(&rows[at].args, 1),
                here,
                &mut answers,
            )?;
        } else if at == 0 {
            return Err(Problem::NoCall);
        }
    }
    Ok(answers)
}
