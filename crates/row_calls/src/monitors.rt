// A monitor before the world in memory, asked a step after the other.
ghost use Rattle.box_world.specs.Calls.{IsDuty};
ghost use Rattle.std.specs.Prelude.{IfOk, List, ℕ};

use crate::worlds::{left, show_reply};
use awk_text::numeral::leading_digits;
use awk_text::octets::Octets;
use awk_text::place::Place;
use box_monitor::monitor::Monitor;
use box_policy::policy::Policy;
use box_world::ask::{Ask, Mode, Request};
use box_world::memory_world::MemoryWorld;
use box_world::world::World;
use library_calls::args::{bare, name, octets, text};
use library_calls::problem::Problem;
use library_calls::row::{Arg, Row};
use library_calls::shown::{Shown, bytes, show, told};
use memchr::memchr;
use std::alloc::Global;

fn part(digits: &[u8]) -> Result<u32, Problem> {
    let (_, number) = leading_digits(digits);
    match u32::try_from(number) {
        Ok(number) => Ok(number),
        Err(_) => Err(Problem::NoArgument),
    }
}

/// A place, as `1:19`.
fn place(word: &[u8]) -> Result<Place, Problem> {
    let colon = memchr(b':', word).unwrap_or(word.len());
    let (line, column) = word.split_at(colon.min(word.len()));
    Ok(Place {
        line: part(line)?,
        column: part(column.get(1..).unwrap_or(column))?,
    })
}

/// What is asked for: a word for it and a text, and of an assignment a second text.
fn request(alloc: Global, args: &[Arg<'_>]) -> Result<Request, Problem>
    ensures { IfOk result (λ request. (numbers : List ℕ) → IsDuty numbers request) }
{
    let asked = octets(alloc, text(args, 2))?;
    match name(args, 2) {
        "read" => Ok(Request::Open(Mode::Read, asked)),
        "write" => Ok(Request::Open(Mode::Write, asked)),
        "append" => Ok(Request::Open(Mode::Append, asked)),
        "read from" => Ok(Request::Open(Mode::RunIn, asked)),
        "write to" => Ok(Request::Open(Mode::RunOut, asked)),
        "system" => Ok(Request::System(asked)),
        "env" => Ok(Request::Env(asked)),
        "assign" => Ok(Request::Assign(asked, octets(alloc, text(args, 3))?)),
        "put" => Ok(Request::Put(1, asked)),
        _ => Err(Problem::NoArgument),
    }
}

fn ask<W: World>(alloc: Global, world: &mut W, args: &[Arg<'_>]) -> Shown {
    let ask = Ask {
        place: place(bare(args, 1))?,
        given: false,
        request: request(alloc, args)?,
    };
    show_reply(alloc, &world.ask(&ask)?)
}

/// The answers of the steps, up to the first that speaks of the log or of the world behind.
fn asks(
    alloc: Global,
    monitor: &mut Monitor<MemoryWorld, Vec<u8>>,
    steps: &[Row<'_>],
    answers: &mut Vec<Octets>,
) -> Result<(), Problem> {
    for row in steps {
        let answer = match name(&row.args, 0) {
            "ask" => ask(alloc, monitor, &row.args),
            "denials" => show(alloc, monitor.denials()),
            _ => return Ok(()),
        };
        answers.push(told(alloc, answer)?)?;
    }
    Ok(())
}

/// The answers of the steps that are left.
fn ends(
    alloc: Global,
    world: &MemoryWorld,
    log: &[u8],
    steps: &[Row<'_>],
    answers: &mut Vec<Octets>,
) -> Result<(), Problem> {
    for row in steps.iter().skip(answers.len()) {
        let answer = match name(&row.args, 0) {
            "log" => bytes(alloc, log),
            _ => left(alloc, world, &row.args),
        };
        answers.push(told(alloc, answer)?)?;
    }
    Ok(())
}

/// The answers of the steps that are left, of the log and the world that the monitor leaves.
fn left_by(
    alloc: Global,
    monitor: Monitor<MemoryWorld, Vec<u8>>,
    steps: &[Row<'_>],
    answers: &mut Vec<Octets>,
) -> Result<(), Problem> {
    let (_, world, log) = monitor.into_parts();
    ends(alloc, &world, &log, steps, answers)
}

/// The answers of the steps, under the policy of the line before them.
pub fn block(alloc: Global, args: &[Arg<'_>], steps: &[Row<'_>]) -> Result<Vec<Octets>, Problem> {
    let policy = Policy::read(alloc, text(args, 1))?;
    let mut monitor = Monitor::new(alloc, policy, MemoryWorld::new(alloc), Vec::new(alloc));
    let mut answers = Vec::new(alloc);
    let asked = asks(alloc, &mut monitor, steps, &mut answers);
    let left = left_by(alloc, monitor, steps, &mut answers);
    asked.and(left)?;
    Ok(answers)
}
