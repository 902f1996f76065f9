// The requests of a run.

use awkbox::{Ask, MemoryWorld, Mode, Reply, Request};
use library_calls::args::{bare, number, text};
use library_calls::problem::Problem;
use library_calls::row::Arg;
use library_calls::shown::{Shown, bytes};
use row_calls::worlds::show_reply;
use std::alloc::Global;

fn mode_word(mode: Mode) -> &'static str {
    match mode {
        Mode::Read => "read",
        Mode::Write => "write",
        Mode::Append => "append",
        Mode::RunIn => "read from",
        Mode::RunOut => "write to",
    }
}

/// A request in a word, and the number that it has.
fn name(request: &Request) -> (&'static str, Option<u32>) {
    match request {
        Request::Open(mode, _) => (mode_word(*mode), None),
        Request::Next(number) => ("next", Some(*number)),
        Request::Put(number, _) => ("put", Some(*number)),
        Request::Shut(number) => ("shut", Some(*number)),
        Request::System(_) => ("system", None),
        Request::Env(_) => ("env", None),
        Request::Assign(_, _) => ("assign", None),
    }
}

/// The text of a request, and the second one of an assignment; the empty one where there is none.
fn texts(request: &Request) -> (&[u8], &[u8]) {
    match request {
        Request::Next(_) | Request::Shut(_) => (b"", b""),
        Request::Assign(name, value) => (name.bytes(), value.bytes()),
        Request::Open(_, text)
        | Request::Put(_, text)
        | Request::System(text)
        | Request::Env(text) => (text.bytes(), b""),
    }
}

/// Where a request stands: `1:19`, or `0:0 given`.
fn place(alloc: Global, ask: &Ask) -> Shown {
    let (line, column) = (ask.place.line, ask.place.column);
    let given = if ask.given { " given" } else { "" };
    Ok(format!(in alloc; "{line}:{column}{given}")?.into_bytes())
}

/// What is asked: `write`, or `put 3`.
fn call(alloc: Global, request: &Request) -> Shown {
    match name(request) {
        (name, Some(number)) => Ok(format!(in alloc; "{name} {number}")?.into_bytes()),
        (name, None) => bytes(alloc, name.as_bytes()),
    }
}

/// Whether the request is the one that the row tells.
fn is_told(alloc: Global, ask: &Ask, args: &[Arg<'_>]) -> Result<bool, Problem> {
    let (first, second) = texts(&ask.request);
    let is_same = first == text(args, 3) && second == text(args, 4);
    Ok(
        is_same
            && place(alloc, ask)?.as_slice() == bare(args, 2)
            && call(alloc, &ask.request)?.as_slice() == bare(args, 3),
    )
}

/// A request in one text: `1:19 put 3 [a] done`.
fn show_ask(alloc: Global, ask: &Ask, reply: &Reply) -> Shown {
    let (first, second) = texts(&ask.request);
    let mut shown = place(alloc, ask)?;
    shown.push(b' ')?;
    shown.extend_from_slice(&call(alloc, &ask.request)?)?;
    shown.extend_from_slice(b" [".as_slice())?;
    shown.extend_from_slice(first)?;
    shown.extend_from_slice(b"] [".as_slice())?;
    shown.extend_from_slice(second)?;
    shown.extend_from_slice(b"] ".as_slice())?;
    shown.extend_from_slice(&show_reply(alloc, reply)?)?;
    Ok(shown)
}

/// The reply to the request of the number that the row says, counted from 1, where that is the
/// request that the row tells; and else the request that came in its place.
pub fn asked(alloc: Global, world: &MemoryWorld, args: &[Arg<'_>]) -> Shown {
    let Ok(number) = usize::try_from(number(args, 1)?) else {
        return Err(Problem::NoArgument);
    };
    match world.asked().get(number.wrapping_sub(1)) {
        Some((ask, reply)) if is_told(alloc, ask, args)? => show_reply(alloc, reply),
        Some((ask, reply)) => show_ask(alloc, ask, reply),
        None => bytes(alloc, b"none"),
    }
}
