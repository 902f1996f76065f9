// The world in memory, asked a step after the other.
ghost use Rattle.box_world.specs.Calls.{IsDuty, IsStream, numbers_after};
ghost use Rattle.std.specs.Prelude.{IfOk, OnOk, [], ◌++◌, ◌<◌, ◌∷◌, ◌≡◌};

use awk_text::octets::Octets;
use awk_text::place::Place;
use box_world::ask::{Ask, Mode, Reply, Request};
use box_world::memory_world::MemoryWorld;
use box_world::world::World;
use library_calls::args::{name, number, octets, text};
use library_calls::problem::Problem;
use library_calls::row::{Arg, Row};
use library_calls::shown::{Shown, bytes, show, told};
use std::alloc::Global;

/// A reply, as rows write it.
pub fn show_reply(alloc: Global, reply: &Reply) -> Shown {
    match reply {
        Reply::Opened(number) => show(alloc, *number),
        Reply::Status(status) => show(alloc, *status),
        Reply::Bytes(text) | Reply::Value(text) => bytes(alloc, text.bytes()),
        Reply::End => bytes(alloc, b"end"),
        Reply::Done => bytes(alloc, b"done"),
        Reply::Failed => bytes(alloc, b"failed"),
    }
}

/// The reply to a request that stands nowhere in a script.
pub fn reply_to<W: World>(world: &mut W, request: Request) -> Result<Reply, Problem>
    requires { IsDuty (W.open_numbers world.old) request }
    ensures { IfOk result (λ reply. W.open_numbers world.new ≡ numbers_after request reply (W.open_numbers world.old)) }
{
    let ask = Ask {
        place: Place { line: 1, column: 9 },
        given: false,
        request,
    };
    Ok(world.ask(&ask)?)
}

/// The number of what is opened.
fn open<W: World>(alloc: Global, world: &mut W, mode: Mode, name: &[u8]) -> Result<u32, Problem>
    ensures { IfOk result (λ n. W.open_numbers world.new ≡ W.open_numbers world.old ++ n ∷ []) }
{
    let open = Request::Open(mode, octets(alloc, name)?);
    match reply_to(world, open)? {
        Reply::Opened(number) => Ok(number),
        _ => Err(Problem::NotDone),
    }
}

fn put_to<W: World>(alloc: Global, world: &mut W, number: u32, bytes: &[u8]) -> Result<(), Problem>
    requires { IsStream (W.open_numbers world.old) number }
    ensures { OnOk result (W.open_numbers world.new ≡ W.open_numbers world.old) }
{
    let put = Request::Put(number, octets(alloc, bytes)?);
    match reply_to(world, put)? {
        Reply::Done => Ok(()),
        _ => Err(Problem::NotDone),
    }
}

/// Opens the file, puts the bytes to it and shuts it. Answers its number.
fn write<W: World>(alloc: Global, world: &mut W, mode: Mode, name: &[u8], bytes: &[u8]) -> Shown {
    let number = open(alloc, world, mode, name)?;
    put_to(alloc, world, number, bytes)?;
    reply_to(world, Request::Shut(number))?;
    show(alloc, number)
}

/// Opens both files, and puts `a` to the first, `b` to the second and `c` again to the first.
fn write_in_turn<W: World>(alloc: Global, world: &mut W, first: &[u8], second: &[u8]) -> Shown {
    let one = open(alloc, world, Mode::Write, first)?;
    let two = open(alloc, world, Mode::Write, second)?;
    put_to(alloc, world, one, b"a")?;
    put_to(alloc, world, two, b"b")?;
    put_to(alloc, world, one, b"c")?;
    bytes(alloc, b"done")
}

/// Opens the command to be written to, puts the bytes to it and shuts it. Answers the last reply.
fn feed<W: World>(alloc: Global, world: &mut W, command: &[u8], bytes: &[u8]) -> Shown {
    let number = open(alloc, world, Mode::RunOut, command)?;
    put_to(alloc, world, number, bytes)?;
    show_reply(alloc, &reply_to(world, Request::Shut(number))?)
}

/// Reads once from the stream, and adds the reply in brackets.
fn read_on<W: World>(
    alloc: Global,
    world: &mut W,
    number: u32,
    out: &mut Vec<u8>,
) -> Result<(), Problem>
    requires { IsStream (W.open_numbers world.old) number }
    ensures { OnOk result (W.open_numbers world.new ≡ W.open_numbers world.old) }
{
    let reply = reply_to(world, Request::Next(number))?;
    let shown = show_reply(alloc, &reply)?;
    out.push(b'[')?;
    out.extend_from_slice(shown.as_slice())?;
    out.push(b']')?;
    Ok(())
}

/// Opens what is to be read, reads three times and shuts it. Answers the later replies.
fn read<W: World>(alloc: Global, world: &mut W, mode: Mode, name: &[u8]) -> Shown {
    let number = open(alloc, world, mode, name)?;
    let mut shown = Vec::new(alloc);
    read_on(alloc, world, number, &mut shown)?;
    read_on(alloc, world, number, &mut shown)?;
    read_on(alloc, world, number, &mut shown)?;
    let shut = show_reply(alloc, &reply_to(world, Request::Shut(number))?)?;
    shown.extend_from_slice(shut.as_slice())?;
    Ok(shown)
}

/// Reads once from a standard stream.
fn next<W: World>(alloc: Global, world: &mut W, number: u32) -> Shown
    requires { number < 3 }
{
    show_reply(alloc, &reply_to(world, Request::Next(number))?)
}

fn env<W: World>(alloc: Global, world: &mut W, name: &[u8]) -> Shown {
    let name = octets(alloc, name)?;
    show_reply(alloc, &reply_to(world, Request::Env(name))?)
}

fn assign<W: World>(alloc: Global, world: &mut W, name: &[u8], text: &[u8]) -> Shown {
    let name = octets(alloc, name)?;
    let request = Request::Assign(name, octets(alloc, text)?);
    show_reply(alloc, &reply_to(world, request)?)
}

fn run<W: World>(alloc: Global, world: &mut W, command: &[u8]) -> Shown {
    let command = octets(alloc, command)?;
    show_reply(alloc, &reply_to(world, Request::System(command))?)
}

/// The number of a standard stream.
fn standard(number: i64) -> Result<u32, Problem>
    ensures { IfOk result (λ n. n < 3) }
{
    match number {
        0 => Ok(0),
        1 => Ok(1),
        2 => Ok(2),
        _ => Err(Problem::NoArgument),
    }
}

fn put<W: World>(alloc: Global, world: &mut W, number: u32, bytes: &[u8]) -> Shown
    requires { number < 3 }
{
    let bytes = octets(alloc, bytes)?;
    show_reply(alloc, &reply_to(world, Request::Put(number, bytes))?)
}

fn shut<W: World>(alloc: Global, world: &mut W, number: u32) -> Shown
    requires { number < 3 }
{
    show_reply(alloc, &reply_to(world, Request::Shut(number))?)
}

/// From now on the command prints this output and has this status.
fn put_command(
    alloc: Global,
    world: &mut MemoryWorld,
    command: &[u8],
    output: &[u8],
    status: i64,
) -> Shown {
    if status < 0 || status > 256 {
        return Err(Problem::NoArgument);
    }
    let command = octets(alloc, command)?;
    world.put_command(command, octets(alloc, output)?, status)?;
    bytes(alloc, b"done")
}

fn fail_at(alloc: Global, world: &mut MemoryWorld, number: i64) -> Shown {
    let Ok(number) = usize::try_from(number) else {
        return Err(Problem::NoArgument);
    };
    world.fail_at(number);
    bytes(alloc, b"done")
}

fn fail_from(alloc: Global, world: &mut MemoryWorld, number: i64) -> Shown {
    let Ok(number) = usize::try_from(number) else {
        return Err(Problem::NoArgument);
    };
    world.fail_from(number);
    bytes(alloc, b"done")
}

fn put_file(alloc: Global, world: &mut MemoryWorld, name: &[u8], contents: &[u8]) -> Shown {
    let name = octets(alloc, name)?;
    world.put_file(name, octets(alloc, contents)?)?;
    bytes(alloc, b"done")
}

fn put_env(alloc: Global, world: &mut MemoryWorld, name: &[u8], value: &[u8]) -> Shown {
    let name = octets(alloc, name)?;
    world.put_env(name, octets(alloc, value)?)?;
    bytes(alloc, b"done")
}

fn put_input(alloc: Global, world: &mut MemoryWorld, contents: &[u8]) -> Shown {
    world.put_input(octets(alloc, contents)?)?;
    bytes(alloc, b"done")
}

fn chunk(alloc: Global, world: &mut MemoryWorld, number: i64) -> Shown {
    match usize::try_from(number) {
        Ok(number) if number > 0 => {
            world.chunk(number);
            bytes(alloc, b"done")
        }
        _ => Err(Problem::NoArgument),
    }
}

/// What is left in the world.
pub fn left(alloc: Global, world: &MemoryWorld, args: &[Arg<'_>]) -> Shown {
    match name(args, 0) {
        "output" => bytes(alloc, world.output()),
        "errors" => bytes(alloc, world.errors()),
        "asks" => show(alloc, world.asked().len()),
        "file" => bytes(alloc, world.file(text(args, 1)).unwrap_or(b"none")),
        "fed" => bytes(alloc, world.fed(text(args, 1)).unwrap_or(b"none")),
        _ => Err(Problem::NoCall),
    }
}

/// Says what the world begins with, or what happens to it between the asks.
pub fn prepare(alloc: Global, world: &mut MemoryWorld, args: &[Arg<'_>]) -> Shown {
    match name(args, 0) {
        "command" => put_command(alloc, world, text(args, 1), text(args, 2), number(args, 3)?),
        "put_file" => put_file(alloc, world, text(args, 1), text(args, 2)),
        "put_env" => put_env(alloc, world, text(args, 1), text(args, 2)),
        "put_input" => put_input(alloc, world, text(args, 1)),
        "chunk" => chunk(alloc, world, number(args, 1)?),
        "fail_at" => fail_at(alloc, world, number(args, 1)?),
        "fail_from" => fail_from(alloc, world, number(args, 1)?),
        _ => left(alloc, world, args),
    }
}

/// A step on files and commands.
fn stream_step(alloc: Global, world: &mut MemoryWorld, args: &[Arg<'_>]) -> Shown {
    match name(args, 0) {
        "write" => write(alloc, world, Mode::Write, text(args, 1), text(args, 2)),
        "append" => write(alloc, world, Mode::Append, text(args, 1), text(args, 2)),
        "write_in_turn" => write_in_turn(alloc, world, text(args, 1), text(args, 2)),
        "read" => read(alloc, world, Mode::Read, text(args, 1)),
        "read_command" => read(alloc, world, Mode::RunIn, text(args, 1)),
        "feed" => feed(alloc, world, text(args, 1), text(args, 2)),
        _ => prepare(alloc, world, args),
    }
}

fn step(alloc: Global, world: &mut MemoryWorld, args: &[Arg<'_>]) -> Shown {
    match name(args, 0) {
        "run" => run(alloc, world, text(args, 1)),
        "put" => put(alloc, world, standard(number(args, 1)?)?, text(args, 2)),
        "next" => next(alloc, world, standard(number(args, 1)?)?),
        "shut" => shut(alloc, world, standard(number(args, 1)?)?),
        "env" => env(alloc, world, text(args, 1)),
        "assign" => assign(alloc, world, text(args, 1), text(args, 2)),
        _ => stream_step(alloc, world, args),
    }
}

/// The answers of the steps in the world.
fn answers(
    alloc: Global,
    world: &mut MemoryWorld,
    steps: &[Row<'_>],
) -> Result<Vec<Octets>, Problem> {
    let mut answers = Vec::new(alloc);
    for row in steps {
        answers.push(told(alloc, step(alloc, world, &row.args))?)?;
    }
    Ok(answers)
}

/// The answers of the steps, in a world that begins without files and commands.
pub fn block(alloc: Global, steps: &[Row<'_>]) -> Result<Vec<Octets>, Problem> {
    let mut world = MemoryWorld::new(alloc);
    answers(alloc, &mut world, steps)
}
