// The world of the system on real files and commands, which no contract speaks of.
use awk_text::Memory;
use awk_text::octets::Octets;
use awk_text::place::Place;
use box_os::{OsWorld, write_out};
use box_world::ask::{Ask, Mode, Reply, Request, Stop};
use box_world::world::World;
use std::alloc::Global;
use std::io::ErrorKind;
use std::os::fd::AsRawFd;
use std::test::Fail;
use std::{env, fs, io};

fn ask_of(request: Request) -> Ask {
    Ask {
        place: Place { line: 1, column: 1 },
        given: false,
        request,
    }
}

fn octets(alloc: Global, bytes: &[u8]) -> Result<Octets, Memory> {
    Ok(Octets::of(alloc, bytes)?)
}

// The number that a stream is opened with, or 0.
fn opened(alloc: Global, world: &mut OsWorld, mode: Mode, text: &[u8]) -> Result<u32, Stop> {
    match world.ask(&ask_of(Request::Open(mode, octets(alloc, text)?)))? {
        Reply::Opened(number) => Ok(number),
        _ => Ok(0),
    }
}

// How many bytes one reading gives: none at the end, and none where it fails.
fn read_once(world: &mut OsWorld, number: u32) -> Result<usize, Stop> {
    match world.ask(&ask_of(Request::Next(number)))? {
        Reply::Bytes(bytes) => Ok(bytes.bytes().len()),
        _ => Ok(0),
    }
}

fn is_put(alloc: Global, world: &mut OsWorld, number: u32, bytes: &[u8]) -> Result<bool, Stop> {
    let reply = world.ask(&ask_of(Request::Put(number, octets(alloc, bytes)?)))?;
    Ok(matches!(&reply, Reply::Done))
}

fn status_in(reply: &Reply) -> Option<i64> {
    match reply {
        Reply::Status(status) => Some(*status),
        _ => None,
    }
}

// The status of the command whose stream is closed.
fn shut(world: &mut OsWorld, number: u32) -> Result<Option<i64>, Stop> {
    Ok(status_in(&world.ask(&ask_of(Request::Shut(number)))?))
}

fn run(alloc: Global, world: &mut OsWorld, command: &[u8]) -> Result<Option<i64>, Stop> {
    let reply = world.ask(&ask_of(Request::System(octets(alloc, command)?)))?;
    Ok(status_in(&reply))
}

// What comes of a stream that is opened, written to and closed: its number, and whether all was put.
fn written(
    alloc: Global,
    world: &mut OsWorld,
    mode: Mode,
    name: &[u8],
    text: &[u8],
) -> Result<(u32, bool), Stop> {
    let number = opened(alloc, world, mode, name)?;
    let done = is_put(alloc, world, number, text)?;
    shut(world, number)?;
    Ok((number, done))
}

// A world is let go on each way out of who holds it: so a test makes one for one call alone.

fn written_twice(alloc: Global, world: &mut OsWorld) -> Result<((u32, bool), (u32, bool)), Stop> {
    let first = written(alloc, world, Mode::Write, b"written", b"a\n")?;
    let second = written(alloc, world, Mode::Append, b"./written", b"\xff")?;
    Ok((first, second))
}

#[test]
fn writes_files(rt: HostRuntime) -> Result<(), Fail> {
    fs::write(&rt, "written", "what was there before")?;
    let both = written_twice(rt.alloc(), &mut OsWorld::new(rt.clone()?))?;
    assert_eq!(rt; both, ((3, true), (4, true)));
    assert_eq!(rt; fs::read(&rt, "written")?.as_slice(), b"a\n\xff".as_slice());
    fs::remove_file(&rt, "written")?;
    Ok(())
}

fn first_pieces(alloc: Global, world: &mut OsWorld, name: &[u8]) -> Result<[usize; 3], Stop> {
    let number = opened(alloc, world, Mode::Read, name)?;
    let sizes = [
        read_once(world, number)?,
        read_once(world, number)?,
        read_once(world, number)?,
    ];
    shut(world, number)?;
    Ok(sizes)
}

#[test]
fn reads_files_in_pieces(rt: HostRuntime) -> Result<(), Fail> {
    fs::write(&rt, "long", vec![in rt.alloc(); b'a'; 10000]?)?;
    let sizes = first_pieces(rt.alloc(), &mut OsWorld::new(rt.clone()?), b"long")?;
    assert_eq!(rt; sizes, [8192, 1808, 0]);
    fs::remove_file(&rt, "long")?;
    Ok(())
}

#[test]
fn refuses_names(rt: HostRuntime) -> Result<(), Fail> {
    for name in [
        b"".as_slice(),
        b"a\0b".as_slice(),
        b"a\xff".as_slice(),
        b"none/a".as_slice(),
    ] {
        let number = opened(
            rt.alloc(),
            &mut OsWorld::new(rt.clone()?),
            Mode::Write,
            name,
        )?;
        assert_eq!(rt; number, 0, "{name:?}");
    }
    assert!(rt; fs::read(&rt, "a").is_err());
    Ok(())
}

#[test]
fn runs_commands(rt: HostRuntime) -> Result<(), Fail> {
    for (command, status) in [
        (b"exit 0".as_slice(), Some(0)),
        (b"exit 3".as_slice(), Some(3)),
        (b"exit 255".as_slice(), Some(255)),
        (b"kill -9 $$".as_slice(), Some(256)),
        (b"kill -13 $$".as_slice(), Some(256)),
        (b"exit\x003".as_slice(), None),
        (b"echo \xff".as_slice(), None),
    ] {
        let ended = run(rt.alloc(), &mut OsWorld::new(rt.clone()?), command)?;
        assert_eq!(rt; ended, status, "{command:?}");
    }
    Ok(())
}

// What comes of a command that is read once and closed: how much was read, and its status.
fn heard(alloc: Global, world: &mut OsWorld, command: &[u8]) -> Result<(usize, Option<i64>), Stop> {
    let number = opened(alloc, world, Mode::RunIn, command)?;
    let size = read_once(world, number)?;
    Ok((size, shut(world, number)?))
}

#[test]
fn reads_commands(rt: HostRuntime) -> Result<(), Fail> {
    for (command, told) in [
        (b"echo hi; exit 3".as_slice(), (3, Some(3))),
        (b"kill -9 $$".as_slice(), (0, Some(256))),
        // a command that goes on writing ends once nobody reads
        (b"exec yes".as_slice(), (8192, Some(256))),
    ] {
        let found = heard(rt.alloc(), &mut OsWorld::new(rt.clone()?), command)?;
        assert_eq!(rt; found, told, "{command:?}");
    }
    Ok(())
}

// What comes of a command that is written to once and closed: whether all was put, and its status.
fn fed(
    alloc: Global,
    world: &mut OsWorld,
    command: &[u8],
    bytes: &[u8],
) -> Result<(bool, Option<i64>), Stop> {
    let number = opened(alloc, world, Mode::RunOut, command)?;
    let done = is_put(alloc, world, number, bytes)?;
    Ok((done, shut(world, number)?))
}

#[test]
fn feeds_commands(rt: HostRuntime) -> Result<(), Fail> {
    let taken = fed(
        rt.alloc(),
        &mut OsWorld::new(rt.clone()?),
        b"cat >fed; exit 4",
        b"a\n",
    )?;
    assert_eq!(rt; taken, (true, Some(4)));
    assert_eq!(rt; fs::read(&rt, "fed")?.as_slice(), b"a\n".as_slice());
    fs::remove_file(&rt, "fed")?;
    // no pipe holds as much as this, so the write comes to see that nobody reads
    let much = vec![in rt.alloc(); b'b'; 10000000]?;
    let refused = fed(
        rt.alloc(),
        &mut OsWorld::new(rt.clone()?),
        b"exit 5",
        much.as_slice(),
    )?;
    assert_eq!(rt; refused, (false, Some(5)));
    Ok(())
}

// Two commands at a time, of which each reads to the end of its input. The first is closed while the
// second waits, so it would never end if the second had its pipe too.
fn all_end(alloc: Global, world: &mut OsWorld, pairs: usize) -> Result<bool, Stop> {
    for _ in 0..pairs {
        let first = opened(alloc, world, Mode::RunOut, b"exec cat")?;
        let second = opened(alloc, world, Mode::RunOut, b"exec cat")?;
        if shut(world, first)? != Some(0) || shut(world, second)? != Some(0) {
            return Ok(false);
        }
    }
    Ok(true)
}

// The number that the system gives to what is opened next: the lowest that is free.
fn lowest_descriptor(rt: &HostRuntime) -> io::Result<i32> {
    Ok(fs::File::open(rt, "/dev/null")?.as_raw_fd())
}

#[test]
fn leaves_no_descriptor_behind(rt: HostRuntime) -> Result<(), Fail> {
    let before = lowest_descriptor(&rt)?;
    let ended = all_end(rt.alloc(), &mut OsWorld::new(rt.clone()?), 500)?;
    assert_eq!(rt; (ended, lowest_descriptor(&rt)?), (true, before));
    Ok(())
}

// The length of the environment's value, where it has one.
fn value_size(alloc: Global, world: &mut OsWorld, name: &[u8]) -> Result<Option<usize>, Stop> {
    match world.ask(&ask_of(Request::Env(octets(alloc, name)?)))? {
        Reply::Value(value) => Ok(Some(value.bytes().len())),
        _ => Ok(None),
    }
}

#[test]
fn reads_the_environment(rt: HostRuntime) -> Result<(), Fail> {
    for name in [b"".as_slice(), b"PATH=".as_slice(), b"\xff".as_slice()] {
        let size = value_size(rt.alloc(), &mut OsWorld::new(rt.clone()?), name)?;
        assert_eq!(rt; size, None, "{name:?}");
    }
    let size = value_size(rt.alloc(), &mut OsWorld::new(rt.clone()?), b"PATH")?;
    assert_eq!(rt; size, env::var(&rt, "PATH").ok().map(|text| text.len()));
    Ok(())
}

#[test]
fn has_standard_streams(rt: HostRuntime) -> Result<(), Fail> {
    let output = is_put(rt.alloc(), &mut OsWorld::new(rt.clone()?), 1, b"")?;
    let errors = is_put(
        rt.alloc(),
        &mut OsWorld::new(rt.clone()?),
        2,
        b"told on standard error\n",
    )?;
    assert!(rt; output && errors);
    Ok(())
}

// A writer that takes a byte at a time, and fails after some of them, or when it is flushed.
#[derive(Drop)]
struct Faulty {
    room: usize,
    flushes: bool,
}

impl io::Write for Faulty {
    fn write(&mut self, buf: &[u8]) -> io::Result<usize> {
        if self.room == 0 {
            return Err(io::Error::from(ErrorKind::StorageFull));
        }
        if buf.is_empty() {
            return Ok(0);
        }
        self.room -= 1;
        Ok(1)
    }

    fn flush(&mut self) -> io::Result<()> {
        if self.flushes {
            Ok(())
        } else {
            Err(io::Error::from(ErrorKind::StorageFull))
        }
    }
}

#[test]
fn tells_failed_writes(rt: HostRuntime) {
    for (room, flushes, done) in [(3, true, true), (2, true, false), (3, false, false)] {
        let reply = write_out(&mut Faulty { room, flushes }, b"abc");
        assert_eq!(rt; matches!(&reply, Reply::Done), done, "{room} {flushes}");
    }
}
