// What comes of a log that fails or takes little, and of a world that stops.
ghost use Rattle.std.specs.Prelude.{◌≡◌, [], false, IfOk, refl};
ghost use Rattle.std.proofs.Common.{ap, sym, ◌∙◌};
ghost use Rattle.box_world.specs.Calls.{IsDuty, open_after, open_after-append};

use awk_text::Memory;
use awk_text::octets::Octets;
use awk_text::place::Place;
use box_monitor::log_end::LogEnd;
use box_monitor::monitor::Monitor;
use box_policy::policy::Policy;
use box_world::ask::{Ask, Mode, Reply, Request, Stop};
use box_world::world::World;
use std::alloc::{AllocError, Global};
use std::io::{self, ErrorKind, Write};
use std::test::Fail;

// Opens nothing, does what it is asked to put or to run, and counts the asks. Where it has a stop,
// it answers that.
#[derive(Drop)]
struct FakeWorld {
    asks: u32,
    stop: Option<Stop>,
    has_stopped: bool,
}

impl World for FakeWorld {
    ghost follows = { λ v calls w. open_after calls [] ≡ [] };

    ghost open_numbers = { λ w. [] };

    ghost has_stopped = { λ w. w.has_stopped };

    ghost stops = { λ v calls ask w. Unit {0} };

    ghost lacks = { λ v ask w. Unit {0} };

    fn ask(&mut self, ask: &Ask) -> Result<Reply, Stop> {
        if self.has_stopped {
            return Err(Stop::Log);
        }
        self.asks = self.asks.saturating_add(1);
        if let Some(stop) = self.stop {
            self.has_stopped = stop == Stop::Log;
            return Err(stop);
        }
        match &ask.request {
            Request::Put(_, _) | Request::Shut(_) => Ok(Reply::Done),
            Request::System(_) => Ok(Reply::Status(3)),
            Request::Next(_) => Ok(Reply::End),
            Request::Open(_, _) | Request::Env(_) | Request::Assign(_, _) => Ok(Reply::Failed),
        }
    }

    ghost follows_none = { λ w. refl };

    ghost follows_append = { λ u v w xs ys p q. open_after-append xs ys [] ∙ ap (λ z. open_after ys z) p ∙ q };

    ghost follows_open = { λ v w calls p. sym p };

    ghost stops_later = { λ u v w xs ys ask p same q. tt };
}

// How a log takes what is written: at most `most` bytes a write, and it fails at the write and at the flush with these
// numbers, counted from 1.
#[derive(Clone, Copy)]
struct Taking {
    most: usize,
    bad_write: u32,
    bad_flush: u32,
}

const WHOLE: Taking = Taking {
    most: usize::MAX,
    bad_write: 0,
    bad_flush: 0,
};

impl Taking {
    fn new(most: usize, bad_write: u32, bad_flush: u32) -> Taking {
        Taking {
            most,
            bad_write,
            bad_flush,
        }
    }
}

// Takes 64 bytes in all, and no memory.
#[derive(Drop)]
struct FakeLog {
    bytes: [u8; 64],
    len: usize,
    taking: Taking,
    writes: u32,
    flushes: u32,
}

impl FakeLog {
    fn new(taking: Taking) -> FakeLog {
        FakeLog {
            bytes: [0; 64],
            len: 0,
            taking,
            writes: 0,
            flushes: 0,
        }
    }

    fn text(&self) -> &[u8] {
        &self.bytes[..self.len.min(64)]
    }
}

impl Write for FakeLog {
    fn write(&mut self, buf: &[u8]) -> io::Result<usize> {
        self.writes = self.writes.saturating_add(1);
        if self.writes == self.taking.bad_write {
            return Err(io::Error::from(ErrorKind::Interrupted));
        }
        let wanted = &buf[..buf.len().min(self.taking.most)];
        let taken = (&mut self.bytes[self.len.min(64)..]).write(wanted)?;
        self.len = self.len.saturating_add(taken);
        Ok(taken)
    }

    fn flush(&mut self) -> io::Result<()> {
        self.flushes = self.flushes.saturating_add(1);
        if self.flushes == self.taking.bad_flush {
            return Err(io::Error::from(ErrorKind::Interrupted));
        }
        Ok(())
    }
}

const NO_RULES: &[u8] = b"version = 1\nbase = \"/w\"\n";

const TWO_WRITES: &[u8] = b"version = 2
base = \"/w\"
rule = [{ effect = \"allow\", kind = \"write\", match = \"/etc/*\", limit = 2 }]
";

const LINE: &[u8] = b"1:19 write none \"/etc/x\"\n";

const TWO_LINES: &[u8] = b"1:19 write none \"/etc/x\"\n1:19 write none \"/etc/x\"\n";

fn fake_world(stop: Option<Stop>) -> FakeWorld {
    FakeWorld {
        asks: 0,
        stop,
        has_stopped: false,
    }
}

fn ask_at(line: u32, column: u32, request: Request) -> Ask
    ensures { result.request ≡ request }
{
    Ask {
        place: Place { line, column },
        given: false,
        request,
    }
}

// A file to write, which a policy without rules denies, and bytes to put, which none does.
#[derive(Clone, Copy)]
enum Asked {
    File,
    Bytes,
}

impl Asked {
    fn ask(self, alloc: Global) -> Result<Ask, Memory>
        ensures { IfOk result (λ ask. IsDuty [] ask.request) }
    {
        match self {
            Asked::File => Ok(ask_at(
                1,
                19,
                Request::Open(Mode::Write, Octets::of(alloc, b"/etc/x")?),
            )),
            Asked::Bytes => Ok(ask_at(1, 2, Request::Put(1, Octets::of(alloc, b"hi\n")?))),
        }
    }
}

#[derive(Clone, Copy, PartialEq)]
enum Told {
    Failed,
    Done,
    NoMemory,
    NoLog,
    Otherwise,
}

impl Told {
    fn of(answer: Result<Reply, Stop>) -> Told {
        match answer {
            Ok(Reply::Failed) => Told::Failed,
            Ok(Reply::Done) => Told::Done,
            Err(Stop::Memory) => Told::NoMemory,
            Err(Stop::Log) => Told::NoLog,
            _ => Told::Otherwise,
        }
    }
}

// The row of a denied ask, over whatever stands in the monitor's place: it fails, and stops nothing.
fn fails<W: World>(world: &mut W, ask: &Ask) -> bool
    requires { IsDuty (W.open_numbers world.old) ask.now.request }
{
    Told::of(world.ask(ask)) == Told::Failed
}

// Of this row only a denial reaches the monitor, so a wrong one that stops at denials stops at all.
#[test]
fn a_monitor_that_stops_at_a_denial_fails_the_row(rt: HostRuntime) -> Result<(), Fail> {
    let ask = Asked::File.ask(rt.alloc())?;
    assert!(rt; !fails(&mut fake_world(Some(Stop::Log)), &ask));
    Ok(())
}

// What a monitor is made of, and what it is asked, each with its answer. Where `again` is set, an ask that had no
// memory is asked once more, if it changed nothing.
#[derive(Drop)]
struct Row<'a> {
    policy: &'a [u8],
    stop: Option<Stop>,
    log: Taking,
    asks: &'a [(Asked, Told)],
    again: bool,
}

// What is left of it. `asks` counts those that came to the world, `used` how often the first rule allowed.
#[derive(PartialEq, Drop)]
struct Left<'a> {
    end: LogEnd,
    denials: u64,
    used: u64,
    asks: u32,
    text: &'a [u8],
}

fn answer(monitor: &mut Monitor<FakeWorld, FakeLog>, ask: &Ask, again: bool) -> Told
    requires { IsDuty [] ask.now.request }
{
    let before = monitor.denials();
    let first = Told::of(monitor.ask(ask));
    if again && first == Told::NoMemory && monitor.denials() == before {
        Told::of(monitor.ask(ask))
    } else {
        first
    }
}

fn is_as_told(
    alloc: Global,
    monitor: &mut Monitor<FakeWorld, FakeLog>,
    asks: &[(Asked, Told)],
    again: bool,
) -> Result<bool, Memory> {
    for (asked, wanted) in asks {
        let ask = asked.ask(alloc)?;
        if answer(monitor, &ask, again) != *wanted {
            return Ok(false);
        }
    }
    Ok(true)
}

// Whether the monitor answers as told, and leaves what is wanted. It is large, and is let go on each way out: so one
// function makes it, and hands it on.
fn leaves(alloc: Global, row: Row<'_>, wanted: &Left<'_>) -> Result<bool, Memory> {
    let Ok(policy) = Policy::read(alloc, row.policy) else {
        return Err(AllocError);
    };
    let mut monitor = Monitor::new(alloc, policy, fake_world(row.stop), FakeLog::new(row.log));
    let as_told = is_as_told(alloc, &mut monitor, row.asks, row.again);
    let (end, denials) = (monitor.log_end(), monitor.denials());
    let (policy, world, log) = monitor.into_parts();
    let left = Left {
        end,
        denials,
        used: policy.used(1),
        asks: world.asks,
        text: log.text(),
    };
    Ok(as_told? && left == *wanted)
}

// From the third one on the log is broken, and nothing is done.
const BREAKS: [(Asked, Told); 5] = [
    (Asked::File, Told::Failed),
    (Asked::File, Told::Failed),
    (Asked::File, Told::NoLog),
    (Asked::File, Told::NoLog),
    (Asked::Bytes, Told::NoLog),
];

// Whether the denial after `before` others breaks the log.
fn breaks(
    alloc: Global,
    log: Taking,
    before: usize,
    end: LogEnd,
    text: &[u8],
) -> Result<bool, Memory> {
    let row = Row {
        policy: NO_RULES,
        stop: None,
        log,
        asks: &BREAKS[2_usize.saturating_sub(before)..],
        again: false,
    };
    let left = Left {
        end,
        denials: before as u64,
        used: 0,
        asks: 0,
        text,
    };
    leaves(alloc, row, &left)
}

#[test]
fn a_failed_write_leaves_a_part(rt: HostRuntime) -> Result<(), Fail> {
    let alloc = rt.alloc();
    let part = LogEnd::Part;
    assert!(rt; breaks(alloc, Taking::new(usize::MAX, 1, 0), 0, part, b"")?);
    assert!(rt; breaks(alloc, Taking::new(1, 3, 0), 0, part, b"1:")?);
    assert!(rt; breaks(alloc, Taking::new(0, 0, 0), 0, part, b"")?);
    assert!(rt; breaks(alloc, Taking::new(usize::MAX, 3, 0), 2, part, TWO_LINES)?);
    Ok(())
}

#[test]
fn a_failed_flush_leaves_it_unsure(rt: HostRuntime) -> Result<(), Fail> {
    let alloc = rt.alloc();
    let unsure = LogEnd::Unsure;
    assert!(rt; breaks(alloc, Taking::new(usize::MAX, 0, 1), 0, unsure, LINE)?);
    assert!(rt; breaks(alloc, Taking::new(5, 0, 2), 1, unsure, TWO_LINES)?);
    Ok(())
}

#[test]
fn a_log_may_take_one_byte_at_a_time(rt: HostRuntime) -> Result<(), Fail> {
    let row = Row {
        policy: NO_RULES,
        stop: None,
        log: Taking::new(1, 0, 2),
        asks: &[(Asked::File, Told::Failed)],
        again: false,
    };
    let left = Left {
        end: LogEnd::Whole,
        denials: 1,
        used: 0,
        asks: 0,
        text: LINE,
    };
    assert!(rt; leaves(rt.alloc(), row, &left)?);
    Ok(())
}

#[test]
fn a_full_log_of_the_world_stops_it(rt: HostRuntime) -> Result<(), Fail> {
    let row = Row {
        policy: NO_RULES,
        stop: Some(Stop::Log),
        log: WHOLE,
        asks: &[(Asked::Bytes, Told::NoLog), (Asked::File, Told::NoLog)],
        again: false,
    };
    let left = Left {
        end: LogEnd::Whole,
        denials: 0,
        used: 0,
        asks: 1,
        text: b"",
    };
    assert!(rt; leaves(rt.alloc(), row, &left)?);
    Ok(())
}

#[test]
fn it_goes_on_where_the_world_had_no_memory(rt: HostRuntime) -> Result<(), Fail> {
    let row = Row {
        policy: NO_RULES,
        stop: Some(Stop::Memory),
        log: WHOLE,
        asks: &[(Asked::Bytes, Told::NoMemory), (Asked::File, Told::Failed)],
        again: false,
    };
    let left = Left {
        end: LogEnd::Whole,
        denials: 1,
        used: 0,
        asks: 1,
        text: LINE,
    };
    assert!(rt; leaves(rt.alloc(), row, &left)?);
    Ok(())
}

// Whether the one rule has allowed so often once this world was asked for the file that it allows.
fn counts(alloc: Global, stop: Option<Stop>, told: Told, used: u64) -> Result<bool, Memory> {
    let row = Row {
        policy: TWO_WRITES,
        stop,
        log: WHOLE,
        asks: &[(Asked::File, told)],
        again: false,
    };
    let left = Left {
        end: LogEnd::Whole,
        denials: 0,
        used,
        asks: 1,
        text: b"",
    };
    leaves(alloc, row, &left)
}

#[test]
fn an_answer_counts_and_a_stop_does_not(rt: HostRuntime) -> Result<(), Fail> {
    let alloc = rt.alloc();
    assert!(rt; counts(alloc, None, Told::Failed, 1)?);
    assert!(rt; counts(alloc, Some(Stop::Memory), Told::NoMemory, 0)?);
    assert!(rt; counts(alloc, Some(Stop::Log), Told::NoLog, 0)?);
    Ok(())
}

// Run with each allocation refused in turn: the ask that had no memory changed nothing, and the
// next one is answered.
#[test]
fn refused_memory_changes_nothing(rt: HostRuntime) {
    let row = Row {
        policy: NO_RULES,
        stop: None,
        log: WHOLE,
        asks: &[(Asked::File, Told::Failed)],
        again: true,
    };
    let left = Left {
        end: LogEnd::Whole,
        denials: 1,
        used: 0,
        asks: 0,
        text: LINE,
    };
    assert!(rt; leaves(rt.alloc(), row, &left).unwrap_or(true));
}

// Run with each allocation refused in turn: the world behind answers what is allowed, whatever memory the monitor had
// for its own.
#[test]
fn an_allowed_ask_needs_no_memory(rt: HostRuntime) {
    let row = Row {
        policy: TWO_WRITES,
        stop: None,
        log: WHOLE,
        asks: &[
            (Asked::Bytes, Told::Done),
            (Asked::File, Told::Failed),
            (Asked::File, Told::Failed),
        ],
        again: false,
    };
    let left = Left {
        end: LogEnd::Whole,
        denials: 0,
        used: 2,
        asks: 3,
        text: b"",
    };
    assert!(rt; leaves(rt.alloc(), row, &left).unwrap_or(true));
}
