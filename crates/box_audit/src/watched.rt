// A world that asks another world, and writes a line for each request that a policy decides on.
ghost use Rattle.std.specs.Prelude.{◌≡◌, [], None, Some, is_some, IfNone, IfOk, IfSome, IsSome, OnErr};
ghost use Rattle.box_world.specs.Calls.{IsDuty};
ghost use Rattle.box_audit.specs.Audit.{BreaksOff, Grows, log_end_of, numbers_told};
ghost use Rattle.box_audit.specs.Laws.{Follows-append, Follows-none, Follows-open, Stops-later};
ghost use Rattle.box_audit.specs.Follows.{Follows, opens};
ghost use Rattle.box_audit.specs.Steps.{AreLines, HasNoLine, Lacks, Owes, Passes};
ghost use Rattle.box_audit.specs.Stops.{Stops};
ghost use Rattle.box_monitor.specs.Subjects.{subject_of};

use crate::lines::{Lines, lines_of};
use awk_text::Memory;
use box_monitor::log_end::LogEnd;
use box_monitor::write::write_line;
use box_world::ask::{Ask, Reply, Request, Stop};
use box_world::world::World;
use std::alloc::Global;
use std::io::Write;
use std::marker::Model;

/// How an audit stopped.
#[derive(Clone, Copy, Debug, PartialEq, Eq, Drop)]
pub struct Halt {
    /// How the log stood.
    pub log_end: LogEnd,
    /// Whether the ask that it stopped at has opened a stream, of which no reply told.
    pub has_opened: bool,
}

/// A world that stands before another one and tells a log of what it asks it.
///
/// Every ask goes to the world behind as it came, and the answer comes back as it is. A request to open, to run, for a
/// name of the environment or for an assignment has a line, which is written and flushed once its reply is there and
/// before that is handed on: its place, its kind, `ok` or `failed`, and its path, command or name. So where the machine
/// stops between a request and its line, that line is not in the log. Where there is no log, none is written.
///
/// Where a write or a flush of the log fails, the answer is `Stop::Log`: the world behind was asked, and its reply is
/// not handed on. From then on, and after a `Stop::Log` of the world behind, every ask is answered `Stop::Log` and does
/// nothing.
#[derive(Drop)]
pub struct Watched<W: World, L: Write> {
    alloc: Global,
    world: W,
    log: Option<L>,
    // How it stood at the first `Stop::Log`.
    halt: Option<Halt>,
}

impl<W: World, L: Write> Model for Watched<W, L> {
    ghost use Rattle.box_audit.specs.Audit.{Audit};

    ghost Value = { Audit W L };

    ghost view = { λ w. record { world = w.world; log = w.log; halt = w.halt } };
}

fn has_opened(request: &Request, reply: &Reply) -> bool
    ensures { result ≡ opens request.now reply.now }
{
    match (request, reply) {
        (Request::Open(_, _), Reply::Opened(_)) => true,
        _ => false,
    }
}

impl<W: World, L: Write> Watched<W, L> {
    /// A world before this one, which was asked nothing yet, with the log where there is one. Takes no memory.
    pub fn new(alloc: Global, world: W, log: Option<L>) -> Watched<W, L>
        ensures { result ≡ record { world = world; log = log; halt = None } }
    {
        Watched {
            alloc,
            world,
            log,
            halt: None,
        }
    }

    /// How the log stands: `Whole` as long as each write and flush has succeeded. Takes no memory.
    pub fn log_end(&self) -> LogEnd
        ensures { result ≡ log_end_of self.now.halt }
    {
        match self.halt {
            Some(halt) => halt.log_end,
            None => LogEnd::Whole,
        }
    }

    /// The world behind and the log, given back. Takes no memory.
    pub fn into_parts(self) -> (W, Option<L>)
        ensures { result ≡ (self.world, self.log) }
    {
        (self.world, self.log)
    }

    fn has_stopped(&self) -> bool
        ensures { result ≡ is_some self.now.halt }
    {
        self.halt.is_some()
    }

    // Asks the world behind.
    fn pass(&mut self, ask: &Ask) -> Result<Reply, Stop>
        requires { IsDuty (W.open_numbers self.old.world) ask.now.request }
        ensures { Passes W.follows W.has_stopped W.open_numbers W.stops W.lacks L.contents self.old ask.now result
            self.new }
    {
        let answer = self.world.ask(ask);
        if let Err(Stop::Log) = answer {
            self.halt = Some(Halt {
                log_end: LogEnd::Whole,
                has_opened: false,
            });
        }
        answer
    }

    // Writes a line, where there is a log.
    fn tell(&mut self, line: &[u8]) -> LogEnd
        ensures world { self.new.world ≡ self.old.world }
        ensures halt { self.new.halt ≡ self.old.halt }
        ensures whole { result ≡ LogEnd.Whole → Grows L.contents self.old.log self.new.log line.now }
        ensures broken { ¬ (result ≡ LogEnd.Whole) →
            BreaksOff L.contents result self.old.log self.new.log [] line.now }
    {
        match &mut self.log {
            Some(log) => write_line(log, line),
            None => LogEnd::Whole,
        }
    }

    // Both lines of an ask, where there is a log.
    fn lines_for(&self, ask: &Ask) -> Result<Option<Lines>, Memory>
        ensures lines { IfOk result (λ lines. IfSome lines (AreLines ask.now)) }
        ensures none { IfOk result (λ lines. IfNone lines (HasNoLine self.now ask.now)) }
        ensures memory { OnErr result (IsSome self.now.log × IsSome (subject_of ask.now.request)) }
    {
        if self.log.is_none() {
            return Ok(None);
        }
        lines_of(self.alloc, ask)
    }

    // Asks the world behind, and writes the line that its reply picks.
    fn pass_and_tell(&mut self, ask: &Ask, lines: &Lines) -> Result<Reply, Stop>
        requires duty { IsDuty (W.open_numbers self.old.world) ask.now.request }
        requires going { self.old.halt ≡ None }
        requires lines { AreLines ask.now lines.now }
        ensures { Owes W.follows W.has_stopped W.open_numbers W.stops W.lacks L.contents self.old ask.now result
            self.new }
    {
        let reply = match self.pass(ask) {
            Ok(reply) => reply,
            Err(stop) => return Err(stop),
        };
        match self.tell(lines.line(&reply)) {
            LogEnd::Whole => Ok(reply),
            log_end => {
                self.stop_untold(ask, reply, log_end);
                Err(Stop::Log)
            }
        }
    }

    // Stops at an ask whose line the log did not take; its reply goes to nobody.
    fn stop_untold(&mut self, ask: &Ask, reply: Reply, log_end: LogEnd)
        ensures { self.new ≡ record self.old {
          halt = Some (record { log_end = log_end; has_opened = opens ask.now.request reply });
        } }
    {
        let has_opened = has_opened(&ask.request, &reply);
        self.halt = Some(Halt {
            log_end,
            has_opened,
        });
    }

    // Asks the world behind for what has no line.
    fn pass_untold(&mut self, ask: &Ask) -> Result<Reply, Stop>
        requires duty { IsDuty (W.open_numbers self.old.world) ask.now.request }
        requires going { self.old.halt ≡ None }
        requires none { HasNoLine self.old ask.now }
        ensures { Owes W.follows W.has_stopped W.open_numbers W.stops W.lacks L.contents self.old ask.now result
            self.new }
    {
        self.pass(ask)
    }

    // Answers an ask where it has not stopped.
    fn answer(&mut self, ask: &Ask) -> Result<Reply, Stop>
        requires duty { IsDuty (W.open_numbers self.old.world) ask.now.request }
        requires going { self.old.halt ≡ None }
        ensures { Owes W.follows W.has_stopped W.open_numbers W.stops W.lacks L.contents self.old ask.now result
            self.new }
    {
        match self.lines_for(ask) {
            Ok(Some(lines)) => self.pass_and_tell(ask, &lines),
            Ok(None) => self.pass_untold(ask),
            Err(_) => Err(Stop::Memory),
        }
    }
}

impl<W: World, L: Write> World for Watched<W, L> {
    ghost follows = { Follows W.follows W.has_stopped L.contents };

    ghost open_numbers = { λ a. numbers_told a.halt (W.open_numbers a.world) };

    ghost has_stopped = { λ a. is_some a.halt };

    ghost stops = { Stops W.follows W.has_stopped W.stops L.contents };

    ghost lacks = { Lacks W.lacks };

    /// Asks the world behind, and writes the line of a request that a policy decides on.
    ///
    /// Answers `Stop::Memory` where memory for a line is refused, before anything is asked, and `Stop::Log` where the
    /// log does not take the line whole; a `Stop` of the world behind comes back as it is.
    fn ask(&mut self, ask: &Ask) -> Result<Reply, Stop> {
        if self.has_stopped() {
            return Err(Stop::Log);
        }
        self.answer(ask)
    }

    ghost follows_none = { Follows-none W.follows W.has_stopped L.contents W.follows_none };

    ghost follows_append = { Follows-append W.follows W.has_stopped L.contents W.follows_append };

    ghost follows_open = { Follows-open W.follows W.has_stopped L.contents W.open_numbers W.follows_open };

    ghost stops_later = { Stops-later W.follows W.has_stopped L.contents W.follows_append W.stops W.stops_later };
}
