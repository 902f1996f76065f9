// A world that asks another world what the policy allows, and logs the rest.
ghost use Rattle.std.specs.Prelude.{◌≡◌, [], ◌∷◌, None, Some, is_some, unwrap_or};
ghost use Rattle.std.specs.Prelude.{IfOk, OnErr, OnOk, IsErrOf, IsNone, IsSome, IsTrue};
ghost use Rattle.box_world.specs.Calls.{IsDuty, IsFitting, MarksStop};
ghost use Rattle.box_world.specs.declared.ask.Reply.TheVariants.{Failed};
ghost use Rattle.box_policy.specs.Counts.{cleared};
ghost use Rattle.box_monitor.specs.Denials.{after_ask, denial_of, with_noted};
ghost use Rattle.box_monitor.specs.Laws.{Follows-none, Follows-append, Follows-open, Stops-later};
ghost use Rattle.box_monitor.specs.Lacks.{Lacks};
ghost use Rattle.box_monitor.specs.Follows.{Follows};
ghost use Rattle.box_monitor.specs.Refusals.{Breaks, Tells};
ghost use Rattle.box_monitor.specs.Stops.{Stops};
ghost use Rattle.box_monitor.specs.declared.log_end.LogEnd.TheVariants.{Whole};

use crate::denial::{Denial, Ruling, ruling_of};
use crate::judge::Judge;
use crate::line::line_of;
use crate::log_end::LogEnd;
use crate::write::write_line;
use awk_hash::Seed;
use box_policy::policy::Policy;
use box_world::ask::{Ask, Reply, Stop};
use box_world::world::World;
use std::alloc::Global;
use std::io::Write;
use std::marker::Model;

/// A world that stands before another one and decides by a policy what that one is asked.
///
/// A request to open, to run, for a name of the environment or for an assignment is decided on. One
/// that the policy denies is answered `Failed`, and the log gains its line: its place, its kind, the
/// rule that denies it or `none`, and its path, command or name. All else goes to the world behind as
/// it came, and the answer comes back as it is. An answer, `Failed` too, counts for the rule that
/// allowed its request; a `Stop` does not.
///
/// Where a write or a flush of the log fails, the answer is `Stop::Log`. From then on, and after a
/// `Stop::Log` of the world behind, every ask is answered `Stop::Log` and does nothing.
#[derive(Drop)]
pub struct Monitor<W: World, L: Write> {
    judge: Judge,
    world: W,
    log: L,
    denials: u64,
    // How the log stood at the first `Stop::Log`.
    stop: Option<LogEnd>,
    alloc: Global,
}

impl<W: World, L: Write> Model for Monitor<W, L> {
    ghost use Rattle.box_monitor.specs.Watch.{Watch};

    ghost Value = { Watch W L };

    ghost view = { λ m. record {
      policy = m.judge;
      world = m.world;
      log = m.log;
      denials = m.denials;
      stop = m.stop;
    } };
}

impl<W: World, L: Write> Monitor<W, L> {
    /// A monitor before this world, which has denied nothing yet, and of whose policy no rule has
    /// allowed anything. It keeps decisions in a table that hashes by a fixed seed. Takes no memory.
    pub fn new(alloc: Global, policy: Policy, world: W, log: L) -> Monitor<W, L>
        ensures { result ≡
            record { policy = cleared policy; world = world; log = log; denials = 0; stop = None } }
    {
        Monitor::with_seed(alloc, Seed::of(0), policy, world, log)
    }

    /// The same, with a table that hashes by this seed. Takes no memory.
    pub fn with_seed(alloc: Global, seed: Seed, policy: Policy, world: W, log: L) -> Monitor<W, L>
        ensures { result ≡
            record { policy = cleared policy; world = world; log = log; denials = 0; stop = None } }
    {
        Monitor {
            judge: Judge::new(seed, policy),
            world,
            log,
            denials: 0,
            stop: None,
            alloc,
        }
    }

    /// The policy with the counts of the asks made, the world behind and the log, given back. Takes no
    /// memory.
    pub fn into_parts(self) -> (Policy, W, L)
        ensures { result ≡ (self.policy, self.world, self.log) }
    {
        (self.judge.into_policy(), self.world, self.log)
    }

    /// How many asks were denied and answered; it stays at 2^64 - 1 from there on. Takes no memory.
    pub fn denials(&self) -> u64
        ensures { result ≡ self.now.denials }
    {
        self.denials
    }

    /// How the log stands: `Whole` as long as each write and flush has succeeded. Takes no memory.
    pub fn log_end(&self) -> LogEnd
        ensures { result ≡ unwrap_or self.now.stop Whole }
    {
        self.stop.unwrap_or(LogEnd::Whole)
    }

    // Logs a denied ask.
    fn refuse(&mut self, denial: &Denial<'_>) -> Result<Reply, Stop>
        ensures ok { IfOk result
            (λ reply. (reply ≡ Failed) × Tells L.contents self.old denial.now self.new) }
        ensures log { IsErrOf result Stop.Log → Breaks L.contents self.old denial.now self.new }
        ensures memory { IsErrOf result Stop.Memory → self.new ≡ self.old }
    {
        let Ok(line) = line_of(self.alloc, denial) else {
            return Err(Stop::Memory);
        };
        match write_line(&mut self.log, line.as_slice()) {
            LogEnd::Whole => {
                self.denials = self.denials.saturating_add(1);
                Ok(Reply::Failed)
            }
            end => {
                self.stop = Some(end);
                Err(Stop::Log)
            }
        }
    }

    // Asks the world behind, and counts its answer for the rule that allows the ask.
    fn pass(&mut self, ask: &Ask, rule: Option<u32>) -> Result<Reply, Stop>
        requires { IsDuty (W.open_numbers self.old.world) ask.now.request }
        ensures same { (self.new.log ≡ self.old.log) × (self.new.denials ≡ self.old.denials) }
        ensures counted { OnOk result (self.new.policy ≡ with_noted rule self.old.policy) }
        ensures uncounted { OnErr result (self.new.policy ≡ self.old.policy) }
        ensures ok { IfOk result
            (λ reply. W.follows self.old.world ((ask.now, reply) ∷ []) self.new.world) }
        ensures fits { IfOk result
            (λ reply. IsFitting (W.open_numbers self.old.world) ask.now.request reply) }
        ensures err { OnErr result (W.follows self.old.world [] self.new.world) }
        ensures log { IsErrOf result Stop.Log →
            (self.new.stop ≡ Some Whole) × W.stops self.old.world [] ask.now self.new.world }
        ensures goes { ¬ IsErrOf result Stop.Log → (self.new.stop ≡ self.old.stop)
            × (W.has_stopped self.new.world ≡ W.has_stopped self.old.world) }
        ensures lacks { IsErrOf result Stop.Memory →
            W.lacks self.old.world ask.now self.new.world }
    {
        match self.world.ask(ask) {
            Ok(reply) => {
                self.note(rule);
                Ok(reply)
            }
            Err(stop) => {
                if let Stop::Log = stop {
                    self.stop = Some(LogEnd::Whole);
                }
                Err(stop)
            }
        }
    }

    // Counts one more request for the rule that allowed it, where there is one.
    fn note(&mut self, rule: Option<u32>)
        ensures { self.new ≡ record self.old { policy = with_noted rule self.old.policy } }
    {
        if let Some(rule) = rule {
            self.judge.note(rule);
        }
    }
}

impl<W: World, L: Write> World for Monitor<W, L> {
    ghost follows = { Follows W.follows W.has_stopped L.contents };

    ghost open_numbers = { λ m. W.open_numbers m.world };

    ghost has_stopped = { λ m. is_some m.stop };

    ghost stops = { Stops W.stops L.contents };

    ghost lacks = { Lacks W.lacks };

    /// Passes the ask on where the policy does not deny it, and else logs it and answers `Failed`.
    ///
    /// Answers `Stop::Memory` where memory for a line is refused, before anything is written, and
    /// `Stop::Log` where the log does not take the line whole; a `Stop` of the world behind comes
    /// back as it is.
    fn ask(&mut self, ask: &Ask) -> Result<Reply, Stop>
        requires { IsDuty (W.open_numbers self.old.world) ask.now.request }

        // What a world owes.
        ensures ok { IfOk result (λ reply.
            Follows W.follows W.has_stopped L.contents self.old ((ask.now, reply) ∷ []) self.new) }
        ensures fits { IfOk result
            (λ reply. IsFitting (W.open_numbers self.old.world) ask.now.request reply) }
        ensures err { OnErr result
            (Follows W.follows W.has_stopped L.contents self.old [] self.new) }
        ensures log { IsErrOf result Stop.Log → Stops W.stops L.contents self.old [] ask.now self.new }
        ensures stopped { MarksStop result (is_some self.old.stop) (is_some self.new.stop) }

        // Once it has stopped it does nothing.
        ensures idle { IsTrue (is_some self.old.stop) → self.new ≡ self.old }

        // A denied ask does not reach the world behind, and an allowed one does not reach the log.
        ensures denied { IsSome (denial_of self.old.policy ask.now) →
            self.new.world ≡ self.old.world }
        ensures allowed { IsNone (denial_of self.old.policy ask.now) →
            (self.new.log ≡ self.old.log) × (self.new.denials ≡ self.old.denials) }

        // Memory was wanting for a line of the log, or in the world behind.
        ensures lacks { IsErrOf result Stop.Memory → Lacks W.lacks self.old ask.now self.new }

        // Want of memory changes neither the log nor what was counted.
        ensures memory { IsErrOf result Stop.Memory → (self.new.log ≡ self.old.log)
            × (self.new.denials ≡ self.old.denials) × (self.new.stop ≡ self.old.stop) }
    {
        if self.stop.is_some() {
            return Err(Stop::Log);
        }
        match ruling_of(self.alloc, &mut self.judge, ask) {
            Ruling::Denied(denial) => self.refuse(&denial),
            Ruling::Passed(rule) => self.pass(ask, rule),
        }
    }

    ghost follows_none = { Follows-none W.follows W.has_stopped L.contents W.follows_none };

    ghost follows_append = { Follows-append W.follows W.has_stopped L.contents W.follows_append };

    ghost follows_open = { Follows-open W.follows W.has_stopped L.contents W.open_numbers W.follows_open };

    ghost stops_later = { Stops-later W.follows W.has_stopped L.contents W.stops W.stops_later };
}
