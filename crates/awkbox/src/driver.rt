// A script's run under a policy.
ghost use Rattle.std.specs.Prelude.{◌≡◌, IfOk, IfErr};
ghost use Rattle.awk_parse.specs.Scripts.{IsScript};
ghost use Rattle.awk_run.specs.View.{view_outcome};
ghost use Rattle.awkbox.specs.Accepted.{IsRefused};
ghost use Rattle.awk_run.specs.Givens.{given_of};
ghost use Rattle.awkbox.specs.Drives.{DrivesCounted, DrivesText};
ghost use Rattle.box_monitor.specs.declared.log_end.LogEnd.TheVariants.{Whole};
ghost use Rattle.box_policy.specs.Counts.{cleared};

use crate::accepting::{Prepared, Refusal, prepare};
use awk_run::{Report, Setup, run};
use box_monitor::log_end::LogEnd;
use box_monitor::monitor::Monitor;
use box_world::world::World;
use std::alloc::Global;
use std::io::Write;

/// What a run answers, and the world and the log given back, with how the log stands.
#[derive(Drop)]
pub struct Driven<W: World, L: Write> {
    pub answer: Result<Report, Refusal>,
    pub world: W,
    pub log: L,
    pub log_end: LogEnd,
}

/// A run that is over: its report, how many of its requests were denied, and the world and the log given back, with how
/// the log stands.
#[derive(Drop)]
pub struct Ran<W: World, L: Write> {
    pub report: Report,
    /// The lines that the log has of it; at most 2^64 - 1.
    pub denials: u64,
    pub world: W,
    pub log: L,
    pub log_end: LogEnd,
}

impl Prepared {
    /// Runs the script over a world, under the policy, whose rules have allowed nothing before, as [`drive`] runs the
    /// script that a text spells.
    pub fn drive<W: World, L: Write>(
        self,
        alloc: Global,
        setup: &Setup,
        steps: u64,
        world: W,
        log: L,
    ) -> Ran<W, L>
        requires { IsScript self.script }
        ensures { DrivesCounted W.follows W.stops L.contents
            (cleared self.policy) (given_of self.script setup.now steps) world log
            (view_outcome result.report.outcome) result.report.used result.denials result.log_end result.world
            result.log }
    {
        let Prepared { policy, script } = self;
        let mut monitor = Monitor::with_seed(alloc, setup.seed(), policy, world, log);
        let report = run(alloc, &script, setup, steps, &mut monitor);
        script.release();
        let log_end = monitor.log_end();
        let denials = monitor.denials();
        let (_, world, log) = monitor.into_parts();
        Ran {
            report,
            denials,
            world,
            log,
            log_end,
        }
    }
}

/// Runs a script over a world, under a policy, with at most these steps, and logs each request that
/// the policy denies.
///
/// What is refused is the policy first, then the script, and then the first `-v` pair whose name may
/// not be set; the world was not asked then and the log has not grown. Else the run is plain awk's,
/// in which each denied request fails and each other one has the world's own reply. A fault of the
/// run is in its report; F13, S9 and P8 say that memory was refused.
pub fn drive<W: World, L: Write>(
    alloc: Global,
    policy: &[u8],
    script: &[u8],
    setup: &Setup,
    steps: u64,
    world: W,
    log: L,
) -> Driven<W, L>
    ensures refused { IfErr result.answer
        (λ refusal. IsRefused setup.now.numbers policy.now script.now setup.now.assigns refusal
        × (result.world ≡ world) × (result.log ≡ log) × (result.log_end ≡ Whole)) }
    ensures driven { IfOk result.answer (λ report. DrivesText W.follows W.stops L.contents
        policy.now script.now setup.now steps world log
        (view_outcome report.outcome) report.used result.log_end result.world result.log) }
{
    let prepared = match prepare(alloc, policy, script, setup) {
        Ok(prepared) => prepared,
        Err(refusal) => {
            return Driven {
                answer: Err(refusal),
                world,
                log,
                log_end: LogEnd::Whole,
            };
        }
    };
    let Ran {
        report,
        world,
        log,
        log_end,
        ..
    } = prepared.drive(alloc, setup, steps, world, log);
    Driven {
        answer: Ok(report),
        world,
        log,
        log_end,
    }
}
