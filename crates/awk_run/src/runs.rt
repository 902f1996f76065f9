// Runs of scripts.
ghost use Rattle.std.specs.Prelude.{◌≡◌, ℕ};
ghost use Rattle.awk_parse.specs.Scripts.{IsScript};
ghost use Rattle.awk_run.specs.View.{view_outcome};
ghost use Rattle.awk_run.specs.Reports.{Reported};
ghost use Rattle.awk_run.specs.Starts.{IsStart};
ghost use Rattle.awk_run.specs.Givens.{given_of};

use crate::hosting::host;
use crate::{Outcome, Report, Setup, Start, run_program};
use awk_forms::Context;
use awk_parse::Script;
use awk_text::fault::Fault;
use awk_text::place::Place;
use box_world::world::World;
use std::alloc::Global;

/// What a script's run is started with.
fn start<'a>(script: &Script, setup: &'a Setup) -> Start<'a>
    requires { IsScript script.now }
    ensures { (steps : ℕ) → IsStart result (given_of script.now setup.now steps) }
{
    Start {
        operands: setup.operands(),
        environment: setup.names(),
        assigns: setup.assigns(),
        separator: setup.separator(),
        names_environ: script.names_environ(),
        seed: setup.seed(),
    }
}

/// Runs a script over a world, for at most this many steps.
///
/// The world is asked for what plain awk asks for, and the report has plain awk's outcome and steps. A fault of the run
/// is its outcome: F12 where the world could not log a denial, at the place of the request; F13 where memory was
/// refused.
pub fn run<W: World>(
    alloc: Global,
    script: &Script,
    setup: &Setup,
    steps: u64,
    world: &mut W,
) -> Report
    requires { IsScript script.now }
    ensures { Reported W.follows W.has_stopped W.stops (given_of script.now setup.now steps) world.old
        (view_outcome result.outcome) result.used world.new }
{
    let Ok(host) = host(alloc, script, setup, steps) else {
        return Report {
            outcome: Outcome::Fault(Fault::Memory, Place { line: 0, column: 0 }),
            used: 0,
        };
    };
    let cx = Context {
        alloc,
        program: script.program(),
        host: &host,
    };
    run_program(&cx, &start(script, setup), world)
}
