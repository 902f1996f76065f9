// Whole runs.
ghost use Rattle.awk_forms.specs.Runs.{IsGiven, whole_of};
ghost use Rattle.awk_machine.specs.Begins.{first_pieces};
ghost use Rattle.awk_machine.specs.Pieces.{Do, Enter};
ghost use Rattle.awk_machine.specs.State.{Beginning, Ending, Given, Ruling};
ghost use Rattle.awk_program.specs.View.{names_of};
ghost use Rattle.awk_run.specs.View.{view_outcome};
ghost use Rattle.awk_run.specs.Reports.{Reported};
ghost use Rattle.awk_run.specs.Runs.{Finished, ReachedOn, Reached};
ghost use Rattle.awk_run.specs.Starts.{IsStart};
ghost use Rattle.awk_store.specs.States.{Sound};
ghost use Rattle.awk_streams.specs.Tasks.{Owns};
ghost use Rattle.std.specs.Prelude.{[], ◌∷◌};

use crate::ends::{End, close, last};
use crate::environ::environ;
use crate::phases::play;
use crate::report::{Outcome, Report};
use crate::start::{Start, looked_up, prepare};
use awk_builtins::cache::Patterns;
use awk_builtins::line::Line;
use awk_forms::{Context, Run};
use awk_store::Store;
use awk_streams::halt::Halt;
use awk_streams::streams::Streams;
use awk_text::fault::Fault;
use awk_text::place::Place;
use box_world::world::World;

/// All that is done before BEGIN.
fn begin<W: World>(
    cx: &Context<'_>,
    start: &Start<'_>,
    run: &mut Run,
    world: &mut W,
) -> Result<(), Halt>
    requires { Owns (W.open_numbers world.old) run.old.streams }
    ensures plays { (g : Given) → IsGiven cx.now g → IsStart start.now g → (first : W)
        → Reached W.World g first (first_pieces g) (whole_of run.old) world.old
        → ReachedOn W.World g first (λ u. Do (Enter Beginning) ∷ Do (Enter Ruling) ∷ Do (Enter Ending) ∷ []) result
        (whole_of run.new) world.new }
    ensures owns { Owns (W.open_numbers world.new) run.new.streams }
{
    prepare(cx, start, &mut run.store)?;
    environ(cx, looked_up(start), run, world)
}

/// A run's own work, from its beginning.
fn work<W: World>(cx: &Context<'_>, start: &Start<'_>, run: &mut Run, world: &mut W) -> End
    requires { Owns (W.open_numbers world.old) run.old.streams }
    ensures plays { (g : Given) → IsGiven cx.now g → IsStart start.now g → (first : W)
        → Reached W.World g first (first_pieces g) (whole_of run.old) world.old
        → Finished W.World g first result (whole_of run.new) world.new }
    ensures owns { Owns (W.open_numbers world.new) run.new.streams }
{
    match begin(cx, start, run, world) {
        Ok(()) => play(cx, run, world),
        Err(halt) => last(halt, &run.store),
    }
}

/// Runs a program, started so, over a world. In the program no two variables have one name, and awk's own have their
/// slots.
pub fn run_program<W: World>(cx: &Context<'_>, start: &Start<'_>, world: &mut W) -> Report
    requires { Sound (names_of cx.now.program.now) }
    ensures { (g : Given) → IsGiven cx.now g → IsStart start.now g
        → Reported W.follows W.has_stopped W.stops g world.old (view_outcome result.outcome) result.used world.new }
{
    let names = cx.program.variables.as_slice();
    let host = cx.host;
    let Ok(store) = Store::new(cx.alloc, start.seed, host.numbers(), host.seed(), names) else {
        return Report {
            outcome: Outcome::Fault(Fault::Memory, Place { line: 0, column: 0 }),
            used: 0,
        };
    };
    let mut run = Run {
        store,
        streams: Streams::new(cx.alloc),
        patterns: Patterns::new(cx.alloc, start.seed),
        line: Line::new(cx.alloc),
        texts: Vec::new(cx.alloc),
    };
    let end = work(cx, start, &mut run, world);
    let outcome = close(end, &mut run.streams, world);
    Report {
        outcome,
        used: run.store.used(),
    }
}
