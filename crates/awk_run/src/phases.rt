// BEGIN, the rules for records, and END, in their order.
ghost use Rattle.awk_forms.specs.Runs.{Does, IsGiven, whole_of};
ghost use Rattle.awk_machine.specs.Pieces.{Do, Enter, Finish};
ghost use Rattle.awk_machine.specs.State.{Beginning, Ending, Given, Ruling};
ghost use Rattle.awk_run.specs.Runs.{Finished, ReachedOn, Reached, Stopped};
ghost use Rattle.awk_streams.specs.Flows.{flows};
ghost use Rattle.awk_streams.specs.Tasks.{Owns, goes_on};
ghost use Rattle.std.specs.Prelude.{[], ◌∷◌};

use crate::actions::actions;
use crate::ends::{End, done, goes_to_end, last};
use crate::records::records;
use awk_forms::{Context, Run};
use awk_input::reads::reads;
use awk_store::Phase;
use awk_streams::flow::Flow;
use awk_streams::halt::Halt;
use box_world::world::World;

/// The actions of BEGIN.
fn begin<W: World>(cx: &Context<'_>, run: &mut Run, world: &mut W) -> Result<Flow, Halt>
    requires { Owns (W.open_numbers world.old) run.old.streams }
    ensures { Does W.World cx.now (λ g. Do (Enter Beginning)) (λ g. flows)
        (whole_of run.old) world.old result (whole_of run.new) world.new }
{
    run.store.set_phase(Phase::Beginning);
    actions(cx, cx.program.begin.as_slice(), run, world)
}

/// The rules for records.
fn read<W: World>(cx: &Context<'_>, run: &mut Run, world: &mut W) -> Result<(), Halt>
    requires { Owns (W.open_numbers world.old) run.old.streams }
    ensures { Does W.World cx.now (λ g. Do (Enter Ruling)) (λ g. goes_on)
        (whole_of run.old) world.old result (whole_of run.new) world.new }
{
    run.store.set_phase(Phase::Ruling);
    if !reads(cx.program) {
        return Ok(());
    }
    records(cx, run, world)
}

/// BEGIN and the rules for records.
fn before_end<W: World>(cx: &Context<'_>, run: &mut Run, world: &mut W) -> Result<(), Halt>
    requires { Owns (W.open_numbers world.old) run.old.streams }
    ensures plays { (g : Given) → IsGiven cx.now g → (first : W)
        → Reached W.World g first (Do (Enter Beginning) ∷ Do (Enter Ruling) ∷ Do (Enter Ending) ∷ []) (whole_of run.old)
        world.old
        → ReachedOn W.World g first (λ u. Do (Enter Ending) ∷ []) result (whole_of run.new) world.new }
    ensures owns { Owns (W.open_numbers world.new) run.new.streams }
{
    begin(cx, run, world)?;
    read(cx, run, world)
}

/// The actions of END.
fn end_actions<W: World>(cx: &Context<'_>, run: &mut Run, world: &mut W) -> Result<(), Halt>
    requires { Owns (W.open_numbers world.old) run.old.streams }
    ensures plays { (g : Given) → IsGiven cx.now g → (first : W) →
        Reached W.World g first (Do (Enter Ending) ∷ []) (whole_of run.old) world.old
        → ReachedOn W.World g first (λ u. Do Finish ∷ []) result (whole_of run.new) world.new }
    ensures owns { Owns (W.open_numbers world.new) run.new.streams }
{
    run.store.set_phase(Phase::Ending);
    actions(cx, cx.program.end.as_slice(), run, world)?;
    Ok(())
}

/// END.
fn end<W: World>(cx: &Context<'_>, run: &mut Run, world: &mut W) -> End
    requires { Owns (W.open_numbers world.old) run.old.streams }
    ensures plays { (g : Given) → IsGiven cx.now g → (first : W) →
        Reached W.World g first (Do (Enter Ending) ∷ []) (whole_of run.old) world.old
        → Finished W.World g first result (whole_of run.new) world.new }
    ensures owns { Owns (W.open_numbers world.new) run.new.streams }
{
    match end_actions(cx, run, world) {
        Ok(()) => done(&run.store),
        Err(halt) => last(halt, &run.store),
    }
}

/// What is left to be done after a halt: END, or nothing.
fn after<W: World>(cx: &Context<'_>, halt: Halt, run: &mut Run, world: &mut W) -> End
    requires { Owns (W.open_numbers world.old) run.old.streams }
    ensures plays { (g : Given) → IsGiven cx.now g → (first : W) →
        Stopped W.World g first halt (whole_of run.old) world.old
        → Finished W.World g first result (whole_of run.new) world.new }
    ensures owns { Owns (W.open_numbers world.new) run.new.streams }
{
    if goes_to_end(halt, run.store.phase()) {
        return end(cx, run, world);
    }
    last(halt, &run.store)
}

/// BEGIN, the rules for records, and END.
pub fn play<W: World>(cx: &Context<'_>, run: &mut Run, world: &mut W) -> End
    requires { Owns (W.open_numbers world.old) run.old.streams }
    ensures plays { (g : Given) → IsGiven cx.now g → (first : W)
        → Reached W.World g first (Do (Enter Beginning) ∷ Do (Enter Ruling) ∷ Do (Enter Ending) ∷ []) (whole_of run.old)
        world.old
        → Finished W.World g first result (whole_of run.new) world.new }
    ensures owns { Owns (W.open_numbers world.new) run.new.streams }
{
    match before_end(cx, run, world) {
        Ok(()) => end(cx, run, world),
        Err(halt) => after(cx, halt, run, world),
    }
}
