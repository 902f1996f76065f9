// The records of the main input, and the rules for each.
ghost use Rattle.awk_forms.specs.Runs.{Does, whole_of};
ghost use Rattle.awk_input.specs.Inputs.{at_records, more};
ghost use Rattle.awk_machine.specs.Pieces.{At, Records};
ghost use Rattle.awk_run.specs.Rules as spec;
ghost use Rattle.awk_run.specs.Runs.{DoesIn};
ghost use Rattle.awk_streams.specs.Tasks.{Owns, goes_on};
ghost use Rattle.std.specs.Prelude.{Err, [], ◌≡◌};

use crate::rules::rules;
use awk_forms::{Context, Run};
use awk_input::main_input::next_record;
use awk_store::steps::step;
use awk_streams::halt::Halt;
use box_world::world::World;

/// Reads the next record, and does the rules for it; answers whether there was one.
fn one_record<W: World>(cx: &Context<'_>, run: &mut Run, world: &mut W) -> Result<bool, Halt>
    requires { Owns (W.open_numbers world.old) run.old.streams }
    ensures { DoesIn W.World cx.now (λ g. At Records []) (λ g. more) at_records
        (whole_of run.old) world.old result (whole_of run.new) world.new }
{
    let is_there = next_record(cx.alloc, cx.host, &mut run.store, &mut run.streams, world)?;
    if !is_there {
        return Ok(false);
    }
    step(cx.host.bound(), &mut run.store)?;
    rules(cx, run, world)?;
    Ok(true)
}

/// Where a `next` comes back to the records, more may follow. Takes no memory.
fn after(halt: Halt) -> Result<bool, Halt>
    ensures { result ≡ spec.come_back (Err halt) }
{
    match halt {
        Halt::Next => Ok(true),
        _ => Err(halt),
    }
}

/// `next` comes back to the records. Takes no memory.
fn come_back(met: Result<bool, Halt>) -> Result<bool, Halt>
    ensures { result ≡ spec.come_back met }
{
    match met {
        Ok(more) => Ok(more),
        Err(halt) => after(halt),
    }
}

/// Reads the next record, and does the rules for it, to their end or to a `next`; answers whether more may follow.
fn turn<W: World>(cx: &Context<'_>, run: &mut Run, world: &mut W) -> Result<bool, Halt>
    requires { Owns (W.open_numbers world.old) run.old.streams }
    ensures { Does W.World cx.now (λ g. At Records []) (λ g. more)
        (whole_of run.old) world.old result (whole_of run.new) world.new }
{
    come_back(one_record(cx, run, world))
}

/// Reads the records of the main input, while there are any, and does the rules for each.
pub fn records<W: World>(cx: &Context<'_>, run: &mut Run, world: &mut W) -> Result<(), Halt>
    requires { Owns (W.open_numbers world.old) run.old.streams }
    ensures { Does W.World cx.now (λ g. At Records []) (λ g. goes_on)
        (whole_of run.old) world.old result (whole_of run.new) world.new }
{
    for _record in 0..u64::MAX {
        let goes_on = turn(cx, run, world)?;
        if !goes_on {
            return Ok(());
        }
    }
    Err(Halt::NEVER)
}
