// The actions of BEGIN and of END.
ghost use Rattle.awk_forms.specs.Runs.{Does, whole_of};
ghost use Rattle.awk_machine.specs.Pieces.{Do, Each};
ghost use Rattle.awk_machine.specs.Rules.{concatenated};
ghost use Rattle.awk_machine.specs.State.{Given};
ghost use Rattle.awk_program.specs.Program as p;
ghost use Rattle.awk_program.specs.View.{view_statement};
ghost use Rattle.awk_streams.specs.Flows.{flows};
ghost use Rattle.awk_store.specs.Wholes.{names_in};
ghost use Rattle.awk_streams.specs.Tasks.{Owns};
ghost use Rattle.std.specs.Prelude.{List, map, ◌++◌, ◌∷◌};

use awk_eval::statement;
use awk_forms::{Context, MOST_UNITS, Run};
use awk_program::Statement;
use awk_streams::flow::{Flow, is_on};
use awk_streams::halt::Halt;
use box_world::world::World;
use sqlite_items::Items;

/// The statements of one action, with what stands behind them in other actions.
fn action<W: World>(
    cx: &Context<'_>,
    xs: &[Statement],
    run: &mut Run,
    world: &mut W,
) -> Result<Flow, Halt>
    requires { Owns (W.open_numbers world.old) run.old.streams }
    ensures { (rest : Given → List p.Statement) → Does W.World cx.now
        (λ g. Do (Each (map (view_statement (names_in g)) xs.now ++ rest g)))
        (λ g f k. flows f (Do (Each (rest g)) ∷ k))
        (whole_of run.old) world.old result (whole_of run.new) world.new }
{
    for x in xs {
        let flow = statement(cx, x, MOST_UNITS, run, world)?;
        if !is_on(&flow) {
            return Ok(flow);
        }
    }
    Ok(Flow::On)
}

/// Several actions, one after the other.
pub fn actions<W: World>(
    cx: &Context<'_>,
    xs: &[Items<Statement>],
    run: &mut Run,
    world: &mut W,
) -> Result<Flow, Halt>
    requires { Owns (W.open_numbers world.old) run.old.streams }
    ensures { Does W.World cx.now
        (λ g. Do (Each (concatenated (map (map (view_statement (names_in g))) xs.now)))) (λ g. flows)
        (whole_of run.old) world.old result (whole_of run.new) world.new }
{
    for x in xs {
        let flow = action(cx, x.as_slice(), run, world)?;
        if !is_on(&flow) {
            return Ok(flow);
        }
    }
    Ok(Flow::On)
}
