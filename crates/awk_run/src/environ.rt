// ENVIRON.
ghost use Rattle.awk_forms.specs.Runs.{Does, whole_of};
ghost use Rattle.awk_machine.specs.Pieces as machine;
ghost use Rattle.awk_machine.specs.Pieces.{Do, Set, nowhere};
ghost use Rattle.awk_machine.specs.State.{Given};
ghost use Rattle.awk_program.specs.Program.{global};
ghost use Rattle.awk_program.specs.Slots.{Text};
ghost use Rattle.awk_store.specs.Acts.{Acts};
ghost use Rattle.awk_streams.specs.Tables.{Table};
ghost use Rattle.awk_streams.specs.Tasks.{Owns, goes_on};
ghost use Rattle.std.specs.Prelude.{List, codes, ◌∷◌};

use awk_forms::{Context, Run};
use awk_program::{Own, Variable};
use awk_store::Store;
use awk_store::elements::set_element;
use awk_streams::halt::Halt;
use awk_streams::requests::environment;
use awk_text::octets::Octets;
use awk_text::place::Place;
use awk_text::value::Value;
use box_world::world::World;

/// Sets the element of ENVIRON for this name.
fn set_environ(store: &mut Store, name: &[u8], text: Octets) -> Result<(), Halt>
    ensures { (g : Given) (t : Table) →
        Acts g (Do (Set (machine.Element (global (codes "ENVIRON")) name.now nowhere) nowhere (Value.Input text)))
        goes_on (store.old, t) result (store.new, t) }
{
    let place = Place { line: 0, column: 0 };
    let array = Variable::Global(Own::Environ.slot());
    set_element(store, place, array, name, Value::Input(text))
}

/// Looks a name of the environment up, and sets its element of ENVIRON where it has a value.
fn look<W: World>(cx: &Context<'_>, name: &Octets, run: &mut Run, world: &mut W) -> Result<(), Halt>
    requires { Owns (W.open_numbers world.old) run.old.streams }
    ensures { (names : List Text) →
        Does W.World cx.now (λ g. Do (machine.Environ (name.now ∷ names))) (λ g u k. Do (machine.Environ names) ∷ k)
        (whole_of run.old) world.old result (whole_of run.new) world.new }
{
    let sent = name.copy(cx.alloc)?;
    let found = environment(sent, world)?;
    let Some(text) = found else {
        return Ok(());
    };
    set_environ(&mut run.store, name.bytes(), text)
}

/// Looks the names of the environment up, one after the other.
pub fn environ<W: World>(
    cx: &Context<'_>,
    names: &[Octets],
    run: &mut Run,
    world: &mut W,
) -> Result<(), Halt>
    requires { Owns (W.open_numbers world.old) run.old.streams }
    ensures { Does W.World cx.now (λ g. Do (machine.Environ names.now)) (λ g. goes_on)
        (whole_of run.old) world.old result (whole_of run.new) world.new }
{
    for name in names {
        look(cx, name, run, world)?;
    }
    Ok(())
}
