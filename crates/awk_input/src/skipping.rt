// `nextfile`.
ghost use Rattle.std.specs.Prelude.{Err, List, [], ◌∷◌};
ghost use Rattle.awk_machine.specs.Pieces.{At, Doing, Piece};
ghost use Rattle.awk_machine.specs.State.{Given};
ghost use Rattle.awk_machine.specs.Statements.{skipping};
ghost use Rattle.awk_program.specs.Program as p;
ghost use Rattle.awk_program.specs.declared.jumps.Jump.TheVariants as j;
ghost use Rattle.awk_streams.specs.Flows.{flows};
ghost use Rattle.awk_store.specs.Wholes.{Whole};
ghost use Rattle.awk_streams.specs.Tasks.{Owns};
ghost use Rattle.awk_input.specs.Inputs.{LeadsOrHalts};
ghost use Rattle.awk_input.specs.Performs.{LeadsWhole, MeetsWhole};

use crate::files::pass_file;
use crate::progress::pass_standard;
use awk_store::{CurrentInput, Store, jumps};
use awk_streams::halt::Halt;
use awk_streams::streams::Streams;
use awk_text::place::Place;
use box_world::world::World;

/// The main input is done with the stream that it reads, if it reads one. A file is shut; what is unread of the
/// standard input stays for others.
fn skip<W: World>(store: &mut Store, streams: &mut Streams, world: &mut W) -> Result<(), Halt>
    requires { Owns (W.open_numbers world.old) streams.old }
    ensures task { (g : Given) (rest : List Piece → List Piece) (p : Piece) (old : Whole) (w : W)
        → LeadsWhole W.World g p old w (λ k. skipping store.old.main.current (rest k)) (store.old, streams.old) world.old
        → LeadsOrHalts W.World g p old w rest result (store.new, streams.new) world.new }
    ensures owns { Owns (W.open_numbers world.new) streams.new }
{
    match &store.main().current {
        CurrentInput::Nothing => Ok(()),
        CurrentInput::Standard => {
            pass_standard(store);
            Ok(())
        }
        CurrentInput::Operand(_) => pass_file(store, streams, world),
    }
}

/// `nextfile`: all calls end, and the main input is done with the record and with what it came from. Outside the rules
/// for records it is a fault.
pub fn next_file<W: World>(
    place: Place,
    store: &mut Store,
    streams: &mut Streams,
    world: &mut W,
) -> Halt
    requires { Owns (W.open_numbers world.old) streams.old }
    ensures task { (g : Given)
        → MeetsWhole W.World g (At (Doing (p.jump (j.NextFile place))) []) flows (store.old, streams.old) world.old
        (Err result) (store.new, streams.new) world.new }
    ensures owns { Owns (W.open_numbers world.new) streams.new }
{
    if let Err(halt) = jumps::next_file(store, place) {
        return halt;
    }
    if let Err(halt) = skip(store, streams, world) {
        return halt;
    }
    Halt::Next
}
