// Output to a stream that the script names.
ghost use Rattle.std.specs.Prelude.{◌≡◌, ◌∷◌, IfOk};
ghost use Rattle.box_world.specs.Events.{Named};
ghost use Rattle.awk_machine.specs.Pieces as machine;
ghost use Rattle.awk_machine.specs.Pieces.{Do, Piece};
ghost use Rattle.awk_machine.specs.Printing as printing;
ghost use Rattle.awk_machine.specs.State.{Given};
ghost use Rattle.awk_text.specs.Lents.{lent_value};
ghost use Rattle.awk_store.specs.Kept.{Kept};
ghost use Rattle.awk_text.specs.Values.{text_of};
ghost use Rattle.awk_streams.specs.Tables.{kind};
ghost use Rattle.awk_streams.specs.Tasks.{Owns};
ghost use Rattle.awk_store.specs.Wholes.{Whole};
ghost use Rattle.awk_input.specs.Inputs.{LeadsOrHalts};
ghost use Rattle.awk_input.specs.Performs.{LeadsWhole};

use awk_program::Redirect;
use awk_streams::halt::Halt;
use awk_streams::opening::open_output;
use awk_streams::requests::put;
use awk_streams::streams::{Class, StreamName, Streams};
use awk_text::buffer::Buffer;
use awk_text::lent::Lent;
use awk_text::octets::Octets;
use awk_text::place::Place;
use box_world::ask::Mode;
use box_world::world::World;
use std::alloc::Global;

fn class_of(how: Redirect) -> Class
    ensures { kind result ≡ printing.class_of how }
{
    match how {
        Redirect::Write => Class::OutputFile,
        Redirect::Append => Class::OutputFile,
        Redirect::Command => Class::OutputCommand,
    }
}

fn mode_of(how: Redirect) -> Mode
    ensures { result ≡ printing.mode_of how }
{
    match how {
        Redirect::Write => Mode::Write,
        Redirect::Append => Mode::Append,
        Redirect::Command => Mode::RunOut,
    }
}

/// Puts a text to the stream of this name, which is opened before where it is not open. Answers the text, whose room
/// can serve the next one.
pub fn put_to<W: World>(
    alloc: Global,
    place: Place,
    how: Redirect,
    name: Lent<'_>,
    text: Octets,
    streams: &mut Streams,
    world: &mut W,
) -> Result<Octets, Halt>
    requires { Owns (W.open_numbers world.old) streams.old }
    ensures task { (g : Given) (k : Kept) (p : Piece) (old : Whole) (w : W)
        → LeadsWhole W.World g p old w
        (λ l. Do (machine.Open place (printing.mode_of how) (printing.class_of how)
        (text_of (lent_value name.entry)))
        ∷ Do (machine.Put place (Named (printing.class_of how) (text_of (lent_value name.entry))) text) ∷ l)
        (k, streams.old) world.old
        → LeadsOrHalts W.World g p old w (λ l. l) result (k, streams.new) world.new }
    ensures text { IfOk result (λ same. same ≡ text) }
    ensures owns { Owns (W.open_numbers world.new) streams.new }
{
    let mut buffer = Buffer::new();
    let name = StreamName {
        class: class_of(how),
        text: name.text(&mut buffer),
    };
    let number = open_output(alloc, place, mode_of(how), &name, streams, world)?;
    put(place, number, text, world)
}
