// getline from a file and from a command.
ghost use Rattle.std.specs.Prelude.{◌≡◌, [], ◌∷◌, List};
ghost use Rattle.awk_text.specs.Lents.{lent_value};
ghost use Rattle.awk_program.specs.Program as p;
ghost use Rattle.awk_program.specs.Program.{Expression, Pipes};
ghost use Rattle.awk_machine.specs.Getline as machine;
ghost use Rattle.awk_machine.specs.Pieces.{At, Do, Piece, Pipes_of, Value_of, give};
ghost use Rattle.awk_machine.specs.State.{Given};
ghost use Rattle.awk_streams.specs.Readings.{fetching, key_of};
ghost use Rattle.awk_streams.specs.Tables.{Table};
ghost use Rattle.awk_streams.specs.Tasks.{Owns};
ghost use Rattle.awk_store.specs.Acts.{Acts};
ghost use Rattle.awk_store.specs.Spots.{IsSpotOf, value_of};
ghost use Rattle.awk_store.specs.Wholes.{names_in};
ghost use Rattle.awk_input.specs.Gots.{piped_of, read_of};
ghost use Rattle.awk_input.specs.Performs.{MeetsWhole};

use crate::counted::{Counted, Getline, set_record};
use awk_program::Own;
use awk_store::{Spot, Store};
use awk_streams::getline::fetch;
use awk_streams::halt::Halt;
use awk_streams::inputs::InputStream;
use awk_streams::streams::{Class, StreamName, Streams};
use awk_text::buffer::Buffer;
use awk_text::lent::Lent;
use awk_text::place::Place;
use awk_text::value::Value;
use box_world::world::World;
use std::alloc::Global;

/// The stream of a file of this name: `-` is the standard input.
fn file_source(name: &[u8]) -> InputStream<'_>
    ensures { (place : Place) (k : List Piece) → machine.fetch_file place name.now k
        ≡ Do (fetching place (key_of result)) ∷ k }
{
    if name == b"-".as_slice() {
        return InputStream::Standard;
    }
    InputStream::Stream(StreamName {
        class: Class::InputFile,
        text: name,
    })
}

/// Reads a record of a stream by RS as it is, and opens the stream before where it is not open.
#[inline(always)]
fn fetch_record<W: World>(
    alloc: Global,
    place: Place,
    source: &InputStream<'_>,
    store: &Store,
    streams: &mut Streams,
    world: &mut W,
) -> Result<Value, Halt>
    requires { Owns (W.open_numbers world.old) streams.old }
    ensures task { (g : Given) →
        MeetsWhole W.World g (Do (fetching place (key_of source.now))) give (store.now, streams.old) world.old result
        (store.now, streams.new) world.new }
    ensures owns { Owns (W.open_numbers world.new) streams.new }
{
    let mut buffer = Buffer::new();
    let rs = store.own_text(Own::Rs, &mut buffer);
    fetch(alloc, place, source, rs, streams, world)
}

/// Reads a record for `getline target < file`, once the file's name is known: the record as input, 0 at its end, or -1
/// where it can't be read. `set_from_file` sets it. It stands out of line, since forms that nest call it.
#[inline(never)]
pub fn file_record<W: World>(
    alloc: Global,
    place: Place,
    name: Lent<'_>,
    store: &Store,
    streams: &mut Streams,
    world: &mut W,
) -> Result<Value, Halt>
    requires { Owns (W.open_numbers world.old) streams.old }
    ensures task { (g : Given) (r : p.Reference) (x : Expression) (target : Value)
        → MeetsWhole W.World g (At (Value_of (p.getline_file place r x)) (lent_value name.entry ∷ target ∷ []))
        (read_of place r x (lent_value name.entry) target) (store.now, streams.old) world.old result
        (store.now, streams.new) world.new }
    ensures owns { Owns (W.open_numbers world.new) streams.new }
{
    let mut buffer = Buffer::new();
    let source = file_source(name.text(&mut buffer));
    fetch_record(alloc, place, &source, store, streams, world)
}

/// Sets what `getline target < file` sets to the record that was read, and answers 1; or answers what came in its
/// place.
#[inline(always)]
pub fn set_from_file(
    alloc: Global,
    place: Place,
    target: Spot,
    answer: Value,
    store: &mut Store,
    streams: &mut Streams,
) -> Result<Value, Halt>
    ensures task { (g : Given) (r : p.Reference) (x : Expression) (name : Value) → IsSpotOf (names_in g) r target
        → Acts g (At (Value_of (p.getline_file place r x)) (answer ∷ name ∷ value_of target ∷ [])) give
        (store.old, streams.old) result (store.new, streams.new) }
    ensures same { streams.new ≡ streams.old }
{
    let getline = Getline {
        place,
        target,
        counters: Counted::Nothing,
    };
    set_record(alloc, store, streams, getline, answer)
}

/// Reads a record for `command | getline target`, once the command and what is set are known: the record as input, 0 at
/// its end, or -1 where it can't be read. `set_from_command` sets it. It stands out of line, as `file_record` does.
#[inline(never)]
pub fn command_record<W: World>(
    alloc: Global,
    place: Place,
    command: Lent<'_>,
    store: &Store,
    streams: &mut Streams,
    world: &mut W,
) -> Result<Value, Halt>
    requires { Owns (W.open_numbers world.old) streams.old }
    ensures task { (g : Given) (r : p.Reference) (xs : Pipes) (target : Value)
        → MeetsWhole W.World g (At (Pipes_of (p.piped place r xs)) (target ∷ lent_value command.entry ∷ []))
        (piped_of place r xs (lent_value command.entry) target) (store.now, streams.old) world.old result
        (store.now, streams.new) world.new }
    ensures owns { Owns (W.open_numbers world.new) streams.new }
{
    let mut buffer = Buffer::new();
    let source = InputStream::Stream(StreamName {
        class: Class::InputCommand,
        text: command.text(&mut buffer),
    });
    fetch_record(alloc, place, &source, store, streams, world)
}

/// Sets what `command | getline target` sets to the record that was read, adds 1 to NR, and answers 1; or answers what
/// came in its place.
#[inline(always)]
pub fn set_from_command(
    alloc: Global,
    place: Place,
    target: Spot,
    answer: Value,
    store: &mut Store,
    streams: &mut Streams,
) -> Result<Value, Halt>
    ensures task { (g : Given) (r : p.Reference) (xs : Pipes) (command : Value) → IsSpotOf (names_in g) r target
        → Acts g (At (Pipes_of (p.piped place r xs)) (answer ∷ value_of target ∷ command ∷ []))
        (λ v k. give v (At (Pipes_of xs) [] ∷ k)) (store.old, streams.old) result (store.new, streams.new) }
    ensures same { streams.new ≡ streams.old }
{
    let getline = Getline {
        place,
        target,
        counters: Counted::Nr,
    };
    set_record(alloc, store, streams, getline, answer)
}

/// `command | getline target`, once the command and what is set are known.
pub fn getline_pipe<W: World>(
    alloc: Global,
    place: Place,
    target: Spot,
    command: Lent<'_>,
    store: &mut Store,
    streams: &mut Streams,
    world: &mut W,
) -> Result<Value, Halt>
    requires { Owns (W.open_numbers world.old) streams.old }
    ensures task { (g : Given) (r : p.Reference) (xs : Pipes) → IsSpotOf (names_in g) r target
        → MeetsWhole W.World g (At (Pipes_of (p.piped place r xs)) (value_of target ∷ lent_value command.entry ∷ []))
        (λ v k. give v (At (Pipes_of xs) [] ∷ k)) (store.old, streams.old) world.old result (store.new, streams.new)
        world.new }
    ensures owns { Owns (W.open_numbers world.new) streams.new }
{
    let answer = command_record(alloc, place, command, store, streams, world)?;
    set_from_command(alloc, place, target, answer, store, streams)
}
