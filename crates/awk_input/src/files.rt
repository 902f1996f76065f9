// The files of operands.
ghost use Rattle.std.specs.Prelude.{◌≡◌, ◌∷◌, false, true, List, Some, IfOk, OnOk, Ok};
ghost use Rattle.awk_machine.specs.MainInput.{file};
ghost use Rattle.awk_machine.specs.Pieces.{Begun, Do, Past, Piece, Take};
ghost use Rattle.awk_machine.specs.State.{Given};
ghost use Rattle.box_world.specs.Events as event;
ghost use Rattle.box_world.specs.Events.{Key, Named};
ghost use Rattle.awk_program.specs.Slots.{Text};
ghost use Rattle.awk_store.specs.Inputs as store_inputs;
ghost use Rattle.awk_store.specs.Kept.{Kept};
ghost use Rattle.awk_streams.specs.Tables.{Table};
ghost use Rattle.awk_streams.specs.Tasks.{Owns, goes_on};
ghost use Rattle.awk_store.specs.Acts.{Acts};
ghost use Rattle.awk_store.specs.Wholes.{Whole};
ghost use Rattle.awk_input.specs.Hosts.{IsHost};
ghost use Rattle.awk_input.specs.Inputs.{LeadsOrHalts, found_main, taken};
ghost use Rattle.awk_input.specs.Operands.{IsBut, Moves, begun_or, current_key, opening_of};
ghost use Rattle.awk_input.specs.Performs.{LeadsWhole, MeetsWhole};

use crate::host::Host;
use crate::progress::take_out;
use crate::reports::report;
use awk_program::Own;
use awk_store::{CurrentInput, MainInput, Store};
use awk_streams::getline::{NextRecord, record};
use awk_streams::halt::Halt;
use awk_streams::inputs;
use awk_streams::opening::{OpenAsk, open};
use awk_streams::requests::request;
use awk_streams::streams::{Class, StreamName, Streams};
use awk_text::Memory;
use awk_text::buffer::Buffer;
use awk_text::octets::Octets;
use awk_text::place::Place;
use awk_text::value::Value;
use box_world::ask::{Mode, Request};
use box_world::world::World;
use std::alloc::Global;

// ---- the file begins

/// The main input is read from here on, as an operand of this text names it.
fn begin(store: &mut Store, source: CurrentInput, text: Octets)
    ensures { (g : Given) (t : Table) (key : Key) → store_inputs.key_of source ≡ Some key →
        Acts g (Do (Begun key text)) goes_on (store.old, t) (Ok (tt {0})) (store.new, t) }
{
    let mut main = store.replace_main(MainInput::new());
    main.current = source;
    store.replace_main(main);
    store.set_own(Own::Filename, Value::Input(text));
    store.set_own(Own::Fnr, Value::Num(0));
}

/// Opens the file of an operand, and answers whether it is open now.
fn open_file<W: World>(
    alloc: Global,
    host: &Host,
    text: &[u8],
    streams: &mut Streams,
    world: &mut W,
) -> Result<bool, Halt>
    requires { Owns (W.open_numbers world.old) streams.old }
    ensures task { (g : Given) → IsHost host.now g → (k : Kept) (p : Piece) (old : Whole) →
        Moves g p old (opening_of g text.now) (k, streams.old)
        → MeetsWhole W.World g p (begun_or text.now) old world.old result (k, streams.new) world.new }
    ensures owns { Owns (W.open_numbers world.new) streams.new }
{
    let name = StreamName {
        class: Class::OperandFile,
        text,
    };
    if streams.number(&name).is_some() {
        return Ok(true);
    }
    let ask = OpenAsk {
        place: Place { line: 0, column: 0 },
        given: host.is_given(text),
        mode: Mode::Read,
        name,
    };
    let found = open(alloc, ask, streams, world)?;
    Ok(found.is_some())
}

/// Goes on to the file of an operand, with a message where it can't be opened.
fn begin_named<W: World>(
    alloc: Global,
    host: &Host,
    text: Octets,
    store: &mut Store,
    streams: &mut Streams,
    world: &mut W,
) -> Result<(), Halt>
    requires { Owns (W.open_numbers world.old) streams.old }
    ensures task { (g : Given) → IsHost host.now g → (p : Piece) (old : Whole) →
        Moves g p old (opening_of g text) (store.old, streams.old)
        → MeetsWhole W.World g p goes_on old world.old result (store.new, streams.new) world.new }
    ensures owns { Owns (W.open_numbers world.new) streams.new }
{
    let copy = text.copy(alloc)?;
    let is_open = open_file(alloc, host, text.bytes(), streams, world)?;
    if is_open {
        begin(store, CurrentInput::Operand(copy), text);
        return Ok(());
    }
    report(alloc, b"open".as_slice(), text.bytes(), store, world)
}

/// Goes on to the input that an operand names: `-` is the standard input.
pub fn begin_input<W: World>(
    alloc: Global,
    host: &Host,
    text: Octets,
    store: &mut Store,
    streams: &mut Streams,
    world: &mut W,
) -> Result<(), Halt>
    requires { Owns (W.open_numbers world.old) streams.old }
    ensures task { (g : Given) → IsHost host.now g → (p : Piece) (old : Whole) →
        Moves g p old (file g text) (store.old, streams.old)
        → MeetsWhole W.World g p goes_on old world.old result (store.new, streams.new) world.new }
    ensures owns { Owns (W.open_numbers world.new) streams.new }
{
    if text.bytes() == b"-".as_slice() {
        begin(store, CurrentInput::Standard, text);
        return Ok(());
    }
    begin_named(alloc, host, text, store, streams, world)
}

// ---- its records

/// Reads a record of the operand's file. That file stands open; the test of it is there since no contract carries this
/// from one record to the next.
fn read_file<W: World>(
    store: &Store,
    streams: &mut Streams,
    world: &mut W,
) -> Result<NextRecord, Halt>
    requires { Owns (W.open_numbers world.old) streams.old }
    ensures task { (g : Given) → store.now.main.ended ≡ false
        → MeetsWhole W.World g (Do Take) (found_main (current_key store.now)) (store.now, streams.old) world.old result
        (store.now, streams.new) world.new }
    ensures current { OnOk result ((text : Text) × (store.now.main.current ≡ Some (Named event.OperandFile text))) }
    ensures owns { Owns (W.open_numbers world.new) streams.new }
{
    let CurrentInput::Operand(text) = &store.main().current else {
        return Err(Halt::Memory);
    };
    let name = StreamName {
        class: Class::OperandFile,
        text: text.bytes(),
    };
    if streams.number(&name).is_none() {
        return Err(Halt::Memory);
    }
    let place = Place { line: 0, column: 0 };
    let mut buffer = Buffer::new();
    let rs = store.own_text(Own::Rs, &mut buffer);
    record(
        place,
        &inputs::InputStream::Stream(name),
        rs,
        streams,
        world,
    )
}

// ---- it is done with

/// Shuts the operand's file, whatever the reply; nothing is read now. What is held unread of it is let go.
pub fn pass_file<W: World>(
    store: &mut Store,
    streams: &mut Streams,
    world: &mut W,
) -> Result<(), Halt>
    requires { Owns (W.open_numbers world.old) streams.old }
    ensures task { (g : Given) (text : Text) → store.old.main.current ≡ Some (Named event.OperandFile text) →
        (t : Table) → IsBut event.OperandFile text t streams.old
        → (rest : List Piece → List Piece) (p : Piece) (old : Whole) (w : W)
        → LeadsWhole W.World g p old w (λ k. Do (Past (Named event.OperandFile text)) ∷ rest k) (store.old, t) world.old
        → LeadsOrHalts W.World g p old w rest result (store.new, streams.new) world.new }
    ensures owns { Owns (W.open_numbers world.new) streams.new }
{
    let Some(text) = take_out(store) else {
        return Err(Halt::Memory);
    };
    let name = StreamName {
        class: Class::OperandFile,
        text: text.bytes(),
    };
    let Some(number) = streams.number(&name) else {
        return Ok(());
    };
    let place = Place { line: 0, column: 0 };
    request(place, false, Request::Shut(number), world)?;
    streams.remove(&name);
    Ok(())
}

/// The text of the operand whose file is read.
fn current_text(alloc: Global, main: &MainInput) -> Result<Octets, Memory>
    ensures { IfOk result
        (λ x. (text : Text) → (store_inputs.main_of main.now).current ≡ Some (Named event.OperandFile text) → x
        ≡ text) }
{
    match &main.current {
        CurrentInput::Operand(text) => text.copy(alloc),
        _ => Ok(Octets::new(Vec::new(alloc))),
    }
}

/// Gives up the operand's file, which could not be read. What is unread of it is dropped with it.
fn give_up_file<W: World>(
    alloc: Global,
    store: &mut Store,
    streams: &mut Streams,
    world: &mut W,
) -> Result<(), Halt>
    requires { Owns (W.open_numbers world.old) streams.old }
    ensures task { (g : Given) (text : Text) → store.old.main.current ≡ Some (Named event.OperandFile text)
        → (p : Piece) (old : Whole) (w : W) →
        LeadsWhole W.World g p old w (found_main (Named event.OperandFile text) NextRecord.Failed) (store.old, streams.old)
        world.old
        → LeadsOrHalts W.World g p old w (λ k. Do Take ∷ k) result (store.new, streams.new) world.new }
    ensures owns { Owns (W.open_numbers world.new) streams.new }
{
    let text = current_text(alloc, store.main())?;
    report(alloc, b"read".as_slice(), text.bytes(), store, world)?;
    pass_file(store, streams, world)
}

/// Takes a record of the operand's file, or goes on behind it.
pub fn take_file<W: World>(
    alloc: Global,
    store: &mut Store,
    streams: &mut Streams,
    world: &mut W,
) -> Result<Option<Value>, Halt>
    requires { Owns (W.open_numbers world.old) streams.old }
    ensures task { (g : Given) → store.old.main.ended ≡ false
        → MeetsWhole W.World g (Do Take) taken (store.old, streams.old) world.old result (store.new, streams.new)
        world.new }
    ensures owns { Owns (W.open_numbers world.new) streams.new }
{
    match read_file(store, streams, world)? {
        NextRecord::Record(text) => Ok(Some(Value::Input(text))),
        NextRecord::End => {
            pass_file(store, streams, world)?;
            Ok(None)
        }
        NextRecord::Failed => {
            give_up_file(alloc, store, streams, world)?;
            Ok(None)
        }
    }
}
