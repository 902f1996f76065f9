// The main input: what the operands name, or standard input where they name none.
ghost use Rattle.std.specs.Prelude.{◌≡◌, [], ◌∷◌, true, false, List, Some, IfOk};
ghost use Rattle.box_world.specs.Events.{Standard};
ghost use Rattle.awk_text.specs.declared.value.Value.{Value};
ghost use Rattle.awk_program.specs.Program as p;
ghost use Rattle.awk_machine.specs.Pieces.{At, Do, Piece, Records, Take, Value_of, give};
ghost use Rattle.awk_machine.specs.State.{Given};
ghost use Rattle.awk_streams.specs.Readings.{FailsOpen, GoesOn};
ghost use Rattle.awk_streams.specs.Tables.{Table};
ghost use Rattle.awk_streams.specs.Tasks.{Owns};
ghost use Rattle.awk_store.specs.Acts.{Acts};
ghost use Rattle.awk_store.specs.Spots.{IsSpotOf, value_of};
ghost use Rattle.awk_store.specs.Wholes.{Whole, names_in};
ghost use Rattle.awk_input.specs.Hosts.{IsHost};
ghost use Rattle.awk_input.specs.Inputs.{IsMainLine, LeadsOrHalts, at_records, counted_on, found_main, meeting, taken};
ghost use Rattle.awk_input.specs.Performs.{LeadsWhole, MeetsWhole, MeetsIn};

use crate::counted::{Counted, Getline, count_both, set_record};
use crate::files::take_file;
use crate::host::Host;
use crate::operands::operand;
use crate::progress::{is_nothing, is_standard, pass_standard};
use crate::reports::report;
use awk_program::Own;
use awk_store::{CurrentInput, Spot, Store, fields};
use awk_streams::getline::{NextRecord, record, take_line, take_standard_line};
use awk_streams::halt::Halt;
use awk_streams::inputs;
use awk_streams::streams::{Class, StreamName, Streams};
use awk_text::buffer::Buffer;
use awk_text::octets::Octets;
use awk_text::place::Place;
use awk_text::value::Value;
use box_world::world::World;
use std::alloc::Global;

/// Reads a record of the standard input.
fn read_standard<W: World>(
    store: &Store,
    streams: &mut Streams,
    world: &mut W,
) -> Result<NextRecord, Halt>
    requires owns { Owns (W.open_numbers world.old) streams.old }
    requires ended { store.now.main.ended ≡ false }
    requires current { store.now.main.current ≡ Some (Standard 0) }
    ensures task { (g : Given) →
        MeetsWhole W.World g (Do Take) (found_main (Standard 0)) (store.now, streams.old) world.old result
        (store.now, streams.new) world.new }
    ensures failed { IfOk result (λ x. FailsOpen (Standard 0) x streams.new) }
    ensures owns { Owns (W.open_numbers world.new) streams.new }
{
    let place = Place { line: 0, column: 0 };
    let mut buffer = Buffer::new();
    let rs = store.own_text(Own::Rs, &mut buffer);
    record(place, &inputs::InputStream::Standard, rs, streams, world)
}

/// Gives up the standard input, which could not be read.
fn give_up<W: World>(
    alloc: Global,
    store: &mut Store,
    streams: &mut Streams,
    world: &mut W,
) -> Result<(), Halt>
    requires owns { Owns (W.open_numbers world.old) streams.old }
    requires open { GoesOn (Standard 0) streams.old }
    ensures task { (g : Given) (p : Piece) (old : Whole) (w : W) →
        LeadsWhole W.World g p old w (found_main (Standard 0) NextRecord.Failed) (store.old, streams.old) world.old
        → LeadsOrHalts W.World g p old w (λ k. Do Take ∷ k) result (store.new, streams.new) world.new }
    ensures owns { Owns (W.open_numbers world.new) streams.new }
{
    report(alloc, b"read".as_slice(), b"-".as_slice(), store, world)?;
    streams.forget_standard();
    pass_standard(store);
    Ok(())
}

/// Takes a record of the standard input, or goes on behind it.
fn take_standard<W: World>(
    alloc: Global,
    store: &mut Store,
    streams: &mut Streams,
    world: &mut W,
) -> Result<Option<Value>, Halt>
    requires owns { Owns (W.open_numbers world.old) streams.old }
    requires ended { store.old.main.ended ≡ false }
    requires current { store.old.main.current ≡ Some (Standard 0) }
    ensures task { (g : Given) →
        MeetsWhole W.World g (Do Take) taken (store.old, streams.old) world.old result (store.new, streams.new)
        world.new }
    ensures owns { Owns (W.open_numbers world.new) streams.new }
{
    match read_standard(store, streams, world)? {
        NextRecord::Record(text) => Ok(Some(Value::Input(text))),
        NextRecord::End => {
            pass_standard(store);
            Ok(None)
        }
        NextRecord::Failed => {
            give_up(alloc, store, streams, world)?;
            Ok(None)
        }
    }
}

/// One step towards the next record: it is taken, or the main input has ended, or there is more to do.
fn turn<W: World>(
    alloc: Global,
    host: &Host,
    store: &mut Store,
    streams: &mut Streams,
    world: &mut W,
) -> Result<Option<Value>, Halt>
    requires { Owns (W.open_numbers world.old) streams.old }
    ensures task { (g : Given) → IsHost host.now g
        → MeetsWhole W.World g (Do Take) taken (store.old, streams.old) world.old result (store.new, streams.new)
        world.new }
    ensures owns { Owns (W.open_numbers world.new) streams.new }
{
    if store.main().ended {
        return Ok(Some(Value::Num(0)));
    }
    if is_nothing(store.main()) {
        operand(alloc, host, store, streams, world)?;
        return Ok(None);
    }
    if is_standard(store.main()) {
        return take_standard(alloc, store, streams, world);
    }
    take_file(alloc, store, streams, world)
}

/// Takes the next record of the main input: the record as input, or 0 where it has ended for good.
fn take_on<W: World>(
    alloc: Global,
    host: &Host,
    store: &mut Store,
    streams: &mut Streams,
    world: &mut W,
) -> Result<Value, Halt>
    requires { Owns (W.open_numbers world.old) streams.old }
    ensures task { (g : Given) → IsHost host.now g
        → MeetsWhole W.World g (Do Take) give (store.old, streams.old) world.old result (store.new, streams.new)
        world.new }
    ensures owns { Owns (W.open_numbers world.new) streams.new }
{
    for _ in 0..u64::MAX {
        if let Some(value) = turn(alloc, host, store, streams, world)? {
            return Ok(value);
        }
    }
    Err(Halt::Memory)
}

/// Takes the next record of the main input: the record as input, or 0 where it has ended for good. It is
/// written where the text lay that getline set before, so that few records need memory.
#[inline(always)]
pub fn take<W: World>(
    alloc: Global,
    host: &Host,
    store: &mut Store,
    streams: &mut Streams,
    world: &mut W,
) -> Result<Value, Halt>
    requires { Owns (W.open_numbers world.old) streams.old }
    ensures task { (g : Given) → IsHost host.now g
        → MeetsWhole W.World g (Do Take) give (store.old, streams.old) world.old result (store.new, streams.new)
        world.new }
    ensures owns { Owns (W.open_numbers world.new) streams.new }
{
    let mut room = streams.take_room();
    if takes_line(store, streams, &mut room) {
        return Ok(Value::Input(Octets::new(room)));
    }
    streams.keep_room(room);
    take_on(alloc, host, store, streams, world)
}

/// `getline target`, once it is known what is set.
pub fn getline_main<W: World>(
    alloc: Global,
    host: &Host,
    place: Place,
    target: Spot,
    store: &mut Store,
    streams: &mut Streams,
    world: &mut W,
) -> Result<Value, Halt>
    requires { Owns (W.open_numbers world.old) streams.old }
    ensures task { (g : Given) → IsHost host.now g → (r : p.Reference) → IsSpotOf (names_in g) r target
        → MeetsWhole W.World g (At (Value_of (p.getline place r)) (value_of target ∷ [])) give (store.old, streams.old)
        world.old result (store.new, streams.new) world.new }
    ensures owns { Owns (W.open_numbers world.new) streams.new }
{
    let answer = take(alloc, host, store, streams, world)?;
    let getline = Getline {
        place,
        target,
        counters: Counted::NrAndFnr,
    };
    set_record(alloc, store, streams, getline, answer)
}

/// Sets `$0` to a record of the main input and counts it, before the rules meet it.
#[inline(always)]
pub fn begin_record(store: &mut Store, text: Octets) -> Result<(), Halt>
    ensures { (g : Given) (t : Table) (vs : List Value) →
        Acts g (At Records (Value.Input text ∷ vs)) (counted_on g) (store.old, t) result (store.new, t) }
{
    let place = Place { line: 0, column: 0 };
    fields::set_record(store, place, text)?;
    count_both(store, place)
}

/// Takes the first record of what is held unread of the main input, where it needs no other look, and writes it into
/// the room; answers whether it did.
#[inline(always)]
fn takes_line(store: &Store, streams: &mut Streams, room: &mut Vec<u8>) -> bool
    ensures taken { result ≡ true → IsMainLine store.now streams.old room.new.items streams.new }
    ensures not_taken { result ≡ false → streams.new ≡ streams.old }
{
    let main = store.main();
    if main.ended {
        return false;
    }
    let Some(rs) = store.own_bytes(Own::Rs) else {
        return false;
    };
    match &main.current {
        CurrentInput::Nothing => false,
        CurrentInput::Standard => take_standard_line(rs, streams, room),
        CurrentInput::Operand(text) => {
            let name = StreamName {
                class: Class::OperandFile,
                text: text.bytes(),
            };
            take_line(&name, rs, streams, room)
        }
    }
}

/// The next record of the main input is set and counted, wherever it comes from; answers whether there was one. It
/// stands out of line, since most records are there as lines.
#[inline(never)]
fn next_any<W: World>(
    alloc: Global,
    host: &Host,
    store: &mut Store,
    streams: &mut Streams,
    world: &mut W,
) -> Result<bool, Halt>
    requires { Owns (W.open_numbers world.old) streams.old }
    ensures task { (g : Given) → IsHost host.now g
        → MeetsIn W.World g (At Records []) (meeting g) at_records (store.old, streams.old) world.old result
        (store.new, streams.new) world.new }
    ensures owns { Owns (W.open_numbers world.new) streams.new }
{
    match take_on(alloc, host, store, streams, world)? {
        Value::Input(text) => {
            begin_record(store, text)?;
            Ok(true)
        }
        _ => Ok(false),
    }
}

/// The next record of the main input is set and counted, for the rules to meet it; answers whether there was one. It is
/// written where the text of the record before the present one lay, so that few records need memory.
#[inline(always)]
pub fn next_record<W: World>(
    alloc: Global,
    host: &Host,
    store: &mut Store,
    streams: &mut Streams,
    world: &mut W,
) -> Result<bool, Halt>
    requires { Owns (W.open_numbers world.old) streams.old }
    ensures task { (g : Given) → IsHost host.now g
        → MeetsIn W.World g (At Records []) (meeting g) at_records (store.old, streams.old) world.old result
        (store.new, streams.new) world.new }
    ensures owns { Owns (W.open_numbers world.new) streams.new }
{
    let mut room = store.take_room();
    if takes_line(store, streams, &mut room) {
        begin_record(store, Octets::new(room))?;
        return Ok(true);
    }
    streams.keep_room(room);
    next_any(alloc, host, store, streams, world)
}
