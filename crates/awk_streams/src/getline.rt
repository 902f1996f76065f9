// A record of a stream is read.
ghost use Rattle.std.specs.Prelude.{◌≡◌, codes, List, None, false, true, IfOk, IfErr, IfSome, OnOk, OnErr};
ghost use Rattle.awk_fields.specs.Heads.{head};
ghost use Rattle.awk_machine.specs.Pieces as machine;
ghost use Rattle.awk_machine.specs.Pieces.{Do, Piece, give};
ghost use Rattle.awk_machine.specs.State.{Given, State};
ghost use Rattle.awk_machine.specs.Variables.{own_text};
ghost use Rattle.box_world.specs.Events.{Named, Standard};
ghost use Rattle.awk_streams.specs.Readings as spec;
ghost use Rattle.awk_streams.specs.Readings.{FailsFirst, FailsOpen, FirstIs, GoesOn, HasCome, Holds, IsLine, IsLive};
ghost use Rattle.awk_streams.specs.Readings.{IsReading, Received, Waits, fetching, further, key_of, read_further};
ghost use Rattle.awk_streams.specs.Tables.{kind};
ghost use Rattle.awk_streams.specs.Tasks.{MeetsTable, IsSame, Owns};

use crate::halt::Halt;
use crate::inputs::{InputStream, finish, number, push, take};
use crate::opening::open_input;
use crate::requests::request;
use crate::streams::{StreamName, Streams};
use awk_fields::reader::Taken;
use awk_text::Memory;
use awk_text::octets::Octets;
use awk_text::place::Place;
use awk_text::value::Value;
use box_world::ask::{Reply, Request};
use box_world::world::World;
use std::alloc::{AllocError, Global};

/// What a reading answers.
#[derive(Drop)]
pub enum NextRecord {
    Record(Octets),
    /// The stream has ended, and no record is left.
    End,
    /// The stream can't be read.
    Failed,
}

fn read_taken(taken: Taken) -> Option<NextRecord>
    ensures { result ≡ spec.read_taken taken }
{
    match taken {
        Taken::Record(text) => Some(NextRecord::Record(text)),
        Taken::NeedMore => None,
        Taken::Done => Some(NextRecord::End),
    }
}

/// The first record of what is held unread, or the end; `None` where more is to come.
fn first(
    place: Place,
    source: &InputStream<'_>,
    rs: &[u8],
    streams: &mut Streams,
) -> Result<Option<NextRecord>, Halt>
    ensures ok { IfOk result (λ answer. Holds (key_of source.now) streams.old
        (λ i. FirstIs (key_of source.now) streams.old streams.new i (head rs.now i.unread i.ended) answer)) }
    ensures same { OnErr result (IsSame streams.old streams.new) }
    ensures err { IfErr result
        (λ h. Holds (key_of source.now) streams.old (λ i. FailsFirst place (head rs.now i.unread i.ended) h)) }
{
    match take(streams, source, rs) {
        Ok(taken) => Ok(read_taken(taken)),
        Err(fault) => Err(Halt::at(place, fault)),
    }
}

/// Takes the first record of what is held unread of the standard input, where it needs no other look, and writes it
/// into the room; answers whether it did. Where it did not, `record` says what there is.
#[inline(always)]
pub fn take_standard_line(rs: &[u8], streams: &mut Streams, room: &mut Vec<u8>) -> bool
    ensures taken { result ≡ true → IsLine (Standard 0) rs.now streams.old room.new.items streams.new }
    ensures not_taken { result ≡ false → streams.new ≡ streams.old }
{
    streams.take_standard_line(rs, room)
}

/// The same of a stream that is opened.
#[inline(always)]
pub fn take_line(
    name: &StreamName<'_>,
    rs: &[u8],
    streams: &mut Streams,
    room: &mut Vec<u8>,
) -> bool
    ensures taken { result ≡ true →
        IsLine (Named (kind name.now.class) name.now.text.now) rs.now streams.old room.new.items streams.new }
    ensures not_taken { result ≡ false → streams.new ≡ streams.old }
{
    streams.take_line(name, rs, room)
}

/// The first record of what is held unread, where it needs no other look; `None` where it does, or where the stream is
/// not open. Of the standard input `record` says what there is.
#[inline(always)]
fn held_line(source: &InputStream<'_>, rs: &[u8], streams: &mut Streams) -> Option<Octets>
    ensures some { IfSome result (λ text. IsLine (key_of source.now) rs.now streams.old text streams.new) }
    ensures none { result ≡ None → streams.new ≡ streams.old }
{
    let InputStream::Stream(name) = source else {
        return None;
    };
    let mut room = streams.take_room();
    if take_line(name, rs, streams, &mut room) {
        return Some(Octets::new(room));
    }
    streams.keep_room(room);
    None
}

/// Keeps what came, and answers whether the reading goes on: it does not where it has failed.
fn receive(streams: &mut Streams, source: &InputStream<'_>, reply: &Reply) -> Result<bool, Memory>
    requires { GoesOn (key_of source.now) streams.old }
    ensures ok { IfOk result
        (λ on. Holds (key_of source.now) streams.old
        (λ i. Received (key_of source.now) streams.old streams.new i reply.now on)) }
    ensures same { OnErr result (IsSame streams.old streams.new) }
    ensures err { OnErr result (HasCome reply.now) }
{
    match reply {
        Reply::Bytes(bytes) => match push(streams, source, bytes.bytes()) {
            Ok(()) => Ok(true),
            Err(_) => Err(AllocError),
        },
        Reply::End => {
            finish(streams, source);
            Ok(true)
        }
        _ => Ok(false),
    }
}

/// Asks for more of a stream of which no record is whole, and answers whether the reading goes on.
fn more<W: World>(
    place: Place,
    source: &InputStream<'_>,
    streams: &mut Streams,
    world: &mut W,
) -> Result<bool, Halt>
    requires owns { Owns (W.open_numbers world.old) streams.old }
    requires live { IsLive (key_of source.now) streams.old }
    requires open { GoesOn (key_of source.now) streams.old }
    ensures task { (g : Given) (s : State) (p : Piece) (to : NextRecord → List Piece → List Piece) →
        IsReading g s p place (key_of source.now) to → Waits (own_text s (codes "RS")) (key_of source.now) streams.old
        → MeetsTable W.World g s p (further p to) streams.old world.old result streams.new world.new }
    ensures failed { IfOk result (λ on. on ≡ false → GoesOn (key_of source.now) streams.new) }
    ensures live { OnOk result (IsLive (key_of source.now) streams.new) }
    ensures owns { Owns (W.open_numbers world.new) streams.new }
{
    let number = number(streams, source);
    let reply = request(place, false, Request::Next(number), world)?;
    Ok(receive(streams, source, &reply)?)
}

/// Reads a record of a stream that stands open, for any piece of the machine that does. `rs` is RS
/// as it is now. What is unread stays for the next one.
pub fn record<W: World>(
    place: Place,
    source: &InputStream<'_>,
    rs: &[u8],
    streams: &mut Streams,
    world: &mut W,
) -> Result<NextRecord, Halt>
    requires owns { Owns (W.open_numbers world.old) streams.old }
    requires live { IsLive (key_of source.now) streams.old }
    ensures task { (g : Given) (s : State) (p : Piece) (to : NextRecord → List Piece → List Piece) →
        IsReading g s p place (key_of source.now) to → own_text s (codes "RS") ≡ rs.now
        → MeetsTable W.World g s p to streams.old world.old result streams.new world.new }
    ensures failed { IfOk result (λ x. FailsOpen (key_of source.now) x streams.new) }
    ensures owns { Owns (W.open_numbers world.new) streams.new }
{
    for _ in 0..u64::MAX {
        if let Some(found) = first(place, source, rs, streams)? {
            return Ok(found);
        }
        if !more(place, source, streams, world)? {
            return Ok(NextRecord::Failed);
        }
    }
    Err(Halt::Memory)
}

fn read_value(found: NextRecord) -> Value
    ensures { result ≡ spec.read_value found }
{
    match found {
        NextRecord::Record(text) => Value::Input(text),
        NextRecord::End => Value::Num(0),
        NextRecord::Failed => Value::Num(-1),
    }
}

/// Reads a record of a stream that stands open: the record as input, 0 at its end, or -1 where it
/// can't be read.
pub fn read<W: World>(
    place: Place,
    source: &InputStream<'_>,
    rs: &[u8],
    streams: &mut Streams,
    world: &mut W,
) -> Result<Value, Halt>
    requires owns { Owns (W.open_numbers world.old) streams.old }
    requires live { IsLive (key_of source.now) streams.old }
    ensures task { (g : Given) (s : State) → own_text s (codes "RS") ≡ rs.now
        → MeetsTable W.World g s (Do (machine.Read place (key_of source.now))) give streams.old world.old result streams.new
        world.new }
    ensures owns { Owns (W.open_numbers world.new) streams.new }
{
    let found = record(place, source, rs, streams, world)?;
    Ok(read_value(found))
}

/// Opens a stream that is to be read, unless it is open, and answers whether it is open now.
fn open_named<W: World>(
    alloc: Global,
    place: Place,
    name: &StreamName<'_>,
    streams: &mut Streams,
    world: &mut W,
) -> Result<bool, Halt>
    requires { Owns (W.open_numbers world.old) streams.old }
    ensures task { (g : Given) (s : State) → MeetsTable W.World g s
        (Do (machine.Fetch place (kind name.now.class) name.now.text.now))
        (read_further place (Named (kind name.now.class) name.now.text.now)) streams.old world.old result
        streams.new world.new }
    ensures live { IfOk result (λ on. on ≡ true → IsLive (Named (kind name.now.class) name.now.text.now) streams.new) }
    ensures owns { Owns (W.open_numbers world.new) streams.new }
{
    let found = open_input(alloc, place, name, streams, world)?;
    Ok(found.is_some())
}

fn open_source<W: World>(
    alloc: Global,
    place: Place,
    source: &InputStream<'_>,
    streams: &mut Streams,
    world: &mut W,
) -> Result<bool, Halt>
    requires { Owns (W.open_numbers world.old) streams.old }
    ensures task { (g : Given) (s : State) → MeetsTable W.World g s
        (Do (fetching place (key_of source.now))) (read_further place (key_of source.now)) streams.old world.old result
        streams.new world.new }
    ensures live { IfOk result (λ on. on ≡ true → IsLive (key_of source.now) streams.new) }
    ensures owns { Owns (W.open_numbers world.new) streams.new }
{
    match source {
        InputStream::Standard => Ok(true),
        InputStream::Stream(name) => open_named(alloc, place, name, streams, world),
    }
}

/// As `fetch`, where no record was found that needs no other look. It stands out of line, since few records need it.
#[inline(never)]
fn fetch_any<W: World>(
    alloc: Global,
    place: Place,
    source: InputStream<'_>,
    rs: &[u8],
    streams: &mut Streams,
    world: &mut W,
) -> Result<Value, Halt>
    requires { Owns (W.open_numbers world.old) streams.old }
    ensures task { (g : Given) (s : State) → own_text s (codes "RS") ≡ rs.now
        → MeetsTable W.World g s (Do (fetching place (key_of source.entry))) give streams.old world.old result streams.new
        world.new }
    ensures owns { Owns (W.open_numbers world.new) streams.new }
{
    if !open_source(alloc, place, &source, streams, world)? {
        return Ok(Value::Num(-1));
    }
    read(place, &source, rs, streams, world)
}

/// Reads a record of a stream, which is opened before where it is not open; -1 where it can't be.
#[inline(always)]
pub fn fetch<W: World>(
    alloc: Global,
    place: Place,
    source: &InputStream<'_>,
    rs: &[u8],
    streams: &mut Streams,
    world: &mut W,
) -> Result<Value, Halt>
    requires { Owns (W.open_numbers world.old) streams.old }
    ensures task { (g : Given) (s : State) → own_text s (codes "RS") ≡ rs.now
        → MeetsTable W.World g s (Do (fetching place (key_of source.now))) give streams.old world.old result streams.new
        world.new }
    ensures owns { Owns (W.open_numbers world.new) streams.new }
{
    if let Some(text) = held_line(source, rs, streams) {
        return Ok(Value::Input(text));
    }
    fetch_any(alloc, place, *source, rs, streams, world)
}
