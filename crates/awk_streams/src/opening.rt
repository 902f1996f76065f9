// Streams are opened.
ghost use Rattle.std.specs.Prelude.{◌≡◌, Some, None, IfOk, IfSome};
ghost use Rattle.box_world.specs.Events.{Named, find_stream};
ghost use Rattle.box_world.specs.declared.ask.Request.TheVariants.{Open};
ghost use Rattle.awk_machine.specs.Getline as getline;
ghost use Rattle.awk_machine.specs.Pieces as machine;
ghost use Rattle.awk_machine.specs.Pieces.{Do};
ghost use Rattle.awk_machine.specs.State.{Given, State};
ghost use Rattle.awk_streams.specs.Tables.{kind, open_of};
ghost use Rattle.awk_streams.specs.Tasks.{MeetsTable, Opens, Owns, fetched, goes_on};

use crate::halt::Halt;
use crate::requests::request;
use crate::streams::{Class, StreamName, Streams};
use awk_text::fault::Fault;
use awk_text::octets::Octets;
use awk_text::place::Place;
use box_world::ask::{Mode, Reply, Request};
use box_world::world::World;
use std::alloc::Global;

fn number_opened(reply: &Reply) -> Option<u32>
    ensures { result ≡ Rattle.awk_streams.specs.Tasks.number_opened reply.now }
{
    match reply {
        Reply::Opened(number) => Some(*number),
        _ => None,
    }
}

/// What is asked to open a stream. `given` says that it is an operand word that the run was started with.
#[derive(Clone, Copy, Drop)]
pub struct OpenAsk<'a> {
    pub place: Place,
    pub given: bool,
    pub mode: Mode,
    pub name: StreamName<'a>,
}

/// Opens a stream that is not open yet, and answers its number; `None` where the world does not
/// open it. All memory is taken before the world is asked.
pub fn open<W: World>(
    alloc: Global,
    ask: OpenAsk<'_>,
    streams: &mut Streams,
    world: &mut W,
) -> Result<Option<u32>, Halt>
    requires owns { Owns (W.open_numbers world.old) streams.old }
    requires new { find_stream (kind ask.name.class) ask.name.text.now (open_of streams.old) ≡ None }
    ensures opens { Opens W.World (record {
      place = ask.entry.place;
      given = ask.entry.given;
      request = Open ask.entry.mode ask.entry.name.text.now;
    }) (kind ask.entry.name.class) ask.entry.name.text.now streams.old world.old result streams.new world.new }
    ensures owns { Owns (W.open_numbers world.new) streams.new }
{
    let kept = ask.name.kept(alloc)?;
    let sent = Octets::new(Vec::from_slice(alloc, ask.name.text)?);
    streams.make_room()?;
    let reply = request(ask.place, ask.given, Request::Open(ask.mode, sent), world)?;
    match number_opened(&reply) {
        Some(number) => {
            streams.add(kept, number);
            Ok(Some(number))
        }
        None => Ok(None),
    }
}

/// Opens a stream that is to be written, unless it is open, and answers its number; a failure is a
/// fault of the script.
pub fn open_output<W: World>(
    alloc: Global,
    place: Place,
    mode: Mode,
    name: &StreamName<'_>,
    streams: &mut Streams,
    world: &mut W,
) -> Result<u32, Halt>
    requires { Owns (W.open_numbers world.old) streams.old }
    ensures task { (g : Given) (s : State) → MeetsTable W.World g s
        (Do (machine.Open place mode (kind name.now.class) name.now.text.now)) goes_on streams.old world.old result
        streams.new world.new }
    ensures found { IfOk result
        (λ n. find_stream (kind name.now.class) name.now.text.now (open_of streams.new) ≡ Some n) }
    ensures owns { Owns (W.open_numbers world.new) streams.new }
{
    if let Some(number) = streams.number(name) {
        return Ok(number);
    }
    let ask = OpenAsk {
        place,
        given: false,
        mode,
        name: *name,
    };
    let Some(number) = open(alloc, ask, streams, world)? else {
        return Err(Halt::Fault(Fault::Output, place));
    };
    Ok(number)
}

/// Opens a stream that is to be read, unless it is open, and answers its number; `None` where the
/// world does not open it.
pub fn open_input<W: World>(
    alloc: Global,
    place: Place,
    name: &StreamName<'_>,
    streams: &mut Streams,
    world: &mut W,
) -> Result<Option<u32>, Halt>
    requires { Owns (W.open_numbers world.old) streams.old }
    ensures task { (g : Given) (s : State) → MeetsTable W.World g s
        (Do (machine.Fetch place (kind name.now.class) name.now.text.now))
        (fetched place (Named (kind name.now.class) name.now.text.now)) streams.old world.old result streams.new
        world.new }
    ensures found { IfOk result
        (λ o. IfSome o (λ n. find_stream (kind name.now.class) name.now.text.now (open_of streams.new) ≡ Some n)) }
    ensures owns { Owns (W.open_numbers world.new) streams.new }
{
    if let Some(number) = streams.number(name) {
        return Ok(Some(number));
    }
    let ask = OpenAsk {
        place,
        given: false,
        mode: input_mode(name.class),
        name: *name,
    };
    open(alloc, ask, streams, world)
}

fn input_mode(class: Class) -> Mode
    ensures { result ≡ getline.input_mode (kind class) }
{
    match class {
        Class::InputCommand => Mode::RunIn,
        _ => Mode::Read,
    }
}
