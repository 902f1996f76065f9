// Requests, and the tasks that are one request each.
ghost use Rattle.std.specs.Prelude.{◌≡◌, List, ◌∷◌, IfOk};
ghost use Rattle.box_world.specs.Calls.{IsDuty, IsStream};
ghost use Rattle.box_world.specs.Events.{Key};
ghost use Rattle.awk_program.specs.Slots.{Text};
ghost use Rattle.awk_machine.specs.Builtins.{status_of};
ghost use Rattle.awk_machine.specs.Pieces.{Do, Put, Run, Environ, give};
ghost use Rattle.awk_machine.specs.State.{Given, State};
ghost use Rattle.awk_streams.specs.Tables.{Table};
ghost use Rattle.awk_streams.specs.Tasks.{Answers, Numbers, MeetsTable, IsNumber, goes_on, looked};

use crate::halt::Halt;
use awk_text::fault::Fault;
use awk_text::octets::Octets;
use awk_text::place::Place;
use awk_text::value::Value;
use box_world::ask::{Ask, Reply, Request};
use box_world::world::World;

/// Makes a request that is lent. What it names is a stream that is open.
fn answer<W: World>(ask: &Ask, world: &mut W) -> Result<Reply, Halt>
    requires { IsDuty (W.open_numbers world.old) ask.now.request }
    ensures answer { Answers W.World ask.now world.old result world.new }
    ensures numbers { Numbers ask.now.request (W.open_numbers world.old) result (W.open_numbers world.new) }
{
    match world.ask(ask) {
        Ok(reply) => Ok(reply),
        Err(stop) => Err(Halt::by(ask.place, stop)),
    }
}

/// Makes a request. What it names is a stream that is open.
pub fn request<W: World>(
    place: Place,
    given: bool,
    request: Request,
    world: &mut W,
) -> Result<Reply, Halt>
    requires { IsDuty (W.open_numbers world.old) request }
    ensures answer { Answers W.World (record { place = place; given = given; request = request }) world.old result
        world.new }
    ensures numbers { Numbers request (W.open_numbers world.old) result (W.open_numbers world.new) }
{
    let ask = Ask {
        place,
        given,
        request,
    };
    answer(&ask, world)
}

/// Puts a text to a stream, by its number; a failure is a fault of the script. Answers the text, whose room can serve
/// the next one.
pub fn put<W: World>(place: Place, number: u32, text: Octets, world: &mut W) -> Result<Octets, Halt>
    requires { IsStream (W.open_numbers world.old) number }
    ensures task { (g : Given) (s : State) (table : Table) (key : Key) → IsNumber key number table
        → MeetsTable W.World g s (Do (Put place key text)) goes_on table world.old result table world.new }
    ensures text { IfOk result (λ same. same ≡ text) }
    ensures numbers { W.open_numbers world.new ≡ W.open_numbers world.old }
{
    let ask = Ask {
        place,
        given: false,
        request: Request::Put(number, text),
    };
    let reply = answer(&ask, world)?;
    if is_failed(&reply) {
        return Err(Halt::Fault(Fault::Output, place));
    }
    match text_put(ask.request) {
        Some(text) => Ok(text),
        None => unreachable!(),
    }
}

fn text_put(request: Request) -> Option<Octets>
    ensures { result ≡ Rattle.awk_streams.specs.Tasks.text_put request }
{
    match request {
        Request::Put(_, text) => Some(text),
        _ => None,
    }
}

fn is_failed(reply: &Reply) -> bool
    ensures { result ≡ Rattle.awk_streams.specs.Tasks.is_failed reply.now }
{
    matches!(reply, Reply::Failed)
}

/// Runs a command to its end, and answers its exit status, or -1 where the world does not run it.
pub fn system<W: World>(place: Place, command: Octets, world: &mut W) -> Result<Value, Halt>
    ensures task { (g : Given) (s : State) (table : Table)
        → MeetsTable W.World g s (Do (Run place command)) give table world.old result table world.new }
    ensures numbers { W.open_numbers world.new ≡ W.open_numbers world.old }
{
    let reply = request(place, false, Request::System(command), world)?;
    Ok(status(&reply))
}

fn status(reply: &Reply) -> Value
    ensures { result ≡ status_of reply.now }
{
    match reply {
        Reply::Status(status) => Value::Num(*status),
        _ => Value::Num(-1),
    }
}

/// The value of a name of the environment, if it has one.
pub fn environment<W: World>(name: Octets, world: &mut W) -> Result<Option<Octets>, Halt>
    ensures task { (g : Given) (s : State) (table : Table) (names : List Text)
        → MeetsTable W.World g s (Do (Environ (name ∷ names))) (looked name names) table world.old result table world.new }
    ensures numbers { W.open_numbers world.new ≡ W.open_numbers world.old }
{
    let place = Place { line: 0, column: 0 };
    let reply = request(place, false, Request::Env(name), world)?;
    Ok(value_given(reply))
}

fn value_given(reply: Reply) -> Option<Octets>
    ensures { result ≡ Rattle.awk_streams.specs.Tasks.value_given reply }
{
    match reply {
        Reply::Value(text) => Some(text),
        _ => None,
    }
}
