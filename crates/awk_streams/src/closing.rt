// Streams are shut: those of a text, and at the end of a run all.
ghost use Rattle.std.specs.Prelude.{◌≡◌, [], false, None, OnOk, MatchResult, option_map};
ghost use Rattle.awk_machine.specs.Closing as machine;
ghost use Rattle.awk_machine.specs.Pieces.{Close, Closing, Do, Outcome, give};
ghost use Rattle.awk_machine.specs.State.{Given, State};
ghost use Rattle.box_world.specs.Calls.{IsStream, without};
ghost use Rattle.box_world.specs.declared.ask.Request.TheVariants.{Shut};
ghost use Rattle.awk_streams.specs.Closings as spec;
ghost use Rattle.awk_streams.specs.Closings.{Shuts};
ghost use Rattle.awk_streams.specs.Tasks.{MeetsTable, Owns, closing};

use crate::halt::Halt;
use crate::requests::request;
use crate::streams::{StreamName, Streams};
use awk_text::place::Place;
use awk_text::value::Value;
use box_world::ask::{Reply, Request};
use box_world::world::World;

/// Shuts all streams in order of opening, whatever the replies, and answers whether any was open.
pub fn shut_all<W: World>(streams: &mut Streams, world: &mut W) -> Result<bool, Halt>
    requires { Owns (W.open_numbers world.old) streams.old }
    ensures task { (g : Given) (s : State) (o : Outcome)
        → MeetsTable W.World g s (Do (Closing o)) (closing o) streams.old world.old result streams.new world.new }
    ensures none { OnOk result (streams.new.entries ≡ []) }
{
    let place = Place { line: 0, column: 0 };
    let mut any = false;
    while let Some(number) = streams.first_number() {
        request(place, false, Request::Shut(number), world)?;
        streams.remove_first();
        any = true;
    }
    Ok(any)
}

/// What a shutting has answered, as a status.
fn shut_status(reply: &Reply) -> i64
    ensures { result ≡ spec.shut_status reply.now }
{
    match reply {
        Reply::Done => 0,
        Reply::Status(status) => *status,
        _ => -1,
    }
}

/// The first status that is not 0, where this one comes behind the others.
fn first_status(so_far: Option<i64>, status: i64) -> i64
    ensures { result ≡ spec.first_status so_far status }
{
    match so_far {
        Some(first) if first != 0 => first,
        _ => status,
    }
}

/// The status as a value; -1 where nothing was shut.
fn answer_or(so_far: Option<i64>) -> Value
    ensures { result ≡ machine.answer_or (option_map (λ n. Value.Num n) so_far) }
{
    match so_far {
        Some(status) => Value::Num(status),
        None => Value::Num(-1),
    }
}

/// Shuts a stream by its number, and answers its status.
fn shut<W: World>(place: Place, number: u32, world: &mut W) -> Result<i64, Halt>
    requires { IsStream (W.open_numbers world.old) number }
    ensures answer { Shuts W.World (record { place = place; given = false; request = Shut number }) world.old result
        world.new }
    ensures numbers { MatchResult result (λ n. W.open_numbers world.new ≡ without number (W.open_numbers world.old))
        (λ h. W.open_numbers world.new ≡ W.open_numbers world.old) }
{
    let reply = request(place, false, Request::Shut(number), world)?;
    Ok(shut_status(&reply))
}

/// Shuts every stream of this text, an operand's aside, in order of opening, and answers the first
/// status that is not 0; -1 where none was open.
pub fn close<W: World>(
    place: Place,
    text: &[u8],
    streams: &mut Streams,
    world: &mut W,
) -> Result<Value, Halt>
    requires { Owns (W.open_numbers world.old) streams.old }
    ensures task { (g : Given) (s : State)
        → MeetsTable W.World g s (Do (Close place text.now None)) give streams.old world.old result streams.new world.new }
    ensures owns { Owns (W.open_numbers world.new) streams.new }
{
    let mut answer = None;
    while let Some((class, number)) = streams.first_of(text) {
        let status = shut(place, number, world)?;
        streams.remove(&StreamName { class, text });
        answer = Some(first_status(answer, status));
    }
    Ok(answer_or(answer))
}
