// Messages of a run.
ghost use Rattle.std.specs.Prelude.{◌≡◌, true, IfOk, OnOk};
ghost use Rattle.awk_machine.specs.Pieces.{Do, Report};
ghost use Rattle.awk_machine.specs.State.{Given};
ghost use Rattle.awk_store.specs.Changes.{with_main};
ghost use Rattle.awk_streams.specs.Tables.{Table};
ghost use Rattle.awk_streams.specs.Tasks.{goes_on};
ghost use Rattle.awk_input.specs.Inputs as spec;
ghost use Rattle.awk_input.specs.Performs.{MeetsWhole};

use crate::progress::fail;
use awk_store::Store;
use awk_streams::halt::Halt;
use awk_streams::requests::request;
use awk_text::fault::Fault;
use awk_text::octets::Octets;
use awk_text::place::Place;
use awk_text::quote::quote_log;
use box_world::ask::Request;
use box_world::world::World;
use std::alloc::Global;

/// The message that what is named so can't be opened, or read.
fn message(alloc: Global, what: &[u8], name: &[u8]) -> Result<Octets, Fault>
    ensures { IfOk result (λ text. text ≡ spec.message what.now name.now) }
{
    let quoted = quote_log(alloc, name)?;
    let mut text = Vec::from_slice(alloc, b"awkbox: cannot ".as_slice())?;
    text.extend_from_slice(what)?;
    text.extend_from_slice(b" \"".as_slice())?;
    text.extend_from_slice(quoted.as_slice())?;
    text.extend_from_slice(b"\"\n".as_slice())?;
    Ok(Octets::new(text))
}

/// Puts the message to the standard error output; whatever the reply, the run goes on, and has failed.
pub fn report<W: World>(
    alloc: Global,
    what: &[u8],
    name: &[u8],
    store: &mut Store,
    world: &mut W,
) -> Result<(), Halt>
    ensures task { (g : Given) (t : Table) →
        MeetsWhole W.World g (Do (Report what.now name.now)) goes_on (store.old, t) world.old result (store.new, t)
        world.new }
    ensures numbers { W.open_numbers world.new ≡ W.open_numbers world.old }
    ensures failed { OnOk result (store.new ≡ with_main (record store.old.main { failed = true }) store.old) }
{
    let Ok(text) = message(alloc, what, name) else {
        return Err(Halt::Memory);
    };
    let place = Place { line: 0, column: 0 };
    request(place, false, Request::Put(2, text), world)?;
    fail(store);
    Ok(())
}
