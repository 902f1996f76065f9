// Variables that the host of a run sets.
ghost use Rattle.std.specs.Prelude.{◌≡◌, true, IfOk};
ghost use Rattle.awk_text.specs.Escapes.{unescaped};
ghost use Rattle.awk_program.specs.Program.{global};
ghost use Rattle.awk_machine.specs.MainInput.{assignment};
ghost use Rattle.awk_machine.specs.Pieces as machine;
ghost use Rattle.awk_machine.specs.Pieces.{Do, Piece, Set, nowhere};
ghost use Rattle.awk_machine.specs.State.{Given};
ghost use Rattle.awk_streams.specs.Tables.{Table};
ghost use Rattle.awk_streams.specs.Tasks.{goes_on};
ghost use Rattle.awk_store.specs.Acts.{Acts};
ghost use Rattle.awk_store.specs.Wholes.{Whole};
ghost use Rattle.awk_input.specs.Hosts.{IsHost, can_set};
ghost use Rattle.awk_input.specs.Operands as spec;
ghost use Rattle.awk_input.specs.Operands.{Moves};
ghost use Rattle.awk_input.specs.Performs.{MeetsWhole};

use crate::host::Host;
use awk_program::Variable;
use awk_store::targets::set;
use awk_store::{Spot, Store};
use awk_streams::halt::Halt;
use awk_streams::requests::request;
use awk_text::escape::unescape;
use awk_text::fault::Fault;
use awk_text::octets::Octets;
use awk_text::place::Place;
use awk_text::value::Value;
use box_world::ask::{Reply, Request};
use box_world::world::World;
use std::alloc::Global;

/// Sets the variable of a name that the host may set. A name that no variable of the script has
/// stands for none: nothing changes.
pub fn set_named(
    alloc: Global,
    host: &Host,
    name: &[u8],
    value: Value,
    store: &mut Store,
) -> Result<(), Halt>
    requires { can_set host.now name.now ≡ true }
    ensures { (g : Given) → IsHost host.now g → (t : Table) →
        Acts g (Do (Set (machine.Variable (global name.now)) nowhere value)) goes_on (store.old, t) result
        (store.new, t) }
{
    let place = Place { line: 0, column: 0 };
    match host.slot_of(name) {
        Some(slot) => set(
            alloc,
            store,
            Spot::Variable(Variable::Global(slot)),
            place,
            value,
        ),
        None => Ok(()),
    }
}

/// What an assignment needs memory for: its name and its text as they are sent, and its text with
/// the escapes read.
#[derive(Drop)]
struct Copies {
    name: Octets,
    text: Octets,
    value: Octets,
}

fn copy_all(alloc: Global, name: &[u8], text: &[u8]) -> Result<Copies, Fault>
    ensures name { IfOk result (λ x. x.name ≡ name.now) }
    ensures text { IfOk result (λ x. x.text ≡ text.now) }
    ensures value { IfOk result (λ x. x.value ≡ unescaped text.now) }
{
    Ok(Copies {
        name: Octets::of(alloc, name)?,
        text: Octets::of(alloc, text)?,
        value: Octets::new(unescape(alloc, text)?),
    })
}

fn is_done(reply: &Reply) -> bool
    ensures { result ≡ spec.is_done reply.now }
{
    matches!(reply, Reply::Done)
}

/// An operand that is an assignment.
#[derive(Clone, Copy, Drop)]
pub struct AssignmentOperand<'a> {
    pub whole: &'a [u8],
    /// What stands before its first `=`, and what stands behind it.
    pub name: &'a [u8],
    pub text: &'a [u8],
}

/// Does the assignment that an operand is, where the world lets it. All memory for it is taken before
/// the world is asked.
pub fn assign<W: World>(
    alloc: Global,
    host: &Host,
    operand: AssignmentOperand<'_>,
    store: &mut Store,
    world: &mut W,
) -> Result<(), Halt>
    requires { can_set host.now operand.name.now ≡ true }
    ensures task { (g : Given) → IsHost host.now g → (t : Table) (p : Piece) (old : Whole) →
        Moves g p old (assignment g operand.entry.whole.now operand.entry.name.now operand.entry.text.now)
        (store.old, t)
        → MeetsWhole W.World g p goes_on old world.old result (store.new, t) world.new }
    ensures numbers { W.open_numbers world.new ≡ W.open_numbers world.old }
{
    let Ok(sent) = copy_all(alloc, operand.name, operand.text) else {
        return Err(Halt::Memory);
    };
    let place = Place { line: 0, column: 0 };
    let given = host.is_given(operand.whole);
    let reply = request(place, given, Request::Assign(sent.name, sent.text), world)?;
    if !is_done(&reply) {
        return Ok(());
    }
    set_named(alloc, host, operand.name, Value::Input(sent.value), store)
}
