// The operands, as the main input comes to each.
ghost use Rattle.std.specs.Prelude.{◌≡◌, ◌+◌, ◌<◌, ◌≤◌, false, true, pos, length, int_lt, IfOk, MatchOption};
ghost use Rattle.std.specs.Fmt.{decimal};
ghost use Rattle.std.specs.List.{position_or_len};
ghost use Rattle.awk_lib.specs.Arrays.{element};
ghost use Rattle.awk_machine.specs.MainInput.{is_equals, operand_of, text_in};
ghost use Rattle.awk_machine.specs.Pieces as machine;
ghost use Rattle.awk_machine.specs.Pieces.{Do, Piece};
ghost use Rattle.awk_machine.specs.State.{Given};
ghost use Rattle.awk_store.specs.Kept.{array};
ghost use Rattle.awk_streams.specs.Tasks.{Owns, goes_on};
ghost use Rattle.awk_store.specs.Wholes.{Whole};
ghost use Rattle.awk_input.specs.Hosts.{IsHost};
ghost use Rattle.awk_input.specs.Operands.{Moves, argv, is_assigning, operand_count};
ghost use Rattle.awk_input.specs.Performs.{MeetsWhole};

use crate::assigns::{AssignmentOperand, assign};
use crate::files::begin_input;
use crate::host::Host;
use crate::progress::{move_to, name_input, pass_operands};
use awk_program::{Own, Variable};
use awk_store::Store;
use awk_store::steps::step;
use awk_streams::halt::{Halt, at};
use awk_streams::streams::Streams;
use awk_text::arithmetic::whole_of;
use awk_text::fault::Fault;
use awk_text::octets::Octets;
use awk_text::place::Place;
use awk_text::value::{number_of, text_of};
use box_world::world::World;
use itoa::Buffer;
use std::alloc::Global;

/// How many operands ARGC says there are: its number without the fraction.
fn argument_count(store: &Store) -> Result<i64, Fault>
    ensures { result ≡ operand_count store.now }
{
    match store.own(Own::Argc) {
        Some(value) => whole_of(number_of(store.numbers(), value)?),
        None => Ok(0),
    }
}

/// The place behind this one in ARGV, where this is the place of an operand.
fn place_behind(position: u64, count: i64) -> Option<u64>
    ensures { MatchOption result (int_lt (pos position) count ≡ false)
        (λ next. (int_lt (pos position) count ≡ true) × (next ≡ position + 1)) }
{
    match u64::try_from(count) {
        Ok(count) => {
            if position < count {
                return Some(position + 1);
            }
            None
        }
        Err(_) => None,
    }
}

/// The text of the next operand: its element of ARGV as it is now, which is not made where it is not
/// there.
fn operand_text(alloc: Global, store: &Store) -> Result<Octets, Fault>
    ensures { IfOk result (λ text. text ≡ text_in (element (array store.now argv) (decimal store.now.main.position))) }
{
    let mut buffer = Buffer::new();
    let key = buffer.format(store.main().position);
    match store.element(Variable::Global(Own::Argv.slot()), key.as_bytes()) {
        Some(value) => Ok(Octets::new(text_of(alloc, value)?)),
        None => Ok(Octets::new(Vec::new(alloc))),
    }
}

/// How many bytes stand before the first `=`.
fn name_length(text: &[u8]) -> usize
    ensures length { result ≡ position_or_len is_equals text.now }
    ensures within { result ≤ length text.now }
{
    for (i, b) in text.iter().enumerate() {
        if *b == b'=' {
            return i;
        }
    }
    text.len()
}

/// Where `=` stands in an operand that is an assignment to the host.
fn assignment_sign(host: &Host, text: &[u8]) -> Option<usize>
    ensures { MatchOption result (is_assigning host.now text.now ≡ false)
        (λ sign. (is_assigning host.now text.now ≡ true) × (sign ≡ position_or_len is_equals text.now)
        × (sign < length text.now)) }
{
    let sign = name_length(text);
    if sign < text.len() && host.can_assign(&text[..sign]) {
        return Some(sign);
    }
    None
}

/// Does the assignment that an operand is, or goes on to the input that it names. An empty one is
/// passed over.
fn begin_operand<W: World>(
    alloc: Global,
    host: &Host,
    text: Octets,
    store: &mut Store,
    streams: &mut Streams,
    world: &mut W,
) -> Result<(), Halt>
    requires { Owns (W.open_numbers world.old) streams.old }
    ensures task { (g : Given) → IsHost host.now g → (p : Piece) (old : Whole) →
        Moves g p old (operand_of g text) (store.old, streams.old)
        → MeetsWhole W.World g p goes_on old world.old result (store.new, streams.new) world.new }
    ensures owns { Owns (W.open_numbers world.new) streams.new }
{
    let bytes = text.bytes();
    if bytes.is_empty() {
        return Ok(());
    }
    if let Some(sign) = assignment_sign(host, bytes) {
        let operand = AssignmentOperand {
            whole: bytes,
            name: &bytes[..sign],
            text: &bytes[sign + 1..],
        };
        return assign(alloc, host, operand, store, world);
    }
    name_input(store);
    begin_input(alloc, host, text, store, streams, world)
}

/// Takes the next operand up, whose place in ARGV is before this one.
fn look<W: World>(
    alloc: Global,
    host: &Host,
    next: u64,
    store: &mut Store,
    streams: &mut Streams,
    world: &mut W,
) -> Result<(), Halt>
    requires owns { Owns (W.open_numbers world.old) streams.old }
    requires next { next ≡ store.old.main.position + 1 }
    ensures task { (g : Given) → IsHost host.now g
        → MeetsWhole W.World g (Do machine.Look) goes_on (store.old, streams.old) world.old result
        (store.new, streams.new) world.new }
    ensures owns { Owns (W.open_numbers world.new) streams.new }
{
    let Ok(text) = operand_text(alloc, store) else {
        return Err(Halt::Memory);
    };
    move_to(store, next);
    begin_operand(alloc, host, text, store, streams, world)
}

/// Goes on to the next operand, which takes a step, or to the standard input where none is left and
/// none named an input.
pub fn operand<W: World>(
    alloc: Global,
    host: &Host,
    store: &mut Store,
    streams: &mut Streams,
    world: &mut W,
) -> Result<(), Halt>
    requires { Owns (W.open_numbers world.old) streams.old }
    ensures task { (g : Given) → IsHost host.now g
        → MeetsWhole W.World g (Do machine.Operand) goes_on (store.old, streams.old) world.old result
        (store.new, streams.new) world.new }
    ensures owns { Owns (W.open_numbers world.new) streams.new }
{
    let place = Place { line: 0, column: 0 };
    let count = at(place, argument_count(store))?;
    let Some(next) = place_behind(store.main().position, count) else {
        pass_operands(store);
        return Ok(());
    };
    step(host.bound(), store)?;
    look(alloc, host, next, store, streams, world)
}
