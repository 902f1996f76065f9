// The built-in functions whose arguments are plain values, by `called`.
ghost use Rattle.awk_lib.specs.Texts as texts;
ghost use Rattle.awk_machine.specs.Builtins as spec;
ghost use Rattle.awk_machine.specs.Flushing as flushing;
ghost use Rattle.awk_machine.specs.Forms.{listed};
ghost use Rattle.awk_machine.specs.Operators.{of_count};
ghost use Rattle.awk_machine.specs.Pieces.{At, Close, Do, Run, Value_of, give};
ghost use Rattle.awk_machine.specs.State.{Given};
ghost use Rattle.awk_program.specs.Program as p;
ghost use Rattle.awk_program.specs.Program.{Expressions};
ghost use Rattle.awk_program.specs.declared.builtins.Builtin.TheVariants as b;
ghost use Rattle.awk_store.specs.Acts.{Acts};
ghost use Rattle.awk_store.specs.Kept.{Kept};
ghost use Rattle.awk_store.specs.Wholes.{Agreeing, Whole, base, used};
ghost use Rattle.awk_streams.specs.Chains.{Meets};
ghost use Rattle.awk_streams.specs.Tables.{Table, open_of};
ghost use Rattle.awk_streams.specs.Tasks.{Owns};
ghost use Rattle.awk_text.specs.Lents.{lent_value};
ghost use Rattle.awk_text.specs.Values.{text_of};
ghost use Rattle.std.specs.Prelude.{Err, IfErr, IfOk, IfSome, IsOkUnless, None, Ok, drop, length, reverse, ◌≡◌};

use crate::made::{number_at, owned};
use crate::numeric::{
    arc_tangent_of, cosine_of, exponential_of, logarithm_of, sine_of, square_root_of, srand,
    whole_number,
};
use crate::printing::sprintf;
use awk_lib::texts::{index, substr, to_case};
use awk_numbers::number::Numbers;
use awk_program::Builtin;
use awk_store::Store;
use awk_streams::halt::Halt;
use awk_streams::streams::Streams;
use awk_streams::{closing, requests};
use awk_text::arithmetic::clamped;
use awk_text::buffer::Buffer;
use awk_text::fault::Fault;
use awk_text::lent::Lent;
use awk_text::octets::Octets;
use awk_text::place::Place;
use awk_text::value::{Value, number_of};
use box_world::world::World;
use std::alloc::Global;

/// How many bytes the text of a value has. Takes no memory.
pub fn text_length<'a>(value: Lent<'a>) -> i64
    ensures { Value.Num result ≡ of_count (length (text_of (lent_value value.entry))) }
{
    let mut buffer = Buffer::new();
    value.text(&mut buffer).len() as i64
}

/// The text of a value in upper case, or in lower case.
///
/// Fails with `Fault::Memory` alone, where memory is refused.
pub fn cased<'a>(alloc: Global, value: Lent<'a>, upper: bool) -> Result<Value, Fault>
    ensures ok { IfOk result (λ new. new ≡ Value.Text (texts.to_case upper (text_of (lent_value value.entry)))) }
    ensures err { IsOkUnless result Fault.Memory }
{
    let mut buffer = Buffer::new();
    let new = to_case(alloc, value.text(&mut buffer), upper)?;
    Ok(Value::Text(Octets::new(new)))
}

/// The first place of the second text in the first one, counted from 1, or 0. Takes no memory.
pub fn index_of<'a>(value: Lent<'a>, part: Lent<'a>) -> i64
    ensures { Value.Num result
        ≡ of_count (texts.index (text_of (lent_value value.entry)) (text_of (lent_value part.entry))) }
{
    let (mut first, mut second) = (Buffer::new(), Buffer::new());
    index(value.text(&mut first), part.text(&mut second))
}

/// The part of a text from a place on, of so many bytes where there is a count. A number has no text that can be lent.
pub fn part_of<'a>(value: Lent<'a>, from: i64, count: Option<i64>) -> Option<Lent<'a>>
    ensures { IfSome result
        (λ new. lent_value new ≡ Value.Text (texts.substr (text_of (lent_value value.entry)) from count)) }
{
    match value {
        Lent::Text(text) | Lent::Input(text) => Some(Lent::Text(substr(text, from, count))),
        Lent::Unset | Lent::Num(_) | Lent::Real(_) => None,
    }
}

/// The argument at this index; it is unset where there is none.
fn argument(args: &[Value], at: usize) -> Lent<'_>
    ensures { lent_value result ≡ spec.argument args.now at }
{
    match args.get(at) {
        Some(value) => Lent::of(value),
        None => Lent::Unset,
    }
}

/// The number of the third argument without its fraction, where there is one. Takes no memory.
///
/// Fails with `Fault::OutOfRange` where that number is out of range.
fn count_of(numbers: Numbers, args: &[Value]) -> Result<Option<i64>, Fault>
    ensures { result ≡ spec.count_of numbers (drop 2 args.now) }
{
    match args {
        [_, _, count, ..] => Ok(Some(clamped(number_of(numbers, count)?))),
        _ => Ok(None),
    }
}

/// The part of a text that the arguments of substr tell, lent: a number's text is written into the buffer. Takes no
/// memory.
///
/// Fails with `Fault::OutOfRange` where a number, of the place or of the count, is out of range.
fn substr_of<'a>(
    numbers: Numbers,
    args: &'a [Value],
    buffer: &'a mut Buffer,
) -> Result<&'a [u8], Fault>
    ensures ok { IfOk result (λ text. spec.substr_of numbers args.now ≡ Ok (Value.Text text.now)) }
    ensures err { IfErr result (λ e. spec.substr_of numbers args.now ≡ Err e) }
{
    let from = argument(args, 1).number(numbers)?;
    let count = count_of(numbers, args)?;
    Ok(substr(argument(args, 0).text(buffer), clamped(from), count))
}

/// What `substr ( text , place , count )` gives.
fn substr_in(alloc: Global, numbers: Numbers, place: Place, args: &[Value]) -> Result<Value, Halt>
    ensures { (g : Given) (w : Whole) (xs : Expressions) → numbers ≡ w.0.numbers
        → length (listed xs) ≡ length args.now
        → Acts g (At (Value_of (p.builtin place b.Substr xs)) (reverse args.now)) give w result w }
{
    let mut buffer = Buffer::new();
    match substr_of(numbers, args, &mut buffer) {
        Ok(text) => owned(alloc, text),
        Err(fault) => Err(Halt::at(place, fault)),
    }
}

/// What tolower and toupper give.
fn in_case<'a>(alloc: Global, value: Lent<'a>, upper: bool) -> Result<Value, Halt>
    ensures ok { IfOk result (λ new. new ≡ Value.Text (texts.to_case upper (text_of (lent_value value.entry)))) }
    ensures err { IfErr result (λ h. h ≡ Halt.Memory) }
{
    match cased(alloc, value, upper) {
        Ok(new) => Ok(new),
        Err(_) => Err(Halt::Memory),
    }
}

/// What `fflush ( name )` gives: 0 where an output file or an output command of this name is open, and else -1. Each
/// text was put as it was printed, so there is nothing to write. Takes no memory.
fn flush<'a>(name: Lent<'a>, streams: &Streams) -> Value
    ensures { result ≡ flushing.flush (text_of (lent_value name.entry)) (open_of streams.now) }
{
    let mut buffer = Buffer::new();
    if streams.has_output(name.text(&mut buffer)) {
        return Value::Num(0);
    }
    Value::Num(-1)
}

/// Shuts the streams of this name, and answers as `closing::close` does.
fn close<'a, W: World>(
    place: Place,
    name: Lent<'a>,
    streams: &mut Streams,
    world: &mut W,
) -> Result<Value, Halt>
    requires { Owns (W.open_numbers world.old) streams.old }
    ensures task { (g : Given) (k : Kept)
        → Meets W.World (base g) (Agreeing g) used g (Do (Close place (text_of (lent_value name.entry)) None)) give
        (k, streams.old) world.old result (k, streams.new) world.new }
    ensures owns { Owns (W.open_numbers world.new) streams.new }
{
    let mut buffer = Buffer::new();
    closing::close(place, name.text(&mut buffer), streams, world)
}

/// Runs a command to its end, and answers as `requests::system` does.
fn run<'a, W: World>(
    alloc: Global,
    place: Place,
    command: Lent<'a>,
    world: &mut W,
) -> Result<Value, Halt>
    ensures task { (g : Given) (k : Kept) (t : Table)
        → Meets W.World (base g) (Agreeing g) used g (Do (Run place (text_of (lent_value command.entry)))) give (k, t)
        world.old result (k, t) world.new }
    ensures numbers { W.open_numbers world.new ≡ W.open_numbers world.old }
{
    let mut buffer = Buffer::new();
    let text = Vec::from_slice(alloc, command.text(&mut buffer))?;
    requests::system(place, Octets::new(text), world)
}

/// What a built-in function gives for these arguments, of which those that are not there are unset, by the store's
/// profile. Of the store, only the random numbers may go on.
pub fn called<W: World>(
    alloc: Global,
    store: &mut Store,
    place: Place,
    which: Builtin,
    args: &[Value],
    streams: &mut Streams,
    world: &mut W,
) -> Result<Value, Halt>
    requires { Owns (W.open_numbers world.old) streams.old }
    ensures task { (g : Given) (xs : Expressions) → length (listed xs) ≡ length args.now
        → Meets W.World (base g) (Agreeing g) used g (At (Value_of (p.builtin place which xs)) (reverse args.now)) give
        (store.old, streams.old) world.old result (store.new, streams.new) world.new }
    ensures owns { Owns (W.open_numbers world.new) streams.new }
{
    let numbers = store.numbers();
    match which {
        Builtin::Atan2 => number_at(
            place,
            arc_tangent_of(numbers, argument(args, 0), argument(args, 1)),
        ),
        Builtin::Close => close(place, argument(args, 0), streams, world),
        Builtin::Cos => number_at(place, cosine_of(numbers, argument(args, 0))),
        Builtin::Exp => number_at(place, exponential_of(numbers, argument(args, 0))),
        Builtin::Fflush => Ok(flush(argument(args, 0), streams)),
        Builtin::Index => Ok(Value::Num(index_of(argument(args, 0), argument(args, 1)))),
        Builtin::Int => number_at(place, whole_number(numbers, argument(args, 0))),
        Builtin::Length => Ok(Value::Num(text_length(argument(args, 0)))),
        Builtin::Log => number_at(place, logarithm_of(numbers, argument(args, 0))),
        Builtin::Rand => Ok(Value::of(store.draw())),
        Builtin::Sin => number_at(place, sine_of(numbers, argument(args, 0))),
        Builtin::Sprintf => sprintf(alloc, store, place, args),
        Builtin::Sqrt => number_at(place, square_root_of(numbers, argument(args, 0))),
        Builtin::Srand => srand(store, place, args),
        Builtin::Substr => substr_in(alloc, numbers, place, args),
        Builtin::System => run(alloc, place, argument(args, 0), world),
        Builtin::Tolower => in_case(alloc, argument(args, 0), false),
        Builtin::Toupper => in_case(alloc, argument(args, 0), true),
    }
}
