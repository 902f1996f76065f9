// The built-in functions of numbers, and of random ones.
ghost use Rattle.awk_machine.specs.Builtins as spec;
ghost use Rattle.awk_machine.specs.Forms.{listed};
ghost use Rattle.awk_machine.specs.Pieces.{At, Value_of, give};
ghost use Rattle.awk_machine.specs.State.{Given};
ghost use Rattle.awk_numbers.specs.Functions.{arc_tangent, cosine, exponential, logarithm, sine, square_root};
ghost use Rattle.awk_program.specs.Program as p;
ghost use Rattle.awk_program.specs.Program.{Expressions};
ghost use Rattle.awk_program.specs.declared.builtins.Builtin.TheVariants as b;
ghost use Rattle.awk_store.specs.Acts.{Acts};
ghost use Rattle.awk_store.specs.Numbers.{valued};
ghost use Rattle.awk_streams.specs.Tables.{Table};
ghost use Rattle.awk_text.specs.Lents.{lent_value};
ghost use Rattle.std.specs.Prelude.{length, reverse, ◌≡◌};

use awk_numbers::functions;
use awk_numbers::number::{Number, Numbers};
use awk_store::Store;
use awk_streams::halt::Halt;
use awk_text::arithmetic::truncated;
use awk_text::fault::Fault;
use awk_text::lent::Lent;
use awk_text::place::Place;
use awk_text::value::{Value, number_of};

/// The number of a value without its fraction, by the profile. Takes no memory.
///
/// Fails with `Fault::OutOfRange` where the number is out of range.
pub fn whole_number<'a>(numbers: Numbers, value: Lent<'a>) -> Result<Number, Fault>
    ensures { valued result ≡ spec.whole_number numbers (lent_value value.entry) }
{
    let number = value.number(numbers)?;
    truncated(number)
}

/// The square root of a value's number. Takes no memory.
///
/// Fails with `Fault::OutOfRange` where the number is out of range, or less than 0.
pub fn square_root_of<'a>(numbers: Numbers, value: Lent<'a>) -> Result<Number, Fault>
    ensures { valued result ≡ spec.of_one square_root numbers (lent_value value.entry) }
{
    let number = value.number(numbers)?;
    Ok(functions::square_root(number)?)
}

/// e to the power of a value's number. Takes no memory.
///
/// Fails with `Fault::OutOfRange` where the number is out of range, or the power is.
pub fn exponential_of<'a>(numbers: Numbers, value: Lent<'a>) -> Result<Number, Fault>
    ensures { valued result ≡ spec.of_one exponential numbers (lent_value value.entry) }
{
    let number = value.number(numbers)?;
    Ok(functions::exponential(number)?)
}

/// The logarithm of a value's number to the base e. Takes no memory.
///
/// Fails with `Fault::OutOfRange` where the number is out of range, or 0 or less.
pub fn logarithm_of<'a>(numbers: Numbers, value: Lent<'a>) -> Result<Number, Fault>
    ensures { valued result ≡ spec.of_one logarithm numbers (lent_value value.entry) }
{
    let number = value.number(numbers)?;
    Ok(functions::logarithm(number)?)
}

/// The sine of a value's number. Takes no memory.
///
/// Fails with `Fault::OutOfRange` where the number is out of range.
pub fn sine_of<'a>(numbers: Numbers, value: Lent<'a>) -> Result<Number, Fault>
    ensures { valued result ≡ spec.of_one sine numbers (lent_value value.entry) }
{
    let number = value.number(numbers)?;
    Ok(functions::sine(number)?)
}

/// The cosine of a value's number. Takes no memory.
///
/// Fails with `Fault::OutOfRange` where the number is out of range.
pub fn cosine_of<'a>(numbers: Numbers, value: Lent<'a>) -> Result<Number, Fault>
    ensures { valued result ≡ spec.of_one cosine numbers (lent_value value.entry) }
{
    let number = value.number(numbers)?;
    Ok(functions::cosine(number)?)
}

/// The angle from -pi to pi whose tangent is the quotient of two values' numbers. Takes no memory.
///
/// Fails with `Fault::OutOfRange` where one of the numbers is out of range.
pub fn arc_tangent_of<'a>(numbers: Numbers, y: Lent<'a>, x: Lent<'a>) -> Result<Number, Fault>
    ensures { valued result ≡ spec.of_two arc_tangent numbers (lent_value y.entry) (lent_value x.entry) }
{
    let y = y.number(numbers)?;
    let x = x.number(numbers)?;
    Ok(functions::arc_tangent(y, x)?)
}

/// What srand seeds by, where it has an argument. Takes no memory.
///
/// Fails with `Fault::OutOfRange` where the argument's number is out of range.
fn seed_in(numbers: Numbers, args: &[Value]) -> Result<Option<Number>, Fault>
    ensures { result ≡ spec.seed_in numbers args.now }
{
    match args {
        [seed, ..] => Ok(Some(number_of(numbers, seed)?)),
        [] => Ok(None),
    }
}

/// What `srand ( number )` and `srand ( )` give: the seed before. Takes no memory.
pub fn srand(store: &mut Store, place: Place, args: &[Value]) -> Result<Value, Halt>
    ensures { (g : Given) (t : Table) (xs : Expressions) → length (listed xs) ≡ length args.now
        → Acts g (At (Value_of (p.builtin place b.Srand xs)) (reverse args.now)) give (store.old, t) result
        (store.new, t) }
{
    match seed_in(store.numbers(), args) {
        Ok(seed) => Ok(Value::of(store.reseed(seed))),
        Err(fault) => Err(Halt::at(place, fault)),
    }
}
