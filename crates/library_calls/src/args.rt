// What a call takes from its row. Arguments are counted from 1; the call's name stands at 0.
use crate::problem::Problem;
use crate::row::Arg;
use awk_numbers::number::{Number, Numbers};
use awk_text::Memory;
use awk_text::numeral::{looks_in, looks_numeric};
use awk_text::octets::Octets;
use awk_text::value::Value;
use std::alloc::Global;
use std::str;

/// The bare words of an argument; none where it is missing.
pub fn bare<'a, 'b>(args: &'a [Arg<'b>], at: usize) -> &'a [u8] {
    match args.get(at) {
        Some(arg) => arg.word,
        None => b"",
    }
}

/// The bare words of an argument, as a name that has a meaning in the table; no name has bytes that are not UTF-8.
pub fn name<'a, 'b>(args: &'a [Arg<'b>], at: usize) -> &'a str {
    str::from_utf8(bare(args, at)).unwrap_or("")
}

/// Which numbers a call has, and the call: behind the word `double` it is one of doubles.
pub fn profile<'a, 'b>(args: &'a [Arg<'b>]) -> (Numbers, &'a [Arg<'b>]) {
    match args {
        [first, call @ ..] if first.word == b"double".as_slice() => (Numbers::Double, call),
        _ => (Numbers::Whole, args),
    }
}

/// The text of an argument; the empty one where it is missing.
pub fn text<'a, 'b>(args: &'a [Arg<'b>], at: usize) -> &'a [u8] {
    match args.get(at) {
        Some(arg) => arg.text.as_slice(),
        None => b"",
    }
}

/// A whole number.
pub fn number(args: &[Arg<'_>], at: usize) -> Result<i64, Problem> {
    looks_numeric(bare(args, at)).ok_or(Problem::NoArgument)
}

/// The same of any profile.
pub fn number_in(numbers: Numbers, args: &[Arg<'_>], at: usize) -> Result<Number, Problem> {
    looks_in(numbers, bare(args, at)).ok_or(Problem::NoArgument)
}

pub fn octets(alloc: Global, bytes: &[u8]) -> Result<Octets, Memory> {
    Ok(Octets::of(alloc, bytes)?)
}

/// A value: a number, `unset`, a text, or a text from outside after the word `field`.
fn value(alloc: Global, numbers: Numbers, arg: &Arg<'_>) -> Result<Value, Problem> {
    if let Some(number) = looks_in(numbers, arg.word) {
        return Ok(Value::of(number));
    }
    let text = octets(alloc, arg.text.as_slice())?;
    match arg.word {
        b"unset" => Ok(Value::Unset),
        b"field" => Ok(Value::Input(text)),
        _ => Ok(Value::Text(text)),
    }
}

/// The arguments from this one on, as values.
pub fn values(
    alloc: Global,
    numbers: Numbers,
    args: &[Arg<'_>],
    from: usize,
) -> Result<Vec<Value>, Problem> {
    let mut values = Vec::new(alloc);
    for arg in args.iter().skip(from) {
        values.push(value(alloc, numbers, arg)?)?;
    }
    Ok(values)
}
