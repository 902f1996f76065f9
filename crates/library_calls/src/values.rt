// Values, their arithmetic, and texts as scripts and logs write them.
use crate::args::{name, number, number_in, profile, text, values};
use crate::problem::Problem;
use crate::row::Arg;
use crate::shown::{Shown, bytes, show, show_number, show_value, yes_or_no};
use awk_numbers::number::{Number, Numbers};
use awk_text::arithmetic::{add, div, mul, neg, pow, rem, sub};
use awk_text::escape::unescape;
use awk_text::fault::Fault;
use awk_text::numeral::looks_in;
use awk_text::quote::quote_log;
use awk_text::texts::join;
use awk_text::value::{Value, compare, number_of, text_of, truth};
use std::alloc::Global;
use std::cmp::Ordering;

const FAULTS: [Fault; 13] = [
    Fault::OutOfRange,
    Fault::ZeroDivisor,
    Fault::Pattern,
    Fault::Format,
    Fault::CallDepth,
    Fault::TextTooLong,
    Fault::Output,
    Fault::NextOutside,
    Fault::FieldNumber,
    Fault::TooManyElements,
    Fault::StepBound,
    Fault::Log,
    Fault::Memory,
];

fn fault(alloc: Global, code: i64) -> Shown {
    for fault in FAULTS {
        if i64::from(fault.code()) == code {
            return show(alloc, fault);
        }
    }
    Err(Problem::NoArgument)
}

fn of_two(numbers: Numbers, call: &str, a: Number, b: Number) -> Result<Number, Problem> {
    let found = match call {
        "add" => add(numbers, a, b),
        "sub" => sub(numbers, a, b),
        "mul" => mul(numbers, a, b),
        "div" => div(numbers, a, b),
        "rem" => rem(numbers, a, b),
        "pow" => pow(numbers, a, b),
        _ => return Err(Problem::NoCall),
    };
    Ok(found?)
}

fn looks(alloc: Global, numbers: Numbers, text: &[u8]) -> Shown {
    match looks_in(numbers, text) {
        Some(number) => show_number(alloc, number),
        None => bytes(alloc, b"no"),
    }
}

fn order(alloc: Global, numbers: Numbers, a: &Value, b: &Value) -> Shown {
    let order: &[u8] = match compare(numbers, a, b) {
        Ordering::Less => b"less",
        Ordering::Equal => b"equal",
        Ordering::Greater => b"greater",
    };
    bytes(alloc, order)
}

fn of_values(alloc: Global, numbers: Numbers, call: &str, values: &[Value]) -> Shown {
    match (call, values) {
        ("number", [value]) => show_number(alloc, number_of(numbers, value)?),
        ("text", [value]) => Ok(text_of(alloc, value)?),
        ("truth", [value]) => yes_or_no(alloc, truth(numbers, value)),
        ("copy", [value]) => show_value(alloc, &value.copy(alloc)?),
        ("compare", [a, b]) => order(alloc, numbers, a, b),
        _ => Err(Problem::NoCall),
    }
}

/// The answer of the call.
pub fn call(alloc: Global, args: &[Arg<'_>]) -> Shown {
    let (numbers, args) = profile(args);
    match name(args, 0) {
        "fault" => fault(alloc, number(args, 1)?),
        "looks_numeric" => looks(alloc, numbers, text(args, 1)),
        "join" => Ok(join(alloc, text(args, 1), text(args, 2))?),
        "unescape" => Ok(unescape(alloc, text(args, 1))?),
        "quote_log" => Ok(quote_log(alloc, text(args, 1))?),
        "neg" => show_number(alloc, neg(numbers, number_in(numbers, args, 1)?)?),
        "add" | "sub" | "mul" | "div" | "rem" | "pow" => {
            let a = number_in(numbers, args, 1)?;
            let b = number_in(numbers, args, 2)?;
            show_number(alloc, of_two(numbers, name(args, 0), a, b)?)
        }
        call => of_values(alloc, numbers, call, &values(alloc, numbers, args, 1)?),
    }
}
