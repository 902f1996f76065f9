// Arrays, and the built-in functions on texts.
use crate::args::{name, number, octets, text};
use crate::problem::Problem;
use crate::row::{Arg, Row};
use crate::shown::{Shown, bracketed, bytes, show, told};
use awk_ere::Ere;
use awk_lib::array::Array;
use awk_lib::{index, replace, substr, to_case};
use awk_text::octets::Octets;
use std::alloc::Global;

fn substr_of(alloc: Global, args: &[Arg<'_>]) -> Shown {
    let from = number(args, 2)?;
    let count = match args.get(3) {
        Some(_) => Some(number(args, 3)?),
        None => None,
    };
    bytes(alloc, substr(text(args, 1), from, count))
}

/// How many matches are replaced, and the new text.
fn replaced(alloc: Global, args: &[Arg<'_>], all: bool) -> Shown {
    let ere = Ere::parse(alloc, text(args, 1))?;
    let (new, count) = replace(alloc, &ere, text(args, 2), text(args, 3), all)?;
    let mut shown = show(alloc, count)?;
    shown.push(b' ')?;
    shown.extend_from_slice(new.bytes())?;
    Ok(shown)
}

/// The answer of the call.
pub fn call(alloc: Global, args: &[Arg<'_>]) -> Shown {
    match name(args, 0) {
        "index" => show(alloc, index(text(args, 1), text(args, 2))),
        "substr" => substr_of(alloc, args),
        "tolower" => Ok(to_case(alloc, text(args, 1), false)?),
        "toupper" => Ok(to_case(alloc, text(args, 1), true)?),
        "sub" => replaced(alloc, args, false),
        "gsub" => replaced(alloc, args, true),
        _ => Err(Problem::NoCall),
    }
}

fn put(alloc: Global, array: &mut Array<Octets>, key: &[u8], value: &[u8]) -> Shown {
    let key = Vec::from_slice(alloc, key)?;
    array.put(key, octets(alloc, value)?)?;
    bytes(alloc, b"done")
}

/// Puts the numbers up to this one, from 1 on, as keys without a value.
fn fill(alloc: Global, array: &mut Array<Octets>, most: i64) -> Shown {
    for key in 1..=most {
        put(alloc, array, show(alloc, key)?.as_slice(), b"")?;
    }
    bytes(alloc, b"done")
}

fn keys(alloc: Global, array: &mut Array<Octets>) -> Shown {
    bracketed(alloc, array.keys()?.as_slice())
}

fn step(alloc: Global, array: &mut Array<Octets>, args: &[Arg<'_>]) -> Shown {
    match name(args, 0) {
        "put" => put(alloc, array, text(args, 1), text(args, 2)),
        "fill" => fill(alloc, array, number(args, 1)?),
        "remove" => {
            array.remove(text(args, 1));
            bytes(alloc, b"done")
        }
        "clear" => {
            array.clear();
            bytes(alloc, b"done")
        }
        "get" => match array.get(text(args, 1)) {
            Some(value) => bytes(alloc, value.bytes()),
            None => bytes(alloc, b"none"),
        },
        "count" => show(alloc, array.count()),
        "keys" => keys(alloc, array),
        _ => Err(Problem::NoCall),
    }
}

/// The answers of the steps on an array that begins without elements.
pub fn block(alloc: Global, steps: &[Row<'_>]) -> Result<Vec<Octets>, Problem> {
    let mut array = Array::new(alloc);
    let mut answers = Vec::new(alloc);
    for row in steps {
        answers.push(told(alloc, step(alloc, &mut array, &row.args))?)?;
    }
    Ok(answers)
}
