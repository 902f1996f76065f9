// Patterns, and the search for their matches.
ghost use Rattle.std.specs.Prelude.{length, ◌≤◌};

use crate::args::{name, number, text};
use crate::problem::Problem;
use crate::row::Arg;
use crate::shown::{Shown, bytes, yes_or_no};
use awk_ere::{Ere, Plain};
use std::alloc::Global;

/// Where a match begins and ends, as the numbers of bytes before.
fn place(alloc: Global, found: Option<(usize, usize)>) -> Shown {
    match found {
        Some((start, end)) => Ok(format!(in alloc; "{start} {end}")?.into_bytes()),
        None => bytes(alloc, b"none"),
    }
}

fn find(alloc: Global, ere: &Ere, text: &[u8], from: usize) -> Shown {
    if from > text.len() {
        return Err(Problem::NoArgument);
    }
    place(alloc, ere.find(text, from)?)
}

/// Whether the quick search and the plain one find the same from the place on.
fn agree_from(
    alloc: Global,
    ere: &Ere,
    plain: &Plain,
    text: &[u8],
    from: usize,
) -> Result<bool, Problem>
    requires { from ≤ length text.now }
{
    Ok(ere.find(text, from)? == plain.find(alloc, text, from)?)
}

fn agree_on(alloc: Global, ere: &Ere, plain: &Plain, text: &[u8]) -> Result<bool, Problem> {
    Ok(
        agree_from(alloc, ere, plain, text, 0)?
            && agree_from(alloc, ere, plain, text, text.len() / 3)?
            && ere.is_match(text)? == plain.find(alloc, text, 0)?.is_some(),
    )
}

/// Whether both agree on each of the texts.
fn agree(alloc: Global, ere: &Ere, plain: &Plain, texts: &[Arg<'_>]) -> Shown {
    for arg in texts {
        if !agree_on(alloc, ere, plain, arg.text.as_slice())? {
            return Err(Problem::TwoAnswers);
        }
    }
    yes_or_no(alloc, true)
}

fn of_ere(alloc: Global, ere: &Ere, args: &[Arg<'_>]) -> Shown {
    match name(args, 0) {
        "pattern" => bytes(alloc, b"accepted"),
        "find" => find(alloc, ere, text(args, 2), 0),
        "find_from" => {
            let Ok(from) = usize::try_from(number(args, 3)?) else {
                return Err(Problem::NoArgument);
            };
            find(alloc, ere, text(args, 2), from)
        }
        "is_match" => yes_or_no(alloc, ere.is_match(text(args, 2))?),
        "agree" => {
            let plain = Plain::parse(alloc, text(args, 1))?;
            agree(alloc, ere, &plain, args.get(2..).unwrap_or(&[]))
        }
        _ => Err(Problem::NoCall),
    }
}

/// The answer of the call.
pub fn call(alloc: Global, args: &[Arg<'_>]) -> Shown {
    let ere = Ere::parse(alloc, text(args, 1))?;
    of_ere(alloc, &ere, args)
}
