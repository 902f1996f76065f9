// Scripts in the form that runs, as they are printed.
use crate::parses::script;
use awk_numbers::number::Numbers;
use awk_printer::printed;
use awk_text::Memory;
use awk_text::numeral::leading_digits;
use library_calls::args::{name, profile, text};
use library_calls::problem::Problem;
use library_calls::row::Arg;
use library_calls::shown::Shown;
use std::alloc::Global;

fn program(alloc: Global, numbers: Numbers, text: &[u8]) -> Shown {
    let script = script(alloc, numbers, text)?;
    let printed = printed(alloc, script.program());
    script.release();
    Ok(printed?)
}

/// How many bytes a space and the place behind it have, or none where no place stands here.
fn place_len(rest: &[u8]) -> usize {
    let [b' ', rest @ ..] = rest else {
        return 0;
    };
    let (line, _) = leading_digits(rest);
    let Some([b':', rest @ ..]) = rest.get(line..) else {
        return 0;
    };
    let (column, _) = leading_digits(rest);
    if line == 0 || column == 0 {
        return 0;
    }
    line.saturating_add(column).saturating_add(2)
}

/// The text without its places. It is to have no texts and EREs that look like one.
fn without_places(alloc: Global, mut rest: &[u8]) -> Result<Vec<u8>, Memory> {
    let mut shown = Vec::new(alloc);
    for _ in 0..rest.len() {
        let skipped = place_len(rest);
        if skipped > 0 {
            rest = rest.get(skipped..).unwrap_or(&[]);
            continue;
        }
        let [first, more @ ..] = rest else {
            break;
        };
        shown.push(*first)?;
        rest = more;
    }
    Ok(shown)
}

/// The answer of the call.
pub fn call(alloc: Global, args: &[Arg<'_>]) -> Shown {
    let (numbers, args) = profile(args);
    let program = program(alloc, numbers, text(args, 1))?;
    match name(args, 0) {
        "program" => Ok(program),
        "shape" => Ok(without_places(alloc, &program)?),
        _ => Err(Problem::NoCall),
    }
}
