// `printf` and `sprintf`.
use crate::args::{name, profile, text, values};
use crate::problem::Problem;
use crate::row::Arg;
use crate::shown::Shown;
use awk_format::format;
use std::alloc::Global;

/// The answer of the call.
pub fn call(alloc: Global, args: &[Arg<'_>]) -> Shown {
    let (numbers, args) = profile(args);
    match name(args, 0) {
        "format" => {
            let form = text(args, 1);
            Ok(format(alloc, numbers, form, &values(alloc, numbers, args, 2)?)?)
        }
        _ => Err(Problem::NoCall),
    }
}
