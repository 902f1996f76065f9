//! What of an awk script other awks do otherwise, or its writer may not mean: a hint for each, with its place.
//!
//! [`hints`] looks at the tokens of a script that is accepted, and [`script_lines`] tells them in lines.
//! specs/Hints.antt says which token each hint is caused by, and which tokens are never passed over.
#![tactic(auto)]

mod around;
mod divisions;
mod escapes;
mod fields;
mod formats;
mod hint;
mod known;
mod levels;
mod names;
mod numbers;
mod roles;
mod scripts;
mod telling;
mod words;

pub use hint::{Hint, HintKind};
pub use scripts::script_lines;
pub use telling::hints;
