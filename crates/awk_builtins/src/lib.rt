//! What operators, built-in functions, patterns and print make of values that are there (POSIX.1-2017 XCU awk,
//! "Expressions in awk", "Functions" and "Output Statements"). A module has one subject, from the values alone up to
//! what the store then holds; no function evaluates a part, and only the built-in functions of `functions` ask the
//! world.
//!
//! Forms whose parts are at hand, as variables, fields and constants are, are done without a move of the machine of
//! plain awk for each part: `at_hand`.
#![tactic(auto)]

pub mod arrays;
pub mod at_hand;
pub mod cache;
pub mod chains;
pub mod comparisons;
pub mod functions;
pub mod keys;
pub mod line;
pub mod made;
mod numeric;
pub mod operands;
pub mod operators;
pub mod patterns;
pub mod printing;
pub mod replacements;
pub mod searches;
pub mod settings;
mod shown;
pub mod splits;
