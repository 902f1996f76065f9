//! Statements of awk scripts are carried out over any world, as plain awk does ("Actions" of POSIX.1-2017 XCU awk),
//! with the calls of the script's functions.
//!
//! The forms of statements, as those of expressions in awk_forms, do not call themselves: the recursion of both stands
//! in `walk` alone.
#![tactic(auto)]

mod calls;
mod effects;
mod loops;
mod output;
mod statements;
mod walk;

pub use walk::{body, statement, truth_of, value};
