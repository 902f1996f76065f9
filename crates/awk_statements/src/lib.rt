//! The statements and items of awk are read from tokens, up to a whole script.
//!
//! Each function of the descent is equal to its rule in awk_tree's specs/Statements.antt, which
//! follows "Grammar" in POSIX.1-2017 XCU awk line by line.
#![tactic(auto)]

mod bodies;
mod items;
mod open;
mod places;
mod prints;
mod simple;
mod statement;
mod statement_signs;

pub use items::script;
pub use places::refusal;
