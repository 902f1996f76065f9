//! The expressions of awk are read from tokens: a cursor over them, what a token is to the grammar, the nodes of the
//! tree, and the rules.
//!
//! Each function is equal to its rule, or to its part of one, in the specs of `awk_tree`, which follow "Grammar" in
//! POSIX.1-2017 XCU awk line by line. Only `expr` calls itself, once for each level of nesting: it
//! hands itself in as the function that the rules call where they nest.
#![tactic(auto)]

mod arithmetic;
mod builtins;
mod expression_signs;
mod grammar;
mod lists;
mod logic;
mod lvalues;
mod members;
mod nesting;
pub mod nodes;
mod operands;
mod pairs;
mod relations;
mod terminals;
mod tokens;

pub use nesting::{Level, expr};
pub use nodes::{joined, name_of};
pub use pairs::{pair, refused};
pub use terminals::{is, terminal};
pub use tokens::Tokens;
