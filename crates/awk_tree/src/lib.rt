//! The syntax tree of an awk script, and the grammar by which tokens are read as one.
//!
//! The tree has a variant for each form of "Grammar" in POSIX.1-2017 XCU awk, in the whole-number
//! profile of this project, and keeps the places that faults, requests and refusals name. Contracts
//! see it as plain data (specs/Tree.antt). The grammar is a function on lists of tokens (the files
//! specs/Expressions.antt and specs/Statements.antt), to which the parser's functions are equal.
#![tactic(auto)]

mod expressions;
mod fault;
mod goals;
mod items;
mod names;
mod operators;
mod statements;

pub use awk_tokens::{Assignment, Builtin, Jump, Step, Terminal};
pub use expressions::{Expr, Piped, Term};
pub use fault::ParseError;
pub use goals::{Goal, Nested};
pub use items::{Function, Item, Pattern, Script};
pub use names::{Member, Name};
pub use operators::{Arithmetic, Comparison, Redirect, Sign};
pub use statements::{Printed, Redirection, Statement};
