//! The names of an awk script: what each is used as, which of scalar, array and function it is, and its slot.
//!
//! "Variables and Special Variables" and "User-Defined Functions" of POSIX.1-2017 XCU awk: a variable is there by being
//! named, beside those that awk sets; the parameters of a function are its own; and no name is used as two of scalar,
//! array and function. specs/Mentions.antt says of a tree which uses it has, specs/Kinds.antt what they make of each
//! name, specs/Faults.antt which faults stand in it, and specs/Tables.antt which variables and functions the script
//! has, and in which order.
#![tactic(auto)]

mod expressions;
mod faults;
mod kinds;
mod mention;
mod numbers;
mod requests;
mod statements;
mod tables;
mod text_tables;
mod uses;
mod variables;

pub use faults::{faultless_places_aside, misdefined, misplaced};
pub use kinds::Kinds;
pub use mention::{Mention, Role, Section};
pub use requests::{names_environ, reads_main};
pub use statements::parts;
pub use tables::{Tables, tables_of};
pub use text_tables::{OwnNames, Roll};
