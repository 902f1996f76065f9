//! Extended regular expressions over bytes, as awk has them (POSIX.1-2017 XBD 9.4 and XCU awk).
#![tactic(auto)]

mod bracket;
mod closure;
mod compile;
mod edges;
mod ends;
pub mod ere;
pub mod error;
mod escape;
mod front;
mod heads;
mod interval;
pub mod laws;
mod lazy;
mod literal;
mod node;
mod pieces;
pub mod plain;
mod program;
mod read;
mod search;
mod states;
mod table;
mod token;
mod tree;

pub use ere::{Ere as Ere, Searches as Searches};
pub use error::EreError as EreError;
pub use plain::Plain as Plain;
