//! The world of the system: the files and the commands of the process that runs, and its environment.
//!
//! [`OsWorld`] keeps the law of `World`. What a file or a command gives and takes is the system's, and
//! no contract speaks of it; what is done with it is said by [`read_from`] and [`write_out`].
#![tactic(auto)]

mod commands;
mod environment;
mod os_world;
mod refusals;
mod streams;
mod table;
mod transfers;

pub use os_world::OsWorld;
pub use transfers::{read_from, write_out};
