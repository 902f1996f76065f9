//! Records of an input, and the fields of a record, as awk has them (POSIX.1-2017 XCU awk,
//! "Input Files" and "Variables and Special Variables").
#![tactic(auto)]

mod edits;
mod front;
mod joining;
pub mod laws;
mod lines;
mod marks;
mod part;
mod parts;
pub mod reader;
pub mod row;
mod spans;
pub mod splitter;
pub mod stream;
mod words;

pub use reader::Reader as Reader;
pub use row::Record as Record;
pub use splitter::{Splitter as Splitter, split as split};
pub use stream::records as records;
