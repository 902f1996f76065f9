//! What the program `awkbox` is started with: its words and what they ask for, and the names of its environment.
//!
//! [`read_words`] cuts the words into options and operands, and [`read_asked`] reads the options. Both tell the user
//! where nothing is asked for. No other crate names `clap`.
#![tactic(auto)]

mod answering;
mod command_line;
mod process;
mod words;

pub use answering::{NotAsked, read_asked, read_words};
pub use command_line::{Asked, Check, Lint, List, Propose, Run, STANDARD_INPUT, ScriptPart, Why};
pub use process::names;
pub use words::Words;
