//! awk's arrays, and what its built-in functions do with texts (POSIX.1-2017 XCU awk, "Variables and
//! Special Variables" and "String Functions").
#![tactic(auto)]

pub mod array;
mod dense;
mod elements;
mod filling;
pub mod key;
mod new_text;
pub mod replacing;
mod same;
mod slot;
mod steps;
pub mod texts;

pub use replacing::{replace as replace, replace_any as replace_any};
pub use same::is_same as is_same;
pub use texts::{index as index, substr as substr, to_case as to_case};
