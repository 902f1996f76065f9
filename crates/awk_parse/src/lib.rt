//! Awk scripts: tokens are parsed as a tree in which every name has one kind, and made into the program that it stands
//! for.
//!
//! The grammar is that of POSIX.1-2017 XCU awk, "Grammar", in the profile of this project, whose constants are whole
//! numbers or doubles; what names are used as follows its "Variables and Special Variables" and "User-Defined
//! Functions". specs/Scripts.antt says what an accepted script is, and why others are refused.
#![tactic(auto)]

mod flaw;
pub mod grammar;
mod parser;
mod script;

pub use flaw::Flaw;
pub use parser::parse;
pub use script::{Script, canon};
