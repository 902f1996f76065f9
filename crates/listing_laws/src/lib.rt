//! What holds of the sites of a script, of its runs, and of the texts that scripts and policies are read from.
//!
//! Sites are listed by `box_listing`, and runs are those of plain awk, by the definition in `awk_machine`.
//! The crate says which request a site covers (specs/Covers.antt), and has laws on that.
#![tactic(auto)]

pub mod laws;
pub mod texts;
