//! Plain awk as a machine: its state, its moves and its runs, in the whole-number profile of this project.
//!
//! What an awk script does, without a policy, said of the program that it is lowered to ("awk" of
//! POSIX.1-2017 XCU). The crate has definitions, in specs/, and laws about them.
#![tactic(auto)]

pub mod laws;
