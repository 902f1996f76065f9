//! What a run of an awk script asks of the world outside ("Input/Output and General Functions" of POSIX.1-2017 XCU
//! awk): each function does one task of the machine of plain awk.
#![tactic(auto)]

pub mod closing;
pub mod flow;
pub mod getline;
pub mod halt;
pub mod inputs;
pub mod opening;
pub mod requests;
pub mod streams;
