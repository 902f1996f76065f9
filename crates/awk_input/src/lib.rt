//! The records of a run of an awk script, and its output to streams: what getline reads and sets, the main input with
//! its operands, and what print puts ("Input/Output and General Functions", "OPERANDS", "STDIN", "Input Files" and
//! "Output Statements" of POSIX.1-2017 XCU awk). Each function does a task of the machine of plain awk, for the store
//! and the streams together. host.rt has what the host of a run gives.
#![tactic(auto)]

pub mod assigns;
pub mod counted;
mod files;
pub mod getline;
pub mod host;
pub mod main_input;
mod operands;
pub mod outputs;
mod progress;
pub mod ranges;
pub mod reads;
mod reports;
pub mod skipping;

pub use host::{Host, HostUse};
