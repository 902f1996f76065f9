// A world between an interpreter and another world, which passes on what a policy allows and logs
// what it denies.
#![tactic(auto)]

pub mod denial;
mod judge;
pub mod limited_log;
pub mod line;
pub mod log_end;
pub mod monitor;
pub mod write;
