// What an interpreter asks of the world outside, and what answers.
#![tactic(auto)]

pub mod ask;
pub mod memory_world;
pub mod world;
