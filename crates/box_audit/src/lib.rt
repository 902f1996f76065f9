// A world between a policy and another world, which writes a line for each request that it passes on.
#![tactic(auto)]

pub mod laws;
mod lines;
pub mod watched;
