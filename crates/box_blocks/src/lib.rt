// A world between an interpreter and another world, which joins what is written to one stream in neighbouring requests.
#![tactic(auto)]

pub mod buffered;
mod held;
