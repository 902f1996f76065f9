// Texts, values, faults, and places in a script.
#![tactic(auto)]

pub mod arithmetic;
pub mod buffer;
pub mod escape;
pub mod fault;
pub mod lent;
pub mod numeral;
pub mod octets;
pub mod place;
pub mod quote;
pub mod texts;
pub mod value;

/// Memory was refused.
pub type Memory = std::alloc::AllocError;
