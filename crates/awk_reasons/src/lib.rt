//! What a person needs beside a message: of a refused script what stands at its place and what may stand there, and of
//! an operand that was passed over the line of the log that denies it.
//!
//! [`reason`], [`denied`] and [`told_of`] are the calls. What they say is advice, and has no contract.
#![tactic(auto)]

mod bytes;
mod foreign;
mod operands;
mod places;
mod reasons;
mod tokens;

pub use operands::{denied, told_of};
pub use reasons::reason;
