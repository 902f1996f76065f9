//! A policy explained to the person who writes it.
//!
//! [`why`] tells which rules of a policy speak of a request and which one decides, and [`explained`] tells it in lines.
//! [`lint`] tells what is wrong with a policy that is refused, and what the rules of one that is in order may not mean.
//! [`propose`] writes a policy that allows more.
#![tactic(auto)]

mod bytes;
mod commands;
mod covers;
mod cuts;
mod denials;
mod explaining;
mod faults;
mod folders;
mod heads;
mod linting;
mod log_lines;
mod lookalikes;
mod nearest;
mod oddities;
mod page;
mod places;
mod printing;
mod proposing;
mod quotes;
mod unreached;
mod wanting;
mod warnings;
mod wishes;
mod words;

pub use box_policy::policy::Kind;
pub use denials::{LogError, read_log};
pub use explaining::{Reasons, Wanted, explained, why};
pub use linting::{Findings, lint};
pub use proposing::{Basis, ProposalError, propose};
pub use unreached::Unreached;
pub use wishes::{Origin, Wish};
pub use words::kind_named;
