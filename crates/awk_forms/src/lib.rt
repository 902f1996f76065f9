//! The forms of expressions: how each is evaluated over any world, as plain awk does ("Expressions in awk" of
//! POSIX.1-2017 XCU awk).
//!
//! A form is generic over what evaluates its parts ([`evaluates::Evaluates`]), and does not call itself: the recursion
//! stands in awk_eval. So a form is proved by itself, and an edit of it makes no other one anew.
#![tactic(auto)]

pub mod context;
pub mod evaluates;
pub mod expressions;
mod growing;
pub mod inputs;
pub mod lists;
pub mod operands;
pub mod patterns;
pub mod sources;
pub mod targets;
pub mod tests;
pub mod units;

pub use context::{Context, Run};
pub use units::MOST_UNITS as MOST_UNITS;
