// A written policy: rules in order, of which the first that fits decides.
#![tactic(auto)]

mod counting;
mod deciding;
pub mod error;
pub mod exact;
mod index;
pub mod laws;
mod matching;
mod names;
pub mod path;
pub mod policy;
mod reading;
mod table;
pub mod telling;
mod tokens;
