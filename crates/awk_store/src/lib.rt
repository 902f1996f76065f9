//! What a run of an awk script holds, apart from the script itself and the world: variables, arrays, the calls that are
//! under way, the record, and how far the run is ("Variables and Special Variables", "Actions" and "User-Defined
//! Functions" of POSIX.1-2017 XCU awk).
//!
//! Contracts see a store as the plain record of specs/Kept.antt, and each call that changes it is one definition of
//! specs/Changes.antt. specs/States.antt says which state of the machine a store stands for, and laws.rt that each such
//! change is the machine's own. What the machine does with a variable, an element, a field, a call or a jump is said by
//! `Acts` (specs/Acts.antt), for the store and the streams together.
#![tactic(auto)]

mod arrays;
mod calls;
mod cell;
pub mod counters;
pub mod elements;
pub mod fields;
mod filling;
mod frame;
pub mod frames;
pub mod jumps;
pub mod laws;
mod main_input;
pub mod numbers;
mod phase;
mod record;
mod separators;
pub mod shown;
mod spot;
pub mod steps;
mod store;
pub mod targets;
pub mod values;
pub mod variables;

pub use calls::MOST_DEPTH as MOST_DEPTH;
pub use cell::Cell;
pub use frame::{Bound, Caller, Passed, Reference};
pub use main_input::{CurrentInput, MainInput};
pub use phase::Phase;
pub use spot::{ElementKey, Spot};
pub use store::Store;
pub use variables::is_nf as is_nf;
