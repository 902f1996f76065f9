//! Awk scripts run over any world: BEGIN, the rules for each record, and END ("Overall Program Structure", "OPTIONS"
//! and "OPERANDS" of POSIX.1-2017 XCU awk). [`run`] asks the world for what plain awk asks for, and reports plain awk's
//! outcome and steps; specs/Givens.antt says what plain awk is given.
#![tactic(auto)]

mod actions;
mod ends;
mod environ;
mod hosting;
pub mod laws;
mod phases;
mod program;
mod records;
mod report;
mod rules;
mod runs;
mod setup;
mod start;

pub use program::run_program;
pub use report::{Outcome, Report};
pub use runs::run;
pub use setup::{Setup, SetupError};
pub use start::Start;
