//! An awk script under a written policy, for hosts that embed it: [`drive`] runs a script over a world,
//! and the world is asked only what the policy allows.
//!
//! A host gives [`drive`] the two texts, a [`Setup`], a bound of steps, a [`World`] and a log. One that looks at the
//! policy before the run takes it from [`prepare`]. A [`LimitedLog`] grows to a limit and no further. [`OsWorld`] is
//! the world of real files and commands, [`MemoryWorld`] one in memory, for tests. [`Ending`] is what the program
//! `awkbox` says and ends with after an answer, and [`Account`] what it reports for other programs. specs/Drives.antt
//! says what a run is.
//!
//! Without a run, [`sites_of`] and [`verdict_of`] answer what a script may ask of the world and what a policy says of
//! it; [`list`] and [`check`] answer what the program `awkbox` prints for them, on lines or as JSON, and its exit
//! status. specs/Answers.antt says what each of the four answers, and specs/Scripts.antt which texts are accepted and
//! refused.
#![tactic(auto)]

mod accepting;
mod account;
mod answers;
mod driver;
pub mod laws;
mod limited_read;
mod listing_refusal;
mod listings;
mod messages;
mod own_files;
mod stack;

pub use accepting::{Prepared, Refusal, prepare};
pub use account::Account;
pub use answers::{Answer, Format, check, list};
pub use awk_hash::Seed;
pub use awk_numbers::number::Numbers;
pub use awk_run::{Outcome, Report, Setup, SetupError};
pub use awk_text::Memory;
pub use awk_text::fault::Fault;
pub use awk_text::octets::Octets;
pub use awk_text::place::Place;
pub use awk_tokens::SyntaxError;
pub use box_monitor::limited_log::{LimitedLog, Sink};
pub use box_monitor::log_end::LogEnd;
pub use box_os::OsWorld;
pub use box_policy::error::PolicyError;
pub use box_policy::policy::Policy;
pub use box_world::ask::{Ask, Mode, Reply, Request, Stop};
pub use box_world::memory_world::MemoryWorld;
pub use box_world::world::World;
pub use driver::{Driven, Ran, drive};
pub use limited_read::{ReadError, read_limited};
pub use listing_refusal::ListingRefusal;
pub use listings::{sites_of, verdict_of};
pub use messages::{Ending, Message, OwnFile, Warning};
pub use own_files::{Identity, may_be_log, may_start, writing_rule};
pub use stack::tells_of_small_stack;
