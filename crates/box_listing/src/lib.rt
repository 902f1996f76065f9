//! What an awk script may ask of the world, said before it runs.
//!
//! A site is a place where a run of the script may ask: each redirection of `print` and `printf`, each
//! `system`, each `getline` with a file or a command ("Output Statements" and "Input/Output and General
//! Functions" of POSIX.1-2017 XCU awk), and at 0:0 the operands and the environment. specs/Sites.antt
//! says which a program has, and specs/Listings.antt in which order they are listed.
#![tactic(auto)]

mod checking;
mod expressions;
mod json;
mod lines;
mod listing;
mod order;
mod program;
mod scripts;
mod site;
mod statements;
mod verdict;

pub use checking::checked;
pub use json::{judged_json, sites_json};
pub use lines::{line_of, lines_of, verdict_lines};
pub use listing::listed;
pub use scripts::{check, sites};
pub use site::{Site, Sort};
pub use verdict::{Sites, Verdict, judge};
