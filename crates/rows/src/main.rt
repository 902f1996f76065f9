//! Checks the worked rows of all but the libraries. Each line of a table of the folder that this is started in names a
//! call, its arguments and the answer that it is to have; the program makes the call, and tells each line
//! that does not hold and how many do. The tables begin with what a user needs to add one.
#![tactic(auto)]

mod asked;
mod embedding;
mod inputs;
mod prefixes;
mod run_log;
mod runs;
mod start;
mod table;

use library_calls::report::Tally;
use std::process::ExitCode;
use table::TABLES;

fn main(rt: HostRuntime) -> ExitCode {
    let mut report = Tally::new();
    for table in TABLES {
        report.check_file(&rt, &table);
    }
    ExitCode::from(report.end(&rt))
}
