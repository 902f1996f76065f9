// The program awkbox: it runs an awk script in a sandbox, under a written policy, and tells before a run what
// the script may ask for.
#![tactic(auto)]

mod advice;
mod files;
mod folders;
mod program;
mod propose;
mod reasons;
mod runs;
mod scripts;
mod setup;
mod stack;
mod standard;

use std::process::ExitCode;

fn main(rt: HostRuntime) -> ExitCode {
    ExitCode::from(program::run(&rt))
}
