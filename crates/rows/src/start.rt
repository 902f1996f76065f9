// What a run begins with.

use crate::run_log::RunLog;
use awk_text::octets::Octets;
use awkbox::{Driven, MemoryWorld, Numbers, Setup, drive};
use library_calls::args::{name, number, octets, text};
use library_calls::problem::Problem;
use library_calls::row::Arg;
use library_calls::shown::{Shown, bytes};
use row_calls::worlds::prepare;
use std::alloc::Global;

/// How many steps a run may take where its row does not say.
const STEPS: u64 = 1_000;

/// The most pairs of `-v` that a row may have.
const MOST_PAIRS: usize = 1_000;

/// What a run begins with.
#[derive(Drop)]
pub struct Beginning {
    world: MemoryWorld,
    operands: Vec<Octets>,
    names: Vec<Octets>,
    assigns: Vec<(Octets, Octets)>,
    separator: Option<Octets>,
    numbers: Numbers,
    bound: u64,
    log: RunLog,
}

/// Whether a step with this name says what a run begins with.
pub fn is_start(name: &str) -> bool {
    matches!(
        name,
        "command"
            | "put_file"
            | "put_env"
            | "put_input"
            | "chunk"
            | "fail_at"
            | "fail_from"
            | "operand"
            | "assign"
            | "separator"
            | "numbers"
            | "bound"
            | "fail_write"
            | "fail_flush"
    )
}

fn count(args: &[Arg<'_>]) -> Result<u32, Problem> {
    match u32::try_from(number(args, 1)?) {
        Ok(count) => Ok(count),
        Err(_) => Err(Problem::NoArgument),
    }
}

/// Which numbers a script has: the word is `whole` or `double`.
fn numbers(args: &[Arg<'_>]) -> Result<Numbers, Problem> {
    match name(args, 1) {
        "whole" => Ok(Numbers::Whole),
        "double" => Ok(Numbers::Double),
        _ => Err(Problem::NoArgument),
    }
}

impl Beginning {
    /// An empty world, no words of the host, the usual bound and a log that never fails.
    pub fn new(alloc: Global) -> Beginning {
        Beginning {
            world: MemoryWorld::new(alloc),
            operands: Vec::new(alloc),
            names: Vec::new(alloc),
            assigns: Vec::new(alloc),
            separator: None,
            numbers: Numbers::Whole,
            bound: STEPS,
            log: RunLog::new(alloc),
        }
    }

    // A name of the environment is the host's word too.
    fn add_env(&mut self, alloc: Global, args: &[Arg<'_>]) -> Shown {
        self.names.push(octets(alloc, text(args, 1))?)?;
        prepare(alloc, &mut self.world, args)
    }

    fn add_pair(&mut self, alloc: Global, args: &[Arg<'_>]) -> Result<(), Problem> {
        let name = octets(alloc, text(args, 1))?;
        self.assigns.push((name, octets(alloc, text(args, 2))?))?;
        Ok(())
    }

    /// Adds what the step says.
    pub fn add(&mut self, alloc: Global, args: &[Arg<'_>]) -> Shown {
        match name(args, 0) {
            "operand" => self.operands.push(octets(alloc, text(args, 1))?)?,
            "assign" => self.add_pair(alloc, args)?,
            "separator" => self.separator = Some(octets(alloc, text(args, 1))?),
            "numbers" => self.numbers = numbers(args)?,
            "bound" => self.bound = u64::from(count(args)?),
            "fail_write" => self.log.bad_write = count(args)?,
            "fail_flush" => self.log.bad_flush = count(args)?,
            "put_env" => return self.add_env(alloc, args),
            _ => return prepare(alloc, &mut self.world, args),
        }
        bytes(alloc, b"done")
    }

    /// Runs the script under the policy.
    pub fn drive(
        self,
        alloc: Global,
        policy: &[u8],
        script: &[u8],
    ) -> Result<Driven<MemoryWorld, RunLog>, Problem> {
        if self.assigns.len() > MOST_PAIRS {
            return Err(Problem::NoArgument);
        }
        match Setup::read(self.operands, self.names, self.assigns, self.separator) {
            Ok(setup) => {
                let setup = setup.numbered(self.numbers);
                Ok(drive(
                    alloc, policy, script, &setup, self.bound, self.world, self.log,
                ))
            }
            Err(_) => Err(Problem::NoSetup),
        }
    }
}
