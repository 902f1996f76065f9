// A host that embeds awkbox, with a world of its own: the code of docs/EMBEDDING.md.
ghost use Rattle.rows.specs.Printed.{Keeps, keeps-append, keeps-none};
ghost use Rattle.std.proofs.Common.{sym};
ghost use Rattle.std.specs.Prelude.{[], false};

use awkbox::{Ask, Driven, Octets, Reply, Request, Seed, Setup, SetupError, Stop, World, drive};
use library_calls::args::{name, octets, text};
use library_calls::problem::Problem;
use library_calls::row::Arg;
use library_calls::shown::{Shown, bytes};
use std::alloc::Global;

/// A report's data in memory: the script reads it as its standard input, and what it prints is kept.
#[derive(Drop)]
struct ReportWorld {
    data: Option<Octets>,
    printed: Vec<u8>,
}

impl World for ReportWorld {
    ghost follows = { λ old calls new. Keeps old.printed.items calls new.printed.items };

    ghost open_numbers = { λ _. [] };

    ghost has_stopped = { λ _. false };

    ghost stops = { λ _ _ _ _. ⊥ };

    ghost lacks = { λ _ _ _. Unit {0} };

    fn ask(&mut self, ask: &Ask) -> Result<Reply, Stop> {
        match &ask.request {
            Request::Next(0) => match self.data.take() {
                Some(data) if !data.bytes().is_empty() => Ok(Reply::Bytes(data)),
                _ => Ok(Reply::End),
            },
            Request::Put(1, bytes) => {
                self.printed.extend_from_slice(bytes.bytes())?;
                Ok(Reply::Done)
            }
            Request::Assign(_, _) => Ok(Reply::Done),
            // There are no files, no commands and no names.
            _ => Ok(Reply::Failed),
        }
    }

    ghost follows_none = { λ w. keeps-none w.printed.items };

    ghost follows_append = { λ u v w. keeps-append u.printed.items v.printed.items w.printed.items };

    ghost follows_open = { λ _ _ _ keeps. sym keeps.quiet };

    ghost stops_later = { λ _ _ _ _ _ _ _ _ never. never };
}

/// Runs the script over the data, under the policy, with no words of a command line. Its tables hash by the seed.
fn report(
    alloc: Global,
    policy: &[u8],
    script: &[u8],
    data: Octets,
    seed: Seed,
) -> Result<Driven<ReportWorld, Vec<u8>>, SetupError> {
    let setup = Setup::read(Vec::new(alloc), Vec::new(alloc), Vec::new(alloc), None)?.seeded(seed);
    let world = ReportWorld {
        data: Some(data),
        printed: Vec::new(alloc),
    };
    let log = Vec::new(alloc);
    Ok(drive(alloc, policy, script, &setup, 100_000, world, log))
}

/// What is told after the run.
fn told(alloc: Global, driven: &Driven<ReportWorld, Vec<u8>>, args: &[Arg<'_>]) -> Shown {
    match name(args, 0) {
        "printed" => bytes(alloc, driven.world.printed.as_slice()),
        "denied" => bytes(alloc, driven.log.as_slice()),
        _ => Err(Problem::NoCall),
    }
}

/// The answer of the call.
pub fn call(alloc: Global, args: &[Arg<'_>]) -> Shown {
    let data = octets(alloc, text(args, 3))?;
    match report(alloc, text(args, 1), text(args, 2), data, Seed::of(0)) {
        Ok(driven) => told(alloc, &driven, args),
        Err(_) => Err(Problem::NoSetup),
    }
}
