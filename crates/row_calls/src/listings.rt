// What scripts may ask, as it is listed, and as it stands to a policy.
use crate::parses::script;
use awk_numbers::number::Numbers;
use awk_parse::Script;
use awk_text::octets::Octets;
use box_listing::{check, lines_of, sites, verdict_lines};
use box_policy::policy::Policy;
use library_calls::args::{name, text};
use library_calls::problem::Problem;
use library_calls::row::{Arg, Row};
use library_calls::shown::{Shown, told};
use std::alloc::Global;

/// The sites of the script, a line each.
pub fn sites_in(alloc: Global, script: &Script) -> Shown {
    let sites = sites(alloc, script)?;
    Ok(lines_of(alloc, &sites)?)
}

fn listed(alloc: Global, text: &[u8]) -> Shown {
    let script = script(alloc, Numbers::Whole, text)?;
    let answer = sites_in(alloc, &script);
    script.release();
    answer
}

/// The verdict of the policy on the script, and the sites that it is about.
pub fn verdict_on(alloc: Global, policy: &Policy, script: &Script) -> Shown {
    let verdict = check(alloc, script, policy)?;
    Ok(verdict_lines(alloc, &verdict)?)
}

fn judged(alloc: Global, policy: &Policy, text: &[u8]) -> Shown {
    let script = script(alloc, Numbers::Whole, text)?;
    let answer = verdict_on(alloc, policy, &script);
    script.release();
    answer
}

/// The answer of the call.
pub fn call(alloc: Global, args: &[Arg<'_>]) -> Shown {
    match name(args, 0) {
        "list" => listed(alloc, text(args, 1)),
        _ => Err(Problem::NoCall),
    }
}

fn step(alloc: Global, policy: &Policy, args: &[Arg<'_>]) -> Shown {
    match name(args, 0) {
        "check" => judged(alloc, policy, text(args, 1)),
        _ => Err(Problem::NoCall),
    }
}

/// The answers of the steps, under the policy of the line before them.
pub fn block(alloc: Global, args: &[Arg<'_>], steps: &[Row<'_>]) -> Result<Vec<Octets>, Problem> {
    let policy = Policy::read(alloc, text(args, 1))?;
    let mut answers = Vec::new(alloc);
    for row in steps {
        answers.push(told(alloc, step(alloc, &policy, &row.args))?)?;
    }
    Ok(answers)
}
