// Policies: which texts are policies, what they decide, and how often their rules have allowed.
use awk_text::Memory;
use awk_text::octets::Octets;
use box_policy::error::PolicyError;
use box_policy::path::normal;
use box_policy::policy::{Decision, Kind, Outlook, Policy};
use library_calls::args::{bare, name, number, text};
use library_calls::problem::Problem;
use library_calls::row::{Arg, Row};
use library_calls::shown::{Shown, bracketed, bytes, show, told, yes_or_no};
use std::alloc::Global;

/// What stands before the lines of a policy's one rule.
const ONE_RULE: &[u8] = b"version = 1\nbase = \"/w\"\n[[rule]]\n";

fn kind(name: &str) -> Result<Kind, Problem> {
    match name {
        "read" => Ok(Kind::Read),
        "write" => Ok(Kind::Write),
        "append" => Ok(Kind::Append),
        "run" => Ok(Kind::Run),
        "env" => Ok(Kind::Env),
        "assign" => Ok(Kind::Assign),
        _ => Err(Problem::NoArgument),
    }
}

fn policy(alloc: Global, text: &[u8]) -> Shown {
    let _policy = Policy::read(alloc, text)?;
    bytes(alloc, b"accepted")
}

/// Whether the text is a policy, or refused for what it says.
fn is_read_well(alloc: Global, text: &[u8]) -> bool {
    match Policy::read(alloc, text) {
        Ok(_) => true,
        Err(error) => error.code != PolicyError::MEMORY,
    }
}

/// Reads each prefix of the text, as a policy that breaks off.
pub fn read_prefixes(alloc: Global, text: &[u8]) -> Result<(), Problem> {
    for end in 0..=text.len() {
        if !is_read_well(alloc, text.get(..end).unwrap_or(text)) {
            return Err(Problem::Prefix(end));
        }
    }
    Ok(())
}

/// A policy of one rule, which has the texts of the arguments as its lines.
fn one_rule(alloc: Global, lines: &[Arg<'_>]) -> Result<Vec<u8>, Memory> {
    let mut text = Vec::from_slice(alloc, ONE_RULE)?;
    for line in lines {
        text.extend_from_slice(line.text.as_slice())?;
        text.push(b'\n')?;
    }
    Ok(text)
}

/// A policy whose one rule allows what this pattern of the kind fits.
fn allowing(alloc: Global, kind: &[u8], pattern: &[u8]) -> Result<Vec<u8>, Memory> {
    let mut text = Vec::from_slice(alloc, ONE_RULE)?;
    text.extend_from_slice(b"effect = \"allow\"\nkind = \"".as_slice())?;
    text.extend_from_slice(kind)?;
    text.extend_from_slice(b"\"\nmatch = \"".as_slice())?;
    text.extend_from_slice(pattern)?;
    text.extend_from_slice(b"\"\n".as_slice())?;
    Ok(text)
}

fn fits(alloc: Global, args: &[Arg<'_>]) -> Shown {
    let (kind, subject) = (kind(name(args, 1))?, text(args, 2));
    let text = allowing(alloc, bare(args, 1), text(args, 1))?;
    let policy = Policy::read(alloc, &text)?;
    yes_or_no(
        alloc,
        policy.decide(kind, subject, false) == Decision::Allow(1),
    )
}

fn components(alloc: Global, base: &[u8], text: &[u8]) -> Shown {
    match normal(alloc, base, text)? {
        Some(path) => bracketed(alloc, path.components()),
        None => bytes(alloc, b"none"),
    }
}

/// The answer of the call.
pub fn call(alloc: Global, args: &[Arg<'_>]) -> Shown {
    match name(args, 0) {
        "policy" => policy(alloc, text(args, 1)),
        "rule" => policy(alloc, &one_rule(alloc, args.get(1..).unwrap_or(&[]))?),
        "fits" => fits(alloc, args),
        "normal" => components(alloc, text(args, 1), text(args, 2)),
        _ => Err(Problem::NoCall),
    }
}

fn show_decision(alloc: Global, decision: Decision) -> Shown {
    match decision {
        Decision::Allow(rule) => Ok(format!(in alloc; "allow {rule}")?.into_bytes()),
        Decision::Deny(rule) => Ok(format!(in alloc; "deny {rule}")?.into_bytes()),
        Decision::NoRule => bytes(alloc, b"no rule"),
    }
}

fn show_outlook(alloc: Global, outlook: Outlook) -> Shown {
    match outlook {
        Outlook::Always => bytes(alloc, b"always"),
        Outlook::Never => bytes(alloc, b"never"),
        Outlook::Sometimes => bytes(alloc, b"sometimes"),
    }
}

/// The number of a rule.
fn rule(args: &[Arg<'_>]) -> Result<u32, Problem> {
    match u32::try_from(number(args, 1)?) {
        Ok(rule) => Ok(rule),
        Err(_) => Err(Problem::NoArgument),
    }
}

/// Notes that the rule allowed a request, as often as the row says: once, where it says nothing.
fn note(alloc: Global, policy: &mut Policy, args: &[Arg<'_>]) -> Shown {
    let rule = rule(args)?;
    for _ in 0..number(args, 2).unwrap_or(1) {
        policy.note(rule);
    }
    show(alloc, policy.used(rule))
}

fn decide(alloc: Global, policy: &Policy, args: &[Arg<'_>], is_given: bool) -> Shown {
    let (kind, subject) = (kind(name(args, 1))?, text(args, 1));
    show_decision(alloc, policy.decide(kind, subject, is_given))
}

fn outlook(alloc: Global, policy: &Policy, args: &[Arg<'_>], is_given: bool) -> Shown {
    let (kind, subject) = (kind(name(args, 1))?, text(args, 1));
    show_outlook(alloc, policy.outlook(kind, subject, is_given))
}

fn step(alloc: Global, policy: &mut Policy, args: &[Arg<'_>]) -> Shown {
    match name(args, 0) {
        "count" => show(alloc, policy.count()),
        "decide" => decide(alloc, policy, args, false),
        "decide_given" => decide(alloc, policy, args, true),
        "outlook" => outlook(alloc, policy, args, false),
        "outlook_given" => outlook(alloc, policy, args, true),
        "note" => note(alloc, policy, args),
        "used" => show(alloc, policy.used(rule(args)?)),
        "clear" => {
            policy.clear();
            bytes(alloc, b"done")
        }
        _ => Err(Problem::NoCall),
    }
}

/// The answers of the steps, under the policy of the line before them.
pub fn block(alloc: Global, args: &[Arg<'_>], steps: &[Row<'_>]) -> Result<Vec<Octets>, Problem> {
    let mut policy = Policy::read(alloc, text(args, 1))?;
    let mut answers = Vec::new(alloc);
    for row in steps {
        answers.push(told(alloc, step(alloc, &mut policy, &row.args))?)?;
    }
    Ok(answers)
}
