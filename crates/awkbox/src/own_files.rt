// The files that a run is given, its policy, its script and its log, and what a script might do to them.
ghost use Rattle.std.specs.Prelude.{◌≡◌, option_map};
ghost use Rattle.std.specs.List.{list_any};
ghost use Rattle.box_monitor.specs.Denials.{allowing};
ghost use Rattle.awkbox.specs.OwnFiles.{are_one, behind_slash, is_same, may_be_log, may_start, name_in, rule_of_inner};
ghost use Rattle.awkbox.specs.OwnFiles.{rule_of_name, writing_rule};

use box_policy::policy::{Decision, Kind, Policy};

/// What tells a file from every other one, whatever name it is opened by.
#[derive(Clone, Copy, Drop)]
pub struct Identity {
    /// The device that it lies on.
    pub device: u64,
    /// Its number on that device.
    pub number: u64,
}

fn is_same(left: Identity, right: Identity) -> bool
    ensures { result ≡ is_same left right }
{
    left.device == right.device && left.number == right.number
}

fn is_among(file: Identity, files: &[Identity]) -> bool
    ensures { result ≡ list_any (is_same file) files.now }
{
    for other in files {
        if is_same(file, *other) {
            return true;
        }
    }
    false
}

/// Whether this file may be the log of a run, which also knows the others: its policy, its script, the files that its
/// operands name and those that its standard streams lead to.
///
/// A file that is no regular one, as a terminal or a pipe, may be log and another one at once, since nothing is kept in
/// it. A regular file may not.
pub fn may_be_log(log: Identity, is_regular: bool, others: &[Identity]) -> bool
    ensures { result ≡ may_be_log log is_regular others.now }
{
    !(is_regular && is_among(log, others))
}

fn are_one(here: Option<Identity>, base: Option<Identity>) -> bool
    ensures { result ≡ are_one here base }
{
    match (here, base) {
        (Some(here), Some(base)) => is_same(here, base),
        _ => false,
    }
}

/// Whether a run under this policy may start in the folder `here`.
///
/// The policy judges a relative name under its base, and the system opens it under the folder that the process is in.
/// So where a rule speaks of files the two are to be one. A folder that could not be looked at is `None`.
pub fn may_start(policy: &Policy, here: Option<Identity>, base: Option<Identity>) -> bool
    ensures { result ≡ may_start policy.now here base }
{
    !policy.speaks_of_files() || are_one(here, base)
}

fn allowing(decision: Decision) -> Option<u32>
    ensures { result ≡ allowing decision }
{
    match decision {
        Decision::Allow(rule) => Some(rule),
        Decision::Deny(_) | Decision::NoRule => None,
    }
}

fn rule_of_name(policy: &Policy, name: &[u8]) -> Option<u32>
    ensures { result ≡ rule_of_name policy.now name.now }
{
    match allowing(policy.decide(Kind::Write, name, false)) {
        Some(rule) => Some(rule),
        None => allowing(policy.decide(Kind::Append, name, false)),
    }
}

fn behind_slash(text: &[u8]) -> Option<&[u8]>
    ensures { option_map (λ rest. rest.now) result ≡ behind_slash text.now }
{
    match text {
        [b'/', rest @ ..] => Some(rest),
        _ => None,
    }
}

fn name_in<'a>(folder: &[u8], name: &'a [u8]) -> Option<&'a [u8]>
    ensures { option_map (λ inner. inner.now) result ≡ name_in folder.now name.now }
{
    behind_slash(name.strip_prefix(folder)?)
}

fn rule_of_inner(policy: &Policy, name: Option<&[u8]>) -> Option<u32>
    ensures { result ≡ rule_of_inner policy.now (option_map (λ inner. inner.now) name.entry) }
{
    rule_of_name(policy, name?)
}

/// The number of the rule that lets a script write to the file of this name, as `>` or else as `>>` does; where none
/// does, of the one that lets it write by the name that the file has in this folder, which stands for the policy's
/// base. Takes no memory.
pub fn writing_rule(policy: &Policy, folder: &[u8], name: &[u8]) -> Option<u32>
    ensures { result ≡ writing_rule policy.now folder.now name.now }
{
    match rule_of_name(policy, name) {
        Some(rule) => Some(rule),
        None => rule_of_inner(policy, name_in(folder, name)),
    }
}
