// What the rules of a policy say that may not be meant.
use crate::commands::{put_remark, remark_on};
use crate::oddities::{oddity_of, put_oddity, wide_words};
use crate::page::Page;
use crate::places::{Places, PolicyFile};
use crate::unreached::Unreached;
use crate::words::kind_word;
use awk_text::Memory;
use box_policy::policy::{Decision, Effect, Kind, Policy, Rule};
use std::alloc::Global;

const FILES: [Kind; 3] = [Kind::Read, Kind::Write, Kind::Append];

/// Names of each place that rules had better not reach.
const PROC: [&str; 4] = [
    "/proc/self/environ",
    "/proc/self/mem",
    "/proc/self/fd/3",
    "/proc/self/root/x",
];

const DEV: [&str; 2] = ["/dev/fd/3", "/dev/mem"];

/// Nobody has this name: a rule that fits it fits whatever stands in the root.
const ROOT: [&str; 1] = ["/.awkbox-lint"];

// How a warning begins.
fn begin(source: PolicyFile<'_>, number: u32, page: &mut Page) {
    page.put(source.name);
    if let Some(line) = source.places.line(number) {
        page.put(":");
        page.put_number(line as u64);
    }
    page.put(": warning: rule ");
    page.put_number(u64::from(number));
    page.put(": ");
}

fn put_unreached(source: PolicyFile<'_>, told: Unreached, page: &mut Page) {
    begin(source, told.rule, page);
    page.put("no request reaches it: rule ");
    page.put_number(u64::from(told.by));
    page.put(" decides all that it speaks of\n");
}

// The rule that allows one of these names.
fn allowing(policy: &Policy, kind: Kind, names: &[&str]) -> Option<u32> {
    for name in names {
        if let Decision::Allow(number) = policy.decide(kind, name.as_bytes(), false) {
            return Some(number);
        }
    }
    None
}

// Warns where a rule allows one of the names of this place.
fn put_reached(source: PolicyFile<'_>, names: &[&str], place: &str, page: &mut Page) {
    for kind in FILES {
        if let Some(number) = allowing(source.policy, kind, names) {
            begin(source, number, page);
            page.put_all(&["allow ", kind_word(kind), " reaches "]);
            page.put(place);
            page.put("\n");
        }
    }
}

fn put_command(source: PolicyFile<'_>, number: u32, rule: &Rule, page: &mut Page) {
    if rule.kind == Kind::Run && rule.effect != Effect::Deny {
        if let Some(remark) = remark_on(rule.pattern.bytes()) {
            begin(source, number, page);
            put_remark(remark, page);
            page.put("\n");
        }
    }
}

fn put_commands(source: PolicyFile<'_>, page: &mut Page) {
    let mut number = 0u32;
    for rule in source.policy.rules() {
        number = number.saturating_add(1);
        put_command(source, number, rule, page);
    }
}

// Warns where a rule fits all that there is of its kind. What the host gives, it has picked.
fn put_wide(source: PolicyFile<'_>, number: u32, rule: &Rule, page: &mut Page) {
    if rule.effect != Effect::Deny && !rule.only_given {
        if let Some(words) = wide_words(rule) {
            begin(source, number, page);
            page.put(words);
            page.put("\n");
        }
    }
}

fn put_wides(source: PolicyFile<'_>, page: &mut Page) {
    let mut number = 0u32;
    for rule in source.policy.rules() {
        number = number.saturating_add(1);
        put_wide(source, number, rule, page);
    }
}

// Warns where a rule seems to say what it does not.
fn put_odd(source: PolicyFile<'_>, number: u32, rule: &Rule, page: &mut Page) {
    if let Some(oddity) = oddity_of(rule) {
        begin(source, number, page);
        put_oddity(oddity, page);
        page.put("\n");
    }
}

fn put_odds(source: PolicyFile<'_>, page: &mut Page) {
    let mut number = 0u32;
    for rule in source.policy.rules() {
        number = number.saturating_add(1);
        put_odd(source, number, rule, page);
    }
}

/// The policy of a file, and which of its rules no request reaches. `file` is the absolute name of the file.
#[derive(Clone, Copy, Drop)]
pub struct Read<'a> {
    pub name: &'a str,
    pub file: &'a str,
    pub text: &'a [u8],
    pub policy: &'a Policy,
    pub unreached: &'a [Unreached],
}

/// The warnings for this policy: rules that no request reaches, rules that allow the policy itself, `/proc`, `/dev` or
/// the root, commands with more room than they seem to have, rules for all that there is of a kind, and patterns that
/// look like those of another language.
pub(crate) fn warnings(alloc: Global, read: Read<'_>) -> Result<String, Memory> {
    let places = Places::of(alloc, read.text, read.policy.count())?;
    let source = PolicyFile {
        name: read.name,
        policy: read.policy,
        places: &places,
    };
    let mut page = Page::new(alloc);
    put_sorts(source, read, &mut page);
    page.end()
}

fn put_sorts(source: PolicyFile<'_>, read: Read<'_>, page: &mut Page) {
    for told in read.unreached {
        put_unreached(source, *told, page);
    }
    put_reached(source, &[read.file], "the policy", page);
    put_reached(source, PROC.as_slice(), "/proc", page);
    put_reached(source, DEV.as_slice(), "/dev", page);
    put_reached(source, ROOT.as_slice(), "the root", page);
    put_commands(source, page);
    put_wides(source, page);
    put_odds(source, page);
}
