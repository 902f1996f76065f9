// What is wrong with a policy that is refused, in words. `Policy::read` says which code and which rule it is; here is
// looked up what stands there.
use crate::covers::is_plain;
use crate::nearest::put_hint;
use crate::page::Page;
use box_policy::error::PolicyError;
use box_policy::policy::{MAX_RULES, Policy};
use std::alloc::Global;
use toml::{Table, Value};

const TOP_KEYS: [&str; 3] = ["version", "base", "rule"];

const RULE_KEYS: [&str; 4] = ["effect", "kind", "match", "from"];

const LIMITED_KEYS: [&str; 5] = ["effect", "kind", "match", "from", "limit"];

const NEEDED: [&str; 3] = ["effect", "kind", "match"];

const EFFECTS: [&str; 2] = ["allow", "deny"];

const KINDS: [&str; 6] = ["read", "write", "append", "run", "env", "assign"];

const SOURCES: [&str; 2] = ["any", "given"];

/// The first rule that a policy may not have.
const FIRST_ABOVE: u32 = MAX_RULES as u32 + 1;

/// Where something is wrong: in the rule of this number, or in none where that is 0, and there at this key, where it
/// stands at one.
#[derive(Clone, Copy, Drop)]
pub(crate) struct Mistake<'a> {
    pub(crate) rule: u32,
    pub(crate) key: Option<&'a str>,
}

fn at(key: &str) -> Mistake<'_> {
    Mistake {
        rule: 0,
        key: Some(key),
    }
}

fn nowhere<'a>() -> Mistake<'a> {
    Mistake { rule: 0, key: None }
}

fn in_rule<'a>(rule: u32) -> Mistake<'a> {
    Mistake { rule, key: None }
}

// The first key that is none of these.
fn unknown_key<'a>(table: &'a Table, known: &[&str]) -> Option<&'a str> {
    for key in table.keys() {
        if !(&*known).contains(&key.as_str()) {
            return Some(key.as_str());
        }
    }
    None
}

fn put_unknown(alloc: Global, key: &str, known: &[&str], page: &mut Page) {
    page.put("unknown key \"");
    page.put_quoted(key.as_bytes());
    page.put("\"");
    put_hint(alloc, key, known, page);
    page.put("; ");
}

fn has_limits(table: &Table) -> bool {
    table.get("version").and_then(Value::as_integer) == Some(2)
}

/// What stands under `rule`, where that is an array.
pub fn rules_of(table: &Table) -> &[Value] {
    match table.get("rule").and_then(Value::as_array) {
        Some(rules) => rules.as_slice(),
        None => &[],
    }
}

fn has_key(value: &Value, key: &str) -> bool {
    match value.as_table() {
        Some(table) => table.get(key).is_some(),
        None => false,
    }
}

// The number of the first rule that has this key, counted from 1.
fn rule_with(rules: &[Value], key: &str) -> Option<u32> {
    let mut number = 0u32;
    for rule in rules {
        number = number.saturating_add(1);
        if has_key(rule, key) {
            return Some(number);
        }
    }
    None
}

// A key that the policy lacks. It may stand below the header of a rule: then it is a key of that.
fn missing<'a>(table: &Table, key: &'a str, words: &str, page: &mut Page) -> Mistake<'a> {
    match rule_with(rules_of(table), key) {
        Some(rule) => {
            page.put("rule ");
            page.put_number(u64::from(rule));
            page.put_all(&[
                ": ",
                key,
                " is a key of the policy; write it above the first [[rule]]",
            ]);
            Mistake {
                rule,
                key: Some(key),
            }
        }
        None => {
            page.put_all(&[key, " is missing; ", words]);
            nowhere()
        }
    }
}

fn version_fault<'a>(table: &'a Table, page: &mut Page) -> Mistake<'a> {
    match table.get("version") {
        Some(value) => {
            page.put(if value.is_integer() {
                "version is neither 1 nor 2"
            } else {
                "version is no whole number; it is 1, or 2 where rules have limits"
            });
            at("version")
        }
        None => missing(
            table,
            "version",
            "it is 1, or 2 where rules have limits",
            page,
        ),
    }
}

// The reason why this is no base.
fn base_reason(base: &str) -> &'static str {
    let bytes = base.as_bytes();
    if !base.starts_with('/') {
        return "base does not begin with /";
    }
    if !is_plain(bytes) {
        return "base holds * or ?";
    }
    if bytes.contains(&0) {
        return "base holds a NUL byte";
    }
    "base has a component .., which is never folded"
}

fn base_fault<'a>(table: &'a Table, page: &mut Page) -> Mistake<'a> {
    let Some(value) = table.get("base") else {
        return missing(table, "base", "it is an absolute path", page);
    };
    page.put(match value.as_str() {
        Some(base) if Policy::may_have(base.as_bytes()) => {
            "the base that is given in its place is not an absolute path without *, ? and .."
        }
        Some(base) => base_reason(base),
        None => "base is no text; it is an absolute path",
    });
    at("base")
}

// The number of the first of these that is no table, counted from 1.
fn first_other(rules: &[Value]) -> Option<usize> {
    for (at, rule) in rules.iter().enumerate() {
        if !rule.is_table() {
            return Some(at.saturating_add(1));
        }
    }
    None
}

fn rules_fault<'a>(table: &'a Table, page: &mut Page) -> Mistake<'a> {
    match first_other(rules_of(table)) {
        Some(number) => {
            page.put("rule ");
            page.put_number(number as u64);
            page.put(": no table");
        }
        None => page.put("rule is no array of tables"),
    }
    page.put("; write [[rule]] above each rule");
    at("rule")
}

fn count_fault<'a>(table: &'a Table, page: &mut Page) -> Mistake<'a> {
    page.put("rule ");
    page.put_number(u64::from(FIRST_ABOVE));
    page.put(": a policy has at most ");
    page.put_number(MAX_RULES as u64);
    page.put(" rules, and this one has ");
    page.put_number(rules_of(table).len() as u64);
    in_rule(FIRST_ABOVE)
}

fn top_key_fault<'a>(alloc: Global, table: &'a Table, page: &mut Page) -> Mistake<'a> {
    match unknown_key(table, TOP_KEYS.as_slice()) {
        Some(key) => {
            put_unknown(alloc, key, TOP_KEYS.as_slice(), page);
            page.put("a policy has version, base, rule");
            at(key)
        }
        None => {
            page.put("unknown key");
            nowhere()
        }
    }
}

fn top_fault<'a>(alloc: Global, table: &'a Table, code: u8, page: &mut Page) -> Mistake<'a> {
    match code {
        PolicyError::KEY => top_key_fault(alloc, table, page),
        PolicyError::VERSION => version_fault(table, page),
        PolicyError::BASE => base_fault(table, page),
        PolicyError::VALUE => rules_fault(table, page),
        _ => count_fault(table, page),
    }
}

fn first_missing(rule: &Table) -> Option<&'static str> {
    for key in NEEDED {
        if rule.get(key).is_none() {
            return Some(key);
        }
    }
    None
}

// Of a rule whose keys are all known.
fn lacking_fault<'a>(rule: &Table, those: &str, page: &mut Page) -> Mistake<'a> {
    if let Some(key) = first_missing(rule) {
        page.put_all(&[key, " is missing; "]);
    }
    page.put(those);
    nowhere()
}

fn unknown_fault<'a>(
    alloc: Global,
    key: &'a str,
    known: &[&str],
    those: &str,
    page: &mut Page,
) -> Mistake<'a> {
    if key == "limit" {
        page.put("a rule has a limit in version 2 alone");
    } else {
        put_unknown(alloc, key, known, page);
        page.put(those);
    }
    at(key)
}

fn rule_key_fault<'a>(
    alloc: Global,
    rule: &'a Table,
    limits: bool,
    page: &mut Page,
) -> Mistake<'a> {
    let known = if limits {
        LIMITED_KEYS.as_slice()
    } else {
        RULE_KEYS.as_slice()
    };
    let those = if limits {
        "a rule has effect, kind, match, from, limit"
    } else {
        "a rule has effect, kind, match, from"
    };
    match unknown_key(rule, known) {
        Some(key) => unknown_fault(alloc, key, known, those, page),
        None => lacking_fault(rule, those, page),
    }
}

// A key whose value is to be one of these words.
#[derive(Clone, Copy, Drop)]
struct Choice<'a> {
    key: &'static str,
    words: &'a [&'static str],
    those: &'static str,
}

fn put_no_word(alloc: Global, choice: Choice<'_>, word: &str, page: &mut Page) {
    page.put_all(&["unknown ", choice.key, " \""]);
    page.put_quoted(word.as_bytes());
    page.put("\"");
    put_hint(alloc, word, choice.words, page);
    page.put_all(&["; it is ", choice.those]);
}

// Whether the value is there and is none of the words; then that is told.
fn is_no_choice(alloc: Global, rule: &Table, choice: Choice<'_>, page: &mut Page) -> bool {
    let Some(value) = rule.get(choice.key) else {
        return false;
    };
    match value.as_str() {
        Some(word) if (&*choice.words).contains(&word) => false,
        Some(word) => {
            put_no_word(alloc, choice, word, page);
            true
        }
        None => {
            page.put_all(&[choice.key, " is no text; it is ", choice.those]);
            true
        }
    }
}

fn text_of<'a>(rule: &'a Table, key: &str) -> Option<&'a str> {
    rule.get(key).and_then(Value::as_str)
}

fn limit_fault<'a>(rule: &Table, page: &mut Page) -> Mistake<'a> {
    page.put(if text_of(rule, "effect") == Some("deny") {
        "limit stands beside an effect that denies"
    } else {
        "limit is no whole number from 1 to 1000000"
    });
    at("limit")
}

fn from_fault<'a>(alloc: Global, rule: &Table, page: &mut Page) -> Mistake<'a> {
    let kind = text_of(rule, "kind").unwrap_or("");
    if rule.get("from").is_some() && kind != "read" && kind != "assign" {
        page.put_all(&[
            "from stands beside kind \"",
            kind,
            "\"; it is for read and assign",
        ]);
        return at("from");
    }
    let sources = Choice {
        key: "from",
        words: SOURCES.as_slice(),
        those: "any or given",
    };
    if is_no_choice(alloc, rule, sources, page) {
        return at("from");
    }
    limit_fault(rule, page)
}

fn value_fault<'a>(alloc: Global, rule: &Table, page: &mut Page) -> Mistake<'a> {
    let effects = Choice {
        key: "effect",
        words: EFFECTS.as_slice(),
        those: "allow or deny",
    };
    if is_no_choice(alloc, rule, effects, page) {
        return at("effect");
    }
    let kinds = Choice {
        key: "kind",
        words: KINDS.as_slice(),
        those: "read, write, append, run, env or assign",
    };
    if is_no_choice(alloc, rule, kinds, page) {
        return at("kind");
    }
    if text_of(rule, "match").is_none() {
        page.put("match is no text");
        return at("match");
    }
    from_fault(alloc, rule, page)
}

// The reason why this is no pattern of its kind.
fn pattern_reason(kind: &str, pattern: &str) -> &'static str {
    let bytes = pattern.as_bytes();
    if bytes.is_empty() {
        return "it is empty";
    }
    if bytes.contains(&0) {
        return "it holds a NUL byte";
    }
    if kind == "run" {
        return "it is no command";
    }
    if kind == "env" || kind == "assign" {
        return "a name has letters, digits and _ alone, and * for any run of these";
    }
    if bytes
        .split(|b| *b == b'/')
        .any(|piece| piece == b"..".as_slice())
    {
        return "it has a component .., which is never folded";
    }
    "** stands inside a longer component; write it as a component of its own"
}

fn pattern_fault<'a>(rule: &Table, page: &mut Page) -> Mistake<'a> {
    let kind = text_of(rule, "kind").unwrap_or("");
    let pattern = text_of(rule, "match").unwrap_or("");
    page.put("match \"");
    page.put_quoted(pattern.as_bytes());
    page.put("\" is no pattern of kind ");
    page.put(kind);
    page.put(": ");
    page.put(pattern_reason(kind, pattern));
    at("match")
}

fn long_fault<'a>(page: &mut Page) -> Mistake<'a> {
    page.put("match has more than 4096 bytes");
    at("match")
}

fn rule_fault<'a>(
    alloc: Global,
    rule: &'a Table,
    code: u8,
    limits: bool,
    page: &mut Page,
) -> Mistake<'a> {
    match code {
        PolicyError::KEY => rule_key_fault(alloc, rule, limits, page),
        PolicyError::VALUE => value_fault(alloc, rule, page),
        PolicyError::LIMIT => long_fault(page),
        _ => pattern_fault(rule, page),
    }
}

// The table of the rule of this number, counted from 1.
fn rule_at(table: &Table, number: u32) -> Option<&Table> {
    rules_of(table)
        .get((number as usize).saturating_sub(1))?
        .as_table()
}

/// Where the table of a document that was refused for this is wrong; what is wrong there is written.
pub(crate) fn fault_in<'a>(
    alloc: Global,
    table: &'a Table,
    error: PolicyError,
    page: &mut Page,
) -> Mistake<'a> {
    if error.rule == 0 {
        return top_fault(alloc, table, error.code, page);
    }
    match rule_at(table, error.rule) {
        Some(rule) => {
            let fault = rule_fault(alloc, rule, error.code, has_limits(table), page);
            Mistake {
                rule: error.rule,
                ..fault
            }
        }
        None => {
            page.put("the rule is refused");
            nowhere()
        }
    }
}
