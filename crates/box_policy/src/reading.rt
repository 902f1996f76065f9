// A policy, read from its text.
ghost use Rattle.std.specs.Prelude.{◌≡◌, ◌≤◌, ◌+◌, ℕ, true, None, Some, codes, length, is_some, option_map, IfOk};
ghost use Rattle.std.specs.Prelude.{IfErr, IfSome, IsUtf8, ◌⊎◌, ◌||◌, ◌==◌, Option, if◌then◌else◌};
ghost use Rattle.std.specs.List.{AllZip, list_all};
ghost use Rattle.toml.specs.Data.{Data, get_member};
ghost use Rattle.toml.specs.Parse.{parse_document};
ghost use Rattle.toml.specs.Text.{are_tables};
ghost use Rattle.toml.specs.View.{view, table_view, items_view};
ghost use Rattle.box_policy.specs.Tree.{text_at, has_key, keys_pass, is_tables, tables_in, tables_of};
ghost use Rattle.box_policy.specs.Words.{allowing, denying, effect_named, effect_of, from_in, from_named, has_limits};
ghost use Rattle.box_policy.specs.Words.{has_rule_keys, has_wildcard, is_base, is_rule_key, is_top_key, kind_named};
ghost use Rattle.box_policy.specs.Words.{quota_named, version_named, version_of};
ghost use Rattle.box_policy.specs.Wellformed.{has_double_star, is_component, is_path_pattern, is_command_pattern};
ghost use Rattle.box_policy.specs.Wellformed.{is_name_pattern, is_pattern};
ghost use Rattle.box_policy.specs.Patterns.{is_name_byte};
ghost use Rattle.box_policy.specs.Paths.{names};
ghost use Rattle.box_policy.specs.Short.{are_short};
ghost use Rattle.std.specs.Result.{result_err};
ghost use Rattle.box_policy.specs.Refusals.{IsRefusedBy, no_document, no_memory, rule_refusal, rules_refusal};
ghost use Rattle.box_policy.specs.Refusals.{top_refusal};
ghost use Rattle.box_policy.specs.Readings.{IsDocument, IsDraft};
ghost use Rattle.box_policy.specs.Written.{WritesRule};

use crate::error::PolicyError;
use crate::names::{can_resolve, first_name, is_absolute};
use crate::policy::{Effect, Kind, MAX_LIMIT, MAX_PATTERN, MAX_RULES, Quota, Rule};
use crate::tokens::is_name_byte;
use awk_text::octets::Octets;
use std::alloc::Global;
use toml::{Table, Value};

/// The version of a policy. From the second one on rules may have limits.
#[derive(Clone, Copy)]
pub(crate) enum Version {
    One,
    Two,
}

/// What stands in a document.
#[derive(Clone, Copy)]
pub(crate) struct Document<'a> {
    pub(crate) version: Version,
    pub(crate) base: &'a str,
    pub(crate) rules: &'a [Value],
}

/// What stands in a rule's table.
#[derive(Clone, Copy)]
struct Draft<'a> {
    effect: Effect,
    kind: Kind,
    pattern: &'a str,
    only_given: bool,
}

/// The document of the bytes.
pub(crate) fn read_table(alloc: Global, bytes: &[u8]) -> Result<Table, PolicyError>
    ensures ok { IfOk result (λ table. IsUtf8 bytes.now × (parse_document bytes.now ≡ Some (table_view table))) }
    ensures refused { IfErr result
        (λ e. (e ≡ no_memory) ⊎ ((e ≡ no_document) × (IsUtf8 bytes.now → parse_document bytes.now ≡ None))) }
{
    match toml::table_from_slice(alloc, bytes) {
        Ok(table) => Ok(table),
        Err(e) if e.is_memory() => Err(PolicyError::memory()),
        Err(_) => Err(PolicyError::new(PolicyError::DOCUMENT)),
    }
}

fn value_at<'a>(table: &'a Table, key: &str) -> Option<&'a Value>
    ensures { option_map (λ v. view v.now) result ≡ get_member key.now (table_view table.now) }
{
    table.get(key)
}

fn text_at<'a>(table: &'a Table, key: &str) -> Option<&'a str>
    ensures { option_map (λ s. s.now) result ≡ text_at key.now (table_view table.now) }
{
    match value_at(table, key) {
        Some(value) => value.as_str(),
        None => None,
    }
}

fn has_key(table: &Table, key: &str) -> bool
    ensures { result ≡ has_key key.now (table_view table.now) }
{
    value_at(table, key).is_some()
}

fn is_top_key(key: &str) -> bool
    ensures { result ≡ is_top_key key.now }
{
    key == "version" || key == "base" || key == "rule"
}

impl Version {
    fn has_limits(self) -> bool
        ensures { result ≡ has_limits self }
    {
        match self {
            Version::One => false,
            Version::Two => true,
        }
    }
}

fn is_rule_key(version: Version, key: &str) -> bool
    ensures { result ≡ is_rule_key version key.now }
{
    key == "effect"
        || key == "kind"
        || key == "match"
        || key == "from"
        || (key == "limit" && version.has_limits())
}

fn has_top_keys_only(table: &Table) -> bool
    ensures { result ≡ keys_pass is_top_key (table_view table.now) }
{
    for key in table.keys() {
        if !is_top_key(key.as_str()) {
            return false;
        }
    }
    true
}

fn has_rule_keys_only(version: Version, table: &Table) -> bool
    ensures { result ≡ keys_pass (is_rule_key version) (table_view table.now) }
{
    for key in table.keys() {
        if !is_rule_key(version, key.as_str()) {
            return false;
        }
    }
    true
}

fn has_rule_keys(version: Version, table: &Table) -> bool
    ensures { result ≡ has_rule_keys version (table_view table.now) }
{
    has_rule_keys_only(version, table)
        && has_key(table, "effect")
        && has_key(table, "kind")
        && has_key(table, "match")
}

fn version_named(number: i64) -> Option<Version>
    ensures { result ≡ version_named number }
{
    match number {
        1 => Some(Version::One),
        2 => Some(Version::Two),
        _ => None,
    }
}

fn version_of(table: &Table) -> Option<Version>
    ensures { result ≡ version_of (table_view table.now) }
{
    match value_at(table, "version")?.as_integer() {
        Some(number) => version_named(number),
        None => None,
    }
}

fn has_wildcard(text: &[u8]) -> bool
    ensures { result ≡ has_wildcard text.now }
{
    text.iter().any(|b| *b == b'*' || *b == b'?')
}

pub(crate) fn is_base(base: &[u8]) -> bool
    ensures { result ≡ is_base (Some base.now) }
{
    is_absolute(base) && !has_wildcard(base) && can_resolve(base, base)
}

fn quota_named(limit: i64) -> Option<Quota>
    ensures { result ≡ quota_named limit }
{
    if 1 <= limit && limit <= MAX_LIMIT {
        Some(Quota {
            limit: limit as u32,
            used: 0,
        })
    } else {
        None
    }
}

/// A rule that allows, with the limit that stands in its table; `None` where that is wrong.
fn allowing(limit: Option<&Value>) -> Option<Effect>
    ensures { result ≡ allowing (option_map (λ v. view v.now) limit.entry) }
{
    let Some(limit) = limit else {
        return Some(Effect::Allow(None));
    };
    match limit.as_integer() {
        Some(number) => Some(Effect::Allow(Some(quota_named(number)?))),
        None => None,
    }
}

/// A rule that denies; `None` where a limit stands in its table.
fn denying(limit: Option<&Value>) -> Option<Effect>
    ensures { result ≡ denying (option_map (λ v. view v.now) limit.entry) }
{
    match limit {
        Some(_) => None,
        None => Some(Effect::Deny),
    }
}

fn effect_named(limit: Option<&Value>, word: &str) -> Option<Effect>
    ensures { result ≡ effect_named (option_map (λ v. view v.now) limit.entry) word.now }
{
    match word {
        "allow" => allowing(limit),
        "deny" => denying(limit),
        _ => None,
    }
}

fn effect_of(table: &Table) -> Option<Effect>
    ensures { result ≡ effect_of (table_view table.now) }
{
    effect_named(value_at(table, "limit"), text_at(table, "effect")?)
}

fn kind_named(word: &str) -> Option<Kind>
    ensures { result ≡ kind_named word.now }
{
    match word {
        "read" => Some(Kind::Read),
        "write" => Some(Kind::Write),
        "append" => Some(Kind::Append),
        "run" => Some(Kind::Run),
        "env" => Some(Kind::Env),
        "assign" => Some(Kind::Assign),
        _ => None,
    }
}

fn from_named(word: &str) -> Option<bool>
    ensures { result ≡ from_named word.now }
{
    match word {
        "any" => Some(false),
        "given" => Some(true),
        _ => None,
    }
}

fn may_have_from(kind: Kind) -> bool
    ensures { (found : Option Data) → from_in (Some kind) found
        ≡ (if result then from_in (Some Kind.Read) found else from_in (Some Kind.Write) found) }
{
    match kind {
        Kind::Read | Kind::Assign => true,
        Kind::Write | Kind::Append | Kind::Run | Kind::Env => false,
    }
}

/// Whether the rule speaks of operand words alone, or `None` where `from` is wrong or is not to be
/// there.
fn from_of(kind: Kind, table: &Table) -> Option<bool>
    ensures { result ≡ from_in (Some kind) (get_member (codes "from") (table_view table.now)) }
{
    let Some(value) = value_at(table, "from") else {
        return Some(false);
    };
    if !may_have_from(kind) {
        return None;
    }
    match value.as_str() {
        Some(word) => from_named(word),
        None => None,
    }
}

fn has_double_star(piece: &[u8]) -> bool
    ensures { result ≡ has_double_star piece.now }
{
    let mut rest = piece;
    while let [_, after @ ..] = rest {
        if let [b'*', b'*', ..] = rest {
            return true;
        }
        rest = after;
    }
    false
}

fn is_component(piece: &[u8]) -> bool
    ensures { result ≡ is_component piece.now }
{
    piece == b"**".as_slice() || !has_double_star(piece)
}

fn are_components(pattern: &[u8]) -> bool
    ensures { result ≡ list_all is_component (names pattern.now) }
{
    let mut rest = pattern;
    while let Some((piece, after)) = first_name(rest) {
        if !is_component(piece) {
            return false;
        }
        rest = after;
    }
    true
}

fn is_path_pattern(base: &[u8], pattern: &[u8]) -> bool
    ensures { result ≡ is_path_pattern base.now pattern.now }
{
    can_resolve(base, pattern) && are_components(pattern)
}

fn is_command_pattern(pattern: &[u8]) -> bool
    ensures { result ≡ is_command_pattern pattern.now }
{
    !pattern.is_empty() && !pattern.contains(&0)
}

fn is_name_or_star(byte: u8) -> bool
    ensures { result ≡ (is_name_byte byte || byte == 42) }
{
    is_name_byte(byte) || byte == b'*'
}

fn are_names_or_stars(pattern: &[u8]) -> bool
    ensures { result ≡ list_all (λ b. is_name_byte b || b == 42) pattern.now }
{
    for byte in pattern {
        if !is_name_or_star(*byte) {
            return false;
        }
    }
    true
}

fn is_name_pattern(pattern: &[u8]) -> bool
    ensures { result ≡ is_name_pattern pattern.now }
{
    !pattern.is_empty() && are_names_or_stars(pattern)
}

pub(crate) fn is_pattern(base: &[u8], kind: Kind, pattern: &[u8]) -> bool
    ensures { result ≡ is_pattern base.now kind pattern.now }
{
    match kind {
        Kind::Read | Kind::Write | Kind::Append => is_path_pattern(base, pattern),
        Kind::Run => is_command_pattern(pattern),
        Kind::Env | Kind::Assign => is_name_pattern(pattern),
    }
}

fn are_tables(items: &[Value]) -> bool
    ensures { result ≡ are_tables (items_view items.now) }
{
    for item in items {
        if !item.is_table() {
            return false;
        }
    }
    true
}

/// The rules of the document: none where there is no key for them, and `None` where it holds
/// anything but tables in an array.
fn rule_items(table: &Table) -> Option<&[Value]>
    ensures tables { is_some result ≡ is_tables (get_member (codes "rule") (table_view table.now)) }
    ensures items { IfSome result
        (λ items. tables_in (items_view items.now) ≡ tables_of (get_member (codes "rule") (table_view table.now))) }
    ensures count { IfSome result
        (λ items. length items.now ≡ length (tables_of (get_member (codes "rule") (table_view table.now)))) }
{
    let Some(value) = value_at(table, "rule") else {
        return Some(&[]);
    };
    let items = value.as_array()?.as_slice();
    if are_tables(items) { Some(items) } else { None }
}

/// What stands in the document, or the first thing that is wrong above its rules.
pub(crate) fn read_document(table: &Table) -> Result<Document<'_>, PolicyError>
    ensures ok { IfOk result (λ document. IsDocument (table_view table.now) document) }
    ensures few { IfOk result (λ document. length (tables_in (items_view document.rules.now)) ≤ 1024) }
    ensures refusal { result_err result ≡ top_refusal (table_view table.now) }
{
    if !has_top_keys_only(table) {
        return Err(PolicyError::new(PolicyError::KEY));
    }
    let Some(version) = version_of(table) else {
        return Err(PolicyError::new(PolicyError::VERSION));
    };
    let Some(base) = text_at(table, "base") else {
        return Err(PolicyError::new(PolicyError::BASE));
    };
    if !is_base(base.as_bytes()) {
        return Err(PolicyError::new(PolicyError::BASE));
    }
    let Some(rules) = rule_items(table) else {
        return Err(PolicyError::new(PolicyError::VALUE));
    };
    if rules.len() > MAX_RULES {
        return Err(PolicyError::new(PolicyError::LIMIT));
    }
    Ok(Document {
        version,
        base,
        rules,
    })
}

/// The values of a rule's table, or the first thing that is wrong in it.
fn read_draft<'a>(
    version: Version,
    base: &[u8],
    number: u32,
    table: &'a Table,
) -> Result<Draft<'a>, PolicyError>
    ensures ok { IfOk result (λ draft. IsDraft (table_view table.now) draft) }
    ensures refusal { result_err result ≡ rule_refusal version base.now number (table_view table.now) }
{
    let refused = |code| PolicyError { code, rule: number };
    if !has_rule_keys(version, table) {
        return Err(refused(PolicyError::KEY));
    }
    let (Some(effect), Some(kind), Some(pattern)) = (
        effect_of(table),
        text_at(table, "kind").and_then(kind_named),
        text_at(table, "match"),
    ) else {
        return Err(refused(PolicyError::VALUE));
    };
    let Some(only_given) = from_of(kind, table) else {
        return Err(refused(PolicyError::VALUE));
    };
    if pattern.len() > MAX_PATTERN {
        return Err(refused(PolicyError::LIMIT));
    }
    if !is_pattern(base, kind, pattern.as_bytes()) {
        return Err(refused(PolicyError::PATTERN));
    }
    Ok(Draft {
        effect,
        kind,
        pattern,
        only_given,
    })
}

fn read_rule(
    alloc: Global,
    version: Version,
    base: &[u8],
    number: u32,
    table: &Table,
) -> Result<Rule, PolicyError>
    ensures ok { IfOk result
        (λ rule. WritesRule (table_view table.now) rule
        × (rule_refusal version base.now number (table_view table.now) ≡ None)) }
    ensures refused { IfErr result (IsRefusedBy (rule_refusal version base.now number (table_view table.now))) }
{
    let draft = read_draft(version, base, number, table)?;
    Ok(Rule {
        effect: draft.effect,
        kind: draft.kind,
        only_given: draft.only_given,
        pattern: Octets::of(alloc, draft.pattern.as_bytes())?,
    })
}

/// The rules of these tables, or the first thing that is wrong in them.
pub(crate) fn read_rules(
    alloc: Global,
    version: Version,
    base: &[u8],
    items: &[Value],
) -> Result<Vec<Rule>, PolicyError>
    requires { length (tables_in (items_view items.now)) ≤ 1024 }
    ensures ok { IfOk result (λ rules. AllZip WritesRule (tables_in (items_view items.now)) rules.items) }
    ensures few { IfOk result (λ rules. length rules.items ≤ 1024) }
    ensures short { IfOk result (λ rules. are_short rules.items ≡ true) }
    ensures accepted { IfOk result (λ _. rules_refusal version base.now 1 (tables_in (items_view items.now)) ≡ None) }
    ensures refused { IfErr result (IsRefusedBy (rules_refusal version base.now 1 (tables_in (items_view items.now)))) }
{
    let mut rules = Vec::new(alloc);
    let mut number = 1u32;
    for item in items {
        let Some(table) = item.as_table() else {
            continue;
        };
        rules.push(read_rule(alloc, version, base, number, table)?)?;
        number += 1;
    }
    Ok(rules)
}
