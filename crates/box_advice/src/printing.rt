// Rules and comments as they are written in a policy's text. What is written is read again before it is handed out, so
// that no claim rests on this.
use crate::covers::is_plain;
use crate::folders::Names;
use crate::page::Page;
use crate::wanting::Fate;
use crate::wishes::{Origin, Wish};
use crate::words::{effect_word, kind_word};
use awk_text::Memory;
use box_policy::policy::{Effect, Kind, MAX_PATTERN, Policy, Rule};
use std::alloc::Global;

/// The most bytes of a text that a comment shows.
const MOST_SHOWN: usize = 1024;

// A string of TOML, between quotes. What is no printable ASCII stands there by its number.
fn put_string(text: &str, page: &mut Page) {
    page.put("\"");
    for c in text.chars() {
        put_character(c, page);
    }
    page.put("\"");
}

fn put_character(c: char, page: &mut Page) {
    match c {
        '"' => page.put("\\\""),
        '\\' => page.put("\\\\"),
        ' '..='~' => page.put_char(c),
        _ => page.put_escape(c),
    }
}

// The key's line, behind this mark.
fn put_line(mark: &str, key: &str, text: &str, page: &mut Page) {
    page.put(mark);
    page.put(key);
    page.put(" = ");
    put_string(text, page);
    page.put("\n");
}

/// The lines of a rule. A pattern that is not UTF-8 is left empty, which no policy has.
#[derive(Clone, Copy, Drop)]
struct Lines<'a> {
    /// What stands before each of them.
    mark: &'static str,
    effect: &'static str,
    kind: Kind,
    given: bool,
    pattern: &'a [u8],
}

fn put_lines(lines: Lines<'_>, page: &mut Page) {
    page.put(lines.mark);
    page.put("[[rule]]\n");
    put_line(lines.mark, "effect", lines.effect, page);
    put_line(lines.mark, "kind", kind_word(lines.kind), page);
    let pattern = std::str::from_utf8(lines.pattern).unwrap_or("");
    put_line(lines.mark, "match", pattern, page);
    if lines.given {
        put_line(lines.mark, "from", "given", page);
    }
}

/// The table of the rule.
pub(crate) fn put_rule(rule: &Rule, page: &mut Page) {
    let lines = Lines {
        mark: "",
        effect: effect_word(rule.effect),
        kind: rule.kind,
        given: rule.only_given,
        pattern: rule.pattern.bytes(),
    };
    put_lines(lines, page);
    if let Effect::Allow(Some(quota)) = rule.effect {
        page.put("limit = ");
        page.put_number(u64::from(quota.limit));
        page.put("\n");
    }
}

fn put_head(has_limits: bool, base: &str, page: &mut Page) {
    page.put(if has_limits {
        "version = 2\n"
    } else {
        "version = 1\n"
    });
    put_line("", "base", base, page);
}

/// The policy without rules.
pub(crate) fn bare_text(alloc: Global, base: &str) -> Result<String, Memory> {
    let mut page = Page::new(alloc);
    put_head(false, base, &mut page);
    page.end()
}

fn has_limits(policy: &Policy) -> bool {
    policy
        .rules()
        .iter()
        .any(|rule| matches!(rule.effect, Effect::Allow(Some(_))))
}

/// The policy, written anew.
pub(crate) fn policy_text(alloc: Global, policy: &Policy) -> Result<String, Memory> {
    let base = std::str::from_utf8(policy.base()).unwrap_or("");
    let mut page = Page::new(alloc);
    put_head(has_limits(policy), base, &mut page);
    for rule in policy.rules() {
        page.put("\n");
        put_rule(rule, &mut page);
    }
    page.end()
}

// Where a request was met, as `3:7` or `line 3 of the log`.
fn put_origin(origin: Origin, page: &mut Page) {
    match origin {
        Origin::Script(place) => {
            page.put_number(u64::from(place.line));
            page.put(":");
            page.put_number(u64::from(place.column));
        }
        Origin::Log(line) => {
            page.put("line ");
            page.put_number(line as u64);
            page.put(" of the log");
        }
    }
}

// How a comment begins that tells of a wish.
fn put_comment(origin: Origin, page: &mut Page) {
    page.put("\n# ");
    put_origin(origin, page);
}

// The text as the log of denials quotes it, cut where it is long.
fn put_text(text: &[u8], page: &mut Page) {
    let shown = text.get(..MOST_SHOWN).unwrap_or(text);
    page.put("\"");
    page.put_quoted(shown);
    page.put(if shown.len() < text.len() {
        "\" and more"
    } else {
        "\""
    });
}

fn has_wildcard(kind: Kind, text: &[u8]) -> bool {
    match kind {
        Kind::Read | Kind::Write | Kind::Append => !is_plain(text),
        Kind::Run | Kind::Env | Kind::Assign => text.contains(&b'*'),
    }
}

// Why no pattern stands for the text alone.
fn reason(kind: Kind, text: &[u8]) -> &'static str {
    if text.is_empty() {
        return "it is empty";
    }
    if text.len() > MAX_PATTERN {
        return "a pattern has at most 4096 bytes";
    }
    if std::str::from_utf8(text).is_err() {
        return "it is not UTF-8";
    }
    if text.contains(&0) {
        return "it holds a NUL byte";
    }
    if has_wildcard(kind, text) {
        return "a pattern has no escapes, so that * and ? stand for other bytes";
    }
    match kind {
        Kind::Read | Kind::Write | Kind::Append => "a component .. is never folded",
        Kind::Run => "it is no command",
        Kind::Env | Kind::Assign => "a name's pattern has letters, digits and _ alone",
    }
}

// What becomes of no rule, and why: words behind the number of a rule, where that is told.
fn put_kept(wish: &Wish, rule: Option<u32>, why: &str, page: &mut Page) {
    let text = match &wish.text {
        Some(text) => text.bytes(),
        None => &[],
    };
    put_comment(wish.origin, page);
    page.put_all(&[" ", kind_word(wish.kind), " "]);
    put_text(text, page);
    page.put(": ");
    if let Some(number) = rule {
        page.put("rule ");
        page.put_number(u64::from(number));
    }
    page.put_all(&[why, "\n"]);
}

fn put_unknown(wish: &Wish, page: &mut Page) {
    put_comment(wish.origin, page);
    page.put_all(&[
        " ",
        kind_word(wish.kind),
        " *: only a run can tell the text\n",
    ]);
}

fn put_unfit(wish: &Wish, page: &mut Page) {
    let why = match &wish.text {
        Some(text) => reason(wish.kind, text.bytes()),
        None => "",
    };
    put_kept(wish, None, why, page);
}

/// The comment that tells what becomes of the wish. One that is allowed already is not told of.
pub(crate) fn put_fate(wish: &Wish, fate: Fate, page: &mut Page) {
    match fate {
        Fate::Unknown => put_unknown(wish, page),
        Fate::Denied(number) => put_kept(wish, Some(number), " denies it", page),
        Fate::Unfit => put_unfit(wish, page),
        Fate::Allowed | Fate::Offered | Fate::Met => {}
        Fate::Gains => {
            put_comment(wish.origin, page);
            page.put("\n");
        }
    }
}

// A rule in comments, one for each of its lines. Who takes the `#` from them has the rule.
fn put_commented(kind: Kind, given: bool, pattern: &[u8], page: &mut Page) {
    let lines = Lines {
        mark: "#",
        effect: "allow",
        kind,
        given,
        pattern,
    };
    put_lines(lines, page);
}

/// Offers what is wished, for a person to allow.
pub(crate) fn put_offer(wish: &Wish, page: &mut Page) {
    if let Some(text) = &wish.text {
        page.put("\n# allow? ");
        put_origin(wish.origin, page);
        page.put("\n");
        put_commented(wish.kind, false, text.bytes(), page);
    }
}

/// Offers one rule for these names, which are so many, in the place of theirs.
pub(crate) fn put_names(
    alloc: Global,
    names: Names<'_>,
    many: u32,
    page: &mut Page,
) -> Result<(), Memory> {
    let mut pattern = Vec::from_slice(alloc, names.folder)?;
    pattern.push(b'*')?;
    pattern.extend_from_slice(names.ending)?;
    page.put("\n# allow? this in the place of ");
    page.put_number(u64::from(many));
    page.put(" rules\n");
    put_commented(names.kind, names.given, pattern.as_slice(), page);
    Ok(())
}
