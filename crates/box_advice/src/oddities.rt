// Patterns that look like those of another language, or not like what they are.
use crate::bytes::first_place;
use crate::explaining::is_of_files;
use crate::page::Page;
use box_policy::policy::{Kind, Rule};

fn has_between(text: &[u8], open: u8, close: u8) -> bool {
    match first_place(text, open) {
        Some(at) => text.get(at..).unwrap_or(&[]).contains(&close),
        None => false,
    }
}

fn has_variable(text: &[u8]) -> bool {
    text.windows(2).any(
        |pair| matches!(pair, [b'$', b'{' | b'(' | b'_' | b'A'..=b'Z' | b'a'..=b'z']),
    )
}

/// What a path's pattern may be meant to say, and does not.
fn path_words(pattern: &[u8]) -> Option<&'static str> {
    if pattern.starts_with(b"~") {
        return Some("~ is no home folder; write it out");
    }
    if has_variable(pattern) {
        return Some("$ names no variable; write its value");
    }
    if has_between(pattern, b'{', b'}') {
        return Some("{ and } stand for themselves; write a rule for each");
    }
    if has_between(pattern, b'[', b']') {
        return Some("[ and ] stand for themselves; ? is any one byte");
    }
    if pattern.ends_with(b"/.*") {
        return Some(".* fits names that begin with a dot; any name is *");
    }
    if pattern.len() > 1 && pattern.ends_with(b"/") {
        return Some("it is the path without its last /; what is in the folder is /**");
    }
    None
}

/// Whether the character shows as none, or changes the order of those about it: a control character, a mark of
/// direction, a joiner or another one without width.
fn is_hidden(c: char) -> bool {
    matches!(c,
        '\0'..='\u{1f}' | '\u{7f}'..='\u{9f}' | '\u{ad}' | '\u{61c}' | '\u{200b}'..='\u{200f}'
        | '\u{2028}'..='\u{202e}' | '\u{2060}'..='\u{2069}' | '\u{feff}')
}

fn hidden_in(text: &str) -> Option<char> {
    for c in text.chars() {
        if is_hidden(c) {
            return Some(c);
        }
    }
    None
}

/// What a rule of this kind allows with just `*` or `**`.
fn everything(kind: Kind, pattern: &[u8]) -> Option<&'static str> {
    let is_all = pattern == b"**".as_slice();
    if !is_all && pattern != b"*".as_slice() {
        return None;
    }
    match kind {
        Kind::Read | Kind::Write | Kind::Append if is_all => {
            Some("it fits every path under the base")
        }
        Kind::Read | Kind::Write | Kind::Append => Some("it fits every name in the base"),
        Kind::Run => None,
        Kind::Env | Kind::Assign => Some("it fits every name"),
    }
}

/// What the rule allows that is more than it seems.
pub(crate) fn wide_words(rule: &Rule) -> Option<&'static str> {
    everything(rule.kind, rule.pattern.bytes())
}

/// What a rule's pattern does not say that it seems to say, or the character in it that does not show.
#[derive(Clone, Copy, Drop)]
pub(crate) enum Oddity {
    Words(&'static str),
    Hidden(char),
}

pub(crate) fn oddity_of(rule: &Rule) -> Option<Oddity> {
    let pattern = rule.pattern.bytes();
    if is_of_files(rule.kind) {
        if let Some(words) = path_words(pattern) {
            return Some(Oddity::Words(words));
        }
    }
    let text = std::str::from_utf8(pattern).unwrap_or("");
    match hidden_in(text) {
        Some(c) => Some(Oddity::Hidden(c)),
        None => None,
    }
}

pub(crate) fn put_oddity(oddity: Oddity, page: &mut Page) {
    match oddity {
        Oddity::Words(words) => page.put(words),
        Oddity::Hidden(c) => {
            page.put("it holds a character that does not show, ");
            page.put_code(c);
        }
    }
}
