// Where the rules of a policy stand in its text.
use crate::bytes::is_newline;
use awk_text::Memory;
use box_policy::policy::Policy;
use std::alloc::Global;

/// What stands behind the key where it is the first thing here, bare or in quotes.
fn behind_key<'a>(text: &'a [u8], key: &str) -> Option<&'a [u8]> {
    let text = text.trim_ascii_start();
    match text {
        [b'"', rest @ ..] => rest
            .strip_prefix(key.as_bytes())?
            .strip_prefix(b"\"".as_slice()),
        [b'\'', rest @ ..] => rest
            .strip_prefix(key.as_bytes())?
            .strip_prefix(b"'".as_slice()),
        _ => text.strip_prefix(key.as_bytes()),
    }
}

/// Whether a line begins a table.
fn is_header(line: &[u8]) -> bool {
    line.trim_ascii_start().starts_with(b"[")
}

/// Whether a line begins the table of a rule.
fn is_rule_header(line: &[u8]) -> bool {
    let Some(rest) = line.trim_ascii_start().strip_prefix(b"[[".as_slice()) else {
        return false;
    };
    match behind_key(rest, "rule") {
        Some(rest) => rest.trim_ascii_start().starts_with(b"]]"),
        None => false,
    }
}

/// The policy of a file, with the file's name, and where its rules stand there.
#[derive(Clone, Copy, Drop)]
pub struct PolicyFile<'a> {
    pub name: &'a str,
    pub policy: &'a Policy,
    pub places: &'a Places,
}

/// The lines of a text, counted from 1, on which its rules begin. They are empty where that cannot be told, as of rules
/// in an array, or beside a string over lines that has such a line too: then they are not as many as the policy has
/// rules.
#[derive(Drop)]
pub struct Places {
    lines: Vec<usize>,
}

impl Places {
    /// The places of so many rules.
    pub fn of(alloc: Global, text: &[u8], rules: usize) -> Result<Places, Memory> {
        let mut lines = Vec::new(alloc);
        for (at, line) in text.split(is_newline).enumerate() {
            if is_rule_header(line) {
                lines.push(at.saturating_add(1))?;
            }
        }
        if lines.len() != rules {
            lines.clear();
        }
        Ok(Places { lines })
    }

    /// The line of the rule of this number, counted from 1.
    pub fn line(&self, rule: u32) -> Option<usize> {
        match rule {
            0 => None,
            _ => self.lines.as_slice().get(rule as usize - 1).copied(),
        }
    }
}

/// Whether the line gives this key a value, or a part of one.
fn gives(line: &[u8], key: &str) -> bool {
    match behind_key(line, key) {
        Some(rest) => matches!(rest.trim_ascii_start(), [b'=' | b'.', ..]),
        None => false,
    }
}

/// The line, counted from 1, that gives the key a value in the table that begins on this line; of the top table, which
/// has no line of its own, it is 0.
pub fn key_line(text: &[u8], table: usize, key: &str) -> Option<usize> {
    for (at, line) in text.split(is_newline).enumerate() {
        if at >= table {
            if gives(line, key) {
                return Some(at.saturating_add(1));
            }
            if is_header(line) {
                return None;
            }
        }
    }
    None
}

/// Whether the line begins a table, or a table of an array, that this top key leads to.
fn heads(line: &[u8], key: &str) -> bool {
    let line = line.trim_ascii_start();
    let Some(rest) = line.strip_prefix(b"[".as_slice()) else {
        return false;
    };
    let name = rest.strip_prefix(b"[".as_slice()).unwrap_or(rest);
    match behind_key(name, key) {
        Some(rest) => matches!(rest.trim_ascii_start(), [b']' | b'.', ..]),
        None => false,
    }
}

/// The first line, counted from 1, that begins a table which this top key leads to.
pub fn header_line(text: &[u8], key: &str) -> Option<usize> {
    for (at, line) in text.split(is_newline).enumerate() {
        if heads(line, key) {
            return Some(at.saturating_add(1));
        }
    }
    None
}
