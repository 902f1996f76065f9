// The words of hints.
use crate::hint::{Hint, HintKind};
use awk_text::Memory;
use std::alloc::Global;

/// What to write instead of names that mean something to gawk.
const INSTEAD: [(&[u8], &str); 11] = [
    (b"ARGIND", "a count of the records whose FNR is 1"),
    (b"BEGINFILE", "FNR == 1 { .. }"),
    (b"ENDFILE", "FNR == 1 && NR > 1 { .. }, and the same in END"),
    (b"ERRNO", "a test of what getline or close gives"),
    (b"FIELDWIDTHS", "substr($0, start, length) for each field"),
    (b"FPAT", "a loop of match and substr"),
    (b"FUNCTAB", "the calls themselves"),
    (b"IGNORECASE", "tolower on both sides"),
    (b"PROCINFO", "a list of the keys in the order that is meant"),
    (b"RT", "RS, which ends all records but the last"),
    (b"SYMTAB", "an array with these keys"),
];

fn instead_in(mut table: &[(&'static [u8], &'static str)], name: &[u8]) -> &'static str {
    while let [entry, rest @ ..] = table {
        if entry.0 == name {
            return entry.1;
        }
        table = rest;
    }
    "another name"
}

/// What to write instead of `\` and this letter in an ERE.
fn escape_instead(letter: u8) -> &'static str {
    match letter {
        b's' => "[[:space:]]",
        b'S' => "[^[:space:]]",
        b'w' => "[[:alnum:]_]",
        b'W' => "[^[:alnum:]_]",
        b'<' => "(^|[^[:alnum:]_])",
        b'>' => "([^[:alnum:]_]|$)",
        _ => "(^|[^[:alnum:]_]) or ([^[:alnum:]_]|$)",
    }
}

/// What it is, and what to write instead. A name stands before the first.
fn told(kind: HintKind, name: &[u8]) -> (&'static str, &'static str) {
    match kind {
        HintKind::Division => (
            "drops the fraction",
            "int(a / b) where that is meant, or multiply before",
        ),
        HintKind::Fraction(_) => ("shows a fraction, and no number has one", "%d"),
        HintKind::Star => (
            "in a format takes no width from the arguments",
            "the width itself",
        ),
        HintKind::WideCharacter => (
            "takes a number modulo 256",
            "the character itself between quotes",
        ),
        HintKind::EarlyStart => ("as the start of substr is before the text", "1"),
        HintKind::LongSeparator => (
            "ends records by the first byte alone",
            "one byte, or \"\" for records between empty lines",
        ),
        HintKind::GawkName => ("is a variable like any other", instead_in(&INSTEAD, name)),
        HintKind::GawkEscape(letter) => ("stands for its letter alone", escape_instead(letter)),
        HintKind::HexNumber => (
            "is the number 0 and a name behind it",
            "its digits to base 10",
        ),
        HintKind::UnsetField => (
            "takes a field that is not there for 0",
            "NF >= n && $n == 0",
        ),
        HintKind::Assignment => ("as a condition sets what is left of it", "==, or (a = b)"),
        HintKind::SetOnce => (
            "is set here and stands nowhere else",
            "the name that is meant",
        ),
        HintKind::ReadOnce => (
            "stands here alone and is never set",
            "the name that is meant, or give it by -v",
        ),
        HintKind::OnlyRead => ("is read and never set", "what sets it, or give it by -v"),
        HintKind::Uncalled => ("is never called", "a call of it, or leave it out"),
        HintKind::Unused => ("is not used by its function", "the function without it"),
    }
}

/// What the words of a hint begin with.
fn subject(alloc: Global, hint: &Hint) -> Result<String, Memory> {
    match hint.kind {
        HintKind::Fraction(letter) => format!(in alloc; "%{}", letter as char),
        HintKind::GawkEscape(letter) => format!(in alloc; "\\{}", letter as char),
        HintKind::Star => String::from_str(alloc, "*"),
        HintKind::WideCharacter => String::from_str(alloc, "%c"),
        HintKind::EarlyStart => String::from_str(alloc, "a number below 1"),
        HintKind::HexNumber => String::from_str(alloc, "0x"),
        _ => String::from_str(alloc, std::str::from_utf8(hint.text.bytes()).unwrap_or("")),
    }
}

/// The line of a hint: `LINE:COLUMN`, what it is, and what to write instead.
pub fn line(alloc: Global, hint: &Hint) -> Result<String, Memory> {
    let subject = subject(alloc, hint)?;
    let (what, instead) = told(hint.kind, hint.text.bytes());
    let (line, column) = (hint.place.line, hint.place.column);
    format!(in alloc; "{line}:{column} {subject} {what}; write {instead}\n")
}
