// What tokens are, and what may stand behind them, in words.
use crate::foreign::is_word_of_gawk;
use awk_text::Memory;
use awk_text::place::Place;
use awk_tokens::{Token, TokenKind};
use std::alloc::Global;

/// The most bytes of a token that are shown.
const MOST_SHOWN: usize = 40;

/// The token of this place, with the one before it.
pub fn token_at(tokens: &[Token], place: Place) -> (Option<&Token>, Option<&Token>) {
    let mut before = None;
    for token in tokens {
        if token.place == place {
            return (before, Some(token));
        }
        before = Some(token);
    }
    (before, None)
}

/// The text of a token as it is shown: `?` where it is no text, or a long one.
pub fn shown(token: &Token) -> &str {
    let text = token.text.bytes();
    if text.len() > MOST_SHOWN {
        return "?";
    }
    std::str::from_utf8(text).unwrap_or("?")
}

fn is_newline(token: &Token) -> bool {
    token.text.bytes() == b"\n".as_slice()
}

/// That this cannot stand here; the script ends here, where it is no token.
pub fn cannot_stand(alloc: Global, met: Option<&Token>) -> Result<String, Memory> {
    let Some(token) = met else {
        return String::from_str(alloc, "the script ends too early");
    };
    let text = shown(token);
    match token.kind {
        TokenKind::Sign if is_newline(token) => String::from_str(alloc, "the line ends too early"),
        TokenKind::Quoted => String::from_str(alloc, "a string cannot stand here"),
        TokenKind::Pattern => String::from_str(alloc, "a pattern cannot stand here"),
        TokenKind::Refused => format!(in alloc;
            "`{text}` is for numbers with fractions, as --numbers double has them"
        ),
        _ => format!(in alloc; "`{text}` cannot stand here"),
    }
}

const PERHAPS: &str = "an expression comes next, or the end of the statement";

/// What comes behind a word of the grammar, or a sign that ends no operand.
const FOLLOWERS: [(&str, &str); 20] = [
    ("if", "( comes next"),
    ("while", "( comes next"),
    ("for", "( comes next"),
    ("function", "the name of a function comes next"),
    ("func", "the name of a function comes next"),
    ("BEGIN", "{ comes next, on the same line"),
    ("END", "{ comes next, on the same line"),
    ("else", "a statement comes next"),
    ("do", "a statement comes next"),
    ("in", "the name of an array comes next"),
    ("delete", "an array, or an element of one, comes next"),
    ("print", PERHAPS),
    ("printf", PERHAPS),
    ("return", PERHAPS),
    ("exit", PERHAPS),
    ("{", "a statement may begin here"),
    ("}", "a statement or an item may begin here"),
    (";", "a statement or an item may begin here"),
    ("\n", "a statement or an item may begin here"),
    (",", "an expression comes next"),
];

/// The signs that end an operand.
const ENDS: [&str; 4] = [")", "]", "++", "--"];

const AFTER_OPERAND: &str = "an operator, ; a new line or } may come next";

fn listed(text: &str, followers: &[(&'static str, &'static str)]) -> Option<&'static str> {
    for (word, words) in followers {
        if *word == text {
            return Some(*words);
        }
    }
    None
}

fn follower(text: &str) -> Option<&'static str> {
    listed(text, FOLLOWERS.as_slice())
}

/// What may stand behind this token, or at the start.
pub fn may_follow(before: Option<&Token>) -> &'static str {
    let Some(token) = before else {
        return "a pattern, BEGIN, END, function or { begins an item";
    };
    let text = shown(token);
    match token.kind {
        TokenKind::Builtin if text != "length" => "( comes next",
        TokenKind::Keyword => follower(text).unwrap_or("; a new line or } ends the statement"),
        TokenKind::Sign if ENDS.contains(&text) => AFTER_OPERAND,
        TokenKind::Sign => follower(text).unwrap_or("an expression comes next"),
        TokenKind::CallName => "( comes next",
        _ => AFTER_OPERAND,
    }
}

/// The word of gawk on the line of this place, before it.
pub fn word_of_gawk(tokens: &[Token], place: Place) -> Option<&str> {
    for token in tokens {
        if token.place.line == place.line && is_word_of_gawk(shown(token)) {
            return Some(shown(token));
        }
    }
    None
}
