// The tokens of scripts.
use awk_numbers::number::Numbers;
use awk_text::Memory;
use awk_tokens::{Token, TokenKind, tokens};
use library_calls::args::{name, text};
use library_calls::problem::Problem;
use library_calls::row::Arg;
use library_calls::shown::Shown;
use std::alloc::Global;

fn kind_word(kind: TokenKind) -> &'static str {
    match kind {
        TokenKind::Number => "number",
        TokenKind::Quoted => "string",
        TokenKind::Pattern => "pattern",
        TokenKind::Keyword => "keyword",
        TokenKind::Builtin => "builtin",
        TokenKind::Refused => "refused",
        TokenKind::Name => "name",
        TokenKind::CallName => "function",
        TokenKind::Sign => "sign",
    }
}

/// Its kind, its text and its place: `name x 1:9`.
fn push_token(alloc: Global, token: &Token, shown: &mut Vec<u8>) -> Result<(), Memory> {
    let (line, column) = (token.place.line, token.place.column);
    let place = format!(in alloc; " {line}:{column}")?;
    shown.extend_from_slice(kind_word(token.kind).as_bytes())?;
    shown.push(b' ')?;
    shown.extend_from_slice(token.text.bytes())?;
    shown.extend_from_slice(place.as_bytes())
}

/// How many bytes stand before it, and the place behind it.
fn push_span(alloc: Global, token: &Token, shown: &mut Vec<u8>) -> Result<(), Memory> {
    let (start, line, column) = (token.start, token.end.line, token.end.column);
    let span = format!(in alloc; "{start} {line}:{column}")?;
    shown.extend_from_slice(span.as_bytes())
}

/// The tokens, or their spans, with commas between.
pub fn listed(alloc: Global, tokens: &[Token], are_spans: bool) -> Shown {
    let mut shown = Vec::new(alloc);
    for token in tokens {
        if !shown.is_empty() {
            shown.extend_from_slice(b", ".as_slice())?;
        }
        if are_spans {
            push_span(alloc, token, &mut shown)?;
        } else {
            push_token(alloc, token, &mut shown)?;
        }
    }
    Ok(shown)
}

/// The answer of the call.
pub fn call(alloc: Global, args: &[Arg<'_>]) -> Shown {
    let (numbers, are_spans) = match name(args, 0) {
        "tokens" => (Numbers::Whole, false),
        "doubles" => (Numbers::Double, false),
        "spans" => (Numbers::Whole, true),
        _ => return Err(Problem::NoCall),
    };
    listed(alloc, &tokens(alloc, numbers, text(args, 1))?, are_spans)
}
