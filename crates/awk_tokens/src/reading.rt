// A whole script.

ghost use Rattle.std.specs.Prelude.{◌≡◌, ◌≢◌, ◌<◌, ◌++◌, ◌⊎◌, List, ℕ, false, length, IfOk, IfErr};
ghost use Rattle.awk_tokens.specs.Places as places;
ghost use Rattle.awk_tokens.specs.Reads.{ends_operand, Reads, IsOnly, IsUnread, Stands, Refuses};
ghost use Rattle.awk_tokens.specs.Scan as scan;
ghost use Rattle.awk_tokens.specs.Tokens as spec;
ghost use Rattle.awk_tokens.specs.Next.{IsNext};

use crate::kinds::TokenKind;
use crate::scan::{first_token, gap_len};
use crate::syntax_error::SyntaxError;
use crate::token::Token;
use awk_numbers::number::Numbers;
use awk_text::Memory;
use awk_text::octets::Octets;
use awk_text::place::Place;
use std::alloc::Global;

/// The place behind a byte.
fn next_place(place: Place, b: u8) -> Place
    ensures { result ≡ places.next_place place b }
{
    if b == b'\n' {
        Place {
            line: place.line.saturating_add(1),
            column: 1,
        }
    } else {
        Place {
            line: place.line,
            column: place.column.saturating_add(1),
        }
    }
}

/// The place behind a text that stands at this place.
fn place_after(place: Place, text: &[u8]) -> Place
    ensures { (front : List ℕ) → place ≡ places.place_after front → result ≡ places.place_after (front ++ text.now) }
{
    let mut end = place;
    for b in text {
        end = next_place(end, *b);
    }
    end
}

/// The text without its first and its last byte.
fn between(text: &[u8]) -> &[u8]
    ensures { result.now ≡ spec.between text.now }
{
    match text {
        [_, body @ .., _] => body,
        _ => &[],
    }
}

/// The text of a pattern, with `/` for `\/`.
fn unslashed(alloc: Global, body: &[u8]) -> Result<Vec<u8>, Memory>
    ensures { IfOk result (λ text. text.items ≡ spec.unslashed false body.now) }
{
    let mut text = Vec::with_capacity(alloc, body.len())?;
    let mut escaped = false;
    for b in body {
        if escaped && *b != b'/' {
            text.push(b'\\')?;
        }
        escaped = !escaped && *b == b'\\';
        if !escaped {
            text.push(*b)?;
        }
    }
    if escaped {
        text.push(b'\\')?;
    }
    Ok(text)
}

/// What a token of this kind carries of its bytes.
fn text_of(alloc: Global, kind: TokenKind, slice: &[u8]) -> Result<Octets, Memory>
    ensures { IfOk result (λ text. text ≡ spec.text_of kind slice.now) }
{
    match kind {
        TokenKind::Quoted => Octets::of(alloc, between(slice)),
        TokenKind::Pattern => Ok(Octets::new(unslashed(alloc, between(slice))?)),
        _ => Octets::of(alloc, slice),
    }
}

/// Whether a token ends an operand, so that no operand may begin directly after it.
fn ends_operand(kind: TokenKind, text: &[u8]) -> bool
    ensures { result ≡ ends_operand kind text.now }
{
    match kind {
        TokenKind::Number
        | TokenKind::Quoted
        | TokenKind::Pattern
        | TokenKind::Builtin
        | TokenKind::Name
        | TokenKind::CallName => true,
        TokenKind::Refused => false,
        TokenKind::Keyword => text == b"getline".as_slice(),
        TokenKind::Sign => {
            text == b")".as_slice()
                || text == b"]".as_slice()
                || text == b"++".as_slice()
                || text == b"--".as_slice()
        }
    }
}

/// The first token of what is left of a script, which begins with no separator, and its length.
fn next_token(
    alloc: Global,
    numbers: Numbers,
    operand: bool,
    rest: &[u8],
    start: usize,
    place: Place,
) -> Result<(Token, usize), SyntaxError>
    requires some { 0 < length rest.now }
    requires no_gap { scan.gap_len rest.now ≡ 0 }
    ensures read { IfOk result (λ next. IsNext numbers operand rest.now start place next.0 next.1) }
    ensures refused { IfErr result (λ e. (e.code ≢ 9 → Stands numbers operand e.code rest.now) × (e.place ≡ place)) }
{
    let (kind, len) = match first_token(numbers, operand, rest) {
        Ok(found) => found,
        Err(code) => return Err(SyntaxError { code, place }),
    };
    let slice = &rest[..len];
    let Ok(text) = text_of(alloc, kind, slice) else {
        return Err(SyntaxError {
            code: SyntaxError::MEMORY,
            place,
        });
    };
    let end = place_after(place, slice);
    let token = Token {
        kind,
        text,
        start,
        place,
        end,
    };
    Ok((token, len))
}

/// The tokens of a script, in order, each the longest at its place. A number is digits where numbers are whole, and
/// digits with a point and an exponent, or without, where they are doubles.
///
/// Separators and comments stand between them, and the newline is a sign. A script is refused by S1,
/// S2 or S3 at the first byte, string or pattern, or number that the lexical rule has no place for;
/// by S9, at some place, where memory was refused. POSIX.1-2017 XCU awk, "Lexical Conventions".
pub fn tokens(alloc: Global, numbers: Numbers, script: &[u8]) -> Result<Vec<Token>, SyntaxError>
    ensures read { IfOk result (λ tokens. Reads numbers script.now tokens.items) }
    ensures only { IfOk result (λ tokens. IsOnly numbers script.now tokens.items) }
    ensures refused { IfErr result (λ e. e.code ≢ 9 → Refuses numbers script.now e.code e.place) }
    ensures unread { IfErr result (λ e. e.code ≢ 9 → IsUnread numbers script.now) }
{
    let mut found = Vec::new(alloc);
    let mut place = Place { line: 1, column: 1 };
    let mut operand = true;
    let mut start = 0;
    while start < script.len() {
        let rest = &script[start..];
        let gap = gap_len(rest);
        if gap != 0 {
            place = place_after(place, &rest[..gap]);
            start += gap;
            continue;
        }
        let (token, len) = next_token(alloc, numbers, operand, rest, start, place)?;
        operand = !ends_operand(token.kind, token.text.bytes());
        place = token.end;
        start += len;
        if found.push(token).is_err() {
            return Err(SyntaxError {
                code: SyntaxError::MEMORY,
                place,
            });
        }
    }
    Ok(found)
}
