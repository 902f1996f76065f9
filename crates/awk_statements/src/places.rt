// The place that a fault of the grammar names.

ghost use Rattle.std.specs.Prelude.{◌≡◌};
ghost use Rattle.awk_statements.specs.Places as spec;

use awk_text::place::Place;
use awk_tokens::{SyntaxError, Token};
use awk_tree::ParseError;

/// Why the script of these tokens is refused. Memory that is refused has no place.
pub fn refusal(tokens: &[Token], fault: ParseError) -> SyntaxError
    ensures { result ≡ spec.refusal tokens.now fault }
{
    match fault {
        ParseError::Memory => SyntaxError {
            code: SyntaxError::MEMORY,
            place: Place { line: 0, column: 0 },
        },
        ParseError::Unexpected(left) => SyntaxError {
            code: SyntaxError::TOKEN,
            place: place_of(tokens, left),
        },
        ParseError::TooDeep(left) => SyntaxError {
            code: SyntaxError::NESTING,
            place: place_of(tokens, left),
        },
    }
}

/// The place of the token at which so many are left, or directly behind the last one where none is.
fn place_of(tokens: &[Token], left: usize) -> Place
    ensures { result ≡ spec.place_of tokens.now left }
{
    match tokens.get(tokens.len().saturating_sub(left)) {
        Some(token) => token.place,
        None => match tokens.last() {
            Some(last) => last.end,
            None => Place { line: 1, column: 1 },
        },
    }
}
