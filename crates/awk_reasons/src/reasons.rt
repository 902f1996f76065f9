// The reason of a refusal, by its code.
use crate::bytes::byte_reason;
use crate::foreign::is_function_of_gawk;
use crate::places::text_at;
use crate::tokens::{cannot_stand, may_follow, shown, token_at, word_of_gawk};
use awk_numbers::number::Numbers;
use awk_text::Memory;
use awk_text::place::Place;
use awk_tokens::{SyntaxError, Token, TokenKind, tokens};
use std::alloc::Global;

/// Why `awk_parse` or `awk_tokens` refuses this script so: one line without its end, or none where nothing more can be
/// said. `refusal` is what one of them answered for the same script, by the same profile.
///
/// Fails where memory is refused.
pub fn reason(
    alloc: Global,
    numbers: Numbers,
    script: &[u8],
    refusal: SyntaxError,
) -> Result<String, Memory> {
    let place = refusal.place;
    match refusal.code {
        SyntaxError::BYTE => byte_reason(alloc, text_at(script, place)),
        SyntaxError::OPEN_TEXT => String::from_str(alloc, open_reason(text_at(script, place))),
        SyntaxError::NUMBER => String::from_str(
            alloc,
            number_reason(numbers, text_at(script, place)),
        ),
        SyntaxError::NESTING => String::from_str(alloc, "over 200 levels of nesting"),
        SyntaxError::TOKEN | SyntaxError::KIND | SyntaxError::FUNCTION | SyntaxError::WORD => {
            of_tokens(alloc, numbers, script, refusal)
        }
        _ => Ok(String::new(alloc)),
    }
}

fn open_reason(text: &[u8]) -> &'static str {
    match text {
        [b'"', ..] => "the string that begins here is not closed on its line",
        _ =>
            "the pattern that begins here is not closed on its line; or is an operand missing before a division?",
    }
}

fn number_reason(numbers: Numbers, text: &[u8]) -> &'static str {
    match numbers {
        Numbers::Whole => whole_reason(text),
        Numbers::Double => "a number is at most 1.7976931348623157e308",
    }
}

fn whole_reason(text: &[u8]) -> &'static str {
    let digits = text.iter().take_while(|b| b.is_ascii_digit()).count();
    match text.get(digits..) {
        Some([b'.' | b'e' | b'E', ..]) => "numbers are whole: no point and no exponent",
        _ => "a number is at most 9,223,372,036,854,775,807",
    }
}

// Of a refusal at a token of a script that has tokens.
fn of_tokens(
    alloc: Global,
    numbers: Numbers,
    script: &[u8],
    refusal: SyntaxError,
) -> Result<String, Memory> {
    let Ok(read) = tokens(alloc, numbers, script) else {
        return Ok(String::new(alloc));
    };
    let tokens = read.as_slice();
    if refusal.code == SyntaxError::TOKEN {
        return unexpected(alloc, tokens, refusal.place);
    }
    match token_at(tokens, refusal.place) {
        (_, Some(token)) => of_token(alloc, refusal.code, token),
        (_, None) => Ok(String::new(alloc)),
    }
}

fn unexpected(alloc: Global, tokens: &[Token], place: Place) -> Result<String, Memory> {
    let (before, met) = token_at(tokens, place);
    let cannot = cannot_stand(alloc, met)?;
    if let Some(word) = word_of_gawk(tokens, place) {
        return format!(in alloc; "{cannot}: `{word}` is of gawk alone");
    }
    let may = may_follow(before);
    format!(in alloc; "{cannot}: {may}")
}

fn of_token(alloc: Global, code: u8, token: &Token) -> Result<String, Memory> {
    let text = shown(token);
    if code == SyntaxError::KIND {
        return format!(in alloc;
            "`{text}` is used in two ways, of these: array, variable, function"
        );
    }
    if code == SyntaxError::WORD {
        return format!(in alloc; "`{text}` {}", where_it_stands(text));
    }
    if is_function_of_gawk(text) {
        return format!(in alloc;
            "`{text}` is of gawk alone: the script has no function of this name"
        );
    }
    match token.kind {
        TokenKind::CallName => {
            format!(in alloc;
                "no function `{text}` takes these arguments: it is not there, or has fewer parameters"
            )
        }
        _ => format!(in alloc; "`{text}` is defined twice, or has the name of something else"),
    }
}

fn where_it_stands(word: &str) -> &'static str {
    if word == "return" {
        "stands in a function"
    } else if word == "break" || word == "continue" {
        "stands in a loop"
    } else {
        "stands in a rule for records, or in a function"
    }
}
