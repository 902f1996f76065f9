// The hints of a script's text, in lines.
ghost use Rattle.std.specs.Prelude.{◌≢◌, IfErr};
ghost use Rattle.awk_tokens.specs.Reads.{Refuses};

use crate::telling::hints;
use crate::words::line;
use awk_numbers::number::Numbers;
use awk_text::Memory;
use awk_text::place::Place;
use awk_tokens::{SyntaxError, Token, tokens};
use std::alloc::Global;

fn lines_of(alloc: Global, numbers: Numbers, tokens: &[Token]) -> Result<String, Memory> {
    let hints = hints(alloc, numbers, tokens)?;
    let mut lines = String::new(alloc);
    for hint in hints.as_slice() {
        lines.push_str(line(alloc, hint)?.as_str())?;
    }
    Ok(lines)
}

/// The lines of the hints of a script that is accepted with these numbers, none where nothing is told of it. Of one
/// that is not, the lines mean little; it is refused where it is read as no tokens, as `tokens` says, with S9 where
/// memory is refused.
pub fn script_lines(alloc: Global, numbers: Numbers, script: &[u8]) -> Result<String, SyntaxError>
    ensures { IfErr result (λ e. e.code ≢ 9 → Refuses numbers script.now e.code e.place) }
{
    let tokens = match tokens(alloc, numbers, script) {
        Ok(tokens) => tokens,
        Err(error) => return Err(error),
    };
    match lines_of(alloc, numbers, tokens.as_slice()) {
        Ok(lines) => Ok(lines),
        Err(_) => Err(SyntaxError {
            code: SyntaxError::MEMORY,
            place: Place { line: 0, column: 0 },
        }),
    }
}
