// Why a script is refused.

ghost use Rattle.std.specs.Prelude.{Some};
ghost use Rattle.awk_tokens.specs.Refusals.{refusal_text};

use awk_text::place::Place;
use std::error::Error;
use std::fmt;

/// A script is refused: the code of the cause, from 1 for S1 to 9 for S9, and the place.
#[derive(Clone, Copy, Debug, PartialEq, Eq, Drop)]
pub struct SyntaxError {
    pub code: u8,
    pub place: Place,
}

impl SyntaxError {
    /// S1: a byte that begins no token.
    pub const BYTE: u8 = 1;
    /// S2: a string or a pattern that is not closed on its line, at its start.
    pub const OPEN_TEXT: u8 = 2;
    /// S3: a number that the profile has not, at its start: where numbers are whole, one with a point or an exponent,
    /// or over 9,223,372,036,854,775,807; where they are doubles, one beyond the largest.
    pub const NUMBER: u8 = 3;
    /// S4: a token that cannot stand there, or the end.
    pub const TOKEN: u8 = 4;
    /// S5: nesting over 200 levels, at the token that opens one more.
    pub const NESTING: u8 = 5;
    /// S6: a name that is used in two kinds, or an expression in place of an array.
    pub const KIND: u8 = 6;
    /// S7: a function or a parameter that is not defined as it is used.
    pub const FUNCTION: u8 = 7;
    /// S8: a word outside the statements that it belongs to.
    pub const WORD: u8 = 8;
    /// S9: memory was refused.
    pub const MEMORY: u8 = 9;
}

impl fmt::Display for SyntaxError {
    ghost output = { λ e. Some (refusal_text e) };

    fn fmt<W: fmt::Write>(&self, f: &mut fmt::Formatter<W>) -> fmt::Result {
        let (line, column) = (self.place.line, self.place.column);
        let code = self.code;
        write!(f, "{line}:{column} S{code}")
    }
}

impl Error for SyntaxError {}
