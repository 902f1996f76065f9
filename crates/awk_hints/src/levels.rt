// What brackets are open.
use crate::around::{Around, is_builtin, is_word, sign};
use crate::divisions::is_quotient;
use awk_text::Memory;
use awk_tokens::{Token, TokenKind};
use std::alloc::Global;

/// What an open bracket encloses.
#[derive(Clone, Copy, Drop)]
pub enum Opening {
    /// The condition of `if` or `while`.
    Condition,
    /// The three parts of `for`, or `key in array`.
    Header,
    /// The arguments of a function of the script.
    Call,
    /// The argument of `int`, where it is a division.
    Quotient,
    /// The arguments of `substr`.
    Substr,
    /// Those of `split`.
    Split,
    /// Those of `sub` or `gsub`.
    Replaced,
    Other,
}

/// An open bracket.
#[derive(Clone, Copy, Drop)]
pub struct Level {
    pub opening: Opening,
    /// How many `,` and `;` stand in it so far, outside other brackets.
    pub part: usize,
}

/// The open brackets, the innermost one last.
#[derive(Drop)]
pub struct Levels {
    open: Vec<Level>,
}

fn opened_by_word(word: Option<&Token>) -> Opening {
    if is_word(word, b"for") {
        Opening::Header
    } else if is_word(word, b"if") || is_word(word, b"while") {
        Opening::Condition
    } else {
        Opening::Other
    }
}

fn opened_by_builtin(word: Option<&Token>, after: &[Token]) -> Opening {
    if is_builtin(word, b"substr") {
        Opening::Substr
    } else if is_builtin(word, b"split") {
        Opening::Split
    } else if is_builtin(word, b"sub") || is_builtin(word, b"gsub") {
        Opening::Replaced
    } else if is_builtin(word, b"int") && is_quotient(after) {
        Opening::Quotient
    } else {
        Opening::Other
    }
}

/// What a `(` opens.
fn paren(around: Around<'_>) -> Opening {
    let word = around.back(1);
    match word {
        Some(token) => match token.kind {
            TokenKind::CallName => Opening::Call,
            TokenKind::Keyword => opened_by_word(word),
            TokenKind::Builtin => opened_by_builtin(word, around.after),
            _ => Opening::Other,
        },
        None => Opening::Other,
    }
}

impl Levels {
    pub fn new(alloc: Global) -> Levels {
        Levels {
            open: Vec::new(alloc),
        }
    }

    /// The innermost open bracket.
    pub fn inner(&self) -> Option<Level> {
        self.open.last().copied()
    }

    fn push(&mut self, opening: Opening) -> Result<(), Memory> {
        Ok(self.open.push(Level { opening, part: 0 })?)
    }

    fn separate(&mut self) {
        if let Some(level) = self.open.last_mut() {
            level.part = level.part.saturating_add(1);
        }
    }

    /// Goes on behind this token.
    pub fn pass(&mut self, around: Around<'_>) -> Result<(), Memory> {
        match sign(around.token).0 {
            b'(' => self.push(paren(around)),
            b'{' | b'[' => self.push(Opening::Other),
            b')' | b']' | b'}' => {
                let _ = self.open.pop();
                Ok(())
            }
            b',' | b';' => {
                self.separate();
                Ok(())
            }
            _ => Ok(()),
        }
    }
}
