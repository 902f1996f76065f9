// Tokens as the grammar sees them.

use crate::words::{Builtin, Jump};

/// `++` and `--`.
#[derive(Clone, Copy, PartialEq, Eq, Drop)]
pub enum Step {
    Increment,
    Decrement,
}

/// `=`, and the signs that compute with the old value first.
#[derive(Clone, Copy, PartialEq, Eq, Drop)]
pub enum Assignment {
    Set,
    Add,
    Subtract,
    Multiply,
    Divide,
    Remainder,
    Power,
}

/// What a token is to the grammar.
#[derive(Clone, Copy, Drop)]
pub enum Terminal {
    /// No token. To an expression a newline, `;` and `}` are the same: they end it.
    End,
    Newline,
    Semicolon,
    CloseBrace,
    OpenBrace,
    OpenParen,
    CloseParen,
    OpenBracket,
    CloseBracket,
    Comma,
    Number,
    Quoted,
    Pattern,
    Name,
    CallName,
    Builtin(Builtin),
    Plus,
    Minus,
    Star,
    Slash,
    Percent,
    Caret,
    Not,
    Greater,
    Less,
    Bar,
    /// `|` directly before `getline`.
    BarGetline,
    Question,
    Colon,
    Tilde,
    Dollar,
    Assign(Assignment),
    Equal,
    LessOrEqual,
    GreaterOrEqual,
    NotEqual,
    NotTilde,
    Step(Step),
    And,
    Or,
    Append,
    /// The word `BEGIN`.
    BeginWord,
    /// The word `END`.
    EndWord,
    Jump(Jump),
    Delete,
    Do,
    Else,
    Exit,
    For,
    Function,
    Getline,
    If,
    In,
    Print,
    Printf,
    Return,
    While,
    /// A token that no line of the grammar has.
    Refused,
}
