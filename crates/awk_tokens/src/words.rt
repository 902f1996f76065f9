// The words of the language: how each is spelled, and what it is to the grammar.

ghost use Rattle.std.specs.Prelude.{◌≡◌, map};
ghost use Rattle.awk_tokens.specs.Words as spec;

use crate::kinds::TokenKind;
use crate::terminals::Terminal;
use awk_numbers::number::Numbers;

/// The statements that are a word alone.
#[derive(Clone, Copy, PartialEq, Eq, Drop)]
pub enum Jump {
    Break,
    Continue,
    Next,
    NextFile,
}

impl Jump {
    /// How it is spelled.
    pub fn text(self) -> &'static str
        ensures { result.now ≡ spec.jump_text self }
    {
        match self {
            Jump::Break => "break",
            Jump::Continue => "continue",
            Jump::Next => "next",
            Jump::NextFile => "nextfile",
        }
    }
}

/// The functions that the language brings.
#[derive(Clone, Copy, PartialEq, Eq, Drop)]
pub enum Builtin {
    Atan2,
    Close,
    Cos,
    Exp,
    Fflush,
    Gsub,
    Index,
    Int,
    Length,
    Log,
    Match,
    Rand,
    Sin,
    Split,
    Sprintf,
    Sqrt,
    Srand,
    Sub,
    Substr,
    System,
    Tolower,
    Toupper,
}

/// The parameters of a built-in function. All but the last three forms are plain expressions.
#[derive(Clone, Copy, PartialEq, Eq, Drop)]
pub enum Parameters {
    Zero,
    One,
    AtMostOne,
    Two,
    TwoOrThree,
    OneOrMore,
    /// At most one, where the parentheses may be absent too, as at `length`.
    Measured,
    /// A text, an array and at most one separator, as at `split`.
    Pieces,
    /// A pattern, a text and at most one lvalue, as at `sub`, and with true at `gsub`.
    Replaced(bool),
}

impl Builtin {
    fn entry(self) -> (&'static str, Parameters)
        ensures { (result.0.now, result.1) ≡ spec.builtin_entry self }
    {
        match self {
            Builtin::Atan2 => ("atan2", Parameters::Two),
            Builtin::Close => ("close", Parameters::One),
            Builtin::Cos => ("cos", Parameters::One),
            Builtin::Exp => ("exp", Parameters::One),
            Builtin::Fflush => ("fflush", Parameters::AtMostOne),
            Builtin::Gsub => ("gsub", Parameters::Replaced(true)),
            Builtin::Index => ("index", Parameters::Two),
            Builtin::Int => ("int", Parameters::One),
            Builtin::Length => ("length", Parameters::Measured),
            Builtin::Log => ("log", Parameters::One),
            Builtin::Match => ("match", Parameters::Two),
            Builtin::Rand => ("rand", Parameters::Zero),
            Builtin::Sin => ("sin", Parameters::One),
            Builtin::Split => ("split", Parameters::Pieces),
            Builtin::Sprintf => ("sprintf", Parameters::OneOrMore),
            Builtin::Sqrt => ("sqrt", Parameters::One),
            Builtin::Srand => ("srand", Parameters::AtMostOne),
            Builtin::Sub => ("sub", Parameters::Replaced(false)),
            Builtin::Substr => ("substr", Parameters::TwoOrThree),
            Builtin::System => ("system", Parameters::One),
            Builtin::Tolower => ("tolower", Parameters::One),
            Builtin::Toupper => ("toupper", Parameters::One),
        }
    }

    /// How it is spelled.
    pub fn text(self) -> &'static str
        ensures { result.now ≡ spec.builtin_text self }
    {
        self.entry().0
    }

    /// Its parameters.
    pub fn parameters(self) -> Parameters
        ensures { result ≡ spec.parameters self }
    {
        self.entry().1
    }

    /// Whether only doubles have it.
    fn is_of_doubles(self) -> bool
        ensures { result ≡ spec.is_of_doubles self }
    {
        match self {
            Builtin::Atan2
            | Builtin::Cos
            | Builtin::Exp
            | Builtin::Log
            | Builtin::Rand
            | Builtin::Sin
            | Builtin::Sqrt
            | Builtin::Srand => true,
            Builtin::Close
            | Builtin::Fflush
            | Builtin::Gsub
            | Builtin::Index
            | Builtin::Int
            | Builtin::Length
            | Builtin::Match
            | Builtin::Split
            | Builtin::Sprintf
            | Builtin::Sub
            | Builtin::Substr
            | Builtin::System
            | Builtin::Tolower
            | Builtin::Toupper => false,
        }
    }
}

/// The words of each length, so that a name is compared with few of them.
const TWO: [(&[u8], Terminal); 3] = [
    (b"do", Terminal::Do),
    (b"if", Terminal::If),
    (b"in", Terminal::In),
];

const THREE: [(&[u8], Terminal); 8] = [
    (b"END", Terminal::EndWord),
    (b"for", Terminal::For),
    (b"cos", Terminal::Builtin(Builtin::Cos)),
    (b"exp", Terminal::Builtin(Builtin::Exp)),
    (b"int", Terminal::Builtin(Builtin::Int)),
    (b"log", Terminal::Builtin(Builtin::Log)),
    (b"sin", Terminal::Builtin(Builtin::Sin)),
    (b"sub", Terminal::Builtin(Builtin::Sub)),
];

const FOUR: [(&[u8], Terminal); 7] = [
    (b"else", Terminal::Else),
    (b"exit", Terminal::Exit),
    (b"func", Terminal::Function),
    (b"next", Terminal::Jump(Jump::Next)),
    (b"gsub", Terminal::Builtin(Builtin::Gsub)),
    (b"rand", Terminal::Builtin(Builtin::Rand)),
    (b"sqrt", Terminal::Builtin(Builtin::Sqrt)),
];

const FIVE: [(&[u8], Terminal); 10] = [
    (b"BEGIN", Terminal::BeginWord),
    (b"print", Terminal::Print),
    (b"while", Terminal::While),
    (b"break", Terminal::Jump(Jump::Break)),
    (b"atan2", Terminal::Builtin(Builtin::Atan2)),
    (b"close", Terminal::Builtin(Builtin::Close)),
    (b"index", Terminal::Builtin(Builtin::Index)),
    (b"match", Terminal::Builtin(Builtin::Match)),
    (b"split", Terminal::Builtin(Builtin::Split)),
    (b"srand", Terminal::Builtin(Builtin::Srand)),
];

const SIX: [(&[u8], Terminal); 7] = [
    (b"delete", Terminal::Delete),
    (b"printf", Terminal::Printf),
    (b"return", Terminal::Return),
    (b"fflush", Terminal::Builtin(Builtin::Fflush)),
    (b"length", Terminal::Builtin(Builtin::Length)),
    (b"substr", Terminal::Builtin(Builtin::Substr)),
    (b"system", Terminal::Builtin(Builtin::System)),
];

const SEVEN: [(&[u8], Terminal); 4] = [
    (b"getline", Terminal::Getline),
    (b"sprintf", Terminal::Builtin(Builtin::Sprintf)),
    (b"tolower", Terminal::Builtin(Builtin::Tolower)),
    (b"toupper", Terminal::Builtin(Builtin::Toupper)),
];

const EIGHT: [(&[u8], Terminal); 3] = [
    (b"function", Terminal::Function),
    (b"continue", Terminal::Jump(Jump::Continue)),
    (b"nextfile", Terminal::Jump(Jump::NextFile)),
];

fn lookup(mut table: &[(&[u8], Terminal)], word: &[u8]) -> Option<Terminal>
    ensures { result ≡ spec.lookup (map (λ entry. (entry.0.now, entry.1)) table.entry.now) word.now }
{
    while let [entry, rest @ ..] = table {
        if entry.0 == word {
            return Some(entry.1);
        }
        table = rest;
    }
    None
}

/// What a word of the language is to the grammar. No other text is one. Both profiles of numbers have the same words.
pub fn reserved(word: &[u8]) -> Option<Terminal>
    ensures { result ≡ spec.reserved word.now }
{
    match word.len() {
        2 => lookup(&TWO, word),
        3 => lookup(&THREE, word),
        4 => lookup(&FOUR, word),
        5 => lookup(&FIVE, word),
        6 => lookup(&SIX, word),
        7 => lookup(&SEVEN, word),
        8 => lookup(&EIGHT, word),
        _ => None,
    }
}

fn builtin_kind(numbers: Numbers, which: Builtin) -> TokenKind
    ensures { result ≡ spec.builtin_kind numbers which }
{
    match numbers {
        Numbers::Whole => {
            if which.is_of_doubles() {
                TokenKind::Refused
            } else {
                TokenKind::Builtin
            }
        }
        Numbers::Double => TokenKind::Builtin,
    }
}

/// The kind of a word of the language: a keyword, a built-in function, or a function that the profile of numbers leaves
/// out ("Lexical Conventions", rules 7 and 8).
pub fn kind_of(numbers: Numbers, word: Terminal) -> TokenKind
    ensures { result ≡ spec.kind_of numbers word }
{
    match word {
        Terminal::Builtin(which) => builtin_kind(numbers, which),
        _ => TokenKind::Keyword,
    }
}

fn keyword_of(found: Option<Terminal>) -> Terminal
    ensures { result ≡ spec.keyword_of found }
{
    match found {
        Some(Terminal::Builtin(_)) | None => Terminal::Refused,
        Some(word) => word,
    }
}

fn builtin_of(found: Option<Terminal>) -> Terminal
    ensures { result ≡ spec.builtin_of found }
{
    match found {
        Some(Terminal::Builtin(which)) => Terminal::Builtin(which),
        _ => Terminal::Refused,
    }
}

/// What a token of this text is to the grammar whose kind is `Keyword`.
pub fn as_keyword(text: &[u8]) -> Terminal
    ensures { result ≡ spec.as_keyword text.now }
{
    keyword_of(reserved(text))
}

/// What a token of this text is to the grammar whose kind is `Builtin`.
pub fn as_builtin(text: &[u8]) -> Terminal
    ensures { result ≡ spec.as_builtin text.now }
{
    builtin_of(reserved(text))
}
