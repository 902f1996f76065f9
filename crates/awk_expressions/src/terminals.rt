// What a token is to the grammar.

ghost use Rattle.std.specs.Prelude.{◌≡◌, map};
ghost use Rattle.awk_tree.specs.Terminals as spec;

use awk_tokens::{Assignment, Step, Terminal, Token, TokenKind, as_builtin, as_keyword};

fn word_in(mut table: &[(&[u8], Terminal)], text: &[u8]) -> Terminal
    ensures { result ≡ spec.word_in (map (λ entry. (entry.0.now, entry.1)) table.entry.now) text.now }
{
    while let [entry, rest @ ..] = table {
        if entry.0 == text {
            return entry.1;
        }
        table = rest;
    }
    Terminal::Refused
}

/// The sign of this one byte.
fn single(c: u8) -> Terminal
    ensures { result ≡ spec.byte_in spec.singles c }
{
    match c {
        b'\n' => Terminal::Newline,
        b'!' => Terminal::Not,
        b'$' => Terminal::Dollar,
        b'%' => Terminal::Percent,
        b'(' => Terminal::OpenParen,
        b')' => Terminal::CloseParen,
        b'*' => Terminal::Star,
        b'+' => Terminal::Plus,
        b',' => Terminal::Comma,
        b'-' => Terminal::Minus,
        b'/' => Terminal::Slash,
        b':' => Terminal::Colon,
        b';' => Terminal::Semicolon,
        b'<' => Terminal::Less,
        b'=' => Terminal::Assign(Assignment::Set),
        b'>' => Terminal::Greater,
        b'?' => Terminal::Question,
        b'[' => Terminal::OpenBracket,
        b']' => Terminal::CloseBracket,
        b'^' => Terminal::Caret,
        b'{' => Terminal::OpenBrace,
        b'|' => Terminal::Bar,
        b'}' => Terminal::CloseBrace,
        b'~' => Terminal::Tilde,
        _ => Terminal::Refused,
    }
}

const DOUBLES: [(&[u8], Terminal); 16] = [
    (b"+=", Terminal::Assign(Assignment::Add)),
    (b"-=", Terminal::Assign(Assignment::Subtract)),
    (b"*=", Terminal::Assign(Assignment::Multiply)),
    (b"/=", Terminal::Assign(Assignment::Divide)),
    (b"%=", Terminal::Assign(Assignment::Remainder)),
    (b"^=", Terminal::Assign(Assignment::Power)),
    (b"==", Terminal::Equal),
    (b"<=", Terminal::LessOrEqual),
    (b">=", Terminal::GreaterOrEqual),
    (b"!=", Terminal::NotEqual),
    (b"!~", Terminal::NotTilde),
    (b"++", Terminal::Step(Step::Increment)),
    (b"--", Terminal::Step(Step::Decrement)),
    (b"&&", Terminal::And),
    (b"||", Terminal::Or),
    (b">>", Terminal::Append),
];

fn sign_of(text: &[u8]) -> Terminal
    ensures { result ≡ spec.sign_of text.now }
{
    match text {
        [c] => single(*c),
        _ => word_in(&DOUBLES, text),
    }
}

#[tactic(auto, unfolding(awk_tree::specs::Terminals::terminal_of))]
fn terminal_of(kind: TokenKind, text: &[u8]) -> Terminal
    ensures { result ≡ spec.terminal_of kind text.now }
{
    match kind {
        TokenKind::Number => Terminal::Number,
        TokenKind::Quoted => Terminal::Quoted,
        TokenKind::Pattern => Terminal::Pattern,
        TokenKind::Keyword => as_keyword(text),
        TokenKind::Builtin => as_builtin(text),
        TokenKind::Refused => Terminal::Refused,
        TokenKind::Name => Terminal::Name,
        TokenKind::CallName => Terminal::CallName,
        TokenKind::Sign => sign_of(text),
    }
}

/// What the token is to the grammar.
pub fn terminal(token: &Token) -> Terminal
    ensures { result ≡ spec.terminal token.now }
{
    terminal_of(token.kind, token.text.bytes())
}

fn number_of(one: Terminal) -> u8
    ensures { result ≡ spec.number_of one }
{
    match one {
        Terminal::End => 0,
        Terminal::Newline => 1,
        Terminal::Semicolon => 2,
        Terminal::CloseBrace => 3,
        Terminal::OpenBrace => 4,
        Terminal::OpenParen => 5,
        Terminal::CloseParen => 6,
        Terminal::OpenBracket => 7,
        Terminal::CloseBracket => 8,
        Terminal::Comma => 9,
        Terminal::Number => 10,
        Terminal::Quoted => 11,
        Terminal::Pattern => 12,
        Terminal::Name => 13,
        Terminal::CallName => 14,
        Terminal::Builtin(_) => 15,
        Terminal::Plus => 16,
        Terminal::Minus => 17,
        Terminal::Star => 18,
        Terminal::Slash => 19,
        Terminal::Percent => 20,
        Terminal::Caret => 21,
        Terminal::Not => 22,
        Terminal::Greater => 23,
        Terminal::Less => 24,
        Terminal::Bar => 25,
        Terminal::BarGetline => 26,
        Terminal::Question => 27,
        Terminal::Colon => 28,
        Terminal::Tilde => 29,
        Terminal::Dollar => 30,
        Terminal::Assign(_) => 31,
        Terminal::Equal => 32,
        Terminal::LessOrEqual => 33,
        Terminal::GreaterOrEqual => 34,
        Terminal::NotEqual => 35,
        Terminal::NotTilde => 36,
        Terminal::Step(_) => 37,
        Terminal::And => 38,
        Terminal::Or => 39,
        Terminal::Append => 40,
        Terminal::BeginWord => 41,
        Terminal::EndWord => 42,
        Terminal::Jump(_) => 43,
        Terminal::Delete => 44,
        Terminal::Do => 45,
        Terminal::Else => 46,
        Terminal::Exit => 47,
        Terminal::For => 48,
        Terminal::Function => 49,
        Terminal::Getline => 50,
        Terminal::If => 51,
        Terminal::In => 52,
        Terminal::Print => 53,
        Terminal::Printf => 54,
        Terminal::Return => 55,
        Terminal::While => 56,
        Terminal::Refused => 57,
    }
}

/// Whether the two are of one form.
pub fn is(one: Terminal, other: Terminal) -> bool
    ensures { result ≡ spec.is one other }
{
    number_of(one) == number_of(other)
}

fn calm(one: Terminal) -> Terminal
    ensures { result ≡ spec.calm one }
{
    match one {
        Terminal::Newline | Terminal::Semicolon | Terminal::CloseBrace => Terminal::End,
        _ => one,
    }
}

/// The next token as it is.
pub fn look(tokens: &[Token]) -> Terminal
    ensures { result ≡ spec.look tokens.now }
{
    match tokens.first() {
        None => Terminal::End,
        Some(token) => terminal(token),
    }
}

fn seen(first: Terminal, rest: &[Token]) -> Terminal
    ensures { result ≡ spec.seen first (spec.is (spec.look rest.now) Terminal.Getline) }
{
    match first {
        Terminal::Bar => {
            if is(look(rest), Terminal::Getline) {
                Terminal::BarGetline
            } else {
                Terminal::Bar
            }
        }
        _ => calm(first),
    }
}

/// The next token as an expression sees it, where it is this one.
pub fn ahead(next: Terminal, tokens: &[Token]) -> Terminal
    requires { next ≡ spec.look tokens.now }
    ensures { result ≡ spec.ahead tokens.now }
{
    match tokens {
        [] => Terminal::End,
        [_, rest @ ..] => seen(next, rest),
    }
}
