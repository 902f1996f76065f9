// Scripts as they are parsed: which are accepted, how they are spelled, and what they ask of a host.
use awk_numbers::number::Numbers;
use awk_parse::{Script, canon, parse};
use awk_text::Memory;
use awk_tokens::{SyntaxError, Token, TokenKind, tokens};
use library_calls::args::{name, profile, text};
use library_calls::problem::Problem;
use library_calls::row::Arg;
use library_calls::shown::{Shown, bytes, yes_or_no};
use std::alloc::Global;

/// The script of this text, by this profile.
pub fn script(alloc: Global, numbers: Numbers, text: &[u8]) -> Result<Script, Problem> {
    let tokens = tokens(alloc, numbers, text)?;
    Ok(parse(alloc, numbers, &tokens)?)
}

fn are_same(first: &[Token], second: &[Token]) -> bool {
    if first.len() != second.len() {
        return false;
    }
    for (a, b) in first.iter().zip(second) {
        if a.kind != b.kind || a.text.bytes() != b.text.bytes() {
            return false;
        }
    }
    true
}

/// The canonical spelling of the script that these tokens spell.
fn spelling_of(alloc: Global, numbers: Numbers, tokens: &[Token]) -> Result<Vec<Token>, Problem> {
    let script = parse(alloc, numbers, tokens)?;
    let spelling = canon(alloc, &script);
    script.release();
    Ok(spelling?)
}

/// Done where the canonical spelling of the script is parsed as a script with the same spelling.
fn parsed_again(alloc: Global, script: &Script) -> Shown {
    let first = canon(alloc, script)?;
    let second = spelling_of(alloc, script.numbers(), &first)?;
    if !are_same(&first, &second) {
        return Err(Problem::TwoAnswers);
    }
    bytes(alloc, b"ok")
}

/// Whether the text is refused, or is a script that its canonical spelling spells again.
fn is_read_well(alloc: Global, numbers: Numbers, text: &[u8]) -> bool {
    match script(alloc, numbers, text) {
        Ok(script) => {
            let again = parsed_again(alloc, &script);
            script.release();
            again.is_ok()
        }
        Err(Problem::Script(error)) => error.code != SyntaxError::MEMORY,
        Err(_) => false,
    }
}

/// Reads each prefix of the text by this profile, as a script that breaks off.
pub fn read_prefixes(alloc: Global, numbers: Numbers, text: &[u8]) -> Result<(), Problem> {
    for end in 0..=text.len() {
        if !is_read_well(alloc, numbers, text.get(..end).unwrap_or(text)) {
            return Err(Problem::Prefix(end));
        }
    }
    Ok(())
}

/// What a script has before the text of such a token, and behind it.
fn mark(kind: TokenKind) -> &'static [u8] {
    match kind {
        TokenKind::Quoted => b"\"",
        TokenKind::Pattern => b"/",
        _ => b"",
    }
}

/// Whether a space stands before the token: no line begins with one, and none ends so.
fn is_spaced(shown: &[u8], token: &Token) -> bool {
    !matches!(shown, [] | [.., b'\n']) && token.text.bytes() != b"\n".as_slice()
}

fn push_token(token: &Token, shown: &mut Vec<u8>) -> Result<(), Memory> {
    if is_spaced(shown, token) {
        shown.push(b' ')?;
    }
    shown.extend_from_slice(mark(token.kind))?;
    shown.extend_from_slice(token.text.bytes())?;
    shown.extend_from_slice(mark(token.kind))
}

/// The tokens with spaces between.
fn spelled(alloc: Global, tokens: &[Token]) -> Shown {
    let mut shown = Vec::new(alloc);
    for token in tokens {
        push_token(token, &mut shown)?;
    }
    Ok(shown)
}

/// What the script asks of its host: the main input, and the environment.
fn asked(alloc: Global, script: &Script) -> Shown {
    let asked: &[u8] = match (script.reads_main(), script.names_environ()) {
        (true, true) => b"main environment",
        (true, false) => b"main",
        (false, true) => b"environment",
        (false, false) => b"nothing",
    };
    bytes(alloc, asked)
}

fn spelled_script(alloc: Global, script: &Script) -> Shown {
    let tokens = canon(alloc, script)?;
    spelled(alloc, &tokens)
}

/// What the call says of the script.
fn told_of(alloc: Global, script: &Script, args: &[Arg<'_>]) -> Shown {
    match name(args, 0) {
        "parse" => parsed_again(alloc, script),
        "canon" => spelled_script(alloc, script),
        "asks" => asked(alloc, script),
        "can_assign" => yes_or_no(alloc, script.can_assign(text(args, 2))),
        _ => Err(Problem::NoCall),
    }
}

/// The answer of the call.
pub fn call(alloc: Global, args: &[Arg<'_>]) -> Shown {
    let (numbers, args) = profile(args);
    let script = script(alloc, numbers, text(args, 1))?;
    let answer = told_of(alloc, &script, args);
    script.release();
    answer
}
