// The token at the front of a text.
ghost use Rattle.std.specs.Prelude.{◌≡◌, ◌≢◌, ◌<◌, ◌≤◌, [], IfOk, IfErr, IfSome, MatchOption, length, option_map, ◌+◌};
ghost use Rattle.awk_ere.specs.Escape.{escape};
ghost use Rattle.awk_ere.specs.Interval.{interval};
ghost use Rattle.awk_ere.specs.Bracket.{bracket};
ghost use Rattle.awk_ere.specs.Token as spec;
ghost use Rattle.awk_ere.specs.Lexing.{IsToken, IsFront, Later};

use crate::bracket::{Set, bracket};
use crate::error::EreFault;
use crate::escape::escape;
use crate::interval::{interval, repetition};
use crate::token::{Class, Times, Token};

/// A sign that repeats and leaves the size as it is.
fn times(least: u16, more: Option<u16>) -> Token
    ensures { IsToken [] result (spec.times least (option_map (λ m. least + m) more) 1) }
{
    Token::Repeat(Times {
        least,
        more,
        factor: 1,
    })
}

/// The token that a byte is by itself.
#[tactic(auto, unfolding(crate::specs::Token::sign))]
fn sign(is_open: bool, may_repeat: bool, byte: u8) -> Token
    ensures { IsToken [] result (spec.sign is_open may_repeat byte) }
{
    match byte {
        b'.' => Token::Atom(Class::Any),
        b'(' => Token::Opening,
        b')' if is_open => Token::Closing,
        b'|' => Token::Bar,
        b'^' => Token::Start,
        b'$' => Token::End,
        b'*' if may_repeat => times(0, None),
        b'+' if may_repeat => times(1, None),
        b'?' if may_repeat => times(0, Some(1)),
        other => Token::Atom(Class::One(other)),
    }
}

/// What a byte leads: a bracket expression, an escape, what may be an interval, or itself.
#[derive(Clone, Copy, PartialEq, Eq)]
pub enum Lead {
    Bracket,
    Escape,
    Brace,
    Sign,
}

#[tactic(auto, unfolding(crate::specs::Token::lead))]
fn lead_of(may_repeat: bool, byte: u8) -> Lead
    ensures { result ≡ spec.lead may_repeat byte }
{
    match byte {
        b'[' => Lead::Bracket,
        b'\\' => Lead::Escape,
        b'{' if may_repeat => Lead::Brace,
        _ => Lead::Sign,
    }
}

/// The set that the text after a `[` spells, as a token. The set is added to `sets`.
fn bracket_token<'a>(after: &'a [u8], sets: &mut Vec<Set>) -> Result<(Token, &'a [u8]), EreFault>
    ensures within { IfOk result (λ p. length p.1.now < length after.now) }
    ensures ok { IfOk result (λ p. IsFront sets.new.items (spec.bracketed (bracket after.now)) p.0 p.1.now) }
    ensures err { IfErr result (λ f. f ≢ EreFault.Memory → spec.bracketed (bracket after.now) ≡ spec.wrong f) }
    ensures sets { Later sets.old.items sets.new.items }
{
    let mut set = [false; 256];
    match bracket(after, &mut set) {
        None => Err(EreFault::Syntax),
        Some(rest) => {
            let number = sets.len();
            sets.push(set)?;
            Ok((Token::Atom(Class::In(number)), rest))
        }
    }
}

/// The byte that the text after a `\` names, as a token.
fn escape_token(after: &[u8]) -> Result<(Token, &[u8]), EreFault>
    ensures within { IfOk result (λ p. length p.1.now < length after.now) }
    ensures ok { IfOk result (λ p. IsFront [] (spec.escaped (escape after.now)) p.0 p.1.now) }
    ensures err { IfErr result (λ f. spec.escaped (escape after.now) ≡ spec.wrong f) }
{
    match escape(after) {
        None => Err(EreFault::Syntax),
        Some((byte, rest)) => Ok((Token::Atom(Class::One(byte)), rest)),
    }
}

/// The interval that the text after a `{` spells, or the `{` itself.
fn interval_token(after: &[u8]) -> Result<(Token, &[u8]), EreFault>
    ensures within { IfOk result (λ p. length p.1.now ≤ length after.now) }
    ensures ok { IfOk result (λ p. IsFront [] (spec.repeated after.now (interval after.now)) p.0 p.1.now) }
    ensures err { IfErr result (λ f. spec.repeated after.now (interval after.now) ≡ spec.wrong f) }
{
    match interval(after) {
        None => Ok((Token::Atom(Class::One(b'{')), after)),
        Some((least, most, rest)) => match repetition(least, most) {
            None => Err(EreFault::Interval),
            Some(times) => Ok((Token::Repeat(times), rest)),
        },
    }
}

/// The token at the front, and what follows it; `None` at the end. The set of a bracket expression is
/// added to `sets`. `is_open` says that a group is open, `may_repeat` that a repetition has something
/// to repeat.
///
/// Errors: `Syntax` and `Interval` where that fault stands here, `Memory`.
pub fn front<'a>(
    text: &'a [u8],
    is_open: bool,
    may_repeat: bool,
    sets: &mut Vec<Set>,
) -> Result<Option<(Token, &'a [u8])>, EreFault>
    ensures within { IfOk result (λ o. IfSome o (λ p. length p.1.now < length text.now)) }
    ensures ok { IfOk result
        (λ o. MatchOption o (spec.front is_open may_repeat text.now ≡ spec.finished)
        (λ p. IsFront sets.new.items (spec.front is_open may_repeat text.now) p.0 p.1.now)) }
    ensures err { IfErr result (λ f. f ≢ EreFault.Memory → spec.front is_open may_repeat text.now ≡ spec.wrong f) }
    ensures sets { Later sets.old.items sets.new.items }
{
    let [byte, after @ ..] = text else {
        return if is_open {
            Err(EreFault::Syntax)
        } else {
            Ok(None)
        };
    };
    match lead_of(may_repeat, *byte) {
        Lead::Bracket => {
            let found = bracket_token(after, sets)?;
            Ok(Some(found))
        }
        Lead::Escape => {
            let found = escape_token(after)?;
            Ok(Some(found))
        }
        Lead::Brace => {
            let found = interval_token(after)?;
            Ok(Some(found))
        }
        Lead::Sign => Ok(Some((sign(is_open, may_repeat, *byte), after))),
    }
}
