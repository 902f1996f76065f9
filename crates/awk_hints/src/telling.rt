// The hints of a script.
ghost use Rattle.std.specs.Prelude.{◌≡◌, ◌↔◌, ◌++◌, [], All, IsTrue, codes, IfOk, IfSome, OnOk, map, true, false, Some};
ghost use Rattle.std.specs.Option.{option_to_list};
ghost use Rattle.std.specs.Str.{bytes_eq};
ghost use Rattle.awk_numbers.specs.declared.number.Numbers.TheVariants.{Whole};
ghost use Rattle.awk_hints.specs.Causes as spec;
ghost use Rattle.awk_hints.specs.Causes.{Causes};
ghost use Rattle.awk_hints.specs.Hints.{AreTold, Tells, hint_of};

use crate::around::{Around, sign};
use crate::divisions::{divides, names_int};
use crate::escapes::{Part, behind, is_operator};
use crate::fields::compares_unset;
use crate::formats::{flaw_in, has_wide, is_format};
use crate::hint::{Hint, HintKind};
use crate::known::is_gawk_name;
use crate::levels::{Level, Levels, Opening};
use crate::names::{Flaw, flaws_of};
use crate::numbers::{begins_hex, starts_early};
use awk_numbers::number::Numbers;
use awk_text::Memory;
use awk_text::escape::unescape;
use awk_tokens::{Token, TokenKind};
use std::alloc::{AllocError, Global};

/// Whether a `=` here is a condition, by the innermost open bracket: outside all of them stand patterns.
fn is_condition(inner: Option<Level>) -> bool {
    match inner {
        Some(level) => matches!(
            (level.opening, level.part),
            (Opening::Condition, _) | (Opening::Header, 1)
        ),
        None => true,
    }
}

/// Whether numbers have no fractions.
fn is_of_whole(numbers: Numbers) -> bool
    ensures { IsTrue result ↔ (numbers ≡ Whole) }
{
    match numbers {
        Numbers::Whole => true,
        Numbers::Double => false,
    }
}

#[tactic(auto, unfolding(crate::specs::Causes::Causes))]
fn sign_hint(
    numbers: Numbers,
    around: Around<'_>,
    inner: Option<Level>,
    excused: bool,
) -> Option<HintKind>
    requires { around.token.now.kind ≡ TokenKind.Sign }
    ensures caused { IfSome result (Causes numbers around.entry.token.now) }
    ensures sets { numbers ≡ Whole → bytes_eq around.entry.token.now.text (codes "/=") ≡ true →
        result ≡ Some HintKind.Division }
    ensures divides { numbers ≡ Whole → bytes_eq around.entry.token.now.text (codes "/") ≡ true → excused ≡ false →
        spec.is_between_numbers around.entry.before.now around.entry.after.now ≡ false →
        result ≡ Some HintKind.Division }
{
    if is_of_whole(numbers) && divides(around, excused) {
        return Some(HintKind::Division);
    }
    if around.token.text.bytes() == b"=".as_slice() && is_condition(inner) {
        return Some(HintKind::Assignment);
    }
    if compares_unset(around) {
        return Some(HintKind::UnsetField);
    }
    if starts_early(around, inner) {
        return Some(HintKind::EarlyStart);
    }
    None
}

#[tactic(auto, unfolding(crate::specs::Causes::Causes))]
fn number_hint(around: Around<'_>, inner: Option<Level>) -> Option<HintKind>
    requires { around.token.now.kind ≡ TokenKind.Number }
    ensures { (numbers : Numbers) → IfSome result (Causes numbers around.entry.token.now) }
{
    if begins_hex(around) {
        return Some(HintKind::HexNumber);
    }
    if starts_early(around, inner) {
        return Some(HintKind::EarlyStart);
    }
    None
}

/// Whether the string that stands here is longer than a byte.
fn is_long(alloc: Global, token: Option<&Token>) -> Result<bool, Memory> {
    match token {
        Some(token) => match token.kind {
            TokenKind::Quoted => match unescape(alloc, token.text.bytes()) {
                Ok(text) => Ok(text.len() > 1),
                Err(_) => Err(AllocError),
            },
            _ => Ok(false),
        },
        None => Ok(false),
    }
}

/// Whether the variable is set here to a constant that is longer than a byte.
fn sets_long(alloc: Global, around: Around<'_>) -> Result<bool, Memory> {
    match around.next(1) {
        Some(token) if matches!(sign(token), (b'=', 0)) => is_long(alloc, around.next(2)),
        _ => Ok(false),
    }
}

fn flaw_hint(flaw: Flaw) -> Option<HintKind>
    ensures { IfSome result (λ kind. spec.is_of_name kind ≡ true) }
{
    match flaw {
        Flaw::None => None,
        Flaw::SetOnce => Some(HintKind::SetOnce),
        Flaw::ReadOnce => Some(HintKind::ReadOnce),
        Flaw::OnlyRead => Some(HintKind::OnlyRead),
        Flaw::Uncalled => Some(HintKind::Uncalled),
        Flaw::Unused => Some(HintKind::Unused),
    }
}

#[tactic(auto, unfolding(crate::specs::Causes::Causes))]
fn variable_hint(alloc: Global, around: Around<'_>, flaw: Flaw) -> Result<Option<HintKind>, Memory>
    requires { around.token.now.kind ≡ TokenKind.Name }
    ensures caused { (numbers : Numbers) → IfOk result
        (λ kind. IfSome kind (Causes numbers around.entry.token.now)) }
    ensures known { IfOk result
        (λ kind. spec.is_gawk_name around.entry.token.now.text ≡ true → kind ≡ Some HintKind.GawkName) }
{
    let name = around.token.text.bytes();
    if is_gawk_name(name) {
        return Ok(Some(HintKind::GawkName));
    }
    if name == b"RS".as_slice() && sets_long(alloc, around)? {
        return Ok(Some(HintKind::LongSeparator));
    }
    Ok(flaw_hint(flaw))
}

fn one(alloc: Global, kind: Option<HintKind>) -> Result<Vec<HintKind>, Memory>
    ensures { IfOk result (λ kinds. kinds.items ≡ option_to_list kind) }
{
    let mut kinds = Vec::new(alloc);
    if let Some(kind) = kind {
        kinds.push(kind)?;
    }
    Ok(kinds)
}

fn tells_of(kinds: &[HintKind], letter: u8) -> bool {
    for kind in kinds {
        if matches!(kind, HintKind::GawkEscape(told) if *told == letter) {
            return true;
        }
    }
    false
}

/// Each escape of an ERE that gawk reads as an operator, once.
fn escape_hints(alloc: Global, pattern: &[u8]) -> Result<Vec<HintKind>, Memory>
    ensures { IfOk result (λ kinds. All (λ kind. spec.is_of_pattern kind ≡ true) kinds.items) }
{
    let mut kinds = Vec::new(alloc);
    let mut part = Part::Outside;
    for b in pattern {
        if matches!(part, Part::Escape) && is_operator(*b) && !tells_of(kinds.as_slice(), *b) {
            kinds.push(HintKind::GawkEscape(*b))?;
        }
        part = behind(part, *b);
    }
    Ok(kinds)
}

fn format_hints(
    alloc: Global,
    numbers: Numbers,
    around: Around<'_>,
) -> Result<Vec<HintKind>, Memory>
    ensures { IfOk result (λ kinds. All (λ kind. spec.is_of_format kind ≡ true) kinds.items) }
{
    let mut kinds = Vec::new(alloc);
    if !is_format(around) {
        return Ok(kinds);
    }
    let format = around.token.text.bytes();
    if let Some(kind) = flaw_in(numbers, format) {
        kinds.push(kind)?;
    }
    if has_wide(format, around.after) {
        kinds.push(HintKind::WideCharacter)?;
    }
    Ok(kinds)
}

/// What is told of a token.
fn kinds_of(
    alloc: Global,
    numbers: Numbers,
    around: Around<'_>,
    inner: Option<Level>,
    excused: bool,
    flaw: Flaw,
) -> Result<Vec<HintKind>, Memory>
    ensures { IfOk result
        (λ kinds. AreTold numbers around.entry.before.now around.entry.token.now around.entry.after.now excused
        kinds.items) }
{
    match around.token.kind {
        TokenKind::Sign => Ok(one(alloc, sign_hint(numbers, around, inner, excused))?),
        TokenKind::Number => Ok(one(alloc, number_hint(around, inner))?),
        TokenKind::Quoted => Ok(format_hints(alloc, numbers, around)?),
        TokenKind::Pattern => Ok(escape_hints(alloc, around.token.text.bytes())?),
        TokenKind::Name => Ok(one(alloc, variable_hint(alloc, around, flaw)?)?),
        TokenKind::CallName => Ok(one(alloc, flaw_hint(flaw))?),
        TokenKind::Keyword | TokenKind::Builtin | TokenKind::Refused => Ok(Vec::new(alloc)),
    }
}

fn push_hints(
    alloc: Global,
    token: &Token,
    kinds: &[HintKind],
    out: &mut Vec<Hint>,
) -> Result<(), Memory>
    ensures { OnOk result (out.new.items ≡ out.old.items ++ map (hint_of token.now) kinds.now) }
{
    for kind in kinds {
        let text = token.text.copy(alloc)?;
        out.push(Hint {
            place: token.place,
            text,
            kind: *kind,
        })?;
    }
    Ok(())
}

/// Whether a division in this bracket is the argument of `int`, where the script names that at all.
fn is_excused(names_int: bool, inner: Option<Level>) -> bool
    ensures { result ≡ true → names_int ≡ true }
{
    if !names_int {
        return false;
    }
    match inner {
        Some(level) => matches!(level.opening, Opening::Quotient),
        None => false,
    }
}

fn push_all(
    alloc: Global,
    numbers: Numbers,
    tokens: &[Token],
    flaws: &[Flaw],
    out: &mut Vec<Hint>,
) -> Result<(), Memory>
    requires { out.old.items ≡ [] }
    ensures { OnOk result (Tells numbers tokens.now tokens.now out.new.items) }
{
    let names_int = names_int(tokens);
    let mut levels = Levels::new(alloc);
    for (at, token) in tokens.iter().enumerate() {
        let (before, _) = tokens.split_at(at);
        let (_, after) = tokens.split_at(at + 1);
        let around = Around {
            before,
            token,
            after,
        };
        let inner = levels.inner();
        let excused = is_excused(names_int, inner);
        let flaw = flaws.get(at).copied().unwrap_or(Flaw::None);
        let kinds = kinds_of(alloc, numbers, around, inner, excused, flaw)?;
        push_hints(alloc, token, kinds.as_slice(), out)?;
        levels.pass(around)?;
    }
    Ok(())
}

/// The hints of the script that these tokens spell, whose numbers these are, in the order of the tokens, or `Memory`
/// where memory is refused.
pub fn hints(alloc: Global, numbers: Numbers, tokens: &[Token]) -> Result<Vec<Hint>, Memory>
    ensures { IfOk result (λ hints. Tells numbers tokens.now tokens.now hints.items) }
{
    let flaws = flaws_of(alloc, tokens)?;
    let mut out = Vec::new(alloc);
    push_all(alloc, numbers, tokens, flaws.as_slice(), &mut out)?;
    Ok(out)
}
