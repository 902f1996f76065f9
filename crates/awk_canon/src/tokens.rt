// Tokens of a spelling.

ghost use Rattle.std.specs.Prelude.{◌≡◌, [], ◌∷◌, ◌++◌, IfOk, OnOk};
ghost use Rattle.awk_tokens.specs.Words.{builtin_text};
ghost use Rattle.awk_tokens.specs.declared.kinds.TokenKind.TheVariants as kinds;
ghost use Rattle.awk_tree.specs.Canon as spec;
ghost use Rattle.awk_tree.specs.Terminals as terminals;

use awk_text::Memory;
use awk_text::octets::Octets;
use awk_text::place::Place;
use awk_tokens::{Builtin, Token, TokenKind};
use awk_tree::{Member, Name};
use std::alloc::Global;

const NOWHERE: Place = Place { line: 0, column: 0 };

/// A token that stands nowhere.
fn token(kind: TokenKind, text: Octets) -> Token
    ensures { result ≡ terminals.token kind text }
{
    Token {
        kind,
        text,
        start: 0,
        place: NOWHERE,
        end: NOWHERE,
    }
}

fn push_text(alloc: Global, kind: TokenKind, text: &str, out: &mut Vec<Token>) -> Result<(), Memory>
    ensures { OnOk result (out.new.items ≡ out.old.items ++ terminals.token kind text.now ∷ []) }
{
    let text = Octets::of(alloc, text.as_bytes())?;
    Ok(out.push(token(kind, text))?)
}

pub fn push_sign(alloc: Global, text: &str, out: &mut Vec<Token>) -> Result<(), Memory>
    ensures { OnOk result (out.new.items ≡ out.old.items ++ terminals.sign text.now ∷ []) }
{
    push_text(alloc, TokenKind::Sign, text, out)
}

pub fn push_keyword(alloc: Global, text: &str, out: &mut Vec<Token>) -> Result<(), Memory>
    ensures { OnOk result (out.new.items ≡ out.old.items ++ terminals.keyword text.now ∷ []) }
{
    push_text(alloc, TokenKind::Keyword, text, out)
}

pub fn push_builtin(alloc: Global, which: Builtin, out: &mut Vec<Token>) -> Result<(), Memory>
    ensures { OnOk result (out.new.items ≡ out.old.items ++ spec.builtin_word (builtin_text which) ∷ []) }
{
    push_text(alloc, TokenKind::Builtin, which.text(), out)
}

/// A token of this kind, with a text that the tree keeps.
pub fn push_kept(
    alloc: Global,
    kind: TokenKind,
    text: &Octets,
    out: &mut Vec<Token>,
) -> Result<(), Memory>
    ensures { OnOk result (out.new.items ≡ out.old.items ++ terminals.token kind text.now ∷ []) }
{
    let text = text.copy(alloc)?;
    Ok(out.push(token(kind, text))?)
}

pub fn push_name(alloc: Global, name: &Name, out: &mut Vec<Token>) -> Result<(), Memory>
    ensures { OnOk result (out.new.items ≡ out.old.items ++ spec.word name.now ∷ []) }
{
    push_kept(alloc, TokenKind::Name, &name.text, out)
}

/// `;`
pub fn push_end(alloc: Global, out: &mut Vec<Token>) -> Result<(), Memory>
    ensures { OnOk result (out.new.items ≡ out.old.items ++ spec.end) }
{
    push_sign(alloc, ";", out)
}

/// `in array`
fn push_member(alloc: Global, member: &Member, out: &mut Vec<Token>) -> Result<(), Memory>
    ensures { OnOk result (out.new.items ≡ out.old.items ++ spec.canon_members (member.now ∷ [])) }
{
    push_keyword(alloc, "in", out)?;
    push_name(alloc, &member.array, out)
}

pub fn push_members(alloc: Global, members: &[Member], out: &mut Vec<Token>) -> Result<(), Memory>
    ensures { OnOk result (out.new.items ≡ out.old.items ++ spec.canon_members members.now) }
{
    for member in members {
        push_member(alloc, member, out)?;
    }
    Ok(())
}
