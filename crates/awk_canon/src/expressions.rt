// How expressions are spelled.

ghost use Rattle.std.specs.Prelude.{◌≡◌, [], ◌∷◌, ◌++◌, OnOk, codes, map, option_map};
ghost use Rattle.awk_canon.specs.Lists.{canon_behind, canon_behind_one};
ghost use Rattle.awk_tree.specs.Canon as spec;
ghost use Rattle.awk_tree.specs.Terminals as terminals;
ghost use Rattle.awk_tree.specs.Tree as t;
ghost use Rattle.awk_tree.specs.Tree.{trees_of, perhaps_of, terms_of, pipes_of};
ghost use Rattle.awk_tree.specs.View.{view, view_term, view_piped};

use crate::spelling::{
    arithmetic_text, assignment_text, comparison_text, match_text, sign_text, step_text,
    substituting,
};
use crate::tokens::{push_builtin, push_kept, push_keyword, push_members, push_name, push_sign};
use awk_text::Memory;
use awk_tokens::{Builtin, Token, TokenKind};
use awk_tree::{Expr, Name, Piped, Term};
use sqlite_items::Boxed;
use std::alloc::Global;

/// Writes an expression, or answers `Memory` where memory is refused; what was written until then
/// stays.
#[cycle(expression)]
pub fn expression(alloc: Global, e: &Expr, out: &mut Vec<Token>) -> Result<(), Memory>
    ensures { OnOk result (out.new.items ≡ out.old.items ++ spec.canon (view e.now)) }
{
    match e {
        Expr::Number(_place, text) => push_kept(alloc, TokenKind::Number, text, out),
        Expr::Quoted(_place, text) => push_kept(alloc, TokenKind::Quoted, text, out),
        Expr::Pattern(_place, text) => push_kept(alloc, TokenKind::Pattern, text, out),
        Expr::Name(name) => push_name(alloc, name, out),
        Expr::Element(name, xs) => {
            push_name(alloc, name, out)?;
            enclosed(alloc, "[", xs.as_slice(), "]", out)
        }
        Expr::Field(_place, x) => prefixed(alloc, "$", x.get(), out),
        Expr::Paren(_place, x) => paren(alloc, x.get(), out),
        Expr::Call(name, xs) => {
            push_kept(alloc, TokenKind::CallName, &name.text, out)?;
            enclosed(alloc, "(", xs.as_slice(), ")", out)
        }
        Expr::Length(_place) => push_builtin(alloc, Builtin::Length, out),
        Expr::Builtin(_place, builtin, xs) => {
            push_builtin(alloc, *builtin, out)?;
            enclosed(alloc, "(", xs.as_slice(), ")", out)
        }
        Expr::Split(_place, x, name, y) => split(alloc, x.get(), name, y, out),
        Expr::Substitute(_place, is_all, x, y, z) => {
            substitute(alloc, *is_all, x.get(), y.get(), z, out)
        }
        Expr::Getline(_place, x, y) => getline(alloc, x, y, out),
        Expr::Before(_place, step, x) => prefixed(alloc, step_text(*step), x.get(), out),
        Expr::After(x, _place, step) => suffixed(alloc, x.get(), step_text(*step), out),
        Expr::Signed(_place, sign, x) => prefixed(alloc, sign_text(*sign), x.get(), out),
        Expr::Power(x, _place, y) => between(alloc, x.get(), "^", y.get(), out),
        Expr::Product(x, ts) => chain(alloc, x.get(), ts.as_slice(), out),
        Expr::Sum(x, ts) => chain(alloc, x.get(), ts.as_slice(), out),
        Expr::Concat(x, xs) => {
            expression(alloc, x.get(), out)?;
            parts(alloc, xs.as_slice(), out)
        }
        Expr::Pipe(x, ps) => {
            expression(alloc, x.get(), out)?;
            pipes(alloc, ps.as_slice(), out)
        }
        Expr::Compare(x, _place, comparison, y) => {
            between(alloc, x.get(), comparison_text(*comparison), y.get(), out)
        }
        Expr::Match(x, _place, is_unlike, y) => {
            between(alloc, x.get(), match_text(*is_unlike), y.get(), out)
        }
        Expr::Group(_place, xs, ms) => {
            enclosed(alloc, "(", xs.as_slice(), ")", out)?;
            push_members(alloc, ms.as_slice(), out)
        }
        Expr::In(x, ms) => {
            expression(alloc, x.get(), out)?;
            push_members(alloc, ms.as_slice(), out)
        }
        Expr::And(x, xs) => {
            expression(alloc, x.get(), out)?;
            behind(alloc, "&&", xs.as_slice(), out)
        }
        Expr::Or(x, xs) => {
            expression(alloc, x.get(), out)?;
            behind(alloc, "||", xs.as_slice(), out)
        }
        Expr::Choice(x, y, z) => choice(alloc, x.get(), y.get(), z.get(), out),
        Expr::Assign(x, _place, assignment, y) => {
            between(alloc, x.get(), assignment_text(*assignment), y.get(), out)
        }
    }
}

/// An expression behind a sign.
#[cycle(expression)]
pub fn prefixed(alloc: Global, text: &str, x: &Expr, out: &mut Vec<Token>) -> Result<(), Memory>
    ensures { OnOk result (out.new.items ≡ out.old.items ++ terminals.sign text.now ∷ spec.canon (view x.now)) }
{
    push_sign(alloc, text, out)?;
    expression(alloc, x, out)
}

/// An expression before a sign.
#[cycle(expression)]
fn suffixed(alloc: Global, x: &Expr, text: &str, out: &mut Vec<Token>) -> Result<(), Memory>
    ensures { OnOk result (out.new.items ≡ out.old.items ++ (spec.canon (view x.now) ++ terminals.sign text.now ∷ [])) }
{
    expression(alloc, x, out)?;
    push_sign(alloc, text, out)
}

/// Two expressions with a sign between.
#[cycle(expression)]
pub fn between(
    alloc: Global,
    x: &Expr,
    text: &str,
    y: &Expr,
    out: &mut Vec<Token>,
) -> Result<(), Memory>
    ensures { OnOk result
        (out.new.items ≡ out.old.items
        ++ (spec.canon (view x.now) ++ terminals.sign text.now ∷ spec.canon (view y.now))) }
{
    expression(alloc, x, out)?;
    prefixed(alloc, text, y, out)
}

/// `test ? then : else`
#[cycle(expression)]
fn choice(alloc: Global, x: &Expr, y: &Expr, z: &Expr, out: &mut Vec<Token>) -> Result<(), Memory>
    ensures { OnOk result
        (out.new.items ≡ out.old.items ++ spec.canon (t.choose (view x.now) (view y.now) (view z.now))) }
{
    between(alloc, x, "?", y, out)?;
    prefixed(alloc, ":", z, out)
}

/// `( expr )`
#[cycle(expression)]
pub fn paren(alloc: Global, x: &Expr, out: &mut Vec<Token>) -> Result<(), Memory>
    ensures { OnOk result
        (out.new.items ≡ out.old.items ++ terminals.sign (codes "(")
        ∷ (spec.canon (view x.now) ++ terminals.sign (codes ")") ∷ [])) }
{
    push_sign(alloc, "(", out)?;
    suffixed(alloc, x, ")", out)
}

/// A list between two signs.
#[cycle(expression)]
pub fn enclosed(
    alloc: Global,
    opening: &str,
    xs: &[Expr],
    closing: &str,
    out: &mut Vec<Token>,
) -> Result<(), Memory>
    ensures { OnOk result
        (out.new.items ≡ out.old.items ++ terminals.sign opening.now
        ∷ (spec.canon_list (trees_of (map view xs.now)) ++ terminals.sign closing.now ∷ [])) }
{
    push_sign(alloc, opening, out)?;
    list(alloc, xs, out)?;
    push_sign(alloc, closing, out)
}

/// Expressions with commas between.
#[cycle(expression)]
#[tactic(auto, using(crate::proofs::Lists::commas_are))]
pub fn list(alloc: Global, xs: &[Expr], out: &mut Vec<Token>) -> Result<(), Memory>
    ensures { OnOk result (out.new.items ≡ out.old.items ++ spec.canon_list (trees_of (map view xs.now))) }
{
    match xs {
        [] => Ok(()),
        [first, rest @ ..] => {
            expression(alloc, first, out)?;
            behind(alloc, ",", rest, out)
        }
    }
}

/// Expressions with a sign before each.
#[cycle(expression)]
fn behind(alloc: Global, text: &str, xs: &[Expr], out: &mut Vec<Token>) -> Result<(), Memory>
    ensures { OnOk result (out.new.items ≡ out.old.items ++ canon_behind text.now (trees_of (map view xs.now))) }
{
    for x in xs {
        prefixed(alloc, text, x, out)?;
    }
    Ok(())
}

/// Expressions, one directly after the other.
#[cycle(expression)]
fn parts(alloc: Global, xs: &[Expr], out: &mut Vec<Token>) -> Result<(), Memory>
    ensures { OnOk result (out.new.items ≡ out.old.items ++ spec.canon_parts (trees_of (map view xs.now))) }
{
    for x in xs {
        expression(alloc, x, out)?;
    }
    Ok(())
}

/// A chain of one level.
#[cycle(expression)]
fn chain(alloc: Global, x: &Expr, ts: &[Term<Expr>], out: &mut Vec<Token>) -> Result<(), Memory>
    ensures { OnOk result
        (out.new.items ≡ out.old.items
        ++ (spec.canon (view x.now) ++ spec.canon_terms (terms_of (map view_term ts.now)))) }
{
    expression(alloc, x, out)?;
    terms(alloc, ts, out)
}

#[cycle(expression)]
fn terms(alloc: Global, ts: &[Term<Expr>], out: &mut Vec<Token>) -> Result<(), Memory>
    ensures { OnOk result (out.new.items ≡ out.old.items ++ spec.canon_terms (terms_of (map view_term ts.now))) }
{
    for x in ts {
        term(alloc, x, out)?;
    }
    Ok(())
}

#[cycle(expression)]
fn term(alloc: Global, x: &Term<Expr>, out: &mut Vec<Token>) -> Result<(), Memory>
    ensures { OnOk result
        (out.new.items ≡ out.old.items ++ terminals.sign (spec.arithmetic_text x.now.operator)
        ∷ spec.canon (view x.now.operand)) }
{
    prefixed(alloc, arithmetic_text(x.operator), &x.operand, out)
}

#[cycle(expression)]
fn pipes(alloc: Global, ps: &[Piped<Expr>], out: &mut Vec<Token>) -> Result<(), Memory>
    ensures { OnOk result (out.new.items ≡ out.old.items ++ spec.canon_pipes (pipes_of (map view_piped ps.now))) }
{
    for x in ps {
        piped(alloc, x, out)?;
    }
    Ok(())
}

/// `| getline lvalue`
#[cycle(expression)]
fn piped(alloc: Global, x: &Piped<Expr>, out: &mut Vec<Token>) -> Result<(), Memory>
    ensures { OnOk result
        (out.new.items ≡ out.old.items ++ terminals.sign (codes "|")
        ∷ (terminals.keyword (codes "getline") ∷ spec.canon_target (perhaps_of (option_map view x.now.target)))) }
{
    push_sign(alloc, "|", out)?;
    push_keyword(alloc, "getline", out)?;
    optional(alloc, &x.target, out)
}

/// An expression that may be absent.
#[cycle(expression)]
pub fn optional(alloc: Global, x: &Option<Expr>, out: &mut Vec<Token>) -> Result<(), Memory>
    ensures { OnOk result (out.new.items ≡ out.old.items ++ spec.canon_target (perhaps_of (option_map view x.now))) }
{
    match x {
        None => Ok(()),
        Some(x) => expression(alloc, x, out),
    }
}

/// The variable of a `getline`, which may be absent.
#[cycle(expression)]
fn target(alloc: Global, x: &Option<Boxed<Expr>>, out: &mut Vec<Token>) -> Result<(), Memory>
    ensures { OnOk result (out.new.items ≡ out.old.items ++ spec.canon_target (perhaps_of (option_map view x.now))) }
{
    match x {
        None => Ok(()),
        Some(x) => expression(alloc, x.get(), out),
    }
}

/// An expression behind a sign, where both may be absent.
#[cycle(expression)]
fn behind_one(
    alloc: Global,
    text: &str,
    x: &Option<Boxed<Expr>>,
    out: &mut Vec<Token>,
) -> Result<(), Memory>
    ensures { OnOk result
        (out.new.items ≡ out.old.items ++ canon_behind_one text.now (perhaps_of (option_map view x.now))) }
{
    match x {
        None => Ok(()),
        Some(x) => prefixed(alloc, text, x.get(), out),
    }
}

/// `split ( text , array , separator )`
#[cycle(expression)]
#[tactic(auto, using(crate::proofs::Lists::comma_is))]
fn split(
    alloc: Global,
    x: &Expr,
    name: &Name,
    y: &Option<Boxed<Expr>>,
    out: &mut Vec<Token>,
) -> Result<(), Memory>
    ensures { OnOk result
        (out.new.items ≡ out.old.items
        ++ spec.canon (t.split terminals.nowhere (view x.now) name.now (perhaps_of (option_map view y.now)))) }
{
    push_builtin(alloc, Builtin::Split, out)?;
    push_sign(alloc, "(", out)?;
    suffixed(alloc, x, ",", out)?;
    push_name(alloc, name, out)?;
    behind_one(alloc, ",", y, out)?;
    push_sign(alloc, ")", out)
}

/// `sub ( pattern , with , lvalue )`, or with true `gsub`
#[cycle(expression)]
#[tactic(auto, using(crate::proofs::Lists::comma_is))]
fn substitute(
    alloc: Global,
    is_all: bool,
    x: &Expr,
    y: &Expr,
    z: &Option<Boxed<Expr>>,
    out: &mut Vec<Token>,
) -> Result<(), Memory>
    ensures { OnOk result
        (out.new.items ≡ out.old.items
        ++ spec.canon (t.substitute terminals.nowhere is_all (view x.now) (view y.now)
        (perhaps_of (option_map view z.now)))) }
{
    push_builtin(alloc, substituting(is_all), out)?;
    push_sign(alloc, "(", out)?;
    between(alloc, x, ",", y, out)?;
    behind_one(alloc, ",", z, out)?;
    push_sign(alloc, ")", out)
}

/// `getline lvalue < file`
#[cycle(expression)]
#[tactic(auto, using(crate::proofs::Lists::file_is))]
fn getline(
    alloc: Global,
    x: &Option<Boxed<Expr>>,
    y: &Option<Boxed<Expr>>,
    out: &mut Vec<Token>,
) -> Result<(), Memory>
    ensures { OnOk result
        (out.new.items ≡ out.old.items
        ++ spec.canon (t.getline terminals.nowhere (perhaps_of (option_map view x.now))
        (perhaps_of (option_map view y.now)))) }
{
    push_keyword(alloc, "getline", out)?;
    target(alloc, x, out)?;
    behind_one(alloc, "<", y, out)
}
