// print and printf.

ghost use Rattle.std.specs.Prelude.{◌≡◌, map, option_map};
ghost use Rattle.awk_tree.specs.Expressions.{expr};
ghost use Rattle.awk_tree.specs.Input.{Reads};
ghost use Rattle.awk_tree.specs.Statements as spec;
ghost use Rattle.awk_tree.specs.View.{view, view_printed, view_redirection, view_statement};

use crate::statement_signs::{ends_print, redirect};
use awk_expressions::{Level, Tokens, is, joined, pair};
use awk_text::place::Place;
use awk_tree::{Expr, Goal, ParseError, Printed, Redirection, Statement, Terminal};
use sqlite_items::{Boxed, Items};

fn is_several(items: &Items<Expr>) -> bool
    ensures { result ≡ spec.is_several (map view items.now) }
{
    match items.as_slice() {
        [] => false,
        [_, ..] => true,
    }
}

/// `, expr`
#[tactic(auto, unfolding(awk_tree::specs::Statements::next_printed))]
fn next_printed(level: &Level, tokens: &mut Tokens<'_>) -> Result<Boxed<Expr>, ParseError>
    ensures { Reads view (spec.next_printed level.now.depth (expr level.now.depth) tokens.old) result tokens.new }
{
    tokens.one(Terminal::Comma)?;
    tokens.skip();
    level.expression(tokens, true)
}

#[tactic(auto, unfolding(awk_tree::specs::Statements::more_printed))]
fn more_printed(level: &Level, tokens: &mut Tokens<'_>) -> Result<Items<Expr>, ParseError>
    ensures { Reads (map view) (spec.more_printed level.now.depth (expr level.now.depth) tokens.old) result tokens.new }
{
    let mut found = Items::new(level.alloc);
    for _turn in 0..tokens.left() {
        if !is(Terminal::Comma, tokens.ahead()) {
            return Ok(found);
        }
        found.push(next_printed(level, tokens)?.into_inner())?;
    }
    if is(Terminal::Comma, tokens.ahead()) {
        Err(tokens.refuse())
    } else {
        Ok(found)
    }
}

/// The list, from its first item on.
#[tactic(auto, unfolding(awk_tree::specs::Statements::printed_rest))]
fn printed_rest(
    level: &Level,
    tokens: &mut Tokens<'_>,
    first: Boxed<Expr>,
) -> Result<Printed<Expr>, ParseError>
    ensures { Reads view_printed (spec.printed_rest level.now.depth (expr level.now.depth) (view first) tokens.old)
        result tokens.new }
{
    let (first, more) = pair(first, more_printed(level, tokens))?;
    Ok(Printed {
        is_grouped: false,
        items: joined(level.alloc, first.into_inner(), more)?,
    })
}

/// The list, from behind the parentheses that it begins with. A list of two or more in them is
/// the whole list where it ends the list.
#[tactic(auto, unfolding(awk_tree::specs::Statements::printed_from))]
fn printed_from(
    level: &Level,
    tokens: &mut Tokens<'_>,
    place: Place,
    first: Boxed<Expr>,
    more: Items<Expr>,
) -> Result<Printed<Expr>, ParseError>
    ensures { Reads view_printed
        (spec.printed_from level.now.depth (expr level.now.depth) place (view first) (map view more) tokens.old) result
        tokens.new }
{
    if is_several(&more) && ends_print(tokens.ahead()) {
        return Ok(Printed {
            is_grouped: true,
            items: joined(level.alloc, first.into_inner(), more)?,
        });
    }
    let left = level.grouped(tokens, true, place, first, more)?;
    let left = level.expr_rest(tokens, true, left)?;
    printed_rest(level, tokens, left)
}

/// A list that begins with `(`.
#[tactic(auto, unfolding(awk_tree::specs::Statements::printed_paren))]
fn printed_paren(level: &Level, tokens: &mut Tokens<'_>) -> Result<Printed<Expr>, ParseError>
    ensures { Reads view_printed (spec.printed_paren level.now.depth (expr level.now.depth) tokens.old) result
        tokens.new }
{
    let token = tokens.one(Terminal::OpenParen)?;
    let first = level.nested(tokens, Goal::Expr(false))?;
    let (first, more) = pair(first, level.commas(tokens))?;
    let (first, _close) = pair(first, tokens.one(Terminal::CloseParen))?;
    printed_from(level, tokens, token.place, first, more)
}

/// `expr { , expr }`
#[tactic(auto, unfolding(awk_tree::specs::Statements::printed))]
fn printed(level: &Level, tokens: &mut Tokens<'_>) -> Result<Printed<Expr>, ParseError>
    ensures { Reads view_printed (spec.printed level.now.depth (expr level.now.depth) tokens.old) result tokens.new }
{
    if is(tokens.ahead(), Terminal::OpenParen) {
        return printed_paren(level, tokens);
    }
    let first = level.expression(tokens, true)?;
    printed_rest(level, tokens, first)
}

#[tactic(auto, unfolding(awk_tree::specs::Statements::printed_or_none))]
fn printed_or_none(level: &Level, tokens: &mut Tokens<'_>) -> Result<Printed<Expr>, ParseError>
    ensures { Reads view_printed (spec.printed_or_none level.now.depth (expr level.now.depth) tokens.old) result
        tokens.new }
{
    if ends_print(tokens.ahead()) {
        return Ok(Printed {
            is_grouped: false,
            items: Items::new(level.alloc),
        });
    }
    printed(level, tokens)
}

/// `[ (> | >> | |) cat ]`
#[tactic(auto, unfolding(awk_tree::specs::Statements::redirection))]
fn redirection(
    level: &Level,
    tokens: &mut Tokens<'_>,
) -> Result<Option<Redirection<Expr>>, ParseError>
    ensures { Reads (option_map view_redirection) (spec.redirection level.now.depth (expr level.now.depth) tokens.old)
        result tokens.new }
{
    let Some(how) = redirect(tokens.ahead()) else {
        return Ok(None);
    };
    let token = tokens.any()?;
    Ok(Some(Redirection {
        how,
        place: token.place,
        target: level.cat(tokens)?.into_inner(),
    }))
}

#[tactic(auto, using(awk_tree::proofs::Views::statement_views), unfolding(awk_tree::specs::Statements::print))]
pub fn print(level: &Level, tokens: &mut Tokens<'_>) -> Result<Statement, ParseError>
    ensures { Reads view_statement (spec.print level.now.depth (expr level.now.depth) tokens.old) result tokens.new }
{
    let token = tokens.one(Terminal::Print)?;
    let list = printed_or_none(level, tokens)?;
    let (list, target) = pair(list, redirection(level, tokens))?;
    Ok(Statement::Print(token.place, list, target))
}

#[tactic(auto, using(awk_tree::proofs::Views::statement_views), unfolding(awk_tree::specs::Statements::printf))]
pub fn printf(level: &Level, tokens: &mut Tokens<'_>) -> Result<Statement, ParseError>
    ensures { Reads view_statement (spec.printf level.now.depth (expr level.now.depth) tokens.old) result tokens.new }
{
    let token = tokens.one(Terminal::Printf)?;
    let list = printed(level, tokens)?;
    let (list, target) = pair(list, redirection(level, tokens))?;
    Ok(Statement::Printf(token.place, list, target))
}
