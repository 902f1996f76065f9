// Items, up to a whole script.

ghost use Rattle.std.specs.Prelude.{◌≡◌, [], map, IfOk};
ghost use Rattle.awk_tree.specs.Input.{Reads};
ghost use Rattle.awk_tree.specs.Statements as spec;
ghost use Rattle.awk_tree.specs.View.{view, view_item, view_pattern, view_statement};

use crate::bodies::Bodies;
use crate::statement::statement;
use crate::statement_signs::{ends_item, is_done};
use awk_expressions::{Level, Tokens, is, joined, name_of, pair, refused};
use awk_tokens::Token;
use awk_tree::{Expr, Function, Item, Name, ParseError, Pattern, Statement, Terminal};
use sqlite_items::{Boxed, Items};
use std::alloc::Global;

/// How deep parts may nest.
const LEVELS: usize = 200;

/// `{ statement }`
#[tactic(auto, unfolding(awk_tree::specs::Statements::action))]
fn action(alloc: Global, tokens: &mut Tokens<'_>) -> Result<Items<Statement>, ParseError>
    ensures { Reads (map view_statement) (spec.action tokens.old) result tokens.new }
{
    tokens.one(Terminal::OpenBrace)?;
    let level = Level {
        alloc,
        depth: LEVELS,
    };
    Bodies {
        level,
        body: statement,
    }
    .braces(tokens)
}

#[tactic(auto, unfolding(awk_tree::specs::Statements::whole_expr))]
fn whole_expr(alloc: Global, tokens: &mut Tokens<'_>) -> Result<Boxed<Expr>, ParseError>
    ensures { Reads view (spec.whole_expr tokens.old) result tokens.new }
{
    let level = Level {
        alloc,
        depth: LEVELS,
    };
    level.expression(tokens, false)
}

/// `expr | expr , expr`
#[tactic(auto, unfolding(awk_tree::specs::Statements::pattern))]
fn pattern(alloc: Global, tokens: &mut Tokens<'_>) -> Result<Pattern, ParseError>
    ensures { Reads view_pattern (spec.pattern tokens.old) result tokens.new }
{
    let first = whole_expr(alloc, tokens)?;
    if !is(tokens.ahead(), Terminal::Comma) {
        return Ok(Pattern::Expr(first.into_inner()));
    }
    let (first, _comma) = pair(first, tokens.one(Terminal::Comma))?;
    tokens.skip();
    let (first, last) = pair(first, whole_expr(alloc, tokens))?;
    Ok(Pattern::Range(first.into_inner(), last.into_inner()))
}

/// A pattern by itself, where an item may end.
#[tactic(auto, unfolding(awk_tree::specs::Statements::shown))]
fn shown(tokens: &mut Tokens<'_>, when: Pattern) -> Result<Item, ParseError>
    ensures { Reads view_item (spec.shown (view_pattern when) tokens.old) result tokens.new }
{
    if ends_item(tokens.rest()) {
        Ok(Item::Shown(when))
    } else {
        refused(when, tokens.refuse())
    }
}

/// `pattern | pattern action`
#[tactic(auto, unfolding(awk_tree::specs::Statements::rule_of))]
fn rule_of(alloc: Global, tokens: &mut Tokens<'_>) -> Result<Item, ParseError>
    ensures { Reads view_item (spec.rule_of tokens.old) result tokens.new }
{
    let when = pattern(alloc, tokens)?;
    if is(tokens.ahead(), Terminal::OpenBrace) {
        let (when, body) = pair(when, action(alloc, tokens))?;
        Ok(Item::Rule(when, body))
    } else {
        shown(tokens, when)
    }
}

/// `, NAME`
#[tactic(auto, unfolding(awk_tree::specs::Statements::next_param))]
fn next_param(alloc: Global, tokens: &mut Tokens<'_>) -> Result<Name, ParseError>
    ensures { Reads (λ n. n) (spec.next_param tokens.old) result tokens.new }
{
    tokens.one(Terminal::Comma)?;
    tokens.skip();
    let token = tokens.one(Terminal::Name)?;
    Ok(name_of(alloc, token)?)
}

#[tactic(auto, unfolding(awk_tree::specs::Statements::more_params))]
fn more_params(alloc: Global, tokens: &mut Tokens<'_>) -> Result<Items<Name>, ParseError>
    ensures { Reads (λ ns. ns) (spec.more_params tokens.old) result tokens.new }
{
    let mut found = Items::new(alloc);
    for _turn in 0..tokens.left() {
        if !is(Terminal::Comma, tokens.ahead()) {
            return Ok(found);
        }
        found.push(next_param(alloc, tokens)?)?;
    }
    if is(Terminal::Comma, tokens.ahead()) {
        Err(tokens.refuse())
    } else {
        Ok(found)
    }
}

/// `[ NAME { , NAME } ]`
#[tactic(auto, unfolding(awk_tree::specs::Statements::params))]
fn params(alloc: Global, tokens: &mut Tokens<'_>) -> Result<Items<Name>, ParseError>
    ensures { Reads (λ ns. ns) (spec.params tokens.old) result tokens.new }
{
    if is(tokens.ahead(), Terminal::CloseParen) {
        return Ok(Items::new(alloc));
    }
    let token = tokens.one(Terminal::Name)?;
    let first = name_of(alloc, token)?;
    let more = more_params(alloc, tokens)?;
    Ok(joined(alloc, first, more)?)
}

/// A CALLNAME counts as the name.
#[tactic(auto, unfolding(awk_tree::specs::Statements::function_name))]
fn function_name(alloc: Global, tokens: &mut Tokens<'_>) -> Result<Name, ParseError>
    ensures { Reads (λ n. n) (spec.function_name tokens.old) result tokens.new }
{
    let token = if is(tokens.ahead(), Terminal::CallName) {
        tokens.any()?
    } else {
        tokens.one(Terminal::Name)?
    };
    Ok(name_of(alloc, token)?)
}

/// `function NAME ( params ) action`
#[tactic(auto, unfolding(awk_tree::specs::Statements::function_of))]
fn function_of(alloc: Global, tokens: &mut Tokens<'_>) -> Result<Item, ParseError>
    ensures { Reads view_item (spec.function_of tokens.old) result tokens.new }
{
    tokens.one(Terminal::Function)?;
    let name = function_name(alloc, tokens)?;
    tokens.one(Terminal::OpenParen)?;
    let params = params(alloc, tokens)?;
    tokens.one(Terminal::CloseParen)?;
    tokens.skip();
    let body = action(alloc, tokens)?;
    Ok(Item::Function(Function { name, params, body }))
}

fn item_by(alloc: Global, tokens: &mut Tokens<'_>, kind: Terminal) -> Result<Item, ParseError>
    ensures { Reads view_item (spec.item_by kind tokens.old) result tokens.new }
{
    match kind {
        Terminal::BeginWord => {
            tokens.any()?;
            Ok(Item::Begin(action(alloc, tokens)?))
        }
        Terminal::EndWord => {
            tokens.any()?;
            Ok(Item::End(action(alloc, tokens)?))
        }
        Terminal::Function => function_of(alloc, tokens),
        Terminal::OpenBrace => Ok(Item::Always(action(alloc, tokens)?)),
        _ => rule_of(alloc, tokens),
    }
}

#[tactic(auto, unfolding(awk_tree::specs::Statements::item))]
fn item(alloc: Global, tokens: &mut Tokens<'_>) -> Result<Item, ParseError>
    ensures { Reads view_item (spec.item tokens.old) result tokens.new }
{
    let kind = tokens.ahead();
    item_by(alloc, tokens, kind)
}

/// As many as there are, with newlines and `;` before each, up to the end.
#[tactic(auto, unfolding(awk_tree::specs::Statements::script))]
fn items(alloc: Global, tokens: &mut Tokens<'_>) -> Result<Items<Item>, ParseError>
    ensures reads { Reads (map view_item) (spec.script tokens.old) result tokens.new }
    ensures done { IfOk result (λ _. tokens.new ≡ []) }
{
    let mut found = Items::new(alloc);
    for _turn in 0..tokens.left() {
        tokens.past();
        if is_done(tokens.rest()) {
            return Ok(found);
        }
        found.push(item(alloc, tokens)?)?;
    }
    tokens.past();
    if !is_done(tokens.rest()) {
        return Err(tokens.refuse());
    }
    Ok(found)
}

/// The items of a script, or why it is refused: all of its tokens are read, as the grammar reads
/// them.
pub fn script(alloc: Global, tokens: &[Token]) -> Result<Items<Item>, ParseError>
    ensures { Reads (map view_item) (spec.script tokens.now) result [] }
{
    items(alloc, &mut Tokens::new(tokens))
}
