// Simple statements, and the parts of statements that are expressions.

ghost use Rattle.std.specs.Prelude.{◌≡◌, false, option_map};
ghost use Rattle.awk_tree.specs.Expressions.{expr, expression};
ghost use Rattle.awk_tree.specs.Input.{Reads, and_then};
ghost use Rattle.awk_tree.specs.Statements as spec;
ghost use Rattle.awk_tree.specs.Tree as tree;
ghost use Rattle.awk_tree.specs.View.{view, view_statement};

use crate::prints::{print, printf};
use awk_expressions::{Level, Tokens, is, name_of, pair, refused};
use awk_tree::{Expr, Goal, ParseError, Statement, Terminal};
use sqlite_items::Boxed;

/// The statement, where it ends here: with `;`, a newline, or before `}`.
#[tactic(auto, unfolding(awk_tree::specs::Statements::ended))]
pub fn ended(tokens: &mut Tokens<'_>, statement: Statement) -> Result<Statement, ParseError>
    ensures { Reads view_statement (spec.ended (view_statement statement) tokens.old) result tokens.new }
{
    let kind = tokens.look();
    ended_by(tokens, statement, kind)
}

fn ended_by(
    tokens: &mut Tokens<'_>,
    statement: Statement,
    kind: Terminal,
) -> Result<Statement, ParseError>
    ensures { Reads view_statement (spec.ended_by (view_statement statement) kind tokens.old) result tokens.new }
{
    match kind {
        Terminal::Semicolon | Terminal::Newline => {
            let (statement, _end) = pair(statement, tokens.any())?;
            Ok(statement)
        }
        Terminal::CloseBrace => Ok(statement),
        _ => refused(statement, tokens.refuse()),
    }
}

/// `[ expr ]`, where the statement ends behind it.
#[tactic(auto, unfolding(awk_tree::specs::Statements::perhaps_here))]
fn perhaps_here(level: &Level, tokens: &mut Tokens<'_>) -> Result<Option<Expr>, ParseError>
    ensures { Reads (option_map view) (spec.perhaps_here level.now.depth (expr level.now.depth) tokens.old) result
        tokens.new }
{
    if is(tokens.ahead(), Terminal::End) {
        return Ok(None);
    }
    Ok(Some(level.expression(tokens, false)?.into_inner()))
}

/// `delete NAME | delete NAME [ list ]`
#[tactic(auto, using(awk_tree::proofs::Views::statement_views), unfolding(awk_tree::specs::Statements::delete))]
fn delete(level: &Level, tokens: &mut Tokens<'_>) -> Result<Statement, ParseError>
    ensures { Reads view_statement (spec.delete level.now.depth (expr level.now.depth) tokens.old) result tokens.new }
{
    tokens.one(Terminal::Delete)?;
    let token = tokens.one(Terminal::Name)?;
    if !is(tokens.ahead(), Terminal::OpenBracket) {
        return Ok(Statement::DeleteAll(name_of(level.alloc, token)?));
    }
    tokens.one(Terminal::OpenBracket)?;
    let keys = level.list(tokens)?;
    tokens.one(Terminal::CloseBracket)?;
    Ok(Statement::Delete(name_of(level.alloc, token)?, keys))
}

/// An expression as a statement.
#[tactic(auto, using(awk_tree::proofs::Views::statement_views))]
fn plain(level: &Level, tokens: &mut Tokens<'_>) -> Result<Statement, ParseError>
    ensures { Reads view_statement
        (and_then (expression level.now.depth (expr level.now.depth) false tokens.old) (λ x ts. Ok (tree.plain x, ts)))
        result tokens.new }
{
    Ok(Statement::Expr(level.expression(tokens, false)?.into_inner()))
}

/// `exit [ expr ]`
#[tactic(auto, using(awk_tree::proofs::Views::statement_views))]
fn exit(level: &Level, tokens: &mut Tokens<'_>) -> Result<Statement, ParseError>
    ensures { Reads view_statement (spec.simple_by level.now.depth (expr level.now.depth) Terminal.Exit tokens.old)
        result tokens.new }
{
    let token = tokens.any()?;
    Ok(Statement::Exit(token.place, perhaps_here(level, tokens)?))
}

/// `return [ expr ]`
#[tactic(auto, using(awk_tree::proofs::Views::statement_views))]
fn give_back(level: &Level, tokens: &mut Tokens<'_>) -> Result<Statement, ParseError>
    ensures { Reads view_statement (spec.simple_by level.now.depth (expr level.now.depth) Terminal.Return tokens.old)
        result tokens.new }
{
    let token = tokens.any()?;
    Ok(Statement::Return(token.place, perhaps_here(level, tokens)?))
}

#[tactic(auto, using(awk_tree::proofs::Views::statement_views))]
fn simple_by(
    level: &Level,
    tokens: &mut Tokens<'_>,
    kind: Terminal,
) -> Result<Statement, ParseError>
    ensures { Reads view_statement (spec.simple_by level.now.depth (expr level.now.depth) kind tokens.old) result
        tokens.new }
{
    match kind {
        Terminal::Print => print(level, tokens),
        Terminal::Printf => printf(level, tokens),
        Terminal::Delete => delete(level, tokens),
        Terminal::Jump(which) => Ok(Statement::Jump(tokens.any()?.place, which)),
        Terminal::Exit => exit(level, tokens),
        Terminal::Return => give_back(level, tokens),
        _ => plain(level, tokens),
    }
}

/// A statement that holds no other, without what ends it.
#[tactic(auto, unfolding(awk_tree::specs::Statements::simple))]
pub fn simple(level: &Level, tokens: &mut Tokens<'_>) -> Result<Statement, ParseError>
    ensures { Reads view_statement (spec.simple level.now.depth (expr level.now.depth) tokens.old) result tokens.new }
{
    let kind = tokens.ahead();
    simple_by(level, tokens, kind)
}

/// `( expr )`
#[tactic(auto, unfolding(awk_tree::specs::Statements::condition))]
pub fn condition(level: &Level, tokens: &mut Tokens<'_>) -> Result<Boxed<Expr>, ParseError>
    ensures { Reads view (spec.condition level.now.depth (expr level.now.depth) tokens.old) result tokens.new }
{
    tokens.one(Terminal::OpenParen)?;
    let test = level.nested(tokens, Goal::Expr(false))?;
    let (test, _close) = pair(test, tokens.one(Terminal::CloseParen))?;
    Ok(test)
}

/// `[ expr ]` and the sign behind it.
#[tactic(auto, unfolding(awk_tree::specs::Statements::perhaps_until))]
pub fn perhaps_until(
    level: &Level,
    tokens: &mut Tokens<'_>,
    end: Terminal,
) -> Result<Option<Expr>, ParseError>
    ensures { Reads (option_map view) (spec.perhaps_until level.now.depth (expr level.now.depth) end tokens.old) result
        tokens.new }
{
    if is(tokens.look(), end) {
        tokens.any()?;
        return Ok(None);
    }
    let found = level.nested(tokens, Goal::Expr(false))?;
    let (found, _end) = pair(found, tokens.exactly(end))?;
    Ok(Some(found.into_inner()))
}
