// Statements.

ghost use Rattle.std.specs.Prelude.{◌≡◌, ◌++◌, OnOk, map, option_map};
ghost use Rattle.awk_lowering.specs.LoweredStatements as low;
ghost use Rattle.awk_lowering.specs.Made.{IsStatement, AreStatements, AreRedirected, names_in, scope_in};
ghost use Rattle.awk_lowering.specs.Scopes as scopes;
ghost use Rattle.awk_program.specs.Program as p;
ghost use Rattle.awk_program.specs.View as code;
ghost use Rattle.awk_tree.specs.View.{view, view_redirection, view_statement};

use crate::blocks::{
    block_of, delete_all_of, delete_of, do_of, exit_of, for_in_of, for_of, if_else_of, if_of,
    nothing, plain_of, print_of, printf_of, redirection_of, return_of, while_of,
};
use crate::expressions::{list, optional, part, text, texts};
use crate::kept::{boxed, kept, push, room};
use crate::names::{Lowering, variable};
use crate::operators::jump;
use crate::targets::zero;
use awk_program::{Expr, Redirection, Statement};
use awk_text::Memory;
use awk_text::place::Place;
use awk_tree::Name;
use sqlite_items::{Boxed, Items};
use std::alloc::AllocError;

fn redirected(
    context: &Lowering<'_>,
    to: &Option<awk_tree::Redirection<awk_tree::Expr>>,
    level: u32,
) -> Result<Option<Redirection<Expr>>, Memory>
    ensures { AreRedirected (names_in context.now) result
        (option_map (low.redirected (scope_in context.now)) (option_map view_redirection to.now)) }
{
    match to {
        None => Ok(None),
        Some(to) => {
            let target = text(context, to.place, &to.target, level);
            redirection_of(to.how, to.place, target)
        }
    }
}

fn printf(
    context: &Lowering<'_>,
    place: Place,
    xs: &[awk_tree::Expr],
    to: &Option<awk_tree::Redirection<awk_tree::Expr>>,
    level: u32,
) -> Result<Statement, Memory>
    ensures { IsStatement (names_in context.now) result
        (low.printed (scope_in context.now) place (map view xs.now)
        (option_map (low.redirected (scope_in context.now)) (option_map view_redirection to.now))) }
{
    let to = redirected(context, to, level);
    match xs {
        [] => printf_of(
            place,
            boxed(context.alloc, zero()),
            Ok(Items::new(context.alloc)),
            to,
        ),
        [x, rest @ ..] => {
            let x = text(context, place, x, level);
            printf_of(place, x, list(context, rest, level), to)
        }
    }
}

fn for_in(
    context: &Lowering<'_>,
    place: Place,
    key: &Name,
    array: &Name,
    body: Result<Boxed<Statement>, Memory>,
) -> Result<Statement, Memory>
    ensures { (a : p.Statement) → IsStatement (names_in context.now) body a →
        IsStatement (names_in context.now) result
        (p.for_each place (scopes.variable (scope_in context.now) key.now.text)
        (scopes.variable (scope_in context.now) array.now.text) a) }
{
    let key = variable(context, key.text.bytes());
    for_in_of(place, key, variable(context, array.text.bytes()), body)
}

/// The program of a statement of at most this depth.
#[cycle(statement)]
fn statement(
    context: &Lowering<'_>,
    s: &awk_tree::Statement,
    level: u32,
) -> Result<Statement, Memory>
    ensures { IsStatement (names_in context.now) result (low.statement (scope_in context.now) (view_statement s.now)) }
{
    if level == 0 {
        return Err(AllocError);
    }
    let below = level - 1;
    match s {
        awk_tree::Statement::Empty => nothing(context.alloc),
        awk_tree::Statement::Expr(x) => plain_of(part(context, x, below)),
        awk_tree::Statement::Print(place, xs, to) => {
            let xs = list(context, xs.items.as_slice(), below);
            print_of(*place, xs, redirected(context, to, below))
        }
        awk_tree::Statement::Printf(place, xs, to) => {
            printf(context, *place, xs.items.as_slice(), to, below)
        }
        awk_tree::Statement::Delete(n, keys) => {
            let v = variable(context, n.text.bytes());
            delete_of(n.place, v, texts(context, n.place, keys.as_slice(), below))
        }
        awk_tree::Statement::DeleteAll(n) => delete_all_of(variable(context, n.text.bytes())),
        awk_tree::Statement::Jump(place, which) => { Ok(Statement::Jump(jump(*place, *which))) }
        awk_tree::Statement::Exit(place, x) => exit_of(*place, optional(context, x, below)),
        awk_tree::Statement::Return(_, x) => return_of(optional(context, x, below)),
        awk_tree::Statement::Block(body) => block_of(statements(context, body.as_slice(), below)),
        awk_tree::Statement::If(x, body) => {
            let x = part(context, x, below);
            if_of(x, branch(context, body.get(), below))
        }
        awk_tree::Statement::IfElse(x, body, other) => {
            let x = part(context, x, below);
            let body = branch(context, body.get(), below);
            if_else_of(x, body, branch(context, other.get(), below))
        }
        awk_tree::Statement::While(x, body) => {
            let x = part(context, x, below);
            while_of(x, branch(context, body.get(), below))
        }
        awk_tree::Statement::Do(body, x) => {
            let body = branch(context, body.get(), below);
            do_of(body, part(context, x, below))
        }
        awk_tree::Statement::For(x, y, z, body) => {
            let body = branch(context, body.get(), below);
            let x = optional(context, x, below);
            let y = optional(context, y, below);
            for_of(x, y, optional(context, z, below), body)
        }
        awk_tree::Statement::ForIn(place, key, array, body) => {
            let body = branch(context, body.get(), below);
            for_in(context, *place, key, array, body)
        }
    }
}

#[cycle(statement)]
fn branch(
    context: &Lowering<'_>,
    s: &awk_tree::Statement,
    level: u32,
) -> Result<Boxed<Statement>, Memory>
    ensures { IsStatement (names_in context.now) result (low.statement (scope_in context.now) (view_statement s.now)) }
{
    boxed(context.alloc, statement(context, s, level))
}

#[cycle(statement)]
fn fill(
    context: &Lowering<'_>,
    xs: &[awk_tree::Statement],
    out: &mut Items<Statement>,
    level: u32,
) -> Result<(), Memory>
    ensures { OnOk result
        (map (code.view_statement (names_in context.now)) out.new
        ≡ map (code.view_statement (names_in context.now)) out.old
        ++ map (low.statement (scope_in context.now)) (map view_statement xs.now)) }
{
    for x in xs {
        push(out, statement(context, x, level))?;
    }
    Ok(())
}

/// The program of statements.
#[cycle(statement)]
pub fn statements(
    context: &Lowering<'_>,
    xs: &[awk_tree::Statement],
    level: u32,
) -> Result<Items<Statement>, Memory>
    ensures { AreStatements (names_in context.now) result
        (map (low.statement (scope_in context.now)) (map view_statement xs.now)) }
{
    let mut out = room(context.alloc, xs.len());
    let filled = fill(context, xs, &mut out, level);
    kept(out, filled)
}
