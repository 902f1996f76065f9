// What is found in statements.

ghost use Rattle.std.specs.Prelude.{◌≡◌, ◌++◌, OnOk, map, option_map};
ghost use Rattle.awk_program.specs.Program.{statements_of};
ghost use Rattle.awk_program.specs.View.{view, view_redirection, view_statement};
ghost use Rattle.box_listing.specs.Sites as spec;
ghost use Rattle.box_listing.specs.Walks.{Finds};

use crate::expressions::{LEVELS, constant, site, value, values};
use crate::site::Found;
use awk_program::{Expr, Redirect, Redirection, Statement};
use awk_text::Memory;
use box_policy::policy::Kind;
use std::alloc::{AllocError, Global};

fn kind_of(how: Redirect) -> Kind
    ensures { result ≡ spec.kind_of how }
{
    match how {
        Redirect::Write => Kind::Write,
        Redirect::Append => Kind::Append,
        Redirect::Command => Kind::Run,
    }
}

fn redirection(alloc: Global, r: &Redirection<Expr>, out: &mut Vec<Found>) -> Result<(), Memory>
    ensures { Finds result out.old.items out.new.items (λ t. spec.redirected (view_redirection t r.now)) }
{
    site(alloc, r.place, kind_of(r.how), constant(&r.target), out)?;
    value(alloc, &r.target, out)
}

fn target(alloc: Global, r: &Option<Redirection<Expr>>, out: &mut Vec<Found>) -> Result<(), Memory>
    ensures { Finds result out.old.items out.new.items (λ t. spec.redirection (option_map (view_redirection t) r.now)) }
{
    match r {
        None => Ok(()),
        Some(r) => redirection(alloc, r, out),
    }
}

fn print(
    alloc: Global,
    xs: &[Expr],
    r: &Option<Redirection<Expr>>,
    out: &mut Vec<Found>,
) -> Result<(), Memory>
    ensures { Finds result out.old.items out.new.items
        (λ t. spec.all (map (view t) xs.now) ++ spec.redirection (option_map (view_redirection t) r.now)) }
{
    values(alloc, xs, out)?;
    target(alloc, r, out)
}

fn printf(
    alloc: Global,
    x: &Expr,
    xs: &[Expr],
    r: &Option<Redirection<Expr>>,
    out: &mut Vec<Found>,
) -> Result<(), Memory>
    ensures { Finds result out.old.items out.new.items
        (λ t. spec.value (view t x.now)
        ++ (spec.all (map (view t) xs.now) ++ spec.redirection (option_map (view_redirection t) r.now))) }
{
    value(alloc, x, out)?;
    print(alloc, xs, r, out)
}

fn optional(alloc: Global, x: &Option<Expr>, out: &mut Vec<Found>) -> Result<(), Memory>
    ensures { Finds result out.old.items out.new.items (λ t. spec.optional (option_map (view t) x.now)) }
{
    match x {
        None => Ok(()),
        Some(x) => value(alloc, x, out),
    }
}

/// What is found in the three parts of a `for`.
fn header(
    alloc: Global,
    first: &Option<Expr>,
    test: &Option<Expr>,
    step: &Option<Expr>,
    out: &mut Vec<Found>,
) -> Result<(), Memory>
    ensures { Finds result out.old.items out.new.items
        (λ t. spec.optional (option_map (view t) first.now)
        ++ (spec.optional (option_map (view t) test.now) ++ spec.optional (option_map (view t) step.now))) }
{
    optional(alloc, first, out)?;
    optional(alloc, test, out)?;
    optional(alloc, step, out)
}

/// Notes all that is found in statements.
pub fn actions(alloc: Global, xs: &[Statement], out: &mut Vec<Found>) -> Result<(), Memory>
    ensures { Finds result out.old.items out.new.items (λ t. spec.all_done (map (view_statement t) xs.now)) }
{
    statements(alloc, xs, LEVELS, out)
}

#[cycle(statement)]
fn statement(alloc: Global, s: &Statement, level: u64, out: &mut Vec<Found>) -> Result<(), Memory>
    ensures { Finds result out.old.items out.new.items (λ t. spec.done (view_statement t s.now)) }
{
    if level == 0 {
        return Err(AllocError);
    }
    let below = level - 1;
    match s {
        Statement::Expr(x) => value(alloc, x, out),
        Statement::Print(_place, xs, r) => print(alloc, xs.as_slice(), r, out),
        Statement::Printf(_place, x, xs, r) => printf(alloc, x, xs.as_slice(), r, out),
        Statement::Delete(_place, _array, xs) => values(alloc, xs.as_slice(), out),
        Statement::DeleteAll(_array) => Ok(()),
        Statement::Jump(_which) => Ok(()),
        Statement::Exit(_place, x) => optional(alloc, x, out),
        Statement::Return(x) => optional(alloc, x, out),
        Statement::Block(xs) => statements(alloc, xs.as_slice(), below, out),
        Statement::If(x, y) => {
            value(alloc, x, out)?;
            statement(alloc, y.get(), below, out)
        }
        Statement::IfElse(x, y, z) => {
            value(alloc, x, out)?;
            two(alloc, y.get(), z.get(), below, out)
        }
        Statement::While(x, y) => {
            value(alloc, x, out)?;
            statement(alloc, y.get(), below, out)
        }
        Statement::Do(y, x) => {
            statement(alloc, y.get(), below, out)?;
            value(alloc, x, out)
        }
        Statement::For(x, y, z, u) => {
            header(alloc, x, y, z, out)?;
            statement(alloc, u.get(), below, out)
        }
        Statement::ForIn(_place, _key, _array, y) => statement(alloc, y.get(), below, out),
    }
}

#[cycle(statement)]
fn two(
    alloc: Global,
    x: &Statement,
    y: &Statement,
    level: u64,
    out: &mut Vec<Found>,
) -> Result<(), Memory>
    ensures { Finds result out.old.items out.new.items
        (λ t. spec.done (view_statement t x.now) ++ spec.done (view_statement t y.now)) }
{
    statement(alloc, x, level, out)?;
    statement(alloc, y, level, out)
}

#[cycle(statement)]
fn statements(
    alloc: Global,
    xs: &[Statement],
    level: u64,
    out: &mut Vec<Found>,
) -> Result<(), Memory>
    ensures { Finds result out.old.items out.new.items
        (λ t. spec.each_done (statements_of (map (view_statement t) xs.now))) }
{
    for x in xs {
        statement(alloc, x, level, out)?;
    }
    Ok(())
}
