// Statements. Each counts down a level of the context that its parts are printed in.

use crate::context::Printing;
use crate::expressions::{at_one, element, expression, list, of_variable, perhaps};
use crate::page::{Page, cut};
use crate::pieces::{close, open, open_at, text, variable};
use crate::words::redirect_text;
use awk_program::{Expr, Jump, Redirection, Statement, Variable};
use awk_text::place::Place;

fn redirection(context: Printing<'_>, x: &Option<Redirection<Expr>>, out: &mut Page) {
    match x {
        None => (),
        Some(x) => at_one(context, redirect_text(x.how), x.place, &x.target, out),
    }
}

fn print(
    context: Printing<'_>,
    q: Place,
    xs: &[Expr],
    target: &Option<Redirection<Expr>>,
    out: &mut Page,
) {
    open_at("print", q, out);
    list(context, xs, out);
    redirection(context, target, out);
    close(out)
}

fn printf(
    context: Printing<'_>,
    q: Place,
    x: &Expr,
    xs: &[Expr],
    target: &Option<Redirection<Expr>>,
    out: &mut Page,
) {
    open_at("printf", q, out);
    expression(context, x, out);
    list(context, xs, out);
    redirection(context, target, out);
    close(out)
}

/// A word alone.
fn bare(head: &str, out: &mut Page) {
    open(head, out);
    close(out)
}

/// A word alone, with its place.
fn bare_at(head: &str, q: Place, out: &mut Page) {
    open_at(head, q, out);
    close(out)
}

fn jump(which: Jump, out: &mut Page) {
    match which.place() {
        None => bare(which.word(), out),
        Some(q) => bare_at(which.word(), q, out),
    }
}

fn exit(context: Printing<'_>, q: Place, x: &Option<Expr>, out: &mut Page) {
    open_at("exit", q, out);
    perhaps(context, x, out);
    close(out)
}

fn give(context: Printing<'_>, x: &Option<Expr>, out: &mut Page) {
    open("return", out);
    perhaps(context, x, out);
    close(out)
}

/// `first ; test ; step`
fn header(
    context: Printing<'_>,
    x: &Option<Expr>,
    y: &Option<Expr>,
    z: &Option<Expr>,
    out: &mut Page,
) {
    open("for", out);
    perhaps(context, x, out);
    perhaps(context, y, out);
    perhaps(context, z, out)
}

/// `key in array`
fn each_header(context: Printing<'_>, q: Place, key: Variable, array: Variable, out: &mut Page) {
    open_at("for-in", q, out);
    variable(context, key, out);
    variable(context, array, out)
}

/// Prints a statement, or gives up where no level is left.
#[cycle(statement)]
fn statement(context: Printing<'_>, s: &Statement, out: &mut Page) {
    match context.below() {
        Some(below) => statement_of_parts(below, s, out),
        None => cut(out),
    }
}

/// A statement, whose parts are printed in this context.
#[cycle(statement)]
fn statement_of_parts(context: Printing<'_>, s: &Statement, out: &mut Page) {
    match s {
        Statement::Expr(x) => expression(context, x, out),
        Statement::Print(q, xs, target) => print(context, *q, xs.as_slice(), target, out),
        Statement::Printf(q, x, xs, target) => {
            printf(context, *q, x, xs.as_slice(), target, out)
        }
        Statement::Delete(q, v, xs) => { element(context, "delete", *q, *v, xs.as_slice(), out) }
        Statement::DeleteAll(v) => of_variable(context, "delete-all", *v, out),
        Statement::Jump(which) => jump(*which, out),
        Statement::Exit(q, x) => exit(context, *q, x, out),
        Statement::Return(x) => give(context, x, out),
        Statement::Block(xs) => block(context, xs.as_slice(), out),
        Statement::If(x, body) => test(context, "if", x, body.get(), out),
        Statement::IfElse(x, body, other) => { if_else(context, x, body.get(), other.get(), out) }
        Statement::While(x, body) => test(context, "while", x, body.get(), out),
        Statement::Do(body, x) => do_while(context, body.get(), x, out),
        Statement::For(x, y, z, body) => for_loop(context, x, y, z, body.get(), out),
        Statement::ForIn(q, key, array, body) => {
            for_each(context, *q, *key, *array, body.get(), out)
        }
    }
}

#[cycle(statement)]
fn block(context: Printing<'_>, xs: &[Statement], out: &mut Page) {
    open("block", out);
    statements(context, xs, out);
    close(out)
}

/// A test and a statement.
#[cycle(statement)]
fn test(context: Printing<'_>, head: &str, x: &Expr, body: &Statement, out: &mut Page) {
    open(head, out);
    expression(context, x, out);
    statement(context, body, out);
    close(out)
}

#[cycle(statement)]
fn if_else(context: Printing<'_>, x: &Expr, body: &Statement, other: &Statement, out: &mut Page) {
    open("if", out);
    expression(context, x, out);
    statement(context, body, out);
    statement(context, other, out);
    close(out)
}

#[cycle(statement)]
fn do_while(context: Printing<'_>, body: &Statement, x: &Expr, out: &mut Page) {
    open("do", out);
    statement(context, body, out);
    expression(context, x, out);
    close(out)
}

#[cycle(statement)]
fn for_loop(
    context: Printing<'_>,
    x: &Option<Expr>,
    y: &Option<Expr>,
    z: &Option<Expr>,
    body: &Statement,
    out: &mut Page,
) {
    header(context, x, y, z, out);
    statement(context, body, out);
    close(out)
}

#[cycle(statement)]
fn for_each(
    context: Printing<'_>,
    q: Place,
    key: Variable,
    array: Variable,
    body: &Statement,
    out: &mut Page,
) {
    each_header(context, q, key, array, out);
    statement(context, body, out);
    close(out)
}

#[cycle(statement)]
fn statements(context: Printing<'_>, xs: &[Statement], out: &mut Page) {
    for s in xs {
        statement(context, s, out);
    }
}

/// Statements, to the end of their line.
pub fn action(context: Printing<'_>, xs: &[Statement], out: &mut Page) {
    statements(context, xs, out);
    text("\n", out)
}
