// Expressions. Each counts down a level of the context that its parts are printed in.

use crate::context::Printing;
use crate::page::{Page, cut};
use crate::pieces::{
    close, number, open, open_at, ordinal, place, quoted, text, variable, variables, word,
};
use crate::words::{
    change_text, comparison_text, extent_text, operator_text, sign_text, step_text,
};
use awk_program::{Argument, Expr, Joined, Pattern, Piped, Target, Term, Variable};
use awk_text::place::Place;

/// Prints an expression, or gives up where no level is left.
#[cycle(expression)]
pub fn expression(context: Printing<'_>, e: &Expr, out: &mut Page) {
    match context.below() {
        Some(below) => expression_of_parts(below, e, out),
        None => cut(out),
    }
}

/// An expression, whose parts are printed in this context.
#[cycle(expression)]
fn expression_of_parts(context: Printing<'_>, e: &Expr, out: &mut Page) {
    match e {
        Expr::Number(n) => number(*n, out),
        Expr::Text(x) => quoted(b'"', x.bytes(), out),
        Expr::Pattern(q, x) => record_pattern(*q, x.bytes(), out),
        Expr::Read(r) => target(context, r, out),
        Expr::Assign(q, r, x) => setting(context, "=", *q, r, x.get(), out),
        Expr::Change(q, how, r, x) => { setting(context, change_text(*how), *q, r, x.get(), out) }
        Expr::Step(q, how, taken, r) => at_target(context, step_text(*how, *taken), *q, r, out),
        Expr::Not(x) => one(context, "!", x.get(), out),
        Expr::Signed(q, how, x) => at_one(context, sign_text(*how), *q, x.get(), out),
        Expr::AsText(q, x) => at_one(context, "text", *q, x.get(), out),
        Expr::Chain(x, xs) => chain(context, x.get(), xs.as_slice(), out),
        Expr::Concat(x, xs) => concat(context, x.get(), xs.as_slice(), out),
        Expr::Compare(q, how, x, y) => {
            at_two(context, comparison_text(*how), *q, x.get(), y.get(), out)
        }
        Expr::Match(q, x, y) => at_match(context, "~", *q, x.get(), y, out),
        Expr::In(x, vs) => member(context, x.get(), vs.as_slice(), out),
        Expr::Group(q, xs, vs) => group(context, *q, xs.as_slice(), vs.as_slice(), out),
        Expr::And(x, xs) => many(context, "&&", x.get(), xs.as_slice(), out),
        Expr::Or(x, xs) => many(context, "||", x.get(), xs.as_slice(), out),
        Expr::Choice(x, y, z) => choice(context, x.get(), y.get(), z.get(), out),
        Expr::Call(q, f, xs) => call(context, *q, *f, xs.as_slice(), out),
        Expr::Getline(q, r) => at_target(context, "getline", *q, r, out),
        Expr::GetlineFile(q, r, x) => setting(context, "getline<", *q, r, x.get(), out),
        Expr::Pipe(x, xs) => pipe(context, x.get(), xs.as_slice(), out),
        Expr::Builtin(q, which, xs) => { at_list(context, which.word(), *q, xs.as_slice(), out) }
        Expr::Count(v) => of_variable(context, "count", *v, out),
        Expr::Locate(q, x, y) => at_match(context, "match", *q, x.get(), y, out),
        Expr::Split(q, x, at, v, y) => {
            open_at("split", *q, out);
            split(context, x.get(), *at, *v, y, out)
        }
        Expr::Substitute(q, all, x, y, r) => {
            open_at(extent_text(*all), *q, out);
            substitute(context, x, y.get(), r, out)
        }
    }
}

/// `$0 ~` an ERE
fn record_pattern(q: Place, x: &[u8], out: &mut Page) {
    open_at("record~", q, out);
    quoted(b'/', x, out);
    close(out)
}

/// A form of one variable.
pub fn of_variable(context: Printing<'_>, head: &str, v: Variable, out: &mut Page) {
    open(head, out);
    variable(context, v, out);
    close(out)
}

/// A form of one expression.
#[cycle(expression)]
fn one(context: Printing<'_>, head: &str, x: &Expr, out: &mut Page) {
    open(head, out);
    expression(context, x, out);
    close(out)
}

/// `test ? then : else`
#[cycle(expression)]
fn choice(context: Printing<'_>, x: &Expr, y: &Expr, z: &Expr, out: &mut Page) {
    open("?", out);
    expression(context, x, out);
    expression(context, y, out);
    expression(context, z, out);
    close(out)
}

/// A form of a place and an expression.
#[cycle(expression)]
pub fn at_one(context: Printing<'_>, head: &str, q: Place, x: &Expr, out: &mut Page) {
    open_at(head, q, out);
    expression(context, x, out);
    close(out)
}

/// A form of a place and two expressions.
#[cycle(expression)]
fn at_two(context: Printing<'_>, head: &str, q: Place, x: &Expr, y: &Expr, out: &mut Page) {
    open_at(head, q, out);
    expression(context, x, out);
    expression(context, y, out);
    close(out)
}

/// A form of a place and a list.
#[cycle(expression)]
fn at_list(context: Printing<'_>, head: &str, q: Place, xs: &[Expr], out: &mut Page) {
    open_at(head, q, out);
    list(context, xs, out);
    close(out)
}

/// A form of a place and what is set.
#[cycle(expression)]
fn at_target(context: Printing<'_>, head: &str, q: Place, r: &Target<Expr>, out: &mut Page) {
    open_at(head, q, out);
    target(context, r, out);
    close(out)
}

/// A form of a place, what is set, and an expression.
#[cycle(expression)]
fn setting(
    context: Printing<'_>,
    head: &str,
    q: Place,
    r: &Target<Expr>,
    x: &Expr,
    out: &mut Page,
) {
    open_at(head, q, out);
    target(context, r, out);
    expression(context, x, out);
    close(out)
}

/// A form of a place, an expression, and what stands where a pattern is wanted.
#[cycle(expression)]
fn at_match(
    context: Printing<'_>,
    head: &str,
    q: Place,
    x: &Expr,
    y: &Pattern<Expr>,
    out: &mut Page,
) {
    open_at(head, q, out);
    expression(context, x, out);
    ere(context, y, out);
    close(out)
}

/// A form of an expression and a list.
#[cycle(expression)]
fn many(context: Printing<'_>, head: &str, x: &Expr, xs: &[Expr], out: &mut Page) {
    open(head, out);
    expression(context, x, out);
    list(context, xs, out);
    close(out)
}

#[cycle(expression)]
fn member(context: Printing<'_>, x: &Expr, vs: &[Variable], out: &mut Page) {
    open("in", out);
    expression(context, x, out);
    variables(context, vs, out);
    close(out)
}

#[cycle(expression)]
fn group(context: Printing<'_>, q: Place, xs: &[Expr], vs: &[Variable], out: &mut Page) {
    open_at("in", q, out);
    open("list", out);
    list(context, xs, out);
    close(out);
    variables(context, vs, out);
    close(out)
}

/// A `split` behind its place.
#[cycle(expression)]
fn split(
    context: Printing<'_>,
    x: &Expr,
    at: Place,
    v: Variable,
    y: &Pattern<Expr>,
    out: &mut Page,
) {
    expression(context, x, out);
    place(at, out);
    variable(context, v, out);
    ere(context, y, out);
    close(out)
}

/// A `sub` or a `gsub` behind its place.
#[cycle(expression)]
fn substitute(
    context: Printing<'_>,
    x: &Pattern<Expr>,
    y: &Expr,
    r: &Target<Expr>,
    out: &mut Page,
) {
    ere(context, x, out);
    expression(context, y, out);
    target(context, r, out);
    close(out)
}

/// Whatever is read or set.
#[cycle(expression)]
fn target(context: Printing<'_>, r: &Target<Expr>, out: &mut Page) {
    match r {
        Target::Variable(v) => variable(context, *v, out),
        Target::Element(q, v, xs) => element(context, "[]", *q, *v, xs.as_slice(), out),
        Target::Field(q, x) => at_one(context, "$", *q, x.get(), out),
    }
}

/// An array with its keys.
#[cycle(expression)]
pub fn element(
    context: Printing<'_>,
    head: &str,
    q: Place,
    v: Variable,
    xs: &[Expr],
    out: &mut Page,
) {
    open_at(head, q, out);
    variable(context, v, out);
    list(context, xs, out);
    close(out)
}

/// What stands where a pattern is wanted.
#[cycle(expression)]
fn ere(context: Printing<'_>, x: &Pattern<Expr>, out: &mut Page) {
    match x {
        Pattern::Constant(q, x) => {
            place(*q, out);
            quoted(b'/', x.bytes(), out)
        }
        Pattern::Computed(x) => expression(context, x.get(), out),
    }
}

#[cycle(expression)]
pub fn list(context: Printing<'_>, xs: &[Expr], out: &mut Page) {
    for x in xs {
        expression(context, x, out);
    }
}

/// An expression that may be absent.
pub fn perhaps(context: Printing<'_>, x: &Option<Expr>, out: &mut Page) {
    match x {
        None => text(" -", out),
        Some(x) => expression(context, x, out),
    }
}

#[cycle(expression)]
fn chain(context: Printing<'_>, x: &Expr, xs: &[Term<Expr>], out: &mut Page) {
    open("chain", out);
    expression(context, x, out);
    terms(context, xs, out);
    close(out)
}

#[cycle(expression)]
fn terms(context: Printing<'_>, xs: &[Term<Expr>], out: &mut Page) {
    for x in xs {
        term(context, x, out);
    }
}

#[cycle(expression)]
fn term(context: Printing<'_>, x: &Term<Expr>, out: &mut Page) {
    word(operator_text(x.operator).as_bytes(), out);
    place(x.place, out);
    expression(context, &x.operand, out)
}

#[cycle(expression)]
fn concat(context: Printing<'_>, x: &Expr, xs: &[Joined<Expr>], out: &mut Page) {
    open("concat", out);
    expression(context, x, out);
    joins(context, xs, out);
    close(out)
}

#[cycle(expression)]
fn joins(context: Printing<'_>, xs: &[Joined<Expr>], out: &mut Page) {
    for x in xs {
        join(context, x, out);
    }
}

#[cycle(expression)]
fn join(context: Printing<'_>, x: &Joined<Expr>, out: &mut Page) {
    place(x.place, out);
    expression(context, &x.operand, out)
}

#[cycle(expression)]
fn pipe(context: Printing<'_>, x: &Expr, xs: &[Piped<Expr>], out: &mut Page) {
    open("|getline", out);
    expression(context, x, out);
    pipes(context, xs, out);
    close(out)
}

#[cycle(expression)]
fn pipes(context: Printing<'_>, xs: &[Piped<Expr>], out: &mut Page) {
    for x in xs {
        piped(context, x, out);
    }
}

#[cycle(expression)]
fn piped(context: Printing<'_>, x: &Piped<Expr>, out: &mut Page) {
    place(x.place, out);
    target(context, &x.target, out)
}

#[cycle(expression)]
fn call(context: Printing<'_>, q: Place, f: u32, xs: &[Argument<Expr>], out: &mut Page) {
    open_at("call", q, out);
    ordinal(f as usize, out);
    arguments(context, xs, out);
    close(out)
}

#[cycle(expression)]
fn arguments(context: Printing<'_>, xs: &[Argument<Expr>], out: &mut Page) {
    for x in xs {
        argument(context, x, out);
    }
}

#[cycle(expression)]
fn argument(context: Printing<'_>, x: &Argument<Expr>, out: &mut Page) {
    match x {
        Argument::Value(x) => expression(context, x, out),
        Argument::Array(v) => {
            open("array", out);
            variable(context, *v, out);
            close(out)
        }
        Argument::Nothing => {
            open("nothing", out);
            close(out)
        }
    }
}
