// How statements are spelled.

ghost use Rattle.std.specs.Prelude.{◌≡◌, [], ◌∷◌, ◌++◌, OnOk, codes, map, option_map};
ghost use Rattle.awk_tree.specs.Canon as spec;
ghost use Rattle.awk_tree.specs.Terminals as terminals;
ghost use Rattle.awk_tree.specs.Tree as t;
ghost use Rattle.awk_tree.specs.Tree.{statements_of};
ghost use Rattle.awk_tree.specs.View.{view, view_printed, view_redirection, view_statement};

use crate::expressions::{enclosed, expression, list, optional, paren, prefixed};
use crate::spelling::redirect_text;
use crate::tokens::{push_end, push_keyword, push_name, push_sign};
use awk_text::Memory;
use awk_tokens::Token;
use awk_tree::{Expr, Name, Printed, Redirection, Statement};
use std::alloc::Global;

fn printed(alloc: Global, x: &Printed<Expr>, out: &mut Vec<Token>) -> Result<(), Memory>
    ensures { OnOk result (out.new.items ≡ out.old.items ++ spec.canon_printed (view_printed x.now)) }
{
    if x.is_grouped {
        enclosed(alloc, "(", x.items.as_slice(), ")", out)
    } else {
        list(alloc, x.items.as_slice(), out)
    }
}

fn redirection(
    alloc: Global,
    x: &Option<Redirection<Expr>>,
    out: &mut Vec<Token>,
) -> Result<(), Memory>
    ensures { OnOk result
        (out.new.items ≡ out.old.items ++ spec.canon_redirection (option_map view_redirection x.now)) }
{
    match x {
        None => Ok(()),
        Some(x) => prefixed(alloc, redirect_text(x.how), &x.target, out),
    }
}

/// `print` or `printf`, with its list and its target.
fn output(
    alloc: Global,
    text: &str,
    xs: &Printed<Expr>,
    target: &Option<Redirection<Expr>>,
    out: &mut Vec<Token>,
) -> Result<(), Memory>
    ensures { OnOk result
        (out.new.items ≡ out.old.items
        ++ (terminals.keyword text.now ∷ spec.canon_printed (view_printed xs.now)
        ++ spec.canon_redirection (option_map view_redirection target.now) ++ spec.end)) }
{
    push_keyword(alloc, text, out)?;
    printed(alloc, xs, out)?;
    redirection(alloc, target, out)?;
    push_end(alloc, out)
}

fn plain(alloc: Global, x: &Expr, out: &mut Vec<Token>) -> Result<(), Memory>
    ensures { OnOk result (out.new.items ≡ out.old.items ++ (spec.canon (view x.now) ++ spec.end)) }
{
    expression(alloc, x, out)?;
    push_end(alloc, out)
}

/// `delete NAME [ list ]`
fn delete(alloc: Global, name: &Name, xs: &[Expr], out: &mut Vec<Token>) -> Result<(), Memory>
    ensures { OnOk result
        (out.new.items ≡ out.old.items ++ spec.canon_statement (t.delete name.now (map view xs.now))) }
{
    push_keyword(alloc, "delete", out)?;
    push_name(alloc, name, out)?;
    enclosed(alloc, "[", xs, "]", out)?;
    push_end(alloc, out)
}

/// `delete NAME`
fn delete_all(alloc: Global, name: &Name, out: &mut Vec<Token>) -> Result<(), Memory>
    ensures { OnOk result (out.new.items ≡ out.old.items ++ spec.canon_statement (t.delete_all name.now)) }
{
    push_keyword(alloc, "delete", out)?;
    push_name(alloc, name, out)?;
    push_end(alloc, out)
}

/// A word that is a statement by itself.
fn word(alloc: Global, text: &str, out: &mut Vec<Token>) -> Result<(), Memory>
    ensures { OnOk result (out.new.items ≡ out.old.items ++ terminals.keyword text.now ∷ spec.end) }
{
    push_keyword(alloc, text, out)?;
    push_end(alloc, out)
}

/// An expression that may be absent, and `;`.
fn ended(alloc: Global, x: &Option<Expr>, out: &mut Vec<Token>) -> Result<(), Memory>
    ensures { OnOk result (out.new.items ≡ out.old.items ++ (spec.canon_perhaps (option_map view x.now) ++ spec.end)) }
{
    optional(alloc, x, out)?;
    push_end(alloc, out)
}

/// `exit` or `return`, with the expression behind it.
fn leave(alloc: Global, text: &str, x: &Option<Expr>, out: &mut Vec<Token>) -> Result<(), Memory>
    ensures { OnOk result
        (out.new.items ≡ out.old.items ++ terminals.keyword text.now
        ∷ (spec.canon_perhaps (option_map view x.now) ++ spec.end)) }
{
    push_keyword(alloc, text, out)?;
    ended(alloc, x, out)
}

/// `word ( expr )`
fn test(alloc: Global, text: &str, x: &Expr, out: &mut Vec<Token>) -> Result<(), Memory>
    ensures { OnOk result (out.new.items ≡ out.old.items ++ spec.canon_test text.now (view x.now)) }
{
    push_keyword(alloc, text, out)?;
    paren(alloc, x, out)
}

/// The end of a `do`.
fn until(alloc: Global, x: &Expr, out: &mut Vec<Token>) -> Result<(), Memory>
    ensures { OnOk result
        (out.new.items ≡ out.old.items ++ (spec.canon_test (codes "while") (view x.now) ++ spec.end)) }
{
    test(alloc, "while", x, out)?;
    push_end(alloc, out)
}

/// `for ( first ; test ; step )`
fn header(
    alloc: Global,
    x: &Option<Expr>,
    y: &Option<Expr>,
    z: &Option<Expr>,
    out: &mut Vec<Token>,
) -> Result<(), Memory>
    ensures { OnOk result
        (out.new.items ≡ out.old.items ++ terminals.keyword (codes "for")
        ∷ (terminals.sign (codes "(")
        ∷ (spec.canon_perhaps (option_map view x.now)
        ++ (spec.end ++ (spec.canon_perhaps (option_map view y.now)
        ++ (spec.end ++ (spec.canon_perhaps (option_map view z.now) ++ terminals.sign (codes ")") ∷ []))))))) }
{
    push_keyword(alloc, "for", out)?;
    push_sign(alloc, "(", out)?;
    ended(alloc, x, out)?;
    ended(alloc, y, out)?;
    optional(alloc, z, out)?;
    push_sign(alloc, ")", out)
}

/// `for ( key in array )`
fn each_header(alloc: Global, key: &Name, array: &Name, out: &mut Vec<Token>) -> Result<(), Memory>
    ensures { OnOk result
        (out.new.items ≡ out.old.items ++ terminals.keyword (codes "for")
        ∷ (terminals.sign (codes "(")
        ∷ (spec.word key.now ∷
        (terminals.keyword (codes "in") ∷ (spec.word array.now ∷ (terminals.sign (codes ")") ∷ [])))))) }
{
    push_keyword(alloc, "for", out)?;
    push_sign(alloc, "(", out)?;
    push_name(alloc, key, out)?;
    push_keyword(alloc, "in", out)?;
    push_name(alloc, array, out)?;
    push_sign(alloc, ")", out)
}

/// Writes a statement, or answers `Memory` where memory is refused; what was written until then
/// stays.
#[cycle(statement)]
fn statement(alloc: Global, s: &Statement, out: &mut Vec<Token>) -> Result<(), Memory>
    ensures { OnOk result (out.new.items ≡ out.old.items ++ spec.canon_statement (view_statement s.now)) }
{
    match s {
        Statement::Empty => push_end(alloc, out),
        Statement::Expr(x) => plain(alloc, x, out),
        Statement::Print(_place, xs, target) => output(alloc, "print", xs, target, out),
        Statement::Printf(_place, xs, target) => output(alloc, "printf", xs, target, out),
        Statement::Delete(name, xs) => delete(alloc, name, xs.as_slice(), out),
        Statement::DeleteAll(name) => delete_all(alloc, name, out),
        Statement::Jump(_place, which) => word(alloc, which.text(), out),
        Statement::Exit(_place, x) => leave(alloc, "exit", x, out),
        Statement::Return(_place, x) => leave(alloc, "return", x, out),
        Statement::Block(xs) => action(alloc, xs.as_slice(), out),
        Statement::If(x, body) => {
            test(alloc, "if", x, out)?;
            statement(alloc, body.get(), out)
        }
        Statement::IfElse(x, body, other) => if_else(alloc, x, body.get(), other.get(), out),
        Statement::While(x, body) => {
            test(alloc, "while", x, out)?;
            statement(alloc, body.get(), out)
        }
        Statement::Do(body, x) => do_while(alloc, body.get(), x, out),
        Statement::For(x, y, z, body) => for_loop(alloc, x, y, z, body.get(), out),
        Statement::ForIn(_place, key, array, body) => {
            each_header(alloc, key, array, out)?;
            statement(alloc, body.get(), out)
        }
    }
}

/// `if ( test ) body else other`
#[cycle(statement)]
fn if_else(
    alloc: Global,
    x: &Expr,
    body: &Statement,
    other: &Statement,
    out: &mut Vec<Token>,
) -> Result<(), Memory>
    ensures { OnOk result
        (out.new.items ≡ out.old.items
        ++ spec.canon_statement (t.if_else (view x.now) (view_statement body.now) (view_statement other.now))) }
{
    test(alloc, "if", x, out)?;
    statement(alloc, body, out)?;
    push_keyword(alloc, "else", out)?;
    statement(alloc, other, out)
}

/// `do body while ( test )`
#[cycle(statement)]
fn do_while(alloc: Global, body: &Statement, x: &Expr, out: &mut Vec<Token>) -> Result<(), Memory>
    ensures { OnOk result
        (out.new.items ≡ out.old.items ++ spec.canon_statement (t.do_while (view_statement body.now) (view x.now))) }
{
    push_keyword(alloc, "do", out)?;
    statement(alloc, body, out)?;
    until(alloc, x, out)
}

/// `for ( first ; test ; step ) body`
#[cycle(statement)]
fn for_loop(
    alloc: Global,
    x: &Option<Expr>,
    y: &Option<Expr>,
    z: &Option<Expr>,
    body: &Statement,
    out: &mut Vec<Token>,
) -> Result<(), Memory>
    ensures { OnOk result
        (out.new.items ≡ out.old.items
        ++ spec.canon_statement
        (t.for_loop (option_map view x.now) (option_map view y.now) (option_map view z.now)
        (view_statement body.now))) }
{
    header(alloc, x, y, z, out)?;
    statement(alloc, body, out)
}

/// Statements between braces.
#[cycle(statement)]
pub fn action(alloc: Global, xs: &[Statement], out: &mut Vec<Token>) -> Result<(), Memory>
    ensures { OnOk result (out.new.items ≡ out.old.items ++ spec.canon_action (map view_statement xs.now)) }
{
    push_sign(alloc, "{", out)?;
    statements(alloc, xs, out)?;
    push_sign(alloc, "}", out)
}

#[cycle(statement)]
fn statements(alloc: Global, xs: &[Statement], out: &mut Vec<Token>) -> Result<(), Memory>
    ensures { OnOk result
        (out.new.items ≡ out.old.items ++ spec.canon_statements (statements_of (map view_statement xs.now))) }
{
    for s in xs {
        statement(alloc, s, out)?;
    }
    Ok(())
}
