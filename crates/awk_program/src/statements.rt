// Statements.

use crate::expressions::Expr;
use crate::jumps::Jump;
use crate::operators::Redirect;
use crate::variables::Variable;
use awk_text::place::Place;
use sqlite_items::{Boxed, Items};

/// `> target`, `>> target` or `| target`.
#[derive(Drop)]
pub struct Redirection<E> {
    pub how: Redirect,
    pub place: Place,
    pub target: E,
}

/// A statement.
#[derive(Drop)]
pub enum Statement {
    Expr(Expr),
    /// `print` of these, or of the whole record where there are none
    Print(Place, Items<Expr>, Option<Redirection<Expr>>),
    /// `printf` of a format and its values
    Printf(Place, Expr, Items<Expr>, Option<Redirection<Expr>>),
    /// `delete array [ list ]`, with the place of the array's name
    Delete(Place, Variable, Items<Expr>),
    /// `delete array`
    DeleteAll(Variable),
    /// A word alone, as `break`
    Jump(Jump),
    Exit(Place, Option<Expr>),
    Return(Option<Expr>),
    /// `{ }`, and an empty one for the empty statement
    Block(Items<Statement>),
    If(Expr, Boxed<Statement>),
    IfElse(Expr, Boxed<Statement>, Boxed<Statement>),
    While(Expr, Boxed<Statement>),
    /// `do body while ( test )`
    Do(Boxed<Statement>, Expr),
    /// `for ( first ; test ; step ) body`, where each of the three may be absent
    For(Option<Expr>, Option<Expr>, Option<Expr>, Boxed<Statement>),
    /// `for ( key in array ) body`
    ForIn(Place, Variable, Variable, Boxed<Statement>),
}
