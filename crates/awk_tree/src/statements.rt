// Statements.

use crate::expressions::Expr;
use crate::names::Name;
use crate::operators::Redirect;
use awk_text::place::Place;
use awk_tokens::Jump;
use sqlite_items::{Boxed, Items};

/// The list of `print` or `printf`.
#[derive(Drop)]
pub struct Printed<E> {
    /// Whether the whole list stands in parentheses; it then has two or more.
    pub is_grouped: bool,
    pub items: Items<E>,
}

/// `> target`, `>> target` or `| target`.
#[derive(Drop)]
pub struct Redirection<E> {
    pub how: Redirect,
    pub place: Place,
    pub target: E,
}

/// A statement.
#[derive(Drop)]
pub enum Statement {
    /// `;` by itself
    Empty,
    Expr(Expr),
    /// `print`, whose list may be empty
    Print(Place, Printed<Expr>, Option<Redirection<Expr>>),
    /// `printf`, whose list has one or more
    Printf(Place, Printed<Expr>, Option<Redirection<Expr>>),
    /// `delete NAME [ list ]`
    Delete(Name, Items<Expr>),
    /// `delete NAME`, of the whole array
    DeleteAll(Name),
    /// A word alone, as `break`
    Jump(Place, Jump),
    Exit(Place, Option<Expr>),
    Return(Place, Option<Expr>),
    /// `{ }`
    Block(Items<Statement>),
    If(Expr, Boxed<Statement>),
    IfElse(Expr, Boxed<Statement>, Boxed<Statement>),
    While(Expr, Boxed<Statement>),
    /// `do body while ( test )`
    Do(Boxed<Statement>, Expr),
    /// `for ( first ; test ; step ) body`, where each of the three may be absent
    For(Option<Expr>, Option<Expr>, Option<Expr>, Boxed<Statement>),
    /// `for ( key in array ) body`
    ForIn(Place, Name, Name, Boxed<Statement>),
}
