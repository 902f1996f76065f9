// Expressions.

use crate::names::{Member, Name};
use crate::operators::{Arithmetic, Comparison, Sign};
use awk_text::octets::Octets;
use awk_text::place::Place;
use awk_tokens::{Assignment, Builtin, Step};
use sqlite_items::{Boxed, Items};

/// A later operand of a chain, with the sign before it.
#[derive(Drop)]
pub struct Term<E> {
    pub operator: Arithmetic,
    pub place: Place,
    pub operand: E,
}

/// `| getline`, with the variable that it sets.
#[derive(Drop)]
pub struct Piped<E> {
    /// The place of the word `getline`.
    pub place: Place,
    pub target: Option<E>,
}

/// An expression. A chain of one level that groups from the left is one list.
#[derive(Drop)]
pub enum Expr {
    /// NUMBER, by its digits.
    Number(Place, Octets),
    /// STRING, with its escapes as written.
    Quoted(Place, Octets),
    /// ERE
    Pattern(Place, Octets),
    Name(Name),
    /// `NAME [ list ]`
    Element(Name, Items<Expr>),
    /// `$ operand`
    Field(Place, Boxed<Expr>),
    /// `( expr )`
    Paren(Place, Boxed<Expr>),
    /// `NAME ( list )` for a function of the script
    Call(Name, Items<Expr>),
    /// A built-in function with its arguments, other than the three below.
    Builtin(Place, Builtin, Items<Expr>),
    /// `length` without parentheses
    Length(Place),
    /// `split ( text , array , separator )`, where the separator may be absent
    Split(Place, Boxed<Expr>, Name, Option<Boxed<Expr>>),
    /// `sub ( pattern , with , lvalue )`, where the lvalue may be absent; with true `gsub`
    Substitute(Place, bool, Boxed<Expr>, Boxed<Expr>, Option<Boxed<Expr>>),
    /// `getline lvalue < file`, where either may be absent
    Getline(Place, Option<Boxed<Expr>>, Option<Boxed<Expr>>),
    /// `++ lvalue`
    Before(Place, Step, Boxed<Expr>),
    /// `lvalue ++`
    After(Boxed<Expr>, Place, Step),
    /// `- operand`
    Signed(Place, Sign, Boxed<Expr>),
    /// `base ^ exponent`
    Power(Boxed<Expr>, Place, Boxed<Expr>),
    /// A chain of `*`, `/` and `%`.
    Product(Boxed<Expr>, Items<Term<Expr>>),
    /// A chain of `+` and `-`.
    Sum(Boxed<Expr>, Items<Term<Expr>>),
    /// Two operands or more, one directly after the other.
    Concat(Boxed<Expr>, Items<Expr>),
    /// `command | getline lvalue`, where the lvalue may be absent
    Pipe(Boxed<Expr>, Items<Piped<Expr>>),
    /// `left < right`
    Compare(Boxed<Expr>, Place, Comparison, Boxed<Expr>),
    /// `text ~ pattern`, and with true `text !~ pattern`
    Match(Boxed<Expr>, Place, bool, Boxed<Expr>),
    /// `( list ) in array`, where the list has two or more
    Group(Place, Items<Expr>, Items<Member>),
    /// `key in array`
    In(Boxed<Expr>, Items<Member>),
    /// A chain of `&&`.
    And(Boxed<Expr>, Items<Expr>),
    /// A chain of `||`.
    Or(Boxed<Expr>, Items<Expr>),
    /// `test ? then : else`
    Choice(Boxed<Expr>, Boxed<Expr>, Boxed<Expr>),
    /// `lvalue = value`
    Assign(Boxed<Expr>, Place, Assignment, Boxed<Expr>),
}
