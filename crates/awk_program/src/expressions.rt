// Expressions.

use crate::builtins::Builtin;
use crate::operators::{Comparison, Extent, Operator, Sign, Step, StepValue};
use crate::variables::Variable;
use awk_numbers::number::Number;
use awk_text::octets::Octets;
use awk_text::place::Place;
use sqlite_items::{Boxed, Items};

/// Whatever is read or set.
#[derive(Drop)]
pub enum Target<E> {
    Variable(Variable),
    /// `array [ list ]`, with the place of the array's name.
    Element(Place, Variable, Items<E>),
    /// `$ operand`
    Field(Place, Boxed<E>),
}

/// What stands where a pattern is wanted.
#[derive(Drop)]
pub enum Pattern<E> {
    /// An ERE, by its text.
    Constant(Place, Octets),
    /// The text of anything else.
    Computed(Boxed<E>),
}

/// A later operand of a chain, with the sign before it.
#[derive(Drop)]
pub struct Term<E> {
    pub operator: Operator,
    pub place: Place,
    pub operand: E,
}

/// A later operand of a concatenation, with the place of its first token.
#[derive(Drop)]
pub struct Joined<E> {
    pub place: Place,
    pub operand: E,
}

/// `| getline`, with the place of that word and what it sets.
#[derive(Drop)]
pub struct Piped<E> {
    pub place: Place,
    pub target: Target<E>,
}

/// What is handed to a function.
#[derive(Drop)]
pub enum Argument<E> {
    Value(E),
    /// An array, to a parameter that is one.
    Array(Variable),
    /// An array, to a parameter that is never read.
    Nothing,
}

/// An expression. A chain of one level that groups from the left is one list.
#[derive(Drop)]
pub enum Expr {
    Number(Number),
    Text(Octets),
    /// `$0 ~` an ERE
    Pattern(Place, Octets),
    Read(Target<Expr>),
    /// `target = value`
    Assign(Place, Target<Expr>, Boxed<Expr>),
    /// `target += value`, and with the other operators
    Change(Place, Operator, Target<Expr>, Boxed<Expr>),
    /// `target ++`
    Step(Place, Step, StepValue, Target<Expr>),
    /// `! operand`
    Not(Boxed<Expr>),
    /// `- operand`
    Signed(Place, Sign, Boxed<Expr>),
    /// An operand of which a text is wanted: of a number with a fraction, the text that CONVFMT makes of it. Only
    /// scripts with doubles have it.
    AsText(Place, Boxed<Expr>),
    /// A chain of `+` and `-`, or of `*`, `/` and `%`; or one `^`.
    Chain(Boxed<Expr>, Items<Term<Expr>>),
    /// Operands one directly after the other
    Concat(Boxed<Expr>, Items<Joined<Expr>>),
    /// `left < right`, and the other comparisons
    Compare(Place, Comparison, Boxed<Expr>, Boxed<Expr>),
    /// `text ~ pattern`
    Match(Place, Boxed<Expr>, Pattern<Expr>),
    /// `key in array in array ..`
    In(Boxed<Expr>, Items<Variable>),
    /// `( list ) in array in array ..`, with the place of the first `in`
    Group(Place, Items<Expr>, Items<Variable>),
    /// A chain of `&&`
    And(Boxed<Expr>, Items<Expr>),
    /// A chain of `||`
    Or(Boxed<Expr>, Items<Expr>),
    /// `test ? then : else`
    Choice(Boxed<Expr>, Boxed<Expr>, Boxed<Expr>),
    /// `function ( list )`, for the function with this number
    Call(Place, u32, Items<Argument<Expr>>),
    /// `getline target`
    Getline(Place, Target<Expr>),
    /// `getline target < file`
    GetlineFile(Place, Target<Expr>, Boxed<Expr>),
    /// `command | getline target | getline target ..`
    Pipe(Boxed<Expr>, Items<Piped<Expr>>),
    /// A built-in function with its arguments, where they are plain values
    Builtin(Place, Builtin, Items<Expr>),
    /// `length ( array )`
    Count(Variable),
    /// `match ( text , pattern )`
    Locate(Place, Boxed<Expr>, Pattern<Expr>),
    /// `split ( text , array , separator )`, with the places of the word and of the array
    Split(Place, Boxed<Expr>, Place, Variable, Pattern<Expr>),
    /// `sub ( pattern , with , target )` and `gsub ( pattern , with , target )`
    Substitute(Place, Extent, Pattern<Expr>, Boxed<Expr>, Target<Expr>),
}
