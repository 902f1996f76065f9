// What the signs and words of a script do, and the forms that they decide.

ghost use Rattle.std.specs.Prelude.{◌≡◌, IfOk};
ghost use Rattle.awk_lowering.specs.Forms as spec;
ghost use Rattle.awk_lowering.specs.Made.{Is, IsTarget};
ghost use Rattle.awk_program.specs.Program.{Expression, Reference};
ghost use Rattle.awk_program.specs.View.{Names};
ghost use Rattle.awk_program.specs.declared.builtins.Builtin.TheVariants as f;

use crate::kept::{both, boxed, only};
use crate::nodes::{builtin_of, not_of, read_of};
use crate::targets::record_of;
use awk_numbers::number::Number;
use awk_program::{
    Builtin, Comparison, Expr, Extent, Jump, Operator, Redirect, Sign, Step, Target,
};
use awk_text::Memory;
use awk_text::place::Place;
use awk_tree::{Arithmetic, Assignment};
use sqlite_items::{Boxed, Items};
use std::alloc::Global;

pub fn operator(how: Arithmetic) -> Operator
    ensures { result ≡ spec.operator_of how }
{
    match how {
        Arithmetic::Add => Operator::Add,
        Arithmetic::Subtract => Operator::Subtract,
        Arithmetic::Multiply => Operator::Multiply,
        Arithmetic::Divide => Operator::Divide,
        Arithmetic::Remainder => Operator::Remainder,
    }
}

pub fn comparison(how: awk_tree::Comparison) -> Comparison
    ensures { result ≡ spec.comparison_of how }
{
    match how {
        awk_tree::Comparison::Less => Comparison::Less,
        awk_tree::Comparison::LessOrEqual => Comparison::LessOrEqual,
        awk_tree::Comparison::Equal => Comparison::Equal,
        awk_tree::Comparison::NotEqual => Comparison::NotEqual,
        awk_tree::Comparison::Greater => Comparison::Greater,
        awk_tree::Comparison::GreaterOrEqual => Comparison::GreaterOrEqual,
    }
}

pub fn step(how: awk_tree::Step) -> Step
    ensures { result ≡ spec.step_of how }
{
    match how {
        awk_tree::Step::Increment => Step::Increment,
        awk_tree::Step::Decrement => Step::Decrement,
    }
}

pub fn redirect(how: awk_tree::Redirect) -> Redirect
    ensures { result ≡ spec.redirect_of how }
{
    match how {
        awk_tree::Redirect::Write => Redirect::Write,
        awk_tree::Redirect::Append => Redirect::Append,
        awk_tree::Redirect::Command => Redirect::Command,
    }
}

/// A word alone, with its place where a fault names it
pub fn jump(place: Place, which: awk_tree::Jump) -> Jump
    ensures { result ≡ spec.jump_of place which }
{
    match which {
        awk_tree::Jump::Break => Jump::Break,
        awk_tree::Jump::Continue => Jump::Continue,
        awk_tree::Jump::Next => Jump::Next(place),
        awk_tree::Jump::NextFile => Jump::NextFile(place),
    }
}

pub fn extent(all: bool) -> Extent
    ensures { result ≡ spec.extent_of all }
{
    if all { Extent::All } else { Extent::First }
}

/// `!`, `+` and `-` before an operand

pub fn signed_of(
    place: Place,
    sign: awk_tree::Sign,
    x: Result<Boxed<Expr>, Memory>,
) -> Result<Expr, Memory>
    ensures { (t : Names) (a : Expression) → Is t x a → Is t result (spec.signed_of place sign a) }
{
    let x = x?;
    match sign {
        awk_tree::Sign::Not => Ok(Expr::Not(x)),
        awk_tree::Sign::Plus => Ok(Expr::Signed(place, Sign::Plus, x)),
        awk_tree::Sign::Minus => Ok(Expr::Signed(place, Sign::Minus, x)),
    }
}

/// With true the opposite
pub fn negated(alloc: Global, unlike: bool, x: Result<Expr, Memory>) -> Result<Expr, Memory>
    ensures { (t : Names) (a : Expression) → Is t x a → Is t result (spec.negated unlike a) }
{
    if unlike { not_of(boxed(alloc, x)) } else { x }
}

/// An assignment
pub fn assign_of(
    place: Place,
    how: Assignment,
    target: Result<Target<Expr>, Memory>,
    x: Result<Boxed<Expr>, Memory>,
) -> Result<Expr, Memory>
    ensures { (t : Names) (a : Reference) (b : Expression) → IsTarget t target a → Is t x b →
        Is t result (spec.assigned place how a b) }
{
    let (target, x) = both(target, x)?;
    match how {
        Assignment::Set => Ok(Expr::Assign(place, target, x)),
        Assignment::Add => Ok(Expr::Change(place, Operator::Add, target, x)),
        Assignment::Subtract => Ok(Expr::Change(place, Operator::Subtract, target, x)),
        Assignment::Multiply => Ok(Expr::Change(place, Operator::Multiply, target, x)),
        Assignment::Divide => Ok(Expr::Change(place, Operator::Divide, target, x)),
        Assignment::Remainder => Ok(Expr::Change(place, Operator::Remainder, target, x)),
        Assignment::Power => Ok(Expr::Change(place, Operator::Power, target, x)),
    }
}

/// The function that runs, where a built-in function's arguments are plain values
pub fn plain_builtin(which: awk_tree::Builtin) -> Option<Builtin>
    ensures { result ≡ spec.plain_builtin which }
{
    match which {
        awk_tree::Builtin::Atan2 => Some(Builtin::Atan2),
        awk_tree::Builtin::Close => Some(Builtin::Close),
        awk_tree::Builtin::Cos => Some(Builtin::Cos),
        awk_tree::Builtin::Exp => Some(Builtin::Exp),
        awk_tree::Builtin::Fflush => Some(Builtin::Fflush),
        awk_tree::Builtin::Index => Some(Builtin::Index),
        awk_tree::Builtin::Int => Some(Builtin::Int),
        awk_tree::Builtin::Length => Some(Builtin::Length),
        awk_tree::Builtin::Log => Some(Builtin::Log),
        awk_tree::Builtin::Rand => Some(Builtin::Rand),
        awk_tree::Builtin::Sin => Some(Builtin::Sin),
        awk_tree::Builtin::Sprintf => Some(Builtin::Sprintf),
        awk_tree::Builtin::Sqrt => Some(Builtin::Sqrt),
        awk_tree::Builtin::Srand => Some(Builtin::Srand),
        awk_tree::Builtin::Substr => Some(Builtin::Substr),
        awk_tree::Builtin::System => Some(Builtin::System),
        awk_tree::Builtin::Tolower => Some(Builtin::Tolower),
        awk_tree::Builtin::Toupper => Some(Builtin::Toupper),
        awk_tree::Builtin::Gsub
        | awk_tree::Builtin::Match
        | awk_tree::Builtin::Split
        | awk_tree::Builtin::Sub => None,
    }
}

/// `length` of the whole record
pub fn record_length(alloc: Global, place: Place) -> Result<Expr, Memory>
    ensures { (t : Names) → Is t result (spec.without_arguments place f.Length) }
{
    let record = read_of(record_of(alloc, place));
    builtin_of(place, Builtin::Length, only(alloc, record))
}

/// A built-in function without arguments
pub fn without_arguments(alloc: Global, place: Place, which: Builtin) -> Result<Expr, Memory>
    ensures { (t : Names) → Is t result (spec.without_arguments place which) }
{
    match which {
        Builtin::Length => record_length(alloc, place),
        Builtin::Fflush => Ok(Expr::Number(Number::Whole(0))),
        _ => Ok(Expr::Builtin(place, which, Items::new(alloc))),
    }
}
