// Later parts of chains and lists, and what is handed to functions, of parts that are made already.

ghost use Rattle.std.specs.Prelude.{◌≡◌, IfOk, Some, option_copied};
ghost use Rattle.awk_lowering.specs.Forms as spec;
ghost use Rattle.awk_lowering.specs.Lowered as low;
ghost use Rattle.awk_lowering.specs.Made.{Is, IsPerhaps, IsTarget, IsArgument, IsPiped, or_value, names_in, scope_in};
ghost use Rattle.awk_program.specs.Program as p;
ghost use Rattle.awk_program.specs.Program.{Arguments, Expression, Reference};
ghost use Rattle.awk_program.specs.View.{Names, view_term, view_joined};
ghost use Rattle.awk_program.specs.declared.operators.Operator.TheVariants as o;
ghost use Rattle.awk_text.specs.declared.place.Place as spot;

use crate::kept::{both, either, only};
use crate::names::{Lowering, is_array, variable};
use crate::nodes::chain_of;
use crate::operators::operator;
use awk_program::{Argument, Expr, Joined, Operator, Piped, Target, Term};
use awk_text::Memory;
use awk_text::place::Place;
use awk_tree::{Arithmetic, Name};
use sqlite_items::Boxed;
use std::alloc::Global;

/// A later operand of a chain
pub fn term_of(
    how: Arithmetic,
    place: Place,
    operand: Result<Boxed<Expr>, Memory>,
) -> Result<Term<Expr>, Memory>
    ensures { (t : Names) (a : Expression) → Is t operand a →
        IfOk result (λ made. view_term t made
        ≡ record { operator = spec.operator_of how; place = place; operand = a }) }
{
    match operand {
        Ok(operand) => Ok(Term {
            operator: operator(how),
            place,
            operand: operand.into_inner(),
        }),
        Err(refused) => Err(refused),
    }
}

fn power(place: Place, operand: Result<Boxed<Expr>, Memory>) -> Result<Term<Expr>, Memory>
    ensures { (t : Names) (a : Expression) → Is t operand a →
        IfOk result (λ made. view_term t made ≡ record { operator = o.Power; place = place; operand = a }) }
{
    match operand {
        Ok(operand) => Ok(Term {
            operator: Operator::Power,
            place,
            operand: operand.into_inner(),
        }),
        Err(refused) => Err(refused),
    }
}

/// `base ^ exponent`
pub fn power_of(
    alloc: Global,
    place: Place,
    x: Result<Boxed<Expr>, Memory>,
    y: Result<Boxed<Expr>, Memory>,
) -> Result<Expr, Memory>
    ensures { (t : Names) (a b : Expression) → Is t x a → Is t y b →
        Is t result (p.chain a (p.term o.Power place b p.no_terms)) }
{
    chain_of(x, only(alloc, power(place, y)))
}

/// A later operand of a concatenation
pub fn join_of(
    place: Result<Place, Memory>,
    operand: Result<Boxed<Expr>, Memory>,
) -> Result<Joined<Expr>, Memory>
    ensures { (t : Names) (q : spot.Place) (a : Expression) → IfOk place (λ made. made ≡ q) → Is t operand a →
        IfOk result (λ made. view_joined t made ≡ record { place = q; operand = a }) }
{
    match both(place, operand) {
        Ok((place, operand)) => Ok(Joined {
            place,
            operand: operand.into_inner(),
        }),
        Err(refused) => Err(refused),
    }
}

/// `| getline`
pub fn piped_of(place: Place, target: Result<Target<Expr>, Memory>) -> Result<Piped<Expr>, Memory>
    ensures { (t : Names) (a : Reference) → IsTarget t target a → IsPiped t result place a }
{
    match target {
        Ok(target) => Ok(Piped { place, target }),
        Err(refused) => Err(refused),
    }
}

/// A value
fn value_of(x: Result<Boxed<Expr>, Memory>) -> Result<Argument<Expr>, Memory>
    ensures { (t : Names) (a : Expression) → Is t x a → IsArgument t result (λ rest. p.by_value a rest) }
{
    match x {
        Ok(x) => Ok(Argument::Value(x.into_inner())),
        Err(refused) => Err(refused),
    }
}

/// What a name by itself is handed on as, unless it is by its value.
fn by_name(
    context: &Lowering<'_>,
    takes_array: bool,
    n: &Name,
) -> Result<Option<Argument<Expr>>, Memory>
    ensures { IfOk result
        (λ found. (a : Expression) (rest : Arguments) → or_value (names_in context.now) found a rest
        ≡ low.argument (scope_in context.now) takes_array (Some n.now) a rest) }
{
    let text = n.text.bytes();
    if takes_array {
        let v = variable(context, text)?;
        Ok(Some(Argument::Array(v)))
    } else if is_array(context, text) {
        Ok(Some(Argument::Nothing))
    } else {
        Ok(None)
    }
}

/// What is handed to a function, which is a name by itself or this value.
pub fn argument_of(
    context: &Lowering<'_>,
    takes_array: bool,
    name: Option<&Name>,
    value: Result<Boxed<Expr>, Memory>,
) -> Result<Argument<Expr>, Memory>
    ensures { (a : Expression) → Is (names_in context.now) value a →
        IsArgument (names_in context.now) result
        (low.argument (scope_in context.now) takes_array (option_copied name.entry) a) }
{
    match name {
        None => value_of(value),
        Some(n) => either(by_name(context, takes_array, n), value_of(value)),
    }
}

/// An expression that is there
pub fn given(x: Result<Boxed<Expr>, Memory>) -> Result<Option<Boxed<Expr>>, Memory>
    ensures { (t : Names) (a : Expression) → Is t x a → IsPerhaps t result (Some a) }
{
    match x {
        Ok(x) => Ok(Some(x)),
        Err(refused) => Err(refused),
    }
}
