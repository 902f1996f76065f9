// What is read or set, and patterns, of parts that are made already. A part that was refused refuses the whole.

ghost use Rattle.std.specs.Prelude.{◌≡◌, IfOk, List, pos, codes};
ghost use Rattle.awk_numbers.specs.declared.number.Number.TheVariants.{Whole};
ghost use Rattle.awk_lowering.specs.Forms.{unwritten_target, whole_record};
ghost use Rattle.awk_lowering.specs.Made.{Is, AreAll, IsTarget, IsEre, IsVariable, names_in};
ghost use Rattle.awk_program.specs.Program as p;
ghost use Rattle.awk_program.specs.Program.{Expression, Reference, expressions_of};
ghost use Rattle.awk_program.specs.View.{Names};

use crate::kept::{both, boxed};
use crate::names::{Lowering, global};
use crate::nodes::read_of;
use awk_numbers::number::Number;
use awk_program::{Expr, Pattern, Target, Variable};
use awk_text::Memory;
use awk_text::octets::Octets;
use awk_text::place::Place;
use sqlite_items::{Boxed, Items};
use std::alloc::Global;

/// A variable
pub fn variable_of(v: Result<Variable, Memory>) -> Result<Target<Expr>, Memory>
    ensures { (t : Names) (a : p.Variable) → IsVariable t v a → IsTarget t result (p.variable a) }
{
    match v {
        Ok(v) => Ok(Target::Variable(v)),
        Err(refused) => Err(refused),
    }
}

/// `NAME [ list ]`
pub fn element_of(
    place: Place,
    v: Result<Variable, Memory>,
    xs: Result<Items<Expr>, Memory>,
) -> Result<Target<Expr>, Memory>
    ensures { (t : Names) (a : p.Variable) (b : List Expression) → IsVariable t v a → AreAll t xs b →
        IsTarget t result (p.element place a (expressions_of b)) }
{
    match both(v, xs) {
        Ok((v, xs)) => Ok(Target::Element(place, v, xs)),
        Err(refused) => Err(refused),
    }
}

/// `$ operand`
pub fn field_of(place: Place, x: Result<Boxed<Expr>, Memory>) -> Result<Target<Expr>, Memory>
    ensures { (t : Names) (a : Expression) → Is t x a → IsTarget t result (p.field place a) }
{
    match x {
        Ok(x) => Ok(Target::Field(place, x)),
        Err(refused) => Err(refused),
    }
}

/// The text of a pattern
pub fn computed_of(x: Result<Boxed<Expr>, Memory>) -> Result<Pattern<Expr>, Memory>
    ensures { (t : Names) (a : Expression) → Is t x a → IsEre t result (p.computed a) }
{
    match x {
        Ok(x) => Ok(Pattern::Computed(x)),
        Err(refused) => Err(refused),
    }
}

/// The number 0
#[tactic(auto, using(awk_program::proofs::Views::views))]
pub fn zero() -> Result<Expr, Memory>
    ensures { (t : Names) → Is t result (p.number (Whole (pos 0))) }
{
    Ok(Expr::Number(Number::Whole(0)))
}

/// `$0`
pub fn record_of(alloc: Global, place: Place) -> Result<Target<Expr>, Memory>
    ensures { (t : Names) → IsTarget t result (whole_record place) }
{
    field_of(place, boxed(alloc, zero()))
}

/// What stands for a target that is none. It has no place of its own.
pub fn unwritten(alloc: Global) -> Result<Target<Expr>, Memory>
    ensures { (t : Names) → IsTarget t result unwritten_target }
{
    record_of(alloc, Place { line: 0, column: 0 })
}

/// An ERE by itself
pub fn constant_of(alloc: Global, place: Place, text: &Octets) -> Result<Pattern<Expr>, Memory>
    ensures { (t : Names) → IsEre t result (p.constant place text.now) }
{
    Ok(Pattern::Constant(place, text.copy(alloc)?))
}

/// What FS holds
pub fn field_separator(context: &Lowering<'_>) -> Result<Pattern<Expr>, Memory>
    ensures { IsEre (names_in context.now) result (p.computed (p.read (p.variable (p.global (codes "FS"))))) }
{
    let fs = variable_of(global(context, b"FS"));
    computed_of(boxed(context.alloc, read_of(fs)))
}
