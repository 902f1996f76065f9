// Operands of which a text is wanted, of parts that are made already. A part that was refused refuses the whole.

ghost use Rattle.std.specs.Prelude.{◌≡◌, IfOk};
ghost use Rattle.awk_lowering.specs.Made.{Is, names_in};
ghost use Rattle.awk_lowering.specs.Texts as spec;
ghost use Rattle.awk_numbers.specs.declared.number.Numbers.TheVariants as profile;
ghost use Rattle.awk_program.specs.Program as p;
ghost use Rattle.awk_program.specs.Program.{Expression};
ghost use Rattle.awk_program.specs.View.{Names, view};
ghost use Rattle.awk_text.specs.declared.place.Place as spot;

use crate::kept::boxed;
use crate::names::Lowering;
use awk_numbers::number::{Number, Numbers};
use awk_program::{Builtin, Expr};
use awk_text::Memory;
use awk_text::place::Place;
use sqlite_items::Boxed;
use std::alloc::Global;

/// Whether a constant has a fraction, or is too great for a whole number.
fn is_real(number: Number) -> bool
    ensures { result ≡ spec.may_be_fraction (p.number number) }
{
    match number {
        Number::Whole(_) => false,
        Number::Real(_) => true,
    }
}

/// Whether an expression may be a number with a fraction, as far as its form tells.
#[tactic(auto, using(awk_program::proofs::Views::views))]
fn may_be_fraction(e: &Expr) -> bool
    ensures { (t : Names) → result ≡ spec.may_be_fraction (view t e.now) }
{
    match e {
        Expr::Number(number) => is_real(*number),
        Expr::Text(_) | Expr::Concat(_, _) => false,
        Expr::Pattern(_, _)
        | Expr::Read(_)
        | Expr::Assign(_, _, _)
        | Expr::Change(_, _, _, _)
        | Expr::Step(_, _, _, _)
        | Expr::Not(_)
        | Expr::Signed(_, _, _)
        | Expr::AsText(_, _)
        | Expr::Chain(_, _)
        | Expr::Compare(_, _, _, _)
        | Expr::Match(_, _, _)
        | Expr::In(_, _)
        | Expr::Group(_, _, _)
        | Expr::And(_, _)
        | Expr::Or(_, _)
        | Expr::Choice(_, _, _)
        | Expr::Call(_, _, _)
        | Expr::Getline(_, _)
        | Expr::GetlineFile(_, _, _)
        | Expr::Pipe(_, _)
        | Expr::Builtin(_, _, _)
        | Expr::Count(_)
        | Expr::Locate(_, _, _)
        | Expr::Split(_, _, _, _, _)
        | Expr::Substitute(_, _, _, _, _) => true,
    }
}

/// An operand of a script with doubles.
fn of_doubles(
    alloc: Global,
    place: Place,
    x: Result<Boxed<Expr>, Memory>,
) -> Result<Boxed<Expr>, Memory>
    ensures { (t : Names) (a : Expression) → Is t x a → Is t result (spec.textual profile.Double place a) }
{
    match x {
        Ok(x) => {
            if may_be_fraction(x.get()) {
                boxed(alloc, Ok(Expr::AsText(place, x)))
            } else {
                Ok(x)
            }
        }
        Err(refused) => Err(refused),
    }
}

/// An operand whose text the form at this place wants.
pub fn text_of(
    context: &Lowering<'_>,
    place: Place,
    x: Result<Boxed<Expr>, Memory>,
) -> Result<Boxed<Expr>, Memory>
    ensures { (a : Expression) → Is (names_in context.now) x a →
        Is (names_in context.now) result (spec.textual context.now.numbers place a) }
{
    match context.numbers {
        Numbers::Whole => x,
        Numbers::Double => of_doubles(context.alloc, place, x),
    }
}

/// The same at a place for which memory may have been refused.
pub fn text_at(
    context: &Lowering<'_>,
    place: Result<Place, Memory>,
    x: Result<Boxed<Expr>, Memory>,
) -> Result<Boxed<Expr>, Memory>
    ensures { (q : spot.Place) (a : Expression) → IfOk place (λ made. made ≡ q) → Is (names_in context.now) x a →
        Is (names_in context.now) result (spec.textual context.now.numbers q a) }
{
    match place {
        Ok(place) => text_of(context, place, x),
        Err(refused) => Err(refused),
    }
}

/// Of how many of its arguments, from the first on, a built-in function wants the text.
pub fn texts_wanted(which: Builtin) -> usize
    ensures { result ≡ spec.texts_wanted which }
{
    match which {
        Builtin::Index => 2,
        Builtin::Close
        | Builtin::Fflush
        | Builtin::Length
        | Builtin::Sprintf
        | Builtin::Substr
        | Builtin::System
        | Builtin::Tolower
        | Builtin::Toupper => 1,
        Builtin::Atan2
        | Builtin::Cos
        | Builtin::Exp
        | Builtin::Int
        | Builtin::Log
        | Builtin::Rand
        | Builtin::Sin
        | Builtin::Sqrt
        | Builtin::Srand => 0,
    }
}
