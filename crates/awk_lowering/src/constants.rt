// Constants.

ghost use Rattle.std.specs.Prelude.{◌≡◌, pos};
ghost use Rattle.awk_lowering.specs.Forms.{number_of, whole_of};
ghost use Rattle.awk_lowering.specs.Made.{Is};
ghost use Rattle.awk_program.specs.Program as p;
ghost use Rattle.awk_program.specs.View.{Names, view};
ghost use Rattle.awk_text.specs.Escapes.{unescaped};

use awk_numbers::number::{Number, Numbers};
use awk_numbers::numeral;
use awk_program::Expr;
use awk_text::Memory;
use awk_text::escape::unescape;
use awk_text::numeral::leading_digits;
use awk_text::octets::Octets;
use awk_text::place::Place;
use std::alloc::{AllocError, Global};

fn whole(text: &[u8]) -> i64
    ensures { result ≡ pos (whole_of text.now) }
{
    let (_, value) = leading_digits(text);
    if value < 9_223_372_036_854_775_807 {
        value as i64
    } else {
        9_223_372_036_854_775_807
    }
}

/// What a constant stands for, by its profile. Each that is a token has a number.
fn constant(numbers: Numbers, text: &[u8]) -> Number
    ensures { result ≡ number_of numbers text.now }
{
    match numbers {
        Numbers::Whole => Number::Whole(whole(text)),
        Numbers::Double => numeral::number(text).unwrap_or(Number::Whole(0)),
    }
}

/// NUMBER

pub fn number(numbers: Numbers, text: &Octets) -> Expr
    ensures { (t : Names) → view t result ≡ p.number (number_of numbers text.now) }
{
    Expr::Number(constant(numbers, text.bytes()))
}

/// STRING

pub fn quoted(alloc: Global, text: &Octets) -> Result<Expr, Memory>
    ensures { (t : Names) → Is t result (p.text (unescaped text.now)) }
{
    match unescape(alloc, text.bytes()) {
        Ok(text) => Ok(Expr::Text(Octets::new(text))),
        Err(_) => Err(AllocError),
    }
}

/// ERE, where no pattern is wanted

pub fn pattern(alloc: Global, place: Place, text: &Octets) -> Result<Expr, Memory>
    ensures { (t : Names) → Is t result (p.pattern place text.now) }
{
    Ok(Expr::Pattern(place, text.copy(alloc)?))
}
