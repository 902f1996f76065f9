// The fields of numbers with a fraction, and of those whose fraction is left out.
ghost use Rattle.std.specs.Prelude.{◌≡◌, OnOk};
ghost use Rattle.std.specs.Float.{is_sign_negative};
ghost use Rattle.awk_numbers.specs.Numbers.{double_of};
ghost use Rattle.awk_numbers.specs.Shown.{integral, integral_of};
ghost use Rattle.awk_format.specs.Fields.{exponential_field, field, fixed_field, general_field, places, sign_text};
ghost use Rattle.awk_format.specs.Fields.{signed_field};
ghost use Rattle.awk_format.specs.Written.{written};

use crate::convert::{push_digits, push_field, push_signed, sign_text};
use crate::directive::Directive;
use crate::output::Output;
use awk_numbers::number::Number;
use awk_numbers::shown::{
    exponential_size, fixed_size, general_size, integral_digits, is_negative, near_integral,
};
use awk_text::Memory;
use std::alloc::Global;

/// The precision where a conversion specification has none.
const USUAL_PLACES: u16 = 6;

/// Adds the field of a number without its fraction, which 64 bits may not hold.
fn push_far(alloc: Global, out: &mut Output, directive: &Directive, x: f64) -> Result<(), Memory>
    ensures { OnOk result (out.new ≡ written out.old (signed_field directive.now (integral_of x))) }
{
    let (minus, shown) = integral_digits(alloc, x)?;
    push_digits(out, directive, minus, &shown)
}

/// Adds the field of a number without its fraction, of any size.
pub fn push_integral(
    alloc: Global,
    out: &mut Output,
    directive: &Directive,
    number: Number,
) -> Result<(), Memory>
    ensures { OnOk result (out.new ≡ written out.old (signed_field directive.now (integral number))) }
{
    match number {
        Number::Whole(n) => push_signed(out, directive, n),
        Number::Real(x) => match near_integral(x) {
            Some(n) => push_signed(out, directive, n),
            None => push_far(alloc, out, directive, x),
        },
    }
}

fn places(directive: &Directive) -> u16
    ensures { result ≡ places directive.now }
{
    directive.precision.unwrap_or(USUAL_PLACES)
}

/// Adds the field of a number with its sign, and its size as it is shown.
fn push_real(
    out: &mut Output,
    directive: &Directive,
    number: Number,
    size: &[u8],
) -> Result<(), Memory>
    ensures { OnOk result (out.new ≡ written out.old (field directive.now directive.now.flags.zero
        (sign_text directive.now.flags (is_sign_negative (double_of number))) size.now)) }
{
    let lead = sign_text(directive.flags, is_negative(number));
    push_field(out, directive, directive.flags.zero, lead, 0, size)
}

/// Adds the field of `f`.
pub fn push_fixed(
    alloc: Global,
    out: &mut Output,
    directive: &Directive,
    number: Number,
) -> Result<(), Memory>
    ensures { OnOk result (out.new ≡ written out.old (fixed_field directive.now (double_of number))) }
{
    let places = u32::from(places(directive));
    let size = fixed_size(alloc, number, places, directive.flags.alternate)?;
    push_real(out, directive, number, &size)
}

/// Adds the field of `e` or `E`: the letter stands before the exponent.
pub fn push_exponential(
    alloc: Global,
    out: &mut Output,
    directive: &Directive,
    letter: u8,
    number: Number,
) -> Result<(), Memory>
    ensures { OnOk result (out.new ≡ written out.old (exponential_field directive.now letter (double_of number))) }
{
    let places = u32::from(places(directive));
    let size = exponential_size(alloc, number, places, letter, directive.flags.alternate)?;
    push_real(out, directive, number, &size)
}

/// Adds the field of `g` or `G`: the letter stands before an exponent.
pub fn push_general(
    alloc: Global,
    out: &mut Output,
    directive: &Directive,
    letter: u8,
    number: Number,
) -> Result<(), Memory>
    ensures { OnOk result (out.new ≡ written out.old (general_field directive.now letter (double_of number))) }
{
    let size = general_size(
        alloc,
        number,
        places(directive),
        letter,
        directive.flags.alternate,
    )?;
    push_real(out, directive, number, &size)
}
