// Values as conversion specifications show them.
ghost use Rattle.std.specs.Prelude.{◌≡◌, ◌+◌, ◌++◌, ◌-◌, ◌⊎◌, [], false, length, map, replicate, OnOk, IfErr};
ghost use Rattle.std.specs.Int.Digits.{digits_of};
ghost use Rattle.awk_format.specs.Fields.{bits, character, code_of, converted, cut, field, hex_field, least_digits};
ghost use Rattle.awk_format.specs.Fields.{number_field, octal_field, sign_text, signed_field, unsigned_field};
ghost use Rattle.awk_format.specs.Written.{written, Writes};

use crate::digits::{MOST_DIGITS, digits};
use crate::directive::{Conversion, Directive, Flags};
use crate::output::Output;
use crate::reals::{push_exponential, push_fixed, push_general, push_integral};
use awk_numbers::number::{Number, Numbers};
use awk_numbers::shown::bits_of;
use awk_text::Memory;
use awk_text::arithmetic::clamped;
use awk_text::buffer::Buffer;
use awk_text::fault::Fault;
use awk_text::numeral::looks_in;
use awk_text::value::{Value, number_of, text_in};
use std::alloc::Global;

/// Adds a field: the sign or prefix, zeros, and the rest, filled to the width.
pub(crate) fn push_field(
    out: &mut Output,
    directive: &Directive,
    zero_fill: bool,
    lead: &[u8],
    zeros: usize,
    rest: &[u8],
) -> Result<(), Memory>
    ensures { OnOk result (out.new ≡ written out.old
        (field directive.now zero_fill lead.now (replicate zeros 48 ++ rest.now))) }
{
    let fill = directive
        .width
        .saturating_sub(lead.len())
        .saturating_sub(zeros)
        .saturating_sub(rest.len());
    if directive.flags.left {
        out.push(lead)?;
        out.fill(b'0', zeros)?;
        out.push(rest)?;
        out.fill(b' ', fill)
    } else if zero_fill {
        out.push(lead)?;
        out.fill(b'0', fill)?;
        out.fill(b'0', zeros)?;
        out.push(rest)
    } else {
        out.fill(b' ', fill)?;
        out.push(lead)?;
        out.fill(b'0', zeros)?;
        out.push(rest)
    }
}

/// Adds the field of a number, with at least so many digits.
fn push_number(
    out: &mut Output,
    directive: &Directive,
    lead: &[u8],
    least: usize,
    shown: &[u8],
) -> Result<(), Memory>
    ensures { OnOk result (out.new ≡ written out.old
        (number_field directive.now lead.now (replicate (least - length shown.now) 48 ++ shown.now))) }
{
    let zero_fill = directive.flags.zero && directive.precision.is_none();
    push_field(
        out,
        directive,
        zero_fill,
        lead,
        least.saturating_sub(shown.len()),
        shown,
    )
}

/// What stands before a number that has a minus or none.
pub(crate) fn sign_text(flags: Flags, minus: bool) -> &'static [u8]
    ensures { result.now ≡ sign_text flags minus }
{
    if minus {
        b"-"
    } else if flags.plus {
        b"+"
    } else if flags.space {
        b" "
    } else {
        &[]
    }
}

fn least_digits(directive: &Directive) -> usize
    ensures { result ≡ least_digits directive.now }
{
    usize::from(directive.precision.unwrap_or(1))
}

/// Adds the field of a whole number that has a minus or none, of its digits, which are none for 0.
pub(crate) fn push_digits(
    out: &mut Output,
    directive: &Directive,
    minus: bool,
    shown: &[u8],
) -> Result<(), Memory>
    ensures { OnOk result (out.new ≡ written out.old (number_field directive.now (sign_text directive.now.flags minus)
        (replicate (least_digits directive.now - length shown.now) 48 ++ shown.now))) }
{
    push_number(
        out,
        directive,
        sign_text(directive.flags, minus),
        least_digits(directive),
        shown,
    )
}

/// The digits of a number, none for 0. They lie in the buffer.
fn own_digits(buffer: &mut itoa::Buffer, number: u64) -> &[u8]
    ensures { result.now ≡ map (λ d. 48 + d) (digits_of 10 number) }
{
    if number == 0 {
        &[]
    } else {
        buffer.format(number).as_bytes()
    }
}

pub(crate) fn push_signed(
    out: &mut Output,
    directive: &Directive,
    number: i64,
) -> Result<(), Memory>
    ensures { OnOk result (out.new ≡ written out.old (signed_field directive.now number)) }
{
    let mut buffer = itoa::Buffer::new();
    let shown = own_digits(&mut buffer, number.unsigned_abs());
    push_digits(out, directive, number < 0, shown)
}

fn push_unsigned(out: &mut Output, directive: &Directive, bits: u64) -> Result<(), Memory>
    ensures { OnOk result (out.new ≡ written out.old (unsigned_field directive.now bits)) }
{
    let mut buffer = itoa::Buffer::new();
    let shown = if bits == 0 {
        &[]
    } else {
        buffer.format(bits).as_bytes()
    };
    push_number(out, directive, &[], least_digits(directive), shown)
}

fn push_octal(out: &mut Output, directive: &Directive, bits: u64) -> Result<(), Memory>
    ensures { OnOk result (out.new ≡ written out.old (octal_field directive.now bits)) }
{
    let mut buffer = [0; MOST_DIGITS];
    let shown = if bits == 0 {
        &[]
    } else {
        digits(&mut buffer, 8, false, bits)
    };
    let mut least = least_digits(directive);
    if directive.flags.alternate {
        least = least.max(shown.len() + 1);
    }
    push_number(out, directive, &[], least, shown)
}

fn push_hex(out: &mut Output, directive: &Directive, upper: bool, bits: u64) -> Result<(), Memory>
    ensures { OnOk result (out.new ≡ written out.old (hex_field directive.now upper bits)) }
{
    let mut buffer = [0; MOST_DIGITS];
    let shown = if bits == 0 {
        &[]
    } else {
        digits(&mut buffer, 16, upper, bits)
    };
    let lead: &[u8] = if !directive.flags.alternate || bits == 0 {
        &[]
    } else if upper {
        b"0X"
    } else {
        b"0x"
    };
    push_number(out, directive, lead, least_digits(directive), shown)
}

fn push_text(out: &mut Output, directive: &Directive, text: &[u8]) -> Result<(), Memory>
    ensures { OnOk result (out.new ≡ written out.old (field directive.now false [] text.now)) }
{
    push_field(out, directive, false, &[], 0, text)
}

fn cut(text: &[u8], precision: Option<u16>) -> &[u8]
    ensures { result.now ≡ cut precision text.now }
{
    match precision {
        Some(most) => &text[..text.len().min(usize::from(most))],
        None => text,
    }
}

/// The number of a value that `c` shows as a byte.
fn code_of(numbers: Numbers, value: &Value) -> Option<i64>
    ensures { result ≡ code_of numbers value.now }
{
    match value {
        Value::Num(number) => Some(*number),
        Value::Real(number) => Some(clamped(Number::Real(*number))),
        Value::Input(text) => Some(clamped(looks_in(numbers, text.bytes())?)),
        Value::Unset | Value::Text(_) => None,
    }
}

fn push_byte(
    out: &mut Output,
    numbers: Numbers,
    directive: &Directive,
    value: &Value,
) -> Result<(), Memory>
    ensures { OnOk result (out.new ≡ written out.old (field directive.now false [] (character numbers value.now))) }
{
    match code_of(numbers, value) {
        Some(number) => push_text(out, directive, &[number.rem_euclid(256) as u8]),
        None => {
            let mut buffer = Buffer::new();
            push_text(out, directive, cut(text_in(value, &mut buffer), Some(1)))
        }
    }
}

/// The number of a value without its fraction, as 64 bits.
///
/// Fails with `Fault::OutOfRange` where it is outside of -2^63 to 2^64 - 1.
fn bits(numbers: Numbers, value: &Value) -> Result<u64, Fault>
    ensures { result ≡ bits numbers value.now }
{
    Ok(bits_of(number_of(numbers, value)?)?)
}

/// Adds the value as the conversion specification shows it.
///
/// Fails with `Fault::OutOfRange` where a number is wanted and the value's is out of range, and
/// with `Fault::Memory` where memory is refused.
pub fn convert(
    alloc: Global,
    out: &mut Output,
    numbers: Numbers,
    directive: &Directive,
    value: &Value,
) -> Result<(), Fault>
    ensures ok { OnOk result (Writes out.old (converted numbers directive.now value.now) out.new) }
    ensures err { IfErr result (λ e. (e ≡ Fault.Memory) ⊎ (converted numbers directive.now value.now ≡ Err e)) }
{
    match directive.conversion {
        Conversion::Signed => push_integral(alloc, out, directive, number_of(numbers, value)?)?,
        Conversion::Unsigned => push_unsigned(out, directive, bits(numbers, value)?)?,
        Conversion::Octal => push_octal(out, directive, bits(numbers, value)?)?,
        Conversion::LowerHex => push_hex(out, directive, false, bits(numbers, value)?)?,
        Conversion::UpperHex => push_hex(out, directive, true, bits(numbers, value)?)?,
        Conversion::Text => {
            let mut buffer = Buffer::new();
            push_text(
                out,
                directive,
                cut(text_in(value, &mut buffer), directive.precision),
            )?;
        }
        Conversion::Byte => push_byte(out, numbers, directive, value)?,
        Conversion::Fixed => push_fixed(alloc, out, directive, number_of(numbers, value)?)?,
        Conversion::LowerExponential => {
            push_exponential(alloc, out, directive, b'e', number_of(numbers, value)?)?;
        }
        Conversion::UpperExponential => {
            push_exponential(alloc, out, directive, b'E', number_of(numbers, value)?)?;
        }
        Conversion::LowerGeneral => push_general(
            alloc,
            out,
            directive,
            b'e',
            number_of(numbers, value)?,
        )?,
        Conversion::UpperGeneral => push_general(
            alloc,
            out,
            directive,
            b'E',
            number_of(numbers, value)?,
        )?,
    }
    Ok(())
}
