// Numbers as texts by a format of one number, as OFMT and CONVFMT are.
ghost use Rattle.std.specs.Prelude.{[], ◌++◌, ◌≡◌, ◌∷◌, ◌≤◌, ◌⊎◌, IfErr, IfOk, IfSome, IsNone, Err, Ok, false, length};
ghost use Rattle.std.specs.Option.{option_to_list};
ghost use Rattle.awk_numbers.specs.declared.number.Numbers.TheVariants as profile;
ghost use Rattle.awk_format.specs.Formatted.{pieces};
ghost use Rattle.awk_format.specs.NumberTexts.{all_shown, directives, is_of_number, is_usual, number_text, shown};
ghost use Rattle.awk_format.specs.NumberTexts.{formatted_with, is_left, shown_if, shown_real, shown_where, shows_number};
ghost use Rattle.awk_format.specs.NumberTexts.{shows_text};
ghost use Rattle.awk_format.specs.NumberTexts.{standing, value_by, wants_texts};

use crate::directive::{Conversion, read_directive};
use crate::{begins_with_percent, format, plain_length};
use awk_numbers::number::Numbers;
use awk_numbers::texts::is_integral;
use awk_text::Memory;
use awk_text::fault::Fault;
use awk_text::octets::Octets;
use awk_text::value::Value;
use std::alloc::Global;

/// Whether numbers go by this format anyway: whole ones need none, and `%.6g` is how a double has a text.
pub fn is_usual(numbers: Numbers, format: &[u8]) -> bool
    ensures { result ≡ is_usual numbers format.now }
{
    match numbers {
        Numbers::Whole => true,
        Numbers::Double => matches!(format, [b'%', b'.', b'6', b'g']),
    }
}

fn shows_number(conversion: Conversion) -> bool
    ensures { result ≡ shows_number conversion }
{
    !matches!(conversion, Conversion::Text | Conversion::Byte)
}

/// Whether there was a conversion specification, behind the one whose `%` stands before this text, and what is left of
/// the text: none where the format is not of one number.
fn after_directive(found: bool, text: &[u8]) -> Option<(bool, &[u8])>
    ensures some { IfSome result (λ r. is_left r.0 (directives (pieces profile.Double r.1.now))
        ≡ is_left found (directives (pieces profile.Double (0x25 ∷ text.now)))) }
    ensures shorter { IfSome result (λ r. length r.1.now ≤ length text.now) }
    ensures none { IsNone result → is_left found (directives (pieces profile.Double (0x25 ∷ text.now))) ≡ false }
{
    if begins_with_percent(text) {
        return Some((found, &text[1..]));
    }
    let Ok((directive, rest)) = read_directive(Numbers::Double, text) else {
        return None;
    };
    if found || !shows_number(directive.conversion) {
        return None;
    }
    Some((true, rest))
}

/// Whether the format has one conversion specification, which shows a number.
fn is_of_number(format: &[u8]) -> bool
    ensures { result ≡ is_of_number (directives (pieces profile.Double format.now)) }
{
    let mut found = false;
    let mut rest = format;
    while !rest.is_empty() {
        let (_, after) = rest.split_at(plain_length(rest));
        rest = after;
        if let [_, text @ ..] = after {
            let Some((one, others)) = after_directive(found, text) else {
                return false;
            };
            found = one;
            rest = others;
        }
    }
    found
}

/// The text of a number with a fraction by a format of one number.
///
/// Fails with `Fault::Format` where the format is none, and as [`format`](crate::format()) does.
fn number_text(alloc: Global, by: &[u8], x: f64) -> Result<Vec<u8>, Fault>
    ensures ok { IfOk result (λ text. number_text by.now x ≡ Ok text.items) }
    ensures err { IfErr result (λ e. (e ≡ Fault.Memory) ⊎ (number_text by.now x ≡ Err e)) }
{
    if !is_of_number(by) {
        return Err(Fault::Format);
    }
    format(alloc, Numbers::Double, by, &[Value::Real(x)])
}

fn shown_real(alloc: Global, by: &[u8], x: f64) -> Result<Value, Fault>
    ensures ok { IfOk result (λ value. shown_real by.now x ≡ Ok value) }
    ensures err { IfErr result (λ e. (e ≡ Fault.Memory) ⊎ (shown_real by.now x ≡ Err e)) }
{
    if is_integral(x) {
        return Ok(Value::Real(x));
    }
    Ok(Value::Text(Octets::new(number_text(alloc, by, x)?)))
}

/// The value, and of a number with a fraction its text by the format.
fn shown(alloc: Global, by: &[u8], value: &Value) -> Result<Value, Fault>
    ensures ok { IfOk result (λ made. shown by.now value.now ≡ Ok made) }
    ensures err { IfErr result (λ e. (e ≡ Fault.Memory) ⊎ (shown by.now value.now ≡ Err e)) }
{
    match value {
        Value::Real(x) => shown_real(alloc, by, *x),
        Value::Unset | Value::Num(_) | Value::Text(_) | Value::Input(_) => value.copy(alloc),
    }
}

/// The values once more, and of those that are numbers with a fraction their texts by the format, which has one
/// conversion specification of a number. POSIX.1-2017, XCU awk, "Variables and Special Variables", OFMT.
///
/// Fails with `Fault::Format` where the format is none of one number and one of them needs it, with
/// `Fault::OutOfRange` or `Fault::TextTooLong` as [`format`](crate::format()) does, and with `Fault::Memory` where
/// memory is refused.
pub fn all_shown(alloc: Global, by: &[u8], values: &[Value]) -> Result<Vec<Value>, Fault>
    ensures ok { IfOk result (λ made. all_shown by.now values.now ≡ Ok made.items) }
    ensures err { IfErr result (λ e. (e ≡ Fault.Memory) ⊎ (all_shown by.now values.now ≡ Err e)) }
{
    let mut made = Vec::with_capacity(alloc, values.len())?;
    for value in values {
        made.push(shown(alloc, by, value)?)?;
    }
    Ok(made)
}

/// The text of a number by the format, which has one conversion specification of a number: none where the number's own
/// text is meant, since it has no fraction or the format is `%.6g`. POSIX.1-2017, XCU awk, "Expressions in awk",
/// CONVFMT.
///
/// Fails as `all_shown` does.
pub fn number_by(
    alloc: Global,
    numbers: Numbers,
    by: &[u8],
    x: f64,
) -> Result<Option<Octets>, Fault>
    ensures ok { IfOk result (λ made. value_by numbers by.now (Value.Real x) ≡ Ok (standing x made)) }
    ensures err { IfErr result (λ e. (e ≡ Fault.Memory) ⊎ (value_by numbers by.now (Value.Real x) ≡ Err e)) }
{
    if is_usual(numbers, by) || is_integral(x) {
        return Ok(None);
    }
    Ok(Some(Octets::new(number_text(alloc, by, x)?)))
}

fn shows_text(conversion: Conversion) -> bool
    ensures { result ≡ shows_text conversion }
{
    matches!(conversion, Conversion::Text)
}

/// Of what stands behind a `%`: whether it is a conversion specification of a text, unless it is another `%`; and what
/// is left of the text.
fn text_wanted(numbers: Numbers, text: &[u8]) -> Option<(Option<bool>, &[u8])>
    ensures some { IfSome result (λ r. wants_texts (directives (pieces numbers (0x25 ∷ text.now)))
        ≡ option_to_list r.0 ++ wants_texts (directives (pieces numbers r.1.now))) }
    ensures shorter { IfSome result (λ r. length r.1.now ≤ length text.now) }
    ensures none { IsNone result → wants_texts (directives (pieces numbers (0x25 ∷ text.now))) ≡ [] }
{
    if begins_with_percent(text) {
        return Some((None, &text[1..]));
    }
    let Ok((directive, rest)) = read_directive(numbers, text) else {
        return None;
    };
    Some((Some(shows_text(directive.conversion)), rest))
}

/// Of each conversion specification of a format whether it shows a text, up to the first that is none.
fn texts_wanted(alloc: Global, numbers: Numbers, format: &[u8]) -> Result<Vec<bool>, Memory>
    ensures { IfOk result (λ wants. wants.items ≡ wants_texts (directives (pieces numbers format.now))) }
{
    let mut wants = Vec::new(alloc);
    let mut rest = format;
    while !rest.is_empty() {
        let (_, after) = rest.split_at(plain_length(rest));
        rest = after;
        if let [_, text @ ..] = after {
            let Some((wanted, others)) = text_wanted(numbers, text) else {
                return Ok(wants);
            };
            if let Some(is_text) = wanted {
                wants.push(is_text)?;
            }
            rest = others;
        }
    }
    Ok(wants)
}

/// The value, and where a text is wanted, of a number with a fraction its text by the format.
fn shown_if(alloc: Global, is_text: bool, by: &[u8], value: &Value) -> Result<Value, Fault>
    ensures ok { IfOk result (λ made. shown_if is_text by.now value.now ≡ Ok made) }
    ensures err { IfErr result (λ e. (e ≡ Fault.Memory) ⊎ (shown_if is_text by.now value.now ≡ Err e)) }
{
    if is_text {
        shown(alloc, by, value)
    } else {
        Ok(value.copy(alloc)?)
    }
}

/// The values once more, and where texts are wanted, of numbers with a fraction their texts by the format.
fn shown_where(
    alloc: Global,
    by: &[u8],
    wants: &[bool],
    values: &[Value],
) -> Result<Vec<Value>, Fault>
    ensures ok { IfOk result (λ made. shown_where by.now wants.now values.now ≡ Ok made.items) }
    ensures err { IfErr result (λ e. (e ≡ Fault.Memory) ⊎ (shown_where by.now wants.now values.now ≡ Err e)) }
{
    let mut made = Vec::with_capacity(alloc, values.len())?;
    let mut wanted = wants;
    for value in values {
        let (is_text, others) = match wanted {
            [first, others @ ..] => (*first, others),
            [] => (false, wanted),
        };
        made.push(shown_if(alloc, is_text, by, value)?)?;
        wanted = others;
    }
    Ok(made)
}

/// What [`format`](crate::format()) makes, where a number with a fraction that the format shows as a text goes by
/// another format, `by`, of one number, as CONVFMT is.
///
/// Fails with `Fault::Format` where that one is none of one number and a value needs it, and else as
/// [`format`](crate::format()) does.
pub fn format_with(
    alloc: Global,
    numbers: Numbers,
    by: &[u8],
    text: &[u8],
    values: &[Value],
) -> Result<Vec<u8>, Fault>
    ensures ok { IfOk result (λ made. formatted_with numbers by.now text.now values.now ≡ Ok made.items) }
    ensures err { IfErr result
        (λ e. (e ≡ Fault.Memory) ⊎ (formatted_with numbers by.now text.now values.now ≡ Err e)) }
{
    if is_usual(numbers, by) {
        return format(alloc, numbers, text, values);
    }
    let wants = texts_wanted(alloc, numbers, text)?;
    let shown = shown_where(alloc, by, wants.as_slice(), values)?;
    format(alloc, numbers, text, shown.as_slice())
}
