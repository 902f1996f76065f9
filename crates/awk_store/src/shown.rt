// Values of which a text is wanted, and what CONVFMT makes of them.
ghost use Rattle.awk_format.specs.NumberTexts.{is_usual, standing};
ghost use Rattle.awk_numbers.specs.declared.number.Numbers.TheVariants as profile;
ghost use Rattle.awk_store.specs.Kept.{by_convfmt, own_text};
ghost use Rattle.awk_text.specs.Lents.{lent_value};
ghost use Rattle.awk_text.specs.Values.{text_of};
ghost use Rattle.awk_text.specs.declared.value.Value.TheVariants as v;
ghost use Rattle.std.specs.Prelude.{Err, IfErr, IfOk, IfSome, Ok, true, ◌≡◌, ◌⊎◌};

use crate::Store;
use awk_format::number_texts::{is_usual, number_by};
use awk_numbers::number::Numbers;
use awk_program::Own;
use awk_text::buffer::Buffer;
use awk_text::fault::Fault;
use awk_text::lent::Lent;
use awk_text::octets::Octets;
use awk_text::value::{Value, text_in};
use std::alloc::Global;

/// The text that CONVFMT makes of a number with a fraction: none where that is the number's own. POSIX.1-2017, XCU awk,
/// "Expressions in awk".
///
/// Fails with `Fault::Format` where CONVFMT is needed and is no format of one number, and else as
/// `awk_format::format` does.
pub fn shown_number(alloc: Global, store: &Store, number: f64) -> Result<Option<Octets>, Fault>
    ensures ok { IfOk result (λ made. by_convfmt store.now (v.Real number) ≡ Ok (standing number made)) }
    ensures err { IfErr result (λ e. (e ≡ Fault.Memory) ⊎ (by_convfmt store.now (v.Real number) ≡ Err e)) }
{
    let mut buffer = Buffer::new();
    let by = store.own_text(Own::Convfmt, &mut buffer);
    number_by(alloc, store.numbers(), by, number)
}

/// The value, and of a number with a fraction the text that CONVFMT makes of it. A whole number has its digits,
/// whatever CONVFMT is.
///
/// Fails as [`shown_number`] does.
pub fn as_text(alloc: Global, store: &Store, value: Value) -> Result<Value, Fault>
    ensures ok { IfOk result (λ made. by_convfmt store.now value ≡ Ok made) }
    ensures err { IfErr result (λ e. (e ≡ Fault.Memory) ⊎ (by_convfmt store.now value ≡ Err e)) }
{
    match value {
        Value::Real(number) => match shown_number(alloc, store, number)? {
            Some(text) => Ok(Value::Text(text)),
            None => Ok(Value::Real(number)),
        },
        other => Ok(other),
    }
}

/// `is_usual_by`, of doubles.
fn is_usual_of_doubles(store: &Store, name: Own) -> bool
    ensures { result ≡ true → is_usual profile.Double (own_text store.now name) ≡ true }
{
    match store.own_bytes(name) {
        Some(by) => is_usual(Numbers::Double, by),
        None => false,
    }
}

/// Whether this one of awk's own variables, CONVFMT or OFMT, holds the format that numbers go by anyway; whole numbers
/// alone need not ask.
#[inline(always)]
pub fn is_usual_by(store: &Store, name: Own) -> bool
    ensures { result ≡ true → is_usual store.now.numbers (own_text store.now name) ≡ true }
{
    match store.numbers() {
        Numbers::Whole => true,
        Numbers::Double => is_usual_of_doubles(store, name),
    }
}

/// The value, unless CONVFMT makes another text of it: it is no number with a fraction, or CONVFMT is `%.6g`. Takes no
/// memory.
#[inline(always)]
pub fn unless_shown<'a>(store: &Store, value: Lent<'a>) -> Option<Lent<'a>>
    ensures { IfSome result (λ it. (lent_value it ≡ lent_value value.entry)
        × (by_convfmt store.now (lent_value value.entry) ≡ Ok (lent_value value.entry))) }
{
    if let Lent::Real(_) = value {
        if !is_usual_by(store, Own::Convfmt) {
            return None;
        }
    }
    Some(value)
}

/// The text of a value, lent, unless CONVFMT makes another one. A number's is written into the buffer. Takes no memory.
pub fn usual_text<'a>(store: &Store, value: &'a Value, buffer: &'a mut Buffer) -> Option<&'a [u8]>
    ensures { IfSome result
        (λ text. (text.now ≡ text_of value.now) × (by_convfmt store.now value.now ≡ Ok value.now)) }
{
    if let Value::Real(_) = value {
        if !is_usual_by(store, Own::Convfmt) {
            return None;
        }
    }
    Some(text_in(value, buffer))
}
