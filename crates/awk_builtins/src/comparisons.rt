// Comparisons of two values: as numbers where both are ones, and else as texts, which go by CONVFMT.
ghost use Rattle.awk_builtins.specs.Shown.{beside, compared_by};
ghost use Rattle.awk_machine.specs.Operators.{compared, of_truth};
ghost use Rattle.awk_store.specs.Kept.{Kept};
ghost use Rattle.awk_text.specs.Lents.{lent_value};
ghost use Rattle.awk_text.specs.Values.{numeric};
ghost use Rattle.std.specs.Prelude.{Err, IfErr, IfOk, IfSome, Ok, false, true, ◌≡◌, ◌⊎◌};

use crate::operators::{compared_lent, compared_values};
use awk_program::{Comparison, Own};
use awk_store::Store;
use awk_store::shown::{as_text, is_usual_by};
use awk_text::fault::Fault;
use awk_text::lent::Lent;
use awk_text::value::{Value, numeric};
use std::alloc::Global;

/// A number with a fraction that is compared with another value: its text by CONVFMT where that is no number.
fn number_beside(alloc: Global, store: &Store, other: &Value, number: f64) -> Result<Value, Fault>
    ensures ok { IfOk result
        (λ made. beside store.now (numeric store.now.numbers other.now) (Value.Real number) ≡ Ok made) }
    ensures err { IfErr result (λ e. (e ≡ Fault.Memory)
        ⊎ (beside store.now (numeric store.now.numbers other.now) (Value.Real number) ≡ Err e)) }
{
    match numeric(store.numbers(), other) {
        Some(_) => Ok(Value::Real(number)),
        None => as_text(alloc, store, Value::Real(number)),
    }
}

/// A value that is compared with another one.
#[inline(always)]
fn value_beside(alloc: Global, store: &Store, other: &Value, value: Value) -> Result<Value, Fault>
    ensures ok { IfOk result (λ made. beside store.now (numeric store.now.numbers other.now) value ≡ Ok made) }
    ensures err { IfErr result (λ e. (e ≡ Fault.Memory)
        ⊎ (beside store.now (numeric store.now.numbers other.now) value ≡ Err e)) }
{
    match value {
        Value::Real(number) => number_beside(alloc, store, other, number),
        plain => Ok(plain),
    }
}

/// Whether the comparison holds of two values. POSIX.1-2017, XCU awk, "Expressions in awk".
///
/// Fails with `Fault::Format` where CONVFMT is needed and is no format of one number, and else as
/// `awk_format::format` does.
pub fn compared(
    alloc: Global,
    store: &Store,
    how: Comparison,
    left: Value,
    right: Value,
) -> Result<bool, Fault>
    ensures ok { IfOk result (λ b. compared_by store.now how left right ≡ Ok (of_truth b)) }
    ensures err { IfErr result (λ e. (e ≡ Fault.Memory) ⊎ (compared_by store.now how left right ≡ Err e)) }
{
    let left = value_beside(alloc, store, &right, left)?;
    let right = value_beside(alloc, store, &left, right)?;
    Ok(compared_values(store.numbers(), how, &left, &right))
}

/// Whether a value is compared as it is, whatever CONVFMT is, beside another one.
#[inline(always)]
fn stays_beside(other: Lent<'_>, value: Lent<'_>) -> bool
    ensures { result ≡ true → (k : Kept) →
        beside k (numeric k.numbers (lent_value other.entry)) (lent_value value.entry) ≡ Ok (lent_value value.entry) }
{
    match value {
        Lent::Real(_) => matches!(other, Lent::Unset | Lent::Num(_) | Lent::Real(_)),
        Lent::Unset | Lent::Num(_) | Lent::Text(_) | Lent::Input(_) => true,
    }
}

/// Whether CONVFMT may have a say in the comparison of two values.
#[inline(always)]
fn asks_convfmt(store: &Store, left: Lent<'_>, right: Lent<'_>) -> bool
    ensures { result ≡ false → (how : Comparison) →
        compared_by store.now how (lent_value left.entry) (lent_value right.entry)
        ≡ Ok (compared store.now.numbers how (lent_value left.entry) (lent_value right.entry)) }
{
    if stays_beside(right, left) {
        if stays_beside(left, right) {
            return false;
        }
    }
    !is_usual_by(store, Own::Convfmt)
}

/// Whether the comparison holds of two values that are lent, where CONVFMT has no say in it. Takes no memory.
#[inline(always)]
pub fn compared_there<'a>(
    store: &Store,
    how: Comparison,
    left: Lent<'a>,
    right: Lent<'a>,
) -> Option<bool>
    ensures { IfSome result
        (λ b. compared_by store.now how (lent_value left.entry) (lent_value right.entry) ≡ Ok (of_truth b)) }
{
    if asks_convfmt(store, left, right) {
        return None;
    }
    Some(compared_lent(store.numbers(), how, left, right))
}
