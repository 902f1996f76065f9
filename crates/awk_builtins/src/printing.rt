// The texts that print, printf and sprintf make.
ghost use Rattle.awk_builtins.specs.Outputs.{to_standard, to_stream};
ghost use Rattle.awk_builtins.specs.Printed as line_spec;
ghost use Rattle.awk_builtins.specs.Printed.{by_ofmt};
ghost use Rattle.awk_builtins.specs.Shown.{formatted_by};
ghost use Rattle.awk_fields.specs.Rows.{joined};
ghost use Rattle.awk_format.specs.Formatted.{formatted};
ghost use Rattle.awk_format.specs.NumberTexts.{all_shown, is_usual};
ghost use Rattle.awk_machine.specs.Builtins.{first};
ghost use Rattle.awk_text.specs.Values.{text_of};
ghost use Rattle.awk_machine.specs.Forms.{listed};
ghost use Rattle.awk_machine.specs.Operators.{limited};
ghost use Rattle.awk_machine.specs.Pieces.{At, Doing, Value_of, give};
ghost use Rattle.awk_machine.specs.State.{Given};
ghost use Rattle.awk_program.specs.Program as p;
ghost use Rattle.awk_program.specs.Program.{Expression, Expressions};
ghost use Rattle.awk_program.specs.declared.builtins.Builtin.TheVariants as b;
ghost use Rattle.awk_program.specs.declared.statements.Redirection.{Redirection};
ghost use Rattle.awk_program.specs.declared.variables.Own.TheVariants as own;
ghost use Rattle.awk_store.specs.Acts.{Acts};
ghost use Rattle.awk_store.specs.Kept.{own_text};
ghost use Rattle.awk_store.specs.Wholes.{Whole};
ghost use Rattle.awk_streams.specs.Tables.{Table};
ghost use Rattle.std.specs.Prelude.{Err, IfErr, IfOk, List, None, Ok, Some, drop, length, reverse, ◌++◌, ◌∷◌, ◌≡◌};
ghost use Rattle.std.specs.Prelude.{◌⊎◌};

use crate::line::Line;
use crate::made::text_at;
use awk_format::format;
use awk_format::number_texts::{all_shown, format_with, is_usual};
use awk_numbers::number::Numbers;
use awk_program::{Own, Redirection};
use awk_store::Store;
use awk_store::shown::is_usual_by;
use awk_streams::halt::{Halt, at};
use awk_text::buffer::Buffer;
use awk_text::fault::Fault;
use awk_text::octets::Octets;
use awk_text::place::Place;
use awk_text::texts::MOST_BYTES;
use awk_text::value::{Value, text_in};
use std::alloc::Global;

/// The text that a format, the first of these values, makes of the others; an absent one is empty.
///
/// Fails as `awk_format::format` does.
fn formatted_usually(alloc: Global, numbers: Numbers, values: &[Value]) -> Result<Vec<u8>, Fault>
    ensures ok { IfOk result (λ text. formatted numbers (text_of (first values.now)) (drop 1 values.now) ≡ Ok text.items) }
    ensures err { IfErr result
        (λ e. (e ≡ Fault.Memory) ⊎ (formatted numbers (text_of (first values.now)) (drop 1 values.now) ≡ Err e)) }
{
    let mut buffer = Buffer::new();
    match values {
        [] => format(alloc, numbers, &[], &[]),
        [first, others @ ..] => format(alloc, numbers, text_in(first, &mut buffer), others),
    }
}

/// The same, where numbers with a fraction that the format shows as texts go by CONVFMT.
fn formatted_by_convfmt(alloc: Global, store: &Store, values: &[Value]) -> Result<Vec<u8>, Fault>
    ensures ok { IfOk result (λ text. formatted_by store.now values.now ≡ Ok text.items) }
    ensures err { IfErr result (λ e. (e ≡ Fault.Memory) ⊎ (formatted_by store.now values.now ≡ Err e)) }
{
    let numbers = store.numbers();
    let (mut first, mut second) = (Buffer::new(), Buffer::new());
    let by = store.own_text(Own::Convfmt, &mut first);
    match values {
        [] => format_with(alloc, numbers, by, &[], &[]),
        [format, others @ ..] => {
            format_with(alloc, numbers, by, text_in(format, &mut second), others)
        }
    }
}

/// The text that sprintf and printf make, by the store's profile: the first value is the format, and an absent one is
/// empty. Numbers with a fraction that it shows as texts go by CONVFMT.
///
/// Fails as `awk_format::number_texts::format_with` does.
fn formatted_by(alloc: Global, store: &Store, values: &[Value]) -> Result<Vec<u8>, Fault>
    ensures ok { IfOk result (λ text. formatted_by store.now values.now ≡ Ok text.items) }
    ensures err { IfErr result (λ e. (e ≡ Fault.Memory) ⊎ (formatted_by store.now values.now ≡ Err e)) }
{
    if is_usual_by(store, Own::Convfmt) {
        return formatted_usually(alloc, store.numbers(), values);
    }
    formatted_by_convfmt(alloc, store, values)
}

/// The text that print makes of its items: their texts with OFS between, and ORS. It is made in the line, and taken out
/// of it.
///
/// Fails with `Fault::TextTooLong` exactly where the text has more than `MOST_BYTES` bytes, and with
/// `Fault::Memory` where memory is refused.
pub fn printed(line: &mut Line, items: &[Value], ofs: &[u8], ors: &[u8]) -> Result<Octets, Fault>
    ensures ok { IfOk result (λ text. limited (joined ofs.now items.now ++ ors.now) ≡ Ok text) }
    ensures err { IfErr result (λ e. (e ≡ Fault.Memory) ⊎ (limited (joined ofs.now items.now ++ ors.now) ≡ Err e)) }
{
    line.join(items, ofs, ors)?;
    line.take()
}

/// The texts of the items with OFS between, or of the whole record where there are none, and then ORS. It is made in
/// the line, and taken out of it; its room serves the next one once `Line::reuse` gives it back.
fn text_of_items(
    alloc: Global,
    line: &mut Line,
    store: &mut Store,
    items: &[Value],
) -> Result<Octets, Fault>
    ensures ok { IfOk result (λ text. line_spec.printed store.old items.now ≡ Ok text) }
    ensures err { IfErr result (λ e. (e ≡ Fault.Memory) ⊎ (line_spec.printed store.old items.now ≡ Err e)) }
    ensures same { store.new ≡ store.old }
{
    if items.is_empty() {
        text_of_record(line, store)
    } else {
        text_by_ofmt(alloc, line, store, items)
    }
}

/// Whether OFMT makes the texts of numbers that they have anyway.
fn is_ofmt_usual(store: &Store) -> bool
    ensures { result ≡ is_usual store.now.numbers (own_text store.now own.Ofmt) }
{
    let mut buffer = Buffer::new();
    let by = store.own_text(Own::Ofmt, &mut buffer);
    is_usual(store.numbers(), by)
}

/// The items, of which numbers with a fraction are the texts that OFMT makes of them.
fn shown_items(alloc: Global, store: &Store, items: &[Value]) -> Result<Vec<Value>, Fault>
    ensures ok { IfOk result (λ made. all_shown (own_text store.now own.Ofmt) items.now ≡ Ok made.items) }
    ensures err { IfErr result
        (λ e. (e ≡ Fault.Memory) ⊎ (all_shown (own_text store.now own.Ofmt) items.now ≡ Err e)) }
{
    let mut buffer = Buffer::new();
    let by = store.own_text(Own::Ofmt, &mut buffer);
    all_shown(alloc, by, items)
}

/// The texts of some items with OFS between, and what ends them. Numbers with a fraction go by OFMT.
fn text_by_ofmt(
    alloc: Global,
    line: &mut Line,
    store: &Store,
    items: &[Value],
) -> Result<Octets, Fault>
    ensures ok { IfOk result (λ text. by_ofmt store.now items.now ≡ Ok text) }
    ensures err { IfErr result (λ e. (e ≡ Fault.Memory) ⊎ (by_ofmt store.now items.now ≡ Err e)) }
{
    if is_ofmt_usual(store) {
        return text_of_values(line, store, items);
    }
    let shown = shown_items(alloc, store, items)?;
    text_of_values(line, store, shown.as_slice())
}

/// The texts of some items with OFS between, and what ends them.
fn text_of_values(line: &mut Line, store: &Store, items: &[Value]) -> Result<Octets, Fault>
    ensures ok { IfOk result
        (λ text. limited (joined (own_text store.now own.Ofs) items.now ++ own_text store.now own.Ors) ≡ Ok text) }
    ensures err { IfErr result
        (λ e. (e ≡ Fault.Memory)
        ⊎ (limited (joined (own_text store.now own.Ofs) items.now ++ own_text store.now own.Ors) ≡ Err e)) }
{
    let (mut first, mut second) = (Buffer::new(), Buffer::new());
    let ofs = store.own_text(Own::Ofs, &mut first);
    let ors = store.own_text(Own::Ors, &mut second);
    printed(line, items, ofs, ors)
}

/// The whole record and what ends it.
fn text_of_record(line: &mut Line, store: &mut Store) -> Result<Octets, Fault>
    ensures ok { IfOk result (λ text. limited (store.old.row.whole ++ own_text store.old own.Ors) ≡ Ok text) }
    ensures err { IfErr result
        (λ e. (e ≡ Fault.Memory) ⊎ (limited (store.old.row.whole ++ own_text store.old own.Ors) ≡ Err e)) }
    ensures same { store.new ≡ store.old }
{
    store.rebuild()?;
    let Some(whole) = store.known_whole() else {
        return Err(Fault::Memory);
    };
    let mut buffer = Buffer::new();
    let ors = store.own_text(Own::Ors, &mut buffer);
    ended(line, whole, ors)
}

/// A text and what ends it, made in the line and taken out of it.
pub fn ended(line: &mut Line, whole: &[u8], ors: &[u8]) -> Result<Octets, Fault>
    ensures ok { IfOk result (λ text. limited (whole.now ++ ors.now) ≡ Ok text) }
    ensures err { IfErr result (λ e. (e ≡ Fault.Memory) ⊎ (limited (whole.now ++ ors.now) ≡ Err e)) }
{
    line.clear();
    line.push(whole)?;
    line.push(ors)?;
    line.take()
}

/// The text that a format and its values make.
fn text_of_format(alloc: Global, store: &Store, values: &[Value]) -> Result<Octets, Fault>
    ensures ok { IfOk result (λ text. formatted_by store.now values.now ≡ Ok text) }
    ensures err { IfErr result (λ e. (e ≡ Fault.Memory) ⊎ (formatted_by store.now values.now ≡ Err e)) }
{
    Ok(Octets::new(formatted_by(alloc, store, values)?))
}

/// What `sprintf ( format , list )` gives by the store's profile: the first value is the format.
pub fn sprintf(alloc: Global, store: &Store, place: Place, values: &[Value]) -> Result<Value, Halt>
    ensures { (g : Given) (t : Table) (xs : Expressions) → length (listed xs) ≡ length values.now
        → Acts g (At (Value_of (p.builtin place b.Sprintf xs)) (reverse values.now)) give (store.now, t) result
        (store.now, t) }
{
    text_at(place, text_of_format(alloc, store, values))
}

/// The text that print puts to the standard output.
pub fn printed_line(
    alloc: Global,
    line: &mut Line,
    store: &mut Store,
    place: Place,
    items: &[Value],
) -> Result<Octets, Halt>
    ensures { (g : Given) (t : Table) (xs : List Expression) → length xs ≡ length items.now
        → Acts g (At (Doing (p.print place xs None)) (reverse items.now)) (to_standard place) (store.old, t) result
        (store.new, t) }
{
    at(place, text_of_items(alloc, line, store, items))
}

/// The text that printf puts to the standard output, by the store's profile: the first value is the format.
pub fn formatted_line(
    alloc: Global,
    store: &Store,
    place: Place,
    values: &[Value],
) -> Result<Octets, Halt>
    ensures { (g : Given) (t : Table) (x : Expression) (xs : List Expression) → length (x ∷ xs) ≡ length values.now
        → Acts g (At (Doing (p.printf place x xs None)) (reverse values.now)) (to_standard place) (store.now, t) result
        (store.now, t) }
{
    at(place, text_of_format(alloc, store, values))
}

/// The text that print puts to the stream of this name.
pub fn printed_for(
    alloc: Global,
    line: &mut Line,
    store: &mut Store,
    place: Place,
    items: &[Value],
    name: &Value,
) -> Result<Octets, Halt>
    ensures { (g : Given) (t : Table) (xs : List Expression) (r : Redirection Expression) → length xs ≡ length items.now
        → Acts g (At (Doing (p.print place xs (Some r))) (name.now ∷ reverse items.now)) (to_stream r name.now)
        (store.old, t) result (store.new, t) }
{
    at(place, text_of_items(alloc, line, store, items))
}

/// The text that printf puts to the stream of this name, by the store's profile: the first value is the format.
pub fn formatted_for(
    alloc: Global,
    store: &Store,
    place: Place,
    values: &[Value],
    name: &Value,
) -> Result<Octets, Halt>
    ensures { (g : Given) (t : Table) (x : Expression) (xs : List Expression) (r : Redirection Expression) →
        length (x ∷ xs) ≡ length values.now
        → Acts g (At (Doing (p.printf place x xs (Some r))) (name.now ∷ reverse values.now)) (to_stream r name.now)
        (store.now, t) result (store.now, t) }
{
    at(place, text_of_format(alloc, store, values))
}
