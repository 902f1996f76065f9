// Texts of operands and of the items of a print that are at hand: none is copied but into the line.
ghost use Rattle.awk_builtins.specs.AtHand.{AreThere, HoldsJoined, HoldsOperands, IsThere};
ghost use Rattle.awk_builtins.specs.Lines.{held};
ghost use Rattle.awk_builtins.specs.Outputs.{to_standard, to_stream};
ghost use Rattle.awk_builtins.specs.Printed.{items, printed};
ghost use Rattle.awk_fields.specs.Rows.{joined};
ghost use Rattle.awk_lib.specs.Written.{written};
ghost use Rattle.awk_machine.specs.Pieces.{At, Doing, Piece};
ghost use Rattle.awk_machine.specs.State.{Given};
ghost use Rattle.awk_program.specs.Program as p;
ghost use Rattle.awk_program.specs.Program.{joins_of};
ghost use Rattle.awk_program.specs.View.{view, view_joined, view_redirection};
ghost use Rattle.awk_program.specs.declared.variables.Own.TheVariants as own;
ghost use Rattle.awk_store.specs.Acts.{Acts, Passes};
ghost use Rattle.awk_store.specs.Kept.{own_text};
ghost use Rattle.awk_store.specs.Wholes.{names_in};
ghost use Rattle.awk_streams.specs.Tables.{Table};
ghost use Rattle.awk_text.specs.Lents.{lent_value};
ghost use Rattle.awk_text.specs.Values.{text_of};
ghost use Rattle.awk_text.specs.declared.value.Value.TheVariants as v;
ghost use Rattle.awk_text.specs.declared.value.Value.{Value as Val};
ghost use Rattle.std.specs.Prelude.{[], IfSome, List, None, Ok, Some, map, true, ◌++◌, ◌∷◌, ◌≡◌};

use crate::at_hand::records::{is_whole, split_where, wants_split};
use crate::at_hand::tests::chosen;
use crate::at_hand::values::{MOST_LEVELS, at_hand};
use crate::line::Line;
use crate::printing::ended;
use awk_program::{Expr, Joined, Own, Redirection};
use awk_store::Store;
use awk_store::shown::is_usual_by;
use awk_streams::halt::Halt;
use awk_text::buffer::Buffer;
use awk_text::lent::Lent;
use awk_text::octets::Octets;
use awk_text::place::Place;
use awk_text::value::Value;
use std::alloc::Global;

/// Adds the text of an item that is at hand, and answers whether it did.
pub(crate) fn add_item(line: &mut Line, store: &Store, x: &Expr) -> bool
    ensures { result ≡ true → (val : Val) × (line.new ≡ written line.old (text_of val))
        × IsThere (λ names. view names x.now) store.now val }
{
    let Some(value) = at_hand(store, chosen(store, x), MOST_LEVELS) else {
        return false;
    };
    let mut buffer = Buffer::new();
    match line.push(value.text(&mut buffer)) {
        Ok(()) => true,
        Err(_) => false,
    }
}

/// Makes the line the texts of operands that are at hand, one after the other, and answers whether it did.
pub(crate) fn join_operands(
    line: &mut Line,
    store: &Store,
    first: &Expr,
    rest: &[Joined<Expr>],
) -> bool
    ensures { result ≡ true → HoldsOperands store.now first.now rest.now line.new }
{
    line.clear();
    if !add_item(line, store, first) {
        return false;
    }
    for next in rest {
        if !add_item(line, store, &next.operand) {
            return false;
        }
    }
    true
}

/// The value of a concatenation whose operands are at hand; `None` stands for refused memory too, and for a text that
/// is too long. Its text is made in the line.
pub fn concat_at_hand(
    alloc: Global,
    line: &mut Line,
    store: &Store,
    first: &Expr,
    rest: &[Joined<Expr>],
) -> Option<Value>
    ensures { IfSome result
        (λ v. IsThere (λ names. p.concat (view names first.now) (joins_of (map (view_joined names) rest.now))) store.now
        v) }
{
    if rest.is_empty() {
        return None;
    }
    if !join_operands(line, store, first, rest) {
        return None;
    }
    let Ok(text) = line.own_text(alloc) else {
        return None;
    };
    Some(Value::Text(text))
}

/// Adds the separator, and behind it the text of an item that is at hand, and answers whether it did.
fn add_next(line: &mut Line, store: &Store, x: &Expr, separator: &[u8]) -> bool
    ensures { result ≡ true → (val : Val) × (line.new ≡ written (written line.old separator.now) (text_of val))
        × IsThere (λ names. view names x.now) store.now val }
{
    let Ok(()) = line.push(separator) else {
        return false;
    };
    add_item(line, store, x)
}

/// Adds the texts of items that are at hand, each behind the separator, and answers whether it did.
pub(crate) fn add_others(line: &mut Line, store: &Store, xs: &[Expr], separator: &[u8]) -> bool
    ensures { result ≡ true → (first : Val) → line.old ≡ held (joined separator.now (first ∷ [])) →
        HoldsJoined store.now xs.now separator.now first line.new }
{
    for x in xs {
        if !add_next(line, store, x, separator) {
            return false;
        }
    }
    true
}

/// Makes the line the texts of items that are at hand with OFS between, and ORS, and answers whether it did.
fn join_items(line: &mut Line, store: &Store, xs: &[Expr]) -> bool
    ensures { result ≡ true → (vals : List Val) × AreThere store.now xs.now vals
        × (line.new ≡ held (joined (own_text store.now own.Ofs) (items store.now vals) ++ own_text store.now own.Ors)) }
{
    let [first, others @ ..] = xs else {
        return false;
    };
    let (mut one, mut two) = (Buffer::new(), Buffer::new());
    let ofs = store.own_text(Own::Ofs, &mut one);
    let ors = store.own_text(Own::Ors, &mut two);
    line.clear();
    if !add_item(line, store, first) {
        return false;
    }
    if !add_others(line, store, others, ofs) {
        return false;
    }
    match line.push(ors) {
        Ok(()) => true,
        Err(_) => false,
    }
}

/// The text of `print` alone, where the whole record is there.
fn record_at_hand(line: &mut Line, store: &Store) -> Option<Octets>
    ensures { IfSome result (λ text. printed store.now [] ≡ Ok text) }
{
    let whole = store.known_whole()?;
    let mut buffer = Buffer::new();
    let ors = store.own_text(Own::Ors, &mut buffer);
    ended(line, whole, ors).ok()
}

/// The text of items that are at hand, or of the whole record where there are none.
fn text_at_hand(line: &mut Line, store: &Store, xs: &[Expr]) -> Option<Octets>
    ensures { IfSome result
        (λ text. (vals : List Val) × AreThere store.now xs.now vals × (printed store.now vals ≡ Ok text)) }
{
    if xs.is_empty() {
        return record_at_hand(line, store);
    }
    if !is_usual_by(store, Own::Ofmt) {
        return None;
    }
    if !join_items(line, store, xs) {
        return None;
    }
    line.take().ok()
}

/// The text that print puts to the standard output, where each item is at hand: so none is copied but into that text.
/// `None` stands for refused memory and for a text that is too long, too.
pub fn printed_at_hand(line: &mut Line, store: &Store, xs: &[Expr]) -> Option<Octets>
    ensures { IfSome result (λ text. (g : Given) (t : Table) (place : Place)
        → Passes g (At (Doing (p.print place (map (view (names_in g)) xs.now) None)) []) (store.now, t)
        (to_standard place text) (store.now, t)) }
{
    text_at_hand(line, store, xs)
}

/// The name of the stream that print puts to, and the text, where the name and each item are at hand; see
/// `printed_at_hand`.
pub fn redirected_at_hand<'a>(
    line: &mut Line,
    store: &'a Store,
    xs: &[Expr],
    to: &'a Redirection<Expr>,
) -> Option<(Lent<'a>, Octets)>
    ensures { IfSome result (λ made. (g : Given) (t : Table) (place : Place)
        → Passes g (At (Doing
        (p.print place (map (view (names_in g)) xs.now) (Some (view_redirection (names_in g) to.now)))) [])
        (store.now, t) (to_stream (view_redirection (names_in g) to.now) (lent_value made.0) made.1)
        (store.now, t)) }
{
    let name = at_hand(store, &to.target, MOST_LEVELS)?;
    let text = text_at_hand(line, store, xs)?;
    Some((name, text))
}

/// Splits the record where one of the expressions wants a field, and rebuilds it where one is `$0`, or where there is
/// none, so that they are at hand.
pub fn split_for_items(store: &mut Store, xs: &[Expr]) -> Result<(), Halt>
    ensures { (g : Given) (t : Table) (q : Piece) → Acts g q (λ u k. q ∷ k) (store.old, t) result (store.new, t) }
{
    let split = xs.iter().any(|x| wants_split(x));
    let whole = xs.is_empty() || xs.iter().any(|x| is_whole(x));
    split_where(store, split, whole)
}
