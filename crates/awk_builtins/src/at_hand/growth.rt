// A text that grows in its place, by operands that are at hand or that are evaluated.
ghost use Rattle.awk_builtins.specs.Growing.{Follows, Lends};
ghost use Rattle.awk_machine.specs.Forms.{value};
ghost use Rattle.awk_machine.specs.Pieces.{At, Texts_of, give};
ghost use Rattle.awk_machine.specs.State.{Given};
ghost use Rattle.awk_program.specs.Program as p;
ghost use Rattle.awk_program.specs.Program.{Expression, Joins, joins_of};
ghost use Rattle.awk_program.specs.View.{Names, variable_of, view, view_joined, view_target};
ghost use Rattle.awk_store.specs.Acts.{Acts, Passes};
ghost use Rattle.awk_store.specs.Changes.{with_value};
ghost use Rattle.awk_store.specs.Kept as kept;
ghost use Rattle.awk_store.specs.Kept.{Kept};
ghost use Rattle.awk_store.specs.Wholes.{Whole, names_in};
ghost use Rattle.awk_streams.specs.Tables.{Table};
ghost use Rattle.awk_text.specs.Limits.{most_bytes};
ghost use Rattle.awk_text.specs.Values.{text_of};
ghost use Rattle.awk_text.specs.declared.value.Value.TheVariants as v;
ghost use Rattle.awk_text.specs.declared.value.Value.{Value as Val};
ghost use Rattle.std.specs.Prelude.{ℕ, [], IfErr, IfOk, IfSome, List, OnOk, false, length, map};
ghost use Rattle.std.specs.Prelude.{true, ◌++◌, ◌+◌, ◌∷◌, ◌≡◌, ◌≤◌};

use crate::at_hand::tests::chosen;
use crate::at_hand::values::{MOST_LEVELS, at_hand, value_at_hand};
use crate::shown::operand_of;
use awk_program::{Expr, Joined, Target, Variable};
use awk_store::shown::usual_text;
use awk_store::values::into_text;
use awk_store::{Store, is_nf};
use awk_streams::halt::Halt;
use awk_text::Memory;
use awk_text::buffer::Buffer;
use awk_text::fault::Fault;
use awk_text::octets::Octets;
use awk_text::place::Place;
use awk_text::texts::MOST_BYTES;
use awk_text::value::{Value, text_in};
use std::alloc::Global;

/// Adds bytes behind the others, and answers whether it did: there is room.
fn add_bytes(bytes: &[u8], room: usize, texts: &mut Vec<u8>) -> Result<bool, Memory>
    ensures room { IfOk result (λ added. added ≡ true → length texts.new.items ≤ room) }
    ensures text { IfOk result (λ added. added ≡ true → texts.new.items ≡ texts.old.items ++ bytes.now) }
{
    if room < texts.len() + bytes.len() {
        return Ok(false);
    }
    texts.extend_from_slice(bytes)?;
    Ok(true)
}

/// `add_text`, of an operand whose value is made of what is at hand.
#[inline(never)]
fn add_made(store: &Store, e: &Expr, room: usize, texts: &mut Vec<u8>) -> Result<bool, Memory>
    ensures room { IfOk result (λ added. added ≡ true → length texts.new.items ≤ room) }
    ensures text { IfOk result
        (λ added. added ≡ true → (text : List ℕ) × (texts.new.items ≡ texts.old.items ++ text)
        × ((g : Given) (t : Table) → Lends g (store.now, t) (view (names_in g) e.now) text)) }
{
    let Some(value) = value_at_hand(*texts.allocator(), store, operand_of(e)) else {
        return Ok(false);
    };
    let mut buffer = Buffer::new();
    let Some(text) = usual_text(store, &value, &mut buffer) else {
        return Ok(false);
    };
    let added = add_bytes(text, room, texts)?;
    Ok(added)
}

/// Adds the text of an operand behind the others, and answers whether it did: it is at hand, and there is room.
fn add_text(store: &Store, e: &Expr, room: usize, texts: &mut Vec<u8>) -> Result<bool, Memory>
    ensures room { IfOk result (λ added. added ≡ true → length texts.new.items ≤ room) }
    ensures text { IfOk result
        (λ added. added ≡ true → (text : List ℕ) × (texts.new.items ≡ texts.old.items ++ text)
        × ((g : Given) (t : Table) → Lends g (store.now, t) (view (names_in g) e.now) text)) }
{
    let part = chosen(store, e);
    let Some(value) = at_hand(store, part, MOST_LEVELS) else {
        let made = add_made(store, e, room, texts)?;
        return Ok(made);
    };
    let mut buffer = Buffer::new();
    let added = add_bytes(value.text(&mut buffer), room, texts)?;
    Ok(added)
}

/// Makes it the texts of the operands, one after the other, and answers whether it did: each is at hand, and there is
/// room for all.
fn gathered(
    store: &Store,
    rest: &[Joined<Expr>],
    room: usize,
    texts: &mut Vec<u8>,
) -> Result<bool, Memory>
    ensures { IfOk result
        (λ is. is ≡ true → (g : Given) (t : Table) →
        Follows g (store.now, t) (joins_of (map (view_joined (names_in g)) rest.now)) room texts.new.items) }
{
    texts.clear();
    for next in rest {
        if !add_text(store, &next.operand, room, texts)? {
            return Ok(false);
        }
    }
    Ok(true)
}

/// The text of the only operand, where it is a constant.
fn constant(rest: &[Joined<Expr>]) -> Option<&[u8]>
    ensures { IfSome result
        (λ text. (g : Given) (t : Table) (k : Kept) (room : ℕ) → length text.now ≤ room →
        Follows g (k, t) (joins_of (map (view_joined (names_in g)) rest.now)) room text.now) }
{
    let [one] = rest else {
        return None;
    };
    match &one.operand {
        Expr::Text(text) => Some(text.bytes()),
        _ => None,
    }
}

/// Whether this is that variable.
fn is_variable(target: &Target<Expr>, variable: Variable) -> bool
    ensures { result ≡ true → (names : Names) → view_target names target.now ≡ p.variable (variable_of names variable) }
{
    match target {
        Target::Variable(other) => *other == variable,
        _ => false,
    }
}

/// Whether the expression is that variable.
fn reads_variable(e: &Expr, variable: Variable) -> bool
    ensures { result ≡ true → (names : Names) → view names e.now ≡ p.read (p.variable (variable_of names variable)) }
{
    match e {
        Expr::Read(target) => is_variable(target, variable),
        _ => false,
    }
}

/// How many bytes may stand behind the text that a variable holds. NF holds none.
fn room_behind(store: &Store, variable: Variable) -> Option<usize>
    ensures nf { IfSome result (λ room. kept.is_nf variable ≡ false) }
    ensures room { IfSome result
        (λ room. (text : List ℕ) × (kept.value store.now variable ≡ v.Text text) × (length text + room ≤ most_bytes)) }
{
    if is_nf(variable) {
        return None;
    }
    match store.value(variable)? {
        Value::Text(text) => MOST_BYTES.checked_sub(text.bytes().len()),
        Value::Unset | Value::Num(_) | Value::Real(_) | Value::Input(_) => None,
    }
}

/// Sets a variable to a text with more behind it, which lies where the text did unless that is shared.
fn set_longer(
    alloc: Global,
    store: &mut Store,
    to: Variable,
    text: Octets,
    more: &[u8],
) -> Result<(), Halt>
    ensures ok { OnOk result (store.new ≡ with_value to (v.Text (text ++ more.now)) store.old) }
    ensures err { IfErr result (λ h. h ≡ Halt.Memory) }
    ensures used { store.new.used ≡ store.old.used }
{
    let mut bytes = text.into_bytes(alloc)?;
    bytes.extend_from_slice(more)?;
    store.set(to, Value::Text(Octets::new(bytes)));
    Ok(())
}

/// Adds bytes behind the text of a variable, in its place. It holds a text from now on.
fn grow(alloc: Global, store: &mut Store, to: Variable, more: &[u8]) -> Result<(), Halt>
    ensures ok { OnOk result
        (store.new ≡ with_value to (v.Text (text_of (kept.value store.old to) ++ more.now)) store.old) }
    ensures err { IfErr result (λ h. h ≡ Halt.Memory) }
    ensures used { store.new.used ≡ store.old.used }
{
    let Ok(text) = into_text(alloc, store.replace_value(to, Value::Unset)) else {
        return Err(Halt::Memory);
    };
    set_longer(alloc, store, to, text, more)
}

/// Does the whole of `to = first rest..` where `first` reads `to` too, which holds a text, and each of the others is at
/// hand: then the text grows in its place, so that many such assignments take time as what they add. Else it does
/// nothing, and answers `false`; so also where the text would be too long, for the fault has its place in the general
/// way.
///
/// Fails with `Halt::Memory` alone, where memory is refused.
fn grown(
    alloc: Global,
    store: &mut Store,
    texts: &mut Vec<u8>,
    to: Variable,
    first: &Expr,
    rest: &[Joined<Expr>],
) -> Result<bool, Halt>
    ensures done { IfOk result (λ is. is ≡ true → (x : Val) × ((g : Given) (t : Table) (place : Place) → Passes g
        (value (p.assign place (p.variable (variable_of (names_in g) to))
        (p.concat (view (names_in g) first.now) (joins_of (map (view_joined (names_in g)) rest.now)))))
        (store.old, t) (give x) (store.new, t))) }
    ensures not_done { IfOk result (λ is. is ≡ false → store.new ≡ store.old) }
    ensures err { IfErr result (λ h. h ≡ Halt.Memory) }
    ensures used { store.new.used ≡ store.old.used }
{
    if !reads_variable(operand_of(first), to) {
        return Ok(false);
    }
    let Some(room) = room_behind(store, to) else {
        return Ok(false);
    };
    if let Some(text) = constant(rest) {
        if room < text.len() {
            return Ok(false);
        }
        grow(alloc, store, to, text)?;
        return Ok(true);
    }
    let found = gathered(store, rest, room, texts)?;
    if !found {
        return Ok(false);
    }
    grow(alloc, store, to, texts.as_slice())?;
    Ok(true)
}

/// Does the whole of `target = value` where the value is the text of the target with more behind it, all at hand: then
/// that text grows in its place, so that many such assignments take time as what they add. Else it does nothing, and
/// answers `false`. What is to come behind it is gathered in `texts`, a buffer that is kept.
///
/// Fails with `Halt::Memory` alone, where memory is refused.
pub fn assigned(
    alloc: Global,
    store: &mut Store,
    texts: &mut Vec<u8>,
    target: &Target<Expr>,
    x: &Expr,
) -> Result<bool, Halt>
    ensures done { IfOk result (λ is. is ≡ true → (val : Val) × ((g : Given) (t : Table) (place : Place) → Passes g
        (value (p.assign place (view_target (names_in g) target.now) (view (names_in g) x.now))) (store.old, t)
        (give val) (store.new, t))) }
    ensures not_done { IfOk result (λ is. is ≡ false → store.new ≡ store.old) }
    ensures err { IfErr result (λ h. h ≡ Halt.Memory) }
    ensures used { store.new.used ≡ store.old.used }
{
    let Target::Variable(to) = target else {
        return Ok(false);
    };
    match x {
        Expr::Concat(first, rest) => grown(alloc, store, texts, *to, first.get(), rest.as_slice()),
        _ => Ok(false),
    }
}

/// The fewest bytes of a text that grows so: to copy fewer takes no longer.
const LEAST_GROWN: usize = 256;

/// The text of a variable once more, and the operands that come behind it.
#[derive(Drop)]
pub struct Longer<'a> {
    pub text: Octets,
    pub rest: &'a [Joined<Expr>],
}

/// Whether a variable holds a text that is long.
fn is_long(store: &Store, variable: Variable) -> bool {
    match store.value(variable) {
        Some(Value::Text(text)) => LEAST_GROWN <= text.bytes().len(),
        _ => false,
    }
}

/// The long text that a variable holds, once more: it is shared. NF holds none.
fn long_text(store: &mut Store, variable: Variable) -> Option<Octets>
    ensures nf { IfSome result (λ text. kept.is_nf variable ≡ false) }
    ensures text { IfSome result (λ text. kept.value store.old variable ≡ v.Text text) }
    ensures same { store.new ≡ store.old }
{
    if is_nf(variable) {
        return None;
    }
    if !is_long(store, variable) {
        return None;
    }
    match store.share(variable) {
        Ok(Value::Text(text)) => Some(text),
        _ => None,
    }
}

/// What the value of an expression begins with, where that is `to operand ..` and `to` holds a long text: this text,
/// and the operands, which are to be evaluated.
pub fn text_to_grow<'a>(store: &mut Store, to: Variable, x: &'a Expr) -> Option<Longer<'a>>
    ensures nf { IfSome result (λ y. kept.is_nf to ≡ false) }
    ensures same { store.new ≡ store.old }
    ensures begins { IfSome result
        (λ y. (g : Given) (t : Table) → Passes g (value (view (names_in g) x.now)) (store.old, t)
        (λ k. At (Texts_of (joins_of (map (view_joined (names_in g)) y.rest.now))) (v.Text y.text ∷ []) ∷ k)
        (store.old, t)) }
{
    let Expr::Concat(first, rest) = x else {
        return None;
    };
    if !reads_variable(operand_of(first.get()), to) {
        return None;
    }
    let text = long_text(store, to)?;
    Some(Longer {
        text,
        rest: rest.as_slice(),
    })
}

/// One operand more of a concatenation, whose text so far is this one with more behind it.
pub fn join_behind(
    place: Place,
    text: &Octets,
    more: &mut Vec<u8>,
    operand: &Value,
) -> Result<(), Halt>
    ensures { (g : Given) (w : Whole) (x : Expression) (xs : Joins) →
        Acts g (At (Texts_of (p.join place x xs)) (operand.now ∷ v.Text (text.now ++ more.old.items) ∷ []))
        (λ (u : Unit {0}) k. At (Texts_of xs) (v.Text (text.now ++ more.new.items) ∷ []) ∷ k) w result w }
{
    let mut buffer = Buffer::new();
    let bytes = text_in(operand, &mut buffer);
    let Some(room) = MOST_BYTES.checked_sub(text.bytes().len()) else {
        return Err(Halt::at(place, Fault::TextTooLong));
    };
    if room < more.len() + bytes.len() {
        return Err(Halt::at(place, Fault::TextTooLong));
    }
    more.extend_from_slice(bytes)?;
    Ok(())
}

/// Sets a variable to a text with more behind it. Where the variable holds that text too, it grows in its place: so
/// many such assignments take time as what they add.
pub fn set_behind(
    alloc: Global,
    store: &mut Store,
    to: Variable,
    text: Octets,
    more: &[u8],
) -> Result<(), Halt>
    ensures ok { OnOk result (store.new ≡ with_value to (v.Text (text ++ more.now)) store.old) }
    ensures err { IfErr result (λ h. h ≡ Halt.Memory) }
    ensures used { store.new.used ≡ store.old.used }
{
    // What the variable holds goes first: so the text is not shared where it is that one.
    store.set(to, Value::Unset);
    set_longer(alloc, store, to, text, more)
}
