// The record is split, or rebuilt, where that brings what an expression wants to hand: plain awk does not see it.
ghost use Rattle.awk_machine.specs.Pieces.{Piece};
ghost use Rattle.awk_machine.specs.State.{Given};
ghost use Rattle.awk_store.specs.Acts.{Acts};
ghost use Rattle.awk_streams.specs.Tables.{Table};
ghost use Rattle.std.specs.Prelude.{◌∷◌, ◌≡◌};

use awk_numbers::number::Number;
use awk_program::{Expr, Joined, Target};
use awk_store::{Store, is_nf};
use awk_streams::halt::Halt;

/// Whether an expression is the constant 0.
#[inline(always)]
fn is_zero(e: &Expr) -> bool {
    matches!(e, Expr::Number(Number::Whole(0)))
}

/// What is evaluated for an operand of which a text is wanted; any other expression is itself.
#[inline(always)]
fn evaluated(e: &Expr) -> &Expr {
    match e {
        Expr::AsText(_, x) => x.get(),
        _ => e,
    }
}

/// Whether an expression is a field other than `$0`.
fn is_field(e: &Expr) -> bool {
    match evaluated(e) {
        Expr::Read(Target::Field(_, number)) => !is_zero(number.get()),
        _ => false,
    }
}

/// Whether an expression is `$0`.
pub(crate) fn is_whole(e: &Expr) -> bool {
    match evaluated(e) {
        Expr::Read(Target::Field(_, number)) => is_zero(number.get()),
        _ => false,
    }
}

/// Rebuilds the whole text of the record where that is wanted: plain awk does not see it.
fn rebuild_where(store: &mut Store, wanted: bool) -> Result<(), Halt>
    ensures plays { (g : Given) (t : Table) (q : Piece) → Acts g q (λ u k. q ∷ k) (store.old, t) result (store.new, t) }
    ensures same { store.new ≡ store.old }
{
    if !wanted {
        return Ok(());
    }
    store.rebuild()?;
    Ok(())
}

/// Splits the record and rebuilds its whole text, where that is wanted: plain awk does not see it.
pub(crate) fn split_where(store: &mut Store, split: bool, whole: bool) -> Result<(), Halt>
    ensures { (g : Given) (t : Table) (q : Piece) → Acts g q (λ u k. q ∷ k) (store.old, t) result (store.new, t) }
{
    rebuild_where(store, whole)?;
    if !split {
        return Ok(());
    }
    let Ok(_) = store.field_count() else {
        return Err(Halt::Memory);
    };
    Ok(())
}

/// Makes the record ready for an expression that is a field: split, or for `$0` rebuilt. Then the field is at hand.
pub fn split_for(store: &mut Store, e: &Expr) -> Result<(), Halt>
    ensures { (g : Given) (t : Table) (q : Piece) → Acts g q (λ u k. q ∷ k) (store.old, t) result (store.new, t) }
{
    split_where(store, is_field(e), is_whole(e))
}

/// Whether the first of these is a field.
fn begins_with_field(xs: &[Expr]) -> bool {
    match xs {
        [x, ..] => is_field(x),
        [] => false,
    }
}

/// Whether one of operands is a field.
fn joins_field(first: &Expr, rest: &[Joined<Expr>]) -> bool {
    is_field(first) || rest.iter().any(|next| is_field(&next.operand))
}

/// Whether what is read is a field or NF.
#[inline(always)]
fn reads_field(target: &Target<Expr>) -> bool {
    match target {
        Target::Variable(variable) => is_nf(*variable),
        Target::Field(_, number) => !is_zero(number.get()),
        Target::Element(_, _, _) => false,
    }
}

/// Whether an expression is a chain or a call that begins with a field, or operands of which one is a field.
#[inline(never)]
fn made_of_field(e: &Expr) -> bool {
    match evaluated(e) {
        Expr::Read(target) => reads_field(target),
        Expr::Chain(x, _) => is_field(x.get()),
        Expr::Builtin(_, _, args) => begins_with_field(args.as_slice()),
        Expr::Concat(first, rest) => joins_field(first.get(), rest.as_slice()),
        _ => false,
    }
}

/// Whether an expression is a field or NF, or made of a field: such are at hand, or their operands are, once the record
/// is split. What is met most stands in line, since that is asked of each assignment and test of a record that is not
/// split.
#[inline(always)]
pub(crate) fn wants_split(e: &Expr) -> bool {
    match e {
        Expr::Read(target) => reads_field(target),
        Expr::Number(_) | Expr::Text(_) => false,
        _ => made_of_field(e),
    }
}

/// Whether one of subscripts is at hand only once the record is split.
#[inline(never)]
fn one_wants_split(keys: &[Expr]) -> bool {
    keys.iter().any(|key| wants_split(key))
}

/// Whether a subscript of an element is at hand only once the record is split.
#[inline(always)]
pub(crate) fn is_keyed_by_field(target: &Target<Expr>) -> bool {
    match target {
        Target::Element(_, _, keys) => one_wants_split(keys.as_slice()),
        Target::Variable(_) | Target::Field(_, _) => false,
    }
}

/// Whether the record is not split yet.
#[inline(always)]
pub(crate) fn is_unsplit(store: &Store) -> bool {
    store.known_field_count().is_none()
}

/// Splits the record: plain awk does not see it. It stands out of line, since that is once a record.
#[inline(never)]
pub(crate) fn split_record(store: &mut Store) -> Result<(), Halt>
    ensures { (g : Given) (t : Table) (q : Piece) → Acts g q (λ u k. q ∷ k) (store.old, t) result (store.new, t) }
{
    split_where(store, true, false)
}
