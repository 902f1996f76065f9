// Steps.
ghost use Rattle.awk_machine.specs.Pieces.{Do, Piece, Step};
ghost use Rattle.awk_machine.specs.Statements.{stepping};
ghost use Rattle.awk_program.specs.View.{Names, view_statement};
ghost use Rattle.awk_store.specs.Steps.{Steps};
ghost use Rattle.awk_streams.specs.Tables.{Table};
ghost use Rattle.std.specs.Prelude.{List, if◌then◌else◌, ◌∷◌, ◌≡◌};

use crate::Store;
use awk_program::Statement;
use awk_streams::halt::Halt;

/// Takes a step, where one is left.
pub fn step(bound: u64, store: &mut Store) -> Result<(), Halt>
    ensures { (t : Table) → Steps bound (store.old, t) result (store.new, t) }
{
    if store.step(bound) {
        Ok(())
    } else {
        Err(Halt::Cut)
    }
}

/// Whether a step is taken before the statement: before each that is no block, and before an empty block.
pub fn is_one(x: &Statement) -> bool
    ensures { (names : Names) (k : List Piece) → stepping (view_statement names x.now) k
        ≡ (if result then Do Step ∷ k else k) }
{
    match x {
        Statement::Block(xs) => xs.as_slice().is_empty(),
        _ => true,
    }
}
