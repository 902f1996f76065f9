// Ranges of records.
ghost use Rattle.std.specs.Prelude.{◌≡◌, [], ◌∷◌, false, true, get_or};
ghost use Rattle.awk_machine.specs.Pieces.{At, Choosing};
ghost use Rattle.awk_machine.specs.State.{Given};
ghost use Rattle.awk_program.specs.Program as p;
ghost use Rattle.awk_program.specs.Program.{Expression, Rule};
ghost use Rattle.awk_streams.specs.Tables.{Table};
ghost use Rattle.awk_store.specs.Acts.{Acts};
ghost use Rattle.awk_input.specs.Ranges.{acting, turned_on};
ghost use Rattle.awk_text.specs.Values.{truth};
ghost use Rattle.awk_text.specs.declared.value.Value.{Value};

use awk_store::Store;
use awk_streams::halt::Halt;

/// Turns the range of the rule at this place on where its first pattern holds, and answers whether it
/// is on.
pub fn begin_range(store: &mut Store, rule: usize, holds: bool) -> Result<bool, Halt>
    requires { get_or store.old.on rule false ≡ false }
    ensures { (g : Given) (t : Table) (x : Rule) (y z : Expression) (first : Value) → x.when ≡ p.range y z →
        holds ≡ truth store.old.numbers first →
        Acts g (At (Choosing rule x) (first ∷ [])) (turned_on rule x) (store.old, t) result (store.new, t) }
{
    if !holds {
        return Ok(false);
    }
    store.set_on(rule, true)?;
    Ok(true)
}

/// Turns the range of the rule at this place off where its last pattern holds. Its action is done for
/// the record.
pub fn end_range(store: &mut Store, rule: usize, holds: bool) -> Result<(), Halt>
    requires { get_or store.old.on rule false ≡ true }
    ensures { (g : Given) (t : Table) (x : Rule) (y z : Expression) (last : Value) → x.when ≡ p.range y z →
        holds ≡ truth store.old.numbers last →
        Acts g (At (Choosing rule x) (last ∷ [])) (acting x) (store.old, t) result (store.new, t) }
{
    if !holds {
        return Ok(());
    }
    store.set_on(rule, false)?;
    Ok(())
}
