// Whole arrays: how many elements one has, and `delete array`.
ghost use Rattle.awk_machine.specs.Pieces.{At, Doing, Value_of, give};
ghost use Rattle.awk_machine.specs.State.{Given};
ghost use Rattle.awk_program.specs.Program as p;
ghost use Rattle.awk_program.specs.View.{variable_of};
ghost use Rattle.awk_store.specs.Acts.{Acts};
ghost use Rattle.awk_store.specs.Wholes.{names_in};
ghost use Rattle.awk_streams.specs.Tables.{Table};
ghost use Rattle.awk_streams.specs.Tasks.{goes_on};
ghost use Rattle.std.specs.Prelude.{Ok, []};

use awk_program::Variable;
use awk_store::Store;
use awk_streams::halt::Halt;
use awk_text::value::Value;

/// `length ( array )`: how many elements there are. Takes no memory; `Halt::Memory` stands for more than memory holds.
pub fn count(store: &Store, array: Variable) -> Result<Value, Halt>
    ensures { (g : Given) (t : Table) →
        Acts g (At (Value_of (p.count (variable_of (names_in g) array))) []) give (store.now, t) result (store.now, t) }
{
    match i64::try_from(store.element_count(array)) {
        Ok(count) => Ok(Value::Num(count)),
        Err(_) => Err(Halt::Memory),
    }
}

/// `delete array`: removes all elements. Takes no memory.
pub fn remove_all(store: &mut Store, array: Variable)
    ensures { (g : Given) (t : Table) →
        Acts g (At (Doing (p.delete_all (variable_of (names_in g) array))) []) goes_on (store.old, t) (Ok (tt {0}))
        (store.new, t) }
{
    store.clear(array);
}
