// `next`, `nextfile` and `exit`.
ghost use Rattle.awk_machine.specs.Pieces.{At, Doing};
ghost use Rattle.awk_machine.specs.State.{Given};
ghost use Rattle.awk_machine.specs.Statements.{skipping, to_records};
ghost use Rattle.awk_program.specs.Program as p;
ghost use Rattle.awk_program.specs.Program.{Expression};
ghost use Rattle.awk_program.specs.declared.jumps.Jump.TheVariants as j;
ghost use Rattle.awk_store.specs.Acts.{Acts};
ghost use Rattle.awk_store.specs.Jumps.{Jumps};
ghost use Rattle.awk_streams.specs.Tables.{Table};
ghost use Rattle.std.specs.Prelude.{None, Some, [], ◌∷◌};

use crate::numbers::exit_status;
use crate::{Phase, Store};
use awk_streams::halt::Halt;
use awk_text::fault::Fault;
use awk_text::place::Place;
use awk_text::value::Value;

/// `next`: all calls end, and the record is done with. Outside the rules for records it is a fault. Takes no memory.
pub fn next(store: &mut Store, place: Place) -> Halt
    ensures { (g : Given) (t : Table) →
        Jumps g (At (Doing (p.jump (j.Next place))) []) (store.old, t) result (store.new, t) }
{
    match store.phase() {
        Phase::Ruling => {
            store.unwind();
            Halt::Next
        }
        _ => Halt::Fault(Fault::NextOutside, place),
    }
}

/// `nextfile`: all calls end, and what the main input reads is to be done with before the next record. Outside the
/// rules for records it is a fault. Takes no memory.
pub fn next_file(store: &mut Store, place: Place) -> Result<(), Halt>
    ensures { (g : Given) (t : Table) →
        Acts g (At (Doing (p.jump (j.NextFile place))) []) (λ u k. skipping store.new.main.current (to_records k))
        (store.old, t) result (store.new, t) }
{
    match store.phase() {
        Phase::Ruling => {
            store.unwind();
            Ok(())
        }
        _ => Err(Halt::Fault(Fault::NextOutside, place)),
    }
}

/// `exit` without a status: all calls end, and what is left are the actions of END. Takes no memory.
pub fn exit(store: &mut Store) -> Halt
    ensures { (g : Given) (t : Table) (place : Place) →
        Jumps g (At (Doing (p.exit place None)) []) (store.old, t) result (store.new, t) }
{
    store.unwind();
    Halt::Exit
}

/// `exit` with a status. Takes no memory.
pub fn exit_with(store: &mut Store, place: Place, value: &Value) -> Halt
    ensures { (g : Given) (t : Table) (x : Expression) →
        Jumps g (At (Doing (p.exit place (Some x))) (value.now ∷ [])) (store.old, t) result (store.new, t) }
{
    match exit_status(store.numbers(), value) {
        Ok(status) => {
            store.unwind();
            store.set_status(status);
            Halt::Exit
        }
        Err(fault) => Halt::at(place, fault),
    }
}
