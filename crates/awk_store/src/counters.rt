// Counters, as NR.
ghost use Rattle.awk_machine.specs.Pieces.{Count, Do};
ghost use Rattle.awk_machine.specs.State.{Given};
ghost use Rattle.awk_program.specs.Slots.{name_of};
ghost use Rattle.awk_store.specs.Acts.{Acts};
ghost use Rattle.awk_streams.specs.Tables.{Table};
ghost use Rattle.awk_streams.specs.Tasks.{goes_on};

use crate::Store;
use awk_program::Own;
use awk_streams::halt::{Halt, at};
use awk_text::place::Place;

/// Adds 1 to the number of one of awk's own variables.
#[inline(always)]
pub fn count(store: &mut Store, place: Place, name: Own) -> Result<(), Halt>
    ensures { (g : Given) (t : Table) →
        Acts g (Do (Count place (name_of name))) goes_on (store.old, t) result (store.new, t) }
{
    at(place, store.count(name))
}
