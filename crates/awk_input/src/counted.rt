// A record is set and counted.
ghost use Rattle.std.specs.Prelude.{◌≡◌, List};
ghost use Rattle.awk_machine.specs.Getline.{counting};
ghost use Rattle.awk_machine.specs.Pieces.{Piece, give};
ghost use Rattle.awk_machine.specs.State.{Given};
ghost use Rattle.awk_streams.specs.Tables.{Table};
ghost use Rattle.awk_store.specs.Acts.{Acts, Passes};
ghost use Rattle.awk_store.specs.Spots.{meant};
ghost use Rattle.awk_store.specs.Wholes.{Whole, names_in};
ghost use Rattle.awk_input.specs.Gots as spec;
ghost use Rattle.awk_input.specs.Gots.{Counts, IsGot, names_of};

use awk_program::Own;
use awk_store::counters::count;
use awk_store::targets::replace;
use awk_store::{Spot, Store};
use awk_streams::halt::Halt;
use awk_streams::streams::Streams;
use awk_text::place::Place;
use awk_text::value::Value;
use std::alloc::Global;

/// Which of awk's variables count a record: those of the main input, of a command, or none.
#[derive(Clone, Copy, PartialEq, Eq, Drop)]
pub enum Counted {
    Nothing,
    Nr,
    NrAndFnr,
}

/// Adds 1 to NR and to FNR.
#[inline(always)]
pub fn count_both(store: &mut Store, place: Place) -> Result<(), Halt>
    ensures { (g : Given) (t : Table) (p : Piece) (old : Whole) (to : List Piece → List Piece) →
        Passes g p old (λ k. counting place (names_of spec.both) (to k)) (store.old, t)
        → Counts g p old to result (store.new, t) }
{
    count(store, place, Own::Nr)?;
    count(store, place, Own::Fnr)
}

/// Adds 1 to each of these variables, NR first.
pub fn count_all(store: &mut Store, place: Place, counters: Counted) -> Result<(), Halt>
    ensures { (g : Given) (t : Table) (p : Piece) (old : Whole) (to : List Piece → List Piece) →
        Passes g p old (λ k. counting place (names_of counters) (to k)) (store.old, t)
        → Counts g p old to result (store.new, t) }
{
    match counters {
        Counted::Nothing => Ok(()),
        Counted::Nr => count(store, place, Own::Nr),
        Counted::NrAndFnr => count_both(store, place),
    }
}

fn is_record(value: &Value) -> bool
    ensures { result ≡ spec.is_record value.now }
{
    matches!(value, Value::Input(_))
}

/// What getline sets to the record that it reads, and what counts that.
#[derive(Drop)]
pub struct Getline {
    pub place: Place,
    pub target: Spot,
    pub counters: Counted,
}

/// Sets the target to a record that was read, and adds 1 to each of the variables that count it; answers 1. What came
/// in place of a record is the answer itself. The next record is written where the text lay that the target held
/// before.
#[inline(always)]
pub fn set_record(
    alloc: Global,
    store: &mut Store,
    streams: &mut Streams,
    getline: Getline,
    answer: Value,
) -> Result<Value, Halt>
    ensures task { (g : Given) (p : Piece) (to : List Piece → List Piece) →
        IsGot g p getline.place (meant (names_in g) getline.target) (names_of getline.counters) answer to
        → Acts g p (λ v k. give v (to k)) (store.old, streams.old) result (store.new, streams.new) }
    ensures same { streams.new ≡ streams.old }
{
    if !is_record(&answer) {
        return Ok(answer);
    }
    let Getline {
        place,
        target,
        counters,
    } = getline;
    let room = replace(alloc, store, target, place, answer)?;
    streams.keep_room(room);
    count_all(store, place, counters)?;
    Ok(Value::Num(1))
}
