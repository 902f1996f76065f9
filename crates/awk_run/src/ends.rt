// How a run ends.
ghost use Rattle.awk_machine.specs.State.{Given};
ghost use Rattle.awk_run.specs.Outcomes as spec;
ghost use Rattle.awk_run.specs.Outcomes.{own_status};
ghost use Rattle.awk_run.specs.View.{view_outcome};
ghost use Rattle.awk_run.specs.Reports.{Reported};
ghost use Rattle.awk_run.specs.Runs.{Finished};
ghost use Rattle.awk_store.specs.Kept.{Kept};
ghost use Rattle.awk_streams.specs.Tasks.{Owns};
ghost use Rattle.std.specs.Prelude.{◌≡◌};

use crate::report::Outcome;
use awk_store::{Phase, Store};
use awk_streams::closing::shut_all;
use awk_streams::halt::Halt;
use awk_streams::streams::Streams;
use awk_text::fault::Fault;
use awk_text::place::Place;
use box_world::world::World;

/// How a run's own work has ended.
#[derive(Clone, Copy, PartialEq, Eq, Drop)]
pub enum End {
    /// So; the streams that are open are still to be shut.
    Open(Outcome),
    /// Memory was refused: the run ends as it stands.
    Memory,
    /// The denial of a request at this place could not be logged: the run ends as it stands.
    Log(Place),
}

/// The status of a run that is done: the one that an `exit` gave, or 2 where an operand could not be read. Takes no
/// memory.
fn status(store: &Store) -> u8
    ensures { result ≡ own_status store.now }
{
    match store.status() {
        Some(status) => status,
        None => { if store.main().failed { 2 } else { 0 } }
    }
}

/// The end of a run that is done. Takes no memory.
pub fn done(store: &Store) -> End
    ensures { result ≡ End.Open (Outcome.Status (own_status store.now)) }
{
    End::Open(Outcome::Status(status(store)))
}

/// Whether the actions of END are left to be done after a halt in this part of the program: an `exit` in END itself
/// ends the run. Takes no memory.
pub fn goes_to_end(halt: Halt, phase: Phase) -> bool
    ensures { result ≡ spec.goes_to_end halt phase }
{
    match halt {
        Halt::Exit => is_before_end(phase),
        _ => false,
    }
}

fn is_before_end(phase: Phase) -> bool
    ensures { result ≡ spec.is_before_end phase }
{
    match phase {
        Phase::Beginning | Phase::Ruling => true,
        Phase::Ending => false,
    }
}

/// What an `exit` comes to at the end of a run. Outside of END it is none: the run ends there as it stands, though no
/// `exit` leads to that. Takes no memory.
fn last_exit(store: &Store) -> End
    ensures { result ≡ spec.last_exit store.now.phase store.now }
{
    match store.phase() {
        Phase::Ending => done(store),
        _ => End::Memory,
    }
}

/// What a halt comes to at the end of a run. Takes no memory.
pub fn last(halt: Halt, store: &Store) -> End
    ensures { result ≡ spec.last halt store.now }
{
    match halt {
        Halt::Fault(fault, place) => End::Open(Outcome::Fault(fault, place)),
        Halt::Cut => End::Open(Outcome::Cut),
        Halt::Next => done(store),
        Halt::Exit => last_exit(store),
        Halt::Memory => End::Memory,
        Halt::Log(place) => End::Log(place),
    }
}

/// The outcome of a run that ends as it stands. Takes no memory.
fn at_once(halt: Halt) -> Outcome
    ensures { result ≡ spec.at_once halt }
{
    match halt {
        Halt::Log(place) => Outcome::Fault(Fault::Log, place),
        _ => Outcome::Fault(Fault::Memory, Place { line: 0, column: 0 }),
    }
}

/// Takes no memory.
fn own_fault(fault: Fault, place: Place) -> Outcome
    ensures { result ≡ spec.own_fault fault place }
{
    match fault {
        Fault::Log => at_once(Halt::Memory),
        _ => Outcome::Fault(fault, place),
    }
}

/// The outcome of a run whose streams are shut. The fault of the log is that of a request which was not answered: a
/// run's own work never ends with it, and is answered as want of memory if it did. Takes no memory.
fn own(outcome: Outcome) -> Outcome
    ensures { result ≡ spec.own outcome }
{
    match outcome {
        Outcome::Fault(fault, place) => own_fault(fault, place),
        Outcome::Status(_) | Outcome::Cut => outcome,
    }
}

/// Ends a run: each stream that is open is shut, in order of opening, unless memory or the log ended the run.
pub fn close<W: World>(end: End, streams: &mut Streams, world: &mut W) -> Outcome
    requires { Owns (W.open_numbers world.old) streams.old }
    ensures { (g : Given) (kept : Kept) (first : W) → Finished W.World g first end (kept, streams.old) world.old
        → Reported W.follows W.has_stopped W.stops g first (view_outcome result) kept.used world.new }
{
    match end {
        End::Open(outcome) => shut(outcome, streams, world),
        End::Memory => at_once(Halt::Memory),
        End::Log(place) => at_once(Halt::Log(place)),
    }
}

/// Shuts the streams at the end of a run.
fn shut<W: World>(outcome: Outcome, streams: &mut Streams, world: &mut W) -> Outcome
    requires { Owns (W.open_numbers world.old) streams.old }
    ensures { (g : Given) (kept : Kept) (first : W) →
        Finished W.World g first (End.Open outcome) (kept, streams.old) world.old
        → Reported W.follows W.has_stopped W.stops g first (view_outcome result) kept.used world.new }
{
    match shut_all(streams, world) {
        Ok(_) => own(outcome),
        Err(halt) => at_once(halt),
    }
}
