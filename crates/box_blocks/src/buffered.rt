// A world that joins what is written to one stream.
ghost use Rattle.std.specs.Prelude.{◌≡◌, [], ◌∷◌, List, None, Some, true, false, option_map};
ghost use Rattle.std.specs.Prelude.{IfNone, IfOk, IfSome, OnErr, OnOk, IsErrOf, IsSome, IsTrue};
ghost use Rattle.box_world.specs.Calls.{Call, IsDuty, IsFitting};
ghost use Rattle.box_blocks.specs.Blocks.{Blocks, IsSound};
ghost use Rattle.box_blocks.specs.HeldBytes.{writing_of};
ghost use Rattle.box_blocks.specs.Laws.{Follows-append, Follows-none, Follows-open, Stops-later};
ghost use Rattle.box_blocks.specs.Follows.{Follows};
ghost use Rattle.box_blocks.specs.Owes.{BeginsWith, Empties, JoinsTo, Lacks, Owes, Takes};
ghost use Rattle.box_blocks.specs.Parts as spec;
ghost use Rattle.box_blocks.specs.Parts.{IsPutTo, IsShutOf, Writing, put_of};
ghost use Rattle.box_blocks.specs.Stops.{Stops};
ghost use Rattle.box_blocks.specs.Written.{Ends, IsEmptied, fresh};

use crate::held::Held;
use box_world::ask::{Ask, Reply, Request, Stop};
use box_world::world::World;
use std::alloc::Global;
use std::marker::Model;
use thiserror::Error;

/// Not all that was to be written is.
#[derive(Clone, Copy, Debug, PartialEq, Eq, Drop, Error)]
pub enum NotWritten {
    #[error("cannot write")]
    Lost,
}

/// A world that stands before another one and joins neighbouring requests to write to one stream.
///
/// A `Put` is answered `Done` and held, with those to the same stream that come next, up to 65,536 bytes. Before
/// anything else is asked of the world behind, what is held is put, as one `Put` that has the place of the first. So
/// all bytes come in the same order, and a command or an input that is read finds written what was put before it.
///
/// Where such a `Put` fails, the next reply to a `Put` or to a `Shut` of that stream is `Failed`; that `Put` is not
/// asked. Until then each other `Put` is asked as it comes. So is one that has more than 65,536 bytes, and one for
/// which memory is refused.
///
/// `Stop::Memory` of the world behind comes back as it is, and what was held is held still. After its `Stop::Log` every
/// ask is answered so and does nothing.
#[derive(Drop)]
pub struct Buffered<W: World> {
    alloc: Global,
    world: W,
    held: Option<Held>,
    // The stream whose joined `Put` failed, which no reply has told.
    untold: Option<u32>,
    stopped: bool,
}

impl<W: World> Model for Buffered<W> {
    ghost use Rattle.std.specs.Prelude.{option_map};
    ghost use Rattle.box_blocks.specs.Blocks.{Blocks, IsSound};
    ghost use Rattle.box_blocks.specs.HeldBytes.{writing_of};

    ghost Value = { Blocks W };

    ghost view = { λ b. record {
      world = b.world;
      held = option_map writing_of b.held;
      untold = b.untold;
      stopped = b.stopped;
    } };

    ghost invariant = { λ b. IsSound (W.open_numbers b.world) b.untold (option_map writing_of b.held) };
}

// The stream whose failure is untold after this reply to a `Put`.
fn untold_by(ask: &Ask, reply: &Reply) -> Option<u32>
    ensures { (w : Writing) → ask.now ≡ put_of w → result ≡ spec.untold_by w.number reply.now }
{
    if let Reply::Done = reply {
        return None;
    }
    match &ask.request {
        Request::Put(number, _) => Some(*number),
        _ => None,
    }
}

impl<W: World> Buffered<W> {
    /// A world before this one, which holds nothing. Takes no memory.
    pub fn new(alloc: Global, world: W) -> Buffered<W>
        ensures { result ≡ fresh world }
    {
        Buffered {
            alloc,
            world,
            held: None,
            untold: None,
            stopped: false,
        }
    }

    /// Puts what is held, and gives the world behind back.
    ///
    /// It is `NotWritten` where the world behind did not take what was held, and where a joined `Put` had failed with
    /// no reply that told it.
    pub fn finish(self) -> (Result<(), NotWritten>, W)
        ensures { (first : W) (calls : List Call) → Follows W.follows W.has_stopped (fresh first) calls self →
            Ends W.follows first calls result.0 result.1 }
    {
        let mut buffered = self;
        let written = buffered.empty();
        (written, buffered.into_world())
    }

    // Puts what is held, and says whether no failure is untold then.
    fn empty(&mut self) -> Result<(), NotWritten>
        ensures { IsEmptied W.follows W.has_stopped self.old result self.new }
    {
        match self.put_held() {
            Ok(()) => self.told(),
            Err(_) => Err(NotWritten::Lost),
        }
    }

    // Whether no failure is untold.
    fn told(&self) -> Result<(), NotWritten>
        ensures told { OnOk result (self.now.untold ≡ None) }
        ensures untold { OnErr result (IsSome self.now.untold) }
    {
        match self.untold {
            None => Ok(()),
            Some(_) => Err(NotWritten::Lost),
        }
    }

    fn into_world(self) -> W
        ensures { result ≡ self.world }
    {
        self.world
    }

    // Asks the world behind.
    fn pass(&mut self, ask: &Ask) -> Result<Reply, Stop>
        requires duty { IsDuty (W.open_numbers self.old.world) ask.now.request }
        requires nothing { self.old.held ≡ None }
        ensures same { (self.new.held ≡ None) × (self.new.untold ≡ self.old.untold) }
        ensures ok { IfOk result
            (λ reply. W.follows self.old.world ((ask.now, reply) ∷ []) self.new.world) }
        ensures fits { IfOk result
            (λ reply. IsFitting (W.open_numbers self.old.world) ask.now.request reply) }
        ensures err { OnErr result (W.follows self.old.world [] self.new.world) }
        ensures log { IsErrOf result Stop.Log →
            (self.new.stopped ≡ true) × W.stops self.old.world [] ask.now self.new.world }
        ensures goes { ¬ IsErrOf result Stop.Log → (self.new.stopped ≡ self.old.stopped)
            × (W.has_stopped self.new.world ≡ W.has_stopped self.old.world) }
        ensures lacks { IsErrOf result Stop.Memory → W.lacks self.old.world ask.now self.new.world }
    {
        let answer = self.world.ask(ask);
        if let Err(Stop::Log) = answer {
            self.stopped = true;
        }
        answer
    }

    // Holds this, where nothing is held.
    fn hold(&mut self, held: Option<Held>)
        requires nothing { self.old.held ≡ None }
        requires sound { IsSound (W.open_numbers self.old.world) self.old.untold (option_map writing_of held) }
        ensures { self.new ≡ record self.old { held = option_map writing_of held } }
    {
        self.held = held;
    }

    // What is held, to be asked; nothing is held then.
    fn take(&mut self) -> Option<Ask>
        ensures taken { IfSome result (Takes W.open_numbers self.old self.new) }
        ensures nothing { IfNone result ((self.new ≡ self.old) × (self.old.held ≡ None)) }
    {
        match self.held.take() {
            Some(held) => Some(held.into_ask()),
            None => None,
        }
    }

    // What of a failure is untold from now on.
    fn set_untold(&mut self, untold: Option<u32>)
        requires nothing { self.old.held ≡ None }
        ensures { self.new ≡ record self.old { untold = untold } }
    {
        self.untold = untold;
    }

    // Puts what is held.
    fn put_held(&mut self) -> Result<(), Stop>
        ensures { Empties W.follows W.has_stopped W.open_numbers W.stops W.lacks self.old result self.new }
    {
        match self.take() {
            Some(ask) => self.put_taken(ask),
            None => Ok(()),
        }
    }

    // Puts what was taken, and holds it again where the world behind does not answer.
    fn put_taken(&mut self, ask: Ask) -> Result<(), Stop>
        requires taken { (first : Blocks W) × Takes W.open_numbers first self.old ask }
        ensures { (first : Blocks W) → Takes W.open_numbers first self.old ask →
            Empties W.follows W.has_stopped W.open_numbers W.stops W.lacks first result self.new }
    {
        let reply = match self.pass(&ask) {
            Ok(reply) => reply,
            Err(stop) => {
                self.hold(Held::again(ask));
                return Err(stop);
            }
        };
        self.set_untold(untold_by(&ask, &reply));
        Ok(())
    }

    // Joins a `Put` to what is held, where it is to the same stream and there is room.
    fn joins(&mut self, ask: &Ask) -> bool
        ensures joined { IsTrue result → JoinsTo self.old ask.now self.new }
        ensures refused { result ≡ false → self.new ≡ self.old }
    {
        let Request::Put(number, bytes) = &ask.request else {
            return false;
        };
        match &mut self.held {
            Some(held) => held.join(*number, bytes.bytes()),
            None => false,
        }
    }

    // Whether no failure is untold.
    fn is_all_told(&self) -> bool
        ensures { IsTrue result → self.now.untold ≡ None }
    {
        self.untold.is_none()
    }

    // Whether the failure of this stream is untold.
    fn is_untold(&self, number: u32) -> bool
        ensures untold { IsTrue result → self.now.untold ≡ Some number }
        ensures told { result ≡ false → ¬ (self.now.untold ≡ Some number) }
    {
        self.untold == Some(number)
    }

    // Holds a `Put`, where nothing is held and no failure is untold.
    fn begins(&mut self, ask: &Ask) -> bool
        requires duty { IsDuty (W.open_numbers self.old.world) ask.now.request }
        requires nothing { self.old.held ≡ None }
        ensures begun { IsTrue result → BeginsWith self.old ask.now self.new }
        ensures refused { result ≡ false → self.new ≡ self.old }
    {
        let Request::Put(number, bytes) = &ask.request else {
            return false;
        };
        if !self.is_all_told() {
            return false;
        }
        let text = bytes.bytes();
        let Some(held) = Held::begin(self.alloc, ask.place, ask.given, *number, text) else {
            return false;
        };
        self.hold(Some(held));
        true
    }

    // Refuses a `Put` to a stream whose failure is untold, which is told so.
    fn refuses(&mut self, ask: &Ask) -> bool
        requires nothing { self.old.held ≡ None }
        ensures refused { IsTrue result →
            IsPutTo self.old.untold ask.now.request × (self.new ≡ record self.old { untold = None }) }
        ensures passed { result ≡ false → (self.new ≡ self.old) × ¬ IsPutTo self.old.untold ask.now.request }
    {
        if let Request::Put(number, _) = &ask.request {
            if self.is_untold(*number) {
                self.set_untold(None);
                return true;
            }
        }
        false
    }

    // Whether it is the `Shut` of a stream whose failure is untold.
    fn ends(&self, ask: &Ask) -> bool
        ensures ends { IsTrue result → IsShutOf self.now.untold ask.now.request }
        ensures goes_on { result ≡ false → ¬ IsShutOf self.now.untold ask.now.request }
    {
        match &ask.request {
            Request::Shut(number) => self.is_untold(*number),
            _ => false,
        }
    }

    // Asks the world behind for the `Shut` of a stream whose failure is untold, which is told so.
    fn end(&mut self, ask: &Ask) -> Result<Reply, Stop>
        requires duty { IsDuty (W.open_numbers self.old.world) ask.now.request }
        requires nothing { self.old.held ≡ None }
        requires shut { IsShutOf self.old.untold ask.now.request }
        ensures { Owes W.follows W.has_stopped W.open_numbers W.stops W.lacks self.old ask.now result self.new }
    {
        let answer = self.pass(ask);
        if answer.is_err() {
            return answer;
        }
        self.set_untold(None);
        Ok(Reply::Failed)
    }

    // Passes an ask on where nothing is held.
    fn pass_on(&mut self, ask: &Ask) -> Result<Reply, Stop>
        requires duty { IsDuty (W.open_numbers self.old.world) ask.now.request }
        requires nothing { self.old.held ≡ None }
        requires no_put { ¬ IsPutTo self.old.untold ask.now.request }
        ensures { Owes W.follows W.has_stopped W.open_numbers W.stops W.lacks self.old ask.now result self.new }
    {
        if self.ends(ask) {
            return self.end(ask);
        }
        self.pass(ask)
    }

    // Answers an ask where nothing is held.
    fn ask_empty(&mut self, ask: &Ask) -> Result<Reply, Stop>
        requires duty { IsDuty (W.open_numbers self.old.world) ask.now.request }
        requires nothing { self.old.held ≡ None }
        ensures { Owes W.follows W.has_stopped W.open_numbers W.stops W.lacks self.old ask.now result self.new }
    {
        if self.begins(ask) {
            return Ok(Reply::Done);
        }
        if self.refuses(ask) {
            return Ok(Reply::Failed);
        }
        self.pass_on(ask)
    }

    // Answers an ask where it has not stopped.
    fn answer(&mut self, ask: &Ask) -> Result<Reply, Stop>
        requires { IsDuty (W.open_numbers self.old.world) ask.now.request }
        ensures { Owes W.follows W.has_stopped W.open_numbers W.stops W.lacks self.old ask.now result self.new }
    {
        if self.joins(ask) {
            return Ok(Reply::Done);
        }
        match self.put_held() {
            Ok(()) => self.ask_empty(ask),
            Err(stop) => Err(stop),
        }
    }

    fn has_stopped(&self) -> bool
        ensures { result ≡ self.now.stopped }
    {
        self.stopped
    }
}

impl<W: World> World for Buffered<W> {
    ghost follows = { Follows W.follows W.has_stopped };

    ghost open_numbers = { λ b. W.open_numbers b.world };

    ghost has_stopped = { λ b. b.stopped };

    ghost stops = { Stops W.stops };

    ghost lacks = { Lacks W.follows W.lacks };

    /// Holds a `Put` and answers `Done`, or puts what is held and asks the world behind.
    ///
    /// A joined `Put` that failed is told by the next reply to a `Put` or a `Shut` of its stream. A `Stop` of the world
    /// behind comes back as it is.
    fn ask(&mut self, ask: &Ask) -> Result<Reply, Stop> {
        if self.has_stopped() {
            return Err(Stop::Log);
        }
        self.answer(ask)
    }

    ghost follows_none = { Follows-none W.follows W.has_stopped W.follows_none };

    ghost follows_append = { Follows-append W.follows W.has_stopped W.follows_append };

    ghost follows_open = { Follows-open W.follows W.has_stopped W.open_numbers W.follows_open };

    ghost stops_later = { Stops-later W.follows W.has_stopped W.stops W.stops_later };
}
