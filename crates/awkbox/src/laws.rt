//! Laws of texts, of runs under a policy and of what is said of them before. The functions do nothing: each has a law
//! as its contract.

ghost use Rattle.awkbox.specs.Foretold.{TextAllowed, TextCovered, TextDenied};
ghost use Rattle.awkbox.specs.Laws.{TwoWorlds};
ghost use Rattle.awkbox.specs.Turns.{PassedShut};
ghost use Rattle.awkbox.specs.TwoDrives.{TwoDrives};
ghost use Rattle.listing_laws.specs.Turns.{NumbersShut};

use awk_run::laws::one_run;
use box_world::world::World;
use listing_laws::laws as sites;
use listing_laws::texts::{one_policy, one_program};
use std::io::Write;

/// Two runs of one script under one policy, with one setup and one bound, whose allowed requests got
/// equal replies at each position that both have, ask the same, end the same and are logged the
/// same, in whatever else their worlds differ. Neither is ended by want of memory or of the log.
pub fn two_worlds()
    ensures { TwoWorlds }
{
    one_run();
}

/// The same of any two runs that [`drive`](crate::drive) has answered for equal texts, setups and bounds, whatever
/// their worlds and logs are.
pub fn two_drives<V: World, W: World, K: Write, L: Write>()
    ensures { TwoDrives V.follows V.stops K.contents W.follows W.stops L.contents }
{
    one_policy();
    one_program();
    two_worlds();
}

/// Each request of each run of the script that a text spells, which a policy could deny, is covered by one of the
/// sites of the text, whatever the run is started with.
pub fn sites_cover()
    ensures { TextCovered }
{
    one_program();
    sites::sites_cover();
}

/// Where a text is clean under a policy's text, none of its runs has a request that the policy denies after those
/// before it.
pub fn clean_is_allowed()
    ensures { TextAllowed }
{
    one_policy();
    one_program();
    sites::clean_is_allowed();
}

/// A site that the verdict on two texts refuses has a text, and each request that it covers is denied, whatever came
/// before it, but for an operand's that was given.
pub fn refused_is_denied()
    ensures { TextDenied }
{
    one_policy();
    sites::refused_is_denied();
}

/// Each number of a stream that a run opens is shut once before it is opened again or the run ends, unless want of
/// memory or of the log ends the run: of all its calls, and of those that a policy lets through.
pub fn numbers_shut()
    ensures run { NumbersShut }
    ensures passed { PassedShut }
{
    sites::numbers_shut();
}
