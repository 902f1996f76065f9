//! What an audit says of a run. The function does nothing: it has a law as its contract.

ghost use Rattle.box_audit.specs.Events.{NamesAllowed};

use box_world::world::World;
use std::io::Write;

/// Where an audit stands behind a policy in a run, its log names exactly the events that the policy does not deny, in
/// order, as long as it has not stopped.
pub fn names_allowed<W: World, L: Write>()
    ensures { NamesAllowed W.follows W.has_stopped L.contents }
{}
