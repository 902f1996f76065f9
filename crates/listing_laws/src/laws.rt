//! Laws of sites and of runs. The functions do nothing: each has a law as its contract.

ghost use Rattle.listing_laws.specs.Covers.{AllCovered, NoneDenied, RefusedDenied};
ghost use Rattle.listing_laws.specs.Foretold.{ScriptAllowed, ScriptCovered, ScriptDenied};
ghost use Rattle.listing_laws.specs.Standards.{StandardsKept};
ghost use Rattle.listing_laws.specs.Turns.{NumbersShut};

/// Each request of each run that a policy could deny, after some requests, is covered by a site of the script's
/// listing: one at its place, of its kind, and of its text where the site has one.
pub fn all_covered()
    ensures { AllCovered }
{}

/// Where a listing is clean under a policy, no run of the script has a request that this policy denies after those
/// before it.
pub fn none_denied()
    ensures { NoneDenied }
{}

/// A site that a verdict refuses has a text, and each request that it covers is denied, whatever came before it, but
/// for an operand's that was given.
pub fn refused_denied()
    ensures { RefusedDenied }
{}

/// Each request of each run of an accepted script that a policy could deny is covered by one of the script's sites,
/// whatever the run is started with.
pub fn sites_cover()
    ensures { ScriptCovered }
{}

/// Where an accepted script is clean under a policy, none of its runs has a request that the policy denies after
/// those before it.
pub fn clean_is_allowed()
    ensures { ScriptAllowed }
{}

/// A site that the verdict on a script refuses has a text, and each request that it covers is denied, whatever came
/// before it, but for an operand's that was given.
pub fn refused_is_denied()
    ensures { ScriptDenied }
{}

/// No run of any script shuts a standard stream.
pub fn standards_kept()
    ensures { StandardsKept }
{}

/// Each number of a stream that a run opens is shut once before it is opened again or the run ends, unless want of
/// memory or of the log ends the run.
pub fn numbers_shut()
    ensures { NumbersShut }
{}
