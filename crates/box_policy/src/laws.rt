// What holds of every policy. The function does nothing: it has a law as its contract.
ghost use Rattle.box_policy.specs.Rebased.{BaseIsFree};

/// A document with another base writes the same rules under that base: what [`crate::policy::Policy::with_base`] gives.
pub fn base_is_free()
    ensures { BaseIsFree }
{}
