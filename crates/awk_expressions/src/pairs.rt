// What was read is kept while more is read, or is let go with the fault of what stands behind it.
// These are functions of their own since a tree that is let go in place is walked through, variant
// by variant, on each way out of the function that holds it.

ghost use Rattle.std.specs.Prelude.{◌≡◌, MatchResult};

/// What was read, and what was read behind it.
pub fn pair<A: Drop, B: Drop, E: Drop>(first: A, next: Result<B, E>) -> Result<(A, B), E>
    ensures { MatchResult result (λ both. (both.0 ≡ first) × (next ≡ Ok both.1)) (λ e. next ≡ Err e) }
{
    match next {
        Ok(next) => Ok((first, next)),
        Err(fault) => Err(fault),
    }
}

/// No more than the fault.
pub fn refused<A: Drop, B, E: Drop>(_first: A, fault: E) -> Result<B, E>
    ensures { result ≡ Err fault }
{
    Err(fault)
}
