//! What a text says is one thing: it writes one policy, and it spells scripts of one program.
//!
//! The functions do nothing: each has a law as its contract.

ghost use Rattle.listing_laws.specs.OneText.{OnePolicy, OneProgram};

/// The policies that one text writes are one.
pub fn one_policy()
    ensures { OnePolicy }
{}

/// The scripts that one text is read as by one profile have one program, let a host set the same variables, and say the
/// same of ENVIRON and of the main input.
pub fn one_program()
    ensures { OneProgram }
{}
