// What a policy says of a program before it runs.

ghost use Rattle.std.specs.Prelude.{IfOk};
ghost use Rattle.awk_program.specs.View.{view_program};
ghost use Rattle.box_listing.specs.Verdicts.{IsVerdict};

use crate::listing::listed;
use crate::site::Sort;
use crate::verdict::{Verdict, judge};
use awk_program::Program;
use awk_text::Memory;
use box_policy::policy::Policy;
use std::alloc::Global;

/// What a policy says of all runs of a program: its sites are listed and judged, as `listed` and `judge` do.
/// `order` and `names_environ` are what they are there. `Memory` where memory is refused.
pub fn checked(
    alloc: Global,
    program: &Program,
    order: &[Sort],
    names_environ: bool,
    policy: &Policy,
) -> Result<Verdict, Memory>
    ensures { IfOk result (IsVerdict (view_program program.now) order.now names_environ policy.now) }
{
    let sites = listed(alloc, program, order, names_environ)?;
    judge(alloc, policy, sites)
}
