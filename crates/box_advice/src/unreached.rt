// Rules that no request reaches.
ghost use Rattle.std.specs.Prelude.{◌≡◌, ◌≤◌, false, true, length, take, ◌++◌, IfOk, OnOk};
ghost use Rattle.box_advice.specs.Covers.{covers};
ghost use Rattle.box_advice.specs.Heads.{AreHeads, IsHeadOf, IsTrailOf, pieces};
ghost use Rattle.box_advice.specs.Unreached.{AreUnreached, first_covering, unreached_by, unreached_in};

use crate::covers::covers;
use crate::heads::{Head, Trail, may_fit, outline_of};
use awk_text::Memory;
use box_policy::policy::{Policy, Rule};
use std::alloc::Global;

/// A rule that decides nothing, since an earlier one speaks of all that it speaks of: the numbers of both.
#[derive(Clone, Copy, Drop)]
pub struct Unreached {
    pub rule: u32,
    pub by: u32,
}

/// Whether the head of the earlier rule and the trail of the later one tell that it does not cover that.
fn is_apart(
    policy: &Policy,
    earlier: &Rule,
    head: &Option<Head>,
    later: &Rule,
    trail: &Option<Trail>,
) -> bool
    requires head { IsHeadOf earlier.now.kind (pieces policy.now.base earlier.now.kind earlier.now.pattern) head.now }
    requires trail { IsTrailOf later.now.kind (pieces policy.now.base later.now.kind later.now.pattern) trail.now }
    ensures { result ≡ true → covers policy.now.base earlier.now later.now ≡ false }
{
    !may_fit(head, trail)
}

/// Whether the earlier rule, of this head, covers the later one, of this trail.
fn covers_at(
    alloc: Global,
    policy: &Policy,
    earlier: &Rule,
    head: &Option<Head>,
    later: &Rule,
    trail: &Option<Trail>,
) -> Result<bool, Memory>
    requires short { length earlier.now.pattern ≤ 4096 }
    requires head { IsHeadOf earlier.now.kind (pieces policy.now.base earlier.now.kind earlier.now.pattern) head.now }
    requires trail { IsTrailOf later.now.kind (pieces policy.now.base later.now.kind later.now.pattern) trail.now }
    ensures { IfOk result (λ b. b ≡ covers policy.now.base earlier.now later.now) }
{
    if is_apart(policy, earlier, head, later, trail) {
        return Ok(false);
    }
    covers(alloc, policy, earlier, later)
}

/// The number of the first rule that covers the later one, of those that have these heads. Patterns are matched only
/// where head and trail fit.
fn first_covering(
    alloc: Global,
    policy: &Policy,
    heads: &[Option<Head>],
    later: &Rule,
    trail: &Option<Trail>,
) -> Result<Option<u32>, Memory>
    requires few { length heads.now ≤ length policy.now.rules }
    requires heads { AreHeads policy.now.base policy.now.rules heads.now }
    requires trail { IsTrailOf later.now.kind (pieces policy.now.base later.now.kind later.now.pattern) trail.now }
    ensures { IfOk result
        (λ n. n ≡ first_covering policy.now.base (take (length heads.now) policy.now.rules) later.now) }
{
    let earlier = &policy.rules()[..heads.len()];
    let mut number = 0u32;
    for rule in earlier {
        let head = &heads[number as usize];
        number += 1;
        if covers_at(alloc, policy, rule, head, later, trail)? {
            return Ok(Some(number));
        }
    }
    Ok(None)
}

fn push_unreached(told: &mut Vec<Unreached>, rule: u32, by: Option<u32>) -> Result<(), Memory>
    ensures { OnOk result (told.new.items ≡ told.old.items ++ unreached_by rule by) }
{
    match by {
        Some(by) => Ok(told.push(Unreached { rule, by })?),
        None => Ok(()),
    }
}

#[tactic(auto, using(crate::proofs::UnreachedLemmas::told_sound_by))]
/// Each rule that an earlier one is found to cover, with the first that does, in order.
pub(crate) fn rules_unreached(alloc: Global, policy: &Policy) -> Result<Vec<Unreached>, Memory>
    ensures all { IfOk result (λ told.
        told.items ≡ unreached_in policy.now.base policy.now.rules (length policy.now.rules)) }
    ensures sound { IfOk result (λ told. AreUnreached policy.now told.items) }
{
    found(alloc, policy)
}

fn found(alloc: Global, policy: &Policy) -> Result<Vec<Unreached>, Memory>
    ensures { IfOk result (λ told.
        told.items ≡ unreached_in policy.now.base policy.now.rules (length policy.now.rules)) }
{
    let mut told = Vec::new(alloc);
    let mut heads = Vec::new(alloc);
    for rule in policy.rules() {
        let outline = outline_of(alloc, policy.base(), rule.kind, rule.pattern.bytes())?;
        let by = first_covering(alloc, policy, heads.as_slice(), rule, &outline.trail)?;
        heads.push(outline.head)?;
        push_unreached(&mut told, heads.len() as u32, by)?;
    }
    Ok(told)
}
