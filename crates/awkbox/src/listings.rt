// The sites of a script's text, and what a policy's text says of them.
ghost use Rattle.awkbox.specs.Answers.{IsCheckRefused, IsJudged, IsListRefused, IsListed};
ghost use Rattle.box_policy.specs.Rebased.{WrittenUnder};
ghost use Rattle.std.specs.Prelude.{IfErr, IfOk, option_map};

use crate::accepting::read_script;
use crate::listing_refusal::ListingRefusal;
use awk_numbers::number::Numbers;
use box_listing::{Site, Verdict, judge, sites};
use box_policy::policy::Policy;
use std::alloc::Global;

/// The sites of the script that the text spells by this profile, where a run of it may ask: see [`box_listing::sites`].
pub fn sites_of(alloc: Global, numbers: Numbers, script: &[u8]) -> Result<Vec<Site>, ListingRefusal>
    ensures ok { IfOk result (λ sites. IsListed numbers script.now sites.items) }
    ensures refused { IfErr result (IsListRefused numbers script.now) }
{
    let script = read_script(alloc, numbers, script)?;
    let sites = sites(alloc, &script);
    script.release();
    Ok(sites?)
}

/// A policy, and where a script may ask.
#[derive(Drop)]
pub(crate) struct Listing {
    pub(crate) policy: Policy,
    pub(crate) sites: Vec<Site>,
}

/// The policy that the first text writes, and the sites of the script that the second one spells. Refused as
/// [`verdict_of`] is.
pub(crate) fn listing_of(
    alloc: Global,
    numbers: Numbers,
    policy: &[u8],
    base: Option<&[u8]>,
    script: &[u8],
) -> Result<Listing, ListingRefusal>
    ensures policy { IfOk result
        (λ listing. WrittenUnder (option_map (λ b. b.now) base.entry) policy.now listing.policy) }
    ensures sites { IfOk result (λ listing. IsListed numbers script.now listing.sites.items) }
    ensures refused { IfErr result (IsCheckRefused numbers (option_map (λ b. b.now) base.entry) policy.now script.now) }
{
    let policy = Policy::read_under(alloc, policy, base)?;
    match sites_of(alloc, numbers, script) {
        Ok(sites) => Ok(Listing { policy, sites }),
        Err(refusal) => Err(refusal),
    }
}

/// What the policy that the first text writes says of all runs of the script that the second one spells, by its sites:
/// see [`box_listing::judge`]. A base that is given stands in place of the policy's own. The policy is refused first,
/// then the base, and then the script.
pub fn verdict_of(
    alloc: Global,
    numbers: Numbers,
    policy: &[u8],
    base: Option<&[u8]>,
    script: &[u8],
) -> Result<Verdict, ListingRefusal>
    ensures ok { IfOk result (IsJudged numbers (option_map (λ b. b.now) base.entry) policy.now script.now) }
    ensures refused { IfErr result (IsCheckRefused numbers (option_map (λ b. b.now) base.entry) policy.now script.now) }
{
    let listing = listing_of(alloc, numbers, policy, base, script)?;
    let Listing { policy, sites } = listing;
    let verdict = judge(alloc, &policy, sites)?;
    Ok(verdict)
}
