// What the program prints of a listing and of a verdict.
ghost use Rattle.awkbox.specs.Answers as spec;
ghost use Rattle.awkbox.specs.Answers.{Checks, IsCheckRefused, IsJudgement, IsListRefused, Lists};
ghost use Rattle.awkbox.specs.declared.answers.Format.TheVariants.{Json, Lines};
ghost use Rattle.std.specs.Prelude.{IfErr, IfOk, option_map, ◌≡◌};

use crate::listing_refusal::ListingRefusal;
use crate::listings::{Listing, listing_of, sites_of};
use awk_numbers::number::Numbers;
use awk_text::Memory;
use box_listing::{Site, Verdict, judge, judged_json, lines_of, sites_json, verdict_lines};
use box_policy::policy::Policy;
use std::alloc::Global;

/// How sites are told.
#[derive(Clone, Copy, Drop)]
pub enum Format {
    /// For people: a line for each site, `LINE:COLUMN KIND "TEXT"`, with `*` in place of `"TEXT"` where the text is not
    /// known. A verdict is `clean`, `open` or `refused` on a line, and a line for each site that this is about.
    Lines,
    /// For other programs: a JSON object on a line for each site; a verdict stands with each of them. See
    /// [`box_listing::sites_json`] and [`box_listing::judged_json`].
    Json,
}

/// What the program prints, and the exit status that goes with it.
#[derive(Drop)]
pub struct Answer {
    pub lines: Vec<u8>,
    pub status: u8,
    /// Whether a check found the script open.
    pub is_open: bool,
}

fn told(alloc: Global, sites: &[Site], format: Format) -> Result<Vec<u8>, Memory>
    ensures { IfOk result (λ lines. lines.items ≡ spec.told format sites.now) }
{
    match format {
        Format::Lines => lines_of(alloc, sites),
        Format::Json => sites_json(alloc, sites),
    }
}

/// The listing of the script that the text spells by this profile. The status is 0.
pub fn list(
    alloc: Global,
    numbers: Numbers,
    script: &[u8],
    format: Format,
) -> Result<Answer, ListingRefusal>
    ensures ok { IfOk result (Lists format numbers script.now) }
    ensures refused { IfErr result (IsListRefused numbers script.now) }
{
    let sites = sites_of(alloc, numbers, script)?;
    let lines = told(alloc, sites.as_slice(), format)?;
    Ok(Answer {
        lines,
        status: 0,
        is_open: false,
    })
}

fn answer_of(verdict: &Verdict, lines: Vec<u8>) -> Answer
    ensures lines { result.lines ≡ lines }
    ensures status { result.status ≡ spec.status_of verdict.now }
    ensures openness { result.is_open ≡ spec.is_open verdict.now }
{
    match verdict {
        Verdict::Clean => Answer {
            lines,
            status: 0,
            is_open: false,
        },
        Verdict::Open(_) => Answer {
            lines,
            status: 1,
            is_open: true,
        },
        Verdict::Refused(_) => Answer {
            lines,
            status: 1,
            is_open: false,
        },
    }
}

fn judged_on_lines(alloc: Global, policy: &Policy, sites: Vec<Site>) -> Result<Answer, Memory>
    ensures { IfOk result (IsJudgement Lines policy.now sites.items) }
{
    let verdict = judge(alloc, policy, sites)?;
    let lines = verdict_lines(alloc, &verdict)?;
    Ok(answer_of(&verdict, lines))
}

fn judged_as_json(alloc: Global, policy: &Policy, sites: Vec<Site>) -> Result<Answer, Memory>
    ensures { IfOk result (IsJudgement Json policy.now sites.items) }
{
    let lines = judged_json(alloc, policy, sites.as_slice())?;
    let verdict = judge(alloc, policy, sites)?;
    Ok(answer_of(&verdict, lines))
}

fn judged(
    alloc: Global,
    policy: &Policy,
    sites: Vec<Site>,
    format: Format,
) -> Result<Answer, Memory>
    ensures { IfOk result (IsJudgement format policy.now sites.items) }
{
    match format {
        Format::Lines => judged_on_lines(alloc, policy, sites),
        Format::Json => judged_as_json(alloc, policy, sites),
    }
}

/// What the policy that the first text writes says of the script that the second one spells. The status is 0 where the
/// script is clean, and else 1. A base that is given stands in place of the policy's own. The policy is refused first,
/// then the base, and then the script.
pub fn check(
    alloc: Global,
    numbers: Numbers,
    policy: &[u8],
    base: Option<&[u8]>,
    script: &[u8],
    format: Format,
) -> Result<Answer, ListingRefusal>
    ensures ok { IfOk result (Checks format numbers (option_map (λ b. b.now) base.entry) policy.now script.now) }
    ensures refused { IfErr result (IsCheckRefused numbers (option_map (λ b. b.now) base.entry) policy.now script.now) }
{
    let Listing { policy, sites } = listing_of(alloc, numbers, policy, base, script)?;
    Ok(judged(alloc, &policy, sites, format)?)
}
