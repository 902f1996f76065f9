// What a policy says of a script before it runs.

ghost use Rattle.std.specs.Prelude.{◌≡◌, ◌++◌, IfOk, OnOk, filter};
ghost use Rattle.box_listing.specs.Verdicts as spec;

use crate::site::Site;
use awk_text::Memory;
use box_policy::policy::{Outlook, Policy};
use std::alloc::Global;
use std::marker::Model;

/// Sites, which contracts see as their list.
#[derive(Drop)]
pub struct Sites {
    sites: Vec<Site>,
}

impl Model for Sites {
    ghost use Rattle.std.specs.Prelude.{List};
    ghost use Rattle.box_listing.specs.declared.site.Site.{Site};

    ghost Value = { List Site };

    ghost view = { λ s. s.sites.items };
}

impl Sites {
    /// The sites in their order. Takes no memory.
    pub fn list(&self) -> &[Site]
        ensures { result.now ≡ self.now }
    {
        self.sites.as_slice()
    }
}

/// What a policy says of all runs of a script. `Clean`: no run asks for what it denies. `Refused`: it
/// denies these sites, whose texts are known. `Open`: of these sites only a run can tell, by their texts
/// or by how often its rules have allowed.
#[derive(Drop)]
pub enum Verdict {
    Clean,
    Open(Sites),
    Refused(Sites),
}

/// What the policy says of a site: `None` where the text is not known.
pub(crate) fn outlook_of(policy: &Policy, site: &Site) -> Option<Outlook>
    ensures { result ≡ spec.outlook_at policy.now site.now.kind site.now.text }
{
    match &site.text {
        None => None,
        Some(text) => Some(policy.outlook(site.kind, text.bytes(), false)),
    }
}

fn verdict_by(denied: Sites, undecided: Sites) -> Verdict
    ensures { result ≡ spec.verdict_by denied undecided }
{
    if !denied.list().is_empty() {
        Verdict::Refused(denied)
    } else if !undecided.list().is_empty() {
        Verdict::Open(undecided)
    } else {
        Verdict::Clean
    }
}

/// What a policy says of these sites, where none is of an operand word: `Refused` with those whose text
/// is known and never allowed, where there are any; else `Open` with those whose text is not known or is
/// allowed as long as a limit lasts, where there are any; else `Clean`. `Memory` where memory is refused.
pub fn judge(alloc: Global, policy: &Policy, sites: Vec<Site>) -> Result<Verdict, Memory>
    ensures { IfOk result (λ verdict. verdict ≡ spec.verdict policy.now sites.items) }
{
    let mut denied = Vec::new(alloc);
    let mut undecided = Vec::new(alloc);
    for site in sites {
        match outlook_of(policy, &site) {
            Some(Outlook::Never) => denied.push(site)?,
            Some(Outlook::Sometimes) | None => undecided.push(site)?,
            Some(Outlook::Always) => {}
        }
    }
    Ok(verdict_by(Sites { sites: denied }, Sites { sites: undecided }))
}
