// What a policy decides, and why.
ghost use Rattle.std.specs.Prelude.{◌≡◌, IfOk};
ghost use Rattle.box_policy.specs.Files.{is_of_files};
ghost use Rattle.box_advice.specs.Reasons.{IsWhy, path_of};

use crate::page::Page;
use crate::places::{Places, PolicyFile};
use crate::words::put_rule_text;
use awk_text::Memory;
use awk_text::octets::Octets;
use box_policy::error::PolicyError;
use box_policy::path::{Path, normal};
use box_policy::policy::{Decision, Kind, Policy};
use box_policy::telling::Told;
use std::alloc::Global;

/// What a policy decides of a subject, and why.
#[derive(Drop)]
pub struct Reasons {
    /// The subject's normal form, where it is a path that has one.
    pub path: Option<Path>,
    /// Each rule of the kind, in order, with whether it speaks of the subject.
    pub rules: Vec<Told>,
    pub decision: Decision,
}

/// A request that a policy is asked about. `given` says that the subject is an operand word that a run was started
/// with.
#[derive(Clone, Copy, Drop)]
pub struct Wanted<'a> {
    pub kind: Kind,
    pub subject: &'a [u8],
    pub given: bool,
}

pub(crate) fn is_of_files(kind: Kind) -> bool
    ensures { result ≡ is_of_files kind }
{
    match kind {
        Kind::Read | Kind::Write | Kind::Append => true,
        Kind::Run | Kind::Env | Kind::Assign => false,
    }
}

fn path_of(alloc: Global, base: &[u8], kind: Kind, subject: &[u8]) -> Result<Option<Path>, Memory>
    ensures { IfOk result (λ path. path ≡ path_of base.now kind subject.now) }
{
    if is_of_files(kind) {
        normal(alloc, base, subject)
    } else {
        Ok(None)
    }
}

/// What the policy decides of a request of this kind for the subject, and which of its rules speak of it. `given` says
/// that the subject is an operand word that a run was started with. `Memory` where memory is refused.
pub fn why(
    alloc: Global,
    policy: &Policy,
    kind: Kind,
    subject: &[u8],
    given: bool,
) -> Result<Reasons, Memory>
    ensures { IfOk result (IsWhy policy.now kind subject.now given) }
{
    let path = path_of(alloc, policy.base(), kind, subject)?;
    let rules = policy.told(alloc, kind, subject, given)?;
    let decision = policy.decide(kind, subject, given);
    Ok(Reasons {
        path,
        rules,
        decision,
    })
}

impl PolicyFile<'_> {
    // `rule 4 (F:17)`, or `rule 4` where its line cannot be told.
    fn put_rule(self, number: u32, page: &mut Page) {
        page.put("rule ");
        page.put_number(u64::from(number));
        if let Some(line) = self.places.line(number) {
            page.put_all(&[" (", self.name, ":"]);
            page.put_number(line as u64);
            page.put(")");
        }
    }

    fn put_told(self, told: Told, page: &mut Page) {
        let at = (told.number as usize).saturating_sub(1);
        if let Some(rule) = self.policy.rules().get(at) {
            self.put_rule(told.number, page);
            page.put(": ");
            put_rule_text(rule, page);
            page.put(if told.fits {
                ": fits\n"
            } else {
                ": does not fit\n"
            });
        }
    }

    fn put_decided(self, word: &str, number: u32, page: &mut Page) {
        page.put(word);
        self.put_rule(number, page);
        page.put("\n");
    }

    fn put_decision(self, decision: Decision, page: &mut Page) {
        match decision {
            Decision::Allow(number) => self.put_decided("allow: ", number, page),
            Decision::Deny(number) => self.put_decided("deny: ", number, page),
            Decision::NoRule => page.put("deny: no rule fits\n"),
        }
    }
}

fn put_components(components: &[Octets], page: &mut Page) {
    if components.is_empty() {
        page.put("/");
    }
    for component in components {
        page.put("/");
        page.put_quoted(component.bytes());
    }
}

// `normal form: "/srv/reports/out/a"`, or that there is none.
fn put_path(path: &Option<Path>, page: &mut Page) {
    match path {
        Some(path) => {
            page.put("normal form: \"");
            put_components(path.components(), page);
            page.put("\"\n");
        }
        None => page.put("normal form: none\n"),
    }
}

fn put_lines(source: PolicyFile<'_>, kind: Kind, why: &Reasons, page: &mut Page) {
    if is_of_files(kind) {
        put_path(&why.path, page);
    }
    for told in why.rules.as_slice() {
        source.put_told(*told, page);
    }
    source.put_decision(why.decision, page);
}

fn explanation(
    alloc: Global,
    name: &str,
    text: &[u8],
    policy: &Policy,
    wanted: Wanted<'_>,
) -> Result<String, Memory> {
    let why = why(alloc, policy, wanted.kind, wanted.subject, wanted.given)?;
    let places = Places::of(alloc, text, policy.count())?;
    let source = PolicyFile {
        name,
        policy,
        places: &places,
    };
    let mut page = Page::new(alloc);
    put_lines(source, wanted.kind, &why, &mut page);
    page.end()
}

/// The lines that tell a person what [`why`] answers of the policy of this text, which stands in the file of this name,
/// under the base that is given or else its own: the normal form of a path, each rule of the kind, and the one that
/// decides.
pub fn explained(
    alloc: Global,
    name: &str,
    text: &[u8],
    base: Option<&[u8]>,
    wanted: Wanted<'_>,
) -> Result<String, PolicyError> {
    let policy = Policy::read_under(alloc, text, base)?;
    Ok(explanation(alloc, name, text, &policy, wanted)?)
}
