// Which rules a policy gains.
ghost use Rattle.std.specs.Prelude.{◌≡◌, ◌++◌, ◌∷◌, ◌+◌, ◌≤◌, ◌<◌, [], true, false, length};
ghost use Rattle.std.specs.Prelude.{IfOk, IfSome, MatchOption, OnOk};
ghost use Rattle.box_policy.specs.declared.policy.Decision.TheVariants.{NoRule};
ghost use Rattle.box_policy.specs.Decisions.{speaks};
ghost use Rattle.box_policy.specs.Exact.{is_exact};
ghost use Rattle.box_policy.specs.Short.{are_short};
ghost use Rattle.box_advice.specs.Heads.{HasHeads, IsHeadOf, IsTrailOf, pieces};
ghost use Rattle.box_advice.specs.Wishes.{IsGained, fate_by, fate_of, gained, gained_by, given_of, grant, grants_from};
ghost use Rattle.box_advice.specs.Wishes.{is_given, is_offered, speak};
ghost use Rattle.box_advice.specs.declared.wanting.Fate.TheVariants.{Gains as Gaining};

use crate::denials::request_of;
use crate::folders::put_folders;
use crate::heads::{Head, Trail, may_fit, outline_of};
use crate::page::Page;
use crate::printing::{put_fate, put_offer, put_rule};
use crate::wishes::Wish;
use awk_text::Memory;
use awk_text::octets::Octets;
use box_policy::exact::is_exact;
use box_policy::policy::{Decision, Effect, Kind, MAX_RULES, Policy, Rule};
use std::alloc::Global;
use std::collections::BTreeSet;

/// What becomes of a wish.
#[derive(Clone, Copy, Drop)]
pub(crate) enum Fate {
    /// Its text is not known.
    Unknown,
    /// The policy's rule of this number denies it.
    Denied(u32),
    /// A rule of the policy allows it.
    Allowed,
    /// No pattern stands for its text alone.
    Unfit,
    /// It is a command or a name of the environment, which a person may allow.
    Offered,
    /// A rule that another wish got allows it.
    Met,
    /// It gets a rule.
    Gains,
}

#[tactic(auto, unfolding(crate::specs::Wishes::is_offered))]
fn is_offered(kind: Kind) -> bool
    ensures { result ≡ is_offered kind }
{
    match kind {
        Kind::Run | Kind::Env => true,
        Kind::Read | Kind::Write | Kind::Append | Kind::Assign => false,
    }
}

#[tactic(auto, unfolding(crate::specs::Wishes::given_of))]
/// Whether a request of this kind may be an operand word, where this may be said of its place.
pub(crate) fn given_of(kind: Kind, may_be_given: bool) -> bool
    ensures { result ≡ given_of kind may_be_given }
{
    match kind {
        Kind::Read | Kind::Assign => may_be_given,
        Kind::Write | Kind::Append | Kind::Run | Kind::Env => false,
    }
}

fn is_given(wish: &Wish) -> bool
    ensures { result ≡ is_given wish.now }
{
    given_of(wish.kind, wish.may_be_given)
}

/// What the rules that were gained are asked.
#[derive(Clone, Copy, Drop)]
struct Asked<'a> {
    kind: Kind,
    text: &'a [u8],
    given: bool,
}

/// Whether the head of the rule and the trail of what is asked tell that the rule does not speak of it.
fn is_mute(
    policy: &Policy,
    rule: &Rule,
    head: &Option<Head>,
    asked: Asked<'_>,
    trail: &Option<Trail>,
) -> bool
    requires head { IsHeadOf rule.now.kind (pieces policy.now.base rule.now.kind rule.now.pattern) head.now }
    requires trail { IsTrailOf asked.kind (pieces policy.now.base asked.kind asked.text.now) trail.now }
    ensures { result ≡ true
        → speaks policy.now.base rule.now asked.entry.kind asked.entry.text.now asked.entry.given ≡ false }
{
    !may_fit(head, trail)
}

/// Whether the rule, of this head, speaks of what is asked, of this trail.
fn speaks_at(
    policy: &Policy,
    rule: &Rule,
    head: &Option<Head>,
    asked: Asked<'_>,
    trail: &Option<Trail>,
) -> bool
    requires short { length rule.now.pattern ≤ 4096 }
    requires head { IsHeadOf rule.now.kind (pieces policy.now.base rule.now.kind rule.now.pattern) head.now }
    requires trail { IsTrailOf asked.kind (pieces policy.now.base asked.kind asked.text.now) trail.now }
    ensures { result ≡ speaks policy.now.base rule.now asked.entry.kind asked.entry.text.now asked.entry.given }
{
    if is_mute(policy, rule, head, asked, trail) {
        return false;
    }
    policy.speaks(rule, asked.kind, asked.text, asked.given)
}

/// Whether one of these rules, of these heads, speaks of what is asked.
fn speak(
    policy: &Policy,
    rules: &[Rule],
    heads: &[Option<Head>],
    asked: Asked<'_>,
    trail: &Option<Trail>,
) -> bool
    requires heads { HasHeads policy.now.base rules.now heads.now }
    requires trail { IsTrailOf asked.kind (pieces policy.now.base asked.kind asked.text.now) trail.now }
    ensures { result ≡ speak policy.now.base rules.now asked.entry.kind asked.entry.text.now asked.entry.given }
{
    let mut at = 0;
    for rule in rules {
        if speaks_at(policy, rule, &heads[at], asked, trail) {
            return true;
        }
        at += 1;
    }
    false
}

/// The rule that allows what is asked for with just this text; of an operand word no more than that.
fn grant(alloc: Global, kind: Kind, text: &Octets, given: bool) -> Result<Rule, Memory>
    ensures { IfOk result (λ rule. rule ≡ grant kind text.now given) }
{
    Ok(Rule {
        effect: Effect::Allow(None),
        kind,
        only_given: given,
        pattern: text.copy(alloc)?,
    })
}

/// Writes what becomes of the wish. A command or a name is offered once.
fn put_told(
    alloc: Global,
    wish: &Wish,
    fate: Fate,
    offered: &mut BTreeSet<Vec<u8>>,
    page: &mut Page,
) -> Result<(), Memory> {
    if !matches!(fate, Fate::Offered) {
        put_fate(wish, fate, page);
        return Ok(());
    }
    if offered.insert(request_of(alloc, wish)?)? {
        put_offer(wish, page);
    }
    Ok(())
}

/// The rules that a policy gains, with their heads, and what writes them and tells of the other wishes.
#[derive(Drop)]
pub(crate) struct Gains {
    pub(crate) rules: Vec<Rule>,
    heads: Vec<Option<Head>>,
    offered: BTreeSet<Vec<u8>>,
    pub(crate) page: Page,
}

impl Gains {
    fn new(alloc: Global) -> Gains
        ensures rules { result.rules.items ≡ [] }
        ensures heads { result.heads.items ≡ [] }
    {
        Gains {
            rules: Vec::new(alloc),
            heads: Vec::new(alloc),
            offered: BTreeSet::new(alloc),
            page: Page::new(alloc),
        }
    }

    /// Whether a rule is offered that a person may take.
    pub(crate) fn have_offers(&self) -> bool {
        !self.offered.is_empty()
    }

    #[tactic(auto, unfolding(crate::specs::Wishes::fate_by))]
    /// What becomes of a wish that the policy has no rule for.
    fn undecided_fate(
        &self,
        alloc: Global,
        policy: &Policy,
        asked: Asked<'_>,
    ) -> Result<Fate, Memory>
        requires { HasHeads policy.now.base self.now.rules.items self.now.heads.items }
        ensures { IfOk result (λ fate. fate ≡ fate_by NoRule
            (is_exact policy.now.base asked.entry.kind asked.entry.text.now) (is_offered asked.entry.kind)
            (speak policy.now.base self.now.rules.items asked.entry.kind asked.entry.text.now
            asked.entry.given)) }
    {
        if !is_exact(policy.base(), asked.kind, asked.text) {
            return Ok(Fate::Unfit);
        }
        if is_offered(asked.kind) {
            return Ok(Fate::Offered);
        }
        if self.allow(alloc, policy, asked)? {
            return Ok(Fate::Met);
        }
        Ok(Fate::Gains)
    }

    fn allow(&self, alloc: Global, policy: &Policy, asked: Asked<'_>) -> Result<bool, Memory>
        requires { HasHeads policy.now.base self.now.rules.items self.now.heads.items }
        ensures { IfOk result
            (λ b. b ≡ speak policy.now.base self.now.rules.items asked.entry.kind asked.entry.text.now
            asked.entry.given) }
    {
        let outline = outline_of(alloc, policy.base(), asked.kind, asked.text)?;
        Ok(speak(
            policy,
            self.rules.as_slice(),
            self.heads.as_slice(),
            asked,
            &outline.trail,
        ))
    }

    #[tactic(auto, unfolding(crate::specs::Wishes::fate_by))]
    fn fate_of(&self, alloc: Global, policy: &Policy, wish: &Wish) -> Result<Fate, Memory>
        requires { HasHeads policy.now.base self.now.rules.items self.now.heads.items }
        ensures { IfOk result (λ fate. fate ≡ fate_of policy.now self.now.rules.items wish.now) }
    {
        let Some(text) = &wish.text else {
            return Ok(Fate::Unknown);
        };
        let asked = Asked {
            kind: wish.kind,
            text: text.bytes(),
            given: is_given(wish),
        };
        match policy.decide(asked.kind, asked.text, asked.given) {
            Decision::Deny(number) => Ok(Fate::Denied(number)),
            Decision::Allow(_) => Ok(Fate::Allowed),
            Decision::NoRule => self.undecided_fate(alloc, policy, asked),
        }
    }

    /// The rule is done and written.
    fn add(&mut self, alloc: Global, policy: &Policy, rule: Rule) -> Result<(), Memory>
        requires kept { HasHeads policy.now.base self.old.rules.items self.old.heads.items }
        requires short { length rule.pattern ≤ 4096 }
        ensures rules { OnOk result (self.new.rules.items ≡ self.old.rules.items ++ rule ∷ []) }
        ensures kept { OnOk result (HasHeads policy.now.base self.new.rules.items self.new.heads.items) }
    {
        put_rule(&rule, &mut self.page);
        let outline = outline_of(alloc, policy.base(), rule.kind, rule.pattern.bytes())?;
        self.heads.push(outline.head)?;
        self.rules.push(rule)?;
        Ok(())
    }

    #[tactic(auto, unfolding(crate::specs::Wishes::gained_by))]
    fn gain(&mut self, alloc: Global, policy: &Policy, wish: &Wish) -> Result<(), Memory>
        requires kept { HasHeads policy.now.base self.old.rules.items self.old.heads.items }
        requires short { IfSome wish.now.text (λ text. length text ≤ 4096) }
        ensures gained { OnOk result
            (self.new.rules.items ≡ self.old.rules.items ++ gained_by Gaining wish.now wish.now.text) }
        ensures kept { OnOk result (HasHeads policy.now.base self.new.rules.items self.new.heads.items) }
    {
        match &wish.text {
            Some(text) => {
                let rule = grant(alloc, wish.kind, text, is_given(wish))?;
                self.add(alloc, policy, rule)
            }
            None => Ok(()),
        }
    }

    #[tactic(auto, unfolding(crate::specs::Wishes::gained_by))]
    /// What becomes of the wish, written and, where it gains a rule, done.
    fn take(&mut self, alloc: Global, policy: &Policy, wish: &Wish) -> Result<(), Memory>
        requires kept { HasHeads policy.now.base self.old.rules.items self.old.heads.items }
        ensures gained { OnOk result
            (self.new.rules.items ≡ self.old.rules.items ++ gained policy.now self.old.rules.items wish.now) }
        ensures kept { OnOk result (HasHeads policy.now.base self.new.rules.items self.new.heads.items) }
    {
        let fate = self.fate_of(alloc, policy, wish)?;
        put_told(alloc, wish, fate, &mut self.offered, &mut self.page)?;
        match fate {
            Fate::Gains => self.gain(alloc, policy, wish),
            Fate::Unknown
            | Fate::Denied(_)
            | Fate::Allowed
            | Fate::Unfit
            | Fate::Offered
            | Fate::Met => Ok(()),
        }
    }

    /// What a policy gains by these wishes; `None` where it may not have so many rules.
    pub(crate) fn of(
        alloc: Global,
        policy: &Policy,
        wishes: &[Wish],
    ) -> Result<Option<Gains>, Memory>
        ensures { IfOk result (λ gains. MatchOption gains
            (1024 < length policy.now.rules + length (grants_from policy.now [] wishes.now))
            (λ g. IsGained policy.now wishes.now g.rules.items)) }
    {
        let room = MAX_RULES - policy.count();
        let mut gains = Gains::new(alloc);
        for wish in wishes {
            gains.take(alloc, policy, wish)?;
            if gains.rules.len() > room {
                return Ok(None);
            }
        }
        put_folders(alloc, gains.rules.as_slice(), &mut gains.page)?;
        Ok(Some(gains))
    }
}
