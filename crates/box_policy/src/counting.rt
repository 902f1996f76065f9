// How often rules have allowed.
ghost use Rattle.std.specs.Prelude.{◌≡◌, map, nat_le};
ghost use Rattle.std.specs.Option.{option_map};
ghost use Rattle.box_policy.specs.Counts as spec;
ghost use Rattle.box_policy.specs.Counts.{effect_cleared, effect_counted, is_limited_by, is_used_up_by, rule_at};
ghost use Rattle.box_policy.specs.Counts.{rule_cleared, rules_noted, used_by};

use crate::policy::{Effect, Quota, Rule};

impl Effect {
    fn is_limited(self) -> bool
        ensures { result ≡ is_limited_by self }
    {
        matches!(self, Effect::Allow(Some(_)))
    }

    fn is_used_up(self) -> bool
        ensures { result ≡ is_used_up_by self }
    {
        match self {
            Effect::Allow(Some(quota)) => quota.is_spent(),
            Effect::Allow(None) | Effect::Deny => false,
        }
    }

    pub(crate) fn used(self) -> u32
        ensures { result ≡ used_by self }
    {
        match self {
            Effect::Allow(Some(quota)) => quota.used,
            Effect::Allow(None) | Effect::Deny => 0,
        }
    }

    /// The effect once it has allowed once more.
    fn counted(self) -> Effect
        ensures { result ≡ effect_counted self }
    {
        match self {
            Effect::Allow(Some(quota)) => Effect::Allow(Some(quota.one_more())),
            Effect::Allow(None) | Effect::Deny => self,
        }
    }

    /// The effect before it has allowed anything.
    fn cleared(self) -> Effect
        ensures { result ≡ effect_cleared self }
    {
        match self {
            Effect::Allow(Some(quota)) => Effect::Allow(Some(quota.unused())),
            Effect::Allow(None) | Effect::Deny => self,
        }
    }
}

impl Quota {
    fn is_spent(self) -> bool
        ensures { result ≡ nat_le self.limit self.used }
    {
        self.limit <= self.used
    }

    fn one_more(self) -> Quota
        ensures { result ≡ spec.one_more self }
    {
        if self.used < self.limit {
            Quota {
                used: self.used + 1,
                ..self
            }
        } else {
            self
        }
    }

    fn unused(self) -> Quota
        ensures { result ≡ spec.unused self }
    {
        Quota { used: 0, ..self }
    }
}

impl Rule {
    /// Whether it may allow a number of times alone.
    pub(crate) fn is_limited(&self) -> bool
        ensures { result ≡ spec.is_limited self.now }
    {
        self.effect.is_limited()
    }

    /// Whether it has allowed as often as it may.
    pub(crate) fn is_used_up(&self) -> bool
        ensures { result ≡ spec.is_used_up self.now }
    {
        self.effect.is_used_up()
    }

    fn count(&mut self)
        ensures { self.new ≡ spec.counted self.old }
    {
        self.effect = self.effect.counted();
    }

    fn clear(&mut self)
        ensures { self.new ≡ rule_cleared self.old }
    {
        self.effect = self.effect.cleared();
    }
}

/// The rule of this number, where it is there.
pub(crate) fn rule_at(rules: &[Rule], number: u32) -> Option<&Rule>
    ensures { option_map (λ rule. rule.now) result ≡ rule_at number rules.now }
{
    match number {
        0 => None,
        _ => rules.get(number as usize - 1),
    }
}

/// Counts one more request that the rule of this number has allowed.
pub(crate) fn note_in(rules: &mut Vec<Rule>, number: u32)
    ensures { rules.new.items ≡ rules_noted number rules.old.items }
{
    if number == 0 {
        return;
    }
    if let Some(rule) = rules.get_mut(number as usize - 1) {
        rule.count();
    }
}

/// Makes all counts 0.
pub(crate) fn clear_in(rules: &mut Vec<Rule>)
    ensures { rules.new.items ≡ map rule_cleared rules.old.items }
{
    for rule in rules.iter_mut() {
        rule.clear();
    }
}
