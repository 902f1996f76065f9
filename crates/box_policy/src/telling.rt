// Which rules of a policy speak of a subject, for a person who asks why it decides as it does.
ghost use Rattle.std.specs.Prelude.{◌≡◌, ◌≤◌, length, nat_eq, IfOk};
ghost use Rattle.box_policy.specs.Decisions.{kind_number, speaks as spec_speaks};
ghost use Rattle.box_policy.specs.Telling.{told_from};

use crate::deciding::{Target, speaks};
use crate::policy::{Kind, Policy, Rule, is_readable};
use awk_text::Memory;
use std::alloc::Global;

/// A rule of the kind that is asked for: its number, counted from 1, and whether it speaks of the subject.
#[derive(Clone, Copy, Debug, PartialEq, Eq, Drop)]
pub struct Told {
    pub number: u32,
    pub fits: bool,
}

fn is_of(rule: &Rule, kind: Kind) -> bool
    ensures { result ≡ nat_eq (kind_number rule.now.kind) (kind_number kind) }
{
    rule.kind == kind
}

impl Policy {
    /// Whether the rule, which is one of this policy, speaks of the subject. How often it has allowed does not count.
    /// Takes no memory.
    pub fn speaks(&self, rule: &Rule, kind: Kind, subject: &[u8], given: bool) -> bool
        requires short { length rule.now.pattern ≤ 4096 }
        ensures { result ≡ spec_speaks self.now.base rule.now kind subject.now given }
    {
        let base = self.base();
        if !is_readable(base, kind, subject) {
            return false;
        }
        speaks(Target::of(base, kind, subject), rule, given)
    }

    /// The rules of this kind in their order, each with whether it speaks of the subject: its `from` holds
    /// and its pattern fits. How often it has allowed does not count. `decide` tells which of them decides.
    /// `Memory` where memory is refused.
    pub fn told(
        &self,
        alloc: Global,
        kind: Kind,
        subject: &[u8],
        given: bool,
    ) -> Result<Vec<Told>, Memory>
        ensures { IfOk result (λ told. told.items ≡ told_from 1 self.now.base self.now.rules kind subject.now given) }
    {
        let all = self.rules();
        let mut told = Vec::new(alloc);
        let mut number = 0u32;
        for rule in all {
            number += 1;
            if !is_of(rule, kind) {
                continue;
            }
            let fits = self.speaks(rule, kind, subject, given);
            told.push(Told { number, fits })?;
        }
        Ok(told)
    }
}
