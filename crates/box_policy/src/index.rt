// Where the rules that may speak of a subject are found.
ghost use Rattle.std.specs.Prelude.{◌≡◌, ◌≤◌, ◌<◌, ◌+◌, [], ◌∷◌, Some, List, length, drop, slice_get, IfOk};
ghost use Rattle.std.proofs.Common.{ap};
ghost use Rattle.std.specs.Cmp as Cmp;
ghost use Rattle.std.specs.Cmp.{on_equiv, on_per};
ghost use Rattle.std.specs.Cmp.Lexicographic.{bytes_decides, nat_list_eq_equiv};
ghost use Rattle.std.specs.Str.{bytes_eq};
ghost use Rattle.box_policy.specs.declared.policy.Rule.{Rule as RuleOf};
ghost use Rattle.box_policy.specs.Shelves.{shelf, shelf_of, first_of, stands, chain, IsIndex};

use crate::matching::is_plain;
use crate::names::{first_name, is_absolute};
use crate::policy::{Kind, Rule, is_of_files};
use crate::tokens::Sort;
use awk_text::Memory;
use indexmap::{Equivalent, IndexMap};
use std::alloc::Global;
use std::hash::{Hash, Hasher};

/// How the rules of one kind are told apart, beside their first components.
#[derive(Clone, Copy, Debug, PartialEq, Eq, Drop)]
pub(crate) enum Group {
    /// Absolute patterns whose first component has no `*` and no `?`.
    Rooted,
    /// Relative ones.
    Under,
    /// All others.
    Other,
}

/// Which rules stand together, lent: those of one kind and group and with one first component, which is empty in
/// the group of the others.
#[derive(Clone, Copy, Drop)]
pub(crate) struct Shelf<'a> {
    pub(crate) kind: Kind,
    pub(crate) group: Group,
    pub(crate) first: &'a [u8],
}

/// Which rules stand together. It is hashed at once, as a derived `Hash` would not do.
#[derive(Drop)]
struct KeptShelf {
    kind: Kind,
    group: Group,
    first: Vec<u8>,
}

fn are_same(one: Shelf<'_>, other: Shelf<'_>) -> bool
    ensures { result ≡ bytes_eq (shelf one.entry.kind one.entry.group one.entry.first.now)
        (shelf other.entry.kind other.entry.group other.entry.first.now) }
{
    one.kind == other.kind && one.group == other.group && one.first == other.first
}

impl Shelf<'_> {
    fn kept(&self, alloc: Global) -> Result<KeptShelf, Memory>
        ensures { IfOk result (λ k. shelf k.kind k.group k.first.items
            ≡ shelf self.now.kind self.now.group self.now.first.now) }
    {
        Ok(KeptShelf {
            kind: self.kind,
            group: self.group,
            first: Vec::from_slice(alloc, self.first)?,
        })
    }
}

impl KeptShelf {
    fn lent(&self) -> Shelf<'_>
        ensures { shelf result.kind result.group result.first.now
            ≡ shelf self.now.kind self.now.group self.now.first.items }
    {
        Shelf {
            kind: self.kind,
            group: self.group,
            first: self.first.as_slice(),
        }
    }
}

impl PartialEq for KeptShelf {
    ghost eq = { λ x y. bytes_eq (shelf x.kind x.group x.first.items) (shelf y.kind y.group y.first.items) };

    ghost laws = { on_per (λ s. shelf s.kind s.group s.first.items) (Cmp.partial_equiv_from_equiv nat_list_eq_equiv) };

    fn eq(&self, other: &Self) -> bool {
        are_same(self.lent(), other.lent())
    }
}

impl Eq for KeptShelf {
    ghost laws = { on_equiv (λ s. shelf s.kind s.group s.first.items) nat_list_eq_equiv };
}

impl Hash for KeptShelf {
    ghost hash_input = { λ s. s.first.items ∷ [] };

    ghost respects_eq = { λ x y h. ap (λ l. drop 2 l ∷ [])
        ((bytes_decides (shelf x.kind x.group x.first.items) (shelf y.kind y.group y.first.items)).0 h) };

    fn hash<H: Hasher>(&self, state: &mut H) {
        state.write(self.first.as_slice());
    }
}

impl PartialEq for Shelf<'_> {
    ghost eq = { λ x y. bytes_eq (shelf x.kind x.group x.first.now) (shelf y.kind y.group y.first.now) };

    ghost laws = { on_per (λ s. shelf s.kind s.group s.first.now) (Cmp.partial_equiv_from_equiv nat_list_eq_equiv) };

    fn eq(&self, other: &Self) -> bool {
        are_same(*self, *other)
    }
}

impl Eq for Shelf<'_> {
    ghost laws = { on_equiv (λ s. shelf s.kind s.group s.first.now) nat_list_eq_equiv };
}

impl Hash for Shelf<'_> {
    ghost hash_input = { λ s. s.first.now ∷ [] };

    ghost respects_eq = { λ x y h. ap (λ l. drop 2 l ∷ [])
        ((bytes_decides (shelf x.kind x.group x.first.now) (shelf y.kind y.group y.first.now)).0 h) };

    fn hash<H: Hasher>(&self, state: &mut H) {
        state.write(self.first);
    }
}

impl Equivalent<KeptShelf> for Shelf<'_> {
    ghost equivalent = { λ q s. bytes_eq (shelf q.kind q.group q.first.now) (shelf s.kind s.group s.first.items) };

    ghost respects_hash = { λ q s h. ap (λ l. drop 2 l ∷ [])
        ((bytes_decides (shelf q.kind q.group q.first.now) (shelf s.kind s.group s.first.items)).0 h) };

    ghost respects_eq = { λ q x y. nat_list_eq_equiv.congr (shelf q.kind q.group q.first.now)
        (shelf x.kind x.group x.first.items) (shelf y.kind y.group y.first.items) };

    fn equivalent(&self, kept: &KeptShelf) -> bool {
        are_same(*self, kept.lent())
    }
}

/// Where a rule stands.
fn shelf_of(rule: &Rule) -> Shelf<'_>
    ensures { shelf result.kind result.group result.first.now ≡ shelf_of rule.now }
{
    let kind = rule.kind;
    let pattern = rule.pattern.bytes();
    let other = Shelf {
        kind,
        group: Group::Other,
        first: &[],
    };
    if !is_of_files(kind) {
        return other;
    }
    let Some((first, _)) = first_name(pattern) else {
        return other;
    };
    if !is_plain(Sort::Component, first) {
        return other;
    }
    let group = if is_absolute(pattern) {
        Group::Rooted
    } else {
        Group::Under
    };
    Shelf { kind, group, first }
}

/// Of each shelf the number of its first rule, and of each rule that of the next one on its shelf.
#[derive(Drop)]
pub(crate) struct Index {
    firsts: IndexMap<KeptShelf, u32>,
    nexts: Vec<Option<u32>>,
}

impl Index {
    /// The index of the rules, from the last rule to the first.
    pub(crate) fn of(alloc: Global, rules: &[Rule]) -> Result<Index, Memory>
        requires { length rules.now ≤ 1024 }
        ensures { IfOk result (IsIndex rules.now) }
    {
        let mut firsts = IndexMap::new(alloc);
        let mut nexts = Vec::new(alloc);
        let mut at = rules.len();
        while at > 0 {
            let number = at as u32;
            at -= 1;
            let kept = shelf_of(&rules[at]).kept(alloc)?;
            let next = firsts.insert(kept, number)?;
            nexts.push(next)?;
        }
        nexts.reverse();
        Ok(Index { firsts, nexts })
    }

    /// The first rule of the shelf. Takes no memory.
    pub(crate) fn first(&self, sought: Shelf<'_>) -> Option<u32>
        ensures { (rules : List RuleOf) → IsIndex rules self.now →
            result ≡ first_of (stands (shelf sought.entry.kind sought.entry.group sought.entry.first.now)) 1 rules }
    {
        self.firsts.get(sought).copied()
    }

    /// The next rule on the shelf of the one at this place. Takes no memory.
    pub(crate) fn next(&self, at: usize) -> Option<u32>
        requires { at < length self.now.nexts.items }
        ensures { slice_get self.now.nexts.items at ≡ Some result }
    {
        self.nexts[at]
    }
}
