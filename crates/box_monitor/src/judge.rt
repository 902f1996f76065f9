// What a policy decides, kept for what is asked again.
ghost use Rattle.std.specs.Prelude.{◌≡◌, drop, IfOk, IfSome};
ghost use Rattle.std.proofs.Common.{ap};
ghost use Rattle.std.specs.Cmp as Cmp;
ghost use Rattle.std.specs.Cmp.{on_equiv, on_per};
ghost use Rattle.std.specs.Cmp.Lexicographic.{bytes_decides, nat_list_eq_equiv};
ghost use Rattle.std.specs.Str.{bytes_eq};
ghost use Rattle.awk_hash.specs.Pieces.{pieces};
ghost use Rattle.box_policy.specs.Counts.{cleared, noted};
ghost use Rattle.box_policy.specs.Decisions.{decision};
ghost use Rattle.box_policy.specs.Rulebook.{Rulebook};
ghost use Rattle.box_monitor.specs.Judged.{spelled, AreDecided};

use awk_hash::{Seed, write_text};
use awk_text::Memory;
use box_policy::policy::{Decision, Kind, Policy};
use lru::LruCache;
use std::alloc::Global;
use std::collections::hash_map::Equivalent;
use std::hash::{Hash, Hasher};
use std::marker::Model;
use std::num::NonZeroUsize;

/// How many decisions are kept.
const MOST_KEPT: usize = 256;

/// The most bytes of a path, command or name whose decision is kept.
const MOST_BYTES: usize = 4096;

/// What is decided on, lent: a path, a command or a name, what is to be done with it, and whether it is an
/// operand word that the run was started with.
#[derive(Clone, Copy, Drop)]
pub struct Question<'a> {
    pub kind: Kind,
    pub given: bool,
    pub text: &'a [u8],
}

/// What was decided on. It is hashed at once, as a derived `Hash` would not do.
#[derive(Drop)]
struct KeptQuestion {
    kind: Kind,
    given: bool,
    text: Vec<u8>,
}

/// The decisions that were asked for last.
type Cache = LruCache<KeptQuestion, Decision, Seed>;

/// A policy, and what it decided last. Contracts see the policy alone.
#[derive(Drop)]
pub struct Judge {
    policy: Policy,
    /// `None` until a decision is first kept, and once more where a rule is used up, which may change each one.
    cache: Option<Cache>,
    seed: Seed,
}

impl Model for Judge {
    ghost use Rattle.std.specs.Prelude.{MatchOption};
    ghost use Rattle.box_policy.specs.Rulebook.{Rulebook};
    ghost use Rattle.box_monitor.specs.Judged.{AreDecided};

    ghost Value = { Rulebook };

    ghost view = { λ j. j.policy };

    ghost invariant = { λ j. MatchOption j.cache (Unit {0}) (λ c. AreDecided j.policy c.entries) };
}

fn are_same(one: Question<'_>, other: Question<'_>) -> bool
    ensures { result ≡ bytes_eq (spelled one.entry.kind one.entry.given one.entry.text.now)
        (spelled other.entry.kind other.entry.given other.entry.text.now) }
{
    one.kind == other.kind && one.given == other.given && one.text == other.text
}

impl Question<'_> {
    /// The question with a text of its own, or `Memory` where memory is refused.
    fn kept(&self, alloc: Global) -> Result<KeptQuestion, Memory>
        ensures kind { IfOk result (λ k. k.kind ≡ self.now.kind) }
        ensures given { IfOk result (λ k. k.given ≡ self.now.given) }
        ensures text { IfOk result (λ k. k.text.items ≡ self.now.text.now) }
    {
        Ok(KeptQuestion {
            kind: self.kind,
            given: self.given,
            text: Vec::from_slice(alloc, self.text)?,
        })
    }
}

impl KeptQuestion {
    fn lent(&self) -> Question<'_>
        ensures kind { result.kind ≡ self.now.kind }
        ensures given { result.given ≡ self.now.given }
        ensures text { result.text.now ≡ self.now.text.items }
    {
        Question {
            kind: self.kind,
            given: self.given,
            text: self.text.as_slice(),
        }
    }
}

impl PartialEq for KeptQuestion {
    ghost eq = { λ x y. bytes_eq (spelled x.kind x.given x.text.items) (spelled y.kind y.given y.text.items) };

    ghost laws = { on_per (λ q. spelled q.kind q.given q.text.items) (Cmp.partial_equiv_from_equiv nat_list_eq_equiv) };

    fn eq(&self, other: &Self) -> bool {
        are_same(self.lent(), other.lent())
    }
}

impl Eq for KeptQuestion {
    ghost laws = { on_equiv (λ q. spelled q.kind q.given q.text.items) nat_list_eq_equiv };
}

impl Hash for KeptQuestion {
    ghost hash_input = { λ q. pieces q.text.items };

    ghost respects_eq = { λ x y h. ap (λ l. pieces (drop 2 l))
        ((bytes_decides (spelled x.kind x.given x.text.items) (spelled y.kind y.given y.text.items)).0 h) };

    fn hash<H: Hasher>(&self, state: &mut H) {
        write_text(state, self.text.as_slice());
    }
}

impl PartialEq for Question<'_> {
    ghost eq = { λ x y. bytes_eq (spelled x.kind x.given x.text.now) (spelled y.kind y.given y.text.now) };

    ghost laws = { on_per (λ q. spelled q.kind q.given q.text.now) (Cmp.partial_equiv_from_equiv nat_list_eq_equiv) };

    fn eq(&self, other: &Self) -> bool {
        are_same(*self, *other)
    }
}

impl Eq for Question<'_> {
    ghost laws = { on_equiv (λ q. spelled q.kind q.given q.text.now) nat_list_eq_equiv };
}

impl Hash for Question<'_> {
    ghost hash_input = { λ q. pieces q.text.now };

    ghost respects_eq = { λ x y h. ap (λ l. pieces (drop 2 l))
        ((bytes_decides (spelled x.kind x.given x.text.now) (spelled y.kind y.given y.text.now)).0 h) };

    fn hash<H: Hasher>(&self, state: &mut H) {
        write_text(state, self.text);
    }
}

impl Equivalent<KeptQuestion> for Question<'_> {
    ghost equivalent = { λ q k. bytes_eq (spelled q.kind q.given q.text.now) (spelled k.kind k.given k.text.items) };

    ghost respects_hash = { λ q k h. ap (λ l. pieces (drop 2 l))
        ((bytes_decides (spelled q.kind q.given q.text.now) (spelled k.kind k.given k.text.items)).0 h) };

    ghost respects_eq = { λ q x y. nat_list_eq_equiv.congr (spelled q.kind q.given q.text.now)
        (spelled x.kind x.given x.text.items) (spelled y.kind y.given y.text.items) };

    fn equivalent(&self, kept: &KeptQuestion) -> bool {
        are_same(*self, kept.lent())
    }
}

/// The decision that is kept of this question, which is then the one asked for last.
fn recalled(cache: &mut Cache, question: Question<'_>) -> Option<Decision>
    ensures found { (book : Rulebook) → AreDecided book cache.old.entries →
        IfSome result (λ d. d ≡ decision book question.entry.kind question.entry.text.now question.entry.given) }
    ensures kept { (book : Rulebook) → AreDecided book cache.old.entries → AreDecided book cache.new.entries }
{
    cache.get(question).copied()
}

/// Keeps the decision, in place of the one that was asked for longest ago where the cache is full.
fn store(
    alloc: Global,
    cache: &mut Cache,
    question: Question<'_>,
    made: Decision,
) -> Result<(), Memory>
    ensures { (book : Rulebook) → AreDecided book cache.old.entries →
        made ≡ decision book question.entry.kind question.entry.text.now question.entry.given →
        AreDecided book cache.new.entries }
{
    let kept = question.kept(alloc)?;
    cache.put(kept, made)?;
    Ok(())
}

impl Judge {
    /// The policy, of which no rule has allowed anything yet. What was decided on is hashed by this seed. Takes no
    /// memory.
    pub fn new(seed: Seed, policy: Policy) -> Judge
        ensures { result ≡ cleared policy }
    {
        let mut policy = policy;
        policy.clear();
        Judge {
            policy,
            cache: None,
            seed,
        }
    }

    /// The policy with its counts, given back. Takes no memory.
    pub fn into_policy(self) -> Policy
        ensures { result ≡ self }
    {
        self.policy
    }

    /// Counts one more request that the rule of this number has allowed. Takes no memory.
    pub fn note(&mut self, rule: u32)
        ensures { self.new ≡ noted rule self.old }
    {
        self.policy.note(rule);
        if self.policy.is_used_up(rule) {
            self.cache = None;
        }
    }

    /// What was decided on this question, if that is kept.
    fn recall(&mut self, question: Question<'_>) -> Option<Decision>
        ensures found { IfSome result
            (λ d. d ≡ decision self.old question.entry.kind question.entry.text.now question.entry.given) }
        ensures same { self.new ≡ self.old }
    {
        if let Some(cache) = &mut self.cache {
            return recalled(cache, question);
        }
        None
    }

    /// Keeps the decision, or leaves all as it is where memory is refused.
    fn keep(&mut self, alloc: Global, question: Question<'_>, made: Decision) -> Result<(), Memory>
        requires { made ≡ decision self.old question.kind question.text.now question.given }
        ensures { self.new ≡ self.old }
    {
        if let Some(cache) = &mut self.cache {
            return store(alloc, cache, question, made);
        }
        let most = NonZeroUsize::new(MOST_KEPT).unwrap();
        let mut cache = LruCache::with_hasher(alloc, most, self.seed)?;
        store(alloc, &mut cache, question, made)?;
        self.cache = Some(cache);
        Ok(())
    }

    /// What the policy decides, now or before. Where memory is refused, the decision is made and not kept.
    pub fn decide(&mut self, alloc: Global, question: Question<'_>) -> Decision
        ensures value { result ≡ decision self.old question.entry.kind question.entry.text.now question.entry.given }
        ensures same { self.new ≡ self.old }
    {
        let Question { kind, given, text } = question;
        if text.len() > MOST_BYTES {
            return self.policy.decide(kind, text, given);
        }
        if let Some(kept) = self.recall(question) {
            return kept;
        }
        let made = self.policy.decide(kind, text, given);
        let _ = self.keep(alloc, question, made);
        made
    }
}
