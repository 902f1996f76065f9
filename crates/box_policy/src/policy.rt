// Rules, and what they decide.
ghost use Rattle.std.specs.Prelude.{◌≡◌, ℕ, ◌≤◌, ◌<◌, true, length, None, Some, option_map, IfOk, IfErr};
ghost use Rattle.toml.specs.View.{table_view};
ghost use Rattle.box_policy.specs.Counts.{cleared, is_used_up_at, noted, used};
ghost use Rattle.box_policy.specs.Decisions.{decision, decision_from, outlook, outlook_by};
ghost use Rattle.box_policy.specs.Files.{is_of_files, speaks_of_files};
ghost use Rattle.box_policy.specs.Fits.{is_readable};
ghost use Rattle.box_policy.specs.Short.{are_short};
ghost use Rattle.box_policy.specs.Rebased.{IsRefusedUnder, WrittenUnder, base_refusal, rebased};
ghost use Rattle.box_policy.specs.Refusals.{IsRefused, IsRefusedBy, refusal};
ghost use Rattle.box_policy.specs.Targets.{sees};
ghost use Rattle.box_policy.specs.Words as word;
ghost use Rattle.box_policy.specs.Written.{Writes, Written};

use crate::counting::{clear_in, note_in, rule_at};
use crate::deciding::{Sight, Target, judged};
use crate::error::PolicyError;
use crate::index::Index;
use crate::names::{can_resolve, is_text};
use crate::reading::{is_base, read_document, read_rules, read_table};
use awk_text::octets::Octets;
use std::alloc::Global;
use std::marker::Model;
use toml::Table;

/// What a rule is about, and what is asked for: a file that is read, written or appended to, a
/// command, a name of the environment, or a variable that an operand assigns.
#[derive(Clone, Copy, Debug, PartialEq, Eq, Drop)]
pub enum Kind {
    Read,
    Write,
    Append,
    Run,
    Env,
    Assign,
}

/// How often a rule may allow, from 1 to 1,000,000, and how often it has.
#[derive(Clone, Copy, Debug, PartialEq, Eq, Drop)]
pub struct Quota {
    pub limit: u32,
    pub used: u32,
}

/// What a rule does with what it speaks of: it allows, a number of times where it has a limit, or it
/// denies.
#[derive(Clone, Copy, Debug, PartialEq, Eq, Drop)]
pub enum Effect {
    Allow(Option<Quota>),
    Deny,
}

/// What a policy decides: the number of the rule that allows or denies, counted from 1, or that no
/// rule speaks of it, which denies it too.
#[derive(Clone, Copy, Debug, PartialEq, Eq, Drop)]
pub enum Decision {
    Allow(u32),
    Deny(u32),
    NoRule,
}

/// What a policy decides of a subject over a whole run, however often its rules have allowed: it is
/// always allowed, or never, or as long as a rule with a limit is not used up.
#[derive(Clone, Copy, Debug, PartialEq, Eq, Drop)]
pub enum Outlook {
    Always,
    Never,
    Sometimes,
}

/// One rule. `only_given` says that it speaks of operand words alone; the pattern stands as it is
/// written.
#[derive(Drop)]
pub struct Rule {
    pub effect: Effect,
    pub kind: Kind,
    pub only_given: bool,
    pub pattern: Octets,
}

/// The rules of a policy in their order, at most 1,024, with the base that relative paths stand
/// under. Of each rule that has a limit it holds how often that has allowed.
#[derive(Drop)]
pub struct Policy {
    base: Octets,
    rules: Vec<Rule>,
    index: Index,
}

/// The most rules that a policy may have.
pub const MAX_RULES: usize = 1024;

/// The most bytes that a pattern may have.
pub const MAX_PATTERN: usize = 4096;

/// The most requests that a rule's limit may name.
pub const MAX_LIMIT: i64 = 1_000_000;

impl Model for Policy {
    ghost use Rattle.std.specs.Prelude.{length, ◌≤◌, ◌≡◌, true};
    ghost use Rattle.box_policy.specs.Rulebook.{Rulebook};

    ghost Value = { Rulebook };

    ghost view = { λ p. record { base = p.base; rules = p.rules.items } };

    ghost use Rattle.box_policy.specs.Shelves.{IsIndex};
    ghost use Rattle.box_policy.specs.Short.{are_short};

    ghost invariant = { λ p. (length p.rules.items ≤ 1024) × (are_short p.rules.items ≡ true)
        × IsIndex p.rules.items p.index };
}

fn outlook_by(first: Decision, lasting: Decision) -> Outlook
    ensures { result ≡ outlook_by first lasting }
{
    match (first, lasting) {
        (_, Decision::Allow(_)) => Outlook::Always,
        (Decision::Allow(_), _) => Outlook::Sometimes,
        _ => Outlook::Never,
    }
}

impl Policy {
    /// The policy that a text writes: a TOML document with `version` 1 or 2, an absolute `base`, and an
    /// array of tables `rule`, which may be absent. A rule has `effect` (`"allow"`, `"deny"`), `kind`
    /// (`"read"`, `"write"`, `"append"`, `"run"`, `"env"`, `"assign"`), `match`, and for read and
    /// assign alone it may have `from` (`"any"`, or `"given"` for operand words alone). In version 2 a
    /// rule that allows may have `limit`, a whole number from 1 to 1,000,000: how many requests it may
    /// allow. No rule has allowed anything yet.
    ///
    /// The `match` of read, write and append is a path under the base: the component `**` stands for
    /// any number of components, and inside another one `*` stands for any run of bytes and `?` for
    /// any one byte. That of run is a command: `**` stands for any run of bytes, and `*` for any run
    /// of ASCII letters, digits and `_-./:,=+@%`. That of env and assign is a name, in which `*`
    /// stands for any run of letters, digits and `_`.
    ///
    /// Refused in this order, memory aside: a text that is not UTF-8 or no TOML document; an unknown
    /// key; the version; the base; a `rule` that is not an array of tables; more than 1,024 rules;
    /// and then rule by rule an unknown or missing key, a wrong value, a `match` over 4,096 bytes,
    /// and a pattern that is not one of its kind. `PolicyError::code` tells which.
    pub fn read(alloc: Global, bytes: &[u8]) -> Result<Policy, PolicyError>
        ensures ok { IfOk result (Written bytes.now) }
        ensures refused { IfErr result (IsRefused bytes.now) }
    {
        let table = read_table(alloc, bytes)?;
        Policy::from_table(alloc, &table)
    }

    fn from_table(alloc: Global, table: &Table) -> Result<Policy, PolicyError>
        ensures ok { IfOk result (Writes (table_view table.now)) }
        ensures refused { IfErr result (IsRefusedBy (refusal (table_view table.now))) }
    {
        let document = read_document(table)?;
        let base = Octets::of(alloc, document.base.as_bytes())?;
        let rules = read_rules(
            alloc,
            document.version,
            document.base.as_bytes(),
            document.rules,
        )?;
        let index = Index::of(alloc, rules.as_slice())?;
        Ok(Policy { base, rules, index })
    }

    /// As [`Policy::read`], with this base in place of the text's own where one is given. The text needs a base of its
    /// own all the same, and is refused before the one that is given.
    pub fn read_under(
        alloc: Global,
        bytes: &[u8],
        base: Option<&[u8]>,
    ) -> Result<Policy, PolicyError>
        ensures ok { IfOk result (WrittenUnder (option_map (λ b. b.now) base.entry) bytes.now) }
        ensures refused { IfErr result (IsRefusedUnder (option_map (λ b. b.now) base.entry) bytes.now) }
    {
        let policy = Policy::read(alloc, bytes)?;
        match base {
            Some(base) => policy.with_base(alloc, base),
            None => Ok(policy),
        }
    }

    /// The same rules under this base, so that one policy serves many folders. A rule whose pattern begins with `/`
    /// means what it meant, and any other one what it would mean in a text with this base.
    ///
    /// Refused with `PolicyError::BASE` where no policy may have it: it is not absolute, holds `*`, `?` or NUL, has a
    /// component `..` or is not UTF-8.
    pub fn with_base(self, alloc: Global, base: &[u8]) -> Result<Policy, PolicyError>
        ensures base { IfOk result (λ policy. base_refusal base.now ≡ None) }
        ensures ok { IfOk result (λ policy. policy ≡ rebased base.now self) }
        ensures refused { IfErr result (IsRefusedBy (base_refusal base.now)) }
    {
        if !is_base(base) {
            return Err(PolicyError::new(PolicyError::BASE));
        }
        let base = Octets::of(alloc, base)?;
        let Policy { rules, index, .. } = self;
        Ok(Policy { base, rules, index })
    }

    /// Whether a policy may have this base. Takes no memory.
    pub fn may_have(base: &[u8]) -> bool
        ensures { result ≡ word.is_base (Some base.now) }
    {
        is_base(base)
    }

    /// What the first rule of this kind decides whose `from` holds and whose pattern fits the
    /// subject: a path, a command or a name. A rule that has allowed as often as its limit says is not
    /// looked at. `given` says that the subject is an operand word that the run was started with.
    /// Takes no memory. A rule whose pattern has no `*` (nor `?`, in a path) takes one comparison in
    /// time, and any other at most the product of the lengths of its pattern and the subject over the
    /// width of a word.
    pub fn decide(&self, kind: Kind, subject: &[u8], given: bool) -> Decision
        ensures { result ≡ decision self.now kind subject.now given }
    {
        self.first(Sight::Left, kind, subject, given)
    }

    /// What `decide` answers of the same over a whole run: `Always` where the first rule without a
    /// limit that fits allows; `Never` where it does not, or is not there, and none with a limit fits
    /// before it; else `Sometimes`. It does not look at what was counted. Takes no memory.
    pub fn outlook(&self, kind: Kind, subject: &[u8], given: bool) -> Outlook
        ensures { result ≡ outlook self.now kind subject.now given }
    {
        let first = self.first(Sight::All, kind, subject, given);
        let lasting = self.first(Sight::Lasting, kind, subject, given);
        outlook_by(first, lasting)
    }

    /// What the first of these rules decides that fits.
    fn first(&self, sight: Sight, kind: Kind, subject: &[u8], given: bool) -> Decision
        ensures { result ≡ decision_from (sees sight) 1 self.now.base self.now.rules kind subject.now given }
    {
        let base = self.base.bytes();
        if !is_readable(base, kind, subject) {
            return Decision::NoRule;
        }
        let target = Target::of(base, kind, subject);
        judged(&self.index, self.rules.as_slice(), sight, target, given)
    }

    /// Counts one more request that the rule of this number has allowed. Nothing changes where the rule
    /// is not there, has no limit or is used up. Takes no memory.
    pub fn note(&mut self, rule: u32)
        ensures { self.new ≡ noted rule self.old }
    {
        note_in(&mut self.rules, rule);
    }

    /// How many requests the rule of this number has allowed: those that were noted. 0 where the rule
    /// is not there or has no limit. Takes no memory.
    pub fn used(&self, rule: u32) -> u64
        ensures { result ≡ used self.now rule }
    {
        match rule_at(self.rules.as_slice(), rule) {
            Some(rule) => rule.effect.used() as u64,
            None => 0,
        }
    }

    /// Whether the rule of this number has allowed as many requests as its limit says. Takes no memory.
    pub fn is_used_up(&self, rule: u32) -> bool
        ensures { result ≡ is_used_up_at self.now rule }
    {
        match rule_at(self.rules.as_slice(), rule) {
            Some(rule) => rule.is_used_up(),
            None => false,
        }
    }

    /// Makes all counts 0, as before a run. Takes no memory.
    pub fn clear(&mut self)
        ensures { self.new ≡ cleared self.old }
    {
        clear_in(&mut self.rules);
    }

    /// The path that relative ones stand under, as it is written. Takes no memory.
    pub fn base(&self) -> &[u8]
        ensures { result.now ≡ self.now.base }
    {
        self.base.bytes()
    }

    /// The rules in their order. Takes no memory.
    pub fn rules(&self) -> &[Rule]
        ensures rules { result.now ≡ self.now.rules }
        ensures few { length result.now ≤ 1024 }
        ensures short { are_short result.now ≡ true }
    {
        self.rules.as_slice()
    }

    /// Whether a rule is of kind read, write or append: whether the policy speaks of files. Takes no
    /// memory.
    pub fn speaks_of_files(&self) -> bool
        ensures { result ≡ speaks_of_files self.now }
    {
        self.rules.iter().any(|rule| is_of_files(rule.kind))
    }

    /// The number of rules, at most 1,024. Takes no memory.
    pub fn count(&self) -> usize
        ensures count { result ≡ length self.now.rules }
        ensures limit { result ≤ 1024 }
    {
        self.rules.len()
    }
}

pub(crate) fn is_of_files(kind: Kind) -> bool
    ensures { result ≡ is_of_files kind }
{
    match kind {
        Kind::Read | Kind::Write | Kind::Append => true,
        Kind::Run | Kind::Env | Kind::Assign => false,
    }
}

pub(crate) fn is_readable(base: &[u8], kind: Kind, subject: &[u8]) -> bool
    ensures { result ≡ is_readable base.now kind subject.now }
{
    match kind {
        Kind::Read | Kind::Write | Kind::Append => can_resolve(base, subject),
        Kind::Run => is_text(subject),
        Kind::Env | Kind::Assign => true,
    }
}
