// A policy that allows more.
ghost use Rattle.std.specs.Prelude.{◌≡◌, ◌⊎◌, ◌++◌, [], true, Some, option_map, IfOk, IfErr, IfSome};
ghost use Rattle.box_policy.specs.Paths.{is_absolute};
ghost use Rattle.box_policy.specs.Rebased.{WrittenUnder};
ghost use Rattle.box_policy.specs.Rulebook.{Rulebook};
ghost use Rattle.box_policy.specs.Words.{has_wildcard, is_base};
ghost use Rattle.box_policy.specs.Written.{Written};
ghost use Rattle.box_advice.specs.Proposals.{IsBaseRefused, IsGainRefused, IsNotPrinted, IsProposalRefused};
ghost use Rattle.box_advice.specs.Proposals.{IsStartRefused, IsText, IsTextRefused, Proposes, Starts, base_of};
ghost use Rattle.box_advice.specs.Proposals.{has_base, with_gained};
ghost use Rattle.box_advice.specs.Wishes.{grants_from};
ghost use Rattle.box_advice.specs.declared.proposing.ProposalError.TheVariants.{Memory as OutOfMemory, Misprinted};

use crate::covers::{are_of_one_kind, are_one};
use crate::printing::{bare_text, policy_text};
use crate::wanting::Gains;
use crate::wishes::Wish;
use awk_text::Memory;
use box_policy::error::PolicyError;
use box_policy::path::normal;
use box_policy::policy::{Effect, Policy, Quota, Rule};
use std::alloc::{AllocError, Global};
use std::error::Error;
use std::fmt;

/// The most bytes that a policy may have which the program reads.
const MAX_TEXT: usize = 16_777_216;

/// What a proposal begins with: a policy without rules, under this base, or the policy of this text, under its own base
/// or the one that is given. The text keeps its own.
#[derive(Clone, Copy, Drop)]
pub enum Basis<'a> {
    Base(&'a str),
    Policy {
        text: &'a [u8],
        base: Option<&'a str>,
    },
}

/// Why nothing is proposed.
#[derive(Clone, Copy, Debug, Drop)]
pub enum ProposalError {
    /// The policy is refused, or the base is none.
    Policy(PolicyError),
    /// The policy would have more than 1,024 rules.
    TooManyRules,
    /// The policy would have more bytes than are read.
    TooLong,
    /// What was written does not read as it was meant. It never comes while the printer and the reader agree.
    Misprinted,
    Memory,
}

impl fmt::Display for ProposalError {
    fn fmt<W: fmt::Write>(&self, f: &mut fmt::Formatter<W>) -> fmt::Result {
        match self {
            ProposalError::Policy(error) => write!(f, "policy {error}"),
            ProposalError::TooManyRules => {
                f.write_str("the policy would have more than 1024 rules")
            }
            ProposalError::TooLong => {
                f.write_str("the policy would have more than 16777216 bytes")
            }
            ProposalError::Misprinted => f.write_str("the policy does not read as it is meant"),
            ProposalError::Memory => f.write_str("memory was refused"),
        }
    }
}

impl Error for ProposalError {}

impl From<AllocError> for ProposalError {
    ghost use Rattle.std.specs.Prelude.{◌≡◌};
    ghost use Rattle.box_advice.specs.declared.proposing.ProposalError.TheVariants.{Memory};

    ghost from_gives = { λ _ error. error ≡ Memory };

    fn from(_error: AllocError) -> ProposalError {
        ProposalError::Memory
    }
}

impl From<PolicyError> for ProposalError {
    ghost use Rattle.std.specs.Prelude.{◌≡◌};
    ghost use Rattle.box_advice.specs.Refused.{refused_by};

    ghost from_gives = { λ error refusal. refusal ≡ refused_by error };

    fn from(error: PolicyError) -> ProposalError {
        if error.code == PolicyError::MEMORY {
            ProposalError::Memory
        } else {
            ProposalError::Policy(error)
        }
    }
}

/// A policy and its text.
#[derive(Drop)]
struct WrittenPolicy {
    text: Vec<u8>,
    policy: Policy,
}

fn has_base(policy: &Policy, base: Option<&str>) -> bool
    ensures { result ≡ has_base policy.now.base (option_map (λ s. s.now) base.entry) }
{
    match base {
        Some(base) => policy.base() == base.as_bytes(),
        None => true,
    }
}

fn is_absolute(text: &[u8]) -> bool
    ensures { result ≡ is_absolute text.now }
{
    match text {
        [first, ..] => *first == b'/',
        [] => false,
    }
}

fn has_wildcard(text: &[u8]) -> bool
    ensures { result ≡ has_wildcard text.now }
{
    text.iter().any(|byte| *byte == b'*' || *byte == b'?')
}

/// Whether a policy may have this base.
fn is_base(alloc: Global, base: &[u8]) -> Result<bool, Memory>
    ensures { IfOk result (λ b. b ≡ is_base (Some base.now)) }
{
    if !is_absolute(base) || has_wildcard(base) {
        return Ok(false);
    }
    Ok(normal(alloc, base, base)?.is_some())
}

/// The policy of this text, which was written for it to be one.
fn read_back(alloc: Global, text: &[u8]) -> Result<Policy, ProposalError>
    ensures ok { IfOk result (λ policy. Written text.now policy) }
    ensures refused { IfErr result (λ error. (error ≡ Misprinted) ⊎ (error ≡ OutOfMemory)) }
{
    match Policy::read(alloc, text) {
        Ok(policy) => Ok(policy),
        Err(error) if error.code == PolicyError::MEMORY => Err(ProposalError::Memory),
        Err(_) => Err(ProposalError::Misprinted),
    }
}

/// The policy without rules under this base.
fn begun_under(alloc: Global, base: &str) -> Result<WrittenPolicy, ProposalError>
    ensures ok { IfOk result (λ begun. begun.policy ≡ record { base = base.now; rules = [] }) }
    ensures refused { IfErr result (IsBaseRefused base.now) }
{
    if !is_base(alloc, base.as_bytes())? {
        return Err(ProposalError::Policy(PolicyError {
            code: PolicyError::BASE,
            rule: 0,
        }));
    }
    begun_at(alloc, base)
}

fn begun_at(alloc: Global, base: &str) -> Result<WrittenPolicy, ProposalError>
    ensures ok { IfOk result (λ begun. begun.policy ≡ record { base = base.now; rules = [] }) }
    ensures refused { IfErr result (λ error. (error ≡ Misprinted) ⊎ (error ≡ OutOfMemory)) }
{
    let text = bare_text(alloc, base)?.into_bytes();
    let policy = read_back(alloc, text.as_slice())?;
    if !has_base(&policy, Some(base)) {
        return Err(ProposalError::Misprinted);
    }
    if policy.count() > 0 {
        return Err(ProposalError::Misprinted);
    }
    Ok(WrittenPolicy { text, policy })
}

fn bytes_of(base: Option<&str>) -> Option<&[u8]>
    ensures { option_map (λ b. b.now) result ≡ option_map (λ s. s.now) base.entry }
{
    match base {
        Some(base) => Some(base.as_bytes()),
        None => None,
    }
}

fn begun_with(
    alloc: Global,
    text: &[u8],
    base: Option<&str>,
) -> Result<WrittenPolicy, ProposalError>
    ensures ok { IfOk result (λ begun. WrittenUnder (option_map (λ s. s.now) base.entry) text.now begun.policy) }
    ensures refused { IfErr result (IsTextRefused text.now (option_map (λ s. s.now) base.entry)) }
{
    let policy = Policy::read_under(alloc, text, bytes_of(base))?;
    let text = Vec::from_slice(alloc, text)?;
    Ok(WrittenPolicy { text, policy })
}

fn begun(alloc: Global, start: Basis<'_>) -> Result<WrittenPolicy, ProposalError>
    ensures ok { IfOk result (λ begun. Starts start.entry begun.policy) }
    ensures refused { IfErr result (IsStartRefused start.entry) }
{
    match start {
        Basis::Base(base) => begun_under(alloc, base),
        Basis::Policy { text, base } => begun_with(alloc, text, base),
    }
}

/// The base that is given beside a policy.
fn base_of(start: Basis<'_>) -> Option<&str>
    ensures { option_map (λ s. s.now) result ≡ base_of start.entry }
{
    match start {
        Basis::Base(_) => None,
        Basis::Policy { base, .. } => base,
    }
}

/// The text with these lines behind it.
fn joined(alloc: Global, text: &[u8], lines: &str) -> Result<Vec<u8>, Memory> {
    let mut whole = Vec::from_slice(alloc, text)?;
    if !text.is_empty() && !text.ends_with(b"\n".as_slice()) {
        whole.push(b'\n')?;
    }
    whole.extend_from_slice(lines.as_bytes())?;
    Ok(whole)
}

fn are_same_quotas(one: Quota, other: Quota) -> bool
    ensures { result ≡ true → one ≡ other }
{
    one.limit == other.limit && one.used == other.used
}

fn are_same_effects(one: Effect, other: Effect) -> bool
    ensures { result ≡ true → one ≡ other }
{
    match (one, other) {
        (Effect::Allow(None), Effect::Allow(None)) | (Effect::Deny, Effect::Deny) => true,
        (Effect::Allow(Some(one)), Effect::Allow(Some(other))) => are_same_quotas(one, other),
        _ => false,
    }
}

fn are_same(one: &Rule, other: &Rule) -> bool
    ensures { result ≡ true → one.now ≡ other.now }
{
    are_same_effects(one.effect, other.effect)
        && are_of_one_kind(one, other)
        && one.only_given == other.only_given
        && are_one(one, other)
}

/// Whether these are the same rules in the same order.
fn are_all_same(ones: &[Rule], others: &[Rule]) -> bool
    ensures { result ≡ true → ones.now ≡ others.now }
{
    if ones.len() != others.len() {
        return false;
    }
    for i in 0..ones.len() {
        if !are_same(&ones[i], &others[i]) {
            return false;
        }
    }
    true
}

/// Whether the rules are the first ones and then the others.
fn are_joined(rules: &[Rule], first: &[Rule], others: &[Rule]) -> bool
    ensures { result ≡ true → rules.now ≡ first.now ++ others.now }
{
    if rules.len() < first.len() {
        return false;
    }
    let (front, back) = rules.split_at(first.len());
    are_all_same(front, first) && are_all_same(back, others)
}

/// Whether the text, under the base where one is given, reads as the first policy with these rules behind its own.
fn reads(
    alloc: Global,
    text: &[u8],
    base: Option<&str>,
    first: &Policy,
    gained: &[Rule],
) -> Result<bool, Memory>
    ensures { IfOk result
        (λ reads. reads ≡ true
        → WrittenUnder (option_map (λ s. s.now) base.entry) text.now (with_gained first.now gained.now)) }
{
    match Policy::read_under(alloc, text, bytes_of(base)) {
        Ok(policy) => Ok(
            policy.base() == first.base() && are_joined(policy.rules(), first.rules(), gained),
        ),
        Err(error) if error.code == PolicyError::MEMORY => Err(AllocError),
        Err(_) => Ok(false),
    }
}

/// A rule as it would stand below a policy.
const ONE_MORE: &str = "[[rule]]\neffect = \"deny\"\nkind = \"env\"\nmatch = \"A\"\n";

/// Whether the offers that stand in this text are rules once a person takes the `#` from them. Behind rules that are an
/// array in one value they are not.
fn may_be_taken(alloc: Global, text: &[u8], gains: &Gains) -> Result<bool, Memory> {
    if !gains.have_offers() {
        return Ok(true);
    }
    let more = joined(alloc, text, ONE_MORE)?;
    match Policy::read(alloc, more.as_slice()) {
        Ok(_) => Ok(true),
        Err(error) if error.code == PolicyError::MEMORY => Err(AllocError),
        Err(error) => Ok(error.code != PolicyError::DOCUMENT),
    }
}

/// The text of the first policy with these lines behind it, which write the rules that it gains and offer others. Where
/// those cannot stand there, as behind rules that are an array in one value, its own rules are written anew. `None`
/// where neither reads so.
fn written(
    alloc: Global,
    base: Option<&str>,
    beginning: &WrittenPolicy,
    gains: &Gains,
) -> Result<Option<Vec<u8>>, Memory>
    ensures { IfOk result
        (λ found. IfSome found
        (λ text. WrittenUnder (option_map (λ s. s.now) base.entry) text.items
        (with_gained beginning.now.policy gains.now.rules.items))) }
{
    let first = &beginning.policy;
    let rules = gains.rules.as_slice();
    let lines = gains.page.text()?;
    let text = joined(alloc, beginning.text.as_slice(), lines)?;
    let stands = reads(alloc, text.as_slice(), base, first, rules)?;
    if stands && may_be_taken(alloc, text.as_slice(), gains)? {
        return Ok(Some(text));
    }
    let anew = joined(alloc, policy_text(alloc, first)?.as_bytes(), lines)?;
    if reads(alloc, anew.as_slice(), base, first, rules)? {
        return Ok(Some(anew));
    }
    Ok(if stands { Some(text) } else { None })
}

/// The text of the policy that begins so and gains what is wished.
fn proposed(
    alloc: Global,
    base: Option<&str>,
    beginning: &WrittenPolicy,
    wishes: &[Wish],
) -> Result<Vec<u8>, ProposalError>
    ensures ok { IfOk result
        (λ text. IsText (option_map (λ s. s.now) base.entry)
        (with_gained beginning.now.policy (grants_from beginning.now.policy [] wishes.now)) text.items) }
    ensures refused { IfErr result
        (IsGainRefused (option_map (λ s. s.now) base.entry) beginning.now.policy wishes.now) }
{
    match Gains::of(alloc, &beginning.policy, wishes)? {
        Some(gains) => printed(alloc, base, beginning, &gains),
        None => Err(ProposalError::TooManyRules),
    }
}

/// The text of the policy that begins so and gains this.
fn printed(
    alloc: Global,
    base: Option<&str>,
    beginning: &WrittenPolicy,
    gains: &Gains,
) -> Result<Vec<u8>, ProposalError>
    ensures ok { IfOk result
        (λ text. IsText (option_map (λ s. s.now) base.entry) (with_gained beginning.now.policy gains.now.rules.items)
        text.items) }
    ensures refused { IfErr result
        (IsNotPrinted (option_map (λ s. s.now) base.entry) (with_gained beginning.now.policy gains.now.rules.items)) }
{
    let Some(text) = written(alloc, base, beginning, gains)? else {
        return Err(ProposalError::Misprinted);
    };
    if text.len() > MAX_TEXT {
        return Err(ProposalError::TooLong);
    }
    Ok(text)
}

/// A policy that allows what is wished, in its text: the first policy as it stands, and below it a rule for each wish
/// whose text a pattern can hold and of which no rule speaks, once each. What a rule of the first policy denies stays
/// denied: a comment tells of it, and of a wish whose text is not known or that no pattern stands for alone.
///
/// The text is accepted; it allows each wish that got a rule; and where it decides otherwise than the first policy,
/// that had no rule, and the request has the kind and the text of such a wish, for a path its normal form.
pub fn propose(alloc: Global, start: Basis<'_>, wishes: &[Wish]) -> Result<Vec<u8>, ProposalError>
    ensures ok { IfOk result
        (λ text. (first : Rulebook) × Starts start.entry first
        × Proposes (base_of start.entry) first wishes.now text.items) }
    ensures refused { IfErr result (IsProposalRefused start.entry wishes.now) }
{
    let beginning = begun(alloc, start)?;
    let text = proposed(alloc, base_of(start), &beginning, wishes)?;
    Ok(text)
}
