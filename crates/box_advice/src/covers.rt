// Rules that leave nothing for others.
ghost use Rattle.std.specs.Prelude.{◌≡◌, ◌≤◌, ◌+◌, ◌&&◌, ◌||◌, not, nat_eq, true, false, codes, length, IfOk};
ghost use Rattle.std.specs.List.{list_all};
ghost use Rattle.std.specs.Str.{bytes_eq};
ghost use Rattle.box_policy.specs.Counts.{is_limited};
ghost use Rattle.box_policy.specs.Decisions.{kind_number};
ghost use Rattle.box_policy.specs.Exact.{is_exact};
ghost use Rattle.box_advice.specs.Covers.{Covers, covers, has_no_mark, is_flat, is_plain_piece, is_same, is_tree};
ghost use Rattle.box_advice.specs.Covers.{speaks_of, takes_over, takes_paths, takes_wildcards};

use awk_text::Memory;
use awk_text::octets::Octets;
use box_policy::exact::is_exact;
use box_policy::path::{Path, normal};
use box_policy::policy::{Effect, Kind, Policy, Rule};
use std::alloc::Global;

fn is_double_star(piece: &[u8]) -> bool
    ensures { result ≡ bytes_eq piece.now (codes "**") }
{
    piece == b"**".as_slice()
}

/// Whether each byte of the component stands for itself.
pub(crate) fn is_plain(piece: &[u8]) -> bool
    ensures { result ≡ is_plain_piece piece.now }
{
    piece.iter().all(|byte| !(*byte == b'*' || *byte == b'?'))
}

fn has_no_mark(piece: &[u8]) -> bool
    ensures { result ≡ has_no_mark piece.now }
{
    piece.iter().all(|byte| *byte != b'?')
}

/// Whether all components but the last stand for themselves, and that is `**`.
fn is_tree(components: &[Octets]) -> bool
    ensures { result ≡ is_tree components.now }
{
    let mut rest = components;
    while let [first, more @ ..] = rest {
        if more.is_empty() {
            return is_double_star(first.bytes());
        }
        if !is_plain(first.bytes()) {
            return false;
        }
        rest = more;
    }
    false
}

fn have_no_marks(components: &[Octets]) -> bool
    ensures { result ≡ list_all has_no_mark components.now }
{
    for piece in components {
        if !has_no_mark(piece.bytes()) {
            return false;
        }
    }
    true
}

pub(crate) fn are_flat(components: &[Octets]) -> bool
    ensures { result ≡ list_all is_flat components.now }
{
    for piece in components {
        if is_double_star(piece.bytes()) {
            return false;
        }
    }
    true
}

fn takes_wildcards(earlier: &Option<Path>, later: &Option<Path>) -> bool
    ensures { result ≡ takes_wildcards earlier.now later.now }
{
    match (earlier, later) {
        (Some(earlier), Some(later)) => {
            let earlier = earlier.components();
            is_tree(earlier) || (have_no_marks(earlier) && are_flat(later.components()))
        }
        _ => false,
    }
}

fn takes_paths(alloc: Global, base: &[u8], earlier: &Rule, later: &Rule) -> Result<bool, Memory>
    ensures { IfOk result (λ b. b ≡ takes_paths base.now earlier.now later.now) }
{
    if !is_exact(base, Kind::Read, base) {
        return Ok(false);
    }
    let earlier = normal(alloc, base, earlier.pattern.bytes())?;
    let later = normal(alloc, base, later.pattern.bytes())?;
    Ok(takes_wildcards(&earlier, &later))
}

fn takes_over(alloc: Global, base: &[u8], earlier: &Rule, later: &Rule) -> Result<bool, Memory>
    ensures { IfOk result (λ b. b ≡ takes_over base.now later.now.kind earlier.now later.now) }
{
    match later.kind {
        Kind::Read | Kind::Write | Kind::Append => takes_paths(alloc, base, earlier, later),
        Kind::Run => Ok(is_double_star(earlier.pattern.bytes())),
        Kind::Env | Kind::Assign => Ok(false),
    }
}

/// Whether the rule may allow a number of times alone.
fn is_limited(rule: &Rule) -> bool
    ensures { result ≡ is_limited rule.now }
{
    matches!(rule.effect, Effect::Allow(Some(_)))
}

pub(crate) fn are_one(earlier: &Rule, later: &Rule) -> bool
    ensures { result ≡ bytes_eq earlier.now.pattern later.now.pattern }
{
    earlier.pattern.bytes() == later.pattern.bytes()
}

pub(crate) fn are_of_one_kind(earlier: &Rule, later: &Rule) -> bool
    ensures { result ≡ nat_eq (kind_number earlier.now.kind) (kind_number later.now.kind) }
{
    earlier.kind == later.kind
}

fn is_same(earlier: &Rule, later: &Rule) -> bool
    ensures { result ≡ is_same earlier.now later.now }
{
    are_of_one_kind(earlier, later)
        && (later.only_given || !earlier.only_given)
        && are_one(earlier, later)
}

/// Whether the earlier rule speaks of the later one's pattern, as if that were a subject.
fn speaks_of(policy: &Policy, earlier: &Rule, later: &Rule) -> bool
    requires short { length earlier.now.pattern ≤ 4096 }
    ensures { result ≡ speaks_of policy.now.base earlier.now later.now }
{
    policy.speaks(earlier, later.kind, later.pattern.bytes(), later.only_given)
}

/// Whether the earlier rule is found to cover the later one, which does not fit one text alone.
fn covers_pattern(
    alloc: Global,
    policy: &Policy,
    earlier: &Rule,
    later: &Rule,
) -> Result<bool, Memory>
    requires short { length earlier.now.pattern ≤ 4096 }
    ensures { IfOk result (λ b. b ≡ (is_same earlier.now later.now || (speaks_of policy.now.base earlier.now later.now
        && takes_over policy.now.base later.now.kind earlier.now later.now))) }
{
    if is_same(earlier, later) {
        return Ok(true);
    }
    if !speaks_of(policy, earlier, later) {
        return Ok(false);
    }
    takes_over(alloc, policy.base(), earlier, later)
}

#[tactic(auto, using(crate::proofs::CoversLemmas::sound_by))]
/// Whether the earlier rule is found to speak of all that the later one speaks of, so that this never decides: where
/// the later one fits one text alone, whether the earlier one speaks of it. Else their patterns are the same; or the
/// earlier one's components stand for themselves but for a last `**`, and the later one's begin with them; or the
/// earlier path, without `?`, fits the text of the later one, which has no `**`; or the earlier one is the command
/// `**`. It may be so in other cases as well, of which this does not tell. `Memory` where memory is refused.
pub(crate) fn covers(
    alloc: Global,
    policy: &Policy,
    earlier: &Rule,
    later: &Rule,
) -> Result<bool, Memory>
    requires short { length earlier.now.pattern ≤ 4096 }
    ensures found { IfOk result (λ b. b ≡ covers policy.now.base earlier.now later.now) }
    ensures sound { IfOk result (λ b. b ≡ true → Covers policy.now.base earlier.now later.now) }
{
    found(alloc, policy, earlier, later)
}

fn found(alloc: Global, policy: &Policy, earlier: &Rule, later: &Rule) -> Result<bool, Memory>
    requires short { length earlier.now.pattern ≤ 4096 }
    ensures { IfOk result (λ b. b ≡ covers policy.now.base earlier.now later.now) }
{
    if is_limited(earlier) {
        return Ok(false);
    }
    if is_exact(policy.base(), later.kind, later.pattern.bytes()) {
        return Ok(speaks_of(policy, earlier, later));
    }
    covers_pattern(alloc, policy, earlier, later)
}
