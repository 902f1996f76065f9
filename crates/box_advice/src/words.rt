// The words of a policy, and texts as they are shown.
ghost use Rattle.std.specs.Prelude.{◌≡◌, IfSome, MatchOption};
ghost use Rattle.std.specs.Str.{bytes_eq};
ghost use Rattle.box_monitor.specs.Lines.{kind_word};
ghost use Rattle.box_policy.specs.declared.policy.Kind.{Kind};

use crate::page::Page;
pub use box_monitor::line::kind_word;
use box_policy::policy::{Effect, Kind, Rule};

/// The kind that this word names.
pub fn kind_named(word: &str) -> Option<Kind>
    ensures read { IfSome result (λ kind. word.now ≡ kind_word kind) }
    ensures found { (kind : Kind) → word.now ≡ kind_word kind → MatchOption result ⊥ (λ one. one ≡ kind) }
{
    kind_of(word.as_bytes())
}

fn is_named(word: &[u8], kind: Kind) -> bool
    ensures { result ≡ bytes_eq (kind_word kind) word.now }
{
    kind_word(kind).as_bytes() == word
}

/// The same of bytes.
pub(crate) fn kind_of(word: &[u8]) -> Option<Kind>
    ensures read { IfSome result (λ kind. word.now ≡ kind_word kind) }
    ensures found { (kind : Kind) → word.now ≡ kind_word kind → MatchOption result ⊥ (λ one. one ≡ kind) }
{
    if is_named(word, Kind::Read) {
        return Some(Kind::Read);
    }
    if is_named(word, Kind::Write) {
        return Some(Kind::Write);
    }
    if is_named(word, Kind::Append) {
        return Some(Kind::Append);
    }
    if is_named(word, Kind::Run) {
        return Some(Kind::Run);
    }
    if is_named(word, Kind::Env) {
        return Some(Kind::Env);
    }
    if is_named(word, Kind::Assign) {
        return Some(Kind::Assign);
    }
    None
}

pub fn effect_word(effect: Effect) -> &'static str {
    match effect {
        Effect::Allow(_) => "allow",
        Effect::Deny => "deny",
    }
}

/// What a rule says, as `allow read "in/**" given`.
pub(crate) fn put_rule_text(rule: &Rule, page: &mut Page) {
    page.put_all(&[effect_word(rule.effect), " ", kind_word(rule.kind), " \""]);
    page.put_quoted(rule.pattern.bytes());
    page.put(if rule.only_given { "\" given" } else { "\"" });
    if let Effect::Allow(Some(quota)) = rule.effect {
        page.put(" limit ");
        page.put_number(u64::from(quota.limit));
    }
}
