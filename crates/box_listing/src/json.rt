// The sites of a listing as JSON, for other programs.

ghost use Rattle.std.specs.Prelude.{◌≡◌, ◌++◌, IfOk, OnOk};
ghost use Rattle.std.specs.Str.Lossy.{utf8_lossy};
ghost use Rattle.std.specs.String.{string_bytes};
ghost use Rattle.serde_json.specs.Data.{Data, string};
ghost use Rattle.serde_json.specs.View.{view};
ghost use Rattle.box_listing.specs.Json as spec;

use crate::lines::kind_word;
use crate::site::Site;
use crate::verdict::outlook_of;
use awk_text::Memory;
use awk_text::octets::Octets;
use box_policy::policy::{Decision, Outlook, Policy};
use serde_json::{Value, json};
use std::alloc::Global;

fn known_value(alloc: Global, text: &[u8]) -> Result<Value, Memory>
    ensures { IfOk result (λ value. view value ≡ string (utf8_lossy text.now)) }
{
    let text = String::from_utf8_lossy(alloc, text)?;
    Value::try_from_str(alloc, text.as_str())
}

fn text_value(alloc: Global, text: &Option<Octets>) -> Result<Value, Memory>
    ensures { IfOk result (λ value. view value ≡ spec.text_data text.now) }
{
    match text {
        Some(text) => known_value(alloc, text.bytes()),
        None => Ok(Value::Null),
    }
}

fn verdict_word(outlook: Option<Outlook>) -> &'static str
    ensures { result.now ≡ spec.verdict_word outlook }
{
    match outlook {
        Some(Outlook::Always) => "allowed",
        Some(Outlook::Never) => "denied",
        Some(Outlook::Sometimes) | None => "open",
    }
}

fn rule_number(decision: Decision) -> Value
    ensures { view result ≡ spec.rule_number decision }
{
    match decision {
        Decision::Allow(rule) | Decision::Deny(rule) => Value::from(rule),
        Decision::NoRule => Value::Null,
    }
}

/// The rule that decides the next request for what the site asks, where its text is known.
fn rule_value(policy: &Policy, site: &Site) -> Value
    ensures { view result ≡ spec.rule_data policy.now site.now.kind site.now.text }
{
    match &site.text {
        None => Value::Null,
        Some(text) => rule_number(policy.decide(site.kind, text.bytes(), false)),
    }
}

fn site_value(alloc: Global, site: &Site) -> Result<Value, Memory>
    ensures { IfOk result (λ value. view value ≡ spec.site_data site.now) }
{
    json!(in alloc; {
        "column": site.place.column,
        "kind": kind_word(site.kind),
        "line": site.place.line,
        "text": text_value(alloc, &site.text)?,
    })
}

fn judged_value(alloc: Global, policy: &Policy, site: &Site) -> Result<Value, Memory>
    ensures { IfOk result (λ value. view value ≡ spec.judged_data policy.now site.now) }
{
    json!(in alloc; {
        "column": site.place.column,
        "kind": kind_word(site.kind),
        "line": site.place.line,
        "rule": rule_value(policy, site),
        "text": text_value(alloc, &site.text)?,
        "verdict": verdict_word(outlook_of(policy, site)),
    })
}

fn site_line(alloc: Global, site: &Site) -> Result<String, Memory>
    ensures { IfOk result (λ line. string_bytes line ≡ spec.site_line site.now) }
{
    let mut line = site_value(alloc, site)?.to_string(alloc)?;
    line.push_str("\n")?;
    Ok(line)
}

fn judged_line(alloc: Global, policy: &Policy, site: &Site) -> Result<String, Memory>
    ensures { IfOk result (λ line. string_bytes line ≡ spec.judged_line policy.now site.now) }
{
    let mut line = judged_value(alloc, policy, site)?.to_string(alloc)?;
    line.push_str("\n")?;
    Ok(line)
}

/// A JSON object on a line for each of these sites, in their order: `line`, `column`, `kind` and `text`, which is null
/// where it is not known. In a text that is not UTF-8, U+FFFD stands for what is none. `Memory` where memory is
/// refused.
pub fn sites_json(alloc: Global, sites: &[Site]) -> Result<Vec<u8>, Memory>
    ensures { IfOk result (λ lines. lines.items ≡ spec.site_lines sites.now) }
{
    let mut lines = Vec::new(alloc);
    for site in sites {
        let line = site_line(alloc, site)?;
        lines.extend_from_slice(line.as_str().as_bytes())?;
    }
    Ok(lines)
}

/// The same with what a policy says of each site: in `verdict` `"allowed"`, `"denied"`, or `"open"` where only a run
/// can tell, as [`crate::judge`] has it; and in `rule` the number of the rule that decides the next request for the
/// text, or null. `Memory` where memory is refused.
pub fn judged_json(alloc: Global, policy: &Policy, sites: &[Site]) -> Result<Vec<u8>, Memory>
    ensures { IfOk result (λ lines. lines.items ≡ spec.judged_lines policy.now sites.now) }
{
    let mut lines = Vec::new(alloc);
    for site in sites {
        let line = judged_line(alloc, policy, site)?;
        lines.extend_from_slice(line.as_str().as_bytes())?;
    }
    Ok(lines)
}
