// What is wrong with a policy, in lines for its writer.
ghost use Rattle.std.specs.Prelude.{◌≡◌, false, option_map, IfOk};
ghost use Rattle.box_policy.specs.Refusals.{no_memory};
ghost use Rattle.box_advice.specs.Lints.{FindsNone, FindsRefused, Lints};

use crate::bytes::is_newline;
use crate::faults::{Mistake, fault_in, rules_of};
use crate::lookalikes::put_lookalike;
use crate::page::Page;
use crate::places::{Places, header_line, key_line};
use crate::unreached::{Unreached, rules_unreached};
use crate::warnings::{Read, warnings};
use awk_text::Memory;
use box_policy::error::PolicyError;
use box_policy::policy::Policy;
use std::alloc::{AllocError, Global};
use toml::Table;

/// What a policy's text is told: why it is refused, where it is, the rules that no request reaches, and the lines that
/// tell of these and of whatever else is found.
#[derive(Drop)]
pub struct Findings {
    pub refusal: Option<PolicyError>,
    pub unreached: Vec<Unreached>,
    pub lines: String,
}

fn line_at(text: &[u8], at: usize) -> usize {
    let before = text.get(..at).unwrap_or(text);
    before.split(is_newline).count()
}

// The line of a mistake above the rules: of its key, or else the first one, where a key may be written.
fn top_line(text: &[u8], key: Option<&str>) -> Option<usize> {
    let Some(key) = key else {
        return Some(1);
    };
    match key_line(text, 0, key) {
        Some(line) => Some(line),
        None => header_line(text, key),
    }
}

// The line of a mistake in the rule that begins on this line: of its key, or else the rule's own.
fn rule_line(text: &[u8], start: usize, key: Option<&str>) -> usize {
    match key {
        Some(key) => key_line(text, start, key).unwrap_or(start),
        None => start,
    }
}

// The line that a mistake stands on, where it can be told. Of rules that are an array in one value it is the line on
// which that begins.
fn line_of(
    alloc: Global,
    text: &[u8],
    table: &Table,
    mistake: Mistake<'_>,
) -> Result<Option<usize>, Memory> {
    if mistake.rule == 0 {
        return Ok(top_line(text, mistake.key));
    }
    match Places::of(alloc, text, rules_of(table).len())?.line(mistake.rule) {
        Some(start) => Ok(Some(rule_line(text, start, mistake.key))),
        None => Ok(key_line(text, 0, "rule")),
    }
}

/// A file that is refused.
#[derive(Clone, Copy, Drop)]
struct RefusedFile<'a> {
    name: &'a str,
    text: &'a [u8],
    error: PolicyError,
}

// `F:3: P4 rule 1: `, the place of a refusal.
fn put_place(refused: RefusedFile<'_>, line: Option<usize>, page: &mut Page) {
    page.put(refused.name);
    if let Some(line) = line {
        page.put(":");
        page.put_number(line as u64);
    }
    page.put(": ");
    page.put_error(refused.error);
    page.put(": ");
}

// The text is no document.
fn put_document(refused: RefusedFile<'_>, error: &toml::de::Error, page: &mut Page) {
    match error.span() {
        Some(span) => {
            put_place(refused, Some(line_at(refused.text, span.start)), page);
            page.put(error.message());
            put_lookalike(refused.text, span.start, page);
        }
        None => {
            put_place(refused, None, page);
            page.put(error.message());
        }
    }
    page.put("\n");
}

// The text is a document that is no policy.
fn put_table(
    alloc: Global,
    refused: RefusedFile<'_>,
    table: &Table,
    page: &mut Page,
) -> Result<(), Memory> {
    let mut words = Page::new(alloc);
    let mistake = fault_in(alloc, table, refused.error, &mut words);
    let words = words.end()?;
    let line = line_of(alloc, refused.text, table, mistake)?;
    put_place(refused, line, page);
    page.put_all(&[words.as_str(), "\n"]);
    Ok(())
}

fn put_refusal(alloc: Global, refused: RefusedFile<'_>, page: &mut Page) -> Result<(), Memory> {
    match toml::table_from_slice(alloc, refused.text) {
        Err(error) if error.is_memory() => Err(AllocError),
        Err(error) => {
            put_document(refused, &error, page);
            Ok(())
        }
        Ok(table) => put_table(alloc, refused, &table, page),
    }
}

fn refusal_lines(alloc: Global, refused: RefusedFile<'_>) -> Result<String, Memory> {
    let mut page = Page::new(alloc);
    put_refusal(alloc, refused, &mut page)?;
    page.end()
}

// Whether memory was refused.
fn is_memory(error: PolicyError) -> bool
    ensures { result ≡ false → error ≡ no_memory → ⊥ }
{
    error.code == PolicyError::MEMORY
}

/// The lines for the policy of this text, which stands in the file of this name, under the base that is given or else
/// its own: nothing for one that is in order; why it is refused, with the line and what was meant; or what its rules
/// say that may not be meant. `file` is the file's absolute name. `Memory` where memory is refused.
pub fn lint(
    alloc: Global,
    name: &str,
    file: &str,
    text: &[u8],
    base: Option<&[u8]>,
) -> Result<Findings, Memory>
    ensures { IfOk result (Lints (option_map (λ b. b.now) base.entry) text.now) }
{
    match Policy::read_under(alloc, text, base) {
        Ok(policy) => in_order(alloc, name, file, text, &policy),
        Err(error) => refused(alloc, name, text, error),
    }
}

fn in_order(
    alloc: Global,
    name: &str,
    file: &str,
    text: &[u8],
    policy: &Policy,
) -> Result<Findings, Memory>
    ensures { IfOk result (FindsNone policy.now) }
{
    let unreached = rules_unreached(alloc, policy)?;
    let read = Read {
        name,
        file,
        text,
        policy,
        unreached: unreached.as_slice(),
    };
    let lines = warnings(alloc, read)?;
    Ok(Findings {
        refusal: None,
        unreached,
        lines,
    })
}

fn refused(alloc: Global, name: &str, text: &[u8], error: PolicyError) -> Result<Findings, Memory>
    ensures { IfOk result (FindsRefused error) }
{
    if is_memory(error) {
        return Err(AllocError);
    }
    let lines = refusal_lines(alloc, RefusedFile { name, text, error })?;
    Ok(Findings {
        refusal: Some(error),
        unreached: Vec::new(alloc),
        lines,
    })
}
