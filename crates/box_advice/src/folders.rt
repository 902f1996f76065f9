// Many names of one folder with one ending.
use crate::bytes::{behind_last, last_place};
use crate::explaining::is_of_files;
use crate::page::Page;
use crate::printing::put_names;
use awk_text::Memory;
use box_policy::policy::{Kind, Rule};
use std::alloc::Global;
use std::collections::BTreeMap;

/// So many names have a rule each, with no hint that one rule may do.
const FEW: u32 = 3;

/// The names of a folder, which is empty where the base is meant and else ends with `/`, that have this ending.
#[derive(Clone, Copy, Drop)]
pub(crate) struct Names<'a> {
    pub(crate) kind: Kind,
    pub(crate) given: bool,
    pub(crate) folder: &'a [u8],
    pub(crate) ending: &'a [u8],
}

// From its last dot, where that is neither its first nor its last byte.
fn ending_of(name: &[u8]) -> Option<&[u8]> {
    let dot = last_place(name, b'.')?;
    let ending = name.get(dot..)?;
    if dot == 0 || ending.len() < 2 {
        return None;
    }
    Some(ending)
}

// Those that the rule's path is one of.
fn names_of(rule: &Rule) -> Option<Names<'_>> {
    if !is_of_files(rule.kind) {
        return None;
    }
    let path = rule.pattern.bytes();
    let at = behind_last(path, b'/');
    let folder = path.get(..at)?;
    let ending = ending_of(path.get(at..)?)?;
    Some(Names {
        kind: rule.kind,
        given: rule.only_given,
        folder,
        ending,
    })
}

// What tells them apart.
fn key_of(alloc: Global, names: Names<'_>) -> Result<Vec<u8>, Memory> {
    let mut key = Vec::from_slice(alloc, crate::words::kind_word(names.kind).as_bytes())?;
    key.push(if names.given { b'1' } else { b'0' })?;
    key.extend_from_slice(names.folder)?;
    key.push(0)?;
    key.extend_from_slice(names.ending)?;
    Ok(key)
}

type Counts = BTreeMap<Vec<u8>, u32>;

// One more of them.
fn count(alloc: Global, names: Names<'_>, counts: &mut Counts) -> Result<(), Memory> {
    let key = key_of(alloc, names)?;
    let before = counts.get(key.as_slice()).copied().unwrap_or(0);
    counts.insert(key, before.saturating_add(1))?;
    Ok(())
}

// Tells of them where they are many, and counts them no more.
fn put_many(
    alloc: Global,
    names: Names<'_>,
    counts: &mut Counts,
    page: &mut Page,
) -> Result<(), Memory> {
    let key = key_of(alloc, names)?;
    let many = counts.get(key.as_slice()).copied().unwrap_or(0);
    if many > FEW {
        put_names(alloc, names, many, page)?;
        counts.insert(key, 0)?;
    }
    Ok(())
}

/// Offers one rule for the names of a folder with one ending, where more than three of these rules are for such names.
pub(crate) fn put_folders(alloc: Global, rules: &[Rule], page: &mut Page) -> Result<(), Memory> {
    let mut counts = BTreeMap::new(alloc);
    for rule in rules {
        if let Some(names) = names_of(rule) {
            count(alloc, names, &mut counts)?;
        }
    }
    for rule in rules {
        if let Some(names) = names_of(rule) {
            put_many(alloc, names, &mut counts, page)?;
        }
    }
    Ok(())
}
