// The word that a misspelled one was meant to be.
use crate::page::Page;
use awk_text::Memory;
use std::alloc::Global;
use strsim::levenshtein;

/// The longest word that is compared.
const LONGEST: usize = 32;

/// The most edits that lead from a word to one that was meant.
const MOST_EDITS: usize = 2;

/// The nearest of the words, where one is near. Of two as near it is the first.
fn nearest<'a>(alloc: Global, word: &str, words: &[&'a str]) -> Result<Option<&'a str>, Memory> {
    if word.len() > LONGEST {
        return Ok(None);
    }
    let mut best = None;
    let mut fewest = MOST_EDITS;
    for candidate in words {
        let edits = levenshtein(alloc, word, candidate)?;
        if edits < fewest || (edits == fewest && best.is_none()) {
            best = Some(*candidate);
            fewest = edits;
        }
    }
    Ok(best)
}

/// ` (did you mean "match"?)`, or nothing.
pub(crate) fn put_hint(alloc: Global, word: &str, words: &[&str], page: &mut Page) {
    match nearest(alloc, word, words) {
        Ok(Some(best)) => page.put_all(&[" (did you mean \"", best, "\"?)"]),
        Ok(None) => {}
        Err(_) => page.cut(),
    }
}
