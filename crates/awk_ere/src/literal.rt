// Patterns in which each byte stands for itself.
ghost use Rattle.std.specs.Prelude.{◌≡◌, ◌↔◌, ◌≤◌, true, length, IfOk, IfSome};
ghost use Rattle.awk_ere.specs.Literal as spec;
ghost use Rattle.memchr.specs.Find.{FindsNeedle};
ghost use Rattle.memchr.specs.Pairs.{IsPairFinderOf};

use memchr::arch::all::is_prefix;
use memchr::arch::all::packedpair::Finder;
use memchr::{memchr, memmem};
use std::alloc::{AllocError, Global};
use std::marker::Model;

/// Whether the byte may stand for something else than itself.
fn is_special(byte: u8) -> bool
    ensures { result ≡ spec.is_special byte }
{
    byte == b'.'
        || byte == b'('
        || byte == b')'
        || byte == b'|'
        || byte == b'^'
        || byte == b'$'
        || byte == b'*'
        || byte == b'+'
        || byte == b'?'
        || byte == b'['
        || byte == b'\\'
        || byte == b'{'
}

/// Whether each byte of the pattern stands for itself.
fn is_literal(text: &[u8]) -> bool
    ensures { (result ≡ true) ↔ spec.IsLiteral text.now }
{
    for byte in text {
        if is_special(*byte) {
            return false;
        }
    }
    true
}

/// What finds the text of a pattern in which each byte stands for itself. Made once for all searches, since a short
/// text is searched in less time than this takes to make. Contracts see it as the pattern's text.
#[derive(Drop)]
pub struct Literal {
    text: Vec<u8>,
    /// Two of its bytes that are rare in most texts, where it has two.
    pair: Option<Finder>,
}

impl Model for Literal {
    ghost use Rattle.awk_ere.specs.Literal.{IsLiteral};
    ghost use Rattle.memchr.specs.Pairs.{IsPairFinderOf};
    ghost use Rattle.std.specs.Prelude.{IfSome, List, ℕ};

    ghost Value = { List ℕ };

    ghost view = { λ l. l.text.items };

    ghost invariant = { λ l. IsLiteral l.text.items × IfSome l.pair (λ f. IsPairFinderOf f l.text.items) };
}

impl Literal {
    /// What finds this pattern, where each of its bytes stands for itself.
    pub fn new(alloc: Global, pattern: &[u8]) -> Result<Option<Literal>, AllocError>
        ensures { IfOk result (λ r. IfSome r (λ l. (l ≡ pattern.now) × spec.IsLiteral pattern.now)) }
    {
        if !is_literal(pattern) {
            return Ok(None);
        }
        let text = Vec::from_slice(alloc, pattern)?;
        let pair = Finder::new(pattern);
        Ok(Some(Literal { text, pair }))
    }

    /// The first place where the text of the pattern occurs.
    fn place_in(&self, text: &[u8]) -> Option<usize>
        ensures { FindsNeedle text.now self.now 0 result }
    {
        let needle = self.text.as_slice();
        match &self.pair {
            Some(pair) => find_by(pair, text, needle),
            None => find_short(text, needle),
        }
    }

    /// The first place from `from` on where the text of the pattern occurs, as its start and its end.
    pub fn find(&self, text: &[u8], from: usize) -> Option<(usize, usize)>
        requires { from ≤ length text.now }
        ensures { spec.FindsText self.now text.now from result }
    {
        let (_, rest) = text.split_at(from);
        match self.place_in(rest) {
            None => None,
            Some(at) => {
                let start = from + at;
                Some((start, start + self.text.as_slice().len()))
            }
        }
    }
}

/// The first place where the needle occurs; for one that has no two bytes.
fn find_short(text: &[u8], needle: &[u8]) -> Option<usize>
    ensures { FindsNeedle text.now needle.now 0 result }
{
    match needle {
        [byte] => memchr(*byte, text),
        _ => memmem::find(text, needle),
    }
}

/// The first place where the needle occurs. Only the first place of its pair is looked at here, and `memmem` looks
/// further, so that the time stays linear in the text, whatever stands in it.
fn find_by(pair: &Finder, text: &[u8], needle: &[u8]) -> Option<usize>
    requires { IsPairFinderOf pair.now needle.now }
    ensures { FindsNeedle text.now needle.now 0 result }
{
    let at = pair.find_prefilter(text)?;
    let (_, rest) = text.split_at(at);
    if is_prefix(rest, needle) {
        return Some(at);
    }
    match memmem::find(rest, needle) {
        None => None,
        Some(further) => Some(at + further),
    }
}
