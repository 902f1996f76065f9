// A search by the definition of a match, for tests and readers: it is slow, and has no program or table.
ghost use Rattle.std.specs.Prelude.{◌≡◌, ◌+◌, ◌≤◌, Some, None, length, IfOk, IfErr};
ghost use Rattle.awk_ere.specs.Best.{Best};
ghost use Rattle.awk_ere.specs.Image.{IsImage, IsUnion, IsSingle, IsLast, Longest, Stays, Within, Maybe};
ghost use Rattle.awk_ere.specs.Pattern.{Pattern, Chain, Matches, bytes};
ghost use Rattle.awk_ere.specs.Program.{holds};
ghost use Rattle.awk_ere.specs.Spelled.{IsPattern, IsAccepted, IsRefused, Finds, code_of};
ghost use Rattle.awk_ere.specs.View.{pattern};

use crate::bracket::Set;
use crate::error::{EreError, EreFault};
use crate::node::Node;
use crate::read::read_within;
use crate::token::{Class, takes};
use awk_text::Memory;
use std::alloc::Global;
use std::marker::Model;

/// The places behind a byte of the class.
fn behind(
    alloc: Global,
    sets: &[Set],
    class: Class,
    text: &[u8],
    from: &[bool],
) -> Result<Vec<bool>, Memory>
    requires { length from.now ≡ length text.now + 1 }
    ensures { IfOk result (λ to. IsImage (Matches text.now (bytes (holds sets.now class))) from.now to.items) }
{
    let mut to = Vec::new(alloc);
    to.push(false)?;
    for at in 0..text.len() {
        let taken = takes(sets, class, text[at]);
        to.push(from[at] & taken)?;
    }
    Ok(to)
}

/// This place alone, where it is in the set.
fn only(alloc: Global, place: usize, from: &[bool]) -> Result<Vec<bool>, Memory>
    ensures { IfOk result (λ to. IsImage (Stays place) from.now to.items) }
{
    let mut to = Vec::new(alloc);
    for at in 0..from.len() {
        to.push((at == place) & from[at])?;
    }
    Ok(to)
}

/// The places of both sets.
fn union(alloc: Global, some: &[bool], others: &[bool]) -> Result<Vec<bool>, Memory>
    requires { length others.now ≡ length some.now }
    ensures { IfOk result (λ all. IsUnion some.now others.now all.items) }
{
    let mut all = Vec::new(alloc);
    for at in 0..some.len() {
        all.push(some[at] | others[at])?;
    }
    Ok(all)
}

/// The places where a match of the node ends that begins at one of these places.
#[cycle(image)]
fn image(
    alloc: Global,
    sets: &[Set],
    node: &Node,
    text: &[u8],
    from: &[bool],
) -> Result<Vec<bool>, Memory>
    requires { length from.now ≡ length text.now + 1 }
    ensures { IfOk result (λ to. IsImage (Matches text.now (pattern sets.now node.now)) from.now to.items) }
{
    match node {
        Node::Empty => {
            let to = Vec::from_slice(alloc, from)?;
            Ok(to)
        }
        Node::Bytes(class) => behind(alloc, sets, *class, text, from),
        Node::Start => only(alloc, 0, from),
        Node::End => only(alloc, text.len(), from),
        Node::Cat(left, right) => {
            let middle = image(alloc, sets, left, text, from)?;
            image(alloc, sets, right, text, &middle)
        }
        Node::Alt(left, right) => {
            let some = image(alloc, sets, left, text, from)?;
            let others = image(alloc, sets, right, text, from)?;
            union(alloc, &some, &others)
        }
        Node::Repeat(inner, least, more) => {
            let first = copies(alloc, sets, inner, *least, text, from)?;
            match more {
                Some(more) => options(alloc, sets, inner, *more, text, &first),
                None => closure(alloc, sets, inner, text, &first),
            }
        }
    }
}

/// Where so many matches, one after the other, end.
#[cycle(image)]
fn copies(
    alloc: Global,
    sets: &[Set],
    node: &Node,
    count: usize,
    text: &[u8],
    from: &[bool],
) -> Result<Vec<bool>, Memory>
    requires { length from.now ≡ length text.now + 1 }
    ensures { IfOk result
        (λ to. IsImage (Chain (Matches text.now (pattern sets.now node.now)) count) from.now to.items) }
{
    let mut to = Vec::from_slice(alloc, from)?;
    for i in 0..count {
        to = image(alloc, sets, node, text, &to)?;
    }
    Ok(to)
}

/// Where at most so many matches end.
#[cycle(image)]
fn options(
    alloc: Global,
    sets: &[Set],
    node: &Node,
    count: usize,
    text: &[u8],
    from: &[bool],
) -> Result<Vec<bool>, Memory>
    requires { length from.now ≡ length text.now + 1 }
    ensures { IfOk result
        (λ to. IsImage (Within (Matches text.now (pattern sets.now node.now)) (Some count)) from.now to.items) }
{
    let mut to = Vec::from_slice(alloc, from)?;
    for i in 0..count {
        to = grown(alloc, sets, node, text, &to)?;
    }
    Ok(to)
}

/// Where any number of matches ends: one more is tried until it adds no place.
#[cycle(image)]
fn closure(
    alloc: Global,
    sets: &[Set],
    node: &Node,
    text: &[u8],
    from: &[bool],
) -> Result<Vec<bool>, Memory>
    requires { length from.now ≡ length text.now + 1 }
    ensures { IfOk result
        (λ to. IsImage (Within (Matches text.now (pattern sets.now node.now)) None) from.now to.items) }
{
    let mut to = Vec::from_slice(alloc, from)?;
    'turns: loop {
        let next = grown(alloc, sets, node, text, &to)?;
        if next.as_slice() == to.as_slice() {
            return Ok(to);
        }
        to = next;
    }
}

/// These places, and where a match ends that begins at one of them.
#[cycle(image)]
fn grown(
    alloc: Global,
    sets: &[Set],
    node: &Node,
    text: &[u8],
    from: &[bool],
) -> Result<Vec<bool>, Memory>
    requires { length from.now ≡ length text.now + 1 }
    ensures { IfOk result (λ to. IsImage (Maybe (Matches text.now (pattern sets.now node.now))) from.now to.items) }
{
    let more = image(alloc, sets, node, text, from)?;
    union(alloc, from, &more)
}

/// The greatest place of the set.
fn last(set: &[bool]) -> Option<usize>
    ensures { IsLast set.now result }
{
    for after in 0..set.len() {
        let at = set.len() - 1 - after;
        if set[at] {
            return Some(at);
        }
    }
    None
}

/// The set of one place of the text.
fn single(alloc: Global, text: &[u8], place: usize) -> Result<Vec<bool>, Memory>
    requires { place ≤ length text.now }
    ensures len { IfOk result (λ set. length set.items ≡ length text.now + 1) }
    ensures only { IfOk result (λ set. IsSingle place set.items) }
{
    let mut set = vec![in alloc; false; text.len() + 1]?;
    set[place] = true;
    Ok(set)
}

/// The end of the longest match of the node from the place.
fn longest(
    alloc: Global,
    sets: &[Set],
    node: &Node,
    text: &[u8],
    start: usize,
) -> Result<Option<usize>, Memory>
    requires { start ≤ length text.now }
    ensures { IfOk result (λ found. Longest text.now (pattern sets.now node.now) start found) }
{
    let from = single(alloc, text, start)?;
    let ends = image(alloc, sets, node, text, &from)?;
    Ok(last(&ends))
}

/// The best match of the node from the place on: each start in turn.
fn leftmost(
    alloc: Global,
    sets: &[Set],
    node: &Node,
    text: &[u8],
    from: usize,
) -> Result<Option<(usize, usize)>, Memory>
    requires { from ≤ length text.now }
    ensures { IfOk result (λ found. Best text.now (pattern sets.now node.now) from found) }
{
    for start in from..text.len() + 1 {
        if let Some(end) = longest(alloc, sets, node, text, start)? {
            return Ok(Some((start, end)));
        }
    }
    Ok(None)
}

/// A pattern as its tree. Contracts see it as the text that it was made of.
#[derive(Drop)]
pub struct Plain {
    source: Vec<u8>,
    sets: Vec<Set>,
    node: Node,
}

impl Model for Plain {
    ghost use Rattle.std.specs.Prelude.{List, ℕ};
    ghost use Rattle.awk_ere.specs.Tree.{IsTree};

    ghost Value = { List ℕ };

    ghost view = { λ e. e.source.items };

    ghost invariant = { λ e. IsTree e.source.items e.sets.items e.node };
}

impl Plain {
    fn made(alloc: Global, text: &[u8]) -> Result<Plain, EreFault>
        ensures ok { IfOk result (λ e. IsAccepted text.now e) }
        ensures err { IfErr result (λ f. IsRefused text.now (code_of f)) }
    {
        let source = Vec::from_slice(alloc, text)?;
        let mut sets = Vec::new(alloc);
        let node = read_within(alloc, text, &mut sets)?;
        Ok(Plain { source, sets, node })
    }

    /// The pattern that the text spells, with the errors of `Ere::parse`.
    pub fn parse(alloc: Global, text: &[u8]) -> Result<Plain, EreError>
        ensures ok { IfOk result (λ e. IsAccepted text.now e) }
        ensures err { IfErr result (λ e. IsRefused text.now e.code) }
        ensures accepts { IfErr result (λ e. (p : Pattern) → IsPattern text.now p → e.code ≡ 4) }
    {
        match Plain::made(alloc, text) {
            Ok(plain) => Ok(plain),
            Err(fault) => Err(EreError { code: fault.code() }),
        }
    }

    /// The best match from the place `from` on, as its start and its end.
    ///
    /// Errors: `Memory` where memory is refused.
    pub fn find(
        &self,
        alloc: Global,
        text: &[u8],
        from: usize,
    ) -> Result<Option<(usize, usize)>, Memory>
        requires { from ≤ length text.now }
        ensures { IfOk result (λ found. Finds self.now text.now from found) }
    {
        let found = leftmost(alloc, &self.sets, &self.node, text, from)?;
        Ok(found)
    }
}
