// From a text to its pattern's tree.
ghost use Rattle.std.specs.Prelude.{◌≢◌, IfOk, IfErr};
ghost use Rattle.awk_ere.specs.Reading.{HasFault};
ghost use Rattle.awk_ere.specs.Spelled.{IsRefused, code_of};
ghost use Rattle.awk_ere.specs.Tree.{IsTree, IsWhole};

use crate::bracket::Set;
use crate::error::{EreFault, MAX_BYTES, MAX_SIZE};
use crate::front::front;
use crate::node::Node;
use crate::tree::{SizedNode, finish, fresh, take};
use std::alloc::Global;

/// The tree of the text's pattern. The sets of its bracket expressions are put into `sets`.
///
/// Errors: the text's leftmost fault, or `Memory`.
fn read(alloc: Global, text: &[u8], sets: &mut Vec<Set>) -> Result<SizedNode, EreFault>
    ensures ok { IfOk result (λ part. IsWhole text.now sets.new.items part) }
    ensures err { IfErr result (λ f. f ≢ EreFault.Memory → HasFault text.now f) }
{
    let mut groups = Vec::new(alloc);
    let mut top = fresh();
    let mut rest = text;
    while let Some((token, after)) = front(rest, !groups.is_empty(), top.last.is_some(), sets)? {
        top = take(alloc, token, top, &mut groups)?;
        rest = after;
    }
    let whole = finish(alloc, top)?;
    Ok(whole)
}

/// The same of a text that is within the limits.
///
/// Errors: in this order `Size` for more bytes than `MAX_BYTES`, the leftmost fault, and `Size` for a size
/// over `MAX_SIZE`; `Memory`.
pub fn read_within(alloc: Global, text: &[u8], sets: &mut Vec<Set>) -> Result<Node, EreFault>
    ensures ok { IfOk result (λ node. IsTree text.now sets.new.items node) }
    ensures err { IfErr result (λ f. IsRefused text.now (code_of f)) }
{
    if text.len() > MAX_BYTES {
        return Err(EreFault::Size);
    }
    let SizedNode { node, size } = read(alloc, text, sets)?;
    if size > MAX_SIZE {
        return Err(EreFault::Size);
    }
    Ok(node)
}
