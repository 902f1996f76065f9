// From tokens to a pattern's tree, with a stack of the open groups.
ghost use Rattle.std.specs.Prelude.{◌≡◌, ◌+◌, List, Bool, Option, IfOk, option_map};
ghost use Rattle.awk_ere.specs.Pattern.{Pattern, cat, alt, repeat};
ghost use Rattle.awk_ere.specs.Same.{IsSame};
ghost use Rattle.awk_ere.specs.Token as spec_token;
ghost use Rattle.awk_ere.specs.Lexing.{IsToken};
ghost use Rattle.awk_ere.specs.Tree as spec;
ghost use Rattle.awk_ere.specs.View.{pattern};

use crate::error::MAX_SIZE;
use crate::node::Node;
use crate::token::{Times, Token};
use awk_text::Memory;
use std::alloc::Global;

/// Sizes over the limit are all kept as this one.
pub const TOO_LARGE: usize = MAX_SIZE + 1;

/// A pattern, with its size.
#[derive(Drop)]
pub struct SizedNode {
    pub node: Node,
    pub size: usize,
}

/// An open group, or the whole: the branches before, the present branch's pieces, and its last item,
/// which a repetition may still take.
#[derive(Drop)]
pub struct Frame {
    pub before: Option<SizedNode>,
    pub pieces: SizedNode,
    pub last: Option<SizedNode>,
}

fn cat_node(alloc: Global, left: Node, right: Node) -> Result<Node, Memory>
    ensures { IfOk result
        (λ n. (sets : List (List Bool)) → IsSame (pattern sets n) (cat (pattern sets left) (pattern sets right))) }
{
    match left {
        Node::Empty => Ok(right),
        left => match right {
            Node::Empty => Ok(left),
            right => Ok(Node::Cat(Box::new(alloc, left)?, Box::new(alloc, right)?)),
        },
    }
}

fn alt_node(alloc: Global, left: Node, right: Node) -> Result<Node, Memory>
    ensures { IfOk result
        (λ n. (sets : List (List Bool)) → IsSame (pattern sets n) (alt (pattern sets left) (pattern sets right))) }
{
    match left {
        Node::Empty => {
            let node = repeat_node(alloc, right, 0, Some(1))?;
            Ok(node)
        }
        left => match right {
            Node::Empty => {
                let node = repeat_node(alloc, left, 0, Some(1))?;
                Ok(node)
            }
            right => Ok(Node::Alt(Box::new(alloc, left)?, Box::new(alloc, right)?)),
        },
    }
}

/// Whether these bounds are those of `*`, `+` or `?`.
fn is_simple(least: usize, more: Option<usize>) -> bool
    ensures { result ≡ spec.is_simple least more }
{
    match more {
        None => least <= 1,
        Some(more) => least == 0 && more == 1,
    }
}

/// The repetition by `*`, `+` or `?` that one of them of another one makes.
fn merged(inner: (usize, Option<usize>), outer: (usize, Option<usize>)) -> (usize, Option<usize>)
    ensures { result ≡ spec.merged inner outer }
{
    let least = if inner.0 == 1 && outer.0 == 1 { 1 } else { 0 };
    let more = if inner.1.is_some() && outer.1.is_some() {
        Some(1)
    } else {
        None
    };
    (least, more)
}

/// Whether the bounds allow this count alone.
fn is_exactly(count: usize, least: usize, more: Option<usize>) -> bool
    ensures { result ≡ spec.is_exactly count least more }
{
    match more {
        None => false,
        Some(more) => least == count && more == 0,
    }
}

/// The node repeated, where no simpler one says the same.
fn repeat_other(
    alloc: Global,
    node: Node,
    least: usize,
    more: Option<usize>,
) -> Result<Node, Memory>
    ensures { IfOk result
        (λ n. (sets : List (List Bool)) →
        IsSame (pattern sets n) (repeat (pattern sets node) least (option_map (λ m. least + m) more))) }
{
    if is_exactly(0, least, more) {
        Ok(Node::Empty)
    } else if is_exactly(1, least, more) {
        Ok(node)
    } else {
        Ok(Node::Repeat(Box::new(alloc, node)?, least, more))
    }
}

/// The node repeated. The tree stays small: what is empty stays empty, and of `*`, `+` and `?` on one
/// another one is left. So no text of a few bytes makes a large program.
fn repeat_node(alloc: Global, node: Node, least: usize, more: Option<usize>) -> Result<Node, Memory>
    ensures { IfOk result
        (λ n. (sets : List (List Bool)) →
        IsSame (pattern sets n) (repeat (pattern sets node) least (option_map (λ m. least + m) more))) }
{
    match node {
        Node::Empty => Ok(Node::Empty),
        Node::Repeat(inner, low, room) => {
            if is_simple(low, room) && is_simple(least, more) {
                let bounds = merged((low, room), (least, more));
                Ok(Node::Repeat(inner, bounds.0, bounds.1))
            } else {
                let node = repeat_other(alloc, Node::Repeat(inner, low, room), least, more)?;
                Ok(node)
            }
        }
        node => {
            let node = repeat_other(alloc, node, least, more)?;
            Ok(node)
        }
    }
}

fn cat_parts(alloc: Global, left: SizedNode, right: SizedNode) -> Result<SizedNode, Memory>
    ensures { IfOk result
        (λ r. (sets : List (List Bool)) (p q : spec.Meant) → spec.Stands sets left p → spec.Stands sets right q →
        spec.Stands sets r (spec.cats p q)) }
{
    let SizedNode { node, size } = left;
    let size = size.saturating_add(right.size).min(TOO_LARGE);
    let node = cat_node(alloc, node, right.node)?;
    Ok(SizedNode { node, size })
}

fn alt_parts(alloc: Global, left: SizedNode, right: SizedNode) -> Result<SizedNode, Memory>
    ensures { IfOk result
        (λ r. (sets : List (List Bool)) (p q : spec.Meant) → spec.Stands sets left p → spec.Stands sets right q →
        spec.Stands sets r (spec.alts p q)) }
{
    let SizedNode { node, size } = left;
    let size = size.saturating_add(right.size).min(TOO_LARGE);
    let node = alt_node(alloc, node, right.node)?;
    Ok(SizedNode { node, size })
}

fn widened(more: Option<u16>) -> Option<usize>
    ensures { result ≡ more }
{
    match more {
        None => None,
        Some(more) => Some(more as usize),
    }
}

fn repeat_part(alloc: Global, part: SizedNode, times: Times) -> Result<SizedNode, Memory>
    ensures { IfOk result
        (λ r. (sets : List (List Bool)) (p : spec.Meant) → spec.Stands sets part p →
        spec.Stands sets r (spec.repeats p times.least (option_map (λ m. times.least + m) times.more) times.factor)) }
{
    let SizedNode { node, size } = part;
    let size = size.saturating_mul(times.factor as usize).min(TOO_LARGE);
    let more = widened(times.more);
    let node = repeat_node(alloc, node, times.least as usize, more)?;
    Ok(SizedNode { node, size })
}

fn flush(alloc: Global, pieces: SizedNode, last: Option<SizedNode>) -> Result<SizedNode, Memory>
    ensures { IfOk result
        (λ r. (sets : List (List Bool)) (p : spec.Meant) (l : Option spec.Meant) → spec.Stands sets pieces p →
        spec.StandsAny sets last l → spec.Stands sets r (spec.flush p l)) }
{
    match last {
        None => Ok(pieces),
        Some(last) => {
            let branch = cat_parts(alloc, pieces, last)?;
            Ok(branch)
        }
    }
}

/// The pattern of the frame as a whole.
pub fn finish(alloc: Global, frame: Frame) -> Result<SizedNode, Memory>
    ensures { IfOk result
        (λ r. (sets : List (List Bool)) (f : spec.Frame) → spec.IsFrame sets frame f →
        spec.Stands sets r (spec.finished f)) }
{
    let Frame {
        before,
        pieces,
        last,
    } = frame;
    let branch = flush(alloc, pieces, last)?;
    match before {
        None => Ok(branch),
        Some(before) => {
            let whole = alt_parts(alloc, before, branch)?;
            Ok(whole)
        }
    }
}

fn with_item(alloc: Global, frame: Frame, item: SizedNode) -> Result<Frame, Memory>
    ensures { IfOk result
        (λ r. (sets : List (List Bool)) (f : spec.Frame) (p : spec.Meant) → spec.IsFrame sets frame f →
        spec.Stands sets item p → spec.IsFrame sets r (spec.with_last f p)) }
{
    let Frame {
        before,
        pieces,
        last,
    } = frame;
    let pieces = flush(alloc, pieces, last)?;
    Ok(Frame {
        before,
        pieces,
        last: Some(item),
    })
}

fn with_anchor(alloc: Global, frame: Frame, node: Node) -> Result<Frame, Memory>
    ensures { IfOk result
        (λ r. (sets : List (List Bool)) (f : spec.Frame) (p : Pattern) → spec.IsFrame sets frame f →
        ((all : List (List Bool)) → IsSame (pattern all node) p) → spec.IsFrame sets r (spec.with_anchor f p)) }
{
    let Frame {
        before,
        pieces,
        last,
    } = frame;
    let pieces = flush(alloc, pieces, last)?;
    let pieces = cat_parts(alloc, pieces, SizedNode { node, size: 1 })?;
    Ok(Frame {
        before,
        pieces,
        last: None,
    })
}

/// The frame with its last item repeated.
fn with_times(alloc: Global, frame: Frame, times: Times) -> Result<Frame, Memory>
    ensures { IfOk result
        (λ r. (sets : List (List Bool)) (b : Option spec.Meant) (p q : spec.Meant) →
        spec.IsFrame sets frame (spec.frame b p (Some q)) →
        spec.IsFrame sets r (spec.frame b p
        (Some (spec.repeats q times.least (option_map (λ m. times.least + m) times.more) times.factor)))) }
{
    let Frame {
        before,
        pieces,
        last,
    } = frame;
    match last {
        None => Ok(Frame {
            before,
            pieces,
            last: None,
        }),
        Some(item) => {
            let item = repeat_part(alloc, item, times)?;
            Ok(Frame {
                before,
                pieces,
                last: Some(item),
            })
        }
    }
}

/// A frame that nothing has been read into.
pub fn fresh() -> Frame
    ensures { (sets : List (List Bool)) → spec.IsFrame sets result spec.fresh }
{
    Frame {
        before: None,
        pieces: SizedNode {
            node: Node::Empty,
            size: 0,
        },
        last: None,
    }
}

fn with_bar(alloc: Global, frame: Frame) -> Result<Frame, Memory>
    ensures { IfOk result
        (λ r. (sets : List (List Bool)) (f : spec.Frame) → spec.IsFrame sets frame f →
        spec.IsFrame sets r (spec.with_bar f)) }
{
    let branches = finish(alloc, frame)?;
    Ok(Frame {
        before: Some(branches),
        pieces: SizedNode {
            node: Node::Empty,
            size: 0,
        },
        last: None,
    })
}

/// The innermost frame after one more token; the frames around it are in `groups`, the innermost last.
pub fn take(
    alloc: Global,
    token: Token,
    top: Frame,
    groups: &mut Vec<Frame>,
) -> Result<Frame, Memory>
    ensures { IfOk result
        (λ r. (sets : List (List Bool)) (t : spec_token.Token) (os : List spec.Frame) (f : spec.Frame) →
        IsToken sets token t → spec.AreFrames sets groups.old.items os → spec.IsFrame sets top f →
        spec.IsStack sets groups.new.items r (spec.taken t os f)) }
{
    match token {
        Token::Atom(class) => {
            let item = SizedNode {
                node: Node::Bytes(class),
                size: 1,
            };
            let frame = with_item(alloc, top, item)?;
            Ok(frame)
        }
        Token::Start => {
            let frame = with_anchor(alloc, top, Node::Start)?;
            Ok(frame)
        }
        Token::End => {
            let frame = with_anchor(alloc, top, Node::End)?;
            Ok(frame)
        }
        Token::Repeat(times) => {
            let frame = with_times(alloc, top, times)?;
            Ok(frame)
        }
        Token::Bar => {
            let frame = with_bar(alloc, top)?;
            Ok(frame)
        }
        Token::Opening => {
            groups.push(top)?;
            Ok(fresh())
        }
        Token::Closing => match groups.pop() {
            None => Ok(top),
            Some(outer) => {
                let group = finish(alloc, top)?;
                let frame = with_item(alloc, outer, group)?;
                Ok(frame)
            }
        },
    }
}
