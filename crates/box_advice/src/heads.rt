// What tells at a glance that a pattern does not fit a text, so that few patterns are matched with it.
ghost use Rattle.std.specs.Prelude.{◌≡◌, [], ◌∷◌, nat_eq, length, slice_get, IfOk};
ghost use Rattle.box_policy.specs.Files.{is_of_files};
ghost use Rattle.box_advice.specs.Heads.{IsHead, IsOutline, IsTrail, first_mark, has_no_star, head_of};
ghost use Rattle.box_advice.specs.Heads.{is_count, is_counted, is_mark, mark_of, marks_from, may_fit, may_meet};
ghost use Rattle.box_advice.specs.Heads.{piece_mark, pieces, stands_alone, stirred};

use crate::covers::{are_flat, is_plain};
use crate::explaining::is_of_files;
use awk_text::Memory;
use awk_text::octets::Octets;
use box_policy::path::normal;
use box_policy::policy::Kind;
use std::alloc::Global;

/// How a pattern begins: how many pieces stand for themselves there, the number that they make, and how many pieces
/// each text has that it fits, where that is one number. A piece is a component of a path, or a whole command or name.
#[derive(Clone, Copy, Drop)]
pub(crate) struct Head {
    kind: Kind,
    depth: usize,
    mark: u64,
    count: Option<usize>,
}

/// How many pieces a text has, and the numbers that they make: none of them, the first one, and so on.
#[derive(Drop)]
pub(crate) struct Trail {
    kind: Kind,
    count: usize,
    marks: Vec<u64>,
}

/// Both of a rule's pattern.
#[derive(Drop)]
pub(crate) struct Outline {
    pub(crate) head: Option<Head>,
    pub(crate) trail: Option<Trail>,
}

/// The pieces at the head, and the number that they make.
#[derive(Clone, Copy, Drop)]
struct Leading {
    depth: usize,
    mark: u64,
}

const FIRST_MARK: u64 = 1_469_598_103_934_665_603;

#[tactic(auto, unfolding(crate::specs::Heads::stirred))]
fn stirred(mark: u64, byte: u8) -> u64
    ensures { result ≡ stirred mark byte }
{
    mark.wrapping_mul(1_099_511_628_211)
        .wrapping_add(u64::from(byte))
}

fn piece_mark(mark: u64, piece: &[u8]) -> u64
    ensures { result ≡ piece_mark mark piece.now }
{
    let mut sum = mark;
    for byte in piece {
        sum = stirred(sum, *byte);
    }
    stirred(sum, b'/')
}

fn has_no_star(text: &[u8]) -> bool
    ensures { result ≡ has_no_star text.now }
{
    text.iter().all(|byte| *byte != b'*')
}

#[tactic(auto, unfolding(crate::specs::Heads::stands_alone))]
fn stands_alone(kind: Kind, piece: &[u8]) -> bool
    ensures { result ≡ stands_alone kind piece.now }
{
    if is_of_files(kind) {
        is_plain(piece)
    } else {
        has_no_star(piece)
    }
}

fn leading_of(kind: Kind, pieces: &[Octets]) -> Leading
    ensures depth { result.depth ≡ length (head_of kind pieces.now) }
    ensures mark { result.mark ≡ mark_of first_mark (head_of kind pieces.now) }
{
    let mut depth = 0;
    let mut mark = FIRST_MARK;
    for piece in pieces {
        if !stands_alone(kind, piece.bytes()) {
            return Leading { depth, mark };
        }
        mark = piece_mark(mark, piece.bytes());
        depth += 1;
    }
    Leading { depth, mark }
}

#[tactic(auto, unfolding(crate::specs::Heads::is_counted))]
fn is_counted(kind: Kind, pieces: &[Octets]) -> bool
    ensures { result ≡ is_counted kind pieces.now }
{
    if is_of_files(kind) {
        are_flat(pieces)
    } else {
        true
    }
}

fn head_of(kind: Kind, pieces: &[Octets]) -> Head
    ensures { IsHead kind pieces.now result }
{
    let Leading { depth, mark } = leading_of(kind, pieces);
    let count = if is_counted(kind, pieces) {
        Some(pieces.len())
    } else {
        None
    };
    Head {
        kind,
        depth,
        mark,
        count,
    }
}

fn marks_of(alloc: Global, pieces: &[Octets]) -> Result<Vec<u64>, Memory>
    ensures { IfOk result (λ marks. marks.items ≡ first_mark ∷ marks_from first_mark pieces.now) }
{
    let mut mark = FIRST_MARK;
    let mut marks = Vec::new(alloc);
    marks.push(mark)?;
    for piece in pieces {
        mark = piece_mark(mark, piece.bytes());
        marks.push(mark)?;
    }
    Ok(marks)
}

fn trail_of(alloc: Global, kind: Kind, pieces: &[Octets]) -> Result<Trail, Memory>
    ensures { IfOk result (IsTrail kind pieces.now) }
{
    let marks = marks_of(alloc, pieces)?;
    Ok(Trail {
        kind,
        count: pieces.len(),
        marks,
    })
}

fn outlined(alloc: Global, kind: Kind, pieces: &[Octets]) -> Result<Outline, Memory>
    ensures { IfOk result (IsOutline kind pieces.now) }
{
    let trail = trail_of(alloc, kind, pieces)?;
    Ok(Outline {
        head: Some(head_of(kind, pieces)),
        trail: Some(trail),
    })
}

#[tactic(auto, unfolding(crate::specs::Heads::pieces))]
/// Of a path its components are looked at, and a command or a name whole. `Memory` where memory is refused.
pub(crate) fn outline_of(
    alloc: Global,
    base: &[u8],
    kind: Kind,
    text: &[u8],
) -> Result<Outline, Memory>
    ensures { IfOk result (IsOutline kind (pieces base.now kind text.now)) }
{
    if !is_of_files(kind) {
        return outline_whole(alloc, kind, text);
    }
    match normal(alloc, base, text)? {
        Some(path) => outlined(alloc, kind, path.components()),
        None => Ok(Outline {
            head: None,
            trail: None,
        }),
    }
}

fn outline_whole(alloc: Global, kind: Kind, text: &[u8]) -> Result<Outline, Memory>
    ensures { IfOk result (IsOutline kind (text.now ∷ [])) }
{
    let mut pieces = Vec::new(alloc);
    pieces.push(Octets::of(alloc, text)?)?;
    outlined(alloc, kind, pieces.as_slice())
}

fn is_count(one: Option<usize>, count: usize) -> bool
    ensures { result ≡ is_count one count }
{
    match one {
        Some(one) => one == count,
        None => true,
    }
}

fn is_mark(marks: &[u64], depth: usize, mark: u64) -> bool
    ensures { result ≡ is_mark (slice_get marks.now depth) mark }
{
    match marks.get(depth) {
        Some(one) => *one == mark,
        None => false,
    }
}

#[tactic(auto, unfolding(crate::specs::Heads::may_meet))]
fn may_meet(head: &Head, trail: &Trail) -> bool
    ensures { result ≡ may_meet head.now trail.now }
{
    head.kind == trail.kind
        && is_count(head.count, trail.count)
        && is_mark(trail.marks.as_slice(), head.depth, head.mark)
}

/// Whether a pattern of this head may fit a text of this trail, as far as these tell.
pub(crate) fn may_fit(head: &Option<Head>, trail: &Option<Trail>) -> bool
    ensures { result ≡ may_fit head.now trail.now }
{
    match (head, trail) {
        (Some(head), Some(trail)) => may_meet(head, trail),
        _ => true,
    }
}
