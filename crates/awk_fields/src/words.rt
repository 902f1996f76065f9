// The words of a text, which blanks separate.
ghost use Rattle.std.specs.Prelude.{◌≡◌, ◌==◌, ◌+◌, ◌≤◌, ◌<◌, List, ℕ, [], length, drop, min, IfOk, vec_len};
ghost use Rattle.std.specs.Prelude.{vec_capacity};
ghost use Rattle.std.specs.Simd.Lanes.{mask_l};
ghost use Rattle.awk_fields.specs.Edges.{IsBetween, WordsTo, changes};
ghost use Rattle.awk_fields.specs.Fields.{Parts, is_blank};
ghost use Rattle.awk_fields.specs.Separators.{blanks};
ghost use Rattle.awk_fields.specs.Spans.{AreSpans};

use crate::marks::{BLOCK, Marks, without_lowest};
use crate::spans::Span;
use awk_text::Memory;

const BLANKS: Marks = Marks {
    first: b' ',
    second: b'\t',
    third: b'\n',
};

/// The edges of words in the block from a place on, by whether a blank stands before it.
#[inline(always)]
fn block_edges(text: &[u8], from: usize, after_blank: bool) -> u64
    requires { from ≤ length text.now }
    ensures { result ≡ mask_l (changes is_blank 64 after_blank (drop from text.now)) }
{
    let blanks = BLANKS.in_block(text, from);
    blanks ^ (blanks << 1 | after_blank as u64)
}

/// Ends the word that is open where the block begins, if one is, and returns the edges behind it. The
/// text is for the contract alone.
#[inline(always)]
fn end_open_word(text: &[u8], from: usize, start: usize, edges: u64, spans: &mut Vec<Span>) -> u64
    requires words { WordsTo text.now from start spans.old.items }
    requires edges { edges ≡ mask_l (changes is_blank 64 (start == from) (drop from text.now)) }
    requires ends { start < from → 0 < edges }
    requires room { vec_len spans.old + 64 ≤ vec_capacity spans.old }
    ensures { IsBetween text.now from result spans.new.items (vec_len spans.new) (vec_capacity spans.new) }
{
    if start == from {
        return edges;
    }
    let end = from + edges.trailing_zeros() as usize;
    spans.push_reserved(Span { start, end });
    without_lowest(edges)
}

/// The words that begin in the block, by the edges that are left in it. Returns where the one begins
/// that is still open at the block's end, or that end. The text is for the contract alone.
#[inline(always)]
fn words_between(
    text: &[u8],
    from: usize,
    end: usize,
    mut edges: u64,
    spans: &mut Vec<Span>,
) -> usize
    requires between { IsBetween text.now from edges spans.old.items (vec_len spans.old) (vec_capacity spans.old) }
    requires end { end ≡ min (from + 64) (length text.now) }
    ensures { WordsTo text.now end result spans.new.items }
{
    while edges != 0 {
        let start = from + edges.trailing_zeros() as usize;
        edges = without_lowest(edges);
        if edges == 0 {
            return start;
        }
        let end = from + edges.trailing_zeros() as usize;
        spans.push_reserved(Span { start, end });
        edges = without_lowest(edges);
    }
    end
}

/// The words of one block.
#[inline(always)]
fn block_words(text: &[u8], from: usize, end: usize, start: usize, spans: &mut Vec<Span>) -> usize
    requires words { WordsTo text.now from start spans.old.items }
    requires room { vec_len spans.old + 64 ≤ vec_capacity spans.old }
    requires end { end ≡ min (from + 64) (length text.now) }
    ensures { WordsTo text.now end result spans.new.items }
{
    let edges = block_edges(text, from, start == from);
    if start < from && edges == 0 {
        return start;
    }
    let edges = end_open_word(text, from, start, edges, spans);
    words_between(text, from, end, edges, spans)
}

/// The words of the text.
pub fn blank_spans(text: &[u8], mut spans: Vec<Span>) -> Result<Vec<Span>, Memory>
    requires { spans.items ≡ [] }
    ensures { IfOk result
        (λ found. (fields : List (List ℕ)) × Parts blanks text.now fields × AreSpans text.now found.items fields) }
{
    let mut start = 0;
    let mut at = 0;
    while at < text.len() {
        spans.reserve(BLOCK)?;
        let end = at + (text.len() - at).min(BLOCK);
        start = block_words(text, at, end, start, &mut spans);
        at = end;
    }
    let end = text.len();
    if start < end {
        spans.push(Span { start, end })?;
    }
    Ok(spans)
}
