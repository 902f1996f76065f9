// The bytes that a match may begin with. They are looked for in sixteen places at a time.
ghost use Rattle.std.specs.Prelude.{◌≡◌, ◌≢◌, ◌⊎◌, ◌+◌, ◌<◌, ◌≤◌, ℕ, true, false, length, IsTrue, slice_index};
ghost use Rattle.std.specs.Prelude.{slice_index_or};
ghost use Rattle.std.specs.Simd.Lanes.{mask_l, zip2};
ghost use Rattle.awk_ere.specs.Table.{IsIn, IsSpread, AreSpread, begins, marks_of, Stops, AreHeads, NoneBegin};

use crate::bracket::Range;
use crate::states::DEAD;
use std::simd::prelude::*;

/// The ends of a range, each sixteen times, so that a vector of them is read at once.
#[derive(Clone, Copy)]
pub struct Spread {
    pub low: [u8; LANES],
    pub high: [u8; LANES],
}

/// Ranges of the first byte of a match and of the one behind it.
#[derive(Clone, Copy)]
pub struct Heads {
    pub first: Range,
    pub second: Range,
    pub first_spread: Spread,
    pub second_spread: Spread,
    /// Whether each byte of the first range leads on.
    pub is_exact: bool,
}

const NOTHING: Range = (255, 0);

const EVERYTHING: Range = (0, 255);

/// How many places are looked at in one turn.
pub const LANES: usize = 16;

fn spread_over(range: Range) -> Spread
    ensures { IsSpread range result }
{
    Spread {
        low: [range.0; LANES],
        high: [range.1; LANES],
    }
}

/// What a match begins with, by its ranges.
fn of_ranges(first: Range, second: Range, is_exact: bool) -> Heads
    ensures first { result.first ≡ first }
    ensures second { result.second ≡ second }
    ensures spread { AreSpread result }
{
    Heads {
        first,
        second,
        first_spread: spread_over(first),
        second_spread: spread_over(second),
        is_exact,
    }
}

/// Whether the state is known and no match ends in it.
pub fn is_open(cells: &[[u8; 256]], accepts: &[bool], state: usize) -> bool
    ensures { IsTrue result → (state < length cells.now) × (slice_index_or accepts.now state false ≡ false) }
{
    match accepts.get(state) {
        Some(accept) => state < cells.len() && !*accept,
        None => false,
    }
}

/// The range, widened to have the byte.
fn widened(range: Range, byte: u8) -> Range
    ensures has { IsIn result byte }
    ensures kept { (b : ℕ) → IsIn range b → IsIn result b }
{
    (range.0.min(byte), range.1.max(byte))
}

/// The range, widened to have each byte that leads on.
fn with_row(row: &[u8; 256], range: Range) -> Range
    ensures kept { (b : ℕ) → IsIn range b → IsIn result b }
    ensures all { (b : ℕ) → b < 256 → slice_index row.now b ≢ 0 → IsIn result b }
{
    let mut all = range;
    for byte in 0..256usize {
        if row[byte] != DEAD {
            all = widened(all, byte as u8);
        }
    }
    all
}

/// The range, widened to have each byte that leads from the state to a match.
fn with_state(cells: &[[u8; 256]], accepts: &[bool], state: u8, range: Range) -> Range
    ensures kept { (b : ℕ) → b < 256 → IsIn range b → IsIn result b }
    ensures all { (b : ℕ) → b < 256 → Stops cells.now accepts.now state b ⊎ IsIn result b }
{
    let at = state as usize;
    if state == DEAD {
        range
    } else if is_open(cells, accepts, at) {
        with_row(&cells[at], range)
    } else {
        EVERYTHING
    }
}

/// The same, where the range has each byte that leads from the state before to a match.
fn with_next(cells: &[[u8; 256]], accepts: &[bool], before: u8, state: u8, range: Range) -> Range
    requires had { (b : ℕ) → b < 256 → Stops cells.now accepts.now before b ⊎ IsIn range b }
    ensures kept { (b : ℕ) → b < 256 → IsIn range b → IsIn result b }
    ensures all { (b : ℕ) → b < 256 → Stops cells.now accepts.now state b ⊎ IsIn result b }
{
    if state == before {
        range
    } else {
        with_state(cells, accepts, state, range)
    }
}

/// The range of the bytes behind one that leads on.
fn second_range(cells: &[[u8; 256]], accepts: &[bool], row: &[u8; 256]) -> Range
    ensures { (b c : ℕ) → b < 256 → c < 256 → Stops cells.now accepts.now (slice_index row.now b) c ⊎ IsIn result c }
{
    let mut range = NOTHING;
    let mut before = DEAD;
    for byte in 0..256usize {
        range = with_next(cells, accepts, before, row[byte], range);
        before = row[byte];
    }
    range
}

/// Whether each byte of the range leads on.
fn is_exact(row: &[u8; 256], range: Range) -> bool {
    for byte in range.0 as usize..range.1 as usize + 1 {
        if row[byte] == DEAD {
            return false;
        }
    }
    true
}

/// What a match begins with where nothing is known of it.
pub fn any_heads() -> Heads
    ensures all { (b c : ℕ) → b < 256 → c < 256 → begins result b c ≡ true }
    ensures spread { AreSpread result }
{
    of_ranges(EVERYTHING, EVERYTHING, false)
}

/// What a match that begins in the state begins with.
pub fn make_heads(cells: &[[u8; 256]], accepts: &[bool], state: u8) -> Heads
    ensures heads { AreHeads cells.now accepts.now state result }
    ensures spread { AreSpread result }
{
    let at = state as usize;
    if !is_open(cells, accepts, at) {
        return any_heads();
    }
    let row = &cells[at];
    let first = with_row(row, NOTHING);
    let second = second_range(cells, accepts, row);
    of_ranges(first, second, is_exact(row, first))
}

/// A bit for each place where a match may begin, by the bytes there and those behind them.
#[inline(always)]
fn marks(bytes: u8x16, behind: u8x16, heads: &Heads) -> u64
    requires { AreSpread heads.now }
    ensures { result ≡ mask_l (zip2 (begins heads.now) bytes behind) }
{
    ((bytes.simd_ge(u8x16::from_array(heads.first_spread.low))
        & bytes.simd_le(u8x16::from_array(heads.first_spread.high)))
        & (behind.simd_ge(u8x16::from_array(heads.second_spread.low))
            & behind.simd_le(u8x16::from_array(heads.second_spread.high)))).to_bitmask()
}

/// A bit for each of the sixteen places from this one on where a match may begin.
#[inline(always)]
fn marks_at(heads: &Heads, text: &[u8], place: usize) -> u64
    requires spread { AreSpread heads.now }
    requires inside { place + 16 < length text.now }
    ensures { result ≡ mask_l (marks_of heads.now text.now place) }
{
    let bytes = u8x16::from_slice(&text[place..]);
    let behind = u8x16::from_slice(&text[place + 1..]);
    marks(bytes, behind, heads)
}

/// The first place, from this one on, where a match may begin, or the text's last. From `last` on sixteen bytes and one
/// behind them end the text, so that those places are looked at once more of which `place` is one.
#[inline(always)]
fn last_head(heads: &Heads, text: &[u8], last: usize, place: usize) -> usize
    requires spread { AreSpread heads.now }
    requires last { last + 17 ≡ length text.now }
    requires place { (last ≤ place) × (place ≤ length text.now) }
    ensures inside { (place ≤ result) × (result ≤ length text.now) }
    ensures none { NoneBegin heads.now text.now place result }
{
    let passed = place - last;
    if passed >= LANES {
        return place;
    }
    let found = marks_at(heads, text, last) >> passed;
    if found == 0 {
        last + LANES
    } else {
        place + found.trailing_zeros() as usize
    }
}

/// The first place, from this one on, where a match may begin, or a place up to which none may.
#[inline(always)]
pub fn next_head(heads: &Heads, text: &[u8], from: usize) -> usize
    requires spread { AreSpread heads.now }
    requires from { from ≤ length text.now }
    ensures inside { (from ≤ result) × (result ≤ length text.now) }
    ensures none { NoneBegin heads.now text.now from result }
{
    if text.len() <= LANES {
        return from;
    }
    let last = text.len() - LANES - 1;
    let mut place = from;
    while place <= last {
        let found = marks_at(heads, text, place);
        if found != 0 {
            return place + found.trailing_zeros() as usize;
        }
        place += LANES;
    }
    last_head(heads, text, last, place)
}
