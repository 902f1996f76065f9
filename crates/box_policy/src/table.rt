// The places of a pattern as bits of words, and a walk over them without memory.
ghost use Rattle.std.specs.Prelude.{◌≡◌, ◌<◌, ◌≤◌, ◌+◌, ◌*◌, ◌&&◌, ◌||◌, ◌==◌, ◌++◌, [], ◌∷◌, ℕ, List, length, map};
ghost use Rattle.std.specs.Prelude.{slice_set as set};
ghost use Rattle.std.specs.List.{list_all};
ghost use Rattle.box_policy.specs.declared.tokens.Sort.{Sort as SortOf};
ghost use Rattle.box_policy.specs.declared.tokens.Token.{Token as TokenOf};
ghost use Rattle.box_policy.specs.declared.tokens.Token.TheVariants.{Byte};
ghost use Rattle.box_policy.specs.Division.{Symbol as SymbolOf};
ghost use Rattle.box_policy.specs.Blocks.{is_set, has, leads, loops, Adds, stepped};
ghost use Rattle.box_policy.specs.Cells.{row, never, reach, ones};
ghost use Rattle.box_policy.specs.Symbols.{symbol_of};
ghost use Rattle.box_policy.specs.Tables.{IsTable, Holds};

use crate::tokens::{Element, Sort, Token, is_in_class};

/// 64 places of a pattern, a bit of each word for each of them. Place k stands before the k-th of
/// the elements that stand for one token, counted from 0, and the last place behind all.
#[derive(Clone, Copy)]
pub(crate) struct Block {
    bytes: [u64; 256],
    opens: u64,
    closes: u64,
    any: u64,
    narrow: u64,
    wide: u64,
}

impl Block {
    pub(crate) const EMPTY: Block = Block {
        bytes: [0; 256],
        opens: 0,
        closes: 0,
        any: 0,
        narrow: 0,
        wide: 0,
    };

    /// Has the element stand at the marked places.
    fn put(&mut self, element: Element, mark: u64)
        ensures { Adds element mark self.old self.new }
    {
        match element {
            Element::One(Token::Byte(byte)) => self.bytes[byte as usize] |= mark,
            Element::One(Token::Open) => self.opens |= mark,
            Element::One(Token::Close) => self.closes |= mark,
            Element::Any => self.any |= mark,
            Element::Run => self.narrow |= mark,
            Element::All => self.wide |= mark,
        }
    }

    /// The places that the token leads on from.
    fn leads(&self, token: Token, in_class: bool) -> u64
        ensures { result ≡ leads token in_class self.now }
    {
        match token {
            Token::Byte(byte) => self.bytes[byte as usize] | if in_class { self.any } else { 0 },
            Token::Open => self.opens,
            Token::Close => self.closes,
        }
    }

    /// The places that stay reached.
    fn loops(&self, in_class: bool) -> u64
        ensures { result ≡ loops in_class self.now }
    {
        self.wide | if in_class { self.narrow } else { 0 }
    }
}

fn is_run(element: Element) -> bool
    ensures { (sort : SortOf) → (symbol_of sort element).is_run ≡ result }
{
    match element {
        Element::One(_) | Element::Any => false,
        Element::Run | Element::All => true,
    }
}

/// Has the element stand at this place, and tells the place behind it.
pub(crate) fn put(blocks: &mut [Block], at: usize, element: Element) -> usize
    requires { at < 64 * length blocks.old }
    ensures len { length blocks.new ≡ length blocks.old }
    ensures holds { (sort : SortOf) → (rest whole : List (SymbolOf TokenOf)) →
        Holds sort blocks.old at (symbol_of sort element ∷ rest) whole → Holds sort blocks.new result rest whole }
    ensures small { result ≤ at + 1 }
{
    blocks[at / 64].put(element, 1 << (at % 64));
    if is_run(element) { at } else { at + 1 }
}

/// The places of one word that are reached behind one token more. `led` has those that it leads on
/// from, and `carry` says by its lowest bit whether it leads over from the word before.
fn next_word(reached: u64, looping: u64, led: u64, carry: u64) -> u64
    requires { carry < 2 }
    ensures first { is_set result 0 ≡ ((is_set reached 0 && is_set looping 0) || is_set carry 0) }
    ensures others { (j : ℕ) → j < 63 → is_set result (j + 1)
        ≡ ((is_set reached (j + 1) && is_set looping (j + 1)) || is_set led j) }
{
    (reached & looping) | (led << 1) | carry
}

/// Whether the last place of the word is led on from.
fn carried(led: u64) -> u64
    ensures small { result < 2 }
    ensures last { is_set result 0 ≡ is_set led 63 }
{
    led >> 63
}

fn led_from(reached: u64, leading: u64) -> u64
    ensures { (j : ℕ) → is_set result j ≡ (is_set reached j && is_set leading j) }
{
    reached & leading
}

/// The places that are reached behind one token more.
pub(crate) fn step(blocks: &[Block], reached: &mut [u64], token: Token, in_class: bool)
    requires { length blocks.now ≡ length reached.old }
    ensures len { length reached.new ≡ length reached.old }
    ensures places { (k : ℕ) → k < 64 * length reached.old → has reached.new k
        ≡ stepped reached.old (map (leads token in_class) blocks.now) (map (loops in_class) blocks.now) k }
{
    let mut carry = 0;
    for i in 0..reached.len() {
        let here = reached[i];
        let led = led_from(here, blocks[i].leads(token, in_class));
        reached[i] = next_word(here, blocks[i].loops(in_class), led, carry);
        carry = carried(led);
    }
}

pub(crate) fn is_none_reached(reached: &[u64]) -> bool
    ensures { result ≡ list_all (λ word. word == 0) reached.now }
{
    reached.iter().all(|word| *word == 0)
}

/// The places that are reached behind a text.
pub(crate) fn walk_text(blocks: &[Block], reached: &mut [u64], sort: Sort, text: &[u8])
    requires { length blocks.now ≡ length reached.old }
    ensures len { length reached.new ≡ length reached.old }
    ensures places { (symbols : List (SymbolOf TokenOf)) → (rest : List TokenOf) → IsTable sort blocks.now symbols →
        ones symbols < 64 * length reached.old
        → reach (has reached.new) (row never symbols) rest
        ≡ reach (has reached.old) (row never symbols) (map Byte text.now ++ rest) }
{
    for byte in text {
        step(
            blocks,
            reached,
            Token::Byte(*byte),
            is_in_class(sort, *byte),
        );
        if is_none_reached(reached) {
            return;
        }
    }
}

/// Reaches the first place.
pub(crate) fn start(reached: &mut [u64])
    requires { 0 < length reached.old }
    ensures { reached.new ≡ set reached.old 0 1 }
{
    reached[0] = 1;
}

pub(crate) fn is_reached(reached: &[u64], place: usize) -> bool
    requires { place < 64 * length reached.now }
    ensures { result ≡ has reached.now place }
{
    (reached[place / 64] >> (place % 64)) & 1 == 1
}
