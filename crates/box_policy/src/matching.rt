// Patterns against subjects, in one walk over the subject and without memory: of each place in the
// pattern a bit says whether the walk has reached it.
ghost use Rattle.std.specs.Prelude.{◌≡◌, ℕ, ◌<◌, ◌≤◌, ◌+◌, ◌*◌, ◌++◌, ◌∷◌, [], length, map, List, MatchOption, Some};
ghost use Rattle.std.specs.Prelude.{None, codes, replicate};
ghost use Rattle.std.specs.List.{list_all};
ghost use Rattle.std.specs.Str.{bytes_eq};
ghost use Rattle.std.specs.Bool.{Decides};
ghost use Rattle.box_policy.specs.declared.tokens.Sort.TheVariants.{Component};
ghost use Rattle.box_policy.specs.declared.tokens.Token.{Token as TokenOf};
ghost use Rattle.box_policy.specs.declared.tokens.Token.TheVariants.{Open, Byte, Close};
ghost use Rattle.box_policy.specs.Bases.{IsBehind};
ghost use Rattle.box_policy.specs.Blocks.{has};
ghost use Rattle.box_policy.specs.Cells.{row, never, reach, row_fits, ones};
ghost use Rattle.box_policy.specs.Division.{Symbol as SymbolOf, fits};
ghost use Rattle.box_policy.specs.Divides.{Divides};
ghost use Rattle.box_policy.specs.NamesLeft.{names_left};
ghost use Rattle.box_policy.specs.Paths.{names};
ghost use Rattle.box_policy.specs.Patterns.{symbols, component_symbol, base_symbol, path_symbols};
ghost use Rattle.box_policy.specs.Tables.{IsTable, Holds};
ghost use Rattle.box_policy.specs.Targets.{IsLeft};
ghost use Rattle.box_policy.specs.Tokens.{lifted, piece_symbols, flat, stream, width};
ghost use Rattle.box_policy.specs.Plain.{is_wild, is_plain_pattern};

use crate::names::{Names, first_name, is_absolute};
use crate::table::{Block, is_none_reached, is_reached, put, start, step, walk_text};
use crate::tokens::{Element, Sort, Token, next_element};

/// Has the pattern stand from this place on, and tells the place behind it.
fn put_text(blocks: &mut [Block], mut at: usize, sort: Sort, pattern: &[u8]) -> usize
    requires { at + length pattern.now < 64 * length blocks.old }
    ensures len { length blocks.new ≡ length blocks.old }
    ensures holds { (rest whole : List (SymbolOf TokenOf)) →
        Holds sort blocks.old at (map lifted (symbols sort pattern.now) ++ rest) whole →
        Holds sort blocks.new result rest whole }
    ensures small { result ≤ at + length pattern.now }
{
    let mut left = pattern;
    while let Some((element, after)) = next_element(sort, left) {
        at = put(blocks, at, element);
        left = after;
    }
    at
}

fn is_double_star(piece: &[u8]) -> bool
    ensures { result ≡ bytes_eq piece.now (codes "**") }
{
    piece == b"**".as_slice()
}

/// Has a component stand from this place on, and tells the place behind it.
fn put_piece(blocks: &mut [Block], at: usize, piece: &[u8]) -> usize
    requires { at + (length piece.now + 2) < 64 * length blocks.old }
    ensures len { length blocks.new ≡ length blocks.old }
    ensures holds { (rest whole : List (SymbolOf TokenOf)) →
        Holds Component blocks.old at (piece_symbols piece.now ++ rest) whole →
        Holds Component blocks.new result rest whole }
    ensures small { result ≤ at + (length piece.now + 2) }
{
    if is_double_star(piece) {
        return put(blocks, at, Element::All);
    }
    let inner = put(blocks, at, Element::One(Token::Open));
    let end = put_text(blocks, inner, Sort::Component, piece);
    put(blocks, end, Element::One(Token::Close))
}

/// Has the components of the pattern stand from the first place on, and tells the last one.
fn put_path(blocks: &mut [Block], pattern: &[u8]) -> usize
    requires { width (names pattern.now) < 64 * length blocks.old }
    ensures len { length blocks.new ≡ length blocks.old }
    ensures holds { (rest whole : List (SymbolOf TokenOf)) →
        Holds Component blocks.old 0 (flat (names pattern.now) ++ rest) whole →
        Holds Component blocks.new result rest whole }
    ensures small { result ≤ width (names pattern.now) }
{
    let mut at = 0;
    let mut left = pattern;
    while let Some((piece, after)) = first_name(left) {
        at = put_piece(blocks, at, piece);
        left = after;
    }
    at
}

/// The places that are reached behind one component.
fn walk_name(blocks: &[Block], reached: &mut [u64], name: &[u8])
    requires { length blocks.now ≡ length reached.old }
    ensures len { length reached.new ≡ length reached.old }
    ensures places { (symbols : List (SymbolOf TokenOf)) → (rest : List TokenOf) →
        IsTable Component blocks.now symbols → ones symbols < 64 * length reached.old
        → reach (has reached.new) (row never symbols) rest
        ≡ reach (has reached.old) (row never symbols) (Open ∷ (map Byte name.now ++ (Close ∷ rest))) }
{
    step(blocks, reached, Token::Open, false);
    walk_text(blocks, reached, Sort::Component, name);
    step(blocks, reached, Token::Close, false);
}

/// The places that are reached behind the components.
fn walk_names(blocks: &[Block], reached: &mut [u64], mut subject: Names)
    requires { length blocks.now ≡ length reached.old }
    ensures len { length reached.new ≡ length reached.old }
    ensures places { (symbols : List (SymbolOf TokenOf)) → IsTable Component blocks.now symbols →
        ones symbols < 64 * length reached.old
        → reach (has reached.new) (row never symbols) []
        ≡ reach (has reached.old) (row never symbols) (stream (names_left subject.entry)) }
{
    while let Some(name) = subject.next() {
        walk_name(blocks, reached, name);
        if is_none_reached(reached) {
            return;
        }
    }
}

/// Whether the text leads from the first place to the last one.
fn text_leads(blocks: &[Block], reached: &mut [u64], last: usize, sort: Sort, text: &[u8]) -> bool
    requires same { length blocks.now ≡ length reached.old }
    requires blank { reached.old ≡ replicate (length reached.old) 0 }
    requires room { last < 64 * length reached.old }
    ensures { (symbols : List (SymbolOf TokenOf)) → IsTable sort blocks.now symbols → ones symbols ≡ last → result
        ≡ row_fits (row never symbols) (map Byte text.now) }
{
    start(reached);
    walk_text(blocks, reached, sort, text);
    is_reached(reached, last)
}

/// Whether the components lead from the first place to the last one.
fn names_lead(blocks: &[Block], reached: &mut [u64], last: usize, subject: Names) -> bool
    requires same { length blocks.now ≡ length reached.old }
    requires blank { reached.old ≡ replicate (length reached.old) 0 }
    requires room { last < 64 * length reached.old }
    ensures { (symbols : List (SymbolOf TokenOf)) → IsTable Component blocks.now symbols → ones symbols ≡ last → result
        ≡ row_fits (row never symbols) (stream (names_left subject.entry)) }
{
    start(reached);
    walk_names(blocks, reached, subject);
    is_reached(reached, last)
}

/// Whether the byte stands for more than itself in a pattern of this sort.
fn is_wild(sort: Sort, byte: u8) -> bool
    ensures { result ≡ is_wild sort byte }
{
    match sort {
        Sort::Component => byte == b'*' || byte == b'?',
        Sort::Command | Sort::Name => byte == b'*',
    }
}

/// Whether each byte of the pattern stands for itself.
pub(crate) fn is_plain(sort: Sort, pattern: &[u8]) -> bool
    ensures { result ≡ is_plain_pattern sort pattern.now }
{
    for byte in pattern {
        if is_wild(sort, *byte) {
            return false;
        }
    }
    true
}

/// As `text_fits`, with `N` words for the places of the pattern. It stands out of line, so that a short pattern takes
/// little of the stack.
#[inline(never)]
fn text_fits_in<const N: usize>(sort: Sort, pattern: &[u8], text: &[u8]) -> bool
    requires few { N ≤ 97 }
    requires room { length pattern.now < 64 * N }
    ensures { result ≡ fits (symbols sort pattern.now) text.now }
{
    let mut blocks = [Block::EMPTY; N];
    let mut reached = [0; N];
    let last = put_text(&mut blocks, 0, sort, pattern);
    let used = last / 64 + 1;
    text_leads(&blocks[..used], &mut reached[..used], last, sort, text)
}

/// Whether the pattern fits the text, which is whether the text can be divided among its symbols.
pub(crate) fn text_fits(sort: Sort, pattern: &[u8], text: &[u8]) -> bool
    requires { length pattern.now ≤ 4096 }
    ensures value { result ≡ fits (symbols sort pattern.now) text.now }
    ensures division { Decides result (Divides (symbols sort pattern.now) text.now) }
{
    found_text(sort, pattern, text)
}

fn found_text(sort: Sort, pattern: &[u8], text: &[u8]) -> bool
    requires { length pattern.now ≤ 4096 }
    ensures { result ≡ fits (symbols sort pattern.now) text.now }
{
    if is_plain(sort, pattern) {
        return text == pattern;
    }
    match pattern.len() {
        0..=63 => text_fits_in::<1>(sort, pattern, text),
        64..=511 => text_fits_in::<8>(sort, pattern, text),
        _ => text_fits_in::<65>(sort, pattern, text),
    }
}

/// Whether each byte of the components stands for itself.
pub(crate) fn are_plain(pattern: &[u8]) -> bool
    ensures { result ≡ list_all (is_plain_pattern Component) (names pattern.now) }
{
    let mut rest = pattern;
    while let Some((piece, after)) = first_name(rest) {
        if !is_plain(Sort::Component, piece) {
            return false;
        }
        rest = after;
    }
    true
}

/// What is left of the subject's components behind those of the base, where they begin with these.
pub(crate) fn behind_base<'a>(base: &[u8], mut subject: Names<'a>) -> Option<Names<'a>>
    ensures { MatchOption result (IsBehind (names base.now) (names_left subject.entry) None)
        (λ left. IsBehind (names base.now) (names_left subject.entry) (Some (names_left left))) }
{
    let mut rest = base;
    while let Some((piece, after)) = first_name(rest) {
        match subject.next() {
            Some(name) if piece == name => rest = after,
            _ => return None,
        }
    }
    Some(subject)
}

fn is_at_end(mut subject: Names) -> bool
    ensures { result ≡ fits [] (names_left subject.entry) }
{
    subject.next().is_none()
}

/// Whether the components are those of the pattern.
fn are_same(pattern: &[u8], subject: Names) -> bool
    ensures { result ≡ fits (map base_symbol (names pattern.now) ++ []) (names_left subject.entry) }
{
    match behind_base(pattern, subject) {
        Some(left) => is_at_end(left),
        None => false,
    }
}

/// As `names_fit`, with `N` words for the places of the pattern. It stands out of line, so that a short pattern takes
/// little of the stack.
#[inline(never)]
fn names_fit_in<const N: usize>(pattern: &[u8], subject: Names) -> bool
    requires few { N ≤ 97 }
    requires room { 3 * length pattern.now + 3 < 128 * N }
    ensures { result ≡ fits (map component_symbol (names pattern.now)) (names_left subject.entry) }
{
    let mut blocks = [Block::EMPTY; N];
    let mut reached = [0; N];
    let last = put_path(&mut blocks, pattern);
    let used = last / 64 + 1;
    names_lead(&blocks[..used], &mut reached[..used], last, subject)
}

/// Whether the components of the pattern fit those of the subject, which is whether these can be
/// divided among them.
fn names_fit(pattern: &[u8], subject: Names) -> bool
    requires { length pattern.now ≤ 4096 }
    ensures value { result ≡ fits (map component_symbol (names pattern.now)) (names_left subject.entry) }
    ensures division { Decides result (Divides (map component_symbol (names pattern.now)) (names_left subject.entry)) }
{
    found_names(pattern, subject)
}

fn found_names(pattern: &[u8], subject: Names) -> bool
    requires { length pattern.now ≤ 4096 }
    ensures { result ≡ fits (map component_symbol (names pattern.now)) (names_left subject.entry) }
{
    if are_plain(pattern) {
        return are_same(pattern, subject);
    }
    match pattern.len() {
        0..=41 => names_fit_in::<1>(pattern, subject),
        42..=340 => names_fit_in::<8>(pattern, subject),
        _ => names_fit_in::<97>(pattern, subject),
    }
}

/// Whether the pattern fits the components of the subject, or those of them that are left behind the base's, which a
/// relative pattern stands under.
pub(crate) fn path_fits(subject: Names<'_>, left: Option<Names<'_>>, pattern: &[u8]) -> bool
    requires { length pattern.now ≤ 4096 }
    ensures { (base : List ℕ) → IsLeft base (names_left subject.entry) left.entry →
        result ≡ fits (path_symbols base pattern.now) (names_left subject.entry) }
{
    if is_absolute(pattern) {
        return names_fit(pattern, subject);
    }
    match left {
        Some(left) => names_fit(pattern, left),
        None => false,
    }
}
