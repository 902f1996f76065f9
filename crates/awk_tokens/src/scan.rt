// The separator or the token at the front of a text.

ghost use Rattle.std.specs.Prelude.{◌≡◌, ◌≢◌, ◌≤◌, ◌<◌, ◌+◌, length, slice_index, true, false, IfOk, IfSome};
ghost use Rattle.std.specs.Option.{option_copied};
ghost use Rattle.std.specs.Char.{is_ascii_digit};
ghost use Rattle.std.specs.List.{list_all};
ghost use Rattle.awk_numbers.specs.Numerals.{constant};
ghost use Rattle.awk_tokens.specs.Bytes as bytes;
ghost use Rattle.awk_tokens.specs.Scan as spec;
ghost use Rattle.awk_tokens.specs.Tokens.{value_of, begins_exponent, is_whole};

use crate::kinds::TokenKind;
use crate::names::{begins_name, continues_name, word_kind};
use crate::signs::sign_len;
use crate::syntax_error::SyntaxError;
use awk_numbers::number::Numbers;
use awk_numbers::numeral::constant;

/// Where in an extended regular expression a byte stands.
#[derive(Clone, Copy)]
enum ErePart {
    /// In no bracket expression.
    Outside,
    /// Directly behind the `[` or `[^` of a bracket expression.
    Opened,
    /// Further inside a bracket expression.
    Inside,
}

/// What a byte of an extended regular expression leads to.
#[derive(Clone, Copy)]
enum EreStep {
    /// It ends the expression.
    Ends,
    /// No expression has it there.
    Breaks,
    /// The next byte that counts stands in this part, so many bytes further on.
    Goes(ErePart, usize),
}

/// The byte at an index, 0 past the end.
pub fn byte(z: &[u8], at: usize) -> u8
    ensures value { result ≡ slice_index z.now at }
    ensures within { result ≢ 0 → at < length z.now }
{
    if at < z.len() { z[at] } else { 0 }
}

fn is_blank(b: u8) -> bool
    ensures { result ≡ bytes.is_blank b }
{
    b == b' ' || b == b'\t' || b == b'\r'
}

fn digits_len(z: &[u8]) -> usize
    ensures value { result ≡ spec.digits_len z.now }
    ensures within { result ≤ length z.now }
{
    let mut n = 0;
    for b in z {
        if !b.is_ascii_digit() {
            return n;
        }
        n += 1;
    }
    n
}

fn letters_len(z: &[u8]) -> usize
    ensures value { result ≡ spec.letters_len z.now }
    ensures within { result ≤ length z.now }
{
    let mut n = 0;
    for b in z {
        if !b.is_ascii_alphabetic() {
            return n;
        }
        n += 1;
    }
    n
}

fn name_len(z: &[u8]) -> usize
    ensures value { result ≡ spec.name_len z.now }
    ensures within { result ≤ length z.now }
{
    let mut n = 0;
    for b in z {
        if !continues_name(*b) {
            return n;
        }
        n += 1;
    }
    n
}

fn line_len(z: &[u8]) -> usize
    ensures value { result ≡ spec.line_len z.now }
    ensures within { result ≤ length z.now }
{
    let mut n = 0;
    for b in z {
        if *b == b'\n' {
            return n;
        }
        n += 1;
    }
    n
}

/// How long the separator at the front is: a blank, a `\` with a newline, or a comment. It is 0
/// where there is none.
#[tactic(auto, unfolding(crate::specs::Scan::gap_len))]
pub fn gap_len(z: &[u8]) -> usize
    requires { 0 < length z.now }
    ensures value { result ≡ spec.gap_len z.now }
    ensures within { result ≤ length z.now }
{
    let b = z[0];
    if is_blank(b) {
        1
    } else if b == b'\\' && byte(z, 1) == b'\n' {
        2
    } else if b == b'#' {
        line_len(z)
    } else {
        0
    }
}

/// What is left behind the end of a string, where it ends. The text stands behind the opening `"`.
fn string_rest(mut z: &[u8]) -> Option<&[u8]>
    ensures value { option_copied result ≡ spec.string_rest false z.entry.now }
    ensures within { IfSome result (λ rest. length rest.now < length z.entry.now) }
{
    let mut escaped = false;
    while let [b, rest @ ..] = z {
        if !escaped && *b == b'"' {
            return Some(rest);
        }
        if !escaped && *b == b'\n' {
            return None;
        }
        escaped = !escaped && *b == b'\\';
        z = rest;
    }
    None
}

/// How long a class such as `[:alpha:]` is behind its `[`, 0 where there is none.
#[tactic(auto, unfolding(crate::specs::Scan::class_len))]
fn class_len(z: &[u8]) -> usize
    ensures { result ≡ spec.class_len z.now }
{
    if byte(z, 0) != b':' {
        return 0;
    }
    let letters = letters_len(&z[1..]);
    if byte(z, letters + 1) == b':' && byte(z, letters + 2) == b']' {
        letters + 3
    } else {
        0
    }
}

fn outside_step(b: u8, rest: &[u8]) -> EreStep
    ensures { result ≡ spec.outside_step b rest.now }
{
    match b {
        b'/' => EreStep::Ends,
        b'\n' => EreStep::Breaks,
        b'\\' => EreStep::Goes(ErePart::Outside, 1),
        b'[' => {
            let is_not = byte(rest, 0) == b'^';
            EreStep::Goes(ErePart::Opened, if is_not { 1 } else { 0 })
        }
        _ => EreStep::Goes(ErePart::Outside, 0),
    }
}

/// `closed` is the part behind a `]`.
fn bracket_step(closed: ErePart, b: u8, rest: &[u8]) -> EreStep
    ensures { result ≡ spec.bracket_step closed b rest.now }
{
    match b {
        b']' => EreStep::Goes(closed, 0),
        b'\n' => EreStep::Breaks,
        b'\\' => EreStep::Goes(ErePart::Inside, 1),
        b'[' => EreStep::Goes(ErePart::Inside, class_len(rest)),
        _ => EreStep::Goes(ErePart::Inside, 0),
    }
}

fn step_of(part: ErePart, b: u8, rest: &[u8]) -> EreStep
    ensures { result ≡ spec.step_of part b rest.now }
{
    match part {
        ErePart::Outside => outside_step(b, rest),
        ErePart::Opened => bracket_step(ErePart::Inside, b, rest),
        ErePart::Inside => bracket_step(ErePart::Outside, b, rest),
    }
}

/// What is left behind the end of an extended regular expression, where it ends. The text stands
/// behind the opening `/`.
fn pattern_rest(mut z: &[u8]) -> Option<&[u8]>
    ensures value { option_copied result ≡ spec.pattern_rest ErePart.Outside 0 z.entry.now }
    ensures within { IfSome result (λ rest. length rest.now < length z.entry.now) }
{
    let mut part = ErePart::Outside;
    let mut skip = 0;
    while let [b, rest @ ..] = z {
        z = rest;
        if 0 < skip {
            skip -= 1;
            continue;
        }
        match step_of(part, *b, rest) {
            EreStep::Ends => return Some(rest),
            EreStep::Breaks => return None,
            EreStep::Goes(next, more) => {
                part = next;
                skip = more;
            }
        }
    }
    None
}

/// The value of digits, or the greatest u64 where it is over that.
fn value_of(digits: &[u8]) -> u64
    requires { list_all is_ascii_digit digits.now ≡ true }
    ensures { result ≡ spec.saturated (value_of digits.now) }
{
    let mut value: u64 = 0;
    for b in digits {
        value = value
            .saturating_mul(10)
            .saturating_add(u64::from(*b - b'0'));
    }
    value
}

/// Whether an exponent begins the text: `e` or `E`, a sign or none, and a digit.
fn begins_exponent(z: &[u8]) -> bool
    ensures { result ≡ begins_exponent z.now }
{
    let (e, next) = (byte(z, 0), byte(z, 1));
    let is_e = e == b'e' || e == b'E';
    let is_signed = next == b'+' || next == b'-';
    is_e && (next.is_ascii_digit() || (is_signed && byte(z, 2).is_ascii_digit()))
}

/// The greatest whole number.
const GREATEST: u64 = 9_223_372_036_854_775_807;

/// Whether these digits are a number of the whole-number profile before this rest.
fn is_whole(digits: &[u8], rest: &[u8]) -> bool
    requires { list_all is_ascii_digit digits.now ≡ true }
    ensures { result ≡ is_whole digits.now rest.now }
{
    value_of(digits) <= GREATEST && byte(rest, 0) != b'.' && !begins_exponent(rest)
}

/// A token's kind and length, or the code of a refusal.
pub type Scanned = Result<(TokenKind, usize), u8>;

/// A whole number, or none where it has a point or an exponent.
#[tactic(auto, using(crate::proofs::Runs::list_all_take))]
fn whole(z: &[u8]) -> Scanned
    ensures { result ≡ spec.whole z.now }
{
    let n = digits_len(z);
    let (digits, rest) = z.split_at(n);
    if is_whole(digits, rest) {
        Ok((TokenKind::Number, n))
    } else {
        Err(SyntaxError::NUMBER)
    }
}

/// The longest numeral, where a double is near to it.
fn double(z: &[u8]) -> Scanned
    ensures { result ≡ spec.double (constant z.now) }
{
    match constant(z) {
        Some((n, Ok(_))) => Ok((TokenKind::Number, n)),
        _ => Err(SyntaxError::NUMBER),
    }
}

/// The number at the front of a text that begins as numbers do.
#[tactic(auto, unfolding(crate::specs::Scan::number))]
fn number(numbers: Numbers, z: &[u8]) -> Scanned
    ensures { result ≡ spec.number numbers z.now }
{
    match numbers {
        Numbers::Whole => whole(z),
        Numbers::Double => double(z),
    }
}

#[tactic(auto, unfolding(crate::specs::Scan::word))]
fn word(numbers: Numbers, z: &[u8]) -> (TokenKind, usize)
    ensures { result ≡ spec.word numbers z.now }
{
    let n = name_len(z);
    let (name, rest) = z.split_at(n);
    (word_kind(numbers, name, rest), n)
}

fn closed(kind: TokenKind, z: &[u8], rest: Option<&[u8]>) -> Scanned
    requires { IfSome rest (λ r. length r.now ≤ length z.now) }
    ensures { result ≡ spec.closed kind z.now (option_copied rest.entry) }
{
    match rest {
        None => Err(SyntaxError::OPEN_TEXT),
        Some(rest) => Ok((kind, z.len() - rest.len())),
    }
}

#[tactic(auto, unfolding(crate::specs::Scan::sign))]
fn sign(z: &[u8]) -> Scanned
    ensures { result ≡ spec.sign z.now }
{
    match sign_len(byte(z, 0), byte(z, 1)) {
        0 => Err(SyntaxError::BYTE),
        n => Ok((TokenKind::Sign, n)),
    }
}

#[tactic(auto, unfolding(crate::specs::Scan::begins_number))]
/// Whether a number begins with these two bytes: a digit, or a point and a digit.
fn begins_number(b: u8, next: u8) -> bool
    ensures { result ≡ spec.begins_number b next }
{
    b.is_ascii_digit() || (b == b'.' && next.is_ascii_digit())
}

/// The token at the front of a text that begins with no separator: its kind and length, or the code
/// of the refusal that stands there. `operand` says whether an operand may begin there.
#[tactic(auto, unfolding(crate::specs::Scan::first_token))]
pub fn first_token(numbers: Numbers, operand: bool, z: &[u8]) -> Scanned
    requires { 0 < length z.now }
    ensures { result ≡ spec.first_token numbers operand z.now }
{
    let b = z[0];
    if begins_number(b, byte(z, 1)) {
        number(numbers, z)
    } else if begins_name(b) {
        Ok(word(numbers, z))
    } else if b == b'"' {
        closed(TokenKind::Quoted, z, string_rest(&z[1..]))
    } else if b == b'/' && operand {
        closed(TokenKind::Pattern, z, pattern_rest(&z[1..]))
    } else {
        sign(z)
    }
}
