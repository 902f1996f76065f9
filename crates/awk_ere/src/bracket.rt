// Bracket expressions.
ghost use Rattle.std.specs.Prelude.{◌≡◌, ◌<◌, ◌≤◌, true, [], ◌∷◌, IfSome, MatchOption, length, option_map};
ghost use Rattle.std.specs.List.{prefix_len};
ghost use Rattle.std.specs.Char.{is_ascii_lowercase};
ghost use Rattle.awk_ere.specs.Bracket as spec;
ghost use Rattle.awk_ere.specs.Lexing.{Adds, IsEmptySet, IsItem, IsNegated, IsSet};

use crate::escape::escape;

/// The bytes of a bracket expression: for each byte whether it is in.
pub type Set = [bool; 256];

/// The first and the last byte of a range.
pub type Range = (u8, u8);

/// The ranges of a class of ASCII characters; `None` where the name is none.
#[tactic(auto, unfolding(crate::specs::Bracket::class_ranges))]
fn class_ranges(name: &[u8]) -> Option<&'static [Range]>
    ensures { option_map (λ r. r.now) result ≡ spec.class_ranges name.now }
{
    if name == b"alpha".as_slice() {
        Some(&[(b'A', b'Z'), (b'a', b'z')])
    } else if name == b"digit".as_slice() {
        Some(&[(b'0', b'9')])
    } else if name == b"alnum".as_slice() {
        Some(&[(b'0', b'9'), (b'A', b'Z'), (b'a', b'z')])
    } else if name == b"upper".as_slice() {
        Some(&[(b'A', b'Z')])
    } else if name == b"lower".as_slice() {
        Some(&[(b'a', b'z')])
    } else if name == b"space".as_slice() {
        Some(&[(9, 13), (b' ', b' ')])
    } else if name == b"blank".as_slice() {
        Some(&[(b'\t', b'\t'), (b' ', b' ')])
    } else if name == b"punct".as_slice() {
        Some(&[(b'!', b'/'), (b':', b'@'), (b'[', b'`'), (b'{', b'~')])
    } else if name == b"print".as_slice() {
        Some(&[(b' ', b'~')])
    } else if name == b"graph".as_slice() {
        Some(&[(b'!', b'~')])
    } else if name == b"cntrl".as_slice() {
        Some(&[(0, 31), (127, 127)])
    } else if name == b"xdigit".as_slice() {
        Some(&[(b'0', b'9'), (b'A', b'F'), (b'a', b'f')])
    } else {
        None
    }
}

fn letters_len(text: &[u8]) -> usize
    ensures value { result ≡ prefix_len is_ascii_lowercase text.now }
    ensures within { result ≤ length text.now }
{
    let mut len = 0;
    for byte in text {
        if !byte.is_ascii_lowercase() {
            return len;
        }
        len += 1;
    }
    len
}

/// The class that the text after `[:` names, and what follows its `:]`.
#[tactic(auto, unfolding(crate::specs::Bracket::class))]
fn class(text: &[u8]) -> Option<(&'static [Range], &[u8])>
    ensures within { IfSome result (λ p. length p.1.now < length text.now) }
    ensures value { MatchOption result (spec.class text.now ≡ None)
        (λ p. spec.class text.now ≡ Some (p.0.now, p.1.now)) }
{
    let (name, after) = text.split_at(letters_len(text));
    let ranges = class_ranges(name)?;
    match after {
        [b':', b']', rest @ ..] => Some((ranges, rest)),
        _ => None,
    }
}

/// One byte, by itself or by an escape, and what follows it.
#[tactic(auto, unfolding(crate::specs::Bracket::point))]
fn point(text: &[u8]) -> Option<(u8, &[u8])>
    ensures within { IfSome result (λ p. length p.1.now < length text.now) }
    ensures value { MatchOption result (spec.point text.now ≡ None) (λ p. spec.point text.now ≡ Some (p.0, p.1.now)) }
{
    match text {
        [] => None,
        [b'\\', rest @ ..] => escape(rest),
        [b'[', b'.' | b'=' | b':', ..] => None,
        [byte, rest @ ..] => Some((*byte, rest)),
    }
}

/// The range that begins with `low`, where the text after it is given, and what follows the range.
#[tactic(auto, unfolding(crate::specs::Bracket::range_from))]
fn range_from(low: u8, text: &[u8]) -> Option<(Range, &[u8])>
    ensures within { IfSome result (λ p. length p.1.now ≤ length text.now) }
    ensures value { MatchOption result (spec.range_from low text.now ≡ None)
        (λ p. spec.range_from low text.now ≡ Some (p.0 ∷ [], p.1.now)) }
{
    match text {
        [b'-', end, ..] if *end != b']' => {
            let (high, rest) = point(&text[1..])?;
            if high < low {
                None
            } else {
                Some(((low, high), rest))
            }
        }
        _ => Some(((low, low), text)),
    }
}

/// Puts the bytes of a range into the set.
fn add(set: &mut Set, range: Range)
    ensures { Adds set.old (range ∷ []) set.new }
{
    let (low, high) = range;
    for byte in low as usize..high as usize + 1 {
        set[byte] = true;
    }
}

fn add_all(set: &mut Set, ranges: &[Range])
    ensures { Adds set.old ranges.now set.new }
{
    for range in ranges {
        add(set, *range);
    }
}

/// The text after `[:`, where that stands at the front.
fn class_name(text: &[u8]) -> Option<&[u8]>
    ensures within { IfSome result (λ name. length name.now < length text.now) }
    ensures value { option_map (λ name. name.now) result ≡ spec.class_name text.now }
{
    match text {
        [b'[', b':', name @ ..] => Some(name),
        _ => None,
    }
}

/// Whether a `-` stands at the front that is neither the first item nor the last.
fn is_stray(first: bool, text: &[u8]) -> bool
    ensures { result ≡ spec.is_stray first text.now }
{
    match text {
        [b'-', b']', ..] => false,
        [b'-', ..] => !first,
        _ => false,
    }
}

/// Puts the bytes of the item at the front into the set, and gives what follows the item.
fn item<'a>(text: &'a [u8], first: bool, set: &mut Set) -> Option<&'a [u8]>
    ensures within { IfSome result (λ rest. length rest.now < length text.now) }
    ensures value { MatchOption result (spec.item first text.now ≡ None)
        (λ rest. IsItem (spec.item first text.now) set.old set.new rest.now) }
{
    if let Some(name) = class_name(text) {
        let (ranges, rest) = class(name)?;
        add_all(set, ranges);
        return Some(rest);
    }
    if is_stray(first, text) {
        return None;
    }
    let (low, after) = point(text)?;
    let (range, rest) = range_from(low, after)?;
    add(set, range);
    Some(rest)
}

/// Whether the byte ends the bracket expression: a `]` that comes first does not.
fn closes(first: bool, byte: u8) -> bool
    ensures { result ≡ spec.closes first byte }
{
    byte == b']' && !first
}

/// Puts the bytes of the items up to the closing `]` into the set, and gives what follows it.
fn items<'a>(text: &'a [u8], set: &mut Set) -> Option<&'a [u8]>
    ensures within { IfSome result (λ rest. length rest.now < length text.now) }
    ensures value { MatchOption result (spec.items (length text.now) true text.now ≡ None)
        (λ rest. IsItem (spec.items (length text.now) true text.now) set.old set.new rest.now) }
{
    let mut left = text;
    let mut first = true;
    while let [byte, after @ ..] = left {
        if closes(first, *byte) {
            return Some(after);
        }
        left = item(left, first, set)?;
        first = false;
    }
    None
}

fn negate(set: &mut Set)
    ensures { IsNegated set.old set.new }
{
    for slot in set.iter_mut() {
        *slot = !*slot;
    }
}

/// The text after a `^`, where that stands at the front.
fn after_hat(text: &[u8]) -> Option<&[u8]>
    ensures within { IfSome result (λ after. length after.now < length text.now) }
    ensures value { option_map (λ after. after.now) result ≡ spec.after_hat text.now }
{
    match text {
        [b'^', after @ ..] => Some(after),
        _ => None,
    }
}

/// Makes the empty set that of the bracket expression that the text after a `[` spells, and gives what
/// follows its `]`.
pub fn bracket<'a>(text: &'a [u8], set: &mut Set) -> Option<&'a [u8]>
    requires { IsEmptySet set.old }
    ensures within { IfSome result (λ rest. length rest.now < length text.now) }
    ensures value { MatchOption result (spec.bracket text.now ≡ None)
        (λ rest. IsSet (spec.bracket text.now) set.new rest.now) }
{
    match after_hat(text) {
        Some(after) => {
            let rest = items(after, set)?;
            negate(set);
            Some(rest)
        }
        None => {
            let rest = items(text, set)?;
            Some(rest)
        }
    }
}
