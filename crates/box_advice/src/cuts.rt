// A line of a log, cut at its blanks and quotes.
ghost use Rattle.std.specs.Prelude.{◌≡◌, ◌<◌, ◌^◌, ◌∷◌, ◌++◌, [], ℕ, List, IfNone, IfSome, MatchOption};
ghost use Rattle.std.specs.Fmt.{decimal};
ghost use Rattle.std.specs.Str.{bytes_eq};
ghost use Rattle.awk_text.specs.declared.place.Place.{Place};
ghost use Rattle.box_advice.specs.LogLines.{HasNo, IsPlace, joined, place_text};

use awk_text::place::Place;
use itoa::Buffer;

/// A line's parts: its place, its kind, the word behind that, and its text as it is quoted.
#[derive(Clone, Copy, Drop)]
pub(crate) struct Parts<'a> {
    pub(crate) place: &'a [u8],
    pub(crate) kind: &'a [u8],
    pub(crate) word: &'a [u8],
    pub(crate) quoted: &'a [u8],
}

/// What stands before a byte, and what stands behind it.
#[derive(Clone, Copy, Drop)]
pub(crate) struct Halves<'a> {
    pub(crate) front: &'a [u8],
    pub(crate) back: &'a [u8],
}

/// Cuts at the first byte of this value.
pub(crate) fn cut(line: &[u8], byte: u8) -> Option<Halves<'_>>
    ensures read { IfSome result (λ one. line.now ≡ one.front.now ++ byte ∷ one.back.now) }
    ensures first { IfSome result (λ one. HasNo byte one.front.now) }
    ensures none { IfNone result (HasNo byte line.now) }
    ensures found { (front back : List ℕ) → HasNo byte front → line.now ≡ front ++ byte ∷ back →
        MatchOption result ⊥ (λ one. (one.front.now ≡ front) × (one.back.now ≡ back)) }
{
    for at in 0..line.len() {
        if line[at] == byte {
            return Some(Halves {
                front: &line[..at],
                back: &line[at + 1..],
            });
        }
    }
    None
}

// What stands between two quotes.
fn within_quotes(text: &[u8]) -> Option<&[u8]>
    ensures read { IfSome result (λ quoted. text.now ≡ 34 ∷ quoted.now ++ 34 ∷ []) }
    ensures found { (quoted : List ℕ) → text.now ≡ 34 ∷ quoted ++ 34 ∷ [] →
        MatchOption result ⊥ (λ one. one.now ≡ quoted) }
{
    match text {
        [b'"', quoted @ .., b'"'] => Some(quoted),
        _ => None,
    }
}

/// The parts of a line.
pub(crate) fn parts_of(line: &[u8]) -> Option<Parts<'_>>
    ensures read { IfSome result
        (λ parts. line.now ≡ joined parts.place.now parts.kind.now parts.word.now parts.quoted.now) }
    ensures found { (place kind word quoted : List ℕ) → HasNo 32 place → HasNo 32 kind → HasNo 32 word →
        line.now ≡ joined place kind word quoted → MatchOption result ⊥ (λ parts. (parts.place.now ≡ place)
        × (parts.kind.now ≡ kind) × (parts.word.now ≡ word) × (parts.quoted.now ≡ quoted)) }
{
    let first = cut(line, b' ')?;
    let second = cut(first.back, b' ')?;
    let third = cut(second.back, b' ')?;
    let quoted = within_quotes(third.back)?;
    Some(Parts {
        place: first.front,
        kind: second.front,
        word: third.front,
        quoted,
    })
}

// Whether these digits are how a run writes the number.
fn is_written(number: u32, digits: &[u8]) -> bool
    ensures { result ≡ bytes_eq (decimal number) digits.now }
{
    let mut buffer = Buffer::new();
    buffer.format(number).as_bytes() == digits
}

/// The number of 32 bits that is written so, in the one way in which a run writes it.
pub(crate) fn number_of(digits: &[u8]) -> Option<u32>
    ensures read { IfSome result (λ n. digits.now ≡ decimal n) }
    ensures small { IfSome result (λ n. n < 2 ^ 32) }
    ensures found { (n : ℕ) → n < 2 ^ 32 → digits.now ≡ decimal n → MatchOption result ⊥ (λ one. one ≡ n) }
{
    let Ok(text) = std::str::from_utf8(digits) else {
        return None;
    };
    let Ok(number) = text.parse::<u32>() else {
        return None;
    };
    if is_written(number, digits) {
        Some(number)
    } else {
        None
    }
}

/// The place that is written so.
pub(crate) fn place_of(text: &[u8]) -> Option<Place>
    ensures read { IfSome result (λ place. text.now ≡ place_text place) }
    ensures small { IfSome result IsPlace }
    ensures found { (place : Place) → IsPlace place → text.now ≡ place_text place →
        MatchOption result ⊥ (λ one. one ≡ place) }
{
    let parts = cut(text, b':')?;
    let line = number_of(parts.front)?;
    let column = number_of(parts.back)?;
    Some(Place { line, column })
}
