// Interval expressions. A bound over 255 is kept as 256, which is refused all the same.
ghost use Rattle.std.specs.Prelude.{◌≡◌, ℕ, ◌<◌, ◌≤◌, true, false, MatchOption, IfSome, min, length};
ghost use Rattle.awk_ere.specs.Interval as spec;
ghost use Rattle.awk_ere.specs.Lexing.{IsCapped, IsInterval, IsTimes};

use crate::token::Times;

const LIMIT: u16 = 256;

fn digits_len(text: &[u8]) -> usize
    ensures value { result ≡ spec.digits_len text.now }
    ensures within { result ≤ length text.now }
{
    let mut len = 0;
    for byte in text {
        if !byte.is_ascii_digit() {
            return len;
        }
        len += 1;
    }
    len
}

fn decimal(digits: &[u8]) -> u16
    ensures { result ≡ min 256 (spec.decimal digits.now) }
{
    let mut value = 0;
    for byte in digits {
        let more = 10 * value + byte.saturating_sub(b'0') as u16;
        value = more.min(LIMIT);
    }
    value
}

/// The number at the front, and what follows it; `None` where there is none.
fn number(text: &[u8]) -> Option<(u16, &[u8])>
    ensures within { IfSome result (λ p. length p.1.now ≤ length text.now) }
    ensures value { MatchOption result (spec.digits_len text.now ≡ 0)
        (λ p. (0 < spec.digits_len text.now) × (p.0 ≡ min 256 (spec.front_number text.now))
        × (p.1.now ≡ spec.after_number text.now)) }
{
    let len = digits_len(text);
    if len == 0 {
        return None;
    }
    let (digits, rest) = text.split_at(len);
    Some((decimal(digits), rest))
}

/// What follows `{m,` up to the `}`, where `least` is the `m`.
fn upper(least: u16, text: &[u8]) -> Option<(u16, Option<u16>, &[u8])>
    ensures within { IfSome result (λ p. length p.2.now < length text.now) }
    ensures value { (m : ℕ) → least ≡ min 256 m →
        MatchOption result (spec.upper m text.now ≡ None) (λ p. IsInterval (spec.upper m text.now) p.0 p.1 p.2.now) }
{
    match number(text) {
        None => match text {
            [b'}', rest @ ..] => Some((least, None, rest)),
            _ => None,
        },
        Some((most, after)) => match after {
            [b'}', rest @ ..] => Some((least, Some(most), rest)),
            _ => None,
        },
    }
}

/// The interval that the text after a `{` spells, and what follows it; `None` where the `{` is itself.
pub fn interval(text: &[u8]) -> Option<(u16, Option<u16>, &[u8])>
    ensures within { IfSome result (λ p. length p.2.now < length text.now) }
    ensures value { MatchOption result (spec.interval text.now ≡ None)
        (λ p. IsInterval (spec.interval text.now) p.0 p.1 p.2.now) }
{
    let (least, after) = number(text)?;
    match after {
        [b'}', rest @ ..] => Some((least, Some(least), rest)),
        [b',', rest @ ..] => upper(least, rest),
        _ => None,
    }
}

/// The repetition with these bounds; `None` where one is over 255 or they are not in order.
pub fn repetition(least: u16, most: Option<u16>) -> Option<Times>
    ensures { (t : spec.Times) → IsCapped t least most →
        MatchOption result (spec.is_allowed t ≡ false) (λ r. (spec.is_allowed t ≡ true) × IsTimes t r) }
{
    match most {
        None if least < LIMIT => Some(Times {
            least,
            more: None,
            factor: least + 1,
        }),
        Some(bound) if least <= bound && bound < LIMIT => Some(Times {
            least,
            more: Some(bound - least),
            factor: bound.max(1),
        }),
        _ => None,
    }
}
