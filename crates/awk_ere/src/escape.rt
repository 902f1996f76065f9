// Escapes in a pattern.
ghost use Rattle.std.specs.Prelude.{◌≡◌, ◌<◌, ◌≤◌, length, IfSome, MatchOption};
ghost use Rattle.awk_ere.specs.Escape as spec;

fn is_octal(byte: u8) -> bool
    ensures { result ≡ spec.is_octal byte }
{
    b'0' <= byte && byte <= b'7'
}

/// The letters' meanings; any other byte is itself.
fn letter(byte: u8) -> u8
    ensures { result ≡ spec.letter byte }
{
    match byte {
        b'a' => 7,
        b'b' => 8,
        b'f' => 12,
        b'n' => 10,
        b'r' => 13,
        b't' => 9,
        b'v' => 11,
        other => other,
    }
}

/// The byte of up to three octal digits, of which the first has been read, and what follows.
fn octal(first: u8, text: &[u8]) -> (u8, &[u8])
    requires { first < 8 }
    ensures value { (result.0, result.1.now) ≡ spec.octal 2 first text.now }
    ensures within { length result.1.now ≤ length text.now }
{
    match text {
        [second, rest @ ..] if is_octal(*second) => {
            let two = 8 * first + (*second - b'0');
            match rest {
                [third, last @ ..] if is_octal(*third) => {
                    let value = 8 * two as u16 + (*third - b'0') as u16;
                    ((value % 256) as u8, last)
                }
                _ => (two, rest),
            }
        }
        _ => (first, text),
    }
}

/// The byte that the text after a `\` names, and what follows it; `None` at the end of the text.
#[tactic(auto, unfolding(crate::specs::Escape::escape))]
pub fn escape(text: &[u8]) -> Option<(u8, &[u8])>
    ensures value { MatchOption result (spec.escape text.now ≡ None) (λ p. spec.escape text.now ≡ Some (p.0, p.1.now)) }
    ensures within { IfSome result (λ p. length p.1.now < length text.now) }
{
    match text {
        [] => None,
        [byte, rest @ ..] if is_octal(*byte) => Some(octal(*byte - b'0', rest)),
        [byte, rest @ ..] => Some((letter(*byte), rest)),
    }
}
