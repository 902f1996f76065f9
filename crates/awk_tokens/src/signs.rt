// The signs of the language.

ghost use Rattle.std.specs.Prelude.{◌≡◌};
ghost use Rattle.awk_tokens.specs.Signs.{is_single, is_double, sign_len};

/// Whether the byte is a sign by itself.
fn is_single(b: u8) -> bool
    ensures { result ≡ is_single b }
{
    matches!(
        b,
        b'{' | b'}'
            | b'('
            | b')'
            | b'['
            | b']'
            | b';'
            | b','
            | b'+'
            | b'-'
            | b'*'
            | b'/'
            | b'%'
            | b'^'
            | b'!'
            | b'>'
            | b'<'
            | b'|'
            | b'?'
            | b':'
            | b'~'
            | b'$'
            | b'='
            | b'\n'
    )
}

/// Whether the two bytes are one sign.
fn is_double(b: u8, next: u8) -> bool
    ensures { result ≡ is_double b next }
{
    match b {
        b'+' => next == b'=' || next == b'+',
        b'-' => next == b'=' || next == b'-',
        b'*' | b'/' | b'%' | b'^' | b'=' | b'<' => next == b'=',
        b'!' => next == b'=' || next == b'~',
        b'>' => next == b'=' || next == b'>',
        b'&' => next == b'&',
        b'|' => next == b'|',
        _ => false,
    }
}

#[tactic(auto, unfolding(crate::specs::Signs::sign_len))]
/// How long the sign is that these two bytes begin with, 0 where there is none.
pub fn sign_len(b: u8, next: u8) -> usize
    ensures { result ≡ sign_len b next }
{
    if is_double(b, next) {
        2
    } else if is_single(b) {
        1
    } else {
        0
    }
}
