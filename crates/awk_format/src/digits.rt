// Digits in a base other than ten.
ghost use Rattle.std.specs.Prelude.{◌≡◌, ◌<◌, ◌≤◌};
ghost use Rattle.std.specs.Fmt.{digit_glyph, digits};

/// The digits of the greatest number in base eight.
pub const MOST_DIGITS: usize = 22;

fn glyph(upper: bool, digit: u8) -> u8
    requires { digit < 16 }
    ensures { result ≡ digit_glyph upper digit }
{
    match (digit, upper) {
        (0..=9, _) => b'0' + digit,
        (_, true) => b'A' - 10 + digit,
        (_, false) => b'a' - 10 + digit,
    }
}

/// The digits of the number, written at the buffer's end.
pub fn digits(buffer: &mut [u8; MOST_DIGITS], base: u64, upper: bool, number: u64) -> &[u8]
    requires least { 8 ≤ base }
    requires most { base ≤ 16 }
    ensures { result.now ≡ digits base upper number }
{
    let mut left = number;
    let mut at = MOST_DIGITS;
    loop {
        at -= 1;
        buffer[at] = glyph(upper, (left % base) as u8);
        left /= base;
        if left == 0 {
            break;
        }
    }
    &buffer[at..]
}
