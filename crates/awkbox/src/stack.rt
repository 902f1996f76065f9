// The stack that the process has.
ghost use Rattle.std.specs.Prelude.{◌≡◌, option_map};
ghost use Rattle.awkbox.specs.Stack.{after, behind, has_small, tells_of_small_stack};

use awk_text::numeral::number;

/// The bytes of stack that a run may need, with as many levels as a run may nest.
const NEEDED: i64 = 8_388_608;

// What stands behind these words, where the text begins with them.
fn after<'a>(words: &[u8], text: &'a [u8]) -> Option<&'a [u8]>
    ensures { option_map (λ rest. rest.now) result ≡ after words.now text.now }
{
    text.strip_prefix(words)
}

// What stands behind these words, at the first place where the text has them.
fn behind<'a>(words: &[u8], text: &'a [u8]) -> Option<&'a [u8]>
    ensures { option_map (λ rest. rest.now) result ≡ behind words.now text.now }
{
    let mut left = text;
    while let [_, next @ ..] = left {
        match after(words, left) {
            Some(rest) => return Some(rest),
            None => left = next,
        }
    }
    None
}

fn has_small(limit: Option<&[u8]>) -> bool
    ensures { result ≡ has_small (option_map (λ rest. rest.now) limit.entry) }
{
    match limit {
        Some(rest) => match number(rest) {
            Ok(size) => 0 < size && size < NEEDED,
            Err(_) => false,
        },
        None => false,
    }
}

/// Whether this text, which Linux has as `/proc/self/limits`, tells of a soft limit of the stack that is smaller than 8
/// MiB. No, where it tells of none. Takes no memory.
pub fn tells_of_small_stack(limits: &[u8]) -> bool
    ensures { result ≡ tells_of_small_stack limits.now }
{
    has_small(behind(b"Max stack size", limits))
}
