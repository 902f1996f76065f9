// The components of path names, one after another and without memory.
ghost use Rattle.std.specs.Prelude.{◌≡◌, ◌==◌, ◌<◌, ◌∷◌, [], length, MatchOption, IfSome, ◌+◌, ◌≤◌, if◌then◌else◌};
ghost use Rattle.std.specs.Prelude.{codes, position};
ghost use Rattle.std.specs.List.{list_any};
ghost use Rattle.std.specs.Str.{is_utf8, bytes_eq};
ghost use Rattle.std.specs.Iterator.{YieldsFirstRef, item_count};
ghost use Rattle.box_policy.specs.Paths.{is_text, is_name, names, is_plain, is_absolute, names_under, can_resolve};
ghost use Rattle.box_policy.specs.NamesLeft.{names_left};

const SLASH: u8 = b'/';

pub(crate) fn is_utf8(bytes: &[u8]) -> bool
    ensures { result ≡ is_utf8 bytes.now }
{
    std::str::from_utf8(bytes).is_ok()
}

/// Whether the bytes are UTF-8 without NUL.
pub(crate) fn is_text(bytes: &[u8]) -> bool
    ensures { result ≡ is_text bytes.now }
{
    is_utf8(bytes) && !bytes.contains(&0)
}

/// Whether the text begins with a slash.
pub(crate) fn is_absolute(text: &[u8]) -> bool
    ensures { result ≡ is_absolute text.now }
{
    match text {
        [first, ..] => *first == SLASH,
        [] => false,
    }
}

/// Whether the piece between two slashes leads on.
fn is_name(piece: &[u8]) -> bool
    ensures { result ≡ is_name piece.now }
{
    !(piece.is_empty() || piece == b".".as_slice())
}

fn slash_at(text: &[u8]) -> Option<usize>
    ensures { result ≡ position (λ b. b == 47) text.now }
{
    text.iter().position(|b| *b == SLASH)
}

/// The text up to its first slash, and what stands behind that slash.
fn cut(text: &[u8]) -> (&[u8], &[u8])
    ensures names { names text.now
        ≡ (if is_name result.0.now then result.0.now ∷ names result.1.now else names result.1.now) }
    ensures shorter { 0 < length text.now → length result.1.now < length text.now }
    ensures within { length result.0.now + length result.1.now ≤ length text.now }
{
    match slash_at(text) {
        Some(end) => (&text[..end], &text[end + 1..]),
        None => (text, &[]),
    }
}

/// The first component of the text, and what stands behind it.
pub(crate) fn first_name(text: &[u8]) -> Option<(&[u8], &[u8])>
    ensures within { IfSome result (λ cut. length cut.0.now + length cut.1.now ≤ length text.now) }
    ensures shorter { IfSome result (λ cut. length cut.1.now < length text.now) }
    ensures name { MatchOption result (names text.now ≡ []) (λ cut. names text.now ≡ cut.0.now ∷ names cut.1.now) }
{
    let mut rest = text;
    while !rest.is_empty() {
        let (piece, after) = cut(rest);
        if is_name(piece) {
            return Some((piece, after));
        }
        rest = after;
    }
    None
}

/// The components of a text, or of one text and then another.
#[derive(Clone, Copy, Drop)]
pub(crate) struct Names<'a> {
    front: &'a [u8],
    back: &'a [u8],
}

impl<'a> Names<'a> {
    /// The components of the text under the base.
    pub(crate) fn under(base: &'a [u8], text: &'a [u8]) -> Names<'a>
        ensures { names_left result ≡ names_under base.now text.now }
    {
        if is_absolute(text) {
            Names {
                front: text,
                back: &[],
            }
        } else {
            Names {
                front: base,
                back: text,
            }
        }
    }
}

impl<'a> Iterator for Names<'a> {
    type Item = &'a [u8];

    ghost next_gives = { YieldsFirstRef names_left };

    ghost remaining = { item_count names_left };

    fn next(&mut self) -> Option<&'a [u8]> {
        if let Some((name, rest)) = first_name(self.front) {
            self.front = rest;
            return Some(name);
        }
        let (name, rest) = first_name(self.back)?;
        self.front = rest;
        self.back = &[];
        Some(name)
    }
}

/// Whether a component of the text is `..`.
fn goes_up(text: &[u8]) -> bool
    ensures { result ≡ list_any (λ name. bytes_eq name (codes "..")) (names text.now) }
{
    let mut rest = text;
    while let Some((name, after)) = first_name(rest) {
        if name == b"..".as_slice() {
            return true;
        }
        rest = after;
    }
    false
}

/// Whether it is a text of which no component is `..`.
pub(crate) fn is_plain(text: &[u8]) -> bool
    ensures { result ≡ is_plain text.now }
{
    is_text(text) && !goes_up(text)
}

/// Whether the text has a normal form under the base.
pub(crate) fn can_resolve(base: &[u8], text: &[u8]) -> bool
    ensures { result ≡ can_resolve base.now text.now }
{
    !text.is_empty() && is_plain(text) && (is_absolute(text) || is_plain(base))
}
