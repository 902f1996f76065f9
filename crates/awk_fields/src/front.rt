// The first record of what is unread, as places in it.
ghost use Rattle.std.specs.Prelude.{◌≡◌, ◌==◌, ◌+◌, ◌≤◌, length, take, IfSome};
ghost use Rattle.std.specs.List.{prefix_len, position_or_len};
ghost use Rattle.awk_fields.specs.Heads.{head, is_newline, line, pair_place, paragraph, trimmed};
ghost use Rattle.awk_fields.specs.Unread.{IsInside, IsPassed, IsSearched, head_of, last_of};

use crate::marks::Marks;
use awk_text::texts::MOST_BYTES;
use memchr::memmem;

/// What is known of the bytes that are held. The search goes on from there once more are held, so
/// that each byte is looked at once, however many pieces a record comes in.
#[derive(Clone, Copy, Drop)]
pub enum Searched {
    /// So many in front are not this one.
    Byte(u8, usize),
    /// So many in front are newlines, and no two newlines stand in a row in so many behind them.
    Paragraph(usize, usize),
}

/// The first record's start and end, and where what is left begins; or why there is none.
#[derive(Clone, Copy, Drop)]
pub enum Front {
    Record(usize, usize, usize),
    NeedMore(Searched),
    Done,
    TooLong,
}

/// How many bytes in front are known not to be the mark.
fn known_len(unread: &[u8], mark: u8, searched: Searched) -> usize
    requires { IsSearched unread.now searched }
    ensures before { result ≤ position_or_len (λ b. b == mark) unread.now }
    ensures inside { result ≤ length unread.now }
{
    match searched {
        Searched::Byte(sought, count) if sought == mark => count,
        _ => 0,
    }
}

/// How many bytes stand before the first mark.
#[inline(always)]
pub fn mark_place(unread: &[u8], mark: u8, searched: Searched) -> usize
    requires { IsSearched unread.now searched }
    ensures place { result ≡ position_or_len (λ b. b == mark) unread.now }
    ensures inside { result ≤ length unread.now }
{
    let from = known_len(unread, mark, searched);
    from + Marks::one(mark).len_before(&unread[from..])
}

/// The record of what is held with no end seen.
fn last_front(start: usize, end: usize, next: usize, searched: Searched, ended: bool) -> Front
    requires { start ≤ end }
    ensures { result ≡ last_of start end next searched ended }
{
    if !ended {
        Front::NeedMore(searched)
    } else if start == end {
        Front::Done
    } else {
        Front::Record(start, end, next)
    }
}

/// The first record where RS is this byte.
fn line_front(unread: &[u8], mark: u8, searched: Searched, ended: bool) -> Front
    requires { IsSearched unread.now searched }
    ensures front { head_of unread.now result ≡ line mark unread.now ended }
    ensures inside { IsInside unread.now result }
{
    let place = mark_place(unread, mark, searched);
    if place > MOST_BYTES {
        Front::TooLong
    } else if place < unread.len() {
        Front::Record(0, place, place + 1)
    } else {
        last_front(0, place, place, Searched::Byte(mark, place), ended)
    }
}

/// How many newlines stand in front.
fn newlines(unread: &[u8]) -> usize
    ensures newlines { result ≡ prefix_len is_newline unread.now }
    ensures inside { result ≤ length unread.now }
{
    for (i, b) in unread.iter().enumerate() {
        if *b != b'\n' {
            return i;
        }
    }
    unread.len()
}

/// The place of the first two newlines in a row, where none stand in so many bytes in front.
fn pair_place(body: &[u8], known: usize) -> Option<usize>
    requires inside { known ≤ length body.now }
    requires none { pair_place (take known body.now) ≡ None }
    ensures place { result ≡ pair_place body.now }
    ensures inside { IfSome result (λ k. k + 2 ≤ length body.now) }
{
    let from = known.saturating_sub(1);
    let place = memmem::find(&body[from..], b"\n\n")?;
    Some(from + place)
}

/// What is known of newlines.
fn known_paragraph(unread: &[u8], searched: Searched) -> (usize, usize)
    requires { IsSearched unread.now searched }
    ensures passed { IsPassed unread.now result.0 result.1 }
    ensures inside { result.0 ≤ length unread.now }
{
    match searched {
        Searched::Paragraph(passed, count) => (passed, count),
        Searched::Byte(_, _) => (0, 0),
    }
}

/// How many newlines stand in front, and in how many bytes behind all of them no two are known to
/// stand in a row.
fn passed_newlines(unread: &[u8], searched: Searched) -> (usize, usize)
    requires { IsSearched unread.now searched }
    ensures newlines { result.0 ≡ prefix_len is_newline unread.now }
    ensures inside { result.0 ≤ length unread.now }
    ensures passed { IsPassed unread.now result.0 result.1 }
{
    let (passed, count) = known_paragraph(unread, searched);
    let more = newlines(&unread[passed..]);
    if more == 0 {
        (passed, count)
    } else {
        (passed + more, 0)
    }
}

/// How many bytes there are without a newline that stands last.
fn trimmed_len(unread: &[u8]) -> usize
    ensures trimmed { result ≡ length (trimmed unread.now) }
    ensures inside { result ≤ length unread.now }
    ensures close { length unread.now ≤ result + 1 }
{
    match unread {
        [rest @ .., b'\n'] => rest.len(),
        _ => unread.len(),
    }
}

/// The first record where RS is empty.
fn paragraph_front(unread: &[u8], searched: Searched, ended: bool) -> Front
    requires { IsSearched unread.now searched }
    ensures front { head_of unread.now result ≡ paragraph unread.now ended }
    ensures inside { IsInside unread.now result }
{
    let (start, known) = passed_newlines(unread, searched);
    let body = &unread[start..];
    if let Some(place) = pair_place(body, known) {
        if start + place > MOST_BYTES {
            return Front::TooLong;
        }
        return Front::Record(start, start + place, start + place + 2);
    }
    if trimmed_len(unread) > MOST_BYTES {
        return Front::TooLong;
    }
    let end = start + trimmed_len(body);
    let searched = Searched::Paragraph(start, body.len());
    last_front(start, end, unread.len(), searched, ended)
}

/// The first record.
pub fn first_record(unread: &[u8], rs: &[u8], searched: Searched, ended: bool) -> Front
    requires { IsSearched unread.now searched }
    ensures front { head_of unread.now result ≡ head rs.now unread.now ended }
    ensures inside { IsInside unread.now result }
{
    match rs {
        [] => paragraph_front(unread, searched, ended),
        [mark, ..] => line_front(unread, *mark, searched, ended),
    }
}
