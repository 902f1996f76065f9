// A line of a log of denials or of an audit.
ghost use Rattle.std.specs.Prelude.{◌≡◌, ◌<◌, ℕ, List, true, false, All, IfOk, IfSome, MatchOption};
ghost use Rattle.std.specs.Str.{bytes_eq};
ghost use Rattle.awk_text.specs.Quoted.{quoted};
ghost use Rattle.awk_text.specs.declared.place.Place.{Place};
ghost use Rattle.box_monitor.specs.Lines.{kind_word};
ghost use Rattle.box_policy.specs.declared.policy.Kind.{Kind};
ghost use Rattle.box_advice.specs.LogLines.{IsPlace, IsWord, joined, place_text};
ghost use Rattle.box_advice.specs.Logs.{Tells, is_start, wish_of};
ghost use Rattle.box_advice.specs.declared.wishes.Wish.{Wish};

use crate::cuts::{number_of, parts_of, place_of};
use crate::quotes::unquoted;
use crate::wanting::given_of;
use crate::wishes::{Origin, Wish};
use crate::words::kind_of;
use awk_text::Memory;
use awk_text::octets::Octets;
use awk_text::place::Place;
use box_policy::policy::Kind;
use std::alloc::Global;

/// What a line tells, its text as it is quoted.
#[derive(Clone, Copy, Drop)]
struct LogLine<'a> {
    place: Place,
    kind: Kind,
    quoted: &'a [u8],
}

fn is_text(word: &[u8], text: &str) -> bool
    ensures { result ≡ bytes_eq word.now text.now }
{
    word == text.as_bytes()
}

// The number of a rule or `none` in a log, `ok` or `failed` in an audit.
fn is_word(word: &[u8]) -> bool
    ensures read { result ≡ true → IsWord word.now }
    ensures found { result ≡ false → IsWord word.now → ⊥ }
{
    if is_text(word, "none") {
        return true;
    }
    if is_text(word, "ok") {
        return true;
    }
    if is_text(word, "failed") {
        return true;
    }
    match number_of(word) {
        Some(_) => true,
        None => false,
    }
}

// `LINE:COLUMN KIND WORD "TEXT"`
fn read_line(line: &[u8]) -> Option<LogLine<'_>>
    ensures read { IfSome result (λ told. (word : List ℕ) × IsWord word
        × (line.now ≡ joined (place_text told.place) (kind_word told.kind) word told.quoted.now)) }
    ensures small { IfSome result (λ told. IsPlace told.place) }
    ensures found { (place : Place) (kind : Kind) (word quoted : List ℕ) → IsPlace place → IsWord word →
        line.now ≡ joined (place_text place) (kind_word kind) word quoted →
        MatchOption result ⊥ (λ told. (told.place ≡ place) × (told.kind ≡ kind) × (told.quoted.now ≡ quoted)) }
{
    let parts = parts_of(line)?;
    let place = place_of(parts.place)?;
    let kind = kind_of(parts.kind)?;
    if is_word(parts.word) {
        Some(LogLine {
            place,
            kind,
            quoted: parts.quoted,
        })
    } else {
        None
    }
}

fn is_start(place: Place) -> bool
    ensures { result ≡ is_start place }
{
    place.line == 0 && place.column == 0
}

// What is wished by what a line of this number tells, whose text this is.
fn wish_with(told: LogLine<'_>, text: Octets, number: usize) -> Wish
    ensures { result ≡ wish_of number told.entry.place (record { kind = told.entry.kind; text = text }) }
{
    Wish {
        kind: told.kind,
        text: Some(text),
        may_be_given: given_of(told.kind, is_start(told.place)),
        origin: Origin::Log(number),
    }
}

// The same where its text is yet to be read; `None` where it is none that is quoted so.
fn wish_at(alloc: Global, told: LogLine<'_>, number: usize) -> Result<Option<Wish>, Memory>
    ensures read { IfOk result (λ found. IfSome found (λ wish. (text : List ℕ) × All (λ byte. byte < 256) text
        × (quoted text ≡ told.entry.quoted.now)
        × (wish ≡ wish_of number told.entry.place (record { kind = told.entry.kind; text = text })))) }
    ensures found { (text : List ℕ) → All (λ byte. byte < 256) text → quoted text ≡ told.entry.quoted.now →
        IfOk result (λ found. MatchOption found ⊥
        (λ one. one ≡ wish_of number told.entry.place (record { kind = told.entry.kind; text = text }))) }
{
    let found = unquoted(alloc, told.quoted)?;
    match found {
        Some(text) => Ok(Some(wish_with(told, text, number))),
        None => Ok(None),
    }
}

/// The wish of a line of this number; `None` where it is none that a run writes.
pub(crate) fn wish_of(alloc: Global, line: &[u8], number: usize) -> Result<Option<Wish>, Memory>
    ensures read { IfOk result (λ found. IfSome found (λ wish. Tells number line.now wish)) }
    ensures found { (wish : Wish) → Tells number line.now wish →
        IfOk result (λ found. MatchOption found ⊥ (λ one. one ≡ wish)) }
{
    match read_line(line) {
        Some(told) => wish_at(alloc, told, number),
        None => Ok(None),
    }
}
