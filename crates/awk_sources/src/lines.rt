// Whose the lines of the whole are.
ghost use Rattle.std.specs.Prelude.{◌≡◌, ◌<◌, ◌+◌, ◌^◌, nat_lt, Some, None, ℕ, length, map, IfOk, IfSome, string_bytes};
ghost use Rattle.awk_text.specs.Quoted.{quoted};
ghost use Rattle.awk_sources.specs.Lines as spec;

use crate::source::Source;
use awk_text::Memory;
use awk_text::place::Place;
use awk_text::quote::quote_log;
use std::alloc::{AllocError, Global};
use std::fmt;
use std::marker::Model;

/// A text's name, quoted as the log of denials has it, and how many lines it has.
#[derive(Drop)]
struct Part {
    name: String,
    lines: usize,
}

/// Which lines of a whole are those of which text. Contracts see it as a list of names and numbers of lines.
#[derive(Drop)]
pub struct Lines {
    parts: Vec<Part>,
}

impl Model for Lines {
    ghost use Rattle.std.specs.Prelude.{List};
    ghost use Rattle.awk_sources.specs.Lines.{Entry, entries};

    ghost Value = { List Entry };

    ghost view = { λ o. entries o.parts.items };
}

/// A place in one of several texts.
#[derive(Clone, Copy, Drop)]
pub struct InSource<'a> {
    /// The text's name, quoted as the log of denials has it.
    pub name: &'a str,
    pub place: Place,
}

impl<'a> fmt::Display for InSource<'a> {
    ghost use Rattle.awk_sources.specs.Lines.{told};

    ghost output = { λ found. Some (told found) };

    fn fmt<W: fmt::Write>(&self, f: &mut fmt::Formatter<W>) -> fmt::Result {
        let (name, line, column) = (self.name, self.place.line, self.place.column);
        write!(f, "{name}:{line}:{column}")
    }
}

/// How many lines there are, with the one behind the last newline.
fn lines_of(text: &[u8]) -> usize
    ensures { result ≡ spec.lines_of text.now }
{
    let mut lines = 1;
    for b in text {
        if *b == b'\n' {
            lines += 1;
        }
    }
    lines
}

fn quoted_name(alloc: Global, name: &str) -> Result<String, Memory>
    ensures { IfOk result (λ text. string_bytes text ≡ quoted name.now) }
{
    let Ok(bytes) = quote_log(alloc, name.as_bytes()) else {
        return Err(AllocError);
    };
    match String::from_utf8(bytes) {
        Ok(name) => Ok(name),
        Err(_) => Err(AllocError),
    }
}

fn row(alloc: Global, first: usize, last: usize, name: &str) -> Result<String, Memory>
    ensures { IfOk result (λ text. string_bytes text ≡ spec.row_text first last name.now) }
{
    let mut text = format!(in alloc; "{first}-{last}")?;
    text.push_str(" \"")?;
    text.push_str(name)?;
    text.push_str("\"\n")?;
    Ok(text)
}

/// The part that has this line of the whole, and which of its lines it is.
fn part_at(parts: &[Part], place: Place) -> Option<InSource<'_>>
    ensures told { IfSome result (spec.IsTold (spec.entries parts.now) place) }
    ensures none { result ≡ None → spec.HasNoLine (spec.entries parts.now) place.line }
{
    let mut line = place.line;
    if line == 0 {
        return None;
    }
    for part in parts {
        if line as usize <= part.lines {
            return Some(InSource {
                name: part.name.as_str(),
                place: Place {
                    line,
                    column: place.column,
                },
            });
        }
        line -= part.lines as u32;
    }
    None
}

fn parts_of(alloc: Global, sources: &[Source]) -> Result<Vec<Part>, Memory>
    ensures { IfOk result (λ parts. spec.entries parts.items ≡ map spec.entry_of sources.now) }
{
    let mut parts = Vec::with_capacity(alloc, sources.len())?;
    for source in sources {
        parts.push(Part {
            name: quoted_name(alloc, source.name.as_str())?,
            lines: lines_of(source.text.as_slice()),
        })?;
    }
    Ok(parts)
}

fn rows(alloc: Global, parts: &[Part]) -> Result<String, Memory>
    ensures { IfOk result (λ text. 1 + spec.total (spec.entries parts.now) < 2 ^ 64 →
        string_bytes text ≡ spec.table 1 (spec.entries parts.now)) }
{
    let mut table = String::new(alloc);
    let mut first = 1usize;
    for part in parts {
        let next = first.saturating_add(part.lines);
        let line = row(alloc, first, next.saturating_sub(1), part.name.as_str())?;
        table.push_str(line.as_str())?;
        first = next;
    }
    Ok(table)
}

impl Lines {
    /// The lines of these texts, where they are one.
    pub fn of(alloc: Global, sources: &[Source]) -> Result<Lines, Memory>
        ensures { IfOk result (λ lines. lines ≡ map spec.entry_of sources.now) }
    {
        Ok(Lines {
            parts: parts_of(alloc, sources)?,
        })
    }

    /// Whether there are several texts.
    pub fn are_several(&self) -> bool
        ensures { result ≡ nat_lt 1 (length self.now) }
    {
        self.parts.len() > 1
    }

    /// In which text this place of the whole is, and where; nowhere, where the whole has no such line.
    pub fn place_in(&self, place: Place) -> Option<InSource<'_>>
        ensures told { IfSome result (spec.IsTold self.now place) }
        ensures none { result ≡ None → spec.HasNoLine self.now place.line }
        ensures bytes { spec.TellsOfBytes self.now place result }
    {
        part_at(self.parts.as_slice(), place)
    }

    /// Which lines of the whole are whose: for each text a line `FIRST-LAST "NAME"`.
    pub fn table(&self, alloc: Global) -> Result<String, Memory>
        ensures { IfOk result (λ text. 1 + spec.total self.now < 2 ^ 64 → string_bytes text ≡ spec.table 1 self.now) }
    {
        rows(alloc, self.parts.as_slice())
    }
}
