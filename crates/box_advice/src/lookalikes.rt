// Characters that look like those of TOML, and are none.
use crate::bytes::{before_first, behind_last};
use crate::page::Page;

/// Characters, and what they are taken for.
const LOOKALIKES: [(char, &str); 12] = [
    ('\u{201c}', "a double quote"),
    ('\u{201d}', "a double quote"),
    ('\u{201e}', "a double quote"),
    ('\u{ab}', "a double quote"),
    ('\u{bb}', "a double quote"),
    ('\u{2018}', "a single quote"),
    ('\u{2019}', "a single quote"),
    ('\u{a0}', "a blank"),
    ('\u{2003}', "a blank"),
    ('\u{200b}', "nothing"),
    ('\u{feff}', "nothing"),
    ('\u{ff1d}', "an equals sign"),
];

fn listed(c: char, lookalikes: &[(char, &'static str)]) -> Option<&'static str> {
    for (character, like) in lookalikes {
        if *character == c {
            return Some(*like);
        }
    }
    None
}

fn like_of(c: char) -> Option<&'static str> {
    listed(c, LOOKALIKES.as_slice())
}

/// The line of the text that this place stands on.
fn line_with(text: &[u8], at: usize) -> &[u8] {
    let before = text.get(..at).unwrap_or(text);
    let rest = text.get(behind_last(before, b'\n')..).unwrap_or(&[]);
    before_first(rest, b'\n')
}

/// Such a character, the column where it stands, and what it is taken for.
#[derive(Clone, Copy, Drop)]
struct Lookalike {
    character: char,
    column: u32,
    like: &'static str,
}

fn first_lookalike(line: &str) -> Option<Lookalike> {
    let mut column = 0u32;
    for character in line.chars() {
        column = column.saturating_add(1);
        if let Some(like) = like_of(character) {
            return Some(Lookalike {
                character,
                column,
                like,
            });
        }
    }
    None
}

/// The first such character of the line that this place of the text stands on, with its column, in words that follow
/// those of a fault; no words, where there is none.
pub(crate) fn put_lookalike(text: &[u8], at: usize, page: &mut Page) {
    let line = std::str::from_utf8(line_with(text, at)).unwrap_or("");
    if let Some(found) = first_lookalike(line) {
        page.put("; column ");
        page.put_number(u64::from(found.column));
        page.put(" has ");
        page.put_code(found.character);
        page.put(", which looks like ");
        page.put(found.like);
    }
}
