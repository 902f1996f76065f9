// Bytes that begin no token.
use awk_text::Memory;
use std::alloc::Global;

/// Characters that scripts have by mistake, and what to write.
const CHARACTERS: [(char, &str); 15] = [
    (
        '\'',
        "a single quote: a string stands between double quotes",
    ),
    ('@', "of gawk alone"),
    ('&', "half of &&"),
    (
        '\\',
        "a backslash: outside strings and patterns it stands before a newline alone",
    ),
    ('`', "a backquote: a command is read by getline"),
    ('\u{a0}', "a no-break space: write a blank"),
    ('\u{ad}', "a soft hyphen: take it away"),
    ('\u{200b}', "a zero-width space: take it away"),
    ('\u{2009}', "a thin space: write a blank"),
    ('\u{2013}', "a dash: write -"),
    ('\u{2014}', "a dash: write -"),
    ('\u{2018}', "a curly quote: write a straight one"),
    ('\u{2019}', "a curly quote: write a straight one"),
    ('\u{201c}', "a curly quote: write a straight one"),
    ('\u{feff}', "a byte order mark: save the script without one"),
];

/// The character that the text begins with, if it begins with one of UTF-8.
fn first_char(text: &[u8]) -> Option<char> {
    for length in 1..5usize {
        if let Some(front) = text.get(..length)
            && let Ok(character) = std::str::from_utf8(front)
        {
            return character.chars().next();
        }
    }
    None
}

fn listed(character: char, characters: &[(char, &'static str)]) -> Option<&'static str> {
    for (one, words) in characters {
        if *one == character {
            return Some(*words);
        }
    }
    None
}

fn known(character: char) -> Option<&'static str> {
    listed(character, CHARACTERS.as_slice())
}

/// What the text begins with, where no token begins with it.
pub fn byte_reason(alloc: Global, text: &[u8]) -> Result<String, Memory> {
    let Some(character) = first_char(text) else {
        return match text.first() {
            Some(byte) => format!(in alloc; "the byte 0x{byte:02X} is no text of UTF-8"),
            None => Ok(String::new(alloc)),
        };
    };
    let code = character as u32;
    match known(character) {
        Some(words) => format!(in alloc; "U+{code:04X} is {words}"),
        None if character.is_ascii_graphic() => format!(in alloc; "`{character}` begins nothing"),
        None => format!(in alloc; "U+{code:04X} begins nothing"),
    }
}
