// The words that the program is started with, cut where `clap` would cut them otherwise.
use crate::command_line::{NAME, fault};
use crate::process::{List, entry};
use awk_text::Memory;
use awk_text::octets::Octets;
use clap::Error;
use std::alloc::Global;

/// The words before the operands, of which the first is the program's name, and the operands: what stands behind `--`,
/// and what follows the script's file or text from the first word on that is no option, so that a script's first line
/// may end with `-f`. All words behind the file of `-E` are operands, whatever they look like; it is told as the file
/// of `-f`, where no part of the script stands before it.
///
/// A value that stands in one word with its short option is a word of its own here: of `-f=x` the file is
/// `=x`, as the utility conventions of POSIX.1-2017 have it, where `clap` would drop the `=`.
#[derive(Drop)]
pub struct Words {
    /// The words before the operands, which are text; the program's name is always there.
    pub options: Vec<String>,
    /// The operands, in order: any bytes.
    pub operands: Vec<Octets>,
}

/// The option whose value is the script's file.
const SCRIPT: &str = "-f";

/// The option whose value is a text of the script.
const TEXT: &str = "-e";

/// The option of the script's file, where all words behind its value are operands.
const LAST: &str = "-E";

// What the next word is.
#[derive(Clone, Copy, PartialEq, Eq, Drop)]
enum Next {
    Option,
    /// The value of an option; of `-f` it is the script's file.
    Value,
    Operand,
}

const SHORT: [&str; 6] = [SCRIPT, TEXT, LAST, "-v", "-F", "-C"];

const LONG: [&str; 9] = [
    "--policy",
    "--log",
    "--log-limit",
    "--audit",
    "--report",
    "--steps",
    "--base",
    "--numbers",
    "--seed",
];

// Whether the next word is the value of this one.
fn wants_value(word: &str) -> bool {
    SHORT.contains(&word) || LONG.contains(&word)
}

// The short option that this word begins with, and the value that is attached to it.
fn cut(word: &str) -> Option<(&'static str, &str)> {
    for short in SHORT.as_slice() {
        if let Some(value) = word.strip_prefix(*short) {
            return Some((*short, value));
        }
    }
    None
}

// The option that this one is told as. Beside another script `-E` stays what it is, and is refused.
fn told_as(option: &str, has_script: bool) -> &str {
    if option == LAST && !has_script {
        SCRIPT
    } else {
        option
    }
}

// Whether this word is an option; `-` alone is none.
fn is_option(word: &[u8]) -> bool {
    word.len() > 1 && word[0] == b'-'
}

// Words that are being read.
#[derive(Drop)]
struct Reading {
    words: Words,
    next: Next,
    /// Whether an option of the script was met, so that operands may follow its value.
    has_script: bool,
    /// Whether all words behind the value that comes next are operands.
    is_last: bool,
}

impl Reading {
    fn new(alloc: Global) -> Result<Reading, Memory> {
        let mut options = Vec::new(alloc);
        options.push(String::from_str(alloc, NAME)?)?;
        Ok(Reading {
            words: Words {
                options,
                operands: Vec::new(alloc),
            },
            next: Next::Option,
            has_script: false,
            is_last: false,
        })
    }

    // Whether this word, or what stands behind it where it is `--`, is an operand.
    fn begins_operands(&self, word: &[u8]) -> bool {
        self.next == Next::Option
            && (word == b"--".as_slice() || self.has_script && !is_option(word))
    }

    // Takes an option that has a value.
    fn take_option(&mut self, alloc: Global, option: &str) -> Result<(), Memory> {
        let told = told_as(option, self.has_script);
        self.has_script = self.has_script || option == SCRIPT || option == TEXT;
        self.is_last = option == LAST;
        self.next = Next::Value;
        self.words.options.push(String::from_str(alloc, told)?)?;
        Ok(())
    }

    // Takes a value.
    fn take_value(&mut self, value: String) -> Result<(), Memory> {
        self.next = if self.is_last {
            Next::Operand
        } else {
            Next::Option
        };
        self.words.options.push(value)?;
        Ok(())
    }

    // Takes a word that is no operand.
    fn take(&mut self, alloc: Global, word: String) -> Result<(), Memory> {
        if self.next == Next::Value {
            return self.take_value(word);
        }
        let text = word.as_str();
        if wants_value(text) {
            return self.take_option(alloc, text);
        }
        if let Some((short, value)) = cut(text) {
            self.take_option(alloc, short)?;
            return self.take_value(String::from_str(alloc, value)?);
        }
        self.words.options.push(word)?;
        Ok(())
    }

    // Takes any word.
    fn take_any(&mut self, alloc: Global, word: Vec<u8>) -> Result<(), Error> {
        if self.begins_operands(word.as_slice()) {
            self.next = Next::Operand;
            if word.as_slice() == b"--".as_slice() {
                return Ok(());
            }
        }
        if self.next == Next::Operand {
            self.words.operands.push(Octets::new(word))?;
            return Ok(());
        }
        match String::from_utf8(word) {
            Ok(word) => Ok(self.take(alloc, word)?),
            Err(_bytes) => Err(fault(alloc, "a word is not UTF-8")),
        }
    }
}

/// Reads the words. The error is `clap`'s: a word before the operands is not text, or memory was refused.
pub fn read(rt: &HostRuntime) -> Result<Words, Error> {
    let alloc = rt.alloc();
    let mut reading = Reading::new(alloc)?;
    for at in 1..usize::MAX {
        let Some(word) = entry(rt, List::Words, at)? else {
            break;
        };
        reading.take_any(alloc, word)?;
    }
    Ok(reading.words)
}
