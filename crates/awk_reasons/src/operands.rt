// Operands that a log of denials tells of.
use awk_text::Memory;
use awk_text::quote::quote_log;
use std::alloc::{AllocError, Global};

// What stands before rule and text on the line of an operand that was to be read.
const BEGINS: &str = "0:0 read ";

/// The first line of this log that tells that the operand was not to be read, if one does.
///
/// Fails where memory is refused.
pub fn denied<'a>(alloc: Global, log: &'a [u8], operand: &[u8]) -> Result<Option<&'a str>, Memory> {
    let Ok(quoted) = quote_log(alloc, operand) else {
        return Err(AllocError);
    };
    for line in log.split(|byte| *byte == b'\n') {
        if tells_of(line, quoted.as_slice()) {
            return Ok(std::str::from_utf8(line).ok());
        }
    }
    Ok(None)
}

// `0:0 read RULE "QUOTED"`
fn tells_of(line: &[u8], quoted: &[u8]) -> bool {
    match text_of(line) {
        Some(text) => text == quoted,
        None => false,
    }
}

// What the line of an operand quotes.
fn text_of(line: &[u8]) -> Option<&[u8]> {
    let rest = line.strip_prefix(BEGINS.as_bytes())?;
    let rule = rest.iter().position(|byte| *byte == b' ')?;
    rest.get(rule.saturating_add(1)..)?
        .strip_prefix(b"\"".as_slice())?
        .strip_suffix(b"\"".as_slice())
}

/// What is said of an operand, which is quoted as the log quotes it.
///
/// Fails where memory is refused.
pub fn told_of(alloc: Global, operand: &[u8], words: &str) -> Result<String, Memory> {
    let Ok(quoted) = quote_log(alloc, operand) else {
        return Err(AllocError);
    };
    let name = std::str::from_utf8(quoted.as_slice()).unwrap_or("?");
    format!(in alloc; "\"{name}\": {words}")
}
