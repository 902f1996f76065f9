// Escapes in strings.
ghost use Rattle.std.specs.Prelude.{◌≡◌, ◌++◌, ◌∷◌, ◌%◌, ◌≤◌, length, IfOk, IsOkUnless, OnOk};
ghost use Rattle.awk_text.specs.Escapes.{escape_of, escaped_byte, is_octal, octal_digits, octal_value, unescaped};

use crate::Memory;
use crate::fault::Fault;
use std::alloc::Global;

#[tactic(auto, unfolding(crate::specs::Escapes::escaped_byte))]
fn escaped_byte(b: u8) -> Option<u8>
    ensures { result ≡ escaped_byte b }
{
    match b {
        b'"' | b'/' | b'\\' => Some(b),
        b'a' => Some(0x07),
        b'b' => Some(0x08),
        b'f' => Some(0x0C),
        b'n' => Some(b'\n'),
        b'r' => Some(b'\r'),
        b't' => Some(b'\t'),
        b'v' => Some(0x0B),
        _ => None,
    }
}

fn is_octal(b: u8) -> bool
    ensures { result ≡ is_octal b }
{
    b'0' <= b && b <= b'7'
}

/// How many octal digits the text begins with, up to three, and their value modulo 256.
fn octal(text: &[u8]) -> (usize, u8)
    ensures taken { result.0 ≡ length (octal_digits text.now) }
    ensures value { result.1 ≡ octal_value (octal_digits text.now) % 256 }
    ensures within { result.0 ≤ length text.now }
{
    let most = &text[..text.len().min(3)];
    let mut value: u8 = 0;
    for (i, b) in most.iter().enumerate() {
        if !is_octal(*b) {
            return (i, value);
        }
        value = value.wrapping_mul(8).wrapping_add(*b - b'0');
    }
    (most.len(), value)
}

/// Appends what the escape stands for whose `\` stands before this text, and gives the number of
/// bytes that it takes of the text.
#[tactic(auto, unfolding(crate::specs::Escapes::escape_of, crate::specs::Escapes::one_byte))]
fn push_escape(out: &mut Vec<u8>, text: &[u8]) -> Result<usize, Memory>
    ensures ok { IfOk result (λ taken. taken ≡ (escape_of text.now).taken) }
    ensures text { OnOk result (out.new.items ≡ out.old.items ++ (escape_of text.now).text) }
    ensures within { IfOk result (λ taken. taken ≤ length text.now) }
{
    let Some(&b) = text.first() else {
        out.push(b'\\')?;
        return Ok(0);
    };
    if is_octal(b) {
        let (taken, value) = octal(text);
        out.push(value)?;
        return Ok(taken);
    }
    if b != b'\n' {
        match escaped_byte(b) {
            Some(byte) => out.push(byte)?,
            None => out.extend_from_slice(&[b'\\', b])?,
        }
    }
    Ok(1)
}

/// The text with each escape as what it stands for: `\"`, `\\`, `\/`, `\a`, `\b`, `\f`, `\n`, `\r`,
/// `\t` and `\v` as in C, and `\` with one to three octal digits as the byte of that value modulo
/// 256. `\` and a newline is nothing; any other `\` stays. POSIX.1-2017, XCU awk, "Lexical
/// Conventions".
///
/// Fails with `Fault::Memory` alone, where memory is refused.
pub fn unescape(alloc: Global, text: &[u8]) -> Result<Vec<u8>, Fault>
    ensures ok { IfOk result (λ v. v.items ≡ unescaped text.now) }
    ensures err { IsOkUnless result Fault.Memory }
{
    let mut out = Vec::with_capacity(alloc, text.len())?;
    let mut rest = text;
    while let [b, after @ ..] = rest {
        if *b == b'\\' {
            let taken = push_escape(&mut out, after)?;
            rest = &after[taken..];
        } else {
            out.push(*b)?;
            rest = after;
        }
    }
    Ok(out)
}
