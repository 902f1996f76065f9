// Pieces of a printed program.

use crate::context::Printing;
use crate::page::{Page, put};
use awk_numbers::number::Number;
use awk_program::Variable;
use awk_text::buffer::Buffer;
use awk_text::place::Place;

pub fn text(text: &str, out: &mut Page) {
    put(text.as_bytes(), out)
}

pub fn word(text: &[u8], out: &mut Page) {
    put(b" ", out);
    put(text, out)
}

/// `(` and the name of a form.
pub fn open(text: &str, out: &mut Page) {
    put(b" (", out);
    put(text.as_bytes(), out)
}

/// `(`, the name of a form and its place.
pub fn open_at(text: &str, at: Place, out: &mut Page) {
    open(text, out);
    place(at, out)
}

/// The end of a form.
pub fn close(out: &mut Page) {
    put(b")", out)
}

pub fn number(n: Number, out: &mut Page) {
    let mut buffer = Buffer::new();
    word(buffer.text(n), out)
}

/// The number of a function.
pub fn ordinal(n: usize, out: &mut Page) {
    let mut buffer = itoa::Buffer::new();
    word(buffer.format(n).as_bytes(), out)
}

/// `line:column`
pub fn place(at: Place, out: &mut Page) {
    let mut buffer = itoa::Buffer::new();
    word(buffer.format(at.line).as_bytes(), out);
    put(b":", out);
    put(buffer.format(at.column).as_bytes(), out)
}

fn octet(mark: u8, b: u8, out: &mut Page) {
    if b == mark || (b == b'\\' && mark == b'"') {
        put(&[b'\\', b], out)
    } else if b == b'\n' {
        put(b"\\n", out)
    } else {
        put(&[b], out)
    }
}

fn escaped(mark: u8, text: &[u8], out: &mut Page) {
    for b in text {
        octet(mark, *b, out);
    }
}

/// A text between two marks.
pub fn quoted(mark: u8, text: &[u8], out: &mut Page) {
    put(&[b' ', mark], out);
    escaped(mark, text, out);
    put(&[mark], out)
}

/// A variable by its name, a parameter by its place.
pub fn variable(context: Printing<'_>, v: Variable, out: &mut Page) {
    match v {
        Variable::Global(n) => match context.names.get(n as usize) {
            Some(name) => word(name.text.bytes(), out),
            None => word(b"", out),
        },
        Variable::Parameter(n) => {
            put(b" #", out);
            put(itoa::Buffer::new().format(n).as_bytes(), out)
        }
    }
}

pub fn variables(context: Printing<'_>, vs: &[Variable], out: &mut Page) {
    for v in vs {
        variable(context, *v, out);
    }
}
