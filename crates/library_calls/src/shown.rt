// Answers, as rows write them.
use crate::problem::Problem;
use awk_numbers::number::Number;
use awk_text::buffer::Buffer;
use awk_text::octets::Octets;
use awk_text::value::Value;
use std::alloc::{AllocError, Global};
use std::fmt::Display;

/// What a call answers, as bytes.
pub type Shown = Result<Vec<u8>, Problem>;

pub fn bytes(alloc: Global, bytes: &[u8]) -> Shown {
    Ok(Vec::from_slice(alloc, bytes)?)
}

pub fn show<T: Display + Drop>(alloc: Global, shown: T) -> Shown {
    let shown = shown.to_string(alloc)?;
    Ok(shown.into_bytes())
}

pub fn yes_or_no(alloc: Global, is_so: bool) -> Shown {
    bytes(alloc, if is_so { b"yes" } else { b"no" })
}

/// A number by its text.
pub fn show_number(alloc: Global, number: Number) -> Shown {
    let mut buffer = Buffer::new();
    bytes(alloc, buffer.text(number))
}

/// A value as an argument writes it.
pub fn show_value(alloc: Global, value: &Value) -> Shown {
    match value {
        Value::Unset => bytes(alloc, b"unset"),
        Value::Num(number) => show(alloc, *number),
        Value::Real(number) => show_number(alloc, Number::Real(*number)),
        Value::Text(text) => bytes(alloc, text.bytes()),
        Value::Input(text) => {
            let mut shown = Vec::from_slice(alloc, b"field ".as_slice())?;
            shown.extend_from_slice(text.bytes())?;
            Ok(shown)
        }
    }
}

/// The texts, each in brackets.
pub fn bracketed(alloc: Global, texts: &[Octets]) -> Shown {
    let mut shown = Vec::new(alloc);
    for text in texts {
        shown.push(b'[')?;
        shown.extend_from_slice(text.bytes())?;
        shown.push(b']')?;
    }
    Ok(shown)
}

/// What a row is compared with: the answer, or why there is none.
pub fn told(alloc: Global, answer: Shown) -> Result<Octets, AllocError> {
    match answer {
        Ok(bytes) => Ok(Octets::new(bytes)),
        Err(problem) => Ok(Octets::new(problem.to_string(alloc)?.into_bytes())),
    }
}
