// Lines that are written piece by piece.
use awk_text::Memory;
use awk_text::quote::quote_log;
use box_policy::error::PolicyError;
use std::alloc::{AllocError, Global};

/// A text that grows until memory for it is refused once. What comes behind that is lost, so that who writes asks once,
/// at the end, and not behind each piece.
#[derive(Drop)]
pub(crate) struct Page {
    alloc: Global,
    text: String,
    is_cut: bool,
}

impl Page {
    pub(crate) fn new(alloc: Global) -> Page {
        Page {
            alloc,
            text: String::new(alloc),
            is_cut: false,
        }
    }

    pub(crate) fn put(&mut self, text: &str) {
        if self.text.push_str(text).is_err() {
            self.is_cut = true;
        }
    }

    pub(crate) fn put_all(&mut self, pieces: &[&str]) {
        for piece in pieces {
            self.put(piece);
        }
    }

    pub(crate) fn put_char(&mut self, c: char) {
        if self.text.push(c).is_err() {
            self.is_cut = true;
        }
    }

    /// Nothing that is written counts.
    pub(crate) fn cut(&mut self) {
        self.is_cut = true;
    }

    fn put_made(&mut self, made: Result<String, Memory>) {
        match made {
            Ok(text) => self.put(text.as_str()),
            Err(_) => self.is_cut = true,
        }
    }

    pub(crate) fn put_number(&mut self, number: u64) {
        let made = format!(in self.alloc; "{number}");
        self.put_made(made);
    }

    /// `U+201C`
    pub(crate) fn put_code(&mut self, c: char) {
        let code = c as u32;
        let made = format!(in self.alloc; "U+{code:04X}");
        self.put_made(made);
    }

    /// The character in a string of TOML, by its number.
    pub(crate) fn put_escape(&mut self, c: char) {
        let code = c as u32;
        let made = if code > 0xffff {
            format!(in self.alloc; "\\U{code:08x}")
        } else {
            format!(in self.alloc; "\\u{code:04x}")
        };
        self.put_made(made);
    }

    /// `P4 rule 1`
    pub(crate) fn put_error(&mut self, error: PolicyError) {
        let made = format!(in self.alloc; "{error}");
        self.put_made(made);
    }

    /// The text as the log of denials quotes it.
    pub(crate) fn put_quoted(&mut self, text: &[u8]) {
        match quote_log(self.alloc, text) {
            Ok(quoted) => self.put(std::str::from_utf8(quoted.as_slice()).unwrap_or("")),
            Err(_) => self.is_cut = true,
        }
    }

    /// What is written so far; `Memory` where that was refused.
    pub(crate) fn text(&self) -> Result<&str, Memory> {
        if self.is_cut {
            return Err(AllocError);
        }
        Ok(self.text.as_str())
    }

    /// What is written; `Memory` where that was refused.
    pub(crate) fn end(self) -> Result<String, Memory> {
        if self.is_cut {
            return Err(AllocError);
        }
        Ok(self.text)
    }
}
