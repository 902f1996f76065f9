// Reads rows from the text of a table.
use crate::problem::Problem;
use crate::row::{Arg, Row};
use awk_text::escape::unescape;
use awk_text::numeral::leading_digits;
use memchr::memchr;
use std::alloc::Global;

/// What is left of a table.
#[derive(Clone, Copy, Drop)]
pub struct Cursor<'a> {
    rest: &'a [u8],
}

/// Whether no bare word goes on here.
fn ends_word(rest: &[u8]) -> bool {
    matches!(rest, [b'"' | b'`' | b'|' | b'\n', ..] | [b'=', b'>', ..])
}

fn word_len(rest: &[u8]) -> usize {
    for at in 0..rest.len() {
        if ends_word(&rest[at..]) {
            return at;
        }
    }
    rest.len()
}

/// How many bytes stand before the quote that closes.
fn quoted_len(rest: &[u8]) -> usize {
    let mut is_escaped = false;
    for at in 0..rest.len() {
        if rest[at] == b'"' && !is_escaped {
            return at;
        }
        is_escaped = rest[at] == b'\\' && !is_escaped;
    }
    rest.len()
}

fn push_times(text: &mut Vec<u8>, piece: &[u8], times: u64) -> Result<(), Problem> {
    for _ in 0..times {
        text.extend_from_slice(piece)?;
    }
    Ok(())
}

/// The piece, with these digits in place of each `#`.
fn push_with(text: &mut Vec<u8>, piece: &[u8], digits: &[u8]) -> Result<(), Problem> {
    for byte in piece {
        if *byte == b'#' {
            text.extend_from_slice(digits)?;
        } else {
            text.push(*byte)?;
        }
    }
    Ok(())
}

/// The piece with 1, with 2, and so on to the last number.
fn push_numbered(
    alloc: Global,
    text: &mut Vec<u8>,
    piece: &[u8],
    last: u64,
) -> Result<(), Problem> {
    for before in 0..last {
        let number = before.saturating_add(1);
        let digits = format!(in alloc; "{number}")?;
        push_with(text, piece, digits.as_bytes())?;
    }
    Ok(())
}

impl<'a> Cursor<'a> {
    pub fn new(table: &'a [u8]) -> Cursor<'a> {
        Cursor { rest: table }
    }

    /// The next so many bytes, which are skipped; fewer where there are no more.
    fn take(&mut self, count: usize) -> &'a [u8] {
        let (front, back) = self.rest.split_at(count.min(self.rest.len()));
        self.rest = back;
        front
    }

    fn skip_blanks(&mut self) {
        for _ in 0..self.rest.len() {
            match self.rest {
                [b' ', rest @ ..] => self.rest = rest,
                _ => return,
            }
        }
    }

    fn skip_line(&mut self) {
        self.take(memchr(b'\n', self.rest).unwrap_or(self.rest.len()));
    }

    // Empty lines, and those that begin with `#`.
    fn skip_comments(&mut self) {
        for _ in 0..self.rest.len() {
            match self.rest {
                [b'#', ..] => self.skip_line(),
                [b'\n', ..] => {
                    self.take(1);
                }
                _ => break,
            }
        }
    }

    fn word(&mut self) -> &'a [u8] {
        self.take(word_len(self.rest)).trim_ascii()
    }

    // The next quoted piece, where one stands here.
    fn piece(&mut self, alloc: Global) -> Result<Option<Vec<u8>>, Problem> {
        match self.rest {
            [b'"', rest @ ..] => {
                self.take(1);
                let body = self.take(quoted_len(rest));
                self.take(1);
                Ok(Some(unescape(alloc, body)?))
            }
            [b'`', rest @ ..] => {
                self.take(1);
                let body = self.take(memchr(b'`', rest).unwrap_or(rest.len()));
                self.take(1);
                Ok(Some(Vec::from_slice(alloc, body)?))
            }
            _ => Ok(None),
        }
    }

    // The number behind this word, where the word stands here.
    fn number_after(&mut self, word: &[u8]) -> Option<u64> {
        let Some(rest) = self.rest.strip_prefix(word) else {
            return None;
        };
        let (digits, number) = leading_digits(rest);
        self.rest = rest;
        self.take(digits);
        Some(number)
    }

    // The piece as often as it is meant: once, where no `x N` and no `to N` behind it says otherwise.
    fn push(&mut self, alloc: Global, text: &mut Vec<u8>, piece: &[u8]) -> Result<(), Problem> {
        self.skip_blanks();
        if let Some(last) = self.number_after(b"to ") {
            return push_numbered(alloc, text, piece, last);
        }
        push_times(text, piece, self.number_after(b"x ").unwrap_or(1))
    }

    fn text(&mut self, alloc: Global) -> Result<Vec<u8>, Problem> {
        let mut text = Vec::new(alloc);
        for _ in 0..self.rest.len() {
            let Some(piece) = self.piece(alloc)? else {
                break;
            };
            self.push(alloc, &mut text, &piece)?;
            self.skip_blanks();
        }
        Ok(text)
    }

    fn arg(&mut self, alloc: Global) -> Result<Arg<'a>, Problem> {
        let word = self.word();
        let text = self.text(alloc)?;
        Ok(Arg { word, text })
    }

    fn args(&mut self, alloc: Global) -> Result<Vec<Arg<'a>>, Problem> {
        let mut args = Vec::new(alloc);
        for _ in 0..self.rest.len() {
            args.push(self.arg(alloc)?)?;
            match self.rest {
                [b'|', ..] => {
                    self.take(1);
                }
                _ => break,
            }
        }
        Ok(args)
    }

    fn answer(&mut self, alloc: Global) -> Result<Option<Arg<'a>>, Problem> {
        match self.rest {
            [b'=', b'>', ..] => {
                self.take(2);
                Ok(Some(self.arg(alloc)?))
            }
            _ => Ok(None),
        }
    }

    // The row is to end at its line's end.
    fn end(&mut self) -> Result<(), Problem> {
        match self.rest {
            [] | [b'\n', ..] => {
                self.take(1);
                Ok(())
            }
            _ => Err(Problem::NoRow),
        }
    }

    /// The next row, or none where the table has ended.
    pub fn row(&mut self, alloc: Global) -> Result<Option<Row<'a>>, Problem> {
        self.skip_comments();
        if self.rest.is_empty() {
            return Ok(None);
        }
        let (left, is_step) = (self.rest.len(), self.rest.first() == Some(&b' '));
        let args = self.args(alloc)?;
        let answer = self.answer(alloc)?;
        self.end()?;
        Ok(Some(Row {
            left,
            is_step,
            args,
            answer,
        }))
    }

    /// The indented rows that stand next.
    pub fn steps(&mut self, alloc: Global) -> Result<Vec<Row<'a>>, Problem> {
        let mut steps = Vec::new(alloc);
        for _ in 0..self.rest.len() {
            self.skip_comments();
            if self.rest.first() != Some(&b' ') {
                break;
            }
            if let Some(step) = self.row(alloc)? {
                steps.push(step)?;
            }
        }
        Ok(steps)
    }

    pub fn left(&self) -> usize {
        self.rest.len()
    }
}
