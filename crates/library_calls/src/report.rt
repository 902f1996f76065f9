// Which rows hold.

use crate::cursor::Cursor;
use crate::problem::Problem;
use crate::row::{Arg, Row};
use crate::shown::{Shown, told};
use awk_text::octets::Octets;
use awk_text::quote::quote_log;
use std::alloc::Global;
use std::rt::Files;
use std::{fs, slice, str};

/// What the rows of a table are about.
pub trait Subject {
    /// The name of the table's file.
    fn file(&self) -> &'static str;

    /// The answer of a call of one line.
    fn call(&self, alloc: Global, args: &[Arg<'_>]) -> Shown;

    /// The answers of the steps that follow a line.
    fn block(
        &self,
        alloc: Global,
        args: &[Arg<'_>],
        steps: &[Row<'_>],
    ) -> Result<Vec<Octets>, Problem>;

    /// Reads the prefixes of the text that the row is about, where it has one to be broken off.
    fn read_prefixes(&self, alloc: Global, row: &Row<'_>) -> Result<(), Problem>;
}

/// How many rows hold, and how many do not.
#[derive(Clone, Copy, Drop)]
pub struct Tally {
    held: u64,
    failed: u64,
}

/// A table's file and its text.
#[derive(Clone, Copy, Drop)]
struct TableText<'a> {
    file: &'static str,
    text: &'a [u8],
}

/// The most bytes of an answer that are told.
const MOST_TOLD: usize = 500;

impl TableText<'_> {
    /// The line from whose first byte on so many bytes are left.
    fn line(&self, left: usize) -> usize {
        let before = self.text.len().saturating_sub(left);
        let mut line = 1usize;
        for byte in self.text.iter().take(before) {
            if *byte == b'\n' {
                line = line.saturating_add(1);
            }
        }
        line
    }
}

/// Whether the row has this answer. A row without an answer wants `done`, and does not count.
fn holds(row: &Row<'_>, came: &[u8]) -> bool {
    match &row.answer {
        Some(answer) => answer.says(came),
        None => came == b"done".as_slice(),
    }
}

/// The answers of a row and its steps.
fn answers<S: Subject>(
    alloc: Global,
    subject: &S,
    row: &Row<'_>,
    steps: &[Row<'_>],
) -> Result<Vec<Octets>, Problem> {
    if !steps.is_empty() {
        return subject.block(alloc, &row.args, steps);
    }
    let mut answers = Vec::new(alloc);
    answers.push(told(alloc, subject.call(alloc, &row.args))?)?;
    Ok(answers)
}

impl Tally {
    pub fn new() -> Tally {
        Tally { held: 0, failed: 0 }
    }

    fn fail<P: Print + AllocGlobal>(
        &mut self,
        rt: &P,
        source: TableText<'_>,
        left: usize,
        came: &[u8],
    ) {
        self.failed = self.failed.saturating_add(1);
        let (file, line) = (source.file, source.line(left));
        let came = came.get(..MOST_TOLD).unwrap_or(came);
        if let Ok(quoted) = quote_log(rt.alloc(), came) {
            let came = str::from_utf8(&quoted).unwrap_or("");
            let _ = println!(rt; "{file}:{line}: came {came}");
        }
    }

    fn judge<P: Print + AllocGlobal>(
        &mut self,
        rt: &P,
        source: TableText<'_>,
        row: &Row<'_>,
        came: &[u8],
    ) {
        if !holds(row, came) {
            self.fail(rt, source, row.left, came);
        } else if row.answer.is_some() {
            self.held = self.held.saturating_add(1);
        }
    }

    fn judge_all<P: Print + AllocGlobal>(
        &mut self,
        rt: &P,
        source: TableText<'_>,
        rows: &[Row<'_>],
        answers: &[Octets],
    ) {
        for (row, answer) in rows.iter().zip(answers) {
            self.judge(rt, source, row, answer.bytes());
        }
    }

    /// Tells each row about a text of which a prefix is not read as it ought to be.
    fn check_prefixes<P: Print + AllocGlobal, S: Subject>(
        &mut self,
        rt: &P,
        subject: &S,
        source: TableText<'_>,
        rows: &[Row<'_>],
    ) {
        for row in rows {
            if let Err(problem) = subject.read_prefixes(rt.alloc(), row) {
                self.fail_by(rt, source, row.left, problem);
            }
        }
    }

    /// Judges the next row, with the steps that follow it, or says that the table has ended.
    fn check_next<P: Print + AllocGlobal, S: Subject>(
        &mut self,
        rt: &P,
        subject: &S,
        source: TableText<'_>,
        cursor: &mut Cursor<'_>,
    ) -> Result<bool, Problem> {
        let alloc = rt.alloc();
        let Some(row) = cursor.row(alloc)? else {
            return Ok(false);
        };
        let steps = cursor.steps(alloc)?;
        match answers(alloc, subject, &row, &steps) {
            Ok(answers) if steps.is_empty() => {
                self.judge_all(rt, source, slice::from_ref(&row), &answers);
            }
            Ok(answers) => self.judge_all(rt, source, &steps, &answers),
            Err(problem) => self.fail_by(rt, source, row.left, problem),
        }
        self.check_prefixes(rt, subject, source, slice::from_ref(&row));
        self.check_prefixes(rt, subject, source, &steps);
        Ok(true)
    }

    fn fail_by<P: Print + AllocGlobal>(
        &mut self,
        rt: &P,
        source: TableText<'_>,
        left: usize,
        problem: Problem,
    ) {
        match problem.to_string(rt.alloc()) {
            Ok(text) => self.fail(rt, source, left, text.as_bytes()),
            Err(_) => self.fail(rt, source, left, b"out of memory"),
        }
    }

    fn check_text<P: Print + AllocGlobal, S: Subject>(
        &mut self,
        rt: &P,
        subject: &S,
        source: TableText<'_>,
    ) {
        let mut cursor = Cursor::new(source.text);
        for _ in 0..source.text.len() {
            match self.check_next(rt, subject, source, &mut cursor) {
                Ok(true) => {}
                Ok(false) => return,
                Err(problem) => return self.fail_by(rt, source, cursor.left(), problem),
            }
        }
    }

    /// Judges the rows of the table, which lies in the folder of the process.
    pub fn check_file<R: Files + Print + AllocGlobal, S: Subject>(&mut self, rt: &R, subject: &S) {
        let file = subject.file();
        match fs::read(rt, file) {
            Ok(text) => self.check_text(rt, subject, TableText { file, text: &text }),
            Err(_) => {
                self.failed = self.failed.saturating_add(1);
                let _ = println!(rt; "{file}: cannot read");
            }
        }
    }

    /// Tells how many rows hold, and gives the exit status.
    pub fn end<P: Print>(self, rt: &P) -> u8 {
        let (held, failed) = (self.held, self.failed);
        if failed == 0 {
            let _ = println!(rt; "{held} rows hold");
            return 0;
        }
        let _ = println!(rt; "{held} rows hold and {failed} do not");
        1
    }
}
