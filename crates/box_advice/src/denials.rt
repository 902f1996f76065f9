// A log of denials or an audit, read again.
ghost use Rattle.std.specs.Prelude.{◌≡◌, ◌<◌, [], ◌∷◌, ℕ, List, length, IfErr, IfOk, OnOk};
ghost use Rattle.box_monitor.specs.Judged.{given_number};
ghost use Rattle.box_policy.specs.Decisions.{kind_number};
ghost use Rattle.box_advice.specs.Gathered.{AreMet};
ghost use Rattle.box_advice.specs.Logs.{AreLines, IsLogRefused, IsRead, request_of, with_wish};

use crate::cuts::cut;
use crate::log_lines::wish_of;
use crate::wishes::Wish;
use awk_text::Memory;
use box_policy::policy::Kind;
use std::alloc::{AllocError, AllocFailed, Global};
use std::collections::BTreeSet;
use std::error::Error;
use std::fmt;

/// Why a log is not read: the line of this number, the first one being 1, is none that a run writes, or memory was
/// refused.
#[derive(Clone, Copy, Debug, Drop)]
pub enum LogError {
    Line(usize),
    Memory,
}

impl fmt::Display for LogError {
    fn fmt<W: fmt::Write>(&self, f: &mut fmt::Formatter<W>) -> fmt::Result {
        match self {
            LogError::Line(number) => write!(
                f,
                "line {number} of the log is none that a run writes"
            ),
            LogError::Memory => f.write_str("memory was refused"),
        }
    }
}

impl Error for LogError {}

impl From<AllocError> for LogError {
    ghost use Rattle.std.specs.Prelude.{◌≡◌};
    ghost use Rattle.box_advice.specs.declared.denials.LogError.TheVariants.{Memory};

    ghost from_gives = { λ _ error. error ≡ Memory };

    fn from(_error: AllocError) -> LogError {
        LogError::Memory
    }
}

impl<T: Drop> From<AllocFailed<T>> for LogError {
    fn from(_error: AllocFailed<T>) -> LogError {
        LogError::Memory
    }
}

// One number for each.
fn kind_number(kind: Kind) -> u8
    ensures { result ≡ kind_number kind }
{
    match kind {
        Kind::Read => 0,
        Kind::Write => 1,
        Kind::Append => 2,
        Kind::Run => 3,
        Kind::Env => 4,
        Kind::Assign => 5,
    }
}

fn given_number(given: bool) -> u8
    ensures { result ≡ given_number given }
{
    if given { 1 } else { 0 }
}

/// What tells wishes apart: kind, text, and whether it may be an operand.
pub(crate) fn request_of(alloc: Global, wish: &Wish) -> Result<Vec<u8>, Memory>
    ensures { IfOk result (λ request. request.items ≡ request_of wish.now) }
{
    let mut request = Vec::new(alloc);
    request.push(kind_number(wish.kind))?;
    request.push(given_number(wish.may_be_given))?;
    if let Some(text) = &wish.text {
        request.extend_from_slice(text.bytes())?;
    }
    Ok(request)
}

/// The wishes of the lines so far, and what tells them apart.
#[derive(Drop)]
struct Gathered {
    wishes: Vec<Wish>,
    met: BTreeSet<Vec<u8>>,
}

impl Gathered {
    fn new(alloc: Global) -> Gathered
        ensures none { result.wishes.items ≡ [] }
        ensures met { AreMet result }
    {
        Gathered {
            wishes: Vec::new(alloc),
            met: BTreeSet::new(alloc),
        }
    }

    fn into_wishes(self) -> Vec<Wish>
        ensures { result.items ≡ self.wishes.items }
    {
        let Gathered { wishes, .. } = self;
        wishes
    }

    // The wish is one of them, unless one of them asks for the same.
    fn take(&mut self, alloc: Global, wish: Wish) -> Result<(), Memory>
        requires { AreMet self.old }
        ensures wishes { OnOk result (self.new.wishes.items ≡ with_wish self.old.wishes.items wish) }
        ensures met { OnOk result (AreMet self.new) }
    {
        if self.met.insert(request_of(alloc, &wish)?)? {
            self.wishes.push(wish)?;
        }
        Ok(())
    }
}

/// The first line of a text, and what stands behind its end.
#[derive(Clone, Copy, Drop)]
struct Lead<'a> {
    line: &'a [u8],
    rest: &'a [u8],
}

fn first_line(text: &[u8]) -> Lead<'_>
    requires { 0 < length text.now }
    ensures shorter { length result.rest.now < length text.now }
    ensures lines { (lines : List (List ℕ)) → AreLines result.rest.now lines →
        AreLines text.now (result.line.now ∷ lines) }
{
    match cut(text, b'\n') {
        Some(halves) => Lead {
            line: halves.front,
            rest: halves.back,
        },
        None => Lead {
            line: text,
            rest: &[],
        },
    }
}

/// The requests that a log of denials tells of, an audit, or the one behind the other: once each, in the order in which
/// they stand there first, the denied ones and those that were passed on, done or failed.
pub fn read_log(alloc: Global, log: &[u8]) -> Result<Vec<Wish>, LogError>
    ensures read { IfOk result (λ wishes. IsRead log.now wishes.items) }
    ensures refused { IfErr result (IsLogRefused log.now) }
{
    let mut gathered = Gathered::new(alloc);
    let mut rest = log;
    // each line has a byte, its end or another one
    for at in 0..log.len() {
        if rest.is_empty() {
            return Ok(gathered.into_wishes());
        }
        let number = at + 1;
        let lead = first_line(rest);
        let found = wish_of(alloc, lead.line, number)?;
        let Some(wish) = found else {
            return Err(LogError::Line(number));
        };
        gathered.take(alloc, wish)?;
        rest = lead.rest;
    }
    Ok(gathered.into_wishes())
}
