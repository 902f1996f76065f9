// What separates fields, and texts cut into fields.
ghost use Rattle.std.specs.Prelude.{◌≡◌, ◌<◌, ◌≤◌, ◌⊎◌, List, ℕ, false, length, IfOk, OnOk, IfErr, OnErr, MatchOption};
ghost use Rattle.awk_fields.specs.Fields.{Fields};
ghost use Rattle.awk_fields.specs.Separators.{IsByEre, IsEre, IsNoEre, separator, ere};
ghost use Rattle.awk_fields.specs.Spans.{AreSpans};

use crate::spans::{Span, byte_spans, ere_spans, single_spans, texts};
use crate::words::blank_spans;
use awk_ere::Ere;
use awk_text::Memory;
use awk_text::fault::Fault;
use awk_text::octets::Octets;
use std::alloc::Global;
use std::marker::Model;
use std::rc::Rc;

#[derive(Drop)]
enum By {
    Blanks,
    Nothing,
    Byte(u8, bool),
    Ere(Rc<Ere>, bool),
}

/// What separates the fields of a text, ready for use.
#[derive(Drop)]
pub struct Splitter {
    by: By,
}

impl Model for Splitter {
    ghost use Rattle.awk_fields.specs.Separators.{Separator};

    ghost Value = { Separator };

    ghost use Rattle.awk_fields.specs.Views.{separator_by};

    ghost view = { λ s. separator_by s.by };
}

/// The ERE that the text spells, to be shared.
fn shared_ere(alloc: Global, pattern: &[u8]) -> Result<Rc<Ere>, Fault>
    ensures ok { IfOk result (λ e. (e.value ≡ pattern.now) × IsEre pattern.now) }
    ensures err { IfErr result (λ e. (e ≡ Fault.Memory) ⊎ ((e ≡ Fault.Pattern) × IsNoEre pattern.now)) }
{
    match Ere::parse(alloc, pattern) {
        Ok(ere) => Ok(Rc::new(alloc, ere)?),
        Err(refusal) if refusal.code == 4 => Err(Fault::Memory),
        Err(_) => Err(Fault::Pattern),
    }
}

impl Splitter {
    /// What a value of FS separates by, as `new` says, where it has at most one byte. Takes no memory.
    #[inline(always)]
    pub fn short(fs: &[u8], rs_empty: bool) -> Option<Splitter>
        ensures { MatchOption result (1 < length fs.now) (λ s. (s ≡ separator fs.now rs_empty) × (length fs.now ≤ 1)) }
    {
        let by = match fs {
            [] => By::Nothing,
            [b' '] => By::Blanks,
            [byte] => By::Byte(*byte, rs_empty),
            [_, _, ..] => return None,
        };
        Some(Splitter { by })
    }

    /// What a value of FS separates by: a space by runs of spaces, tabs and newlines, ignored at
    /// the ends; any other byte by each of it; the empty text by nothing, so that each byte is a
    /// field; a longer text by the matches of this ERE. Where RS is empty a newline separates too,
    /// unless FS is empty.
    ///
    /// Fails with `Fault::Pattern` exactly where the text is longer than one byte and no ERE within
    /// the limits, and with `Fault::Memory` where memory is refused.
    pub fn new(alloc: Global, fs: &[u8], rs_empty: bool) -> Result<Splitter, Fault>
        ensures ok { IfOk result (λ s. s ≡ separator fs.now rs_empty) }
        ensures pattern { OnOk result (1 < length fs.now → IsEre fs.now) }
        ensures err { IfErr result (λ e. (e ≡ Fault.Memory)
            ⊎ ((e ≡ Fault.Pattern) × (1 < length fs.now) × IsNoEre fs.now)) }
    {
        if let Some(splitter) = Splitter::short(fs, rs_empty) {
            return Ok(splitter);
        }
        let shared = shared_ere(alloc, fs)?;
        Ok(Splitter {
            by: By::Ere(shared, rs_empty),
        })
    }

    /// The matches of the ERE that the text spells, whatever its length, as what separates. RS
    /// plays no part.
    ///
    /// Fails with `Fault::Pattern` exactly where the text is no ERE within the limits, and with
    /// `Fault::Memory` where memory is refused.
    pub fn ere(alloc: Global, pattern: &[u8]) -> Result<Splitter, Fault>
        ensures ok { IfOk result (λ s. s ≡ ere pattern.now false) }
        ensures pattern { OnOk result (IsEre pattern.now) }
        ensures err { IfErr result (λ e. (e ≡ Fault.Memory)
            ⊎ ((e ≡ Fault.Pattern) × IsNoEre pattern.now)) }
    {
        let shared = shared_ere(alloc, pattern)?;
        Ok(Splitter {
            by: By::Ere(shared, false),
        })
    }

    /// The matches of an ERE that is compiled already, as what separates. RS plays no part. Takes no
    /// memory.
    pub fn by_compiled(compiled: Rc<Ere>) -> Splitter
        ensures { result ≡ ere compiled.value false }
    {
        Splitter {
            by: By::Ere(compiled, false),
        }
    }

    /// A splitter that splits as this one does. The compiled ERE is shared, so nothing is parsed
    /// and no memory is taken.
    ///
    /// Fails with `Memory` only where an ERE separates, and 2^64 - 1 splitters share it already.
    pub fn share(&self) -> Result<Splitter, Memory>
        ensures ok { IfOk result (λ s. s ≡ self.now) }
        ensures err { OnErr result (IsByEre self.now) }
    {
        let by = match &self.by {
            By::Blanks => By::Blanks,
            By::Nothing => By::Nothing,
            By::Byte(byte, newline) => By::Byte(*byte, *newline),
            By::Ere(ere, newline) => By::Ere(ere.clone()?, *newline),
        };
        Ok(Splitter { by })
    }

    /// The fields of the text, put into this vector in place of what it holds.
    pub(crate) fn spans(&self, text: &[u8], mut spans: Vec<Span>) -> Result<Vec<Span>, Memory>
        ensures { IfOk result
            (λ spans. (fields : List (List ℕ)) × Fields self.now text.now fields
            × AreSpans text.now spans.items fields) }
    {
        spans.clear();
        if text.is_empty() {
            return Ok(spans);
        }
        match &self.by {
            By::Blanks => blank_spans(text, spans),
            By::Nothing => single_spans(text, spans),
            By::Byte(byte, newline) => byte_spans(text, *byte, *newline, spans),
            By::Ere(ere, newline) => ere_spans(text, ere, *newline, spans),
        }
    }
}

/// The fields of the text, in order. POSIX.1-2017, XCU awk, "Variables and Special Variables", FS,
/// and "String Functions", split.
///
/// Fails with `Fault::Memory` alone, where memory is refused.
pub fn split(alloc: Global, text: &[u8], splitter: &Splitter) -> Result<Vec<Octets>, Fault>
    ensures ok { IfOk result (λ fields. Fields splitter.now text.now fields.items) }
    ensures err { IfErr result (λ e. e ≡ Fault.Memory) }
{
    let spans = splitter.spans(text, Vec::new(alloc))?;
    Ok(texts(alloc, text, spans.as_slice())?)
}
