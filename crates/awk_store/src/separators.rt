// What separates the fields of a record, kept from one record to the next.
ghost use Rattle.std.specs.Prelude.{◌≡◌, ◌<◌, ◌⊎◌, length, IfOk, OnOk, IfErr, IfSome};
ghost use Rattle.awk_fields.specs.Separators.{IsEre, IsNoEre, separator};

use awk_fields::Splitter;
use awk_text::fault::Fault;
use awk_text::octets::Octets;
use std::alloc::Global;
use std::marker::Model;

/// What one long text separates by.
#[derive(Drop)]
struct Known {
    source: Octets,
    newline: bool,
    splitter: Splitter,
}

impl Model for Known {
    ghost use Rattle.std.specs.Prelude.{◌≡◌, List, ℕ, Bool};
    ghost use Rattle.awk_fields.specs.Separators.{IsEre, separator};

    ghost Value = { List ℕ × Bool };

    ghost view = { λ k. (k.source, k.newline) };

    ghost invariant = { λ k. (k.splitter ≡ separator k.source k.newline) × IsEre k.source };
}

/// The separator that was compiled last. It never shows: the answers are those of `Splitter::new`.
#[derive(Drop)]
pub(crate) struct Separators {
    last: Option<Known>,
}

impl Known {
    /// What it separates by, where it was made of these.
    fn splitter_of(&self, source: &[u8], newline: bool) -> Option<&Splitter>
        ensures { IfSome result (λ s. (s.now ≡ separator source.now newline) × IsEre source.now) }
    {
        if self.newline == newline && self.source.bytes() == source {
            return Some(&self.splitter);
        }
        None
    }
}

impl Separators {
    pub(crate) fn new() -> Separators {
        Separators { last: None }
    }

    /// What a value of FS separates by, as `Splitter::new` says.
    ///
    /// Fails as that does.
    pub(crate) fn splitter(
        &mut self,
        alloc: Global,
        fs: &[u8],
        rs_empty: bool,
    ) -> Result<Splitter, Fault>
        ensures ok { IfOk result (λ s. s ≡ separator fs.now rs_empty) }
        ensures pattern { OnOk result (1 < length fs.now → IsEre fs.now) }
        ensures err { IfErr result (λ e. (e ≡ Fault.Memory)
            ⊎ ((e ≡ Fault.Pattern) × (1 < length fs.now) × IsNoEre fs.now)) }
    {
        if fs.len() <= 1 {
            return Splitter::new(alloc, fs, rs_empty);
        }
        if let Some(known) = &self.last {
            if let Some(splitter) = known.splitter_of(fs, rs_empty) {
                return Ok(splitter.share()?);
            }
        }
        let splitter = Splitter::new(alloc, fs, rs_empty)?;
        let known = Known {
            source: Octets::of(alloc, fs)?,
            newline: rs_empty,
            splitter: splitter.share()?,
        };
        self.last = Some(known);
        Ok(splitter)
    }
}
