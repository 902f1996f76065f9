// The record.
ghost use Rattle.std.specs.Prelude.{◌≡◌, ◌⊎◌, ◌<◌, ◌≤◌, ℕ, List, Ok, Err, pos, length, IfOk, IfErr, IfSome, OnOk};
ghost use Rattle.std.specs.Prelude.{OnErr};
ghost use Rattle.awk_text.specs.Lents.{lent_value};
ghost use Rattle.awk_text.specs.Limits.{most_bytes};
ghost use Rattle.awk_text.specs.Values.{text_of};
ghost use Rattle.awk_machine.specs.Targets.{is_empty};
ghost use Rattle.awk_program.specs.Slots.{slot_of};
ghost use Rattle.awk_fields.specs.Rows.{place_of, Field, HasFields, IsKept, IsValueAt, SetsCount, SetsField, plain};
ghost use Rattle.awk_fields.specs.Rows.{SetsNoCount, SetsNoField};
ghost use Rattle.awk_fields.specs.Separators.{IsEre, IsNoEre, separator};
ghost use Rattle.awk_program.specs.declared.variables.Own.TheVariants as own;
ghost use Rattle.awk_store.specs.Kept.{own_text, value_at};
ghost use Rattle.awk_store.specs.Changes.{row_of, with_row};

use crate::cell::Cell;
use crate::separators::Separators;
use crate::store::Store;
use crate::variables::{own_bytes, own_text};
use awk_fields::Splitter;
use awk_program::Own;
use awk_text::Memory;
use awk_text::buffer::Buffer;
use awk_text::fault::Fault;
use awk_text::lent::Lent;
use awk_text::octets::Octets;
use awk_text::value::Value;
use std::alloc::Global;

/// Whether the text of one of awk's own variables is empty.
fn is_empty(cells: &[Cell], name: Own) -> bool
    ensures { result ≡ is_empty (text_of (value_at cells.now (slot_of name))) }
{
    let mut buffer = Buffer::new();
    own_text(cells, name, &mut buffer).is_empty()
}

/// What separates the fields of a record, by FS and RS as they are.
#[inline(never)]
fn splitter(alloc: Global, cells: &[Cell], separators: &mut Separators) -> Result<Splitter, Fault>
    ensures ok { IfOk result
        (λ s. s ≡ separator (text_of (value_at cells.now (slot_of own.Fs)))
        (is_empty (text_of (value_at cells.now (slot_of own.Rs))))) }
    ensures pattern { OnOk result
        (1 < length (text_of (value_at cells.now (slot_of own.Fs))) →
        IsEre (text_of (value_at cells.now (slot_of own.Fs)))) }
    ensures err { IfErr result (λ e. (e ≡ Fault.Memory)
        ⊎ ((e ≡ Fault.Pattern) × (1 < length (text_of (value_at cells.now (slot_of own.Fs))))
        × IsNoEre (text_of (value_at cells.now (slot_of own.Fs))))) }
{
    let rs_empty = is_empty(cells, Own::Rs);
    let mut buffer = Buffer::new();
    let fs = own_text(cells, Own::Fs, &mut buffer);
    separators.splitter(alloc, fs, rs_empty)
}

/// What separates the fields of a record, by FS and RS as they are, where both hold texts and that of FS has at most
/// one byte. Takes no memory.
#[inline(always)]
fn short_splitter(cells: &[Cell]) -> Option<Splitter>
    ensures splitter { IfSome result
        (λ s. s ≡ separator (text_of (value_at cells.now (slot_of own.Fs)))
        (is_empty (text_of (value_at cells.now (slot_of own.Rs))))) }
    ensures short { IfSome result (λ s. length (text_of (value_at cells.now (slot_of own.Fs))) ≤ 1) }
{
    let rs = own_bytes(cells, Own::Rs)?;
    let fs = own_bytes(cells, Own::Fs)?;
    Splitter::short(fs, rs.is_empty())
}

impl Store {
    /// Rebuilds the whole text of the record where a field or NF was set since it was last there. What a run holds
    /// stays the same, and `known_whole` and `lent_field` have the text from then on until the next set.
    ///
    /// Fails where memory is refused.
    pub fn rebuild(&mut self) -> Result<(), Memory>
        ensures { self.new ≡ self.old }
    {
        self.row.rebuild()
    }

    /// The whole text of the record, unless it is to be rebuilt. Takes no memory.
    pub fn known_whole(&self) -> Option<&[u8]>
        ensures { IfSome result (λ whole. whole.now ≡ self.now.row.whole) }
    {
        self.row.known_whole()
    }

    /// Sets `$0`. Its fields go by FS and RS as they are now.
    ///
    /// Fails with `Fault::Pattern` exactly where FS is longer than one byte and no ERE within the limits, then with
    /// `Fault::TextTooLong` exactly where the text has too many bytes, and with `Fault::Memory` where memory is
    /// refused; then nothing has changed.
    #[inline(always)]
    pub fn set_whole(&mut self, text: Octets) -> Result<(), Fault>
        ensures ok { OnOk result (self.new ≡ with_row (row_of self.old text) self.old) }
        ensures fits { OnOk result (length text ≤ most_bytes) }
        ensures pattern { OnOk result (1 < length (own_text self.old own.Fs) → IsEre (own_text self.old own.Fs)) }
        ensures err { OnErr result (self.new ≡ self.old) }
        ensures fault { IfErr result (λ e. (e ≡ Fault.Memory)
            ⊎ ((e ≡ Fault.Pattern) × (1 < length (own_text self.old own.Fs)) × IsNoEre (own_text self.old own.Fs))
            ⊎ ((e ≡ Fault.TextTooLong) × (1 < length (own_text self.old own.Fs) → IsEre (own_text self.old own.Fs))
            × (most_bytes < length text))) }
    {
        let splitter = match short_splitter(self.cells.as_slice()) {
            Some(splitter) => splitter,
            None => splitter(self.alloc, self.cells.as_slice(), &mut self.separators)?,
        };
        self.row.set_whole(text, splitter)
    }

    /// What the text of the record before lay in, for the next one to be written there. What a run holds stays the
    /// same.
    #[inline(always)]
    pub fn take_room(&mut self) -> Vec<u8>
        ensures { self.new ≡ self.old }
    {
        self.row.take_room()
    }

    /// The value of a field by its number: 0 is the whole text, and a field above the last one is unset. The record
    /// stays the same.
    ///
    /// Fails with `Fault::FieldNumber` exactly where the number is not 0 to 65,535, and with `Fault::Memory` where
    /// memory is refused.
    pub fn field(&mut self, n: i64) -> Result<Value, Fault>
        ensures ok { IfOk result (λ v. (k : ℕ) × (place_of n ≡ Ok k) × IsValueAt self.new.row k v) }
        ensures kept { IsKept self.old.row self.new.row }
        ensures others { self.new ≡ with_row self.new.row self.old }
        ensures fault { IfErr result (λ e. (e ≡ Fault.Memory)
            ⊎ ((e ≡ Fault.FieldNumber) × (place_of n ≡ Err Fault.FieldNumber))) }
    {
        self.row.get(n)
    }

    /// Sets a field by its number, which is not 0. The whole text is rebuilt with OFS between the fields.
    ///
    /// Fails with `Fault::FieldNumber` exactly where the number is not 1 to 65,535, with `Fault::TextTooLong` exactly
    /// where the whole text would have too many bytes, and with `Fault::Memory` where memory is refused; then the
    /// record is as it was.
    pub fn set_field(&mut self, n: i64, value: Value) -> Result<(), Fault>
        ensures ok { OnOk result (SetsField self.old.row n (plain value) (own_text self.old own.Ofs) self.new.row) }
        ensures err { OnErr result (IsKept self.old.row self.new.row) }
        ensures others { self.new ≡ with_row self.new.row self.old }
        ensures fault { IfErr result (λ e. SetsNoField self.old.row n (plain value) (own_text self.old own.Ofs) e) }
    {
        let mut buffer = Buffer::new();
        let ofs = own_text(self.cells.as_slice(), Own::Ofs, &mut buffer);
        self.row.set_field(n, value, ofs)
    }

    /// Sets a field to a number, for which this text stands in the whole text. All else, and how it fails, is as in
    /// [`set_field`](Store::set_field).
    pub fn set_shown(&mut self, n: i64, number: f64, shown: Octets) -> Result<(), Fault>
        ensures ok { OnOk result (SetsField self.old.row n
            (record { value = Value.Real number; shown = Value.Text shown }) (own_text self.old own.Ofs)
            self.new.row) }
        ensures err { OnErr result (IsKept self.old.row self.new.row) }
        ensures others { self.new ≡ with_row self.new.row self.old }
        ensures fault { IfErr result (λ e. SetsNoField self.old.row n
            (record { value = Value.Real number; shown = Value.Text shown }) (own_text self.old own.Ofs) e) }
    {
        let mut buffer = Buffer::new();
        let ofs = own_text(self.cells.as_slice(), Own::Ofs, &mut buffer);
        self.row.set_shown(n, number, shown, ofs)
    }

    /// NF, the number of fields. The record stays the same.
    ///
    /// Fails with `Fault::Memory` alone, where memory is refused.
    pub fn field_count(&mut self) -> Result<i64, Fault>
        ensures ok { IfOk result
            (λ n. (fields : List Field) × HasFields self.new.row fields × (n ≡ pos (length fields))) }
        ensures kept { IsKept self.old.row self.new.row }
        ensures others { self.new ≡ with_row self.new.row self.old }
        ensures fault { IfErr result (λ e. e ≡ Fault.Memory) }
    {
        self.row.count()
    }

    /// Sets NF, the number of fields. The whole text is rebuilt with OFS between them.
    ///
    /// Fails with `Fault::FieldNumber` exactly where the number is not 0 to 65,535, with `Fault::TextTooLong` exactly
    /// where the whole text would have too many bytes, and with `Fault::Memory` where memory is refused; then the
    /// record is as it was.
    pub fn set_field_count(&mut self, n: i64) -> Result<(), Fault>
        ensures ok { OnOk result (SetsCount self.old.row n (own_text self.old own.Ofs) self.new.row) }
        ensures err { OnErr result (IsKept self.old.row self.new.row) }
        ensures others { self.new ≡ with_row self.new.row self.old }
        ensures fault { IfErr result (λ e. SetsNoCount self.old.row n (own_text self.old own.Ofs) e) }
    {
        let mut buffer = Buffer::new();
        let ofs = own_text(self.cells.as_slice(), Own::Ofs, &mut buffer);
        self.row.set_count(n, ofs)
    }

    /// The value of a field by its number, lent, where it is there without a change: 0 is the whole text, which is
    /// there unless it is to be rebuilt, and the others are there once the record is split. Takes no memory.
    pub fn lent_field(&self, n: u16) -> Option<Lent<'_>>
        ensures { IfSome result (λ v. IsValueAt self.now.row n (lent_value v)) }
    {
        self.row.lent(n)
    }

    /// NF, where the record is split. Takes no memory.
    pub fn known_field_count(&self) -> Option<i64>
        ensures { IfSome result
            (λ n. (fields : List Field) × HasFields self.now.row fields × (n ≡ pos (length fields))) }
    {
        self.row.known_count()
    }
}
