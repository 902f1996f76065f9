// A record: its whole text, and its fields by number.
ghost use Rattle.std.specs.Prelude.{◌≡◌, ◌<◌, ◌≤◌, ◌⊎◌, ℕ, List, [], Ok, Err, pos, length, IfOk, OnOk, OnErr, IfErr};
ghost use Rattle.std.specs.Prelude.{IfSome};
ghost use Rattle.awk_text.specs.Limits.{most_bytes};
ghost use Rattle.awk_text.specs.Lents.{lent_value};
ghost use Rattle.awk_fields.specs.Rows.{Field, known, plain, unsplit, place_of, field_place, HasFields, IsKept};
ghost use Rattle.awk_fields.specs.Rows.{IsValueAt, SetsCount, SetsField, SetsNoField, SetsNoCount};

use crate::edits::{Edited, put, set_len};
use crate::part::Part;
use crate::parts::{
    Parts, State, edit_parts, field_at, field_count, is_text, known_count, known_whole, lent_at,
    rebuild_parts, split_parts,
};
use crate::splitter::Splitter;
use awk_text::Memory;
use awk_text::fault::Fault;
use awk_text::lent::Lent;
use awk_text::octets::Octets;
use awk_text::texts::MOST_BYTES;
use awk_text::value::Value;
use std::alloc::Global;
use std::marker::Model;
use std::mem;

/// The greatest number of a field that can be named or set, and the greatest count that can be set.
pub const MOST_FIELDS: i64 = 65535;

/// The fewest bytes of a record, or of an element, that are shared: what a shorter record lies in is kept for the next
/// one.
pub const LEAST_SHARED: usize = 4096;

/// A record: `$0`, and the fields `$1` to `$NF`. A text is split when its fields are first asked
/// for, and the whole text is rebuilt when it is first asked for after a field or NF was set.
#[derive(Drop)]
pub struct Record {
    /// What was set as a whole. It stays when fields are set: the others are parts of it.
    text: Octets,
    parts: Parts,
    /// What the text before lay in, for the next one.
    room: Vec<u8>,
}

impl Model for Record {
    ghost use Rattle.awk_fields.specs.Rows.{Row};

    ghost Value = { Row };

    ghost use Rattle.awk_fields.specs.Parts.{IsSound, row_of};

    ghost view = { λ r. row_of r.text r.parts };

    ghost invariant = { λ r. IsSound r.text r.parts };
}

/// The number of a field, 0 being the whole text.
fn place(n: i64) -> Result<usize, Fault>
    ensures { result ≡ place_of n }
{
    if n < 0 || n > MOST_FIELDS {
        return Err(Fault::FieldNumber);
    }
    Ok(n as usize)
}

/// The place of a field that can be set, counted from 0.
fn field_place(n: i64) -> Result<usize, Fault>
    ensures place { result ≡ field_place n }
    ensures small { IfOk result (λ k. k < 65535) }
{
    let place = place(n)?;
    if place == 0 {
        return Err(Fault::FieldNumber);
    }
    Ok(place - 1)
}

impl Record {
    /// The empty record. Takes no memory.
    pub fn new(alloc: Global) -> Record
        ensures { result ≡ record { whole = []; fields = known [] } }
    {
        Record {
            text: Octets::new(Vec::new(alloc)),
            parts: Parts {
                state: State::Spans,
                spans: Vec::new(alloc),
                edited: Edited::new(alloc),
            },
            room: Vec::new(alloc),
        }
    }

    /// Rebuilds the whole text where a field or NF was set since it was last there. The record stays
    /// the same, and `known_whole` and `lent` have the whole text from then on until the next set.
    ///
    /// Fails where memory is refused.
    pub fn rebuild(&mut self) -> Result<(), Memory>
        ensures { self.new ≡ self.old }
    {
        rebuild_parts(&mut self.parts, self.text.bytes())
    }

    /// The whole text, unless it is to be rebuilt. Takes no memory.
    pub fn known_whole(&self) -> Option<&[u8]>
        ensures { IfSome result (λ whole. whole.now ≡ self.now.whole) }
    {
        known_whole(&self.parts, self.text.bytes())
    }

    /// Sets the whole text. Its fields are those that the splitter gives. Takes no memory.
    ///
    /// Fails with `Fault::TextTooLong` exactly where the text has more than `MOST_BYTES` bytes;
    /// then the record is as it was.
    #[inline(always)]
    pub fn set_whole(&mut self, text: Octets, splitter: Splitter) -> Result<(), Fault>
        ensures ok { OnOk result (self.new ≡ record { whole = text; fields = unsplit splitter }) }
        ensures fits { OnOk result (length text ≤ most_bytes) }
        ensures err { OnErr result (self.new ≡ self.old) }
        ensures too_long { IfErr result (λ e. (e ≡ Fault.TextTooLong) × (most_bytes < length text)) }
    {
        if text.bytes().len() > MOST_BYTES {
            return Err(Fault::TextTooLong);
        }
        let alloc = *self.parts.spans.allocator();
        self.room = mem::replace(&mut self.text, text).into_room(alloc);
        self.parts.state = State::Unsplit(splitter);
        if !self.parts.edited.parts.is_empty() {
            self.parts.edited.parts.clear();
        }
        Ok(())
    }

    /// What the text before lay in, for the next one to be written there. The record stays the same.
    /// Takes no memory.
    #[inline(always)]
    pub fn take_room(&mut self) -> Vec<u8>
        ensures { self.new ≡ self.old }
    {
        let alloc = *self.room.allocator();
        mem::replace(&mut self.room, Vec::new(alloc))
    }

    /// Sets a field by its number. Unset fields come in front of it where it is above the last one.
    /// The whole text is rebuilt of the fields with OFS between.
    ///
    /// Fails with `Fault::FieldNumber` exactly where the number is not 1 to 65,535, with
    /// `Fault::TextTooLong` exactly where the whole text would have more than `MOST_BYTES` bytes,
    /// and with `Fault::Memory` where memory is refused; then the record is as it was.
    pub fn set_field(&mut self, n: i64, value: Value, ofs: &[u8]) -> Result<(), Fault>
        ensures ok { OnOk result (SetsField self.old n (plain value) ofs.now self.new) }
        ensures err { OnErr result (IsKept self.old self.new) }
        ensures fault { IfErr result (λ e. SetsNoField self.old n (plain value) ofs.now e) }
    {
        let at = field_place(n)?;
        edit_parts(&mut self.parts, self.text.bytes())?;
        put(
            &mut self.parts.edited,
            self.text.bytes(),
            at,
            Part::Own(value),
            ofs,
        )
    }

    /// Sets a field to a number, for which this text stands in the whole text. All else, and how it fails, is as in
    /// [`set_field`](Record::set_field).
    pub fn set_shown(&mut self, n: i64, number: f64, shown: Octets, ofs: &[u8]) -> Result<(), Fault>
        ensures ok { OnOk result (SetsField self.old n
            (record { value = Value.Real number; shown = Value.Text shown }) ofs.now self.new) }
        ensures err { OnErr result (IsKept self.old self.new) }
        ensures fault { IfErr result (λ e. SetsNoField self.old n
            (record { value = Value.Real number; shown = Value.Text shown }) ofs.now e) }
    {
        let at = field_place(n)?;
        edit_parts(&mut self.parts, self.text.bytes())?;
        put(
            &mut self.parts.edited,
            self.text.bytes(),
            at,
            Part::Shown(number, shown),
            ofs,
        )
    }

    /// Sets NF, the number of fields. Fields above it go, and unset ones are added below it. The
    /// whole text is rebuilt of the fields with OFS between.
    ///
    /// Fails with `Fault::FieldNumber` exactly where the number is not 0 to 65,535, with
    /// `Fault::TextTooLong` exactly where the whole text would have more than `MOST_BYTES` bytes,
    /// and with `Fault::Memory` where memory is refused; then the record is as it was.
    pub fn set_count(&mut self, n: i64, ofs: &[u8]) -> Result<(), Fault>
        ensures ok { OnOk result (SetsCount self.old n ofs.now self.new) }
        ensures err { OnErr result (IsKept self.old self.new) }
        ensures fault { IfErr result (λ e. SetsNoCount self.old n ofs.now e) }
    {
        let count = place(n)?;
        edit_parts(&mut self.parts, self.text.bytes())?;
        set_len(&mut self.parts.edited, self.text.bytes(), count, ofs)
    }

    /// The whole text, as a value. A long one is shared, unless it is made of fields.
    fn whole_value(&mut self) -> Result<Value, Fault>
        ensures ok { IfOk result (λ v. v ≡ Value.Input self.new.whole) }
        ensures same { self.new ≡ self.old }
        ensures fault { IfErr result (λ e. e ≡ Fault.Memory) }
    {
        let alloc = *self.parts.spans.allocator();
        self.rebuild()?;
        if is_text(&self.parts) && LEAST_SHARED <= self.text.bytes().len() {
            return Ok(Value::Input(self.text.share(alloc)?));
        }
        match self.known_whole() {
            Some(whole) => Ok(Value::Input(Octets::of(alloc, whole)?)),
            None => Err(Fault::Memory),
        }
    }

    /// The value of a field by its number: 0 is the whole text, and a field above the last one is
    /// unset. The record stays the same.
    ///
    /// Fails with `Fault::FieldNumber` exactly where the number is not 0 to 65,535, and with
    /// `Fault::Memory` where memory is refused.
    pub fn get(&mut self, n: i64) -> Result<Value, Fault>
        ensures ok { IfOk result (λ v. (k : ℕ) × (place_of n ≡ Ok k) × IsValueAt self.new k v) }
        ensures kept { IsKept self.old self.new }
        ensures fault { IfErr result (λ e. (e ≡ Fault.Memory)
            ⊎ ((e ≡ Fault.FieldNumber) × (place_of n ≡ Err Fault.FieldNumber))) }
    {
        let number = place(n)?;
        if number == 0 {
            return self.whole_value();
        }
        split_parts(&mut self.parts, self.text.bytes())?;
        field_at(&self.parts, self.text.bytes(), number - 1)
    }

    /// NF, the number of fields. The record stays the same.
    ///
    /// Fails with `Fault::Memory` alone, where memory for the split is refused; then the record stays unsplit.
    pub fn count(&mut self) -> Result<i64, Fault>
        ensures ok { IfOk result (λ n. (fields : List Field) × HasFields self.new fields × (n ≡ pos (length fields))) }
        ensures kept { IsKept self.old self.new }
        ensures err { OnErr result (self.new ≡ self.old) }
        ensures fault { IfErr result (λ e. e ≡ Fault.Memory) }
    {
        split_parts(&mut self.parts, self.text.bytes())?;
        Ok(field_count(&self.parts) as i64)
    }

    /// The value of a field by its number, lent, where that is there without a change: 0 is the whole text, which is
    /// there unless it is to be rebuilt, and the others are there once the text is split. Takes no memory.
    pub fn lent(&self, n: u16) -> Option<Lent<'_>>
        ensures { IfSome result (λ v. IsValueAt self.now n (lent_value v)) }
    {
        if n == 0 {
            return Some(Lent::Input(self.known_whole()?));
        }
        lent_at(&self.parts, self.text.bytes(), n as usize - 1)
    }

    /// NF, where the text is split. Takes no memory.
    pub fn known_count(&self) -> Option<i64>
        ensures { IfSome result (λ n. (fields : List Field) × HasFields self.now fields × (n ≡ pos (length fields))) }
    {
        let count = known_count(&self.parts)?;
        Some(count as i64)
    }
}
