// Streams that are read, and what is held unread of them.
ghost use Rattle.std.specs.Prelude.{◌≡◌, ◌++◌, ◌⊎◌, false, true, IfOk, IfErr, OnOk, OnErr, IsOkUnless};
ghost use Rattle.awk_fields.specs.Heads.{head, too_long};
ghost use Rattle.awk_fields.specs.Takes.{Input, Takes};
ghost use Rattle.awk_streams.specs.Readings.{GoesOn, Holds, IsLive, key_of};
ghost use Rattle.awk_streams.specs.Tasks.{IsNumber, IsReadAt, IsSame};

use crate::streams::{StreamName, Streams};
use awk_fields::reader::Taken;
use awk_text::fault::Fault;

/// A stream that is read: the standard input, or one that is opened, whose name is lent.
#[derive(Clone, Copy, Drop)]
pub enum InputStream<'a> {
    Standard,
    Stream(StreamName<'a>),
}

/// The number of a stream that stands open. Takes no memory.
pub fn number(streams: &Streams, source: &InputStream<'_>) -> u32
    requires { IsLive (key_of source.now) streams.now }
    ensures { IsNumber (key_of source.now) result streams.now }
{
    match source {
        InputStream::Standard => 0,
        InputStream::Stream(name) => streams.number(name).unwrap(),
    }
}

/// Adds the next bytes of a stream that has not ended. `Memory` changes nothing.
pub fn push(streams: &mut Streams, source: &InputStream<'_>, bytes: &[u8]) -> Result<(), Fault>
    requires { GoesOn (key_of source.now) streams.old }
    ensures ok { OnOk result (Holds (key_of source.now) streams.old
        (λ i. IsReadAt (key_of source.now) (record { unread = i.unread ++ bytes.now; ended = false }) streams.old
        streams.new)) }
    ensures err { OnErr result (IsSame streams.old streams.new) }
    ensures memory { IsOkUnless result Fault.Memory }
{
    match source {
        InputStream::Standard => streams.push_standard(bytes),
        InputStream::Stream(name) => streams.push(name, bytes),
    }
}

/// The first record of what is held unread, which is taken; see `Reader::take`. Where it fails,
/// nothing was taken.
pub fn take(streams: &mut Streams, source: &InputStream<'_>, rs: &[u8]) -> Result<Taken, Fault>
    ensures ok { IfOk result (λ taken. Holds (key_of source.now) streams.old
        (λ i. (j : Input) × Takes (head rs.now i.unread i.ended) taken i j
        × IsReadAt (key_of source.now) j streams.old streams.new)) }
    ensures err { OnErr result (IsSame streams.old streams.new) }
    ensures fault { IfErr result (λ e. Holds (key_of source.now) streams.old
        (λ i. (e ≡ Fault.Memory) ⊎ ((e ≡ Fault.TextTooLong) × (head rs.now i.unread i.ended ≡ too_long)))) }
{
    match source {
        InputStream::Standard => streams.take_standard(rs),
        InputStream::Stream(name) => streams.take(name, rs),
    }
}

/// Says that a stream has ended. Takes no memory.
pub fn finish(streams: &mut Streams, source: &InputStream<'_>)
    ensures { Holds (key_of source.now) streams.old
        (λ i. IsReadAt (key_of source.now) (record { unread = i.unread; ended = true }) streams.old streams.new) }
{
    match source {
        InputStream::Standard => streams.finish_standard(),
        InputStream::Stream(name) => streams.finish(name),
    }
}
