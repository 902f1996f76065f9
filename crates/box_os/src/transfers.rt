// Bytes in from a stream and out to one: one reading, and one writing, of no more than what is asked.
ghost use Rattle.std.specs.Prelude.{◌≡◌, length, IfOk, IfErr, OnErr};
ghost use Rattle.std.specs.Io.KnownBytes.{Appends};
ghost use Rattle.box_world.specs.Calls.{IsDoing, IsReading};
ghost use Rattle.box_world.specs.declared.ask.Reply.TheVariants.{Done};
ghost use Rattle.box_world.specs.declared.ask.Stop.TheVariants.{Memory};
ghost use Rattle.box_os.specs.OsReading.{IsWithin, ReadsOn};

use awk_text::octets::Octets;
use box_world::ask::{Reply, Stop};
use std::alloc::{AllocError, Global};
use std::io::{Read, Write};

/// The most bytes that are read at once.
pub const PIECE: usize = 8192;

/// Room for so many bytes.
pub fn room(alloc: Global, size: usize) -> Result<Vec<u8>, AllocError>
    ensures { IfOk result (λ bytes. length bytes.items ≡ size) }
{
    vec![in alloc; 0u8; size]
}

/// Reads once, and at most 8,192 bytes, through a buffer of that size. Memory is taken before: where it is refused,
/// nothing is read.
pub fn read_from<R: Read>(
    alloc: Global,
    buffer: &mut [u8; PIECE],
    reader: &mut R,
) -> Result<Reply, Stop>
    ensures fits { IfOk result (λ reply. IsReading reply) }
    ensures size { IfOk result (λ reply. IsWithin 8192 reply) }
    ensures bytes { IfOk result (λ reply. ReadsOn (R.remaining reader.old) (R.remaining reader.new) reply) }
    ensures err { OnErr result (reader.new ≡ reader.old) }
    ensures memory { IfErr result (λ e. e ≡ Memory) }
{
    let mut bytes = Vec::with_capacity(alloc, PIECE)?;
    match reader.read(buffer.as_mut_slice()) {
        Ok(0) => Ok(Reply::End),
        Ok(count) => {
            bytes.extend_from_slice(&buffer[..count]).unwrap();
            Ok(Reply::Bytes(Octets::new(bytes)))
        }
        Err(_) => Ok(Reply::Failed),
    }
}

/// Writes all of the bytes at once.
pub fn write_out<W: Write>(writer: &mut W, bytes: &[u8]) -> Reply
    ensures fits { IsDoing result }
    ensures done { result ≡ Done → Appends (W.contents writer.old) (W.contents writer.new) bytes.now }
{
    match writer.write_all(bytes) {
        Ok(()) => match writer.flush() {
            Ok(()) => Reply::Done,
            Err(_) => Reply::Failed,
        },
        Err(_) => Reply::Failed,
    }
}
