// Reading all that a reader gives, where that is not too long.
ghost use Rattle.std.specs.Prelude.{◌≡◌, ◌<◌, ◌≤◌, length, IfOk, IfErr, IfSome, OnOk};
ghost use Rattle.std.specs.Io.KnownBytes.{IsAtEnd};

use std::alloc::Global;
use std::io::Read;
use thiserror::Error;

/// Why a reader was not read to its end.
#[derive(Clone, Copy, Debug, PartialEq, Eq, Drop, Error)]
pub enum ReadError {
    /// A read failed, or was interrupted.
    #[error("a read failed")]
    Failed,
    #[error("more bytes than the limit")]
    TooLong,
    #[error("out of memory")]
    Memory,
}

// The most bytes that are asked for at once.
const PIECE: usize = 8192;

/// Reads all of the bytes up to the reader's end, at most `limit`.
///
/// It holds no more than these, so an input without an end is `TooLong` as soon as it has given one byte more. A read
/// that fails is not tried again, also where it was interrupted.
pub fn read_limited<R: Read>(
    alloc: Global,
    reader: &mut R,
    limit: usize,
) -> Result<Vec<u8>, ReadError>
    ensures all { IfOk result (λ bytes. IfSome (R.remaining reader.old) (λ all. bytes.items ≡ all)) }
    ensures end { OnOk result (IsAtEnd (R.remaining reader.new)) }
    ensures limit { IfOk result (λ bytes. length bytes.items ≤ limit) }
    ensures long { IfErr result (λ error. error ≡ ReadError.TooLong →
        IfSome (R.remaining reader.old) (λ all. limit < length all)) }
{
    let mut bytes = Vec::new(alloc);
    let mut piece = [0u8; PIECE];
    loop {
        match reader.read(piece.as_mut_slice()) {
            Ok(0) => return Ok(bytes),
            Ok(count) => {
                if count > limit - bytes.len() {
                    return Err(ReadError::TooLong);
                }
                if bytes.extend_from_slice(&piece[..count]).is_err() {
                    return Err(ReadError::Memory);
                }
            }
            Err(_) => return Err(ReadError::Failed),
        }
    }
}
