// The open streams, by number.
ghost use Rattle.std.specs.Prelude.{◌≡◌, ℕ, List, ◌+◌, ◌<◌, ◌++◌, true, false, length, take, drop, Ok, None, IfOk};
ghost use Rattle.std.specs.Prelude.{IfErr};
ghost use Rattle.box_world.specs.Calls.{IsDoing, IsReading, is_among, without};
ghost use Rattle.box_world.specs.declared.ask.Reply.TheVariants.{Failed};
ghost use Rattle.box_world.specs.declared.ask.Stop.TheVariants.{Memory};
ghost use Rattle.box_os.specs.OsNumbers.{IsRising, numbers_of};
ghost use Rattle.box_os.specs.OsReading.{IsWithin};

use crate::streams::Stream;
use crate::transfers::PIECE;
use box_world::ask::{Reply, Stop};
use std::alloc::Global;

/// An open stream, and the number that a script's requests have for it.
#[derive(Drop)]
pub struct OpenStream {
    pub number: u32,
    pub stream: Stream,
}

// The index of the stream of the number, or where it would stand: the numbers rise.
fn search(streams: &[OpenStream], number: u32) -> Result<usize, usize>
    requires { IsRising (numbers_of streams.now) }
    ensures within { IfOk result (λ at. at < length streams.now) }
    ensures among { IfOk result (λ _. is_among (numbers_of streams.now) number ≡ true) }
    ensures found { IfOk result
        (λ at. without number (numbers_of streams.now) ≡ numbers_of (take at streams.now)
        ++ numbers_of (drop (at + 1) streams.now)) }
    ensures absent { IfErr result (λ _. without number (numbers_of streams.now) ≡ numbers_of streams.now) }
{
    streams.binary_search_by_key(&number, |open| open.number)
}

/// What the stream of the number gives next.
pub fn next_of(
    streams: &mut Vec<OpenStream>,
    alloc: Global,
    buffer: &mut [u8; PIECE],
    number: u32,
) -> Result<Reply, Stop>
    requires { IsRising (numbers_of streams.old.items) }
    ensures same { numbers_of streams.new.items ≡ numbers_of streams.old.items }
    ensures fits { IfOk result (λ reply. IsReading reply) }
    ensures size { IfOk result (λ reply. IsWithin 8192 reply) }
    ensures absent { is_among (numbers_of streams.old.items) number ≡ false → result ≡ Ok Failed }
    ensures memory { IfErr result (λ e. e ≡ Memory) }
{
    match search(streams.as_slice(), number) {
        Ok(at) => streams[at].stream.next(alloc, buffer),
        Err(_) => Ok(Reply::Failed),
    }
}

/// Writes the bytes to the stream of the number.
pub fn put_to(streams: &mut Vec<OpenStream>, number: u32, bytes: &[u8]) -> Reply
    requires { IsRising (numbers_of streams.old.items) }
    ensures same { numbers_of streams.new.items ≡ numbers_of streams.old.items }
    ensures fits { IsDoing result }
    ensures absent { is_among (numbers_of streams.old.items) number ≡ false → result ≡ Failed }
{
    match search(streams.as_slice(), number) {
        Ok(at) => streams[at].stream.put(bytes),
        Err(_) => Reply::Failed,
    }
}

/// Takes the stream of the number out.
pub fn take_stream(streams: &mut Vec<OpenStream>, number: u32) -> Option<Stream>
    requires { IsRising (numbers_of streams.old.items) }
    ensures taken { numbers_of streams.new.items ≡ without number (numbers_of streams.old.items) }
    ensures absent { is_among (numbers_of streams.old.items) number ≡ false → result ≡ None }
{
    match search(streams.as_slice(), number) {
        Ok(at) => Some(streams.remove(at).stream),
        Err(_) => None,
    }
}
