// What the system refuses.
ghost use Rattle.std.specs.Prelude.{◌≡◌, ◌↔◌, IfOk, IfErr, IsErr};
ghost use Rattle.std.specs.IoError.{error_kind};
ghost use Rattle.box_world.specs.declared.ask.Reply.TheVariants.{Failed};
ghost use Rattle.box_world.specs.declared.ask.Stop.TheVariants.{Memory};

use box_world::ask::{Reply, Stop};
use std::io::{Error, ErrorKind};

/// The answer to a request that the system refused, and of which nothing has been done: `Failed`,
/// or `Stop::Memory` where it refused for want of memory.
pub fn refused(error: Error) -> Result<Reply, Stop>
    ensures failed { IfOk result (λ reply. reply ≡ Failed) }
    ensures memory { IfErr result (λ e. e ≡ Memory) }
    ensures when { IsErr result ↔ (error_kind error ≡ ErrorKind.OutOfMemory) }
{
    if error.kind() == ErrorKind::OutOfMemory {
        return Err(Stop::Memory);
    }
    Ok(Reply::Failed)
}
