// The environment of the process.
ghost use Rattle.std.specs.Prelude.{◌≡◌, IfOk, IfErr};
ghost use Rattle.box_world.specs.Calls.{IsValuing};
ghost use Rattle.box_world.specs.declared.ask.Stop.TheVariants.{Memory};

use crate::transfers::room;
use awk_text::octets::Octets;
use box_world::ask::{Reply, Stop};
use std::alloc::Global;
use std::env::FillError;
use std::rt::Env;

/// The value of the name, whatever bytes it is. `Failed` where the name has none, or is not UTF-8.
pub fn value_of(rt: &HostRuntime, alloc: Global, name: &[u8]) -> Result<Reply, Stop>
    ensures fits { IfOk result (λ reply. IsValuing reply) }
    ensures memory { IfErr result (λ e. e ≡ Memory) }
{
    let Ok(name) = std::str::from_utf8(name) else {
        return Ok(Reply::Failed);
    };
    // the length is not known before, so the room doubles until the value has place in it
    for power in 8..usize::BITS {
        let mut value = room(alloc, 1 << power)?;
        match rt.var(name, value.as_mut_slice()) {
            Ok(length) => {
                value.truncate(length);
                return Ok(Reply::Value(Octets::new(value)));
            }
            Err(FillError::NotPresent) => return Ok(Reply::Failed),
            Err(FillError::TooLong) => {}
        }
    }
    Err(Stop::Memory)
}
