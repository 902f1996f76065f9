// Commands that `sh` runs.
ghost use Rattle.std.specs.Prelude.{◌≡◌, pos, ◌≤ℤ◌, IfErr, IfOk};
ghost use Rattle.box_world.specs.Calls.{IsRunning};
ghost use Rattle.box_world.specs.declared.ask.Stop.TheVariants.{Memory};

use crate::refusals::refused;
use box_world::ask::{Reply, Stop};
use std::alloc::{AllocError, Global};
use std::io;
use std::io::PipeWriter;
use std::process::{Child, Command, ExitStatus, Stdio};

/// The status that a command ended with, or 256 where a signal ended it.
fn number_of(status: ExitStatus) -> i64
    ensures low { pos 0 ≤ℤ result }
    ensures high { result ≤ℤ pos 256 }
{
    match status.code() {
        Some(code) if 0 <= code && code <= 255 => i64::from(code),
        _ => 256,
    }
}

fn shell(alloc: Global, text: &str) -> Result<Command, AllocError> {
    let mut command = Command::new(alloc, "sh")?;
    command.arg("-c")?;
    command.arg(text)?;
    Ok(command)
}

/// Runs `sh -c TEXT` with the standard streams of this process, and waits for its end. `Failed`
/// where it cannot be started; `Stop::Memory` where memory is refused before it is.
pub fn run_command(rt: &HostRuntime, alloc: Global, text: &[u8]) -> Result<Reply, Stop>
    ensures fits { IfOk result (λ reply. IsRunning reply) }
    ensures memory { IfErr result (λ e. e ≡ Memory) }
{
    let Ok(text) = std::str::from_utf8(text) else {
        return Ok(Reply::Failed);
    };
    match shell(alloc, text)?.status(rt) {
        Ok(status) => Ok(Reply::Status(number_of(status))),
        Err(error) => refused(error),
    }
}

/// Starts `sh -c TEXT`, whose output is read.
pub fn listen_to(rt: &HostRuntime, alloc: Global, text: &str) -> io::Result<Child> {
    shell(alloc, text)?.stdout(Stdio::piped()).spawn(rt)
}

/// Starts `sh -c TEXT`, which is written to by the pipe that comes with it. A pipe of the child's own would hold
/// signals back round each write, with three calls more of the system; a program ignores SIGPIPE from its start, so
/// that is not needed.
pub fn speak_to(rt: &HostRuntime, alloc: Global, text: &str) -> io::Result<(Child, PipeWriter)> {
    let (end, pipe) = io::pipe(rt)?;
    let child = shell(alloc, text)?.stdin(end).spawn(rt)?;
    Ok((child, pipe))
}

/// Closes this process's end of the pipe from a command, and waits for its end.
pub fn wait_for(mut child: Child) -> Reply
    ensures { IsRunning result }
{
    drop(child.stdout.take());
    match child.wait() {
        Ok(status) => Reply::Status(number_of(status)),
        Err(_) => Reply::Failed,
    }
}
