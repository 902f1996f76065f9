// The standard streams that the program was started without.
use std::fs::{File, OpenOptions};
use std::io;
use std::os::fd::{AsFd, BorrowedFd};

/// The names that lead to what the standard streams are, where the system has them.
pub const STREAMS: [&str; 3] = ["/proc/self/fd/0", "/proc/self/fd/1", "/proc/self/fd/2"];

/// What stands for an input that is closed, and for an output where the system has nothing better.
pub const NOTHING: &str = "/dev/null";

/// What stands for an output that is closed: no byte can be written to it, by whatever name it is opened again.
const FULL: &str = "/dev/full";

/// Takes the descriptor of each standard stream that is closed, so that no file that is opened later
/// gets it, and so becomes what a script reads or prints to. They are free again once the files are
/// let go.
///
/// A stream stays as useless as it was: the one for input is opened for writing alone, and the
/// others for reading alone, on what takes no byte where a script opens it by a name, as `/dev/stdout`.
pub fn hold_closed(rt: &HostRuntime) -> io::Result<Vec<File>> {
    let mut held = Vec::new(rt.alloc());
    // the system gives the lowest number that is free: this one, since those below are taken
    if !is_open(rt.stdin().as_fd()) {
        held.push(OpenOptions::new().write(true).open(rt, NOTHING)?)?;
    }
    if !is_open(rt.stdout().as_fd()) {
        held.push(useless_output(rt)?)?;
    }
    if !is_open(rt.stderr().as_fd()) {
        held.push(useless_output(rt)?)?;
    }
    Ok(held)
}

fn useless_output(rt: &HostRuntime) -> io::Result<File> {
    match File::open(rt, FULL) {
        Ok(file) => Ok(file),
        Err(_) => File::open(rt, NOTHING),
    }
}

fn is_open(stream: BorrowedFd<'_>) -> bool {
    stream.try_clone_to_owned().is_ok()
}
