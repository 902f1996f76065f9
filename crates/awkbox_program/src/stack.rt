// The stack that the process was started with.
use awkbox::{read_limited, tells_of_small_stack};
use std::fs::File;

/// What the system tells of the limits of the process.
const LIMITS: &str = "/proc/self/limits";

/// More bytes than that text has.
const MOST_OF_LIMITS: usize = 65_536;

/// Whether the system tells of a stack that is too small for a run.
pub fn has_small_stack(rt: &HostRuntime) -> bool {
    let Ok(mut file) = File::open(rt, LIMITS) else {
        return false;
    };
    match read_limited(rt.alloc(), &mut file, MOST_OF_LIMITS) {
        Ok(limits) => tells_of_small_stack(limits.as_slice()),
        Err(_) => false,
    }
}
