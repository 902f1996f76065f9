// What the process was started with: its words and its environment, which are any bytes.
use awk_text::Memory;
use awk_text::octets::Octets;
use std::alloc::AllocError;
use std::env::FillError;
use std::rt::Env;

/// What the system keeps a list of.
#[derive(Clone, Copy, Drop)]
pub enum List {
    /// The words that the process was started with, of which the first is its own name.
    Words,
    /// The entries of its environment, `NAME=VALUE`.
    Environment,
}

fn fill(rt: &HostRuntime, list: List, at: usize, room: &mut [u8]) -> Result<usize, FillError> {
    match list {
        List::Words => rt.arg(at, room),
        List::Environment => rt.var_at(at, room),
    }
}

/// The bytes that stand at this place of the list, where it is so long.
pub fn entry(rt: &HostRuntime, list: List, at: usize) -> Result<Option<Vec<u8>>, Memory> {
    let alloc = rt.alloc();
    // the length is not known before, so the room doubles until the entry has place in it
    for power in 8..usize::BITS {
        let mut bytes = vec![in alloc; 0u8; 1 << power]?;
        match fill(rt, list, at, bytes.as_mut_slice()) {
            Ok(length) => {
                bytes.truncate(length);
                return Ok(Some(bytes));
            }
            Err(FillError::NotPresent) => return Ok(None),
            Err(FillError::TooLong) => {}
        }
    }
    Err(AllocError)
}

// The name of an entry of the environment, where it has one that is text.
fn name_of(mut entry: Vec<u8>) -> Option<String> {
    let end = entry.iter().position(|b| *b == b'=')?;
    if end == 0 {
        return None;
    }
    entry.truncate(end);
    match String::from_utf8(entry) {
        Ok(name) => Some(name),
        Err(_bytes) => None,
    }
}

fn unordered_names(rt: &HostRuntime) -> Result<Vec<String>, Memory> {
    let mut names = Vec::new(rt.alloc());
    for at in 0..usize::MAX {
        let Some(entry) = entry(rt, List::Environment, at)? else {
            break;
        };
        if let Some(name) = name_of(entry) {
            names.push(name)?;
        }
    }
    Ok(names)
}

/// The names of the environment that are text, in ascending order of their bytes and without repeats. An entry that is
/// not `NAME=VALUE` has none.
///
/// Fails where memory is refused.
pub fn names(rt: &HostRuntime) -> Result<Vec<Octets>, Memory> {
    let mut texts = unordered_names(rt)?;
    texts.sort_unstable();
    texts.dedup();
    let mut names = Vec::new(rt.alloc());
    for text in texts {
        names.push(Octets::new(text.into_bytes()))?;
    }
    Ok(names)
}
