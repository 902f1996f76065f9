// The files that the program is given.
use awkbox::{Identity, Memory, ReadError, read_limited};
use awkbox_options::STANDARD_INPUT;
use std::fs::{File, Metadata, OpenOptions, metadata};
use std::io::{self, Write};
use std::os::unix::fs::{FileExt, MetadataExt};

/// The most bytes that a policy or a script may have.
pub const MOST_BYTES: usize = 16_777_216;

fn identity_of(metadata: &Metadata) -> Identity {
    Identity {
        device: metadata.dev(),
        number: metadata.ino(),
    }
}

/// Which file this name leads to. None, where it cannot be looked at.
pub fn look(rt: &HostRuntime, name: &str) -> Option<Identity> {
    match metadata(rt, name) {
        Ok(metadata) => Some(identity_of(&metadata)),
        Err(_) => None,
    }
}

/// A file that was read: which one it is, and all of its bytes. The standard input is looked at by its own names, as
/// the other standard streams are.
#[derive(Drop)]
pub struct ReadFile {
    pub identity: Option<Identity>,
    pub bytes: Vec<u8>,
}

/// Reads the file, or the standard input, which may not be too long.
pub fn read(rt: &HostRuntime, name: &str) -> Result<ReadFile, ReadError> {
    read_up_to(rt, name, MOST_BYTES)
}

/// The same, with this limit.
pub fn read_up_to(rt: &HostRuntime, name: &str, limit: usize) -> Result<ReadFile, ReadError> {
    if name == STANDARD_INPUT {
        let bytes = read_limited(rt.alloc(), &mut rt.stdin(), limit)?;
        return Ok(ReadFile {
            identity: None,
            bytes,
        });
    }
    let Ok(mut file) = File::open(rt, name) else {
        return Err(ReadError::Failed);
    };
    let Ok(metadata) = file.metadata() else {
        return Err(ReadError::Failed);
    };
    let bytes = read_limited(rt.alloc(), &mut file, limit)?;
    Ok(ReadFile {
        identity: Some(identity_of(&metadata)),
        bytes,
    })
}

/// The most bytes of a line of the log that is looked at once more.
const MOST_OF_LINE: usize = 32_768;

/// The last bytes of this file, so many that a line of the log has no more; none, where it cannot be read, or is no
/// regular file, as a FIFO, of which an open may wait.
pub fn last_bytes(rt: &HostRuntime, name: &str) -> Result<Vec<u8>, Memory> {
    let mut bytes = Vec::new(rt.alloc());
    let Ok(metadata) = metadata(rt, name) else {
        return Ok(bytes);
    };
    if !metadata.is_file() {
        return Ok(bytes);
    }
    let Ok(file) = File::open(rt, name) else {
        return Ok(bytes);
    };
    let start = metadata.len().saturating_sub(MOST_OF_LINE as u64);
    bytes.resize(MOST_OF_LINE, 0)?;
    let count = file.read_at(bytes.as_mut_slice(), start).unwrap_or(0);
    bytes.truncate(count);
    Ok(bytes)
}

/// Whether the last line of this file has no end, as where a run was ended within a write. What cannot be read has one.
fn is_torn(rt: &HostRuntime, name: &str, log: Identity) -> bool {
    let Ok(file) = File::open(rt, name) else {
        return false;
    };
    let Ok(metadata) = file.metadata() else {
        return false;
    };
    let found = identity_of(&metadata);
    if found.device != log.device || found.number != log.number {
        return false;
    }
    let mut last = [b'\n'];
    match metadata.len().checked_sub(1) {
        Some(at) => file.read_at(&mut last, at).is_ok() && last[0] != b'\n',
        None => false,
    }
}

/// A log that is open for adding at its end alone, and still holds what it held.
#[derive(Drop)]
pub struct OpenLog {
    file: File,
    pub identity: Identity,
    /// What is no regular file, as a terminal or a pipe, holds nothing that could be emptied.
    pub is_regular: bool,
    is_torn: bool,
}

impl OpenLog {
    /// Opens the log, made where it is not there.
    pub fn open(rt: &HostRuntime, name: &str) -> io::Result<OpenLog> {
        let file = OpenOptions::new().append(true).create(true).open(rt, name)?;
        let metadata = file.metadata()?;
        let identity = identity_of(&metadata);
        let is_regular = metadata.is_file();
        Ok(OpenLog {
            file,
            identity,
            is_regular,
            is_torn: is_regular && is_torn(rt, name, identity),
        })
    }

    /// The file for the lines of a run, emptied unless what it holds is kept; then a last line without an end is ended.
    pub fn begin(self, is_kept: bool) -> io::Result<File> {
        let OpenLog {
            mut file,
            is_regular,
            is_torn,
            ..
        } = self;
        if is_kept {
            if is_torn {
                file.write_all(b"\n")?;
            }
        } else if is_regular {
            file.set_len(0)?;
        }
        Ok(file)
    }
}
