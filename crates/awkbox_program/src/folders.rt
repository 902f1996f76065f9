// The folder that the program is started in, and the one that a run is in.
use awkbox::{Memory, Message};
use std::env::{current_dir, set_current_dir};
use std::fs::canonicalize;
use std::path::{PathBuf, absolute as absolute_path};

/// The folders of a run, by their absolute names; that of one that cannot be told is empty.
#[derive(Drop)]
pub struct Folders {
    started: PathBuf,
    here: PathBuf,
    base: Option<PathBuf>,
}

/// Enters the folder of this name, where there is one. A base that is given stands under it.
pub fn enter(
    rt: &HostRuntime,
    folder: Option<&str>,
    base: Option<&str>,
) -> Result<Folders, Message> {
    let started = current(rt)?;
    if let Some(name) = folder {
        if set_current_dir(rt, name).is_err() {
            return Err(Message::cannot_enter(rt.alloc(), name));
        }
    }
    Ok(Folders {
        started,
        here: current(rt)?,
        base: base_name(rt, base)?,
    })
}

fn current(rt: &HostRuntime) -> Result<PathBuf, Memory> {
    match current_dir(rt) {
        Ok(folder) => Ok(folder),
        Err(_) => PathBuf::from_str(rt.alloc(), ""),
    }
}

impl Folders {
    /// The folder that the run is in.
    pub fn here(&self) -> &str {
        self.here.as_str()
    }

    /// The base that is given.
    pub fn base(&self) -> Option<&[u8]> {
        base_bytes(&self.base)
    }

    /// The absolute form of a name that stands in the words of the command line.
    pub fn absolute(&self, rt: &HostRuntime, name: &str) -> Result<PathBuf, Memory> {
        self.started.join(rt.alloc(), name)
    }
}

/// The absolute form of a name, from the folder that the program is in.
pub fn absolute(rt: &HostRuntime, name: &str) -> Result<PathBuf, Memory> {
    current(rt)?.join(rt.alloc(), name)
}

/// The base that the words give, by its absolute name from the folder that the program is in. One that has none, as an
/// empty one, stays as it is, and no policy may have it.
pub fn base_name(rt: &HostRuntime, base: Option<&str>) -> Result<Option<PathBuf>, Memory> {
    let Some(name) = base else {
        return Ok(None);
    };
    match absolute_path(rt, name) {
        Ok(base) => Ok(Some(base)),
        Err(_) => Ok(Some(PathBuf::from_str(rt.alloc(), name)?)),
    }
}

/// The bytes of a base that may be there.
pub fn base_bytes(base: &Option<PathBuf>) -> Option<&[u8]> {
    match base {
        Some(base) => Some(base.as_str().as_bytes()),
        None => None,
    }
}

/// The name of the same file without links on its way; this name, where it cannot be told.
pub fn resolved(rt: &HostRuntime, absolute: &str) -> Result<PathBuf, Memory> {
    match canonicalize(rt, absolute) {
        Ok(resolved) => Ok(resolved),
        Err(_) => PathBuf::from_str(rt.alloc(), absolute),
    }
}
