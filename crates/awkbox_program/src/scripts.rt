// The script: one file, or several files and texts as one.
use crate::files::{MOST_BYTES, ReadFile, look, read_up_to};
use awk_sources::{InSource, Lines, Source, joined};
use awkbox::{Identity, Memory, Message, Numbers, Place, ReadError};
use awkbox_options::{STANDARD_INPUT, ScriptPart};
use std::alloc::Global;

/// A script that was read: which files it stands in, as far as they could be looked at, and the whole.
#[derive(Drop)]
pub struct ReadScript {
    pub identities: Vec<Identity>,
    pub bytes: Vec<u8>,
}

// The name of a part: of a text `-e` and its number, counted from 1.
fn name_of(alloc: Global, part: &ScriptPart<'_>, texts: usize) -> Result<String, Memory> {
    match part {
        ScriptPart::File(name) => String::from_str(alloc, name),
        ScriptPart::Text(_) => format!(in alloc; "-e {texts}"),
    }
}

// How many bytes may stand behind so many more and a newline.
fn left_behind(left: Option<usize>, bytes: usize) -> Option<usize> {
    left?.checked_sub(bytes)?.checked_sub(1)
}

fn read_part(
    rt: &HostRuntime,
    part: &ScriptPart<'_>,
    left: Option<usize>,
) -> Result<ReadFile, ReadError> {
    let Some(limit) = left else {
        return Err(ReadError::TooLong);
    };
    match part {
        ScriptPart::File(name) => read_up_to(rt, name, limit),
        ScriptPart::Text(text) if text.len() > limit => Err(ReadError::TooLong),
        ScriptPart::Text(text) => match Vec::from_slice(rt.alloc(), text.as_bytes()) {
            Ok(bytes) => Ok(ReadFile {
                identity: None,
                bytes,
            }),
            Err(_) => Err(ReadError::Memory),
        },
    }
}

// Parts that are being read.
#[derive(Drop)]
struct Reading {
    sources: Vec<Source>,
    identities: Vec<Identity>,
    /// How many of them are no files.
    texts: usize,
    /// How many bytes the next one may have; none, where there is no place for the newline before it.
    left: Option<usize>,
}

impl Reading {
    fn take(&mut self, rt: &HostRuntime, part: &ScriptPart<'_>) -> Result<(), Message> {
        if let ScriptPart::Text(_) = part {
            self.texts = self.texts.saturating_add(1);
        }
        let name = name_of(rt.alloc(), part, self.texts)?;
        let Ok(file) = read_part(rt, part, self.left) else {
            return Err(Message::cannot_read(rt.alloc(), name.as_str()));
        };
        Ok(self.keep(name, file)?)
    }

    fn keep(&mut self, name: String, file: ReadFile) -> Result<(), Memory> {
        self.left = left_behind(self.left, file.bytes.len());
        if let Some(identity) = file.identity {
            self.identities.push(identity)?;
        }
        self.sources.push(Source {
            name,
            text: file.bytes,
        })?;
        Ok(())
    }
}

fn read_parts(rt: &HostRuntime, parts: &[ScriptPart<'_>]) -> Result<Reading, Message> {
    let mut reading = Reading {
        sources: Vec::new(rt.alloc()),
        identities: Vec::new(rt.alloc()),
        texts: 0,
        left: Some(MOST_BYTES),
    };
    for part in parts {
        reading.take(rt, part)?;
    }
    Ok(reading)
}

/// Reads the parts of a script with these numbers as one, which may not be too long, and sets whose its lines are,
/// also where they are refused.
pub fn read_script(
    rt: &HostRuntime,
    numbers: Numbers,
    parts: &[ScriptPart<'_>],
    lines: &mut Option<Lines>,
) -> Result<ReadScript, Message> {
    let Reading {
        sources,
        identities,
        ..
    } = read_parts(rt, parts)?;
    *lines = Some(Lines::of(rt.alloc(), sources.as_slice())?);
    match joined(rt.alloc(), numbers, sources) {
        Ok(bytes) => Ok(ReadScript { identities, bytes }),
        Err(error) => Err(Message::Script(error)),
    }
}

/// Which files these parts are, as far as they can be looked at.
pub fn look_parts(rt: &HostRuntime, parts: &[ScriptPart<'_>]) -> Result<Vec<Identity>, Memory> {
    let mut identities = Vec::new(rt.alloc());
    for part in parts {
        if let Some(identity) = look_part(rt, part) {
            identities.push(identity)?;
        }
    }
    Ok(identities)
}

fn look_part(rt: &HostRuntime, part: &ScriptPart<'_>) -> Option<Identity> {
    match part {
        ScriptPart::File(name) if *name != STANDARD_INPUT => look(rt, name),
        _ => None,
    }
}

/// In which of several parts a place is; nowhere, where there is one part alone.
pub fn place_in(lines: &Option<Lines>, place: Option<Place>) -> Option<InSource<'_>> {
    match lines {
        Some(lines) if lines.are_several() => lines.place_in(place?),
        _ => None,
    }
}

/// The place of the script that a message is about.
pub fn place_of(message: &Message) -> Option<Place> {
    match message {
        Message::Script(error) => Some(error.place),
        Message::Fault(_, place) => Some(*place),
        _ => None,
    }
}

/// The line of a message, which of several parts names the one that it is about.
pub fn line_of(alloc: Global, message: &Message, lines: &Option<Lines>) -> Result<String, Memory> {
    match place_in(lines, place_of(message)) {
        Some(found) => line_at(alloc, message, &found),
        None => format!(in alloc; "{message}"),
    }
}

fn line_at(alloc: Global, message: &Message, found: &InSource<'_>) -> Result<String, Memory> {
    match message {
        Message::Script(error) => {
            let code = error.code;
            format!(in alloc; "awkbox: script {found} S{code}")
        }
        Message::Fault(fault, _) => {
            let (code, text) = (fault.code(), fault.text());
            format!(in alloc; "awkbox: {found} F{code} {text}")
        }
        // no other one is about a place
        _ => format!(in alloc; "{message}"),
    }
}
