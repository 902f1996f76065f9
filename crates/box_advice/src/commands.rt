// Commands that let more through than they seem to.
use crate::bytes::{before_first, behind_last};
use crate::page::Page;

const READS: &str = "does what its input says";

const WRITES: &str = "writes files";

const STARTS: &str = "writes files or starts commands";

const CONNECTS: &str = "opens connections";

/// Programs, and what a command of each may do beside what it is for: by what it reads, or by an option.
const PROGRAMS: [(&str, &str); 40] = [
    ("awk", STARTS),
    ("bash", READS),
    ("bc", READS),
    ("busybox", STARTS),
    ("cp", WRITES),
    ("curl", CONNECTS),
    ("dash", READS),
    ("dd", WRITES),
    ("ed", READS),
    ("env", STARTS),
    ("ex", READS),
    ("find", STARTS),
    ("gawk", STARTS),
    ("git", STARTS),
    ("ksh", READS),
    ("ln", WRITES),
    ("lua", READS),
    ("make", READS),
    ("mawk", STARTS),
    ("mv", WRITES),
    ("nc", CONNECTS),
    ("nice", STARTS),
    ("node", READS),
    ("nohup", STARTS),
    ("perl", READS),
    ("php", READS),
    ("python", READS),
    ("python3", READS),
    ("rsync", CONNECTS),
    ("ruby", READS),
    ("scp", CONNECTS),
    ("sed", STARTS),
    ("sh", READS),
    ("ssh", CONNECTS),
    ("sudo", STARTS),
    ("tar", STARTS),
    ("tee", WRITES),
    ("timeout", STARTS),
    ("vi", READS),
    ("xargs", STARTS),
];

/// The last component of the first word of a command.
fn program_of(command: &[u8]) -> &[u8] {
    let word = before_first(command, b' ');
    word.get(behind_last(word, b'/')..).unwrap_or(word)
}

/// Whether a word of the command is the option that names a file for the output of `sort`.
fn has_output(command: &[u8]) -> bool {
    command
        .split(|b| *b == b' ')
        .any(|word| word.starts_with(b"-o") || word.starts_with(b"--o"))
}

/// Which of these programs it is.
fn listed(
    word: &[u8],
    programs: &[(&'static str, &'static str)],
) -> Option<(&'static str, &'static str)> {
    for (name, deed) in programs {
        if name.as_bytes() == word {
            return Some((*name, *deed));
        }
    }
    None
}

/// The program of the command, where it is one of those that do more.
fn known_program(command: &[u8]) -> Option<(&'static str, &'static str)> {
    listed(program_of(command), PROGRAMS.as_slice())
}

/// What a command's pattern lets through that its writer may not have meant.
#[derive(Clone, Copy, Drop)]
pub(crate) enum Remark {
    /// These words.
    Words(&'static str),
    /// What the program of this name does.
    Does(&'static str, &'static str),
    /// The same, by options that the script picks.
    Lets(&'static str, &'static str),
}

// With a `*` the options are the script's.
fn open_remark(pattern: &[u8]) -> Remark {
    if program_of(pattern) == b"sort".as_slice() {
        return Remark::Words("* lets options of sort through, which write files or start commands");
    }
    match known_program(pattern) {
        Some((name, deed)) => Remark::Lets(name, deed),
        None => Remark::Words("* may stand for an option too"),
    }
}

// No `*` is in it.
fn closed_remark(pattern: &[u8]) -> Option<Remark> {
    if program_of(pattern) == b"sort".as_slice() && has_output(pattern) {
        return Some(Remark::Words("sort writes a file here"));
    }
    match known_program(pattern) {
        Some((name, deed)) => Some(Remark::Does(name, deed)),
        None => None,
    }
}

pub(crate) fn remark_on(pattern: &[u8]) -> Option<Remark> {
    if pattern.windows(2).any(|pair| pair == b"**".as_slice()) {
        return Some(Remark::Words("** lets a script run whatever the shell makes of it"));
    }
    if pattern.contains(&b'*') {
        return Some(open_remark(pattern));
    }
    closed_remark(pattern)
}

pub(crate) fn put_remark(remark: Remark, page: &mut Page) {
    match remark {
        Remark::Words(words) => page.put(words),
        Remark::Does(name, deed) => page.put_all(&[name, " ", deed]),
        Remark::Lets(name, deed) => {
            page.put_all(&[
                "* lets options of ",
                name,
                " through, and ",
                name,
                " ",
                deed,
            ]);
        }
    }
}
