// What the program says at its end, and the exit status that goes with it.
ghost use Rattle.std.specs.Prelude.{◌≡◌, Some, IfOk, string_bytes};
ghost use Rattle.awk_text.specs.Quoted.{quoted};

use crate::accepting::Refusal;
use crate::listing_refusal::ListingRefusal;
use awk_run::{Outcome, Report};
use awk_text::Memory;
use awk_text::fault::Fault;
use awk_text::place::Place;
use awk_text::quote::quote_log;
use awk_tokens::SyntaxError;
use box_policy::error::PolicyError;
use std::alloc::{AllocError, Global};
use std::fmt;

/// One line on standard error.
#[derive(Drop)]
pub enum Message {
    /// The run ended with a fault, at this place of the script.
    Fault(Fault, Place),
    /// The run took as many steps as it may.
    StepBound,
    /// The policy was refused.
    Policy(PolicyError),
    /// The script was refused.
    Script(SyntaxError),
    /// The name of the `-v` pair of this number, counted from 1, is not spelled as one.
    Unspelled(u32),
    /// The `-v` pair of this number, counted from 1, names nothing that may be assigned.
    Assignment(u32),
    /// A file could not be read. The name is quoted, as the log of denials has it.
    CannotRead(String),
    /// A file could not be made or emptied, or may not be the log. The name is quoted, as the log of denials has it.
    CannotWrite(String),
    /// A run is over, and its report could not be written. The name is quoted, as the log of denials has it.
    CannotReport(String),
    /// A folder could not be entered. The name is quoted, as the log of denials has it.
    CannotEnter(String),
    /// The program runs in another folder than the base of the policy, though rules speak of files. The base is quoted,
    /// as the log of denials has it.
    NotInBase(String),
    /// The stack of the process is too small for a run.
    SmallStack,
    /// Memory was refused outside the run.
    OutOfMemory,
}

/// One of the files that a run is given.
#[derive(Clone, Copy, Drop)]
pub enum OwnFile {
    Log,
    Audit,
    Report,
    Policy,
    Script,
}

/// One line on standard error, before a run that goes on: that a rule lets the script write to a file that the run is
/// given.
#[derive(Drop)]
pub struct Warning {
    /// The number of the rule.
    pub rule: u32,
    pub file: OwnFile,
    /// The file's name, quoted as the log of denials has it.
    pub name: String,
}

/// How the program ends.
#[derive(Drop)]
pub enum Ending {
    /// With the script's own status, and nothing is said.
    Quiet(u8),
    /// With a message, and the status that goes with it.
    Said(Message),
}

impl From<AllocError> for Message {
    ghost use Rattle.std.specs.Prelude.{◌≡◌};
    ghost use Rattle.awkbox.specs.declared.messages.Message.TheVariants.{OutOfMemory};

    ghost from_gives = { λ _ message. message ≡ OutOfMemory };

    fn from(_error: AllocError) -> Message {
        Message::OutOfMemory
    }
}

impl From<Refusal> for Message {
    ghost use Rattle.std.specs.Prelude.{◌≡◌};
    ghost use Rattle.awkbox.specs.Endings.{message_of_refusal};

    ghost from_gives = { λ refusal message. message ≡ message_of_refusal refusal };

    fn from(refusal: Refusal) -> Message {
        match refusal {
            Refusal::Policy(error) => Message::Policy(error),
            Refusal::Script(error) => Message::Script(error),
            Refusal::Assign(pair) => Message::Assignment(pair),
        }
    }
}

impl From<ListingRefusal> for Message {
    ghost use Rattle.std.specs.Prelude.{◌≡◌};
    ghost use Rattle.awkbox.specs.Endings.{message_of_listing};

    ghost from_gives = { λ refusal message. message ≡ message_of_listing refusal };

    fn from(refusal: ListingRefusal) -> Message {
        match refusal {
            ListingRefusal::Policy(error) => Message::Policy(error),
            ListingRefusal::Script(error) => Message::Script(error),
            ListingRefusal::Memory => Message::OutOfMemory,
        }
    }
}

// The name as the log of denials has it.
fn quoted_name(alloc: Global, name: &str) -> Result<String, Memory>
    ensures { IfOk result (λ text. string_bytes text ≡ quoted name.now) }
{
    match quote_log(alloc, name.as_bytes()) {
        Ok(bytes) => Ok(String::from_utf8(bytes).unwrap()),
        Err(_) => Err(AllocError),
    }
}

impl Message {
    ghost use Rattle.awkbox.specs.Messages.{message_status, SaysCannotEnter, SaysCannotRead, SaysCannotReport};
    ghost use Rattle.awkbox.specs.Messages.{SaysCannotWrite, SaysNotInBase};

    /// That the file of this name cannot be read; `OutOfMemory` where memory for that is refused.
    pub fn cannot_read(alloc: Global, name: &str) -> Message
        ensures { SaysCannotRead name.now result }
    {
        match quoted_name(alloc, name) {
            Ok(name) => Message::CannotRead(name),
            Err(_) => Message::OutOfMemory,
        }
    }

    /// That the file of this name cannot be made or emptied, or may not be the log; `OutOfMemory` where memory for that
    /// is refused.
    pub fn cannot_write(alloc: Global, name: &str) -> Message
        ensures { SaysCannotWrite name.now result }
    {
        match quoted_name(alloc, name) {
            Ok(name) => Message::CannotWrite(name),
            Err(_) => Message::OutOfMemory,
        }
    }

    /// That the report of a run cannot be written to the file of this name; `OutOfMemory` where memory for that is
    /// refused.
    pub fn cannot_report(alloc: Global, name: &str) -> Message
        ensures { SaysCannotReport name.now result }
    {
        match quoted_name(alloc, name) {
            Ok(name) => Message::CannotReport(name),
            Err(_) => Message::OutOfMemory,
        }
    }

    /// That the folder of this name cannot be entered; `OutOfMemory` where memory for that is refused.
    pub fn cannot_enter(alloc: Global, name: &str) -> Message
        ensures { SaysCannotEnter name.now result }
    {
        match quoted_name(alloc, name) {
            Ok(name) => Message::CannotEnter(name),
            Err(_) => Message::OutOfMemory,
        }
    }

    /// That the program was not started in this base; `OutOfMemory` where memory for that is refused.
    pub fn not_in_base(alloc: Global, base: &str) -> Message
        ensures { SaysNotInBase base.now result }
    {
        match quoted_name(alloc, base) {
            Ok(base) => Message::NotInBase(base),
            Err(_) => Message::OutOfMemory,
        }
    }

    /// The exit status: 2 for a fault and where a run has no report, 4 where the steps ran out, and 3 where something
    /// was refused before the run.
    pub fn status(&self) -> u8
        ensures { result ≡ message_status self.now }
    {
        match self {
            Message::Fault(_, _) | Message::CannotReport(_) | Message::OutOfMemory => 2,
            Message::StepBound => 4,
            Message::Policy(_)
            | Message::Script(_)
            | Message::Unspelled(_)
            | Message::Assignment(_)
            | Message::CannotRead(_)
            | Message::CannotWrite(_)
            | Message::CannotEnter(_)
            | Message::NotInBase(_)
            | Message::SmallStack => 3,
        }
    }
}

impl fmt::Display for Message {
    ghost use Rattle.awkbox.specs.Messages.{message_text};

    ghost output = { λ message. Some (message_text message) };

    fn fmt<W: fmt::Write>(&self, f: &mut fmt::Formatter<W>) -> fmt::Result {
        match self {
            Message::Fault(fault, Place { line, column }) => {
                let (code, text) = (fault.code(), fault.text());
                write!(f, "awkbox: {line}:{column} F{code} {text}")
            }
            Message::StepBound => {
                let text = Fault::StepBound.text();
                write!(f, "awkbox: F11 {text}")
            }
            Message::Policy(error) => write!(f, "awkbox: policy {error}"),
            Message::Script(error) => write!(f, "awkbox: script {error}"),
            Message::Unspelled(pair) => write!(f, "awkbox: assignment {pair} U1"),
            Message::Assignment(pair) => write!(f, "awkbox: assignment {pair} U3"),
            Message::CannotRead(name) => write!(f, "awkbox: cannot read \"{name}\""),
            Message::CannotWrite(name) => write!(f, "awkbox: cannot write \"{name}\""),
            Message::CannotReport(name) => write!(f, "awkbox: cannot write the report \"{name}\""),
            Message::CannotEnter(name) => write!(f, "awkbox: cannot enter \"{name}\""),
            Message::NotInBase(base) => {
                write!(f, "awkbox: not started in the policy's base \"{base}\"")
            }
            Message::SmallStack => f.write_str("awkbox: the stack is smaller than 8 MiB"),
            Message::OutOfMemory => {
                let text = Fault::Memory.text();
                write!(f, "awkbox: F13 {text}")
            }
        }
    }
}

impl OwnFile {
    ghost use Rattle.awkbox.specs.Messages.{own_word};

    /// The word for it.
    fn word(self) -> &'static str
        ensures { result.now ≡ own_word self }
    {
        match self {
            OwnFile::Log => "log",
            OwnFile::Audit => "audit",
            OwnFile::Report => "report",
            OwnFile::Policy => "policy",
            OwnFile::Script => "script",
        }
    }
}

impl Warning {
    ghost use Rattle.awkbox.specs.Messages.{Warns};

    /// That the rule of this number lets the script write to this file of a run, of this name.
    pub fn new(alloc: Global, rule: u32, file: OwnFile, name: &str) -> Result<Warning, Memory>
        ensures { IfOk result (Warns rule file name.now) }
    {
        Ok(Warning {
            rule,
            file,
            name: quoted_name(alloc, name)?,
        })
    }
}

impl fmt::Display for Warning {
    ghost use Rattle.awkbox.specs.Messages.{warning_text};

    ghost output = { λ warning. Some (warning_text warning) };

    fn fmt<W: fmt::Write>(&self, f: &mut fmt::Formatter<W>) -> fmt::Result {
        let (word, name, rule) = (self.file.word(), &self.name, self.rule);
        write!(
            f,
            "awkbox: warning: the policy lets a script write the {word} \"{name}\": rule {rule}"
        )
    }
}

impl Ending {
    ghost use Rattle.awkbox.specs.Endings.{ending_of, ending_status, EndsUnreported};

    /// How the program ends after this answer.
    pub fn of(answer: Result<Report, Refusal>) -> Ending
        ensures { result ≡ ending_of answer }
    {
        match answer {
            Ok(report) => match report.outcome {
                Outcome::Status(status) => Ending::Quiet(status),
                Outcome::Fault(fault, place) => Ending::Said(Message::Fault(fault, place)),
                Outcome::Cut => Ending::Said(Message::StepBound),
            },
            Err(refusal) => Ending::Said(Message::from(refusal)),
        }
    }

    /// The ending of a run whose report could not be written to the file of this name: one that says nothing says that,
    /// and any other stays.
    pub fn unreported(self, alloc: Global, name: &str) -> Ending
        ensures { EndsUnreported name.now self result }
    {
        match self {
            Ending::Quiet(_) => Ending::Said(Message::cannot_report(alloc, name)),
            Ending::Said(message) => Ending::Said(message),
        }
    }

    /// The exit status.
    pub fn status(&self) -> u8
        ensures { result ≡ ending_status self.now }
    {
        match self {
            Ending::Quiet(status) => *status,
            Ending::Said(message) => message.status(),
        }
    }
}
