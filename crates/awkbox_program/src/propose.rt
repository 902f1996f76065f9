// A policy proposed.
use crate::folders::base_name;
use crate::runs::read_source;
use crate::scripts::read_script;
use awk_sources::Lines;
use awkbox::{Message, Numbers, sites_of};
use awkbox_options::Propose;
use box_advice::{Basis, LogError, Origin, ProposalError, Wish, propose, read_log};
use std::alloc::{AllocError, Global};
use std::fmt::Display;
use std::path::PathBuf;

/// The exit status where nothing is proposed.
const REFUSED: u8 = 3;

/// Prints a policy that allows what the script may ask for and what the log tells of. That it cannot be written is
/// passed over.
pub fn propose_policy(
    rt: &HostRuntime,
    asked: &Propose<'_>,
    lines: &mut Option<Lines>,
) -> Result<u8, Message> {
    match proposed(rt, asked, lines) {
        Ok(text) => {
            let _ = rt.stdout().write_all(text.as_slice());
            Ok(0)
        }
        Err(NotProposed::Message(message)) => Err(message),
        Err(NotProposed::Told) => Ok(REFUSED),
    }
}

// Why nothing is proposed.
#[derive(Drop)]
enum NotProposed {
    Message(Message),
    /// It was told, by a message that is no run's.
    Told,
}

impl From<Message> for NotProposed {
    fn from(message: Message) -> NotProposed {
        NotProposed::Message(message)
    }
}

impl From<AllocError> for NotProposed {
    fn from(_error: AllocError) -> NotProposed {
        NotProposed::Message(Message::OutOfMemory)
    }
}

fn not_read(rt: &HostRuntime, error: LogError) -> NotProposed {
    match error {
        LogError::Memory => NotProposed::Message(Message::OutOfMemory),
        error => tell(rt, &error),
    }
}

fn not_proposed(rt: &HostRuntime, error: ProposalError) -> NotProposed {
    match error {
        ProposalError::Memory => NotProposed::Message(Message::OutOfMemory),
        ProposalError::Policy(error) => NotProposed::Message(Message::Policy(error)),
        error => tell(rt, &error),
    }
}

fn tell<E: Display>(rt: &HostRuntime, error: &E) -> NotProposed {
    let _ = eprintln!(rt; "awkbox: {error}");
    NotProposed::Told
}

// The text of the policy, behind the rules of the one that is named or under the base.
fn proposed(
    rt: &HostRuntime,
    asked: &Propose<'_>,
    lines: &mut Option<Lines>,
) -> Result<Vec<u8>, NotProposed> {
    let wishes = wishes_of(rt, asked, lines)?;
    let base = base_name(rt, asked.base)?;
    match asked.policy {
        Some(policy) => behind_file(rt, policy, base_text(&base), wishes.as_slice()),
        None => under_base(rt, base_text(&base), wishes.as_slice()),
    }
}

fn under_base(
    rt: &HostRuntime,
    base: Option<&str>,
    wishes: &[Wish],
) -> Result<Vec<u8>, NotProposed> {
    match propose(rt.alloc(), Basis::Base(base.unwrap_or("")), wishes) {
        Ok(text) => Ok(text),
        Err(error) => Err(not_proposed(rt, error)),
    }
}

fn base_text(base: &Option<PathBuf>) -> Option<&str> {
    match base {
        Some(base) => Some(base.as_str()),
        None => None,
    }
}

fn behind_file(
    rt: &HostRuntime,
    policy: &str,
    base: Option<&str>,
    wishes: &[Wish],
) -> Result<Vec<u8>, NotProposed> {
    let policy = read_source(rt, policy)?;
    match behind(rt.alloc(), policy.bytes.as_slice(), base, wishes) {
        Ok(text) => Ok(text),
        Err(error) => Err(not_proposed(rt, error)),
    }
}

// The start holds text and base as if they were lent equally long.
fn behind<'a>(
    alloc: Global,
    text: &'a [u8],
    base: Option<&'a str>,
    wishes: &[Wish],
) -> Result<Vec<u8>, ProposalError> {
    propose(alloc, Basis::Policy { text, base }, wishes)
}

fn wishes_of(
    rt: &HostRuntime,
    asked: &Propose<'_>,
    lines: &mut Option<Lines>,
) -> Result<Vec<Wish>, NotProposed> {
    let mut wishes = Vec::new(rt.alloc());
    if !asked.script.is_empty() {
        add_script(rt, asked, &mut wishes, lines)?;
    }
    if let Some(log) = asked.log {
        add_log(rt, log, &mut wishes)?;
    }
    Ok(wishes)
}

fn add_script(
    rt: &HostRuntime,
    asked: &Propose<'_>,
    wishes: &mut Vec<Wish>,
    lines: &mut Option<Lines>,
) -> Result<(), NotProposed> {
    let script = read_script(rt, asked.numbers, asked.script.as_slice(), lines)?;
    Ok(add_sites(rt.alloc(), asked.numbers, script.bytes.as_slice(), wishes)?)
}

fn add_sites(
    alloc: Global,
    numbers: Numbers,
    script: &[u8],
    wishes: &mut Vec<Wish>,
) -> Result<(), Message> {
    for site in sites_of(alloc, numbers, script)? {
        let wish = Wish {
            kind: site.kind,
            text: site.text,
            may_be_given: false,
            origin: Origin::Script(site.place),
        };
        if wishes.push(wish).is_err() {
            return Err(Message::OutOfMemory);
        }
    }
    Ok(())
}

fn add_log(rt: &HostRuntime, log: &str, wishes: &mut Vec<Wish>) -> Result<(), NotProposed> {
    let log = read_source(rt, log)?;
    match add_denials(rt.alloc(), log.bytes.as_slice(), wishes) {
        Ok(()) => Ok(()),
        Err(error) => Err(not_read(rt, error)),
    }
}

fn add_denials(alloc: Global, log: &[u8], wishes: &mut Vec<Wish>) -> Result<(), LogError> {
    for wish in read_log(alloc, log)? {
        wishes.push(wish)?;
    }
    Ok(())
}
