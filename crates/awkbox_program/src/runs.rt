// The run of a script.
ghost use Rattle.awk_parse.specs.Scripts.{IsScript};
ghost use Rattle.std.specs.Prelude.{IfOk};

use crate::files::{OpenLog, ReadFile, look, read};
use crate::folders::{Folders, enter, resolved};
use crate::scripts::{ReadScript, line_of, look_parts, place_in, place_of, read_script};
use crate::setup::setup_of;
use crate::standard;
use awk_sources::{InSource, Lines};
use awkbox::{
    Account, Ending, Fault, Identity, LimitedLog, LogEnd, Memory, Message, Numbers, Octets,
    OsWorld, Outcome, OwnFile, Place, Policy, Prepared, Ran, Refusal, Report, Setup, Warning,
    may_be_log, may_start, prepare, writing_rule,
};
use awkbox_options::{Run, STANDARD_INPUT, ScriptPart};
use box_audit::watched::Watched;
use box_blocks::buffered::{Buffered, NotWritten};
use serde_json::{Value, json};
use std::alloc::Global;
use std::fs::File;
use std::io::Write;

// The texts that a run goes by, read before the folder is entered.
#[derive(Drop)]
struct Sources {
    policy: ReadFile,
    script: ReadScript,
}

/// Runs a script under a policy, by the words of the command line, and reports it where they ask for that. Gives the
/// exit status.
pub fn run_script(
    rt: &HostRuntime,
    run: &Run<'_>,
    operands: Vec<Octets>,
    lines: &mut Option<Lines>,
) -> Result<u8, Message> {
    let ending = match run.report {
        Some(name) => reported(rt, run, operands, name, lines)?,
        None => account_of(rt, run, operands, None, lines).ending(),
    };
    match ending {
        Ending::Quiet(status) => Ok(status),
        Ending::Said(message) => said(rt, run, message),
    }
}

// What is said where what was printed in blocks could not be written at the end.
const UNWRITTEN: &str = "awkbox: cannot write the standard output";

// A fault of writing that has no place in the script is that of the standard output: of what was held at the end, or of
// a print that no action asks for.
fn said(rt: &HostRuntime, run: &Run<'_>, message: Message) -> Result<u8, Message> {
    if !run.is_block_buffered {
        return Err(message);
    }
    match message {
        Message::Fault(Fault::Output, Place { line: 0, .. }) => {
            let _ = eprintln!(rt; "{UNWRITTEN}");
            Ok(message.status())
        }
        _ => Err(message),
    }
}

fn reported(
    rt: &HostRuntime,
    run: &Run<'_>,
    operands: Vec<Octets>,
    name: &str,
    lines: &mut Option<Lines>,
) -> Result<Ending, Message> {
    let mut report = open_report(rt, run, name, operands.as_slice())?;
    let account = account_of(rt, run, operands, Some(report.identity), lines);
    let is_written = write_report(rt, run, &mut report.file, &account, lines);
    let ending = account.ending();
    match is_written {
        true => Ok(ending),
        false => Ok(ending.unreported(rt.alloc(), name)),
    }
}

// The empty file that the run is reported in.
#[derive(Drop)]
struct ReportFile {
    identity: Identity,
    file: File,
}

// The file for the report, which is none of the files that the words name and the standard streams lead to. It is open
// before any of them is read, so that a refusal is reported too.
fn open_report(
    rt: &HostRuntime,
    run: &Run<'_>,
    name: &str,
    operands: &[Octets],
) -> Result<ReportFile, Message> {
    let opened = open_log(rt, name)?;
    let others = beside_report(rt, run, operands)?;
    let identity = opened.identity;
    let file = claim(rt, name, opened, others.as_slice(), false)?;
    Ok(ReportFile { identity, file })
}

fn beside_report(
    rt: &HostRuntime,
    run: &Run<'_>,
    operands: &[Octets],
) -> Result<Vec<Identity>, Memory> {
    let script = look_parts(rt, run.script.as_slice())?;
    let named = [
        look_source(rt, run.policy),
        look(rt, run.log),
        look_audit(rt, run),
    ];
    others(rt, script.as_slice(), named.as_slice(), operands)
}

// Whether the account stands whole in the file.
fn write_report(
    rt: &HostRuntime,
    run: &Run<'_>,
    report: &mut File,
    account: &Account,
    lines: &Option<Lines>,
) -> bool {
    match account_text(rt.alloc(), run.numbers, account, lines) {
        Ok(mut text) => {
            text.push('\n').is_ok() && report.write_all(text.as_str().as_bytes()).is_ok()
        }
        Err(_) => false,
    }
}

// The place of the script that an account is about.
fn account_place(account: &Account) -> Option<Place> {
    match account {
        Account::Ran { report, .. } => match report.outcome {
            Outcome::Fault(_, place) => Some(place),
            Outcome::Status(_) | Outcome::Cut => None,
        },
        Account::Refused(message) => place_of(message),
    }
}

fn numbers_word(numbers: Numbers) -> &'static str {
    match numbers {
        Numbers::Whole => "whole",
        Numbers::Double => "double",
    }
}

// The account of a script with these numbers as a JSON object.
fn account_text(
    alloc: Global,
    numbers: Numbers,
    account: &Account,
    lines: &Option<Lines>,
) -> Result<String, Memory> {
    let mut value = account.value(alloc)?;
    let word = Value::try_from_str(alloc, numbers_word(numbers))?;
    set_member(alloc, &mut value, "numbers", word)?;
    tell_source(alloc, &mut value, account, lines)?;
    value.to_string(alloc)
}

// Of a script of several parts an account has the one that it is about.
fn tell_source(
    alloc: Global,
    value: &mut Value,
    account: &Account,
    lines: &Option<Lines>,
) -> Result<(), Memory> {
    let Some(found) = place_in(lines, account_place(account)) else {
        return Ok(());
    };
    set_member(alloc, value, "source", source_value(alloc, &found)?)?;
    match account {
        Account::Ran { .. } => Ok(()),
        Account::Refused(message) => {
            set_member(alloc, value, "refusal", line_value(alloc, message, lines)?)
        }
    }
}

fn source_value(alloc: Global, found: &InSource<'_>) -> Result<Value, Memory> {
    json!(in alloc; {
        "column": found.place.column,
        "line": found.place.line,
        "name": found.name,
    })
}

fn line_value(alloc: Global, message: &Message, lines: &Option<Lines>) -> Result<Value, Memory> {
    let line = line_of(alloc, message, lines)?;
    Value::try_from_str(alloc, line.as_str())
}

fn set_member(alloc: Global, value: &mut Value, name: &str, member: Value) -> Result<(), Memory> {
    if let Value::Object(members) = value {
        members.insert(String::from_str(alloc, name)?, member)?;
    }
    Ok(())
}

fn account_of(
    rt: &HostRuntime,
    run: &Run<'_>,
    operands: Vec<Octets>,
    report: Option<Identity>,
    lines: &mut Option<Lines>,
) -> Account {
    match run_set_up(rt, run, operands, report, lines) {
        Ok(account) => account,
        Err(message) => Account::Refused(message),
    }
}

// Each of the functions from here to `run_logged` makes a large value and lends it to the next one, or hands it on, so
// that it is let go in one place.
fn run_set_up(
    rt: &HostRuntime,
    run: &Run<'_>,
    operands: Vec<Octets>,
    report: Option<Identity>,
    lines: &mut Option<Lines>,
) -> Result<Account, Message> {
    let setup = setup_of(rt, run, operands)?;
    run_read(rt, run, &setup, report, lines)
}

fn run_read(
    rt: &HostRuntime,
    run: &Run<'_>,
    setup: &Setup,
    report: Option<Identity>,
    lines: &mut Option<Lines>,
) -> Result<Account, Message> {
    let sources = read_sources(rt, run, lines)?;
    run_sources(rt, run, setup, &sources, report)
}

fn read_sources(
    rt: &HostRuntime,
    run: &Run<'_>,
    lines: &mut Option<Lines>,
) -> Result<Sources, Message> {
    let policy = read_source(rt, run.policy)?;
    let script = read_script(rt, run.numbers, run.script.as_slice(), lines)?;
    Ok(Sources { policy, script })
}

// The log and the audit are open before the folder is entered, and emptied after that.
fn run_sources(
    rt: &HostRuntime,
    run: &Run<'_>,
    setup: &Setup,
    sources: &Sources,
    report: Option<Identity>,
) -> Result<Account, Message> {
    let opened = open_logs(rt, run)?;
    let folders = enter(rt, run.folder, run.base)?;
    let logs = claim_beside(rt, run, setup, sources, report, opened)?;
    run_logged(rt, run, setup, sources, &folders, logs)
}

// The log of denials, and the one of what is allowed where there is to be one.
#[derive(Drop)]
struct OpenLogs {
    denials: OpenLog,
    audit: Option<OpenLog>,
}

type Log = LimitedLog<File>;

#[derive(Drop)]
struct Logs {
    denials: Log,
    audit: Option<Log>,
}

fn open_logs(rt: &HostRuntime, run: &Run<'_>) -> Result<OpenLogs, Message> {
    let denials = open_log(rt, run.log)?;
    let audit = match run.audit {
        Some(name) => Some(open_log(rt, name)?),
        None => None,
    };
    Ok(OpenLogs { denials, audit })
}

fn open_log(rt: &HostRuntime, name: &str) -> Result<OpenLog, Message> {
    match OpenLog::open(rt, name) {
        Ok(opened) => Ok(opened),
        Err(_) => Err(Message::cannot_write(rt.alloc(), name)),
    }
}

// Neither log may be one of the files that the run is given.
fn claim_beside(
    rt: &HostRuntime,
    run: &Run<'_>,
    setup: &Setup,
    sources: &Sources,
    report: Option<Identity>,
    opened: OpenLogs,
) -> Result<Logs, Message> {
    let named = [sources.policy.identity, report];
    let script = sources.script.identities.as_slice();
    let others = others(rt, script, named.as_slice(), setup.operands())?;
    claim_logs(rt, run, opened, others.as_slice())
}

// Nor may they be one file.
fn claim_logs(
    rt: &HostRuntime,
    run: &Run<'_>,
    opened: OpenLogs,
    others: &[Identity],
) -> Result<Logs, Message> {
    if !are_apart(&opened) {
        return Err(Message::cannot_write(rt.alloc(), run.log));
    }
    let OpenLogs { denials, audit } = opened;
    let log = claim(rt, run.log, denials, others, run.adds_to_log)?;
    let audit = claim_audit(rt, run, audit, others)?;
    Ok(Logs {
        denials: LimitedLog::new(log, run.log_limit),
        audit,
    })
}

fn are_apart(opened: &OpenLogs) -> bool {
    let log = &opened.denials;
    match &opened.audit {
        Some(audit) => may_be_log(log.identity, log.is_regular, [audit.identity].as_slice()),
        None => true,
    }
}

fn claim_audit(
    rt: &HostRuntime,
    run: &Run<'_>,
    audit: Option<OpenLog>,
    others: &[Identity],
) -> Result<Option<Log>, Message> {
    let Some(opened) = audit else {
        return Ok(None);
    };
    // it is open under the name that the words give
    let name = run.audit.unwrap_or("");
    let file = claim(rt, name, opened, others, false)?;
    Ok(Some(LimitedLog::new(file, run.log_limit)))
}

fn run_logged(
    rt: &HostRuntime,
    run: &Run<'_>,
    setup: &Setup,
    sources: &Sources,
    folders: &Folders,
    logs: Logs,
) -> Result<Account, Message> {
    let host = rt.clone()?;
    match begun(rt, run, setup, sources, folders) {
        Ok(prepared) => Ok(driven(rt, run, setup, prepared, host, logs)),
        Err(message) => Err(message),
    }
}

// What the run goes by, where it may begin.
fn begun(
    rt: &HostRuntime,
    run: &Run<'_>,
    setup: &Setup,
    sources: &Sources,
    folders: &Folders,
) -> Result<Prepared, Message>
    ensures { IfOk result (λ prepared. IsScript prepared.script) }
{
    match prepared_under(rt.alloc(), sources, setup, folders.base()) {
        Ok(prepared) => match begin(rt, run, prepared.policy(), folders) {
            Ok(()) => Ok(prepared),
            Err(message) => {
                prepared.release();
                Err(message)
            }
        },
        Err(refusal) => Err(Message::from(refusal)),
    }
}

// What the texts say, under this base where one is given.
fn prepared_under(
    alloc: Global,
    sources: &Sources,
    setup: &Setup,
    base: Option<&[u8]>,
) -> Result<Prepared, Refusal>
    ensures { IfOk result (λ prepared. IsScript prepared.script) }
{
    let policy = sources.policy.bytes.as_slice();
    let script = sources.script.bytes.as_slice();
    match base {
        Some(base) => prepare(alloc, policy, script, setup)?.with_base(alloc, base),
        None => prepare(alloc, policy, script, setup),
    }
}

// The run itself, whose prints are written at once or in blocks.
fn driven(
    rt: &HostRuntime,
    run: &Run<'_>,
    setup: &Setup,
    prepared: Prepared,
    host: HostRuntime,
    logs: Logs,
) -> Account
    requires { IsScript prepared.script }
{
    let Logs { denials, audit } = logs;
    let world = OsWorld::new(host);
    if run.is_block_buffered {
        let world = Watched::new(rt.alloc(), Buffered::new(rt.alloc(), world), audit);
        ended_in_blocks(
            rt,
            prepared.drive(rt.alloc(), setup, run.steps, world, denials),
        )
    } else {
        let world = Watched::new(rt.alloc(), world, audit);
        ended(
            rt,
            prepared.drive(rt.alloc(), setup, run.steps, world, denials),
        )
    }
}

fn ended(rt: &HostRuntime, ran: Ran<Watched<OsWorld, Log>, Log>) -> Account {
    tell_of_audit(rt, ran.world.log_end());
    Account::Ran {
        report: ran.report,
        denials: ran.denials,
        log_end: ran.log_end,
    }
}

fn ended_in_blocks(rt: &HostRuntime, ran: Ran<Watched<Buffered<OsWorld>, Log>, Log>) -> Account {
    tell_of_audit(rt, ran.world.log_end());
    let (world, _) = ran.world.into_parts();
    let (written, _) = world.finish();
    Account::Ran {
        report: report_of(rt, ran.report, written),
        denials: ran.denials,
        log_end: ran.log_end,
    }
}

// Which log it was that ended a run by F12, where it was not that of denials.
fn tell_of_audit(rt: &HostRuntime, audit_end: LogEnd) {
    if audit_end != LogEnd::Whole {
        let _ = eprintln!(rt; "awkbox: cannot write the audit");
    }
}

// The report of a run that printed in blocks. Where not all could be written, that is the fault of a run that came to
// its end, and else it is told beside what ended it.
fn report_of(rt: &HostRuntime, report: Report, written: Result<(), NotWritten>) -> Report {
    if written.is_ok() {
        return report;
    }
    match report.outcome {
        Outcome::Status(_) => Report {
            outcome: Outcome::Fault(Fault::Output, Place { line: 0, column: 0 }),
            used: report.used,
        },
        Outcome::Fault(_, _) | Outcome::Cut => {
            let _ = eprintln!(rt; "{UNWRITTEN}");
            report
        }
    }
}

/// Reads a policy or a script.
pub fn read_source(rt: &HostRuntime, name: &str) -> Result<ReadFile, Message> {
    match read(rt, name) {
        Ok(source) => Ok(source),
        Err(_) => Err(Message::cannot_read(rt.alloc(), name)),
    }
}

fn look_audit(rt: &HostRuntime, run: &Run<'_>) -> Option<Identity> {
    look(rt, run.audit?)
}

// Which file a policy or a script of this name is; the standard input is looked at as a stream.
fn look_source(rt: &HostRuntime, name: &str) -> Option<Identity> {
    match name {
        STANDARD_INPUT => None,
        _ => look(rt, name),
    }
}

// The files that are not to be the log, the audit or the report: these, those that the standard streams lead to and
// those that the operands name. A word that may set a variable counts as the name of a file too.
fn others(
    rt: &HostRuntime,
    script: &[Identity],
    named: &[Option<Identity>],
    operands: &[Octets],
) -> Result<Vec<Identity>, Memory> {
    let mut others = Vec::from_slice(rt.alloc(), script)?;
    for file in named {
        add(&mut others, *file)?;
    }
    for stream in standard::STREAMS.as_slice() {
        add(&mut others, look(rt, stream))?;
    }
    for operand in operands {
        add(&mut others, look_operand(rt, operand.bytes()))?;
    }
    Ok(others)
}

fn add(files: &mut Vec<Identity>, file: Option<Identity>) -> Result<(), Memory> {
    match file {
        Some(file) => Ok(files.push(file)?),
        None => Ok(()),
    }
}

// One that is no text is denied, and so never opened.
fn look_operand(rt: &HostRuntime, operand: &[u8]) -> Option<Identity> {
    match std::str::from_utf8(operand) {
        Ok(name) => look(rt, name),
        Err(_) => None,
    }
}

// The file of this name for the lines of a log or a report, where it is none of these. One that is refused stays as it
// was.
fn claim(
    rt: &HostRuntime,
    name: &str,
    opened: OpenLog,
    others: &[Identity],
    is_kept: bool,
) -> Result<File, Message> {
    if may_be_log(opened.identity, opened.is_regular, others) {
        if let Ok(file) = opened.begin(is_kept) {
            return Ok(file);
        }
    }
    Err(Message::cannot_write(rt.alloc(), name))
}

// Refuses a start in another folder than the policy's base, where the names that rules allow are not those that the run
// would open, and warns where a rule lets the script write to the run's own files.
fn begin(
    rt: &HostRuntime,
    run: &Run<'_>,
    policy: &Policy,
    folders: &Folders,
) -> Result<(), Message> {
    // it was read as text
    let base = std::str::from_utf8(policy.base()).unwrap_or("");
    if !may_start(policy, look(rt, "."), look(rt, base)) {
        return Err(Message::not_in_base(rt.alloc(), base));
    }
    Ok(warn_of_all(rt, run, policy, folders)?)
}

fn warn_of_all(
    rt: &HostRuntime,
    run: &Run<'_>,
    policy: &Policy,
    folders: &Folders,
) -> Result<(), Memory> {
    warn(rt, policy, folders, OwnFile::Log, run.log)?;
    if let Some(audit) = run.audit {
        warn(rt, policy, folders, OwnFile::Audit, audit)?;
    }
    if let Some(report) = run.report {
        warn(rt, policy, folders, OwnFile::Report, report)?;
    }
    if run.policy != STANDARD_INPUT {
        warn(rt, policy, folders, OwnFile::Policy, run.policy)?;
    }
    for part in run.script.as_slice() {
        if let ScriptPart::File(name) = part {
            if *name != STANDARD_INPUT {
                warn(rt, policy, folders, OwnFile::Script, name)?;
            }
        }
    }
    Ok(())
}

// Tells of the rule that lets the script write to this file, by its name as it was given or by that which is left of it
// once links are followed.
fn warn(
    rt: &HostRuntime,
    policy: &Policy,
    folders: &Folders,
    file: OwnFile,
    name: &str,
) -> Result<(), Memory> {
    let absolute = folders.absolute(rt, name)?;
    let followed = resolved(rt, absolute.as_str())?;
    let here = folders.here().as_bytes();
    let rule = match writing_rule(policy, here, absolute.as_str().as_bytes()) {
        Some(rule) => Some(rule),
        None => writing_rule(policy, here, followed.as_str().as_bytes()),
    };
    if let Some(rule) = rule {
        let warning = Warning::new(rt.alloc(), rule, file, name)?;
        let _ = eprintln!(rt; "{warning}");
    }
    Ok(())
}
