// What the words ask for.
use awk_numbers::number::Numbers;
use box_advice::{Kind, kind_named};
use clap::error::ErrorKind;
use clap::{Arg, ArgAction, ArgMatches, Command, Error};
use std::alloc::{AllocError, Global};

/// A part of a script, as the words give it. Several are one script, in order, a newline between one and the next.
#[derive(Clone, Copy, Drop)]
pub enum ScriptPart<'a> {
    /// The name of a file, or [`STANDARD_INPUT`].
    File(&'a str),
    /// The text itself.
    Text(&'a str),
}

/// What `awkbox run` is asked for, operands aside.
#[derive(Drop)]
pub struct Run<'a> {
    /// The name of the policy's file, or [`STANDARD_INPUT`], which not both of policy and script are.
    pub policy: &'a str,
    /// The folder that relative names stand under, in place of the policy's own; where it is relative itself, under the
    /// folder that the run is in.
    pub base: Option<&'a str>,
    /// The name of the file for denials, which may be of any spelling.
    pub log: &'a str,
    /// Whether what the log holds is kept.
    pub adds_to_log: bool,
    /// How many bytes the run may add to the log, and to the audit; `u64::MAX` where the words set no limit.
    pub log_limit: u64,
    /// The name of the file for what was passed on.
    pub audit: Option<&'a str>,
    /// The name of the file that the run is reported in.
    pub report: Option<&'a str>,
    /// The parts of the script, one at least.
    pub script: Vec<ScriptPart<'a>>,
    /// Which numbers the script has.
    pub numbers: Numbers,
    /// The folder that is entered before the run.
    pub folder: Option<&'a str>,
    /// How many steps the run may take, up to 1,000,000,000,000.
    pub steps: u64,
    /// What `srand ( )` seeds by, where the words say it.
    pub seed: Option<u64>,
    /// The text that FS is set to.
    pub separator: Option<&'a str>,
    /// Whether what the script prints is written in blocks.
    pub is_block_buffered: bool,
    /// The words of `-v`, in order; whether they are `NAME=TEXT` is not looked at.
    pub assigns: Vec<&'a str>,
}

/// What `awkbox why` is asked for: what the policy of this file decides of the text, and whether that counts as an
/// operand.
#[derive(Drop)]
pub struct Why<'a> {
    /// The name of the policy's file, or [`STANDARD_INPUT`].
    pub policy: &'a str,
    /// The folder that relative names stand under, in place of the policy's own.
    pub base: Option<&'a str>,
    /// What is asked for.
    pub kind: Kind,
    /// The path, the command or the name that is asked for.
    pub text: &'a str,
    /// Whether it is an operand that the run was started with.
    pub given: bool,
}

/// What `awkbox check` is asked for: what this policy says of this script, of which at most one is
/// [`STANDARD_INPUT`].
#[derive(Drop)]
pub struct Check<'a> {
    /// The name of the policy's file.
    pub policy: &'a str,
    /// The folder that relative names stand under, in place of the policy's own.
    pub base: Option<&'a str>,
    /// The parts of the script, one at least.
    pub script: Vec<ScriptPart<'a>>,
    /// Which numbers the script has.
    pub numbers: Numbers,
    /// Whether it is enough that the policy denies nothing that is known before a run.
    pub allows_open: bool,
    /// Whether a JSON object is to tell of each site.
    pub is_json: bool,
}

/// What `awkbox lint` is asked for: what is wrong with this policy, or what of this script other awks do otherwise. One
/// of the two is there, and at most one file is [`STANDARD_INPUT`].
#[derive(Drop)]
pub struct Lint<'a> {
    /// The name of the policy's file.
    pub policy: Option<&'a str>,
    /// The folder that relative names stand under, in place of the policy's own.
    pub base: Option<&'a str>,
    /// The parts of the script.
    pub script: Vec<ScriptPart<'a>>,
    /// Which numbers the script has.
    pub numbers: Numbers,
    /// Whether whatever is told makes the exit status 1.
    pub is_strict: bool,
}

/// What `awkbox propose` is asked for: a policy that allows what this script may ask for and what this log tells of,
/// under this base, or behind the rules of the policy of this file. One of base and policy is there, and at most one
/// of the files is [`STANDARD_INPUT`].
#[derive(Drop)]
pub struct Propose<'a> {
    /// The folder that relative names stand under, in place of the policy's own where there is one.
    pub base: Option<&'a str>,
    /// The name of the policy's file.
    pub policy: Option<&'a str>,
    /// The parts of the script.
    pub script: Vec<ScriptPart<'a>>,
    /// Which numbers the script has.
    pub numbers: Numbers,
    /// The name of the file of a log of denials.
    pub log: Option<&'a str>,
}

/// What `awkbox list` is asked for.
#[derive(Drop)]
pub struct List<'a> {
    /// The parts of the script, one at least.
    pub script: Vec<ScriptPart<'a>>,
    /// Which numbers the script has.
    pub numbers: Numbers,
    /// Whether it is to tell which lines of the script are whose, in place of where a run may ask.
    pub tells_files: bool,
    /// Whether a JSON object is to tell of each site.
    pub is_json: bool,
}

/// What the program is asked for. Of the files of policy and script at most one is [`STANDARD_INPUT`].
#[derive(Drop)]
pub enum Asked<'a> {
    /// To run a script under a policy.
    Run(Run<'a>),
    /// To list where a run of this script may ask, in lines or as JSON objects, or which lines are whose.
    List(List<'a>),
    /// To tell whether this policy denies what this script may ask for.
    Check(Check<'a>),
    /// To tell which rules of a policy speak of a request.
    Why(Why<'a>),
    /// To tell what is wrong with a policy, or what its rules or a script may not mean.
    Lint(Lint<'a>),
    /// To write a policy that allows more.
    Propose(Propose<'a>),
}

/// The name that users know the program by, whatever the file is called that runs.
pub const NAME: &str = "awkbox";

/// The number of this version; CHANGELOG.md says what each has.
const VERSION: &str = "0.9.0";

/// The name of a policy or a script that is read from the standard input.
pub const STANDARD_INPUT: &str = "-";

/// The most steps that a run may take.
const MOST_STEPS: u64 = 1_000_000_000_000;

// The words of the commands, options and statuses stand in docs/options.txt too, for the manual page
// and the completions; scripts/end-to-end.sh compares them.
const RUN_STATUSES: &str = "\
Exit status:
  The script's own, where it came to its end; else
  2  A fault ended the run, or the log, the audit or the report could not be written
  3  Nothing was run: the policy, the script or the command line was refused, or a file could not be read or made
  4  The step bound ended the run";

const TOLD_STATUSES: &str = "\
Exit status:
  0  The answer is printed; a check found the script clean
  1  A check found the script refused, or open without --allow-open; a lint with --strict told of anything
  2  There was no memory for the answer
  3  The policy, the script or the command line was refused, or a file could not be read";

// An option that has a value, which may begin with `-`.
fn option<'a>(alloc: Global, id: &'a str, value: &'a str, help: &'a str) -> Arg<'a> {
    Arg::new(alloc, id)
        .action(ArgAction::Set)
        .allow_hyphen_values(true)
        .value_name(value)
        .help(help)
}

// The same, by its long name.
fn long_option<'a>(alloc: Global, name: &'a str, value: &'a str, help: &'a str) -> Arg<'a> {
    option(alloc, name, value, help).long(name)
}

// An option without a value.
fn flag<'a>(alloc: Global, name: &'a str, help: &'a str) -> Arg<'a> {
    Arg::new(alloc, name)
        .action(ArgAction::SetTrue)
        .long(name)
        .help(help)
}

fn policy<'a>(alloc: Global) -> Arg<'a> {
    let help = "The policy that decides what the script may do";
    long_option(alloc, "policy", "FILE", help).required(true)
}

fn log<'a>(alloc: Global) -> Arg<'a> {
    let help = "Where each denial is told; made or emptied, and then added to at its end";
    long_option(alloc, "log", "FILE", help).required(true)
}

fn log_append<'a>(alloc: Global) -> Arg<'a> {
    flag(
        alloc,
        "log-append",
        "The log is not emptied before the run, so that runs may share one",
    )
}

fn log_limit<'a>(alloc: Global) -> Arg<'a> {
    let help = "How many bytes the run may add to the log";
    long_option(alloc, "log-limit", "BYTES", help)
}

fn audit<'a>(alloc: Global) -> Arg<'a> {
    let help = "Where each allowed request is told, and whether it failed; made or emptied";
    long_option(alloc, "audit", "FILE", help)
}

fn report<'a>(alloc: Global) -> Arg<'a> {
    let help = "Where the end of the run is told as a JSON object; made or emptied";
    long_option(alloc, "report", "FILE", help)
}

fn folder<'a>(alloc: Global) -> Arg<'a> {
    let help = "The folder that is entered before the run, once policy, script and log are open";
    option(alloc, "folder", "DIR", help).short('C')
}

fn script<'a>(alloc: Global) -> Arg<'a> {
    let help = "The awk script; several, and texts of -e, are one, in order";
    option(alloc, "script", "FILE", help)
        .short('f')
        .action(ArgAction::Append)
}

fn needed_script<'a>(alloc: Global) -> Result<Arg<'a>, AllocError> {
    script(alloc).required_unless_present("source")
}

fn source<'a>(alloc: Global) -> Arg<'a> {
    let help = "A text of the awk script, in the place of a file";
    option(alloc, "source", "TEXT", help)
        .short('e')
        .action(ArgAction::Append)
}

// The words are read before these, and the file is told as that of `-f`: this one is for the help.
fn last_script<'a>(alloc: Global) -> Arg<'a> {
    let help = "The awk script, where all words behind it are operands";
    option(alloc, "last-script", "FILE", help).short('E')
}

// The values of `--numbers`.
const NUMBERS: [&str; 2] = ["whole", "double"];

fn numbers<'a>(alloc: Global) -> Arg<'a> {
    let help = "Which numbers the script has: whole ones of 64 bits, or doubles of IEEE 754";
    long_option(alloc, "numbers", "PROFILE", help)
        .value_parser(NUMBERS.as_slice())
        .default_value("whole")
}

fn files<'a>(alloc: Global) -> Arg<'a> {
    flag(
        alloc,
        "files",
        "Tells in place of that which lines of the script are whose",
    )
}

fn allow_open<'a>(alloc: Global) -> Arg<'a> {
    flag(alloc, "allow-open", "A script that is open ends with 0 too")
}

fn json<'a>(alloc: Global) -> Arg<'a> {
    flag(alloc, "json", "A JSON object is printed for each site")
}

fn strict<'a>(alloc: Global) -> Arg<'a> {
    flag(
        alloc,
        "strict",
        "A line that tells of anything makes the exit status 1",
    )
}

fn kind<'a>(alloc: Global) -> Arg<'a> {
    Arg::new(alloc, "kind")
        .required(true)
        .value_name("KIND")
        .help("What is asked for: read, write, append, run, env or assign")
}

fn text<'a>(alloc: Global) -> Arg<'a> {
    Arg::new(alloc, "text")
        .required(true)
        .allow_hyphen_values(true)
        .value_name("TEXT")
        .help("The path, the command or the name that is asked for")
}

fn given<'a>(alloc: Global) -> Arg<'a> {
    flag(
        alloc,
        "given",
        "It is an operand that the run was started with",
    )
}

fn base<'a>(alloc: Global) -> Arg<'a> {
    let help = "The folder that relative names stand under, in place of the policy's own";
    long_option(alloc, "base", "DIR", help)
}

fn denials<'a>(alloc: Global) -> Arg<'a> {
    let help = "A log of denials, which are to be allowed";
    long_option(alloc, "log", "FILE", help)
}

fn steps<'a>(alloc: Global) -> Arg<'a> {
    let help = "How many steps the run may take, up to 1000000000000";
    long_option(alloc, "steps", "N", help).default_value("10000000")
}

fn block_buffered<'a>(alloc: Global) -> Arg<'a> {
    flag(
        alloc,
        "block-buffered",
        "What the script prints is written in blocks of up to 65536 bytes",
    )
}

fn seed<'a>(alloc: Global) -> Arg<'a> {
    let help = "The number that srand ( ) seeds by, in place of the time";
    long_option(alloc, "seed", "N", help)
}

fn separator<'a>(alloc: Global) -> Arg<'a> {
    let help = "The text that FS is set to before BEGIN";
    option(alloc, "separator", "FS", help).short('F')
}

fn assigns<'a>(alloc: Global) -> Arg<'a> {
    let help = "A variable that is set before BEGIN; may be given more than once";
    option(alloc, "assigns", "NAME=TEXT", help)
        .short('v')
        .action(ArgAction::Append)
}

// What stands behind `--`; the words there are taken off before the others are read.
fn operands<'a>(alloc: Global) -> Arg<'a> {
    Arg::new(alloc, "operands")
        .last(true)
        .num_args(0..)
        .value_name("OPERAND")
        .help("A file that is read, - for the standard input, or NAME=TEXT")
}

// Who has a command hands it on before the next step may fail, so that it is not let go at each of them.
fn with_script<'a>(command: Command<'a>, alloc: Global) -> Result<Command<'a>, AllocError> {
    command
        .arg(numbers(alloc))?
        .arg(needed_script(alloc)?)?
        .arg(source(alloc))
}

fn run_command<'a>(alloc: Global) -> Result<Command<'a>, AllocError> {
    let command = Command::new(alloc, "run")
        .about("Runs an awk script under a policy")
        .after_help(RUN_STATUSES)
        .arg(policy(alloc))?
        .arg(base(alloc))?
        .arg(log(alloc))?
        .arg(log_append(alloc))?
        .arg(log_limit(alloc))?
        .arg(audit(alloc))?
        .arg(report(alloc))?
        .arg(folder(alloc))?
        .arg(steps(alloc))?
        .arg(seed(alloc))?
        .arg(block_buffered(alloc))?
        .arg(separator(alloc))?
        .arg(assigns(alloc))?;
    with_script(command, alloc)?
        .arg(last_script(alloc))?
        .arg(operands(alloc))
}

fn list_command<'a>(alloc: Global) -> Result<Command<'a>, AllocError> {
    let command = Command::new(alloc, "list")
        .about("Lists where a run of a script may ask for a file, a command or the environment")
        .after_help(TOLD_STATUSES)
        .arg(files(alloc))?
        .arg(json(alloc))?;
    with_script(command, alloc)
}

fn check_command<'a>(alloc: Global) -> Result<Command<'a>, AllocError> {
    let command = Command::new(alloc, "check")
        .about("Tells before any run whether a policy denies what a script may ask for")
        .after_help(TOLD_STATUSES)
        .arg(policy(alloc))?
        .arg(base(alloc))?
        .arg(allow_open(alloc))?
        .arg(json(alloc))?;
    with_script(command, alloc)
}

fn why_command<'a>(alloc: Global) -> Result<Command<'a>, AllocError> {
    Command::new(alloc, "why")
        .about("Tells which rules of a policy speak of a request, and which one decides")
        .after_help(TOLD_STATUSES)
        .arg(policy(alloc))?
        .arg(base(alloc))?
        .arg(given(alloc))?
        .arg(kind(alloc))?
        .arg(text(alloc))
}

fn lint_command<'a>(alloc: Global) -> Result<Command<'a>, AllocError> {
    Command::new(alloc, "lint")
        .about("Tells what is wrong with a policy, and what its rules or a script may not mean")
        .after_help(TOLD_STATUSES)
        .arg(policy(alloc).required(false))?
        .arg(base(alloc))?
        .arg(strict(alloc))?
        .arg(numbers(alloc))?
        .arg(script(alloc))?
        .arg(source(alloc))
}

fn propose_command<'a>(alloc: Global) -> Result<Command<'a>, AllocError> {
    Command::new(alloc, "propose")
        .about("Writes a policy that allows what a script may ask for, or what a log tells of")
        .after_help(TOLD_STATUSES)
        .arg(base(alloc))?
        .arg(policy(alloc).required(false))?
        .arg(denials(alloc))?
        .arg(numbers(alloc))?
        .arg(script(alloc))?
        .arg(source(alloc))
}

fn with<'a>(
    command: Command<'a>,
    inner: Result<Command<'a>, AllocError>,
) -> Result<Command<'a>, AllocError> {
    command.subcommand(inner?)
}

fn bare_command<'a>(alloc: Global) -> Result<Command<'a>, AllocError> {
    Ok(
        Command::new(alloc, NAME)
            .bin_name(NAME)?
            .about("Runs awk scripts in a sandbox, under a written policy")
            .version(VERSION)
            .subcommand_required(true),
    )
}

fn command<'a>(alloc: Global) -> Result<Command<'a>, AllocError> {
    let command = bare_command(alloc)?;
    let command = with(command, run_command(alloc))?;
    let command = with(command, list_command(alloc))?;
    let command = with(command, check_command(alloc))?;
    let command = with(command, why_command(alloc))?;
    let command = with(command, lint_command(alloc))?;
    with(command, propose_command(alloc))
}

// Digits alone, where `parse` would take a sign too.
fn count_of(text: &str, most: u64) -> Option<u64> {
    if !text.as_bytes().iter().all(|b| b.is_ascii_digit()) {
        return None;
    }
    match text.parse::<u64>() {
        Ok(count) if count <= most => Some(count),
        _ => None,
    }
}

fn steps_of(alloc: Global, matches: &ArgMatches<'_>) -> Result<u64, Error> {
    match count_of(value_of(alloc, matches, "steps")?, MOST_STEPS) {
        Some(steps) => Ok(steps),
        None => Err(run_fault(
            alloc,
            "the value of --steps is not a whole number from 0 to 1000000000000",
        )),
    }
}

// The value of an option of `run` that is any number of 64 bits; where it is not, this is what is said.
fn long_count_of(
    alloc: Global,
    matches: &ArgMatches<'_>,
    id: &str,
    fault: &'static str,
) -> Result<Option<u64>, Error> {
    let Some(text) = matches.get_str(id) else {
        return Ok(None);
    };
    match count_of(text, u64::MAX) {
        Some(count) => Ok(Some(count)),
        None => Err(run_fault(alloc, fault)),
    }
}

fn log_limit_of(alloc: Global, matches: &ArgMatches<'_>) -> Result<u64, Error> {
    let fault = "the value of --log-limit is not a whole number from 0 to 18446744073709551615";
    Ok(long_count_of(alloc, matches, "log-limit", fault)?.unwrap_or(u64::MAX))
}

fn seed_of(alloc: Global, matches: &ArgMatches<'_>) -> Result<Option<u64>, Error> {
    let fault = "the value of --seed is not a whole number from 0 to 18446744073709551615";
    long_count_of(alloc, matches, "seed", fault)
}

// `clap` lets no other value through.
fn numbers_of(matches: &ArgMatches<'_>) -> Numbers {
    match matches.get_str("numbers") {
        Some("double") => Numbers::Double,
        _ => Numbers::Whole,
    }
}

// The words of `-v`, in order.
fn assigns_of<'a>(alloc: Global, matches: &ArgMatches<'a>) -> Result<Vec<&'a str>, AllocError> {
    match matches.get_strs("assigns") {
        Some(words) => Vec::from_slice(alloc, words),
        None => Ok(Vec::new(alloc)),
    }
}

// The value of an option that is required, or has a default.
fn value_of<'a>(alloc: Global, matches: &ArgMatches<'a>, id: &str) -> Result<&'a str, Error> {
    match matches.get_str(id) {
        Some(value) => Ok(value),
        None => Err(fault(alloc, "a word is missing")),
    }
}

fn part_of<'a>(id: &str, word: &'a str) -> ScriptPart<'a> {
    if id == "source" {
        ScriptPart::Text(word)
    } else {
        ScriptPart::File(word)
    }
}

// The parts that this option gives, each behind its place among all words.
fn add_parts<'a>(
    matches: &ArgMatches<'a>,
    id: &str,
    parts: &mut Vec<(usize, ScriptPart<'a>)>,
) -> Result<(), AllocError> {
    let (Some(words), Some(places)) = (matches.get_strs(id), matches.indices_of(id)) else {
        return Ok(());
    };
    for (word, place) in words.iter().zip(places) {
        parts.push((*place, part_of(id, *word)))?;
    }
    Ok(())
}

// The parts of the script, in the order of the words.
fn script_of<'a>(alloc: Global, matches: &ArgMatches<'a>) -> Result<Vec<ScriptPart<'a>>, Error> {
    if matches.get_str("last-script").is_some() {
        return Err(fault(alloc, "-E stands beside no other script"));
    }
    let mut placed = Vec::new(alloc);
    add_parts(matches, "script", &mut placed)?;
    add_parts(matches, "source", &mut placed)?;
    placed.sort_by_key(|placed| placed.0)?;
    let mut parts = Vec::new(alloc);
    for (_, part) in placed {
        parts.push(part)?;
    }
    Ok(parts)
}

// How many of these files are the standard input.
fn inputs_of(files: [Option<&str>; 2], parts: &[ScriptPart<'_>]) -> usize {
    let mut count = 0usize;
    for file in files {
        if file == Some(STANDARD_INPUT) {
            count = count.saturating_add(1);
        }
    }
    for part in parts {
        if let ScriptPart::File(STANDARD_INPUT) = part {
            count = count.saturating_add(1);
        }
    }
    count
}

// Refuses a standard input that is to be read twice, where there is no log.
fn check_inputs(
    alloc: Global,
    policy: Option<&str>,
    parts: &[ScriptPart<'_>],
) -> Result<(), Error> {
    if inputs_of([policy, None], parts) < 2 {
        return Ok(());
    }
    Err(fault(
        alloc,
        match policy {
            Some(STANDARD_INPUT) => "policy and script are not both the standard input",
            _ => "only one file is the standard input",
        },
    ))
}

fn run_of<'a>(alloc: Global, matches: &ArgMatches<'a>) -> Result<Run<'a>, Error> {
    let policy = value_of(alloc, matches, "policy")?;
    let script = script_of(alloc, matches)?;
    check_inputs(alloc, Some(policy), script.as_slice())?;
    Ok(Run {
        policy,
        base: matches.get_str("base"),
        log: value_of(alloc, matches, "log")?,
        adds_to_log: matches.get_flag("log-append"),
        log_limit: log_limit_of(alloc, matches)?,
        audit: matches.get_str("audit"),
        report: matches.get_str("report"),
        script,
        numbers: numbers_of(matches),
        folder: matches.get_str("folder"),
        steps: steps_of(alloc, matches)?,
        seed: seed_of(alloc, matches)?,
        separator: matches.get_str("separator"),
        is_block_buffered: matches.get_flag("block-buffered"),
        assigns: assigns_of(alloc, matches)?,
    })
}

fn list_of<'a>(alloc: Global, matches: &ArgMatches<'a>) -> Result<List<'a>, Error> {
    let script = script_of(alloc, matches)?;
    check_inputs(alloc, None, script.as_slice())?;
    let asked = List {
        script,
        numbers: numbers_of(matches),
        tells_files: matches.get_flag("files"),
        is_json: matches.get_flag("json"),
    };
    if asked.tells_files && asked.is_json {
        return Err(fault(alloc, "--json is of sites, and --files tells of none"));
    }
    Ok(asked)
}

fn check_of<'a>(alloc: Global, matches: &ArgMatches<'a>) -> Result<Check<'a>, Error> {
    let policy = value_of(alloc, matches, "policy")?;
    let script = script_of(alloc, matches)?;
    check_inputs(alloc, Some(policy), script.as_slice())?;
    Ok(Check {
        policy,
        base: matches.get_str("base"),
        script,
        numbers: numbers_of(matches),
        allows_open: matches.get_flag("allow-open"),
        is_json: matches.get_flag("json"),
    })
}

fn why_of<'a>(alloc: Global, matches: &ArgMatches<'a>, policy: &'a str) -> Result<Why<'a>, Error> {
    let Some(kind) = kind_named(value_of(alloc, matches, "kind")?) else {
        return Err(fault(
            alloc,
            "KIND is none of read, write, append, run, env and assign",
        ));
    };
    Ok(Why {
        policy,
        base: matches.get_str("base"),
        kind,
        text: value_of(alloc, matches, "text")?,
        given: matches.get_flag("given"),
    })
}

fn lint_of<'a>(alloc: Global, matches: &ArgMatches<'a>) -> Result<Lint<'a>, Error> {
    let asked = Lint {
        policy: matches.get_str("policy"),
        base: matches.get_str("base"),
        script: script_of(alloc, matches)?,
        numbers: numbers_of(matches),
        is_strict: matches.get_flag("strict"),
    };
    if asked.policy.is_none() && asked.script.is_empty() {
        return Err(fault(alloc, "one of --policy and -f is needed"));
    }
    if asked.base.is_some() && asked.policy.is_none() {
        return Err(fault(alloc, "--base is of --policy"));
    }
    check_inputs(alloc, asked.policy, asked.script.as_slice())?;
    Ok(asked)
}

fn propose_of<'a>(alloc: Global, matches: &ArgMatches<'a>) -> Result<Propose<'a>, Error> {
    let asked = Propose {
        base: matches.get_str("base"),
        policy: matches.get_str("policy"),
        script: script_of(alloc, matches)?,
        numbers: numbers_of(matches),
        log: matches.get_str("log"),
    };
    if asked.base.is_none() && asked.policy.is_none() {
        return Err(fault(alloc, "one of --base and --policy is needed"));
    }
    if inputs_of([asked.policy, asked.log], asked.script.as_slice()) > 1 {
        return Err(fault(alloc, "only one file is the standard input"));
    }
    Ok(asked)
}

fn asked_of<'a>(alloc: Global, matches: &ArgMatches<'a>) -> Result<Asked<'a>, Error> {
    let Some((name, matches)) = matches.subcommand() else {
        return Err(fault(alloc, "a command is missing"));
    };
    if name == "run" {
        return Ok(Asked::Run(run_of(alloc, matches)?));
    }
    if name == "list" {
        return Ok(Asked::List(list_of(alloc, matches)?));
    }
    if name == "propose" {
        return Ok(Asked::Propose(propose_of(alloc, matches)?));
    }
    if name == "lint" {
        return Ok(Asked::Lint(lint_of(alloc, matches)?));
    }
    if name == "check" {
        return Ok(Asked::Check(check_of(alloc, matches)?));
    }
    let policy = value_of(alloc, matches, "policy")?;
    Ok(Asked::Why(why_of(alloc, matches, policy)?))
}

/// Reads the words before `--`, of which the first is the program's own name.
///
/// The error is `clap`'s, with the text for the user: of a fault, of the help that was asked for, or
/// of memory that was refused.
pub fn read<'a>(alloc: Global, words: &'a [String]) -> Result<Asked<'a>, Error> {
    let matches = command(alloc)?.try_get_matches_from(words)?;
    asked_of(alloc, &matches)
}

fn fault_of(command: Result<Command<'_>, AllocError>, text: &str) -> Error {
    match command {
        Ok(mut command) => match command.error(ErrorKind::Format, text) {
            Ok(error) => error,
            Err(refused) => Error::from(refused),
        },
        Err(refused) => Error::from(refused),
    }
}

/// A fault that is no one word's, with the usage.
pub fn fault(alloc: Global, text: &str) -> Error {
    fault_of(command(alloc), text)
}

fn named_run<'a>(alloc: Global) -> Result<Command<'a>, AllocError> {
    run_command(alloc)?.bin_name("awkbox run")
}

/// A fault of the words of `run`, with its usage.
fn run_fault(alloc: Global, text: &str) -> Error {
    fault_of(named_run(alloc), text)
}
