// What a program reads of a run that is over, or that was refused.
ghost use Rattle.std.specs.Prelude.{◌≡◌, ◌++◌, codes, IfOk, string_bytes};
ghost use Rattle.std.specs.Fmt.{decimal};
ghost use Rattle.serde_json.specs.View.{view};
ghost use Rattle.serde_json.specs.Written.{compact_text};
ghost use Rattle.awk_text.specs.Faults.{code_of};
ghost use Rattle.awkbox.specs.Accounts as spec;
ghost use Rattle.awkbox.specs.Messages.{message_text};

use crate::messages::{Ending, Message};
use awk_run::{Outcome, Report};
use awk_text::fault::Fault;
use awk_text::place::Place;
use box_monitor::log_end::LogEnd;
use serde_json::{Value, json};
use std::alloc::{AllocError, Global};

/// A run that is over, or a refusal to run.
#[derive(Drop)]
pub enum Account {
    /// The script was run, and so many of its requests were denied.
    Ran {
        report: Report,
        denials: u64,
        log_end: LogEnd,
    },
    /// Nothing was run.
    Refused(Message),
}

fn log_word(log_end: LogEnd) -> &'static str
    ensures { result.now ≡ spec.log_word log_end }
{
    match log_end {
        LogEnd::Whole => "whole",
        LogEnd::Part => "part",
        LogEnd::Unsure => "unsure",
    }
}

fn outcome_word(outcome: &Outcome) -> &'static str
    ensures { result.now ≡ spec.outcome_word outcome.now }
{
    match outcome {
        Outcome::Status(_) => "status",
        Outcome::Fault(_, _) => "fault",
        Outcome::Cut => "cut",
    }
}

fn code_text(alloc: Global, fault: Fault) -> Result<String, AllocError>
    ensures { IfOk result (λ text. string_bytes text ≡ codes "F" ++ decimal (code_of fault)) }
{
    let code = fault.code();
    format!(in alloc; "F{code}")
}

fn fault_value(alloc: Global, fault: Fault, place: Place) -> Result<Value, AllocError>
    ensures { IfOk result (λ value. view value ≡ spec.fault_members fault place) }
{
    json!(in alloc; {
        "code": code_text(alloc, fault)?,
        "column": place.column,
        "line": place.line,
        "text": fault.text(),
    })
}

fn outcome_value(alloc: Global, outcome: &Outcome) -> Result<Value, AllocError>
    ensures { IfOk result (λ value. view value ≡ spec.outcome_data outcome.now) }
{
    match outcome {
        Outcome::Fault(fault, place) => fault_value(alloc, *fault, *place),
        Outcome::Status(_) | Outcome::Cut => Ok(Value::Null),
    }
}

fn line_of(alloc: Global, message: &Message) -> Result<String, AllocError>
    ensures { IfOk result (λ text. string_bytes text ≡ message_text message.now) }
{
    format!(in alloc; "{message}")
}

impl Account {
    /// How the program ends.
    pub fn ending(self) -> Ending
        ensures { result ≡ spec.ending_of_account self }
    {
        match self {
            Account::Ran { report, .. } => Ending::of(Ok(report)),
            Account::Refused(message) => Ending::Said(message),
        }
    }

    fn status(&self) -> u8
        ensures { result ≡ spec.status_of_account self.now }
    {
        match self {
            Account::Ran { report, .. } => report.status(),
            Account::Refused(message) => message.status(),
        }
    }

    fn denials(&self) -> u64
        ensures { result ≡ spec.denials_of self.now }
    {
        match self {
            Account::Ran { denials, .. } => *denials,
            Account::Refused(_) => 0,
        }
    }

    fn steps(&self) -> u64
        ensures { result ≡ spec.steps_of self.now }
    {
        match self {
            Account::Ran { report, .. } => report.used,
            Account::Refused(_) => 0,
        }
    }

    fn word(&self) -> &'static str
        ensures { result.now ≡ spec.word_of self.now }
    {
        match self {
            Account::Ran { report, .. } => outcome_word(&report.outcome),
            Account::Refused(_) => "refused",
        }
    }

    fn fault(&self, alloc: Global) -> Result<Value, AllocError>
        ensures { IfOk result (λ value. view value ≡ spec.fault_data self.now) }
    {
        match self {
            Account::Ran { report, .. } => outcome_value(alloc, &report.outcome),
            Account::Refused(_) => Ok(Value::Null),
        }
    }

    fn log(&self, alloc: Global) -> Result<Value, AllocError>
        ensures { IfOk result (λ value. view value ≡ spec.log_data self.now) }
    {
        match self {
            Account::Ran { log_end, .. } => Value::try_from_str(alloc, log_word(*log_end)),
            Account::Refused(_) => Ok(Value::Null),
        }
    }

    fn refusal(&self, alloc: Global) -> Result<Value, AllocError>
        ensures { IfOk result (λ value. view value ≡ spec.refusal_data self.now) }
    {
        match self {
            Account::Ran { .. } => Ok(Value::Null),
            Account::Refused(message) => {
                let line = line_of(alloc, message)?;
                Value::try_from_str(alloc, line.as_str())
            }
        }
    }

    /// The account as a JSON object, which a host may add to.
    pub fn value(&self, alloc: Global) -> Result<Value, AllocError>
        ensures { IfOk result (λ value. view value ≡ spec.account_data self.now) }
    {
        json!(in alloc; {
            "denials": self.denials(),
            "exit_status": self.status(),
            "fault": self.fault(alloc)?,
            "log": self.log(alloc)?,
            "outcome": self.word(),
            "refusal": self.refusal(alloc)?,
            "steps": self.steps(),
        })
    }

    /// The account as a JSON object, in one line.
    pub fn json(&self, alloc: Global) -> Result<String, AllocError>
        ensures { IfOk result (λ text. string_bytes text ≡ compact_text (spec.account_data self.now)) }
    {
        self.value(alloc)?.to_string(alloc)
    }
}
