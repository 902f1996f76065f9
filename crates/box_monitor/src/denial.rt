// What the policy denies, and what the log tells of it.
ghost use Rattle.std.specs.Prelude.{◌≡◌};
ghost use Rattle.box_monitor.specs.Denials.{denial_of, rule_for};
ghost use Rattle.box_monitor.specs.Rulings.{denial_in, rule_in};
ghost use Rattle.box_monitor.specs.Subjects.{kind_of, subject_of};

use crate::judge::{Judge, Question};
use awk_text::place::Place;
use box_policy::policy::{Decision, Kind};
use box_world::ask::{Ask, Mode, Request};
use std::alloc::Global;
use std::marker::Model;

/// What a policy decides on: a path, a command or a name, and what is to be done with it.
#[derive(Drop)]
pub struct Subject<'a> {
    pub kind: Kind,
    pub text: &'a [u8],
}

impl<'a> Model for Subject<'a> {
    ghost use Rattle.box_monitor.specs.Subjects.{Subject};

    ghost Value = { Subject };

    ghost view = { λ s. record { kind = s.kind; text = s.text.now } };
}

/// A denied request: its place, its kind, the rule that denies it or `None` where no rule fits,
/// and its path, command or name as the script wrote it.
#[derive(Drop)]
pub struct Denial<'a> {
    pub place: Place,
    pub kind: Kind,
    pub rule: Option<u32>,
    pub text: &'a [u8],
}

impl<'a> Model for Denial<'a> {
    ghost use Rattle.box_monitor.specs.Told.{Told};

    ghost Value = { Told };

    ghost view = { λ d. record { place = d.place; kind = d.kind; rule = d.rule; text = d.text.now } };
}

/// What is done with an ask: it is passed on, and the rule of this number allows it where it is decided on, or it is
/// denied.
#[derive(Drop)]
pub enum Ruling<'a> {
    Passed(Option<u32>),
    Denied(Denial<'a>),
}

fn kind_of(mode: Mode) -> Kind
    ensures { result ≡ kind_of mode }
{
    match mode {
        Mode::Read => Kind::Read,
        Mode::Write => Kind::Write,
        Mode::Append => Kind::Append,
        Mode::RunIn | Mode::RunOut => Kind::Run,
    }
}

/// What a policy decides on. Reading on, writing and closing are not decided on: the opening was.
pub fn subject_of<'a>(request: &'a Request) -> Option<Subject<'a>>
    ensures { result ≡ subject_of request.now }
{
    let (kind, text) = match request {
        Request::Open(mode, text) => (kind_of(*mode), text),
        Request::System(text) => (Kind::Run, text),
        Request::Env(name) => (Kind::Env, name),
        Request::Assign(name, _) => (Kind::Assign, name),
        Request::Next(_) | Request::Put(_, _) | Request::Shut(_) => return None,
    };
    Some(Subject {
        kind,
        text: text.bytes(),
    })
}

/// What the policy says of the ask.
pub fn ruling_of<'a>(alloc: Global, judge: &mut Judge, ask: &'a Ask) -> Ruling<'a>
    ensures denial { denial_in result ≡ denial_of judge.old ask.now }
    ensures rule { rule_in result ≡ rule_for judge.old ask.now.given (subject_of ask.now.request) }
    ensures same { judge.new ≡ judge.old }
{
    let Some(Subject { kind, text }) = subject_of(&ask.request) else {
        return Ruling::Passed(None);
    };
    let given = ask.given;
    let rule = match judge.decide(alloc, Question { kind, given, text }) {
        Decision::Allow(rule) => return Ruling::Passed(Some(rule)),
        Decision::Deny(rule) => Some(rule),
        Decision::NoRule => None,
    };
    Ruling::Denied(Denial {
        place: ask.place,
        kind,
        rule,
        text,
    })
}
