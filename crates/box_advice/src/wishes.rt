// What a policy is to allow.
use awk_text::octets::Octets;
use awk_text::place::Place;
use box_policy::policy::Kind;

/// Where a request was met: at a place of a script, or on a line of a log, counted from 1.
#[derive(Clone, Copy, Drop)]
pub enum Origin {
    Script(Place),
    Log(usize),
}

/// A request that a policy is to allow. Its text is there where it is known before a run.
#[derive(Drop)]
pub struct Wish {
    pub kind: Kind,
    pub text: Option<Octets>,
    /// Whether it may be of an operand word that the run was started with.
    pub may_be_given: bool,
    pub origin: Origin,
}
