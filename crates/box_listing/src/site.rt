// Where a script asks.

use awk_text::octets::Octets;
use awk_text::place::Place;
use box_policy::policy::Kind;

/// A place where a run may ask, and what for. The text is there where the script has it as a constant.
#[derive(Drop)]
pub struct Site {
    pub place: Place,
    pub kind: Kind,
    pub text: Option<Octets>,
}

/// What the walk finds: a part that reads the main input, or a site that has a place.
#[derive(Drop)]
pub enum Found {
    MainInput,
    At(Site),
}

/// What an item of a script is: an action of BEGIN or of END, a rule for records, or a function.
#[derive(Clone, Copy, PartialEq, Eq, Drop)]
pub enum Sort {
    Begin,
    Rule,
    End,
    Function,
}

/// How many items of each sort are behind.
#[derive(Clone, Copy, Drop)]
pub struct Behind {
    pub begin: usize,
    pub rules: usize,
    pub end: usize,
    pub functions: usize,
}
