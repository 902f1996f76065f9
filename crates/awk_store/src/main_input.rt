// How far the main input is read.
ghost use Rattle.std.specs.Prelude.{◌≡◌};
ghost use Rattle.awk_store.specs.Changes.{first_main};
ghost use Rattle.awk_store.specs.Inputs.{main_of};

use awk_text::octets::Octets;

/// The stream of the main input that is read now.
#[derive(Drop)]
pub enum CurrentInput {
    Nothing,
    Standard,
    /// The file that an operand of this text names
    Operand(Octets),
}

/// How far the main input is read.
#[derive(Drop)]
pub struct MainInput {
    /// The place in ARGV of the next operand
    pub position: u64,
    pub current: CurrentInput,
    /// Whether an operand named a file or standard input
    pub named: bool,
    /// Whether it has ended for good
    pub ended: bool,
    /// Whether an operand's file could not be opened or read
    pub failed: bool,
}

impl MainInput {
    /// Nothing is read yet.
    pub fn new() -> MainInput
        ensures { main_of result ≡ first_main }
    {
        MainInput {
            position: 1,
            current: CurrentInput::Nothing,
            named: false,
            ended: false,
            failed: false,
        }
    }
}
