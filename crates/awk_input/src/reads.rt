// Whether a run reads records.
ghost use Rattle.std.specs.Prelude.{◌≡◌, ◌++◌, List};
ghost use Rattle.awk_machine.specs.Pieces.{Piece};
ghost use Rattle.awk_machine.specs.Rules as machine;
ghost use Rattle.awk_program.specs.View.{view_program};
ghost use Rattle.awk_input.specs.Inputs.{more};

use awk_program::Program;

/// Whether records are read: where there is a rule for them, or an END. Takes no memory.
pub fn reads(program: &Program) -> bool
    ensures { (k : List Piece) → machine.records (view_program program.now) ++ k ≡ more result k }
{
    if !program.rules.is_empty() {
        return true;
    }
    if !program.end.is_empty() {
        return true;
    }
    false
}
