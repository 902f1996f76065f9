// How much of the stack each form takes where it is nested, in units of 64 bytes: what scripts/stack-of-forms.py
// measured of the proved program, and some to spare (docs/DECISIONS.md, "A run under a policy").
ghost use Rattle.std.specs.Prelude.{◌≤◌};

use awk_program::{Expr, Statement};

/// The units that a run may nest: 7 MiB, of a stack of 8.
pub const MOST_UNITS: u32 = 114_688;

/// What any form takes that has no way of its own.
const OTHER: u32 = 40;

/// The units that an expression takes, around its parts.
pub fn units_of(e: &Expr) -> u32
    ensures { 1 ≤ result }
{
    match e {
        Expr::Chain(_, _) => 12,
        Expr::Choice(_, _, _) => 12,
        Expr::Call(_, _, _) => 20,
        Expr::GetlineFile(_, _, _) => 24,
        _ => OTHER,
    }
}

/// The units that a statement takes, around its parts.
pub fn units_of_statement(x: &Statement) -> u32
    ensures { 1 ≤ result }
{
    match x {
        Statement::If(_, _) | Statement::IfElse(_, _, _) | Statement::Block(_) => 8,
        Statement::Expr(_) => 16,
        _ => OTHER,
    }
}
