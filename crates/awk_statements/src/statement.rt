// Nested statements.

ghost use Rattle.std.specs.Prelude.{◌≡◌};
ghost use Rattle.awk_tree.specs.Input.{Reads};
ghost use Rattle.awk_tree.specs.Statements as spec;
ghost use Rattle.awk_tree.specs.View.{view_statement};

use crate::bodies::Bodies;
use awk_expressions::{Level, Tokens};
use awk_tree::{Nested, ParseError, Statement};
use std::alloc::Global;

/// Statements nested no deeper than the number.
pub fn statement(
    alloc: Global,
    tokens: &mut Tokens<'_>,
    depth: usize,
    which: Nested,
) -> Result<Statement, ParseError>
    ensures { Reads view_statement (spec.statement depth which tokens.old) result tokens.new }
{
    if depth == 0 {
        return Err(tokens.deep());
    }
    let level = Level {
        alloc,
        depth: depth - 1,
    };
    Bodies {
        level,
        body: statement,
    }
    .nested_in(tokens, which)
}
