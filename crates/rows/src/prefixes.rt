// Scripts and policies that break off.

use crate::table::Table;
use library_calls::args::{name, profile, text};
use library_calls::problem::Problem;
use library_calls::row::Row;
use row_calls::{parses, policies};
use std::alloc::Global;

/// The most bytes of a text whose prefixes are read.
const MOST: usize = 1_000;

/// Reads each prefix of the script or of the policy that the row is about, where it has one that is not longer. It is
/// refused, or else it is a script that its canonical spelling spells again, or a policy.
pub fn read_prefixes(alloc: Global, table: Table, row: &Row<'_>) -> Result<(), Problem> {
    let (numbers, args) = profile(&row.args);
    let text = text(args, 1);
    // A `run` of a world has a command.
    if text.len() > MOST || matches!(table, Table::Worlds) {
        return Ok(());
    }
    match name(args, 0) {
        "run" | "parse" | "canon" | "asks" | "tokens" | "program" | "shape" | "list" | "check" =>
            parses::read_prefixes(alloc, numbers, text),
        "policy" => policies::read_prefixes(alloc, text),
        _ => Ok(()),
    }
}
