// The tables, and which calls stand in which.

use awk_text::octets::Octets;
use library_calls::problem::Problem;
use library_calls::report::Subject;
use library_calls::row::{Arg, Row};
use library_calls::shown::Shown;
use library_calls::{fields, formats, library, patterns, records, values};
use std::alloc::Global;

/// A table: a file of rows about one subject.
#[derive(Clone, Copy, Drop)]
pub enum Table {
    Values,
    Patterns,
    Searches,
    Fields,
    Formats,
    Library,
}

pub const TABLES: [Table; 6] = [
    Table::Values,
    Table::Patterns,
    Table::Searches,
    Table::Fields,
    Table::Formats,
    Table::Library,
];

impl Subject for Table {
    fn file(&self) -> &'static str {
        match *self {
            Table::Values => "values.txt",
            Table::Patterns => "patterns.txt",
            Table::Searches => "searches.txt",
            Table::Fields => "fields.txt",
            Table::Formats => "formats.txt",
            Table::Library => "library.txt",
        }
    }

    fn call(&self, alloc: Global, args: &[Arg<'_>]) -> Shown {
        match *self {
            Table::Values => values::call(alloc, args),
            Table::Patterns | Table::Searches => patterns::call(alloc, args),
            Table::Fields => fields::call(alloc, args),
            Table::Formats => formats::call(alloc, args),
            Table::Library => library::call(alloc, args),
        }
    }

    fn block(
        &self,
        alloc: Global,
        args: &[Arg<'_>],
        steps: &[Row<'_>],
    ) -> Result<Vec<Octets>, Problem> {
        match *self {
            Table::Fields => records::block(alloc, args, steps),
            Table::Library => library::block(alloc, steps),
            _ => Err(Problem::NoCall),
        }
    }

    // No row here is about a script or a policy.
    fn read_prefixes(&self, _alloc: Global, _row: &Row<'_>) -> Result<(), Problem> {
        Ok(())
    }
}
