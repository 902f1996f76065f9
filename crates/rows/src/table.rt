// The tables, and which calls stand in which.

use crate::prefixes::read_prefixes;
use crate::{embedding, inputs, runs};
use awk_text::octets::Octets;
use library_calls::problem::Problem;
use library_calls::report::Subject;
use library_calls::row::{Arg, Row};
use library_calls::shown::Shown;
use row_calls::{listings, monitors, parses, policies, programs, tokens, worlds};
use std::alloc::Global;

/// A table: a file of rows about one subject.
#[derive(Clone, Copy, Drop)]
pub enum Table {
    Tokens,
    Parses,
    Programs,
    Policies,
    Worlds,
    Monitors,
    Listings,
    Inputs,
    Runs,
    Growths,
    Choices,
    Scripts,
    Streams,
    Operands,
    Doubles,
    Embedding,
}

pub const TABLES: [Table; 16] = [
    Table::Tokens,
    Table::Parses,
    Table::Programs,
    Table::Policies,
    Table::Worlds,
    Table::Monitors,
    Table::Listings,
    Table::Inputs,
    Table::Runs,
    Table::Growths,
    Table::Choices,
    Table::Scripts,
    Table::Streams,
    Table::Operands,
    Table::Doubles,
    Table::Embedding,
];

impl Subject for Table {
    fn file(&self) -> &'static str {
        match *self {
            Table::Tokens => "tokens.txt",
            Table::Parses => "parses.txt",
            Table::Programs => "programs.txt",
            Table::Policies => "policies.txt",
            Table::Worlds => "worlds.txt",
            Table::Monitors => "monitors.txt",
            Table::Listings => "listings.txt",
            Table::Inputs => "inputs.txt",
            Table::Runs => "runs.txt",
            Table::Growths => "growths.txt",
            Table::Choices => "choices.txt",
            Table::Scripts => "scripts.txt",
            Table::Streams => "streams.txt",
            Table::Operands => "operands.txt",
            Table::Doubles => "doubles.txt",
            Table::Embedding => "embedding.txt",
        }
    }

    fn call(&self, alloc: Global, args: &[Arg<'_>]) -> Shown {
        match *self {
            Table::Tokens => tokens::call(alloc, args),
            Table::Parses => parses::call(alloc, args),
            Table::Programs => programs::call(alloc, args),
            Table::Policies => policies::call(alloc, args),
            Table::Listings => listings::call(alloc, args),
            Table::Inputs => inputs::call(alloc, args),
            Table::Embedding => embedding::call(alloc, args),
            _ => Err(Problem::NoCall),
        }
    }

    fn block(
        &self,
        alloc: Global,
        args: &[Arg<'_>],
        steps: &[Row<'_>],
    ) -> Result<Vec<Octets>, Problem> {
        match *self {
            Table::Policies => policies::block(alloc, args, steps),
            Table::Worlds => worlds::block(alloc, steps),
            Table::Monitors => monitors::block(alloc, args, steps),
            Table::Listings => listings::block(alloc, args, steps),
            Table::Runs
            | Table::Growths
            | Table::Choices
            | Table::Scripts
            | Table::Streams
            | Table::Operands
            | Table::Doubles => runs::block(alloc, args, steps),
            _ => Err(Problem::NoCall),
        }
    }

    fn read_prefixes(&self, alloc: Global, row: &Row<'_>) -> Result<(), Problem> {
        read_prefixes(alloc, *self, row)
    }
}
