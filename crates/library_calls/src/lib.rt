//! Worked rows, and the calls of those about the libraries below the evaluator: how a row is read, what a call takes
//! from it, how its answer is told and judged, and for each table a module with its calls. No part of the product.
#![tactic(auto)]

pub mod args;
pub mod cursor;
pub mod fields;
pub mod formats;
pub mod library;
pub mod patterns;
pub mod problem;
pub mod readers;
pub mod records;
pub mod report;
pub mod row;
pub mod shown;
pub mod values;
