//! The calls of worked rows about scripts, policies and worlds, a module for each table. No part of the product.
//!
//! `proofs/` has rows of another sort: whole runs of scripts by the definition of plain awk, which the prover computes.
#![tactic(auto)]

pub mod listings;
pub mod monitors;
pub mod parses;
pub mod policies;
pub mod programs;
pub mod tokens;
pub mod worlds;
