//! Numbers of scripts in two profiles: whole numbers of 64 bits, and IEEE doubles.
#![tactic(auto)]

mod angles;
mod arcs;
pub mod decimal;
pub mod doubles;
pub mod exponents;
pub mod fixed;
mod formula;
pub mod functions;
pub mod general;
pub mod laws;
pub mod number;
pub mod numeral;
pub mod operators;
pub mod powers;
mod quarters;
pub mod random;
pub mod remainder;
pub mod short;
pub mod shown;
pub mod texts;
