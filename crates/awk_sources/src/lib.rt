//! Several texts as one script.
//!
//! [`joined`] makes one script of them: in order, a newline between one and the next, and no token goes from one text
//! into another. [`Lines`] tells of a place in the whole which text it is in, and where.
#![tactic(auto)]

mod joining;
mod lines;
mod source;

pub use joining::joined;
pub use lines::{InSource, Lines};
pub use source::Source;
