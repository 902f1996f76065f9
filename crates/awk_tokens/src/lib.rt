//! The tokens of an awk script, with their places.
//!
//! A script is cut into numbers, strings, extended regular expressions, words, names and signs, as
//! "Lexical Conventions" of POSIX.1-2017 XCU awk has them, with numbers in one of two profiles:
//! whole numbers, or IEEE doubles. [`tokens`] is the call for that; the relation `Reads` of
//! specs/Reads.antt says what it means.
//! [`is_name`] and [`reserved`] tell of one text whether it is a name or a word of the language;
//! words.rt has the words, and what each is to the grammar.
#![tactic(auto)]

mod kinds;
pub mod laws;
mod names;
mod reading;
mod scan;
mod signs;
mod syntax_error;
mod terminals;
mod token;
mod words;

pub use kinds::TokenKind;
pub use names::is_name;
pub use reading::tokens;
pub use syntax_error::SyntaxError;
pub use terminals::{Assignment, Step, Terminal};
pub use token::Token;
pub use words::{Builtin, Jump, Parameters, as_builtin, as_keyword, reserved};
