//! The canonical spelling of an awk script: the tokens that a tree is written as.
//!
//! Of the spellings that "Grammar" in POSIX.1-2017 XCU awk has for a tree, this is one: each
//! statement that can end with `;` does, and no newline stands but behind an item. The function
//! `canon_script` of awk_tree's specs/Canon.antt says which it is. Its tokens have no places: all
//! are 0:0.
#![tactic(auto)]

mod expressions;
mod items;
mod spelling;
mod statements;
mod tokens;

pub use items::canon;
