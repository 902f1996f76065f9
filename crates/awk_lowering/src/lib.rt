//! An awk script's tree made into the program that runs.
//!
//! specs/Lowered.antt says which program a tree stands for: names are resolved, constants are made,
//! and there is one form for each thing that a script can say.
#![tactic(auto)]

pub mod blocks;
pub mod constants;
pub mod expressions;
mod items;
pub mod kept;
pub mod names;
pub mod nodes;
pub mod operators;
pub mod parts;
pub mod rules;
mod scripts;
pub mod shapes;
pub mod statements;
pub mod targets;
pub mod texts;

pub use items::program;
pub use names::Lowering;
pub use scripts::lower;
