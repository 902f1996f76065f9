//! An awk script in the form that runs.
//!
//! Names are resolved, constants are made, and there is one form for each thing that a script can say
//! ("Expressions in awk" and "Actions" of POSIX.1-2017 XCU awk, in the whole-number profile of this
//! project). Contracts see a program as plain data (specs/Program.antt), in which a variable of the
//! script is its name again. Places are kept only where a fault or a request names them.
#![tactic(auto)]

mod builtins;
mod expressions;
mod jumps;
mod operators;
mod program;
mod statements;
mod variables;

pub use builtins::Builtin;
pub use expressions::{Argument, Expr, Joined, Pattern, Piped, Target, Term};
pub use jumps::Jump;
pub use operators::{Comparison, Extent, Operator, Redirect, Sign, Step, StepValue};
pub use program::{Function, GlobalName, Program, Rule, When};
pub use statements::{Redirection, Statement};
pub use variables::{Own, Variable};
