// Programs.

use crate::expressions::Expr;
use crate::statements::Statement;
use awk_text::octets::Octets;
use sqlite_items::Items;

/// A variable of the whole script.
#[derive(Drop)]
pub struct GlobalName {
    pub text: Octets,
    pub is_array: bool,
}

/// The records that an action is done for.
#[derive(Drop)]
pub enum When {
    /// Each one
    Always,
    /// Those for which this holds
    Holds(Expr),
    /// `first , last`
    Range(Expr, Expr),
}

/// `pattern action`. A missing action stands there as the `print` that it means.
#[derive(Drop)]
pub struct Rule {
    pub when: When,
    pub action: Items<Statement>,
}

/// A function.
#[derive(Drop)]
pub struct Function {
    pub name: Octets,
    /// Of each parameter whether it is an array.
    pub parameters: Items<bool>,
    pub body: Items<Statement>,
}

/// A script in the form that runs, with the variables that its slots stand for.
#[derive(Drop)]
pub struct Program {
    /// The variables by their slots, awk's own first.
    pub variables: Items<GlobalName>,
    pub functions: Items<Function>,
    /// The actions of BEGIN
    pub begin: Items<Items<Statement>>,
    pub rules: Items<Rule>,
    /// The actions of END
    pub end: Items<Items<Statement>>,
}
