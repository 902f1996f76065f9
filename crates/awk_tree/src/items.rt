// Scripts and their items.

ghost use Rattle.std.specs.Prelude.{◌≡◌};

use crate::expressions::Expr;
use crate::names::Name;
use crate::statements::Statement;
use sqlite_items::Items;

/// When an action is done.
#[derive(Drop)]
pub enum Pattern {
    /// `expr`
    Expr(Expr),
    /// `expr , expr`
    Range(Expr, Expr),
}

/// `function NAME ( params ) action`
#[derive(Drop)]
pub struct Function {
    pub name: Name,
    pub params: Items<Name>,
    pub body: Items<Statement>,
}

/// An item of a script. An action is the statements between its braces.
#[derive(Drop)]
pub enum Item {
    /// `BEGIN action`
    Begin(Items<Statement>),
    /// `END action`
    End(Items<Statement>),
    /// `action` by itself
    Always(Items<Statement>),
    /// `pattern` by itself
    Shown(Pattern),
    /// `pattern action`
    Rule(Pattern, Items<Statement>),
    Function(Function),
}

/// A script.
#[derive(Drop)]
pub struct Script {
    items: Items<Item>,
}

impl Script {
    /// The script of these items. Takes no memory.
    pub fn new(items: Items<Item>) -> Script
        ensures { result.items ≡ items }
    {
        Script { items }
    }

    /// The items of the script, in order. Takes no memory.
    pub fn items(&self) -> &[Item]
        ensures { result.now ≡ self.now.items }
    {
        self.items.as_slice()
    }
}
