// Rules and functions of parts that are made already. A part that was refused refuses the whole.

ghost use Rattle.std.specs.Prelude.{◌≡◌, Bool, List, IfOk};
ghost use Rattle.awk_lowering.specs.Made.{Is, AreStatements};
ghost use Rattle.awk_lowering.specs.MadeRules.{IsWhen, IsRule, IsFunction};
ghost use Rattle.awk_lowering.specs.Programs as spec;
ghost use Rattle.awk_program.specs.Program as p;
ghost use Rattle.awk_program.specs.Program.{Expression};
ghost use Rattle.awk_program.specs.Slots.{Text};
ghost use Rattle.awk_program.specs.View.{Names};

use crate::kept::{both, three};
use awk_program::{Expr, Function, Rule, Statement, When};
use awk_text::Memory;
use awk_text::octets::Octets;
use sqlite_items::{Boxed, Items};

/// Records for which this holds
pub fn holds(x: Result<Boxed<Expr>, Memory>) -> Result<When, Memory>
    ensures { (t : Names) (a : Expression) → Is t x a → IsWhen t result (p.holds a) }
{
    match x {
        Ok(x) => Ok(When::Holds(x.into_inner())),
        Err(refused) => Err(refused),
    }
}

/// `first , last`
pub fn range(x: Result<Boxed<Expr>, Memory>, y: Result<Boxed<Expr>, Memory>) -> Result<When, Memory>
    ensures { (t : Names) (a b : Expression) → Is t x a → Is t y b → IsWhen t result (p.range a b) }
{
    match both(x, y) {
        Ok((x, y)) => Ok(When::Range(x.into_inner(), y.into_inner())),
        Err(refused) => Err(refused),
    }
}

/// `pattern action`
pub fn rule_of(
    when: Result<When, Memory>,
    action: Result<Items<Statement>, Memory>,
) -> Result<Rule, Memory>
    ensures { (t : Names) (a : p.When) (b : List p.Statement) → IsWhen t when a → AreStatements t action b →
        IsRule t result (spec.rule_of a b) }
{
    match both(when, action) {
        Ok((when, action)) => Ok(Rule { when, action }),
        Err(refused) => Err(refused),
    }
}

/// `function name ( parameters ) body`
pub fn function_of(
    name: Result<Octets, Memory>,
    parameters: Result<Items<bool>, Memory>,
    body: Result<Items<Statement>, Memory>,
) -> Result<Function, Memory>
    ensures { (t : Names) (n : Text) (are : List Bool) (b : List p.Statement) → IfOk name (λ m. m ≡ n) →
        IfOk parameters (λ m. m ≡ are) → AreStatements t body b →
        IsFunction t result (record { name = n; parameters = are; body = b }) }
{
    match three(name, parameters, body) {
        Ok((name, parameters, body)) => Ok(Function {
            name,
            parameters,
            body,
        }),
        Err(refused) => Err(refused),
    }
}
