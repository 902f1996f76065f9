// Statements to which an `else` could still be added.

ghost use Rattle.std.specs.Prelude.{◌≡◌, true, false};
ghost use Rattle.awk_statements.specs.Open as spec;
ghost use Rattle.awk_tree.specs.Looks as looks;
ghost use Rattle.awk_tree.specs.Statements as grammar;
ghost use Rattle.awk_tree.specs.View.{view_statement};

use crate::statement_signs::else_next;
use awk_tokens::Token;
use awk_tree::Statement;

/// Whether an `if` without an `else` ends the statement.
#[tactic(auto, using(awk_tree::proofs::Views::statement_views))]
fn is_open(statement: &Statement) -> bool
    ensures { result ≡ spec.is_open (view_statement statement.now) }
{
    match statement {
        Statement::If(_, _) => true,
        Statement::IfElse(_, _, body) => is_open(body.get()),
        Statement::While(_, body) => is_open(body.get()),
        Statement::For(_, _, _, body) => is_open(body.get()),
        Statement::ForIn(_, _, _, body) => is_open(body.get()),
        Statement::Empty | Statement::Expr(_) | Statement::Block(_) | Statement::Do(_, _) => false,
        Statement::Print(_, _, _) | Statement::Printf(_, _, _) => false,
        Statement::Delete(_, _) | Statement::DeleteAll(_) => false,
        Statement::Jump(_, _) | Statement::Exit(_, _) | Statement::Return(_, _) => false,
    }
}

/// Whether an `else` comes next to an `if` that has this body. Behind an open body an inner `if`
/// has looked for it, so what stands there is looked over once.
pub fn has_else(body: &Statement, tokens: &[Token]) -> bool
    requires { spec.is_open (view_statement body.now) ≡ true → looks.else_next tokens.now ≡ false }
    ensures { result ≡ looks.else_next tokens.now }
{
    !is_open(body) && else_next(tokens)
}
