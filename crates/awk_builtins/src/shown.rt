// Operands of which a text is wanted.
ghost use Rattle.awk_builtins.specs.AtHand.{IsThere};
ghost use Rattle.awk_program.specs.View.{view};
ghost use Rattle.awk_store.specs.Kept.{Kept, by_convfmt};
ghost use Rattle.awk_text.specs.declared.value.Value.{Value as Val};
ghost use Rattle.std.specs.Prelude.{Ok, ◌≡◌};

use awk_program::Expr;

/// What is evaluated for an operand of which a text is wanted: the whole has its value where CONVFMT makes no other
/// text of that. Any other expression is itself.
#[inline(always)]
pub(crate) fn operand_of(e: &Expr) -> &Expr
    ensures { (k : Kept) (val : Val) → by_convfmt k val ≡ Ok val →
        IsThere (λ names. view names result.now) k val → IsThere (λ names. view names e.now) k val }
{
    match e {
        Expr::AsText(_, x) => x.get(),
        _ => e,
    }
}
