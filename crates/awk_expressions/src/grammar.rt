// The rules, over a function that reads what is nested one level deeper.

ghost use Rattle.awk_expressions.specs.Nests.{Nests};
ghost use Rattle.awk_tree.specs.Expressions as spec;
ghost use Rattle.awk_tree.specs.Input.{Reads};
ghost use Rattle.awk_tree.specs.View.{view};

use crate::tokens::Tokens;
use awk_tree::{Expr, Goal, ParseError};
use sqlite_items::Boxed;
use std::alloc::Global;

/// The rules of expressions at one level of nesting.
#[derive(Clone, Copy)]
pub(crate) struct Grammar<F> {
    pub(crate) alloc: Global,
    /// How many levels are left below this one.
    pub(crate) depth: usize,
    /// Reads what is nested one level deeper.
    pub(crate) inner: F,
}

impl<F: Fn(Global, &mut Tokens<'_>, usize, Goal) -> Result<Boxed<Expr>, ParseError>> Grammar<F> {
    /// What is nested one level deeper.
    pub(crate) fn nested(
        &self,
        tokens: &mut Tokens<'_>,
        goal: Goal,
    ) -> Result<Boxed<Expr>, ParseError>
        requires { Nests self.now.depth (F.pre self.now.inner) (F.post self.now.inner) }
        ensures { Reads view (spec.expr self.now.depth goal tokens.old) result tokens.new }
    {
        (self.inner)(self.alloc, tokens, self.depth, goal)
    }
}
