// From `*` up to a concatenation.

ghost use Rattle.std.specs.Prelude.{map};
ghost use Rattle.awk_expressions.specs.Nests.{Nests};
ghost use Rattle.awk_tree.specs.Expressions as spec;
ghost use Rattle.awk_tree.specs.Input.{Reads};
ghost use Rattle.awk_tree.specs.View.{view, view_term};

use crate::expression_signs::{arithmetic_of, begins_part, is_factor_sign, is_term_sign};
use crate::grammar::Grammar;
use crate::nodes::{concat_of, product_of, sum_of};
use crate::pairs::pair;
use crate::terminals::terminal;
use crate::tokens::Tokens;
use awk_tree::{Expr, Goal, ParseError, Term};
use sqlite_items::{Boxed, Items};
use std::alloc::Global;

impl<F: Fn(Global, &mut Tokens<'_>, usize, Goal) -> Result<Boxed<Expr>, ParseError>> Grammar<F> {
    #[tactic(auto, unfolding(awk_tree::specs::Expressions::factor))]
    fn factor(&self, tokens: &mut Tokens<'_>) -> Result<Term<Expr>, ParseError>
        requires { Nests self.now.depth (F.pre self.now.inner) (F.post self.now.inner) }
        ensures { Reads view_term (spec.factor self.now.depth (spec.expr self.now.depth) tokens.old) result tokens.new }
    {
        let token = tokens.any()?;
        let operand = self.unary(tokens)?;
        Ok(Term {
            operator: arithmetic_of(terminal(token)),
            place: token.place,
            operand: operand.into_inner(),
        })
    }

    #[tactic(auto, unfolding(awk_tree::specs::Expressions::factors))]
    fn factors(&self, tokens: &mut Tokens<'_>) -> Result<Items<Term<Expr>>, ParseError>
        requires { Nests self.now.depth (F.pre self.now.inner) (F.post self.now.inner) }
        ensures { Reads (map view_term) (spec.factors self.now.depth (spec.expr self.now.depth) tokens.old) result
            tokens.new }
    {
        let mut found = Items::new(self.alloc);
        for _turn in 0..tokens.left() {
            if !is_factor_sign(tokens.ahead()) {
                return Ok(found);
            }
            found.push(self.factor(tokens)?)?;
        }
        if is_factor_sign(tokens.ahead()) {
            Err(tokens.refuse())
        } else {
            Ok(found)
        }
    }

    /// `{ (* | / | %) unary }`
    #[tactic(auto, unfolding(awk_tree::specs::Expressions::product_rest))]
    pub(crate) fn product_rest(
        &self,
        tokens: &mut Tokens<'_>,
        left: Boxed<Expr>,
    ) -> Result<Boxed<Expr>, ParseError>
        requires { Nests self.now.depth (F.pre self.now.inner) (F.post self.now.inner) }
        ensures { Reads view (spec.product_rest self.now.depth (spec.expr self.now.depth) (view left) tokens.old) result
            tokens.new }
    {
        let (left, factors) = pair(left, self.factors(tokens))?;
        Ok(product_of(self.alloc, left, factors)?)
    }

    #[tactic(auto, unfolding(awk_tree::specs::Expressions::addend))]
    fn addend(&self, tokens: &mut Tokens<'_>) -> Result<Term<Expr>, ParseError>
        requires { Nests self.now.depth (F.pre self.now.inner) (F.post self.now.inner) }
        ensures { Reads view_term (spec.addend self.now.depth (spec.expr self.now.depth) tokens.old) result tokens.new }
    {
        let token = tokens.any()?;
        let first = self.unary(tokens)?;
        let operand = self.product_rest(tokens, first)?;
        Ok(Term {
            operator: arithmetic_of(terminal(token)),
            place: token.place,
            operand: operand.into_inner(),
        })
    }

    #[tactic(auto, unfolding(awk_tree::specs::Expressions::addends))]
    fn addends(&self, tokens: &mut Tokens<'_>) -> Result<Items<Term<Expr>>, ParseError>
        requires { Nests self.now.depth (F.pre self.now.inner) (F.post self.now.inner) }
        ensures { Reads (map view_term) (spec.addends self.now.depth (spec.expr self.now.depth) tokens.old) result
            tokens.new }
    {
        let mut found = Items::new(self.alloc);
        for _turn in 0..tokens.left() {
            if !is_term_sign(tokens.ahead()) {
                return Ok(found);
            }
            found.push(self.addend(tokens)?)?;
        }
        if is_term_sign(tokens.ahead()) {
            Err(tokens.refuse())
        } else {
            Ok(found)
        }
    }

    /// `{ (+ | -) mul }`
    #[tactic(auto, unfolding(awk_tree::specs::Expressions::sum_rest))]
    pub(crate) fn sum_rest(
        &self,
        tokens: &mut Tokens<'_>,
        left: Boxed<Expr>,
    ) -> Result<Boxed<Expr>, ParseError>
        requires { Nests self.now.depth (F.pre self.now.inner) (F.post self.now.inner) }
        ensures { Reads view (spec.sum_rest self.now.depth (spec.expr self.now.depth) (view left) tokens.old) result
            tokens.new }
    {
        let (left, addends) = pair(left, self.addends(tokens))?;
        Ok(sum_of(self.alloc, left, addends)?)
    }

    #[tactic(auto, unfolding(awk_tree::specs::Expressions::part))]
    fn part(&self, tokens: &mut Tokens<'_>) -> Result<Boxed<Expr>, ParseError>
        requires { Nests self.now.depth (F.pre self.now.inner) (F.post self.now.inner) }
        ensures { Reads view (spec.part self.now.depth (spec.expr self.now.depth) tokens.old) result tokens.new }
    {
        let first = self.unary(tokens)?;
        let product = self.product_rest(tokens, first)?;
        self.sum_rest(tokens, product)
    }

    #[tactic(auto, unfolding(awk_tree::specs::Expressions::parts))]
    fn parts(&self, tokens: &mut Tokens<'_>) -> Result<Items<Expr>, ParseError>
        requires { Nests self.now.depth (F.pre self.now.inner) (F.post self.now.inner) }
        ensures { Reads (map view) (spec.parts self.now.depth (spec.expr self.now.depth) tokens.old) result tokens.new }
    {
        let mut found = Items::new(self.alloc);
        for _turn in 0..tokens.left() {
            if !begins_part(tokens.ahead()) {
                return Ok(found);
            }
            found.push(self.part(tokens)?.into_inner())?;
        }
        if begins_part(tokens.ahead()) {
            Err(tokens.refuse())
        } else {
            Ok(found)
        }
    }

    /// `{ add }`
    #[tactic(auto, unfolding(awk_tree::specs::Expressions::concat_rest))]
    pub(crate) fn concat_rest(
        &self,
        tokens: &mut Tokens<'_>,
        left: Boxed<Expr>,
    ) -> Result<Boxed<Expr>, ParseError>
        requires { Nests self.now.depth (F.pre self.now.inner) (F.post self.now.inner) }
        ensures { Reads view (spec.concat_rest self.now.depth (spec.expr self.now.depth) (view left) tokens.old) result
            tokens.new }
    {
        let (left, parts) = pair(left, self.parts(tokens))?;
        Ok(concat_of(self.alloc, left, parts)?)
    }

    /// `cat = add { add }`
    #[tactic(auto, unfolding(awk_tree::specs::Expressions::cat))]
    pub(crate) fn cat(&self, tokens: &mut Tokens<'_>) -> Result<Boxed<Expr>, ParseError>
        requires { Nests self.now.depth (F.pre self.now.inner) (F.post self.now.inner) }
        ensures { Reads view (spec.cat self.now.depth (spec.expr self.now.depth) tokens.old) result tokens.new }
    {
        let first = self.part(tokens)?;
        self.concat_rest(tokens, first)
    }
}
