// From an assignment up to a whole expression.

ghost use Rattle.std.specs.Prelude.{map};
ghost use Rattle.awk_expressions.specs.Nests.{Nests};
ghost use Rattle.awk_tree.specs.Expressions as spec;
ghost use Rattle.awk_tree.specs.Input.{Reads};
ghost use Rattle.awk_tree.specs.View.{view};

use crate::expression_signs::{assignment, ends_expression};
use crate::grammar::Grammar;
use crate::nodes::{and_of, assign, choose, is_lvalue, or_of};
use crate::pairs::pair;
use crate::terminals::is;
use crate::tokens::Tokens;
use awk_tree::{Expr, Goal, ParseError, Terminal};
use sqlite_items::{Boxed, Items};
use std::alloc::Global;

impl<F: Fn(Global, &mut Tokens<'_>, usize, Goal) -> Result<Boxed<Expr>, ParseError>> Grammar<F> {
    /// `lvalue (= | += | ..) expr`, or what stands there.
    #[tactic(auto, unfolding(awk_tree::specs::Expressions::assigned))]
    fn assigned(
        &self,
        tokens: &mut Tokens<'_>,
        in_print: bool,
        left: Boxed<Expr>,
    ) -> Result<Boxed<Expr>, ParseError>
        requires { Nests self.now.depth (F.pre self.now.inner) (F.post self.now.inner) }
        ensures { Reads view (spec.assigned self.now.depth (spec.expr self.now.depth) in_print (view left) tokens.old)
            result tokens.new }
    {
        let Some(how) = assignment(tokens.ahead()) else {
            return Ok(left);
        };
        if !is_lvalue(left.get()) {
            return Ok(left);
        }
        let (left, token) = pair(left, tokens.any())?;
        let (left, right) = pair(left, self.nested(tokens, Goal::Expr(in_print)))?;
        Ok(assign(self.alloc, left, token.place, how, right)?)
    }

    #[tactic(auto, unfolding(awk_tree::specs::Expressions::conjunct))]
    fn conjunct(&self, tokens: &mut Tokens<'_>, in_print: bool) -> Result<Boxed<Expr>, ParseError>
        requires { Nests self.now.depth (F.pre self.now.inner) (F.post self.now.inner) }
        ensures { Reads view (spec.conjunct self.now.depth (spec.expr self.now.depth) in_print tokens.old) result
            tokens.new }
    {
        let left = self.isin(tokens, in_print)?;
        self.assigned(tokens, in_print, left)
    }

    #[tactic(auto, unfolding(awk_tree::specs::Expressions::next_conjunct))]
    fn next_conjunct(
        &self,
        tokens: &mut Tokens<'_>,
        in_print: bool,
    ) -> Result<Boxed<Expr>, ParseError>
        requires { Nests self.now.depth (F.pre self.now.inner) (F.post self.now.inner) }
        ensures { Reads view (spec.next_conjunct self.now.depth (spec.expr self.now.depth) in_print tokens.old) result
            tokens.new }
    {
        tokens.one(Terminal::And)?;
        tokens.skip();
        self.conjunct(tokens, in_print)
    }

    #[tactic(auto, unfolding(awk_tree::specs::Expressions::conjuncts))]
    fn conjuncts(&self, tokens: &mut Tokens<'_>, in_print: bool) -> Result<Items<Expr>, ParseError>
        requires { Nests self.now.depth (F.pre self.now.inner) (F.post self.now.inner) }
        ensures { Reads (map view) (spec.conjuncts self.now.depth (spec.expr self.now.depth) in_print tokens.old) result
            tokens.new }
    {
        let mut found = Items::new(self.alloc);
        for _turn in 0..tokens.left() {
            if !is(Terminal::And, tokens.ahead()) {
                return Ok(found);
            }
            found.push(self.next_conjunct(tokens, in_print)?.into_inner())?;
        }
        if is(Terminal::And, tokens.ahead()) {
            Err(tokens.refuse())
        } else {
            Ok(found)
        }
    }

    /// `{ && isin }`
    #[tactic(auto, unfolding(awk_tree::specs::Expressions::and_rest))]
    fn and_rest(
        &self,
        tokens: &mut Tokens<'_>,
        in_print: bool,
        left: Boxed<Expr>,
    ) -> Result<Boxed<Expr>, ParseError>
        requires { Nests self.now.depth (F.pre self.now.inner) (F.post self.now.inner) }
        ensures { Reads view (spec.and_rest self.now.depth (spec.expr self.now.depth) in_print (view left) tokens.old)
            result tokens.new }
    {
        let (left, conjuncts) = pair(left, self.conjuncts(tokens, in_print))?;
        Ok(and_of(self.alloc, left, conjuncts)?)
    }

    #[tactic(auto, unfolding(awk_tree::specs::Expressions::next_disjunct))]
    fn next_disjunct(
        &self,
        tokens: &mut Tokens<'_>,
        in_print: bool,
    ) -> Result<Boxed<Expr>, ParseError>
        requires { Nests self.now.depth (F.pre self.now.inner) (F.post self.now.inner) }
        ensures { Reads view (spec.next_disjunct self.now.depth (spec.expr self.now.depth) in_print tokens.old) result
            tokens.new }
    {
        tokens.one(Terminal::Or)?;
        tokens.skip();
        let first = self.conjunct(tokens, in_print)?;
        self.and_rest(tokens, in_print, first)
    }

    #[tactic(auto, unfolding(awk_tree::specs::Expressions::disjuncts))]
    fn disjuncts(&self, tokens: &mut Tokens<'_>, in_print: bool) -> Result<Items<Expr>, ParseError>
        requires { Nests self.now.depth (F.pre self.now.inner) (F.post self.now.inner) }
        ensures { Reads (map view) (spec.disjuncts self.now.depth (spec.expr self.now.depth) in_print tokens.old) result
            tokens.new }
    {
        let mut found = Items::new(self.alloc);
        for _turn in 0..tokens.left() {
            if !is(Terminal::Or, tokens.ahead()) {
                return Ok(found);
            }
            found.push(self.next_disjunct(tokens, in_print)?.into_inner())?;
        }
        if is(Terminal::Or, tokens.ahead()) {
            Err(tokens.refuse())
        } else {
            Ok(found)
        }
    }

    /// `{ || and }`
    #[tactic(auto, unfolding(awk_tree::specs::Expressions::or_rest))]
    fn or_rest(
        &self,
        tokens: &mut Tokens<'_>,
        in_print: bool,
        left: Boxed<Expr>,
    ) -> Result<Boxed<Expr>, ParseError>
        requires { Nests self.now.depth (F.pre self.now.inner) (F.post self.now.inner) }
        ensures { Reads view (spec.or_rest self.now.depth (spec.expr self.now.depth) in_print (view left) tokens.old)
            result tokens.new }
    {
        let (left, disjuncts) = pair(left, self.disjuncts(tokens, in_print))?;
        Ok(or_of(self.alloc, left, disjuncts)?)
    }

    #[tactic(auto, unfolding(awk_tree::specs::Expressions::then_branch))]
    fn then_branch(
        &self,
        tokens: &mut Tokens<'_>,
        in_print: bool,
    ) -> Result<Boxed<Expr>, ParseError>
        requires { Nests self.now.depth (F.pre self.now.inner) (F.post self.now.inner) }
        ensures { Reads view (spec.then_branch self.now.depth (spec.expr self.now.depth) in_print tokens.old) result
            tokens.new }
    {
        tokens.one(Terminal::Question)?;
        let then = self.nested(tokens, Goal::Expr(in_print))?;
        let (then, _colon) = pair(then, tokens.one(Terminal::Colon))?;
        Ok(then)
    }

    /// `[ ? expr : expr ]`
    #[tactic(auto, unfolding(awk_tree::specs::Expressions::choose_rest))]
    fn choose_rest(
        &self,
        tokens: &mut Tokens<'_>,
        in_print: bool,
        left: Boxed<Expr>,
    ) -> Result<Boxed<Expr>, ParseError>
        requires { Nests self.now.depth (F.pre self.now.inner) (F.post self.now.inner) }
        ensures { Reads view (spec.choose_rest self.now.depth (spec.expr self.now.depth) in_print (view left)
            tokens.old) result tokens.new }
    {
        if !is(tokens.ahead(), Terminal::Question) {
            return Ok(left);
        }
        let both = pair(left, self.then_branch(tokens, in_print))?;
        let ((left, then), otherwise) = pair(both, self.nested(tokens, Goal::Expr(in_print)))?;
        Ok(choose(self.alloc, left, then, otherwise)?)
    }

    /// From the first operand of all chains on, to the end of an expression.
    #[tactic(auto, using(crate::proofs::Stops::expression_stops))]
    pub(crate) fn expr_rest(
        &self,
        tokens: &mut Tokens<'_>,
        in_print: bool,
        left: Boxed<Expr>,
    ) -> Result<Boxed<Expr>, ParseError>
        requires { Nests self.now.depth (F.pre self.now.inner) (F.post self.now.inner) }
        ensures { Reads view (spec.expr_rest self.now.depth (spec.expr self.now.depth) in_print (view left) tokens.old)
            result tokens.new }
    {
        if ends_expression(tokens.ahead()) {
            return Ok(left);
        }
        self.operators(tokens, in_print, left)
    }

    /// The same, rule by rule.
    #[tactic(auto, unfolding(awk_tree::specs::Expressions::expr_rest))]
    fn operators(
        &self,
        tokens: &mut Tokens<'_>,
        in_print: bool,
        left: Boxed<Expr>,
    ) -> Result<Boxed<Expr>, ParseError>
        requires { Nests self.now.depth (F.pre self.now.inner) (F.post self.now.inner) }
        ensures { Reads view (spec.expr_rest self.now.depth (spec.expr self.now.depth) in_print (view left) tokens.old)
            result tokens.new }
    {
        let left = self.assigned(tokens, in_print, left)?;
        let left = self.and_rest(tokens, in_print, left)?;
        let left = self.or_rest(tokens, in_print, left)?;
        self.choose_rest(tokens, in_print, left)
    }

    /// An expression. With the flag, `>` outside parentheses is a redirection.
    #[tactic(auto, unfolding(awk_tree::specs::Expressions::expression))]
    pub(crate) fn expression(
        &self,
        tokens: &mut Tokens<'_>,
        in_print: bool,
    ) -> Result<Boxed<Expr>, ParseError>
        requires { Nests self.now.depth (F.pre self.now.inner) (F.post self.now.inner) }
        ensures { Reads view (spec.expression self.now.depth (spec.expr self.now.depth) in_print tokens.old) result
            tokens.new }
    {
        let left = self.isin(tokens, in_print)?;
        self.expr_rest(tokens, in_print, left)
    }

    /// What is read to a goal.
    pub(crate) fn level(
        &self,
        tokens: &mut Tokens<'_>,
        goal: Goal,
    ) -> Result<Boxed<Expr>, ParseError>
        requires { Nests self.now.depth (F.pre self.now.inner) (F.post self.now.inner) }
        ensures { Reads view (spec.level self.now.depth (spec.expr self.now.depth) goal tokens.old) result tokens.new }
    {
        match goal {
            Goal::Expr(in_print) => self.expression(tokens, in_print),
            Goal::Unary => self.unary(tokens),
            Goal::Operand => self.operand(tokens),
            Goal::Lvalue => self.lvalue(tokens),
            Goal::File => self.inc(tokens),
        }
    }
}
