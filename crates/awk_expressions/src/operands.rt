// Operands, and the signs before and after them.

ghost use Rattle.awk_expressions.specs.Nests.{Nests};
ghost use Rattle.awk_tree.specs.Expressions as spec;
ghost use Rattle.awk_tree.specs.Input.{Reads};
ghost use Rattle.awk_tree.specs.View.{view};

use crate::expression_signs::{sign, step};
use crate::grammar::Grammar;
use crate::nodes::{after, before, is_lvalue, name_of, paren, power, signed, text_of};
use crate::terminals::is;
use crate::tokens::Tokens;
use awk_tree::{Expr, Goal, ParseError, Sign, Step, Terminal};
use sqlite_items::Boxed;
use std::alloc::Global;

impl<F: Fn(Global, &mut Tokens<'_>, usize, Goal) -> Result<Boxed<Expr>, ParseError>> Grammar<F> {
    /// `( expr )`
    #[tactic(auto, using(awk_tree::proofs::Views::views), unfolding(awk_tree::specs::Expressions::in_paren))]
    fn in_paren(&self, tokens: &mut Tokens<'_>) -> Result<Boxed<Expr>, ParseError>
        requires { Nests self.now.depth (F.pre self.now.inner) (F.post self.now.inner) }
        ensures { Reads view (spec.in_paren self.now.depth (spec.expr self.now.depth) tokens.old) result tokens.new }
    {
        let place = tokens.one(Terminal::OpenParen)?.place;
        let x = self.nested(tokens, Goal::Expr(false))?;
        tokens.one(Terminal::CloseParen)?;
        Ok(paren(self.alloc, place, x)?)
    }

    /// `CALLNAME ( [ list ] )`
    #[tactic(auto, using(awk_tree::proofs::Views::views), unfolding(awk_tree::specs::Expressions::call_of))]
    fn call_of(&self, tokens: &mut Tokens<'_>) -> Result<Boxed<Expr>, ParseError>
        requires { Nests self.now.depth (F.pre self.now.inner) (F.post self.now.inner) }
        ensures { Reads view (spec.call_of self.now.depth (spec.expr self.now.depth) tokens.old) result tokens.new }
    {
        let token = tokens.one(Terminal::CallName)?;
        let arguments = self.arguments(tokens)?;
        Ok(Boxed::new(
            self.alloc,
            Expr::Call(name_of(self.alloc, token)?, arguments),
        )?)
    }

    /// An operand with no sign before or after it.
    #[tactic(auto, using(awk_tree::proofs::Views::views), unfolding(awk_tree::specs::Expressions::prim))]
    pub(crate) fn prim(&self, tokens: &mut Tokens<'_>) -> Result<Boxed<Expr>, ParseError>
        requires { Nests self.now.depth (F.pre self.now.inner) (F.post self.now.inner) }
        ensures { Reads view (spec.prim self.now.depth (spec.expr self.now.depth) tokens.old) result tokens.new }
    {
        match tokens.ahead() {
            Terminal::Number => {
                let token = tokens.any()?;
                Ok(Boxed::new(
                    self.alloc,
                    Expr::Number(token.place, text_of(self.alloc, token)?),
                )?)
            }
            Terminal::Quoted => {
                let token = tokens.any()?;
                Ok(Boxed::new(
                    self.alloc,
                    Expr::Quoted(token.place, text_of(self.alloc, token)?),
                )?)
            }
            Terminal::Pattern => {
                let token = tokens.any()?;
                Ok(Boxed::new(
                    self.alloc,
                    Expr::Pattern(token.place, text_of(self.alloc, token)?),
                )?)
            }
            Terminal::Name => self.named(tokens),
            Terminal::Dollar => self.field_of(tokens),
            Terminal::OpenParen => self.in_paren(tokens),
            Terminal::CallName => self.call_of(tokens),
            Terminal::Builtin(which) => self.builtin(tokens, which),
            Terminal::Getline => self.getline(tokens),
            _ => Err(tokens.refuse()),
        }
    }

    /// `(++ | --) lvalue`
    #[tactic(auto, using(awk_tree::proofs::Views::views), unfolding(awk_tree::specs::Expressions::step_before))]
    fn step_before(&self, tokens: &mut Tokens<'_>, which: Step) -> Result<Boxed<Expr>, ParseError>
        requires { Nests self.now.depth (F.pre self.now.inner) (F.post self.now.inner) }
        ensures { Reads view (spec.step_before self.now.depth (spec.expr self.now.depth) which tokens.old) result
            tokens.new }
    {
        let place = tokens.any()?.place;
        let x = self.nested(tokens, Goal::Lvalue)?;
        Ok(before(self.alloc, place, which, x)?)
    }

    /// `(! | + | -)`, and what stands after it
    #[tactic(auto, using(awk_tree::proofs::Views::views), unfolding(awk_tree::specs::Expressions::signed_by))]
    fn signed_by(
        &self,
        tokens: &mut Tokens<'_>,
        which: Sign,
        rest: Goal,
    ) -> Result<Boxed<Expr>, ParseError>
        requires { Nests self.now.depth (F.pre self.now.inner) (F.post self.now.inner) }
        ensures { Reads view (spec.signed_by self.now.depth (spec.expr self.now.depth) which rest tokens.old) result
            tokens.new }
    {
        let place = tokens.any()?.place;
        let x = self.nested(tokens, rest)?;
        Ok(signed(self.alloc, place, which, x)?)
    }

    /// What stands after `$`.
    #[tactic(auto, using(awk_tree::proofs::Views::views), unfolding(awk_tree::specs::Expressions::operand))]
    pub(crate) fn operand(&self, tokens: &mut Tokens<'_>) -> Result<Boxed<Expr>, ParseError>
        requires { Nests self.now.depth (F.pre self.now.inner) (F.post self.now.inner) }
        ensures { Reads view (spec.operand self.now.depth (spec.expr self.now.depth) tokens.old) result tokens.new }
    {
        let kind = tokens.ahead();
        if let Some(which) = sign(kind) {
            return self.signed_by(tokens, which, Goal::Operand);
        }
        match step(kind) {
            Some(which) => self.step_before(tokens, which),
            None => self.prim(tokens),
        }
    }

    /// `++` or `--` behind an lvalue, or what stands there.
    #[tactic(auto, using(awk_tree::proofs::Views::views), unfolding(awk_tree::specs::Expressions::step_after))]
    fn step_after(
        &self,
        tokens: &mut Tokens<'_>,
        left: Boxed<Expr>,
    ) -> Result<Boxed<Expr>, ParseError>
        requires { Nests self.now.depth (F.pre self.now.inner) (F.post self.now.inner) }
        ensures { Reads view (spec.step_after self.now.depth (spec.expr self.now.depth) (view left) tokens.old) result
            tokens.new }
    {
        match step(tokens.ahead()) {
            Some(which) if is_lvalue(left.get()) => {
                let place = tokens.any()?.place;
                Ok(after(self.alloc, left, place, which)?)
            }
            _ => Ok(left),
        }
    }

    /// `(++ | --) lvalue | lvalue (++ | --) | prim`
    #[tactic(auto, using(awk_tree::proofs::Views::views), unfolding(awk_tree::specs::Expressions::inc))]
    pub(crate) fn inc(&self, tokens: &mut Tokens<'_>) -> Result<Boxed<Expr>, ParseError>
        requires { Nests self.now.depth (F.pre self.now.inner) (F.post self.now.inner) }
        ensures { Reads view (spec.inc self.now.depth (spec.expr self.now.depth) tokens.old) result tokens.new }
    {
        match step(tokens.ahead()) {
            Some(which) => self.step_before(tokens, which),
            None => {
                let left = self.prim(tokens)?;
                self.step_after(tokens, left)
            }
        }
    }

    /// `[ ^ unary ]` behind what was read.
    #[tactic(auto, using(awk_tree::proofs::Views::views), unfolding(awk_tree::specs::Expressions::power_rest))]
    pub(crate) fn power_rest(
        &self,
        tokens: &mut Tokens<'_>,
        left: Boxed<Expr>,
    ) -> Result<Boxed<Expr>, ParseError>
        requires { Nests self.now.depth (F.pre self.now.inner) (F.post self.now.inner) }
        ensures { Reads view (spec.power_rest self.now.depth (spec.expr self.now.depth) (view left) tokens.old) result
            tokens.new }
    {
        if !is(tokens.ahead(), Terminal::Caret) {
            return Ok(left);
        }
        let place = tokens.one(Terminal::Caret)?.place;
        let exponent = self.nested(tokens, Goal::Unary)?;
        Ok(power(self.alloc, left, place, exponent)?)
    }

    /// `(! | + | -) unary | inc [ ^ unary ]`
    #[tactic(auto, using(awk_tree::proofs::Views::views), unfolding(awk_tree::specs::Expressions::unary))]
    pub(crate) fn unary(&self, tokens: &mut Tokens<'_>) -> Result<Boxed<Expr>, ParseError>
        requires { Nests self.now.depth (F.pre self.now.inner) (F.post self.now.inner) }
        ensures { Reads view (spec.unary self.now.depth (spec.expr self.now.depth) tokens.old) result tokens.new }
    {
        if let Some(which) = sign(tokens.ahead()) {
            return self.signed_by(tokens, which, Goal::Unary);
        }
        let base = self.inc(tokens)?;
        self.power_rest(tokens, base)
    }
}
