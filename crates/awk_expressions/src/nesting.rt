// Expressions, nested no deeper than a number.

ghost use Rattle.std.specs.Prelude.{◌≡◌, map};
ghost use Rattle.awk_tree.specs.Expressions as spec;
ghost use Rattle.awk_tree.specs.Input.{Reads};
ghost use Rattle.awk_tree.specs.View.{view};

use crate::grammar::Grammar;
use crate::tokens::Tokens;
use awk_text::place::Place;
use awk_tree::{Expr, Goal, ParseError};
use sqlite_items::{Boxed, Items};
use std::alloc::Global;

/// What is read to a goal, nested no deeper than the number.
pub fn expr(
    alloc: Global,
    tokens: &mut Tokens<'_>,
    depth: usize,
    goal: Goal,
) -> Result<Boxed<Expr>, ParseError>
    ensures { Reads view (spec.expr depth goal tokens.old) result tokens.new }
{
    if depth == 0 {
        return Err(tokens.deep());
    }
    rules(alloc, depth - 1, expr).level(tokens, goal)
}

/// The rules at a level of nesting.
pub(crate) fn rules<F>(alloc: Global, depth: usize, inner: F) -> Grammar<F>
    ensures { result ≡ record { alloc = alloc; depth = depth; inner = inner } }
{
    Grammar {
        alloc,
        depth,
        inner,
    }
}

/// The rules of expressions where so many levels of nesting are left.
#[derive(Clone, Copy)]
pub struct Level {
    pub alloc: Global,
    pub depth: usize,
}

impl Level {
    /// What is read to a goal, one level of nesting deeper.
    pub fn nested(&self, tokens: &mut Tokens<'_>, goal: Goal) -> Result<Boxed<Expr>, ParseError>
        ensures { Reads view (spec.expr self.now.depth goal tokens.old) result tokens.new }
    {
        expr(self.alloc, tokens, self.depth, goal)
    }

    /// An expression. With the flag, `>` outside parentheses is a redirection.
    pub fn expression(
        &self,
        tokens: &mut Tokens<'_>,
        in_print: bool,
    ) -> Result<Boxed<Expr>, ParseError>
        ensures { Reads view (spec.expression self.now.depth (spec.expr self.now.depth) in_print tokens.old) result
            tokens.new }
    {
        rules(self.alloc, self.depth, expr).expression(tokens, in_print)
    }

    /// From the first operand of all chains on, to the end of an expression.
    pub fn expr_rest(
        &self,
        tokens: &mut Tokens<'_>,
        in_print: bool,
        left: Boxed<Expr>,
    ) -> Result<Boxed<Expr>, ParseError>
        ensures { Reads view (spec.expr_rest self.now.depth (spec.expr self.now.depth) in_print (view left) tokens.old)
            result tokens.new }
    {
        rules(self.alloc, self.depth, expr).expr_rest(tokens, in_print, left)
    }

    /// What goes on from parentheses: from an operand, or `in` from a list of two or more.
    pub fn grouped(
        &self,
        tokens: &mut Tokens<'_>,
        in_print: bool,
        place: Place,
        first: Boxed<Expr>,
        more: Items<Expr>,
    ) -> Result<Boxed<Expr>, ParseError>
        ensures { Reads view (spec.grouped self.now.depth (spec.expr self.now.depth) in_print place (view first)
            (map view more) tokens.old) result tokens.new }
    {
        rules(self.alloc, self.depth, expr).grouped(tokens, in_print, place, first, more)
    }

    /// A concatenation, or one operand of it.
    pub fn cat(&self, tokens: &mut Tokens<'_>) -> Result<Boxed<Expr>, ParseError>
        ensures { Reads view (spec.cat self.now.depth (spec.expr self.now.depth) tokens.old) result tokens.new }
    {
        rules(self.alloc, self.depth, expr).cat(tokens)
    }

    /// `expr { , expr }`
    pub fn list(&self, tokens: &mut Tokens<'_>) -> Result<Items<Expr>, ParseError>
        ensures { Reads (map view) (spec.list self.now.depth (spec.expr self.now.depth) tokens.old) result tokens.new }
    {
        rules(self.alloc, self.depth, expr).list(tokens)
    }

    /// `{ , expr }`
    pub fn commas(&self, tokens: &mut Tokens<'_>) -> Result<Items<Expr>, ParseError>
        ensures { Reads (map view) (spec.commas self.now.depth (spec.expr self.now.depth) tokens.old) result
            tokens.new }
    {
        rules(self.alloc, self.depth, expr).commas(tokens)
    }
}
