// Lists, and what stands in brackets.

ghost use Rattle.std.specs.Prelude.{map, option_map};
ghost use Rattle.awk_expressions.specs.Nests.{Nests};
ghost use Rattle.awk_tree.specs.Expressions as spec;
ghost use Rattle.awk_tree.specs.Input.{Reads};
ghost use Rattle.awk_tree.specs.View.{view};

use crate::grammar::Grammar;
use crate::nodes::joined;
use crate::terminals::is;
use crate::tokens::Tokens;
use awk_tree::{Expr, Goal, ParseError, Terminal};
use sqlite_items::{Boxed, Items};
use std::alloc::Global;

impl<F: Fn(Global, &mut Tokens<'_>, usize, Goal) -> Result<Boxed<Expr>, ParseError>> Grammar<F> {
    /// `, expr`
    #[tactic(auto, using(awk_tree::proofs::Views::views), unfolding(awk_tree::specs::Expressions::next_in_list))]
    pub(crate) fn next_in_list(&self, tokens: &mut Tokens<'_>) -> Result<Boxed<Expr>, ParseError>
        requires { Nests self.now.depth (F.pre self.now.inner) (F.post self.now.inner) }
        ensures { Reads view (spec.next_in_list self.now.depth (spec.expr self.now.depth) tokens.old) result
            tokens.new }
    {
        tokens.one(Terminal::Comma)?;
        tokens.skip();
        self.nested(tokens, Goal::Expr(false))
    }

    /// `{ , expr }`
    #[tactic(auto, using(awk_tree::proofs::Views::views), unfolding(awk_tree::specs::Expressions::commas))]
    pub(crate) fn commas(&self, tokens: &mut Tokens<'_>) -> Result<Items<Expr>, ParseError>
        requires { Nests self.now.depth (F.pre self.now.inner) (F.post self.now.inner) }
        ensures { Reads (map view) (spec.commas self.now.depth (spec.expr self.now.depth) tokens.old) result
            tokens.new }
    {
        let mut found = Items::new(self.alloc);
        for _turn in 0..tokens.left() {
            if !is(Terminal::Comma, tokens.ahead()) {
                return Ok(found);
            }
            found.push(self.next_in_list(tokens)?.into_inner())?;
        }
        if is(Terminal::Comma, tokens.ahead()) {
            Err(tokens.refuse())
        } else {
            Ok(found)
        }
    }

    /// `expr { , expr }`
    #[tactic(auto, using(awk_tree::proofs::Views::views), unfolding(awk_tree::specs::Expressions::list))]
    pub(crate) fn list(&self, tokens: &mut Tokens<'_>) -> Result<Items<Expr>, ParseError>
        requires { Nests self.now.depth (F.pre self.now.inner) (F.post self.now.inner) }
        ensures { Reads (map view) (spec.list self.now.depth (spec.expr self.now.depth) tokens.old) result tokens.new }
    {
        let first = self.nested(tokens, Goal::Expr(false))?;
        let more = self.commas(tokens)?;
        Ok(joined(self.alloc, first.into_inner(), more)?)
    }

    /// `[ , expr ]`
    #[tactic(auto, using(awk_tree::proofs::Views::views), unfolding(awk_tree::specs::Expressions::perhaps_next))]
    pub(crate) fn perhaps_next(
        &self,
        tokens: &mut Tokens<'_>,
    ) -> Result<Option<Boxed<Expr>>, ParseError>
        requires { Nests self.now.depth (F.pre self.now.inner) (F.post self.now.inner) }
        ensures { Reads (option_map view) (spec.perhaps_next self.now.depth (spec.expr self.now.depth) tokens.old)
            result tokens.new }
    {
        if is(tokens.ahead(), Terminal::Comma) {
            Ok(Some(self.next_in_list(tokens)?))
        } else {
            Ok(None)
        }
    }

    /// `[ list ] )`, where the parenthesis stays
    #[tactic(auto, using(awk_tree::proofs::Views::views), unfolding(awk_tree::specs::Expressions::list_or_none))]
    fn list_or_none(&self, tokens: &mut Tokens<'_>) -> Result<Items<Expr>, ParseError>
        requires { Nests self.now.depth (F.pre self.now.inner) (F.post self.now.inner) }
        ensures { Reads (map view) (spec.list_or_none self.now.depth (spec.expr self.now.depth) tokens.old) result
            tokens.new }
    {
        if is(tokens.ahead(), Terminal::CloseParen) {
            Ok(Items::new(self.alloc))
        } else {
            self.list(tokens)
        }
    }

    /// `( [ list ] )`
    #[tactic(auto, using(awk_tree::proofs::Views::views), unfolding(awk_tree::specs::Expressions::arguments))]
    pub(crate) fn arguments(&self, tokens: &mut Tokens<'_>) -> Result<Items<Expr>, ParseError>
        requires { Nests self.now.depth (F.pre self.now.inner) (F.post self.now.inner) }
        ensures { Reads (map view) (spec.arguments self.now.depth (spec.expr self.now.depth) tokens.old) result
            tokens.new }
    {
        tokens.one(Terminal::OpenParen)?;
        if self.depth == 0 {
            return Err(tokens.deep());
        }
        let found = self.list_or_none(tokens)?;
        tokens.one(Terminal::CloseParen)?;
        Ok(found)
    }
}
