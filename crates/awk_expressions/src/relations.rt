// From a piped `getline` up to `in`.

ghost use Rattle.std.specs.Prelude.{◌≡◌, map, IfOk};
ghost use Rattle.awk_expressions.specs.Nests.{Nests};
ghost use Rattle.awk_tree.specs.Expressions as spec;
ghost use Rattle.awk_tree.specs.Input.{Reads};
ghost use Rattle.awk_tree.specs.Tree as tree;
ghost use Rattle.awk_tree.specs.Tree.{trees_of};
ghost use Rattle.awk_tree.specs.View.{view, view_piped};

use crate::expression_signs::{comparison, ends_chains, matching};
use crate::grammar::Grammar;
use crate::members::{in_name, in_names, in_rest};
use crate::nodes::{compare, joined, matched, paren, pipe_of, unboxed};
use crate::pairs::pair;
use crate::terminals::is;
use crate::tokens::Tokens;
use awk_text::place::Place;
use awk_tree::{Expr, Goal, Member, ParseError, Piped, Terminal};
use sqlite_items::{Boxed, Items};
use std::alloc::{AllocError, Global};

#[tactic(auto, using(awk_tree::proofs::Views::views))]
fn group(
    alloc: Global,
    place: Place,
    keys: Items<Expr>,
    arrays: Items<Member>,
) -> Result<Boxed<Expr>, AllocError>
    ensures { IfOk result (λ e. view e ≡ tree.group place (trees_of (map view keys)) arrays) }
{
    Boxed::new(alloc, Expr::Group(place, keys, arrays))
}

impl<F: Fn(Global, &mut Tokens<'_>, usize, Goal) -> Result<Boxed<Expr>, ParseError>> Grammar<F> {
    #[tactic(auto, unfolding(awk_tree::specs::Expressions::one_pipe))]
    fn one_pipe(&self, tokens: &mut Tokens<'_>) -> Result<Piped<Expr>, ParseError>
        requires { Nests self.now.depth (F.pre self.now.inner) (F.post self.now.inner) }
        ensures { Reads view_piped (spec.one_pipe self.now.depth (spec.expr self.now.depth) tokens.old) result
            tokens.new }
    {
        tokens.any()?;
        let token = tokens.one(Terminal::Getline)?;
        let target = self.target(tokens)?;
        Ok(Piped {
            place: token.place,
            target: unboxed(target),
        })
    }

    #[tactic(auto, unfolding(awk_tree::specs::Expressions::pipes))]
    fn pipes(&self, tokens: &mut Tokens<'_>) -> Result<Items<Piped<Expr>>, ParseError>
        requires { Nests self.now.depth (F.pre self.now.inner) (F.post self.now.inner) }
        ensures { Reads (map view_piped) (spec.pipes self.now.depth (spec.expr self.now.depth) tokens.old) result
            tokens.new }
    {
        let mut found = Items::new(self.alloc);
        for _turn in 0..tokens.left() {
            if !is(Terminal::BarGetline, tokens.ahead()) {
                return Ok(found);
            }
            found.push(self.one_pipe(tokens)?)?;
        }
        if is(Terminal::BarGetline, tokens.ahead()) {
            Err(tokens.refuse())
        } else {
            Ok(found)
        }
    }

    /// `{ | getline [ lvalue ] }`
    #[tactic(auto, unfolding(awk_tree::specs::Expressions::pipe_rest))]
    fn pipe_rest(
        &self,
        tokens: &mut Tokens<'_>,
        left: Boxed<Expr>,
    ) -> Result<Boxed<Expr>, ParseError>
        requires { Nests self.now.depth (F.pre self.now.inner) (F.post self.now.inner) }
        ensures { Reads view (spec.pipe_rest self.now.depth (spec.expr self.now.depth) (view left) tokens.old) result
            tokens.new }
    {
        let (left, pipes) = pair(left, self.pipes(tokens))?;
        Ok(pipe_of(self.alloc, left, pipes)?)
    }

    #[tactic(auto, unfolding(awk_tree::specs::Expressions::pipe))]
    fn pipe(&self, tokens: &mut Tokens<'_>) -> Result<Boxed<Expr>, ParseError>
        requires { Nests self.now.depth (F.pre self.now.inner) (F.post self.now.inner) }
        ensures { Reads view (spec.pipe self.now.depth (spec.expr self.now.depth) tokens.old) result tokens.new }
    {
        let command = self.cat(tokens)?;
        self.pipe_rest(tokens, command)
    }

    /// `[ (< | <= | != | == | > | >=) pipe ]`: a comparison does not chain.
    #[tactic(auto, unfolding(awk_tree::specs::Expressions::compare_rest))]
    fn compare_rest(
        &self,
        tokens: &mut Tokens<'_>,
        in_print: bool,
        left: Boxed<Expr>,
    ) -> Result<Boxed<Expr>, ParseError>
        requires { Nests self.now.depth (F.pre self.now.inner) (F.post self.now.inner) }
        ensures { Reads view (spec.compare_rest self.now.depth (spec.expr self.now.depth) in_print (view left)
            tokens.old) result tokens.new }
    {
        let Some(how) = comparison(in_print, tokens.ahead()) else {
            return Ok(left);
        };
        let (left, token) = pair(left, tokens.any())?;
        let (left, right) = pair(left, self.pipe(tokens))?;
        Ok(compare(self.alloc, left, token.place, how, right)?)
    }

    #[tactic(auto, unfolding(awk_tree::specs::Expressions::cmp))]
    fn cmp(&self, tokens: &mut Tokens<'_>, in_print: bool) -> Result<Boxed<Expr>, ParseError>
        requires { Nests self.now.depth (F.pre self.now.inner) (F.post self.now.inner) }
        ensures { Reads view (spec.cmp self.now.depth (spec.expr self.now.depth) in_print tokens.old) result
            tokens.new }
    {
        let left = self.pipe(tokens)?;
        self.compare_rest(tokens, in_print, left)
    }

    /// `[ (~ | !~) cmp ]`: a match does not chain.
    #[tactic(auto, unfolding(awk_tree::specs::Expressions::match_rest))]
    fn match_rest(
        &self,
        tokens: &mut Tokens<'_>,
        in_print: bool,
        left: Boxed<Expr>,
    ) -> Result<Boxed<Expr>, ParseError>
        requires { Nests self.now.depth (F.pre self.now.inner) (F.post self.now.inner) }
        ensures { Reads view (spec.match_rest self.now.depth (spec.expr self.now.depth) in_print (view left) tokens.old)
            result tokens.new }
    {
        let Some(unlike) = matching(tokens.ahead()) else {
            return Ok(left);
        };
        let (left, token) = pair(left, tokens.any())?;
        let (left, right) = pair(left, self.cmp(tokens, in_print))?;
        Ok(matched(self.alloc, left, token.place, unlike, right)?)
    }

    /// From the first operand of all these chains on, up to `in`.
    #[tactic(auto, using(crate::proofs::Stops::unary_stops))]
    fn unary_rest(
        &self,
        tokens: &mut Tokens<'_>,
        in_print: bool,
        left: Boxed<Expr>,
    ) -> Result<Boxed<Expr>, ParseError>
        requires { Nests self.now.depth (F.pre self.now.inner) (F.post self.now.inner) }
        ensures { Reads view (spec.unary_rest self.now.depth (spec.expr self.now.depth) in_print (view left) tokens.old)
            result tokens.new }
    {
        if ends_chains(tokens.ahead()) {
            return Ok(left);
        }
        self.chains(tokens, in_print, left)
    }

    /// The same, rule by rule.
    #[tactic(auto, unfolding(awk_tree::specs::Expressions::unary_rest))]
    fn chains(
        &self,
        tokens: &mut Tokens<'_>,
        in_print: bool,
        left: Boxed<Expr>,
    ) -> Result<Boxed<Expr>, ParseError>
        requires { Nests self.now.depth (F.pre self.now.inner) (F.post self.now.inner) }
        ensures { Reads view (spec.unary_rest self.now.depth (spec.expr self.now.depth) in_print (view left) tokens.old)
            result tokens.new }
    {
        let left = self.product_rest(tokens, left)?;
        let left = self.sum_rest(tokens, left)?;
        let left = self.concat_rest(tokens, left)?;
        let left = self.pipe_rest(tokens, left)?;
        let left = self.compare_rest(tokens, in_print, left)?;
        let left = self.match_rest(tokens, in_print, left)?;
        in_rest(self.alloc, tokens, left)
    }

    /// What goes on from parentheses: from an operand, or `in` from a list of two or more.
    pub(crate) fn grouped(
        &self,
        tokens: &mut Tokens<'_>,
        in_print: bool,
        place: Place,
        first: Boxed<Expr>,
        more: Items<Expr>,
    ) -> Result<Boxed<Expr>, ParseError>
        requires { Nests self.now.depth (F.pre self.now.inner) (F.post self.now.inner) }
        ensures { Reads view (spec.grouped self.now.depth (spec.expr self.now.depth) in_print place (view first)
            (map view more) tokens.old) result tokens.new }
    {
        if more.is_empty() {
            let inside = paren(self.alloc, place, first)?;
            let left = self.power_rest(tokens, inside)?;
            return self.unary_rest(tokens, in_print, left);
        }
        let keys = joined(self.alloc, first.into_inner(), more)?;
        let array = in_name(self.alloc, tokens)?;
        let arrays = in_names(self.alloc, tokens)?;
        let arrays = joined(self.alloc, array, arrays)?;
        Ok(group(self.alloc, place, keys, arrays)?)
    }

    #[tactic(auto, unfolding(awk_tree::specs::Expressions::from_paren))]
    fn from_paren(&self, tokens: &mut Tokens<'_>, in_print: bool) -> Result<Boxed<Expr>, ParseError>
        requires { Nests self.now.depth (F.pre self.now.inner) (F.post self.now.inner) }
        ensures { Reads view (spec.from_paren self.now.depth (spec.expr self.now.depth) in_print tokens.old) result
            tokens.new }
    {
        let token = tokens.one(Terminal::OpenParen)?;
        let first = self.nested(tokens, Goal::Expr(false))?;
        let list = pair(first, self.commas(tokens))?;
        let ((first, more), _close) = pair(list, tokens.one(Terminal::CloseParen))?;
        self.grouped(tokens, in_print, token.place, first, more)
    }

    /// `isin = match { in NAME } | ( list ) in NAME { in NAME }`
    #[tactic(auto, unfolding(awk_tree::specs::Expressions::isin))]
    pub(crate) fn isin(
        &self,
        tokens: &mut Tokens<'_>,
        in_print: bool,
    ) -> Result<Boxed<Expr>, ParseError>
        requires { Nests self.now.depth (F.pre self.now.inner) (F.post self.now.inner) }
        ensures { Reads view (spec.isin self.now.depth (spec.expr self.now.depth) in_print tokens.old) result
            tokens.new }
    {
        if is(tokens.ahead(), Terminal::OpenParen) {
            return self.from_paren(tokens, in_print);
        }
        let first = self.unary(tokens)?;
        self.unary_rest(tokens, in_print, first)
    }
}
