// Built-in functions, behind their word.

ghost use Rattle.std.specs.Prelude.{map, option_map};
ghost use Rattle.awk_expressions.specs.Nests.{Nests};
ghost use Rattle.awk_tree.specs.Expressions as spec;
ghost use Rattle.awk_tree.specs.Input.{Reads};
ghost use Rattle.awk_tree.specs.View.{view};

use crate::grammar::Grammar;
use crate::nodes::{name_of, only, split, substitute, up_to_three};
use crate::pairs::pair;
use crate::terminals::is;
use crate::tokens::Tokens;
use awk_text::place::Place;
use awk_tokens::Parameters;
use awk_tree::{Builtin, Expr, Goal, ParseError, Terminal};
use sqlite_items::{Boxed, Items};
use std::alloc::Global;

impl<F: Fn(Global, &mut Tokens<'_>, usize, Goal) -> Result<Boxed<Expr>, ParseError>> Grammar<F> {
    /// `( )`
    #[tactic(auto, using(awk_tree::proofs::Views::views), unfolding(awk_tree::specs::Expressions::of_none))]
    fn of_none(
        &self,
        tokens: &mut Tokens<'_>,
        place: Place,
        which: Builtin,
    ) -> Result<Boxed<Expr>, ParseError>
        ensures { Reads view (spec.of_none self.now.depth (spec.expr self.now.depth) place which tokens.old) result
            tokens.new }
    {
        tokens.one(Terminal::OpenParen)?;
        if self.depth == 0 {
            return Err(tokens.deep());
        }
        tokens.one(Terminal::CloseParen)?;
        Ok(Boxed::new(
            self.alloc,
            Expr::Builtin(place, which, Items::new(self.alloc)),
        )?)
    }

    /// `( expr )`
    #[tactic(auto, using(awk_tree::proofs::Views::views), unfolding(awk_tree::specs::Expressions::one_argument))]
    fn one_argument(&self, tokens: &mut Tokens<'_>) -> Result<Boxed<Expr>, ParseError>
        requires { Nests self.now.depth (F.pre self.now.inner) (F.post self.now.inner) }
        ensures { Reads view (spec.one_argument self.now.depth (spec.expr self.now.depth) tokens.old) result
            tokens.new }
    {
        tokens.one(Terminal::OpenParen)?;
        let x = self.nested(tokens, Goal::Expr(false))?;
        tokens.one(Terminal::CloseParen)?;
        Ok(x)
    }

    /// A function of one argument.
    #[tactic(auto, using(awk_tree::proofs::Views::views), unfolding(awk_tree::specs::Expressions::of_one))]
    fn of_one(
        &self,
        tokens: &mut Tokens<'_>,
        place: Place,
        which: Builtin,
    ) -> Result<Boxed<Expr>, ParseError>
        requires { Nests self.now.depth (F.pre self.now.inner) (F.post self.now.inner) }
        ensures { Reads view (spec.of_one self.now.depth (spec.expr self.now.depth) place which tokens.old) result
            tokens.new }
    {
        let x = self.one_argument(tokens)?;
        Ok(Boxed::new(
            self.alloc,
            Expr::Builtin(place, which, only(self.alloc, x)?),
        )?)
    }

    /// `( expr , expr )`
    #[tactic(auto, using(awk_tree::proofs::Views::views), unfolding(awk_tree::specs::Expressions::of_two))]
    fn of_two(
        &self,
        tokens: &mut Tokens<'_>,
        place: Place,
        which: Builtin,
    ) -> Result<Boxed<Expr>, ParseError>
        requires { Nests self.now.depth (F.pre self.now.inner) (F.post self.now.inner) }
        ensures { Reads view (spec.of_two self.now.depth (spec.expr self.now.depth) place which tokens.old) result
            tokens.new }
    {
        tokens.one(Terminal::OpenParen)?;
        let mut all = only(self.alloc, self.nested(tokens, Goal::Expr(false))?)?;
        all.push(self.next_in_list(tokens)?.into_inner())?;
        tokens.one(Terminal::CloseParen)?;
        Ok(Boxed::new(self.alloc, Expr::Builtin(place, which, all))?)
    }

    /// `[ , expr ] )`
    #[tactic(auto, using(awk_tree::proofs::Views::views), unfolding(awk_tree::specs::Expressions::last_next))]
    fn last_next(&self, tokens: &mut Tokens<'_>) -> Result<Option<Boxed<Expr>>, ParseError>
        requires { Nests self.now.depth (F.pre self.now.inner) (F.post self.now.inner) }
        ensures { Reads (option_map view) (spec.last_next self.now.depth (spec.expr self.now.depth) tokens.old) result
            tokens.new }
    {
        let x = self.perhaps_next(tokens)?;
        tokens.one(Terminal::CloseParen)?;
        Ok(x)
    }

    /// `( expr , expr [ , expr ] )`
    #[tactic(auto, using(awk_tree::proofs::Views::views), unfolding(awk_tree::specs::Expressions::of_two_or_three))]
    fn of_two_or_three(
        &self,
        tokens: &mut Tokens<'_>,
        place: Place,
        which: Builtin,
    ) -> Result<Boxed<Expr>, ParseError>
        requires { Nests self.now.depth (F.pre self.now.inner) (F.post self.now.inner) }
        ensures { Reads view (spec.of_two_or_three self.now.depth (spec.expr self.now.depth) place which tokens.old)
            result tokens.new }
    {
        tokens.one(Terminal::OpenParen)?;
        let x = self.nested(tokens, Goal::Expr(false))?;
        let y = self.next_in_list(tokens)?;
        let z = self.last_next(tokens)?;
        Ok(Boxed::new(
            self.alloc,
            Expr::Builtin(place, which, up_to_three(self.alloc, x, y, z)?),
        )?)
    }

    /// `( list )`
    #[tactic(auto, using(awk_tree::proofs::Views::views), unfolding(awk_tree::specs::Expressions::of_list))]
    fn of_list(
        &self,
        tokens: &mut Tokens<'_>,
        place: Place,
        which: Builtin,
    ) -> Result<Boxed<Expr>, ParseError>
        requires { Nests self.now.depth (F.pre self.now.inner) (F.post self.now.inner) }
        ensures { Reads view (spec.of_list self.now.depth (spec.expr self.now.depth) place which tokens.old) result
            tokens.new }
    {
        tokens.one(Terminal::OpenParen)?;
        let all = self.list(tokens)?;
        tokens.one(Terminal::CloseParen)?;
        Ok(Boxed::new(self.alloc, Expr::Builtin(place, which, all))?)
    }

    /// `[ expr ] )`, where the parenthesis stays
    #[tactic(auto, using(awk_tree::proofs::Views::views), unfolding(awk_tree::specs::Expressions::one_or_none))]
    fn one_or_none(&self, tokens: &mut Tokens<'_>) -> Result<Items<Expr>, ParseError>
        requires { Nests self.now.depth (F.pre self.now.inner) (F.post self.now.inner) }
        ensures { Reads (map view) (spec.one_or_none self.now.depth (spec.expr self.now.depth) tokens.old) result
            tokens.new }
    {
        if is(tokens.ahead(), Terminal::CloseParen) {
            return Ok(Items::new(self.alloc));
        }
        let x = self.nested(tokens, Goal::Expr(false))?;
        Ok(only(self.alloc, x)?)
    }

    /// `( [ expr ] )`
    #[tactic(auto, using(awk_tree::proofs::Views::views), unfolding(awk_tree::specs::Expressions::of_one_or_none))]
    fn of_one_or_none(
        &self,
        tokens: &mut Tokens<'_>,
        place: Place,
        which: Builtin,
    ) -> Result<Boxed<Expr>, ParseError>
        requires { Nests self.now.depth (F.pre self.now.inner) (F.post self.now.inner) }
        ensures { Reads view (spec.of_one_or_none self.now.depth (spec.expr self.now.depth) place which tokens.old)
            result tokens.new }
    {
        tokens.one(Terminal::OpenParen)?;
        if self.depth == 0 {
            return Err(tokens.deep());
        }
        let all = self.one_or_none(tokens)?;
        tokens.one(Terminal::CloseParen)?;
        Ok(Boxed::new(self.alloc, Expr::Builtin(place, which, all))?)
    }

    /// `length | length ( ) | length ( expr )`
    #[tactic(auto, using(awk_tree::proofs::Views::views), unfolding(awk_tree::specs::Expressions::length_of))]
    fn length_of(&self, tokens: &mut Tokens<'_>, place: Place) -> Result<Boxed<Expr>, ParseError>
        requires { Nests self.now.depth (F.pre self.now.inner) (F.post self.now.inner) }
        ensures { Reads view (spec.length_of self.now.depth (spec.expr self.now.depth) place tokens.old) result
            tokens.new }
    {
        if !is(tokens.ahead(), Terminal::OpenParen) {
            return Ok(Boxed::new(self.alloc, Expr::Length(place))?);
        }
        self.of_one_or_none(tokens, place, Builtin::Length)
    }

    /// `( expr , NAME [ , expr ] )`
    #[tactic(auto, using(awk_tree::proofs::Views::views), unfolding(awk_tree::specs::Expressions::split_of))]
    fn split_of(&self, tokens: &mut Tokens<'_>, place: Place) -> Result<Boxed<Expr>, ParseError>
        requires { Nests self.now.depth (F.pre self.now.inner) (F.post self.now.inner) }
        ensures { Reads view (spec.split_of self.now.depth (spec.expr self.now.depth) place tokens.old) result
            tokens.new }
    {
        tokens.one(Terminal::OpenParen)?;
        let x = self.nested(tokens, Goal::Expr(false))?;
        let (x, _comma) = pair(x, tokens.one(Terminal::Comma))?;
        tokens.skip();
        let (x, token) = pair(x, tokens.one(Terminal::Name))?;
        let trees = pair(x, self.last_next(tokens))?;
        let ((x, y), array) = pair(trees, name_of(self.alloc, token))?;
        Ok(split(self.alloc, place, x, array, y)?)
    }

    /// `[ , lvalue ]`
    #[tactic(auto, using(awk_tree::proofs::Views::views), unfolding(awk_tree::specs::Expressions::perhaps_lvalue))]
    fn perhaps_lvalue(&self, tokens: &mut Tokens<'_>) -> Result<Option<Boxed<Expr>>, ParseError>
        requires { Nests self.now.depth (F.pre self.now.inner) (F.post self.now.inner) }
        ensures { Reads (option_map view) (spec.perhaps_lvalue self.now.depth (spec.expr self.now.depth) tokens.old)
            result tokens.new }
    {
        if !is(tokens.ahead(), Terminal::Comma) {
            return Ok(None);
        }
        tokens.one(Terminal::Comma)?;
        tokens.skip();
        Ok(Some(self.nested(tokens, Goal::Lvalue)?))
    }

    /// `[ , lvalue ] )`
    #[tactic(auto, using(awk_tree::proofs::Views::views), unfolding(awk_tree::specs::Expressions::last_lvalue))]
    fn last_lvalue(&self, tokens: &mut Tokens<'_>) -> Result<Option<Boxed<Expr>>, ParseError>
        requires { Nests self.now.depth (F.pre self.now.inner) (F.post self.now.inner) }
        ensures { Reads (option_map view) (spec.last_lvalue self.now.depth (spec.expr self.now.depth) tokens.old) result
            tokens.new }
    {
        let x = self.perhaps_lvalue(tokens)?;
        tokens.one(Terminal::CloseParen)?;
        Ok(x)
    }

    /// `( expr , expr [ , lvalue ] )`
    #[tactic(auto, using(awk_tree::proofs::Views::views), unfolding(awk_tree::specs::Expressions::substitute_of))]
    fn substitute_of(
        &self,
        tokens: &mut Tokens<'_>,
        place: Place,
        all: bool,
    ) -> Result<Boxed<Expr>, ParseError>
        requires { Nests self.now.depth (F.pre self.now.inner) (F.post self.now.inner) }
        ensures { Reads view (spec.substitute_of self.now.depth (spec.expr self.now.depth) place all tokens.old) result
            tokens.new }
    {
        tokens.one(Terminal::OpenParen)?;
        let x = self.nested(tokens, Goal::Expr(false))?;
        let y = self.next_in_list(tokens)?;
        let z = self.last_lvalue(tokens)?;
        Ok(substitute(self.alloc, place, all, x, y, z)?)
    }

    /// The word of a built-in function, and its arguments.
    #[tactic(auto, using(awk_tree::proofs::Views::views), unfolding(awk_tree::specs::Expressions::builtin))]
    pub(crate) fn builtin(
        &self,
        tokens: &mut Tokens<'_>,
        which: Builtin,
    ) -> Result<Boxed<Expr>, ParseError>
        requires { Nests self.now.depth (F.pre self.now.inner) (F.post self.now.inner) }
        ensures { Reads view (spec.builtin self.now.depth (spec.expr self.now.depth) which tokens.old) result
            tokens.new }
    {
        let place = tokens.any()?.place;
        match which.parameters() {
            Parameters::Zero => self.of_none(tokens, place, which),
            Parameters::One => self.of_one(tokens, place, which),
            Parameters::AtMostOne => self.of_one_or_none(tokens, place, which),
            Parameters::Two => self.of_two(tokens, place, which),
            Parameters::TwoOrThree => self.of_two_or_three(tokens, place, which),
            Parameters::OneOrMore => self.of_list(tokens, place, which),
            Parameters::Measured => self.length_of(tokens, place),
            Parameters::Pieces => self.split_of(tokens, place),
            Parameters::Replaced(all) => self.substitute_of(tokens, place, all),
        }
    }
}
