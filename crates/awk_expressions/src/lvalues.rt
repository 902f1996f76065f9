// What a value can be set to, and `getline`.

ghost use Rattle.std.specs.Prelude.{option_map};
ghost use Rattle.awk_expressions.specs.Nests.{Nests};
ghost use Rattle.awk_tree.specs.Expressions as spec;
ghost use Rattle.awk_tree.specs.Input.{Reads};
ghost use Rattle.awk_tree.specs.View.{view};

use crate::grammar::Grammar;
use crate::nodes::{field, getline, name_of};
use crate::pairs::pair;
use crate::terminals::is;
use crate::tokens::Tokens;
use awk_tree::{Expr, Goal, ParseError, Terminal};
use sqlite_items::Boxed;
use std::alloc::Global;

impl<F: Fn(Global, &mut Tokens<'_>, usize, Goal) -> Result<Boxed<Expr>, ParseError>> Grammar<F> {
    /// `NAME | NAME [ list ]`
    #[tactic(auto, using(awk_tree::proofs::Views::views), unfolding(awk_tree::specs::Expressions::named))]
    pub(crate) fn named(&self, tokens: &mut Tokens<'_>) -> Result<Boxed<Expr>, ParseError>
        requires { Nests self.now.depth (F.pre self.now.inner) (F.post self.now.inner) }
        ensures { Reads view (spec.named self.now.depth (spec.expr self.now.depth) tokens.old) result tokens.new }
    {
        let token = tokens.one(Terminal::Name)?;
        if !is(tokens.ahead(), Terminal::OpenBracket) {
            return Ok(Boxed::new(self.alloc, Expr::Name(name_of(self.alloc, token)?))?);
        }
        tokens.one(Terminal::OpenBracket)?;
        let subscript = self.list(tokens)?;
        tokens.one(Terminal::CloseBracket)?;
        Ok(Boxed::new(
            self.alloc,
            Expr::Element(name_of(self.alloc, token)?, subscript),
        )?)
    }

    /// `$ operand`
    #[tactic(auto, using(awk_tree::proofs::Views::views), unfolding(awk_tree::specs::Expressions::field_of))]
    pub(crate) fn field_of(&self, tokens: &mut Tokens<'_>) -> Result<Boxed<Expr>, ParseError>
        requires { Nests self.now.depth (F.pre self.now.inner) (F.post self.now.inner) }
        ensures { Reads view (spec.field_of self.now.depth (spec.expr self.now.depth) tokens.old) result tokens.new }
    {
        let token = tokens.one(Terminal::Dollar)?;
        let operand = self.nested(tokens, Goal::Operand)?;
        Ok(field(self.alloc, token.place, operand)?)
    }

    /// `named | $ operand`
    #[tactic(auto, using(awk_tree::proofs::Views::views), unfolding(awk_tree::specs::Expressions::lvalue))]
    pub(crate) fn lvalue(&self, tokens: &mut Tokens<'_>) -> Result<Boxed<Expr>, ParseError>
        requires { Nests self.now.depth (F.pre self.now.inner) (F.post self.now.inner) }
        ensures { Reads view (spec.lvalue self.now.depth (spec.expr self.now.depth) tokens.old) result tokens.new }
    {
        match tokens.ahead() {
            Terminal::Name => self.named(tokens),
            Terminal::Dollar => self.field_of(tokens),
            _ => Err(tokens.refuse()),
        }
    }

    /// The lvalue of a `getline`, where there is one.
    #[tactic(auto, using(awk_tree::proofs::Views::views), unfolding(awk_tree::specs::Expressions::target))]
    pub(crate) fn target(&self, tokens: &mut Tokens<'_>) -> Result<Option<Boxed<Expr>>, ParseError>
        requires { Nests self.now.depth (F.pre self.now.inner) (F.post self.now.inner) }
        ensures { Reads (option_map view) (spec.target self.now.depth (spec.expr self.now.depth) tokens.old) result
            tokens.new }
    {
        match tokens.ahead() {
            Terminal::Name => Ok(Some(self.named(tokens)?)),
            Terminal::Dollar => Ok(Some(self.field_of(tokens)?)),
            _ => Ok(None),
        }
    }

    /// `[ < file ]`
    #[tactic(auto, using(awk_tree::proofs::Views::views), unfolding(awk_tree::specs::Expressions::source))]
    fn source(&self, tokens: &mut Tokens<'_>) -> Result<Option<Boxed<Expr>>, ParseError>
        requires { Nests self.now.depth (F.pre self.now.inner) (F.post self.now.inner) }
        ensures { Reads (option_map view) (spec.source self.now.depth (spec.expr self.now.depth) tokens.old) result
            tokens.new }
    {
        if !is(tokens.ahead(), Terminal::Less) {
            return Ok(None);
        }
        tokens.one(Terminal::Less)?;
        Ok(Some(self.nested(tokens, Goal::File)?))
    }

    /// `getline [ lvalue ] [ < file ]`
    #[tactic(auto, using(awk_tree::proofs::Views::views), unfolding(awk_tree::specs::Expressions::getline))]
    pub(crate) fn getline(&self, tokens: &mut Tokens<'_>) -> Result<Boxed<Expr>, ParseError>
        requires { Nests self.now.depth (F.pre self.now.inner) (F.post self.now.inner) }
        ensures { Reads view (spec.getline self.now.depth (spec.expr self.now.depth) tokens.old) result tokens.new }
    {
        let token = tokens.one(Terminal::Getline)?;
        let target = self.target(tokens)?;
        let (target, source) = pair(target, self.source(tokens))?;
        Ok(getline(self.alloc, token.place, target, source)?)
    }
}
