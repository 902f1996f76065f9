// Statements that hold others.

ghost use Rattle.std.specs.Prelude.{◌≡◌, map, true, false};
ghost use Rattle.awk_statements.specs.NestsStatements.{NestsStatements};
ghost use Rattle.awk_statements.specs.Open.{is_open};
ghost use Rattle.awk_tree.specs.Looks as looks;
ghost use Rattle.awk_tree.specs.Expressions.{expr};
ghost use Rattle.awk_tree.specs.Input.{Reads, and_then};
ghost use Rattle.awk_tree.specs.Statements as spec;
ghost use Rattle.awk_tree.specs.View.{view, view_statement};

use crate::open::has_else;
use crate::simple::{condition, ended, perhaps_until, simple};
use crate::statement_signs::each_next;
use awk_expressions::{Level, Tokens, is, name_of, pair};
use awk_text::place::Place;
use awk_tree::{Expr, Nested, ParseError, Statement, Terminal};
use sqlite_items::{Boxed, Items};
use std::alloc::Global;

/// Where a statement stands, and what reads the statements in it.
#[derive(Clone, Copy)]
pub struct Bodies<B> {
    pub level: Level,
    pub body: B,
}

impl<B: Fn(Global, &mut Tokens<'_>, usize, Nested) -> Result<Statement, ParseError>> Bodies<B> {
    /// Statements one level deeper.
    fn nested(&self, tokens: &mut Tokens<'_>, which: Nested) -> Result<Statement, ParseError>
        requires { NestsStatements self.now.level.depth (B.pre self.now.body) (B.post self.now.body) }
        ensures { Reads view_statement (spec.statement self.now.level.depth which tokens.old) result tokens.new }
    {
        (self.body)(self.level.alloc, tokens, self.level.depth, which)
    }

    /// The body of a statement.
    fn body(&self, tokens: &mut Tokens<'_>) -> Result<Boxed<Statement>, ParseError>
        requires { NestsStatements self.now.level.depth (B.pre self.now.body) (B.post self.now.body) }
        ensures { Reads view_statement (spec.statement self.now.level.depth Nested.Body tokens.old) result tokens.new }
    {
        let body = self.nested(tokens, Nested::Body)?;
        Ok(Boxed::new(self.level.alloc, body)?)
    }

    /// What stands behind the body of an `if`. An `else` belongs to the nearest one.
    #[tactic(auto, using(awk_tree::proofs::Views::statement_views), unfolding(awk_tree::specs::Statements::else_rest))]
    fn else_rest(
        &self,
        tokens: &mut Tokens<'_>,
        test: Boxed<Expr>,
        body: Boxed<Statement>,
    ) -> Result<Statement, ParseError>
        requires nests { NestsStatements self.now.level.depth (B.pre self.now.body) (B.post self.now.body) }
        requires closed { is_open (view_statement body) ≡ true → looks.else_next tokens.old ≡ false }
        ensures { Reads view_statement
            (spec.else_rest self.now.level.depth (expr self.now.level.depth) (spec.statement self.now.level.depth)
            (view test) (view_statement body) tokens.old) result tokens.new }
    {
        if !has_else(body.get(), tokens.rest()) {
            return Ok(Statement::If(test.into_inner(), body));
        }
        tokens.past();
        let (test, _word) = pair(test, tokens.any())?;
        let (test, other) = pair(test, self.body(tokens))?;
        Ok(Statement::IfElse(test.into_inner(), body, other))
    }

    /// `if ( expr ) body [ else body ]`
    #[tactic(auto, using(awk_tree::proofs::Views::statement_views), unfolding(awk_tree::specs::Statements::if_of))]
    fn if_of(&self, tokens: &mut Tokens<'_>) -> Result<Statement, ParseError>
        requires { NestsStatements self.now.level.depth (B.pre self.now.body) (B.post self.now.body) }
        ensures { Reads view_statement
            (spec.if_of self.now.level.depth (expr self.now.level.depth) (spec.statement self.now.level.depth)
            tokens.old) result tokens.new }
    {
        tokens.one(Terminal::If)?;
        let test = condition(&self.level, tokens)?;
        let (test, body) = pair(test, self.body(tokens))?;
        self.else_rest(tokens, test, body)
    }

    /// `while ( expr ) body`
    #[tactic(auto, using(awk_tree::proofs::Views::statement_views), unfolding(awk_tree::specs::Statements::while_of))]
    fn while_of(&self, tokens: &mut Tokens<'_>) -> Result<Statement, ParseError>
        requires { NestsStatements self.now.level.depth (B.pre self.now.body) (B.post self.now.body) }
        ensures { Reads view_statement
            (spec.while_of self.now.level.depth (expr self.now.level.depth) (spec.statement self.now.level.depth)
            tokens.old) result tokens.new }
    {
        tokens.one(Terminal::While)?;
        let test = condition(&self.level, tokens)?;
        let (test, body) = pair(test, self.body(tokens))?;
        Ok(Statement::While(test.into_inner(), body))
    }

    /// `do body while ( expr )`, and what ends it.
    #[tactic(auto, using(awk_tree::proofs::Views::statement_views), unfolding(awk_tree::specs::Statements::do_of))]
    fn do_of(&self, tokens: &mut Tokens<'_>) -> Result<Statement, ParseError>
        requires { NestsStatements self.now.level.depth (B.pre self.now.body) (B.post self.now.body) }
        ensures { Reads view_statement
            (spec.do_of self.now.level.depth (expr self.now.level.depth) (spec.statement self.now.level.depth)
            tokens.old) result tokens.new }
    {
        tokens.one(Terminal::Do)?;
        let body = self.body(tokens)?;
        tokens.skip();
        tokens.one(Terminal::While)?;
        let test = condition(&self.level, tokens)?;
        ended(tokens, Statement::Do(body, test.into_inner()))
    }

    /// `[ expr ] ; [ expr ] ; [ expr ] ) body`
    #[tactic(auto, using(awk_tree::proofs::Views::statement_views), unfolding(awk_tree::specs::Statements::loop_rest))]
    fn loop_rest(&self, tokens: &mut Tokens<'_>) -> Result<Statement, ParseError>
        requires { NestsStatements self.now.level.depth (B.pre self.now.body) (B.post self.now.body) }
        ensures { Reads view_statement
            (spec.loop_rest self.now.level.depth (expr self.now.level.depth) (spec.statement self.now.level.depth)
            tokens.old) result tokens.new }
    {
        let first = perhaps_until(&self.level, tokens, Terminal::Semicolon)?;
        let tests = pair(
            first,
            perhaps_until(&self.level, tokens, Terminal::Semicolon),
        )?;
        let header = pair(
            tests,
            perhaps_until(&self.level, tokens, Terminal::CloseParen),
        )?;
        let (((first, test), step), body) = pair(header, self.body(tokens))?;
        Ok(Statement::For(first, test, step, body))
    }

    /// `NAME in NAME ) body`
    #[tactic(auto, using(awk_tree::proofs::Views::statement_views), unfolding(awk_tree::specs::Statements::each_rest))]
    fn each_rest(&self, tokens: &mut Tokens<'_>, place: Place) -> Result<Statement, ParseError>
        requires { NestsStatements self.now.level.depth (B.pre self.now.body) (B.post self.now.body) }
        ensures { Reads view_statement
            (spec.each_rest self.now.level.depth (expr self.now.level.depth) (spec.statement self.now.level.depth) place
            tokens.old) result tokens.new }
    {
        let key = tokens.one(Terminal::Name)?;
        tokens.one(Terminal::In)?;
        let array = tokens.one(Terminal::Name)?;
        tokens.one(Terminal::CloseParen)?;
        let body = self.body(tokens)?;
        let key = name_of(self.level.alloc, key)?;
        let array = name_of(self.level.alloc, array)?;
        Ok(Statement::ForIn(place, key, array, body))
    }

    /// What stands behind the `(` of a `for`.
    #[tactic(auto, using(awk_tree::proofs::Views::statement_views), unfolding(awk_tree::specs::Statements::for_rest))]
    fn for_rest(&self, tokens: &mut Tokens<'_>, place: Place) -> Result<Statement, ParseError>
        requires { NestsStatements self.now.level.depth (B.pre self.now.body) (B.post self.now.body) }
        ensures { Reads view_statement
            (spec.for_rest self.now.level.depth (expr self.now.level.depth) (spec.statement self.now.level.depth) place
            tokens.old) result tokens.new }
    {
        if each_next(tokens.rest()) {
            self.each_rest(tokens, place)
        } else {
            self.loop_rest(tokens)
        }
    }

    /// `for ( .. ) body`
    #[tactic(auto, using(awk_tree::proofs::Views::statement_views), unfolding(awk_tree::specs::Statements::for_of))]
    fn for_of(&self, tokens: &mut Tokens<'_>) -> Result<Statement, ParseError>
        requires { NestsStatements self.now.level.depth (B.pre self.now.body) (B.post self.now.body) }
        ensures { Reads view_statement
            (spec.for_of self.now.level.depth (expr self.now.level.depth) (spec.statement self.now.level.depth)
            tokens.old) result tokens.new }
    {
        let token = tokens.one(Terminal::For)?;
        tokens.one(Terminal::OpenParen)?;
        if self.level.depth == 0 {
            return Err(tokens.deep());
        }
        self.for_rest(tokens, token.place)
    }

    /// A statement that holds no other, and what ends it.
    fn simple(&self, tokens: &mut Tokens<'_>) -> Result<Statement, ParseError>
        requires { NestsStatements self.now.level.depth (B.pre self.now.body) (B.post self.now.body) }
        ensures { Reads view_statement
            (and_then (spec.simple self.now.level.depth (expr self.now.level.depth) tokens.old) spec.ended) result
            tokens.new }
    {
        let statement = simple(&self.level, tokens)?;
        ended(tokens, statement)
    }

    #[tactic(auto, using(awk_tree::proofs::Views::statement_views))]
    fn statement_by(&self, tokens: &mut Tokens<'_>, kind: Terminal) -> Result<Statement, ParseError>
        requires { NestsStatements self.now.level.depth (B.pre self.now.body) (B.post self.now.body) }
        ensures { Reads view_statement
            (spec.statement_by self.now.level.depth (expr self.now.level.depth) (spec.statement self.now.level.depth)
            kind tokens.old) result tokens.new }
    {
        match kind {
            Terminal::Semicolon => {
                tokens.any()?;
                Ok(Statement::Empty)
            }
            Terminal::OpenBrace => {
                tokens.any()?;
                self.nested(tokens, Nested::Braces)
            }
            Terminal::If => self.if_of(tokens),
            Terminal::While => self.while_of(tokens),
            Terminal::Do => self.do_of(tokens),
            Terminal::For => self.for_of(tokens),
            _ => self.simple(tokens),
        }
    }

    /// A statement, and what ends it.
    #[tactic(auto, unfolding(awk_tree::specs::Statements::statement_here))]
    fn statement_here(&self, tokens: &mut Tokens<'_>) -> Result<Statement, ParseError>
        requires { NestsStatements self.now.level.depth (B.pre self.now.body) (B.post self.now.body) }
        ensures { Reads view_statement
            (spec.statement_here self.now.level.depth (expr self.now.level.depth) (spec.statement self.now.level.depth)
            tokens.old) result tokens.new }
    {
        let kind = tokens.look();
        self.statement_by(tokens, kind)
    }

    /// As many as there are up to a `}`, with newlines before each.
    #[tactic(auto, unfolding(awk_tree::specs::Statements::statements))]
    fn statements(&self, tokens: &mut Tokens<'_>) -> Result<Items<Statement>, ParseError>
        requires { NestsStatements self.now.level.depth (B.pre self.now.body) (B.post self.now.body) }
        ensures { Reads (map view_statement)
            (spec.statements self.now.level.depth (expr self.now.level.depth) (spec.statement self.now.level.depth)
            tokens.old) result tokens.new }
    {
        let mut found = Items::new(self.level.alloc);
        for _turn in 0..tokens.left() {
            tokens.skip();
            if is(tokens.look(), Terminal::CloseBrace) {
                return Ok(found);
            }
            found.push(self.statement_here(tokens)?)?;
        }
        tokens.skip();
        if !is(tokens.look(), Terminal::CloseBrace) {
            return Err(tokens.refuse());
        }
        Ok(found)
    }

    /// `{ statement } }`
    #[tactic(auto, unfolding(awk_tree::specs::Statements::braces))]
    pub fn braces(&self, tokens: &mut Tokens<'_>) -> Result<Items<Statement>, ParseError>
        requires { NestsStatements self.now.level.depth (B.pre self.now.body) (B.post self.now.body) }
        ensures { Reads (map view_statement)
            (spec.braces self.now.level.depth (expr self.now.level.depth) (spec.statement self.now.level.depth)
            tokens.old) result tokens.new }
    {
        let found = self.statements(tokens)?;
        tokens.exactly(Terminal::CloseBrace)?;
        Ok(found)
    }

    /// What a level holds.
    #[tactic(auto, using(awk_tree::proofs::Views::statement_views))]
    pub fn nested_in(&self, tokens: &mut Tokens<'_>, which: Nested) -> Result<Statement, ParseError>
        requires { NestsStatements self.now.level.depth (B.pre self.now.body) (B.post self.now.body) }
        ensures { Reads view_statement
            (spec.nested_in self.now.level.depth (expr self.now.level.depth) (spec.statement self.now.level.depth) which
            tokens.old) result tokens.new }
    {
        match which {
            Nested::Braces => Ok(Statement::Block(self.braces(tokens)?)),
            Nested::Body => {
                tokens.skip();
                self.statement_here(tokens)
            }
        }
    }
}
