// A cursor over tokens.

ghost use Rattle.std.specs.Prelude.{◌≡◌, length, suc};
ghost use Rattle.awk_tree.specs.Looks as looks;
ghost use Rattle.awk_tree.specs.Input as spec;
ghost use Rattle.awk_tree.specs.Input.{Reads};
ghost use Rattle.awk_tree.specs.Terminals as terminals;

use crate::terminals::{ahead, is, look};
use awk_tokens::Token;
use awk_tree::{ParseError, Terminal};
use std::marker::Model;

/// The tokens that are still to be read, with what the first of them is, which is asked many times.
#[derive(Drop)]
pub struct Tokens<'a> {
    rest: &'a [Token],
    next: Terminal,
    /// The same as an expression sees it.
    seen: Terminal,
}

impl<'a> Model for Tokens<'a> {
    ghost use Rattle.std.specs.Prelude.{List};
    ghost use Rattle.awk_tokens.specs.declared.token.Token.{Token};

    ghost Value = { List Token };

    ghost use Rattle.awk_expressions.specs.Cursor.{tokens_of, IsCursor};

    ghost view = { tokens_of };

    ghost invariant = { IsCursor };
}

/// What is left behind newlines.
fn behind_lines(mut rest: &[Token]) -> &[Token]
    ensures { result.now ≡ looks.skip rest.entry.now }
{
    while let Some((_, more)) = rest.split_first() {
        if !is(look(rest), Terminal::Newline) {
            return rest;
        }
        rest = more;
    }
    rest
}

/// What is left behind newlines and `;`.
fn behind_ends(mut rest: &[Token]) -> &[Token]
    ensures { result.now ≡ looks.past rest.entry.now }
{
    while let Some((_, more)) = rest.split_first() {
        let next = look(rest);
        if !is(next, Terminal::Newline) && !is(next, Terminal::Semicolon) {
            return rest;
        }
        rest = more;
    }
    rest
}

impl<'a> Tokens<'a> {
    pub fn new(rest: &'a [Token]) -> Tokens<'a>
        ensures { result ≡ rest.now }
    {
        let next = look(rest);
        Tokens {
            rest,
            next,
            seen: ahead(next, rest),
        }
    }

    /// How many tokens are left.
    pub fn left(&self) -> usize
        ensures { result ≡ length self.now }
    {
        self.rest.len()
    }

    /// The tokens that are left, for a look at more than the next one.
    pub fn rest(&self) -> &'a [Token]
        ensures { result.now ≡ self.now }
    {
        self.rest
    }

    /// The next token as it is.
    pub fn look(&self) -> Terminal
        ensures { result ≡ terminals.look self.now }
    {
        self.next
    }

    /// The next token as an expression sees it.
    pub fn ahead(&self) -> Terminal
        ensures { result ≡ terminals.ahead self.now }
    {
        self.seen
    }

    /// S4 at the next token.
    pub fn refuse(&self) -> ParseError
        ensures { result ≡ ParseError.Unexpected (length self.now) }
    {
        ParseError::Unexpected(self.rest.len())
    }

    /// S5 at the token before.
    pub fn deep(&self) -> ParseError
        ensures { result ≡ ParseError.TooDeep (suc (length self.now)) }
    {
        ParseError::TooDeep(self.rest.len() + 1)
    }

    /// The next token, whatever it is.
    #[tactic(auto, unfolding(awk_tree::specs::Input::any))]
    pub fn any(&mut self) -> Result<&'a Token, ParseError>
        ensures { Reads (λ t. t.now) (spec.any self.old) result self.new }
    {
        let tokens = self.rest();
        let Some((first, rest)) = tokens.split_first() else {
            return Err(ParseError::Unexpected(0));
        };
        *self = Tokens::new(rest);
        Ok(first)
    }

    /// The next token, where it is this one.
    #[tactic(auto, unfolding(awk_tree::specs::Input::one))]
    pub fn one(&mut self, kind: Terminal) -> Result<&'a Token, ParseError>
        ensures { Reads (λ t. t.now) (spec.one kind self.old) result self.new }
    {
        if is(self.ahead(), kind) {
            self.any()
        } else {
            Err(self.refuse())
        }
    }

    /// The same, told from the others that end an expression.
    #[tactic(auto, unfolding(awk_tree::specs::Input::exactly))]
    pub fn exactly(&mut self, kind: Terminal) -> Result<&'a Token, ParseError>
        ensures { Reads (λ t. t.now) (spec.exactly kind self.old) result self.new }
    {
        if is(self.look(), kind) {
            self.any()
        } else {
            Err(self.refuse())
        }
    }

    /// Newlines that mean nothing.
    #[tactic(auto, using(crate::proofs::Stops::skip_none))]
    pub fn skip(&mut self)
        ensures { self.new ≡ looks.skip self.old }
    {
        if is(self.look(), Terminal::Newline) {
            *self = Tokens::new(behind_lines(self.rest()));
        }
    }

    /// Newlines and `;` that mean nothing.
    #[tactic(auto, using(crate::proofs::Stops::past_none))]
    pub fn past(&mut self)
        ensures { self.new ≡ looks.past self.old }
    {
        let next = self.look();
        if is(next, Terminal::Newline) || is(next, Terminal::Semicolon) {
            *self = Tokens::new(behind_ends(self.rest()));
        }
    }
}
