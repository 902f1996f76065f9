// `in`, and the arrays after it.

ghost use Rattle.std.specs.Prelude.{map};
ghost use Rattle.awk_tree.specs.Expressions as spec;
ghost use Rattle.awk_tree.specs.Input.{Reads};
ghost use Rattle.awk_tree.specs.View.{view};

use crate::nodes::{member_of, name_of};
use crate::terminals::is;
use crate::tokens::Tokens;
use awk_tree::{Expr, Member, ParseError, Terminal};
use sqlite_items::{Boxed, Items};
use std::alloc::Global;

/// `in NAME`
#[tactic(auto, unfolding(awk_tree::specs::Expressions::in_name))]
pub(crate) fn in_name(alloc: Global, tokens: &mut Tokens<'_>) -> Result<Member, ParseError>
    ensures { Reads (λ m. m) (spec.in_name tokens.old) result tokens.new }
{
    let place = tokens.one(Terminal::In)?.place;
    let array = name_of(alloc, tokens.one(Terminal::Name)?)?;
    Ok(Member { place, array })
}

/// `{ in NAME }`
#[tactic(auto, unfolding(awk_tree::specs::Expressions::in_names))]
pub(crate) fn in_names(alloc: Global, tokens: &mut Tokens<'_>) -> Result<Items<Member>, ParseError>
    ensures { Reads (λ ms. ms) (spec.in_names tokens.old) result tokens.new }
{
    let mut found = Items::new(alloc);
    for _turn in 0..tokens.left() {
        if !is(Terminal::In, tokens.ahead()) {
            return Ok(found);
        }
        found.push(in_name(alloc, tokens)?)?;
    }
    if is(Terminal::In, tokens.ahead()) {
        Err(tokens.refuse())
    } else {
        Ok(found)
    }
}

/// `{ in NAME }` behind what was read.
#[tactic(auto, unfolding(awk_tree::specs::Expressions::in_rest))]
pub(crate) fn in_rest(
    alloc: Global,
    tokens: &mut Tokens<'_>,
    left: Boxed<Expr>,
) -> Result<Boxed<Expr>, ParseError>
    ensures { Reads view (spec.in_rest (view left) tokens.old) result tokens.new }
{
    let more = in_names(alloc, tokens)?;
    Ok(member_of(alloc, left, more)?)
}
