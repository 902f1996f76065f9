// What an expression is by itself.

ghost use Rattle.std.specs.Prelude.{◌≡◌, IfOk, map, option_copied, option_map};
ghost use Rattle.awk_lowering.specs.Lowered as low;
ghost use Rattle.awk_lowering.specs.Starts as starts;
ghost use Rattle.awk_resolve.specs.Mentions as said;
ghost use Rattle.awk_lowering.specs.Made.{scope_in};
ghost use Rattle.awk_tree.specs.Tree.{trees_of};
ghost use Rattle.awk_tree.specs.View.{view};

use crate::names::{Lowering, is_array};
use awk_program::Builtin;
use awk_text::Memory;
use awk_text::octets::Octets;
use awk_text::place::Place;
use awk_tree::{Expr, Member, Name};
use std::alloc::AllocError;

/// The name that an expression is, where it is a name by itself.
#[tactic(auto, using(awk_tree::proofs::Views::views))]
pub fn bare(e: &Expr) -> Option<&Name>
    ensures { option_copied result ≡ said.bare (view e.now) }
{
    match e {
        Expr::Name(name) => Some(name),
        Expr::Number(_, _)
        | Expr::Quoted(_, _)
        | Expr::Pattern(_, _)
        | Expr::Element(_, _)
        | Expr::Field(_, _)
        | Expr::Paren(_, _)
        | Expr::Call(_, _)
        | Expr::Builtin(_, _, _)
        | Expr::Length(_)
        | Expr::Split(_, _, _, _)
        | Expr::Substitute(_, _, _, _, _)
        | Expr::Getline(_, _, _)
        | Expr::Before(_, _, _)
        | Expr::After(_, _, _)
        | Expr::Signed(_, _, _)
        | Expr::Power(_, _, _)
        | Expr::Product(_, _)
        | Expr::Sum(_, _)
        | Expr::Concat(_, _)
        | Expr::Pipe(_, _)
        | Expr::Compare(_, _, _, _)
        | Expr::Match(_, _, _, _)
        | Expr::Group(_, _, _)
        | Expr::In(_, _)
        | Expr::And(_, _)
        | Expr::Or(_, _)
        | Expr::Choice(_, _, _)
        | Expr::Assign(_, _, _, _) => None,
    }
}

/// The name that a list is, where it is one name by itself.
fn alone(xs: &[Expr]) -> Option<&Name>
    ensures { option_copied result ≡ said.alone (trees_of (map view xs.now)) }
{
    match xs {
        [] => None,
        [x] => bare(x),
        [_, _, ..] => None,
    }
}

/// The array that a list is, where it is the name of one by itself.
fn array_alone<'a>(context: &Lowering<'_>, xs: &'a [Expr]) -> Option<&'a Name>
    ensures { option_copied result ≡ low.array_among (scope_in context.now) (said.alone (trees_of (map view xs.now))) }
{
    match alone(xs) {
        Some(name) => {
            if is_array(context, name.text.bytes()) {
                Some(name)
            } else {
                None
            }
        }
        None => None,
    }
}

/// The array whose elements `length ( array )` counts.
pub fn counted<'a>(context: &Lowering<'_>, which: Builtin, xs: &'a [Expr]) -> Option<&'a Name>
    ensures { option_copied result ≡ low.counted (scope_in context.now) which (trees_of (map view xs.now)) }
{
    match which {
        Builtin::Length => array_alone(context, xs),
        _ => None,
    }
}

/// The ERE that an expression is, where it is one by itself.
#[tactic(auto, using(awk_tree::proofs::Views::views))]
pub fn constant(e: &Expr) -> Option<(Place, &Octets)>
    ensures { option_map (λ r. (r.0, r.1.now)) result ≡ low.constant (view e.now) }
{
    match e {
        Expr::Pattern(place, text) => Some((*place, text)),
        Expr::Number(_, _)
        | Expr::Quoted(_, _)
        | Expr::Name(_)
        | Expr::Element(_, _)
        | Expr::Field(_, _)
        | Expr::Paren(_, _)
        | Expr::Call(_, _)
        | Expr::Builtin(_, _, _)
        | Expr::Length(_)
        | Expr::Split(_, _, _, _)
        | Expr::Substitute(_, _, _, _, _)
        | Expr::Getline(_, _, _)
        | Expr::Before(_, _, _)
        | Expr::After(_, _, _)
        | Expr::Signed(_, _, _)
        | Expr::Power(_, _, _)
        | Expr::Product(_, _)
        | Expr::Sum(_, _)
        | Expr::Concat(_, _)
        | Expr::Pipe(_, _)
        | Expr::Compare(_, _, _, _)
        | Expr::Match(_, _, _, _)
        | Expr::Group(_, _, _)
        | Expr::In(_, _)
        | Expr::And(_, _)
        | Expr::Or(_, _)
        | Expr::Choice(_, _, _)
        | Expr::Assign(_, _, _, _) => None,
    }
}

/// The place of the first `in`.
pub fn first_in(place: Place, members: &[Member]) -> Place
    ensures { result ≡ low.first_in place members.now }
{
    match members {
        [] => place,
        [first, ..] => first.place,
    }
}

/// Whether the next parameter is an array.
pub fn takes_array(arrays: &[bool]) -> bool
    ensures { result ≡ low.takes_array arrays.now }
{
    arrays.first().copied().unwrap_or(false)
}

/// The parameters behind the next one.
pub fn later(arrays: &[bool]) -> &[bool]
    ensures { result.now ≡ low.later arrays.now }
{
    match arrays {
        [] => arrays,
        [_, rest @ ..] => rest,
    }
}

/// The place of the first token of an expression of at most this depth.
#[cycle(start)]
pub fn start(e: &Expr, level: u32) -> Result<Place, Memory>
    ensures { IfOk result (λ place. place ≡ starts.start (view e.now)) }
{
    if level == 0 {
        return Err(AllocError);
    }
    match e {
        Expr::Number(place, _) => Ok(*place),
        Expr::Quoted(place, _) => Ok(*place),
        Expr::Pattern(place, _) => Ok(*place),
        Expr::Name(n) => Ok(n.place),
        Expr::Element(n, _) => Ok(n.place),
        Expr::Field(place, _) => Ok(*place),
        Expr::Paren(place, _) => Ok(*place),
        Expr::Call(n, _) => Ok(n.place),
        Expr::Builtin(place, _, _) => Ok(*place),
        Expr::Length(place) => Ok(*place),
        Expr::Split(place, _, _, _) => Ok(*place),
        Expr::Substitute(place, _, _, _, _) => Ok(*place),
        Expr::Getline(place, _, _) => Ok(*place),
        Expr::Before(place, _, _) => Ok(*place),
        Expr::After(x, _, _) => start(x.get(), level - 1),
        Expr::Signed(place, _, _) => Ok(*place),
        Expr::Power(x, _, _) => start(x.get(), level - 1),
        Expr::Product(x, _) => start(x.get(), level - 1),
        Expr::Sum(x, _) => start(x.get(), level - 1),
        Expr::Concat(x, _) => start(x.get(), level - 1),
        Expr::Pipe(x, _) => start(x.get(), level - 1),
        Expr::Compare(x, _, _, _) => start(x.get(), level - 1),
        Expr::Match(x, _, _, _) => start(x.get(), level - 1),
        Expr::Group(place, _, _) => Ok(*place),
        Expr::In(x, _) => start(x.get(), level - 1),
        Expr::And(x, _) => start(x.get(), level - 1),
        Expr::Or(x, _) => start(x.get(), level - 1),
        Expr::Choice(x, _, _) => start(x.get(), level - 1),
        Expr::Assign(x, _, _, _) => start(x.get(), level - 1),
    }
}

/// The place of the first `in` behind an expression of at most this depth.
pub fn first_behind(e: &Expr, members: &[Member], level: u32) -> Result<Place, Memory>
    ensures { IfOk result (λ place. place ≡ low.first_in (starts.start (view e.now)) members.now) }
{
    match members {
        [] => start(e, level),
        [first, ..] => Ok(first.place),
    }
}
