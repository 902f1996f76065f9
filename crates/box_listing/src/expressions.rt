// What is found in expressions. Each call counts down a level, of which there are more than any
// program has: a tree of that many boxes has no room in memory.

ghost use Rattle.std.specs.Prelude.{◌≡◌, [], ◌∷◌, ◌++◌, IfOk, OnOk, None, map, option_copied};
ghost use Rattle.awk_program.specs.Program.{expressions_of, terms_of, joins_of};
ghost use Rattle.awk_program.specs.View.{Names, view, view_target, view_ere, view_term, view_joined, view_pipes};
ghost use Rattle.awk_program.specs.View.{view_arguments};
ghost use Rattle.box_listing.specs.Sites as spec;
ghost use Rattle.box_listing.specs.Walks.{Finds};

use crate::site::{Found, Site};
use awk_program::{Argument, Builtin, Expr, Joined, Pattern, Piped, Target, Term};
use awk_text::Memory;
use awk_text::octets::Octets;
use awk_text::place::Place;
use box_policy::policy::Kind;
use std::alloc::{AllocError, Global};

/// More than the levels of any program.
pub const LEVELS: u64 = u64::MAX;

/// The text that an expression is, where it is a string constant.
pub fn constant(e: &Expr) -> Option<&Octets>
    ensures { (t : Names) → option_copied result ≡ spec.constant (view t e.now) }
{
    match e {
        Expr::Text(text) => Some(text),
        Expr::Number(_)
        | Expr::Pattern(_, _)
        | Expr::Read(_)
        | Expr::Assign(_, _, _)
        | Expr::Change(_, _, _, _)
        | Expr::Step(_, _, _, _)
        | Expr::Not(_)
        | Expr::Signed(_, _, _)
        | Expr::AsText(_, _)
        | Expr::Chain(_, _)
        | Expr::Concat(_, _)
        | Expr::Compare(_, _, _, _)
        | Expr::Match(_, _, _)
        | Expr::In(_, _)
        | Expr::Group(_, _, _)
        | Expr::And(_, _)
        | Expr::Or(_, _)
        | Expr::Choice(_, _, _)
        | Expr::Call(_, _, _)
        | Expr::Getline(_, _)
        | Expr::GetlineFile(_, _, _)
        | Expr::Pipe(_, _)
        | Expr::Builtin(_, _, _)
        | Expr::Count(_)
        | Expr::Locate(_, _, _)
        | Expr::Split(_, _, _, _, _)
        | Expr::Substitute(_, _, _, _, _) => None,
    }
}

fn copied(alloc: Global, text: Option<&Octets>) -> Result<Option<Octets>, Memory>
    ensures { IfOk result (λ copy. copy ≡ option_copied text.entry) }
{
    match text {
        None => Ok(None),
        Some(text) => Ok(Some(text.copy(alloc)?)),
    }
}

/// Notes a site, with the text where it is known.
pub fn site(
    alloc: Global,
    place: Place,
    kind: Kind,
    text: Option<&Octets>,
    out: &mut Vec<Found>,
) -> Result<(), Memory>
    ensures { OnOk result (out.new.items ≡ out.old.items ++ spec.site place kind (option_copied text.entry)) }
{
    let text = copied(alloc, text)?;
    Ok(out.push(Found::At(Site { place, kind, text }))?)
}

fn is_standard_input(text: Option<&Octets>) -> bool
    ensures { result ≡ spec.is_standard_input (option_copied text.entry) }
{
    match text {
        None => false,
        Some(text) => text.bytes() == b"-".as_slice(),
    }
}

/// Notes a file that is read.
fn reading(
    alloc: Global,
    place: Place,
    text: Option<&Octets>,
    out: &mut Vec<Found>,
) -> Result<(), Memory>
    ensures { OnOk result (out.new.items ≡ out.old.items ++ spec.reading place (option_copied text.entry)) }
{
    if is_standard_input(text) {
        return Ok(());
    }
    site(alloc, place, Kind::Read, text, out)
}

/// The text of the first one, where that is a string constant.
fn first_constant(xs: &[Expr]) -> Option<&Octets>
    ensures { (t : Names) → option_copied result ≡ spec.first_constant (expressions_of (map (view t) xs.now)) }
{
    match xs {
        [] => None,
        [x, ..] => constant(x),
    }
}

/// Notes what a built-in function asks for beside its arguments: system for the command.
fn asked(
    alloc: Global,
    place: Place,
    which: Builtin,
    xs: &[Expr],
    out: &mut Vec<Found>,
) -> Result<(), Memory>
    ensures { Finds result out.old.items out.new.items
        (λ t. spec.asked place which (expressions_of (map (view t) xs.now))) }
{
    match which {
        Builtin::System => site(alloc, place, Kind::Run, first_constant(xs), out),
        _ => Ok(()),
    }
}

/// Notes all that is found in an expression, or answers `Memory` where memory is refused.
pub fn value(alloc: Global, e: &Expr, out: &mut Vec<Found>) -> Result<(), Memory>
    ensures { Finds result out.old.items out.new.items (λ t. spec.value (view t e.now)) }
{
    expression(alloc, e, LEVELS, out)
}

/// Notes all that is found in expressions.
pub fn values(alloc: Global, xs: &[Expr], out: &mut Vec<Found>) -> Result<(), Memory>
    ensures { Finds result out.old.items out.new.items (λ t. spec.each (expressions_of (map (view t) xs.now))) }
{
    each(alloc, xs, LEVELS, out)
}

#[cycle(expression)]
fn expression(alloc: Global, e: &Expr, level: u64, out: &mut Vec<Found>) -> Result<(), Memory>
    ensures { Finds result out.old.items out.new.items (λ t. spec.value (view t e.now)) }
{
    if level == 0 {
        return Err(AllocError);
    }
    let below = level - 1;
    match e {
        Expr::Number(_n) => Ok(()),
        Expr::Text(_text) => Ok(()),
        Expr::Pattern(_place, _text) => Ok(()),
        Expr::Read(r) => target(alloc, r, below, out),
        Expr::Assign(_place, r, x) => target_and(alloc, r, x.get(), below, out),
        Expr::Change(_place, _how, r, x) => target_and(alloc, r, x.get(), below, out),
        Expr::Step(_place, _how, _taken, r) => target(alloc, r, below, out),
        Expr::Not(x) => expression(alloc, x.get(), below, out),
        Expr::Signed(_place, _how, x) => expression(alloc, x.get(), below, out),
        Expr::AsText(_place, x) => expression(alloc, x.get(), below, out),
        Expr::Chain(x, xs) => {
            expression(alloc, x.get(), below, out)?;
            terms(alloc, xs.as_slice(), below, out)
        }
        Expr::Concat(x, xs) => {
            expression(alloc, x.get(), below, out)?;
            joins(alloc, xs.as_slice(), below, out)
        }
        Expr::Compare(_place, _how, x, y) => two(alloc, x.get(), y.get(), below, out),
        Expr::Match(_place, x, y) => value_and_ere(alloc, x.get(), y, below, out),
        Expr::In(x, _arrays) => expression(alloc, x.get(), below, out),
        Expr::Group(_place, xs, _arrays) => each(alloc, xs.as_slice(), below, out),
        Expr::And(x, xs) => first_and_each(alloc, x.get(), xs.as_slice(), below, out),
        Expr::Or(x, xs) => first_and_each(alloc, x.get(), xs.as_slice(), below, out),
        Expr::Choice(x, y, z) => three(alloc, x.get(), y.get(), z.get(), below, out),
        Expr::Call(_place, _function, xs) => arguments(alloc, xs.as_slice(), below, out),
        Expr::Getline(_place, r) => {
            out.push(Found::MainInput)?;
            target(alloc, r, below, out)
        }
        Expr::GetlineFile(place, r, x) => {
            reading(alloc, *place, constant(x.get()), out)?;
            target_and(alloc, r, x.get(), below, out)
        }
        Expr::Pipe(x, xs) => {
            expression(alloc, x.get(), below, out)?;
            pipes(alloc, constant(x.get()), xs.as_slice(), below, out)
        }
        Expr::Builtin(place, which, xs) => {
            builtin(alloc, *place, *which, xs.as_slice(), below, out)
        }
        Expr::Count(_array) => Ok(()),
        Expr::Locate(_place, x, y) => value_and_ere(alloc, x.get(), y, below, out),
        Expr::Split(_place, x, _at, _array, y) => value_and_ere(alloc, x.get(), y, below, out),
        Expr::Substitute(_place, _extent, x, y, r) => {
            ere(alloc, x, below, out)?;
            value_and_target(alloc, y.get(), r, below, out)
        }
    }
}

/// A built-in function with its arguments.
#[cycle(expression)]
fn builtin(
    alloc: Global,
    place: Place,
    which: Builtin,
    xs: &[Expr],
    level: u64,
    out: &mut Vec<Found>,
) -> Result<(), Memory>
    ensures { Finds result out.old.items out.new.items
        (λ t. spec.asked place which (expressions_of (map (view t) xs.now))
        ++ spec.each (expressions_of (map (view t) xs.now))) }
{
    asked(alloc, place, which, xs, out)?;
    each(alloc, xs, level, out)
}

#[cycle(expression)]
fn two(alloc: Global, x: &Expr, y: &Expr, level: u64, out: &mut Vec<Found>) -> Result<(), Memory>
    ensures { Finds result out.old.items out.new.items (λ t. spec.value (view t x.now) ++ spec.value (view t y.now)) }
{
    expression(alloc, x, level, out)?;
    expression(alloc, y, level, out)
}

#[cycle(expression)]
fn three(
    alloc: Global,
    x: &Expr,
    y: &Expr,
    z: &Expr,
    level: u64,
    out: &mut Vec<Found>,
) -> Result<(), Memory>
    ensures { Finds result out.old.items out.new.items
        (λ t. spec.value (view t x.now) ++ (spec.value (view t y.now) ++ spec.value (view t z.now))) }
{
    expression(alloc, x, level, out)?;
    two(alloc, y, z, level, out)
}

#[cycle(expression)]
fn first_and_each(
    alloc: Global,
    x: &Expr,
    xs: &[Expr],
    level: u64,
    out: &mut Vec<Found>,
) -> Result<(), Memory>
    ensures { Finds result out.old.items out.new.items
        (λ t. spec.value (view t x.now) ++ spec.each (expressions_of (map (view t) xs.now))) }
{
    expression(alloc, x, level, out)?;
    each(alloc, xs, level, out)
}

#[cycle(expression)]
fn target_and(
    alloc: Global,
    r: &Target<Expr>,
    x: &Expr,
    level: u64,
    out: &mut Vec<Found>,
) -> Result<(), Memory>
    ensures { Finds result out.old.items out.new.items
        (λ t. spec.target (view_target t r.now) ++ spec.value (view t x.now)) }
{
    target(alloc, r, level, out)?;
    expression(alloc, x, level, out)
}

#[cycle(expression)]
fn value_and_target(
    alloc: Global,
    x: &Expr,
    r: &Target<Expr>,
    level: u64,
    out: &mut Vec<Found>,
) -> Result<(), Memory>
    ensures { Finds result out.old.items out.new.items
        (λ t. spec.value (view t x.now) ++ spec.target (view_target t r.now)) }
{
    expression(alloc, x, level, out)?;
    target(alloc, r, level, out)
}

#[cycle(expression)]
fn value_and_ere(
    alloc: Global,
    x: &Expr,
    y: &Pattern<Expr>,
    level: u64,
    out: &mut Vec<Found>,
) -> Result<(), Memory>
    ensures { Finds result out.old.items out.new.items (λ t. spec.value (view t x.now) ++ spec.ere (view_ere t y.now)) }
{
    expression(alloc, x, level, out)?;
    ere(alloc, y, level, out)
}

#[cycle(expression)]
fn target(alloc: Global, r: &Target<Expr>, level: u64, out: &mut Vec<Found>) -> Result<(), Memory>
    ensures { Finds result out.old.items out.new.items (λ t. spec.target (view_target t r.now)) }
{
    match r {
        Target::Variable(_variable) => Ok(()),
        Target::Element(_place, _array, xs) => each(alloc, xs.as_slice(), level, out),
        Target::Field(_place, x) => expression(alloc, x.get(), level, out),
    }
}

#[cycle(expression)]
fn ere(alloc: Global, x: &Pattern<Expr>, level: u64, out: &mut Vec<Found>) -> Result<(), Memory>
    ensures { Finds result out.old.items out.new.items (λ t. spec.ere (view_ere t x.now)) }
{
    match x {
        Pattern::Constant(_place, _text) => Ok(()),
        Pattern::Computed(x) => expression(alloc, x.get(), level, out),
    }
}

#[cycle(expression)]
fn each(alloc: Global, xs: &[Expr], level: u64, out: &mut Vec<Found>) -> Result<(), Memory>
    ensures { Finds result out.old.items out.new.items (λ t. spec.each (expressions_of (map (view t) xs.now))) }
{
    for x in xs {
        expression(alloc, x, level, out)?;
    }
    Ok(())
}

#[cycle(expression)]
fn terms(alloc: Global, xs: &[Term<Expr>], level: u64, out: &mut Vec<Found>) -> Result<(), Memory>
    ensures { Finds result out.old.items out.new.items (λ t. spec.terms (terms_of (map (view_term t) xs.now))) }
{
    for x in xs {
        expression(alloc, &x.operand, level, out)?;
    }
    Ok(())
}

#[cycle(expression)]
fn joins(alloc: Global, xs: &[Joined<Expr>], level: u64, out: &mut Vec<Found>) -> Result<(), Memory>
    ensures { Finds result out.old.items out.new.items (λ t. spec.joins (joins_of (map (view_joined t) xs.now))) }
{
    for x in xs {
        expression(alloc, &x.operand, level, out)?;
    }
    Ok(())
}

#[cycle(expression)]
fn arguments(
    alloc: Global,
    xs: &[Argument<Expr>],
    level: u64,
    out: &mut Vec<Found>,
) -> Result<(), Memory>
    ensures { Finds result out.old.items out.new.items (λ t. spec.arguments (view_arguments t xs.now)) }
{
    for x in xs {
        argument(alloc, x, level, out)?;
    }
    Ok(())
}

#[cycle(expression)]
fn argument(
    alloc: Global,
    x: &Argument<Expr>,
    level: u64,
    out: &mut Vec<Found>,
) -> Result<(), Memory>
    ensures { Finds result out.old.items out.new.items (λ t. spec.arguments (view_arguments t (x.now ∷ []))) }
{
    match x {
        Argument::Value(x) => expression(alloc, x, level, out),
        Argument::Array(_variable) => Ok(()),
        Argument::Nothing => Ok(()),
    }
}

/// A chain of `| getline`, of which the first has this command; those of later ones are not known.
#[cycle(expression)]
fn pipes(
    alloc: Global,
    text: Option<&Octets>,
    xs: &[Piped<Expr>],
    level: u64,
    out: &mut Vec<Found>,
) -> Result<(), Memory>
    ensures { Finds result out.old.items out.new.items
        (λ t. spec.pipes (option_copied text.entry) (view_pipes t xs.now)) }
{
    let mut known = text;
    for x in xs {
        piped(alloc, known, x, level, out)?;
        known = None;
    }
    Ok(())
}

#[cycle(expression)]
fn piped(
    alloc: Global,
    text: Option<&Octets>,
    x: &Piped<Expr>,
    level: u64,
    out: &mut Vec<Found>,
) -> Result<(), Memory>
    ensures { Finds result out.old.items out.new.items
        (λ t. spec.pipes (option_copied text.entry) (view_pipes t (x.now ∷ []))) }
{
    site(alloc, x.place, Kind::Run, text, out)?;
    target(alloc, &x.target, level, out)
}
