// What an expression says.

ghost use Rattle.std.specs.Prelude.{◌≡◌, [], ◌∷◌, ◌++◌, IfOk, OnOk, map, option_map};
ghost use Rattle.std.specs.Option.{option_copied};
ghost use Rattle.awk_tree.specs.View.{view, view_term, view_piped};
ghost use Rattle.awk_tree.specs.Tree.{trees_of, perhaps_of, terms_of, pipes_of};
ghost use Rattle.awk_resolve.specs.Mentions as spec;
ghost use Rattle.awk_resolve.specs.declared.mention.Mention.TheVariants as mention;

use crate::mention::{Mention, copy_name};
use awk_text::Memory;
use awk_tree::{Builtin, Expr, Member, Name, Piped, Term};
use sqlite_items::{Boxed, Items};
use std::alloc::Global;

/// Notes that a name is used as a scalar.
pub fn scalar(alloc: Global, name: &Name, out: &mut Items<Mention>) -> Result<(), Memory>
    ensures { OnOk result (out.new ≡ out.old ++ mention.Scalar name.now ∷ []) }
{
    let name = copy_name(alloc, name)?;
    out.push(Mention::Scalar(name))
}

/// Notes that a name is used as an array.
pub fn array(alloc: Global, name: &Name, out: &mut Items<Mention>) -> Result<(), Memory>
    ensures { OnOk result (out.new ≡ out.old ++ mention.Array name.now ∷ []) }
{
    let name = copy_name(alloc, name)?;
    out.push(Mention::Array(name))
}

/// Notes that the length of a name is asked.
fn length(alloc: Global, name: &Name, out: &mut Items<Mention>) -> Result<(), Memory>
    ensures { OnOk result (out.new ≡ out.old ++ mention.Measured name.now ∷ []) }
{
    let name = copy_name(alloc, name)?;
    out.push(Mention::Measured(name))
}

fn members(alloc: Global, members: &[Member], out: &mut Items<Mention>) -> Result<(), Memory>
    ensures { OnOk result (out.new ≡ out.old ++ spec.members members.now) }
{
    for member in members {
        array(alloc, &member.array, out)?;
    }
    Ok(())
}

/// The name that an expression is, where it is a name by itself.
#[tactic(auto, using(awk_tree::proofs::Views::views))]
fn bare(e: &Expr) -> Option<&Name>
    ensures { option_copied result ≡ spec.bare (view e.now) }
{
    match e {
        Expr::Name(name) => Some(name),
        Expr::Number(_, _)
        | Expr::Quoted(_, _)
        | Expr::Pattern(_, _)
        | Expr::Element(_, _)
        | Expr::Field(_, _)
        | Expr::Paren(_, _)
        | Expr::Call(_, _)
        | Expr::Builtin(_, _, _)
        | Expr::Length(_)
        | Expr::Split(_, _, _, _)
        | Expr::Substitute(_, _, _, _, _)
        | Expr::Getline(_, _, _)
        | Expr::Before(_, _, _)
        | Expr::After(_, _, _)
        | Expr::Signed(_, _, _)
        | Expr::Power(_, _, _)
        | Expr::Product(_, _)
        | Expr::Sum(_, _)
        | Expr::Concat(_, _)
        | Expr::Pipe(_, _)
        | Expr::Compare(_, _, _, _)
        | Expr::Match(_, _, _, _)
        | Expr::Group(_, _, _)
        | Expr::In(_, _)
        | Expr::And(_, _)
        | Expr::Or(_, _)
        | Expr::Choice(_, _, _)
        | Expr::Assign(_, _, _, _) => None,
    }
}

/// The name that a list is, where it is one name by itself.
fn alone(xs: &[Expr]) -> Option<&Name>
    ensures { option_copied result ≡ spec.alone (trees_of (map view xs.now)) }
{
    match xs {
        [] => None,
        [x] => bare(x),
        [_, _, ..] => None,
    }
}

/// The name whose length is asked.
fn measured(which: Builtin, args: &[Expr]) -> Option<&Name>
    ensures { option_copied result ≡ spec.measured which (trees_of (map view args.now)) }
{
    match which {
        Builtin::Length => alone(args),
        _ => None,
    }
}

/// Notes a call of a function of the script, with the arguments that are names by themselves.
fn call(alloc: Global, name: &Name, args: &[Expr], out: &mut Items<Mention>) -> Result<(), Memory>
    ensures { OnOk result
        (out.new ≡ out.old ++ mention.Call name.now (spec.bares (trees_of (map view args.now))) ∷ []) }
{
    let name = copy_name(alloc, name)?;
    let names = bares(alloc, args)?;
    out.push(Mention::Call(name, names))
}

fn copied(alloc: Global, name: Option<&Name>) -> Result<Option<Name>, Memory>
    ensures { IfOk result (λ n. n ≡ option_copied name.entry) }
{
    match name {
        None => Ok(None),
        Some(name) => Ok(Some(copy_name(alloc, name)?)),
    }
}

fn bares(alloc: Global, args: &[Expr]) -> Result<Items<Option<Name>>, Memory>
    ensures { IfOk result (λ names. names ≡ spec.bares (trees_of (map view args.now))) }
{
    let mut names = Items::new(alloc);
    for e in args {
        names.push(copied(alloc, bare(e))?)?;
    }
    Ok(names)
}

/// Notes a `getline` without a file.
fn source(file: &Option<Boxed<Expr>>, out: &mut Items<Mention>) -> Result<(), Memory>
    ensures { OnOk result (out.new ≡ out.old ++ spec.source (perhaps_of (option_map view file.now))) }
{
    match file {
        None => out.push(Mention::MainInput),
        Some(_file) => Ok(()),
    }
}

/// Notes all that an expression says, or answers `Memory` where memory is refused.
#[cycle(expression)]
pub fn expression(alloc: Global, e: &Expr, out: &mut Items<Mention>) -> Result<(), Memory>
    ensures { OnOk result (out.new ≡ out.old ++ spec.mentions (view e.now)) }
{
    match e {
        Expr::Number(_place, _text) => Ok(()),
        Expr::Quoted(_place, _text) => Ok(()),
        Expr::Pattern(_place, _text) => Ok(()),
        Expr::Length(_place) => Ok(()),
        Expr::Name(name) => scalar(alloc, name, out),
        Expr::Element(name, keys) => {
            array(alloc, name, out)?;
            each(alloc, keys.as_slice(), out)
        }
        Expr::Field(_place, x) => expression(alloc, x.get(), out),
        Expr::Paren(_place, x) => expression(alloc, x.get(), out),
        Expr::Call(name, args) => {
            call(alloc, name, args.as_slice(), out)?;
            arguments(alloc, args.as_slice(), out)
        }
        Expr::Builtin(_place, which, args) => builtin(alloc, *which, args.as_slice(), out),
        Expr::Split(_place, text, name, separator) => {
            expression(alloc, text.get(), out)?;
            array(alloc, name, out)?;
            perhaps(alloc, separator, out)
        }
        Expr::Substitute(_place, _all, x, y, lvalue) => {
            expression(alloc, x.get(), out)?;
            expression(alloc, y.get(), out)?;
            perhaps(alloc, lvalue, out)
        }
        Expr::Getline(_place, lvalue, file) => {
            source(file, out)?;
            perhaps(alloc, lvalue, out)?;
            perhaps(alloc, file, out)
        }
        Expr::Before(_place, _step, x) => expression(alloc, x.get(), out),
        Expr::After(x, _place, _step) => expression(alloc, x.get(), out),
        Expr::Signed(_place, _sign, x) => expression(alloc, x.get(), out),
        Expr::Power(x, _place, y) => two(alloc, x.get(), y.get(), out),
        Expr::Product(x, ts) => {
            expression(alloc, x.get(), out)?;
            terms(alloc, ts.as_slice(), out)
        }
        Expr::Sum(x, ts) => {
            expression(alloc, x.get(), out)?;
            terms(alloc, ts.as_slice(), out)
        }
        Expr::Concat(x, xs) => first_and_each(alloc, x.get(), xs.as_slice(), out),
        Expr::Pipe(x, ps) => {
            expression(alloc, x.get(), out)?;
            pipes(alloc, ps.as_slice(), out)
        }
        Expr::Compare(x, _place, _comparison, y) => two(alloc, x.get(), y.get(), out),
        Expr::Match(x, _place, _unlike, y) => two(alloc, x.get(), y.get(), out),
        Expr::Group(_place, xs, ms) => {
            each(alloc, xs.as_slice(), out)?;
            members(alloc, ms.as_slice(), out)
        }
        Expr::In(x, ms) => {
            expression(alloc, x.get(), out)?;
            members(alloc, ms.as_slice(), out)
        }
        Expr::And(x, xs) => first_and_each(alloc, x.get(), xs.as_slice(), out),
        Expr::Or(x, xs) => first_and_each(alloc, x.get(), xs.as_slice(), out),
        Expr::Choice(x, y, z) => {
            two(alloc, x.get(), y.get(), out)?;
            expression(alloc, z.get(), out)
        }
        Expr::Assign(x, _place, _assignment, y) => two(alloc, x.get(), y.get(), out),
    }
}

/// Notes what is said in the arguments of a built-in function.
#[cycle(expression)]
fn builtin(
    alloc: Global,
    which: Builtin,
    args: &[Expr],
    out: &mut Items<Mention>,
) -> Result<(), Memory>
    ensures { OnOk result
        (out.new ≡ out.old ++ spec.built (spec.measured which (trees_of (map view args.now)))
        (spec.each (trees_of (map view args.now)))) }
{
    match measured(which, args) {
        Some(name) => length(alloc, name, out),
        None => each(alloc, args, out),
    }
}

#[cycle(expression)]
fn two(alloc: Global, x: &Expr, y: &Expr, out: &mut Items<Mention>) -> Result<(), Memory>
    ensures { OnOk result (out.new ≡ out.old ++ (spec.mentions (view x.now) ++ spec.mentions (view y.now))) }
{
    expression(alloc, x, out)?;
    expression(alloc, y, out)
}

#[cycle(expression)]
fn first_and_each(
    alloc: Global,
    x: &Expr,
    xs: &[Expr],
    out: &mut Items<Mention>,
) -> Result<(), Memory>
    ensures { OnOk result
        (out.new ≡ out.old ++ (spec.mentions (view x.now) ++ spec.each (trees_of (map view xs.now)))) }
{
    expression(alloc, x, out)?;
    each(alloc, xs, out)
}

#[cycle(expression)]
pub fn each(alloc: Global, xs: &[Expr], out: &mut Items<Mention>) -> Result<(), Memory>
    ensures { OnOk result (out.new ≡ out.old ++ spec.each (trees_of (map view xs.now))) }
{
    for x in xs {
        expression(alloc, x, out)?;
    }
    Ok(())
}

#[cycle(expression)]
fn arguments(alloc: Global, xs: &[Expr], out: &mut Items<Mention>) -> Result<(), Memory>
    ensures { OnOk result (out.new ≡ out.old ++ spec.arguments (trees_of (map view xs.now))) }
{
    for x in xs {
        argument(alloc, x, out)?;
    }
    Ok(())
}

#[cycle(expression)]
fn argument(alloc: Global, x: &Expr, out: &mut Items<Mention>) -> Result<(), Memory>
    ensures { OnOk result (out.new ≡ out.old ++ spec.argument (spec.bare (view x.now)) (spec.mentions (view x.now))) }
{
    match bare(x) {
        Some(_name) => Ok(()),
        None => expression(alloc, x, out),
    }
}

#[cycle(expression)]
fn perhaps(alloc: Global, x: &Option<Boxed<Expr>>, out: &mut Items<Mention>) -> Result<(), Memory>
    ensures { OnOk result (out.new ≡ out.old ++ spec.perhaps (perhaps_of (option_map view x.now))) }
{
    match x {
        None => Ok(()),
        Some(x) => expression(alloc, x.get(), out),
    }
}

#[cycle(expression)]
fn terms(alloc: Global, ts: &[Term<Expr>], out: &mut Items<Mention>) -> Result<(), Memory>
    ensures { OnOk result (out.new ≡ out.old ++ spec.terms (terms_of (map view_term ts.now))) }
{
    for term in ts {
        expression(alloc, &term.operand, out)?;
    }
    Ok(())
}

#[cycle(expression)]
fn pipes(alloc: Global, ps: &[Piped<Expr>], out: &mut Items<Mention>) -> Result<(), Memory>
    ensures { OnOk result (out.new ≡ out.old ++ spec.pipes (pipes_of (map view_piped ps.now))) }
{
    for piped in ps {
        optional(alloc, &piped.target, out)?;
    }
    Ok(())
}

#[cycle(expression)]
pub fn optional(alloc: Global, x: &Option<Expr>, out: &mut Items<Mention>) -> Result<(), Memory>
    ensures { OnOk result (out.new ≡ out.old ++ spec.perhaps (perhaps_of (option_map view x.now))) }
{
    match x {
        None => Ok(()),
        Some(x) => expression(alloc, x, out),
    }
}
