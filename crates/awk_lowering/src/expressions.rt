// Expressions. Each call counts down a level, which is more than any script has: a tree of that many
// boxes has no room in memory.

ghost use Rattle.std.specs.Prelude.{◌≡◌, ◌++◌, OnOk, Some, map, option_map};
ghost use Rattle.awk_lowering.specs.Forms as form;
ghost use Rattle.awk_lowering.specs.Lowered as low;
ghost use Rattle.awk_lowering.specs.Lowered.{lowered};
ghost use Rattle.awk_lowering.specs.OneByOne.{first_lowered, lowered_term, lowered_join, then_arguments, then_pipes};
ghost use Rattle.awk_lowering.specs.Starts as starts;
ghost use Rattle.awk_lowering.specs.Texts as wants;
ghost use Rattle.awk_lowering.specs.Made.{Is, AreAll, AreTerms, AreJoins, ArePipes, AreArguments, IsTarget, IsEre};
ghost use Rattle.awk_lowering.specs.Made.{IsPerhaps, names_in, scope_in};
ghost use Rattle.awk_program.specs.View as code;
ghost use Rattle.awk_tree.specs.Tree.{trees_of, perhaps_of, pipes_of};
ghost use Rattle.awk_tree.specs.View.{view, view_term, view_piped};

use crate::constants::{number, pattern, quoted};
use crate::kept::{boxed, kept, opened, push, room};
use crate::names::{Lowering, arrays_in, arrays_of, function, variable};
use crate::nodes::{
    and_of, builtin_of, call_of, chain_of, choose_of, compare_of, concat_of, count_of,
    getline_file_of, getline_of, group_of, locate_of, match_of, member_of, or_of, pipe_of, read_of,
    split_of, step_of, substitute_of,
};
use crate::operators::{
    assign_of, comparison, extent, negated, plain_builtin, record_length, signed_of, step,
    without_arguments,
};
use crate::parts::{argument_of, given, join_of, piped_of, power_of, term_of};
use crate::shapes::{bare, constant, counted, first_behind, first_in, later, start, takes_array};
use crate::targets::{
    computed_of, constant_of, element_of, field_of, field_separator, record_of, unwritten,
    variable_of, zero,
};
use crate::texts::{text_at, text_of, texts_wanted};
use awk_program::{Argument, Builtin, Expr, Joined, Pattern, Piped, StepValue, Target, Term};
use awk_text::Memory;
use awk_text::place::Place;
use awk_tree::{Member, Name};
use sqlite_items::{Boxed, Items};
use std::alloc::AllocError;

/// The program of an expression of at most this depth.
#[cycle(expression)]
pub fn expression(context: &Lowering<'_>, e: &awk_tree::Expr, level: u32) -> Result<Expr, Memory>
    ensures { Is (names_in context.now) result (lowered (scope_in context.now) (view e.now)) }
{
    if level == 0 {
        return Err(AllocError);
    }
    let below = level - 1;
    match e {
        awk_tree::Expr::Number(_, text) => Ok(number(context.numbers, text)),
        awk_tree::Expr::Quoted(_, text) => quoted(context.alloc, text),
        awk_tree::Expr::Pattern(place, text) => pattern(context.alloc, *place, text),
        awk_tree::Expr::Name(n) => read_of(variable_of(variable(context, n.text.bytes()))),
        awk_tree::Expr::Element(n, keys) => read_of(element(context, n, keys.as_slice(), below)),
        awk_tree::Expr::Field(place, x) => {
            read_of(field_of(*place, part(context, x.get(), below)))
        }
        awk_tree::Expr::Paren(_, x) => expression(context, x.get(), below),
        awk_tree::Expr::Call(n, args) => call(context, n, args.as_slice(), below),
        awk_tree::Expr::Builtin(place, which, args) => {
            builtin(context, *place, *which, args.as_slice(), below)
        }
        awk_tree::Expr::Length(place) => record_length(context.alloc, *place),
        awk_tree::Expr::Split(place, x, n, y) => split(context, *place, x.get(), n, y, below),
        awk_tree::Expr::Substitute(place, all, x, y, z) => {
            let y = text(context, *place, y.get(), below);
            let x = wanted(context, *place, x.get(), below);
            let target = target_or_record(context, *place, z, below);
            substitute_of(*place, extent(*all), x, y, target)
        }
        awk_tree::Expr::Getline(place, x, y) => getline(context, *place, x, y, below),
        awk_tree::Expr::Before(place, how, x) => {
            let x = target(context, x.get(), below);
            step_of(*place, step(*how), StepValue::Behind, x)
        }
        awk_tree::Expr::After(x, place, how) => {
            let x = target(context, x.get(), below);
            step_of(*place, step(*how), StepValue::Before, x)
        }
        awk_tree::Expr::Signed(place, sign, x) => {
            signed_of(*place, *sign, part(context, x.get(), below))
        }
        awk_tree::Expr::Power(x, place, y) => {
            let x = part(context, x.get(), below);
            power_of(context.alloc, *place, x, part(context, y.get(), below))
        }
        awk_tree::Expr::Product(x, xs) => {
            let x = part(context, x.get(), below);
            chain_of(x, terms(context, xs.as_slice(), below))
        }
        awk_tree::Expr::Sum(x, xs) => {
            let x = part(context, x.get(), below);
            chain_of(x, terms(context, xs.as_slice(), below))
        }
        awk_tree::Expr::Concat(x, xs) => {
            let x = operand(context, x.get(), below);
            concat_of(x, joins(context, xs.as_slice(), below))
        }
        awk_tree::Expr::Pipe(x, xs) => {
            let x = operand(context, x.get(), below);
            pipe_of(x, pipes(context, xs.as_slice(), below))
        }
        awk_tree::Expr::Compare(x, place, how, y) => {
            let x = part(context, x.get(), below);
            let y = part(context, y.get(), below);
            compare_of(*place, comparison(*how), x, y)
        }
        awk_tree::Expr::Match(x, place, unlike, y) => {
            let x = text(context, *place, x.get(), below);
            let is_like = match_of(*place, x, wanted(context, *place, y.get(), below));
            negated(context.alloc, *unlike, is_like)
        }
        awk_tree::Expr::Group(place, xs, members) => {
            let place = first_in(*place, members.as_slice());
            let xs = texts(context, place, xs.as_slice(), below);
            group_of(place, xs, arrays_in(context, members.as_slice()))
        }
        awk_tree::Expr::In(x, members) => {
            let x = key(context, x.get(), members.as_slice(), below);
            member_of(x, arrays_in(context, members.as_slice()))
        }
        awk_tree::Expr::And(x, xs) => {
            let x = part(context, x.get(), below);
            and_of(x, list(context, xs.as_slice(), below))
        }
        awk_tree::Expr::Or(x, xs) => {
            let x = part(context, x.get(), below);
            or_of(x, list(context, xs.as_slice(), below))
        }
        awk_tree::Expr::Choice(x, y, z) => {
            let x = part(context, x.get(), below);
            let y = part(context, y.get(), below);
            choose_of(x, y, part(context, z.get(), below))
        }
        awk_tree::Expr::Assign(x, place, how, y) => {
            let x = target(context, x.get(), below);
            assign_of(*place, *how, x, part(context, y.get(), below))
        }
    }
}

/// The same in a box.
#[cycle(expression)]
pub fn part(context: &Lowering<'_>, x: &awk_tree::Expr, level: u32) -> Result<Boxed<Expr>, Memory>
    ensures { Is (names_in context.now) result (lowered (scope_in context.now) (view x.now)) }
{
    boxed(context.alloc, expression(context, x, level))
}

/// An expression whose text the form at this place wants.
#[cycle(expression)]
pub fn text(
    context: &Lowering<'_>,
    place: Place,
    x: &awk_tree::Expr,
    level: u32,
) -> Result<Boxed<Expr>, Memory>
    ensures { Is (names_in context.now) result (low.lowered_text (scope_in context.now) place (view x.now)) }
{
    text_of(context, place, part(context, x, level))
}

/// An operand of which a text is wanted, at the place of its first token.
#[cycle(expression)]
fn operand(context: &Lowering<'_>, x: &awk_tree::Expr, level: u32) -> Result<Boxed<Expr>, Memory>
    ensures { Is (names_in context.now) result
        (low.lowered_text (scope_in context.now) (starts.start (view x.now)) (view x.now)) }
{
    text_at(context, start(x, level), part(context, x, level))
}

/// The key before `in`.
#[cycle(expression)]
fn key(
    context: &Lowering<'_>,
    x: &awk_tree::Expr,
    members: &[Member],
    level: u32,
) -> Result<Boxed<Expr>, Memory>
    ensures { Is (names_in context.now) result
        (low.lowered_text (scope_in context.now) (low.first_in (starts.start (view x.now)) members.now) (view x.now)) }
{
    let place = first_behind(x, members, level);
    text_at(context, place, part(context, x, level))
}

/// `NAME [ list ]`
#[cycle(expression)]
fn element(
    context: &Lowering<'_>,
    n: &Name,
    keys: &[awk_tree::Expr],
    level: u32,
) -> Result<Target<Expr>, Memory>
    ensures { IsTarget (names_in context.now) result
        (low.element (scope_in context.now) n.now (trees_of (map view keys.now))) }
{
    let v = variable(context, n.text.bytes());
    element_of(n.place, v, texts(context, n.place, keys, level))
}

/// What is set. The grammar puts nothing but the first three there; anything else stands for the whole record.
#[tactic(auto, using(awk_tree::proofs::Views::views))]
#[cycle(expression)]
fn target(context: &Lowering<'_>, e: &awk_tree::Expr, level: u32) -> Result<Target<Expr>, Memory>
    ensures { IsTarget (names_in context.now) result (low.target (scope_in context.now) (view e.now)) }
{
    match e {
        awk_tree::Expr::Name(n) => variable_of(variable(context, n.text.bytes())),
        awk_tree::Expr::Element(n, keys) => element(context, n, keys.as_slice(), level),
        awk_tree::Expr::Field(place, x) => field_of(*place, part(context, x.get(), level)),
        awk_tree::Expr::Number(_, _)
        | awk_tree::Expr::Quoted(_, _)
        | awk_tree::Expr::Pattern(_, _)
        | awk_tree::Expr::Paren(_, _)
        | awk_tree::Expr::Call(_, _)
        | awk_tree::Expr::Builtin(_, _, _)
        | awk_tree::Expr::Length(_)
        | awk_tree::Expr::Split(_, _, _, _)
        | awk_tree::Expr::Substitute(_, _, _, _, _)
        | awk_tree::Expr::Getline(_, _, _)
        | awk_tree::Expr::Before(_, _, _)
        | awk_tree::Expr::After(_, _, _)
        | awk_tree::Expr::Signed(_, _, _)
        | awk_tree::Expr::Power(_, _, _)
        | awk_tree::Expr::Product(_, _)
        | awk_tree::Expr::Sum(_, _)
        | awk_tree::Expr::Concat(_, _)
        | awk_tree::Expr::Pipe(_, _)
        | awk_tree::Expr::Compare(_, _, _, _)
        | awk_tree::Expr::Match(_, _, _, _)
        | awk_tree::Expr::Group(_, _, _)
        | awk_tree::Expr::In(_, _)
        | awk_tree::Expr::And(_, _)
        | awk_tree::Expr::Or(_, _)
        | awk_tree::Expr::Choice(_, _, _)
        | awk_tree::Expr::Assign(_, _, _, _) => unwritten(context.alloc),
    }
}

/// What is set, or the whole record where nothing is named.
#[cycle(expression)]
fn target_or_record(
    context: &Lowering<'_>,
    place: Place,
    x: &Option<Boxed<awk_tree::Expr>>,
    level: u32,
) -> Result<Target<Expr>, Memory>
    ensures { IsTarget (names_in context.now) result
        (low.target_or_record (scope_in context.now) place (perhaps_of (option_map view x.now))) }
{
    match x {
        None => record_of(context.alloc, place),
        Some(x) => target(context, x.get(), level),
    }
}

#[cycle(expression)]
fn piped_target(
    context: &Lowering<'_>,
    place: Place,
    x: &Option<awk_tree::Expr>,
    level: u32,
) -> Result<Target<Expr>, Memory>
    ensures { IsTarget (names_in context.now) result
        (low.target_or_record (scope_in context.now) place (perhaps_of (option_map view x.now))) }
{
    match x {
        None => record_of(context.alloc, place),
        Some(x) => target(context, x, level),
    }
}

/// What stands where a pattern is wanted.
#[cycle(expression)]
fn wanted(
    context: &Lowering<'_>,
    place: Place,
    e: &awk_tree::Expr,
    level: u32,
) -> Result<Pattern<Expr>, Memory>
    ensures { IsEre (names_in context.now) result (low.ere (scope_in context.now) place (view e.now)) }
{
    match constant(e) {
        Some((place, text)) => constant_of(context.alloc, place, text),
        None => computed_of(text(context, place, e, level)),
    }
}

#[cycle(expression)]
fn separator(
    context: &Lowering<'_>,
    place: Place,
    y: &Option<Boxed<awk_tree::Expr>>,
    level: u32,
) -> Result<Pattern<Expr>, Memory>
    ensures { IsEre (names_in context.now) result
        (low.separator (scope_in context.now) place (perhaps_of (option_map view y.now))) }
{
    match y {
        None => field_separator(context),
        Some(y) => wanted(context, place, y.get(), level),
    }
}

/// `split ( text , array , separator )`
#[cycle(expression)]
fn split(
    context: &Lowering<'_>,
    place: Place,
    x: &awk_tree::Expr,
    n: &Name,
    y: &Option<Boxed<awk_tree::Expr>>,
    level: u32,
) -> Result<Expr, Memory>
    ensures { Is (names_in context.now) result
        (low.divided (scope_in context.now) place (view x.now) n.now (perhaps_of (option_map view y.now))) }
{
    let x = text(context, place, x, level);
    let v = variable(context, n.text.bytes());
    split_of(place, x, n.place, v, separator(context, place, y, level))
}

/// `getline target < file`
#[cycle(expression)]
fn getline(
    context: &Lowering<'_>,
    place: Place,
    x: &Option<Boxed<awk_tree::Expr>>,
    y: &Option<Boxed<awk_tree::Expr>>,
    level: u32,
) -> Result<Expr, Memory>
    ensures { Is (names_in context.now) result
        (low.got (scope_in context.now) place (perhaps_of (option_map view x.now))
        (perhaps_of (option_map view y.now))) }
{
    let x = target_or_record(context, place, x, level);
    match y {
        None => getline_of(place, x),
        Some(y) => getline_file_of(place, x, text(context, place, y.get(), level)),
    }
}

/// `NAME ( list )`
#[cycle(expression)]
fn call(
    context: &Lowering<'_>,
    n: &Name,
    args: &[awk_tree::Expr],
    level: u32,
) -> Result<Expr, Memory>
    ensures { Is (names_in context.now) result (low.call (scope_in context.now) n.now (trees_of (map view args.now))) }
{
    let f = function(context, n.text.bytes());
    let arrays = arrays_of(context, n.text.bytes());
    call_of(n.place, f, arguments(context, arrays, args, level))
}

/// A built-in function. One that has a form of its own is not written so, and stands for 0.
#[cycle(expression)]
fn builtin(
    context: &Lowering<'_>,
    place: Place,
    which: awk_tree::Builtin,
    args: &[awk_tree::Expr],
    level: u32,
) -> Result<Expr, Memory>
    ensures { Is (names_in context.now) result
        (low.built (scope_in context.now) place which (trees_of (map view args.now))
        (low.lowered_list (scope_in context.now) (trees_of (map view args.now)))) }
{
    match plain_builtin(which) {
        Some(function) => plain(context, place, function, args, level),
        None => match which {
            awk_tree::Builtin::Match => located(context, place, args, level),
            _ => zero(),
        },
    }
}

/// A built-in function whose arguments are plain values, and `length ( array )`.
#[cycle(expression)]
fn plain(
    context: &Lowering<'_>,
    place: Place,
    which: Builtin,
    args: &[awk_tree::Expr],
    level: u32,
) -> Result<Expr, Memory>
    ensures { Is (names_in context.now) result
        (low.plain (scope_in context.now) place (Some which) (trees_of (map view args.now))
        (low.lowered_list (scope_in context.now) (trees_of (map view args.now)))) }
{
    match counted(context, which, args) {
        Some(name) => count_of(variable(context, name.text.bytes())),
        None => called(context, place, which, args, level),
    }
}

/// A built-in function whose arguments are plain values.
#[cycle(expression)]
fn called(
    context: &Lowering<'_>,
    place: Place,
    which: Builtin,
    args: &[awk_tree::Expr],
    level: u32,
) -> Result<Expr, Memory>
    ensures { Is (names_in context.now) result
        (form.called place which (wants.first_textuals context.now.numbers place (wants.texts_wanted which)
        (low.lowered_list (scope_in context.now) (trees_of (map view args.now))))) }
{
    match args {
        [] => without_arguments(context.alloc, place, which),
        [_, ..] => {
            let xs = first_texts(context, place, texts_wanted(which), args, level);
            builtin_of(place, which, xs)
        }
    }
}

/// `match ( text , pattern )`. With another count of arguments, which no script has, it stands for 0.
#[cycle(expression)]
fn located(
    context: &Lowering<'_>,
    place: Place,
    args: &[awk_tree::Expr],
    level: u32,
) -> Result<Expr, Memory>
    ensures { Is (names_in context.now) result
        (low.located place (trees_of (map view args.now)) (wants.textuals context.now.numbers place
        (low.lowered_list (scope_in context.now) (trees_of (map view args.now))))) }
{
    match args {
        [x, y] => {
            let x = text(context, place, x, level);
            locate_of(place, x, wanted(context, place, y, level))
        }
        [] | [_] => zero(),
        [_, _, _, ..] => zero(),
    }
}

#[cycle(expression)]
fn fill(
    context: &Lowering<'_>,
    xs: &[awk_tree::Expr],
    out: &mut Items<Expr>,
    level: u32,
) -> Result<(), Memory>
    ensures { OnOk result
        (map (code.view (names_in context.now)) out.new ≡ map (code.view (names_in context.now)) out.old
        ++ map (lowered (scope_in context.now)) (map view xs.now)) }
{
    for x in xs {
        push(out, expression(context, x, level))?;
    }
    Ok(())
}

/// A list of expressions.
#[cycle(expression)]
pub fn list(
    context: &Lowering<'_>,
    xs: &[awk_tree::Expr],
    level: u32,
) -> Result<Items<Expr>, Memory>
    ensures { AreAll (names_in context.now) result (map (lowered (scope_in context.now)) (map view xs.now)) }
{
    let mut out = room(context.alloc, xs.len());
    let filled = fill(context, xs, &mut out, level);
    kept(out, filled)
}

#[cycle(expression)]
fn fill_texts(
    context: &Lowering<'_>,
    place: Place,
    xs: &[awk_tree::Expr],
    out: &mut Items<Expr>,
    level: u32,
) -> Result<(), Memory>
    ensures { OnOk result
        (map (code.view (names_in context.now)) out.new ≡ map (code.view (names_in context.now)) out.old
        ++ map (low.lowered_text (scope_in context.now) place) (map view xs.now)) }
{
    for x in xs {
        push(out, opened(text(context, place, x, level)))?;
    }
    Ok(())
}

/// A list of expressions whose texts the form at this place wants.
#[cycle(expression)]
pub fn texts(
    context: &Lowering<'_>,
    place: Place,
    xs: &[awk_tree::Expr],
    level: u32,
) -> Result<Items<Expr>, Memory>
    ensures { AreAll (names_in context.now) result
        (map (low.lowered_text (scope_in context.now) place) (map view xs.now)) }
{
    let mut out = room(context.alloc, xs.len());
    let filled = fill_texts(context, place, xs, &mut out, level);
    kept(out, filled)
}

#[cycle(expression)]
fn fill_first_texts(
    context: &Lowering<'_>,
    place: Place,
    count: usize,
    xs: &[awk_tree::Expr],
    out: &mut Items<Expr>,
    level: u32,
) -> Result<(), Memory>
    ensures { OnOk result
        (map (code.view (names_in context.now)) out.new ≡ map (code.view (names_in context.now)) out.old
        ++ first_lowered (scope_in context.now) place count (map view xs.now)) }
{
    let (first, rest) = xs.split_at(count.min(xs.len()));
    fill_texts(context, place, first, out, level)?;
    fill(context, rest, out, level)
}

/// A list of expressions, of the first of which the form at this place wants the texts.
#[cycle(expression)]
fn first_texts(
    context: &Lowering<'_>,
    place: Place,
    count: usize,
    xs: &[awk_tree::Expr],
    level: u32,
) -> Result<Items<Expr>, Memory>
    ensures { AreAll (names_in context.now) result
        (first_lowered (scope_in context.now) place count (map view xs.now)) }
{
    let mut out = room(context.alloc, xs.len());
    let filled = fill_first_texts(context, place, count, xs, &mut out, level);
    kept(out, filled)
}

#[cycle(expression)]
fn fill_terms(
    context: &Lowering<'_>,
    xs: &[awk_tree::Term<awk_tree::Expr>],
    out: &mut Items<Term<Expr>>,
    level: u32,
) -> Result<(), Memory>
    ensures { OnOk result
        (map (code.view_term (names_in context.now)) out.new ≡ map (code.view_term (names_in context.now)) out.old
        ++ map (lowered_term (scope_in context.now)) (map view_term xs.now)) }
{
    for x in xs {
        let operand = part(context, &x.operand, level);
        push(out, term_of(x.operator, x.place, operand))?;
    }
    Ok(())
}

/// The later operands of a chain.
#[cycle(expression)]
fn terms(
    context: &Lowering<'_>,
    xs: &[awk_tree::Term<awk_tree::Expr>],
    level: u32,
) -> Result<Items<Term<Expr>>, Memory>
    ensures { AreTerms (names_in context.now) result
        (map (lowered_term (scope_in context.now)) (map view_term xs.now)) }
{
    let mut out = room(context.alloc, xs.len());
    let filled = fill_terms(context, xs, &mut out, level);
    kept(out, filled)
}

#[cycle(expression)]
fn fill_joins(
    context: &Lowering<'_>,
    xs: &[awk_tree::Expr],
    out: &mut Items<Joined<Expr>>,
    level: u32,
) -> Result<(), Memory>
    ensures { OnOk result
        (map (code.view_joined (names_in context.now)) out.new ≡ map (code.view_joined (names_in context.now)) out.old
        ++ map (lowered_join (scope_in context.now)) (map view xs.now)) }
{
    for x in xs {
        let operand = operand(context, x, level);
        push(out, join_of(start(x, level), operand))?;
    }
    Ok(())
}

/// The later operands of a concatenation.
#[cycle(expression)]
fn joins(
    context: &Lowering<'_>,
    xs: &[awk_tree::Expr],
    level: u32,
) -> Result<Items<Joined<Expr>>, Memory>
    ensures { AreJoins (names_in context.now) result (map (lowered_join (scope_in context.now)) (map view xs.now)) }
{
    let mut out = room(context.alloc, xs.len());
    let filled = fill_joins(context, xs, &mut out, level);
    kept(out, filled)
}

#[cycle(expression)]
fn fill_pipes(
    context: &Lowering<'_>,
    xs: &[awk_tree::Piped<awk_tree::Expr>],
    out: &mut Items<Piped<Expr>>,
    level: u32,
) -> Result<(), Memory>
    ensures { OnOk result
        (code.view_pipes (names_in context.now) out.new
        ≡ then_pipes (code.view_pipes (names_in context.now) out.old)
        (low.lowered_pipes (scope_in context.now) (pipes_of (map view_piped xs.now)))) }
{
    for x in xs {
        let target = piped_target(context, x.place, &x.target, level);
        push(out, piped_of(x.place, target))?;
    }
    Ok(())
}

/// The getlines behind a command.
#[cycle(expression)]
fn pipes(
    context: &Lowering<'_>,
    xs: &[awk_tree::Piped<awk_tree::Expr>],
    level: u32,
) -> Result<Items<Piped<Expr>>, Memory>
    ensures { ArePipes (names_in context.now) result
        (low.lowered_pipes (scope_in context.now) (pipes_of (map view_piped xs.now))) }
{
    let mut out = room(context.alloc, xs.len());
    let filled = fill_pipes(context, xs, &mut out, level);
    kept(out, filled)
}

#[cycle(expression)]
fn fill_arguments(
    context: &Lowering<'_>,
    arrays: &[bool],
    xs: &[awk_tree::Expr],
    out: &mut Items<Argument<Expr>>,
    level: u32,
) -> Result<(), Memory>
    ensures { OnOk result
        (code.view_arguments (names_in context.now) out.new
        ≡ then_arguments (code.view_arguments (names_in context.now) out.old)
        (low.arguments (scope_in context.now) arrays.now (trees_of (map view xs.now)))) }
{
    let mut rest = arrays;
    for x in xs {
        let value = part(context, x, level);
        push(out, argument_of(context, takes_array(rest), bare(x), value))?;
        rest = later(rest);
    }
    Ok(())
}

/// What is handed to a function.
#[cycle(expression)]
fn arguments(
    context: &Lowering<'_>,
    arrays: &[bool],
    xs: &[awk_tree::Expr],
    level: u32,
) -> Result<Items<Argument<Expr>>, Memory>
    ensures { AreArguments (names_in context.now) result
        (low.arguments (scope_in context.now) arrays.now (trees_of (map view xs.now))) }
{
    let mut out = room(context.alloc, xs.len());
    let filled = fill_arguments(context, arrays, xs, &mut out, level);
    kept(out, filled)
}

/// An expression that may be absent.
pub fn optional(
    context: &Lowering<'_>,
    x: &Option<awk_tree::Expr>,
    level: u32,
) -> Result<Option<Boxed<Expr>>, Memory>
    ensures { IsPerhaps (names_in context.now) result
        (option_map (lowered (scope_in context.now)) (option_map view x.now)) }
{
    match x {
        None => Ok(None),
        Some(x) => given(part(context, x, level)),
    }
}
