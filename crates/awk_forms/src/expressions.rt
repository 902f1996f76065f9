// Expressions.
ghost use Rattle.std.specs.Prelude.{map};
ghost use Rattle.awk_streams.specs.Tasks.{Owns};
ghost use Rattle.awk_machine.specs.Forms.{value};
ghost use Rattle.awk_machine.specs.Pieces.{give};
ghost use Rattle.awk_program.specs.Program as p;
ghost use Rattle.awk_program.specs.Program.{expressions_of, terms_of, joins_of};
ghost use Rattle.awk_program.specs.View.{view, view_term, view_joined, variable_of};
ghost use Rattle.awk_store.specs.Wholes.{names_in};
ghost use Rattle.awk_forms.specs.Runs.{Does, whole_of};

use crate::context::{Context, Run};
use crate::evaluates::Evaluates;
use crate::inputs::getline;
use crate::lists::element_group;
use crate::operands::{binary, builtin, unary};
use crate::patterns::{locate, split, substitute};
use crate::sources::matches;
use crate::targets::{assign, change, increment, read_target};
use crate::tests::{number, truth_of};
use awk_builtins::arrays::count;
use awk_builtins::at_hand::texts::concat_at_hand;
use awk_builtins::chains::{join, members, operated};
use awk_builtins::made::owned;
use awk_builtins::operands::{Binary, Unary};
use awk_builtins::operators::truth_value;
use awk_builtins::patterns::matched_record;
use awk_program::{Expr, Joined, Term, Variable};
use awk_streams::halt::Halt;
use awk_text::place::Place;
use awk_text::value::{Value, truth};
use box_world::world::World;

/// The value of an expression, once room on the stack was taken for its parts.
#[inline(never)]
pub fn evaluate<W: World, E: Evaluates<W>>(
    cx: &Context<'_>,
    e: &Expr,
    on: E,
    run: &mut Run,
    world: &mut W,
) -> Result<Value, Halt>
    requires can { E.can on }
    requires owns { Owns (W.open_numbers world.old) run.old.streams }
    ensures { Does W.World cx.now (λ g. value (view (names_in g) e.now)) (λ g. give)
        (whole_of run.old) world.old result (whole_of run.new) world.new }
{
    match e {
        Expr::Number(number) => Ok(Value::of(*number)),
        Expr::Text(text) => owned(cx.alloc, text.bytes()),
        Expr::Read(target) => read_target(cx, target, on, run, world),
        Expr::Assign(place, target, x) => assign(cx, *place, target, x.get(), on, run, world),
        Expr::Change(place, how, target, x) => {
            change(cx, *place, *how, target, x.get(), on, run, world)
        }
        Expr::Step(place, how, taken, target) => {
            increment(cx, *place, *how, *taken, target, on, run, world)
        }
        Expr::Not(x) => unary(cx, Unary::Not, x.get(), on, run, world),
        Expr::Signed(place, how, x) => {
            unary(cx, Unary::Signed(*place, *how), x.get(), on, run, world)
        }
        Expr::AsText(place, x) => unary(cx, Unary::AsText(*place), x.get(), on, run, world),
        Expr::Builtin(place, which, args) => {
            builtin(cx, *place, *which, args.as_slice(), on, run, world)
        }
        Expr::Count(array) => count(&run.store, *array),
        Expr::Compare(place, how, x, y) => {
            let form = Binary::Compare(*place, *how);
            binary(cx, form, x.get(), y.get(), on, run, world)
        }
        // `value` has the ways of these.
        Expr::Chain(_, _)
        | Expr::Choice(_, _, _)
        | Expr::Call(_, _, _)
        | Expr::GetlineFile(_, _, _)
        | Expr::Pipe(_, _) => on.value(cx, e, run, world),
        Expr::Concat(x, xs) => concat(cx, x.get(), xs.as_slice(), on, run, world),
        Expr::In(x, arrays) => within(cx, x.get(), arrays.as_slice(), on, run, world),
        Expr::Group(place, xs, arrays) => {
            element_group(cx, *place, xs.as_slice(), arrays.as_slice(), on, run, world)
        }
        Expr::And(x, xs) => all(cx, x.get(), xs.as_slice(), on, run, world),
        Expr::Or(x, xs) => any(cx, x.get(), xs.as_slice(), on, run, world),
        Expr::Getline(place, target) => getline(cx, *place, target, on, run, world),
        Expr::Pattern(place, text) => {
            matched_record(
                cx.alloc,
                &mut run.patterns,
                &mut run.store,
                *place,
                text.bytes(),
            )
        }
        Expr::Match(place, x, pattern) => {
            let found = matches(cx, *place, x.get(), pattern, on, run, world)?;
            Ok(truth_value(found))
        }
        Expr::Locate(place, x, pattern) => { locate(cx, *place, x.get(), pattern, on, run, world) }
        Expr::Split(place, x, at_name, array, by) => {
            split(cx, *place, x.get(), *at_name, *array, by, on, run, world)
        }
        Expr::Substitute(place, extent, pattern, x, target) => {
            substitute(
                cx,
                *place,
                *extent,
                pattern,
                x.get(),
                target,
                on,
                run,
                world,
            )
        }
    }
}

/// A chain of `+` and `-`, or of `*`, `/` and `%`; or one `^`.
pub fn chain<W: World, E: Evaluates<W>>(
    cx: &Context<'_>,
    x: &Expr,
    xs: &[Term<Expr>],
    on: E,
    run: &mut Run,
    world: &mut W,
) -> Result<Value, Halt>
    requires can { E.can on }
    requires owns { Owns (W.open_numbers world.old) run.old.streams }
    ensures { Does W.World cx.now
        (λ g. value (p.chain (view (names_in g) x.now) (terms_of (map (view_term (names_in g)) xs.now)))) (λ g. give)
        (whole_of run.old) world.old result (whole_of run.new) world.new }
{
    let mut so_far = on.value(cx, x, run, world)?;
    for next in xs {
        let operand = number(cx, &next.operand, on, run, world)?;
        so_far = operated(
            run.store.numbers(),
            next.place,
            next.operator,
            &so_far,
            operand,
        )?;
    }
    Ok(so_far)
}

/// Operands one directly after the other, each evaluated.
fn concat_each<W: World, E: Evaluates<W>>(
    cx: &Context<'_>,
    x: &Expr,
    xs: &[Joined<Expr>],
    on: E,
    run: &mut Run,
    world: &mut W,
) -> Result<Value, Halt>
    requires can { E.can on }
    requires owns { Owns (W.open_numbers world.old) run.old.streams }
    ensures { Does W.World cx.now
        (λ g. value (p.concat (view (names_in g) x.now) (joins_of (map (view_joined (names_in g)) xs.now)))) (λ g. give)
        (whole_of run.old) world.old result (whole_of run.new) world.new }
{
    let mut so_far = on.value(cx, x, run, world)?;
    for next in xs {
        let operand = on.value(cx, &next.operand, run, world)?;
        so_far = join(cx.alloc, next.place, so_far, &operand)?;
    }
    Ok(so_far)
}

/// Operands one directly after the other. Where they are at hand, no value is made of each.
fn concat<W: World, E: Evaluates<W>>(
    cx: &Context<'_>,
    x: &Expr,
    xs: &[Joined<Expr>],
    on: E,
    run: &mut Run,
    world: &mut W,
) -> Result<Value, Halt>
    requires can { E.can on }
    requires owns { Owns (W.open_numbers world.old) run.old.streams }
    ensures { Does W.World cx.now
        (λ g. value (p.concat (view (names_in g) x.now) (joins_of (map (view_joined (names_in g)) xs.now)))) (λ g. give)
        (whole_of run.old) world.old result (whole_of run.new) world.new }
{
    if let Some(there) = concat_at_hand(cx.alloc, &mut run.line, &run.store, x, xs) {
        return Ok(there);
    }
    concat_each(cx, x, xs, on, run, world)
}

/// `key in array in array ..`
fn within<W: World, E: Evaluates<W>>(
    cx: &Context<'_>,
    x: &Expr,
    arrays: &[Variable],
    on: E,
    run: &mut Run,
    world: &mut W,
) -> Result<Value, Halt>
    requires can { E.can on }
    requires owns { Owns (W.open_numbers world.old) run.old.streams }
    ensures { Does W.World cx.now
        (λ g. value (p.member (view (names_in g) x.now) (map (variable_of (names_in g)) arrays.now))) (λ g. give)
        (whole_of run.old) world.old result (whole_of run.new) world.new }
{
    let key = on.value(cx, x, run, world)?;
    Ok(members(&run.store, arrays, key))
}

/// A chain of `&&`.
fn all<W: World, E: Evaluates<W>>(
    cx: &Context<'_>,
    x: &Expr,
    xs: &[Expr],
    on: E,
    run: &mut Run,
    world: &mut W,
) -> Result<Value, Halt>
    requires can { E.can on }
    requires owns { Owns (W.open_numbers world.old) run.old.streams }
    ensures { Does W.World cx.now
        (λ g. value (p.and (view (names_in g) x.now) (expressions_of (map (view (names_in g)) xs.now)))) (λ g. give)
        (whole_of run.old) world.old result (whole_of run.new) world.new }
{
    let mut last = on.value(cx, x, run, world)?;
    for y in xs {
        if !truth(run.store.numbers(), &last) {
            return Ok(truth_value(false));
        }
        last = on.value(cx, y, run, world)?;
    }
    Ok(truth_value(truth(run.store.numbers(), &last)))
}

/// A chain of `||`.
fn any<W: World, E: Evaluates<W>>(
    cx: &Context<'_>,
    x: &Expr,
    xs: &[Expr],
    on: E,
    run: &mut Run,
    world: &mut W,
) -> Result<Value, Halt>
    requires can { E.can on }
    requires owns { Owns (W.open_numbers world.old) run.old.streams }
    ensures { Does W.World cx.now
        (λ g. value (p.or (view (names_in g) x.now) (expressions_of (map (view (names_in g)) xs.now)))) (λ g. give)
        (whole_of run.old) world.old result (whole_of run.new) world.new }
{
    let mut last = on.value(cx, x, run, world)?;
    for y in xs {
        if truth(run.store.numbers(), &last) {
            return Ok(truth_value(true));
        }
        last = on.value(cx, y, run, world)?;
    }
    Ok(truth_value(truth(run.store.numbers(), &last)))
}

/// `test ? then : else`
#[inline(always)]
pub fn choose<W: World, E: Evaluates<W>>(
    cx: &Context<'_>,
    x: &Expr,
    y: &Expr,
    z: &Expr,
    on: E,
    run: &mut Run,
    world: &mut W,
) -> Result<Value, Halt>
    requires can { E.can on }
    requires owns { Owns (W.open_numbers world.old) run.old.streams }
    ensures { Does W.World cx.now
        (λ g. value (p.choose (view (names_in g) x.now) (view (names_in g) y.now) (view (names_in g) z.now)))
        (λ g. give)
        (whole_of run.old) world.old result (whole_of run.new) world.new }
{
    let holds = truth_of(cx, x, on, run, world)?;
    if holds {
        on.value(cx, y, run, world)
    } else {
        on.value(cx, z, run, world)
    }
}
