// Forms of one operand and of two, and built-in functions whose arguments are plain values.
ghost use Rattle.std.specs.Prelude.{map};
ghost use Rattle.awk_builtins.specs.Operands.{binary_of, unary_of};
ghost use Rattle.awk_streams.specs.Tasks.{Owns};
ghost use Rattle.awk_machine.specs.Forms.{value};
ghost use Rattle.awk_machine.specs.Pieces.{give};
ghost use Rattle.awk_program.specs.Program as p;
ghost use Rattle.awk_program.specs.Program.{expressions_of};
ghost use Rattle.awk_program.specs.View.{view};
ghost use Rattle.awk_store.specs.Wholes.{names_in};
ghost use Rattle.awk_forms.specs.Runs.{Does, whole_of};

use crate::context::{Context, Run};
use crate::evaluates::Evaluates;
use crate::lists::fill;
use awk_builtins::functions::called;
use awk_builtins::operands::{Binary, Unary};
use awk_program::{Builtin, Expr};
use awk_streams::halt::Halt;
use awk_text::place::Place;
use awk_text::value::Value;
use box_world::world::World;

/// A form of one operand.
pub fn unary<W: World, E: Evaluates<W>>(
    cx: &Context<'_>,
    form: Unary,
    x: &Expr,
    on: E,
    run: &mut Run,
    world: &mut W,
) -> Result<Value, Halt>
    requires can { E.can on }
    requires owns { Owns (W.open_numbers world.old) run.old.streams }
    ensures { Does W.World cx.now (λ g. value (unary_of form (view (names_in g) x.now))) (λ g. give)
        (whole_of run.old) world.old result (whole_of run.new) world.new }
{
    let operand = on.value(cx, x, run, world)?;
    form.give(cx.alloc, &mut run.store, operand, &mut run.streams, world)
}

/// A form of two operands.
pub fn binary<W: World, E: Evaluates<W>>(
    cx: &Context<'_>,
    form: Binary,
    x: &Expr,
    y: &Expr,
    on: E,
    run: &mut Run,
    world: &mut W,
) -> Result<Value, Halt>
    requires can { E.can on }
    requires owns { Owns (W.open_numbers world.old) run.old.streams }
    ensures { Does W.World cx.now (λ g. value (binary_of form (view (names_in g) x.now) (view (names_in g) y.now)))
        (λ g. give)
        (whole_of run.old) world.old result (whole_of run.new) world.new }
{
    let left = on.value(cx, x, run, world)?;
    let right = on.value(cx, y, run, world)?;
    form.give(
        cx.alloc,
        &mut run.store,
        left,
        right,
        &mut run.streams,
        world,
    )
}

/// A built-in function of three arguments.
fn ternary<W: World, E: Evaluates<W>>(
    cx: &Context<'_>,
    place: Place,
    which: Builtin,
    x: &Expr,
    y: &Expr,
    z: &Expr,
    on: E,
    run: &mut Run,
    world: &mut W,
) -> Result<Value, Halt>
    requires can { E.can on }
    requires owns { Owns (W.open_numbers world.old) run.old.streams }
    ensures { Does W.World cx.now
        (λ g. value (p.builtin place which
        (p.more (view (names_in g) x.now)
        (p.more (view (names_in g) y.now) (p.more (view (names_in g) z.now) p.none))))) (λ g. give)
        (whole_of run.old) world.old result (whole_of run.new) world.new }
{
    let first = on.value(cx, x, run, world)?;
    let second = on.value(cx, y, run, world)?;
    let third = on.value(cx, z, run, world)?;
    called(
        cx.alloc,
        &mut run.store,
        place,
        which,
        &[first, second, third],
        &mut run.streams,
        world,
    )
}

/// A built-in function of however many arguments, which stand in a list.
fn several<W: World, E: Evaluates<W>>(
    cx: &Context<'_>,
    place: Place,
    which: Builtin,
    args: &[Expr],
    on: E,
    run: &mut Run,
    world: &mut W,
) -> Result<Value, Halt>
    requires can { E.can on }
    requires owns { Owns (W.open_numbers world.old) run.old.streams }
    ensures { Does W.World cx.now
        (λ g. value (p.builtin place which (expressions_of (map (view (names_in g)) args.now)))) (λ g. give)
        (whole_of run.old) world.old result (whole_of run.new) world.new }
{
    let mut values = Vec::new(cx.alloc);
    fill(cx, args, &mut values, on, run, world)?;
    called(
        cx.alloc,
        &mut run.store,
        place,
        which,
        values.as_slice(),
        &mut run.streams,
        world,
    )
}

/// A built-in function. The values of up to three arguments take no memory for a list.
pub fn builtin<W: World, E: Evaluates<W>>(
    cx: &Context<'_>,
    place: Place,
    which: Builtin,
    args: &[Expr],
    on: E,
    run: &mut Run,
    world: &mut W,
) -> Result<Value, Halt>
    requires can { E.can on }
    requires owns { Owns (W.open_numbers world.old) run.old.streams }
    ensures { Does W.World cx.now
        (λ g. value (p.builtin place which (expressions_of (map (view (names_in g)) args.now)))) (λ g. give)
        (whole_of run.old) world.old result (whole_of run.new) world.new }
{
    match args {
        [x] => unary(cx, Unary::Builtin(place, which), x, on, run, world),
        [x, y] => binary(cx, Binary::Builtin(place, which), x, y, on, run, world),
        [x, y, z] => ternary(cx, place, which, x, y, z, on, run, world),
        _ => several(cx, place, which, args, on, run, world),
    }
}
