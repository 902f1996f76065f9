// Output.
ghost use Rattle.std.specs.Prelude.{[], Some, None, map, option_map};
ghost use Rattle.awk_streams.specs.Tasks.{Owns};
ghost use Rattle.awk_machine.specs.Pieces.{At, Doing};
ghost use Rattle.awk_program.specs.Program as p;
ghost use Rattle.awk_program.specs.View.{view, view_redirection};
ghost use Rattle.awk_store.specs.Wholes.{names_in};
ghost use Rattle.awk_streams.specs.Flows.{flows};
ghost use Rattle.awk_forms.specs.Runs.{Does, whole_of};

use awk_builtins::at_hand::records::split_for;
use awk_builtins::at_hand::texts::{printed_at_hand, redirected_at_hand, split_for_items};
use awk_builtins::made::append;
use awk_builtins::printing::{formatted_for, formatted_line, printed_for, printed_line};
use awk_forms::context::{Context, Run};
use awk_forms::evaluates::Evaluates;
use awk_forms::lists::fill;
use awk_input::outputs::put_to;
use awk_program::{Expr, Redirection};
use awk_streams::flow::Flow;
use awk_streams::halt::Halt;
use awk_streams::requests::put;
use awk_text::lent::Lent;
use awk_text::place::Place;
use box_world::world::World;

/// The number of the standard output.
const STANDARD_OUTPUT: u32 = 1;

/// `print`: where each item is at hand, none is copied but into the text.
pub fn print<W: World, E: Evaluates<W>>(
    cx: &Context<'_>,
    place: Place,
    xs: &[Expr],
    to: &Option<Redirection<Expr>>,
    on: E,
    run: &mut Run,
    world: &mut W,
) -> Result<Flow, Halt>
    requires can { E.can on }
    requires owns { Owns (W.open_numbers world.old) run.old.streams }
    ensures { Does W.World cx.now
        (λ g. At (Doing (p.print place (map (view (names_in g)) xs.now)
        (option_map (view_redirection (names_in g)) to.now))) []) (λ g. flows)
        (whole_of run.old) world.old result (whole_of run.new) world.new }
{
    split_for_items(&mut run.store, xs)?;
    if let Some(to) = to {
        return redirect(cx, place, xs, to, on, run, world);
    }
    let known = printed_at_hand(&mut run.line, &run.store, xs);
    if let Some(text) = known {
        let room = put(place, STANDARD_OUTPUT, text, world)?;
        run.line.reuse(room);
        return Ok(Flow::On);
    }
    general_print(cx, place, xs, on, run, world)
}

/// `print` to a stream.
fn redirect<W: World, E: Evaluates<W>>(
    cx: &Context<'_>,
    place: Place,
    xs: &[Expr],
    to: &Redirection<Expr>,
    on: E,
    run: &mut Run,
    world: &mut W,
) -> Result<Flow, Halt>
    requires can { E.can on }
    requires owns { Owns (W.open_numbers world.old) run.old.streams }
    ensures { Does W.World cx.now
        (λ g. At (Doing (p.print place (map (view (names_in g)) xs.now) (Some (view_redirection (names_in g) to.now))))
        []) (λ g. flows)
        (whole_of run.old) world.old result (whole_of run.new) world.new }
{
    split_for(&mut run.store, &to.target)?;
    let known = redirected_at_hand(&mut run.line, &run.store, xs, to);
    if let Some((name, text)) = known {
        let room = put_to(
            cx.alloc,
            to.place,
            to.how,
            name,
            text,
            &mut run.streams,
            world,
        )?;
        run.line.reuse(room);
        return Ok(Flow::On);
    }
    general_redirect(cx, place, xs, to, on, run, world)
}

/// `print`, of whatever items.
fn general_print<W: World, E: Evaluates<W>>(
    cx: &Context<'_>,
    place: Place,
    xs: &[Expr],
    on: E,
    run: &mut Run,
    world: &mut W,
) -> Result<Flow, Halt>
    requires can { E.can on }
    requires owns { Owns (W.open_numbers world.old) run.old.streams }
    ensures { Does W.World cx.now (λ g. At (Doing (p.print place (map (view (names_in g)) xs.now) None)) [])
        (λ g. flows)
        (whole_of run.old) world.old result (whole_of run.new) world.new }
{
    let mut values = Vec::new(cx.alloc);
    fill(cx, xs, &mut values, on, run, world)?;
    let text = printed_line(
        cx.alloc,
        &mut run.line,
        &mut run.store,
        place,
        values.as_slice(),
    )?;
    let room = put(place, STANDARD_OUTPUT, text, world)?;
    run.line.reuse(room);
    Ok(Flow::On)
}

/// `print` of whatever items to a stream.
fn general_redirect<W: World, E: Evaluates<W>>(
    cx: &Context<'_>,
    place: Place,
    xs: &[Expr],
    to: &Redirection<Expr>,
    on: E,
    run: &mut Run,
    world: &mut W,
) -> Result<Flow, Halt>
    requires can { E.can on }
    requires owns { Owns (W.open_numbers world.old) run.old.streams }
    ensures { Does W.World cx.now
        (λ g. At (Doing (p.print place (map (view (names_in g)) xs.now) (Some (view_redirection (names_in g) to.now))))
        []) (λ g. flows)
        (whole_of run.old) world.old result (whole_of run.new) world.new }
{
    let mut values = Vec::new(cx.alloc);
    fill(cx, xs, &mut values, on, run, world)?;
    let target = on.value(cx, &to.target, run, world)?;
    let text = printed_for(
        cx.alloc,
        &mut run.line,
        &mut run.store,
        place,
        values.as_slice(),
        &target,
    )?;
    let room = put_to(
        cx.alloc,
        to.place,
        to.how,
        Lent::of(&target),
        text,
        &mut run.streams,
        world,
    )?;
    run.line.reuse(room);
    Ok(Flow::On)
}

/// `printf`
pub fn printf<W: World, E: Evaluates<W>>(
    cx: &Context<'_>,
    place: Place,
    x: &Expr,
    xs: &[Expr],
    to: &Option<Redirection<Expr>>,
    on: E,
    run: &mut Run,
    world: &mut W,
) -> Result<Flow, Halt>
    requires can { E.can on }
    requires owns { Owns (W.open_numbers world.old) run.old.streams }
    ensures { Does W.World cx.now
        (λ g. At (Doing (p.printf place (view (names_in g) x.now) (map (view (names_in g)) xs.now)
        (option_map (view_redirection (names_in g)) to.now))) []) (λ g. flows)
        (whole_of run.old) world.old result (whole_of run.new) world.new }
{
    let format = on.value(cx, x, run, world)?;
    let mut values = Vec::new(cx.alloc);
    append(&mut values, format)?;
    fill(cx, xs, &mut values, on, run, world)?;
    let Some(to) = to else {
        let text = formatted_line(cx.alloc, &run.store, place, values.as_slice())?;
        put(place, STANDARD_OUTPUT, text, world)?;
        return Ok(Flow::On);
    };
    let target = on.value(cx, &to.target, run, world)?;
    let text = formatted_for(cx.alloc, &run.store, place, values.as_slice(), &target)?;
    put_to(
        cx.alloc,
        to.place,
        to.how,
        Lent::of(&target),
        text,
        &mut run.streams,
        world,
    )?;
    Ok(Flow::On)
}
