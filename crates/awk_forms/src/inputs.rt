// getline in its forms.
ghost use Rattle.awk_streams.specs.Tasks.{Owns};
ghost use Rattle.awk_machine.specs.Forms.{value};
ghost use Rattle.awk_machine.specs.Pieces.{give};
ghost use Rattle.awk_program.specs.Program as p;
ghost use Rattle.awk_program.specs.View.{view, view_pipes, view_target};
ghost use Rattle.awk_store.specs.Wholes.{names_in};
ghost use Rattle.awk_forms.specs.Runs.{Does, whole_of};

use crate::context::{Context, Run};
use crate::evaluates::Evaluates;
use crate::targets::target_of;
use awk_builtins::at_hand::elements::spot_at_hand;
use awk_builtins::at_hand::values::{MOST_LEVELS, at_hand};
use awk_input::getline::{
    command_record, file_record, getline_pipe, set_from_command, set_from_file,
};
use awk_input::main_input::getline_main;
use awk_program::{Expr, Piped, Target};
use awk_streams::halt::Halt;
use awk_text::lent::Lent;
use awk_text::place::Place;
use awk_text::value::Value;
use box_world::world::World;

/// `getline target`, from the main input.
pub fn getline<W: World, E: Evaluates<W>>(
    cx: &Context<'_>,
    place: Place,
    target: &Target<Expr>,
    on: E,
    run: &mut Run,
    world: &mut W,
) -> Result<Value, Halt>
    requires can { E.can on }
    requires owns { Owns (W.open_numbers world.old) run.old.streams }
    ensures { Does W.World cx.now (λ g. value (p.getline place (view_target (names_in g) target.now))) (λ g. give)
        (whole_of run.old) world.old result (whole_of run.new) world.new }
{
    let to = target_of(cx, target, on, run, world)?;
    getline_main(
        cx.alloc,
        cx.host,
        place,
        to,
        &mut run.store,
        &mut run.streams,
        world,
    )
}

/// `getline target < file`. Where the file's name is at hand, and what is set needs no evaluation, the name is not
/// copied.
#[inline(never)]
pub fn from_file<W: World, E: Evaluates<W>>(
    cx: &Context<'_>,
    place: Place,
    target: &Target<Expr>,
    x: &Expr,
    on: E,
    run: &mut Run,
    world: &mut W,
) -> Result<Value, Halt>
    requires can { E.can on }
    requires owns { Owns (W.open_numbers world.old) run.old.streams }
    ensures { Does W.World cx.now
        (λ g. value (p.getline_file place (view_target (names_in g) target.now) (view (names_in g) x.now))) (λ g. give)
        (whole_of run.old) world.old result (whole_of run.new) world.new }
{
    if let Some(to) = spot_at_hand(target) {
        if let Some(name) = at_hand(&run.store, x, MOST_LEVELS) {
            let answer = file_record(cx.alloc, place, name, &run.store, &mut run.streams, world)?;
            return set_from_file(
                cx.alloc,
                place,
                to,
                answer,
                &mut run.store,
                &mut run.streams,
            );
        }
    }
    let to = target_of(cx, target, on, run, world)?;
    let name = on.value(cx, x, run, world)?;
    let answer = file_record(
        cx.alloc,
        place,
        Lent::of(&name),
        &run.store,
        &mut run.streams,
        world,
    )?;
    set_from_file(
        cx.alloc,
        place,
        to,
        answer,
        &mut run.store,
        &mut run.streams,
    )
}

/// `command | getline target`, and a chain of them. Where there is one command, which is at hand, and what is set needs
/// no evaluation, the command is not copied.
#[inline(never)]
pub fn from_commands<W: World, E: Evaluates<W>>(
    cx: &Context<'_>,
    x: &Expr,
    xs: &[Piped<Expr>],
    on: E,
    run: &mut Run,
    world: &mut W,
) -> Result<Value, Halt>
    requires can { E.can on }
    requires owns { Owns (W.open_numbers world.old) run.old.streams }
    ensures { Does W.World cx.now (λ g. value (p.pipe (view (names_in g) x.now) (view_pipes (names_in g) xs.now)))
        (λ g. give)
        (whole_of run.old) world.old result (whole_of run.new) world.new }
{
    if let [only] = xs {
        if let Some(to) = spot_at_hand(&only.target) {
            if let Some(command) = at_hand(&run.store, x, MOST_LEVELS) {
                let answer = command_record(
                    cx.alloc,
                    only.place,
                    command,
                    &run.store,
                    &mut run.streams,
                    world,
                )?;
                return set_from_command(
                    cx.alloc,
                    only.place,
                    to,
                    answer,
                    &mut run.store,
                    &mut run.streams,
                );
            }
        }
    }
    let mut so_far = on.value(cx, x, run, world)?;
    for next in xs {
        let to = target_of(cx, &next.target, on, run, world)?;
        so_far = getline_pipe(
            cx.alloc,
            next.place,
            to,
            Lent::of(&so_far),
            &mut run.store,
            &mut run.streams,
            world,
        )?;
    }
    Ok(so_far)
}
