// Expressions that search for a pattern.
ghost use Rattle.awk_streams.specs.Tasks.{Owns};
ghost use Rattle.awk_machine.specs.Forms.{value};
ghost use Rattle.awk_machine.specs.Pieces.{give};
ghost use Rattle.awk_program.specs.Program as p;
ghost use Rattle.awk_program.specs.View.{view, view_ere, view_target, variable_of};
ghost use Rattle.awk_store.specs.Wholes.{names_in};
ghost use Rattle.awk_forms.specs.Runs.{Does, whole_of};

use crate::context::{Context, Run};
use crate::evaluates::Evaluates;
use crate::sources::source_of;
use crate::targets::target_of;
use awk_builtins::replacements::Substitution;
use awk_builtins::splits::Splitting;
use awk_builtins::{replacements, searches, splits};
use awk_program::{Expr, Extent, Pattern, Target, Variable};
use awk_streams::halt::Halt;
use awk_text::place::Place;
use awk_text::value::Value;
use box_world::world::World;

/// `match ( text , pattern )`
pub fn locate<W: World, E: Evaluates<W>>(
    cx: &Context<'_>,
    place: Place,
    x: &Expr,
    pattern: &Pattern<Expr>,
    on: E,
    run: &mut Run,
    world: &mut W,
) -> Result<Value, Halt>
    requires can { E.can on }
    requires owns { Owns (W.open_numbers world.old) run.old.streams }
    ensures { Does W.World cx.now
        (λ g. value (p.locate place (view (names_in g) x.now) (view_ere (names_in g) pattern.now))) (λ g. give)
        (whole_of run.old) world.old result (whole_of run.new) world.new }
{
    let text = on.value(cx, x, run, world)?;
    let from = source_of(cx, pattern, on, run, world)?;
    searches::located(
        cx.alloc,
        &mut run.patterns,
        &mut run.store,
        place,
        &text,
        from,
    )
}

/// `split ( text , array , separator )`
pub fn split<W: World, E: Evaluates<W>>(
    cx: &Context<'_>,
    place: Place,
    x: &Expr,
    at_name: Place,
    array: Variable,
    separator: &Pattern<Expr>,
    on: E,
    run: &mut Run,
    world: &mut W,
) -> Result<Value, Halt>
    requires can { E.can on }
    requires owns { Owns (W.open_numbers world.old) run.old.streams }
    ensures { Does W.World cx.now
        (λ g. value (p.split place (view (names_in g) x.now) at_name (variable_of (names_in g) array)
        (view_ere (names_in g) separator.now))) (λ g. give)
        (whole_of run.old) world.old result (whole_of run.new) world.new }
{
    let text = on.value(cx, x, run, world)?;
    let by = source_of(cx, separator, on, run, world)?;
    let splitting = Splitting {
        at_name,
        array,
        text: &text,
    };
    splits::split(
        cx.alloc,
        &mut run.patterns,
        &mut run.store,
        place,
        splitting,
        by,
    )
}

/// `sub ( pattern , new , target )`, and gsub.
pub fn substitute<W: World, E: Evaluates<W>>(
    cx: &Context<'_>,
    place: Place,
    extent: Extent,
    pattern: &Pattern<Expr>,
    x: &Expr,
    target: &Target<Expr>,
    on: E,
    run: &mut Run,
    world: &mut W,
) -> Result<Value, Halt>
    requires can { E.can on }
    requires owns { Owns (W.open_numbers world.old) run.old.streams }
    ensures { Does W.World cx.now
        (λ g. value (p.substitute place extent (view_ere (names_in g) pattern.now) (view (names_in g) x.now)
        (view_target (names_in g) target.now))) (λ g. give)
        (whole_of run.old) world.old result (whole_of run.new) world.new }
{
    let from = source_of(cx, pattern, on, run, world)?;
    let new = on.value(cx, x, run, world)?;
    let to = target_of(cx, target, on, run, world)?;
    let substitution = Substitution {
        place,
        extent,
        new: &new,
    };
    replacements::substitute(
        cx.alloc,
        &mut run.patterns,
        &mut run.store,
        substitution,
        from,
        to,
    )
}
