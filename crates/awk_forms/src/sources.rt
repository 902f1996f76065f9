// What stands where a pattern is wanted, and whether it matches.
ghost use Rattle.std.specs.Prelude.{List, ℕ, IfOk};
ghost use Rattle.awk_streams.specs.Tasks.{Owns};
ghost use Rattle.awk_builtins.specs.Patterns.{IsSourceOf, source_value};
ghost use Rattle.awk_machine.specs.Forms.{source, value};
ghost use Rattle.awk_machine.specs.Operators.{of_truth};
ghost use Rattle.awk_machine.specs.Pieces.{give};
ghost use Rattle.awk_program.specs.Program as p;
ghost use Rattle.awk_program.specs.View.{view, view_ere};
ghost use Rattle.awk_store.specs.Wholes.{names_in};
ghost use Rattle.awk_forms.specs.Runs.{Does, whole_of};

use crate::context::{Context, Run};
use crate::evaluates::Evaluates;
use awk_builtins::at_hand::records::split_for;
use awk_builtins::at_hand::tests::matched_at_hand;
use awk_builtins::patterns;
use awk_builtins::patterns::PatternValue;
use awk_program::{Expr, Pattern};
use awk_streams::halt::Halt;
use awk_text::place::Place;
use box_world::world::World;

/// What stands where a pattern is wanted: a constant is checked where it stands.
pub fn source_of<W: World, E: Evaluates<W>>(
    cx: &Context<'_>,
    pattern: &Pattern<Expr>,
    on: E,
    run: &mut Run,
    world: &mut W,
) -> Result<PatternValue, Halt>
    requires can { E.can on }
    requires owns { Owns (W.open_numbers world.old) run.old.streams }
    ensures plays { Does W.World cx.now (λ g. source (view_ere (names_in g) pattern.now)) (λ g s. give (source_value s))
        (whole_of run.old) world.old result (whole_of run.new) world.new }
    ensures kind { IfOk result (λ s. (names : List (List ℕ)) → IsSourceOf (view_ere names pattern.now) s) }
{
    match pattern {
        Pattern::Constant(place, text) => {
            patterns::constant(cx.alloc, &mut run.patterns, *place, text.bytes())
        }
        Pattern::Computed(x) => {
            let computed = on.value(cx, x.get(), run, world)?;
            Ok(PatternValue::Computed(computed))
        }
    }
}

/// Whether `text ~ pattern` holds.
pub fn matches<W: World, E: Evaluates<W>>(
    cx: &Context<'_>,
    place: Place,
    x: &Expr,
    pattern: &Pattern<Expr>,
    on: E,
    run: &mut Run,
    world: &mut W,
) -> Result<bool, Halt>
    requires can { E.can on }
    requires owns { Owns (W.open_numbers world.old) run.old.streams }
    ensures { Does W.World cx.now
        (λ g. value (p.matched place (view (names_in g) x.now) (view_ere (names_in g) pattern.now)))
        (λ g b. give (of_truth b))
        (whole_of run.old) world.old result (whole_of run.new) world.new }
{
    split_for(&mut run.store, x)?;
    let known = matched_at_hand(cx.alloc, &mut run.patterns, &run.store, x, pattern);
    if let Some(found) = known {
        return Ok(found);
    }
    let text = on.value(cx, x, run, world)?;
    let from = source_of(cx, pattern, on, run, world)?;
    patterns::matched(cx.alloc, &mut run.patterns, place, &text, from)
}
