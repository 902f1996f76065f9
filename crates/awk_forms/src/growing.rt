// A text that grows behind a variable's by operands that are evaluated.
ghost use Rattle.std.specs.Prelude.{[], map, ◌++◌, ◌∷◌};
ghost use Rattle.awk_streams.specs.Tasks.{Owns};
ghost use Rattle.awk_machine.specs.Forms.{value};
ghost use Rattle.awk_machine.specs.Pieces.{At, Texts_of, give};
ghost use Rattle.awk_program.specs.Program as p;
ghost use Rattle.awk_program.specs.Program.{joins_of};
ghost use Rattle.awk_program.specs.View.{variable_of, view, view_joined};
ghost use Rattle.awk_store.specs.Wholes.{names_in};
ghost use Rattle.awk_text.specs.declared.value.Value.TheVariants as v;
ghost use Rattle.awk_forms.specs.Runs.{Does, Yields, IsUnwanted, whole_of};

use crate::context::{Context, Run};
use crate::evaluates::Evaluates;
use crate::targets::put_variable;
use crate::units::units_of;
use awk_builtins::at_hand::growth::{join_behind, set_behind, text_to_grow};
use awk_program::{Expr, Joined, Variable};
use awk_streams::halt::Halt;
use awk_text::octets::Octets;
use awk_text::place::Place;
use box_world::world::World;

/// The texts of the operands, which come behind a text.
#[inline(never)]
fn operands<W: World, E: Evaluates<W>>(
    cx: &Context<'_>,
    text: &Octets,
    xs: &[Joined<Expr>],
    on: E,
    run: &mut Run,
    world: &mut W,
) -> Result<Vec<u8>, Halt>
    requires can { E.can on }
    requires owns { Owns (W.open_numbers world.old) run.old.streams }
    ensures { Does W.World cx.now
        (λ g. At (Texts_of (joins_of (map (view_joined (names_in g)) xs.now))) (v.Text text.now ∷ []))
        (λ g more. give (v.Text (text.now ++ more.items)))
        (whole_of run.old) world.old result (whole_of run.new) world.new }
{
    let mut more = Vec::new(cx.alloc);
    for next in xs {
        let operand = on.value(cx, &next.operand, run, world)?;
        join_behind(next.place, text, &mut more, &operand)?;
    }
    Ok(more)
}

/// `variable = value`, whose value nothing wants. Where that is the variable's own text, a long one, with more behind
/// it, the text grows in its place.
pub(crate) fn put_longer<W: World, E: Evaluates<W>>(
    cx: &Context<'_>,
    place: Place,
    variable: Variable,
    x: &Expr,
    on: E,
    run: &mut Run,
    world: &mut W,
) -> Result<(), Halt>
    requires can { E.can on }
    requires owns { Owns (W.open_numbers world.old) run.old.streams }
    ensures { Yields W.World cx.now
        (λ g. value (p.assign place (p.variable (variable_of (names_in g) variable)) (view (names_in g) x.now)))
        IsUnwanted
        (whole_of run.old) world.old result (whole_of run.new) world.new }
{
    let Some(longer) = text_to_grow(&mut run.store, variable, x) else {
        return put_variable(cx, place, variable, x, on, run, world);
    };
    let Some(below) = on.below(units_of(x)) else {
        return Err(Halt::Memory);
    };
    let more = operands(cx, &longer.text, longer.rest, below, run, world)?;
    set_behind(
        cx.alloc,
        &mut run.store,
        variable,
        longer.text,
        more.as_slice(),
    )
}
