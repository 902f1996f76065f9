// What evaluates the parts of a form.
ghost use Rattle.std.specs.Prelude.{IfSome};
ghost use Rattle.awk_streams.specs.Tasks.{Owns};
ghost use Rattle.awk_machine.specs.Forms.{value};
ghost use Rattle.awk_machine.specs.Pieces.{Do, Start, give};
ghost use Rattle.awk_program.specs.View.{view, view_statement};
ghost use Rattle.awk_store.specs.Wholes.{names_in};
ghost use Rattle.awk_streams.specs.Flows.{flows};
ghost use Rattle.awk_forms.specs.Runs.{Does, whole_of};

use crate::context::{Context, Run};
use awk_program::{Expr, Statement};
use awk_streams::flow::Flow;
use awk_streams::halt::Halt;
use awk_text::value::Value;
use box_world::world::World;

/// What evaluates expressions and statements, within what is left of the stack.
pub trait Evaluates<W: World>: Copy {
    /// It may be called: less of the stack is left than to the caller.
    ghost can: { Self → Type 0 };

    /// The value of an expression.
    fn value(self, cx: &Context<'_>, e: &Expr, run: &mut Run, world: &mut W) -> Result<Value, Halt>
        requires can { can self }
        requires owns { Owns (W.open_numbers world.old) run.old.streams }
        ensures { Does W.World cx.now (λ g. value (view (names_in g) e.now)) (λ g. give)
            (whole_of run.old) world.old result (whole_of run.new) world.new };

    /// A statement.
    fn statement(
        self,
        cx: &Context<'_>,
        x: &Statement,
        run: &mut Run,
        world: &mut W,
    ) -> Result<Flow, Halt>
        requires can { can self }
        requires owns { Owns (W.open_numbers world.old) run.old.streams }
        ensures { Does W.World cx.now (λ g. Do (Start (view_statement (names_in g) x.now))) (λ g. flows)
            (whole_of run.old) world.old result (whole_of run.new) world.new };

    /// The same, for what stands inside a form that takes so many units of the stack, if as many are left.
    fn below(self, units: u32) -> Option<Self>
        requires { can self }
        ensures { IfSome result can };
}
