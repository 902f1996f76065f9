// Expressions and statements, no deeper than the stack lets them be.
ghost use Rattle.std.specs.Prelude.{map};
ghost use Rattle.awk_streams.specs.Tasks.{Owns};
ghost use Rattle.awk_streams.specs.Flows.{flows};
ghost use Rattle.awk_eval.specs.Nests.{Nests};
ghost use Rattle.awk_machine.specs.Forms.{value};
ghost use Rattle.awk_machine.specs.Pieces.{Do, Each, Start, give};
ghost use Rattle.awk_forms.specs.Runs.{Does, IsTruthOf, Yields, whole_of};
ghost use Rattle.awk_program.specs.View.{view, view_statement};
ghost use Rattle.awk_store.specs.Wholes.{names_in};

use crate::calls::call;
use crate::statements;
use crate::statements::{block, either, perform, plain, when};
use awk_builtins::at_hand::values::{number_there, other_at_hand};
use awk_forms::context::{Context, Run};
use awk_forms::evaluates::Evaluates;
use awk_forms::expressions::{chain, choose, evaluate};
use awk_forms::inputs::{from_commands, from_file};
use awk_forms::targets::value_of_variable;
use awk_forms::tests;
use awk_forms::units::{units_of, units_of_statement};
use awk_program::{Expr, Statement, Target};
use awk_store::steps::{is_one, step};
use awk_streams::flow::Flow;
use awk_streams::halt::Halt;
use awk_text::value::Value;
use box_world::world::World;

/// What evaluates, within so many units of the stack.
#[derive(Clone, Copy)]
struct Walk<V, S> {
    left: u32,
    value: V,
    statement: S,
}

impl<
    W: World,
    V: Copy + Fn(&Context<'_>, &Expr, u32, &mut Run, &mut W) -> Result<Value, Halt>,
    S: Copy + Fn(&Context<'_>, &Statement, u32, &mut Run, &mut W) -> Result<Flow, Halt>,
> Evaluates<W> for Walk<V, S> {
    ghost can = { λ on. Nests W.World on.left (V.pre on.value) (V.post on.value) (S.pre on.statement) (S.post on.statement) };

    #[inline(always)]
    fn value(
        self,
        cx: &Context<'_>,
        e: &Expr,
        run: &mut Run,
        world: &mut W,
    ) -> Result<Value, Halt> {
        (self.value)(cx, e, self.left, run, world)
    }

    #[inline(always)]
    fn statement(
        self,
        cx: &Context<'_>,
        x: &Statement,
        run: &mut Run,
        world: &mut W,
    ) -> Result<Flow, Halt> {
        (self.statement)(cx, x, self.left, run, world)
    }

    #[inline(always)]
    fn below(self, units: u32) -> Option<Self> {
        if self.left < units {
            return None;
        }
        Some(Walk {
            left: self.left - units,
            value: self.value,
            statement: self.statement,
        })
    }
}

/// The value of an expression. Its parts are evaluated within what it leaves of the stack; where that is too little,
/// memory for them is refused.
#[cycle(walk)]
pub fn value<W: World>(
    cx: &Context<'_>,
    e: &Expr,
    left: u32,
    run: &mut Run,
    world: &mut W,
) -> Result<Value, Halt>
    requires { Owns (W.open_numbers world.old) run.old.streams }
    ensures { Does W.World cx.now (λ g. value (view (names_in g) e.now)) (λ g. give)
        (whole_of run.old) world.old result (whole_of run.new) world.new }
{
    if let Expr::Call(place, f, xs) = e {
        let units = units_of(e);
        if left < units {
            return Err(Halt::Memory);
        }
        let below = Walk {
            left: left - units,
            value: value::<W>,
            statement: statement::<W>,
        };
        return call(cx, *place, *f, xs.as_slice(), below, run, world);
    }
    if let Some(number) = number_there(&run.store, e) {
        return Ok(Value::Num(number));
    }
    if let Expr::Read(target) = e {
        if let Target::Variable(variable) = target {
            return value_of_variable(cx, *variable, run, world);
        }
    }
    if let Some(there) = other_at_hand(cx.alloc, &run.store, e) {
        return Ok(there);
    }
    let units = units_of(e);
    if left < units {
        return Err(Halt::Memory);
    }
    let below = Walk {
        left: left - units,
        value: value::<W>,
        statement: statement::<W>,
    };
    match e {
        Expr::Chain(x, xs) => chain(cx, x.get(), xs.as_slice(), below, run, world),
        Expr::Choice(x, y, z) => choose(cx, x.get(), y.get(), z.get(), below, run, world),
        Expr::GetlineFile(place, target, x) => {
            from_file(cx, *place, target, x.get(), below, run, world)
        }
        Expr::Pipe(x, xs) => from_commands(cx, x.get(), xs.as_slice(), below, run, world),
        _ => evaluate(cx, e, below, run, world),
    }
}

/// A statement. A step is taken before each that is no block, and before an empty block.
#[cycle(walk)]
pub fn statement<W: World>(
    cx: &Context<'_>,
    x: &Statement,
    left: u32,
    run: &mut Run,
    world: &mut W,
) -> Result<Flow, Halt>
    requires { Owns (W.open_numbers world.old) run.old.streams }
    ensures { Does W.World cx.now (λ g. Do (Start (view_statement (names_in g) x.now))) (λ g. flows)
        (whole_of run.old) world.old result (whole_of run.new) world.new }
{
    let units = units_of_statement(x);
    if left < units {
        return Err(Halt::Memory);
    }
    let below = Walk {
        left: left - units,
        value: value::<W>,
        statement: statement::<W>,
    };
    if !is_one(x) {
        return block(cx, x, below, run, world);
    }
    step(cx.host.bound(), &mut run.store)?;
    match x {
        Statement::Expr(e) => plain(cx, e, below, run, world),
        Statement::If(test, then) => when(cx, test, then.get(), below, run, world),
        Statement::IfElse(test, then, other) => {
            either(cx, test, then.get(), other.get(), below, run, world)
        }
        _ => perform(cx, x, below, run, world),
    }
}

/// Whether the value of an expression is true.
pub fn truth_of<W: World>(
    cx: &Context<'_>,
    e: &Expr,
    left: u32,
    run: &mut Run,
    world: &mut W,
) -> Result<bool, Halt>
    requires { Owns (W.open_numbers world.old) run.old.streams }
    ensures { Yields W.World cx.now (λ g. value (view (names_in g) e.now)) IsTruthOf
        (whole_of run.old) world.old result (whole_of run.new) world.new }
{
    let here = Walk {
        left,
        value: value::<W>,
        statement: statement::<W>,
    };
    tests::truth_of(cx, e, here, run, world)
}

/// Statements, one after the other.
#[inline(always)]
pub fn body<W: World>(
    cx: &Context<'_>,
    xs: &[Statement],
    left: u32,
    run: &mut Run,
    world: &mut W,
) -> Result<Flow, Halt>
    requires { Owns (W.open_numbers world.old) run.old.streams }
    ensures { Does W.World cx.now (λ g. Do (Each (map (view_statement (names_in g)) xs.now))) (λ g. flows)
        (whole_of run.old) world.old result (whole_of run.new) world.new }
{
    let here = Walk {
        left,
        value: value::<W>,
        statement: statement::<W>,
    };
    statements::body(cx, xs, here, run, world)
}
