// The rules for a record.
ghost use Rattle.awk_forms.specs.Runs.{Does, whole_of};
ghost use Rattle.awk_machine.specs.Pieces as machine;
ghost use Rattle.awk_machine.specs.Pieces.{At, Choosing, Do};
ghost use Rattle.awk_program.specs.Program as p;
ghost use Rattle.awk_program.specs.View.{view, view_rule, view_statement};
ghost use Rattle.awk_run.specs.Rules.{met, rule_of};
ghost use Rattle.awk_streams.specs.Flows.{flows};
ghost use Rattle.awk_store.specs.Wholes.{names_in};
ghost use Rattle.awk_streams.specs.Tasks.{Owns, goes_on};
ghost use Rattle.std.specs.Prelude.{[], if◌then◌else◌, map, ◌≡◌};

use awk_eval::{body, truth_of};
use awk_forms::{Context, MOST_UNITS, Run};
use awk_input::ranges::{begin_range, end_range};
use awk_program::{Expr, Rule, Statement, When};
use awk_streams::flow::Flow;
use awk_streams::halt::Halt;
use box_world::world::World;

/// The rule of an expression: its action is done where the expression holds.
fn where_holds<W: World>(
    cx: &Context<'_>,
    n: usize,
    pattern: &Expr,
    action: &[Statement],
    run: &mut Run,
    world: &mut W,
) -> Result<Flow, Halt>
    requires { Owns (W.open_numbers world.old) run.old.streams }
    ensures { Does W.World cx.now
        (λ g. At (Choosing n (rule_of (p.holds (view (names_in g) pattern.now))
        (map (view_statement (names_in g)) action.now))) []) (λ g. flows)
        (whole_of run.old) world.old result (whole_of run.new) world.new }
{
    let holds = truth_of(cx, pattern, MOST_UNITS, run, world)?;
    if !holds {
        return Ok(Flow::On);
    }
    body(cx, action, MOST_UNITS, run, world)
}

/// The pattern of a range that is met next: its last one where it is on, and else its first one.
fn next_pattern<'a>(is_on: bool, first: &'a Expr, last: &'a Expr) -> &'a Expr
    ensures { result.now ≡ (if is_on then last.now else first.now) }
{
    if is_on { last } else { first }
}

/// Meets one pattern of a range, and answers whether the action is done; `None` where the range has just begun, and its
/// last pattern is still to be met.
fn test_range<W: World>(
    cx: &Context<'_>,
    n: usize,
    first: &Expr,
    last: &Expr,
    action: &[Statement],
    run: &mut Run,
    world: &mut W,
) -> Result<Option<bool>, Halt>
    requires { Owns (W.open_numbers world.old) run.old.streams }
    ensures { Does W.World cx.now
        (λ g. At (Choosing n (rule_of (p.range (view (names_in g) first.now) (view (names_in g) last.now))
        (map (view_statement (names_in g)) action.now))) [])
        (λ g. met n (rule_of (p.range (view (names_in g) first.now) (view (names_in g) last.now))
        (map (view_statement (names_in g)) action.now)))
        (whole_of run.old) world.old result (whole_of run.new) world.new }
{
    let pattern = next_pattern(run.store.is_on(n), first, last);
    let holds = truth_of(cx, pattern, MOST_UNITS, run, world)?;
    if run.store.is_on(n) {
        end_range(&mut run.store, n, holds)?;
        return Ok(Some(true));
    }
    let begins = begin_range(&mut run.store, n, holds)?;
    if begins {
        return Ok(None);
    }
    Ok(Some(false))
}

/// The rule of a range. One record may begin it and end it.
fn within<W: World>(
    cx: &Context<'_>,
    n: usize,
    first: &Expr,
    last: &Expr,
    action: &[Statement],
    run: &mut Run,
    world: &mut W,
) -> Result<Flow, Halt>
    requires { Owns (W.open_numbers world.old) run.old.streams }
    ensures { Does W.World cx.now
        (λ g. At (Choosing n (rule_of (p.range (view (names_in g) first.now) (view (names_in g) last.now))
        (map (view_statement (names_in g)) action.now))) []) (λ g. flows)
        (whole_of run.old) world.old result (whole_of run.new) world.new }
{
    for _pattern in 0..2 {
        let is_done = test_range(cx, n, first, last, action, run, world)?;
        if let Some(acts) = is_done {
            if !acts {
                return Ok(Flow::On);
            }
            return body(cx, action, MOST_UNITS, run, world);
        }
    }
    Err(Halt::NEVER)
}

/// The rule at this place among the rules: its action is done where its pattern chooses the record.
fn rule<W: World>(
    cx: &Context<'_>,
    n: usize,
    x: &Rule,
    run: &mut Run,
    world: &mut W,
) -> Result<Flow, Halt>
    requires { Owns (W.open_numbers world.old) run.old.streams }
    ensures { Does W.World cx.now (λ g. At (Choosing n (view_rule (names_in g) x.now)) []) (λ g. flows)
        (whole_of run.old) world.old result (whole_of run.new) world.new }
{
    let action = x.action.as_slice();
    match &x.when {
        When::Always => body(cx, action, MOST_UNITS, run, world),
        When::Holds(pattern) => where_holds(cx, n, pattern, action, run, world),
        When::Range(first, last) => within(cx, n, first, last, action, run, world),
    }
}

/// The rules for a record, one after the other.
pub fn rules<W: World>(cx: &Context<'_>, run: &mut Run, world: &mut W) -> Result<(), Halt>
    requires { Owns (W.open_numbers world.old) run.old.streams }
    ensures { Does W.World cx.now (λ g. Do (machine.Rules 0 g.program.rules)) (λ g. goes_on)
        (whole_of run.old) world.old result (whole_of run.new) world.new }
{
    let rules = cx.program.rules.as_slice();
    for n in 0..rules.len() {
        rule(cx, n, &rules[n], run, world)?;
    }
    Ok(())
}
