// Lists of expressions.
ghost use Rattle.std.specs.Prelude.{◌≡◌, ◌+◌, List, ℕ, length, IfErr, IfOk, OnOk, map};
ghost use Rattle.awk_streams.specs.Tasks.{Owns};
ghost use Rattle.awk_machine.specs.Forms.{value, spot};
ghost use Rattle.awk_machine.specs.Pieces.{give};
ghost use Rattle.awk_program.specs.Program as p;
ghost use Rattle.awk_program.specs.Program.{expressions_of};
ghost use Rattle.awk_program.specs.View.{view, variable_of};
ghost use Rattle.awk_store.specs.Spots.{IsSpotOf, value_of};
ghost use Rattle.awk_store.specs.Wholes.{names_in};
ghost use Rattle.awk_forms.specs.Runs.{Does, Fills, whole_of};

use crate::context::{Context, Run};
use crate::evaluates::Evaluates;
use awk_builtins::chains::members;
use awk_builtins::keys::{element_key, group_key, one_key, only};
use awk_builtins::made::append;
use awk_program::{Expr, Variable};
use awk_store::{ElementKey, Spot};
use awk_streams::halt::Halt;
use awk_text::place::Place;
use awk_text::value::Value;
use box_world::world::World;

/// Makes room for so many values more, so that a list takes memory once.
fn make_room(values: &mut Vec<Value>, count: usize) -> Result<(), Halt>
    ensures same { values.new.items ≡ values.old.items }
    ensures err { IfErr result (λ h. h ≡ Halt.Memory) }
{
    values.reserve(count)?;
    Ok(())
}

/// Adds the values of a list of expressions, from left to right, to those that are there.
pub fn fill<W: World, E: Evaluates<W>>(
    cx: &Context<'_>,
    xs: &[Expr],
    values: &mut Vec<Value>,
    on: E,
    run: &mut Run,
    world: &mut W,
) -> Result<(), Halt>
    requires can { E.can on }
    requires owns { Owns (W.open_numbers world.old) run.old.streams }
    ensures plays { Fills W.World cx.now (λ g. map (view (names_in g)) xs.now) values.old.items values.new.items
        (whole_of run.old) world.old result (whole_of run.new) world.new }
    ensures count { OnOk result (length values.new.items ≡ length values.old.items + length xs.now) }
{
    make_room(values, xs.len())?;
    for x in xs {
        let next = on.value(cx, x, run, world)?;
        append(values, next)?;
    }
    Ok(())
}

/// `array [ list ]`
pub fn element<W: World, E: Evaluates<W>>(
    cx: &Context<'_>,
    place: Place,
    array: Variable,
    keys: &[Expr],
    on: E,
    run: &mut Run,
    world: &mut W,
) -> Result<Spot, Halt>
    requires can { E.can on }
    requires owns { Owns (W.open_numbers world.old) run.old.streams }
    ensures plays { Does W.World cx.now
        (λ g. spot (p.element place (variable_of (names_in g) array)
        (expressions_of (map (view (names_in g)) keys.now)))) (λ g s. give (value_of s))
        (whole_of run.old) world.old result (whole_of run.new) world.new }
    ensures spot { IfOk result
        (λ s. (names : List (List ℕ)) →
        IsSpotOf names (p.element place (variable_of names array) (expressions_of (map (view names) keys.now))) s) }
{
    if let Some(one) = only(keys) {
        let subscript = on.value(cx, one, run, world)?;
        let found = one_key(place, subscript)?;
        return Ok(Spot::Element(place, array, found));
    }
    let mut values = Vec::new(cx.alloc);
    fill(cx, keys, &mut values, on, run, world)?;
    let key = element_key(
        cx.alloc,
        &mut run.line,
        &run.store,
        place,
        values.as_slice(),
    )?;
    Ok(Spot::Element(place, array, ElementKey::new(Value::Text(key))))
}

/// `( list ) in array in array ..`
pub fn element_group<W: World, E: Evaluates<W>>(
    cx: &Context<'_>,
    place: Place,
    xs: &[Expr],
    arrays: &[Variable],
    on: E,
    run: &mut Run,
    world: &mut W,
) -> Result<Value, Halt>
    requires can { E.can on }
    requires owns { Owns (W.open_numbers world.old) run.old.streams }
    ensures { Does W.World cx.now
        (λ g. value (p.group place (expressions_of (map (view (names_in g)) xs.now))
        (map (variable_of (names_in g)) arrays.now))) (λ g. give)
        (whole_of run.old) world.old result (whole_of run.new) world.new }
{
    let mut values = Vec::new(cx.alloc);
    fill(cx, xs, &mut values, on, run, world)?;
    let key = group_key(
        cx.alloc,
        &mut run.line,
        &run.store,
        place,
        values.as_slice(),
    )?;
    Ok(members(&run.store, arrays, Value::Text(key)))
}
