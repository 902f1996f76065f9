// The items of a script.

ghost use Rattle.std.specs.Prelude.{◌≡◌, [], map, IfOk, OnOk};
ghost use Rattle.awk_lowering.specs.Made.{AreStatements, names_in, scope_in};
ghost use Rattle.awk_lowering.specs.MadeRules.{IsWhen, IsRule, IsFunction};
ghost use Rattle.awk_resolve.specs.TablesIn.{tables_in};
ghost use Rattle.awk_lowering.specs.Programs as spec;
ghost use Rattle.awk_resolve.specs.Kinds.{texts};
ghost use Rattle.awk_program.specs.Program as p;
ghost use Rattle.awk_program.specs.View as code;
ghost use Rattle.awk_tree.specs.View.{view_item, view_pattern, view_statement};

use crate::blocks::print_of;
use crate::expressions::part;
use crate::kept::{finished, only, push};
use crate::names::Lowering;
use crate::rules::{function_of, holds, range, rule_of};
use crate::statements::statements;
use awk_numbers::number::Numbers;
use awk_program::{Function, GlobalName, Program, Rule, Statement, When};
use awk_resolve::{OwnNames, Tables};
use awk_text::Memory;
use awk_text::octets::Octets;
use awk_text::place::Place;
use awk_tree::{Item, Pattern};
use sqlite_items::Items;
use std::alloc::Global;

/// No tree is so deep: each level is a box of its own, and so many boxes have no room in memory.
const DEEPEST: u32 = u32::MAX;

/// What an item is read in that has these parameters.
fn within<'a>(
    alloc: Global,
    numbers: Numbers,
    tables: &'a Tables,
    parameters: &'a OwnNames<'a>,
    own_arrays: &'a [bool],
) -> Lowering<'a>
    ensures names { names_in result ≡ tables.now.variables }
    ensures profile { result.numbers ≡ numbers }
    ensures scope { scope_in result ≡ spec.scope_with numbers (tables_in tables.now) parameters.now own_arrays.now }
{
    Lowering {
        alloc,
        numbers,
        variables: &tables.variables,
        script_arrays: tables.script_arrays.as_slice(),
        functions: &tables.functions,
        arrays: tables.arrays.as_slice(),
        parameters,
        own_arrays,
    }
}

/// Of each parameter of a function whether it is an array.
fn flags<'a>(tables: &'a Tables, name: &[u8]) -> &'a [bool]
    ensures { result.now ≡ spec.flags (tables_in tables.now) name.now }
{
    match tables.functions.position(name) {
        Some(n) => match tables.arrays.as_slice().get(n) {
            Some(arrays) => arrays.as_slice(),
            None => &[],
        },
        None => &[],
    }
}

fn action(context: &Lowering<'_>, body: &[awk_tree::Statement]) -> Result<Items<Statement>, Memory>
    ensures { AreStatements (names_in context.now) result
        (spec.body (scope_in context.now) (map view_statement body.now)) }
{
    statements(context, body, DEEPEST)
}

/// What a missing action means.
fn printed(alloc: Global) -> Result<Items<Statement>, Memory>
    ensures { (t : code.Names) → AreStatements t result spec.printed }
{
    let nowhere = Place { line: 0, column: 0 };
    only(alloc, print_of(nowhere, Ok(Items::new(alloc)), Ok(None)))
}

fn when(context: &Lowering<'_>, pattern: &Pattern) -> Result<When, Memory>
    ensures { IsWhen (names_in context.now) result (spec.when_of (scope_in context.now) (view_pattern pattern.now)) }
{
    match pattern {
        Pattern::Expr(x) => holds(part(context, x, DEEPEST)),
        Pattern::Range(x, y) => {
            let x = part(context, x, DEEPEST);
            range(x, part(context, y, DEEPEST))
        }
    }
}

/// `action` by itself
fn always(context: &Lowering<'_>, body: &[awk_tree::Statement]) -> Result<Rule, Memory>
    ensures { IsRule (names_in context.now) result
        (spec.rule_of p.always (spec.body (scope_in context.now) (map view_statement body.now))) }
{
    rule_of(Ok(When::Always), action(context, body))
}

/// `pattern` by itself
fn shown(context: &Lowering<'_>, pattern: &Pattern) -> Result<Rule, Memory>
    ensures { IsRule (names_in context.now) result
        (spec.rule_of (spec.when_of (scope_in context.now) (view_pattern pattern.now)) spec.printed) }
{
    let when = when(context, pattern);
    rule_of(when, printed(context.alloc))
}

/// `pattern action`
fn rule(
    context: &Lowering<'_>,
    pattern: &Pattern,
    body: &[awk_tree::Statement],
) -> Result<Rule, Memory>
    ensures { IsRule (names_in context.now) result
        (spec.rule_of (spec.when_of (scope_in context.now) (view_pattern pattern.now))
        (spec.body (scope_in context.now) (map view_statement body.now))) }
{
    let when = when(context, pattern);
    rule_of(when, action(context, body))
}

fn function(
    alloc: Global,
    numbers: Numbers,
    tables: &Tables,
    f: &awk_tree::Function,
) -> Result<Function, Memory>
    ensures { IsFunction tables.now.variables result
        (spec.function_of numbers (tables_in tables.now) f.now.name.text (texts f.now.params)
        (map view_statement f.now.body)) }
{
    let parameters = OwnNames::of(alloc, f.params.as_slice())?;
    let flags = flags(tables, f.name.text.bytes());
    let context = within(alloc, numbers, tables, &parameters, flags);
    let body = action(&context, f.body.as_slice());
    function_of(
        f.name.text.copy(alloc),
        Items::from_slice(alloc, flags),
        body,
    )
}

/// Puts what an item is behind the others of its kind. What has no parameters is read in the context.
fn add(
    context: &Lowering<'_>,
    tables: &Tables,
    item: &Item,
    out: &mut Program,
) -> Result<(), Memory>
    requires names { names_in context.now ≡ tables.now.variables }
    requires scope { scope_in context.now ≡ spec.scope_with context.now.numbers (tables_in tables.now) [] [] }
    ensures { OnOk result
        (code.view_by tables.now.variables out.new
        ≡ spec.with_entry context.now.numbers (tables_in tables.now) (view_item item.now)
        (code.view_by tables.now.variables out.old)) }
{
    match item {
        Item::Begin(body) => push(&mut out.begin, action(context, body.as_slice())),
        Item::End(body) => push(&mut out.end, action(context, body.as_slice())),
        Item::Always(body) => push(&mut out.rules, always(context, body.as_slice())),
        Item::Shown(x) => push(&mut out.rules, shown(context, x)),
        Item::Rule(x, body) => push(&mut out.rules, rule(context, x, body.as_slice())),
        Item::Function(f) => push(
            &mut out.functions,
            function(context.alloc, context.numbers, tables, f),
        ),
    }
}

fn add_all(
    context: &Lowering<'_>,
    tables: &Tables,
    items: &[Item],
    out: &mut Program,
) -> Result<(), Memory>
    requires names { names_in context.now ≡ tables.now.variables }
    requires scope { scope_in context.now ≡ spec.scope_with context.now.numbers (tables_in tables.now) [] [] }
    ensures { OnOk result
        (code.view_by tables.now.variables out.new
        ≡ spec.with_entries context.now.numbers (tables_in tables.now) (map view_item items.now)
        (code.view_by tables.now.variables out.old)) }
{
    for item in items {
        add(context, tables, item, out)?;
    }
    Ok(())
}

/// The variables of a script, by their slots.
fn named(alloc: Global, texts: &[Vec<u8>], are: &[bool]) -> Result<Items<GlobalName>, Memory>
    ensures { IfOk result (λ made. made ≡ spec.names (map (λ t. t.items) texts.now) are.now) }
{
    let mut out = Items::new(alloc);
    for text in texts {
        let is_array = are.get(out.len()).copied().unwrap_or(false);
        let text = Octets::of(alloc, text.as_slice())?;
        out.push(GlobalName { text, is_array })?;
    }
    Ok(out)
}

fn empty(alloc: Global, variables: Items<GlobalName>) -> Program
    ensures { result ≡ record { variables = variables; functions = []; begin = []; rules = []; end = [] } }
{
    Program {
        variables,
        functions: Items::new(alloc),
        begin: Items::new(alloc),
        rules: Items::new(alloc),
        end: Items::new(alloc),
    }
}

/// The program of these items by this profile, or `Memory` where memory is refused.
pub fn program(
    alloc: Global,
    numbers: Numbers,
    tables: &Tables,
    items: &[Item],
) -> Result<Program, Memory>
    ensures { IfOk result
        (λ made. code.view_program made ≡ spec.program numbers (tables_in tables.now) (map view_item items.now)) }
{
    let texts = tables.variables.texts();
    let variables = named(alloc, texts, tables.script_arrays.as_slice())?;
    let mut out = empty(alloc, variables);
    let none = OwnNames::none();
    let context = within(alloc, numbers, tables, &none, &[]);
    let filled = add_all(&context, tables, items, &mut out);
    finished(out, filled)
}
