// What a statement says, and what the items of a script say.

ghost use Rattle.std.specs.Prelude.{◌≡◌, [], ◌∷◌, ◌++◌, IfOk, OnOk, map, option_map};
ghost use Rattle.awk_tree.specs.View.{view, view_redirection, view_printed, view_statement, view_pattern, view_item};
ghost use Rattle.awk_tree.specs.Tree.{statements_of};
ghost use Rattle.awk_resolve.specs.Mentions as spec;
ghost use Rattle.awk_resolve.specs.declared.mention.Mention.TheVariants as mention;
ghost use Rattle.awk_resolve.specs.declared.mention.Role.TheVariants as role;

use crate::expressions::{array, each, expression, optional, scalar};
use crate::mention::{Mention, Role, Section, copy_name};
use awk_text::Memory;
use awk_text::place::Place;
use awk_tree::{Expr, Function, Item, Jump, Name, Pattern, Printed, Redirection, Statement};
use sqlite_items::Items;
use std::alloc::Global;

/// Notes what the list and the target of `print` or `printf` say.
fn output(
    alloc: Global,
    printed: &Printed<Expr>,
    redirection: &Option<Redirection<Expr>>,
    out: &mut Items<Mention>,
) -> Result<(), Memory>
    ensures { OnOk result
        (out.new ≡ out.old ++
        (spec.all (view_printed printed.now).items ++ spec.target (option_map view_redirection redirection.now))) }
{
    each(alloc, printed.items.as_slice(), out)?;
    match redirection {
        None => Ok(()),
        Some(redirection) => expression(alloc, &redirection.target, out),
    }
}

/// Notes a `break` or `continue`, unless it stands in a loop.
fn leaving(is_inside: bool, place: Place, out: &mut Items<Mention>) -> Result<(), Memory>
    ensures { OnOk result (out.new ≡ out.old ++ spec.leaving is_inside place) }
{
    if is_inside {
        Ok(())
    } else {
        out.push(Mention::Stray(place))
    }
}

/// Notes what a word alone says, which stands in a loop or not.
fn jump(is_inside: bool, place: Place, which: Jump, out: &mut Items<Mention>) -> Result<(), Memory>
    ensures { OnOk result (out.new ≡ out.old ++ spec.jumped is_inside place which) }
{
    match which {
        Jump::Break | Jump::Continue => leaving(is_inside, place, out),
        Jump::Next | Jump::NextFile => out.push(Mention::Next(place)),
    }
}

/// Notes the two names of `for ( key in array )`.
fn for_in(alloc: Global, key: &Name, name: &Name, out: &mut Items<Mention>) -> Result<(), Memory>
    ensures { OnOk result (out.new ≡ out.old ++ mention.Scalar key.now ∷ (mention.Array name.now ∷ [])) }
{
    scalar(alloc, key, out)?;
    array(alloc, name, out)
}

/// Notes what the three parts of a `for` say.
fn header(
    alloc: Global,
    first: &Option<Expr>,
    test: &Option<Expr>,
    step: &Option<Expr>,
    out: &mut Items<Mention>,
) -> Result<(), Memory>
    ensures { OnOk result
        (out.new ≡ out.old ++
        (spec.optional (option_map view first.now)
        ++ (spec.optional (option_map view test.now) ++ spec.optional (option_map view step.now)))) }
{
    optional(alloc, first, out)?;
    optional(alloc, test, out)?;
    optional(alloc, step, out)
}

/// Notes all that a statement says, which stands in a loop or not.
#[cycle(statement)]
fn statement(
    alloc: Global,
    is_inside: bool,
    s: &Statement,
    out: &mut Items<Mention>,
) -> Result<(), Memory>
    ensures { OnOk result (out.new ≡ out.old ++ spec.said is_inside (view_statement s.now)) }
{
    match s {
        Statement::Empty => Ok(()),
        Statement::Expr(x) => expression(alloc, x, out),
        Statement::Print(_place, printed, target) => output(alloc, printed, target, out),
        Statement::Printf(_place, printed, target) => output(alloc, printed, target, out),
        Statement::Delete(name, keys) => {
            array(alloc, name, out)?;
            each(alloc, keys.as_slice(), out)
        }
        Statement::DeleteAll(name) => array(alloc, name, out),
        Statement::Jump(place, which) => jump(is_inside, *place, *which, out),
        Statement::Exit(_place, x) => optional(alloc, x, out),
        Statement::Return(place, x) => {
            out.push(Mention::Return(*place))?;
            optional(alloc, x, out)
        }
        Statement::Block(body) => statements(alloc, is_inside, body.as_slice(), out),
        Statement::If(x, body) => {
            expression(alloc, x, out)?;
            statement(alloc, is_inside, body.get(), out)
        }
        Statement::IfElse(x, body, other) => {
            expression(alloc, x, out)?;
            statement(alloc, is_inside, body.get(), out)?;
            statement(alloc, is_inside, other.get(), out)
        }
        Statement::While(x, body) => {
            expression(alloc, x, out)?;
            statement(alloc, true, body.get(), out)
        }
        Statement::Do(body, x) => {
            statement(alloc, true, body.get(), out)?;
            expression(alloc, x, out)
        }
        Statement::For(first, test, step, body) => {
            header(alloc, first, test, step, out)?;
            statement(alloc, true, body.get(), out)
        }
        Statement::ForIn(_place, key, name, body) => {
            for_in(alloc, key, name, out)?;
            statement(alloc, true, body.get(), out)
        }
    }
}

/// Notes all that statements say, which stand in a loop or not.
#[cycle(statement)]
pub fn statements(
    alloc: Global,
    is_inside: bool,
    xs: &[Statement],
    out: &mut Items<Mention>,
) -> Result<(), Memory>
    ensures { OnOk result (out.new ≡ out.old ++ spec.each_said is_inside (statements_of (map view_statement xs.now))) }
{
    for s in xs {
        statement(alloc, is_inside, s, out)?;
    }
    Ok(())
}

fn pattern(alloc: Global, pattern: &Pattern, out: &mut Items<Mention>) -> Result<(), Memory>
    ensures { OnOk result (out.new ≡ out.old ++ spec.conditions (view_pattern pattern.now)) }
{
    match pattern {
        Pattern::Expr(x) => expression(alloc, x, out),
        Pattern::Range(x, y) => {
            expression(alloc, x, out)?;
            expression(alloc, y, out)
        }
    }
}

fn action(alloc: Global, body: &[Statement]) -> Result<Items<Mention>, Memory>
    ensures { IfOk result (λ said. said ≡ spec.all_said (map view_statement body.now)) }
{
    let mut said = Items::new(alloc);
    statements(alloc, false, body, &mut said)?;
    Ok(said)
}

fn shown(alloc: Global, condition: &Pattern) -> Result<Items<Mention>, Memory>
    ensures { IfOk result (λ said. said ≡ spec.conditions (view_pattern condition.now)) }
{
    let mut said = Items::new(alloc);
    pattern(alloc, condition, &mut said)?;
    Ok(said)
}

fn rule(alloc: Global, condition: &Pattern, body: &[Statement]) -> Result<Items<Mention>, Memory>
    ensures { IfOk result
        (λ said. said ≡ spec.conditions (view_pattern condition.now) ++ spec.all_said (map view_statement body.now)) }
{
    let mut said = shown(alloc, condition)?;
    statements(alloc, false, body, &mut said)?;
    Ok(said)
}

fn names(alloc: Global, names: &[Name]) -> Result<Items<Name>, Memory>
    ensures { IfOk result (λ copy. copy ≡ names.now) }
{
    let mut copy = Items::new(alloc);
    for name in names {
        copy.push(copy_name(alloc, name)?)?;
    }
    Ok(copy)
}

fn function(alloc: Global, function: &Function) -> Result<Role, Memory>
    ensures { IfOk result (λ r. r ≡ role.Function function.now.name function.now.params) }
{
    let name = copy_name(alloc, &function.name)?;
    let params = names(alloc, function.params.as_slice())?;
    Ok(Role::Function(name, params))
}

/// An item of this role with all that its action says.
fn with_action(alloc: Global, role: Role, body: &[Statement]) -> Result<Section, Memory>
    ensures { IfOk result
        (λ p. p ≡ record { role = role; mentions = spec.all_said (map view_statement body.now) }) }
{
    match action(alloc, body) {
        Ok(mentions) => Ok(Section { role, mentions }),
        Err(refused) => Err(refused),
    }
}

/// An item for records with what it says.
fn of_rule(mentions: Items<Mention>) -> Section
    ensures { result ≡ record { role = role.Rule; mentions = mentions } }
{
    Section {
        role: Role::Rule,
        mentions,
    }
}

fn of_function(alloc: Global, f: &Function) -> Result<Section, Memory>
    ensures { IfOk result
        (λ p. p ≡ record {
          role = role.Function f.now.name f.now.params;
          mentions = spec.all_said (map view_statement f.now.body);
        }) }
{
    let role = function(alloc, f)?;
    with_action(alloc, role, f.body.as_slice())
}

fn part(alloc: Global, item: &Item) -> Result<Section, Memory>
    ensures { IfOk result (λ p. p ≡ spec.part (view_item item.now)) }
{
    match item {
        Item::Begin(body) => with_action(alloc, Role::Begin, body.as_slice()),
        Item::End(body) => with_action(alloc, Role::End, body.as_slice()),
        Item::Always(body) => with_action(alloc, Role::Rule, body.as_slice()),
        Item::Shown(condition) => Ok(of_rule(shown(alloc, condition)?)),
        Item::Rule(condition, body) => Ok(of_rule(rule(alloc, condition, body.as_slice())?)),
        Item::Function(f) => of_function(alloc, f),
    }
}

/// The items of a script, each with all that it says, or `Memory` where memory is refused.
pub fn parts(alloc: Global, items: &[Item]) -> Result<Items<Section>, Memory>
    ensures { IfOk result (λ ps. ps ≡ map spec.part (map view_item items.now)) }
{
    let mut parts = Items::new(alloc);
    for item in items {
        parts.push(part(alloc, item)?)?;
    }
    Ok(parts)
}
