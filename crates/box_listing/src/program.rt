// What is found in a program.

ghost use Rattle.std.specs.Prelude.{◌≡◌, [], ◌∷◌, ◌++◌, List, drop, IfOk, OnOk, map};
ghost use Rattle.awk_program.specs.View.{Names, view_by, view_function, view_program, view_rule, view_statement};
ghost use Rattle.awk_program.specs.View.{view_when};
ghost use Rattle.box_listing.specs.Sites as spec;
ghost use Rattle.box_listing.specs.Walks.{Finds, Takes, left};
ghost use Rattle.box_listing.specs.declared.site.Sort.{Sort};

use crate::expressions::value;
use crate::site::{Behind, Found, Sort};
use crate::statements::actions;
use awk_program::{Function, Program, Rule, Statement, When};
use awk_text::Memory;
use sqlite_items::Items;
use std::alloc::Global;

fn records(rules: &[Rule], end: &[Items<Statement>], out: &mut Vec<Found>) -> Result<(), Memory>
    ensures { Finds result out.old.items out.new.items
        (λ t. spec.records (map (view_rule t) rules.now) (map (map (view_statement t)) end.now)) }
{
    match (rules, end) {
        ([], []) => Ok(()),
        _ => Ok(out.push(Found::MainInput)?),
    }
}

fn blocks(alloc: Global, xs: &[Items<Statement>], out: &mut Vec<Found>) -> Result<(), Memory>
    ensures { Finds result out.old.items out.new.items (λ t. spec.actions (map (map (view_statement t)) xs.now)) }
{
    for x in xs {
        actions(alloc, x.as_slice(), out)?;
    }
    Ok(())
}

fn when(alloc: Global, x: &When, out: &mut Vec<Found>) -> Result<(), Memory>
    ensures { Finds result out.old.items out.new.items (λ t. spec.when (view_when t x.now)) }
{
    match x {
        When::Always => Ok(()),
        When::Holds(x) => value(alloc, x, out),
        When::Range(x, y) => {
            value(alloc, x, out)?;
            value(alloc, y, out)
        }
    }
}

fn rule(alloc: Global, x: &Rule, out: &mut Vec<Found>) -> Result<(), Memory>
    ensures { Finds result out.old.items out.new.items (λ t. spec.rule (view_rule t x.now)) }
{
    when(alloc, &x.when, out)?;
    actions(alloc, x.action.as_slice(), out)
}

fn rules(alloc: Global, xs: &[Rule], out: &mut Vec<Found>) -> Result<(), Memory>
    ensures { Finds result out.old.items out.new.items (λ t. spec.rules (map (view_rule t) xs.now)) }
{
    for x in xs {
        rule(alloc, x, out)?;
    }
    Ok(())
}

fn functions(alloc: Global, xs: &[Function], out: &mut Vec<Found>) -> Result<(), Memory>
    ensures { Finds result out.old.items out.new.items (λ t. spec.functions (map (view_function t) xs.now)) }
{
    for x in xs {
        actions(alloc, x.body.as_slice(), out)?;
    }
    Ok(())
}

/// Notes what is found in the action at this index, if there is one, and answers how many are behind then.
fn block_at(
    alloc: Global,
    xs: &[Items<Statement>],
    at: usize,
    out: &mut Vec<Found>,
) -> Result<usize, Memory>
    ensures { IfOk result
        (λ n. Takes (λ t x. spec.all_done (map (view_statement t) x)) xs.now at n out.old.items out.new.items) }
{
    if at < xs.len() {
        actions(alloc, xs[at].as_slice(), out)?;
        return Ok(at + 1);
    }
    Ok(at)
}

fn rule_at(alloc: Global, xs: &[Rule], at: usize, out: &mut Vec<Found>) -> Result<usize, Memory>
    ensures { IfOk result (λ n. Takes (λ t x. spec.rule (view_rule t x)) xs.now at n out.old.items out.new.items) }
{
    if at < xs.len() {
        rule(alloc, &xs[at], out)?;
        return Ok(at + 1);
    }
    Ok(at)
}

fn function_at(
    alloc: Global,
    xs: &[Function],
    at: usize,
    out: &mut Vec<Found>,
) -> Result<usize, Memory>
    ensures { IfOk result
        (λ n. Takes (λ t x. spec.all_done (map (view_statement t) x.body)) xs.now at n out.old.items out.new.items) }
{
    if at < xs.len() {
        actions(alloc, xs[at].body.as_slice(), out)?;
        return Ok(at + 1);
    }
    Ok(at)
}

/// Notes what is found in the next item of this sort.
fn next(
    alloc: Global,
    program: &Program,
    sort: Sort,
    at: Behind,
    out: &mut Vec<Found>,
) -> Result<Behind, Memory>
    ensures { IfOk result
        (λ n. (t : Names) (more : List Sort) → out.old.items ++ left (sort ∷ more) at t program.now ≡ out.new.items
        ++ left more n t program.now) }
{
    match sort {
        Sort::Begin => {
            let begin = block_at(alloc, program.begin.as_slice(), at.begin, out)?;
            Ok(Behind {
                begin,
                rules: at.rules,
                end: at.end,
                functions: at.functions,
            })
        }
        Sort::Rule => {
            let rules = rule_at(alloc, program.rules.as_slice(), at.rules, out)?;
            Ok(Behind {
                begin: at.begin,
                rules,
                end: at.end,
                functions: at.functions,
            })
        }
        Sort::End => {
            let end = block_at(alloc, program.end.as_slice(), at.end, out)?;
            Ok(Behind {
                begin: at.begin,
                rules: at.rules,
                end,
                functions: at.functions,
            })
        }
        Sort::Function => {
            let functions = function_at(alloc, program.functions.as_slice(), at.functions, out)?;
            Ok(Behind {
                begin: at.begin,
                rules: at.rules,
                end: at.end,
                functions,
            })
        }
    }
}

fn blocks_from(
    alloc: Global,
    xs: &[Items<Statement>],
    at: usize,
    out: &mut Vec<Found>,
) -> Result<(), Memory>
    ensures { Finds result out.old.items out.new.items
        (λ t. spec.actions (map (map (view_statement t)) (drop at xs.now))) }
{
    if at < xs.len() {
        let (_, left) = xs.split_at(at);
        return blocks(alloc, left, out);
    }
    Ok(())
}

fn rules_from(alloc: Global, xs: &[Rule], at: usize, out: &mut Vec<Found>) -> Result<(), Memory>
    ensures { Finds result out.old.items out.new.items (λ t. spec.rules (map (view_rule t) (drop at xs.now))) }
{
    if at < xs.len() {
        let (_, left) = xs.split_at(at);
        return rules(alloc, left, out);
    }
    Ok(())
}

fn functions_from(
    alloc: Global,
    xs: &[Function],
    at: usize,
    out: &mut Vec<Found>,
) -> Result<(), Memory>
    ensures { Finds result out.old.items out.new.items (λ t. spec.functions (map (view_function t) (drop at xs.now))) }
{
    if at < xs.len() {
        let (_, left) = xs.split_at(at);
        return functions(alloc, left, out);
    }
    Ok(())
}

/// Notes what is found in the items that are left.
fn rest(alloc: Global, program: &Program, at: Behind, out: &mut Vec<Found>) -> Result<(), Memory>
    ensures { Finds result out.old.items out.new.items (λ t. left [] at t program.now) }
{
    blocks_from(alloc, program.begin.as_slice(), at.begin, out)?;
    rules_from(alloc, program.rules.as_slice(), at.rules, out)?;
    blocks_from(alloc, program.end.as_slice(), at.end, out)?;
    functions_from(alloc, program.functions.as_slice(), at.functions, out)
}

/// Notes what is found in the items, in this order.
fn in_turn(
    alloc: Global,
    program: &Program,
    order: &[Sort],
    out: &mut Vec<Found>,
) -> Result<(), Memory>
    ensures { Finds result out.old.items out.new.items
        (λ t. left order.now (record { begin = 0; rules = 0; end = 0; functions = 0 }) t program.now) }
{
    let mut at = Behind {
        begin: 0,
        rules: 0,
        end: 0,
        functions: 0,
    };
    for sort in order {
        at = next(alloc, program, *sort, at, out)?;
    }
    rest(alloc, program, at, out)
}

fn parts(
    alloc: Global,
    program: &Program,
    order: &[Sort],
    out: &mut Vec<Found>,
) -> Result<(), Memory>
    ensures { Finds result out.old.items out.new.items (λ t. spec.found order.now (view_by t program.now)) }
{
    records(program.rules.as_slice(), program.end.as_slice(), out)?;
    in_turn(alloc, program, order, out)
}

/// All that is found in a program, by the order of its items in the script, or `Memory` where memory is refused.
pub fn found(alloc: Global, program: &Program, order: &[Sort]) -> Result<Vec<Found>, Memory>
    ensures { IfOk result (λ found. found.items ≡ spec.found order.now (view_program program.now)) }
{
    let mut out = Vec::new(alloc);
    parts(alloc, program, order, &mut out)?;
    Ok(out)
}
