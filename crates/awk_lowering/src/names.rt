// What the names of an item stand for.

ghost use Rattle.std.specs.Prelude.{◌≡◌, [], get_or, map, IfOk};
ghost use Rattle.awk_lowering.specs.Lowered as low;
ghost use Rattle.awk_lowering.specs.Made.{names_in, scope_in, IsVariable};
ghost use Rattle.awk_lowering.specs.Scopes as spec;
ghost use Rattle.awk_program.specs.Program as p;
ghost use Rattle.awk_program.specs.View.{variable_of};

use crate::kept::push;
use awk_numbers::number::Numbers;
use awk_program::Variable;
use awk_resolve::{OwnNames, Roll};
use awk_text::Memory;
use awk_tree::Member;
use sqlite_items::Items;
use std::alloc::{AllocError, Global};

/// What one item of a script is read in.
#[derive(Drop)]
pub struct Lowering<'a> {
    pub alloc: Global,
    /// The profile that constants are read by.
    pub numbers: Numbers,
    /// The variables of the whole script, by their slots, and of each whether it is an array.
    pub variables: &'a Roll,
    pub script_arrays: &'a [bool],
    /// The functions of the script, and of each parameter of each whether it is an array.
    pub functions: &'a Roll,
    pub arrays: &'a [Items<bool>],
    /// The parameters of the function that the item is, and of each whether it is an array.
    pub parameters: &'a OwnNames<'a>,
    pub own_arrays: &'a [bool],
}

/// A number as a program holds it. More names than there are such numbers have no room in memory.
fn small(n: usize) -> Result<u32, Memory>
    ensures { IfOk result (λ m. m ≡ n) }
{
    if n <= 0xffff_ffff {
        Ok(n as u32)
    } else {
        Err(AllocError)
    }
}

/// The slot of the variable of this name. Each that a script names has one. No slot stands for another one, which is
/// refused as memory is.
fn slot(variables: &Roll, text: &[u8]) -> Result<u32, Memory>
    ensures { IfOk result (λ n. get_or variables.now n [] ≡ text.now) }
{
    match variables.position(text) {
        Some(n) => small(n),
        None => Err(AllocError),
    }
}

/// The variable of the whole script of this name.
pub fn global(context: &Lowering<'_>, text: &[u8]) -> Result<Variable, Memory>
    ensures { IfOk result (λ v. variable_of (names_in context.now) v ≡ p.global text.now) }
{
    match slot(context.variables, text) {
        Ok(n) => Ok(Variable::Global(n)),
        Err(refused) => Err(refused),
    }
}

/// The variable of this name.
pub fn variable(context: &Lowering<'_>, text: &[u8]) -> Result<Variable, Memory>
    ensures { IsVariable (names_in context.now) result (spec.variable (scope_in context.now) text.now) }
{
    match context.parameters.position(text) {
        Some(n) => match small(n) {
            Ok(n) => Ok(Variable::Parameter(n)),
            Err(refused) => Err(refused),
        },
        None => global(context, text),
    }
}

/// The number of the function of this name. A script calls none that it has not, which would be the first.
pub fn function(context: &Lowering<'_>, text: &[u8]) -> Result<u32, Memory>
    ensures { IfOk result (λ n. n ≡ spec.function (scope_in context.now) text.now) }
{
    match context.functions.position(text) {
        Some(n) => small(n),
        None => Ok(0),
    }
}

/// Of each parameter of a function whether it is an array.
pub fn arrays_of<'a>(context: &Lowering<'a>, text: &[u8]) -> &'a [bool]
    ensures { result.now ≡ spec.arrays_of (scope_in context.now) text.now }
{
    match context.functions.position(text) {
        Some(n) => match context.arrays.get(n) {
            Some(arrays) => arrays.as_slice(),
            None => &[],
        },
        None => &[],
    }
}

fn is_set(flags: &[bool], place: Option<usize>) -> bool
    ensures { result ≡ spec.is_set flags.now place }
{
    match place {
        Some(n) => flags.get(n).copied().unwrap_or(false),
        None => false,
    }
}

/// Whether a name is an array.
pub fn is_array(context: &Lowering<'_>, text: &[u8]) -> bool
    ensures { result ≡ spec.is_array (scope_in context.now) text.now }
{
    match context.parameters.position(text) {
        Some(n) => is_set(context.own_arrays, Some(n)),
        None => is_set(context.script_arrays, context.variables.position(text)),
    }
}

/// The arrays behind `in`.
pub fn arrays_in(context: &Lowering<'_>, members: &[Member]) -> Result<Items<Variable>, Memory>
    ensures { IfOk result
        (λ vs. map (variable_of (names_in context.now)) vs ≡ low.arrays_in (scope_in context.now) members.now) }
{
    let mut out = Items::new(context.alloc);
    for member in members {
        push(&mut out, variable(context, member.array.text.bytes()))?;
    }
    Ok(out)
}
