// What the names of a script are: its variables and its functions by their slots, and which names are arrays.

ghost use Rattle.std.specs.Prelude.{◌≡◌, ◌++◌, map, IfOk, OnOk};
ghost use Rattle.awk_resolve.specs.Kinds.{parameter, texts};
ghost use Rattle.awk_resolve.specs.Said.{defined, defined_by};
ghost use Rattle.awk_resolve.specs.Sound.{Sound};
ghost use Rattle.awk_resolve.specs.Tables as spec;
ghost use Rattle.awk_resolve.specs.TablesIn.{tables_in};

use crate::kinds::Kinds;
use crate::mention::{Role, Section};
use crate::text_tables::Roll;
use crate::variables::variables;
use awk_text::Memory;
use awk_tree::Name;
use sqlite_items::Items;
use std::alloc::Global;

fn add_function(alloc: Global, role: &Role, out: &mut Roll) -> Result<(), Memory>
    ensures { OnOk result (out.new ≡ out.old ++ texts (defined_by role.now)) }
{
    match role {
        Role::Function(name, _params) => out.push(name.text.copy(alloc)?),
        Role::Begin | Role::End | Role::Rule => Ok(()),
    }
}

fn add_functions(alloc: Global, parts: &[Section], out: &mut Roll) -> Result<(), Memory>
    ensures { OnOk result (out.new ≡ out.old ++ texts (defined parts.now)) }
{
    for part in parts {
        add_function(alloc, &part.role, out)?;
    }
    Ok(())
}

/// The names of the functions, in order, or `Memory` where one stands twice or memory is refused.
fn function_names(alloc: Global, parts: &[Section]) -> Result<Roll, Memory>
    ensures { IfOk result (λ roll. roll ≡ texts (defined parts.now)) }
{
    let mut roll = Roll::new(alloc);
    add_functions(alloc, parts, &mut roll)?;
    Ok(roll)
}

/// Of each of these variables.
fn variable_flags(alloc: Global, kinds: &Kinds, texts: &[Vec<u8>]) -> Result<Items<bool>, Memory>
    ensures { IfOk result (λ are. are ≡ spec.variable_flags (spec.arrays_by kinds.now) (map (λ t. t.items) texts.now)) }
{
    let mut are = Items::new(alloc);
    for text in texts {
        are.push(kinds.is_array_variable(text.as_slice()))?;
    }
    Ok(are)
}

/// Of each of the parameters of a function.
fn parameter_flags(
    alloc: Global,
    kinds: &Kinds,
    function: &[u8],
    params: &[Name],
) -> Result<Items<bool>, Memory>
    ensures { IfOk result
        (λ are. are ≡ map (λ q. spec.arrays_by kinds.now (parameter function.now q.text)) params.now) }
{
    let mut are = Items::new(alloc);
    for param in params {
        are.push(kinds.is_array_parameter(function, param.text.bytes()))?;
    }
    Ok(are)
}

fn add_flags(
    alloc: Global,
    kinds: &Kinds,
    role: &Role,
    all: &mut Items<Items<bool>>,
) -> Result<(), Memory>
    ensures { OnOk result (all.new ≡ all.old ++ spec.flags (spec.arrays_by kinds.now) role.now) }
{
    match role {
        Role::Function(name, params) => {
            let are = parameter_flags(alloc, kinds, name.text.bytes(), params.as_slice())?;
            all.push(are)
        }
        Role::Begin | Role::End | Role::Rule => Ok(()),
    }
}

/// Of each parameter of each function.
fn all_flags(alloc: Global, kinds: &Kinds, parts: &[Section]) -> Result<Items<Items<bool>>, Memory>
    ensures { IfOk result (λ all. all ≡ spec.all_flags (spec.arrays_by kinds.now) parts.now) }
{
    let mut all = Items::new(alloc);
    for part in parts {
        add_flags(alloc, kinds, &part.role, &mut all)?;
    }
    Ok(all)
}

/// The names of a script.
#[derive(Drop)]
pub struct Tables {
    /// The variables by their slots, awk's own first, and of each whether it is an array.
    pub variables: Roll,
    pub script_arrays: Items<bool>,
    /// The functions, in order, and of each parameter of each whether it is an array.
    pub functions: Roll,
    pub arrays: Items<Items<bool>>,
}

/// What the names of these parts are, which are of these kinds, or `Memory` where memory is refused.
pub fn tables_of(alloc: Global, kinds: &Kinds, parts: &[Section]) -> Result<Tables, Memory>
    ensures tables { IfOk result (λ made. tables_in made ≡ spec.tables kinds.now parts.now) }
    ensures sound { IfOk result (λ made. Sound made.variables) }
{
    let variables = variables(alloc, parts)?;
    let functions = function_names(alloc, parts)?;
    let script_arrays = variable_flags(alloc, kinds, variables.texts())?;
    let arrays = all_flags(alloc, kinds, parts)?;
    Ok(Tables {
        variables,
        script_arrays,
        functions,
        arrays,
    })
}
