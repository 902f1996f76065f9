// The sites of a script, and what a policy says of it.

ghost use Rattle.std.specs.Prelude.{◌≡◌, List, IfOk, map};
ghost use Rattle.awk_parse.specs.Scripts.{IsScriptOf};
ghost use Rattle.awk_tree.specs.Tree.{Entry};
ghost use Rattle.awk_tree.specs.View.{view_item};
ghost use Rattle.box_listing.specs.Scripts as spec;
ghost use Rattle.box_listing.specs.Scripts.{IsListingOf, IsVerdictOf};

use crate::checking::checked;
use crate::listing::listed;
use crate::site::{Site, Sort};
use crate::verdict::Verdict;
use awk_parse::Script;
use awk_text::Memory;
use awk_tree::Item;
use box_policy::policy::Policy;
use std::alloc::Global;

fn sort_of(item: &Item) -> Sort
    ensures { result ≡ spec.sort_of (view_item item.now) }
{
    match item {
        Item::Begin(_) => Sort::Begin,
        Item::End(_) => Sort::End,
        Item::Always(_) | Item::Shown(_) | Item::Rule(_, _) => Sort::Rule,
        Item::Function(_) => Sort::Function,
    }
}

fn order_of(alloc: Global, items: &[Item]) -> Result<Vec<Sort>, Memory>
    ensures { IfOk result (λ order. order.items ≡ map spec.sort_of (map view_item items.now)) }
{
    let mut order = Vec::new(alloc);
    for item in items {
        order.push(sort_of(item))?;
    }
    Ok(order)
}

/// The sites of a script, where a run of it may ask, and what for: each redirection of `print` and `printf`, each
/// `system`, each `getline` with a file or a command, at its place and with its text where the operand is a string
/// constant; at 0:0 reading and assigning where the script reads the main input, and the environment where it names
/// ENVIRON. In order of place, then of kind, then of their words in the script. `Memory` where memory is refused.
pub fn sites(alloc: Global, script: &Script) -> Result<Vec<Site>, Memory>
    ensures { IfOk result
        (λ sites. (items : List Entry) → IsScriptOf items script.now → IsListingOf script.now items sites.items) }
{
    let order = order_of(alloc, script.items())?;
    listed(
        alloc,
        script.program(),
        order.as_slice(),
        script.names_environ(),
    )
}

/// What a policy says of all runs of a script, before any: of its sites, `Refused` with those whose text is known and
/// never allowed, where there are any; else `Open` with those whose text is not known or is allowed as long as a limit
/// lasts, where there are any; else `Clean`. `Memory` where memory is refused.
pub fn check(alloc: Global, script: &Script, policy: &Policy) -> Result<Verdict, Memory>
    ensures { IfOk result
        (λ verdict. (items : List Entry) → IsScriptOf items script.now →
        IsVerdictOf script.now items policy.now verdict) }
{
    let order = order_of(alloc, script.items())?;
    checked(
        alloc,
        script.program(),
        order.as_slice(),
        script.names_environ(),
        policy,
    )
}
