// Words outside the statements that they belong to, and functions, parameters and calls that fit no definition.

ghost use Rattle.std.specs.Prelude.{◌≡◌, ◌↔◌, true, [], IfOk, OnOk, IfSome, IfNone};
ghost use Rattle.awk_text.specs.declared.place.Place as places;
ghost use Rattle.awk_resolve.specs.Clash.{OneOf};
ghost use Rattle.awk_resolve.specs.Faultless.{FaultlessPlacesAside};
ghost use Rattle.awk_resolve.specs.Faults.{Misdefined, Misnamed, Misplaced, Miscalled, Redefined};
ghost use Rattle.awk_resolve.specs.Search as spec;
ghost use Rattle.awk_resolve.specs.Search.{Finds, IsBeginOrEnd, IsFunction, KnownAt, Knows, MiscallAt, MisnamedAt};
ghost use Rattle.awk_resolve.specs.Search.{OneAfter, ParameterAt, WordAt, with_role};

use crate::mention::{Mention, Role, Section};
use crate::text_tables::{ShortTable, TextTable};
use crate::variables::is_variable;
use awk_text::Memory;
use awk_text::place::Place;
use awk_tree::Name;
use std::alloc::Global;

/// Whether nothing but records or a call begins what stands in an item of this role.
fn is_begin_or_end(role: &Role) -> bool
    ensures { (result ≡ true) ↔ IsBeginOrEnd role.now }
{
    match role {
        Role::Begin | Role::End => true,
        Role::Rule | Role::Function(_, _) => false,
    }
}

fn is_function(role: &Role) -> bool
    ensures { (result ≡ true) ↔ IsFunction role.now }
{
    match role {
        Role::Function(_, _) => true,
        Role::Begin | Role::End | Role::Rule => false,
    }
}

/// The place of a word that cannot stand in an item of this role.
fn misplaced_word(role: &Role, mention: &Mention) -> Option<Place>
    ensures { Finds (WordAt role.now mention.now) result }
{
    match mention {
        Mention::Next(place) => is_begin_or_end(role).then_some(*place),
        Mention::Return(place) => (!is_function(role)).then_some(*place),
        Mention::Stray(place) => Some(*place),
        Mention::Scalar(_)
        | Mention::Array(_)
        | Mention::Measured(_)
        | Mention::Call(_, _)
        | Mention::MainInput => None,
    }
}

fn misplaced_in(role: &Role, mentions: &[Mention]) -> Option<Place>
    ensures { Finds (OneOf (WordAt role.now) mentions.now) result }
{
    for mention in mentions {
        if let Some(place) = misplaced_word(role, mention) {
            return Some(place);
        }
    }
    None
}

fn first_misplaced(parts: &[Section]) -> Option<Place>
    ensures stands { IfSome result (λ place. Misplaced parts.now place) }
    ensures none { IfNone result ((place : places.Place) → Misplaced parts.now place → ⊥) }
{
    for part in parts {
        if let Some(place) = misplaced_in(&part.role, part.mentions.as_slice()) {
            return Some(place);
        }
    }
    None
}

/// The place of a `next` in BEGIN or END, of a `return` outside a function, or of a `break` or
/// `continue` outside a loop, if one of these stands in the script. Takes no memory.
pub fn misplaced(parts: &[Section]) -> Option<Place>
    ensures stands { IfSome result (λ place. Misplaced parts.now place) }
    ensures none { IfNone result ((place : places.Place) → Misplaced parts.now place → ⊥) }
{
    first_misplaced(parts)
}

/// Whether a parameter has the name of one before it, of a function or of a variable that awk sets.
fn is_misnamed(known: &TextTable<usize>, seen: &ShortTable<Place>, name: &Name) -> bool
    ensures { result ≡ spec.is_misnamed known.now seen.now name.now }
{
    let text = name.text.bytes();
    seen.get(text).is_some() || known.get(text).is_some() || is_variable(text)
}

/// The place of the first of these parameters that is misnamed, noting those before it in a table that is empty.
fn misnamed_among(
    alloc: Global,
    known: &TextTable<usize>,
    params: &[Name],
    seen: &mut ShortTable<Place>,
) -> Result<Option<Place>, Memory>
    requires { seen.old ≡ [] }
    ensures { IfOk result (λ found. Finds (OneAfter (ParameterAt known.now) params.now) found) }
{
    for param in params {
        if is_misnamed(known, seen, param) {
            return Ok(Some(param.place));
        }
        seen.put(param.text.copy(alloc)?, param.place)?;
    }
    Ok(None)
}

fn misnamed_in(
    alloc: Global,
    known: &TextTable<usize>,
    params: &[Name],
) -> Result<Option<Place>, Memory>
    ensures { IfOk result (λ found. Finds (OneAfter (ParameterAt known.now) params.now) found) }
{
    let mut seen = ShortTable::new(alloc, params.len())?;
    misnamed_among(alloc, known, params, &mut seen)
}

fn misnamed_role(
    alloc: Global,
    known: &TextTable<usize>,
    role: &Role,
) -> Result<Option<Place>, Memory>
    ensures { IfOk result (λ found. Finds (MisnamedAt known.now role.now) found) }
{
    match role {
        Role::Function(_name, params) => misnamed_in(alloc, known, params.as_slice()),
        Role::Begin | Role::End | Role::Rule => Ok(None),
    }
}

/// The place of the first parameter that has a name which it cannot have.
fn first_misnamed(
    alloc: Global,
    known: &TextTable<usize>,
    parts: &[Section],
) -> Result<Option<Place>, Memory>
    requires { Knows parts.now known.now }
    ensures { IfOk result (λ found. Finds (Misnamed parts.now) found) }
{
    for part in parts {
        if let Some(place) = misnamed_role(alloc, known, &part.role)? {
            return Ok(Some(place));
        }
    }
    Ok(None)
}

/// The place of a function that is known already.
fn redefined_in(known: &TextTable<usize>, role: &Role) -> Option<Place>
    ensures { Finds (KnownAt known.now role.now) result }
{
    match role {
        Role::Function(name, _params) => match known.get(name.text.bytes()) {
            Some(_count) => Some(name.place),
            None => None,
        },
        Role::Begin | Role::End | Role::Rule => None,
    }
}

/// Notes the function that an item of this role is.
fn add(alloc: Global, role: &Role, known: &mut TextTable<usize>) -> Result<(), Memory>
    ensures { OnOk result (known.new ≡ with_role role.now known.old) }
{
    match role {
        Role::Function(name, params) => known.put(name.text.copy(alloc)?, params.len()),
        Role::Begin | Role::End | Role::Rule => Ok(()),
    }
}

/// Notes the functions of these parts in a table that is empty, up to one that is known already: its place is answered.
fn add_all(
    alloc: Global,
    parts: &[Section],
    known: &mut TextTable<usize>,
) -> Result<Option<Place>, Memory>
    requires { known.old ≡ [] }
    ensures place { IfOk result (λ found. Finds (Redefined parts.now) found) }
    ensures whole { IfOk result (λ found. IfNone found (Knows parts.now known.new)) }
{
    for part in parts {
        if let Some(place) = redefined_in(known, &part.role) {
            return Ok(Some(place));
        }
        add(alloc, &part.role, known)?;
    }
    Ok(None)
}

fn miscalled_mention(known: &TextTable<usize>, mention: &Mention) -> Option<Place>
    ensures { Finds (MiscallAt known.now mention.now) result }
{
    match mention {
        Mention::Call(name, args) => match known.get(name.text.bytes()) {
            None => Some(name.place),
            Some(count) => (*count < args.len()).then_some(name.place),
        },
        Mention::Scalar(_)
        | Mention::Array(_)
        | Mention::Measured(_)
        | Mention::MainInput
        | Mention::Next(_)
        | Mention::Return(_)
        | Mention::Stray(_) => None,
    }
}

fn miscalled_in(known: &TextTable<usize>, mentions: &[Mention]) -> Option<Place>
    ensures { Finds (OneOf (MiscallAt known.now) mentions.now) result }
{
    for mention in mentions {
        if let Some(place) = miscalled_mention(known, mention) {
            return Some(place);
        }
    }
    None
}

fn first_miscalled(known: &TextTable<usize>, parts: &[Section]) -> Option<Place>
    requires { Knows parts.now known.now }
    ensures { Finds (Miscalled parts.now) result }
{
    for part in parts {
        if let Some(place) = miscalled_in(known, part.mentions.as_slice()) {
            return Some(place);
        }
    }
    None
}

/// The same as `misdefined`, noting the functions in a table that is empty.
fn misdefined_by(
    alloc: Global,
    parts: &[Section],
    known: &mut TextTable<usize>,
) -> Result<Option<Place>, Memory>
    requires { known.old ≡ [] }
    ensures stands { IfOk result (λ found. IfSome found (λ place. Misdefined parts.now place)) }
    ensures none { IfOk result (λ found. IfNone found ((place : places.Place) → Misdefined parts.now place → ⊥)) }
{
    if let Some(place) = add_all(alloc, parts, known)? {
        return Ok(Some(place));
    }
    if let Some(place) = first_misnamed(alloc, known, parts)? {
        return Ok(Some(place));
    }
    Ok(first_miscalled(known, parts))
}

/// The place of a function that is defined twice, of a parameter that has the name of another one,
/// of a function or of a variable that awk sets, or of a call that fits no function, if one of
/// these stands in the script. `Memory` where memory is refused.
pub fn misdefined(alloc: Global, parts: &[Section]) -> Result<Option<Place>, Memory>
    ensures stands { IfOk result (λ found. IfSome found (λ place. Misdefined parts.now place)) }
    ensures none { IfOk result (λ found. IfNone found ((place : places.Place) → Misdefined parts.now place → ⊥)) }
{
    let mut known = TextTable::new(alloc);
    misdefined_by(alloc, parts, &mut known)
}

/// Does nothing: its contract is the law that a script whose places are all taken away is without a
/// fault of names and words where the script is.
#[tactic(auto)]
pub fn faultless_places_aside()
    ensures { FaultlessPlacesAside }
{}
