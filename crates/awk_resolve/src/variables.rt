// The variables that awk sets, and all those of a script, each where it stands first.

ghost use Rattle.std.specs.Prelude.{◌≡◌, ◌++◌, [], ◌∷◌, map, IfOk, OnOk};
ghost use Rattle.awk_tokens.specs.Words as words;
ghost use Rattle.awk_resolve.specs.Kinds.{scalars, arrays};
ghost use Rattle.awk_resolve.specs.Rolls.{added};
ghost use Rattle.awk_resolve.specs.Sound.{Sound};
ghost use Rattle.awk_resolve.specs.Tables as spec;

use crate::mention::{Mention, Role, Section};
use crate::text_tables::{OwnNames, Roll};
use awk_text::Memory;
use awk_text::octets::Octets;
use awk_tree::Name;
use std::alloc::{AllocError, Global};

/// Those that are scalars.
pub const SCALARS: [&[u8]; 14] = [
    b"ARGC",
    b"CONVFMT",
    b"FILENAME",
    b"FNR",
    b"FS",
    b"NF",
    b"NR",
    b"OFMT",
    b"OFS",
    b"ORS",
    b"RLENGTH",
    b"RS",
    b"RSTART",
    b"SUBSEP",
];

/// Those that are arrays.
pub const ARRAYS: [&[u8]; 2] = [b"ARGV", b"ENVIRON"];

fn is_among(mut list: &[&[u8]], word: &[u8]) -> bool
    ensures { result ≡ words.is_among (map (λ w. w.now) list.entry.now) word.now }
{
    while let [first, rest @ ..] = list {
        if *first == word {
            return true;
        }
        list = rest;
    }
    false
}

/// Whether awk itself sets the variable of this name.
pub fn is_variable(text: &[u8]) -> bool
    ensures { result ≡ words.is_among (scalars ++ arrays) text.now }
{
    is_among(&SCALARS, text) || is_among(&ARRAYS, text)
}

fn push_all(alloc: Global, texts: &[&[u8]], out: &mut Roll) -> Result<(), Memory>
    ensures { OnOk result (out.new ≡ out.old ++ map (λ w. w.now) texts.now) }
{
    for text in texts {
        out.push(Octets::of(alloc, text)?)?;
    }
    Ok(())
}

/// The variables that awk sets.
fn own(alloc: Global) -> Result<Roll, Memory>
    ensures { IfOk result (λ roll. roll ≡ scalars ++ arrays) }
{
    let mut roll = Roll::new(alloc);
    push_all(alloc, &SCALARS, &mut roll)?;
    push_all(alloc, &ARRAYS, &mut roll)?;
    Ok(roll)
}

/// Puts a name last, unless it is there.
fn add_copy(alloc: Global, name: &Name, out: &mut Roll) -> Result<(), Memory>
    ensures { OnOk result (out.new ≡ added name.now.text out.old) }
{
    out.add(name.text.copy(alloc)?)
}

/// Puts a name last that is no parameter, unless it is there.
fn add_name(
    alloc: Global,
    parameters: &OwnNames<'_>,
    name: &Name,
    out: &mut Roll,
) -> Result<(), Memory>
    ensures { OnOk result (out.new ≡ spec.behind out.old (spec.outside parameters.now (name.now ∷ []))) }
{
    match parameters.position(name.text.bytes()) {
        Some(_place) => Ok(()),
        None => add_copy(alloc, name, out),
    }
}

fn add_argument(
    alloc: Global,
    parameters: &OwnNames<'_>,
    name: &Option<Name>,
    out: &mut Roll,
) -> Result<(), Memory>
    ensures { OnOk result (out.new ≡ spec.behind out.old (spec.outside parameters.now (spec.given (name.now ∷ [])))) }
{
    match name {
        Some(name) => add_name(alloc, parameters, name, out),
        None => Ok(()),
    }
}

fn add_arguments(
    alloc: Global,
    parameters: &OwnNames<'_>,
    args: &[Option<Name>],
    out: &mut Roll,
) -> Result<(), Memory>
    ensures { OnOk result (out.new ≡ spec.behind out.old (spec.outside parameters.now (spec.given args.now))) }
{
    for arg in args {
        add_argument(alloc, parameters, arg, out)?;
    }
    Ok(())
}

fn add_mention(
    alloc: Global,
    parameters: &OwnNames<'_>,
    mention: &Mention,
    out: &mut Roll,
) -> Result<(), Memory>
    ensures { OnOk result (out.new ≡ spec.behind out.old (spec.outside parameters.now (spec.used mention.now))) }
{
    match mention {
        Mention::Scalar(name) => add_name(alloc, parameters, name, out),
        Mention::Array(name) => add_name(alloc, parameters, name, out),
        Mention::Measured(name) => add_name(alloc, parameters, name, out),
        Mention::Call(_name, args) => add_arguments(alloc, parameters, args.as_slice(), out),
        Mention::MainInput | Mention::Next(_) | Mention::Return(_) | Mention::Stray(_) => Ok(()),
    }
}

fn add_mentions(
    alloc: Global,
    parameters: &OwnNames<'_>,
    mentions: &[Mention],
    out: &mut Roll,
) -> Result<(), Memory>
    ensures { OnOk result (out.new ≡ spec.behind out.old (spec.outside parameters.now (spec.all_used mentions.now))) }
{
    for mention in mentions {
        add_mention(alloc, parameters, mention, out)?;
    }
    Ok(())
}

/// The names that an item of this role has to itself.
fn parameters<'a>(alloc: Global, role: &'a Role) -> Result<OwnNames<'a>, Memory>
    ensures { IfOk result (λ own. own ≡ spec.own_of role.now) }
{
    match role {
        Role::Function(_name, params) => OwnNames::of(alloc, params.as_slice()),
        Role::Begin | Role::End | Role::Rule => Ok(OwnNames::none()),
    }
}

fn add_part(alloc: Global, part: &Section, out: &mut Roll) -> Result<(), Memory>
    ensures { OnOk result
        (out.new ≡ spec.behind out.old (spec.outside (spec.own_of part.now.role) (spec.all_used part.now.mentions))) }
{
    let parameters = parameters(alloc, &part.role)?;
    add_mentions(alloc, &parameters, part.mentions.as_slice(), out)
}

fn add_parts(alloc: Global, parts: &[Section], out: &mut Roll) -> Result<(), Memory>
    ensures { OnOk result (out.new ≡ spec.behind out.old (spec.mentioned parts.now)) }
{
    for part in parts {
        add_part(alloc, part, out)?;
    }
    Ok(())
}

/// The variables of these items, awk's own first. `Memory` where memory is refused, or a name has
/// no letter, as none has that was read.
pub fn variables(alloc: Global, parts: &[Section]) -> Result<Roll, Memory>
    ensures variables { IfOk result (λ roll. roll ≡ spec.variables parts.now) }
    ensures sound { IfOk result (λ roll. Sound roll) }
{
    let mut roll = own(alloc)?;
    add_parts(alloc, parts, &mut roll)?;
    match roll.position(&[]) {
        Some(_place) => Err(AllocError),
        None => Ok(roll),
    }
}
