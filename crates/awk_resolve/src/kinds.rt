// The kinds of the names of a script, and where one has two of them, or an expression is given for an array.

ghost use Rattle.std.specs.Prelude.{◌≡◌, ◌⊎◌, ◌↔◌, true, false, List, [], replicate, Some, IfNone, IfOk, IfErr, OnOk};
ghost use Rattle.awk_text.specs.declared.place.Place as places;
ghost use Rattle.awk_tree.specs.Tree.{Text};
ghost use Rattle.awk_resolve.specs.Assigns as assigns;
ghost use Rattle.awk_resolve.specs.Assigns.{CanAssign};
ghost use Rattle.awk_resolve.specs.Clash as spec;
ghost use Rattle.awk_resolve.specs.Faultless.{GivesArrays};
ghost use Rattle.awk_resolve.specs.Faults.{Misdefined};
ghost use Rattle.awk_resolve.specs.Kinds as names;
ghost use Rattle.awk_resolve.specs.Kinds.{Agrees, Clashes, NotAfter, global, parameter};
ghost use Rattle.awk_resolve.specs.Marks as marked;
ghost use Rattle.awk_resolve.specs.Marks.{AreArrays, AreKinds};
ghost use Rattle.awk_resolve.specs.Numbering.{numbers};
ghost use Rattle.awk_resolve.specs.Uses as used;
ghost use Rattle.awk_resolve.specs.declared.mention.Role as roles;
ghost use Rattle.awk_resolve.specs.declared.mention.Section as items;

use crate::mention::{Mention, Role, Section};
use crate::numbers::{Numbers, nth};
use crate::uses::{Use, arrays, link_measured, links, measures, reached, scalars, uses};
use awk_text::Memory;
use awk_text::place::Place;
use awk_tokens::{is_name, reserved};
use awk_tree::Name;
use sqlite_items::Items;
use std::alloc::Global;

/// What each name of a script is used as.
#[derive(Drop)]
pub struct Kinds {
    numbers: Numbers,
    scalars: Items<bool>,
    arrays: Items<bool>,
}

fn is_marked(marks: &Items<bool>, number: Option<usize>) -> bool
    ensures { result ≡ marked.is_marked marks.now number }
{
    match number {
        Some(number) => marks.get(number).copied().unwrap_or(false),
        None => false,
    }
}

/// Which numbers are marked as scalars, and which as arrays.
#[derive(Drop)]
struct KindMarks {
    scalars: Items<bool>,
    arrays: Items<bool>,
}

/// The kinds of names, and whether a name may have two of them: where none may, no place is looked at for its name.
#[derive(Drop)]
struct Sought<'a> {
    kinds: &'a Kinds,
    may_double: bool,
    ghost only: { may_double ≡ false → (r : roles.Role) (x : Text) → spec.HasTwo kinds.now r x → ⊥ },
}

fn is_not_after(one: Place, other: Place) -> bool
    ensures { (result ≡ true) ↔ NotAfter one other }
{
    one.line < other.line || (one.line == other.line && one.column <= other.column)
}

/// The first one of two places, as far as there are any.
fn earlier(one: Option<Place>, other: Option<Place>) -> Option<Place>
    ensures { spec.IsFirst (λ place. (one ≡ Some place) ⊎ (other ≡ Some place)) result }
{
    match one {
        Some(first) => match other {
            Some(second) => {
                if is_not_after(first, second) {
                    Some(first)
                } else {
                    Some(second)
                }
            }
            None => Some(first),
        },
        None => other,
    }
}

/// Whether what a text is in an item of this role has two kinds.
fn has_two(kinds: &Kinds, role: &Role, text: &[u8]) -> bool
    ensures { (result ≡ true) ↔ spec.HasTwo kinds.now role.now text.now }
{
    let number = kinds.numbers.number(role, text);
    let is_scalar = is_marked(&kinds.scalars, number);
    let is_array = is_marked(&kinds.arrays, number);
    if kinds.numbers.is_function(text) {
        is_scalar || is_array
    } else {
        is_scalar && is_array
    }
}

fn at_name(sought: &Sought<'_>, role: &Role, name: &Name) -> Option<Place>
    ensures { spec.IsFirst (spec.NameAt sought.now.kinds.now role.now name.now) result }
{
    if sought.may_double && has_two(sought.kinds, role, name.text.bytes()) {
        Some(name.place)
    } else {
        None
    }
}

fn at_names(sought: &Sought<'_>, role: &Role, names: &[Name]) -> Option<Place>
    ensures { spec.IsFirst (spec.OneOf (spec.NameAt sought.now.kinds.now role.now) names.now) result }
{
    let mut first = None;
    for name in names {
        first = earlier(first, at_name(sought, role, name));
    }
    first
}

fn at_argument(sought: &Sought<'_>, role: &Role, name: &Option<Name>) -> Option<Place>
    ensures { spec.IsFirst (spec.ArgumentAt sought.now.kinds.now role.now name.now) result }
{
    match name {
        Some(name) => at_name(sought, role, name),
        None => None,
    }
}

fn at_arguments(sought: &Sought<'_>, role: &Role, args: &[Option<Name>]) -> Option<Place>
    ensures { spec.IsFirst (spec.OneOf (spec.ArgumentAt sought.now.kinds.now role.now) args.now) result }
{
    let mut first = None;
    for arg in args {
        first = earlier(first, at_argument(sought, role, arg));
    }
    first
}

/// Whether an expression is handed to an array among these parameters.
fn lacks_array(kinds: &Kinds, parameters: &[usize], args: &[Option<Name>]) -> bool
    ensures { (result ≡ true) ↔ spec.LacksArray kinds.now parameters.now args.now }
{
    let mut position = 0;
    for arg in args {
        if arg.is_none() && is_marked(&kinds.arrays, nth(parameters, position)) {
            return true;
        }
        position += 1;
    }
    false
}

fn at_call(kinds: &Kinds, name: &Name, args: &[Option<Name>]) -> Option<Place>
    ensures { spec.IsFirst (spec.CallAt kinds.now name.now args.now) result }
{
    if lacks_array(kinds, kinds.numbers.parameters(name.text.bytes()), args) {
        Some(name.place)
    } else {
        None
    }
}

fn at_mention(sought: &Sought<'_>, role: &Role, mention: &Mention) -> Option<Place>
    ensures { spec.IsFirst (spec.MentionAt sought.now.kinds.now role.now mention.now) result }
{
    match mention {
        Mention::Scalar(name) => at_name(sought, role, name),
        Mention::Array(name) => at_name(sought, role, name),
        Mention::Measured(name) => at_name(sought, role, name),
        Mention::Call(name, args) => {
            let function = at_name(sought, &Role::Begin, name);
            let call = at_call(sought.kinds, name, args.as_slice());
            let arguments = at_arguments(sought, role, args.as_slice());
            earlier(earlier(function, call), arguments)
        }
        Mention::MainInput | Mention::Next(_) | Mention::Return(_) | Mention::Stray(_) => None,
    }
}

fn at_mentions(sought: &Sought<'_>, role: &Role, mentions: &[Mention]) -> Option<Place>
    ensures { spec.IsFirst (spec.OneOf (spec.MentionAt sought.now.kinds.now role.now) mentions.now) result }
{
    let mut first = None;
    for mention in mentions {
        first = earlier(first, at_mention(sought, role, mention));
    }
    first
}

fn at_role(sought: &Sought<'_>, role: &Role) -> Option<Place>
    ensures { spec.IsFirst (spec.RoleAt sought.now.kinds.now role.now) result }
{
    match role {
        Role::Function(name, params) => {
            let function = at_name(sought, &Role::Begin, name);
            let parameters = at_names(sought, role, params.as_slice());
            earlier(function, parameters)
        }
        Role::Begin | Role::End | Role::Rule => None,
    }
}

fn at_part(sought: &Sought<'_>, part: &Section) -> Option<Place>
    ensures { spec.IsFirst (spec.PartAt sought.now.kinds.now part.now) result }
{
    let role = at_role(sought, &part.role);
    let mentions = at_mentions(sought, &part.role, part.mentions.as_slice());
    earlier(role, mentions)
}

/// Whether a number has both marks.
fn marked_twice(kinds: &Kinds) -> bool
    ensures { (result ≡ true) ↔ spec.AnyTwice kinds.now }
{
    let mut number = 0;
    for is_scalar in kinds.scalars.as_slice() {
        if *is_scalar && is_marked(&kinds.arrays, Some(number)) {
            return true;
        }
        number += 1;
    }
    false
}

/// Whether an item of this role is a function whose name is a variable too.
fn is_double(kinds: &Kinds, role: &Role) -> bool
    ensures { (result ≡ true) ↔ spec.IsDouble kinds.now role.now }
{
    match role {
        Role::Function(name, _params) => has_two(kinds, &Role::Begin, name.text.bytes()),
        Role::Begin | Role::End | Role::Rule => false,
    }
}

fn any_double(kinds: &Kinds, parts: &[Section]) -> bool
    ensures { (result ≡ true) ↔ spec.AnyDouble kinds.now parts.now }
{
    for part in parts {
        if is_double(kinds, &part.role) {
            return true;
        }
    }
    false
}

/// Whether a name may have two kinds, by numbers and functions, which are fewer than the places where names stand.
fn may_double(kinds: &Kinds, parts: &[Section]) -> bool
    ensures { (result ≡ true) ↔ (spec.AnyTwice kinds.now ⊎ spec.AnyDouble kinds.now parts.now) }
{
    marked_twice(kinds) || any_double(kinds, parts)
}

fn look<'a>(kinds: &'a Kinds, parts: &[Section]) -> Sought<'a>
    requires numbers { kinds.now.numbers ≡ numbers parts.now }
    requires defined { (place : places.Place) → Misdefined parts.now place → ⊥ }
    ensures { result.kinds.now ≡ kinds.now }
{
    Sought {
        kinds,
        may_double: may_double(kinds, parts),
    }
}

/// The first place at which a name of two kinds stands, or a function is called with an
/// expression for an array, where the kinds are those of these items.
fn first_clash(kinds: &Kinds, parts: &[Section]) -> Option<Place>
    requires numbers { kinds.now.numbers ≡ numbers parts.now }
    requires kinds { AreKinds parts.now kinds.now }
    requires defined { (place : places.Place) → Misdefined parts.now place → ⊥ }
    ensures first { spec.IsFirst (Clashes parts.now) result }
    ensures agree { IfNone result (Agrees parts.now) }
{
    let sought = look(kinds, parts);
    let mut first = None;
    for part in parts {
        first = earlier(first, at_part(&sought, part));
    }
    first
}

/// Marks the scalars, along the links from each parameter to what is handed to it.
fn scalar_marks(alloc: Global, uses: &[Use], links: &[Items<usize>]) -> Result<Items<bool>, Memory>
    ensures { IfOk result (λ marks. marked.Marks (used.scalars uses.now) links.now marks) }
{
    let scalars = scalars(alloc, uses)?;
    reached(alloc, scalars.as_slice(), links)
}

/// Marks the arrays. The links lead from each parameter to what is handed to it, and here also back to those
/// parameters whose length is asked, which are found along the links as they were.
fn array_marks(
    alloc: Global,
    uses: &[Use],
    links: &mut Vec<Items<usize>>,
) -> Result<Items<bool>, Memory>
    ensures { IfOk result (λ marks. AreArrays uses.now links.old.items marks) }
{
    let measures = measures(alloc, uses)?;
    let measured = reached(alloc, measures.as_slice(), links.as_slice())?;
    link_measured(links, &measured, uses)?;
    let arrays = arrays(alloc, uses)?;
    reached(alloc, arrays.as_slice(), links.as_slice())
}

/// Marks so many numbers by these uses.
fn marks_by(alloc: Global, count: usize, uses: &[Use]) -> Result<KindMarks, Memory>
    ensures scalars { IfOk result
        (λ marks. marked.Marks (used.scalars uses.now) (used.linked uses.now (replicate count [])) marks.scalars) }
    ensures arrays { IfOk result
        (λ marks. AreArrays uses.now (used.linked uses.now (replicate count [])) marks.arrays) }
{
    let mut links = links(alloc, count, uses)?;
    let scalars = scalar_marks(alloc, uses, links.as_slice())?;
    let arrays = array_marks(alloc, uses, &mut links)?;
    Ok(KindMarks { scalars, arrays })
}

/// Marks the numbers by the uses of these items.
fn marks_in(alloc: Global, numbers: &Numbers, parts: &[Section]) -> Result<KindMarks, Memory>
    ensures scalars { IfOk result
        (λ marks. marked.Marks (used.scalars (used.uses numbers.now parts.now))
        (used.linked (used.uses numbers.now parts.now) (replicate numbers.now.count [])) marks.scalars) }
    ensures arrays { IfOk result
        (λ marks. AreArrays (used.uses numbers.now parts.now)
        (used.linked (used.uses numbers.now parts.now) (replicate numbers.now.count [])) marks.arrays) }
{
    let uses = uses(alloc, numbers, parts)?;
    marks_by(alloc, numbers.count, uses.as_slice())
}

impl Kinds {
    fn marked(alloc: Global, parts: &[Section]) -> Result<Kinds, Memory>
        requires { (place : places.Place) → Misdefined parts.now place → ⊥ }
        ensures numbers { IfOk result (λ kinds. kinds.numbers ≡ numbers parts.now) }
        ensures kinds { IfOk result (λ kinds. AreKinds parts.now kinds) }
    {
        let numbers = Numbers::of(alloc, parts)?;
        let marks = marks_in(alloc, &numbers, parts)?;
        Ok(Kinds {
            numbers,
            scalars: marks.scalars,
            arrays: marks.arrays,
        })
    }

    /// The kinds of the names of these items, or the place where a name that has two of them
    /// stands first, or of a call that hands an expression to an array, whichever is first.
    pub fn of(alloc: Global, parts: &[Section]) -> Result<Result<Kinds, Place>, Memory>
        requires { (place : places.Place) → Misdefined parts.now place → ⊥ }
        ensures numbers { IfOk result (λ found. IfOk found (λ kinds. kinds.numbers ≡ numbers parts.now)) }
        ensures kinds { IfOk result (λ found. IfOk found (λ kinds. AreKinds parts.now kinds)) }
        ensures agree { IfOk result (λ found. OnOk found (Agrees parts.now)) }
        ensures none { IfOk result (λ found. OnOk found ((place : places.Place) → Clashes parts.now place → ⊥)) }
        ensures gives { IfOk result (λ found. OnOk found (GivesArrays parts.now)) }
        ensures clash { IfOk result (λ found. IfErr found (λ place. Clashes parts.now place)) }
        ensures first { IfOk result
            (λ found. IfErr found (λ place. (other : places.Place) → Clashes parts.now other → NotAfter place other)) }
    {
        let kinds = Kinds::marked(alloc, parts)?;
        match first_clash(&kinds, parts) {
            Some(place) => Ok(Err(place)),
            None => Ok(Ok(kinds)),
        }
    }

    fn may_assign(&self, text: &[u8]) -> bool
        ensures { result ≡ assigns.can_assign self.now text.now }
    {
        is_name(text)
            && reserved(text).is_none()
            && !is_marked(&self.arrays, self.numbers.global(text))
            && !self.numbers.is_function(text)
    }

    /// Whether a host may assign to the variable of this name: it is spelled as a name, is no word
    /// of the language, and no array and no function of the script. Takes no memory.
    pub fn can_assign(&self, name: &[u8]) -> bool
        ensures { (parts : List items.Section) → AreKinds parts self.now → (result ≡ true) ↔ CanAssign parts name.now }
    {
        self.may_assign(name)
    }

    /// Whether a variable of the whole script is an array. Takes no memory.
    pub fn is_array_variable(&self, name: &[u8]) -> bool
        ensures { result ≡ marked.has self.now (global name.now) names.array }
    {
        is_marked(&self.arrays, self.numbers.global(name))
    }

    /// Whether a parameter of a function is an array. Takes no memory.
    pub fn is_array_parameter(&self, function: &[u8], name: &[u8]) -> bool
        ensures { result ≡ marked.has self.now (parameter function.now name.now) names.array }
    {
        is_marked(&self.arrays, self.numbers.parameter(function, name))
    }
}
