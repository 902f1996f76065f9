// A number for each name of a script, by which its uses and marks are kept.

ghost use Rattle.std.specs.Prelude.{◌≡◌, ◌+◌, length, map, slice_get, IfOk, OnOk};
ghost use Rattle.std.specs.Option.{option_copied};
ghost use Rattle.awk_resolve.specs.Kinds.{global, parameter};
ghost use Rattle.awk_resolve.specs.Numbering as spec;
ghost use Rattle.awk_resolve.specs.Numbers as named;
ghost use Rattle.awk_resolve.specs.TextTables.{with_text};
ghost use Rattle.awk_resolve.specs.Uses as uses;

use crate::mention::{Mention, Role, Section};
use crate::text_tables::{ShortTable, TextTable};
use crate::variables::{ARRAYS, SCALARS};
use awk_text::Memory;
use awk_text::octets::Octets;
use awk_tree::Name;
use sqlite_items::{Items, at};
use std::alloc::{AllocError, Global};

/// The parameters of a function.
#[derive(Drop)]
pub struct Scope {
    /// Where each stands among them, by its text.
    pub positions: ShortTable<usize>,
    /// The number of each, in order.
    pub numbers: Items<usize>,
}

/// A number for each parameter of a script, and for each variable that it names or awk sets. No
/// two have one number.
#[derive(Drop)]
pub struct Numbers {
    pub functions: TextTable<Scope>,
    pub globals: TextTable<usize>,
    pub count: usize,
}

impl Scope {
    /// One without parameters, with room for so many.
    fn new(alloc: Global, count: usize) -> Result<Scope, Memory>
        ensures { IfOk result (λ s. s ≡ spec.no_parameters) }
    {
        Ok(Scope {
            positions: ShortTable::new(alloc, count)?,
            numbers: Items::from_vec(Vec::with_capacity(alloc, count)?),
        })
    }

    fn add(&mut self, text: Octets, number: usize) -> Result<(), Memory>
        ensures { OnOk result (self.new ≡ spec.with_parameter text number self.old) }
    {
        self.positions.put(text, self.numbers.len())?;
        self.numbers.push(number)
    }

    /// The number of the parameter of this text.
    pub fn number(&self, text: &[u8]) -> Option<usize>
        ensures { result ≡ named.in_scope self.now text.now }
    {
        match self.positions.get(text) {
            Some(position) => self.numbers.get(*position).copied(),
            None => None,
        }
    }
}

/// The parameters of the function that an item of this role is.
fn scope_in<'a>(functions: &'a TextTable<Scope>, role: &Role) -> Option<&'a Scope>
    ensures { option_copied result ≡ spec.scope_in functions.now role.now }
{
    match role {
        Role::Function(name, _params) => functions.get(name.text.bytes()),
        Role::Begin | Role::End | Role::Rule => None,
    }
}

/// A number that no name has. More names than there are numbers have no room in memory.
fn fresh(count: &mut usize) -> Result<usize, Memory>
    ensures number { IfOk result (λ n. n ≡ count.old) }
    ensures rest { OnOk result (count.new ≡ count.old + 1) }
{
    let number = *count;
    *count = number.checked_add(1).ok_or(AllocError)?;
    Ok(number)
}

/// Numbers a parameter behind those that the scope has.
fn add_parameter(
    alloc: Global,
    param: &Name,
    count: &mut usize,
    scope: &mut Scope,
) -> Result<(), Memory>
    ensures scope { OnOk result (scope.new ≡ spec.with_parameter param.now.text count.old scope.old) }
    ensures count { OnOk result (count.new ≡ count.old + 1) }
{
    let number = fresh(count)?;
    scope.add(param.text.copy(alloc)?, number)
}

/// Numbers these parameters behind those that the scope has.
fn add_parameters(
    alloc: Global,
    params: &[Name],
    count: &mut usize,
    scope: &mut Scope,
) -> Result<(), Memory>
    ensures scope { OnOk result (scope.new ≡ spec.scope count.old scope.old params.now) }
    ensures count { OnOk result (count.new ≡ count.old + length params.now) }
{
    for param in params {
        add_parameter(alloc, param, count, scope)?;
    }
    Ok(())
}

/// With the variables that awk sets, and then those that these items name.
fn filled(
    alloc: Global,
    functions: &TextTable<Scope>,
    globals: Globals,
    parts: &[Section],
) -> Result<Globals, Memory>
    ensures { IfOk result (λ filled. spec.beside functions.now filled
        ≡ spec.with_globals parts.now (spec.beside functions.now globals)) }
{
    let mut globals = globals;
    globals.add_all(alloc, functions, parts)?;
    Ok(globals)
}

impl Numbers {
    fn new(alloc: Global) -> Numbers
        ensures { result ≡ spec.nothing }
    {
        Numbers {
            functions: TextTable::new(alloc),
            globals: TextTable::new(alloc),
            count: 0,
        }
    }

    /// The number of a variable of the whole script.
    pub fn global(&self, text: &[u8]) -> Option<usize>
        ensures { result ≡ named.number self.now (global text.now) }
    {
        self.globals.get(text).copied()
    }

    /// The number of a parameter of this function.
    pub fn parameter(&self, function: &[u8], text: &[u8]) -> Option<usize>
        ensures { result ≡ named.number self.now (parameter function.now text.now) }
    {
        match self.functions.get(function) {
            Some(scope) => scope.number(text),
            None => None,
        }
    }

    /// The parameters of the function that an item of this role is.
    fn scope_of(&self, role: &Role) -> Option<&Scope>
        ensures { option_copied result ≡ spec.scope_of self.now role.now }
    {
        scope_in(&self.functions, role)
    }

    /// The number of what a text is in an item of this role.
    pub fn number(&self, role: &Role, text: &[u8]) -> Option<usize>
        ensures { result ≡ spec.number_in self.now role.now text.now }
    {
        Inside::new(self, role).number(text)
    }

    pub fn is_function(&self, text: &[u8]) -> bool
        ensures { result ≡ named.is_function self.now text.now }
    {
        self.functions.get(text).is_some()
    }

    /// The numbers of the parameters of this function, in order.
    pub fn parameters(&self, function: &[u8]) -> &[usize]
        ensures { result.now ≡ uses.parameters self.now function.now }
    {
        match self.functions.get(function) {
            Some(scope) => scope.numbers.as_slice(),
            None => &[],
        }
    }

    fn scope(&mut self, alloc: Global, params: &[Name]) -> Result<Scope, Memory>
        ensures scope { IfOk result (λ s. s ≡ spec.scope self.old.count spec.no_parameters params.now) }
        ensures rest { OnOk result (self.new ≡ spec.counted_by (length params.now) self.old) }
    {
        let mut scope = Scope::new(alloc, params.len())?;
        add_parameters(alloc, params, &mut self.count, &mut scope)?;
        Ok(scope)
    }

    fn add_function(&mut self, alloc: Global, role: &Role) -> Result<(), Memory>
        ensures { OnOk result (self.new ≡ spec.with_function role.now self.old) }
    {
        match role {
            Role::Function(name, params) => {
                let scope = self.scope(alloc, params.as_slice())?;
                self.functions.put(name.text.copy(alloc)?, scope)
            }
            Role::Begin | Role::End | Role::Rule => Ok(()),
        }
    }

    fn add_functions(&mut self, alloc: Global, parts: &[Section]) -> Result<(), Memory>
        ensures { OnOk result (self.new ≡ spec.with_functions parts.now self.old) }
    {
        for part in parts {
            self.add_function(alloc, &part.role)?;
        }
        Ok(())
    }

    /// Numbers the names of these items.
    pub fn of(alloc: Global, parts: &[Section]) -> Result<Numbers, Memory>
        ensures { IfOk result (λ numbers. numbers ≡ spec.numbers parts.now) }
    {
        let mut numbers = Numbers::new(alloc);
        numbers.add_functions(alloc, parts)?;
        let Numbers {
            functions,
            globals,
            count,
        } = numbers;
        let globals = Globals {
            numbers: globals,
            count,
        };
        let globals = filled(alloc, &functions, globals, parts)?;
        Ok(Numbers {
            functions,
            globals: globals.numbers,
            count: globals.count,
        })
    }
}

/// The number at this position.
pub fn nth(numbers: &[usize], position: usize) -> Option<usize>
    ensures { result ≡ slice_get numbers.now position }
{
    at(numbers, position).copied()
}

/// The numbers of names inside an item of this role. The scope of a function is looked up once for all its names.
#[derive(Drop)]
pub struct Inside<'a> {
    pub numbers: &'a Numbers,
    pub role: &'a Role,
    scope: Option<&'a Scope>,
    ghost own: { option_copied scope ≡ spec.scope_of numbers.now role.now },
}

impl<'a> Inside<'a> {
    pub fn new(numbers: &'a Numbers, role: &'a Role) -> Inside<'a>
        ensures numbers { result.numbers.now ≡ numbers.now }
        ensures role { result.role.now ≡ role.now }
    {
        Inside {
            numbers,
            role,
            scope: numbers.scope_of(role),
        }
    }

    /// The number of the parameter of this text.
    fn parameter(&self, text: &[u8]) -> Option<usize>
        ensures { result ≡ named.in_perhaps (spec.scope_of self.now.numbers.now self.now.role.now) text.now }
    {
        match self.scope {
            Some(scope) => scope.number(text),
            None => None,
        }
    }

    /// The number of what a text is there.
    pub fn number(&self, text: &[u8]) -> Option<usize>
        ensures { result ≡ spec.number_in self.now.numbers.now self.now.role.now text.now }
    {
        match self.parameter(text) {
            Some(number) => Some(number),
            None => self.numbers.global(text),
        }
    }
}

/// The numbers of the variables of the whole script, and how many names have one.
#[derive(Drop)]
struct Globals {
    numbers: TextTable<usize>,
    count: usize,
}

/// An item of this role, beside the functions of its script. Its own one is looked up once for all its names.
#[derive(Drop)]
struct Within<'a> {
    functions: &'a TextTable<Scope>,
    role: &'a Role,
    scope: Option<&'a Scope>,
    ghost own: { option_copied scope ≡ spec.scope_in functions.now role.now },
}

impl<'a> Within<'a> {
    fn new(functions: &'a TextTable<Scope>, role: &'a Role) -> Within<'a>
        ensures functions { result.functions.now ≡ functions.now }
        ensures role { result.role.now ≡ role.now }
    {
        Within {
            functions,
            role,
            scope: scope_in(functions, role),
        }
    }

    /// The number of the parameter of this text.
    fn parameter(&self, text: &[u8]) -> Option<usize>
        ensures { result ≡ named.in_perhaps (spec.scope_in self.now.functions.now self.now.role.now) text.now }
    {
        match self.scope {
            Some(scope) => scope.number(text),
            None => None,
        }
    }
}

impl Globals {
    fn add_new(&mut self, alloc: Global, text: &[u8]) -> Result<(), Memory>
        ensures numbers { OnOk result (self.new.numbers ≡ with_text text.now self.old.count self.old.numbers) }
        ensures count { OnOk result (self.new.count ≡ self.old.count + 1) }
    {
        let number = fresh(&mut self.count)?;
        self.numbers.put(Octets::of(alloc, text)?, number)
    }

    /// The number of what a text is in this item.
    fn number(&self, within: &Within<'_>, text: &[u8]) -> Option<usize>
        ensures { result ≡
            spec.number_in (spec.beside within.now.functions.now self.now) within.now.role.now text.now }
    {
        match within.parameter(text) {
            Some(number) => Some(number),
            None => self.numbers.get(text).copied(),
        }
    }

    /// Gives a number to what a text is in this item, unless it has one.
    fn add(&mut self, alloc: Global, within: &Within<'_>, text: &[u8]) -> Result<(), Memory>
        ensures { OnOk result (spec.beside within.now.functions.now self.new
            ≡ spec.with_name within.now.role.now text.now (spec.beside within.now.functions.now self.old)) }
    {
        match self.number(within, text) {
            Some(_number) => Ok(()),
            None => self.add_new(alloc, text),
        }
    }

    fn add_names(
        &mut self,
        alloc: Global,
        within: &Within<'_>,
        texts: &[&[u8]],
    ) -> Result<(), Memory>
        ensures { OnOk result (spec.beside within.now.functions.now self.new
            ≡ spec.with_names within.now.role.now (map (λ w. w.now) texts.now)
            (spec.beside within.now.functions.now self.old)) }
    {
        for text in texts {
            self.add(alloc, within, text)?;
        }
        Ok(())
    }

    /// Variables that awk sets.
    fn add_own(
        &mut self,
        alloc: Global,
        functions: &TextTable<Scope>,
        texts: &[&[u8]],
    ) -> Result<(), Memory>
        ensures { OnOk result (spec.beside functions.now self.new
            ≡ spec.with_own (map (λ w. w.now) texts.now) (spec.beside functions.now self.old)) }
    {
        let begin = Role::Begin;
        let within = Within::new(functions, &begin);
        self.add_names(alloc, &within, texts)
    }

    fn add_argument(
        &mut self,
        alloc: Global,
        within: &Within<'_>,
        name: &Option<Name>,
    ) -> Result<(), Memory>
        ensures { OnOk result (spec.beside within.now.functions.now self.new
            ≡ spec.with_argument within.now.role.now name.now (spec.beside within.now.functions.now self.old)) }
    {
        match name {
            Some(name) => self.add(alloc, within, name.text.bytes()),
            None => Ok(()),
        }
    }

    fn add_arguments(
        &mut self,
        alloc: Global,
        within: &Within<'_>,
        args: &[Option<Name>],
    ) -> Result<(), Memory>
        ensures { OnOk result (spec.beside within.now.functions.now self.new
            ≡ spec.with_arguments within.now.role.now args.now (spec.beside within.now.functions.now self.old)) }
    {
        for arg in args {
            self.add_argument(alloc, within, arg)?;
        }
        Ok(())
    }

    fn add_mention(
        &mut self,
        alloc: Global,
        within: &Within<'_>,
        mention: &Mention,
    ) -> Result<(), Memory>
        ensures { OnOk result (spec.beside within.now.functions.now self.new
            ≡ spec.with_mention within.now.role.now mention.now (spec.beside within.now.functions.now self.old)) }
    {
        match mention {
            Mention::Scalar(name) => self.add(alloc, within, name.text.bytes()),
            Mention::Array(name) => self.add(alloc, within, name.text.bytes()),
            Mention::Measured(name) => self.add(alloc, within, name.text.bytes()),
            Mention::Call(_name, args) => self.add_arguments(alloc, within, args.as_slice()),
            Mention::MainInput | Mention::Next(_) | Mention::Return(_) | Mention::Stray(_) => Ok(
                (),
            ),
        }
    }

    fn add_mentions(
        &mut self,
        alloc: Global,
        within: &Within<'_>,
        mentions: &[Mention],
    ) -> Result<(), Memory>
        ensures { OnOk result (spec.beside within.now.functions.now self.new
            ≡ spec.with_mentions within.now.role.now mentions.now (spec.beside within.now.functions.now self.old)) }
    {
        for mention in mentions {
            self.add_mention(alloc, within, mention)?;
        }
        Ok(())
    }

    fn add_parts(
        &mut self,
        alloc: Global,
        functions: &TextTable<Scope>,
        parts: &[Section],
    ) -> Result<(), Memory>
        ensures { OnOk result (spec.beside functions.now self.new
            ≡ spec.with_parts parts.now (spec.beside functions.now self.old)) }
    {
        for part in parts {
            let within = Within::new(functions, &part.role);
            self.add_mentions(alloc, &within, part.mentions.as_slice())?;
        }
        Ok(())
    }

    /// The variables that awk sets, and then those that these items name.
    fn add_all(
        &mut self,
        alloc: Global,
        functions: &TextTable<Scope>,
        parts: &[Section],
    ) -> Result<(), Memory>
        ensures { OnOk result (spec.beside functions.now self.new
            ≡ spec.with_globals parts.now (spec.beside functions.now self.old)) }
    {
        self.add_own(alloc, functions, &SCALARS)?;
        self.add_own(alloc, functions, &ARRAYS)?;
        self.add_parts(alloc, functions, parts)
    }
}
