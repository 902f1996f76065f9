// What the items of a script make of each number, and what is reached from these along what is handed to parameters.

ghost use Rattle.std.specs.Prelude.{◌≡◌, ◌++◌, ◌↔◌, ℕ, [], Some, true, false, length, map, replicate, slice_get};
ghost use Rattle.std.specs.Prelude.{IfOk, OnOk};
ghost use Rattle.awk_resolve.specs.Kinds as kinds;
ghost use Rattle.awk_resolve.specs.Marking as marking;
ghost use Rattle.awk_resolve.specs.Reached.{Reached};
ghost use Rattle.awk_resolve.specs.Uses as spec;

use crate::mention::{Mention, Role, Section};
use crate::numbers::{Inside, Numbers, nth};
use crate::variables::{ARRAYS, SCALARS};
use awk_text::Memory;
use awk_tree::Name;
use sqlite_items::{Items, at};
use std::alloc::Global;

/// One use of a name, by its number.
#[derive(Drop)]
pub enum Use {
    /// It is read or set as a scalar.
    Scalar(usize),
    /// It is used as an array.
    Array(usize),
    /// Its length is asked.
    Measured(usize),
    /// To the parameter of the first number, the name of the second is handed by itself.
    Handed(usize, usize),
}

fn scalar(inside: &Inside<'_>, text: &[u8], out: &mut Items<Use>) -> Result<(), Memory>
    ensures { OnOk result (out.new ≡ out.old ++ spec.scalar inside.now.numbers.now inside.now.role.now text.now) }
{
    match inside.number(text) {
        Some(number) => out.push(Use::Scalar(number)),
        None => Ok(()),
    }
}

fn array(inside: &Inside<'_>, text: &[u8], out: &mut Items<Use>) -> Result<(), Memory>
    ensures { OnOk result (out.new ≡ out.old ++ spec.array inside.now.numbers.now inside.now.role.now text.now) }
{
    match inside.number(text) {
        Some(number) => out.push(Use::Array(number)),
        None => Ok(()),
    }
}

fn measured(inside: &Inside<'_>, text: &[u8], out: &mut Items<Use>) -> Result<(), Memory>
    ensures { OnOk result (out.new ≡ out.old ++ spec.measured inside.now.numbers.now inside.now.role.now text.now) }
{
    match inside.number(text) {
        Some(number) => out.push(Use::Measured(number)),
        None => Ok(()),
    }
}

fn handed(
    inside: &Inside<'_>,
    parameter: Option<usize>,
    text: &[u8],
    out: &mut Items<Use>,
) -> Result<(), Memory>
    ensures { OnOk result
        (out.new ≡ out.old ++ spec.handed inside.now.numbers.now inside.now.role.now parameter text.now) }
{
    match parameter {
        Some(parameter) => match inside.number(text) {
            Some(number) => out.push(Use::Handed(parameter, number)),
            None => Ok(()),
        },
        None => Ok(()),
    }
}

/// A function by itself is no argument, and has no length: its name is then used as a scalar too.
fn function(inside: &Inside<'_>, text: &[u8], out: &mut Items<Use>) -> Result<(), Memory>
    ensures { OnOk result (out.new ≡ out.old ++ spec.function inside.now.numbers.now inside.now.role.now text.now) }
{
    if inside.numbers.is_function(text) {
        scalar(inside, text, out)
    } else {
        Ok(())
    }
}

fn argument(
    inside: &Inside<'_>,
    parameter: Option<usize>,
    arg: &Option<Name>,
    out: &mut Items<Use>,
) -> Result<(), Memory>
    ensures { OnOk result
        (out.new ≡ out.old ++ spec.argument inside.now.numbers.now inside.now.role.now parameter arg.now) }
{
    match arg {
        Some(name) => {
            function(inside, name.text.bytes(), out)?;
            handed(inside, parameter, name.text.bytes(), out)
        }
        None => Ok(()),
    }
}

fn arguments(
    inside: &Inside<'_>,
    parameters: &[usize],
    args: &[Option<Name>],
    out: &mut Items<Use>,
) -> Result<(), Memory>
    ensures { OnOk result
        (out.new ≡ out.old ++ spec.arguments inside.now.numbers.now inside.now.role.now parameters.now 0 args.now) }
{
    let mut position = 0;
    for arg in args {
        argument(inside, nth(parameters, position), arg, out)?;
        position += 1;
    }
    Ok(())
}

fn mention(inside: &Inside<'_>, mention: &Mention, out: &mut Items<Use>) -> Result<(), Memory>
    ensures { OnOk result (out.new ≡ out.old ++ spec.mention inside.now.numbers.now inside.now.role.now mention.now) }
{
    match mention {
        Mention::Scalar(name) => scalar(inside, name.text.bytes(), out),
        Mention::Array(name) => array(inside, name.text.bytes(), out),
        Mention::Measured(name) => {
            function(inside, name.text.bytes(), out)?;
            measured(inside, name.text.bytes(), out)
        }
        Mention::Call(name, args) => {
            let parameters = inside.numbers.parameters(name.text.bytes());
            arguments(inside, parameters, args.as_slice(), out)
        }
        Mention::MainInput | Mention::Next(_) | Mention::Return(_) | Mention::Stray(_) => Ok(()),
    }
}

fn mentions(inside: &Inside<'_>, mentions: &[Mention], out: &mut Items<Use>) -> Result<(), Memory>
    ensures { OnOk result (out.new ≡ out.old ++ spec.mentions inside.now.numbers.now inside.now.role.now mentions.now) }
{
    for said in mentions {
        mention(inside, said, out)?;
    }
    Ok(())
}

fn parts(numbers: &Numbers, parts: &[Section], out: &mut Items<Use>) -> Result<(), Memory>
    ensures { OnOk result (out.new ≡ out.old ++ spec.parts numbers.now parts.now) }
{
    for part in parts {
        let inside = Inside::new(numbers, &part.role);
        mentions(&inside, part.mentions.as_slice(), out)?;
    }
    Ok(())
}

fn all_scalar(inside: &Inside<'_>, texts: &[&[u8]], out: &mut Items<Use>) -> Result<(), Memory>
    ensures { OnOk result
        (out.new ≡ out.old
        ++ spec.all_scalar inside.now.numbers.now inside.now.role.now (map (λ w. w.now) texts.now)) }
{
    for text in texts {
        scalar(inside, text, out)?;
    }
    Ok(())
}

fn all_array(inside: &Inside<'_>, texts: &[&[u8]], out: &mut Items<Use>) -> Result<(), Memory>
    ensures { OnOk result
        (out.new ≡ out.old
        ++ spec.all_array inside.now.numbers.now inside.now.role.now (map (λ w. w.now) texts.now)) }
{
    for text in texts {
        array(inside, text, out)?;
    }
    Ok(())
}

/// The uses of the variables that awk sets.
fn own(numbers: &Numbers, out: &mut Items<Use>) -> Result<(), Memory>
    ensures { OnOk result
        (out.new ≡ out.old
        ++ (spec.own_scalars numbers.now kinds.scalars ++ spec.own_arrays numbers.now kinds.arrays)) }
{
    let begin = Role::Begin;
    let inside = Inside::new(numbers, &begin);
    all_scalar(&inside, &SCALARS, out)?;
    all_array(&inside, &ARRAYS, out)
}

/// The uses of the variables that awk sets, and then those in these items.
pub fn uses(alloc: Global, numbers: &Numbers, items: &[Section]) -> Result<Items<Use>, Memory>
    ensures { IfOk result (λ uses. uses ≡ spec.uses numbers.now items.now) }
{
    let mut out = Items::new(alloc);
    own(numbers, &mut out)?;
    parts(numbers, items, &mut out)?;
    Ok(out)
}

/// The numbers that are scalars by a use of their own.
pub fn scalars(alloc: Global, uses: &[Use]) -> Result<Items<usize>, Memory>
    ensures { IfOk result (λ numbers. numbers ≡ spec.scalars uses.now) }
{
    let mut numbers = Items::new(alloc);
    for one in uses {
        if let Use::Scalar(number) = one {
            numbers.push(*number)?;
        }
    }
    Ok(numbers)
}

/// The numbers that are arrays by a use of their own.
pub fn arrays(alloc: Global, uses: &[Use]) -> Result<Items<usize>, Memory>
    ensures { IfOk result (λ numbers. numbers ≡ spec.arrays uses.now) }
{
    let mut numbers = Items::new(alloc);
    for one in uses {
        if let Use::Array(number) = one {
            numbers.push(*number)?;
        }
    }
    Ok(numbers)
}

/// The numbers whose length is asked by a use of their own.
pub fn measures(alloc: Global, uses: &[Use]) -> Result<Items<usize>, Memory>
    ensures { IfOk result (λ numbers. numbers ≡ spec.measures uses.now) }
{
    let mut numbers = Items::new(alloc);
    for one in uses {
        if let Use::Measured(number) = one {
            numbers.push(*number)?;
        }
    }
    Ok(numbers)
}

fn no_links(alloc: Global, count: usize) -> Result<Vec<Items<usize>>, Memory>
    ensures { IfOk result (λ table. table.items ≡ replicate count []) }
{
    let mut table = Vec::new(alloc);
    for i in 0..count {
        table.push(Items::new(alloc))?;
    }
    Ok(table)
}

fn link(table: &mut Vec<Items<usize>>, parameter: usize, number: usize) -> Result<(), Memory>
    ensures { OnOk result (table.new.items ≡ spec.with_link parameter number table.old.items) }
{
    if let Some(numbers) = table.get_mut(parameter) {
        numbers.push(number)?;
    }
    Ok(())
}

fn add_links(table: &mut Vec<Items<usize>>, uses: &[Use]) -> Result<(), Memory>
    ensures { OnOk result (table.new.items ≡ spec.linked uses.now table.old.items) }
{
    for one in uses {
        if let Use::Handed(parameter, number) = one {
            link(table, *parameter, *number)?;
        }
    }
    Ok(())
}

/// For each of this many numbers, the numbers of the names that are handed to it.
pub fn links(alloc: Global, count: usize, uses: &[Use]) -> Result<Vec<Items<usize>>, Memory>
    ensures { IfOk result (λ table. table.items ≡ spec.linked uses.now (replicate count [])) }
{
    let mut table = no_links(alloc, count)?;
    add_links(&mut table, uses)?;
    Ok(table)
}

fn link_back(
    table: &mut Vec<Items<usize>>,
    measured: &Items<bool>,
    parameter: usize,
    number: usize,
) -> Result<(), Memory>
    ensures { OnOk result
        (table.new.items ≡ spec.back_link (slice_get measured.now parameter) parameter number table.old.items) }
{
    match measured.get(parameter) {
        Some(true) => link(table, number, parameter),
        Some(false) | None => Ok(()),
    }
}

/// Links each name that is handed to a parameter whose length is asked back to that parameter.
pub fn link_measured(
    table: &mut Vec<Items<usize>>,
    measured: &Items<bool>,
    uses: &[Use],
) -> Result<(), Memory>
    ensures { OnOk result (table.new.items ≡ spec.with_back_links measured.now uses.now table.old.items) }
{
    for one in uses {
        if let Use::Handed(parameter, number) = one {
            link_back(table, measured, *parameter, *number)?;
        }
    }
    Ok(())
}

/// The numbers that are reached so far, each put into the queue when it is marked.
#[derive(Drop)]
struct Reach {
    marks: Items<bool>,
    queue: Items<usize>,
}

fn unmarked(alloc: Global, count: usize) -> Result<Items<bool>, Memory>
    ensures { IfOk result (λ marks. marks ≡ replicate count false) }
{
    let mut marks = Items::new(alloc);
    for i in 0..count {
        marks.push(false)?;
    }
    Ok(marks)
}

impl Reach {
    fn new(alloc: Global, count: usize) -> Result<Reach, Memory>
        ensures { IfOk result (λ reach. reach ≡ marking.fresh count) }
    {
        Ok(Reach {
            marks: unmarked(alloc, count)?,
            queue: Items::new(alloc),
        })
    }

    /// Marks a number, unless it is marked.
    fn mark(&mut self, n: usize) -> Result<(), Memory>
        ensures { OnOk result (self.new ≡ marking.mark n self.old) }
    {
        if let Some(false) = self.marks.get(n) {
            self.queue.push(n)?;
            self.marks.set(n, true);
        }
        Ok(())
    }

    fn mark_all(&mut self, numbers: &[usize]) -> Result<(), Memory>
        ensures { OnOk result (self.new ≡ marking.mark_all numbers.now self.old) }
    {
        for n in numbers {
            self.mark(*n)?;
        }
        Ok(())
    }

    /// Marks all that a number is linked to.
    fn follow(&mut self, links: &[Items<usize>], n: usize) -> Result<(), Memory>
        ensures { OnOk result (self.new ≡ marking.follow n links.now self.old) }
    {
        match at(links, n) {
            Some(next) => self.mark_all(next.as_slice()),
            None => Ok(()),
        }
    }
}

/// Marks what is reached from the seeds: each number is looked at once, and so is each link.
pub fn reached(
    alloc: Global,
    seeds: &[usize],
    links: &[Items<usize>],
) -> Result<Items<bool>, Memory>
    ensures { IfOk result (λ marks. (n : ℕ) → (slice_get marks n ≡ Some true) ↔ Reached seeds.now links.now n) }
{
    let mut reach = Reach::new(alloc, links.len())?;
    reach.mark_all(seeds)?;
    let mut done = 0;
    while let Some(&n) = reach.queue.get(done) {
        reach.follow(links, n)?;
        done += 1;
    }
    Ok(reach.marks)
}
