// Lists of steps: where they go over a byte, what they lead to without reading, and whether a match ends there.
ghost use Rattle.std.specs.Prelude.{◌≡◌, ◌↔◌, ◌<◌, true, false, length, slice_get, Contains, IfOk, OnOk, Some};
ghost use Rattle.awk_ere.specs.Closure.{is_at_end, is_eat, AreEating, IsClosedList, IsEat, IsRoom, NoneWait};
ghost use Rattle.awk_ere.specs.Program.{IsSound};
ghost use Rattle.awk_ere.specs.Search.{mark, IsBlank, IsClosed, Takes};
ghost use Rattle.awk_ere.specs.Table.{Gains, LeadsMore, IsLed, AreLed, AreMarked, AreTargets, IsCell, EndsAtLast};
ghost use Rattle.awk_ere.specs.declared.program.Instruction.{Instruction};

use crate::bracket::Set;
use crate::program::Instruction;
use crate::search::{NONE, Starts, TextEnds, reach, target};
use std::alloc::{AllocError, Global};

/// A place with bytes before it and behind it.
pub const INSIDE: TextEnds = TextEnds {
    first: false,
    last: false,
};

/// A text's end with bytes before it.
const AT_LAST: TextEnds = TextEnds {
    first: false,
    last: true,
};

/// Marks of a program's steps, and a stack, which are used again for each list of steps. In between no step is marked.
#[derive(Drop)]
pub struct Room {
    starts: Starts,
    stack: Vec<usize>,
}

impl Room {
    /// For programs of so many steps.
    pub fn new(alloc: Global, len: usize) -> Result<Room, AllocError>
        ensures len { IfOk result (λ room. length room.starts ≡ len) }
        ensures blank { IfOk result (λ room. IsBlank room.starts) }
    {
        let starts = Starts::new(alloc, len)?;
        Ok(Room {
            starts,
            stack: Vec::new(alloc),
        })
    }
}

/// Adds the step that this one goes to over the byte.
fn push_target(
    sets: &[Set],
    program: &[Instruction],
    at: usize,
    byte: u8,
    found: &mut Vec<usize>,
) -> Result<(), AllocError>
    ensures { OnOk result (Gains (λ t. Takes sets.now program.now byte at t) found.old.items found.new.items) }
{
    match program.get(at) {
        None => Ok(()),
        Some(step) => match target(sets, *step, byte) {
            None => Ok(()),
            Some(to) => {
                found.push(to)?;
                Ok(())
            }
        },
    }
}

/// Finds the steps that those of the list go to over the byte.
pub fn find_targets(
    sets: &[Set],
    program: &[Instruction],
    list: &[usize],
    byte: u8,
    found: &mut Vec<usize>,
) -> Result<(), AllocError>
    ensures { OnOk result (AreTargets sets.now program.now byte list.now found.new.items) }
{
    found.clear();
    for at in list {
        push_target(sets, program, *at, byte, found)?;
    }
    Ok(())
}

/// Marks the steps that this one leads to without reading, where the program has it.
fn lead_from(
    program: &[Instruction],
    ends: TextEnds,
    at: usize,
    starts: &mut Starts,
    stack: &mut Vec<usize>,
) -> Result<(), AllocError>
    requires sound { IsSound program.now }
    requires len { length starts.old ≡ length program.now }
    requires closed { IsClosed program.now ends.first ends.last starts.old }
    ensures len { OnOk result (length starts.new ≡ length program.now) }
    ensures more { OnOk result (LeadsMore program.now ends.first ends.last at starts.old starts.new) }
{
    if at < program.len() {
        reach(program, ends, at, 0, starts, stack)?;
        Ok(())
    } else {
        Ok(())
    }
}

/// Marks the steps that those of the list lead to without reading.
fn lead(
    program: &[Instruction],
    ends: TextEnds,
    list: &[usize],
    room: &mut Room,
) -> Result<(), AllocError>
    requires sound { IsSound program.now }
    requires room { IsRoom program.now room.old }
    ensures len { OnOk result (length room.new.starts ≡ length program.now) }
    ensures led { OnOk result (AreLed program.now ends.first ends.last list.now room.new.starts) }
{
    for at in list {
        lead_from(program, ends, *at, &mut room.starts, &mut room.stack)?;
    }
    Ok(())
}

/// Adds the step where it is marked.
fn push_marked(starts: &Starts, at: usize, list: &mut Vec<usize>) -> Result<(), AllocError>
    requires { at < length starts.now }
    ensures { OnOk result (Gains (λ p. (p ≡ at) × (mark starts.now p < NONE)) list.old.items list.new.items) }
{
    if starts.least(at) < NONE {
        list.push(at)?;
        Ok(())
    } else {
        Ok(())
    }
}

/// Finds the marked steps, in order.
fn find_marked(starts: &Starts, list: &mut Vec<usize>) -> Result<(), AllocError>
    ensures { OnOk result (AreMarked starts.now list.new.items) }
{
    list.clear();
    list.reserve(starts.count())?;
    for at in 0..starts.len() {
        push_marked(starts, at, list)?;
    }
    Ok(())
}

/// Finds the steps that those of the list lead to without reading.
pub fn find_led(
    program: &[Instruction],
    ends: TextEnds,
    list: &[usize],
    room: &mut Room,
    led: &mut Vec<usize>,
) -> Result<(), AllocError>
    requires sound { IsSound program.now }
    requires room { IsRoom program.now room.old }
    ensures led { OnOk result (IsLed program.now ends.first ends.last list.now led.new.items) }
    ensures room { OnOk result (IsRoom program.now room.new) }
{
    lead(program, ends, list, room)?;
    find_marked(&room.starts, led)?;
    room.starts.clear();
    Ok(())
}

/// The same, with room of its own.
pub fn led(
    alloc: Global,
    program: &[Instruction],
    ends: TextEnds,
    list: &[usize],
) -> Result<Vec<usize>, AllocError>
    requires { IsSound program.now }
    ensures { IfOk result (λ led. IsLed program.now ends.first ends.last list.now led.items) }
{
    let mut room = Room::new(alloc, program.len())?;
    let mut found = Vec::new(alloc);
    find_led(program, ends, list, &mut room, &mut found)?;
    Ok(found)
}

/// The steps that those of the list lead to over the byte.
pub fn steps_after(
    alloc: Global,
    sets: &[Set],
    program: &[Instruction],
    list: &[usize],
    byte: u8,
) -> Result<Vec<usize>, AllocError>
    requires { IsSound program.now }
    ensures { IfOk result (λ steps. IsCell sets.now program.now byte list.now steps.items) }
{
    let mut targets = Vec::new(alloc);
    find_targets(sets, program, list, byte, &mut targets)?;
    if targets.is_empty() {
        return Ok(targets);
    }
    let steps = led(alloc, program, INSIDE, &targets)?;
    Ok(steps)
}

/// Whether the step takes a byte.
fn eats(step: Instruction) -> bool
    ensures { result ≡ is_eat step }
{
    match step {
        Instruction::Eat(_, _) => true,
        Instruction::Fork(_, _)
        | Instruction::AtStart(_)
        | Instruction::AtEnd(_)
        | Instruction::Done
        | Instruction::Hole => false,
    }
}

/// Adds the step where it takes a byte.
fn push_eating(program: &[Instruction], at: usize, found: &mut Vec<usize>) -> Result<(), AllocError>
    ensures { OnOk result (Gains (λ p. (p ≡ at) × IsEat program.now at) found.old.items found.new.items) }
{
    match program.get(at) {
        None => Ok(()),
        Some(step) => {
            if eats(*step) {
                found.push(at)?;
            }
            Ok(())
        }
    }
}

/// Finds the steps of the list that take a byte.
pub fn find_eating(
    program: &[Instruction],
    list: &[usize],
    found: &mut Vec<usize>,
) -> Result<(), AllocError>
    ensures { OnOk result (AreEating program.now list.now found.new.items) }
{
    found.clear();
    for at in list {
        push_eating(program, *at, found)?;
    }
    Ok(())
}

pub fn has_done(list: &[usize]) -> bool
    ensures { (result ≡ true) ↔ Contains list.now 0 }
{
    list.contains(&0)
}

/// Whether a match ends at the steps of the list where the text ends.
fn ends_in(program: &[Instruction], list: &[usize], room: &mut Room) -> Result<bool, AllocError>
    requires sound { IsSound program.now }
    requires some { 0 < length program.now }
    requires room { IsRoom program.now room.old }
    ensures ends { IfOk result (λ b. (b ≡ true) ↔ EndsAtLast program.now list.now) }
    ensures room { OnOk result (IsRoom program.now room.new) }
{
    lead(program, AT_LAST, list, room)?;
    let ends = room.starts.least(0) < NONE;
    room.starts.clear();
    Ok(ends)
}

/// The same, with room of its own.
pub fn ends_at_last(
    alloc: Global,
    program: &[Instruction],
    list: &[usize],
) -> Result<bool, AllocError>
    requires sound { IsSound program.now }
    requires some { 0 < length program.now }
    ensures { IfOk result (λ b. (b ≡ true) ↔ EndsAtLast program.now list.now) }
{
    let mut room = Room::new(alloc, program.len())?;
    let ends = ends_in(program, list, &mut room)?;
    Ok(ends)
}

/// Whether the step waits for the text's end.
fn waits(step: Instruction) -> bool
    ensures { result ≡ is_at_end step }
{
    match step {
        Instruction::AtEnd(_) => true,
        Instruction::Eat(_, _)
        | Instruction::Fork(_, _)
        | Instruction::AtStart(_)
        | Instruction::Done
        | Instruction::Hole => false,
    }
}

/// The same of the step with this number, where the program has it.
fn waits_at(program: &[Instruction], at: usize) -> bool
    ensures { result ≡ false → (x : Instruction) → slice_get program.now at ≡ Some x → is_at_end x ≡ false }
{
    match program.get(at) {
        None => false,
        Some(step) => waits(*step),
    }
}

/// Whether a step of the list waits for the text's end.
fn some_wait(program: &[Instruction], list: &[usize]) -> bool
    ensures { result ≡ false → NoneWait program.now list.now }
{
    for at in list {
        if waits_at(program, *at) {
            return true;
        }
    }
    false
}

/// Whether a match ends at the steps of a state where the text ends. Only a step that waits for the end leads on there.
pub fn state_ends(
    program: &[Instruction],
    list: &[usize],
    room: &mut Room,
) -> Result<bool, AllocError>
    requires sound { IsSound program.now }
    requires some { 0 < length program.now }
    requires closed { IsClosedList program.now list.now }
    requires room { IsRoom program.now room.old }
    ensures ends { IfOk result (λ b. (b ≡ true) ↔ EndsAtLast program.now list.now) }
    ensures room { OnOk result (IsRoom program.now room.new) }
{
    if some_wait(program, list) {
        let ends = ends_in(program, list, room)?;
        Ok(ends)
    } else {
        Ok(has_done(list))
    }
}
