// From a pattern's tree to its program.
ghost use Rattle.std.specs.Prelude.{◌≡◌, ◌<◌, ◌+◌, ◌++◌, [], ◌∷◌, Some, None, true, length, IfOk, option_map};
ghost use Rattle.awk_ere.specs.Pattern.{bytes, cat, alt, repeat};
ghost use Rattle.awk_ere.specs.Program.{IsReady, Compiles, Copies, Joins};
ghost use Rattle.awk_ere.specs.View.{pattern};

use crate::node::Node;
use crate::program::Instruction;
use crate::token::Class;
use awk_text::Memory;

/// Adds a step, and gives its number.
#[inline(never)]
fn add(program: &mut Vec<Instruction>, step: Instruction) -> Result<usize, Memory>
    ensures at { IfOk result (λ at. at ≡ length program.old.items) }
    ensures added { IfOk result (λ at. program.new.items ≡ program.old.items ++ step ∷ []) }
{
    let at = program.len();
    program.push(step)?;
    Ok(at)
}

/// Adds the part of the program that matches the node and then goes on at `next`. A row of nodes is
/// compiled from its end on, in a loop, so that a long one takes no more of the stack.
#[cycle(compile)]
pub fn compile(node: &Node, next: usize, program: &mut Vec<Instruction>) -> Result<usize, Memory>
    requires { IsReady program.old.items next }
    ensures { IfOk result (λ e. Compiles program.old.items program.new.items e (λ sets. pattern sets node.now) next) }
{
    let mut rest = node;
    let mut at = next;
    while let Node::Cat(left, right) = rest {
        at = compile(right, at, program)?;
        rest = left;
    }
    compile_node(rest, at, program)
}

/// The same of a node that is no row, as of any. Repetitions are compiled by functions of their own,
/// so that a level takes little of the stack.
#[cycle(compile)]
fn compile_node(node: &Node, next: usize, program: &mut Vec<Instruction>) -> Result<usize, Memory>
    requires { IsReady program.old.items next }
    ensures { IfOk result (λ e. Compiles program.old.items program.new.items e (λ sets. pattern sets node.now) next) }
{
    match node {
        Node::Empty => Ok(next),
        Node::Bytes(class) => add(program, Instruction::Eat(*class, next)),
        Node::Start => add(program, Instruction::AtStart(next)),
        Node::End => add(program, Instruction::AtEnd(next)),
        Node::Cat(left, right) => {
            let middle = compile(right, next, program)?;
            compile(left, middle, program)
        }
        Node::Alt(left, right) => {
            let others = compile(right, next, program)?;
            compile_before(left, others, next, program)
        }
        Node::Repeat(inner, least, more) => compile_repeat(inner, *least, *more, next, program),
    }
}

/// Adds the part of the program that matches the node and then goes on at `next`, or goes on at
/// `others`. A row of alternatives is compiled in a loop too.
#[cycle(compile)]
#[inline(never)]
fn compile_before(
    node: &Node,
    others: usize,
    next: usize,
    program: &mut Vec<Instruction>,
) -> Result<usize, Memory>
    requires ready { IsReady program.old.items next }
    requires inside { others < length program.old.items }
    ensures { IfOk result
        (λ e. Joins program.old.items program.new.items e (λ sets. pattern sets node.now) others next) }
{
    let mut rest = node;
    let mut at = others;
    while let Node::Alt(left, right) = rest {
        let one = compile(right, next, program)?;
        at = add(program, Instruction::Fork(one, at))?;
        rest = left;
    }
    let first = compile(rest, next, program)?;
    add(program, Instruction::Fork(first, at))
}

#[cycle(compile)]
#[inline(never)]
fn compile_repeat(
    node: &Node,
    least: usize,
    more: Option<usize>,
    next: usize,
    program: &mut Vec<Instruction>,
) -> Result<usize, Memory>
    requires { IsReady program.old.items next }
    ensures { IfOk result
        (λ e. Compiles program.old.items program.new.items e
        (λ sets. repeat (pattern sets node.now) least (option_map (λ m. least + m) more)) next) }
{
    match more {
        None => {
            if least == 0 {
                let star = compile_star(node, next, program)?;
                Ok(star)
            } else {
                let last = compile_plus(node, next, program)?;
                let first = compile_copies(node, least - 1, last, program)?;
                Ok(first)
            }
        }
        Some(more) => {
            let rest = compile_options(node, more, next, program)?;
            let start = compile_copies(node, least, rest, program)?;
            Ok(start)
        }
    }
}

#[cycle(compile)]
#[inline(never)]
fn compile_star(node: &Node, next: usize, program: &mut Vec<Instruction>) -> Result<usize, Memory>
    requires { IsReady program.old.items next }
    ensures { IfOk result
        (λ e. Compiles program.old.items program.new.items e (λ sets. repeat (pattern sets node.now) 0 None) next) }
{
    let fork = add(program, Instruction::Hole)?;
    let inner = compile(node, fork, program)?;
    program[fork] = Instruction::Fork(inner, next);
    Ok(fork)
}

/// Once or more: the body comes first, and goes on to the fork.
#[cycle(compile)]
#[inline(never)]
fn compile_plus(node: &Node, next: usize, program: &mut Vec<Instruction>) -> Result<usize, Memory>
    requires { IsReady program.old.items next }
    ensures { IfOk result
        (λ e. Compiles program.old.items program.new.items e
        (λ sets. cat (pattern sets node.now) (repeat (pattern sets node.now) 0 None)) next) }
{
    let fork = add(program, Instruction::Hole)?;
    let inner = compile(node, fork, program)?;
    program[fork] = Instruction::Fork(inner, next);
    Ok(inner)
}

/// Adds the part of the program that goes over any bytes and then on at `next`.
pub fn compile_scan(next: usize, program: &mut Vec<Instruction>) -> Result<usize, Memory>
    requires { IsReady program.old.items next }
    ensures { IfOk result
        (λ e. Compiles program.old.items program.new.items e (λ _. repeat (bytes (λ b. true)) 0 None) next) }
{
    let scan = compile_star(&Node::Bytes(Class::Any), next, program)?;
    Ok(scan)
}

#[cycle(compile)]
#[inline(never)]
fn compile_options(
    node: &Node,
    count: usize,
    next: usize,
    program: &mut Vec<Instruction>,
) -> Result<usize, Memory>
    requires { IsReady program.old.items next }
    ensures { IfOk result
        (λ e. Compiles program.old.items program.new.items e (λ sets. repeat (pattern sets node.now) 0 (Some count))
        next) }
{
    let mut at = next;
    for i in 0..count {
        let inner = compile(node, at, program)?;
        at = add(program, Instruction::Fork(inner, next))?;
    }
    Ok(at)
}

#[cycle(compile)]
#[inline(never)]
fn compile_copies(
    node: &Node,
    count: usize,
    next: usize,
    program: &mut Vec<Instruction>,
) -> Result<usize, Memory>
    requires { IsReady program.old.items next }
    ensures { IfOk result
        (λ e. Copies program.old.items program.new.items e (λ sets. pattern sets node.now) count next) }
{
    let mut at = next;
    for i in 0..count {
        at = compile(node, at, program)?;
    }
    Ok(at)
}
