// The bytes that a program's steps tell apart.
ghost use Rattle.std.specs.Prelude.{◌≡◌, ◌≢◌, ◌+◌, ◌<◌, ℕ, false, slice_get, Some};
ghost use Rattle.awk_ere.specs.Lexing.{has};
ghost use Rattle.awk_ere.specs.Making.{AreListEdges, AreRuns};
ghost use Rattle.awk_ere.specs.Program.{holds};
ghost use Rattle.awk_ere.specs.Search.{target_of};
ghost use Rattle.awk_ere.specs.Table.{AreEdges};
ghost use Rattle.awk_ere.specs.declared.program.Instruction.{Instruction};

use crate::bracket::Set;
use crate::program::Instruction;
use crate::token::Class;

/// Makes each byte an edge at which the set ends or begins.
fn add_set_edges(set: &Set, edges: &mut [bool; 256])
    ensures kept { (b : ℕ) → has edges.new b ≡ false → has edges.old b ≡ false }
    ensures edges { (b : ℕ) → b + 1 < 256 → has edges.new (b + 1) ≡ false → has set.now (b + 1) ≡ has set.now b }
{
    for byte in 1..256usize {
        edges[byte] = edges[byte] | (set[byte] != set[byte - 1]);
    }
}

/// Makes the byte an edge, and the one behind it.
fn add_byte_edges(byte: u8, edges: &mut [bool; 256])
    ensures kept { (b : ℕ) → has edges.new b ≡ false → has edges.old b ≡ false }
    ensures edges { (b : ℕ) → b + 1 < 256 → has edges.new (b + 1) ≡ false → (b + 1 ≢ byte) × (b ≢ byte) }
{
    edges[byte as usize] = true;
    if byte < 255 {
        edges[byte as usize + 1] = true;
    }
}

/// Makes each byte an edge at which the class ends or begins.
fn add_class_edges(sets: &[Set], class: Class, edges: &mut [bool; 256])
    ensures kept { (b : ℕ) → has edges.new b ≡ false → has edges.old b ≡ false }
    ensures edges { (b : ℕ) → b + 1 < 256 → has edges.new (b + 1) ≡ false → holds sets.now class (b + 1)
        ≡ holds sets.now class b }
{
    match class {
        Class::One(byte) => add_byte_edges(byte, edges),
        Class::Any => {}
        Class::In(number) => match sets.get(number) {
            Some(set) => add_set_edges(set, edges),
            None => {}
        },
    }
}

/// Makes each byte an edge over which the step goes on otherwise than over the one before it.
#[tactic(auto, unfolding(crate::specs::Search::target_of))]
fn add_edges(sets: &[Set], step: Instruction, edges: &mut [bool; 256])
    ensures kept { (b : ℕ) → has edges.new b ≡ false → has edges.old b ≡ false }
    ensures edges { (b : ℕ) → b + 1 < 256 → has edges.new (b + 1) ≡ false → target_of sets.now (b + 1) step
        ≡ target_of sets.now b step }
{
    match step {
        Instruction::Eat(class, _) => add_class_edges(sets, class, edges),
        Instruction::Fork(_, _)
        | Instruction::AtStart(_)
        | Instruction::AtEnd(_)
        | Instruction::Done
        | Instruction::Hole => {}
    }
}

/// The bytes over which some step goes on otherwise than over the one before.
pub fn edges(sets: &[Set], program: &[Instruction]) -> [bool; 256]
    ensures { AreEdges sets.now program.now result }
{
    let mut edges = [false; 256];
    edges[0] = true;
    for step in program {
        add_edges(sets, *step, &mut edges);
    }
    edges
}

/// The same for the step with this number, where the program has it.
fn add_edges_at(sets: &[Set], program: &[Instruction], at: usize, edges: &mut [bool; 256])
    ensures kept { (b : ℕ) → has edges.new b ≡ false → has edges.old b ≡ false }
    ensures edges { (x : Instruction) (b : ℕ) → slice_get program.now at ≡ Some x → b + 1 < 256
        → has edges.new (b + 1) ≡ false → target_of sets.now (b + 1) x ≡ target_of sets.now b x }
{
    match program.get(at) {
        None => {}
        Some(step) => add_edges(sets, *step, edges),
    }
}

/// The bytes over which some step of the list goes on otherwise than over the one before.
pub fn list_edges(sets: &[Set], program: &[Instruction], list: &[usize]) -> [bool; 256]
    ensures { AreListEdges sets.now program.now list.now result }
{
    let mut edges = [false; 256];
    edges[0] = true;
    for at in list {
        add_edges_at(sets, program, *at, &mut edges);
    }
    edges
}

/// For each byte the last one, from it on, before which there is no edge.
pub fn alike(edges: &[bool; 256]) -> [u8; 256]
    ensures { AreRuns edges.now result }
{
    let mut last = [255u8; 256];
    for passed in 1..256usize {
        let byte = 255 - passed;
        if edges[byte + 1] {
            last[byte] = byte as u8;
        } else {
            last[byte] = last[byte + 1];
        }
    }
    last
}
