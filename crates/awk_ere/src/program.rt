// Programs of instructions.
use crate::token::Class;

/// One instruction of a pattern's program, with the numbers of those that follow.
#[derive(Clone, Copy)]
pub enum Instruction {
    /// Take a byte of the class.
    Eat(Class, usize),
    /// Go on at either.
    Fork(usize, usize),
    /// Go on at the start of the text, at its end.
    AtStart(usize),
    AtEnd(usize),
    /// A match ends here.
    Done,
    /// An instruction that is still to be written.
    Hole,
}
