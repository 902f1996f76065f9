// Patterns as trees.
use crate::token::Class;

/// A pattern as a tree.
#[derive(Drop)]
pub enum Node {
    Empty,
    Bytes(Class),
    Start,
    End,
    Cat(Box<Node>, Box<Node>),
    Alt(Box<Node>, Box<Node>),
    /// At least so many times, and at most so many more.
    Repeat(Box<Node>, usize, Option<usize>),
}
