// The tokens of a pattern.
ghost use Rattle.std.specs.Prelude.{◌≡◌};
ghost use Rattle.awk_ere.specs.Program.{holds};

use crate::bracket::Set;

/// The bytes that an atom takes.
#[derive(Clone, Copy, PartialEq, Eq)]
pub enum Class {
    /// This byte.
    One(u8),
    /// Every byte.
    Any,
    /// The bytes of the set with this number.
    In(usize),
}

/// How often something is repeated, and what that multiplies its size by.
#[derive(Clone, Copy, PartialEq, Eq)]
pub struct Times {
    pub least: u16,
    /// How many more at most; no bound where it is `None`.
    pub more: Option<u16>,
    pub factor: u16,
}

#[derive(Clone, Copy, PartialEq, Eq)]
pub enum Token {
    Atom(Class),
    Start,
    End,
    Repeat(Times),
    Opening,
    Closing,
    Bar,
}

/// Whether the byte is in the class.
pub fn takes(sets: &[Set], class: Class, byte: u8) -> bool
    ensures { result ≡ holds sets.now class byte }
{
    match class {
        Class::One(taken) => byte == taken,
        Class::Any => true,
        Class::In(number) => match sets.get(number) {
            Some(set) => set[byte as usize],
            None => false,
        },
    }
}
