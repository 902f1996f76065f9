// What is read or set.
use awk_program::Variable;
use awk_text::buffer::Buffer;
use awk_text::place::Place;
use awk_text::value::{Value, text_in};
use std::marker::Model;

/// The key of an element: the text of a value.
#[derive(Drop)]
pub struct ElementKey(Value);

impl Model for ElementKey {
    ghost use Rattle.std.specs.Prelude.{List, ℕ};
    ghost use Rattle.awk_text.specs.Values.{text_of};

    ghost Value = { List ℕ };

    ghost view = { λ k. text_of k.0 };
}

impl ElementKey {
    ghost use Rattle.std.specs.Prelude.{◌≡◌};
    ghost use Rattle.awk_text.specs.Values.{text_of};

    /// The text of this value, as a key. Takes no memory.
    pub fn new(value: Value) -> ElementKey
        ensures { result ≡ text_of value }
    {
        ElementKey(value)
    }

    /// The text, lent: a number's is written into the buffer. Takes no memory.
    pub fn text<'a>(&'a self, buffer: &'a mut Buffer) -> &'a [u8]
        ensures { result.now ≡ self.now }
    {
        text_in(&self.0, buffer)
    }
}

/// What is read or set, once its subscripts are one text, or its number is known.
#[derive(Drop)]
pub enum Spot {
    Variable(Variable),
    /// An element of an array by its key, with the place of the array's name
    Element(Place, Variable, ElementKey),
    /// A field by its number: 0 is the whole record
    Field(u16),
}
