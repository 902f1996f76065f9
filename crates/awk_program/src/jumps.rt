// The statements that are a word alone.

ghost use Rattle.std.specs.Prelude.{◌≡◌};
ghost use Rattle.awk_program.specs.Jumps.{place_of, word_of};

use awk_text::place::Place;

/// A statement that is a word alone, with its place where a fault names it.
#[derive(Clone, Copy, PartialEq, Eq, Drop)]
pub enum Jump {
    Break,
    Continue,
    Next(Place),
    NextFile(Place),
}

impl Jump {
    /// The word.
    pub fn word(self) -> &'static str
        ensures { result.now ≡ word_of self }
    {
        match self {
            Jump::Break => "break",
            Jump::Continue => "continue",
            Jump::Next(_) => "next",
            Jump::NextFile(_) => "nextfile",
        }
    }

    /// Its place, where it has one.
    pub fn place(self) -> Option<Place>
        ensures { result ≡ place_of self }
    {
        match self {
            Jump::Break | Jump::Continue => None,
            Jump::Next(place) | Jump::NextFile(place) => Some(place),
        }
    }
}
