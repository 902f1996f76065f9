// Why items that the grammar spells are no script.

ghost use Rattle.std.specs.Prelude.{◌≡◌};
ghost use Rattle.awk_parse.specs.Flaws as spec;

use awk_text::place::Place;
use awk_tokens::SyntaxError;
use std::alloc::AllocError;

/// Why the items of a script are refused, and where.
#[derive(Clone, Copy, Debug, PartialEq, Eq, Drop)]
pub enum Flaw {
    /// S9: memory was refused.
    Memory,
    /// S8: a word outside the statements that it belongs to.
    Word(Place),
    /// S7: a function or a parameter that is not defined as it is used.
    Function(Place),
    /// S6: a name that is used in two kinds, or an expression in place of an array.
    Kind(Place),
}

impl From<AllocError> for Flaw {
    ghost use Rattle.awk_parse.specs.declared.flaw.Flaw.TheVariants.{Memory};

    ghost from_gives = { λ _ e. e ≡ Memory };

    fn from(_: AllocError) -> Flaw {
        Flaw::Memory
    }
}

impl Flaw {
    /// The refusal of a script that has this flaw. Memory that is refused has no place.
    pub fn refusal(self) -> SyntaxError
        ensures { result ≡ spec.refusal self }
    {
        let (code, place) = match self {
            Flaw::Memory => (SyntaxError::MEMORY, Place { line: 0, column: 0 }),
            Flaw::Word(place) => (SyntaxError::WORD, place),
            Flaw::Function(place) => (SyntaxError::FUNCTION, place),
            Flaw::Kind(place) => (SyntaxError::KIND, place),
        };
        SyntaxError { code, place }
    }
}
