// The built-in functions whose arguments are plain values.

ghost use Rattle.std.specs.Prelude.{◌≡◌};
ghost use Rattle.awk_program.specs.Builtins.{word_of};

/// A built-in function whose arguments are plain values. Those that take a pattern or an array have forms of their own.
#[derive(Clone, Copy, PartialEq, Eq, Drop)]
pub enum Builtin {
    Atan2,
    Close,
    Cos,
    Exp,
    Fflush,
    Index,
    Int,
    Length,
    Log,
    Rand,
    Sin,
    Sprintf,
    Sqrt,
    Srand,
    Substr,
    System,
    Tolower,
    Toupper,
}

impl Builtin {
    /// The word that a script calls it by.
    pub fn word(self) -> &'static str
        ensures { result.now ≡ word_of self }
    {
        match self {
            Builtin::Atan2 => "atan2",
            Builtin::Close => "close",
            Builtin::Cos => "cos",
            Builtin::Exp => "exp",
            Builtin::Fflush => "fflush",
            Builtin::Index => "index",
            Builtin::Int => "int",
            Builtin::Length => "length",
            Builtin::Log => "log",
            Builtin::Rand => "rand",
            Builtin::Sin => "sin",
            Builtin::Sprintf => "sprintf",
            Builtin::Sqrt => "sqrt",
            Builtin::Srand => "srand",
            Builtin::Substr => "substr",
            Builtin::System => "system",
            Builtin::Tolower => "tolower",
            Builtin::Toupper => "toupper",
        }
    }
}
