// What is told of a script.
use awk_text::octets::Octets;
use awk_text::place::Place;

/// What a hint is about.
#[derive(Clone, Copy, Drop)]
pub enum HintKind {
    /// `/` or `/=`, whose fraction is dropped.
    Division,
    /// A conversion of a constant format that shows a fraction, by its letter.
    Fraction(u8),
    /// `*` in a constant format.
    Star,
    /// `%c` of a constant above 255.
    WideCharacter,
    /// A constant below 1 as the start of `substr`.
    EarlyStart,
    /// RS set to a constant that is longer than a byte.
    LongSeparator,
    /// A name that means something to gawk.
    GawkName,
    /// `\` and this letter in an ERE, which gawk reads as an operator.
    GawkEscape(u8),
    /// A 0 directly before a name as `x1f`.
    HexNumber,
    /// A field compared with 0, where one that is not there is 0.
    UnsetField,
    /// `=` as a condition.
    Assignment,
    /// A variable that stands once in the script, where it is set.
    SetOnce,
    /// A variable that stands once in the script, where it is read.
    ReadOnce,
    /// A variable that is read more than once, and never set.
    OnlyRead,
    /// A function that is not called.
    Uncalled,
    /// A parameter that its function does not use.
    Unused,
}

/// What is told of a token of a script.
#[derive(Drop)]
pub struct Hint {
    /// The place of the token.
    pub place: Place,
    /// Its text.
    pub text: Octets,
    pub kind: HintKind,
}
