// The kinds of tokens.

/// What a token is, in the terms of the grammar of POSIX.1-2017 XCU awk.
#[derive(Clone, Copy, PartialEq, Eq, Drop)]
pub enum TokenKind {
    /// NUMBER: decimal digits.
    Number,
    /// STRING: between double quotes.
    Quoted,
    /// ERE: between slashes, where an operand may begin.
    Pattern,
    /// A word of the grammar, such as `BEGIN` or `while`. `func` stands for `function`.
    Keyword,
    /// The word of a built-in function, such as `length`.
    Builtin,
    /// Of whole numbers, the word of a built-in function that only doubles have, such as `sin`.
    Refused,
    /// NAME: a letter or `_`, then letters, digits and `_`, and no word of the three kinds above.
    Name,
    /// FUNC_NAME: such a name directly followed by `(`, which is a token of its own.
    CallName,
    /// A sign of one or two bytes, the newline among them.
    Sign,
}
