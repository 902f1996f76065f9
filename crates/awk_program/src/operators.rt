// What the signs and words of an expression do.

/// `+`, `-`, `*`, `/`, `%` and `^`.
#[derive(Clone, Copy, PartialEq, Eq, Drop)]
pub enum Operator {
    Add,
    Subtract,
    Multiply,
    Divide,
    Remainder,
    Power,
}

/// The six comparisons.
#[derive(Clone, Copy, PartialEq, Eq, Drop)]
pub enum Comparison {
    Less,
    LessOrEqual,
    Equal,
    NotEqual,
    Greater,
    GreaterOrEqual,
}

/// `+` and `-` before an operand.
#[derive(Clone, Copy, PartialEq, Eq, Drop)]
pub enum Sign {
    Plus,
    Minus,
}

/// `++` and `--`.
#[derive(Clone, Copy, PartialEq, Eq, Drop)]
pub enum Step {
    Increment,
    Decrement,
}

/// Which number a step gives: the one from before it, as `x++`, or the one from behind it, as `++x`.
#[derive(Clone, Copy, PartialEq, Eq, Drop)]
pub enum StepValue {
    Before,
    Behind,
}

/// How many matches are replaced: the first one, as by sub, or all, as by gsub.
#[derive(Clone, Copy, PartialEq, Eq, Drop)]
pub enum Extent {
    First,
    All,
}

/// Where output goes.
#[derive(Clone, Copy, PartialEq, Eq, Drop)]
pub enum Redirect {
    /// `>`
    Write,
    /// `>>`
    Append,
    /// `|`
    Command,
}
