// What is read one level of nesting deeper.

/// An expression, or a part of one.
#[derive(Clone, Copy, Drop)]
pub enum Goal {
    /// An expression. The flag says that `>` outside parentheses is a redirection.
    Expr(bool),
    /// What stands after a sign, or on the right of `^`.
    Unary,
    /// What stands after `$`.
    Operand,
    /// What stands after `++` or `--`.
    Lvalue,
    /// What stands on the right of a getline's `<`.
    File,
}

/// Statements.
#[derive(Clone, Copy, Drop)]
pub enum Nested {
    /// The statements of a block, and its `}`.
    Braces,
    /// The body of `if`, `else`, `while`, `do` and `for`.
    Body,
}
