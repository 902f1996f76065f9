// What a terminal is to a rule of expressions.

ghost use Rattle.std.specs.Prelude.{◌≡◌};
ghost use Rattle.awk_expressions.specs.Stops as stops;
ghost use Rattle.awk_tree.specs.Looks as looks;
ghost use Rattle.awk_tree.specs.Expressions as spec;

use awk_tree::{Arithmetic, Assignment, Comparison, Sign, Step, Terminal};

/// Whether no chain of operands, from `*` up to `in`, goes on with this token, as far as it is told
/// at once.
pub fn ends_chains(kind: Terminal) -> bool
    ensures { result ≡ stops.ends_chains kind }
{
    matches!(
        kind,
        Terminal::End
            | Terminal::CloseParen
            | Terminal::CloseBracket
            | Terminal::Comma
            | Terminal::Assign(_)
            | Terminal::And
            | Terminal::Or
            | Terminal::Question
            | Terminal::Colon
    )
}

/// Whether no expression goes on with this token, as far as it is told at once.
pub fn ends_expression(kind: Terminal) -> bool
    ensures { result ≡ stops.ends_expression kind }
{
    matches!(
        kind,
        Terminal::End
            | Terminal::CloseParen
            | Terminal::CloseBracket
            | Terminal::Comma
            | Terminal::Colon
    )
}

pub fn sign(kind: Terminal) -> Option<Sign>
    ensures { result ≡ looks.sign kind }
{
    match kind {
        Terminal::Not => Some(Sign::Not),
        Terminal::Plus => Some(Sign::Plus),
        Terminal::Minus => Some(Sign::Minus),
        _ => None,
    }
}

pub fn step(kind: Terminal) -> Option<Step>
    ensures { result ≡ looks.step kind }
{
    match kind {
        Terminal::Step(which) => Some(which),
        _ => None,
    }
}

pub fn is_factor_sign(kind: Terminal) -> bool
    ensures { result ≡ looks.is_factor_sign kind }
{
    matches!(kind, Terminal::Star | Terminal::Slash | Terminal::Percent)
}

pub fn is_term_sign(kind: Terminal) -> bool
    ensures { result ≡ looks.is_term_sign kind }
{
    matches!(kind, Terminal::Plus | Terminal::Minus)
}

pub fn arithmetic_of(kind: Terminal) -> Arithmetic
    ensures { result ≡ looks.arithmetic_of kind }
{
    match kind {
        Terminal::Star => Arithmetic::Multiply,
        Terminal::Slash => Arithmetic::Divide,
        Terminal::Percent => Arithmetic::Remainder,
        Terminal::Minus => Arithmetic::Subtract,
        _ => Arithmetic::Add,
    }
}

/// Whether a later operand of a concatenation begins so: with no `+` and no `-`.
pub fn begins_part(kind: Terminal) -> bool
    ensures { result ≡ looks.begins_part kind }
{
    matches!(
        kind,
        Terminal::Number
            | Terminal::Quoted
            | Terminal::Pattern
            | Terminal::Name
            | Terminal::CallName
            | Terminal::Builtin(_)
            | Terminal::Dollar
            | Terminal::Not
            | Terminal::OpenParen
            | Terminal::Step(_)
            | Terminal::Getline
    )
}

pub fn comparison(in_print: bool, kind: Terminal) -> Option<Comparison>
    ensures { result ≡ looks.comparison in_print kind }
{
    match kind {
        Terminal::Less => Some(Comparison::Less),
        Terminal::LessOrEqual => Some(Comparison::LessOrEqual),
        Terminal::Equal => Some(Comparison::Equal),
        Terminal::NotEqual => Some(Comparison::NotEqual),
        Terminal::Greater => {
            if in_print {
                None
            } else {
                Some(Comparison::Greater)
            }
        }
        Terminal::GreaterOrEqual => Some(Comparison::GreaterOrEqual),
        _ => None,
    }
}

pub fn matching(kind: Terminal) -> Option<bool>
    ensures { result ≡ looks.matching kind }
{
    match kind {
        Terminal::Tilde => Some(false),
        Terminal::NotTilde => Some(true),
        _ => None,
    }
}

pub fn assignment(kind: Terminal) -> Option<Assignment>
    ensures { result ≡ looks.assignment kind }
{
    match kind {
        Terminal::Assign(how) => Some(how),
        _ => None,
    }
}
