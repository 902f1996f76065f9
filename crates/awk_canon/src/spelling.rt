// How operators are spelled.

ghost use Rattle.std.specs.Prelude.{◌≡◌};
ghost use Rattle.awk_tree.specs.Canon as spec;
ghost use Rattle.awk_tree.specs.Terminals as terminals;

use awk_tree::{Arithmetic, Assignment, Builtin, Comparison, Redirect, Sign, Step};

pub fn arithmetic_text(operator: Arithmetic) -> &'static str
    ensures { result.now ≡ spec.arithmetic_text operator }
{
    match operator {
        Arithmetic::Add => "+",
        Arithmetic::Subtract => "-",
        Arithmetic::Multiply => "*",
        Arithmetic::Divide => "/",
        Arithmetic::Remainder => "%",
    }
}

pub fn sign_text(sign: Sign) -> &'static str
    ensures { result.now ≡ spec.prefix_text sign }
{
    match sign {
        Sign::Not => "!",
        Sign::Plus => "+",
        Sign::Minus => "-",
    }
}

pub fn step_text(step: Step) -> &'static str
    ensures { result.now ≡ terminals.step_text step }
{
    match step {
        Step::Increment => "++",
        Step::Decrement => "--",
    }
}

pub fn comparison_text(comparison: Comparison) -> &'static str
    ensures { result.now ≡ spec.comparison_text comparison }
{
    match comparison {
        Comparison::Less => "<",
        Comparison::LessOrEqual => "<=",
        Comparison::Equal => "==",
        Comparison::NotEqual => "!=",
        Comparison::Greater => ">",
        Comparison::GreaterOrEqual => ">=",
    }
}

pub fn match_text(is_unlike: bool) -> &'static str
    ensures { result.now ≡ spec.match_text is_unlike }
{
    if is_unlike { "!~" } else { "~" }
}

pub fn assignment_text(assignment: Assignment) -> &'static str
    ensures { result.now ≡ terminals.assignment_text assignment }
{
    match assignment {
        Assignment::Set => "=",
        Assignment::Add => "+=",
        Assignment::Subtract => "-=",
        Assignment::Multiply => "*=",
        Assignment::Divide => "/=",
        Assignment::Remainder => "%=",
        Assignment::Power => "^=",
    }
}

pub fn redirect_text(redirect: Redirect) -> &'static str
    ensures { result.now ≡ spec.redirect_text redirect }
{
    match redirect {
        Redirect::Write => ">",
        Redirect::Append => ">>",
        Redirect::Command => "|",
    }
}

pub fn substituting(is_all: bool) -> Builtin
    ensures { result ≡ terminals.substituting is_all }
{
    if is_all { Builtin::Gsub } else { Builtin::Sub }
}
