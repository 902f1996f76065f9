// How operators are written.

use awk_program::{Comparison, Extent, Operator, Redirect, Sign, Step, StepValue};

pub fn operator_text(operator: Operator) -> &'static str {
    match operator {
        Operator::Add => "+",
        Operator::Subtract => "-",
        Operator::Multiply => "*",
        Operator::Divide => "/",
        Operator::Remainder => "%",
        Operator::Power => "^",
    }
}

pub fn change_text(operator: Operator) -> &'static str {
    match operator {
        Operator::Add => "+=",
        Operator::Subtract => "-=",
        Operator::Multiply => "*=",
        Operator::Divide => "/=",
        Operator::Remainder => "%=",
        Operator::Power => "^=",
    }
}

pub fn step_text(step: Step, taken: StepValue) -> &'static str {
    match (step, taken) {
        (Step::Increment, StepValue::Before) => "post++",
        (Step::Increment, StepValue::Behind) => "pre++",
        (Step::Decrement, StepValue::Before) => "post--",
        (Step::Decrement, StepValue::Behind) => "pre--",
    }
}

pub fn sign_text(sign: Sign) -> &'static str {
    match sign {
        Sign::Plus => "+",
        Sign::Minus => "-",
    }
}

pub fn comparison_text(comparison: Comparison) -> &'static str {
    match comparison {
        Comparison::Less => "<",
        Comparison::LessOrEqual => "<=",
        Comparison::Equal => "==",
        Comparison::NotEqual => "!=",
        Comparison::Greater => ">",
        Comparison::GreaterOrEqual => ">=",
    }
}

pub fn extent_text(extent: Extent) -> &'static str {
    match extent {
        Extent::First => "sub",
        Extent::All => "gsub",
    }
}

pub fn redirect_text(redirect: Redirect) -> &'static str {
    match redirect {
        Redirect::Write => "to>",
        Redirect::Append => "to>>",
        Redirect::Command => "to|",
    }
}
