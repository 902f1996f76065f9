// Programs, a line each for the variables, a function, an action and a rule.

use crate::context::Printing;
use crate::expressions::expression;
use crate::page::Page;
use crate::pieces::{close, open, ordinal, text, word};
use crate::statements::action;
use awk_program::{Function, GlobalName, Program, Rule, Statement, When};
use awk_text::Memory;
use sqlite_items::Items;
use std::alloc::{AllocError, Global};

/// How many variables awk itself has.
const OWN: usize = 16;

fn declared(name: &GlobalName, out: &mut Page) {
    word(name.text.bytes(), out);
    if name.is_array {
        text("[]", out)
    }
}

fn all_declared(names: &[GlobalName], out: &mut Page) {
    for name in names {
        declared(name, out);
    }
}

fn variables(names: &[GlobalName], out: &mut Page) {
    text("variables", out);
    all_declared(names.get(OWN..).unwrap_or(&[]), out);
    text("\n", out)
}

fn flagged(is_array: bool, out: &mut Page) {
    text(if is_array { " array" } else { " value" }, out)
}

fn all_flagged(flags: &[bool], out: &mut Page) {
    for is_array in flags {
        flagged(*is_array, out);
    }
}

fn parameters(flags: &[bool], out: &mut Page) {
    open("parameters", out);
    all_flagged(flags, out);
    close(out)
}

fn function(context: Printing<'_>, n: usize, f: &Function, out: &mut Page) {
    text("function", out);
    ordinal(n, out);
    word(f.name.bytes(), out);
    parameters(f.parameters.as_slice(), out);
    action(context, f.body.as_slice(), out)
}

fn functions(context: Printing<'_>, fs: &[Function], out: &mut Page) {
    for (n, f) in fs.iter().enumerate() {
        function(context, n, f, out);
    }
}

fn begin(context: Printing<'_>, xs: &[Statement], out: &mut Page) {
    text("BEGIN", out);
    action(context, xs, out)
}

fn begins(context: Printing<'_>, bodies: &[Items<Statement>], out: &mut Page) {
    for xs in bodies {
        begin(context, xs.as_slice(), out);
    }
}

fn end(context: Printing<'_>, xs: &[Statement], out: &mut Page) {
    text("END", out);
    action(context, xs, out)
}

fn ends(context: Printing<'_>, bodies: &[Items<Statement>], out: &mut Page) {
    for xs in bodies {
        end(context, xs.as_slice(), out);
    }
}

fn when(context: Printing<'_>, x: &When, out: &mut Page) {
    match x {
        When::Always => {
            open("always", out);
            close(out)
        }
        When::Holds(x) => {
            open("when", out);
            expression(context, x, out);
            close(out)
        }
        When::Range(x, y) => {
            open("from-to", out);
            expression(context, x, out);
            expression(context, y, out);
            close(out)
        }
    }
}

fn rule(context: Printing<'_>, r: &Rule, out: &mut Page) {
    text("rule", out);
    when(context, &r.when, out);
    action(context, r.action.as_slice(), out)
}

fn rules(context: Printing<'_>, rs: &[Rule], out: &mut Page) {
    for r in rs {
        rule(context, r, out);
    }
}

/// The text of a program, or `Memory` where memory is refused. More levels of nesting than a u32 counts would be
/// refused so too; no memory has room for them.
pub fn printed(alloc: Global, program: &Program) -> Result<Vec<u8>, Memory> {
    let names = program.variables.as_slice();
    let context = Printing::of(names);
    let mut out = Page {
        text: Vec::new(alloc),
        is_cut: false,
    };
    variables(names, &mut out);
    functions(context, program.functions.as_slice(), &mut out);
    begins(context, program.begin.as_slice(), &mut out);
    rules(context, program.rules.as_slice(), &mut out);
    ends(context, program.end.as_slice(), &mut out);
    let Page { text, is_cut } = out;
    if is_cut { Err(AllocError) } else { Ok(text) }
}
