// How scripts are spelled.

ghost use Rattle.std.specs.Prelude.{◌≡◌, [], ◌∷◌, ◌++◌, IfOk, OnOk, codes, map};
ghost use Rattle.std.specs.List.{flat_map};
ghost use Rattle.awk_tree.specs.Canon as spec;
ghost use Rattle.awk_tree.specs.Terminals as terminals;
ghost use Rattle.awk_tree.specs.View.{view_statement, view_pattern, view_item};

use crate::expressions::{between, expression};
use crate::statements::action;
use crate::tokens::{push_keyword, push_name, push_sign};
use awk_text::Memory;
use awk_tokens::Token;
use awk_tree::{Function, Item, Name, Pattern, Script, Statement};
use std::alloc::Global;

fn condition(alloc: Global, pattern: &Pattern, out: &mut Vec<Token>) -> Result<(), Memory>
    ensures { OnOk result (out.new.items ≡ out.old.items ++ spec.canon_condition (view_pattern pattern.now)) }
{
    match pattern {
        Pattern::Expr(x) => expression(alloc, x, out),
        Pattern::Range(x, y) => between(alloc, x, ",", y, out),
    }
}

/// `, NAME`
fn next_name(alloc: Global, name: &Name, out: &mut Vec<Token>) -> Result<(), Memory>
    ensures { OnOk result (out.new.items ≡ out.old.items ++ spec.canon_names (name.now ∷ [])) }
{
    push_sign(alloc, ",", out)?;
    push_name(alloc, name, out)
}

/// Names with a comma before each.
fn names(alloc: Global, ns: &[Name], out: &mut Vec<Token>) -> Result<(), Memory>
    ensures { OnOk result (out.new.items ≡ out.old.items ++ spec.canon_names ns.now) }
{
    for name in ns {
        next_name(alloc, name, out)?;
    }
    Ok(())
}

/// Names with commas between.
fn params(alloc: Global, ns: &[Name], out: &mut Vec<Token>) -> Result<(), Memory>
    ensures { OnOk result (out.new.items ≡ out.old.items ++ spec.canon_params ns.now) }
{
    match ns {
        [] => Ok(()),
        [first, rest @ ..] => {
            push_name(alloc, first, out)?;
            names(alloc, rest, out)
        }
    }
}

fn push_line_end(alloc: Global, out: &mut Vec<Token>) -> Result<(), Memory>
    ensures { OnOk result (out.new.items ≡ out.old.items ++ spec.line_end) }
{
    push_sign(alloc, "\n", out)
}

/// An action at the end of an item.
fn last_action(alloc: Global, body: &[Statement], out: &mut Vec<Token>) -> Result<(), Memory>
    ensures { OnOk result
        (out.new.items ≡ out.old.items ++ (spec.canon_action (map view_statement body.now) ++ spec.line_end)) }
{
    action(alloc, body, out)?;
    push_line_end(alloc, out)
}

/// `BEGIN` or `END`, and its action.
fn special(
    alloc: Global,
    text: &str,
    body: &[Statement],
    out: &mut Vec<Token>,
) -> Result<(), Memory>
    ensures { OnOk result
        (out.new.items ≡ out.old.items ++ terminals.keyword text.now
        ∷ (spec.canon_action (map view_statement body.now) ++ spec.line_end)) }
{
    push_keyword(alloc, text, out)?;
    last_action(alloc, body, out)
}

fn shown(alloc: Global, pattern: &Pattern, out: &mut Vec<Token>) -> Result<(), Memory>
    ensures { OnOk result
        (out.new.items ≡ out.old.items ++ (spec.canon_condition (view_pattern pattern.now) ++ spec.line_end)) }
{
    condition(alloc, pattern, out)?;
    push_line_end(alloc, out)
}

fn rule(
    alloc: Global,
    pattern: &Pattern,
    body: &[Statement],
    out: &mut Vec<Token>,
) -> Result<(), Memory>
    ensures { OnOk result
        (out.new.items ≡ out.old.items
        ++ (spec.canon_condition (view_pattern pattern.now)
        ++ (spec.canon_action (map view_statement body.now) ++ spec.line_end))) }
{
    condition(alloc, pattern, out)?;
    last_action(alloc, body, out)
}

/// `function NAME ( params )`
fn heading(alloc: Global, name: &Name, ns: &[Name], out: &mut Vec<Token>) -> Result<(), Memory>
    ensures { OnOk result
        (out.new.items ≡ out.old.items ++ terminals.keyword (codes "function")
        ∷ (spec.word name.now
        ∷ (terminals.sign (codes "(") ∷ (spec.canon_params ns.now ++ terminals.sign (codes ")") ∷ [])))) }
{
    push_keyword(alloc, "function", out)?;
    push_name(alloc, name, out)?;
    push_sign(alloc, "(", out)?;
    params(alloc, ns, out)?;
    push_sign(alloc, ")", out)
}

fn function(alloc: Global, f: &Function, out: &mut Vec<Token>) -> Result<(), Memory>
    ensures { OnOk result
        (out.new.items ≡ out.old.items ++ terminals.keyword (codes "function")
        ∷ (spec.word f.now.name
        ∷ (terminals.sign (codes "(")
        ∷ (spec.canon_params f.now.params ++ terminals.sign (codes ")")
        ∷ (spec.canon_action (map view_statement f.now.body) ++ spec.line_end))))) }
{
    heading(alloc, &f.name, f.params.as_slice(), out)?;
    last_action(alloc, f.body.as_slice(), out)
}

fn entry(alloc: Global, item: &Item, out: &mut Vec<Token>) -> Result<(), Memory>
    ensures { OnOk result (out.new.items ≡ out.old.items ++ spec.canon_entry (view_item item.now)) }
{
    match item {
        Item::Begin(body) => special(alloc, "BEGIN", body.as_slice(), out),
        Item::End(body) => special(alloc, "END", body.as_slice(), out),
        Item::Always(body) => last_action(alloc, body.as_slice(), out),
        Item::Shown(pattern) => shown(alloc, pattern, out),
        Item::Rule(pattern, body) => rule(alloc, pattern, body.as_slice(), out),
        Item::Function(f) => function(alloc, f, out),
    }
}

fn entries(alloc: Global, items: &[Item], out: &mut Vec<Token>) -> Result<(), Memory>
    ensures { OnOk result (out.new.items ≡ out.old.items ++ flat_map spec.canon_entry (map view_item items.now)) }
{
    for item in items {
        entry(alloc, item, out)?;
    }
    Ok(())
}

/// The canonical spelling of a script: its tokens, all at the place 0:0, or `Memory` where memory
/// is refused. "Grammar" in POSIX.1-2017 XCU awk reads them as the same script again.
#[tactic(auto, unfolding(awk_tree::specs::Canon::canon_script))]
pub fn canon(alloc: Global, script: &Script) -> Result<Vec<Token>, Memory>
    ensures { IfOk result (λ tokens. tokens.items ≡ spec.canon_script (map view_item script.now.items)) }
{
    let mut tokens = Vec::new(alloc);
    entries(alloc, script.items(), &mut tokens)?;
    Ok(tokens)
}
