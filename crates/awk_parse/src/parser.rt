// Tokens are parsed as a script.

ghost use Rattle.std.specs.Prelude.{◌≡◌, IfOk, IfErr};
ghost use Rattle.awk_parse.specs.Scripts.{IsAgain, IsRefused, IsScript, IsSpelled, tree};
ghost use Rattle.awk_parse.specs.declared.script.Script as scripts;
ghost use Rattle.awk_tree.specs.Canon.{canon_script};

use crate::script::Script;
use awk_numbers::number::Numbers;
use awk_statements::{refusal, script};
use awk_tokens::{SyntaxError, Token};
use std::alloc::Global;

/// The script that the tokens spell ("Grammar" in POSIX.1-2017 XCU awk, with at most 200 levels of
/// nesting), with the constants of this profile, by which the tokens were read. Where they are the canonical spelling
/// of a script, it has the same tree, places aside.
///
/// Refused: S4 at a token that cannot stand there, or behind the last one, and S5 at a token that opens
/// a level too much, both only where the tokens spell no script; S6 at the first appearance of a name
/// that is used in two kinds, or at the word of a call with an expression in place of an array; S7 at a
/// function or a parameter that is not defined as it is used; S8 at a word outside the statements that
/// it belongs to; S9, without a place, where memory is refused. Where several of S6 to S8 stand, S8
/// comes before S7, and S7 before S6.
#[tactic(auto, using(crate::proofs::Making::spelled))]
pub fn parse(alloc: Global, numbers: Numbers, tokens: &[Token]) -> Result<Script, SyntaxError>
    ensures profile { IfOk result (λ script. script.numbers ≡ numbers) }
    ensures spelled { IfOk result (λ script. IsSpelled tokens.now script) }
    ensures refused { IfErr result (λ e. IsRefused tokens.now e) }
    ensures again { (s : scripts.Script) → IsScript s → tokens.now ≡ canon_script (tree s) → IsAgain s result }
{
    match script(alloc, tokens) {
        Err(fault) => Err(refusal(tokens, fault)),
        Ok(items) => match Script::of(alloc, numbers, items) {
            Err(flaw) => Err(flaw.refusal()),
            Ok(script) => Ok(script),
        },
    }
}
