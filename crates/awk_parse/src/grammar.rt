//! The grammar of the language as a relation, and its laws: the rules read what is spelled, and that
//! alone, so tokens spell one tree at most; and what is read is read again from its canonical spelling.
//!
//! specs/Spells.antt is the grammar of POSIX.1-2017 XCU awk ("Grammar"), a case for each form of each of its lines.
//! The functions do nothing: each has a law as its contract.

ghost use Rattle.awk_parse.specs.Laws.{ExpressionsAreSpelled, ExpressionsAreReadAgain, SimpleStatementsAreSpelled};
ghost use Rattle.awk_parse.specs.Laws.{SimpleStatementsAreReadAgain, ScriptsAreWhole, ScriptsAreSpelled};
ghost use Rattle.awk_parse.specs.Laws.{ScriptsAreReadAgain, ExpressionsAreRead, SimpleStatementsAreRead};
ghost use Rattle.awk_parse.specs.Laws.{ScriptsAreRead, ExpressionsHaveOneTree, ScriptsHaveOneTree};
ghost use Rattle.awk_parse.specs.Laws.{ScriptsOfWholeAreRead};

/// Each list of tokens that the rules read as an expression is an expression by the grammar, with
/// at most 200 levels of nesting, and its tree is the one that they spell. The canonical spelling
/// of such a tree is read as the same tree, places aside.
#[tactic(auto, using(crate::proofs::Laws::expressions_are_spelled, crate::proofs::Laws::expressions_are_read_again))]
pub fn expressions()
    ensures spelled { ExpressionsAreSpelled }
    ensures again { ExpressionsAreReadAgain }
{}

/// The same of simple statements at level 0: those from an expression to `return` in the grammar.
/// The canonical spelling is read again up to the `;` that ends it.
#[tactic(auto, using(crate::proofs::Laws::simple_statements_are_spelled, crate::proofs::Laws::simple_statements_are_read_again))]
pub fn simple_statements()
    ensures spelled { SimpleStatementsAreSpelled }
    ensures again { SimpleStatementsAreReadAgain }
{}

/// Tokens that the rules read as a script are all of them a script by the grammar, and the items are
/// those that they spell. The canonical spelling of the items of a script is read as the same
/// items, places aside.
#[tactic(auto, using(crate::proofs::Laws::scripts_are_whole, crate::proofs::Laws::scripts_are_spelled, crate::proofs::Laws::scripts_are_read_again))]
pub fn scripts()
    ensures whole { ScriptsAreWhole }
    ensures spelled { ScriptsAreSpelled }
    ensures again { ScriptsAreReadAgain }
{}

/// The rules read all that the grammar spells with at most 200 levels of nesting: an expression, a simple statement
/// where it ends, a script. So they refuse tokens only where these spell nothing.
#[tactic(auto, using(crate::proofs::Laws::expressions_are_read, crate::proofs::Laws::simple_statements_are_read, crate::proofs::Laws::scripts_are_read))]
pub fn all_read()
    ensures expressions { ExpressionsAreRead }
    ensures simple_statements { SimpleStatementsAreRead }
    ensures scripts { ScriptsAreRead }
{}

/// Tokens spell one expression at most, and one script at most.
#[tactic(auto, using(crate::proofs::Laws::expressions_have_one_tree, crate::proofs::Laws::scripts_have_one_tree))]
pub fn one_tree()
    ensures expressions { ExpressionsHaveOneTree }
    ensures scripts { ScriptsHaveOneTree }
{}

/// A text that profile whole reads as a script is read as the same script in profile double: as the same tokens, which
/// spell one script at most.
#[tactic(auto, using(crate::proofs::Laws::scripts_of_whole_are_read))]
pub fn restriction()
    ensures { ScriptsOfWholeAreRead }
{}
