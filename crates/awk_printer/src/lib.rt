//! An awk program in the form that runs, printed for people who debug and for tests.
//!
//! The text shows what a script was made into: which variable or parameter a name is, how operands
//! are grouped, which constants there are, and the places in the script that the program keeps. No contract
//! says so, and awkbox shows the text nowhere: rows compare it with what was worked by hand.
//!
//! A line each has the variables of the script's own, with `[]` behind an array; the functions, with
//! their number, their name and of each parameter `value` or `array`; the actions of `BEGIN`; the
//! rules, with `(always)`, `(when test)` or `(from-to first last)`; and the actions of `END`.
//!
//! Behind that stand statements, one space before each piece. A statement and an expression is
//! `(head part part ..)`, and most heads are the word or the operator that the script has there. The
//! others, and the leaves, are:
//!
//! - `12`, `"text"` and `/ere/`: constants. In a text `\` stands before `\` and `"`, and a newline is
//!   `\n`; an ERE is as a script spells it.
//! - `x` and `#0`: a variable by its name, and a parameter by its place, the first being 0.
//! - `3:14`: the place, line and column, of what stands before it or right behind it.
//! - `(record~ 1:1 /ere/)`: an ERE that is matched with `$0`. Where a pattern is wanted, as behind
//!   `~`, an ERE is `1:1 /ere/` by itself.
//! - `([] 1:1 a i j)` and `($ 1:1 x)`: an element and a field.
//! - `(pre++ 1:1 x)`, `(post++ 1:1 x)`, and the same with `--`: steps that give the new number, and the old.
//! - `(chain x + 1:3 y - 1:7 z)`: operands of one level from the left, each later one behind its
//!   operator and that operator's place. `(concat x 1:3 y)`: texts, each later one behind its place.
//! - `(text 1:1 x)`: an operand of which a text is wanted, of doubles, with the place of the form that wants it.
//! - `(in 1:1 (list i j) a)`: a list of keys that is looked for in an array; without a list it has no place.
//! - `(call 1:1 0 x (array a) (nothing))`: a call of the function of that number, with a value, an
//!   array, and an array that the function never reads.
//! - `(getline< 1:1 x file)` and `(|getline command 1:1 x)`: a line of a file, and of a command.
//! - `(substr 1:1 x i j)`: a built-in function of plain values, with its arguments; `(length 1:1 x)` is of a text,
//!   `(count a)` of an array. `(delete-all a)` is of all its elements.
//! - `(to> 1:1 file)`, `(to>> 1:1 file)` and `(to| 1:1 command)`: where a `print` goes.
//! - `(for - - - body)` and `(exit 1:1 -)`: `-` stands where an expression is absent. In `for` these
//!   are the start, the test and the step.
//! - `(for-in 1:1 key array body)` and `(block ..)`.
#![tactic(auto)]

mod context;
mod expressions;
mod page;
mod pieces;
mod programs;
mod statements;
mod words;

pub use programs::printed;
