// Expressions of parts that are made already. A part that was refused refuses the whole.

ghost use Rattle.std.specs.Prelude.{◌≡◌, ℕ, IfOk, List};
ghost use Rattle.awk_lowering.specs.Made.{Is, AreAll, AreTerms, AreJoins, ArePipes, AreArguments, AreVariables};
ghost use Rattle.awk_lowering.specs.Made.{IsTarget, IsEre, IsVariable};
ghost use Rattle.awk_program.specs.Program as p;
ghost use Rattle.awk_program.specs.Program.{Expression, Reference, Ere, Arguments, expressions_of, terms_of, joins_of};
ghost use Rattle.awk_program.specs.View.{Names};
ghost use Rattle.awk_program.specs.declared.expressions.Term as term;
ghost use Rattle.awk_program.specs.declared.expressions.Joined as joined;

use crate::kept::{both, three};
use awk_program::{
    Argument, Builtin, Comparison, Expr, Extent, Joined, Pattern, Piped, Step, StepValue, Target,
    Term, Variable,
};
use awk_text::Memory;
use awk_text::place::Place;
use sqlite_items::{Boxed, Items};

/// What is read
pub fn read_of(target: Result<Target<Expr>, Memory>) -> Result<Expr, Memory>
    ensures { (t : Names) (a : Reference) → IsTarget t target a → Is t result (p.read a) }
{
    match target {
        Ok(target) => Ok(Expr::Read(target)),
        Err(refused) => Err(refused),
    }
}

/// `++` and `--`
pub fn step_of(
    place: Place,
    how: Step,
    taken: StepValue,
    target: Result<Target<Expr>, Memory>,
) -> Result<Expr, Memory>
    ensures { (t : Names) (a : Reference) → IsTarget t target a → Is t result (p.step place how taken a) }
{
    match target {
        Ok(target) => Ok(Expr::Step(place, how, taken, target)),
        Err(refused) => Err(refused),
    }
}

/// `! operand`
pub fn not_of(x: Result<Boxed<Expr>, Memory>) -> Result<Expr, Memory>
    ensures { (t : Names) (a : Expression) → Is t x a → Is t result (p.not a) }
{
    match x {
        Ok(x) => Ok(Expr::Not(x)),
        Err(refused) => Err(refused),
    }
}

/// A chain
pub fn chain_of(
    x: Result<Boxed<Expr>, Memory>,
    xs: Result<Items<Term<Expr>>, Memory>,
) -> Result<Expr, Memory>
    ensures { (t : Names) (a : Expression) (b : List (term.Term Expression)) → Is t x a → AreTerms t xs b →
        Is t result (p.chain a (terms_of b)) }
{
    match both(x, xs) {
        Ok((x, xs)) => Ok(Expr::Chain(x, xs)),
        Err(refused) => Err(refused),
    }
}

/// A concatenation
pub fn concat_of(
    x: Result<Boxed<Expr>, Memory>,
    xs: Result<Items<Joined<Expr>>, Memory>,
) -> Result<Expr, Memory>
    ensures { (t : Names) (a : Expression) (b : List (joined.Joined Expression)) → Is t x a → AreJoins t xs b →
        Is t result (p.concat a (joins_of b)) }
{
    match both(x, xs) {
        Ok((x, xs)) => Ok(Expr::Concat(x, xs)),
        Err(refused) => Err(refused),
    }
}

/// A comparison
pub fn compare_of(
    place: Place,
    how: Comparison,
    x: Result<Boxed<Expr>, Memory>,
    y: Result<Boxed<Expr>, Memory>,
) -> Result<Expr, Memory>
    ensures { (t : Names) (a : Expression) (b : Expression) → Is t x a → Is t y b →
        Is t result (p.compare place how a b) }
{
    match both(x, y) {
        Ok((x, y)) => Ok(Expr::Compare(place, how, x, y)),
        Err(refused) => Err(refused),
    }
}

/// `text ~ pattern`
pub fn match_of(
    place: Place,
    x: Result<Boxed<Expr>, Memory>,
    y: Result<Pattern<Expr>, Memory>,
) -> Result<Expr, Memory>
    ensures { (t : Names) (a : Expression) (b : Ere) → Is t x a → IsEre t y b → Is t result (p.matched place a b) }
{
    match both(x, y) {
        Ok((x, y)) => Ok(Expr::Match(place, x, y)),
        Err(refused) => Err(refused),
    }
}

/// `key in array`
pub fn member_of(
    x: Result<Boxed<Expr>, Memory>,
    vs: Result<Items<Variable>, Memory>,
) -> Result<Expr, Memory>
    ensures { (t : Names) (a : Expression) (b : List p.Variable) → Is t x a → AreVariables t vs b →
        Is t result (p.member a b) }
{
    match both(x, vs) {
        Ok((x, vs)) => Ok(Expr::In(x, vs)),
        Err(refused) => Err(refused),
    }
}

/// `( list ) in array`
pub fn group_of(
    place: Place,
    xs: Result<Items<Expr>, Memory>,
    vs: Result<Items<Variable>, Memory>,
) -> Result<Expr, Memory>
    ensures { (t : Names) (a : List Expression) (b : List p.Variable) → AreAll t xs a → AreVariables t vs b →
        Is t result (p.group place (expressions_of a) b) }
{
    match both(xs, vs) {
        Ok((xs, vs)) => Ok(Expr::Group(place, xs, vs)),
        Err(refused) => Err(refused),
    }
}

/// A chain of `&&`
pub fn and_of(
    x: Result<Boxed<Expr>, Memory>,
    xs: Result<Items<Expr>, Memory>,
) -> Result<Expr, Memory>
    ensures { (t : Names) (a : Expression) (b : List Expression) → Is t x a → AreAll t xs b →
        Is t result (p.and a (expressions_of b)) }
{
    match both(x, xs) {
        Ok((x, xs)) => Ok(Expr::And(x, xs)),
        Err(refused) => Err(refused),
    }
}

/// A chain of `||`
pub fn or_of(
    x: Result<Boxed<Expr>, Memory>,
    xs: Result<Items<Expr>, Memory>,
) -> Result<Expr, Memory>
    ensures { (t : Names) (a : Expression) (b : List Expression) → Is t x a → AreAll t xs b →
        Is t result (p.or a (expressions_of b)) }
{
    match both(x, xs) {
        Ok((x, xs)) => Ok(Expr::Or(x, xs)),
        Err(refused) => Err(refused),
    }
}

/// `test ? then : else`
pub fn choose_of(
    x: Result<Boxed<Expr>, Memory>,
    y: Result<Boxed<Expr>, Memory>,
    z: Result<Boxed<Expr>, Memory>,
) -> Result<Expr, Memory>
    ensures { (t : Names) (a : Expression) (b : Expression) (d : Expression) → Is t x a → Is t y b → Is t z d →
        Is t result (p.choose a b d) }
{
    match three(x, y, z) {
        Ok((x, y, z)) => Ok(Expr::Choice(x, y, z)),
        Err(refused) => Err(refused),
    }
}

/// `NAME ( list )`
pub fn call_of(
    place: Place,
    f: Result<u32, Memory>,
    xs: Result<Items<Argument<Expr>>, Memory>,
) -> Result<Expr, Memory>
    ensures { (t : Names) (a : ℕ) (b : Arguments) → IfOk f (λ n. n ≡ a) → AreArguments t xs b →
        Is t result (p.call place a b) }
{
    match both(f, xs) {
        Ok((f, xs)) => Ok(Expr::Call(place, f, xs)),
        Err(refused) => Err(refused),
    }
}

/// `getline target`
pub fn getline_of(place: Place, target: Result<Target<Expr>, Memory>) -> Result<Expr, Memory>
    ensures { (t : Names) (a : Reference) → IsTarget t target a → Is t result (p.getline place a) }
{
    match target {
        Ok(target) => Ok(Expr::Getline(place, target)),
        Err(refused) => Err(refused),
    }
}

/// `getline target < file`
pub fn getline_file_of(
    place: Place,
    target: Result<Target<Expr>, Memory>,
    x: Result<Boxed<Expr>, Memory>,
) -> Result<Expr, Memory>
    ensures { (t : Names) (a : Reference) (b : Expression) → IsTarget t target a → Is t x b →
        Is t result (p.getline_file place a b) }
{
    match both(target, x) {
        Ok((target, x)) => Ok(Expr::GetlineFile(place, target, x)),
        Err(refused) => Err(refused),
    }
}

/// `command | getline target`
pub fn pipe_of(
    x: Result<Boxed<Expr>, Memory>,
    xs: Result<Items<Piped<Expr>>, Memory>,
) -> Result<Expr, Memory>
    ensures { (t : Names) (a : Expression) (b : p.Pipes) → Is t x a → ArePipes t xs b → Is t result (p.pipe a b) }
{
    match both(x, xs) {
        Ok((x, xs)) => Ok(Expr::Pipe(x, xs)),
        Err(refused) => Err(refused),
    }
}

/// A built-in function with its arguments
pub fn builtin_of(
    place: Place,
    which: Builtin,
    xs: Result<Items<Expr>, Memory>,
) -> Result<Expr, Memory>
    ensures { (t : Names) (a : List Expression) → AreAll t xs a →
        Is t result (p.builtin place which (expressions_of a)) }
{
    match xs {
        Ok(xs) => Ok(Expr::Builtin(place, which, xs)),
        Err(refused) => Err(refused),
    }
}

/// `length ( array )`
pub fn count_of(v: Result<Variable, Memory>) -> Result<Expr, Memory>
    ensures { (t : Names) (a : p.Variable) → IsVariable t v a → Is t result (p.count a) }
{
    match v {
        Ok(v) => Ok(Expr::Count(v)),
        Err(refused) => Err(refused),
    }
}

/// `match ( text , pattern )`
pub fn locate_of(
    place: Place,
    x: Result<Boxed<Expr>, Memory>,
    y: Result<Pattern<Expr>, Memory>,
) -> Result<Expr, Memory>
    ensures { (t : Names) (a : Expression) (b : Ere) → Is t x a → IsEre t y b → Is t result (p.locate place a b) }
{
    match both(x, y) {
        Ok((x, y)) => Ok(Expr::Locate(place, x, y)),
        Err(refused) => Err(refused),
    }
}

/// `split ( text , array , separator )`
pub fn split_of(
    place: Place,
    x: Result<Boxed<Expr>, Memory>,
    at: Place,
    v: Result<Variable, Memory>,
    y: Result<Pattern<Expr>, Memory>,
) -> Result<Expr, Memory>
    ensures { (t : Names) (a : Expression) (b : p.Variable) (d : Ere) → Is t x a → IsVariable t v b → IsEre t y d →
        Is t result (p.split place a at b d) }
{
    match three(x, v, y) {
        Ok((x, v, y)) => Ok(Expr::Split(place, x, at, v, y)),
        Err(refused) => Err(refused),
    }
}

/// `sub ( pattern , with , target )`, and `gsub`
pub fn substitute_of(
    place: Place,
    extent: Extent,
    x: Result<Pattern<Expr>, Memory>,
    y: Result<Boxed<Expr>, Memory>,
    target: Result<Target<Expr>, Memory>,
) -> Result<Expr, Memory>
    ensures { (t : Names) (a : Ere) (b : Expression) (d : Reference) → IsEre t x a → Is t y b → IsTarget t target d →
        Is t result (p.substitute place extent a b d) }
{
    match three(x, y, target) {
        Ok((x, y, target)) => Ok(Expr::Substitute(place, extent, x, y, target)),
        Err(refused) => Err(refused),
    }
}
