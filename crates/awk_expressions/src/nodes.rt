// Nodes of the tree.

ghost use Rattle.std.specs.Prelude.{◌≡◌, [], ◌∷◌, map, IfOk, option_map};
ghost use Rattle.awk_tree.specs.Looks as looks;
ghost use Rattle.awk_tree.specs.Expressions as spec;
ghost use Rattle.awk_tree.specs.Tree as tree;
ghost use Rattle.awk_tree.specs.Tree.{perhaps_of};
ghost use Rattle.awk_tree.specs.View.{view, view_term, view_piped};

use awk_text::octets::Octets;
use awk_text::place::Place;
use awk_tokens::Token;
use awk_tree::{Assignment, Comparison, Expr, Member, Name, Piped, Sign, Step, Term};
use sqlite_items::{Boxed, Items};
use std::alloc::{AllocError, Global};

/// The text of a token.
pub fn text_of(alloc: Global, token: &Token) -> Result<Octets, AllocError>
    ensures { IfOk result (λ text. text ≡ token.now.text) }
{
    token.text.copy(alloc)
}

/// The name that stands there.
pub fn name_of(alloc: Global, token: &Token) -> Result<Name, AllocError>
    ensures { IfOk result (λ n. n ≡ looks.name_of token.now) }
{
    Ok(Name {
        text: token.text.copy(alloc)?,
        place: token.place,
    })
}

/// An empty list with room for so many. A list that grows by itself takes room for four at once.
fn room<T: Drop>(alloc: Global, count: usize) -> Result<Items<T>, AllocError>
    ensures { IfOk result (λ all. all ≡ []) }
{
    Ok(Items::from_vec(Vec::with_capacity(alloc, count)?))
}

/// The first and the others.
pub fn joined<T: Drop>(alloc: Global, first: T, more: Items<T>) -> Result<Items<T>, AllocError>
    ensures { IfOk result (λ all. all ≡ first ∷ more) }
{
    let mut all = room(alloc, more.len().saturating_add(1))?;
    all.push(first)?;
    all.append(more)?;
    Ok(all)
}

/// What is in the box, where there is one.
pub fn unboxed<T: Drop>(x: Option<Boxed<T>>) -> Option<T>
    ensures { result ≡ x }
{
    match x {
        None => None,
        Some(x) => Some(x.into_inner()),
    }
}

#[tactic(auto, using(awk_tree::proofs::Views::views))]
pub fn field(alloc: Global, place: Place, x: Boxed<Expr>) -> Result<Boxed<Expr>, AllocError>
    ensures { IfOk result (λ e. view e ≡ tree.field place (view x)) }
{
    Boxed::new(alloc, Expr::Field(place, x))
}

#[tactic(auto, using(awk_tree::proofs::Views::views))]
pub fn paren(alloc: Global, place: Place, x: Boxed<Expr>) -> Result<Boxed<Expr>, AllocError>
    ensures { IfOk result (λ e. view e ≡ tree.paren place (view x)) }
{
    Boxed::new(alloc, Expr::Paren(place, x))
}

#[tactic(auto, using(awk_tree::proofs::Views::views))]
pub fn before(
    alloc: Global,
    place: Place,
    step: Step,
    x: Boxed<Expr>,
) -> Result<Boxed<Expr>, AllocError>
    ensures { IfOk result (λ e. view e ≡ tree.before place step (view x)) }
{
    Boxed::new(alloc, Expr::Before(place, step, x))
}

#[tactic(auto, using(awk_tree::proofs::Views::views))]
pub fn after(
    alloc: Global,
    x: Boxed<Expr>,
    place: Place,
    step: Step,
) -> Result<Boxed<Expr>, AllocError>
    ensures { IfOk result (λ e. view e ≡ tree.after (view x) place step) }
{
    Boxed::new(alloc, Expr::After(x, place, step))
}

#[tactic(auto, using(awk_tree::proofs::Views::views))]
pub fn signed(
    alloc: Global,
    place: Place,
    sign: Sign,
    x: Boxed<Expr>,
) -> Result<Boxed<Expr>, AllocError>
    ensures { IfOk result (λ e. view e ≡ tree.signed place sign (view x)) }
{
    Boxed::new(alloc, Expr::Signed(place, sign, x))
}

#[tactic(auto, using(awk_tree::proofs::Views::views))]
pub fn power(
    alloc: Global,
    a: Boxed<Expr>,
    place: Place,
    b: Boxed<Expr>,
) -> Result<Boxed<Expr>, AllocError>
    ensures { IfOk result (λ e. view e ≡ tree.power (view a) place (view b)) }
{
    Boxed::new(alloc, Expr::Power(a, place, b))
}

#[tactic(auto, using(awk_tree::proofs::Views::views))]
pub fn compare(
    alloc: Global,
    a: Boxed<Expr>,
    place: Place,
    how: Comparison,
    b: Boxed<Expr>,
) -> Result<Boxed<Expr>, AllocError>
    ensures { IfOk result (λ e. view e ≡ tree.compare (view a) place how (view b)) }
{
    Boxed::new(alloc, Expr::Compare(a, place, how, b))
}

#[tactic(auto, using(awk_tree::proofs::Views::views))]
pub fn matched(
    alloc: Global,
    a: Boxed<Expr>,
    place: Place,
    unlike: bool,
    b: Boxed<Expr>,
) -> Result<Boxed<Expr>, AllocError>
    ensures { IfOk result (λ e. view e ≡ tree.matched (view a) place unlike (view b)) }
{
    Boxed::new(alloc, Expr::Match(a, place, unlike, b))
}

#[tactic(auto, using(awk_tree::proofs::Views::views))]
pub fn choose(
    alloc: Global,
    a: Boxed<Expr>,
    b: Boxed<Expr>,
    c: Boxed<Expr>,
) -> Result<Boxed<Expr>, AllocError>
    ensures { IfOk result (λ e. view e ≡ tree.choose (view a) (view b) (view c)) }
{
    Boxed::new(alloc, Expr::Choice(a, b, c))
}

#[tactic(auto, using(awk_tree::proofs::Views::views))]
pub fn assign(
    alloc: Global,
    a: Boxed<Expr>,
    place: Place,
    how: Assignment,
    b: Boxed<Expr>,
) -> Result<Boxed<Expr>, AllocError>
    ensures { IfOk result (λ e. view e ≡ tree.assign (view a) place how (view b)) }
{
    Boxed::new(alloc, Expr::Assign(a, place, how, b))
}

#[tactic(auto, using(awk_tree::proofs::Views::views))]
pub fn getline(
    alloc: Global,
    place: Place,
    target: Option<Boxed<Expr>>,
    source: Option<Boxed<Expr>>,
) -> Result<Boxed<Expr>, AllocError>
    ensures { IfOk result
        (λ e. view e ≡ tree.getline place (perhaps_of (option_map view target)) (perhaps_of (option_map view source))) }
{
    Boxed::new(alloc, Expr::Getline(place, target, source))
}

#[tactic(auto, using(awk_tree::proofs::Views::views))]
pub fn split(
    alloc: Global,
    place: Place,
    x: Boxed<Expr>,
    array: Name,
    y: Option<Boxed<Expr>>,
) -> Result<Boxed<Expr>, AllocError>
    ensures { IfOk result (λ e. view e ≡ tree.split place (view x) array (perhaps_of (option_map view y))) }
{
    Boxed::new(alloc, Expr::Split(place, x, array, y))
}

#[tactic(auto, using(awk_tree::proofs::Views::views))]
pub fn substitute(
    alloc: Global,
    place: Place,
    all: bool,
    x: Boxed<Expr>,
    y: Boxed<Expr>,
    z: Option<Boxed<Expr>>,
) -> Result<Boxed<Expr>, AllocError>
    ensures { IfOk result (λ e. view e ≡ tree.substitute place all (view x) (view y) (perhaps_of (option_map view z))) }
{
    Boxed::new(alloc, Expr::Substitute(place, all, x, y, z))
}

/// The list of one.
pub fn only<T: Drop>(alloc: Global, x: Boxed<T>) -> Result<Items<T>, AllocError>
    ensures { IfOk result (λ all. all ≡ x ∷ []) }
{
    let mut all = room(alloc, 1)?;
    all.push(x.into_inner())?;
    Ok(all)
}

/// The list of two.
pub fn both<T: Drop>(alloc: Global, x: Boxed<T>, y: Boxed<T>) -> Result<Items<T>, AllocError>
    ensures { IfOk result (λ all. all ≡ x ∷ y ∷ []) }
{
    let mut all = room(alloc, 2)?;
    all.push(x.into_inner())?;
    all.push(y.into_inner())?;
    Ok(all)
}

/// The list of two, and a third where there is one.
pub fn up_to_three(
    alloc: Global,
    x: Boxed<Expr>,
    y: Boxed<Expr>,
    z: Option<Boxed<Expr>>,
) -> Result<Items<Expr>, AllocError>
    ensures { IfOk result (λ all. map view all ≡ view x ∷ view y ∷ looks.listed (option_map view z)) }
{
    let mut all = both(alloc, x, y)?;
    match z {
        None => Ok(all),
        Some(z) => {
            all.push(z.into_inner())?;
            Ok(all)
        }
    }
}

// ---- chains: one of a single operand is that operand

#[tactic(auto, using(awk_tree::proofs::Views::views))]
pub fn product_of(
    alloc: Global,
    left: Boxed<Expr>,
    more: Items<Term<Expr>>,
) -> Result<Boxed<Expr>, AllocError>
    ensures { IfOk result (λ e. view e ≡ looks.product_of (view left) (map view_term more)) }
{
    if more.is_empty() {
        return Ok(left);
    }
    Boxed::new(alloc, Expr::Product(left, more))
}

#[tactic(auto, using(awk_tree::proofs::Views::views))]
pub fn sum_of(
    alloc: Global,
    left: Boxed<Expr>,
    more: Items<Term<Expr>>,
) -> Result<Boxed<Expr>, AllocError>
    ensures { IfOk result (λ e. view e ≡ looks.sum_of (view left) (map view_term more)) }
{
    if more.is_empty() {
        return Ok(left);
    }
    Boxed::new(alloc, Expr::Sum(left, more))
}

#[tactic(auto, using(awk_tree::proofs::Views::views))]
pub fn concat_of(
    alloc: Global,
    left: Boxed<Expr>,
    more: Items<Expr>,
) -> Result<Boxed<Expr>, AllocError>
    ensures { IfOk result (λ e. view e ≡ looks.concat_of (view left) (map view more)) }
{
    if more.is_empty() {
        return Ok(left);
    }
    Boxed::new(alloc, Expr::Concat(left, more))
}

#[tactic(auto, using(awk_tree::proofs::Views::views))]
pub fn pipe_of(
    alloc: Global,
    left: Boxed<Expr>,
    more: Items<Piped<Expr>>,
) -> Result<Boxed<Expr>, AllocError>
    ensures { IfOk result (λ e. view e ≡ looks.pipe_of (view left) (map view_piped more)) }
{
    if more.is_empty() {
        return Ok(left);
    }
    Boxed::new(alloc, Expr::Pipe(left, more))
}

#[tactic(auto, using(awk_tree::proofs::Views::views))]
pub fn member_of(
    alloc: Global,
    left: Boxed<Expr>,
    more: Items<Member>,
) -> Result<Boxed<Expr>, AllocError>
    ensures { IfOk result (λ e. view e ≡ looks.member_of (view left) more) }
{
    if more.is_empty() {
        return Ok(left);
    }
    Boxed::new(alloc, Expr::In(left, more))
}

#[tactic(auto, using(awk_tree::proofs::Views::views))]
pub fn and_of(
    alloc: Global,
    left: Boxed<Expr>,
    more: Items<Expr>,
) -> Result<Boxed<Expr>, AllocError>
    ensures { IfOk result (λ e. view e ≡ looks.and_of (view left) (map view more)) }
{
    if more.is_empty() {
        return Ok(left);
    }
    Boxed::new(alloc, Expr::And(left, more))
}

#[tactic(auto, using(awk_tree::proofs::Views::views))]
pub fn or_of(alloc: Global, left: Boxed<Expr>, more: Items<Expr>) -> Result<Boxed<Expr>, AllocError>
    ensures { IfOk result (λ e. view e ≡ looks.or_of (view left) (map view more)) }
{
    if more.is_empty() {
        return Ok(left);
    }
    Boxed::new(alloc, Expr::Or(left, more))
}

/// Whether a value can be set there.
#[tactic(auto, using(awk_tree::proofs::Views::views))]
pub fn is_lvalue(x: &Expr) -> bool
    ensures { result ≡ looks.is_lvalue (view x.now) }
{
    matches!(x, Expr::Name(_) | Expr::Element(_, _) | Expr::Field(_, _))
}
