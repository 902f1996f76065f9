// What stands next, to a rule of statements.

ghost use Rattle.std.specs.Prelude.{◌≡◌};
ghost use Rattle.awk_tree.specs.Looks as looks;
ghost use Rattle.awk_tree.specs.Statements as spec;

use awk_expressions::{Tokens, is, terminal};
use awk_tokens::Token;
use awk_tree::{Redirect, Terminal};

/// Whether the list of a print ends here.
pub fn ends_print(kind: Terminal) -> bool
    ensures { result ≡ looks.ends_print kind }
{
    matches!(
        kind,
        Terminal::End | Terminal::Greater | Terminal::Append | Terminal::Bar
    )
}

/// How a redirection that begins so writes.
pub fn redirect(kind: Terminal) -> Option<Redirect>
    ensures { result ≡ looks.redirect kind }
{
    match kind {
        Terminal::Greater => Some(Redirect::Write),
        Terminal::Append => Some(Redirect::Append),
        Terminal::Bar => Some(Redirect::Command),
        _ => None,
    }
}

/// Whether `else` comes next, behind newlines and `;`.
pub fn else_next(tokens: &[Token]) -> bool
    ensures { result ≡ looks.else_next tokens.now }
{
    let mut ahead = Tokens::new(tokens);
    ahead.past();
    is(ahead.look(), Terminal::Else)
}

/// Whether `NAME in NAME )` comes next.
pub fn each_next(tokens: &[Token]) -> bool
    ensures { result ≡ looks.each_next tokens.now }
{
    match tokens {
        [key, word, array, close, ..] => {
            is(terminal(key), Terminal::Name)
                && is(terminal(word), Terminal::In)
                && is(terminal(array), Terminal::Name)
                && is(terminal(close), Terminal::CloseParen)
        }
        _ => false,
    }
}

/// Whether an item without a `}` may end here.
pub fn ends_item(tokens: &[Token]) -> bool
    ensures { result ≡ looks.ends_item tokens.now }
{
    match tokens {
        [] => true,
        [next, ..] => {
            let next = terminal(next);
            is(next, Terminal::Newline) || is(next, Terminal::Semicolon)
        }
    }
}

/// Whether nothing is left.
pub fn is_done(tokens: &[Token]) -> bool
    ensures { result ≡ spec.is_done tokens.now }
{
    match tokens {
        [] => true,
        [_, ..] => false,
    }
}
