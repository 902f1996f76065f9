// Rules whose pattern fits one text alone.
ghost use Rattle.std.specs.Prelude.{◌≡◌};
ghost use Rattle.box_policy.specs.Exact.{is_exact, is_literal};

use crate::matching::{are_plain, is_plain};
use crate::names::is_utf8;
use crate::policy::{Kind, MAX_PATTERN};
use crate::reading::is_pattern;
use crate::tokens::Sort;

/// Whether each byte that is compared stands for itself.
fn is_literal(kind: Kind, text: &[u8]) -> bool
    ensures { result ≡ is_literal kind text.now }
{
    match kind {
        Kind::Read | Kind::Write | Kind::Append => are_plain(text),
        Kind::Run => is_plain(Sort::Command, text),
        Kind::Env | Kind::Assign => is_plain(Sort::Name, text),
    }
}

/// Whether a rule of this kind may have the text as its `match`, and then fits the text alone: of a path, all texts of
/// the same normal form. Patterns have no escapes, so no rule speaks of just a text that has a `*`, or in a path a `?`;
/// nor may a pattern be longer than 4,096 bytes. Takes no memory.
pub fn is_exact(base: &[u8], kind: Kind, text: &[u8]) -> bool
    ensures { result ≡ is_exact base.now kind text.now }
{
    text.len() <= MAX_PATTERN
        && is_utf8(text)
        && is_pattern(base, kind, text)
        && is_literal(kind, text)
}
