// The elements of patterns, and what they are compared with.
ghost use Rattle.std.specs.Prelude.{◌≡◌, ◌<◌, ◌||◌, ◌∷◌, [], length, map, MatchOption, IfSome};
ghost use Rattle.box_policy.specs.Patterns.{is_name_byte, is_word_byte, symbols};
ghost use Rattle.box_policy.specs.Tokens.{lifted, starts_all};
ghost use Rattle.box_policy.specs.Symbols.{class_of, symbol_of};

/// What a pattern of bytes is compared with.
#[derive(Clone, Copy)]
pub(crate) enum Sort {
    Component,
    Command,
    Name,
}

/// What a walk over a subject reads: its bytes, and of a path where each component begins and
/// where it ends.
#[derive(Clone, Copy)]
pub(crate) enum Token {
    Open,
    Byte(u8),
    Close,
}

/// What stands in a pattern: one token, any one byte of the sort's class, a run of such bytes, or a
/// run of whatever the sort reads.
#[derive(Clone, Copy)]
pub(crate) enum Element {
    One(Token),
    Any,
    Run,
    All,
}

pub(crate) fn is_name_byte(byte: u8) -> bool
    ensures { result ≡ is_name_byte byte }
{
    byte.is_ascii_alphanumeric() || byte == b'_'
}

fn is_word_byte(byte: u8) -> bool
    ensures { result ≡ is_word_byte byte }
{
    byte.is_ascii_alphanumeric() || b"_-./:,=+@%".as_slice().contains(&byte)
}

/// Whether the byte is one of the sort's class: of those that its `*` stands for.
pub(crate) fn is_in_class(sort: Sort, byte: u8) -> bool
    ensures { result ≡ class_of sort byte }
{
    match sort {
        Sort::Component => true,
        Sort::Command => is_word_byte(byte),
        Sort::Name => is_name_byte(byte),
    }
}

/// The element of a byte that stands alone.
fn element_at(sort: Sort, byte: u8) -> Element
    ensures { map lifted (symbols sort (byte ∷ [])) ≡ symbol_of sort result ∷ [] }
{
    match sort {
        _ if byte == b'*' => Element::Run,
        Sort::Component if byte == b'?' => Element::Any,
        _ => Element::One(Token::Byte(byte)),
    }
}

/// Whether `**` comes first, which is one element in a command.
fn starts_all(sort: Sort, pattern: &[u8]) -> bool
    ensures { result ≡ starts_all sort pattern.now }
{
    match (sort, pattern) {
        (Sort::Command, [b'*', b'*', ..]) => true,
        _ => false,
    }
}

#[tactic(auto, using(crate::proofs::ElementsLemmas::first_more))]
/// The first element of a pattern, and what stands behind it.
pub(crate) fn next_element(sort: Sort, pattern: &[u8]) -> Option<(Element, &[u8])>
    ensures element { MatchOption result (symbols sort pattern.now ≡ [])
        (λ next. map lifted (symbols sort pattern.now) ≡ symbol_of sort next.0 ∷ map lifted (symbols sort next.1.now)) }
    ensures shorter { IfSome result (λ next. length next.1.now < length pattern.now) }
{
    if starts_all(sort, pattern) {
        return Some((Element::All, &pattern[2..]));
    }
    match pattern {
        [first, rest @ ..] => Some((element_at(sort, *first), rest)),
        [] => None,
    }
}
