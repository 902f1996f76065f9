// What a run asks of a script.

ghost use Rattle.std.specs.Prelude.{◌≡◌, codes};
ghost use Rattle.std.specs.List.{list_any};
ghost use Rattle.std.specs.Str.{bytes_eq};
ghost use Rattle.awk_resolve.specs.Faults as spec;

use crate::mention::{Mention, Role, Section};
use awk_tree::Name;

fn takes_records(role: &Role) -> bool
    ensures { result ≡ spec.takes_records role.now }
{
    match role {
        Role::End | Role::Rule => true,
        Role::Begin | Role::Function(_, _) => false,
    }
}

fn is_main_input(mention: &Mention) -> bool
    ensures { result ≡ spec.is_main_input mention.now }
{
    match mention {
        Mention::MainInput => true,
        Mention::Scalar(_)
        | Mention::Array(_)
        | Mention::Measured(_)
        | Mention::Call(_, _)
        | Mention::Next(_)
        | Mention::Return(_)
        | Mention::Stray(_) => false,
    }
}

fn has_main_input(mentions: &[Mention]) -> bool
    ensures { result ≡ list_any spec.is_main_input mentions.now }
{
    for mention in mentions {
        if is_main_input(mention) {
            return true;
        }
    }
    false
}

/// Whether the script reads the main input: it has an item that is neither BEGIN nor a function,
/// or a `getline` without a file. Takes no memory.
pub fn reads_main(parts: &[Section]) -> bool
    ensures { result ≡ spec.reads_main parts.now }
{
    for part in parts {
        if takes_records(&part.role) || has_main_input(part.mentions.as_slice()) {
            return true;
        }
    }
    false
}

fn is_environ(name: &Name) -> bool
    ensures { result ≡ bytes_eq name.now.text (codes "ENVIRON") }
{
    name.text.bytes() == b"ENVIRON".as_slice()
}

fn is_argument(name: &Option<Name>) -> bool
    ensures { result ≡ spec.is_argument (codes "ENVIRON") name.now }
{
    match name {
        Some(name) => is_environ(name),
        None => false,
    }
}

fn has_argument(names: &[Option<Name>]) -> bool
    ensures { result ≡ list_any (spec.is_argument (codes "ENVIRON")) names.now }
{
    for name in names {
        if is_argument(name) {
            return true;
        }
    }
    false
}

fn has_environ(mention: &Mention) -> bool
    ensures { result ≡ spec.is_name_of (codes "ENVIRON") mention.now }
{
    match mention {
        Mention::Scalar(name) | Mention::Array(name) | Mention::Measured(name) => is_environ(name),
        Mention::Call(name, args) => is_environ(name) || has_argument(args.as_slice()),
        Mention::MainInput | Mention::Next(_) | Mention::Return(_) | Mention::Stray(_) => false,
    }
}

fn have_environ(mentions: &[Mention]) -> bool
    ensures { result ≡ list_any (spec.is_name_of (codes "ENVIRON")) mentions.now }
{
    for mention in mentions {
        if has_environ(mention) {
            return true;
        }
    }
    false
}

/// Whether the script names ENVIRON, in a function that is never called too. Takes no memory.
pub fn names_environ(parts: &[Section]) -> bool
    ensures { result ≡ spec.names_environ parts.now }
{
    for part in parts {
        if have_environ(part.mentions.as_slice()) {
            return true;
        }
    }
    false
}
