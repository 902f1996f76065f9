// Names that are used once, only read, or not at all.
use crate::around::{Around, sign};
use crate::known::{is_gawk_name, is_own};
use crate::levels::Levels;
use crate::numbers::is_joined;
use crate::roles::{Role, is_function, role_of};
use awk_text::Memory;
use awk_tokens::{Token, TokenKind};
use indexmap::IndexMap;
use std::alloc::Global;

/// What is told of a name where it first stands.
#[derive(Clone, Copy, Drop)]
pub enum Flaw {
    None,
    SetOnce,
    ReadOnce,
    OnlyRead,
    Uncalled,
    Unused,
}

/// How a name is used in the whole script.
#[derive(Clone, Copy, Drop)]
struct Usage {
    /// The number of the token where it first stands.
    first: usize,
    role: Role,
    is_repeated: bool,
    is_only_read: bool,
}

fn flaw_of(usage: Usage) -> Flaw {
    match (usage.role, usage.is_repeated) {
        (Role::Defined, false) => Flaw::Uncalled,
        (Role::Set, false) => Flaw::SetOnce,
        (Role::Read, false) => Flaw::ReadOnce,
        (Role::Read, true) if usage.is_only_read => Flaw::OnlyRead,
        _ => Flaw::None,
    }
}

/// A parameter of the function that is read.
#[derive(Clone, Copy, Drop)]
struct Parameter {
    at: usize,
    is_used: bool,
}

/// Where of a function a token stands.
#[derive(Clone, Copy, Drop)]
enum Scope {
    Outside,
    /// Behind the word `function`, before the parameters.
    Head,
    /// Among the parameters.
    Parameters,
    /// In the body, within this many braces.
    Body(usize),
}

/// The names so far.
#[derive(Drop)]
struct Reading {
    scope: Scope,
    levels: Levels,
    globals: IndexMap<Vec<u8>, Usage>,
    parameters: IndexMap<Vec<u8>, Parameter>,
}

fn is_read(role: Role) -> bool {
    matches!(role, Role::Read)
}

impl Reading {
    fn new(alloc: Global) -> Reading {
        Reading {
            scope: Scope::Outside,
            levels: Levels::new(alloc),
            globals: IndexMap::new(alloc),
            parameters: IndexMap::new(alloc),
        }
    }

    fn note_global(
        &mut self,
        alloc: Global,
        name: &[u8],
        first: usize,
        role: Role,
    ) -> Result<(), Memory> {
        if let Some(usage) = self.globals.get_mut(name) {
            usage.is_repeated = true;
            usage.is_only_read = usage.is_only_read && is_read(role);
            return Ok(());
        }
        let usage = Usage {
            first,
            role,
            is_repeated: false,
            is_only_read: is_read(role),
        };
        self.globals.insert(Vec::from_slice(alloc, name)?, usage)?;
        Ok(())
    }

    fn note_parameter(&mut self, alloc: Global, name: &[u8], at: usize) -> Result<(), Memory> {
        let key = Vec::from_slice(alloc, name)?;
        self.parameters
            .insert(key, Parameter { at, is_used: false })?;
        Ok(())
    }

    /// Whether the name is a parameter here, which is used then.
    fn uses_parameter(&mut self, name: &[u8]) -> bool {
        match self.parameters.get_mut(name) {
            Some(parameter) => {
                parameter.is_used = true;
                true
            }
            None => false,
        }
    }

    fn note(&mut self, alloc: Global, around: Around<'_>, at: usize) -> Result<(), Memory> {
        let name = around.token.text.bytes();
        if matches!(self.scope, Scope::Parameters) {
            return self.note_parameter(alloc, name, at);
        }
        if self.uses_parameter(name) {
            return Ok(());
        }
        let role = role_of(around, self.levels.inner());
        self.note_global(alloc, name, at, role)
    }

    /// Tells of the parameters that were not used, at the end of their function.
    fn end_function(&mut self, flaws: &mut [Flaw]) {
        for (_name, parameter) in self.parameters.iter() {
            if !parameter.is_used {
                mark(flaws, parameter.at, Flaw::Unused);
            }
        }
        self.parameters.clear();
    }

    /// Goes on behind a sign.
    fn pass(&mut self, around: Around<'_>, flaws: &mut [Flaw]) -> Result<(), Memory> {
        self.scope = match (self.scope, sign(around.token).0) {
            (Scope::Head, b'(') => Scope::Parameters,
            (Scope::Parameters, b')') => Scope::Body(0),
            (Scope::Body(depth), b'{') => Scope::Body(depth.saturating_add(1)),
            (Scope::Body(1), b'}') => {
                self.end_function(flaws);
                Scope::Outside
            }
            (Scope::Body(depth), b'}') => Scope::Body(depth.saturating_sub(1)),
            (scope, _) => scope,
        };
        self.levels.pass(around)
    }

    fn take(
        &mut self,
        alloc: Global,
        around: Around<'_>,
        at: usize,
        flaws: &mut [Flaw],
    ) -> Result<(), Memory> {
        match around.token.kind {
            TokenKind::Keyword if is_function(Some(around.token)) => {
                self.scope = Scope::Head;
                Ok(())
            }
            TokenKind::Name | TokenKind::CallName if is_noted(around) => {
                self.note(alloc, around, at)
            }
            TokenKind::Sign => self.pass(around, flaws),
            _ => Ok(()),
        }
    }

    fn read(&mut self, alloc: Global, tokens: &[Token], flaws: &mut [Flaw]) -> Result<(), Memory> {
        for (at, token) in tokens.iter().enumerate() {
            let (before, _) = tokens.split_at(at);
            let (_, after) = tokens.split_at(at + 1);
            let around = Around {
                before,
                token,
                after,
            };
            self.take(alloc, around, at, flaws)?;
        }
        Ok(())
    }

    fn finish(&self, flaws: &mut [Flaw]) {
        for (_name, usage) in self.globals.iter() {
            mark(flaws, usage.first, flaw_of(*usage));
        }
    }
}

fn mark(flaws: &mut [Flaw], at: usize, flaw: Flaw) {
    if let Some(place) = flaws.get_mut(at) {
        *place = flaw;
    }
}

/// Whether a name is looked at: not one that awk or gawk knows, nor what is joined to a number.
fn is_noted(around: Around<'_>) -> bool {
    let name = around.token.text.bytes();
    if is_own(name) || is_gawk_name(name) {
        return false;
    }
    match around.back(1) {
        Some(token) => match token.kind {
            TokenKind::Number => !is_joined(token, around.token),
            _ => true,
        },
        None => true,
    }
}

/// What is told of the name at each token of a script that is accepted.
pub fn flaws_of(alloc: Global, tokens: &[Token]) -> Result<Vec<Flaw>, Memory> {
    let mut flaws = vec![in alloc; Flaw::None; tokens.len()]?;
    let mut reading = Reading::new(alloc);
    reading.read(alloc, tokens, flaws.as_mut_slice())?;
    reading.finish(flaws.as_mut_slice());
    Ok(flaws)
}
