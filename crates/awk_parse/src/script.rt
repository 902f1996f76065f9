// Scripts that are accepted.

ghost use Rattle.std.specs.Prelude.{◌≡◌, ◌↔◌, true, List, map, IfOk, IfErr, OnOk};
ghost use Rattle.awk_resolve.specs.Assigns.{CanAssign};
ghost use Rattle.awk_resolve.specs.Marks.{AreKinds};
ghost use Rattle.awk_resolve.specs.Faultless.{Faultless};
ghost use Rattle.awk_resolve.specs.Faults as names;
ghost use Rattle.awk_resolve.specs.Mentions.{part};
ghost use Rattle.awk_parse.specs.Flaws.{Flawed};
ghost use Rattle.awk_parse.specs.Scripts.{IsScriptOf, tree};
ghost use Rattle.awk_tree.specs.Canon.{canon_script};
ghost use Rattle.awk_tree.specs.Tree as t;
ghost use Rattle.awk_tree.specs.View.{view_item};

use crate::flaw::Flaw;
use awk_lowering::lower;
use awk_numbers::number::Numbers;
use awk_program::Program;
use awk_resolve::{Kinds, Section, misdefined, misplaced, names_environ, parts, reads_main};
use awk_text::Memory;
use awk_tokens::Token;
use awk_tree::Item;
use sqlite_items::Items;
use std::alloc::Global;

/// A script in which every name has one kind, as the tree that was read and as the program that it stands for.
#[derive(Drop)]
pub struct Script {
    numbers: Numbers,
    tree: awk_tree::Script,
    program: Program,
    kinds: Kinds,
    names_environ: bool,
    reads_main: bool,
}

/// The kinds of the names of a script without a flaw.
fn kinds(alloc: Global, parts: &[Section]) -> Result<Kinds, Flaw>
    ensures faultless { OnOk result (Faultless parts.now) }
    ensures kinds { IfOk result (λ kinds. AreKinds parts.now kinds) }
    ensures flawed { IfErr result (λ flaw. Flawed parts.now flaw) }
{
    if let Some(place) = misplaced(parts) {
        return Err(Flaw::Word(place));
    }
    if let Some(place) = misdefined(alloc, parts)? {
        return Err(Flaw::Function(place));
    }
    match Kinds::of(alloc, parts)? {
        Ok(kinds) => Ok(kinds),
        Err(place) => Err(Flaw::Kind(place)),
    }
}

impl Script {
    /// The script of these items by this profile, which are these parts, or its flaw.
    fn of_parts(
        alloc: Global,
        numbers: Numbers,
        items: Items<Item>,
        parts: &[Section],
    ) -> Result<Script, Flaw>
        requires { parts.now ≡ map part (map view_item items) }
        ensures profile { IfOk result (λ script. script.numbers ≡ numbers) }
        ensures script { IfOk result (λ script. IsScriptOf (map view_item items) script) }
        ensures flawed { IfErr result (λ flaw. Flawed (map part (map view_item items)) flaw) }
    {
        let kinds = kinds(alloc, parts)?;
        let program = lower(alloc, numbers, &kinds, parts, items.as_slice())?;
        Ok(Script {
            numbers,
            tree: awk_tree::Script::new(items),
            program,
            kinds,
            names_environ: names_environ(parts),
            reads_main: reads_main(parts),
        })
    }

    /// The script of these items by this profile, or its flaw.
    pub(crate) fn of(alloc: Global, numbers: Numbers, items: Items<Item>) -> Result<Script, Flaw>
        ensures profile { IfOk result (λ script. script.numbers ≡ numbers) }
        ensures script { IfOk result (λ script. IsScriptOf (map view_item items) script) }
        ensures flawed { IfErr result (λ flaw. Flawed (map part (map view_item items)) flaw) }
    {
        let parts = parts(alloc, items.as_slice())?;
        Script::of_parts(alloc, numbers, items, parts.as_slice())
    }

    /// The profile that the script was read by. Takes no memory.
    pub fn numbers(&self) -> Numbers
        ensures { result ≡ self.now.numbers }
    {
        self.numbers
    }

    /// The items of the script, in order. Takes no memory.
    pub fn items(&self) -> &[Item]
        ensures { result.now ≡ self.now.tree.items }
    {
        self.tree.items()
    }

    /// The script in the form that runs. Takes no memory.
    pub fn program(&self) -> &Program
        ensures { result.now ≡ self.now.program }
    {
        &self.program
    }

    /// What each name of the script is used as. Takes no memory.
    pub fn kinds(&self) -> &Kinds
        ensures { result.now ≡ self.now.kinds }
    {
        &self.kinds
    }

    /// Whether a host may assign to the variable of this name ("OPERANDS" in POSIX.1-2017 XCU awk):
    /// it is spelled as a name, is no word of the language, and no array and no function of the
    /// script. Takes no memory.
    pub fn can_assign(&self, name: &[u8]) -> bool
        ensures { (items : List t.Entry) → IsScriptOf items self.now → (result ≡ true) ↔
            CanAssign (map part items) name.now }
    {
        self.kinds.can_assign(name)
    }

    /// Whether the script names ENVIRON, in a function that is never called too. Takes no memory.
    pub fn names_environ(&self) -> bool
        ensures { (items : List t.Entry) → IsScriptOf items self.now → result ≡ names.names_environ (map part items) }
    {
        self.names_environ
    }

    /// Whether the script reads the main input: it has an item that is neither BEGIN nor a
    /// function, or a `getline` without a file. Takes no memory.
    pub fn reads_main(&self) -> bool
        ensures { (items : List t.Entry) → IsScriptOf items self.now → result ≡ names.reads_main (map part items) }
    {
        self.reads_main
    }

    /// Lets the script go. That each part of it is dropped is proved here once: a crate that drops one itself proves it
    /// again.
    pub fn release(self) {}
}

/// The canonical spelling of a script: its tokens, all at the place 0:0, or `Memory` where memory
/// is refused. `parse` reads them as the same tree again, places aside.
pub fn canon(alloc: Global, script: &Script) -> Result<Vec<Token>, Memory>
    ensures { IfOk result (λ tokens. tokens.items ≡ canon_script (tree script.now)) }
{
    awk_canon::canon(alloc, &script.tree)
}
