// What the parts of a script say of names, places and the main input.

ghost use Rattle.std.specs.Prelude.{◌≡◌, IfOk};

use awk_text::Memory;
use awk_text::place::Place;
use awk_tree::Name;
use sqlite_items::Items;
use std::alloc::Global;

/// One thing that a part of a script says.
#[derive(Drop)]
pub enum Mention {
    /// The name is read or set as a scalar.
    Scalar(Name),
    /// The name is used as an array.
    Array(Name),
    /// The length of the name is asked, which may be a scalar or an array.
    Measured(Name),
    /// A function of the script is called. An argument that is a name by itself is given here, and
    /// the call alone tells what it is used as.
    Call(Name, Items<Option<Name>>),
    /// A `getline` that has no file reads the main input.
    MainInput,
    /// `next` or `nextfile`
    Next(Place),
    /// `return`
    Return(Place),
    /// `break` or `continue` outside a loop
    Stray(Place),
}

/// What an item of a script is.
#[derive(Drop)]
pub enum Role {
    /// `BEGIN`
    Begin,
    /// `END`
    End,
    /// What is done for records.
    Rule,
    /// A function, with its name and its parameters.
    Function(Name, Items<Name>),
}

/// An item of a script, with all that it says, in the order of the script.
#[derive(Drop)]
pub struct Section {
    pub role: Role,
    pub mentions: Items<Mention>,
}

/// The same name once more, or `Memory` where memory is refused.
pub fn copy_name(alloc: Global, name: &Name) -> Result<Name, Memory>
    ensures { IfOk result (λ n. n ≡ name.now) }
{
    Ok(Name {
        text: name.text.copy(alloc)?,
        place: name.place,
    })
}
