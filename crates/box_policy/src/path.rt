// Paths in their normal form.
ghost use Rattle.std.specs.Prelude.{◌≡◌, IfOk};
ghost use Rattle.box_policy.specs.Paths.{normal};
ghost use Rattle.box_policy.specs.NamesLeft.{names_left};

use crate::names::{Names, can_resolve};
use awk_text::Memory;
use awk_text::octets::Octets;
use std::alloc::Global;
use std::marker::Model;

/// A path in its normal form, which contracts see as the list of its components. The root has none.
#[derive(Drop)]
pub struct Path {
    components: Vec<Octets>,
}

impl Model for Path {
    ghost use Rattle.std.specs.Prelude.{List, ℕ};

    ghost Value = { List (List ℕ) };

    ghost view = { λ p. p.components.items };
}

impl Path {
    /// The components in order. Takes no memory.
    pub fn components(&self) -> &[Octets]
        ensures { result.now ≡ self.now }
    {
        self.components.as_slice()
    }
}

/// The normal form of a text (POSIX.1-2017, XBD 4.13): where it does not begin with `/` it stands
/// under the base, it is cut at each `/`, and empty components and `.` go. A text that is empty, is
/// not UTF-8, holds NUL or has a component `..` has none, nor has one that stands under such a base.
/// `Memory` where memory is refused.
pub fn normal(alloc: Global, base: &[u8], text: &[u8]) -> Result<Option<Path>, Memory>
    ensures { IfOk result (λ path. path ≡ normal base.now text.now) }
{
    if !can_resolve(base, text) {
        return Ok(None);
    }
    let components = collected(alloc, Names::under(base, text))?;
    Ok(Some(Path { components }))
}

fn collected(alloc: Global, mut names: Names) -> Result<Vec<Octets>, Memory>
    ensures { IfOk result (λ components. components.items ≡ names_left names.entry) }
{
    let mut components = Vec::new(alloc);
    while let Some(name) = names.next() {
        components.push(Octets::of(alloc, name)?)?;
    }
    Ok(components)
}
