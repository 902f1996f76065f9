// The program of a script.

ghost use Rattle.std.specs.Prelude.{◌≡◌, map, IfOk};
ghost use Rattle.awk_lowering.specs.Programs as programs;
ghost use Rattle.awk_program.specs.View.{names_of, view_program};
ghost use Rattle.awk_resolve.specs.Sound.{Sound};
ghost use Rattle.awk_resolve.specs.Tables as spec;
ghost use Rattle.awk_tree.specs.View.{view_item};

use crate::items::program;
use awk_numbers::number::Numbers;
use awk_program::Program;
use awk_resolve::{Kinds, Section, tables_of};
use awk_text::Memory;
use awk_tree::Item;
use std::alloc::Global;

/// The program of these items by this profile, which are these parts and whose names are of these kinds,
/// or `Memory` where memory is refused.
pub fn lower(
    alloc: Global,
    numbers: Numbers,
    kinds: &Kinds,
    parts: &[Section],
    items: &[Item],
) -> Result<Program, Memory>
    ensures program { IfOk result
        (λ made. view_program made
        ≡ programs.program numbers (spec.tables kinds.now parts.now) (map view_item items.now)) }
    ensures sound { IfOk result (λ made. Sound (names_of made)) }
{
    let tables = tables_of(alloc, kinds, parts)?;
    program(alloc, numbers, &tables, items)
}
