// What a part of a program is printed with.

ghost use Rattle.std.specs.Prelude.{◌≡◌, ◌+◌, IfSome};

use awk_program::GlobalName;

/// What a part of a program is printed with.
#[derive(Clone, Copy, Drop)]
pub struct Printing<'a> {
    /// The variables of the program, by their slots.
    pub names: &'a [GlobalName],
    /// How many levels may still stand inside one another.
    level: u32,
}

impl<'a> Printing<'a> {
    /// With more levels than any program has: one of that many boxes has no room in memory.
    pub fn of(names: &'a [GlobalName]) -> Printing<'a> {
        Printing {
            names,
            level: u32::MAX,
        }
    }

    /// One level further down, or `None` where no level is left.
    pub fn below(self) -> Option<Printing<'a>>
        ensures level { IfSome result (λ below. below.level + 1 ≡ self.entry.level) }
    {
        let level = self.level.checked_sub(1)?;
        Some(Printing { level, ..self })
    }
}
