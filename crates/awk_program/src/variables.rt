// Variables.

ghost use Rattle.std.specs.Prelude.{◌≡◌};
ghost use Rattle.awk_program.specs.Slots.{slot_of};

/// Where a variable is kept: among those of the whole script, or among the parameters of its function.
#[derive(Clone, Copy, PartialEq, Eq, Drop)]
pub enum Variable {
    Global(u32),
    Parameter(u32),
}

/// The variables that awk itself has.
#[derive(Clone, Copy, PartialEq, Eq, Drop)]
pub enum Own {
    Argc,
    Convfmt,
    Filename,
    Fnr,
    Fs,
    Nf,
    Nr,
    Ofmt,
    Ofs,
    Ors,
    Rlength,
    Rs,
    Rstart,
    Subsep,
    Argv,
    Environ,
}

impl Own {
    /// The slot that it has in every program.
    pub fn slot(self) -> u32
        ensures { result ≡ slot_of self }
    {
        match self {
            Own::Argc => 0,
            Own::Convfmt => 1,
            Own::Filename => 2,
            Own::Fnr => 3,
            Own::Fs => 4,
            Own::Nf => 5,
            Own::Nr => 6,
            Own::Ofmt => 7,
            Own::Ofs => 8,
            Own::Ors => 9,
            Own::Rlength => 10,
            Own::Rs => 11,
            Own::Rstart => 12,
            Own::Subsep => 13,
            Own::Argv => 14,
            Own::Environ => 15,
        }
    }
}
