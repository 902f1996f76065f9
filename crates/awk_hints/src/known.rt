// Names that awk and gawk know.
ghost use Rattle.std.specs.Prelude.{◌≡◌, map};
ghost use Rattle.std.specs.List.{list_any};
ghost use Rattle.std.specs.Str.{bytes_eq};
ghost use Rattle.awk_hints.specs.Causes as spec;

/// The variables that awk sets or reads itself.
const OWN: [&[u8]; 16] = [
    b"ARGC",
    b"ARGV",
    b"CONVFMT",
    b"ENVIRON",
    b"FILENAME",
    b"FNR",
    b"FS",
    b"NF",
    b"NR",
    b"OFMT",
    b"OFS",
    b"ORS",
    b"RLENGTH",
    b"RS",
    b"RSTART",
    b"SUBSEP",
];

/// The names that mean something to gawk.
const GAWK: [&[u8]; 11] = [
    b"ARGIND",
    b"BEGINFILE",
    b"ENDFILE",
    b"ERRNO",
    b"FIELDWIDTHS",
    b"FPAT",
    b"FUNCTAB",
    b"IGNORECASE",
    b"PROCINFO",
    b"RT",
    b"SYMTAB",
];

fn is_among(mut table: &[&[u8]], name: &[u8]) -> bool
    ensures { result ≡ list_any (bytes_eq name.now) (map (λ known. known.now) table.entry.now) }
{
    while let [known, rest @ ..] = table {
        if name == *known {
            return true;
        }
        table = rest;
    }
    false
}

/// Whether awk itself sets or reads the variable of this name.
pub fn is_own(name: &[u8]) -> bool {
    is_among(&OWN, name)
}

/// Whether the name means something to gawk.
#[tactic(auto, unfolding(crate::specs::Causes::is_gawk_name))]
pub fn is_gawk_name(name: &[u8]) -> bool
    ensures { result ≡ spec.is_gawk_name name.now }
{
    is_among(&GAWK, name)
}
