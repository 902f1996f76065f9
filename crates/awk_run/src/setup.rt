// What a run is started with.
ghost use Rattle.awk_run.specs.SetupParts.{ascends, first_unspelled, number_of_seed, setup_error_text};
ghost use Rattle.std.specs.Option.{option_copied};
ghost use Rattle.std.specs.Prelude.{MatchBool, MatchOption, Some, length, ◌<◌, ◌^◌, ◌≡◌};

use awk_hash::Seed;
use awk_numbers::number::{Number, Numbers, whole};
use awk_text::octets::Octets;
use awk_tokens::is_name;
use std::cmp::Ordering;
use std::error::Error;
use std::fmt;
use std::marker::Model;

/// What a run is started with: the operand words, the names of the environment that it may ask for,
/// the pairs of `-v`, the text of `-F`, which numbers the script has, what `srand ( )` seeds by, and
/// what its tables hash by, which no answer shows.
#[derive(Drop)]
pub struct Setup {
    operands: Vec<Octets>,
    names: Vec<Octets>,
    assigns: Vec<(Octets, Octets)>,
    separator: Option<Octets>,
    numbers: Numbers,
    random_seed: u64,
    seed: Seed,
}

impl Model for Setup {
    ghost use Rattle.awk_run.specs.SetupParts.{SetupParts};

    ghost Value = { SetupParts };

    ghost view = { λ s. record {
      operands = s.operands.items;
      names = s.names.items;
      assigns = s.assigns.items;
      separator = s.separator;
      numbers = s.numbers;
      random_seed = s.random_seed;
    } };

    // so that the number of each pair is a u32
    ghost use Rattle.std.specs.Prelude.{◌<◌, ◌^◌, length};

    ghost invariant = { λ s. length s.assigns.items < 2 ^ 32 };
}

/// Why words make no setup: U1, a pair of `-v` whose name is none, with the number of the first such
/// pair; U2, names of the environment that are not in ascending order without repeats.
#[derive(Clone, Copy, Debug, PartialEq, Eq, Drop)]
pub struct SetupError {
    pub code: u8,
    pub pair: u32,
}

impl SetupError {
    /// U1: the name of a pair is not spelled as a name of the language.
    pub const NAME: u8 = 1;
    /// U2: the names of the environment do not ascend byte by byte. `pair` is 0.
    pub const ORDER: u8 = 2;
}

impl fmt::Display for SetupError {
    ghost output = { λ e. Some (setup_error_text e) };

    fn fmt<W: fmt::Write>(&self, f: &mut fmt::Formatter<W>) -> fmt::Result {
        let code = self.code;
        match self.pair {
            0 => write!(f, "U{code}"),
            pair => write!(f, "assignment {pair} U{code}"),
        }
    }
}

impl Error for SetupError {}

/// The number of the first pair whose name is none, counted from 1.
fn first_unspelled(assigns: &[(Octets, Octets)]) -> Option<u32>
    requires { length assigns.now < 2 ^ 32 }
    ensures { result ≡ first_unspelled 1 assigns.now }
{
    let mut number = 0u32;
    for (name, _) in assigns {
        number += 1;
        if !is_name(name.bytes()) {
            return Some(number);
        }
    }
    None
}

fn ascends(names: &[Octets]) -> bool
    ensures { result ≡ ascends names.now }
{
    for i in 1..names.len() {
        if names[i - 1].bytes().cmp(names[i].bytes()) != Ordering::Less {
            return false;
        }
    }
    true
}

impl Setup {
    /// The setup of these words, for whole numbers (else `numbered`). Fewer than 2^32 pairs are the caller's duty. Its
    /// tables hash by a fixed seed (`seeded`), and `srand ( )` seeds by 0 (else `randomized`). Takes no memory.
    ///
    /// Refused as U1 where the name of a pair is not spelled as a name, and else as U2 where the names
    /// of the environment do not ascend.
    pub fn read(
        operands: Vec<Octets>,
        names: Vec<Octets>,
        assigns: Vec<(Octets, Octets)>,
        separator: Option<Octets>,
    ) -> Result<Setup, SetupError>
        requires { length assigns.items < 2 ^ 32 }
        ensures { MatchOption (first_unspelled 1 assigns.items)
            (MatchBool (ascends names.items)
            (result ≡ Ok (record {
              operands = operands.items;
              names = names.items;
              assigns = assigns.items;
              separator = separator;
              numbers = Numbers.Whole;
              random_seed = 0;
            }))
            (result ≡ Err (record { code = 2; pair = 0 })))
            (λ pair. result ≡ Err (record { code = 1; pair = pair })) }
    {
        if let Some(pair) = first_unspelled(assigns.as_slice()) {
            return Err(SetupError {
                code: SetupError::NAME,
                pair,
            });
        }
        if !ascends(names.as_slice()) {
            return Err(SetupError {
                code: SetupError::ORDER,
                pair: 0,
            });
        }
        Ok(Setup {
            operands,
            names,
            assigns,
            separator,
            numbers: Numbers::Whole,
            random_seed: 0,
            seed: Seed::of(0),
        })
    }

    /// The same setup, for a script that was read with these numbers and has them. Takes no memory.
    pub fn numbered(self, numbers: Numbers) -> Setup
        ensures { result ≡ record self { numbers = numbers } }
    {
        let mut setup = self;
        setup.numbers = numbers;
        setup
    }

    /// The same setup, for a script whose `srand ( )` seeds by this number. Takes no memory.
    pub fn randomized(self, seed: u64) -> Setup
        ensures { result ≡ record self { random_seed = seed } }
    {
        let mut setup = self;
        setup.random_seed = seed;
        setup
    }

    /// The same setup, whose tables hash by this seed: whoever writes the data and doesn't know it can't pick keys that
    /// collide. Takes no memory.
    pub fn seeded(self, seed: Seed) -> Setup
        ensures { result ≡ self }
    {
        let mut setup = self;
        setup.seed = seed;
        setup
    }

    /// Which numbers the script has. Takes no memory.
    pub fn numbers(&self) -> Numbers
        ensures { result ≡ self.now.numbers }
    {
        self.numbers
    }

    /// The number that `srand ( )` seeds by. Takes no memory.
    pub fn random_seed(&self) -> Number
        ensures { result ≡ number_of_seed self.now.random_seed }
    {
        whole(self.random_seed)
    }

    /// What the tables of the run hash by. Takes no memory.
    pub fn seed(&self) -> Seed {
        self.seed
    }

    /// The operand words, in order. Takes no memory.
    pub fn operands(&self) -> &[Octets]
        ensures { result.now ≡ self.now.operands }
    {
        self.operands.as_slice()
    }

    /// The names of the environment, in ascending order. Takes no memory.
    pub fn names(&self) -> &[Octets]
        ensures { result.now ≡ self.now.names }
    {
        self.names.as_slice()
    }

    /// The text of `-F`, where there is one. Takes no memory.
    pub fn separator(&self) -> Option<&Octets>
        ensures { option_copied result ≡ self.now.separator }
    {
        self.separator.as_ref()
    }

    /// The pairs of `-v`, in order: fewer than 2^32. Takes no memory.
    pub fn assigns(&self) -> &[(Octets, Octets)]
        ensures pairs { result.now ≡ self.now.assigns }
        ensures few { length self.now.assigns < 2 ^ 32 }
    {
        self.assigns.as_slice()
    }
}
