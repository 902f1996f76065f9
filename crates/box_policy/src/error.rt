// Why a policy is refused.
ghost use Rattle.std.specs.Prelude.{◌≡◌, Some};
ghost use Rattle.box_policy.specs.Refusals.{refusal_text};

use std::alloc::{AllocError, AllocFailed};
use std::error::Error;
use std::fmt;

/// Why a text is no policy. `code` says what is wrong, and `rule` the number of the rule, counted
/// from 1, or 0 where no rule is meant.
#[derive(Clone, Copy, Debug, PartialEq, Eq, Drop)]
pub struct PolicyError {
    pub code: u8,
    pub rule: u32,
}

impl PolicyError {
    /// The bytes are not UTF-8, or the text is not TOML.
    pub const DOCUMENT: u8 = 1;
    /// The version is absent, or neither 1 nor 2.
    pub const VERSION: u8 = 2;
    /// The base is absent, or is not an absolute path without `*`, `?` and `..`.
    pub const BASE: u8 = 3;
    /// A key is unknown, or a key of a rule is missing.
    pub const KEY: u8 = 4;
    /// A value of a rule is wrong, or `rule` is not an array of tables.
    pub const VALUE: u8 = 5;
    /// A rule's pattern is not one of its kind.
    pub const PATTERN: u8 = 6;
    /// More than 1,024 rules, or a pattern of more than 4,096 bytes.
    pub const LIMIT: u8 = 7;
    /// Memory was refused.
    pub const MEMORY: u8 = 8;

    pub(crate) fn new(code: u8) -> PolicyError
        ensures { result ≡ record { code = code; rule = 0 } }
    {
        PolicyError { code, rule: 0 }
    }

    pub(crate) fn memory() -> PolicyError
        ensures { result ≡ record { code = 8; rule = 0 } }
    {
        PolicyError::new(PolicyError::MEMORY)
    }
}

impl fmt::Display for PolicyError {
    ghost output = { λ e. Some (refusal_text e) };

    fn fmt<W: fmt::Write>(&self, f: &mut fmt::Formatter<W>) -> fmt::Result {
        match self.rule {
            0 => write!(f, "P{}", self.code),
            rule => write!(f, "P{} rule {}", self.code, rule),
        }
    }
}

impl Error for PolicyError {}

impl From<AllocError> for PolicyError {
    ghost use Rattle.std.specs.Prelude.{◌≡◌};
    ghost use Rattle.box_policy.specs.declared.error.PolicyError.{PolicyError};

    ghost from_gives = { λ _ e. e ≡ record { code = 8; rule = 0 } };

    fn from(_error: AllocError) -> PolicyError {
        PolicyError::memory()
    }
}

impl<T: Drop> From<AllocFailed<T>> for PolicyError {
    ghost use Rattle.std.specs.Prelude.{◌≡◌};
    ghost use Rattle.box_policy.specs.declared.error.PolicyError.{PolicyError};

    ghost from_gives = { λ _ e. e ≡ record { code = 8; rule = 0 } };

    fn from(_error: AllocFailed<T>) -> PolicyError {
        PolicyError::memory()
    }
}
