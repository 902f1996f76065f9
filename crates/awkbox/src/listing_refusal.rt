// Why a text has no listing and no verdict.
ghost use Rattle.std.specs.Prelude.{◌≡◌};

use awk_tokens::SyntaxError;
use box_policy::error::PolicyError;
use std::alloc::AllocError;
use thiserror::Error;

/// Why nothing is told: the policy or the script was refused, or memory was.
#[derive(Clone, Copy, Debug, PartialEq, Eq, Drop, Error)]
pub enum ListingRefusal {
    #[error("policy {0}")]
    Policy(PolicyError),
    #[error("script {0}")]
    Script(SyntaxError),
    #[error("out of memory")]
    Memory,
}

impl From<PolicyError> for ListingRefusal {
    ghost use Rattle.awkbox.specs.declared.listing_refusal.ListingRefusal.TheVariants.{Policy};

    ghost from_gives = { λ error refusal. refusal ≡ Policy error };

    fn from(error: PolicyError) -> ListingRefusal {
        ListingRefusal::Policy(error)
    }
}

impl From<SyntaxError> for ListingRefusal {
    ghost use Rattle.awkbox.specs.declared.listing_refusal.ListingRefusal.TheVariants.{Script};

    ghost from_gives = { λ error refusal. refusal ≡ Script error };

    fn from(error: SyntaxError) -> ListingRefusal {
        ListingRefusal::Script(error)
    }
}

impl From<AllocError> for ListingRefusal {
    ghost use Rattle.awkbox.specs.declared.listing_refusal.ListingRefusal.TheVariants.{Memory};

    ghost from_gives = { λ _ refusal. refusal ≡ Memory };

    fn from(_error: AllocError) -> ListingRefusal {
        ListingRefusal::Memory
    }
}
