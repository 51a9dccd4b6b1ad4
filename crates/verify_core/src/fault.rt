ghost use Rattle.std.specs.Prelude.{◌≡◌};
ghost use Rattle.verify_core.specs.declared.fault.Refusal.TheVariants as refusals;
ghost use Rattle.verify_core.specs.Refusals.{refusal_of};

use std::alloc::{AllocError, AllocFailed};
use text_core::{Limit, NoMemory, PassError, SourceError};
use thiserror::Error;

/// Why there is no verdict on a source.
#[derive(Debug, Drop, Error)]
pub enum Refusal {
    /// The source is refused, with its code and place.
    #[error("the source is refused")]
    Source(SourceError),
    /// The proof file is refused at this line, the first bad one, from 1.
    #[error("line {0} of the proof file is wrong")]
    Proof(u32),
    /// A quantity is past its bound.
    #[error("a limit is passed")]
    Limit(Limit),
    /// Memory was refused.
    #[error("out of memory")]
    NoMemory,
}

impl From<NoMemory> for Refusal {
    ghost from_gives = { λ _ r. r ≡ refusals.NoMemory };

    fn from(_refused: NoMemory) -> Refusal {
        Refusal::NoMemory
    }
}

impl From<PassError> for Refusal {
    ghost from_gives = { λ e r. r ≡ refusal_of e };

    fn from(error: PassError) -> Refusal {
        match error {
            PassError::Source(error) => Refusal::Source(error),
            PassError::Limit(limit) => Refusal::Limit(limit),
            PassError::NoMemory => Refusal::NoMemory,
        }
    }
}

impl From<Limit> for Refusal {
    ghost from_gives = { λ l r. r ≡ refusals.Limit l };

    fn from(limit: Limit) -> Refusal {
        Refusal::Limit(limit)
    }
}

impl From<AllocError> for Refusal {
    ghost from_gives = { λ _ r. r ≡ refusals.NoMemory };

    fn from(_refused: AllocError) -> Refusal {
        Refusal::NoMemory
    }
}

impl<T: Drop> From<AllocFailed<T>> for Refusal {
    ghost from_gives = { λ _ r. r ≡ refusals.NoMemory };

    fn from(_refused: AllocFailed<T>) -> Refusal {
        Refusal::NoMemory
    }
}
