ghost use Rattle.std.specs.Prelude.{◌≡◌};
ghost use Rattle.mir_build.specs.declared.stop.Stop.TheVariants as stops;

use std::alloc::{AllocError, AllocFailed};
use text_core::NoMemory;

/// Why the lowering of a body stops.
#[derive(Drop)]
pub(crate) enum Stop {
    /// The body would have more blocks than `MOST_BLOCKS`.
    Blocks,
    /// Memory was refused, or a number would pass its type.
    NoMemory,
}

impl From<NoMemory> for Stop {
    ghost from_gives = { λ _ e. e ≡ stops.NoMemory };

    fn from(_refused: NoMemory) -> Stop {
        Stop::NoMemory
    }
}

impl From<AllocError> for Stop {
    ghost from_gives = { λ _ e. e ≡ stops.NoMemory };

    fn from(_refused: AllocError) -> Stop {
        Stop::NoMemory
    }
}

impl<T: Drop> From<AllocFailed<T>> for Stop {
    ghost from_gives = { λ _ e. e ≡ stops.NoMemory };

    fn from(_refused: AllocFailed<T>) -> Stop {
        Stop::NoMemory
    }
}
