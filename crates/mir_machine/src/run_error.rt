use text_core::{Limit, NoMemory};
use thiserror::Error;

/// Why a run stops before its end.
#[derive(Clone, Copy, Debug, Error)]
pub enum RunError {
    /// A call would make more frames than a run may have.
    #[error("{} frames of {}", .0.counted, .0.bound)]
    Limit(Limit),
    #[error("out of memory")]
    NoMemory,
}

impl From<NoMemory> for RunError {
    ghost use Rattle.std.specs.Prelude.{◌≡◌};
    ghost use Rattle.mir_machine.specs.declared.run_error.RunError.TheVariants as run_error;

    ghost from_gives = { λ _ e. e ≡ run_error.NoMemory };

    fn from(_refused: NoMemory) -> RunError {
        RunError::NoMemory
    }
}
