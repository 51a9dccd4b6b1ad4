ghost use Rattle.std.specs.Prelude.{◌≡◌, ◌≤◌, ℕ, List, [], Option, None, Ok};
ghost use Rattle.std.specs.Io.KnownBytes.{WriteAppends};
ghost use Rattle.text_core.specs.Counts.{HasCause};
ghost use Rattle.io_edge.specs.Sink.{TakesSome};

use std::alloc::{AllocError, AllocFailed};
use text_core::NoMemory;
use thiserror::Error;

/// Why an output did not take the bytes.
#[derive(Clone, Copy, Debug, Error)]
pub enum SinkError {
    /// The device failed.
    #[error("the output could not be written")]
    Failed,
    /// Memory was refused.
    #[error("out of memory")]
    NoMemory,
}

impl From<NoMemory> for SinkError {
    ghost use Rattle.io_edge.specs.declared.sink.SinkError.TheVariants as sink_error;

    ghost from_gives = { λ _ e. e ≡ sink_error.NoMemory };

    fn from(_refused: NoMemory) -> SinkError {
        SinkError::NoMemory
    }
}

impl From<AllocError> for SinkError {
    ghost use Rattle.io_edge.specs.declared.sink.SinkError.TheVariants as sink_error;

    ghost from_gives = { λ _ e. e ≡ sink_error.NoMemory };

    fn from(_refused: AllocError) -> SinkError {
        SinkError::NoMemory
    }
}

impl<T: Drop> From<AllocFailed<T>> for SinkError {
    ghost use Rattle.io_edge.specs.declared.sink.SinkError.TheVariants as sink_error;

    ghost from_gives = { λ _ e. e ≡ sink_error.NoMemory };

    fn from(_refused: AllocFailed<T>) -> SinkError {
        SinkError::NoMemory
    }
}

/// An output that takes bytes in order.
pub trait Sink {
    // All bytes taken so far, where that is told.
    ghost written: { Self → Option (List ℕ) };

    // How many calls the device failed.
    ghost faults: { Self → ℕ };

    /// Takes some bytes from the front of the piece, at least one where it has one, and answers how many. After an
    /// error none was taken. `Failed`: the device failed. `NoMemory`: memory was refused.
    fn write(&mut self, bytes: &[u8]) -> Result<u64, SinkError>
        ensures count { TakesSome result bytes.now }
        ensures taken { WriteAppends (written self.old) (written self.new) result bytes.now }
        ensures untold { written self.old ≡ None → written self.new ≡ None }
        ensures empty { bytes.now ≡ [] → (result ≡ Ok 0)
            × (written self.new ≡ written self.old) × (faults self.new ≡ faults self.old) }
        ensures failed { HasCause SinkError.Failed (faults self.old) (faults self.new) result }
        ensures never_falls { faults self.old ≤ faults self.new };
}
