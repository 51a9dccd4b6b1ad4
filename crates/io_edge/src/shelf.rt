ghost use Rattle.std.specs.Prelude.{◌≡◌, ◌≢◌, ◌≤◌, ◌<◌, ℕ, List, length, Option, Err, IfOk, IfErr, OnOk};
ghost use Rattle.text_core.specs.Counts.{HasCause};
ghost use Rattle.io_edge.specs.Faults.{NoneFalls};
ghost use Rattle.io_edge.specs.Shelf.{Holds, HoldsLength, IfTooLong, KeepsOthers, WhereTold, WhileTold};

use std::alloc::{AllocError, AllocFailed, Global};
use text_core::NoMemory;
use thiserror::Error;

/// Why a file was not read or written.
#[derive(Clone, Copy, Debug, Error)]
pub enum ShelfError {
    /// The device failed, or there is no such file.
    #[error("the file could not be read or written")]
    Failed,
    /// The file has this many bytes, which are more than were asked for.
    #[error("the file has {0} bytes, which is too long")]
    TooLong(u64),
    /// Memory was refused.
    #[error("out of memory")]
    NoMemory,
}

impl From<NoMemory> for ShelfError {
    ghost use Rattle.io_edge.specs.declared.shelf.ShelfError.TheVariants as shelf_error;

    ghost from_gives = { λ _ e. e ≡ shelf_error.NoMemory };

    fn from(_refused: NoMemory) -> ShelfError {
        ShelfError::NoMemory
    }
}

impl From<AllocError> for ShelfError {
    ghost use Rattle.io_edge.specs.declared.shelf.ShelfError.TheVariants as shelf_error;

    ghost from_gives = { λ _ e. e ≡ shelf_error.NoMemory };

    fn from(_refused: AllocError) -> ShelfError {
        ShelfError::NoMemory
    }
}

impl<T: Drop> From<AllocFailed<T>> for ShelfError {
    ghost use Rattle.io_edge.specs.declared.shelf.ShelfError.TheVariants as shelf_error;

    ghost from_gives = { λ _ e. e ≡ shelf_error.NoMemory };

    fn from(_refused: AllocFailed<T>) -> ShelfError {
        ShelfError::NoMemory
    }
}

/// Files by name.
pub trait Shelf {
    // What each name holds, where that is told. A name is the bytes of its text.
    ghost holds: { Self → Option (List ℕ → Option (List ℕ)) };

    // How many reads of each name failed.
    ghost read_faults: { Self → List ℕ → ℕ };

    // How many writes of each name failed.
    ghost write_faults: { Self → List ℕ → ℕ };

    /// The whole file of this name, of at most `most` bytes. `TooLong`: the file has more bytes. `Failed`: the device
    /// failed, or no file has the name. `NoMemory`: memory was refused.
    fn read(&mut self, alloc: Global, name: &str, most: u64) -> Result<Vec<u8>, ShelfError>
        ensures whole { IfOk result (λ v. WhereTold (holds self.old) (Holds name.now v.items)) }
        ensures within { IfOk result (λ v. length v.items ≤ most) }
        ensures length { IfErr result (IfTooLong
            (λ n. WhereTold (holds self.old) (HoldsLength name.now n))) }
        ensures too_long { IfErr result (IfTooLong (λ n. most < n)) }
        ensures keeps { holds self.new ≡ holds self.old }

        ensures failed { HasCause ShelfError.Failed (read_faults self.old name.now)
            (read_faults self.new name.now) result }
        ensures none_falls { NoneFalls (read_faults self.old) (read_faults self.new) }
        ensures no_write { write_faults self.new ≡ write_faults self.old };

    /// Puts these bytes under the name, in place of what is there. After an error it is open what the name holds.
    /// `Failed`: the device failed. `NoMemory`: memory was refused. It never answers `TooLong`.
    fn write(&mut self, alloc: Global, name: &str, bytes: &[u8]) -> Result<(), ShelfError>
        ensures put { OnOk result (WhereTold (holds self.new) (Holds name.now bytes.now)) }
        ensures others { WhileTold (holds self.old) (holds self.new) (KeepsOthers name.now) }
        ensures never_too_long { IfErr result (IfTooLong (λ _. ⊥)) }

        ensures failed { HasCause ShelfError.Failed (write_faults self.old name.now)
            (write_faults self.new name.now) result }
        ensures none_falls { NoneFalls (write_faults self.old) (write_faults self.new) }
        ensures no_read { read_faults self.new ≡ read_faults self.old };
}
