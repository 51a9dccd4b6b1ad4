ghost use Rattle.std.specs.Prelude.{◌≡◌};
ghost use Rattle.proof_text.specs.declared.fault.ProofTextError.TheVariants as errors;
ghost use Rattle.proof_text.specs.declared.fault.Fault.TheVariants as faults;

use std::alloc::{AllocError, AllocFailed};
use text_core::NoMemory;
use thiserror::Error;

/// Why a proof file could not be read.
#[derive(Clone, Copy, Debug, Drop, Error)]
pub enum ProofTextError {
    /// The first bad line, counted from 1.
    #[error("line {0} of the proof file is wrong")]
    BadLine(u32),
    /// Memory was refused.
    #[error("out of memory")]
    NoMemory,
}

impl From<NoMemory> for ProofTextError {
    ghost from_gives = { λ _ e. e ≡ errors.NoMemory };

    fn from(_refused: NoMemory) -> ProofTextError {
        ProofTextError::NoMemory
    }
}

impl From<AllocError> for ProofTextError {
    ghost from_gives = { λ _ e. e ≡ errors.NoMemory };

    fn from(_refused: AllocError) -> ProofTextError {
        ProofTextError::NoMemory
    }
}

impl<T: Drop> From<AllocFailed<T>> for ProofTextError {
    ghost from_gives = { λ _ e. e ≡ errors.NoMemory };

    fn from(_refused: AllocFailed<T>) -> ProofTextError {
        ProofTextError::NoMemory
    }
}

/// Why a line could not be read.
#[derive(Clone, Copy, Drop)]
pub(crate) enum Fault {
    Bad,
    NoMemory,
}

impl From<NoMemory> for Fault {
    ghost from_gives = { λ _ e. e ≡ faults.NoMemory };

    fn from(_refused: NoMemory) -> Fault {
        Fault::NoMemory
    }
}

impl From<AllocError> for Fault {
    ghost from_gives = { λ _ e. e ≡ faults.NoMemory };

    fn from(_refused: AllocError) -> Fault {
        Fault::NoMemory
    }
}

impl<T: Drop> From<AllocFailed<T>> for Fault {
    ghost from_gives = { λ _ e. e ≡ faults.NoMemory };

    fn from(_refused: AllocFailed<T>) -> Fault {
        Fault::NoMemory
    }
}

impl Fault {
    /// The fault of a line, with its number.
    pub(crate) fn at_line(self, line: u32) -> ProofTextError
        ensures bad { self ≡ Fault.Bad → result ≡ ProofTextError.BadLine line }
        ensures memory { self ≡ Fault.NoMemory → result ≡ ProofTextError.NoMemory }
    {
        match self {
            Fault::Bad => ProofTextError::BadLine(line),
            Fault::NoMemory => ProofTextError::NoMemory,
        }
    }
}
