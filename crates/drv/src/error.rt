//! Why a text gives no outputs.

ghost use Rattle.std.specs.Prelude.{◌≡◌};
ghost use Rattle.drv.specs.Faults.{name_fault, path_fault};
ghost use Rattle.drv.specs.declared.error.DrvError.TheVariants.{Memory as memory};

use paths::{NameError, StorePathError};
use std::alloc::{AllocError, AllocFailed};
use thiserror::Error;

/// Why a text gives no outputs.
#[derive(Clone, Copy, Debug, PartialEq, Eq, Error)]
pub enum DrvError {
    /// The text isn't that of a derivation with outputs in the store directory.
    #[error("bad-derivation")]
    BadDerivation,
    /// The text is a derivation, and two of its outputs share a name.
    #[error("double-output")]
    DoubleOutput,
    /// Memory was refused, which says nothing about the text.
    #[error("memory")]
    Memory,
}

impl From<AllocError> for DrvError {
    ghost from_gives = { λ _ e. e ≡ memory };

    fn from(_e: AllocError) -> DrvError {
        DrvError::Memory
    }
}

impl<T: Drop> From<AllocFailed<T>> for DrvError {
    ghost from_gives = { λ _ e. e ≡ memory };

    fn from(_e: AllocFailed<T>) -> DrvError {
        DrvError::Memory
    }
}

impl From<NameError> for DrvError {
    ghost from_gives = { λ fault e. e ≡ name_fault fault };

    fn from(fault: NameError) -> DrvError {
        match fault {
            NameError::BadStoreName => DrvError::BadDerivation,
            NameError::Memory => DrvError::Memory,
        }
    }
}

impl From<StorePathError> for DrvError {
    ghost from_gives = { λ fault e. e ≡ path_fault fault };

    fn from(fault: StorePathError) -> DrvError {
        match fault {
            StorePathError::BadStorePath => DrvError::BadDerivation,
            StorePathError::Memory => DrvError::Memory,
        }
    }
}
