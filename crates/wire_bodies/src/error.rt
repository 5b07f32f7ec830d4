//! Why a body gives no request.
ghost use Rattle.std.specs.Prelude.{◌≡◌};
ghost use Rattle.wire_bodies.specs.Faults.{path_fault, name_fault, digits_fault, address_fault};
ghost use Rattle.wire_bodies.specs.declared.error.BodyError.TheVariants.{Memory};

use paths::{Base32Error, CaError, NameError, StorePathError};
use std::alloc::{AllocError, AllocFailed};
use thiserror::Error;

/// Why a body gives no request.
#[derive(Clone, Copy, Debug, PartialEq, Eq, Error)]
pub enum BodyError {
    /// A line without a line feed, a colon and a space; a line that isn't UTF-8; an unknown, missing or repeated key; a
    /// value against its kind; no empty line; or a payload where there is none.
    #[error("bad-body-head")]
    BadBodyHead,
    /// Memory was refused.
    #[error("memory")]
    Memory,
}

impl From<AllocError> for BodyError {
    ghost from_gives = { λ _ e. e ≡ Memory };

    fn from(_: AllocError) -> BodyError {
        BodyError::Memory
    }
}

impl<T: Drop> From<AllocFailed<T>> for BodyError {
    ghost from_gives = { λ _ e. e ≡ Memory };

    fn from(_: AllocFailed<T>) -> BodyError {
        BodyError::Memory
    }
}

impl From<StorePathError> for BodyError {
    ghost from_gives = { λ fault e. e ≡ path_fault fault };

    fn from(fault: StorePathError) -> BodyError {
        match fault {
            StorePathError::BadStorePath => BodyError::BadBodyHead,
            StorePathError::Memory => BodyError::Memory,
        }
    }
}

impl From<NameError> for BodyError {
    ghost from_gives = { λ fault e. e ≡ name_fault fault };

    fn from(fault: NameError) -> BodyError {
        match fault {
            NameError::BadStoreName => BodyError::BadBodyHead,
            NameError::Memory => BodyError::Memory,
        }
    }
}

impl From<Base32Error> for BodyError {
    ghost from_gives = { λ fault e. e ≡ digits_fault fault };

    fn from(fault: Base32Error) -> BodyError {
        match fault {
            Base32Error::Memory => BodyError::Memory,
            _ => BodyError::BadBodyHead,
        }
    }
}

impl From<CaError> for BodyError {
    ghost from_gives = { λ fault e. e ≡ address_fault fault };

    fn from(fault: CaError) -> BodyError {
        match fault {
            CaError::BadCa => BodyError::BadBodyHead,
            CaError::Memory => BodyError::Memory,
        }
    }
}
