//! Why a message isn't a request.
ghost use Rattle.std.specs.Prelude.{◌≡◌};
ghost use Rattle.wire_requests.specs.Faults.{path_fault, body_fault};
ghost use Rattle.wire_requests.specs.declared.error.AskError.TheVariants.{Memory};

use paths::StorePathError;
use std::alloc::AllocError;
use thiserror::Error;
use wire_bodies::BodyError;

/// Why a message isn't a request.
#[derive(Clone, Copy, Debug, PartialEq, Eq, Error)]
pub enum AskError {
    /// The target names a path that isn't a base name.
    #[error("bad-store-path")]
    BadPath,
    /// The body isn't one that the request takes.
    #[error("bad-body-head")]
    BadBodyHead,
    /// Memory was refused.
    #[error("memory")]
    Memory,
}

impl From<AllocError> for AskError {
    ghost from_gives = { λ _ e. e ≡ Memory };

    fn from(_: AllocError) -> AskError {
        AskError::Memory
    }
}

impl From<StorePathError> for AskError {
    ghost from_gives = { λ fault e. e ≡ path_fault fault };

    fn from(fault: StorePathError) -> AskError {
        match fault {
            StorePathError::BadStorePath => AskError::BadPath,
            StorePathError::Memory => AskError::Memory,
        }
    }
}

impl From<BodyError> for AskError {
    ghost from_gives = { λ fault e. e ≡ body_fault fault };

    fn from(fault: BodyError) -> AskError {
        match fault {
            BodyError::BadBodyHead => AskError::BadBodyHead,
            BodyError::Memory => AskError::Memory,
        }
    }
}
