//! Why an input wasn't read to its end or its bound.
ghost use Rattle.std.specs.Prelude.{◌≡◌};
ghost use Rattle.streams.specs.declared.error.ReadError.TheVariants.{Input, Memory};

use std::alloc::AllocError;
use std::io;
use thiserror::Error;

/// Why an input wasn't read to its end or its bound.
#[derive(Clone, Copy, Debug, PartialEq, Eq, Error)]
pub enum ReadError {
    /// The reader failed, whatever the kind of its fault.
    #[error("input")]
    Input,
    /// Memory was refused for bytes that came.
    #[error("memory")]
    Memory,
}

impl From<io::Error> for ReadError {
    ghost from_gives = { λ _ e. e ≡ Input };

    fn from(_failed: io::Error) -> ReadError {
        ReadError::Input
    }
}

impl From<AllocError> for ReadError {
    ghost from_gives = { λ _ e. e ≡ Memory };

    fn from(_refused: AllocError) -> ReadError {
        ReadError::Memory
    }
}
