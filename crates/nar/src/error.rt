//! Why bytes are no archive.

ghost use Rattle.std.specs.Prelude.{◌≡◌};
ghost use Rattle.nar.specs.declared.error.NarError.TheVariants.{Memory as memory};

use std::alloc::{AllocError, AllocFailed};
use thiserror::Error;

/// The first fault of the bytes, in their order, or out of memory.
#[derive(Clone, Copy, Debug, PartialEq, Eq, Error)]
pub enum NarError {
    /// The input ends before the next string does.
    #[error("truncated")]
    Truncated,
    /// A string isn't one of those that are allowed at its place.
    #[error("bad-tag")]
    BadTag,
    /// A padding byte isn't zero: after a string, zeros fill up to a multiple of 8.
    #[error("bad-padding")]
    BadPadding,
    /// A name is empty, `.` or `..`, or has a `/` or a zero byte.
    #[error("bad-name")]
    BadName,
    /// A name isn't above the one before it in its directory, by bytes.
    #[error("not-sorted")]
    NotSorted,
    /// More than 256 nodes are inside one another.
    #[error("too-deep")]
    TooDeep,
    /// Bytes follow the end of the archive.
    #[error("trailing")]
    Trailing,
    /// A string would end past byte 16,777,216.
    #[error("too-large")]
    TooLarge,
    /// Memory was refused, which says nothing about the bytes.
    #[error("memory")]
    Memory,
}

impl From<AllocError> for NarError {
    ghost from_gives = { λ _ e. e ≡ memory };

    fn from(_e: AllocError) -> NarError {
        NarError::Memory
    }
}

impl<T: Drop> From<AllocFailed<T>> for NarError {
    ghost from_gives = { λ _ e. e ≡ memory };

    fn from(_e: AllocFailed<T>) -> NarError {
        NarError::Memory
    }
}
