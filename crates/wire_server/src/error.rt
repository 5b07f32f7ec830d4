//! Why an input begins with no message, and why a connection ends before its input does.
ghost use Rattle.std.specs.Prelude.{◌≡◌};
ghost use Rattle.wire_server.specs.declared.error.WireError.TheVariants.{Memory, Write};

use std::alloc::AllocError;
use std::io;
use thiserror::Error;

/// Why a connection ends before its input does.
#[derive(Clone, Copy, Debug, PartialEq, Eq, Error)]
pub enum WireError {
    /// The reader failed.
    #[error("input")]
    Read,
    /// The writer failed, or took no byte.
    #[error("output")]
    Write,
    /// Memory was refused.
    #[error("memory")]
    Memory,
}

impl From<AllocError> for WireError {
    ghost from_gives = { λ _ e. e ≡ Memory };

    fn from(_: AllocError) -> WireError {
        WireError::Memory
    }
}

/// A write error, never one of a reader.
impl From<io::Error> for WireError {
    ghost from_gives = { λ _ e. e ≡ Write };

    fn from(_: io::Error) -> WireError {
        WireError::Write
    }
}

/// What is wrong with the beginning of an input.
#[derive(Clone, Copy, Debug, PartialEq, Eq, Error)]
pub enum Fault {
    /// The input begins with no request head of at most 16,384 bytes and 64 fields.
    #[error("bad-head")]
    BadHead,
    /// The length of its body is malformed, is given twice or is coded otherwise, or the input ends inside the body.
    #[error("bad-length")]
    BadLength,
    /// The body would have more than 20,971,520 bytes.
    #[error("too-large")]
    TooLarge,
}
