//! A body in one buffer, as it arrives.
ghost use Rattle.std.specs.Prelude.{◌≡◌, ◌++◌, OnOk};

use std::alloc::AllocError;
use std::marker::Model;

/// The bytes of a body whose length is known. The first bytes that arrive make room for all, and then the buffer
/// doesn't grow. Contracts see the bytes.
#[derive(Drop)]
pub(crate) struct Held {
    /// What has arrived.
    pub(crate) bytes: Vec<u8>,
    /// The number of bytes in the end.
    pub(crate) size: usize,
}

impl Model for Held {
    ghost use Rattle.std.specs.Prelude.{List, ℕ};

    ghost Value = { List ℕ };

    ghost view = { λ held. held.bytes.items };
}

impl Held {
    /// Takes the next piece.
    ///
    /// # Errors
    ///
    /// Memory was refused.
    pub(crate) fn push(&mut self, piece: &[u8]) -> Result<(), AllocError>
        ensures ok { OnOk result (self.new ≡ self.old ++ piece.now) }
    {
        let missing = self.size.saturating_sub(self.bytes.len());
        self.bytes.reserve_exact(missing.max(piece.len()))?;
        self.bytes.extend_from_slice(piece)
    }

    /// All bytes.
    pub(crate) fn into_bytes(self) -> Vec<u8>
        ensures bytes { result.items ≡ self }
    {
        self.bytes
    }
}
