//! The trait of what receives bytes.
ghost use Rattle.std.specs.Prelude.{◌≡◌, ◌++◌, ℕ, List, OnOk};

use std::alloc::AllocError;

/// A receiver of bytes, piece by piece.
pub trait Sink {
    /// All bytes that were received.
    ghost received: { Self → List ℕ };

    /// Receives one more piece, or says that memory was refused.
    fn take(&mut self, piece: &[u8]) -> Result<(), AllocError>
        ensures { OnOk result (received self.new ≡ received self.old ++ piece.now) };
}
