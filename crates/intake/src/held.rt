//! The facts of bytes in memory.

ghost use Rattle.std.specs.Prelude.{◌≡◌, IfOk};
ghost use Rattle.intake.specs.Described.{DescribesBytes};

use crate::arrival::Arrived;
use crate::checker::{fault_at_end, feed};
use nar::Checker;
use sha2::{Digest, Sha256};
use std::alloc::{AllocError, Global};
use streams::Pieces;

impl Arrived {
    /// The facts of these bytes, without the digest of contents. Each piece is checked and hashed once, and none is
    /// copied.
    ///
    /// # Errors
    ///
    /// Memory was refused.
    pub fn of_pieces(alloc: Global, pieces: Pieces) -> Result<Arrived, AllocError>
        ensures pieces { IfOk result (λ a. a.pieces ≡ pieces) }
        ensures reported { IfOk result DescribesBytes }
    {
        let mut checker = Checker::new(alloc);
        let mut hasher = Sha256::new();
        'held: for i in 0..pieces.count() {
            let piece = pieces.piece(i);
            feed(&mut checker, piece)?;
            hasher.update(piece);
        }
        Ok(Arrived {
            fault: fault_at_end(checker),
            nar_hash: hasher.finalize(),
            contents_hash: None,
            pieces,
        })
    }
}
