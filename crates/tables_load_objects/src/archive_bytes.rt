//! An archive as its row and its pieces hold it.

ghost use Rattle.std.specs.Prelude.{◌≡◌, ◌↔◌, ◌++◌, IfOk, IsTrue};
ghost use Rattle.sha2.specs.Sha256.{sha256};
ghost use Rattle.nar.specs.Archive.{IsArchive};
ghost use Rattle.nar.specs.Tree.{Tree};
ghost use Rattle.paths.specs.Facts.{HasFactsFor};
ghost use Rattle.tables_world.specs.Pieces.{joined};
ghost use Rattle.tables_load_objects.specs.Cut.{parts_of};

use intake::Arrived;
use paths::{Facts, Method};
use std::alloc::{AllocError, Global};
use std::marker::Model;
use streams::Pieces;
use tables_rows::pieces::Piece;

/// The bytes of a row and of its pieces, one after another. Where they are cut the right way none is copied.
fn gathered(alloc: Global, row: Vec<u8>, pieces: Vec<Piece>) -> Result<Pieces, AllocError>
    ensures { IfOk result (λ all. all ≡ row.items ++ joined (parts_of pieces.items)) }
{
    let mut all = Pieces::new(alloc);
    all.append(row)?;
    'pieces: for piece in pieces {
        let Piece { bytes, .. } = piece;
        all.append(bytes)?;
    }
    Ok(all)
}

/// The bytes of what is to be an archive, with what is found of them. Contracts see the bytes.
#[derive(Drop)]
pub(crate) struct ArchiveBytes {
    pub(crate) arrived: Arrived,
}

impl Model for ArchiveBytes {
    ghost use Rattle.std.specs.Prelude.{List, ℕ};
    ghost use Rattle.intake.specs.Described.{DescribesBytes};

    ghost Value = { List ℕ };

    ghost view = { λ a. a.arrived.pieces };

    ghost invariant = { λ a. DescribesBytes a.arrived };
}

impl ArchiveBytes {
    /// The bytes of a row and of its pieces, one after another.
    pub(crate) fn of(
        alloc: Global,
        row: Vec<u8>,
        pieces: Vec<Piece>,
    ) -> Result<ArchiveBytes, AllocError>
        ensures { IfOk result (λ a. a ≡ row.items ++ joined (parts_of pieces.items)) }
    {
        let arrived = Arrived::of_pieces(alloc, gathered(alloc, row, pieces)?)?;
        Ok(ArchiveBytes { arrived })
    }

    /// The SHA-256 digest of the bytes.
    pub(crate) fn digest(&self) -> [u8; 32]
        ensures { result ≡ sha256 self.now }
    {
        self.arrived.nar_hash
    }

    /// Whether the bytes are an archive.
    pub(crate) fn is_archive(&self) -> bool
        ensures { IsTrue result ↔ ((t : Tree) × IsArchive t self.now) }
    {
        self.arrived.fault.is_none()
    }

    /// The facts of the bytes for a content address of this method.
    pub(crate) fn facts_for(&self, method: Method) -> Facts
        ensures { HasFactsFor method self.now result }
    {
        self.arrived.facts_for(method)
    }
}
