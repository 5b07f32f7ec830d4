//! Archives of objects.
ghost use Rattle.std.specs.Prelude.{◌≡◌, ◌≤◌, false, nat_le, IfOk, OnOk};
ghost use Rattle.sha2.specs.Sha256.{sha256};
ghost use Rattle.nar.specs.Tree.{regular};
ghost use Rattle.nar.specs.Archive.{limit};
ghost use Rattle.nar.specs.View.{tree_of};
ghost use Rattle.model.specs.Adds as adds;
ghost use Rattle.model.specs.Adds.{text_archive_size};
ghost use Rattle.model.specs.Tests.{unless, archive_fault};
ghost use Rattle.store_types.specs.Tested.{Tested};
ghost use Rattle.nar.specs.Outcome.{outcome_of};
ghost use Rattle.intake.specs.Arrival.{fault_of};

use intake::{Arrived, Intake};
use nar::Node;
use sha2::{Digest, Sha256};
use std::alloc::{AllocError, Global};
use store_types::Refusal;
use streams::Pieces;

/// A regular file that isn't executable.
pub(crate) fn plain(contents: &[u8]) -> Node<'_>
    ensures { tree_of result ≡ regular false contents.now }
{
    Node::Regular {
        executable: false,
        contents,
    }
}

/// Tests that the archive of a text is small enough.
pub(crate) fn has_archive(contents: &[u8]) -> Result<(), Refusal>
    ensures reported { Tested result (unless (nat_le (text_archive_size contents.now) limit) Refusal.TooLarge) }
    ensures fits { OnOk result (text_archive_size contents.now ≤ limit) }
{
    let file = plain(contents);
    if !nar::is_writable(&file) {
        return Err(Refusal::TooLarge);
    }
    Ok(())
}

/// The archive of a text, with the digests that were taken as it was made.
#[derive(Drop)]
pub(crate) struct TextArchive {
    /// The bytes of the archive.
    pub(crate) pieces: Pieces,
    /// The SHA-256 digest of the bytes.
    pub(crate) hash: [u8; 32],
    /// The SHA-256 digest of the contents.
    pub(crate) contents_hash: [u8; 32],
}

/// Makes the archive of a text.
///
/// # Errors
///
/// Memory was refused.
pub(crate) fn text_archive(alloc: Global, contents: &[u8]) -> Result<TextArchive, AllocError>
    ensures pieces { IfOk result (λ a. a.pieces ≡ adds.text_archive contents.now) }
    ensures hash { IfOk result (λ a. a.hash ≡ sha256 a.pieces) }
    ensures contents { IfOk result (λ a. a.contents_hash ≡ sha256 contents.now) }
{
    let nar = Intake::of_text(alloc, contents)?;
    let arrived = nar.finish()?;
    let hash = arrived.nar_hash;
    let contents_hash = Sha256::digest(contents);
    Ok(TextArchive {
        pieces: arrived.pieces,
        hash,
        contents_hash,
    })
}

/// Tests that the bytes are an archive.
pub(crate) fn is_archive(nar: &Arrived) -> Result<(), Refusal>
    requires { nar.now.fault ≡ fault_of (outcome_of nar.now.pieces) }
    ensures { Tested result (archive_fault (outcome_of nar.now.pieces)) }
{
    let Some(fault) = nar.fault else {
        return Ok(());
    };
    // Out of memory isn't a fault of bytes that have arrived.
    match Refusal::of_archive(fault) {
        Some(refusal) => Err(refusal),
        None => Ok(()),
    }
}
