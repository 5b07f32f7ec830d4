//! The digests of an archive that is held in pieces, and of the contents of its file.

ghost use Rattle.std.specs.Prelude.{◌≡◌, ◌≤◌, ◌*◌, List, ℕ, IfSome, take};
ghost use Rattle.sha2.specs.Sha256.{sha256};
ghost use Rattle.nar.specs.Outcome.{outcome_of};
ghost use Rattle.nar.specs.Tree.{IsBytes};
ghost use Rattle.sha2.specs.Hashers.{Holds256};
ghost use Rattle.paths.specs.ContentAddress.{plain_contents};
ghost use Rattle.paths.specs.Facts.{hash_of};
ghost use Rattle.streams.specs.Cut.{count_of};
ghost use Rattle.intake.specs.Contents.{contents_so_far, hash_so_far};
ghost use Rattle.intake.specs.Arrival.{MayHold, fault_of};

use crate::contents::{begins_plain, contents_in};
use nar::NarError;
use sha2::{Digest, Sha256};
use streams::{PIECE_SIZE, Pieces};

/// Some pieces of an archive: those from one place up to another. What is hashed are whole pieces, so that bytes which
/// come a few at a time cost no more.
#[derive(Clone, Copy)]
pub struct Part<'a> {
    /// All pieces that have come.
    pub pieces: &'a Pieces,
    /// The place of the first.
    pub from: usize,
    /// The place after the last.
    pub to: usize,
    ghost order: { from ≤ to },
    ghost within: { to ≤ count_of pieces.now },
}

/// Hashes a part of the pieces.
pub fn hash_pieces(hasher: &mut Sha256, part: Part<'_>)
    ensures { Holds256 hasher.old (take (65536 * part.entry.from) part.entry.pieces.now)
        → Holds256 hasher.new (take (65536 * part.entry.to) part.entry.pieces.now) }
{
    let Part { pieces, from, to } = part;
    // The length is a `usize`, so the place of each piece in bytes is one too.
    let _len = pieces.len();
    'pieces: for i in from..to {
        hasher.update(pieces.piece(i));
    }
}

/// Hashes what a part of the pieces has of the contents.
fn hash_contents(hasher: &mut Sha256, part: Part<'_>)
    ensures { Holds256 hasher.old (contents_so_far (take (65536 * part.entry.from) part.entry.pieces.now))
        → Holds256 hasher.new (contents_so_far (take (65536 * part.entry.to) part.entry.pieces.now)) }
{
    let Part { pieces, from, to } = part;
    let _len = pieces.len();
    'parts: for i in from..to {
        hasher.update(contents_in(pieces.piece(0), PIECE_SIZE * i, pieces.piece(i)));
    }
}

/// Hashes the contents in a part of the pieces, where they are asked for.
pub fn hash_asked(contents: &mut Option<Sha256>, part: Part<'_>)
    ensures { MayHold contents.old (contents_so_far (take (65536 * part.entry.from) part.entry.pieces.now))
        → MayHold contents.new (contents_so_far (take (65536 * part.entry.to) part.entry.pieces.now)) }
{
    if let Some(hasher) = contents {
        hash_contents(hasher, part);
    }
}

/// The running digest of the contents in the pieces up to a place.
pub fn contents_up_to(pieces: &Pieces, to: usize) -> Sha256
    requires { to ≤ count_of pieces.now }
    ensures { Holds256 result (contents_so_far (take (65536 * to) pieces.now)) }
{
    let mut hasher = Sha256::new();
    let from = 0;
    hash_contents(&mut hasher, Part { pieces, from, to });
    hasher
}

/// The result of a running digest, if there is one.
pub fn finalized(contents: Option<Sha256>) -> Option<[u8; 32]>
    ensures { (bytes : List ℕ) → MayHold contents bytes → IfSome result (λ h. h ≡ sha256 bytes) }
{
    match contents {
        Some(hasher) => Some(hasher.finalize()),
        None => None,
    }
}

/// The digest of the contents, which may be known.
fn contents_hash(known: Option<[u8; 32]>, pieces: &Pieces) -> [u8; 32]
    ensures { IfSome known (λ h. h ≡ sha256 (contents_so_far pieces.now))
        → result ≡ sha256 (contents_so_far pieces.now) }
{
    match known {
        Some(hash) => hash,
        None => contents_up_to(pieces, pieces.count()).finalize(),
    }
}

/// The digest of the contents, where the bytes begin as the archive of a file that isn't executable.
fn hash_if_plain(known: Option<[u8; 32]>, pieces: &Pieces) -> Option<[u8; 32]>
    ensures { IfSome known (λ h. h ≡ sha256 (contents_so_far pieces.now)) → result ≡ hash_so_far pieces.now }
{
    if !begins_plain(pieces.first()) {
        return None;
    }
    Some(contents_hash(known, pieces))
}

/// The digest of the contents, which may be known, where the bytes, whose fault is known, are the archive of a file
/// that isn't executable.
pub fn plain_hash(
    fault: Option<NarError>,
    known: Option<[u8; 32]>,
    pieces: &Pieces,
) -> Option<[u8; 32]>
    ensures { IsBytes pieces.now → fault ≡ fault_of (outcome_of pieces.now)
        → IfSome known (λ h. h ≡ sha256 (contents_so_far pieces.now))
        → result ≡ hash_of (plain_contents (outcome_of pieces.now)) }
{
    match fault {
        Some(_) => None,
        None => hash_if_plain(known, pieces),
    }
}
