//! An archive that has come so far, with all that will be asked of it.

ghost use Rattle.std.specs.Prelude.{◌≡◌, ◌++◌, [], OnOk};
ghost use Rattle.nar.specs.Tree.{IsBytes};
ghost use Rattle.paths.specs.Facts.{HasFactsFor, facts_of};
ghost use Rattle.intake.specs.Arrival.{HasAccepted};
ghost use Rattle.intake.specs.Described.{DescribesBytes, facts_for};

use crate::checker::{fault_at_end, feed};
use crate::digests::{Part, contents_up_to, finalized, hash_asked, hash_pieces, plain_hash};
use nar::{Checker, NarError};
use paths::{Facts, Method};
use sha2::{Digest, Sha256};
use std::alloc::{AllocError, Global};
use std::marker::Model;
use streams::{PIECE_SIZE, Pieces};

/// The bytes that came, and what is found of them.
#[derive(Drop)]
pub struct Arrived {
    /// What is wrong with them as an archive, if anything is.
    pub fault: Option<NarError>,
    /// The SHA-256 digest of the bytes.
    pub nar_hash: [u8; 32],
    /// The digest of the contents, if it was asked for and the bytes begin as the archive of a file that isn't
    /// executable.
    pub contents_hash: Option<[u8; 32]>,
    /// The bytes themselves.
    pub pieces: Pieces,
}

impl Arrived {
    /// The facts of the bytes for a content address. If they are the archive of a file that isn't executable, and the
    /// digest of its contents wasn't asked for, the contents are hashed here.
    pub fn facts(&self) -> Facts
        ensures { DescribesBytes self.now → result ≡ facts_of self.now.pieces }
    {
        Facts {
            nar_hash: self.nar_hash,
            nar_size: self.pieces.len() as u64,
            plain: plain_hash(self.fault, self.contents_hash, &self.pieces),
        }
    }

    /// The facts of the bytes for a content address of this method. For `Text` they are those of `facts`; for `Source`
    /// no contents are hashed, and `plain` is `None`.
    ///
    /// ```rust
    /// use intake::Intake;
    /// use paths::Method;
    ///
    /// let arrived = Intake::of_text(alloc, b"abc")?.finish()?;
    /// assert!(rt; arrived.facts_for(Method::Text).plain.is_some());
    /// assert!(rt; arrived.facts_for(Method::Source).plain.is_none());
    /// ```
    pub fn facts_for(&self, method: Method) -> Facts
        ensures exact { DescribesBytes self.now → result ≡ facts_for method self.now.pieces }
        ensures needed { DescribesBytes self.now → HasFactsFor method self.now.pieces result }
    {
        match method {
            Method::Text => self.facts(),
            Method::Source => Facts {
                nar_hash: self.nar_hash,
                nar_size: self.pieces.len() as u64,
                plain: None,
            },
        }
    }
}

/// The bytes so far, which contracts see. Each byte is checked as it comes, and hashed with its piece. The contents of
/// a file are hashed too, if that is asked for.
#[derive(Drop)]
pub struct Arriving {
    alloc: Global,
    checker: Checker,
    hasher: Sha256,
    contents: Option<Sha256>,
    pieces: Pieces,
}

impl Model for Arriving {
    ghost use Rattle.std.specs.Prelude.{List, ℕ};
    ghost use Rattle.intake.specs.Arrival.{HasAccepted};

    ghost Value = { List ℕ };

    ghost view = { λ a. a.pieces };

    ghost invariant = { λ a. HasAccepted a.checker a.hasher a.contents a.pieces };
}

/// Takes the next piece. If memory is refused, the parts no longer agree.
fn accept_piece(
    checker: &mut Checker,
    hasher: &mut Sha256,
    contents: &mut Option<Sha256>,
    pieces: &mut Pieces,
    piece: &[u8],
) -> Result<(), AllocError>
    ensures pieces { OnOk result (pieces.new ≡ pieces.old ++ piece.now) }
    ensures accepted { OnOk result (HasAccepted checker.old hasher.old contents.old pieces.old
        → HasAccepted checker.new hasher.new contents.new pieces.new) }
{
    let whole = pieces.len() / PIECE_SIZE;
    pieces.push(piece)?;
    feed(checker, piece)?;
    let now = pieces.len() / PIECE_SIZE;
    let part = Part {
        pieces: &*pieces,
        from: whole,
        to: now,
    };
    hash_pieces(hasher, part);
    hash_asked(contents, part);
    Ok(())
}

impl Arriving {
    /// No bytes.
    pub fn new(alloc: Global) -> Arriving
        ensures { result ≡ [] }
    {
        Arriving {
            alloc,
            checker: Checker::new(alloc),
            hasher: Sha256::new(),
            contents: None,
            pieces: Pieces::new(alloc),
        }
    }

    /// Takes the next piece. If memory is refused, no bytes are left.
    pub fn push(&mut self, piece: &[u8]) -> Result<(), AllocError>
        ensures { OnOk result (self.new ≡ self.old ++ piece.now) }
    {
        match accept_piece(
            &mut self.checker,
            &mut self.hasher,
            &mut self.contents,
            &mut self.pieces,
            piece,
        ) {
            Ok(()) => Ok(()),
            Err(refused) => {
                *self = Arriving::new(self.alloc);
                Err(refused)
            }
        }
    }

    /// Hashes the contents of a file that isn't executable, from now on as they come. Contents that have come already
    /// are hashed here.
    pub fn hash_contents(&mut self)
        ensures { self.new ≡ self.old }
    {
        if self.contents.is_none() {
            self.contents = Some(contents_up_to(&self.pieces, self.pieces.len() / PIECE_SIZE));
        }
    }

    /// A law: what has come are bytes. The function does nothing.
    pub fn are_bytes(&self)
        ensures { IsBytes self.now }
    {
        let _len = self.pieces.len();
    }

    /// The facts at the end. Only bytes that aren't hashed yet are read.
    pub fn finish(self) -> Arrived
        ensures pieces { result.pieces ≡ self }
        ensures reported { DescribesBytes result }
    {
        let Arriving {
            checker,
            mut hasher,
            mut contents,
            pieces,
            ..
        } = self;
        let whole = pieces.len() / PIECE_SIZE;
        let rest = Part {
            pieces: &pieces,
            from: whole,
            to: pieces.count(),
        };
        hash_pieces(&mut hasher, rest);
        hash_asked(&mut contents, rest);
        Arrived {
            fault: fault_at_end(checker),
            nar_hash: hasher.finalize(),
            contents_hash: finalized(contents),
            pieces,
        }
    }
}
