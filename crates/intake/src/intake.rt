//! An archive on its way in.

ghost use Rattle.std.specs.Prelude.{◌≡◌, List, ℕ, [], Some, None, IsSome, IfOk, OnOk, OnErr};
ghost use Rattle.nar.specs.Tree.{IsBytes};
ghost use Rattle.intake.specs.Arrival.{appended, bytes_in};
ghost use Rattle.intake.specs.Described.{DescribesBytes};

use crate::arrival::{Arrived, Arriving};
use std::alloc::{AllocError, Global};
use std::marker::Model;
use streams::Sink;

/// An archive that comes in pieces, however they are cut. Each byte is checked and stored as it comes, also if the
/// bytes aren't an archive, and is hashed with its piece of 65,536 bytes. If memory is refused once, the intake is
/// spent: from then on each call answers that. Contracts see the bytes that have come, or none if it is spent.
#[derive(Drop)]
pub struct Intake {
    so_far: Option<Arriving>,
}

impl Model for Intake {
    ghost use Rattle.std.specs.Prelude.{Option, List, ℕ};

    ghost Value = { Option (List ℕ) };

    ghost view = { λ i. i.so_far };
}

/// Drops what has come. This is a function apart from `push`, which would otherwise clear room for it at each call.
#[cold]
#[inline(never)]
fn spend(so_far: &mut Option<Arriving>)
    ensures { so_far.new ≡ None }
{
    *so_far = None;
}

impl Intake {
    /// No bytes yet. Allocates no memory.
    ///
    /// ```rust
    /// use store::Intake;
    ///
    /// let nar = Intake::new(alloc);
    /// assert_eq!(rt; nar.finish()?.pieces.len(), 0);
    /// ```
    pub fn new(alloc: Global) -> Intake
        ensures { result ≡ Some [] }
    {
        Intake {
            so_far: Some(Arriving::new(alloc)),
        }
    }

    /// An intake of these bytes.
    ///
    /// ```rust
    /// use nar::Node;
    /// use store::Intake;
    ///
    /// let mut archive = Vec::new(alloc);
    /// nar::write(&Node::Symlink { target: b"a" }, &mut archive)?;
    /// let arrived = Intake::of_bytes(alloc, &archive)?.finish()?;
    /// assert!(rt; arrived.fault.is_none());
    /// ```
    ///
    /// # Errors
    ///
    /// Memory was refused.
    pub fn of_bytes(alloc: Global, bytes: &[u8]) -> Result<Intake, AllocError>
        ensures { IfOk result (λ i. i ≡ Some bytes.now) }
    {
        let mut intake = Intake::new(alloc);
        intake.push(bytes)?;
        Ok(intake)
    }

    /// Takes the next piece.
    ///
    /// ```rust
    /// use nar::NarError;
    /// use store::Intake;
    ///
    /// let mut nar = Intake::new(alloc);
    /// nar.push(b"\x0d\0\0\0\0\0\0\0")?;
    /// nar.push(b"nix-archive-1\0\0\0")?;
    /// assert_eq!(rt; nar.finish()?.fault, Some(NarError::Truncated));
    /// ```
    ///
    /// # Errors
    ///
    /// Memory was refused, now or by an earlier piece.
    pub fn push(&mut self, piece: &[u8]) -> Result<(), AllocError>
        ensures ok { OnOk result ((self.new ≡ appended self.old piece.now) × IsSome self.old) }
        ensures err { OnErr result (self.new ≡ None) }
    {
        let Some(arriving) = &mut self.so_far else {
            return Err(AllocError);
        };
        if let Err(refused) = arriving.push(piece) {
            spend(&mut self.so_far);
            return Err(refused);
        }
        Ok(())
    }

    /// Hashes the contents of a file that isn't executable as they come, from now on. Call it if the address of a text
    /// will need their digest: then `Arrived::facts` reads no byte again.
    ///
    /// ```rust
    /// use nar::Node;
    /// use sha2::{Digest, Sha256};
    /// use store::Intake;
    ///
    /// let mut archive = Vec::new(alloc);
    /// nar::write(&Node::Regular { executable: false, contents: b"abc" }, &mut archive)?;
    /// let mut nar = Intake::new(alloc);
    /// nar.hash_contents();
    /// nar.push(&archive)?;
    /// assert_eq!(rt; nar.finish()?.contents_hash, Some(Sha256::digest("abc")));
    /// ```
    pub fn hash_contents(&mut self)
        ensures { self.new ≡ self.old }
    {
        if let Some(arriving) = &mut self.so_far {
            arriving.hash_contents();
        }
    }

    /// A law: what has come are bytes. The function does nothing.
    pub fn are_bytes(&self)
        ensures { IsBytes (bytes_in self.now) }
    {
        if let Some(arriving) = &self.so_far {
            arriving.are_bytes();
        }
    }

    /// The end of the archive: its fault or none, its digest, and its bytes. Allocates no memory.
    ///
    /// ```rust
    /// use sha2::{Digest, Sha256};
    /// use store::Intake;
    ///
    /// let arrived = Intake::of_bytes(alloc, b"abc")?.finish()?;
    /// assert_eq!(rt; arrived.nar_hash, Sha256::digest("abc"));
    /// assert!(rt; arrived.fault.is_some());
    /// ```
    ///
    /// # Errors
    ///
    /// Memory was refused by an earlier piece.
    pub fn finish(self) -> Result<Arrived, AllocError>
        ensures pieces { IfOk result (λ a. self ≡ Some a.pieces) }
        ensures reported { IfOk result DescribesBytes }
        ensures spent { OnErr result (self ≡ None) }
    {
        let Some(arriving) = self.so_far else {
            return Err(AllocError);
        };
        Ok(arriving.finish())
    }
}

impl Sink for Intake {
    ghost received = { bytes_in };

    fn take(&mut self, piece: &[u8]) -> Result<(), AllocError> {
        self.push(piece)
    }
}
