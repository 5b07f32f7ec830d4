//! A checker that is fed an archive in pieces.

ghost use Rattle.std.specs.Prelude.{◌≡◌, ◌≢◌, ◌++◌, ℕ, List, [], Err, OnOk, IfOk, IfErr};
ghost use Rattle.nar.specs.declared.error.NarError.{NarError as Fault};
ghost use Rattle.nar.specs.declared.error.NarError.TheVariants.{Truncated, Memory as memory};
ghost use Rattle.nar.specs.Tree.{IsBytes};
ghost use Rattle.nar.specs.Fault.{IsFault};
ghost use Rattle.nar.specs.Answer.{IfFault};

use crate::error::NarError;
use crate::progress::Progress;
use std::alloc::Global;

/// Checks an archive that comes in pieces, however they are cut.
///
/// A checker stores no contents: the bytes of files, of targets and of overlong strings are counted. So its memory is
/// bounded by the longest name and the depth.
#[derive(Drop)]
pub struct Checker {
    progress: Progress,
    failed: Option<NarError>,
}

impl Checker {
    ghost use Rattle.nar.specs.Progress.{HasReadBefore};
    ghost use Rattle.nar.specs.Checker.{HasBeenFed, HasFailed, Ends};

    /// A checker that has been fed nothing. Allocates no memory yet.
    ///
    /// ```rust
    /// use nar::{Checker, NarError};
    ///
    /// let checker = Checker::new(alloc);
    /// assert_eq!(rt; checker.finish(), Err(NarError::Truncated));
    /// ```
    pub fn new(alloc: Global) -> Checker
        ensures fed { HasBeenFed result [] }
        ensures sound { (e : Fault) → ¬ HasFailed result e }
    {
        Checker {
            progress: Progress::new(alloc),
            failed: None,
        }
    }

    /// Takes the next piece, and returns the fault of the pieces so far, if they have one that further pieces can't
    /// mend. After an error, each call returns that error.
    ///
    /// ```rust
    /// use nar::{Checker, NarError};
    ///
    /// let mut checker = Checker::new(alloc);
    /// checker.feed(b"\x0d\0\0\0\0\0\0\0nix-")?;
    /// checker.feed(b"archive-1\0\0\0")?;
    /// assert_eq!(rt; checker.feed(&[0xff; 8]), Err(NarError::TooLarge));
    /// assert_eq!(rt; checker.feed(b""), Err(NarError::TooLarge));
    /// ```
    pub fn feed(&mut self, piece: &[u8]) -> Result<(), NarError>
        ensures fed { (all : List ℕ) → HasBeenFed self.old all → HasBeenFed self.new (all ++ piece.now) }
        // A fault of the pieces so far is returned, unless they only end early.
        ensures good { OnOk result ((all : List ℕ) (f : Fault) → HasBeenFed self.old all → IsFault (all ++ piece.now) f
            → f ≡ Truncated) }
        // A fault that is returned is one of the pieces so far.
        ensures fault { IfErr result
            (λ e. IfFault e
            (λ f. (all : List ℕ) → HasBeenFed self.old all → IsFault (all ++ piece.now) f × (f ≢ Truncated))) }
        ensures failed { IfErr result (HasFailed self.new) }
        // A checker has failed only if it reported an error.
        ensures sound { OnOk result ((e : Fault) → ¬ HasFailed self.new e) }
        ensures repeats { (e : Fault) → HasFailed self.old e → (result ≡ Err e) × HasFailed self.new e }
    {
        match self.failed {
            Some(e) => Err(e),
            None => match self.take(piece) {
                Ok(()) => Ok(()),
                Err(e) => {
                    self.failed = Some(e);
                    Err(e)
                }
            },
        }
    }

    fn take(&mut self, piece: &[u8]) -> Result<(), NarError>
        ensures ok { OnOk result ((all : List ℕ) → IsBytes all → HasReadBefore self.old.progress piece.now all
            → HasReadBefore self.new.progress [] all) }
        ensures err { IfErr result
            (λ e. IfFault e
            (λ f. (all : List ℕ) → IsBytes all → HasReadBefore self.old.progress piece.now all
            → IsFault all f × (f ≢ Truncated))) }
        ensures failed { self.new.failed ≡ self.old.failed }
    {
        let mut rest = piece;
        'pieces: while !rest.is_empty() {
            rest = self.progress.step(rest)?;
        }
        Ok(())
    }

    /// The end of the pieces: `Ok` if they are an archive, otherwise their fault. After an error of `feed` it returns
    /// that error.
    ///
    /// ```rust
    /// use nar::{Checker, Node};
    ///
    /// let mut archive = Vec::new(alloc);
    /// nar::write(&Node::Symlink { target: b"a" }, &mut archive)?;
    /// let mut checker = Checker::new(alloc);
    /// for byte in &archive {
    ///     checker.feed(&[*byte])?;
    /// }
    /// checker.finish()?;
    /// ```
    pub fn finish(self) -> Result<(), NarError>
        ensures answer { (all : List ℕ) → HasBeenFed self all → Ends result all }
        // `Memory` is returned only if a `feed` has returned it: the end allocates nothing.
        ensures memory { result ≡ Err memory → HasFailed self memory }
        ensures repeats { (e : Fault) → HasFailed self e → result ≡ Err e }
    {
        match self.failed {
            Some(e) => Err(e),
            None => {
                if self.progress.is_done() {
                    Ok(())
                } else {
                    Err(NarError::Truncated)
                }
            }
        }
    }
}
