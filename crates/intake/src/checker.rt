//! A checker that is fed each byte, and asked only at the end.

ghost use Rattle.std.specs.Prelude.{◌≡◌, ◌++◌, List, ℕ, OnOk};
ghost use Rattle.nar.specs.declared.error.NarError.TheVariants.{Memory as memory};
ghost use Rattle.nar.specs.Outcome.{outcome_of};
ghost use Rattle.nar.specs.Checker.{HasBeenFed, HasFailed};
ghost use Rattle.intake.specs.Arrival.{fault_of};

use nar::{Checker, NarError};
use std::alloc::AllocError;

/// Feeds a checker. Only running out of memory is reported: the checker remembers a fault by itself.
pub(crate) fn feed(checker: &mut Checker, piece: &[u8]) -> Result<(), AllocError>
    ensures fed { (all : List ℕ) → HasBeenFed checker.old all → HasBeenFed checker.new (all ++ piece.now) }
    ensures sound { OnOk result (¬ HasFailed checker.new memory) }
{
    match checker.feed(piece) {
        Ok(()) => Ok(()),
        Err(NarError::Memory) => Err(AllocError),
        Err(_) => Ok(()),
    }
}

/// What is wrong with all bytes as an archive, if anything is.
pub(crate) fn fault_at_end(checker: Checker) -> Option<NarError>
    ensures { (all : List ℕ) → HasBeenFed checker all → ¬ HasFailed checker memory
        → result ≡ fault_of (outcome_of all) }
{
    match checker.finish() {
        Ok(()) => None,
        Err(e) => Some(e),
    }
}
