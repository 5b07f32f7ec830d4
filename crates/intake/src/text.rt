//! Texts as archives.

ghost use Rattle.std.specs.Prelude.{◌≡◌, Some, false, IfOk};
ghost use Rattle.nar.specs.Tree.{regular};
ghost use Rattle.nar.specs.Archive.{archive, spelling};

use crate::contents::PREFIX;
use crate::intake::Intake;
use std::alloc::{AllocError, Global};

const CLOSE: &[u8] = b"\x01\0\0\0\0\0\0\0)\0\0\0\0\0\0\0";

impl Intake {
    /// The archive of the regular file with these contents that isn't executable. They are copied once, into the
    /// pieces.
    ///
    /// # Errors
    ///
    /// Memory was refused.
    pub fn of_text(alloc: Global, contents: &[u8]) -> Result<Intake, AllocError>
        ensures { IfOk result (λ i. i ≡ Some (spelling (archive (regular false contents.now)))) }
    {
        let padding = (8 - contents.len() % 8) % 8;
        let mut intake = Intake::new(alloc);
        intake.push(PREFIX)?;
        intake.push(&(contents.len() as u64).to_le_bytes())?;
        intake.push(contents)?;
        intake.push(&[0u8; 8][..padding])?;
        intake.push(CLOSE)?;
        Ok(intake)
    }
}
