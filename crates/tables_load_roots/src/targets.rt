//! The targets of roots.

ghost use Rattle.std.specs.Prelude.{◌≡◌, true, false, IfOk, MatchOption};
ghost use Rattle.tables_load_roots.specs.Loaded.{is_target};

use paths::{StorePath, StorePathError};
use std::alloc::{AllocError, Global};
use tables_outline::Outline;

/// The path that a text is, if the outline has it.
pub(crate) fn target_of(
    alloc: Global,
    outline: &Outline,
    text: &str,
) -> Result<Option<StorePath>, AllocError>
    ensures { IfOk result
        (λ o. MatchOption o (is_target outline.now.objects text.now ≡ false)
        (λ p. (p ≡ text.now) × (is_target outline.now.objects text.now ≡ true))) }
{
    match StorePath::from_base(alloc, text) {
        Ok(path) => {
            if outline.has(&path) {
                Ok(Some(path))
            } else {
                Ok(None)
            }
        }
        Err(StorePathError::BadStorePath) => Ok(None),
        Err(StorePathError::Memory) => Err(AllocError),
    }
}
