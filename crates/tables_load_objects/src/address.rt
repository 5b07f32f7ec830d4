//! The content address of an object compared with its archive and its references.

ghost use Rattle.std.specs.Prelude.{◌≡◌, IfOk};
ghost use Rattle.std.specs.List.{list_any};
ghost use Rattle.std.specs.Str.{bytes_eq};
ghost use Rattle.tables_load_objects.specs.Tested as tested;

use crate::archive_bytes::ArchiveBytes;
use paths::{Ca, StoreDir, StorePath, VerifyError};
use std::alloc::{AllocError, Global};

pub(crate) fn are_same(a: &[u8], b: &[u8]) -> bool
    ensures { result ≡ bytes_eq a.now b.now }
{
    a == b
}

fn refers_to(refs: &[StorePath], path: &StorePath) -> bool
    ensures { result ≡ list_any (bytes_eq path.now) refs.now }
{
    refs.iter().any(|r| are_same(path.as_str().as_bytes(), r.as_str().as_bytes()))
}

/// Whether an address, if there is one, is that of the object, which doesn't refer to itself then.
pub(crate) fn fits_address(
    alloc: Global,
    dir: &StoreDir,
    path: &StorePath,
    archive: &ArchiveBytes,
    ca: Option<Ca>,
    refs: &[StorePath],
) -> Result<bool, AllocError>
    ensures { IfOk result (λ ok. ok ≡ tested.fits_address ca dir.now path.now refs.now archive.now) }
{
    let Some(ca) = ca else {
        return Ok(true);
    };
    if refers_to(refs, path) {
        return Ok(false);
    }
    let facts = archive.facts_for(ca.method());
    match ca.verify_facts(alloc, dir, path, refs, &facts) {
        Ok(()) => Ok(true),
        Err(VerifyError::Memory) => Err(AllocError),
        Err(VerifyError::CaMismatch) => Ok(false),
    }
}
