//! The body of an import.
ghost use Rattle.std.specs.Prelude.{◌≡◌, IfOk, Err, List, ℕ};
ghost use Rattle.wire_bodies.specs.Bodies.{IsImport, IsImportBody};
ghost use Rattle.wire_bodies.specs.declared.import.ImportHead.{ImportHead as HeadOf};

use crate::entries::are_known;
use crate::error::BodyError;
use crate::lines::Lines;
use crate::parts::body_of;
use crate::values::{ca_if_any, each_path, one_hash, one_path, path_if_any};
use paths::{Ca, StoreDir, StorePath};
use std::alloc::Global;

/// What the body of an import says before the archive.
#[derive(Drop)]
pub struct ImportHead {
    pub path: StorePath,
    /// The SHA-256 that the archive is said to have.
    pub nar_hash: [u8; 32],
    pub references: Vec<StorePath>,
    pub deriver: Option<StorePath>,
    pub ca: Option<Ca>,
}

/// The import of some entries: `path`, `nar-hash`, any number of `reference`, `deriver` and `ca` at most once.
///
/// # Errors
///
/// `BadBodyHead` if and only if the entries aren't those of an import; `Memory` if memory was refused.
pub fn import_head(
    alloc: Global,
    dir: &StoreDir,
    entries: &Lines<'_>,
) -> Result<ImportHead, BodyError>
    ensures ok { IfOk result (λ head. IsImport dir.now entries.now head) }
    ensures bad { result ≡ Err BodyError.BadBodyHead → (head : HeadOf) → IsImport dir.now entries.now head → ⊥ }
{
    if !are_known(entries, &["path", "nar-hash", "reference", "deriver", "ca"]) {
        return Err(BodyError::BadBodyHead);
    }
    Ok(ImportHead {
        path: one_path(alloc, dir, entries, "path")?,
        nar_hash: one_hash(alloc, entries, "nar-hash")?,
        references: each_path(alloc, dir, entries, "reference")?,
        deriver: path_if_any(alloc, dir, entries, "deriver")?,
        ca: ca_if_any(alloc, entries, "ca")?,
    })
}

/// The import of a body, and the archive after its empty line, which is borrowed and not examined.
///
/// # Errors
///
/// `BadBodyHead` if and only if the body isn't an import; `Memory` if memory was refused.
pub fn import_body<'b>(
    alloc: Global,
    dir: &StoreDir,
    body: &'b [u8],
) -> Result<(ImportHead, &'b [u8]), BodyError>
    ensures ok { IfOk result (λ import. IsImportBody dir.now body.now import.0 import.1.now) }
    ensures bad { result ≡ Err BodyError.BadBodyHead
        → (head : HeadOf) (nar : List ℕ) → IsImportBody dir.now body.now head nar → ⊥ }
{
    let Some(parts) = body_of(body) else {
        return Err(BodyError::BadBodyHead);
    };
    let head = import_head(alloc, dir, &parts.entries)?;
    Ok((head, parts.payload))
}
