//! Whole bodies without a payload.
ghost use Rattle.std.specs.Prelude.{◌≡◌, IfOk, Err, List, ℕ, [], ◌∷◌};
ghost use Rattle.std.specs.Str.{bytes_eq};
ghost use Rattle.wire_bodies.specs.Lines.{Entry, Reads, spelled};
ghost use Rattle.wire_bodies.specs.Bodies.{Says, IsPath, IsDelete, IsCollect, IsRuntime, labelled};
ghost use Rattle.wire_bodies.specs.declared.heads.DeleteHead.{DeleteHead as DeleteOf};
ghost use Rattle.wire_bodies.specs.declared.collect.CollectHead.{CollectHead as CollectOf};

use crate::collect::{CollectHead, collect_head};
use crate::error::BodyError;
use crate::heads::{DeleteHead, delete_head, path_head};
use crate::lines::Lines;
use crate::parts::body_of;
use crate::roots::runtime_head;
use paths::{StoreDir, StorePath};
use std::alloc::Global;

/// Whether a body says nothing: it is empty, or the empty line alone.
pub fn is_blank(body: &[u8]) -> bool
    ensures { result ≡ bytes_eq (spelled body.now) (10 ∷ []) }
{
    body.is_empty() || body == b"\n".as_slice()
}

/// The entries of a body after whose empty line nothing follows.
fn entries_of<'b>(body: &'b [u8]) -> Result<Lines<'b>, BodyError>
    ensures ok { IfOk result (λ entries. Reads (spelled body.now) entries []) }
    ensures bad { result ≡ Err BodyError.BadBodyHead → (es : List Entry) → Reads (spelled body.now) es [] → ⊥ }
{
    match body_of(body) {
        Some(parts) => {
            if parts.payload.is_empty() {
                Ok(parts.entries)
            } else {
                Err(BodyError::BadBodyHead)
            }
        }
        None => Err(BodyError::BadBodyHead),
    }
}

/// The path that a body names: `path`, once.
///
/// # Errors
///
/// `BadBodyHead` if and only if the body doesn't name one path; `Memory` if memory was refused.
pub fn path_body(alloc: Global, dir: &StoreDir, body: &[u8]) -> Result<StorePath, BodyError>
    ensures ok { IfOk result (λ path. Says (IsPath dir.now) body.now path) }
    ensures bad { result ≡ Err BodyError.BadBodyHead → (path : List ℕ) → Says (IsPath dir.now) body.now path → ⊥ }
{
    let entries = entries_of(body)?;
    path_head(alloc, dir, &entries)
}

/// The deletion of a body: any number of `path`, and `ignore-liveness` at most once.
///
/// # Errors
///
/// `BadBodyHead` if and only if the body isn't a deletion; `Memory` if memory was refused.
pub fn delete_body(alloc: Global, dir: &StoreDir, body: &[u8]) -> Result<DeleteHead, BodyError>
    ensures ok { IfOk result (λ head. Says (IsDelete dir.now) body.now head) }
    ensures bad { result ≡ Err BodyError.BadBodyHead → (head : DeleteOf) → Says (IsDelete dir.now) body.now head → ⊥ }
{
    let entries = entries_of(body)?;
    delete_head(alloc, dir, &entries)
}

/// The collection of a body: `max-freed` and `ignore-liveness`, each at most once.
///
/// # Errors
///
/// `BadBodyHead` if and only if the body isn't a collection; `Memory` if memory was refused.
pub fn collect_body(alloc: Global, body: &[u8]) -> Result<CollectHead, BodyError>
    ensures ok { IfOk result (λ head. Says IsCollect body.now head) }
    ensures bad { result ≡ Err BodyError.BadBodyHead → (head : CollectOf) → Says IsCollect body.now head → ⊥ }
{
    let entries = entries_of(body)?;
    collect_head(&entries)
}

/// The labels and paths that a body names: any number of `root`, each a label, a space and a path text.
///
/// # Errors
///
/// `BadBodyHead` if and only if the body isn't such entries; `Memory` if memory was refused.
pub fn runtime_body(
    alloc: Global,
    dir: &StoreDir,
    body: &[u8],
) -> Result<Vec<(String, StorePath)>, BodyError>
    ensures ok { IfOk result (λ roots. Says (IsRuntime dir.now) body.now (labelled roots.items)) }
    ensures bad { result ≡ Err BodyError.BadBodyHead
        → (roots : List (List ℕ × List ℕ)) → Says (IsRuntime dir.now) body.now roots → ⊥ }
{
    let entries = entries_of(body)?;
    runtime_head(alloc, dir, &entries)
}
