//! The heads of the other bodies.
ghost use Rattle.std.specs.Prelude.{◌≡◌, IfOk, Err, List, ℕ};
ghost use Rattle.wire_bodies.specs.Bodies.{IsNamed, IsPath, IsDelete};
ghost use Rattle.wire_bodies.specs.declared.heads.NamedHead.{NamedHead as NamedOf};
ghost use Rattle.wire_bodies.specs.declared.heads.DeleteHead.{DeleteHead as DeleteOf};

use crate::entries::are_known;
use crate::error::BodyError;
use crate::lines::Lines;
use crate::values::{each_path, flag_if_any, one_name, one_path};
use paths::{Name, StoreDir, StorePath};
use std::alloc::Global;

/// What an add says before its contents.
#[derive(Drop)]
pub struct NamedHead {
    pub name: Name,
    pub references: Vec<StorePath>,
}

/// What a deletion says.
#[derive(Drop)]
pub struct DeleteHead {
    pub paths: Vec<StorePath>,
    pub ignore_liveness: Option<bool>,
}

/// The add of some entries: `name`, and any number of `reference`.
///
/// # Errors
///
/// `BadBodyHead` if and only if the entries aren't those of an add; `Memory` if memory was refused.
pub fn named_head(
    alloc: Global,
    dir: &StoreDir,
    entries: &Lines<'_>,
) -> Result<NamedHead, BodyError>
    ensures ok { IfOk result (λ head. IsNamed dir.now entries.now head) }
    ensures bad { result ≡ Err BodyError.BadBodyHead → (head : NamedOf) → IsNamed dir.now entries.now head → ⊥ }
{
    if !are_known(entries, &["name", "reference"]) {
        return Err(BodyError::BadBodyHead);
    }
    Ok(NamedHead {
        name: one_name(alloc, entries, "name")?,
        references: each_path(alloc, dir, entries, "reference")?,
    })
}

/// The path that some entries name: `path`, once.
///
/// # Errors
///
/// `BadBodyHead` if and only if the entries don't name one path; `Memory` if memory was refused.
pub fn path_head(alloc: Global, dir: &StoreDir, entries: &Lines<'_>) -> Result<StorePath, BodyError>
    ensures ok { IfOk result (λ path. IsPath dir.now entries.now path) }
    ensures bad { result ≡ Err BodyError.BadBodyHead → (path : List ℕ) → IsPath dir.now entries.now path → ⊥ }
{
    if !are_known(entries, &["path"]) {
        return Err(BodyError::BadBodyHead);
    }
    one_path(alloc, dir, entries, "path")
}

/// The deletion of some entries: any number of `path`, and `ignore-liveness` at most once.
///
/// # Errors
///
/// `BadBodyHead` if and only if the entries aren't those of a deletion; `Memory` if memory was refused.
pub fn delete_head(
    alloc: Global,
    dir: &StoreDir,
    entries: &Lines<'_>,
) -> Result<DeleteHead, BodyError>
    ensures ok { IfOk result (λ head. IsDelete dir.now entries.now head) }
    ensures bad { result ≡ Err BodyError.BadBodyHead → (head : DeleteOf) → IsDelete dir.now entries.now head → ⊥ }
{
    if !are_known(entries, &["path", "ignore-liveness"]) {
        return Err(BodyError::BadBodyHead);
    }
    Ok(DeleteHead {
        paths: each_path(alloc, dir, entries, "path")?,
        ignore_liveness: flag_if_any(entries, "ignore-liveness")?,
    })
}
