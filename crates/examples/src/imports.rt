//! Requests of `store` that import files, delete one path, and put one root on a path.
use crate::fixtures::path;
use nar::{Node, is_writable, write};
use paths::{StorePath, StorePathError};
use sha2::{Digest, Sha256};
use std::alloc::{AllocError, Global};
use std::test::Fail;
use store::{Intake, Request};

/// A file to import: its base name, its contents, and the base names of a reference and of its deriver, if it has them.
#[derive(Clone, Copy)]
pub struct File {
    pub base: &'static str,
    pub contents: &'static [u8],
    pub reference: Option<&'static str>,
    pub deriver: Option<&'static str>,
}

/// The archive of a file.
fn archive_of(alloc: Global, contents: &[u8]) -> Result<Vec<u8>, Fail> {
    let node = Node::Regular {
        executable: false,
        contents,
    };
    if !is_writable(&node) {
        return Err(Fail::new("no archive"));
    }
    let mut archive = Vec::new(alloc);
    write(&node, &mut archive)?;
    Ok(archive)
}

/// The path of a base name, if there is one.
fn optional(alloc: Global, base: Option<&str>) -> Result<Option<StorePath>, StorePathError> {
    match base {
        Some(base) => Ok(Some(path(alloc, base)?)),
        None => Ok(None),
    }
}

/// The list of a path, or of none.
fn list_of(alloc: Global, path: Option<StorePath>) -> Result<Vec<StorePath>, AllocError> {
    let mut paths = Vec::new(alloc);
    if let Some(path) = path {
        paths.push(path)?;
    }
    Ok(paths)
}

/// The import of an archive at a path, without a content address.
fn import_at(
    alloc: Global,
    path: StorePath,
    archive: &[u8],
    refs: Vec<StorePath>,
    deriver: Option<StorePath>,
) -> Result<Request, AllocError> {
    let nar = Intake::of_bytes(alloc, archive)?;
    Ok(Request::Import {
        path,
        nar_hash: Sha256::digest(archive),
        refs,
        deriver,
        ca: None,
        nar,
    })
}

/// The import of a file.
pub fn import_file(alloc: Global, file: File) -> Result<Request, Fail> {
    let archive = archive_of(alloc, file.contents)?;
    let deriver = optional(alloc, file.deriver)?;
    let refs = list_of(alloc, optional(alloc, file.reference)?)?;
    let path = path(alloc, file.base)?;
    Ok(import_at(alloc, path, &archive, refs, deriver)?)
}

/// The deletion of a path, if it isn't live.
pub fn delete_one(alloc: Global, base: &str) -> Result<Request, Fail> {
    Ok(Request::Delete {
        paths: list_of(alloc, Some(path(alloc, base)?))?,
        ignore_liveness: false,
    })
}

/// One runtime root, in place of all.
pub fn replace_by(alloc: Global, label: &str, base: &str) -> Result<Request, Fail> {
    let mut pairs = Vec::new(alloc);
    pairs.push((String::from_str(alloc, label)?, path(alloc, base)?))?;
    Ok(Request::ReplaceRuntime(pairs))
}

/// The root `kept` of `bob` on a path.
pub fn keep(alloc: Global, base: &str) -> Result<Request, Fail> {
    Ok(Request::SetUserRoot {
        user: String::from_str(alloc, "bob")?,
        name: String::from_str(alloc, "kept")?,
        path: path(alloc, base)?,
    })
}
