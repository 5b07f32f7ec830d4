//! The values that the texts of entries stand for.
ghost use Rattle.std.specs.Prelude.{◌≡◌, option_map, Some, None, List};
ghost use Rattle.wire_bodies.specs.Values.{Answers, values, single, optional, each};
ghost use Rattle.wire_bodies.specs.Kinds.{path_text, name_text, hash_text, flag_text};
ghost use Rattle.paths.specs.ContentAddress.{address_of};

use crate::entries::{Found, find_value};
use crate::error::BodyError;
use crate::lines::Lines;
use paths::{Ca, Name, StoreDir, StorePath, unbase32};
use std::alloc::Global;

/// The path that a path text names.
pub fn path_of(alloc: Global, dir: &StoreDir, text: &str) -> Result<StorePath, BodyError>
    ensures { Answers (λ p. p) (path_text dir.now text.now) result }
{
    Ok(StorePath::parse(alloc, dir, text)?)
}

/// A store name.
fn name_of(alloc: Global, text: &str) -> Result<Name, BodyError>
    ensures { Answers (λ n. n) (name_text text.now) result }
{
    Ok(Name::parse(alloc, text)?)
}

/// The digest that `sha256:` and 52 digits spell.
fn hash_of(alloc: Global, text: &str) -> Result<[u8; 32], BodyError>
    ensures { Answers (λ h. h) (hash_text text.now) result }
{
    let Some(digits) = text.strip_prefix("sha256:") else {
        return Err(BodyError::BadBodyHead);
    };
    let bytes = unbase32(alloc, digits, 32)?;
    let mut hash = [0u8; 32];
    hash.copy_from_slice(bytes.as_slice());
    Ok(hash)
}

/// A content address.
fn ca_of(alloc: Global, text: &str) -> Result<Ca, BodyError>
    ensures { Answers (λ c. c) (address_of text.now) result }
{
    Ok(Ca::parse(alloc, text)?)
}

/// `true` or `false`.
fn flag_of(text: &str) -> Result<bool, BodyError>
    ensures { Answers (λ f. f) (flag_text text.now) result }
{
    if text == "true" {
        return Ok(true);
    }
    if text == "false" {
        return Ok(false);
    }
    Err(BodyError::BadBodyHead)
}

/// The path of the one entry of a key.
pub fn one_path(
    alloc: Global,
    dir: &StoreDir,
    entries: &Lines<'_>,
    key: &str,
) -> Result<StorePath, BodyError>
    ensures { Answers (λ p. p) (single (path_text dir.now) (values key.now entries.now)) result }
{
    match find_value(entries, key) {
        Found::One(text) => path_of(alloc, dir, text),
        Found::None => Err(BodyError::BadBodyHead),
        Found::More => Err(BodyError::BadBodyHead),
    }
}

/// The path of the entry of a key, if there is one.
pub fn path_if_any(
    alloc: Global,
    dir: &StoreDir,
    entries: &Lines<'_>,
    key: &str,
) -> Result<Option<StorePath>, BodyError>
    ensures { Answers (λ p. p) (optional (path_text dir.now) (values key.now entries.now)) result }
{
    match find_value(entries, key) {
        Found::One(text) => Ok(Some(path_of(alloc, dir, text)?)),
        Found::None => Ok(None),
        Found::More => Err(BodyError::BadBodyHead),
    }
}

/// The paths of the entries of a key, in their order.
pub fn each_path(
    alloc: Global,
    dir: &StoreDir,
    entries: &Lines<'_>,
    key: &str,
) -> Result<Vec<StorePath>, BodyError>
    ensures { Answers (λ ps. ps.items) (each (path_text dir.now) (values key.now entries.now)) result }
{
    let mut paths = Vec::new(alloc);
    let mut left = entries.again();
    'lines: loop {
        let Some((name, value)) = left.take_entry() else {
            return Ok(paths);
        };
        if name == key {
            paths.push(path_of(alloc, dir, value)?)?;
        }
    }
}

/// The store name of the one entry of a key.
pub fn one_name(alloc: Global, entries: &Lines<'_>, key: &str) -> Result<Name, BodyError>
    ensures { Answers (λ n. n) (single name_text (values key.now entries.now)) result }
{
    match find_value(entries, key) {
        Found::One(text) => name_of(alloc, text),
        Found::None => Err(BodyError::BadBodyHead),
        Found::More => Err(BodyError::BadBodyHead),
    }
}

/// The digest of the one entry of a key.
pub fn one_hash(alloc: Global, entries: &Lines<'_>, key: &str) -> Result<[u8; 32], BodyError>
    ensures { Answers (λ h. h) (single hash_text (values key.now entries.now)) result }
{
    match find_value(entries, key) {
        Found::One(text) => hash_of(alloc, text),
        Found::None => Err(BodyError::BadBodyHead),
        Found::More => Err(BodyError::BadBodyHead),
    }
}

/// The content address of the entry of a key, if there is one.
pub fn ca_if_any(alloc: Global, entries: &Lines<'_>, key: &str) -> Result<Option<Ca>, BodyError>
    ensures { Answers (λ c. c) (optional address_of (values key.now entries.now)) result }
{
    match find_value(entries, key) {
        Found::One(text) => Ok(Some(ca_of(alloc, text)?)),
        Found::None => Ok(None),
        Found::More => Err(BodyError::BadBodyHead),
    }
}

/// The flag that the entry of a key sets, if there is one.
pub fn flag_if_any(entries: &Lines<'_>, key: &str) -> Result<Option<bool>, BodyError>
    ensures { Answers (λ f. f) (optional flag_text (values key.now entries.now)) result }
{
    match find_value(entries, key) {
        Found::One(text) => Ok(Some(flag_of(text)?)),
        Found::None => Ok(None),
        Found::More => Err(BodyError::BadBodyHead),
    }
}
