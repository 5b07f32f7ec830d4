//! Texts of rows, read as what they have to be.

ghost use Rattle.std.specs.Prelude.{◌≡◌, true, false, IfOk, MatchOption, option_map, string_bytes};
ghost use Rattle.paths.specs.StorePath.{is_base_name};
ghost use Rattle.tables_world.specs.Rows.{address_in};
ghost use Rattle.tables_load_objects.specs.Tested.{is_base_if_any, is_address_if_any};

use crate::groups::first_of;
use paths::{Ca, CaError, StorePath, StorePathError};
use std::alloc::{AllocError, Global};

/// A new path of a base name, if a text is one.
pub(crate) fn new_path(alloc: Global, text: &str) -> Result<Option<StorePath>, AllocError>
    ensures { IfOk result
        (λ o. MatchOption o (is_base_name text.now ≡ false) (λ p. (p ≡ text.now) × (is_base_name text.now ≡ true))) }
{
    match StorePath::from_base(alloc, text) {
        Ok(path) => Ok(Some(path)),
        Err(StorePathError::BadStorePath) => Ok(None),
        Err(StorePathError::Memory) => Err(AllocError),
    }
}

/// The path of a base name, if a text is one. It shares the text of the same path among these, which are in order.
pub(crate) fn path_of(
    alloc: Global,
    paths: &[StorePath],
    text: &str,
) -> Result<Option<StorePath>, AllocError>
    ensures { IfOk result
        (λ o. MatchOption o (is_base_name text.now ≡ false) (λ p. (p ≡ text.now) × (is_base_name text.now ≡ true))) }
{
    match first_of(paths, text) {
        Some(path) => {
            // A path is a base name.
            let _base = path.as_str();
            let shared = path.clone()?;
            Ok(Some(shared))
        }
        None => new_path(alloc, text),
    }
}

/// The deriver, if one is recorded, where its text is a base name.
pub(crate) fn deriver_of(
    alloc: Global,
    paths: &[StorePath],
    text: &Option<String>,
) -> Result<Option<Option<StorePath>>, AllocError>
    ensures { IfOk result
        (λ o. MatchOption o (is_base_if_any (option_map string_bytes text.now) ≡ false)
        (λ d. (d ≡ option_map string_bytes text.now) × (is_base_if_any (option_map string_bytes text.now) ≡ true))) }
{
    let Some(text) = text else {
        return Ok(Some(None));
    };
    match path_of(alloc, paths, text.as_str())? {
        Some(path) => Ok(Some(Some(path))),
        None => Ok(None),
    }
}

/// The content address, if one is recorded, where its text is that of one.
pub(crate) fn address_of(
    alloc: Global,
    text: &Option<String>,
) -> Result<Option<Option<Ca>>, AllocError>
    ensures { IfOk result
        (λ o. MatchOption o (is_address_if_any (option_map string_bytes text.now) ≡ false)
        (λ a. (a ≡ address_in (option_map string_bytes text.now))
        × (is_address_if_any (option_map string_bytes text.now) ≡ true))) }
{
    let Some(text) = text else {
        return Ok(Some(None));
    };
    match Ca::parse(alloc, text.as_str()) {
        Ok(ca) => Ok(Some(Some(ca))),
        Err(CaError::BadCa) => Ok(None),
        Err(CaError::Memory) => Err(AllocError),
    }
}
