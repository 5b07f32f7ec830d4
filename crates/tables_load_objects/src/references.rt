//! The references of an object.

ghost use Rattle.std.specs.Prelude.{◌≡◌, true, false, None, IfOk, MatchOption};
ghost use Rattle.std.specs.Option.{option_copied};
ghost use Rattle.tables_load_objects.specs.Tested as tested;
ghost use Rattle.tables_load_objects.specs.Tested.{are_paths, targets_of};

use crate::texts::path_of;
use paths::StorePath;
use std::alloc::{AllocError, Global};
use tables_rows::references::Reference;

/// Whether a text comes after the last one.
fn is_above(last: Option<&str>, text: &str) -> bool
    ensures { result ≡ tested.is_above (option_copied last.entry) text.now }
{
    match last {
        Some(last) => last < text,
        None => true,
    }
}

/// The paths that the rows refer to, if they are base names in order. They share the texts of the same paths among
/// `paths`, which are in order.
pub(crate) fn paths_of(
    alloc: Global,
    paths: &[StorePath],
    rows: &[Reference],
) -> Result<Option<Vec<StorePath>>, AllocError>
    ensures { IfOk result
        (λ o. MatchOption o (are_paths None (targets_of rows.now) ≡ false)
        (λ v. (v.items ≡ targets_of rows.now) × (are_paths None (targets_of rows.now) ≡ true))) }
{
    let mut found = Vec::with_capacity(alloc, rows.len())?;
    let mut last = None;
    'rows: for row in rows {
        let text = row.target.as_str();
        if !is_above(last, text) {
            return Ok(None);
        }
        let Some(path) = path_of(alloc, paths, text)? else {
            return Ok(None);
        };
        found.push(path)?;
        last = Some(text);
    }
    Ok(Some(found))
}
