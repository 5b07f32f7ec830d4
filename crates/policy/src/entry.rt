//! The entries of a user list.
ghost use Rattle.std.specs.Prelude.{◌≡◌, IfOk, option_map, map};
ghost use Rattle.toml.specs.View.{view};
ghost use Rattle.policy.specs.Toml.{entry_of_text, entry_of, entries_of};
ghost use Rattle.policy.specs.View.{entry_view};

use paths::is_plain_name;
use std::alloc::{AllocError, Global};
use toml::Value;

/// An entry of a user list.
#[derive(Drop)]
pub enum Entry {
    /// Everyone: `*`.
    Everyone,
    /// The user of a name.
    User(String),
    /// Each user of a group: `@` and its name.
    Group(String),
}

fn read_text(alloc: Global, text: &str) -> Result<Option<Entry>, AllocError>
    ensures { IfOk result (λ o. option_map entry_view o ≡ entry_of_text text.now) }
{
    if text == "*" {
        return Ok(Some(Entry::Everyone));
    }
    match text.strip_prefix('@') {
        Some(group) => {
            if is_plain_name(group) {
                Ok(Some(Entry::Group(String::from_str(alloc, group)?)))
            } else {
                Ok(None)
            }
        }
        None => {
            if is_plain_name(text) {
                Ok(Some(Entry::User(String::from_str(alloc, text)?)))
            } else {
                Ok(None)
            }
        }
    }
}

fn read_entry(alloc: Global, value: &Value) -> Result<Option<Entry>, AllocError>
    ensures { IfOk result (λ o. option_map entry_view o ≡ entry_of (view value.now)) }
{
    match value.as_str() {
        Some(text) => read_text(alloc, text),
        None => Ok(None),
    }
}

/// The entries that a value holds: none where it isn't an array of entries.
pub fn read_entries(alloc: Global, value: &Value) -> Result<Option<Vec<Entry>>, AllocError>
    ensures { IfOk result (λ o. option_map (λ v. map entry_view v.items) o ≡ entries_of (view value.now)) }
{
    let Some(items) = value.as_array() else {
        return Ok(None);
    };
    let mut entries = Vec::new(alloc);
    for item in items {
        match read_entry(alloc, item)? {
            Some(entry) => entries.push(entry)?,
            None => return Ok(None),
        }
    }
    Ok(Some(entries))
}
