//! The keys of a configuration, and the setting that each gives.
ghost use Rattle.std.specs.Prelude.{◌≡◌, [], ◌∷◌, IfOk, map, option_map, string_bytes};
ghost use Rattle.std.specs.List.{list_all};
ghost use Rattle.std.specs.BTreeMap.{keys};
ghost use Rattle.toml.specs.Data.{as_bool, get_member};
ghost use Rattle.toml.specs.View.{view, table_view};
ghost use Rattle.paths.specs.Names.{is_store_dir};
ghost use Rattle.policy.specs.Toml.{only, is_key, has_only_keys, or_default, store_dir_in, allowed_users_in};
ghost use Rattle.policy.specs.Toml.{trusted_users_in, groups_in};
ghost use Rattle.policy.specs.View.{entry_view};

use crate::entry::{Entry, read_entries};
use crate::groups::{Groups, read_groups};
use paths::{StoreDir, StoreDirError};
use std::alloc::{AllocError, Global};
use toml::{Table, Value};

fn is_key(key: &str) -> bool
    ensures { result ≡ is_key key.now }
{
    matches!(
        key,
        "store-dir"
            | "allowed-users"
            | "trusted-users"
            | "keep-outputs"
            | "keep-derivations"
            | "groups"
    )
}

fn all_are_keys(table: &Table) -> bool
    ensures { result ≡ list_all (λ k. is_key (string_bytes k)) (keys table.now) }
{
    table.keys().all(|key| is_key(key.as_str()))
}

/// Whether each key of a table is one of the configuration.
pub fn has_only_keys(table: &Table) -> bool
    ensures { result ≡ has_only_keys (table_view table.now) }
{
    all_are_keys(table)
}

fn value_at<'a>(table: &'a Table, key: &str) -> Option<&'a Value>
    ensures { option_map (λ v. view v.now) result ≡ get_member key.now (table_view table.now) }
{
    table.get(key)
}

fn parse_store_dir(alloc: Global, text: &str) -> Result<Option<StoreDir>, AllocError>
    ensures { IfOk result (λ o. o ≡ only is_store_dir text.now) }
{
    match StoreDir::parse(alloc, text) {
        Ok(dir) => Ok(Some(dir)),
        Err(StoreDirError::BadStoreDir) => Ok(None),
        Err(StoreDirError::Memory) => Err(AllocError),
    }
}

/// The setting of `store-dir`, `/nix/store` where the key is absent.
pub fn read_store_dir(alloc: Global, table: &Table) -> Result<Option<StoreDir>, AllocError>
    ensures { IfOk result (λ o. o ≡ store_dir_in (table_view table.now)) }
{
    let text = match value_at(table, "store-dir") {
        Some(value) => match value.as_str() {
            Some(text) => text,
            None => return Ok(None),
        },
        None => "/nix/store",
    };
    parse_store_dir(alloc, text)
}

fn only_entry(alloc: Global, entry: Entry) -> Result<Vec<Entry>, AllocError>
    ensures { IfOk result (λ v. map entry_view v.items ≡ entry_view entry ∷ []) }
{
    let mut entries = Vec::new(alloc);
    entries.push(entry)?;
    Ok(entries)
}

/// The setting of `allowed-users`, everyone where the key is absent.
pub fn read_allowed_users(alloc: Global, table: &Table) -> Result<Option<Vec<Entry>>, AllocError>
    ensures { IfOk result (λ o. option_map (λ v. map entry_view v.items) o ≡ allowed_users_in (table_view table.now)) }
{
    match value_at(table, "allowed-users") {
        Some(value) => read_entries(alloc, value),
        None => Ok(Some(only_entry(alloc, Entry::Everyone)?)),
    }
}

/// The setting of `trusted-users`, the user `root` where the key is absent.
pub fn read_trusted_users(alloc: Global, table: &Table) -> Result<Option<Vec<Entry>>, AllocError>
    ensures { IfOk result (λ o. option_map (λ v. map entry_view v.items) o ≡ trusted_users_in (table_view table.now)) }
{
    match value_at(table, "trusted-users") {
        Some(value) => read_entries(alloc, value),
        None => {
            let root = Entry::User(String::from_str(alloc, "root")?);
            Ok(Some(only_entry(alloc, root)?))
        }
    }
}

/// The truth value at a key, or the default where the key is absent.
pub fn read_truth(table: &Table, key: &str, default: bool) -> Option<bool>
    ensures { result ≡ or_default as_bool default (get_member key.now (table_view table.now)) }
{
    match value_at(table, key) {
        Some(value) => value.as_bool(),
        None => Some(default),
    }
}

/// The groups, none where the key is absent.
pub fn read_all_groups(alloc: Global, table: &Table) -> Result<Option<Groups>, AllocError>
    ensures { IfOk result (λ o. o ≡ groups_in (table_view table.now)) }
{
    match value_at(table, "groups") {
        Some(value) => read_groups(alloc, value),
        None => Ok(Some(Groups::new(alloc))),
    }
}
