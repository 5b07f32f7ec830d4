//! The groups of a configuration, stored for quick look-ups.
ghost use Rattle.std.specs.Prelude.{◌≡◌, IfOk, OnOk, option_map, string_bytes};
ghost use Rattle.std.specs.FinMap.{empty, insert, get, contains_key};
ghost use Rattle.toml.specs.View.{view};
ghost use Rattle.policy.specs.Class.{holds};
ghost use Rattle.policy.specs.Toml.{name_of, users_of, group_of, groups_of};

use paths::is_plain_name;
use std::alloc::{AllocError, Global};
use std::collections::{BTreeMap, BTreeSet};
use std::marker::Model;
use toml::Value;

/// A set of user names: contracts see it as that set.
#[derive(Drop)]
pub struct Users {
    names: BTreeSet<String>,
}

impl Model for Users {
    ghost use Rattle.std.specs.Prelude.{map, string_bytes};
    ghost use Rattle.std.specs.FinMap.{from_entries};
    ghost use Rattle.policy.specs.Settings.{Users as Names};
    ghost use Rattle.policy.specs.Codes.{users_code};

    ghost Value = { Names };

    ghost coded = { users_code };

    ghost view = { λ u. from_entries (map (λ s. (string_bytes s, tt)) u.names.keys) };
}

impl Users {
    fn new(alloc: Global) -> Users
        ensures { result ≡ empty }
    {
        Users {
            names: BTreeSet::new(alloc),
        }
    }

    fn insert(&mut self, name: String) -> Result<(), AllocError>
        ensures { OnOk result (self.new ≡ insert self.old (string_bytes name) tt) }
    {
        self.names.insert(name)?;
        Ok(())
    }

    fn contains(&self, name: &str) -> bool
        ensures { result ≡ contains_key self.now name.now }
    {
        self.names.contains(name)
    }
}

/// The groups by their names: contracts see them as a map from a name to the set of members.
#[derive(Drop)]
pub struct Groups {
    members: BTreeMap<String, Users>,
}

impl Model for Groups {
    ghost use Rattle.std.specs.Prelude.{map, string_bytes};
    ghost use Rattle.std.specs.FinMap.{from_entries};
    ghost use Rattle.policy.specs.Settings.{Groups as Table};
    ghost use Rattle.policy.specs.Codes.{groups_code};

    ghost Value = { Table };

    ghost coded = { groups_code };

    ghost view = { λ g. from_entries (map (λ e. (string_bytes e.0, e.1)) g.members.entries) };
}

impl Groups {
    /// No groups.
    pub fn new(alloc: Global) -> Groups
        ensures { result ≡ empty }
    {
        Groups {
            members: BTreeMap::new(alloc),
        }
    }

    fn insert(&mut self, name: String, users: Users) -> Result<(), AllocError>
        ensures { OnOk result (self.new ≡ insert self.old (string_bytes name) users) }
    {
        self.members.insert(name, users)?;
        Ok(())
    }

    /// Whether the members of a group hold a user's name. Takes a time that grows with the
    /// logarithms of the numbers of groups and members.
    pub fn has_member(&self, group: &str, user: &str) -> bool
        ensures { result ≡ holds (get self.now group.now) user.now }
    {
        match self.members.get(group) {
            Some(users) => users.contains(user),
            None => false,
        }
    }
}

fn read_name(value: &Value) -> Option<&str>
    ensures { option_map (λ s. s.now) result ≡ name_of (view value.now) }
{
    match value.as_str() {
        Some(text) => {
            if is_plain_name(text) {
                Some(text)
            } else {
                None
            }
        }
        None => None,
    }
}

fn read_users(alloc: Global, value: &Value) -> Result<Option<Users>, AllocError>
    ensures { IfOk result (λ o. o ≡ users_of (view value.now)) }
{
    let Some(items) = value.as_array() else {
        return Ok(None);
    };
    let mut users = Users::new(alloc);
    for item in items {
        match read_name(item) {
            Some(name) => users.insert(String::from_str(alloc, name)?)?,
            None => return Ok(None),
        }
    }
    Ok(Some(users))
}

fn read_group(alloc: Global, name: &str, value: &Value) -> Result<Option<Users>, AllocError>
    ensures { IfOk result (λ o. o ≡ group_of name.now (view value.now)) }
{
    if !is_plain_name(name) {
        return Ok(None);
    }
    read_users(alloc, value)
}

/// The groups that a value holds: none where it isn't a table from plain names to arrays of plain names.
pub fn read_groups(alloc: Global, value: &Value) -> Result<Option<Groups>, AllocError>
    ensures { IfOk result (λ o. o ≡ groups_of (view value.now)) }
{
    let Some(table) = value.as_table() else {
        return Ok(None);
    };
    let mut groups = Groups::new(alloc);
    for (name, value) in table {
        match read_group(alloc, name.as_str(), value)? {
            Some(users) => groups.insert(String::from_str(alloc, name.as_str())?, users)?,
            None => return Ok(None),
        }
    }
    Ok(Some(groups))
}
