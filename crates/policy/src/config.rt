//! The configuration, read from TOML.
ghost use Rattle.std.specs.Prelude.{◌≡◌, IfOk, IfErr, map};
ghost use Rattle.toml.specs.View.{table_view};
ghost use Rattle.policy.specs.Settings.{Settings};
ghost use Rattle.policy.specs.Codes.{settings_code};
ghost use Rattle.policy.specs.View.{entry_view};

use crate::document::read_document;
use crate::entry::Entry;
use crate::error::{ConfigError, KeyWord};
use crate::groups::Groups;
use crate::keys;
use paths::StoreDir;
use std::alloc::Global;
use std::marker::Model;
use toml::Table;

/// A configuration: contracts see it as its settings.
#[derive(Drop)]
pub struct Config {
    store_dir: StoreDir,
    allowed_users: Vec<Entry>,
    trusted_users: Vec<Entry>,
    keep_outputs: bool,
    keep_derivations: bool,
    groups: Groups,
}

impl Model for Config {
    ghost Value = { Settings };

    ghost coded = { settings_code };

    ghost view = { λ c. record {
      store_dir = c.store_dir;
      allowed_users = map entry_view c.allowed_users.items;
      trusted_users = map entry_view c.trusted_users.items;
      keep_outputs = c.keep_outputs;
      keep_derivations = c.keep_derivations;
      groups = c.groups;
    } };
}

impl Config {
    ghost use Rattle.policy.specs.Toml.{config_of, settings_of, Explains};

    /// The configuration of a TOML document, or the first key word that applies:
    /// `syntax`, `unknown-key`, then the keys in the order `store-dir`, `allowed-users`,
    /// `trusted-users`, `keep-outputs`, `keep-derivations`, `groups`.
    ///
    /// All keys are optional: `store-dir` is a text, `allowed-users` and `trusted-users` are arrays
    /// of entries (`*`, a plain name, or `@` and a plain name), `keep-outputs` and
    /// `keep-derivations` are truth values, and `groups` is a table from a plain name to an array of
    /// plain names. Entries and members may be repeated.
    ///
    /// ```rust
    /// use policy::{Config, ConfigError, KeyWord};
    ///
    /// let config = Config::from_toml(alloc, b"keep-outputs = true\n")?;
    /// assert!(rt; policy::keep_outputs(&config));
    /// let fault = Config::from_toml(alloc, b"store-dir = 1\n").err();
    /// assert_eq!(rt; fault, Some(ConfigError::Bad(KeyWord::StoreDir)));
    /// ```
    pub fn from_toml(alloc: Global, bytes: &[u8]) -> Result<Config, ConfigError>
        ensures ok { IfOk result (λ c. config_of bytes.now ≡ Ok c) }
        ensures bad { IfErr result (λ e. Explains e (config_of bytes.now)) }
    {
        let table = read_document(alloc, bytes)?;
        Config::from_table(alloc, &table)
    }

    fn from_table(alloc: Global, table: &Table) -> Result<Config, ConfigError>
        ensures ok { IfOk result (λ c. settings_of (table_view table.now) ≡ Ok c) }
        ensures bad { IfErr result (λ e. Explains e (settings_of (table_view table.now))) }
    {
        if !keys::has_only_keys(table) {
            return Err(ConfigError::Bad(KeyWord::UnknownKey));
        }
        let Some(store_dir) = keys::read_store_dir(alloc, table)? else {
            return Err(ConfigError::Bad(KeyWord::StoreDir));
        };
        let Some(allowed_users) = keys::read_allowed_users(alloc, table)? else {
            return Err(ConfigError::Bad(KeyWord::AllowedUsers));
        };
        let Some(trusted_users) = keys::read_trusted_users(alloc, table)? else {
            return Err(ConfigError::Bad(KeyWord::TrustedUsers));
        };
        let Some(keep_outputs) = keys::read_truth(table, "keep-outputs", false) else {
            return Err(ConfigError::Bad(KeyWord::KeepOutputs));
        };
        let Some(keep_derivations) = keys::read_truth(table, "keep-derivations", true) else {
            return Err(ConfigError::Bad(KeyWord::KeepDerivations));
        };
        let Some(groups) = keys::read_all_groups(alloc, table)? else {
            return Err(ConfigError::Bad(KeyWord::Groups));
        };
        Ok(Config {
            store_dir,
            allowed_users,
            trusted_users,
            keep_outputs,
            keep_derivations,
            groups,
        })
    }

    pub(crate) fn allowed_users(&self) -> &[Entry]
        ensures { map entry_view result.now ≡ self.now.allowed_users }
    {
        &self.allowed_users
    }

    pub(crate) fn trusted_users(&self) -> &[Entry]
        ensures { map entry_view result.now ≡ self.now.trusted_users }
    {
        &self.trusted_users
    }

    pub(crate) fn groups(&self) -> &Groups
        ensures { result.now ≡ self.now.groups }
    {
        &self.groups
    }
}

/// The directory of the store.
///
/// ```rust
/// use policy::Config;
///
/// let config = Config::from_toml(alloc, b"")?;
/// assert_eq!(rt; policy::store_dir(&config).as_str(), "/nix/store");
/// ```
pub fn store_dir(config: &Config) -> &StoreDir
    ensures { result.now ≡ config.now.store_dir }
{
    &config.store_dir
}

/// Whether an object keeps its recorded outputs alive.
///
/// ```rust
/// use policy::Config;
///
/// let config = Config::from_toml(alloc, b"")?;
/// assert!(rt; !policy::keep_outputs(&config));
/// ```
pub fn keep_outputs(config: &Config) -> bool
    ensures { result ≡ config.now.keep_outputs }
{
    config.keep_outputs
}

/// Whether an object keeps its recorded deriver alive.
///
/// ```rust
/// use policy::Config;
///
/// let config = Config::from_toml(alloc, b"")?;
/// assert!(rt; policy::keep_derivations(&config));
/// ```
pub fn keep_derivations(config: &Config) -> bool
    ensures { result ≡ config.now.keep_derivations }
{
    config.keep_derivations
}
