//! Store directories.
ghost use Rattle.std.specs.Prelude.{◌≡◌, ◌==◌, ◌↔◌, List, ℕ, IfOk, string_bytes, true, false};
ghost use Rattle.std.specs.List.{list_all, slice_split};
ghost use Rattle.paths.specs.declared.store_dir.StoreDirError.TheVariants.{Memory};
ghost use Rattle.paths.specs.Names.{is_component, is_store_dir};

use crate::store_name::{all_store_bytes, is_dots};
use std::alloc::{AllocError, Global};
use std::marker::Model;
use thiserror::Error;

fn is_component(text: &str) -> bool
    ensures { result ≡ is_component text.now }
{
    let bytes = text.as_bytes();
    if bytes.is_empty() || is_dots(bytes) {
        return false;
    }
    all_store_bytes(bytes)
}

fn all_components(text: &str) -> bool
    ensures { result ≡ list_all is_component (slice_split (λ b. b == 47) text.now) }
{
    text.split('/').all(|part| is_component(part))
}

fn is_store_dir(text: &str) -> bool
    ensures { result ≡ is_store_dir text.now }
{
    if text.len() > 200 {
        return false;
    }
    match text.strip_prefix('/') {
        Some(rest) => all_components(rest),
        None => false,
    }
}

/// The directory of a store, such as `/nix/store`: 2 to 200 bytes, one or more times `/` and a component. A
/// component is one or more of the bytes of a store name, and not `.` or `..`. Contracts see it as its bytes.
#[derive(Drop)]
pub struct StoreDir {
    text: String,
}

impl Model for StoreDir {
    ghost Value = { List ℕ };

    ghost view = { λ d. string_bytes d.text };

    ghost invariant = { λ d. is_store_dir (string_bytes d.text) ≡ true };
}

/// Why a text gives no store directory.
#[derive(Clone, Copy, PartialEq, Eq, Debug, Error)]
pub enum StoreDirError {
    /// The text isn't a store directory.
    #[error("bad-store-dir")]
    BadStoreDir,
    /// Memory was refused.
    #[error("memory")]
    Memory,
}

impl From<AllocError> for StoreDirError {
    ghost from_gives = { λ _ e. e ≡ Memory };

    fn from(_: AllocError) -> StoreDirError {
        StoreDirError::Memory
    }
}

impl StoreDir {
    /// The store directory that a text is.
    ///
    /// ```rust
    /// use paths::{StoreDir, StoreDirError};
    ///
    /// assert_eq!(rt; StoreDir::parse(alloc, "/nix/store")?.as_str(), "/nix/store");
    /// assert_eq!(rt; StoreDir::parse(alloc, "/nix/store/").err(), Some(StoreDirError::BadStoreDir));
    /// ```
    ///
    /// # Errors
    ///
    /// `BadStoreDir` if and only if the text isn't a store directory; `Memory` if memory was refused.
    pub fn parse(alloc: Global, text: &str) -> Result<StoreDir, StoreDirError>
        ensures ok { IfOk result (λ d. (d ≡ text.now) × (is_store_dir text.now ≡ true)) }
        ensures bad { (result ≡ Err StoreDirError.BadStoreDir) ↔ (is_store_dir text.now ≡ false) }
    {
        if !is_store_dir(text) {
            return Err(StoreDirError::BadStoreDir);
        }
        Ok(StoreDir {
            text: String::from_str(alloc, text)?,
        })
    }

    /// The text of the directory.
    ///
    /// ```rust
    /// use paths::StoreDir;
    ///
    /// let dir = StoreDir::parse(alloc, "/nix/store")?;
    /// assert_eq!(rt; dir.as_str(), "/nix/store");
    /// ```
    pub fn as_str(&self) -> &str
        ensures value { result.now ≡ self.now }
        ensures valid { is_store_dir self.now ≡ true }
    {
        self.text.as_str()
    }
}

impl Clone for StoreDir {
    ghost is_clone = { λ dir copy. copy ≡ dir };

    fn clone(&self) -> Result<StoreDir, AllocError> {
        Ok(StoreDir {
            text: self.text.clone()?,
        })
    }
}
