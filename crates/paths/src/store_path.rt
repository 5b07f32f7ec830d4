//! Store paths.
ghost use Rattle.std.specs.Prelude.{◌≡◌, ◌↔◌, List, ℕ, IfOk, string_bytes, length, ◌++◌, codes, true, false, nat_eq};
ghost use Rattle.std.specs.Prelude.{Some, refl};
ghost use Rattle.std.specs.Arc.{arc_str_bytes};
ghost use Rattle.std.specs.Ordering.{nat_cmp};
ghost use Rattle.std.specs.Cmp.{partial_equiv_from_equiv};
ghost use Rattle.std.specs.Cmp.Lexicographic.{pointwise, slice_cmp, nat_list_eq_equiv, nat_list_cmp_total, texts_ties};
ghost use Rattle.std.specs.Cmp.Lexicographic.{texts_po};
ghost use Rattle.paths.specs.declared.store_path.StorePathError.TheVariants.{Memory};
ghost use Rattle.paths.specs.Base32.{all_digits};
ghost use Rattle.paths.specs.Names.{is_store_name};
ghost use Rattle.paths.specs.StorePath.{is_base_name, name_of, is_derivation, base_of};

use crate::digits::all_digits;
use crate::store_dir::StoreDir;
use crate::store_name::is_store_name;
use std::alloc::{AllocError, Global};
use std::cmp::Ordering;
use std::fmt;
use std::marker::Model;
use std::sync::ArcStr;
use thiserror::Error;

/// Whether some bytes are a base name: 32 digits, `-`, a store name.
fn is_base_name(bytes: &[u8]) -> bool
    ensures { result ≡ is_base_name bytes.now }
{
    if bytes.len() < 34 {
        return false;
    }
    let (digits, _) = bytes.split_at(32);
    let (_, name) = bytes.split_at(33);
    if !all_digits(digits) || bytes[32] != b'-' {
        return false;
    }
    is_store_name(name)
}

/// The part of a path text below the store directory, or all of it if it isn't below.
fn base_of<'a>(dir: &StoreDir, text: &'a str) -> &'a str
    ensures { result.now ≡ base_of dir.now text.now }
{
    let Some(rest) = text.strip_prefix(dir.as_str()) else {
        return text;
    };
    match rest.strip_prefix('/') {
        Some(base) => base,
        None => text,
    }
}

/// A store path, such as `/nix/store/[32 digits]-hello`. It is its base name, the part below the store directory: 32
/// digits of base 32, `-`, a store name. The value doesn't have the directory. Contracts see it as the bytes of its
/// base name, by which paths are ordered.
#[derive(Drop)]
pub struct StorePath {
    base: ArcStr,
}

impl Model for StorePath {
    ghost Value = { List ℕ };

    ghost view = { λ p. arc_str_bytes p.base };

    ghost invariant = { λ p. is_base_name (arc_str_bytes p.base) ≡ true };
}

/// Why a text gives no store path.
#[derive(Clone, Copy, PartialEq, Eq, Debug, Error)]
pub enum StorePathError {
    /// The text is neither a full path in the store directory nor a base name.
    #[error("bad-store-path")]
    BadStorePath,
    /// Memory was refused.
    #[error("memory")]
    Memory,
}

impl From<AllocError> for StorePathError {
    ghost from_gives = { λ _ e. e ≡ Memory };

    fn from(_: AllocError) -> StorePathError {
        StorePathError::Memory
    }
}

impl StorePath {
    /// The store path of a path text: a full path (the store directory, `/`, a base name), or a base name.
    ///
    /// ```rust
    /// use paths::{StoreDir, StorePath, StorePathError};
    ///
    /// let dir = StoreDir::parse(alloc, "/nix/store")?;
    /// let path = StorePath::parse(alloc, &dir, "/nix/store/xv2iccirbrvklck36f1g7vldn5v58vck-myfile")?;
    /// assert_eq!(rt; path.as_str(), "xv2iccirbrvklck36f1g7vldn5v58vck-myfile");
    /// assert_eq!(rt; StorePath::parse(alloc, &dir, "myfile").err(), Some(StorePathError::BadStorePath));
    /// ```
    ///
    /// # Errors
    ///
    /// `BadStorePath` if and only if the text is neither; `Memory` if memory was refused.
    pub fn parse(alloc: Global, dir: &StoreDir, text: &str) -> Result<StorePath, StorePathError>
        ensures ok { IfOk result (λ p. (p ≡ base_of dir.now text.now) × (is_base_name p ≡ true)) }
        ensures bad { (result ≡ Err StorePathError.BadStorePath) ↔ (is_base_name (base_of dir.now text.now) ≡ false) }
    {
        StorePath::from_base(alloc, base_of(dir, text))
    }

    /// The store path of a base name, such as a database keeps.
    ///
    /// ```rust
    /// use paths::{StorePath, StorePathError};
    ///
    /// let path = StorePath::from_base(alloc, "xv2iccirbrvklck36f1g7vldn5v58vck-myfile")?;
    /// assert_eq!(rt; path.name(), "myfile");
    /// let full = "/nix/store/xv2iccirbrvklck36f1g7vldn5v58vck-myfile";
    /// assert_eq!(rt; StorePath::from_base(alloc, full).err(), Some(StorePathError::BadStorePath));
    /// ```
    ///
    /// # Errors
    ///
    /// `BadStorePath` if and only if the text isn't a base name; `Memory` if memory was refused.
    pub fn from_base(alloc: Global, text: &str) -> Result<StorePath, StorePathError>
        ensures ok { IfOk result (λ p. (p ≡ text.now) × (is_base_name p ≡ true)) }
        ensures bad { (result ≡ Err StorePathError.BadStorePath) ↔ (is_base_name text.now ≡ false) }
    {
        if !is_base_name(text.as_bytes()) {
            return Err(StorePathError::BadStorePath);
        }
        let base = ArcStr::from_str(alloc, text)?;
        Ok(StorePath { base })
    }

    /// The path of 32 digits and a name.
    pub(crate) fn join(digits: String, name: &str) -> Result<StorePath, AllocError>
        requires name { is_store_name name.now ≡ true }
        requires count { length (string_bytes digits) ≡ 32 }
        requires digits { all_digits (string_bytes digits) ≡ true }
        ensures { IfOk result (λ p. p ≡ string_bytes digits ++ codes "-" ++ name.now) }
    {
        let mut base = digits;
        base.push_str("-")?;
        base.push_str(name)?;
        let base = ArcStr::from_string(base)?;
        Ok(StorePath { base })
    }

    /// The base name.
    ///
    /// ```rust
    /// use paths::StorePath;
    ///
    /// let path = StorePath::from_base(alloc, "xv2iccirbrvklck36f1g7vldn5v58vck-myfile")?;
    /// assert_eq!(rt; path.as_str(), "xv2iccirbrvklck36f1g7vldn5v58vck-myfile");
    /// ```
    pub fn as_str(&self) -> &str
        ensures value { result.now ≡ self.now }
        ensures valid { is_base_name self.now ≡ true }
    {
        self.base.as_str()
    }

    /// The name, which follows the digits and the `-`.
    ///
    /// ```rust
    /// use paths::StorePath;
    ///
    /// let path = StorePath::from_base(alloc, "xv2iccirbrvklck36f1g7vldn5v58vck-myfile")?;
    /// assert_eq!(rt; path.name(), "myfile");
    /// ```
    pub fn name(&self) -> &str
        ensures value { result.now ≡ name_of self.now }
        ensures valid { is_store_name result.now ≡ true }
    {
        match self.base.split_once('-') {
            Some((_, name)) => name,
            None => unreachable!(),
        }
    }

    /// Whether this is the path of a derivation: its name ends in `.drv`.
    ///
    /// ```rust
    /// use paths::StorePath;
    ///
    /// let derivation = StorePath::from_base(alloc, "00000000000000000000000000000000-d.drv")?;
    /// let output = StorePath::from_base(alloc, "11111111111111111111111111111111-o")?;
    /// assert!(rt; derivation.is_derivation() && !output.is_derivation());
    /// ```
    pub fn is_derivation(&self) -> bool
        ensures { result ≡ is_derivation self.now }
    {
        self.base.ends_with(".drv")
    }
}

impl Clone for StorePath {
    ghost is_clone = { λ path copy. copy ≡ path };

    fn clone(&self) -> Result<StorePath, AllocError> {
        Ok(StorePath {
            base: self.base.clone()?,
        })
    }
}

impl PartialEq for StorePath {
    ghost eq = { pointwise nat_eq };

    ghost laws = { partial_equiv_from_equiv nat_list_eq_equiv };

    fn eq(&self, other: &StorePath) -> bool {
        self.as_str() == other.as_str()
    }
}

impl Eq for StorePath {
    ghost laws = { nat_list_eq_equiv };
}

impl PartialOrd for StorePath {
    ghost partial_cmp = { λ x y. Some (slice_cmp nat_cmp x y) };

    ghost laws = { texts_po };

    fn partial_cmp(&self, other: &StorePath) -> Option<Ordering> {
        Some(self.cmp(other))
    }
}

impl Ord for StorePath {
    ghost cmp = { slice_cmp nat_cmp };

    ghost total = { nat_list_cmp_total };

    ghost matches_partial_cmp = { λ x y. refl };

    ghost matches_eq = { texts_ties };

    fn cmp(&self, other: &StorePath) -> Ordering {
        self.as_str().cmp(other.as_str())
    }
}

impl fmt::Debug for StorePath {
    fn fmt<W: fmt::Write>(&self, f: &mut fmt::Formatter<W>) -> fmt::Result {
        f.write_str(self.as_str())
    }
}

impl fmt::Display for StorePath {
    ghost output = { λ path. Some path };

    fn fmt<W: fmt::Write>(&self, f: &mut fmt::Formatter<W>) -> fmt::Result {
        let base = self.as_str();
        f.write_str(base)
    }
}
