//! Store names: the part of a store path after its digits.
ghost use Rattle.std.specs.Prelude.{◌≡◌, ◌↔◌, List, ℕ, IfOk, string_bytes, true, false};
ghost use Rattle.std.specs.List.{list_all};
ghost use Rattle.paths.specs.declared.store_name.NameError.TheVariants.{Memory};
ghost use Rattle.paths.specs.Names.{is_store_byte, is_dots, is_store_name};

use crate::plain_name::is_letter_or_digit;
use std::alloc::{AllocError, Global};
use std::marker::Model;
use thiserror::Error;

fn is_store_byte(b: u8) -> bool
    ensures { result ≡ is_store_byte b }
{
    is_letter_or_digit(b)
        || b == b'+'
        || b == b'-'
        || b == b'.'
        || b == b'_'
        || b == b'?'
        || b == b'='
}

pub(crate) fn all_store_bytes(bytes: &[u8]) -> bool
    ensures { result ≡ list_all is_store_byte bytes.now }
{
    bytes.iter().all(|b| is_store_byte(*b))
}

/// Whether some bytes are `.` or `..`.
pub(crate) fn is_dots(bytes: &[u8]) -> bool
    ensures { result ≡ is_dots bytes.now }
{
    bytes == b".".as_slice() || bytes == b"..".as_slice()
}

/// Whether some bytes are a store name.
pub(crate) fn is_store_name(bytes: &[u8]) -> bool
    ensures { result ≡ is_store_name bytes.now }
{
    if bytes.is_empty() || bytes.len() > 211 || is_dots(bytes) {
        return false;
    }
    if bytes.starts_with(b".-") || bytes.starts_with(b"..-") {
        return false;
    }
    all_store_bytes(bytes)
}

/// The name of a store object, as in `hello-2.12`: 1 to 211 ASCII letters, digits and `+ - . _ ? =`,
/// not `.` or `..`, and begun by neither `.-` nor `..-`. Contracts see it as its bytes.
#[derive(Drop)]
pub struct Name {
    text: String,
}

impl Model for Name {
    ghost Value = { List ℕ };

    ghost view = { λ n. string_bytes n.text };

    ghost invariant = { λ n. is_store_name (string_bytes n.text) ≡ true };
}

/// Why a text gives no store name.
#[derive(Clone, Copy, PartialEq, Eq, Debug, Error)]
pub enum NameError {
    /// The text isn't a store name.
    #[error("bad-store-name")]
    BadStoreName,
    /// Memory was refused.
    #[error("memory")]
    Memory,
}

impl From<AllocError> for NameError {
    ghost from_gives = { λ _ e. e ≡ Memory };

    fn from(_: AllocError) -> NameError {
        NameError::Memory
    }
}

impl Name {
    /// The store name that a text is.
    ///
    /// ```rust
    /// use paths::{Name, NameError};
    ///
    /// assert_eq!(rt; Name::parse(alloc, "hello-2.12")?.as_str(), "hello-2.12");
    /// assert_eq!(rt; Name::parse(alloc, ".x")?.as_str(), ".x");
    /// assert_eq!(rt; Name::parse(alloc, "..-x").err(), Some(NameError::BadStoreName));
    /// ```
    ///
    /// # Errors
    ///
    /// `BadStoreName` if and only if the text isn't a store name; `Memory` if memory was refused.
    pub fn parse(alloc: Global, text: &str) -> Result<Name, NameError>
        ensures ok { IfOk result (λ n. (n ≡ text.now) × (is_store_name text.now ≡ true)) }
        ensures bad { (result ≡ Err NameError.BadStoreName) ↔ (is_store_name text.now ≡ false) }
    {
        if !is_store_name(text.as_bytes()) {
            return Err(NameError::BadStoreName);
        }
        let text = String::from_str(alloc, text)?;
        Ok(Name { text })
    }

    /// The text of the name.
    ///
    /// ```rust
    /// use paths::Name;
    ///
    /// let name = Name::parse(alloc, "hello-2.12")?;
    /// assert_eq!(rt; name.as_str(), "hello-2.12");
    /// ```
    pub fn as_str(&self) -> &str
        ensures value { result.now ≡ self.now }
        ensures valid { is_store_name self.now ≡ true }
    {
        self.text.as_str()
    }
}

impl Clone for Name {
    ghost is_clone = { λ name copy. copy ≡ name };

    fn clone(&self) -> Result<Name, AllocError> {
        Ok(Name {
            text: self.text.clone()?,
        })
    }
}
