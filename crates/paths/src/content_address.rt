//! Content addresses.
ghost use Rattle.std.specs.Prelude.{◌≡◌, ◌⊎◌, List, ℕ, IfOk, IfErr, OnOk, Some, None, true, false, string_bytes};
ghost use Rattle.std.specs.Option.{option_copied};
ghost use Rattle.std.specs.Str.{bytes_eq};
ghost use Rattle.nar.specs.View.{tree_of};
ghost use Rattle.nar.specs.Outcome.{outcome_of};
ghost use Rattle.paths.specs.Base32 as spec;
ghost use Rattle.paths.specs.ContentAddress.{ContentAddress, address_prefix, address_text, address_of, with_method};
ghost use Rattle.paths.specs.ContentAddress.{digits_fault, text_address, source_address, plain, plain_contents};
ghost use Rattle.paths.specs.ContentAddress.{is_made_of, method_verifies, verifies};
ghost use Rattle.paths.specs.Facts.{facts_of, verifies_by, HasFactsFor};

use crate::computed_path::path_of;
use crate::digits::{Base32Error, base32, unbase32};
use crate::facts::Facts;
use crate::store_dir::StoreDir;
use crate::store_path::StorePath;
use nar::{NarError, Node};
use sha2::{Digest, Sha256};
use std::alloc::{AllocError, Global};
use std::marker::Model;
use thiserror::Error;

/// What an object's path is made of: the contents of a text, or the whole archive.
#[derive(Clone, Copy, PartialEq, Eq, Debug)]
pub enum Method {
    /// The contents of a regular file that isn't executable.
    Text,
    /// The archive.
    Source,
}

/// A content address, such as `fixed:r:sha256:1qwy7y49hyqd7kdpkyjfclz5fkfqalqapzc4v18lbibkx1yzdzib`. Contracts
/// see it as its method and the bytes of its digest.
#[derive(Clone, Copy)]
pub struct Ca {
    method: Method,
    digest: [u8; 32],
}

impl Model for Ca {
    ghost Value = { ContentAddress };

    ghost view = { λ c. record { method = c.method; digest = c.digest } };

    ghost inverse = { λ c. record { method = c.method; digest = c.digest } };
}

/// Why a text gives no content address.
#[derive(Clone, Copy, PartialEq, Eq, Debug, Error)]
pub enum CaError {
    /// The text isn't `text:sha256:` or `fixed:r:sha256:` and 52 digits that spell 32 bytes.
    #[error("bad-ca")]
    BadCa,
    /// Memory was refused.
    #[error("memory")]
    Memory,
}

impl From<Base32Error> for CaError {
    ghost from_gives = { λ fault e. e ≡ digits_fault fault };

    fn from(fault: Base32Error) -> CaError {
        match fault {
            Base32Error::Memory => CaError::Memory,
            _ => CaError::BadCa,
        }
    }
}

/// Why a content address isn't that of an object.
#[derive(Clone, Copy, PartialEq, Eq, Debug, Error)]
pub enum VerifyError {
    /// The digest or the path differs, or the address is of a text and the archive isn't that of a regular file that
    /// isn't executable.
    #[error("ca-mismatch")]
    CaMismatch,
    /// Memory was refused.
    #[error("memory")]
    Memory,
}

impl From<AllocError> for VerifyError {
    ghost use Rattle.paths.specs.declared.content_address.VerifyError.{VerifyError};

    ghost from_gives = { λ _ e. e ≡ VerifyError.Memory };

    fn from(_: AllocError) -> VerifyError {
        VerifyError::Memory
    }
}

/// What the text of an address begins with.
fn prefix(method: Method) -> &'static str
    ensures { result.now ≡ address_prefix method }
{
    match method {
        Method::Text => "text:sha256:",
        Method::Source => "fixed:r:sha256:",
    }
}

impl Ca {
    /// The address that a text is: `text:sha256:` or `fixed:r:sha256:`, and 52 digits that spell 32 bytes.
    ///
    /// ```rust
    /// use paths::{Ca, CaError, Method};
    ///
    /// let address = Ca::parse(alloc, "fixed:r:sha256:1qwy7y49hyqd7kdpkyjfclz5fkfqalqapzc4v18lbibkx1yzdzib")?;
    /// assert_eq!(rt; address.method(), Method::Source);
    /// assert!(rt; matches!(Ca::parse(alloc, "text:sha256:0"), Err(CaError::BadCa)));
    /// ```
    ///
    /// # Errors
    ///
    /// `BadCa` if and only if the text isn't an address; `Memory` if memory was refused.
    pub fn parse(alloc: Global, text: &str) -> Result<Ca, CaError>
        ensures ok { IfOk result (λ ca. address_of text.now ≡ Some ca) }
        ensures bad { IfErr result (λ e. (e ≡ CaError.Memory) ⊎ ((e ≡ CaError.BadCa) × (address_of text.now ≡ None))) }
    {
        if let Some(digits) = text.strip_prefix("text:sha256:") {
            return Ca::with_digits(alloc, Method::Text, digits);
        }
        if let Some(digits) = text.strip_prefix("fixed:r:sha256:") {
            return Ca::with_digits(alloc, Method::Source, digits);
        }
        Err(CaError::BadCa)
    }

    fn with_digits(alloc: Global, method: Method, digits: &str) -> Result<Ca, CaError>
        ensures ok { IfOk result (λ ca. with_method method (spec.unbase32 digits.now 32) ≡ Some ca) }
        ensures bad { IfErr result
            (λ e. (e ≡ CaError.Memory)
            ⊎ ((e ≡ CaError.BadCa) × (with_method method (spec.unbase32 digits.now 32) ≡ None))) }
    {
        let bytes = unbase32(alloc, digits, 32)?;
        let mut digest = [0u8; 32];
        digest.copy_from_slice(bytes.as_slice());
        Ok(Ca::new(method, digest))
    }

    /// The address of a text object with these contents.
    ///
    /// ```rust
    /// use paths::Ca;
    ///
    /// let text = Ca::of_text(b"abc").to_text(alloc)?;
    /// assert_eq!(rt; text.as_str(), "text:sha256:1b8m03r63zqhnjf7l5wnldhh7c134ap5vpj0850ymkq1iyzicy5s");
    /// ```
    pub fn of_text(contents: &[u8]) -> Ca
        ensures { result ≡ text_address contents.now }
    {
        Ca {
            method: Method::Text,
            digest: Sha256::digest(contents),
        }
    }

    /// The address of a source object with this archive.
    ///
    /// ```rust
    /// use nar::Node;
    /// use paths::Ca;
    ///
    /// let mut archive = Vec::new(alloc);
    /// nar::write(&Node::Regular { executable: false, contents: b"mycontent\n" }, &mut archive)?;
    /// let text = Ca::of_source(&archive).to_text(alloc)?;
    /// assert_eq!(rt; text.as_str(), "fixed:r:sha256:1qwy7y49hyqd7kdpkyjfclz5fkfqalqapzc4v18lbibkx1yzdzib");
    /// ```
    pub fn of_source(nar: &[u8]) -> Ca
        ensures { result ≡ source_address nar.now }
    {
        Ca {
            method: Method::Source,
            digest: Sha256::digest(nar),
        }
    }

    /// The address of this method and digest: SHA-256 of a text's contents, or of a source's archive.
    ///
    /// ```rust
    /// use paths::{Ca, Method};
    /// use sha2::{Digest, Sha256};
    ///
    /// let address = Ca::new(Method::Text, Sha256::digest(""));
    /// let text = address.to_text(alloc)?;
    /// assert_eq!(rt; text.as_str(), "text:sha256:0mdqa9w1p6cmli6976v4wi0sw9r4p5prkj7lzfd1877wk11c9c73");
    /// ```
    pub fn new(method: Method, digest: [u8; 32]) -> Ca
        ensures { result ≡ record { method = method; digest = digest } }
    {
        Ca { method, digest }
    }

    /// What the path is made of.
    ///
    /// ```rust
    /// use paths::{Ca, Method};
    ///
    /// assert_eq!(rt; Ca::of_text(b"mycontent\n").method(), Method::Text);
    /// assert_eq!(rt; Ca::of_source(b"").method(), Method::Source);
    /// ```
    pub fn method(&self) -> Method
        ensures { result ≡ self.now.method }
    {
        self.method
    }

    /// The text of the address, which is read as this address.
    ///
    /// ```rust
    /// use paths::Ca;
    ///
    /// let text = Ca::of_text(b"").to_text(alloc)?;
    /// assert_eq!(rt; text.as_str(), "text:sha256:0mdqa9w1p6cmli6976v4wi0sw9r4p5prkj7lzfd1877wk11c9c73");
    /// ```
    ///
    /// # Errors
    ///
    /// Memory was refused.
    pub fn to_text(&self, alloc: Global) -> Result<String, AllocError>
        ensures text { IfOk result (λ text. string_bytes text ≡ address_text self.now) }
        ensures back { IfOk result (λ text. address_of (string_bytes text) ≡ Some self.now) }
    {
        let mut text = String::from_str(alloc, prefix(self.method))?;
        let digits = base32(alloc, &self.digest)?;
        text.push_str(digits.as_str())?;
        Ok(text)
    }

    /// Tests whether this is the address of the object with a path, references and an archive. The order and the
    /// repeats of `refs` make no difference, and `nar` may be any bytes.
    ///
    /// ```rust
    /// use nar::Node;
    /// use paths::{Ca, StoreDir, StorePath, VerifyError};
    ///
    /// let mut archive = Vec::new(alloc);
    /// nar::write(&Node::Regular { executable: false, contents: b"mycontent\n" }, &mut archive)?;
    /// let dir = StoreDir::parse(alloc, "/nix/store")?;
    /// let path = StorePath::from_base(alloc, "xv2iccirbrvklck36f1g7vldn5v58vck-myfile")?;
    /// Ca::of_source(&archive).verify(alloc, &dir, &path, &[], &archive)?;
    /// let fault = Ca::of_text(b"mycontent\n").verify(alloc, &dir, &path, &[], &archive);
    /// assert_eq!(rt; fault, Err(VerifyError::CaMismatch));
    /// ```
    ///
    /// # Errors
    ///
    /// `CaMismatch` if and only if the digest differs from that of the contents (of a text) or the archive (of a
    /// source), the path differs from the one made of them, or the address is of a text and `nar` isn't the archive of
    /// a regular file that isn't executable; `Memory` if memory was refused.
    pub fn verify(
        &self,
        alloc: Global,
        dir: &StoreDir,
        path: &StorePath,
        refs: &[StorePath],
        nar: &[u8],
    ) -> Result<(), VerifyError>
        ensures ok { OnOk result (verifies self.now dir.now path.now refs.now nar.now ≡ true) }
        ensures bad { IfErr result
            (λ e. (e ≡ VerifyError.Memory)
            ⊎ ((e ≡ VerifyError.CaMismatch) × (verifies self.now dir.now path.now refs.now nar.now ≡ false))) }
    {
        match self.method {
            Method::Text => verify_text(alloc, &self.digest, dir, path, refs, nar),
            Method::Source => {
                let inner = Sha256::digest(nar);
                let digests = Digests {
                    stated: &self.digest,
                    inner: &inner,
                };
                verify_made(alloc, "source", digests, dir, path, refs)
            }
        }
    }

    /// Tests as `verify` does, by the facts of the archive. For the address of a source the facts needn't have the
    /// digest of contents.
    ///
    /// ```rust
    /// use paths::{Ca, Facts, StoreDir, StorePath};
    /// use sha2::{Digest, Sha256};
    ///
    /// let plain = Some(Sha256::digest("mycontent\n"));
    /// let facts = Facts { nar_hash: [0; 32], nar_size: 128, plain };
    /// let dir = StoreDir::parse(alloc, "/nix/store")?;
    /// let path = StorePath::from_base(alloc, "a0d1zlpv81nsfbam8ay3i7snrc0sgsvr-myfile")?;
    /// Ca::of_text(b"mycontent\n").verify_facts(alloc, &dir, &path, &[], &facts)?;
    /// ```
    ///
    /// # Errors
    ///
    /// `CaMismatch` if and only if `verify` returns it for the archive; `Memory` if memory was refused.
    pub fn verify_facts(
        &self,
        alloc: Global,
        dir: &StoreDir,
        path: &StorePath,
        refs: &[StorePath],
        facts: &Facts,
    ) -> Result<(), VerifyError>
        ensures ok { OnOk result (verifies_by self.now dir.now path.now refs.now facts.now ≡ true) }
        ensures bad { IfErr result
            (λ e. (e ≡ VerifyError.Memory)
            ⊎ ((e ≡ VerifyError.CaMismatch) × (verifies_by self.now dir.now path.now refs.now facts.now ≡ false))) }
        // For the facts of an archive, this is the test of that archive.
        ensures same { (nar : List ℕ) → facts.now ≡ facts_of nar
            → verifies_by self.now dir.now path.now refs.now facts.now
            ≡ verifies self.now dir.now path.now refs.now nar }
        // For the facts that an address of this method needs, too.
        ensures enough { (nar : List ℕ) → HasFactsFor self.now.method nar facts.now
            → verifies_by self.now dir.now path.now refs.now facts.now
            ≡ verifies self.now dir.now path.now refs.now nar }
    {
        match self.method {
            Method::Text => {
                let Some(inner) = facts.plain else {
                    return Err(VerifyError::CaMismatch);
                };
                let digests = Digests {
                    stated: &self.digest,
                    inner: &inner,
                };
                verify_made(alloc, "text", digests, dir, path, refs)
            }
            Method::Source => {
                let digests = Digests {
                    stated: &self.digest,
                    inner: &facts.nar_hash,
                };
                verify_made(alloc, "source", digests, dir, path, refs)
            }
        }
    }
}

/// The contents of a regular file that isn't executable.
fn plain_contents<'a>(node: &Node<'a>) -> Option<&'a [u8]>
    ensures { option_copied result ≡ plain (tree_of node.now) }
{
    match node {
        Node::Regular {
            executable: false,
            contents,
        } => Some(*contents),
        _ => None,
    }
}

/// The contents, if some bytes are the archive of a regular file that isn't executable.
fn contents_in(alloc: Global, nar: &[u8]) -> Result<Option<&[u8]>, AllocError>
    ensures { IfOk result (λ found. option_copied found ≡ plain_contents (outcome_of nar.now)) }
{
    match nar::read(alloc, nar) {
        Ok(node) => Ok(plain_contents(&node)),
        Err(fault) => match fault {
            NarError::Memory => Err(AllocError),
            _ => Ok(None),
        },
    }
}

fn verify_text(
    alloc: Global,
    stated: &[u8; 32],
    dir: &StoreDir,
    path: &StorePath,
    refs: &[StorePath],
    nar: &[u8],
) -> Result<(), VerifyError>
    ensures ok { OnOk result (method_verifies Method.Text stated.now dir.now path.now refs.now nar.now ≡ true) }
    ensures bad { IfErr result
        (λ e. (e ≡ VerifyError.Memory)
        ⊎ ((e ≡ VerifyError.CaMismatch)
        × (method_verifies Method.Text stated.now dir.now path.now refs.now nar.now ≡ false))) }
{
    let Some(contents) = contents_in(alloc, nar)? else {
        return Err(VerifyError::CaMismatch);
    };
    let inner = Sha256::digest(contents);
    let digests = Digests {
        stated,
        inner: &inner,
    };
    verify_made(alloc, "text", digests, dir, path, refs)
}

fn same_bytes(a: &[u8], b: &[u8]) -> bool
    ensures { result ≡ bytes_eq a.now b.now }
{
    a == b
}

/// The digest that an address states, and that of the contents of a text or of the archive of a source.
#[derive(Clone, Copy)]
struct Digests<'a> {
    stated: &'a [u8; 32],
    inner: &'a [u8; 32],
}

/// Tests whether a digest is the stated one, and a path is made of it.
fn verify_made(
    alloc: Global,
    kind: &str,
    digests: Digests<'_>,
    dir: &StoreDir,
    path: &StorePath,
    refs: &[StorePath],
) -> Result<(), VerifyError>
    ensures ok { OnOk result
        (is_made_of kind.now digests.entry.stated.now digests.entry.inner.now dir.now path.now refs.now ≡ true) }
    ensures bad { IfErr result
        (λ e. (e ≡ VerifyError.Memory)
        ⊎ ((e ≡ VerifyError.CaMismatch)
        × (is_made_of kind.now digests.entry.stated.now digests.entry.inner.now dir.now path.now refs.now ≡ false))) }
{
    if !same_bytes(digests.stated.as_slice(), digests.inner.as_slice()) {
        return Err(VerifyError::CaMismatch);
    }
    let made = path_of(alloc, kind, dir, path.name(), refs, digests.inner)?;
    if !same_bytes(path.as_str().as_bytes(), made.as_str().as_bytes()) {
        return Err(VerifyError::CaMismatch);
    }
    Ok(())
}
