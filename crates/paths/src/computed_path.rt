//! The store paths that objects are given by what they are made of.
ghost use Rattle.std.specs.Prelude.{◌≡◌, ◌++◌, List, ℕ, IfOk, OnOk, map, codes, string_bytes, true, length};
ghost use Rattle.std.specs.List.{flat_map};
ghost use Rattle.sha2.specs.Sha256.{sha256};
ghost use Rattle.paths.specs.Names.{is_store_name};
ghost use Rattle.paths.specs.Path as spec;
ghost use Rattle.paths.specs.Path.{InPathOrder, reference_part, fingerprint_of, HasFingerprint, IsPathOf, path_of};
ghost use Rattle.paths.specs.Fold.{fold20};

use crate::digits::base32;
use crate::store_dir::StoreDir;
use crate::store_name::Name;
use crate::store_path::StorePath;
use sha2::{Digest, Sha256};
use std::alloc::{AllocError, Global};

/// The base names of references in path order, each once.
pub(crate) fn in_path_order<'a>(
    alloc: Global,
    refs: &'a [StorePath],
) -> Result<Vec<&'a str>, AllocError>
    ensures { IfOk result (λ v. InPathOrder refs.now (map (λ s. s.now) v.items)) }
{
    let mut bases = Vec::with_capacity(alloc, refs.len())?;
    for path in refs {
        bases.push(path.as_str())?;
    }
    bases.sort_unstable();
    bases.dedup();
    Ok(bases)
}

fn push_references(text: &mut String, dir: &StoreDir, bases: &[&str]) -> Result<(), AllocError>
    ensures { OnOk result (string_bytes text.new ≡ string_bytes text.old
        ++ flat_map (reference_part dir.now) (map (λ s. s.now) bases.now)) }
{
    for base in bases {
        text.push_str(":")?;
        text.push_str(dir.as_str())?;
        text.push_str("/")?;
        text.push_str(*base)?;
    }
    Ok(())
}

pub(crate) fn fingerprint(
    alloc: Global,
    kind: &str,
    dir: &StoreDir,
    name: &str,
    bases: &[&str],
    inner: &[u8; 32],
) -> Result<String, AllocError>
    ensures { IfOk result
        (λ text. string_bytes text ≡ fingerprint_of kind.now dir.now (map (λ s. s.now) bases.now) inner.now name.now) }
{
    let mut text = String::from_str(alloc, kind)?;
    push_references(&mut text, dir, bases)?;
    text.push_str(":sha256:")?;
    let digits = hex::encode(alloc, inner)?;
    text.push_str(digits.as_str())?;
    text.push_str(":")?;
    text.push_str(dir.as_str())?;
    text.push_str(":")?;
    text.push_str(name)?;
    Ok(text)
}

/// The path that an object of some kind is given, by its name, its references and its inner digest.
pub(crate) fn path_of(
    alloc: Global,
    kind: &str,
    dir: &StoreDir,
    name: &str,
    refs: &[StorePath],
    inner: &[u8; 32],
) -> Result<StorePath, AllocError>
    requires { is_store_name name.now ≡ true }
    ensures fits { IfOk result (λ p. IsPathOf kind.now dir.now name.now refs.now inner.now p) }
    ensures value { IfOk result (λ p. p ≡ path_of kind.now dir.now name.now refs.now inner.now) }
{
    let bases = in_path_order(alloc, refs)?;
    let text = fingerprint(alloc, kind, dir, name, bases.as_slice(), inner)?;
    let digest = Sha256::digest(text.as_str());
    let digits = base32(alloc, &fold20(&digest))?;
    StorePath::join(digits, name)
}

/// The path of a text object: a regular file that isn't executable, with these contents. The order and the
/// repeats of `refs` make no difference.
///
/// ```rust
/// use paths::{Name, StoreDir};
///
/// let dir = StoreDir::parse(alloc, "/nix/store")?;
/// let name = Name::parse(alloc, "myfile")?;
/// let path = paths::text_path(alloc, &dir, &name, &[], b"mycontent\n")?;
/// assert_eq!(rt; path.as_str(), "a0d1zlpv81nsfbam8ay3i7snrc0sgsvr-myfile");
/// ```
///
/// # Errors
///
/// Memory was refused.
pub fn text_path(
    alloc: Global,
    dir: &StoreDir,
    name: &Name,
    refs: &[StorePath],
    contents: &[u8],
) -> Result<StorePath, AllocError>
    ensures fits { IfOk result (λ p. IsPathOf (codes "text") dir.now name.now refs.now (sha256 contents.now) p) }
    ensures value { IfOk result (λ p. p ≡ spec.text_path dir.now name.now refs.now contents.now) }
{
    text_path_of(alloc, dir, name, refs, &Sha256::digest(contents))
}

/// The path of a text object, by SHA-256 of its contents.
///
/// ```rust
/// use paths::{Name, StoreDir};
/// use sha2::{Digest, Sha256};
///
/// let dir = StoreDir::parse(alloc, "/nix/store")?;
/// let name = Name::parse(alloc, "myfile")?;
/// let path = paths::text_path_of(alloc, &dir, &name, &[], &Sha256::digest("mycontent\n"))?;
/// assert_eq!(rt; path.as_str(), "a0d1zlpv81nsfbam8ay3i7snrc0sgsvr-myfile");
/// ```
///
/// # Errors
///
/// Memory was refused.
pub fn text_path_of(
    alloc: Global,
    dir: &StoreDir,
    name: &Name,
    refs: &[StorePath],
    hash: &[u8; 32],
) -> Result<StorePath, AllocError>
    ensures fits { IfOk result (λ p. IsPathOf (codes "text") dir.now name.now refs.now hash.now p) }
    // The result is the path of the contents that have this digest.
    ensures value { (contents : List ℕ) → hash.now ≡ sha256 contents
        → IfOk result (λ p. p ≡ spec.text_path dir.now name.now refs.now contents) }
{
    path_of(alloc, "text", dir, name.as_str(), refs, hash)
}

/// The path of a source object: any archive. The order and the repeats of `refs` make no difference.
///
/// ```rust
/// use nar::Node;
/// use paths::{Name, StoreDir};
///
/// let mut archive = Vec::new(alloc);
/// nar::write(&Node::Regular { executable: false, contents: b"mycontent\n" }, &mut archive)?;
/// let dir = StoreDir::parse(alloc, "/nix/store")?;
/// let path = paths::source_path(alloc, &dir, &Name::parse(alloc, "myfile")?, &[], &archive)?;
/// assert_eq!(rt; path.as_str(), "xv2iccirbrvklck36f1g7vldn5v58vck-myfile");
/// ```
///
/// # Errors
///
/// Memory was refused.
pub fn source_path(
    alloc: Global,
    dir: &StoreDir,
    name: &Name,
    refs: &[StorePath],
    nar: &[u8],
) -> Result<StorePath, AllocError>
    ensures fits { IfOk result (λ p. IsPathOf (codes "source") dir.now name.now refs.now (sha256 nar.now) p) }
    ensures value { IfOk result (λ p. p ≡ spec.source_path dir.now name.now refs.now nar.now) }
{
    source_path_of(alloc, dir, name, refs, &Sha256::digest(nar))
}

/// The path of a source object, by SHA-256 of its archive.
///
/// ```rust
/// use paths::{Name, StoreDir};
///
/// let hash = hex::decode(alloc, "2bfef67de873c54551d884fdab3055d84d573e654efa79db3c0d7b98883f9ee3")?;
/// let mut nar_hash = [0; 32];
/// nar_hash.copy_from_slice(&hash);
/// let dir = StoreDir::parse(alloc, "/nix/store")?;
/// let path = paths::source_path_of(alloc, &dir, &Name::parse(alloc, "myfile")?, &[], &nar_hash)?;
/// assert_eq!(rt; path.as_str(), "xv2iccirbrvklck36f1g7vldn5v58vck-myfile");
/// ```
///
/// # Errors
///
/// Memory was refused.
pub fn source_path_of(
    alloc: Global,
    dir: &StoreDir,
    name: &Name,
    refs: &[StorePath],
    nar_hash: &[u8; 32],
) -> Result<StorePath, AllocError>
    ensures fits { IfOk result (λ p. IsPathOf (codes "source") dir.now name.now refs.now nar_hash.now p) }
    // The result is the path of the archive that has this digest.
    ensures value { (nar : List ℕ) → nar_hash.now ≡ sha256 nar
        → IfOk result (λ p. p ≡ spec.source_path dir.now name.now refs.now nar) }
{
    path_of(alloc, "source", dir, name.as_str(), refs, nar_hash)
}

/// Folds a digest of 32 bytes to 20: byte i is the exclusive or of the bytes at places congruent to i modulo 20.
///
/// ```rust
/// let mut digest = [0; 32];
/// digest[0] = 0x01;
/// digest[20] = 0xff;
/// assert_eq!(rt; paths::fold20(&digest)[0], 0xfe);
/// ```
pub fn fold20(digest: &[u8; 32]) -> [u8; 20]
    ensures { result ≡ fold20 digest.now }
{
    let mut folded = [0u8; 20];
    for i in 0..20 {
        folded[i] = if i < 12 {
            digest[i] ^ digest[i + 20]
        } else {
            digest[i]
        };
    }
    folded
}
