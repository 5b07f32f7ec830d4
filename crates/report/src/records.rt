//! The record of an object as a text.
ghost use Rattle.std.specs.Prelude.{◌≡◌, ◌∷◌, ◌++◌, IfOk, OnOk, codes, decimal, option_map, string_bytes};
ghost use Rattle.std.specs.List.{flat_map, join_with_byte};
ghost use Rattle.paths.specs.StorePath.{full_path};
ghost use Rattle.paths.specs.ContentAddress.{address_text};
ghost use Rattle.report.specs.Narinfo as spec;
ghost use Rattle.report.specs.Narinfo.{digest_text, line, line_if};
ghost use Rattle.store_types.specs.View.{info_view};

use crate::lists::push_path;
use paths::{Ca, StoreDir, StorePath, base32};
use std::alloc::{AllocError, Global};
use std::fmt::Write;
use store_types::Info;

fn push_line(text: &mut String, word: &str, value: &str) -> Result<(), AllocError>
    ensures { OnOk result (string_bytes text.new ≡ string_bytes text.old ++ line word.now value.now) }
{
    text.push_str(word)?;
    text.push_str(": ")?;
    text.push_str(value)?;
    text.push_str("\n")
}

/// Appends the line of `word` with the full path of an object.
fn push_path_of(
    text: &mut String,
    word: &str,
    dir: &StoreDir,
    path: &StorePath,
) -> Result<(), AllocError>
    ensures { OnOk result (string_bytes text.new ≡ string_bytes text.old
        ++ line word.now (full_path dir.now path.now)) }
{
    text.push_str(word)?;
    text.push_str(": ")?;
    push_path(text, dir, path)?;
    text.push_str("\n")
}

/// Appends the line of `word` with the address of an object's archive: `nar/` and the path.
fn push_address(text: &mut String, word: &str, path: &StorePath) -> Result<(), AllocError>
    ensures { OnOk result (string_bytes text.new ≡ string_bytes text.old ++ line word.now (codes "nar/" ++ path.now)) }
{
    text.push_str(word)?;
    text.push_str(": ")?;
    text.push_str("nar/")?;
    text.push_str(path.as_str())?;
    text.push_str("\n")
}

fn push_digest(
    alloc: Global,
    text: &mut String,
    word: &str,
    digest: &[u8; 32],
) -> Result<(), AllocError>
    ensures { OnOk result (string_bytes text.new ≡ string_bytes text.old ++ line word.now (digest_text digest.now)) }
{
    let digits = base32(alloc, digest)?;
    text.push_str(word)?;
    text.push_str(": ")?;
    text.push_str("sha256:")?;
    text.push_str(digits.as_str())?;
    text.push_str("\n")
}

fn push_size(text: &mut String, word: &str, size: usize) -> Result<(), AllocError>
    ensures { OnOk result (string_bytes text.new ≡ string_bytes text.old ++ line word.now (decimal size)) }
{
    write!(text, "{word}: {size}\n")
}

/// Appends each path, after a space.
fn push_further(text: &mut String, paths: &[StorePath]) -> Result<(), AllocError>
    ensures { OnOk result (string_bytes text.new ≡ string_bytes text.old ++ flat_map (λ p. 32 ∷ p) paths.now) }
{
    for path in paths {
        text.push_str(" ")?;
        text.push_str(path.as_str())?;
    }
    Ok(())
}

/// Appends the paths, with a space between.
fn push_joined(text: &mut String, paths: &[StorePath]) -> Result<(), AllocError>
    ensures { OnOk result (string_bytes text.new ≡ string_bytes text.old ++ join_with_byte 32 paths.now) }
{
    match paths {
        [] => Ok(()),
        [first, rest @ ..] => {
            text.push_str(first.as_str())?;
            push_further(text, rest)
        }
    }
}

fn push_references(
    text: &mut String,
    word: &str,
    references: &[StorePath],
) -> Result<(), AllocError>
    ensures { OnOk result (string_bytes text.new ≡ string_bytes text.old
        ++ line word.now (join_with_byte 32 references.now)) }
{
    text.push_str(word)?;
    text.push_str(": ")?;
    push_joined(text, references)?;
    text.push_str("\n")
}

fn push_deriver(text: &mut String, deriver: Option<&StorePath>) -> Result<(), AllocError>
    ensures { OnOk result (string_bytes text.new ≡ string_bytes text.old
        ++ line_if (codes "Deriver") (option_map (λ p. p.now) deriver.entry)) }
{
    match deriver {
        Some(path) => push_line(text, "Deriver", path.as_str()),
        None => Ok(()),
    }
}

fn push_ca(alloc: Global, text: &mut String, ca: Option<Ca>) -> Result<(), AllocError>
    ensures { OnOk result (string_bytes text.new ≡ string_bytes text.old
        ++ line_if (codes "CA") (option_map address_text ca)) }
{
    match ca {
        Some(ca) => {
            let address = ca.to_text(alloc)?;
            push_line(text, "CA", address.as_str())
        }
        None => Ok(()),
    }
}

/// The record of an object as the text that binary caches serve.
///
/// ```rust
/// use paths::{Ca, StoreDir, StorePath};
/// use sha2::{Digest, Sha256};
/// use store::Info;
///
/// let dir = StoreDir::parse(alloc, "/nix/store")?;
/// let path = StorePath::from_base(alloc, "a0d1zlpv81nsfbam8ay3i7snrc0sgsvr-myfile")?;
/// let (hash, ca) = (Sha256::digest("abc"), Some(Ca::of_text(b"abc")));
/// let info = Info { path, hash, size: 128, references: Vec::new(alloc), deriver: None, ca };
/// let text = report::narinfo(alloc, &dir, &info)?;
/// assert!(rt; text.as_str().starts_with("StorePath: /nix/store/a0d1zlpv81nsfbam8ay3i7snrc0sgsvr-myfile\n"));
/// ```
///
/// # Errors
///
/// Memory was refused.
pub fn narinfo(alloc: Global, dir: &StoreDir, info: &Info) -> Result<String, AllocError>
    ensures { IfOk result (λ text. string_bytes text ≡ spec.narinfo dir.now (info_view info.now)) }
{
    let mut text = String::new(alloc);
    push_path_of(&mut text, "StorePath", dir, &info.path)?;
    push_address(&mut text, "URL", &info.path)?;
    push_line(&mut text, "Compression", "none")?;
    push_digest(alloc, &mut text, "FileHash", &info.hash)?;
    push_size(&mut text, "FileSize", info.size)?;
    push_digest(alloc, &mut text, "NarHash", &info.hash)?;
    push_size(&mut text, "NarSize", info.size)?;
    push_references(&mut text, "References", &info.references)?;
    push_deriver(&mut text, info.deriver.as_ref())?;
    push_ca(alloc, &mut text, info.ca)?;
    Ok(text)
}
