//! A caller of `paths`: computed paths and content addresses.
use crate::fixtures::{ADDRESS, MY_FILE, MY_HASH, SOURCE, TEXT, path, store_dir};
use paths::{
    Ca, CaError, Facts, Method, Name, NameError, StoreDir, StorePath, VerifyError, source_path,
    source_path_of, text_path, text_path_of,
};
use sha2::{Digest, Sha256};
use std::alloc::{AllocError, Global};
use std::test::Fail;

fn name(alloc: Global, text: &str) -> Result<Name, NameError> {
    Name::parse(alloc, text)
}

/// The path of a text.
fn of_text(
    alloc: Global,
    dir: &StoreDir,
    name: &Name,
    references: &[StorePath],
    contents: &[u8],
) -> Result<StorePath, AllocError> {
    text_path(alloc, dir, name, references, contents)
}

/// The path of a text by its digest.
fn of_text_digest(
    alloc: Global,
    dir: &StoreDir,
    name: &Name,
    contents: &[u8],
) -> Result<StorePath, AllocError> {
    text_path_of(alloc, dir, name, &[], &Sha256::digest(contents))
}

/// The path of a source.
fn of_source(
    alloc: Global,
    dir: &StoreDir,
    name: &Name,
    archive: &[u8],
) -> Result<StorePath, AllocError> {
    source_path(alloc, dir, name, &[], archive)
}

/// The path of a source by the digest of its archive.
fn of_source_digest(
    alloc: Global,
    dir: &StoreDir,
    name: &Name,
    digest: &[u8; 32],
) -> Result<StorePath, AllocError> {
    source_path_of(alloc, dir, name, &[], digest)
}

/// Whether the text of these contents named `myfile` is at a path.
fn is_text_at(alloc: Global, contents: &[u8], base: &str) -> Result<bool, Fail> {
    let (dir, name) = (store_dir(alloc)?, name(alloc, "myfile")?);
    Ok(of_text(alloc, &dir, &name, &[], contents)?.as_str() == base)
}

/// Whether the path of a text by the digest of its contents has this base name.
fn is_text_of_digest_at(alloc: Global, contents: &[u8], base: &str) -> Result<bool, Fail> {
    let (dir, name) = (store_dir(alloc)?, name(alloc, "myfile")?);
    Ok(of_text_digest(alloc, &dir, &name, contents)?.as_str() == base)
}

#[test]
fn paths_of_texts(rt: HostRuntime) -> Result<(), Fail> {
    let alloc = rt.alloc();
    assert!(rt; is_text_at(alloc, b"mycontent\n", TEXT)?);
    assert!(rt; is_text_of_digest_at(alloc, b"mycontent\n", TEXT)?);
    Ok(())
}

/// Whether the source of this archive named `myfile` is at a path.
fn is_source_at(alloc: Global, archive: &[u8], base: &str) -> Result<bool, Fail> {
    let (dir, name) = (store_dir(alloc)?, name(alloc, "myfile")?);
    Ok(of_source(alloc, &dir, &name, archive)?.as_str() == base)
}

/// Whether the path of a source by the digest of its archive has this base name.
fn is_source_of_digest_at(alloc: Global, digest: &[u8; 32], base: &str) -> Result<bool, Fail> {
    let (dir, name) = (store_dir(alloc)?, name(alloc, "myfile")?);
    Ok(of_source_digest(alloc, &dir, &name, digest)?.as_str() == base)
}

#[test]
fn paths_of_sources(rt: HostRuntime) -> Result<(), Fail> {
    let alloc = rt.alloc();
    assert!(rt; is_source_at(alloc, MY_FILE, SOURCE)?);
    assert!(rt; is_source_of_digest_at(alloc, &MY_HASH, SOURCE)?);
    Ok(())
}

/// The path of a text that refers to others.
fn path_with(alloc: Global, bases: &[&str]) -> Result<StorePath, Fail> {
    let mut references = Vec::new(alloc);
    for base in bases {
        references.push(path(alloc, base)?)?;
    }
    let (dir, name) = (store_dir(alloc)?, name(alloc, "n")?);
    Ok(of_text(alloc, &dir, &name, &references, b"abc")?)
}

// The order and the repeats of references don't matter.
#[test]
fn references_as_a_set(rt: HostRuntime) -> Result<(), Fail> {
    let alloc = rt.alloc();
    let (a, b) = (
        "00000000000000000000000000000000-a",
        "11111111111111111111111111111111-b",
    );
    let found = path_with(alloc, &[b, a, b])?;
    assert!(rt; found == path_with(alloc, &[a, b])?);
    assert!(rt; found != path_with(alloc, &[a])?);
    Ok(())
}

fn address(alloc: Global, text: &str) -> Result<Ca, CaError> {
    Ca::parse(alloc, text)
}

/// How the address of a source is made, and its text.
fn source_address(alloc: Global, archive: &[u8]) -> Result<(Method, String), AllocError> {
    let address = Ca::of_source(archive);
    let text = address.to_text(alloc)?;
    Ok((address.method(), text))
}

// An address is made of an archive, and written.
#[test]
fn made_addresses(rt: HostRuntime) -> Result<(), Fail> {
    let (method, text) = source_address(rt.alloc(), MY_FILE)?;
    assert!(rt; matches!(method, Method::Source));
    assert!(rt; text.as_str() == ADDRESS);
    Ok(())
}

#[test]
fn refused_addresses(rt: HostRuntime) {
    let malformed = address(rt.alloc(), "text:sha256:1");
    assert!(rt; matches!(&malformed, Err(CaError::BadCa)));
}

/// The fault of a path next to a content address and the archive, if it has one.
fn fault_of(
    alloc: Global,
    address: &Ca,
    path: &StorePath,
    archive: &[u8],
) -> Result<Option<VerifyError>, Fail> {
    let dir = store_dir(alloc)?;
    match address.verify(alloc, &dir, path, &[], archive) {
        Ok(()) => Ok(None),
        Err(e) => Ok(Some(e)),
    }
}

/// The fault of the source's address next to another path, if it has one.
fn fault_at(alloc: Global, base: &str) -> Result<Option<VerifyError>, Fail> {
    let address = address(alloc, ADDRESS)?;
    let path = path(alloc, base)?;
    fault_of(alloc, &address, &path, MY_FILE)
}

#[test]
fn verified_sources(rt: HostRuntime) -> Result<(), Fail> {
    let alloc = rt.alloc();
    assert_eq!(rt; fault_at(alloc, SOURCE)?, None);
    let fault = fault_at(alloc, "xv2iccirbrvklck36f1g7vldn5v58vck-myfile2")?;
    assert_eq!(rt; fault, Some(VerifyError::CaMismatch));
    Ok(())
}

fn text_address(contents: &[u8]) -> Ca {
    Ca::of_text(contents)
}

#[test]
fn verified_texts(rt: HostRuntime) -> Result<(), Fail> {
    let alloc = rt.alloc();
    let address = text_address(b"mycontent\n");
    let text = path(alloc, TEXT)?;
    assert_eq!(rt; fault_of(alloc, &address, &text, MY_FILE)?, None);
    Ok(())
}

/// The fault of an address, by the facts of the archive.
fn fault_by_facts(
    alloc: Global,
    address: &Ca,
    path: &StorePath,
    facts: &Facts,
) -> Result<Option<VerifyError>, Fail> {
    let dir = store_dir(alloc)?;
    match address.verify_facts(alloc, &dir, path, &[], facts) {
        Ok(()) => Ok(None),
        Err(e) => Ok(Some(e)),
    }
}

/// The fault of the source's address next to another path, by the facts of the archive.
fn fault_by_facts_at(alloc: Global, base: &str) -> Result<Option<VerifyError>, Fail> {
    let facts = Facts {
        nar_hash: MY_HASH,
        nar_size: 128,
        plain: None,
    };
    let address = address(alloc, ADDRESS)?;
    let path = path(alloc, base)?;
    fault_by_facts(alloc, &address, &path, &facts)
}

#[test]
fn verified_facts(rt: HostRuntime) -> Result<(), Fail> {
    let alloc = rt.alloc();
    assert_eq!(rt; fault_by_facts_at(alloc, SOURCE)?, None);
    let fault = fault_by_facts_at(alloc, TEXT)?;
    assert_eq!(rt; fault, Some(VerifyError::CaMismatch));
    Ok(())
}
