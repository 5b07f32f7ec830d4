//! A caller of `drv`.
use crate::fixtures::store_dir;
use drv::{DrvError, outputs};
use paths::{StoreDir, StorePath};
use std::alloc::Global;
use std::test::Fail;

/// A derivation with one output.
const ONE: &[u8] =
    br#"Derive([("out","/nix/store/11111111111111111111111111111111-o","","")],[],[],"p","b",[],[])"#;

/// A derivation with two outputs of one name.
const TWICE: &[u8] = br#"Derive([("out","","",""),("out","","","")],[],[],"p","b",[],[])"#;

/// A text with an escape that no string has.
const MALFORMED: &[u8] =
    br#"Derive([("out","/nix/store/11111111111111111111111111111111-o","","")],[],[],"\x","b",[],[])"#;

fn outputs_of(
    alloc: Global,
    text: &[u8],
    dir: &StoreDir,
) -> Result<Vec<(String, StorePath)>, DrvError> {
    outputs(alloc, text, dir)
}

/// Whether there is one output, of this name and path.
fn is_output(found: &[(String, StorePath)], name: &str, base: &str) -> bool {
    match found {
        [(output, path)] => output.as_str() == name && path.as_str() == base,
        _ => false,
    }
}

#[test]
fn recorded_outputs(rt: HostRuntime) -> Result<(), Fail> {
    let alloc = rt.alloc();
    let found = outputs_of(alloc, ONE, &store_dir(alloc)?)?;
    assert!(rt; is_output(&found, "out", "11111111111111111111111111111111-o"));
    Ok(())
}

/// The fault of a derivation, if it has one.
fn fault_of(alloc: Global, text: &[u8], dir: &StoreDir) -> Option<DrvError> {
    match outputs(alloc, text, dir) {
        Ok(_) => None,
        Err(e) => Some(e),
    }
}

#[test]
fn refused_derivations(rt: HostRuntime) -> Result<(), Fail> {
    let alloc = rt.alloc();
    let dir = store_dir(alloc)?;
    assert_eq!(rt; fault_of(alloc, TWICE, &dir), Some(DrvError::DoubleOutput));
    assert_eq!(rt;
        fault_of(alloc, MALFORMED, &dir),
        Some(DrvError::BadDerivation)
    );
    assert_eq!(rt; fault_of(alloc, b"", &dir), Some(DrvError::BadDerivation));
    Ok(())
}
