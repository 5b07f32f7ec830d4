//! A caller of `store` and `tables`: a derivation is added, what it records is read, and it keeps its output.
use crate::fixtures::{SETTINGS, caller, new_store, path};
use crate::imports::{File, import_file};
use crate::replies::{Asked, Step, replies_under};
use paths::StorePath;
use std::alloc::Global;
use std::test::Fail;
use store::{Request, Store};
use tables::{MemStore, Tables};

const DERIVATION: &str = "00000000000000000000000000000000-d.drv";

const OUTPUT: &str = "11111111111111111111111111111111-o";

/// A derivation with one output.
const BUILDER: File = File {
    base: DERIVATION,
    contents: br#"Derive([("out","/nix/store/11111111111111111111111111111111-o","","")],[],[],"p","b",[],[])"#,
    reference: None,
    deriver: None,
};

/// The output of the derivation, which names its deriver.
const BUILT: File = File {
    base: OUTPUT,
    contents: b"",
    reference: None,
    deriver: Some(DERIVATION),
};

/// Outputs are kept by their derivers, and derivers by their outputs.
const KEEP_BOTH: &[u8] = b"allowed-users = [\"bob\"]\ntrusted-users = [\"ann\"]\n\
keep-outputs = true\nkeep-derivations = true\n";

/// Outputs are kept by their derivers alone.
const KEEP_OUTPUTS: &[u8] = b"allowed-users = [\"bob\"]\ntrusted-users = [\"ann\"]\n\
keep-outputs = true\nkeep-derivations = false\n";

/// Without a root both are collected.
const WITHOUT_ROOT: &[Step] = &[
    ("ann", Asked::ImportFile(BUILDER)),
    ("ann", Asked::ImportFile(BUILT)),
    ("bob", Asked::Collect(false, None)),
];

const BOTH_COLLECTED: &[u8] = b"/nix/store/00000000000000000000000000000000-d.drv
/nix/store/11111111111111111111111111111111-o
/nix/store/00000000000000000000000000000000-d.drv
/nix/store/11111111111111111111111111111111-o
freed 2 paths 320 bytes
";

#[test]
fn both_collected(rt: HostRuntime) -> Result<(), Fail> {
    let text = replies_under(rt.alloc(), KEEP_BOTH, WITHOUT_ROOT)?;
    assert!(rt; text.as_slice() == BOTH_COLLECTED);
    Ok(())
}

/// A root keeps the output.
const WITH_ROOT: &[Step] = &[
    ("ann", Asked::ImportFile(BUILDER)),
    ("ann", Asked::ImportFile(BUILT)),
    ("bob", Asked::Keep(OUTPUT)),
    ("bob", Asked::Report),
    ("bob", Asked::Collect(false, None)),
];

const DERIVER_KEPT: &[u8] = b"/nix/store/00000000000000000000000000000000-d.drv
/nix/store/11111111111111111111111111111111-o
done
class       paths            bytes
live            2              320
dead            0                0
total           2              320
freed 0 paths 0 bytes
";

#[test]
fn deriver_kept(rt: HostRuntime) -> Result<(), Fail> {
    let text = replies_under(rt.alloc(), KEEP_BOTH, WITH_ROOT)?;
    assert!(rt; text.as_slice() == DERIVER_KEPT);
    Ok(())
}

const DERIVER_COLLECTED: &[u8] = b"/nix/store/00000000000000000000000000000000-d.drv
/nix/store/11111111111111111111111111111111-o
done
class       paths            bytes
live            1              112
dead            1              208
total           2              320
/nix/store/00000000000000000000000000000000-d.drv
freed 1 paths 208 bytes
";

#[test]
fn deriver_collected(rt: HostRuntime) -> Result<(), Fail> {
    let text = replies_under(rt.alloc(), KEEP_OUTPUTS, WITH_ROOT)?;
    assert!(rt; text.as_slice() == DERIVER_COLLECTED);
    Ok(())
}

/// The base name of the only output of an object, if its name is `out`, and the number of bytes of its archive.
fn output_of(
    alloc: Global,
    tables: &mut Tables<MemStore>,
    path: &StorePath,
) -> Result<Option<(String, usize)>, Fail> {
    let Some(object) = tables.object(path)? else {
        return Ok(None);
    };
    let [name] = object.summary.names() else {
        return Ok(None);
    };
    let [output] = object.summary.outputs() else {
        return Ok(None);
    };
    if name.as_str() != "out" {
        return Ok(None);
    }
    let base = String::from_str(alloc, output.as_str())?;
    Ok(Some((base, object.nar.len())))
}

/// Calls a store as `ann`.
fn call(alloc: Global, store: &mut Store<MemStore>, request: Request) -> Result<(), Fail> {
    let caller = caller(alloc, "ann")?;
    drop(store.call(&caller, request));
    Ok(())
}

/// What the tables have of the derivation after it was imported.
fn recorded(alloc: Global) -> Result<Option<(String, usize)>, Fail> {
    let path = path(alloc, DERIVATION)?;
    let request = import_file(alloc, BUILDER)?;
    let mut store = new_store(alloc, SETTINGS)?;
    let called = call(alloc, &mut store, request);
    let mut tables = store.release();
    if let Err(fail) = called {
        drop(tables.release());
        return Err(fail);
    }
    let found = output_of(alloc, &mut tables, &path);
    drop(tables.release());
    found
}

#[test]
fn outputs_recorded(rt: HostRuntime) -> Result<(), Fail> {
    let Some((base, bytes)) = recorded(rt.alloc())? else {
        return Err(Fail::new("no object with one output"));
    };
    assert!(rt; base.as_str() == OUTPUT);
    assert_eq!(rt; bytes, 208);
    Ok(())
}
