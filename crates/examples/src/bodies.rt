//! A caller of `wire`: bodies are read.
use crate::fixtures::store_dir;
use paths::StoreDir;
use std::alloc::Global;
use std::test::Fail;
use store::Request;
use wire::{import_body, runtime_body};

const IMPORT: &[u8] = b"path: 11111111111111111111111111111111-o\n\
nar-hash: sha256:0mdqa9w1p6cmli6976v4wi0sw9r4p5prkj7lzfd1877wk11c9c73\n\n";

/// Whether a request is an import to a path, of an archive whose digest begins with a byte.
fn is_import(request: &Request, base: &str, byte: u8) -> bool {
    match request {
        Request::Import {
            path,
            nar_hash,
            refs,
            deriver: None,
            ca: None,
            nar: _,
        } => path.as_str() == base && nar_hash[0] == byte && refs.is_empty(),
        _ => false,
    }
}

#[test]
fn bodies_of_imports(rt: HostRuntime) -> Result<(), Fail> {
    let alloc = rt.alloc();
    let dir = store_dir(alloc)?;
    let request = import_body(alloc, &dir, IMPORT)?;
    assert!(rt; is_import(&request, "11111111111111111111111111111111-o", 0xe3));
    Ok(())
}

/// Whether a request puts one runtime root in the place of all, with this label, on this path.
fn is_runtime(request: &Request, label: &str, base: &str) -> bool {
    let Request::ReplaceRuntime(pairs) = request else {
        return false;
    };
    match pairs.as_slice() {
        [(found, target)] => found.as_str() == label && target.as_str() == base,
        _ => false,
    }
}

#[test]
fn bodies_of_runtime_roots(rt: HostRuntime) -> Result<(), Fail> {
    let alloc = rt.alloc();
    let dir = store_dir(alloc)?;
    let body = b"root: /proc/1/exe 22222222222222222222222222222222-y\n\n";
    let request = runtime_body(alloc, &dir, body)?;
    assert!(rt;
        is_runtime(
            &request,
            "/proc/1/exe",
            "22222222222222222222222222222222-y"
        )
    );
    Ok(())
}

/// The fault of a body of runtime roots.
fn fault_of(alloc: Global, dir: &StoreDir, body: &[u8]) -> Result<String, Fail> {
    match runtime_body(alloc, dir, body) {
        Ok(_) => Err(Fail::new("no fault")),
        Err(e) => Ok(e.to_string(alloc)?),
    }
}

// The empty line is missing, or a key isn't of the route.
#[test]
fn refused_bodies(rt: HostRuntime) -> Result<(), Fail> {
    let alloc = rt.alloc();
    let dir = store_dir(alloc)?;
    assert!(rt; import_body(alloc, &dir, b"").is_err());
    assert!(rt; fault_of(alloc, &dir, b"root: a")?.as_str() == "bad-body-head");
    assert!(rt; fault_of(alloc, &dir, b"path: a\n\n")?.as_str() == "bad-body-head");
    Ok(())
}
