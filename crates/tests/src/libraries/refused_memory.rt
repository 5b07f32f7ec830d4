//! Memory that is refused: run with each allocation refused in turn.
use super::archives::{MY_FILE, fault_of, prefix, spelled};
use drv::{DrvError, outputs};
use nar::{Checker, Entry, NarError, Node, is_writable, list, read, write};
use paths::StoreDir;
use policy::{Caller, CallerError, Class, Config, ConfigError, KeyWord, class};
use std::alloc::{AllocError, Global};

/// A derivation with one output.
const ONE: &str =
    r#"Derive([("out","/nix/store/11111111111111111111111111111111-o","","")],[],[],"p","b",[],[])"#;

/// A derivation with two outputs of one name.
const TWICE: &str = r#"Derive([("out","","",""),("out","","","")],[],[],"p","b",[],[])"#;

/// A directory with a directory and a link whose name is 300 bytes long, so that a checker needs memory.
fn archive_of_two(alloc: Global) -> Result<Vec<u8>, AllocError> {
    let words =
        "nix-archive-1 ( type directory entry ( name a node ( type directory ) ) entry ( name";
    let mut out = spelled(alloc, words)?;
    out.extend_from_slice(&300u64.to_le_bytes())?;
    out.extend_from_slice(&[b'n'; 300])?;
    out.extend_from_slice(&[0; 4])?;
    out.extend_from_slice(&spelled(alloc, "node ( type symlink target a ) ) )")?)?;
    Ok(out)
}

fn tree_of_two<'a>(alloc: Global, long: &'a [u8]) -> Result<Node<'a>, AllocError> {
    let mut entries = Vec::new(alloc);
    entries.push(Entry {
        name: b"a",
        node: Node::Directory(Vec::new(alloc)),
    })?;
    entries.push(Entry {
        name: long,
        node: Node::Symlink { target: b"a" },
    })?;
    Ok(Node::Directory(entries))
}

// What is read is the tree, or the answer is `Memory`.
#[test]
fn refused_while_reading(rt: HostRuntime) {
    let alloc = rt.alloc();
    let Ok(bytes) = archive_of_two(alloc) else {
        return;
    };
    match read(alloc, &bytes) {
        Ok(node) => {
            assert!(rt; matches!(&node, Node::Directory(entries) if entries.len() == 2));
        }
        Err(e) => assert_eq!(rt; e, NarError::Memory),
    }
    // A fault after directories is returned, or else `Memory`.
    let faulty = prefix(&bytes, 600);
    let fault = fault_of(read(alloc, faulty));
    assert!(rt; fault == Some(NarError::Truncated) || fault == Some(NarError::Memory));
}

// What is written is the archive, or the buffer's bytes stay.
#[test]
fn refused_while_writing(rt: HostRuntime) {
    let alloc = rt.alloc();
    let long = [b'n'; 300];
    let Ok(bytes) = archive_of_two(alloc) else {
        return;
    };
    let Ok(node) = tree_of_two(alloc, &long) else {
        return;
    };
    let Ok(mut out) = Vec::from_slice(alloc, b"before") else {
        return;
    };
    assert!(rt; is_writable(&node));
    match write(&node, &mut out) {
        Ok(()) => {
            assert!(rt; out.starts_with(b"before"));
            assert!(rt; out.ends_with(&bytes));
            assert_eq!(rt; out.len(), 6 + bytes.len());
        }
        Err(_) => assert!(rt; out.as_slice() == b"before".as_slice()),
    }
}

// What is listed is the listing, or the text stays.
#[test]
fn refused_while_listing(rt: HostRuntime) {
    let alloc = rt.alloc();
    let Ok(node) = tree_of_two(alloc, b"b c") else {
        return;
    };
    let Ok(mut text) = String::from_str(alloc, "before\n") else {
        return;
    };
    match list(alloc, &node, &mut text) {
        Ok(()) => assert_eq!(rt; text.as_str(), "before\nd .\nd ./a\nl ./b\\x20c -> a\n"),
        Err(_) => assert_eq!(rt; text.as_str(), "before\n"),
    }
}

// A checker takes what it is fed, or answers `Memory` from then on.
#[test]
fn refused_while_checking(rt: HostRuntime) {
    let alloc = rt.alloc();
    let Ok(bytes) = archive_of_two(alloc) else {
        return;
    };
    for size in [1, 7, 100, 1_000] {
        let mut checker = Checker::new(alloc);
        let mut failed = false;
        for piece in bytes.chunks(size) {
            let fault = fault_of(checker.feed(piece));
            assert!(rt; fault.is_none() || fault == Some(NarError::Memory));
            assert!(rt; !failed || fault.is_some());
            failed = fault.is_some();
        }
        let end = fault_of(checker.finish());
        assert_eq!(rt; end, if failed { Some(NarError::Memory) } else { None });
    }
    // A fault is returned, or else `Memory`, and either is repeated.
    let mut checker = Checker::new(alloc);
    let _ = checker.feed(&bytes);
    let reported = fault_of(checker.feed(MY_FILE));
    assert!(rt; reported == Some(NarError::Trailing) || reported == Some(NarError::Memory));
    assert_eq!(rt; fault_of(checker.finish()), reported);
}

// What is given are the outputs or the fault, or the answer is `Memory`: run with each allocation refused in turn.
#[test]
fn refused_while_reading_derivations(rt: HostRuntime) {
    let alloc = rt.alloc();
    let Ok(dir) = StoreDir::parse(alloc, "/nix/store") else {
        return;
    };
    let malformed = prefix(ONE.as_bytes(), 90);
    let rows = [
        (ONE.as_bytes(), None),
        (TWICE.as_bytes(), Some(DrvError::DoubleOutput)),
        (malformed, Some(DrvError::BadDerivation)),
    ];
    for (text, want) in rows {
        match outputs(alloc, text, &dir) {
            Ok(found) => assert!(rt; want.is_none() && found.len() == 1),
            Err(e) => assert!(rt; e == DrvError::Memory || Some(e) == want),
        }
    }
}

// Where an allocation is refused, the answer is `Memory` or what it is otherwise: run with one refused in turn.
#[test]
fn refused_while_reading_settings(rt: HostRuntime) {
    let text =
        "store-dir = \"/s\"\nallowed-users = [\"bob\", \"@users\"]\ntrusted-users = [\"@wheel\"]\ngroups = { users = [\"eve\"], wheel = [\"ann\", \"dan\"] }";
    let caller = Caller::new(rt.alloc(), "dan", Some("users"));
    assert!(rt; !matches!(&caller, Err(CallerError::BadCaller)));
    let config = Config::from_toml(rt.alloc(), text.as_bytes());
    assert!(rt; !matches!(&config, Err(ConfigError::Bad(_))));
    if let (Ok(config), Ok(caller)) = (&config, &caller) {
        assert_eq!(rt; class(config, caller), Class::Trusted);
    }
    let defaults = Config::from_toml(rt.alloc(), b"");
    assert!(rt; !matches!(&defaults, Err(ConfigError::Bad(_))));
    let refused = Config::from_toml(rt.alloc(), b"groups = { wheel = [\"ann\", \"*\"] }");
    assert!(rt;
        matches!(
            &refused,
            Err(ConfigError::Memory | ConfigError::Bad(KeyWord::Groups))
        )
    );
}
