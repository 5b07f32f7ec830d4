//! A caller of `paths`: digits, names, paths and roots.
use crate::fixtures::store_dir;
use paths::labels::is_runtime_label;
use paths::numbers::{MAX_GENERATION, MAX_SESSION, decimal, generation, is_session, session};
use paths::{
    Base32Error, Name, NameError, Root, RootKind, StoreDir, StoreDirError, StorePath,
    StorePathError, base32, fold20, is_plain_name, unbase32,
};
use std::alloc::Global;
use std::test::Fail;

fn digits_of(alloc: Global, bytes: &[u8]) -> Result<String, Fail> {
    if bytes.len() > 64 {
        return Err(Fail::new("too many bytes"));
    }
    Ok(base32(alloc, bytes)?)
}

fn bytes_of(alloc: Global, digits: &str, count: usize) -> Result<Vec<u8>, Fail> {
    if count > 64 {
        return Err(Fail::new("too many bytes"));
    }
    Ok(unbase32(alloc, digits, count)?)
}

#[test]
fn digits_of_bytes(rt: HostRuntime) -> Result<(), Fail> {
    let alloc = rt.alloc();
    for (bytes, digits) in [
        ([0; 20].as_slice(), "00000000000000000000000000000000"),
        (&[0xff; 20], "zzzzzzzzzzzzzzzzzzzzzzzzzzzzzzzz"),
        (b"", ""),
        (&[0xff], "7z"),
    ] {
        assert!(rt; digits_of(alloc, bytes)?.as_str() == digits);
        assert!(rt; bytes_of(alloc, digits, bytes.len())?.as_slice() == bytes);
    }
    Ok(())
}

/// The fault of the digits of a byte, if they have one.
fn fault_of(alloc: Global, digits: &str) -> Option<Base32Error> {
    match unbase32(alloc, digits, 1) {
        Ok(_) => None,
        Err(e) => Some(e),
    }
}

#[test]
fn refused_digits(rt: HostRuntime) {
    for (digits, fault) in [
        ("zz", Base32Error::Overflow),
        ("7e", Base32Error::BadDigit),
        ("7", Base32Error::BadLength),
    ] {
        assert_eq!(rt; fault_of(rt.alloc(), digits), Some(fault), "{digits}");
    }
}

fn folded(digest: &[u8; 32]) -> [u8; 20] {
    fold20(digest)
}

#[test]
fn folded_digests(rt: HostRuntime) -> Result<(), Fail> {
    let mut digest = [0u8; 32];
    digest[0] = 0x01;
    digest[20] = 0xff;
    let digits = digits_of(rt.alloc(), &folded(&digest))?;
    assert!(rt; digits.as_str() == "0000000000000000000000000000007y");
    Ok(())
}

fn is_plain(text: &str) -> bool {
    is_plain_name(text)
}

#[test]
fn plain_names(rt: HostRuntime) {
    assert!(rt; is_plain("ann"));
    assert!(rt; !is_plain("-ann"));
    assert!(rt; !is_plain(""));
}

fn is_label(text: &str) -> bool {
    is_runtime_label(text)
}

// A label has 1 to 256 bytes, each from `!` to `~`.
#[test]
fn labels_of_runtime_roots(rt: HostRuntime) -> Result<(), Fail> {
    let alloc = rt.alloc();
    let longest = letters(alloc, 256)?;
    let longer = letters(alloc, 257)?;
    for (label, is) in [
        ("/proc/1/exe", true),
        ("!~", true),
        (longest.as_str(), true),
        (longer.as_str(), false),
        ("a b", false),
        ("a\x7f", false),
        ("é", false),
        ("", false),
    ] {
        assert!(rt; is_label(label) == is, "{label}");
    }
    Ok(())
}

fn number_of(text: &str) -> Option<u64> {
    decimal(text)
}

#[test]
fn decimal_numbers(rt: HostRuntime) {
    for (text, number) in [
        ("0", Some(0)),
        ("18446744073709551615", Some(u64::MAX)),
        ("18446744073709551616", None),
        ("007", None),
        ("+7", None),
        ("-7", None),
        ("", None),
    ] {
        assert_eq!(rt; number_of(text), number, "{text}");
    }
}

/// The numbers of a generation and of a session that a text gives.
fn numbers_of(text: &str) -> (u32, u64) {
    (generation(text), session(text))
}

// Any other text gives 0, which no profile and no session has.
#[test]
fn numbers_of_generations_and_sessions(rt: HostRuntime) {
    for (text, numbers) in [
        ("1", (1, 1)),
        ("9999", (9_999, 9_999)),
        ("10000", (0, 10_000)),
        ("4194304", (0, 4_194_304)),
        ("4194305", (0, 0)),
        ("01", (0, 0)),
        ("0", (0, 0)),
    ] {
        assert_eq!(rt; numbers_of(text), numbers, "{text}");
    }
    assert!(rt; MAX_GENERATION == 9_999 && MAX_SESSION == 4_194_304);
}

/// Whether a session may have a number.
fn may_be_session(number: u64) -> bool {
    is_session(number)
}

#[test]
fn numbers_of_sessions(rt: HostRuntime) {
    for (number, is) in [(0, false), (1, true), (4_194_304, true), (4_194_305, false)] {
        assert!(rt; may_be_session(number) == is, "{number}");
    }
}

/// Whether a text is a name.
fn is_name(alloc: Global, text: &str) -> Result<bool, NameError> {
    Ok(Name::parse(alloc, text)?.as_str() == text)
}

/// Whether a text isn't a name.
fn is_no_name(alloc: Global, text: &str) -> bool {
    matches!(Name::parse(alloc, text), Err(NameError::BadStoreName))
}

/// A text of this many letters.
fn letters(alloc: Global, count: usize) -> Result<String, Fail> {
    let mut text = String::new(alloc);
    for _ in 0..count {
        text.push('a')?;
    }
    Ok(text)
}

#[test]
fn parsed_names(rt: HostRuntime) -> Result<(), Fail> {
    let alloc = rt.alloc();
    let longest = letters(alloc, 211)?;
    assert!(rt; is_name(alloc, longest.as_str())?);
    assert!(rt; is_name(alloc, ".x")?);
    Ok(())
}

#[test]
fn refused_names(rt: HostRuntime) -> Result<(), Fail> {
    let alloc = rt.alloc();
    let longer = letters(alloc, 212)?;
    for text in [longer.as_str(), ".", "..-x", ""] {
        assert!(rt; is_no_name(alloc, text), "{text}");
    }
    Ok(())
}

/// Whether a text isn't a store directory.
fn is_no_dir(alloc: Global, text: &str) -> bool {
    matches!(
        StoreDir::parse(alloc, text),
        Err(StoreDirError::BadStoreDir)
    )
}

fn path_of(alloc: Global, dir: &StoreDir, text: &str) -> Result<StorePath, StorePathError> {
    StorePath::parse(alloc, dir, text)
}

/// Whether a text isn't a path of a store directory.
fn is_no_path(alloc: Global, dir: &StoreDir, text: &str) -> bool {
    matches!(
        StorePath::parse(alloc, dir, text),
        Err(StorePathError::BadStorePath)
    )
}

#[test]
fn parsed_paths(rt: HostRuntime) -> Result<(), Fail> {
    let alloc = rt.alloc();
    let dir = store_dir(alloc)?;
    assert!(rt; dir.as_str() == "/nix/store");
    let base = "11111111111111111111111111111111-o";
    let path = path_of(alloc, &dir, "/nix/store/11111111111111111111111111111111-o")?;
    assert!(rt; path.as_str() == base);
    assert!(rt; path.name() == "o");
    assert!(rt; path_of(alloc, &dir, base)? == path);
    Ok(())
}

#[test]
fn refused_paths(rt: HostRuntime) -> Result<(), Fail> {
    let alloc = rt.alloc();
    assert!(rt; is_no_dir(alloc, "/"));
    let dir = store_dir(alloc)?;
    assert!(rt; is_no_path(alloc, &dir, "/store/11111111111111111111111111111111-o"));
    Ok(())
}

fn root(alloc: Global, kind: RootKind, target: &str, label: &str) -> Result<Root, Fail> {
    Ok(Root {
        kind,
        target: StorePath::from_base(alloc, target)?,
        label: String::from_str(alloc, label)?,
    })
}

/// The labels of roots, in the order of the roots.
fn labels_of(alloc: Global, mut roots: Vec<Root>) -> Result<String, Fail> {
    roots.sort()?;
    let mut labels = String::new(alloc);
    for root in &roots {
        labels.push_str(root.label.as_str())?;
    }
    Ok(labels)
}

// Roots are ordered by kind, then target, then label.
#[test]
fn ordered_roots(rt: HostRuntime) -> Result<(), Fail> {
    let alloc = rt.alloc();
    let (p, x) = (
        "00000000000000000000000000000000-p",
        "11111111111111111111111111111111-x",
    );
    let mut roots = Vec::new(alloc);
    for (kind, target, label) in [
        (RootKind::Runtime, p, "b"),
        (RootKind::Runtime, p, "a"),
        (RootKind::User, x, "c"),
        (RootKind::User, p, "d"),
        (RootKind::Permanent, x, "e"),
    ] {
        roots.push(root(alloc, kind, target, label)?)?;
    }
    assert!(rt; labels_of(alloc, roots)?.as_str() == "edcab");
    Ok(())
}
