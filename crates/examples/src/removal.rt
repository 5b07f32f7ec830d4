//! A caller of `store`: two of three objects are removed, and runtime roots are replaced.
use crate::imports::File;
use crate::replies::{Asked, Step, replies_to};
use std::test::Fail;

const P: &str = "00000000000000000000000000000000-p";

const X: &str = "11111111111111111111111111111111-x";

const Y: &str = "22222222222222222222222222222222-y";

/// An empty file.
const FIRST: File = File {
    base: P,
    contents: b"",
    reference: None,
    deriver: None,
};

/// One that refers to it.
const SECOND: File = File {
    base: X,
    contents: b"",
    reference: Some(P),
    deriver: None,
};

/// One by itself.
const THIRD: File = File {
    base: Y,
    contents: b"",
    reference: None,
    deriver: None,
};

/// The third, which refers to the first too.
const REFERRING: File = File {
    base: Y,
    contents: b"",
    reference: Some(P),
    deriver: None,
};

/// The first is named, and the second refers to it, so both are deleted. The third stays.
const DELETING_TWO: &[Step] = &[
    ("ann", Asked::ImportFile(FIRST)),
    ("ann", Asked::ImportFile(SECOND)),
    ("ann", Asked::ImportFile(THIRD)),
    ("bob", Asked::DeleteOne(P)),
    ("bob", Asked::List),
];

const DELETED_TWO: &[u8] = b"/nix/store/00000000000000000000000000000000-p
/nix/store/11111111111111111111111111111111-x
/nix/store/22222222222222222222222222222222-y
/nix/store/00000000000000000000000000000000-p
/nix/store/11111111111111111111111111111111-x
freed 2 paths 224 bytes
/nix/store/22222222222222222222222222222222-y
";

#[test]
fn two_of_three_deleted(rt: HostRuntime) -> Result<(), Fail> {
    let text = replies_to(rt.alloc(), DELETING_TWO)?;
    assert!(rt; text.as_slice() == DELETED_TWO);
    Ok(())
}

/// The second and the third refer to the first. A limit of one byte is met by the second alone, one of 113 bytes by the
/// other two.
const COLLECTING: &[Step] = &[
    ("ann", Asked::ImportFile(FIRST)),
    ("ann", Asked::ImportFile(SECOND)),
    ("ann", Asked::ImportFile(REFERRING)),
    ("bob", Asked::Collect(false, Some(1))),
    ("bob", Asked::Collect(false, Some(113))),
];

const COLLECTED: &[u8] = b"/nix/store/00000000000000000000000000000000-p
/nix/store/11111111111111111111111111111111-x
/nix/store/22222222222222222222222222222222-y
/nix/store/11111111111111111111111111111111-x
freed 1 paths 112 bytes
/nix/store/00000000000000000000000000000000-p
/nix/store/22222222222222222222222222222222-y
freed 2 paths 224 bytes
";

#[test]
fn collected_up_to_limits(rt: HostRuntime) -> Result<(), Fail> {
    let text = replies_to(rt.alloc(), COLLECTING)?;
    assert!(rt; text.as_slice() == COLLECTED);
    Ok(())
}

/// A runtime root keeps the second and what it refers to. The one in its place keeps the third.
const REPLACING: &[Step] = &[
    ("ann", Asked::ImportFile(FIRST)),
    ("ann", Asked::ImportFile(SECOND)),
    ("ann", Asked::ImportFile(THIRD)),
    ("ann", Asked::ReplaceBy("/proc/1/exe", X)),
    ("bob", Asked::Live),
    ("ann", Asked::ReplaceBy("/proc/2/exe", Y)),
    ("bob", Asked::Live),
    ("bob", Asked::Dead),
    ("ann", Asked::ListRoots),
];

const REPLACED: &[u8] = b"/nix/store/00000000000000000000000000000000-p
/nix/store/11111111111111111111111111111111-x
/nix/store/22222222222222222222222222222222-y
runtime roots 1
/nix/store/00000000000000000000000000000000-p
/nix/store/11111111111111111111111111111111-x
runtime roots 1
/nix/store/22222222222222222222222222222222-y
/nix/store/00000000000000000000000000000000-p
/nix/store/11111111111111111111111111111111-x
/proc/2/exe /nix/store/22222222222222222222222222222222-y
";

#[test]
fn runtime_roots_replaced(rt: HostRuntime) -> Result<(), Fail> {
    let text = replies_to(rt.alloc(), REPLACING)?;
    assert!(rt; text.as_slice() == REPLACED);
    Ok(())
}
