//! A caller of `store`: roots, profiles and sessions, and what they keep alive.
use crate::fixtures::{TEXT, path};
use crate::replies::{Asked, Step, replies_to};
use std::alloc::{AllocError, Global};
use std::test::Fail;
use store::Request;

fn owned(alloc: Global, text: &str) -> Result<String, AllocError> {
    String::from_str(alloc, text)
}

/// The permanent root `system` on the text.
pub fn set_permanent(alloc: Global) -> Result<Request, Fail> {
    Ok(Request::SetPermanent {
        name: owned(alloc, "system")?,
        path: path(alloc, TEXT)?,
    })
}

pub fn drop_permanent(alloc: Global) -> Result<Request, Fail> {
    Ok(Request::DropPermanent {
        name: owned(alloc, "system")?,
    })
}

/// The root `editor` of `bob` on the text.
pub fn set_user_root(alloc: Global) -> Result<Request, Fail> {
    Ok(Request::SetUserRoot {
        user: owned(alloc, "bob")?,
        name: owned(alloc, "editor")?,
        path: path(alloc, TEXT)?,
    })
}

pub fn drop_user_root(alloc: Global) -> Result<Request, Fail> {
    Ok(Request::DropUserRoot {
        user: owned(alloc, "bob")?,
        name: owned(alloc, "editor")?,
    })
}

/// A permanent root and one of `bob` are set, and both are dropped.
const ROOTS: &[Step] = &[
    ("bob", Asked::AddText),
    ("ann", Asked::SetPermanent),
    ("bob", Asked::SetUserRoot),
    ("bob", Asked::ListRoots),
    ("ann", Asked::DropPermanent),
    ("ann", Asked::DropUserRoot),
    ("bob", Asked::RootsOf),
];

const ROOTS_REPLY: &[u8] = b"/nix/store/a0d1zlpv81nsfbam8ay3i7snrc0sgsvr-myfile
done
done
gcroots/system /nix/store/a0d1zlpv81nsfbam8ay3i7snrc0sgsvr-myfile
gcroots/per-user/bob/editor /nix/store/a0d1zlpv81nsfbam8ay3i7snrc0sgsvr-myfile
done
done
";

#[test]
fn roots_set_and_dropped(rt: HostRuntime) -> Result<(), Fail> {
    let text = replies_to(rt.alloc(), ROOTS)?;
    assert!(rt; text.as_slice() == ROOTS_REPLY);
    Ok(())
}

/// A generation of the profile `work` of `bob`.
pub fn new_generation(alloc: Global) -> Result<Request, Fail> {
    Ok(Request::SetProfile {
        user: owned(alloc, "bob")?,
        profile: owned(alloc, "work")?,
        path: path(alloc, TEXT)?,
    })
}

pub fn rollback(alloc: Global) -> Result<Request, Fail> {
    Ok(Request::Rollback {
        user: owned(alloc, "bob")?,
        profile: owned(alloc, "work")?,
    })
}

pub fn switch(alloc: Global) -> Result<Request, Fail> {
    Ok(Request::Switch {
        user: owned(alloc, "bob")?,
        profile: owned(alloc, "work")?,
        n: 1,
    })
}

pub fn delete_generation(alloc: Global) -> Result<Request, Fail> {
    Ok(Request::DeleteGeneration {
        user: owned(alloc, "bob")?,
        profile: owned(alloc, "work")?,
        n: 1,
    })
}

/// A profile is set, and its only generation stays current.
const PROFILE: &[Step] = &[
    ("bob", Asked::AddText),
    ("bob", Asked::NewGeneration),
    ("bob", Asked::Rollback),
    ("bob", Asked::Switch),
    ("bob", Asked::DeleteGeneration),
    ("bob", Asked::Live),
];

const PROFILE_REPLY: &[u8] = b"/nix/store/a0d1zlpv81nsfbam8ay3i7snrc0sgsvr-myfile
generation 1
refused: 31 no-older-generation
generation 1
refused: 30 current-generation
/nix/store/a0d1zlpv81nsfbam8ay3i7snrc0sgsvr-myfile
";

#[test]
fn profile_set_and_switched(rt: HostRuntime) -> Result<(), Fail> {
    let text = replies_to(rt.alloc(), PROFILE)?;
    assert!(rt; text.as_slice() == PROFILE_REPLY);
    Ok(())
}

/// A runtime root on the text.
pub fn one_runtime_root(alloc: Global) -> Result<Request, Fail> {
    let mut pairs = Vec::new(alloc);
    pairs.push((owned(alloc, "/proc/1/exe")?, path(alloc, TEXT)?))?;
    Ok(Request::ReplaceRuntime(pairs))
}

/// A root of a session of `bob` on the text.
pub fn add_temp(alloc: Global) -> Result<Request, Fail> {
    Ok(Request::AddTemp {
        owner: owned(alloc, "bob")?,
        session: 2,
        path: path(alloc, TEXT)?,
    })
}

pub fn end_session(alloc: Global) -> Result<Request, Fail> {
    Ok(Request::EndSession {
        owner: owned(alloc, "bob")?,
        session: 2,
    })
}

/// Runtime roots and a session keep the text, until neither is left.
const KEEPING: &[Step] = &[
    ("bob", Asked::AddText),
    ("ann", Asked::OneRuntimeRoot),
    ("bob", Asked::AddTemp),
    ("ann", Asked::ListRoots),
    ("bob", Asked::ListRoots),
    ("ann", Asked::NoRuntimeRoot),
    ("bob", Asked::EndSession),
    ("bob", Asked::Dead),
];

// Callers who aren't trusted see no label of these kinds.
const KEPT_REPLY: &[u8] = b"/nix/store/a0d1zlpv81nsfbam8ay3i7snrc0sgsvr-myfile
runtime roots 1
done
/proc/1/exe /nix/store/a0d1zlpv81nsfbam8ay3i7snrc0sgsvr-myfile
{temp:2} /nix/store/a0d1zlpv81nsfbam8ay3i7snrc0sgsvr-myfile
{censored} /nix/store/a0d1zlpv81nsfbam8ay3i7snrc0sgsvr-myfile
runtime roots 0
temporary roots 1
/nix/store/a0d1zlpv81nsfbam8ay3i7snrc0sgsvr-myfile
";

#[test]
fn kept_for_a_while(rt: HostRuntime) -> Result<(), Fail> {
    let text = replies_to(rt.alloc(), KEEPING)?;
    assert!(rt; text.as_slice() == KEPT_REPLY);
    Ok(())
}

/// The text is deleted if it isn't live.
pub fn delete(alloc: Global) -> Result<Request, Fail> {
    let mut paths = Vec::new(alloc);
    paths.push(path(alloc, TEXT)?)?;
    Ok(Request::Delete {
        paths,
        ignore_liveness: false,
    })
}

/// The text is deleted, added again and collected.
const DELETING: &[Step] = &[
    ("bob", Asked::AddText),
    ("bob", Asked::Report),
    ("bob", Asked::Delete),
    ("bob", Asked::AddText),
    ("ann", Asked::Collect(true, None)),
    ("ann", Asked::Collect(false, Some(0))),
    ("ann", Asked::Collect(false, None)),
];

const DELETED_REPLY: &[u8] = b"/nix/store/a0d1zlpv81nsfbam8ay3i7snrc0sgsvr-myfile
class       paths            bytes
live            0                0
dead            1              128
total           1              128
/nix/store/a0d1zlpv81nsfbam8ay3i7snrc0sgsvr-myfile
freed 1 paths 128 bytes
/nix/store/a0d1zlpv81nsfbam8ay3i7snrc0sgsvr-myfile
denied: no-ignore-liveness
freed 0 paths 0 bytes
/nix/store/a0d1zlpv81nsfbam8ay3i7snrc0sgsvr-myfile
freed 1 paths 128 bytes
";

#[test]
fn deleted_and_collected(rt: HostRuntime) -> Result<(), Fail> {
    let text = replies_to(rt.alloc(), DELETING)?;
    assert!(rt; text.as_slice() == DELETED_REPLY);
    Ok(())
}
