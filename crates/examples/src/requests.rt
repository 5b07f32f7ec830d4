//! A caller of `store`: objects are added, read and listed.
use crate::fixtures::{ADDRESS, MY_FILE, MY_HASH, SETTINGS, SOURCE, TEXT, caller, new_store, path};
use crate::replies::{Asked, Step, replies_to};
use paths::{Ca, Name};
use policy::Caller;
use std::alloc::{AllocError, Global};
use std::test::Fail;
use store::{Answer, Intake, Refusal, Reply, Request};

/// The text object `myfile`, added.
pub fn add_text(alloc: Global) -> Result<Request, Fail> {
    Ok(Request::AddText {
        name: Name::parse(alloc, "myfile")?,
        refs: Vec::new(alloc),
        contents: Vec::from_slice(alloc, b"mycontent\n")?,
    })
}

/// An archive that arrives in pieces.
fn in_pieces(alloc: Global, archive: &[u8]) -> Result<Intake, AllocError> {
    let mut nar = Intake::new(alloc);
    for piece in archive.chunks(50) {
        nar.push(piece)?;
    }
    Ok(nar)
}

/// The source object `myfile`, added.
pub fn add_source(alloc: Global) -> Result<Request, Fail> {
    Ok(Request::AddSource {
        name: Name::parse(alloc, "myfile")?,
        refs: Vec::new(alloc),
        nar: in_pieces(alloc, MY_FILE)?,
    })
}

/// An import of the archive at another path, with this content address or without one.
pub fn import(alloc: Global, ca: Option<Ca>) -> Result<Request, Fail> {
    Ok(Request::Import {
        path: path(alloc, "11111111111111111111111111111111-o")?,
        nar_hash: MY_HASH,
        refs: Vec::new(alloc),
        deriver: None,
        ca,
        nar: Intake::of_bytes(alloc, MY_FILE)?,
    })
}

/// An import at that path with the content address of the source.
pub fn import_with(alloc: Global) -> Result<Request, Fail> {
    import(alloc, Some(Ca::parse(alloc, ADDRESS)?))
}

const ADDING: &[Step] = &[
    ("bob", Asked::AddText),
    ("bob", Asked::AddSource),
    ("bob", Asked::Import),
    ("bob", Asked::ImportWith),
    ("ann", Asked::Import),
    ("eve", Asked::List),
    ("bob", Asked::List),
];

// An import without content address is for the trusted, and the address is of another path.
const ADDED: &[u8] = b"/nix/store/a0d1zlpv81nsfbam8ay3i7snrc0sgsvr-myfile
/nix/store/xv2iccirbrvklck36f1g7vldn5v58vck-myfile
denied: trusted-import
refused: 16 ca-mismatch
/nix/store/11111111111111111111111111111111-o
denied: connect
/nix/store/11111111111111111111111111111111-o
/nix/store/a0d1zlpv81nsfbam8ay3i7snrc0sgsvr-myfile
/nix/store/xv2iccirbrvklck36f1g7vldn5v58vck-myfile
";

#[test]
fn added_and_listed(rt: HostRuntime) -> Result<(), Fail> {
    let text = replies_to(rt.alloc(), ADDING)?;
    assert!(rt; text.as_slice() == ADDED);
    Ok(())
}

/// The source is added and read; the text isn't there.
const READING: &[Step] = &[
    ("bob", Asked::AddSource),
    ("bob", Asked::Info),
    ("bob", Asked::LsOfSource),
    ("bob", Asked::LsOfText),
    ("bob", Asked::Nar),
];

const READ: &[u8] = b"/nix/store/xv2iccirbrvklck36f1g7vldn5v58vck-myfile
StorePath: /nix/store/xv2iccirbrvklck36f1g7vldn5v58vck-myfile
URL: nar/xv2iccirbrvklck36f1g7vldn5v58vck-myfile
Compression: none
FileHash: sha256:1qwy7y49hyqd7kdpkyjfclz5fkfqalqapzc4v18lbibkx1yzdzib
FileSize: 128
NarHash: sha256:1qwy7y49hyqd7kdpkyjfclz5fkfqalqapzc4v18lbibkx1yzdzib
NarSize: 128
References: 
CA: fixed:r:sha256:1qwy7y49hyqd7kdpkyjfclz5fkfqalqapzc4v18lbibkx1yzdzib
r 10 .
refused: 23 not-valid
";

/// Whether bytes are these, and those after them.
fn are_joined(bytes: &[u8], first: &[u8], second: &[u8]) -> bool {
    bytes.strip_prefix(first).is_some_and(|rest| rest == second)
}

#[test]
fn read_and_listed(rt: HostRuntime) -> Result<(), Fail> {
    let text = replies_to(rt.alloc(), READING)?;
    assert!(rt; are_joined(&text, READ, MY_FILE));
    Ok(())
}

/// Puts a request of `bob` after other calls.
fn push(alloc: Global, calls: &mut Vec<(Caller, Request)>, request: Request) -> Result<(), Fail> {
    let caller = caller(alloc, "bob")?;
    calls.push((caller, request))?;
    Ok(())
}

/// Puts calls that add the text, read it, and read what isn't there.
fn push_all(alloc: Global, calls: &mut Vec<(Caller, Request)>) -> Result<(), Fail> {
    push(alloc, calls, add_text(alloc)?)?;
    push(alloc, calls, Request::Nar(path(alloc, TEXT)?))?;
    push(alloc, calls, Request::Nar(path(alloc, SOURCE)?))
}

/// The replies of a new store to calls that are made in a row.
fn replies_of(alloc: Global) -> Result<Vec<Reply>, Fail> {
    let mut calls = Vec::new(alloc);
    push_all(alloc, &mut calls)?;
    let mut store = new_store(alloc, SETTINGS)?;
    let replies = store.run(calls);
    drop(store.release().release());
    Ok(replies?)
}

#[test]
fn run_in_a_row(rt: HostRuntime) -> Result<(), Fail> {
    let replies = replies_of(rt.alloc())?;
    let [first, second, third] = replies.as_slice() else {
        return Err(Fail::new("another number of replies"));
    };
    assert!(rt; matches!(first, Reply::Done(Answer::Path(_))));
    assert!(rt; matches!(second, Reply::Done(Answer::Archive(nar)) if nar.len() == 128));
    assert!(rt; matches!(third, Reply::Refused(Refusal::NotValid)));
    Ok(())
}
