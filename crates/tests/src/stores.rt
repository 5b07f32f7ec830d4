//! A list of calls on a store in memory.
mod adoption;

use paths::{Name, StoreDir, StorePath};
use policy::{Caller, Config, store_dir};
use report::reply_pieces;
use sqlite::MemStore;
use std::alloc::{AllocError, Global};
use std::test::Fail;
use store::Store;
use store_types::{Reply, Request};

/// `ann` is trusted, `bob` is allowed, and nobody else is.
const SETTINGS: &[u8] = b"allowed-users = [\"bob\"]\ntrusted-users = [\"ann\"]\n";

/// The path of the text that is added first.
const TEXT: &str = "a0d1zlpv81nsfbam8ay3i7snrc0sgsvr-myfile";

/// The line that reports it.
const TEXT_PATH: &str = "/nix/store/a0d1zlpv81nsfbam8ay3i7snrc0sgsvr-myfile\n";

/// What the calls answer, in turn.
const PRINTED: &str = "/nix/store/a0d1zlpv81nsfbam8ay3i7snrc0sgsvr-myfile
/nix/store/jpzwwkzwcap53421pll8gza0knik4xzf-other
done
denied: connect
refused: 35 bad-label
/nix/store/jpzwwkzwcap53421pll8gza0knik4xzf-other
freed 1 paths 112 bytes
/nix/store/a0d1zlpv81nsfbam8ay3i7snrc0sgsvr-myfile
";

fn push(
    calls: &mut Vec<(Caller, Request)>,
    caller: Caller,
    request: Request,
) -> Result<(), AllocError> {
    calls.push((caller, request))?;
    Ok(())
}

pub fn push_text(alloc: Global, calls: &mut Vec<(Caller, Request)>) -> Result<(), Fail> {
    let caller = Caller::new(alloc, "bob", None)?;
    let name = Name::parse(alloc, "myfile")?;
    let contents = Vec::from_slice(alloc, b"mycontent\n")?;
    push(
        calls,
        caller,
        Request::AddText {
            name,
            refs: Vec::new(alloc),
            contents,
        },
    )?;
    Ok(())
}

/// An empty text that refers to the first.
fn push_referrer(alloc: Global, calls: &mut Vec<(Caller, Request)>) -> Result<(), Fail> {
    let caller = Caller::new(alloc, "bob", None)?;
    let name = Name::parse(alloc, "other")?;
    let mut refs = Vec::new(alloc);
    refs.push(StorePath::from_base(alloc, TEXT)?)?;
    push(
        calls,
        caller,
        Request::AddText {
            name,
            refs,
            contents: Vec::new(alloc),
        },
    )?;
    Ok(())
}

/// A permanent root is set, whose target is the first text.
fn push_root(alloc: Global, calls: &mut Vec<(Caller, Request)>) -> Result<(), Fail> {
    let caller = Caller::new(alloc, "ann", None)?;
    let name = String::from_str(alloc, "kept")?;
    let target = StorePath::from_base(alloc, TEXT)?;
    push(calls, caller, Request::SetPermanent { name, path: target })?;
    Ok(())
}

/// A stranger sets a root of others: that they may not connect is reported first.
fn push_strange_root(alloc: Global, calls: &mut Vec<(Caller, Request)>) -> Result<(), Fail> {
    let caller = Caller::new(alloc, "eve", None)?;
    let owner = String::from_str(alloc, "bob")?;
    let name = String::from_str(alloc, "kept")?;
    let target = StorePath::from_base(alloc, TEXT)?;
    push(
        calls,
        caller,
        Request::SetUserRoot {
            user: owner,
            name,
            path: target,
        },
    )?;
    Ok(())
}

/// A runtime root whose label has a blank.
fn push_bad_label(alloc: Global, calls: &mut Vec<(Caller, Request)>) -> Result<(), Fail> {
    let caller = Caller::new(alloc, "ann", None)?;
    let label = String::from_str(alloc, "a b")?;
    let target = StorePath::from_base(alloc, TEXT)?;
    let mut pairs = Vec::new(alloc);
    pairs.push((label, target))?;
    push(calls, caller, Request::ReplaceRuntime(pairs))?;
    Ok(())
}

pub fn push_list(alloc: Global, calls: &mut Vec<(Caller, Request)>) -> Result<(), Fail> {
    let caller = Caller::new(alloc, "bob", None)?;
    push(calls, caller, Request::List)?;
    Ok(())
}

fn push_collection(alloc: Global, calls: &mut Vec<(Caller, Request)>) -> Result<(), Fail> {
    let caller = Caller::new(alloc, "bob", None)?;
    push(
        calls,
        caller,
        Request::Collect {
            ignore_liveness: false,
            max_freed: None,
        },
    )?;
    Ok(())
}

/// A text and its referrer are added, and the text gets a root; a stranger asks; a label isn't one; what is dead is
/// collected.
fn push_all(alloc: Global, calls: &mut Vec<(Caller, Request)>) -> Result<(), Fail> {
    push_text(alloc, calls)?;
    push_referrer(alloc, calls)?;
    push_root(alloc, calls)?;
    push_strange_root(alloc, calls)?;
    push_bad_label(alloc, calls)?;
    push_collection(alloc, calls)?;
    push_list(alloc, calls)?;
    Ok(())
}

/// A store in memory, under these settings, in which there is nothing yet.
pub fn store(alloc: Global, settings: &[u8]) -> Result<Store<MemStore>, Fail> {
    let config = Config::from_toml(alloc, settings)?;
    let tables = tables::open_in_memory(alloc, store_dir(&config))?;
    Ok(Store::new(alloc, config, tables))
}

fn replies(alloc: Global, calls: Vec<(Caller, Request)>) -> Result<Vec<Reply>, Fail> {
    let mut store = store(alloc, SETTINGS)?;
    let replies = store.run(calls);
    drop(store.release().release());
    Ok(replies?)
}

pub fn push_reply(
    alloc: Global,
    dir: &StoreDir,
    reply: Reply,
    reported: &mut Vec<u8>,
) -> Result<(), Fail> {
    let text = reply_pieces(alloc, dir, reply)?.joined()?;
    reported.extend_from_slice(&text)?;
    Ok(())
}

pub fn push_replies(
    alloc: Global,
    replies: Vec<Reply>,
    reported: &mut Vec<u8>,
) -> Result<(), Fail> {
    let dir = StoreDir::parse(alloc, "/nix/store")?;
    for reply in replies {
        push_reply(alloc, &dir, reply, reported)?;
    }
    Ok(())
}

#[test]
fn calls_in_turn(rt: HostRuntime) -> Result<(), Fail> {
    let alloc = rt.alloc();
    let mut calls = Vec::new(alloc);
    push_all(alloc, &mut calls)?;
    let replies = replies(alloc, calls)?;
    assert_eq!(rt; replies.len(), 7);
    let mut reported = Vec::new(alloc);
    push_replies(alloc, replies, &mut reported)?;
    assert!(rt; reported.as_slice() == PRINTED.as_bytes());
    Ok(())
}
