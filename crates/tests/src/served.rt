//! A store in memory that is served on readers and writers that fail at one of their calls.
use crate::fakes::{Drip, Narrow};
use crate::libraries::archives::prefix;
use crate::stores::{push_list, push_replies, store};
use sqlite::MemStore;
use std::alloc::Global;
use std::io::ErrorKind;
use std::test::Fail;
use store::Store;
use wire::{WireError, serve};

/// A listing of the paths: there are none.
const FIRST: &[u8] = b"GET /paths HTTP/1.1\r\nstore-user: ann\r\n\r\n";

/// An add of a text.
const SECOND: &[u8] =
    b"POST /text HTTP/1.1\r\nstore-user: ann\r\ncontent-length: 10\r\n\r\nname: a\n\nx";

const FIRST_REPLY: &[u8] =
    b"HTTP/1.1 200 OK\r\ncontent-type: text/plain\r\ncontent-length: 0\r\n\r\n";

/// The path was computed by another program.
const SECOND_REPLY: &[u8] =
    b"HTTP/1.1 200 OK\r\ncontent-type: text/plain\r\ncontent-length: 46\r\n\r\n\
/nix/store/12wigjpizrn8axaqxj288q1b751qmwya-a\n";

/// The reply to a second message whose last byte is missing.
const CUT_REPLY: &[u8] =
    b"HTTP/1.1 400 Bad Request\r\ncontent-type: text/plain\r\nconnection: close\r\n\
content-length: 23\r\n\r\nrefused: 37 bad-length\n";

/// The one path in the store after both calls.
const LISTED: &[u8] = b"/nix/store/12wigjpizrn8axaqxj288q1b751qmwya-a\n";

fn joined(alloc: Global, first: &[u8], second: &[u8]) -> Result<Vec<u8>, Fail> {
    let mut all = Vec::from_slice(alloc, first)?;
    all.extend_from_slice(second)?;
    Ok(all)
}

/// How a connection ended, and whether the text is in the store afterwards.
#[derive(Drop)]
struct Served {
    end: Result<u64, WireError>,
    is_added: bool,
}

/// The paths in a store.
fn list(alloc: Global, store: &mut Store<MemStore>) -> Result<Vec<u8>, Fail> {
    let mut calls = Vec::new(alloc);
    push_list(alloc, &mut calls)?;
    let mut listed = Vec::new(alloc);
    push_replies(alloc, store.run(calls)?, &mut listed)?;
    Ok(listed)
}

/// Serves a store in which there is nothing.
fn serve_all(alloc: Global, input: &mut Drip, output: &mut Narrow) -> Result<Served, Fail> {
    let mut store = store(alloc, b"")?;
    let end = serve(alloc, &mut store, input, output);
    let listed = list(alloc, &mut store);
    drop(store.release().release());
    let listed = listed?;
    if listed.is_empty() || listed.as_slice() == LISTED {
        Ok(Served {
            end,
            is_added: !listed.is_empty(),
        })
    } else {
        Err(Fail::new("another store"))
    }
}

/// How many bytes a call moves at most, and how many calls don't fail.
type Pace = (usize, usize);

/// No limit on bytes and calls.
const ANY: Pace = (usize::MAX, usize::MAX);

/// Serves a store from a reader and to a writer, whose call after its last has this fault, or takes no byte; and what
/// was written.
fn serve_bytes(
    alloc: Global,
    bytes: &[u8],
    reads: Pace,
    writes: Pace,
    fault: Option<ErrorKind>,
) -> Result<(Served, Vec<u8>), Fail> {
    let mut input = Drip {
        rest: bytes,
        most: reads.0,
        calls: reads.1,
        fault: ErrorKind::Other,
    };
    let mut output = Narrow {
        written: Vec::new(alloc),
        most: writes.0,
        calls: writes.1,
        fault,
    };
    let served = serve_all(alloc, &mut input, &mut output)?;
    Ok((served, output.written))
}

// A message is answered as soon as it is there, and the end takes a call more.
#[test]
fn served_from_readers_that_fail(rt: HostRuntime) -> Result<(), Fail> {
    let alloc = rt.alloc();
    let whole = FIRST.len() + SECOND.len();
    let all = joined(alloc, FIRST, SECOND)?;
    let both = joined(alloc, FIRST_REPLY, SECOND_REPLY)?;
    for (most, needed) in [(1, whole), (7, whole.div_ceil(7)), (4_096, 1)] {
        for calls in 0..whole.saturating_add(3) {
            let (served, written) = serve_bytes(alloc, &all, (most, calls), ANY, None)?;
            let given = calls.saturating_mul(most).min(whole);
            let replies = if given == whole {
                both.as_slice()
            } else if given >= FIRST.len() {
                FIRST_REPLY
            } else {
                b""
            };
            assert!(rt; written.as_slice() == replies, "{calls} calls for {most}");
            assert!(rt;
                served.is_added == (given == whole),
                "{calls} calls for {most}"
            );
            let end = if calls > needed {
                Ok(2)
            } else {
                Err(WireError::Read)
            };
            assert!(rt; served.end == end, "{calls} calls for {most}");
        }
    }
    Ok(())
}

// What is written is a prefix of the replies, and the text is added if the first of them is whole.
#[test]
fn served_to_writers_that_fail(rt: HostRuntime) -> Result<(), Fail> {
    let alloc = rt.alloc();
    let all = joined(alloc, FIRST, SECOND)?;
    let both = joined(alloc, FIRST_REPLY, SECOND_REPLY)?;
    for (most, fault) in [
        (1, Some(ErrorKind::Other)),
        (1, None),
        (7, Some(ErrorKind::Interrupted)),
        (usize::MAX, Some(ErrorKind::Other)),
    ] {
        for calls in 0..200usize {
            let (served, written) = serve_bytes(alloc, &all, ANY, (most, calls), fault)?;
            assert!(rt; both.starts_with(&written), "{calls} calls for {most}");
            let is_prefix = most != 1 || written.len() == calls.min(both.len());
            assert!(rt; is_prefix, "{calls} calls");
            let is_added = written.len() >= FIRST_REPLY.len();
            assert!(rt; served.is_added == is_added, "{calls} calls for {most}");
            let end = if written.len() == both.len() {
                Ok(2)
            } else {
                Err(WireError::Write)
            };
            assert!(rt; served.end == end, "{calls} calls for {most}");
        }
    }
    Ok(())
}

// Without its last byte the second message is none.
#[test]
fn served_without_the_last_byte(rt: HostRuntime) -> Result<(), Fail> {
    let alloc = rt.alloc();
    let all = joined(alloc, FIRST, SECOND)?;
    let cut = prefix(&all, all.len().saturating_sub(1));
    let replies = joined(alloc, FIRST_REPLY, CUT_REPLY)?;
    for most in [1, usize::MAX] {
        let reads = (most, usize::MAX);
        let (served, written) = serve_bytes(alloc, cut, reads, ANY, None)?;
        assert!(rt; written == replies, "{most} bytes a call");
        assert!(rt; served.end == Ok(2) && !served.is_added);
    }
    Ok(())
}
