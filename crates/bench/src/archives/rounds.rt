//! Rounds of one kind of work, each timed.

use nar::{Checker, NarError, Node, is_writable, list, read, write};
use std::io;
use std::rt::Clock;
use std::time::Instant;

/// What is timed.
#[derive(Clone, Copy)]
pub enum Work {
    /// The bytes are copied into memory that is new.
    Copy,
    /// Archives are read.
    Read,
    /// The tree of archives is written.
    Write,
    /// The tree of archives is listed.
    List,
    /// A checker gets them in pieces of a given number of bytes.
    Check(usize),
}

impl Work {
    pub fn from_word(word: &str) -> Option<Work> {
        match word {
            "copy" => Some(Work::Copy),
            "read" => Some(Work::Read),
            "write" => Some(Work::Write),
            "list" => Some(Work::List),
            word => Some(Work::Check(word.parse::<usize>().ok()?)),
        }
    }
}

/// The nanoseconds since the start.
fn since(rt: &impl Clock, start: Instant) -> io::Result<u128> {
    Ok(start.elapsed(rt)?.as_nanos())
}

fn copy(rt: &(impl Clock + AllocGlobal), bytes: &[u8]) -> io::Result<u128> {
    let start = Instant::now(rt)?;
    let copied = Vec::from_slice(rt.alloc(), bytes)?;
    let took = since(rt, start)?;
    drop(copied);
    Ok(took)
}

fn written(rt: &(impl Clock + AllocGlobal), node: &Node<'_>) -> io::Result<u128> {
    let mut out = Vec::new(rt.alloc());
    let start = Instant::now(rt)?;
    if is_writable(node) {
        write(node, &mut out)?;
    }
    since(rt, start)
}

fn listed(rt: &(impl Clock + AllocGlobal), node: &Node<'_>) -> io::Result<u128> {
    let mut text = String::new(rt.alloc());
    let start = Instant::now(rt)?;
    list(rt.alloc(), node, &mut text)?;
    since(rt, start)
}

fn fed(rt: &impl AllocGlobal, bytes: &[u8], size: usize) -> Result<(), NarError> {
    let mut checker = Checker::new(rt.alloc());
    for piece in bytes.chunks(size.max(1)) {
        checker.feed(piece)?;
    }
    checker.finish()
}

/// The time of a round; none where the bytes are no archive.
fn round(
    rt: &(impl Clock + AllocGlobal),
    work: Work,
    bytes: &[u8],
) -> io::Result<Result<u128, NarError>> {
    let start = Instant::now(rt)?;
    match work {
        Work::Copy => Ok(Ok(copy(rt, bytes)?)),
        Work::Check(size) => match fed(rt, bytes, size) {
            Ok(()) => Ok(Ok(since(rt, start)?)),
            Err(e) => Ok(Err(e)),
        },
        work => match read(rt.alloc(), bytes) {
            Ok(node) => match work {
                Work::Write => Ok(Ok(written(rt, &node)?)),
                Work::List => Ok(Ok(listed(rt, &node)?)),
                _ => Ok(Ok(since(rt, start)?)),
            },
            Err(e) => Ok(Err(e)),
        },
    }
}

/// Prints the nanoseconds of each round, a line for each.
pub fn run(
    rt: &(impl Print + Clock + AllocGlobal),
    work: Work,
    count: usize,
    bytes: &[u8],
) -> io::Result<()> {
    for _ in 0..count {
        match round(rt, work, bytes)? {
            Ok(took) => println!(rt; "{took}")?,
            Err(e) => println!(rt; "{e}")?,
        }
    }
    Ok(())
}
