//! A caller of `store`, who passes on an intake to which memory was refused.
use crate::fixtures::{ADDRESS, MY_FILE, SOURCE, path};
use crate::replies::{Asked, Step, replies_to};
use paths::{Ca, Name};
use std::alloc::{AllocError, Global};
use std::fs::read_to_string;
use std::test::Fail;
use store::{Intake, Request};

/// The greatest number of blocks that are reserved.
const MOST: usize = 40_000;

/// The first number of a line.
fn first_number(line: &str) -> Option<u64> {
    match line.split(' ').next() {
        Some(word) => word.parse::<u64>().ok(),
        None => None,
    }
}

/// Whether this process has less than a tebibyte of address space. Under a sanitizer it has more, and there a block
/// that is reserved takes memory.
fn is_plain(rt: &HostRuntime) -> bool {
    let Ok(sizes) = read_to_string(rt, "/proc/self/statm") else {
        return false;
    };
    matches!(first_number(sizes.as_str()), Some(pages) if pages < 1 << 28)
}

/// Reserves blocks, halving their size at each refusal, until one byte is refused. Nothing is written to them, so they
/// take address space alone.
fn reserve_all(alloc: Global, blocks: &mut Vec<Vec<u8>>) {
    let mut size: usize = 1 << 46;
    for _ in 0..MOST {
        match Vec::with_capacity(alloc, size) {
            Ok(block) => {
                if blocks.push(block).is_err() {
                    return;
                }
            }
            Err(AllocError) if size > 1 => size /= 2,
            Err(AllocError) => return,
        }
    }
}

/// Puts a piece into an intake again and again, until memory is refused.
fn fill(intake: &mut Intake, piece: &[u8]) {
    for _ in 0..10_000 {
        if intake.push(piece).is_err() {
            return;
        }
    }
}

/// An intake that was filled while no memory was left.
fn filled_intake(alloc: Global) -> Result<Intake, AllocError> {
    let mut blocks = Vec::with_capacity(alloc, MOST)?;
    let mut intake = Intake::new(alloc);
    reserve_all(alloc, &mut blocks);
    fill(&mut intake, MY_FILE);
    Ok(intake)
}

/// An intake whose last piece was refused memory. It takes no more.
fn spent_intake(alloc: Global) -> Result<Intake, Fail> {
    let mut intake = filled_intake(alloc)?;
    match intake.push(b"") {
        Ok(()) => Err(Fail::new("no memory was refused")),
        Err(_) => Ok(intake),
    }
}

/// A source whose archive was lost.
pub fn lost_source(alloc: Global) -> Result<Request, Fail> {
    Ok(Request::AddSource {
        name: Name::parse(alloc, "myfile.drv")?,
        refs: Vec::new(alloc),
        nar: spent_intake(alloc)?,
    })
}

/// An import whose archive was lost. It refers to itself, and its digest is another.
pub fn lost_import(alloc: Global, ca: Option<Ca>) -> Result<Request, Fail> {
    let mut refs = Vec::new(alloc);
    refs.push(path(alloc, SOURCE)?)?;
    Ok(Request::Import {
        path: path(alloc, SOURCE)?,
        nar_hash: [0; 32],
        refs,
        deriver: None,
        ca,
        nar: spent_intake(alloc)?,
    })
}

/// The import with a content address.
pub fn lost_import_with(alloc: Global) -> Result<Request, Fail> {
    lost_import(alloc, Some(Ca::parse(alloc, ADDRESS)?))
}

/// Requests whose archives were lost. Nothing is in the store afterwards.
const LOSING: &[Step] = &[
    ("bob", Asked::LostSource),
    ("bob", Asked::LostImportWith),
    ("bob", Asked::LostImport),
    ("eve", Asked::LostSource),
    ("eve", Asked::LostImport),
    ("bob", Asked::List),
];

const LOST: &[u8] = b"failed: memory
failed: memory
denied: trusted-import
denied: connect
denied: connect
";

#[test]
fn spent_intakes(rt: HostRuntime) -> Result<(), Fail> {
    if is_plain(&rt) {
        let text = replies_to(rt.alloc(), LOSING)?;
        assert!(rt; text.as_slice() == LOST);
    }
    Ok(())
}
