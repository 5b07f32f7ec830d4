//! Archives that end where a piece of 65,536 bytes does, or 8 bytes after it, cut in two, byte by byte and otherwise.

use super::rounds::pushed;
use intake::{Arrived, Intake};
use nar::NarError;
use paths::Facts;
use sha2::{Digest, Sha256};
use std::alloc::{AllocError, Global};
use std::io;

const SEAM: usize = 65_536;

/// An archive, and what has to be found of it.
#[derive(Drop)]
struct Expected {
    archive: Vec<u8>,
    fault: Option<NarError>,
    facts: Facts,
}

fn facts(archive: &[u8], plain: Option<[u8; 32]>) -> Facts {
    Facts {
        nar_hash: Sha256::digest(archive),
        nar_size: archive.len() as u64,
        plain,
    }
}

/// The archive of a text of `length` bytes, which has 112 more, and is too large or not.
fn text(alloc: Global, len: usize, fault: Option<NarError>) -> Result<Expected, AllocError> {
    let contents = vec![in alloc; b'a'; len]?;
    let made = Intake::of_text(alloc, &contents)?.finish()?;
    let archive = made.pieces.joined()?;
    let plain = match fault {
        Some(_) => None,
        None => Some(Sha256::digest(&contents)),
    };
    Ok(Expected {
        facts: facts(&archive, plain),
        fault,
        archive,
    })
}

/// The archive of such a text whose last byte isn't 0, as padding has to be.
fn broken(alloc: Global, len: usize) -> Result<Expected, AllocError> {
    let Expected { mut archive, .. } = text(alloc, len, None)?;
    archive.pop();
    archive.push(1)?;
    Ok(Expected {
        facts: facts(&archive, None),
        fault: Some(NarError::BadPadding),
        archive,
    })
}

fn is_as(expected: &Expected, arrived: &Arrived) -> Result<bool, AllocError> {
    let bytes = arrived.pieces.joined()?;
    Ok(
        bytes == expected.archive
            && arrived.fault == expected.fault
            && arrived.facts() == expected.facts,
    )
}

/// Contents are asked for in between, at each second place.
fn cut(alloc: Global, archive: &[u8], place: usize) -> Result<Arrived, AllocError> {
    let (start, rest) = archive.split_at(place.min(archive.len()));
    let mut intake = Intake::new(alloc);
    intake.push(start)?;
    if place % 2 == 0 {
        intake.hash_contents();
    }
    intake.push(rest)?;
    intake.finish()
}

/// The first of the places from one to another where an archive that is cut in two comes out otherwise.
fn differing(
    alloc: Global,
    expected: &Expected,
    from: usize,
    to: usize,
) -> Result<Option<usize>, AllocError> {
    for place in from..to {
        let arrived = cut(alloc, &expected.archive, place)?;
        if !is_as(expected, &arrived)? {
            return Ok(Some(place));
        }
    }
    Ok(None)
}

/// Says whether an archive comes out as it has to: cut at each of a number of places from its beginning on, and from as
/// many before the seam on up to its end, and byte by byte.
fn show(rt: &(impl Print + AllocGlobal), expected: &Expected, near: usize) -> io::Result<()> {
    let alloc = rt.alloc();
    let len = expected.archive.len();
    let after = near.max(SEAM.saturating_sub(near));
    let start = differing(alloc, expected, 0, near.min(len))?;
    let back = differing(alloc, expected, after, len)?;
    let bytes = pushed(alloc, &expected.archive, 1, true)?;
    let is_same = is_as(expected, &bytes)?;
    match start.or(back) {
        Some(place) => println!(rt; "{len} bytes, cut after byte {place}: something else"),
        None if is_same => println!(rt; "{len} bytes: the same, however they are cut"),
        None => println!(rt; "{len} bytes, byte by byte: something else"),
    }
}

/// Says whether an archive that comes in pieces of a given number of bytes comes out as it has to.
fn show_pieces(
    rt: &(impl Print + AllocGlobal),
    expected: &Expected,
    size: usize,
) -> io::Result<()> {
    let len = expected.archive.len();
    let arrived = pushed(rt.alloc(), &expected.archive, size, true)?;
    let reported = if is_as(expected, &arrived)? {
        "the same"
    } else {
        "something else"
    };
    println!(rt; "{len} bytes in pieces of {size}: {reported}")
}

/// Says whether an archive comes out as it has to, in pieces of one byte, and of a byte less than those that are
/// stored.
fn show_large(rt: &(impl Print + AllocGlobal), expected: &Expected) -> io::Result<()> {
    show_pieces(rt, expected, 1)?;
    show_pieces(rt, expected, SEAM - 1)
}

/// Archives of one piece and of 8 bytes more, each whole and broken; the largest, and one that is 8 bytes too large.
pub fn run(rt: &(impl Print + AllocGlobal), near: usize) -> io::Result<()> {
    let alloc = rt.alloc();
    for len in [65_424usize, 65_432] {
        show(rt, &text(alloc, len, None)?, near)?;
        show(rt, &broken(alloc, len)?, near)?;
    }
    show_large(rt, &text(alloc, 16_777_104, None)?)?;
    show_large(rt, &text(alloc, 16_777_112, Some(NarError::TooLarge))?)
}
