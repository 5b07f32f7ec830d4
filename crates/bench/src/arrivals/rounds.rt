//! Rounds of pushing one archive, each next to one digest of the same bytes.

use intake::{Arrived, Intake};
use paths::Facts;
use sha2::{Digest, Sha256};
use std::alloc::{AllocError, Global};
use std::io;
use std::rt::Clock;
use std::time::Instant;

/// What is found of an archive that is pushed in pieces of a given size, whose contents are asked for or not.
pub fn pushed(
    alloc: Global,
    bytes: &[u8],
    size: usize,
    asked: bool,
) -> Result<Arrived, AllocError> {
    let mut intake = Intake::new(alloc);
    if asked {
        intake.hash_contents();
    }
    for piece in bytes.chunks(size.max(1)) {
        intake.push(piece)?;
    }
    intake.finish()
}

/// The nanoseconds of pushing the bytes, and what is found of them, which is in that time where it is asked for.
fn timed(
    rt: &(impl Clock + AllocGlobal),
    size: usize,
    asked: bool,
    bytes: &[u8],
) -> io::Result<(u128, Facts)> {
    let start = Instant::now(rt)?;
    let arrived = pushed(rt.alloc(), bytes, size, asked)?;
    let came = start.elapsed(rt)?.as_nanos();
    let facts = arrived.facts();
    let reported = start.elapsed(rt)?.as_nanos();
    if asked {
        Ok((reported, facts))
    } else {
        Ok((came, facts))
    }
}

/// Prints the nanoseconds of one digest, of pushing the bytes in pieces of a given size, and of pushing them where what
/// is found of their contents is asked for too; a line for each round.
pub fn run(
    rt: &(impl Print + Clock + AllocGlobal),
    size: usize,
    count: usize,
    bytes: &[u8],
) -> io::Result<()> {
    for _ in 0..count {
        let start = Instant::now(rt)?;
        let digest = Sha256::digest(bytes);
        let alone = start.elapsed(rt)?.as_nanos();
        let (came, facts) = timed(rt, size, false, bytes)?;
        let (all, reported) = timed(rt, size, true, bytes)?;
        if facts == reported && facts.nar_hash == digest {
            println!(rt; "{alone} {came} {all}")?;
        } else {
            println!(rt; "another digest")?;
        }
    }
    Ok(())
}
