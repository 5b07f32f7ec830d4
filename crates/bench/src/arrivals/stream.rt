//! An archive that comes in on standard input, of which nothing is held but what an intake keeps.

use crate::memory::peak;
use intake::Intake;
use std::io;
use std::io::Read;

/// Pushes what comes in pieces of such a size at most, and prints its fault or `an archive`, and the most memory held.
pub fn hold(rt: &HostRuntime, size: usize) -> io::Result<()> {
    let mut piece = vec![in rt.alloc(); 0u8; size]?;
    let mut input = rt.stdin();
    let mut intake = Intake::new(rt.alloc());
    for _ in 0..u64::MAX {
        let got = input.read(&mut piece)?;
        if got == 0 {
            break;
        }
        intake.push(&piece[..got])?;
    }
    match intake.finish()?.fault {
        None => println!(rt; "an archive")?,
        Some(e) => println!(rt; "{e}")?,
    }
    peak(rt)
}
