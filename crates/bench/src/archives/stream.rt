//! What other programs are compared by: an archive rewritten, listed, held as a tree, and checked as it comes.

use crate::memory::peak;
use nar::{Checker, is_writable, list, read, write};
use std::io;
use std::io::{Read, Write};

/// Writes the archive of the tree that was read.
pub fn rewrite(rt: &HostRuntime, bytes: &[u8]) -> io::Result<()> {
    match read(rt.alloc(), bytes) {
        Ok(node) => {
            let mut out = Vec::new(rt.alloc());
            if is_writable(&node) {
                write(&node, &mut out)?;
            }
            rt.stdout().write_all(&out)
        }
        Err(e) => println!(rt; "{e}"),
    }
}

/// Writes the listing.
pub fn show(rt: &HostRuntime, bytes: &[u8]) -> io::Result<()> {
    match read(rt.alloc(), bytes) {
        Ok(node) => {
            let mut text = String::new(rt.alloc());
            list(rt.alloc(), &node, &mut text)?;
            rt.stdout().write_all(text.as_str().as_bytes())
        }
        Err(e) => println!(rt; "{e}"),
    }
}

/// Reads the tree, and prints the most memory held while the tree exists.
pub fn hold(rt: &HostRuntime, bytes: &[u8]) -> io::Result<()> {
    let read = read(rt.alloc(), bytes);
    match &read {
        Ok(_) => peak(rt),
        Err(e) => println!(rt; "{e}"),
    }
}

/// Checks what comes on standard input, of which no more than a piece is held, and prints the most memory held.
pub fn check(rt: &HostRuntime, size: usize) -> io::Result<()> {
    let mut piece = vec![in rt.alloc(); 0u8; size]?;
    let mut input = rt.stdin();
    let mut checker = Checker::new(rt.alloc());
    for _ in 0..u64::MAX {
        let got = input.read(&mut piece)?;
        if got == 0 || checker.feed(&piece[..got]).is_err() {
            break;
        }
    }
    match checker.finish() {
        Ok(()) => println!(rt; "an archive")?,
        Err(e) => println!(rt; "{e}")?,
    }
    peak(rt)
}
