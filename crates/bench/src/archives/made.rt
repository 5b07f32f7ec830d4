//! What the program does without words: all of `nar` over one small directory.

use nar::{Checker, Entry, NarError, Node, is_writable, list, read, write};
use std::alloc::{AllocError, Global};
use std::io;

const FILES: u32 = 1_000;

/// The six decimal digits of a number.
fn digits(alloc: Global, n: u32) -> Result<Vec<u8>, AllocError> {
    let mut out = Vec::new(alloc);
    for place in [100_000, 10_000, 1_000, 100, 10, 1u32] {
        if place > 0 {
            out.push(b'0' + (n / place % 10) as u8)?;
        }
    }
    Ok(out)
}

/// The archive of a directory of files, each holding its own name: 96 bytes, and 192 for each file.
fn archive(alloc: Global) -> Result<Vec<u8>, AllocError> {
    let mut names = Vec::new(alloc);
    for n in 0..FILES {
        names.push(digits(alloc, n)?)?;
    }
    let mut entries = Vec::new(alloc);
    for name in &names {
        let node = Node::Regular {
            executable: false,
            contents: name,
        };
        entries.push(Entry { name, node })?;
    }
    let node = Node::Directory(entries);
    let mut out = Vec::new(alloc);
    if is_writable(&node) {
        write(&node, &mut out)?;
    }
    drop(node);
    Ok(out)
}

fn is_checked(alloc: Global, bytes: &[u8]) -> Result<(), NarError> {
    let mut checker = Checker::new(alloc);
    for piece in bytes.chunks(100) {
        checker.feed(piece)?;
    }
    checker.finish()
}

pub fn run(rt: &(impl Print + AllocGlobal)) -> io::Result<()> {
    let alloc = rt.alloc();
    let bytes = archive(alloc)?;
    println!(rt; "a directory of {FILES} files: {} bytes", bytes.len())?;
    match read(alloc, &bytes) {
        Ok(node) => {
            let mut again = Vec::new(alloc);
            if is_writable(&node) {
                write(&node, &mut again)?;
            }
            println!(rt; "read, and written as it was: {}", again == bytes)?;
            let mut text = String::new(alloc);
            list(alloc, &node, &mut text)?;
            println!(rt; "listed in {} bytes", text.len())?;
        }
        Err(e) => println!(rt; "{e}")?,
    }
    match is_checked(alloc, &bytes) {
        Ok(()) => println!(rt; "an archive in pieces of 100 bytes"),
        Err(e) => println!(rt; "{e}"),
    }
}
