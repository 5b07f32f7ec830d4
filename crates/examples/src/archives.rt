//! A caller of `nar`.
use crate::fixtures::MY_FILE;
use nar::{Checker, Entry, NarError, Node, Pieces, is_writable, list, read, write};
use std::alloc::{AllocError, Global};
use std::test::Fail;

fn tree_of(alloc: Global, archive: &[u8]) -> Result<Node<'_>, NarError> {
    read(alloc, archive)
}

fn archive_of(alloc: Global, node: &Node) -> Result<Vec<u8>, Fail> {
    if !is_writable(node) {
        return Err(Fail::new("no archive"));
    }
    let mut archive = Vec::new(alloc);
    write(node, &mut archive)?;
    Ok(archive)
}

fn listing_of(alloc: Global, node: &Node) -> Result<String, AllocError> {
    let mut text = String::new(alloc);
    list(alloc, node, &mut text)?;
    Ok(text)
}

/// Whether a tree is that of the file.
fn is_my_file(node: &Node) -> bool {
    matches!(
        node,
        Node::Regular {
            executable: false,
            contents: b"mycontent\n"
        }
    )
}

#[test]
fn read_and_written(rt: HostRuntime) -> Result<(), Fail> {
    let alloc = rt.alloc();
    let node = tree_of(alloc, MY_FILE)?;
    assert!(rt; is_my_file(&node));
    assert!(rt; archive_of(alloc, &node)?.as_slice() == MY_FILE);
    assert!(rt; listing_of(alloc, &node)?.as_str() == "r 10 .\n");
    Ok(())
}

/// A directory with the empty file `a` and the link `b` to it.
fn directory(alloc: Global) -> Result<Node<'static>, AllocError> {
    let mut entries = Vec::new(alloc);
    entries.push(Entry {
        name: b"a",
        node: Node::Regular {
            executable: false,
            contents: b"",
        },
    })?;
    entries.push(Entry {
        name: b"b",
        node: Node::Symlink { target: b"a" },
    })?;
    Ok(Node::Directory(entries))
}

#[test]
fn made_and_listed(rt: HostRuntime) -> Result<(), Fail> {
    let alloc = rt.alloc();
    let archive = archive_of(alloc, &directory(alloc)?)?;
    let text = listing_of(alloc, &tree_of(alloc, &archive)?)?;
    assert!(rt; text.as_str() == "d .\nr 0 ./a\nl ./b -> a\n");
    Ok(())
}

fn fault_of(alloc: Global, archive: &[u8]) -> Option<NarError> {
    match read(alloc, archive) {
        Ok(_) => None,
        Err(e) => Some(e),
    }
}

/// Bytes without the last of them.
fn shorter(bytes: &[u8]) -> &[u8] {
    &bytes[..bytes.len().saturating_sub(1)]
}

/// Bytes with another after them.
fn longer(alloc: Global, bytes: &[u8]) -> Result<Vec<u8>, Fail> {
    let mut more = Vec::from_slice(alloc, bytes)?;
    more.push(0)?;
    Ok(more)
}

// An archive ends early, goes on, or begins with a length above the limit.
#[test]
fn refused_archives(rt: HostRuntime) -> Result<(), Fail> {
    let alloc = rt.alloc();
    assert_eq!(rt; fault_of(alloc, b""), Some(NarError::Truncated));
    assert_eq!(rt;
        fault_of(alloc, shorter(MY_FILE)),
        Some(NarError::Truncated)
    );
    assert_eq!(rt; fault_of(alloc, &[0xff; 8]), Some(NarError::TooLarge));
    assert_eq!(rt;
        fault_of(alloc, &longer(alloc, MY_FILE)?),
        Some(NarError::Trailing)
    );
    Ok(())
}

fn feed(checker: &mut Checker, piece: &[u8]) -> Result<(), NarError> {
    checker.feed(piece)
}

fn end_of(checker: Checker) -> Result<(), NarError> {
    checker.finish()
}

/// Feeds a checker byte by byte.
fn check(alloc: Global, archive: &[u8]) -> Result<(), NarError> {
    let mut checker = Checker::new(alloc);
    for byte in archive {
        feed(&mut checker, &[*byte])?;
    }
    end_of(checker)
}

// A checker repeats its error.
#[test]
fn checked_in_pieces(rt: HostRuntime) -> Result<(), Fail> {
    check(rt.alloc(), MY_FILE)?;
    let mut checker = Checker::new(rt.alloc());
    feed(&mut checker, MY_FILE)?;
    assert_eq!(rt; feed(&mut checker, b"\0"), Err(NarError::Trailing));
    assert_eq!(rt; feed(&mut checker, b""), Err(NarError::Trailing));
    assert_eq!(rt; end_of(checker), Err(NarError::Trailing));
    Ok(())
}

/// Some bytes, repeated `count` times.
fn repeated(alloc: Global, bytes: &[u8], count: usize) -> Result<Pieces, AllocError> {
    let mut pieces = Pieces::new(alloc);
    for _ in 0..count {
        pieces.push(bytes)?;
    }
    Ok(pieces)
}

fn counts_of(pieces: &Pieces) -> (usize, usize) {
    (pieces.len(), pieces.count())
}

fn joined(pieces: &Pieces) -> Result<Vec<u8>, AllocError> {
    pieces.joined()
}

fn first_of(pieces: &Pieces) -> &[u8] {
    pieces.first()
}

/// The piece at a place, if there is one.
fn piece_at(pieces: &Pieces, i: usize) -> Option<&[u8]> {
    let before = i.checked_mul(65_536)?;
    if before < pieces.len() {
        Some(pieces.piece(i))
    } else {
        None
    }
}

// A piece has 65,536 bytes, which are 512 archives.
#[test]
fn cut_in_pieces(rt: HostRuntime) -> Result<(), Fail> {
    let pieces = repeated(rt.alloc(), MY_FILE, 513)?;
    assert_eq!(rt; counts_of(&pieces), (65_664, 2));
    assert!(rt; joined(&pieces)?.starts_with(MY_FILE));
    assert!(rt; first_of(&pieces).starts_with(MY_FILE));
    assert!(rt; matches!(piece_at(&pieces, 1), Some(piece) if piece == MY_FILE));
    assert!(rt; piece_at(&pieces, 2).is_none());
    Ok(())
}
