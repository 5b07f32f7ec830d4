//! Whether a tree has an archive.

ghost use Rattle.std.specs.Prelude.{◌≡◌, ◌↔◌, ◌+◌, ℕ, None, IsTrue, length};
ghost use Rattle.std.specs.Option.{option_copied};
ghost use Rattle.nar.specs.String.{size_of};
ghost use Rattle.nar.specs.Tree.{IsBytes};
ghost use Rattle.nar.specs.Archive.{IsWritable, archive, spelling};
ghost use Rattle.nar.specs.Room.{may_enter, room_after, entries_room};
ghost use Rattle.nar.specs.View.{tree_of, trees_of};

use crate::name::{is_above, is_name};
use crate::node::{Entry, Node};
use streams::MAX_ARCHIVE;

/// The bytes of an archive's first string.
const FIRST: usize = 24;

/// How many bytes a string takes.
fn size_of_string(text: &[u8]) -> usize
    ensures size { result ≡ size_of (length text.now) }
    ensures bytes { IsBytes text.now }
{
    8 + 8 * text.len().div_ceil(8)
}

/// Whether an entry of this name may follow the last one, in a directory at this depth.
fn may_follow(depth: usize, last: Option<&[u8]>, name: &[u8]) -> bool
    ensures { result ≡ may_enter depth (option_copied last.entry) name.now }
{
    if !is_name(name) {
        return false;
    }
    if !is_above(last, name) {
        return false;
    }
    depth < 256
}

/// The room that the entries leave, in a directory at this depth.
#[cycle(fitter)]
fn room_after_entries(entries: &[Entry<'_>], depth: usize, room: usize) -> Option<usize>
    ensures { result ≡ entries_room depth None room (trees_of entries.now) }
{
    let mut left = room;
    let mut last = None;
    for entry in entries {
        if !may_follow(depth, last, entry.name) {
            return None;
        }
        let inner = left.checked_sub(80 + size_of_string(entry.name))?;
        left = room_after_node(&entry.node, depth + 1, inner)?;
        last = Some(entry.name);
    }
    Some(left)
}

/// The room that the node leaves, at this depth.
#[cycle(fitter)]
fn room_after_node(node: &Node<'_>, depth: usize, room: usize) -> Option<usize>
    ensures { result ≡ room_after depth room (tree_of node.now) }
{
    match node {
        Node::Regular {
            executable,
            contents,
        } => {
            let words = if *executable { 112 } else { 80 };
            room.checked_sub(words + size_of_string(contents))
        }
        Node::Symlink { target } => room.checked_sub(80 + size_of_string(target)),
        Node::Directory(entries) => {
            let left = room.checked_sub(72)?;
            room_after_entries(entries, depth, left)
        }
    }
}

/// Whether the tree has an archive: its names are legal and rise strictly in each directory, at most 256 of its nodes
/// are nested in one another, and its archive has at most 16,777,216 bytes. Takes no memory.
///
/// ```rust
/// use nar::{Entry, Node};
///
/// let mut entries = Vec::new(alloc);
/// entries.push(Entry { name: b"b", node: Node::Symlink { target: b"a" } })?;
/// entries.push(Entry { name: b"a", node: Node::Symlink { target: b"b" } })?;
/// assert!(rt; !nar::is_writable(&Node::Directory(entries)));
/// assert!(rt; nar::is_writable(&Node::Symlink { target: b"a" }));
/// ```
pub fn is_writable(node: &Node<'_>) -> bool
    ensures { IsTrue result ↔ IsWritable (tree_of node.now) }
{
    room_after_node(node, 1, MAX_ARCHIVE - FIRST).is_some()
}

/// The number of bytes of the archive of the tree, if it has one.
pub fn archive_size(node: &Node<'_>) -> usize
    ensures { IsWritable (tree_of node.now) → result ≡ length (spelling (archive (tree_of node.now))) }
{
    let left = room_after_node(node, 1, MAX_ARCHIVE - FIRST).unwrap_or(0);
    MAX_ARCHIVE.saturating_sub(left)
}
