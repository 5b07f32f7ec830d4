//! Writing: strings one after the other, by recursion over the tree.

ghost use Rattle.std.specs.Prelude.{◌≡◌, ◌∷◌, ◌++◌, ◌+◌, OnOk, OnErr, codes};
ghost use Rattle.nar.specs.String.{string};
ghost use Rattle.nar.specs.Tree.{regular, symlink};
ghost use Rattle.nar.specs.Archive.{bracketed, kind_parts, entries_parts, archive, spelling, other, IsWritable};
ghost use Rattle.nar.specs.Reader.{entry_rest};
ghost use Rattle.nar.specs.Writer.{Appends, AppendsParts, joined};
ghost use Rattle.nar.specs.View.{tree_of, pair_of, trees_of};

use crate::node::{Entry, Node};
use crate::room::archive_size;
use crate::words::{
    CLOSE, CONTENTS, DIRECTORY, ENTRY, EXECUTABLE, MAGIC, NAME, NODE, NOTHING, OPEN, REGULAR,
    SYMLINK, TARGET, TYPE,
};
use std::alloc::AllocError;

fn put_string(out: &mut Vec<u8>, text: &[u8]) -> Result<(), AllocError>
    ensures { Appends out.old.items out.new.items result (string text.now) }
{
    let padding = (8 - text.len() % 8) % 8;
    out.extend_from_slice(&(text.len() as u64).to_le_bytes())?;
    out.extend_from_slice(text)?;
    out.extend_from_slice(&[0u8; 8][..padding])?;
    Ok(())
}

fn put_strings(out: &mut Vec<u8>, texts: &[&[u8]]) -> Result<(), AllocError>
    ensures { Appends out.old.items out.new.items result (joined texts.now) }
{
    for text in texts {
        put_string(out, text)?;
    }
    Ok(())
}

fn put_file(out: &mut Vec<u8>, executable: bool, contents: &[u8]) -> Result<(), AllocError>
    ensures { AppendsParts out.old.items out.new.items result
        (λ depth. bracketed (kind_parts depth (regular executable contents.now))) }
{
    if executable {
        put_strings(
            out,
            &[
                OPEN, TYPE, REGULAR, EXECUTABLE, NOTHING, CONTENTS, contents, CLOSE,
            ],
        )
    } else {
        put_strings(out, &[OPEN, TYPE, REGULAR, CONTENTS, contents, CLOSE])
    }
}

fn put_symlink(out: &mut Vec<u8>, target: &[u8]) -> Result<(), AllocError>
    ensures { AppendsParts out.old.items out.new.items result
        (λ depth. bracketed (kind_parts depth (symlink target.now))) }
{
    put_strings(out, &[OPEN, TYPE, SYMLINK, TARGET, target, CLOSE])
}

#[cycle(writer)]
fn put_entries(out: &mut Vec<u8>, entries: &[Entry<'_>]) -> Result<(), AllocError>
    ensures { AppendsParts out.old.items out.new.items result
        (λ depth. entries_parts depth (trees_of entries.now)) }
{
    for entry in entries {
        put_entry(out, entry)?;
    }
    Ok(())
}

#[cycle(writer)]
fn put_entry(out: &mut Vec<u8>, entry: &Entry<'_>) -> Result<(), AllocError>
    ensures { AppendsParts out.old.items out.new.items result
        (λ depth. other (codes "entry") ∷ entry_rest depth (pair_of entry.now)) }
{
    put_strings(out, &[ENTRY, OPEN, NAME, entry.name, NODE])?;
    put_node(out, &entry.node)?;
    put_string(out, CLOSE)
}

#[cycle(writer)]
fn put_directory(out: &mut Vec<u8>, entries: &[Entry<'_>]) -> Result<(), AllocError>
    ensures { AppendsParts out.old.items out.new.items result
        (λ depth. bracketed (other (codes "directory") ∷ entries_parts depth (trees_of entries.now))) }
{
    put_strings(out, &[OPEN, TYPE, DIRECTORY])?;
    put_entries(out, entries)?;
    put_string(out, CLOSE)
}

#[cycle(writer)]
fn put_node(out: &mut Vec<u8>, node: &Node<'_>) -> Result<(), AllocError>
    ensures { AppendsParts out.old.items out.new.items result
        (λ depth. bracketed (kind_parts depth (tree_of node.now))) }
{
    match node {
        Node::Regular {
            executable,
            contents,
        } => put_file(out, *executable, contents),
        Node::Symlink { target } => put_symlink(out, target),
        Node::Directory(entries) => put_directory(out, entries),
    }
}

fn put_archive(out: &mut Vec<u8>, node: &Node<'_>) -> Result<(), AllocError>
    ensures { Appends out.old.items out.new.items result (spelling (archive (tree_of node.now))) }
{
    put_string(out, MAGIC)?;
    put_node(out, node)
}

/// Appends the archive of the tree: its one spelling, of at most 16,777,216 bytes.
///
/// The tree's names are legal and rise strictly in each directory, at most 256 of its nodes are nested inside one
/// another, and its archive isn't too large: `is_writable` is the test. If memory is refused, the buffer stays as it
/// was.
///
/// ```rust
/// use nar::Node;
///
/// let node = Node::Regular { executable: false, contents: b"mycontent\n" };
/// let mut archive = Vec::new(alloc);
/// nar::write(&node, &mut archive)?;
/// assert_eq!(rt; archive.len(), 128);
/// ```
pub fn write(node: &Node<'_>, out: &mut Vec<u8>) -> Result<(), AllocError>
    requires { IsWritable (tree_of node.now) }
    ensures ok { OnOk result (out.new.items ≡ out.old.items ++ spelling (archive (tree_of node.now))) }
    ensures err { OnErr result (out.new.items ≡ out.old.items) }
{
    let len = out.len();
    out.reserve(archive_size(node))?;
    match put_archive(out, node) {
        Ok(()) => Ok(()),
        Err(e) => {
            out.truncate(len);
            Err(e)
        }
    }
}
