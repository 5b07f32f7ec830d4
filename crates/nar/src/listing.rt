//! Listings: one line a node.

ghost use Rattle.std.specs.Prelude.{◌≡◌, ◌<◌, ◌++◌, ◌+◌, OnOk, OnErr, string_bytes, codes, decimal, length};
ghost use Rattle.nar.specs.Tree.{regular, symlink, directory};
ghost use Rattle.nar.specs.Listing.{hex_digit, escape, escaped, listing, lines};
ghost use Rattle.nar.specs.View.{tree_of, pair_of, trees_of};

use crate::node::{Entry, Node};
use std::alloc::{AllocError, Global};

fn digit(n: u8) -> char
    requires { n < 16 }
    ensures { result ≡ hex_digit n }
{
    if n < 10 {
        char::from(b'0' + n)
    } else {
        char::from(87 + n)
    }
}

fn put_byte(out: &mut String, b: u8) -> Result<(), AllocError>
    ensures { OnOk result (string_bytes out.new ≡ string_bytes out.old ++ escape b) }
{
    if b < 33 || b > 126 || b == b'\\' {
        out.push_str("\\x")?;
        out.push(digit(b / 16))?;
        out.push(digit(b % 16))?;
        return Ok(());
    }
    out.push(char::from(b))?;
    Ok(())
}

fn put_escaped(out: &mut String, text: &[u8]) -> Result<(), AllocError>
    ensures { OnOk result (string_bytes out.new ≡ string_bytes out.old ++ escaped text.now) }
{
    for b in text {
        put_byte(out, *b)?;
    }
    Ok(())
}

fn list_regular(
    out: &mut String,
    path: &str,
    executable: bool,
    contents: &[u8],
) -> Result<(), AllocError>
    ensures { OnOk result (string_bytes out.new ≡ string_bytes out.old
        ++ listing path.now (regular executable contents.now)) }
{
    let size = contents.len();
    if executable {
        write!(out, "x {size} {path}\n")
    } else {
        write!(out, "r {size} {path}\n")
    }
}

fn list_symlink(out: &mut String, path: &str, target: &[u8]) -> Result<(), AllocError>
    ensures { OnOk result (string_bytes out.new ≡ string_bytes out.old ++ listing path.now (symlink target.now)) }
{
    out.push_str("l ")?;
    out.push_str(path)?;
    out.push_str(" -> ")?;
    put_escaped(out, target)?;
    out.push_str("\n")?;
    Ok(())
}

#[cycle(lister)]
fn list_entries(
    alloc: Global,
    out: &mut String,
    path: &str,
    entries: &[Entry<'_>],
) -> Result<(), AllocError>
    ensures { OnOk result (string_bytes out.new ≡ string_bytes out.old
        ++ listing path.now (directory (trees_of entries.now))) }
{
    out.push_str("d ")?;
    out.push_str(path)?;
    out.push_str("\n")?;
    for entry in entries {
        list_entry(alloc, out, path, entry)?;
    }
    Ok(())
}

#[cycle(lister)]
fn list_entry(
    alloc: Global,
    out: &mut String,
    path: &str,
    entry: &Entry<'_>,
) -> Result<(), AllocError>
    ensures { OnOk result (string_bytes out.new ≡ string_bytes out.old
        ++ listing (path.now ++ codes "/" ++ escaped (pair_of entry.now).0) (pair_of entry.now).1) }
{
    let mut inner = String::from_str(alloc, path)?;
    inner.push_str("/")?;
    put_escaped(&mut inner, entry.name)?;
    list_node(alloc, out, inner.as_str(), &entry.node)
}

#[cycle(lister)]
fn list_node(alloc: Global, out: &mut String, path: &str, node: &Node<'_>) -> Result<(), AllocError>
    ensures { OnOk result (string_bytes out.new ≡ string_bytes out.old ++ listing path.now (tree_of node.now)) }
{
    match node {
        Node::Regular {
            executable,
            contents,
        } => list_regular(out, path, *executable, contents),
        Node::Symlink { target } => list_symlink(out, path, target),
        Node::Directory(entries) => list_entries(alloc, out, path, entries),
    }
}

/// Appends the listing of the tree: a line for each node, parents first, entries in order.
///
/// The top node's path is `.`, and an entry's path is its parent's, `/` and its name. The lines are `r SIZE PATH`, `x
/// SIZE PATH` for an executable file, `l PATH -> TARGET` and `d PATH`. In names and targets a byte outside 33 to 126,
/// and a backslash, is written as `\x` and two lower-case hexadecimal digits. If memory is refused, the text stays as
/// it was.
///
/// ```rust
/// use nar::{Entry, Node};
///
/// let mut entries = Vec::new(alloc);
/// entries.push(Entry { name: b"a", node: Node::Regular { executable: false, contents: b"" } })?;
/// entries.push(Entry { name: b"b", node: Node::Symlink { target: b"a" } })?;
/// let mut text = String::new(alloc);
/// nar::list(alloc, &Node::Directory(entries), &mut text)?;
/// assert_eq!(rt; text.as_str(), "d .\nr 0 ./a\nl ./b -> a\n");
/// ```
pub fn list(alloc: Global, node: &Node<'_>, out: &mut String) -> Result<(), AllocError>
    ensures ok { OnOk result (string_bytes out.new ≡ string_bytes out.old ++ listing (codes ".") (tree_of node.now)) }
    ensures err { OnErr result (string_bytes out.new ≡ string_bytes out.old) }
{
    let mut text = String::new(alloc);
    list_node(alloc, &mut text, ".", node)?;
    out.push_str(text.as_str())
}
