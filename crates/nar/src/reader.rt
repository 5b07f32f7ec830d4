//! Reading, by recursion over the bytes that are left.

ghost use Rattle.std.specs.Prelude.{◌≡◌, ◌<◌, ◌+◌, ◌-◌, ℕ, [], ◌∷◌, length, Ok, Err, IfOk, IfErr, codes};
ghost use Rattle.std.specs.Option.{option_copied};
ghost use Rattle.nar.specs.declared.error.NarError.{NarError as Cause};
ghost use Rattle.nar.specs.Fault.{IsFault};
ghost use Rattle.nar.specs.Tree.{Tree};
ghost use Rattle.nar.specs.Archive.{IsArchive, other, node};
ghost use Rattle.nar.specs.Steps.{word as fixed, any, file, entries, kind, entry_name, node_word};
ghost use Rattle.nar.specs.Reader.{Reads, ReadsKind, ReadsName, ReadsEntry, ReadsNode, FaultOf};
ghost use Rattle.nar.specs.Outcome.{outcome_of};
ghost use Rattle.nar.specs.Answer.{IfFault};
ghost use Rattle.nar.specs.View.{tree_of, pair_of};
ghost use Rattle.nar.specs.declared.error.NarError.TheVariants.{Memory as memory};
ghost use Rattle.std.specs.Prelude.{MatchResult};

use crate::error::NarError;
use crate::name::{is_above, is_name};
use crate::node::{Entry, Node};
use crate::string::{Place, string_of, word_of};
use crate::words::{
    CLOSE, CONTENTS, DIRECTORY, ENTRY, EXECUTABLE, MAGIC, NAME, NODE, NOTHING, OPEN, REGULAR,
    SYMLINK, TARGET, TYPE,
};
use std::alloc::Global;
use streams::MAX_ARCHIVE;

/// A string, and the bracket that closes its node.
fn text_of(at: Place<'_>) -> Result<(&[u8], Place<'_>), NarError>
    ensures ok { IfOk result
        (λ x. Reads at.entry.room at.entry.rest.now (other x.0.now ∷ other (codes ")") ∷ []) x.1.room x.1.rest.now) }
    ensures err { IfErr result (FaultOf (any ∷ fixed (codes ")") ∷ []) at.entry.room at.entry.rest.now) }
{
    let (text, at) = string_of(at)?;
    let at = word_of(at, CLOSE)?;
    Ok((text, at))
}

/// What follows the word `regular`.
fn regular_of(at: Place<'_>) -> Result<(Node<'_>, Place<'_>), NarError>
    ensures ok { IfOk result
        (λ x. (depth : ℕ)
        → ReadsKind (codes "regular") depth at.entry.room at.entry.rest.now (tree_of x.0) x.1.room x.1.rest.now) }
    ensures err { IfErr result (FaultOf (file ∷ []) at.entry.room at.entry.rest.now) }
{
    let (word, after) = string_of(at)?;
    if word == EXECUTABLE {
        let empty = word_of(after, NOTHING)?;
        let named = word_of(empty, CONTENTS)?;
        let (contents, end) = text_of(named)?;
        let node = Node::Regular {
            executable: true,
            contents,
        };
        Ok((node, end))
    } else if word == CONTENTS {
        let (contents, end) = text_of(after)?;
        let node = Node::Regular {
            executable: false,
            contents,
        };
        Ok((node, end))
    } else {
        Err(NarError::BadTag)
    }
}

/// What follows the word `symlink`.
fn symlink_of(at: Place<'_>) -> Result<(Node<'_>, Place<'_>), NarError>
    ensures ok { IfOk result
        (λ x. (depth : ℕ)
        → ReadsKind (codes "symlink") depth at.entry.room at.entry.rest.now (tree_of x.0) x.1.room x.1.rest.now) }
    ensures err { IfErr result (FaultOf (fixed (codes "target") ∷ any ∷ fixed (codes ")") ∷ []) at.entry.room
        at.entry.rest.now) }
{
    let after = word_of(at, TARGET)?;
    let (target, end) = text_of(after)?;
    Ok((Node::Symlink { target }, end))
}

/// A name that a directory may have after the last one.
fn name_of<'a>(at: Place<'a>, last: Option<&[u8]>) -> Result<(&'a [u8], Place<'a>), NarError>
    ensures ok { IfOk result
        (λ x. ReadsName (option_copied last.entry) at.entry.room at.entry.rest.now x.0.now x.1.room x.1.rest.now) }
    ensures err { IfErr result
        (λ e. (depth : ℕ)
        → FaultOf (entry_name depth (option_copied last.entry) ∷ []) at.entry.room at.entry.rest.now e) }
{
    let (name, after) = string_of(at)?;
    if !is_name(name) {
        return Err(NarError::BadName);
    }
    if !is_above(last, name) {
        return Err(NarError::NotSorted);
    }
    Ok((name, after))
}

/// The word `node` before a node of a directory at this depth.
fn node_word_of(at: Place<'_>, depth: usize) -> Result<Place<'_>, NarError>
    ensures ok { IfOk result
        (λ x. (depth < 256) × Reads at.entry.room at.entry.rest.now (node (depth + 1) ∷ []) x.room x.rest.now) }
    ensures err { IfErr result (FaultOf (node_word (depth + 1) ∷ []) at.entry.room at.entry.rest.now) }
{
    let (word, after) = string_of(at)?;
    if word != NODE {
        return Err(NarError::BadTag);
    }
    if depth >= 256 {
        return Err(NarError::TooDeep);
    }
    Ok(after)
}

/// The part after the word `entry`, in a directory at this depth.
#[cycle(reader)]
fn entry_of<'a>(
    alloc: Global,
    at: Place<'a>,
    depth: usize,
    last: Option<&[u8]>,
) -> Result<(Entry<'a>, Place<'a>), NarError>
    ensures ok { IfOk result
        (λ x. ReadsEntry (option_copied last.entry) depth at.entry.room at.entry.rest.now (pair_of x.0) x.1.room
        x.1.rest.now) }
    ensures err { IfErr result (FaultOf (fixed (codes "(") ∷ fixed (codes "name")
        ∷ entry_name depth (option_copied last.entry) ∷ []) at.entry.room at.entry.rest.now) }
{
    let opened = word_of(at, OPEN)?;
    let worded = word_of(opened, NAME)?;
    let (name, named) = name_of(worded, last)?;
    let noded = node_word_of(named, depth)?;
    let (node, ended) = node_of(alloc, noded, depth + 1)?;
    let closed = word_of(ended, CLOSE)?;
    Ok((Entry { name, node }, closed))
}

/// The part after the word `directory`, of a node at this depth.
#[cycle(reader)]
fn directory_of(
    alloc: Global,
    at: Place<'_>,
    depth: usize,
) -> Result<(Node<'_>, Place<'_>), NarError>
    ensures ok { IfOk result
        (λ x. ReadsKind (codes "directory") depth at.entry.room at.entry.rest.now (tree_of x.0) x.1.room x.1.rest.now) }
    ensures err { IfErr result (FaultOf (entries depth None ∷ []) at.entry.room at.entry.rest.now) }
{
    let mut list: Vec<Entry<'_>> = Vec::new(alloc);
    let mut place = at;
    let mut last = None;
    loop {
        let (word, after) = string_of(place)?;
        if word == CLOSE {
            return Ok((Node::Directory(list), after));
        }
        if word != ENTRY {
            return Err(NarError::BadTag);
        }
        let (entry, next) = entry_of(alloc, after, depth, last)?;
        last = Some(entry.name);
        list.push(entry)?;
        place = next;
    }
}

/// A node at this depth.
#[cycle(reader)]
fn node_of(alloc: Global, at: Place<'_>, depth: usize) -> Result<(Node<'_>, Place<'_>), NarError>
    ensures ok { IfOk result
        (λ x. ReadsNode depth at.entry.room at.entry.rest.now (tree_of x.0) x.1.room x.1.rest.now) }
    ensures err { IfErr result (FaultOf (fixed (codes "(") ∷ fixed (codes "type") ∷ kind depth
        ∷ []) at.entry.room at.entry.rest.now) }
{
    let opened = word_of(at, OPEN)?;
    let typed = word_of(opened, TYPE)?;
    let (word, after) = string_of(typed)?;
    if word == REGULAR {
        let (file, end) = regular_of(after)?;
        return Ok((file, end));
    }
    if word == SYMLINK {
        let (link, end) = symlink_of(after)?;
        return Ok((link, end));
    }
    if word == DIRECTORY {
        let (folder, end) = directory_of(alloc, after, depth)?;
        return Ok((folder, end));
    }
    Err(NarError::BadTag)
}

/// The tree whose archive the input is, with names, targets and contents borrowed from the input; or the first fault.
///
/// The format is the Nix archive (NAR) of the Nix manual, with at most 16,777,216 bytes and at most 256 nodes
/// inside one another.
///
/// ```rust
/// use nar::{NarError, Node};
///
/// let mut archive = Vec::new(alloc);
/// nar::write(&Node::Directory(Vec::new(alloc)), &mut archive)?;
/// assert!(rt; matches!(nar::read(alloc, &archive)?, Node::Directory(_)));
/// assert!(rt; matches!(nar::read(alloc, b""), Err(NarError::Truncated)));
/// ```
pub fn read(alloc: Global, input: &[u8]) -> Result<Node<'_>, NarError>
    // What is read is the archive's tree.
    ensures found { IfOk result (λ node. IsArchive (tree_of node) input.now) }
    // A fault that is returned is the input's.
    ensures fault { IfErr result (λ e. IfFault e (IsFault input.now)) }
    // So it is the outcome of the input, unless memory is refused.
    ensures outcome { MatchResult result (λ node. outcome_of input.now ≡ Ok (tree_of node))
        (λ e. IfFault e (λ f. outcome_of input.now ≡ Err f)) }
    // An archive is read, unless memory runs out.
    ensures each_archive { (t : Tree) → IsArchive t input.now
        → MatchResult result (λ node. tree_of node ≡ t) (λ e. e ≡ memory) }
    // The input's fault is returned, unless memory runs out.
    ensures each_fault { (f : Cause) → IsFault input.now f → MatchResult result (λ _. ⊥) (λ e. IfFault e (λ g. g ≡ f)) }
{
    read_whole(alloc, input)
}

/// The tree whose archive the input is, or a fault of the input.
fn read_whole(alloc: Global, input: &[u8]) -> Result<Node<'_>, NarError>
    ensures { MatchResult result (λ node. IsArchive (tree_of node) input.now) (λ e. IfFault e (IsFault input.now)) }
{
    let at = Place {
        rest: input,
        room: MAX_ARCHIVE,
    };
    let after = word_of(at, MAGIC)?;
    let (node, end) = node_of(alloc, after, 1)?;
    if !end.rest.is_empty() {
        return Err(NarError::Trailing);
    }
    Ok(node)
}
