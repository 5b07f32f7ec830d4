//! Functions that read an archive whole.

ghost use Rattle.std.specs.Prelude.{◌≡◌, ◌++◌, Ok, Err, OnOk, IfOk, IfErr, codes, string_bytes};
ghost use Rattle.std.specs.Option.{option_copied};
ghost use Rattle.nar.specs.Tree.{Tree};
ghost use Rattle.nar.specs.Answer.{IfFault};
ghost use Rattle.nar.specs.Listing.{listing};
ghost use Rattle.nar.specs.Outcome.{outcome_of};
ghost use Rattle.nar.specs.View.{tree_of};
ghost use Rattle.intake.specs.Contents.{contents_of};

use nar::{NarError, Node};
use std::alloc::{AllocError, Global};
use streams::Pieces;

/// Appends the listing of an archive that is held in pieces. One buffer with all of its bytes is made, and dropped.
///
/// # Errors
///
/// The fault of bytes that are no archive, and `Memory`. The text stays as it was.
pub fn list(alloc: Global, pieces: &Pieces, out: &mut String) -> Result<(), NarError>
    ensures ok { OnOk result ((t : Tree) × (outcome_of pieces.now ≡ Ok t)
        × (string_bytes out.new ≡ string_bytes out.old ++ listing (codes ".") t)) }
    ensures err { IfErr result
        (λ e. (string_bytes out.new ≡ string_bytes out.old) × IfFault e (λ f. outcome_of pieces.now ≡ Err f)) }
{
    let archive = pieces.joined()?;
    let node = nar::read(alloc, &archive)?;
    nar::list(alloc, &node, out)?;
    Ok(())
}

/// The contents of a regular file, executable or not.
fn contents<'a>(node: &Node<'a>) -> Option<&'a [u8]>
    ensures { option_copied result ≡ contents_of (Ok (tree_of node.now)) }
{
    match node {
        Node::Regular { contents, .. } => Some(*contents),
        _ => None,
    }
}

/// The contents, if an archive is that of a regular file, executable or not: so the text of a derivation is read.
/// `Pieces::joined` gives the archive.
///
/// # Errors
///
/// Memory was refused.
pub fn file_contents(alloc: Global, archive: &[u8]) -> Result<Option<&[u8]>, AllocError>
    ensures { IfOk result (λ found. option_copied found ≡ contents_of (outcome_of archive.now)) }
{
    match nar::read(alloc, archive) {
        Ok(node) => Ok(contents(&node)),
        Err(fault) => match fault {
            NarError::Memory => Err(AllocError),
            _ => Ok(None),
        },
    }
}
