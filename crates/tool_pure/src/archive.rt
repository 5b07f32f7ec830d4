//! The archive on standard input, or the refusal of its first fault.
ghost use Rattle.std.specs.Prelude.{◌≡◌, ◌≤◌, ◌⊎◌, length, IfOk, IfErr, Ok, Err, List, ℕ};
ghost use Rattle.nar.specs.Archive.{limit};
ghost use Rattle.nar.specs.Tree.{Tree};
ghost use Rattle.nar.specs.Outcome.{outcome_of};
ghost use Rattle.nar.specs.View.{tree_of};
ghost use Rattle.tool_pure.specs.Archive.{by_outcome};

use crate::stops::Stop;
use nar::Node;
use report::Failure;
use std::alloc::Global;
use streams::MAX_ARCHIVE;

/// How many bytes of an input decide whether it is an archive: 8 more than an archive has at most.
pub const MOST_OF_ARCHIVE: usize = MAX_ARCHIVE + 8;

/// The tree of an archive.
pub(crate) fn read_archive(alloc: Global, bytes: &[u8]) -> Result<Node<'_>, Stop>
    ensures ok { IfOk result (λ node. outcome_of bytes.now ≡ Ok (tree_of node)) }
    ensures fits { IfOk result (λ node. length bytes.now ≤ limit) }
    ensures err { IfErr result
        (λ e. (e ≡ Stop.Failed Failure.Memory)
        ⊎ ((text : Tree → List ℕ) → by_outcome (outcome_of bytes.now) text ≡ Err e)) }
{
    let node = nar::read(alloc, bytes)?;
    Ok(node)
}
