//! Derivations: the outputs that they record.
ghost use Rattle.std.specs.Prelude.{◌≡◌, Ok, if◌then◌else◌};
ghost use Rattle.std.specs.FinMap as finite;
ghost use Rattle.paths.specs.StorePath.{is_derivation};
ghost use Rattle.nar.specs.declared.error.NarError.{NarError as Fault};
ghost use Rattle.nar.specs.Outcome.{outcome_of};
ghost use Rattle.nar.specs.View.{tree_of};
ghost use Rattle.drv.specs.Outcome as outcome;
ghost use Rattle.intake.specs.Recorded.{outputs_view};
ghost use Rattle.model.specs.Objects as objects;
ghost use Rattle.model.specs.Tests.{if_derivation, outputs_fault, tree_fault};
ghost use Rattle.store_types.specs.Tested.{Gives};

use intake::{file_contents, recorded_outputs};
use nar::Node;
use paths::{StoreDir, StorePath};
use std::alloc::Global;
use std::collections::BTreeMap;
use store_types::{Refusal, Stop};
use streams::Pieces;

/// The outputs of a derivation text.
fn outputs_of(
    alloc: Global,
    dir: &StoreDir,
    text: &[u8],
) -> Result<BTreeMap<String, StorePath>, Stop>
    ensures { Gives
        (λ map. outputs_view map.entries) result (outputs_fault (outcome.outputs_of dir.now text.now))
        (objects.outputs_if_sound (outcome.outputs_of dir.now text.now)) }
{
    Ok(recorded_outputs(alloc, dir, text)?)
}

/// The outputs of a tree as a derivation: any other node than a regular file has no text.
fn outputs_in(
    alloc: Global,
    dir: &StoreDir,
    node: &Node<'_>,
) -> Result<BTreeMap<String, StorePath>, Stop>
    ensures { Gives
        (λ map. outputs_view map.entries) result (tree_fault dir.now (Ok (tree_of node.now)))
        (objects.tree_outputs {E = Fault} dir.now (Ok (tree_of node.now))) }
{
    match node {
        Node::Regular { contents, .. } => outputs_of(alloc, dir, contents),
        _ => Err(Stop::Refused(Refusal::BadDerivation)),
    }
}

/// The outputs of an archive as a derivation. The pieces are joined.
fn outputs_joined(
    alloc: Global,
    dir: &StoreDir,
    nar: &Pieces,
) -> Result<BTreeMap<String, StorePath>, Stop>
    ensures { Gives
        (λ map. outputs_view map.entries) result (tree_fault dir.now (outcome_of nar.now))
        (objects.tree_outputs dir.now (outcome_of nar.now)) }
{
    let nar = nar.joined()?;
    let Some(text) = file_contents(alloc, nar.as_slice())? else {
        return Err(Stop::Refused(Refusal::BadDerivation));
    };
    outputs_of(alloc, dir, text)
}

/// The outputs that an object records, by its archive. A derivation text alone is joined.
pub(crate) fn outputs_by(
    alloc: Global,
    dir: &StoreDir,
    path: &StorePath,
    nar: &Pieces,
) -> Result<BTreeMap<String, StorePath>, Stop>
    ensures { Gives
        (λ map. outputs_view map.entries) result (if_derivation path.now (tree_fault dir.now (outcome_of nar.now)))
        (objects.outputs_at dir.now path.now nar.now) }
{
    if path.is_derivation() {
        outputs_joined(alloc, dir, nar)
    } else {
        Ok(BTreeMap::new(alloc))
    }
}

/// The outputs that an object records: those of its tree as a derivation if its name ends in `.drv`, and else none.
pub(crate) fn outputs_at(
    alloc: Global,
    dir: &StoreDir,
    path: &StorePath,
    node: &Node<'_>,
) -> Result<BTreeMap<String, StorePath>, Stop>
    ensures { Gives
        (λ map. outputs_view map.entries) result (if_derivation path.now (tree_fault dir.now (Ok (tree_of node.now))))
        (if is_derivation path.now then objects.tree_outputs {E = Fault} dir.now (Ok (tree_of node.now)) else
        finite.empty) }
{
    if path.is_derivation() {
        outputs_in(alloc, dir, node)
    } else {
        Ok(BTreeMap::new(alloc))
    }
}
