//! The outputs that the archive of an object records.

ghost use Rattle.std.specs.Prelude.{◌≡◌, Ok, IfOk, IsOk, MatchOption};
ghost use Rattle.nar.specs.declared.error.NarError.{NarError as Fault};
ghost use Rattle.nar.specs.Tree.{Tree};
ghost use Rattle.nar.specs.Outcome.{outcome_of};
ghost use Rattle.drv.specs.Outcome as outcome;
ghost use Rattle.intake.specs.Recorded.{outputs_view};
ghost use Rattle.model.specs.Objects as objects;
ghost use Rattle.tables_load_objects.specs.Tested.{HoldsDerivation, IfDerivation, outputs_in};

use drv::DrvError;
use intake::{file_contents, recorded_outputs};
use paths::{StoreDir, StorePath};
use std::alloc::{AllocError, Global};
use std::collections::BTreeMap;
use streams::Pieces;

/// The outputs of a derivation text, if it is one and no two share a name.
fn outputs_of(
    alloc: Global,
    dir: &StoreDir,
    text: &[u8],
) -> Result<Option<BTreeMap<String, StorePath>>, AllocError>
    ensures { IfOk result
        (λ o. MatchOption o (¬ IsOk (outcome.outputs_of dir.now text.now))
        (λ map. IsOk (outcome.outputs_of dir.now text.now)
        × (outputs_view map.entries ≡ objects.outputs_if_sound (outcome.outputs_of dir.now text.now)))) }
{
    match recorded_outputs(alloc, dir, text) {
        Ok(found) => Ok(Some(found)),
        Err(DrvError::Memory) => Err(AllocError),
        Err(_) => Ok(None),
    }
}

/// The outputs of an archive that is a derivation's. Its text alone is read in one.
fn derivation_outputs(
    alloc: Global,
    dir: &StoreDir,
    archive: &Pieces,
) -> Result<Option<BTreeMap<String, StorePath>>, AllocError>
    ensures { (t : Tree) → outcome_of archive.now ≡ Ok t
        → IfOk result
        (λ o. MatchOption o (¬ HoldsDerivation dir.now t)
        (λ map. HoldsDerivation dir.now t
        × (outputs_view map.entries ≡ objects.tree_outputs {E = Fault} dir.now (Ok t)))) }
{
    let bytes = archive.joined()?;
    match file_contents(alloc, &bytes)? {
        Some(text) => outputs_of(alloc, dir, text),
        None => Ok(None),
    }
}

/// The outputs that an object records: those of its tree if its name ends in `.drv`, where it is a derivation's, and
/// else none.
pub(crate) fn found_in(
    alloc: Global,
    dir: &StoreDir,
    path: &StorePath,
    archive: &Pieces,
) -> Result<Option<BTreeMap<String, StorePath>>, AllocError>
    ensures { (t : Tree) → outcome_of archive.now ≡ Ok t
        → IfOk result
        (λ o. MatchOption o (¬ IfDerivation dir.now path.now t)
        (λ map. IfDerivation dir.now path.now t × (outputs_view map.entries ≡ outputs_in dir.now path.now t))) }
{
    if path.is_derivation() {
        derivation_outputs(alloc, dir, archive)
    } else {
        Ok(Some(BTreeMap::new(alloc)))
    }
}
