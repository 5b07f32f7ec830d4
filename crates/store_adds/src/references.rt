//! Tests of the references of objects to add.

ghost use Rattle.std.specs.Prelude.{◌≡◌, ◌||◌, not, length, nat_le};
ghost use Rattle.std.specs.FinMap as finite;
ghost use Rattle.paths.specs.Root.{bytes_cmp, set_of};
ghost use Rattle.live.specs.Graph as graph;
ghost use Rattle.model.specs.World.{World};
ghost use Rattle.model.specs.Objects.{most_references};
ghost use Rattle.tables_outline.specs.Outline.{outline_of};
ghost use Rattle.model.specs.Tests as tests;
ghost use Rattle.model.specs.Tests.{unless};
ghost use Rattle.store_types.specs.Tested.{Tested};
ghost use Rattle.store_adds.specs.Parts.{is_complete_in};

use paths::StorePath;
use store_types::Refusal;
use streams::MAX_REFERENCES;
use tables_outline::Outline;

/// Tests that there aren't too many references, repeats counted.
pub(crate) fn are_few(refs: &[StorePath]) -> Result<(), Refusal>
    ensures { Tested result (unless (nat_le (length refs.now) most_references) Refusal.TooManyReferences) }
{
    if refs.len() > MAX_REFERENCES {
        return Err(Refusal::TooManyReferences);
    }
    Ok(())
}

/// Whether a path is among the references.
fn holds(refs: &[StorePath], path: &StorePath) -> bool
    ensures { result ≡ graph.holds refs.now path.now }
{
    refs.contains(path)
}

/// Tests that a path isn't among the references.
pub(crate) fn are_others(refs: &[StorePath], path: &StorePath) -> Result<(), Refusal>
    ensures { Tested result (unless (not (graph.holds refs.now path.now)) Refusal.SelfReference) }
{
    if holds(refs, path) {
        return Err(Refusal::SelfReference);
    }
    Ok(())
}

/// Whether a reference of a path is valid or that path.
fn is_present(outline: &Outline, path: &StorePath, reference: &StorePath) -> bool
    ensures { result ≡ (finite.contains_key outline.now.objects reference.now || graph.same reference.now path.now) }
{
    if outline.has(reference) {
        return true;
    }
    reference == path
}

/// Whether each reference of a path is valid or that path, or the path is valid already.
fn is_complete(outline: &Outline, path: &StorePath, refs: &[StorePath]) -> bool
    ensures { result ≡ is_complete_in outline.now path.now refs.now }
{
    if outline.has(path) {
        return true;
    }
    refs.iter().all(|r| is_present(outline, path, r))
}

/// Tests that each reference of a path is valid or that path, or the path is valid already.
pub(crate) fn are_valid(
    outline: &Outline,
    path: &StorePath,
    refs: &[StorePath],
) -> Result<(), Refusal>
    ensures { (w : World) → outline_of w ≡ outline.now
        → Tested result (unless (tests.is_complete w path.now refs.now) Refusal.MissingReference) }
{
    if !is_complete(outline, path, refs) {
        return Err(Refusal::MissingReference);
    }
    Ok(())
}

/// The references in their order, each once.
pub(crate) fn in_order(refs: Vec<StorePath>) -> Vec<StorePath>
    ensures { result.items ≡ finite.keys (set_of bytes_cmp refs.items) }
{
    let mut ordered = refs;
    ordered.sort_unstable();
    ordered.dedup();
    ordered
}
