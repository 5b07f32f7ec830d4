//! The tests of text objects, in their order.

ghost use Rattle.std.specs.Prelude.{◌≡◌, ◌≤◌, drop};
ghost use Rattle.nar.specs.Archive.{limit};
ghost use Rattle.model.specs.World.{World};
ghost use Rattle.model.specs.Objects as objects;
ghost use Rattle.tables_outline.specs.Outline.{outline_of};
ghost use Rattle.model.specs.Adds.{text_archive, text_archive_size};
ghost use Rattle.model.specs.Tests.{first_failing, text_tests};
ghost use Rattle.store_types.specs.Tested.{Gives};
ghost use Rattle.intake.specs.Recorded.{outputs_view};

use crate::archives::plain;
use crate::derivations::outputs_at;
use crate::references::{are_others, are_valid};
use paths::{StoreDir, StorePath};
use std::alloc::Global;
use std::collections::BTreeMap;
use store_types::Stop;
use tables_outline::Outline;

/// Tests a text object of few references, whose archive is small enough, at its path. Returns the outputs that the
/// object records.
pub(crate) fn examine_text(
    alloc: Global,
    dir: &StoreDir,
    outline: &Outline,
    path: &StorePath,
    refs: &[StorePath],
    contents: &[u8],
) -> Result<BTreeMap<String, StorePath>, Stop>
    requires { text_archive_size contents.now ≤ limit }
    // The first two tests of a text have passed.
    ensures { (w : World) → outline_of w ≡ outline.now → Gives (λ map. outputs_view map.entries) result
        (first_failing (drop 2 (text_tests dir.now w path.now refs.now contents.now)))
        (objects.outputs_at dir.now path.now (text_archive contents.now)) }
{
    are_others(refs, path)?;
    let file = plain(contents);
    let outputs = outputs_at(alloc, dir, path, &file)?;
    are_valid(outline, path, refs)?;
    Ok(outputs)
}
