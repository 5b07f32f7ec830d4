//! Text objects to add.

ghost use Rattle.std.specs.Prelude.{◌≡◌, OnOk};
ghost use Rattle.nar.specs.Tree.{IsBytes};
ghost use Rattle.model.specs.World.{World};
ghost use Rattle.tables_outline.specs.Outline.{outline_of};
ghost use Rattle.model.specs.Adds.{added_text};
ghost use Rattle.model.specs.Tests as tests;
ghost use Rattle.model.specs.Tests.{first_failing};
ghost use Rattle.paths.specs.Path as paths;
ghost use Rattle.store_types.specs.Tested.{Gives};
ghost use Rattle.store_adds.specs.Parts.{added_view};

use crate::archives::{has_archive, text_archive};
use crate::references::are_few;
use crate::summaries::{Added, Recorded, summary};
use crate::text_tests::examine_text;
use paths::{Ca, Method, Name, StoreDir, StorePath, text_path_of};
use std::alloc::Global;
use store_types::Stop;
use tables_outline::Outline;

/// The object of a text, tested.
pub fn prepare_text(
    alloc: Global,
    dir: &StoreDir,
    outline: &Outline,
    name: &Name,
    refs: Vec<StorePath>,
    contents: &[u8],
) -> Result<Added, Stop>
    ensures reported { (w : World) → outline_of w ≡ outline.now → Gives added_view result
        (first_failing
        (tests.text_tests dir.now w (paths.text_path dir.now name.now refs.items contents.now) refs.items contents.now))
        (added_text dir.now name.now refs.items contents.now) }
    ensures bytes { OnOk result (IsBytes contents.now) }
{
    are_few(&refs)?;
    has_archive(contents)?;
    let archive = text_archive(alloc, contents)?;
    let path = text_path_of(alloc, dir, name, &refs, &archive.contents_hash)?;
    let outputs = examine_text(alloc, dir, outline, &path, &refs, contents)?;
    let size = archive.pieces.len();
    let ca = Ca::new(Method::Text, archive.contents_hash);
    let recorded = Recorded {
        refs,
        deriver: None,
        ca: Some(ca),
        outputs,
    };
    let object = summary(alloc, size, archive.hash, recorded)?;
    let added = Added {
        path,
        nar: archive.pieces,
        object,
    };
    Ok(added)
}
