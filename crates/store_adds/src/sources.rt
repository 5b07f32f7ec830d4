//! Sources: archives that are added at the paths of their contents.

ghost use Rattle.std.specs.Prelude.{◌≡◌, Err, None, OnOk};
ghost use Rattle.nar.specs.Tree.{IsBytes};
ghost use Rattle.model.specs.World.{World};
ghost use Rattle.tables_outline.specs.Outline.{outline_of};
ghost use Rattle.model.specs.Adds.{added_source};
ghost use Rattle.model.specs.Tests.{first_failing, source_tests};
ghost use Rattle.intake.specs.Arrival.{bytes_in};
ghost use Rattle.tables_sql.specs.declared.failure.Failed.TheVariants.{Memory as memory};
ghost use Rattle.store_types.specs.declared.replies.Stop.TheVariants.{Failed as failed};
ghost use Rattle.intake.specs.Described.{DescribesBytes};
ghost use Rattle.store_types.specs.Tested.{Gives};
ghost use Rattle.intake.specs.Recorded.{outputs_view};
ghost use Rattle.store_adds.specs.Parts.{added_view};
ghost use Rattle.policy.specs.Caller.{Caller};
ghost use Rattle.store_promises.specs.Meets.{IsMet};
ghost use Rattle.paths.specs.Path as paths;
ghost use Rattle.model.specs.Objects as objects;
ghost use Rattle.model.specs.Request as asked;

use crate::adds::add;
use crate::archives::is_archive;
use crate::derivations::outputs_by;
use crate::references::{are_few, are_others, are_valid};
use crate::summaries::{Added, Recorded, summary};
use intake::{Arrived, Intake};
use paths::{Ca, Method, Name, StoreDir, StorePath, source_path_of};
use policy::{Config, store_dir};
use sqlite::Alter;
use std::alloc::Global;
use std::collections::BTreeMap;
use store_types::{Answer, Stop};
use tables_outline::Outline;
use tables_writes::Tables;

/// Tests a source object. Returns the outputs that the object records.
fn examine_source(
    alloc: Global,
    dir: &StoreDir,
    outline: &Outline,
    path: &StorePath,
    refs: &[StorePath],
    nar: &Arrived,
) -> Result<BTreeMap<String, StorePath>, Stop>
    requires { DescribesBytes nar.now }
    ensures { (w : World) → outline_of w ≡ outline.now → Gives (λ map. outputs_view map.entries) result
        (first_failing (source_tests dir.now w path.now refs.now nar.now.pieces))
        (objects.outputs_at dir.now path.now nar.now.pieces) }
{
    are_few(refs)?;
    is_archive(nar)?;
    are_others(refs, path)?;
    let outputs = outputs_by(alloc, dir, path, &nar.pieces)?;
    are_valid(outline, path, refs)?;
    Ok(outputs)
}

/// The object of a source, tested. The call fails ahead of the tests if memory ran out while the archive arrived.
pub fn prepare_source(
    alloc: Global,
    dir: &StoreDir,
    outline: &Outline,
    name: &Name,
    refs: Vec<StorePath>,
    nar: Intake,
) -> Result<Added, Stop>
    ensures reported { (w : World) → outline_of w ≡ outline.now → Gives added_view result
        (first_failing
        (source_tests dir.now w (paths.source_path dir.now name.now refs.items (bytes_in nar)) refs.items
        (bytes_in nar))) (added_source dir.now name.now refs.items (bytes_in nar)) }
    ensures bytes { OnOk result (IsBytes (bytes_in nar)) }
    ensures spent { nar ≡ None → result ≡ Err (failed memory) }
{
    let nar = nar.finish()?;
    let path = source_path_of(alloc, dir, name, &refs, &nar.nar_hash)?;
    let outputs = examine_source(alloc, dir, outline, &path, &refs, &nar)?;
    let Arrived {
        nar_hash,
        pieces,
        ..
    } = nar;
    let ca = Some(Ca::new(Method::Source, nar_hash));
    let recorded = Recorded {
        refs,
        deriver: None,
        ca,
        outputs,
    };
    let object = summary(alloc, pieces.len(), nar_hash, recorded)?;
    let added = Added {
        path,
        nar: pieces,
        object,
    };
    Ok(added)
}

/// Adds a source object.
pub fn add_source<S: Alter>(
    alloc: Global,
    config: &Config,
    tables: &mut Tables<S>,
    name: Name,
    refs: Vec<StorePath>,
    nar: Intake,
) -> Result<Answer, Stop>
    requires dir { tables.old.dir ≡ config.now.store_dir }
    ensures met { (c : Caller) → IsMet S.Store config.now c (asked.add_source name refs.items (bytes_in nar)) result
        tables.old tables.new }
    // An archive that was dropped because memory ran out fails the call ahead of all tests.
    ensures spent { nar ≡ None → (result ≡ Err (failed memory)) × (tables.new ≡ tables.old) }
{
    // A store name is a text.
    let _text = name.as_str();
    let dir = store_dir(config);
    let added = prepare_source(alloc, dir, tables.outline(), &name, refs, nar)?;
    add(tables, added)
}
