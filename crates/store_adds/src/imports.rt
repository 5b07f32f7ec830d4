//! Imports: objects that are added at given paths.

ghost use Rattle.std.specs.Prelude.{◌≡◌, Err, None, OnOk};
ghost use Rattle.sha2.specs.Sha256.{sha256};
ghost use Rattle.model.specs.World.{World};
ghost use Rattle.tables_outline.specs.Outline.{outline_of};
ghost use Rattle.model.specs.Adds.{added_import};
ghost use Rattle.model.specs.Soundness.{IsWellFormedImport};
ghost use Rattle.model.specs.Tests.{first_failing, import_tests};
ghost use Rattle.store_types.specs.Tested.{Gives};
ghost use Rattle.intake.specs.Recorded.{outputs_view};
ghost use Rattle.store_adds.specs.Parts.{added_view};
ghost use Rattle.tables_sql.specs.declared.failure.Failed.TheVariants.{Memory as memory};
ghost use Rattle.store_types.specs.declared.replies.Stop.TheVariants.{Failed as failed};
ghost use Rattle.intake.specs.Described.{DescribesBytes};
ghost use Rattle.store_adds.specs.Delivered.{delivered_view};
ghost use Rattle.store_types.specs.View.{import_view};
ghost use Rattle.policy.specs.Caller.{Caller};
ghost use Rattle.store_promises.specs.Meets.{IsMet};
ghost use Rattle.model.specs.Objects as objects;
ghost use Rattle.model.specs.Request as asked;

use crate::adds::add;
use crate::archives::is_archive;
use crate::delivered::{Delivered, at_end};
use crate::derivations::outputs_by;
use crate::references::{are_few, are_valid};
use crate::summaries::{Added, Recorded, summary};
use intake::Arrived;
use paths::{StoreDir, StorePath};
use policy::{Config, store_dir};
use sqlite::Alter;
use std::alloc::Global;
use std::collections::BTreeMap;
use store_types::{Answer, Imported, Stop};
use tables_outline::Outline;
use tables_writes::Tables;

/// Tests an imported object. Returns the outputs that the object records.
fn examine_import(
    alloc: Global,
    dir: &StoreDir,
    outline: &Outline,
    import: &Delivered,
) -> Result<BTreeMap<String, StorePath>, Stop>
    requires { DescribesBytes import.now.nar }
    ensures reported { (w : World) → outline_of w ≡ outline.now → Gives (λ map. outputs_view map.entries) result
        (first_failing (import_tests dir.now w (delivered_view import.now)))
        (objects.outputs_at dir.now (delivered_view import.now).path (delivered_view import.now).nar) }
    ensures formed { OnOk result (IsWellFormedImport (delivered_view import.now)) }
    ensures hash { OnOk result ((delivered_view import.now).nar_hash ≡ sha256 (delivered_view import.now).nar) }
{
    import.has_base_names();
    are_few(&import.refs)?;
    is_archive(&import.nar)?;
    import.has_digest()?;
    import.refers_to_others()?;
    import.is_verified(alloc, dir)?;
    let outputs = outputs_by(alloc, dir, &import.path, &import.nar.pieces)?;
    are_valid(outline, &import.path, &import.refs)?;
    Ok(outputs)
}

/// The object of an import, tested. The call fails ahead of the tests if memory ran out while the archive arrived.
pub fn prepare_import(
    alloc: Global,
    dir: &StoreDir,
    outline: &Outline,
    import: Imported,
) -> Result<Added, Stop>
    ensures reported { (w : World) → outline_of w ≡ outline.now → Gives added_view result
        (first_failing (import_tests dir.now w (import_view import))) (added_import dir.now (import_view import)) }
    ensures formed { OnOk result (IsWellFormedImport (import_view import)) }
    ensures spent { import.nar ≡ None → result ≡ Err (failed memory) }
{
    let import = at_end(import)?;
    let outputs = examine_import(alloc, dir, outline, &import)?;
    let Delivered {
        path,
        nar_hash,
        refs,
        deriver,
        ca,
        nar,
    } = import;
    let Arrived { pieces, .. } = nar;
    let recorded = Recorded {
        refs,
        deriver,
        ca,
        outputs,
    };
    let object = summary(alloc, pieces.len(), nar_hash, recorded)?;
    let added = Added {
        path,
        nar: pieces,
        object,
    };
    Ok(added)
}

/// Adds an object at a given path.
pub fn import_object<S: Alter>(
    alloc: Global,
    config: &Config,
    tables: &mut Tables<S>,
    import: Imported,
) -> Result<Answer, Stop>
    requires dir { tables.old.dir ≡ config.now.store_dir }
    ensures met { (c : Caller) → IsMet S.Store config.now c (asked.import_object (import_view import)) result
        tables.old tables.new }
    // An archive that was dropped because memory ran out fails the call ahead of all tests.
    ensures spent { import.nar ≡ None → (result ≡ Err (failed memory)) × (tables.new ≡ tables.old) }
{
    let dir = store_dir(config);
    let added = prepare_import(alloc, dir, tables.outline(), import)?;
    add(tables, added)
}
