//! The settings.

ghost use Rattle.std.specs.Prelude.{◌≡◌, List, ℕ, IsTrue, IfOk, MatchOption, map};
ghost use Rattle.tables_rows.specs.Entries.{setting_of};
ghost use Rattle.paths.specs.Names.{is_store_dir};
ghost use Rattle.tables_world.specs.Rows.{settings};
ghost use Rattle.tables_recognize.specs.Settings.{two_settings};
ghost use Rattle.tables_rows.specs.Frames.{MayRead, FindsInReads};

use paths::{StoreDir, StoreDirError};
use sqlite::{Alter, Connection};
use std::alloc::{AllocError, Global};
use tables_rows::meta::Setting;
use tables_rows::{Find, meta as stored};
use tables_schema::Schema;
use tables_sql::failure::Failed;

/// The store directory of these settings, if they are the two of a database of a schema.
fn directory_of(
    alloc: Global,
    all: &[Setting],
    schema: Schema,
) -> Result<Option<StoreDir>, AllocError>
    ensures { IfOk result
        (λ o. MatchOption o ((dir : List ℕ) → IsTrue (is_store_dir dir) → ¬ (map setting_of all.now
        ≡ two_settings schema dir))
        (λ d. IsTrue (is_store_dir d) × (map setting_of all.now ≡ two_settings schema d))) }
{
    let [form, place] = all else {
        return Ok(None);
    };
    if form.word.as_str() != "schema" || form.value.as_str() != schema.text() {
        return Ok(None);
    }
    if place.word.as_str() != "store-dir" {
        return Ok(None);
    }
    match StoreDir::parse(alloc, place.value.as_str()) {
        Ok(dir) => Ok(Some(dir)),
        Err(StoreDirError::BadStoreDir) => Ok(None),
        Err(StoreDirError::Memory) => Err(AllocError),
    }
}

/// The store directory of the settings, if the rows are the two of a database of this schema.
pub fn read<S: Alter>(
    alloc: Global,
    conn: &mut Connection<S>,
    schema: Schema,
) -> Result<Option<StoreDir>, Failed>
    requires frame { MayRead S.Store conn.old }
    ensures { FindsInReads S.Store conn.old conn.new result
        (λ c o. MatchOption o ((dir : List ℕ) → IsTrue (is_store_dir dir) → ¬ (c.meta ≡ settings schema dir))
        (λ d. IsTrue (is_store_dir d) × (c.meta ≡ settings schema d))) }
{
    let all = stored::All.find(alloc, conn)?;
    Ok(directory_of(alloc, all.as_slice(), schema)?)
}
