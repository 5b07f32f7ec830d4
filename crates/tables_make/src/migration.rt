//! A migration from each of the two earlier schemas.
ghost use Rattle.std.specs.Prelude.{map, string_bytes};
ghost use Rattle.sqlite.specs.Held.{state};
ghost use Rattle.tables_sql.specs.Contents.{contents_of};
ghost use Rattle.tables_sql.specs.Calls.{Leaves};
ghost use Rattle.tables_schema.specs.declared.schema.Schema.TheVariants.{V1, V2};
ghost use Rattle.tables_make.specs.Further.{grown};
ghost use Rattle.tables_make.specs.Cutting.{cut_objects, renumbered};
ghost use Rattle.tables_make.specs.Migrated.{missing_tables, HasEarlier, Grows, IsGrown};
ghost use Rattle.tables_make.specs.Migrating.{FailsToMigrate, FailsToPutBy, IsUncut, RewrittenRows, SettingRow};
ghost use Rattle.tables_rows.specs.Frames.{MayCut, IsInsideWith, Writes, IsInside};
ghost use Rattle.tables_make.specs.Commits.{StepsInside, CommitsMigration, MayMigrate, Migrates};

use crate::archive_cuts::cut_all;
use crate::further;
use sqlite::{Alter, Connection, Transaction};
use std::alloc::Global;
use tables_rows::{Delete, Find, Insert, meta, objects};
use tables_schema::Schema;
use tables_sql::failure::Failed;
use tables_sql::transaction;

/// Cuts the archives of these objects, and makes the setting that of the third schema.
fn rewrite<S: Alter>(
    alloc: Global,
    tx: &mut Transaction<'_, S>,
    bases: &[String],
) -> Result<(), Failed>
    requires { MayCut S.Store tx.old.conn IsUncut }
    ensures { Writes S.Store tx.old.conn tx.new.conn result
        (λ c. renumbered (cut_objects (map string_bytes bases.now) c))
        (RewrittenRows (contents_of (state S.Store tx.old.conn.now).now) (map string_bytes bases.now)) }
{
    cut_all(alloc, tx, bases)?;
    renumber(tx)
}

/// What a migration from the first schema writes: both further tables, the archives of these objects, and the setting.
fn write_first<S: Alter>(
    alloc: Global,
    tx: &mut Transaction<'_, S>,
    bases: &[String],
) -> Result<(), Failed>
    requires { IsInsideWith S.Store tx.old.conn (HasEarlier V1) }
    ensures { StepsInside S.Store tx.old.conn tx.new.conn result
        (λ old. Grows (missing_tables V1)
        (renumbered (cut_objects (map string_bytes bases.now) (contents_of old.now))) old)
        (λ old. FailsToPutBy (RewrittenRows (contents_of old.now) (map string_bytes bases.now)) V1 old) }
{
    further::make_both(tx)?;
    rewrite(alloc, tx, bases)
}

/// The transaction of a migration from the first schema.
fn commit_first<S: Alter>(
    alloc: Global,
    conn: &mut Connection<S>,
    bases: &[String],
) -> Result<(), Failed>
    requires { MayMigrate S.Store conn.old V1 }
    ensures { let old = (state S.Store conn.old).now in
        let contents = renumbered (cut_objects (map string_bytes bases.now) (contents_of old)) in
        let rows = RewrittenRows (contents_of old) (map string_bytes bases.now) in
        CommitsMigration S.Store conn.old conn.new result V1 rows (IsGrown (missing_tables V1) contents)
        (λ left. Leaves (grown (missing_tables V1) old) left contents) }
{
    let mut tx = transaction::begin(conn);
    write_first(alloc, &mut tx, bases)?;
    transaction::commit(tx)
}

/// Brings the tables of the first schema to the third: both further tables are made, each archive longer than a row
/// takes is cut, and the setting says the third. Archives are read one at a time. All at once, or nothing; other tables
/// keep their rows.
///
/// # Errors
///
/// Memory was refused, a row is too large, the disk failed, or no number or name is left for a table; then the tables
/// hold what they held.
pub fn from_first<S: Alter>(alloc: Global, conn: &mut Connection<S>) -> Result<(), Failed>
    requires { MayMigrate S.Store conn.old V1 }
    ensures { Migrates S.Store conn.old conn.new result V1 }
{
    let bases = objects::Keys.find(alloc, conn)?;
    commit_first(alloc, conn, &bases)
}

/// What a migration from the second schema writes: the table of temporary roots, and the setting.
fn write_second<S: Alter>(tx: &mut Transaction<'_, S>) -> Result<(), Failed>
    requires { IsInsideWith S.Store tx.old.conn (HasEarlier V2) }
    ensures { StepsInside S.Store tx.old.conn tx.new.conn result
        (λ old. Grows (missing_tables V2) (renumbered (contents_of old.now)) old) (FailsToMigrate V2) }
{
    further::make_temp_root(tx)?;
    renumber(tx)
}

/// Brings the tables of the second schema to the third: that of temporary roots is made, and the setting says the
/// third. All at once, or nothing; other tables keep their rows.
///
/// # Errors
///
/// Memory was refused, the disk failed, or no number or name is left for a table; then the tables hold what they held.
pub fn from_second<S: Alter>(conn: &mut Connection<S>) -> Result<(), Failed>
    requires { MayMigrate S.Store conn.old V2 }
    ensures { Migrates S.Store conn.old conn.new result V2 }
{
    let mut tx = transaction::begin(conn);
    write_second(&mut tx)?;
    transaction::commit(tx)
}

/// Makes the setting of the schema that of the third, whatever it was.
pub(crate) fn renumber<S: Alter>(tx: &mut Transaction<'_, S>) -> Result<(), Failed>
    requires { IsInside S.Store tx.old.conn }
    ensures { Writes S.Store tx.old.conn tx.new.conn result renumbered SettingRow }
{
    meta::Of { word: "schema" }.delete(tx)?;
    meta::Row {
        word: "schema",
        value: Schema::V3.text(),
    }
    .insert(tx)
}
