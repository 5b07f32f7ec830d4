//! The tests of the store's tables: that each row has a rowid of its own, an integer, and that the texts are UTF-8.

ghost use Rattle.std.specs.Prelude.{◌<◌, length};
ghost use Rattle.std.specs.List.{AllByRecursion};
ghost use Rattle.tables_schema.specs.Intact.{IsIntact};
ghost use Rattle.tables_schema.specs.StoreTables.{form};
ghost use Rattle.tables_recognize.specs.Tables.{HasOwnRowids, HasReadableTexts};
ghost use Rattle.tables_recognize.specs.Tests.{MayTest, TestsRows};

use crate::{queries, tested_rows};
use sqlite::{Alter, Connection};
use std::alloc::Global;
use tables_schema::store_table::StoreTable;
use tables_sql::failure::Failed;

/// Whether each text of the table is UTF-8. Fails with `Disk` if two of its rows share a rowid, or a rowid is no
/// integer. Nothing changes. No archive is shown, nor the bytes of a piece.
fn one<S: Alter>(alloc: Global, conn: &mut Connection<S>, table: StoreTable) -> Result<bool, Failed>
    requires { MayTest S.Store conn.old (λ schema. IsIntact schema (form table)) }
    ensures { TestsRows S.Store conn.old conn.new result
        (λ db. HasOwnRowids db table)
        (λ db. HasReadableTexts db table) }
{
    tested_rows::check(alloc, conn, queries::rows(table))
}

/// Tests some tables, one after another.
pub(crate) fn all<S: Alter>(
    alloc: Global,
    conn: &mut Connection<S>,
    tables: &[StoreTable],
) -> Result<bool, Failed>
    requires some { 0 < length tables.now }
    requires frame { MayTest S.Store conn.old
        (λ schema. AllByRecursion (λ t. IsIntact schema (form t)) tables.now) }
    ensures { TestsRows S.Store conn.old conn.new result
        (λ db. AllByRecursion (HasOwnRowids db) tables.now)
        (λ db. AllByRecursion (HasReadableTexts db) tables.now) }
{
    let mut readable = true;
    'tables: for table in tables {
        readable &= one(alloc, conn, *table)?;
    }
    Ok(readable)
}
