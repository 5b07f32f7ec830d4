//! Opening a connection: by which schema its database has the store's tables, and that their rows are distinct and
//! their texts read.

ghost use Rattle.std.specs.Prelude.{◌≡◌, ◌≢◌, ◌↔◌, false, IfOk, IfErr};
ghost use Rattle.sqlite.specs.State.{HasCleanDisk, IsLive};
ghost use Rattle.sqlite.specs.Held.{state};
ghost use Rattle.tables_schema.specs.Presence.{HasNone, HasFirst, HasSecond, HasThird};
ghost use Rattle.tables_recognize.specs.Opened.{IsRecognised};
ghost use Rattle.tables_sql.specs.Failures.{FailsToTest};
ghost use Rattle.tables_schema.specs.declared.recognition.Recognised.TheVariants.{Nothing, Tables};
ghost use Rattle.tables_schema.specs.declared.schema.Schema.TheVariants.{V1, V2, V3};
ghost use Rattle.tables_recognize.specs.Tests.{IsSettled, MayTest, OnlyLooks, FindsTables};

use crate::row_tests;
use sqlite::{Alter, Connection};
use std::alloc::Global;
use tables_schema::recognition::Recognised;
use tables_schema::store_table::schema_tables;
use tables_schema::{Schema, recognition};
use tables_sql::failure::Failed;

/// The tables of the schema, which are there, or `Other` where a text in one of them isn't UTF-8. Fails with `Disk` if
/// two rows of a table share a rowid, or a rowid is no integer. Nothing changes.
fn inspect_tables<S: Alter>(
    alloc: Global,
    conn: &mut Connection<S>,
    schema: Schema,
) -> Result<Recognised, Failed>
    requires { MayTest S.Store conn.old (IsRecognised (Tables schema)) }
    ensures some { IfOk result (λ r. r ≢ Nothing) }
    ensures tested { FindsTables S.Store conn.old conn.new result }
{
    if row_tests::all(alloc, conn, schema_tables(schema))? {
        Ok(Recognised::Tables(schema))
    } else {
        Ok(Recognised::Other)
    }
}

/// Succeeds only if no fault has shut the connection. Nothing changes.
fn probe<S: Alter>(conn: &mut Connection<S>) -> Result<(), Failed>
    requires { IsSettled S.Store conn.old }
    ensures looks { OnlyLooks S.Store conn.old conn.new result }
    ensures cause { HasCleanDisk (state S.Store conn.new)
        → IfErr result (FailsToTest (state S.Store conn.old) (state S.Store conn.new) ⊥) }
{
    conn.query_all("SELECT 1", &[])?;
    Ok(())
}

/// The schema by which the connection has the store's tables, whatever they hold.
pub fn recognise<S: Alter>(conn: &Connection<S>) -> Recognised
    ensures nothing { result ≡ Nothing ↔ HasNone (state S.Store conn.now).now.schema }
    ensures first { result ≡ Tables V1 ↔ HasFirst (state S.Store conn.now).now.schema }
    ensures second { result ≡ Tables V2 ↔ HasSecond (state S.Store conn.now).now.schema }
    ensures third { result ≡ Tables V3 ↔ HasThird (state S.Store conn.now).now.schema }
    ensures live { IsLive (state S.Store conn.now) }
{
    recognition::recognise(conn.schema())
}

/// What the connection's database has of the store's tables: the tables of a schema if they are there and each text in
/// them is UTF-8. Then the connection is ready for transactions. Nothing changes. It fails when it runs out of memory,
/// for a fault of the disk, where an earlier one has shut the connection, where a limit on steps stops it, and if two
/// rows of a store's table share a rowid or a rowid is no integer.
pub fn open<S: Alter>(alloc: Global, conn: &mut Connection<S>) -> Result<Recognised, Failed>
    requires idle { conn.old.in_transaction ≡ false }
    ensures found { FindsTables S.Store conn.old conn.new result }
    ensures nothing { IfOk result (λ r. r ≡ Nothing ↔ HasNone (state S.Store conn.old).now.schema) }
{
    // Outside a transaction, what is shown is what the last commit left.
    let settled = conn.is_autocommit();
    prove!(settled);
    match recognise(conn) {
        Recognised::Tables(schema) => inspect_tables(alloc, conn, schema),
        found => {
            probe(conn)?;
            Ok(found)
        }
    }
}
